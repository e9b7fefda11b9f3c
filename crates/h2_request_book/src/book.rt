//! The book of answers: its entries in order, what it refuses, and the answer that a request picks. The definitions are
//! `entry_fault` of `h2_spec`, specs/Requests/Book.antt, and `pick_of` and `picked` of specs/Requests/Answer.antt.

ghost use Rattle.std.specs.Prelude.{None, ◌≡◌, ◌+◌, ◌≤◌, ◌==◌, ◌&&◌, ◌||◌, [], ◌∷◌, ◌++◌, OnOk, OnErr, IfOk, IfErr, option_map, codes, length, nat_lt, position, bytes_eq, take};
ghost use Rattle.std.specs.List.{list_any};
ghost use Rattle.h2_spec.specs.Requests.Answer.{bare as bare_answer, pick_of, picked};
ghost use Rattle.h2_spec.specs.Requests.Book.{entry_fault};
ghost use Rattle.h2_spec.specs.Requests.Book as spec;
ghost use Rattle.h2_request_book.specs.Asked.{asked};
ghost use Rattle.h2_request_book.specs.Fault.{IsRefusal, entry_number};
ghost use Rattle.h2_spec.specs.Change.{flag_if};
ghost use Rattle.h2_spec.specs.Frames.Frame.{frame, frame_octets};
ghost use Rattle.h2_request_book.specs.Lent.{answered, AreFramesOf, block_of_answer, body_frame_of_answer, headers_of_answer, IsPickOf};
ghost use Rattle.h2_spec.specs.declared.streams.Pick.TheVariants.{Listed};

use crate::asked::Request;
use crate::block_length::is_block_too_long;
use crate::entry_fields::EntryFields;
use crate::fault::{BookFault, EntryFault};
use crate::firsts::Firsts;
use h2_frame::append_frame;
use h2_hpack_instruction::field::Field;
use h2_hpack_instruction::octets::Octets;
use h2_hpack_instruction::response::response_block;
use h2_hpack_validity::octets;
use h2_spec::frames::{DATA, END_HEADERS, END_STREAM, HEADERS};
use h2_spec::octets::octets_from;
pub use h2_spec::streams::Pick;
use std::alloc::{AllocError, Allocator};
use std::marker::Model;

/// The most entries of a book.
pub const MAX_ENTRIES: usize = 1000;

/// The most octets of an answer's body.
pub const MAX_BODY: usize = 1_048_576;

/// An entry of the book: the answer to requests with this method and this path.
#[derive(Drop)]
pub struct Entry<A: Allocator> {
    /// The method that requests have to have, octet for octet.
    pub method: Octets<A>,
    /// The path that requests have to have, octet for octet.
    pub path: Octets<A>,
    /// The status of the answer, 200 to 599.
    pub status: u16,
    /// The fields of the answer besides its status, in their order.
    pub fields: EntryFields<A>,
    /// The body of the answer; may be empty.
    pub body: Octets<A>,
    /// Whether the answer begins at the end of the request's fields, although the request may go on (RFC 9113, 8.1);
    /// otherwise it begins at the end of the request.
    pub early: bool,
}

impl<A: Allocator> Model for Entry<A> {
    ghost use Rattle.h2_spec.specs.Requests.Answer as spec;

    ghost Value = { spec.Entry };

    ghost view = { λ e. record { method = e.method; path = e.path; answer = record (spec.answer e.status e.fields e.body) { early = e.early } } };
}

/// An answer, lent by its book.
#[derive_where(Clone, Copy)]
pub struct Answer<'a, A: Allocator> {
    /// The status, 200 to 599.
    pub status: u16,
    /// The fields besides the status.
    pub fields: &'a [Field<A>],
    /// The body.
    pub body: &'a [u8],
    /// Whether it begins at the end of the request's fields, although the request may go on.
    pub early: bool,
}

/// An entry, with the frames of its answer on stream 0 as octets: HEADERS without a table size update, and one DATA of
/// the whole body, which ends the stream.
struct Stored<A: Allocator> {
    method: Octets<A>,
    path: Octets<A>,
    status: u16,
    fields: EntryFields<A>,
    early: bool,
    headers: Vec<u8, A>,
    body_frame: Vec<u8, A>,
}

impl<A: Allocator> Model for Stored<A> {
    ghost use Rattle.std.specs.Prelude.{◌≡◌, ◌≤◌, length, drop};
    ghost use Rattle.h2_spec.specs.Requests.Answer as spec;
    ghost use Rattle.h2_request_book.specs.Lent.{AreFramesOf};

    ghost Value = { spec.Entry };

    ghost view = { λ s. record { method = s.method; path = s.path; answer = record (spec.answer s.status s.fields (drop 9 s.body_frame.items)) { early = s.early } } };

    ghost invariant = { λ s. AreFramesOf (record (spec.answer s.status s.fields (drop 9 s.body_frame.items)) { early = s.early }) s.headers.items s.body_frame.items };
}

/// By hand, so that a function that drops it makes one call, where a derived `Drop` would drop each part there.
impl<A: Allocator> Drop for Stored<A> {
    fn drop(self) {
        let Self {
            method: _,
            path: _,
            status: _,
            fields: _,
            early: _,
            headers: _,
            body_frame: _,
        } = self;
    }
}

/// A list of entries, each of which may be answered with.
#[derive(Drop)]
pub struct Book<A: Allocator> {
    entries: Vec<Stored<A>, A>,
    /// The place of the first entry with each method and path: a later one is never found.
    firsts: Firsts<A>,
}

impl<A: Allocator> Model for Book<A> {
    ghost use Rattle.std.specs.Prelude.{List};
    ghost use Rattle.h2_spec.specs.Requests.Answer as spec;
    ghost use Rattle.h2_request_book.specs.Firsts.{AreFirsts};

    ghost Value = { List spec.Entry };

    ghost view = { λ b. b.entries.items };

    ghost invariant = { λ b. AreFirsts b.firsts b.entries.items };
}

impl<A: Allocator + Copy> Book<A> {
    /// A book without entries; no memory is taken.
    pub fn new(alloc: A) -> Self
        ensures { result ≡ [] }
    {
        Book {
            entries: Vec::new(alloc),
            firsts: Firsts::new(alloc),
        }
    }

    /// Puts an entry after those of the book.
    ///
    /// # Errors
    ///
    /// The entry is dropped and the book is as it was. `BadEntry` with the first of these that holds. `BadStatus`: the
    /// status is outside 200 to 599. `BadField`: a name or value is ill-formed, or a field is one of a connection, a
    /// pseudo-field or `content-length` (RFC 9113, 8.2 and 8.3). `BodyNotAllowed`: a body with status 204, 205 or 304,
    /// or for the method HEAD. `TooLong`: the book has 1000 entries, the body is above 1,048,576 octets, or the
    /// response's field block is above 16,383. Where the entry is allowed: `NoMemory`, the growth was refused.
    pub fn add(&mut self, entry: Entry<A>) -> Result<(), BookFault>
        ensures added { OnOk result (self.new ≡ self.old ++ entry ∷ []) }
        ensures allowed { OnOk result (entry_fault self.old entry ≡ None) }
        ensures kept { OnErr result (self.new ≡ self.old) }
        ensures refused { IfErr result (λ fault. IsRefusal (entry_fault self.old entry) fault) }
    {
        let stored = self.stored(entry)?;
        self.entries.reserve(1)?;
        self.firsts
            .note(&stored.method, &stored.path, self.entries.len())?;
        self.entries.push_reserved(stored);
        Ok(())
    }

    /// The entry with the frames of its answer, where it is allowed.
    fn stored(&self, entry: Entry<A>) -> Result<Stored<A>, BookFault>
        ensures same { IfOk result (λ stored. stored ≡ entry) }
        ensures allowed { OnOk result (entry_fault self.now entry ≡ None) }
        ensures refused { IfErr result (λ fault. IsRefusal (entry_fault self.now entry) fault) }
    {
        let (headers, body_frame) = self.frames_for(&entry)?;
        Ok(with_frames(entry, headers, body_frame))
    }

    /// The HEADERS and the DATA of an entry's answer on stream 0, where the entry is allowed.
    fn frames_for(&self, entry: &Entry<A>) -> Result<(Vec<u8, A>, Vec<u8, A>), BookFault>
        ensures allowed { OnOk result (entry_fault self.now entry.now ≡ None) }
        ensures frames { IfOk result (λ frames. AreFramesOf entry.now.answer frames.0.items frames.1.items) }
        ensures refused { IfErr result (λ fault. IsRefusal (entry_fault self.now entry.now) fault) }
    {
        match self.fault_of(entry) {
            Some(fault) => Err(BookFault::BadEntry(fault)),
            None => {
                let alloc = *self.entries.allocator();
                let body = entry.body.as_slice();
                let block = response_block(alloc, false, entry.status, entry.fields.as_slice())?;
                let headers = headers_of_block(alloc, body.is_empty(), block.as_slice())?;
                let body_frame = frame_of_body(alloc, body)?;
                Ok((headers, body_frame))
            }
        }
    }
}

impl<A: Allocator> Book<A> {
    /// How many entries there are, at most 1000.
    pub fn len(&self) -> usize
        ensures { result ≡ length self.now }
    {
        self.entries.len()
    }

    /// Keeps the first `count` entries, in their order, and drops the others; all are kept where there are no more.
    /// Takes no memory.
    pub fn truncate(&mut self, count: usize)
        ensures { self.new ≡ take count self.old }
    {
        self.firsts.truncate(count);
        self.entries.truncate(count);
    }

    /// Why the entry is refused, if it is for another cause than memory.
    #[tactic(auto, unfolding(h2_spec::specs::Requests::Book::entry_fault))]
    fn fault_of(&self, entry: &Entry<A>) -> Option<EntryFault>
        ensures { entry_fault self.now entry.now ≡ option_map entry_number result }
    {
        if is_bad_status(entry.status) {
            Some(EntryFault::BadStatus)
        } else if has_bad_field(entry.fields.as_slice()) {
            Some(EntryFault::BadField)
        } else if has_body_not_allowed(entry) {
            Some(EntryFault::BodyNotAllowed)
        } else if self.is_too_long(entry) {
            Some(EntryFault::TooLong)
        } else {
            None
        }
    }

    /// Whether the book is full, or the entry's body or field block is above its limit.
    fn is_too_long(&self, entry: &Entry<A>) -> bool
        ensures { result ≡ spec.is_too_long self.now entry.now }
    {
        self.entries.len() >= MAX_ENTRIES
            || is_body_too_long(entry.body.as_slice())
            || is_block_too_long(entry.status, entry.fields.as_slice())
    }

    /// What a request picks: the first entry whose method and path are its octets, or none; CONNECT picks no entry.
    #[tactic(auto, unfolding(h2_spec::specs::Requests::Answer::pick_of))]
    pub fn find(&self, request: &Request<'_>) -> Pick
        ensures first { result ≡ pick_of self.now (asked request.now) }
        ensures kept { IsPickOf self.now result }
    {
        if request.connect {
            return Pick::Connect;
        }
        match self.place_of(request.method, request.path) {
            Some(place) => Pick::Listed(place),
            None => Pick::NotFound,
        }
    }

    fn place_of(&self, method: &[u8], path: &[u8]) -> Option<usize>
        ensures { result ≡ position (λ e. bytes_eq e.method method.now && bytes_eq e.path path.now) self.now }
    {
        self.firsts.place_of(method, path)
    }

    /// The answer to a request that made this pick: that of the entry, or a bare 404 or 501; a bare 404 too where there
    /// is no such entry, which `find` of this book never picks.
    pub fn answer(&self, pick: Pick) -> Answer<'_, A>
        ensures { answered result ≡ picked self.now pick }
    {
        match pick {
            Pick::Listed(place) => self.answer_at(place),
            Pick::NotFound => self.bare(404),
            Pick::Connect => self.bare(501),
        }
    }

    /// The answer of the entry at a place, or a bare 404.
    fn answer_at(&self, place: usize) -> Answer<'_, A>
        ensures { answered result ≡ picked self.now (Listed place) }
    {
        match self.entries.get(place) {
            Some(stored) => answer_of(stored),
            None => self.bare(404),
        }
    }

    /// The HEADERS of that answer, as octets that end the fields, and the stream where there is no body (RFC 9113, 6.2):
    /// on stream 0, so its last four octets before the field block are to be those of the stream. It has no table size
    /// update, and was made when the entry was added.
    pub fn headers(&self, pick: Pick) -> &[u8]
        ensures headers { result.now ≡ headers_of_answer (picked self.now pick) }
        ensures within { length (block_of_answer (picked self.now pick)) ≤ 16383 }
    {
        match pick {
            Pick::Listed(place) => self.headers_at(place),
            Pick::NotFound => headers_404(),
            Pick::Connect => headers_501(),
        }
    }

    /// The HEADERS of the entry at a place, or those of a bare 404.
    fn headers_at(&self, place: usize) -> &[u8]
        ensures headers { result.now ≡ headers_of_answer (picked self.now (Listed place)) }
        ensures within { length (block_of_answer (picked self.now (Listed place))) ≤ 16383 }
    {
        match self.entries.get(place) {
            Some(stored) => headers_of(stored),
            None => headers_404(),
        }
    }

    /// The field block of those HEADERS, at most 16,383 octets, without a table size update.
    pub fn block(&self, pick: Pick) -> &[u8]
        ensures block { result.now ≡ block_of_answer (picked self.now pick) }
        ensures within { length result.now ≤ 16383 }
    {
        octets_from(self.headers(pick), 9)
    }

    /// The whole body of that answer as one DATA that ends the stream, as octets (RFC 9113, 6.1): on stream 0, so the
    /// last four octets of its head are to be those of the stream. It was made when the entry was added.
    pub fn body_frame(&self, pick: Pick) -> &[u8]
        ensures { result.now ≡ body_frame_of_answer (picked self.now pick) }
    {
        match pick {
            Pick::Listed(place) => self.body_frame_at(place),
            Pick::NotFound | Pick::Connect => frame_of_nothing(),
        }
    }

    /// The DATA of the entry at a place, or that of a bare 404.
    fn body_frame_at(&self, place: usize) -> &[u8]
        ensures { result.now ≡ body_frame_of_answer (picked self.now (Listed place)) }
    {
        match self.entries.get(place) {
            Some(stored) => body_frame_of(stored),
            None => frame_of_nothing(),
        }
    }

    /// A status alone, once the request has ended.
    fn bare(&self, status: u16) -> Answer<'_, A>
        ensures { answered result ≡ bare_answer status }
    {
        Answer {
            status,
            fields: &[],
            body: b"".as_slice(),
            early: false,
        }
    }
}

/// An entry with the frames of its answer.
fn with_frames<A: Allocator>(
    entry: Entry<A>,
    headers: Vec<u8, A>,
    body_frame: Vec<u8, A>,
) -> Stored<A>
    requires { AreFramesOf entry.answer headers.items body_frame.items }
    ensures { result ≡ entry }
{
    let Entry {
        method,
        path,
        status,
        fields,
        body: _body,
        early,
    } = entry;
    Stored {
        method,
        path,
        status,
        fields,
        early,
        headers,
        body_frame,
    }
}

fn answer_of<A: Allocator>(stored: &Stored<A>) -> Answer<'_, A>
    ensures { answered result ≡ stored.now.answer }
{
    Answer {
        status: stored.status,
        fields: stored.fields.as_slice(),
        body: octets_from(stored.body_frame.as_slice(), 9),
        early: stored.early,
    }
}

fn headers_of<A: Allocator>(stored: &Stored<A>) -> &[u8]
    ensures headers { result.now ≡ headers_of_answer stored.now.answer }
    ensures within { length (block_of_answer stored.now.answer) ≤ 16383 }
{
    stored.headers.as_slice()
}

fn body_frame_of<A: Allocator>(stored: &Stored<A>) -> &[u8]
    ensures { result.now ≡ body_frame_of_answer stored.now.answer }
{
    stored.body_frame.as_slice()
}

/// The DATA of no octets on stream 0, which is never sent.
#[tactic(auto, unfolding(h2_spec::specs::Frames::Frame::frame_octets))]
fn frame_of_nothing() -> &'static [u8]
    ensures { result.now ≡ frame_octets (frame 0 1 0 []) }
{
    b"\x00\x00\x00\x00\x01\x00\x00\x00\x00".as_slice()
}

/// The HEADERS of a bare 404, whose block is the index of `:status: 404` (RFC 7541, Appendix A).
#[tactic(auto, unfolding(h2_spec::specs::Requests::Answer::response_block, h2_spec::specs::Frames::Frame::frame_octets))]
fn headers_404() -> &'static [u8]
    ensures headers { result.now ≡ headers_of_answer (bare_answer 404) }
    ensures within { length (block_of_answer (bare_answer 404)) ≤ 16383 }
{
    b"\x00\x00\x01\x01\x05\x00\x00\x00\x00\x8d".as_slice()
}

/// The HEADERS of a bare 501, whose block is the index of the name `:status`, and its value (RFC 7541, 6.2.2).
#[tactic(auto, unfolding(h2_spec::specs::Requests::Answer::response_block, h2_spec::specs::Frames::Frame::frame_octets))]
fn headers_501() -> &'static [u8]
    ensures headers { result.now ≡ headers_of_answer (bare_answer 501) }
    ensures within { length (block_of_answer (bare_answer 501)) ≤ 16383 }
{
    b"\x00\x00\x05\x01\x05\x00\x00\x00\x00\x08\x03501".as_slice()
}

/// The HEADERS with this field block on stream 0, which end the stream where the answer has no body.
fn headers_of_block<A: Allocator>(
    alloc: A,
    is_empty: bool,
    block: &[u8],
) -> Result<Vec<u8, A>, AllocError>
    requires { length block.now ≤ 16383 }
    ensures { IfOk result (λ headers. headers.items ≡ frame_octets (frame 1 (4 + flag_if is_empty 1) 0 block.now)) }
{
    let mut headers = Vec::new(alloc);
    append_frame(
        HEADERS,
        response_flags(is_empty),
        0,
        &[],
        block,
        &mut headers,
    )?;
    Ok(headers)
}

/// The DATA of these octets on stream 0, which ends the stream.
fn frame_of_body<A: Allocator>(alloc: A, body: &[u8]) -> Result<Vec<u8, A>, AllocError>
    requires { length body.now ≤ 1048576 }
    ensures { IfOk result (λ octets. octets.items ≡ frame_octets (frame 0 1 0 body.now)) }
{
    let mut octets = Vec::new(alloc);
    append_frame(DATA, END_STREAM, 0, &[], body, &mut octets)?;
    Ok(octets)
}

/// END_HEADERS, and END_STREAM where the answer has no body.
fn response_flags(is_empty: bool) -> u8
    ensures { result ≡ 4 + flag_if is_empty 1 }
{
    if is_empty {
        END_HEADERS + END_STREAM
    } else {
        END_HEADERS
    }
}

/// Whether no answer has this status.
fn is_bad_status(status: u16) -> bool
    ensures { result ≡ spec.is_bad_status status }
{
    status < 200 || status > 599
}

/// Whether a field is not allowed in an answer.
fn is_bad_field<A: Allocator>(field: &Field<A>) -> bool
    ensures { result ≡ spec.is_bad_field field.now }
{
    let name = field.name.as_slice();
    let value = field.value.as_slice();
    octets::is_bad_name(name)
        || octets::is_bad_value(value)
        || octets::is_connection_name(name)
        || octets::is_pseudo_name(name)
        || octets::same(name, b"content-length")
}

fn has_bad_field<A: Allocator>(fields: &[Field<A>]) -> bool
    ensures { result ≡ list_any spec.is_bad_field fields.now }
{
    fields.iter().any(|field| is_bad_field(field))
}

/// Whether no answer has a body of that many octets.
fn is_body_too_long(body: &[u8]) -> bool
    ensures { result ≡ nat_lt spec.max_body (length body.now) }
{
    body.len() > MAX_BODY
}

/// Whether there is a body where none may be.
fn has_body_not_allowed<A: Allocator>(entry: &Entry<A>) -> bool
    ensures { result ≡ spec.has_body_not_allowed entry.now }
{
    !entry.body.as_slice().is_empty() && is_without_content(entry.status, entry.method.as_slice())
}

/// Whether a response with this status, or to this method, has no content (RFC 9110, 6.4.1 and 15).
fn is_without_content(status: u16, method: &[u8]) -> bool
    ensures { result ≡ (status == 204 || status == 205 || status == 304 || bytes_eq method.now (codes "HEAD")) }
{
    status == 204 || status == 205 || status == 304 || octets::same(method, b"HEAD")
}
