//! What is noted of the streams and of the open field block while a connection is explained: at which items they began
//! and ended. Definitions: `specs/Notes.antt`.

ghost use Rattle.std.specs.Prelude.{◌≡◌, ℕ, false, true, OnErr, OnOk};
ghost use Rattle.std.specs.BTreeMap.{IsEmpty, IsUnchanged};
ghost use Rattle.h2_explain_item.specs.Notes.{Sees, block_end_after, ends_block, first_item, has_client_ended, is_closed, is_noted, is_opened, note_of, note_or, noted, unnoted};

use h2_spec::frames::{CONTINUATION, END_HEADERS, HEADERS, Head};
use h2_spec::streams::{Stream, StreamState};
use std::alloc::{AllocError, Allocator, Global};
use std::collections::BTreeMap;

/// What is noted of a stream; an item's number is 0 where there was none.
#[derive(Clone, Copy)]
pub struct StreamNote {
    /// The item that ended the client's side.
    pub ended: u64,
    /// The item that closed the stream.
    pub closed: u64,
    /// The stream when it was looked at last.
    pub seen: Stream,
}

// An ordered map, so that no choice of identifiers is expensive; the greatest is looked at first, since
// streams open in rising order.
/// What is noted of a connection; an item's number is 0 where there was none.
#[derive(Drop)]
pub struct Notes<A: Allocator = Global> {
    /// The note of each stream that was opened, by its identifier.
    pub streams: BTreeMap<u32, StreamNote, A>,
    /// The item that began the open field block, or the last one.
    pub block: u64,
    /// The item that ended the last field block.
    pub block_end: u64,
}

/// Whether the client has ended its side of a stream in this state (RFC 9113, 5.1).
pub fn has_client_ended(kind: StreamState) -> bool
    ensures { result ≡ has_client_ended kind }
{
    matches!(kind, StreamState::HalfRemote | StreamState::Ended)
}

/// Whether a stream in this state is closed (RFC 9113, 5.1).
fn is_closed(kind: StreamState) -> bool
    ensures { result ≡ is_closed kind }
{
    matches!(
        kind,
        StreamState::Skipped | StreamState::Ended | StreamState::PeerReset | StreamState::WeReset
    )
}

/// Whether a request opened a stream in this state (RFC 9113, 5.1).
pub fn is_opened(kind: StreamState) -> bool
    ensures { result ≡ is_opened kind }
{
    !matches!(kind, StreamState::Idle | StreamState::Skipped)
}

/// Whether a stream is noted: one that was opened, and not 0.
fn is_noted(stream: &Stream) -> bool
    ensures { result ≡ is_noted stream.now }
{
    stream.id != 0 && is_opened(stream.kind)
}

impl StreamNote {
    /// Whether nothing changes where the stream is noted once more as it was seen last: its ends are noted already.
    pub fn is_settled(&self) -> bool
        ensures { result ≡ true → (number : ℕ) → noted self.now number number self.now.seen ≡ self.now }
    {
        let kind = self.seen.kind;
        (self.ended > 0 || !has_client_ended(kind)) && (self.closed > 0 || !is_closed(kind))
    }
}

/// The note of a stream of which nothing was noted.
fn unnoted(stream: Stream) -> StreamNote
    ensures { result ≡ unnoted stream }
{
    StreamNote {
        ended: 0,
        closed: 0,
        seen: stream,
    }
}

/// The note that there was, or that of a stream of which nothing was noted.
fn note_or(note: Option<StreamNote>, stream: Stream) -> StreamNote
    ensures { result ≡ note_or note stream }
{
    match note {
        Some(note) => note,
        None => unnoted(stream),
    }
}

/// An item's number, where there was none before and this is so.
fn first_item(before: u64, now: bool, number: u64) -> u64
    ensures { result ≡ first_item before now number }
{
    if before == 0 && now { number } else { before }
}

/// The note of a stream as it is after the item of this number; `ended` is the item that ended the client's side, if
/// that has ended: that of the HEADERS of a field block.
fn noted(note: StreamNote, number: u64, ended: u64, stream: Stream) -> StreamNote
    ensures { result ≡ noted note number ended stream }
{
    StreamNote {
        ended: first_item(note.ended, has_client_ended(stream.kind), ended),
        closed: first_item(note.closed, is_closed(stream.kind), number),
        seen: stream,
    }
}

/// Whether a frame ends a field block: HEADERS or CONTINUATION with END_HEADERS (RFC 9113, 4.3).
fn ends_block(head: &Head) -> bool
    ensures { result ≡ ends_block head.now }
{
    (head.kind == HEADERS || head.kind == CONTINUATION) && head.has(END_HEADERS)
}

impl<A: Allocator + Copy> Notes<A> {
    /// Nothing is noted.
    pub fn new(alloc: A) -> Notes<A>
        ensures streams { IsEmpty result.streams }
        ensures blocks { (result.block ≡ 0) × (result.block_end ≡ 0) }
    {
        Notes {
            streams: BTreeMap::new(alloc),
            block: 0,
            block_end: 0,
        }
    }

    /// What is noted of a stream, if anything is. Streams are opened in rising order, so the last one is looked at first.
    pub fn of(&self, stream: u32) -> Option<StreamNote>
        ensures { result ≡ note_of self.now stream }
    {
        match self.streams.last_key_value() {
            Some((last, note)) if *last == stream => Some(*note),
            Some((last, _)) if *last < stream => None,
            _ => self.streams.get(&stream).copied(),
        }
    }

    /// Notes a stream as it is after the item of this number: one that was opened, and not 0. `ended` is the item that
    /// ended the client's side, if that has ended.
    ///
    /// `AllocError` where memory for the first note of a stream is refused; then the notes are as before.
    pub fn see(&mut self, number: u64, ended: u64, stream: Stream) -> Result<(), AllocError>
        ensures noted { OnOk result (is_noted stream ≡ true → Sees self.old number ended stream self.new) }
        ensures not_noted { is_noted stream ≡ false → self.new ≡ self.old }
        ensures no_memory { OnErr result (IsUnchanged self.old.streams self.new.streams) }
    {
        if !is_noted(&stream) {
            return Ok(());
        }
        let earlier = note_or(self.of(stream.id), stream);
        self.streams
            .insert(stream.id, noted(earlier, number, ended, stream))?;
        Ok(())
    }

    /// Notes that the item of this number begins a field block (RFC 9113, 4.3).
    pub fn begin(&mut self, number: u64)
        ensures { self.new ≡ record self.old { block = number } }
    {
        self.block = number;
    }

    /// Notes that the frame of this item ends a field block, if it does (RFC 9113, 4.3).
    pub fn end(&mut self, number: u64, head: &Head)
        ensures { self.new ≡ record self.old { block_end = block_end_after self.old.block_end number head.now } }
    {
        if ends_block(head) {
            self.block_end = number;
        }
    }
}
