//! What is known of a connection while it is explained, and the account of each item that it makes. Definitions:
//! `specs/Account.antt`.

ghost use Rattle.std.specs.Prelude.{◌≡◌, ◌++◌, Some, false, IfOk, OnOk};
ghost use Rattle.std.specs.BTreeMap.{IsEmpty};
ghost use Rattle.std.specs.Option.{option_map};
ghost use Rattle.h2_explain_item.specs.Item.{frame_in, head_in, part_in};
ghost use Rattle.h2_explain_step.specs.Account.{KeepsBlocks, ListsChanges, NotesItem, begun_by, block_of_frame, blocks_with, block_end_with, changes_of_sent, changes_seen, ended_with, followed_with, fragment_in, is_compression, is_of_block, is_of_fields, moves_windows, noted_with, notes_of_sent, notes_seen, opening_if, reads_fields, shows_fields_with};
ghost use Rattle.h2_conn.specs.Shown.{fields_at_hand};
ghost use Rattle.h2_explain_item.specs.FollowedTable.{empty, following};
ghost use Rattle.h2_explain_item.specs.ShownBlock.{fields_seen, shown_fields, unread};
ghost use Rattle.h2_explain_step.specs.Reader.{KeepsReader, KeepsTable};
ghost use Rattle.h2_explain_item.specs.Notes.{AreNotes, note_of};
ghost use Rattle.h2_explain_item.specs.RunFacts.{empties_after, run_facts};
ghost use Rattle.h2_explain_item.specs.Warnings.{AreWarnings};

use crate::unshown_changes::{Live, note_moved, put_moved, sent_streams};
use h2_conn::{Conn, Scratch, is_ended, write_opening};
use h2_explain_error::sentence::say_sentence;
use h2_explain_item::change::changes::{
    Changes, connection_changes, is_same_stream, stream_changes,
};
use h2_explain_item::change::granted::Granted;
use h2_explain_item::change::header_table::{EntryChange, Followed};
use h2_explain_item::diagnosis::error_context::ErrorContext;
use h2_explain_item::diagnosis::facts::{facts_of, others_of, wider_of};
use h2_explain_item::diagnosis::request_facts::{
    BlockFacts, RequestFacts, block_facts, request_facts,
};
use h2_explain_item::diagnosis::run_facts::{empties_after, run_facts};
use h2_explain_item::diagnosis::special::CaseFacts;
use h2_explain_item::diagnosis::warning::{opens_stream, warnings_of};
use h2_explain_item::item::Explained;
use h2_explain_item::notes::{Notes, StreamNote};
use h2_explain_item::shown_block::{BlockReader, ShownBlock};
use h2_explain_text::account::Account;
use h2_explain_words::sent::next_frame;
use h2_frame::Part;
use h2_io::say::TextBuilder;
use h2_spec::causes::Cause;
use h2_spec::errors::ErrorCode;
use h2_spec::frames::{CONTINUATION, END_HEADERS, END_STREAM, FrameType, HEADERS, Head, ItemHead};
use h2_spec::streams::StreamState;
use std::alloc::{AllocError, Allocator, Global};
use std::collections::BTreeMap;

/// What is known of a connection while it is explained.
#[derive(Drop)]
pub struct ItemExplainer<A: Allocator = Global> {
    /// What was noted of the connection and its streams.
    pub notes: Notes<A>,
    /// The memory of items, with which the connection lends the fields of the last block.
    pub memory: Scratch<A>,
    /// How the client's field blocks are spelled.
    pub reader: BlockReader<A>,
    /// The streams that are live.
    pub live: BTreeMap<u32, (), A>,
    /// The client's header table.
    pub table: Followed<A>,
    /// The streams that the server reset at an item that ended the client's side, with the number of that item.
    pub refused_ends: BTreeMap<u32, u64, A>,
    /// The rest of what the client was granted before a read.
    pub granted: Granted<A>,
    /// How many CONTINUATION frames of the last field block are empty.
    pub empties: u64,
    /// Whether long texts are shown whole.
    pub is_full: bool,
}

/// The fragment of a field block that the frame of an item has, if its payload can be read as one (RFC 9113, 6.2 and
/// 6.10).
fn fragment_of<'o>(item: &Explained<'o>) -> Option<&'o [u8]>
    ensures { option_map (λ x. x.now) result ≡ fragment_in (part_in (frame_in item.now.what item.now.octets.now)) }
{
    match item.part {
        Some(Part::Headers(part)) => Some(part.fragment),
        Some(Part::Continuation(fragment)) => Some(fragment),
        _ => None,
    }
}

/// Whether a frame belongs to the field block: HEADERS where none is open, CONTINUATION where it is the block's (RFC
/// 9113, 4.3 and 6.10).
fn is_of_block(item: &Explained<'_>, head: &Head) -> bool
    ensures { result ≡ is_of_block item.now.before.block head.now }
{
    match item.before.block {
        None => head.kind == HEADERS,
        Some(block) => head.kind == CONTINUATION && head.stream == block.stream,
    }
}

/// Whether an error is found in the fields of a block while they are decoded (RFC 9113, 4.3 and 10.5.1).
fn is_of_fields(cause: Cause) -> bool
    ensures { result ≡ is_of_fields cause }
{
    match cause {
        Cause::ListTooLarge => true,
        _ => is_compression(cause.code()),
    }
}

/// Whether a code is that of a block that can't be decoded (RFC 9113, 4.3).
fn is_compression(code: ErrorCode) -> bool
    ensures { result ≡ is_compression code }
{
    match code {
        ErrorCode::CompressionError => true,
        _ => false,
    }
}

/// Whether the frame of an item has END_STREAM, or the HEADERS of the block that it continues (RFC 9113, 6.1 and 6.2).
fn ends_side(item: &Explained<'_>) -> bool {
    match (item.before.block, item.head()) {
        (Some(block), _) => block.ends,
        (None, Some(head)) => match head.frame_type() {
            FrameType::Data | FrameType::Headers => head.has(END_STREAM),
            _ => false,
        },
        (None, None) => false,
    }
}

/// Whether the fields of a block are read up to an error: any but a connection error that came before them.
fn reads_fields(item: &Explained<'_>) -> bool
    ensures { result ≡ reads_fields item.now.cause item.now.after.counts.phase }
{
    match item.cause {
        None => true,
        Some(cause) => !is_ended(item.after.counts.phase) || is_of_fields(cause),
    }
}

/// The frames that the server sends before it reads anything, where they are asked for; else none.
pub fn opening_of<A: Allocator + Copy>(
    alloc: A,
    conn: &Conn<'_, A>,
    is_asked: bool,
) -> Result<Vec<u8, A>, AllocError>
    ensures { IfOk result (λ opening. opening.items ≡ opening_if conn.now.state.config is_asked) }
{
    let mut opening = Vec::new(alloc);
    if is_asked {
        write_opening(conn.config(), &mut opening)?;
    }
    Ok(opening)
}

/// Puts the frames that the server sends before it reads anything in the place of other octets, if an item is the first;
/// else none.
#[inline(always)]
fn put_opening<A: Allocator + Copy>(
    alloc: A,
    conn: &Conn<'_, A>,
    is_first: bool,
    octets: &mut Vec<u8, A>,
) -> Result<(), AllocError> {
    octets.clear();
    if is_first {
        *octets = opening_of(alloc, conn, true)?;
    }
    Ok(())
}

impl<A: Allocator + Copy> ItemExplainer<A> {
    /// Nothing is known.
    pub fn new(alloc: A) -> Result<ItemExplainer<A>, AllocError>
        ensures streams { IfOk result (λ explainer. IsEmpty explainer.notes.streams) }
        ensures reader { IfOk result (λ explainer. explainer.reader ≡ unread) }
        ensures table { IfOk result (λ explainer. explainer.table ≡ empty 4096) }
        ensures blocks { IfOk result (λ explainer. (explainer.notes.block ≡ 0) × (explainer.notes.block_end ≡ 0)) }
    {
        Ok(ItemExplainer {
            notes: Notes::new(alloc),
            memory: Scratch::new(alloc),
            reader: BlockReader::new(alloc),
            live: BTreeMap::new(alloc),
            table: Followed::new(alloc, 4096)?,
            refused_ends: BTreeMap::new(alloc),
            granted: Granted::new(alloc),
            empties: 0,
            is_full: false,
        })
    }

    /// Reads what a frame has of a field block, and says whether the fields of the block are shown with it (RFC 9113,
    /// 4.3).
    fn read_block(&mut self, conn: &Conn<'_, A>, item: &Explained<'_>) -> Result<bool, AllocError>
        ensures shows { IfOk result (λ shows. shows ≡ shows_fields_with item.now) }
        ensures reader { OnOk result (self.new.reader ≡ blocks_with item.now (fields_at_hand conn.now.state.block self.old.memory.decoding.fields) self.old.reader) }
        ensures memory { self.new.memory ≡ self.old.memory }
        ensures table { self.new.table ≡ self.old.table }
        ensures notes { OnOk result (self.new.notes ≡ record self.old.notes { block = begun_by item.now self.old.notes.block }) }
        ensures full { self.new.is_full ≡ self.old.is_full }
    {
        let ItemHead::Frame(head) = item.what else {
            return Ok(false);
        };
        if !is_of_block(item, &head) {
            return Ok(false);
        }
        if item.before.block.is_none() {
            self.notes.begin(item.number);
            self.reader.begin();
        }
        if !reads_fields(item) {
            return Ok(false);
        }
        if let Some(fragment) = fragment_of(item) {
            let limit = item.before.counts.own.table;
            let fields = conn.fields(&self.memory);
            self.reader.read(fields, limit, fragment)?;
        }
        Ok(head.has(END_HEADERS) || is_ended(item.after.counts.phase))
    }

    /// The item that has the END_STREAM of the frame on hand: that of its HEADERS for a frame of a block.
    fn end_of(&self, item: &Explained<'_>) -> u64
        ensures { result ≡ ended_with self.now.notes.block item.now.number item.now.before.block (head_in item.now.what) }
    {
        match item.head() {
            Some(head) if is_of_block(item, &head) => self.notes.block,
            _ => item.number,
        }
    }

    /// Appends what is other than before on the streams that frames were sent on, and notes them.
    fn see_sent(
        &mut self,
        conn: &Conn<'_, A>,
        item: &Explained<'_>,
        out: &mut Changes<A>,
    ) -> Result<(), AllocError>
        ensures changes { OnOk result (out.new.items ≡ out.old.items ++ changes_of_sent item.now conn.now.state (note_of self.old.notes)) }
        ensures notes { OnOk result (AreNotes self.new.notes (notes_of_sent item.now conn.now.state (note_of self.old.notes))) }
        ensures blocks { OnOk result (KeepsBlocks self.old.notes self.new.notes) }
        ensures keeps { KeepsTable self.old self.new }
    {
        let mut rest = item.sent;
        for _frame in 0..item.sent.len() {
            let Some((frame, after)) = next_frame(rest) else {
                return Ok(());
            };
            rest = after;
            self.see(conn, item, frame.head.stream, out)?;
        }
        Ok(())
    }

    /// Appends what is other than when a stream was noted last, and notes it as it is now; nothing where it was not
    /// noted.
    fn see(
        &mut self,
        conn: &Conn<'_, A>,
        item: &Explained<'_>,
        stream: u32,
        out: &mut Changes<A>,
    ) -> Result<(), AllocError>
        ensures changes { OnOk result (out.new.items ≡ out.old.items ++ changes_seen item.now conn.now.state (note_of self.old.notes) stream) }
        ensures notes { OnOk result (AreNotes self.new.notes (notes_seen item.now conn.now.state (note_of self.old.notes) stream)) }
        ensures blocks { OnOk result (KeepsBlocks self.old.notes self.new.notes) }
        ensures keeps { KeepsTable self.old self.new }
    {
        match self.notes.of(stream) {
            Some(note) => self.see_again(conn, item, stream, &note, out),
            None => Ok(()),
        }
    }

    /// Appends what is other than this note of the stream says, and notes the stream as it is now.
    #[inline(never)]
    fn see_again(
        &mut self,
        conn: &Conn<'_, A>,
        item: &Explained<'_>,
        stream: u32,
        note: &StreamNote,
        out: &mut Changes<A>,
    ) -> Result<(), AllocError>
        requires noted { note_of self.old.notes stream ≡ Some note.now }
        ensures changes { OnOk result (out.new.items ≡ out.old.items ++ changes_seen item.now conn.now.state (note_of self.old.notes) stream) }
        ensures notes { OnOk result (AreNotes self.new.notes (notes_seen item.now conn.now.state (note_of self.old.notes) stream)) }
        ensures blocks { OnOk result (KeepsBlocks self.old.notes self.new.notes) }
        ensures keeps { KeepsTable self.old self.new }
    {
        let now = conn.stream(stream);
        if now.id == stream && note.is_settled() && is_same_stream(&note.seen, &now) {
            return Ok(());
        }
        stream_changes(&note.seen, &now, item.after.counts.send, out)?;
        self.notes.see(item.number, item.number, now)
    }

    /// The sentence of an item's cause.
    fn sentence(
        &self,
        alloc: A,
        conn: &Conn<'_, A>,
        item: &Explained<'_>,
        cause: Cause,
    ) -> Result<String<A>, AllocError> {
        let mut text = TextBuilder::with(alloc, self.is_full);
        say_sentence(alloc, cause, self.context(conn, item), &mut text);
        text.finish()
    }

    /// Puts the sentence of an item's cause, and the other causes that hold of its block, in the place of those before;
    /// nothing where it has no cause.
    #[inline(always)]
    fn put_error(
        &self,
        alloc: A,
        conn: &Conn<'_, A>,
        item: &Explained<'_>,
        account: &mut Account<A>,
    ) -> Result<(), AllocError>
        ensures { account.new ≡ record account.old { sentence = account.new.sentence; also = account.new.also } }
    {
        account.sentence.clear();
        account.also.clear();
        match item.cause {
            Some(cause) => self.say_error(alloc, conn, item, cause, account),
            None => Ok(()),
        }
    }

    /// Puts the sentence of this cause of an item, and the other causes that hold of its block, none where it is not
    /// malformed.
    #[inline(never)]
    fn say_error(
        &self,
        alloc: A,
        conn: &Conn<'_, A>,
        item: &Explained<'_>,
        cause: Cause,
        account: &mut Account<A>,
    ) -> Result<(), AllocError>
        ensures { account.new ≡ record account.old { sentence = account.new.sentence; also = account.new.also } }
    {
        account.sentence = self.sentence(alloc, conn, item, cause)?;
        account.also = others_of(alloc, cause, self.context(conn, item))?;
        Ok(())
    }

    /// What decides whether an item's rule is a special case; looked up where it has a rule.
    fn facts(&self, conn: &Conn<'_, A>, item: &Explained<'_>) -> CaseFacts {
        if item.cause.is_none() && item.ignored.is_none() {
            return CaseFacts::none();
        }
        self.rule_facts(conn, item)
    }

    /// What decides whether an item's rule is a special case, of an item that has a rule.
    #[inline(never)]
    fn rule_facts(&self, conn: &Conn<'_, A>, item: &Explained<'_>) -> CaseFacts {
        facts_of(self.context(conn, item))
    }

    /// What is wrong with the request that an item opens a stream with; nothing where it opens none.
    fn request_facts(&self, conn: &Conn<'_, A>, item: &Explained<'_>) -> RequestFacts {
        if !opens_stream(item) {
            return RequestFacts::none();
        }
        request_facts(self.block(conn).fields)
    }

    /// What is wrong with the field block that ends with an item; nothing where none does, or the item is an error.
    fn block_facts(&self, conn: &Conn<'_, A>, item: &Explained<'_>, ends: bool) -> BlockFacts {
        if !ends || item.cause.is_some() {
            return BlockFacts::none();
        }
        block_facts(self.block(conn))
    }

    /// The field block of the item that a connection has taken last, up to that item.
    pub fn block<'f>(&'f self, conn: &'f Conn<'_, A>) -> ShownBlock<'f, A>
        ensures updates { result.updates.now ≡ self.now.reader.block.taken.updates }
        ensures fields { fields_seen result.fields ≡ shown_fields self.now.reader (fields_at_hand conn.now.state.block self.now.memory.decoding.fields) }
    {
        self.reader.block(conn.fields(&self.memory))
    }

    /// What sentences draw their values from.
    fn context<'f, 'o>(
        &'f self,
        conn: &'f Conn<'_, A>,
        item: &'f Explained<'o>,
    ) -> ErrorContext<'f, 'o, A> {
        ErrorContext {
            item,
            notes: &self.notes,
            reader: &self.reader,
            fields: self.block(conn).fields,
            table: &self.table,
            config: conn.config(),
            widest: self.widest(conn, item),
            after_end: self.is_after_end(item.before.stream.id),
        }
    }

    /// The stream with the greatest send window, where a setting takes one too far; else none.
    fn widest(&self, conn: &Conn<'_, A>, item: &Explained<'_>) -> Option<(u32, i64)> {
        let mut widest = None;
        if let Some(Cause::InitialWindowSizeOverflow) = item.cause {
            for stream in self.notes.streams.keys() {
                widest = wider_of(&conn.stream(*stream), widest);
            }
        }
        widest
    }

    /// Whether the client had ended a stream that the server has reset.
    fn is_after_end(&self, stream: u32) -> bool {
        let ended = match self.notes.of(stream) {
            Some(note) => note.ended > 0,
            None => false,
        };
        ended || self.refused_ends.contains_key(&stream)
    }

    /// Notes that the server has reset a stream at an item that ended the client's side, if it is so.
    fn note_refused_end(&mut self, item: &Explained<'_>) -> Result<(), AllocError>
        ensures notes { self.new.notes ≡ self.old.notes }
        ensures keeps { KeepsTable self.old self.new }
    {
        let stream = item.after.stream.id;
        match (item.before.stream.kind, item.after.stream.kind) {
            (StreamState::WeReset, _) => {}
            (_, StreamState::WeReset) => {
                if ends_side(item) {
                    self.refused_ends.insert(stream, item.number)?;
                }
            }
            _ => {}
        }
        Ok(())
    }

    /// Notes what an item did besides changing its stream: a stream that it refused at its end, the streams that it moved,
    /// and the end of a block. `sent` has the other streams that frames were sent on.
    #[inline(always)]
    fn note_rest(
        &mut self,
        conn: &Conn<'_, A>,
        item: &Explained<'_>,
        sent: &Live<A>,
    ) -> Result<(), AllocError>
        ensures block { OnOk result (self.new.notes.block ≡ self.old.notes.block) }
        ensures block_end { OnOk result (self.new.notes.block_end ≡ block_end_with self.old.notes.block_end item.now.number (head_in item.now.what)) }
        ensures still { OnOk result (moves_windows item.now ≡ false → self.new.notes.streams ≡ self.old.notes.streams) }
        ensures keeps { KeepsTable self.old self.new }
    {
        self.note_refused_end(item)?;
        note_moved(conn, item, &mut self.notes, &mut self.live, sent)?;
        if let Some(head) = item.head() {
            self.notes.end(item.number, &head);
        }
        Ok(())
    }

    /// Puts what there is to show of the item that a connection has just taken in the place of an account before.
    ///
    /// `AllocError` where memory is refused; then some of the item may have been noted.
    pub fn account(
        &mut self,
        alloc: A,
        conn: &Conn<'_, A>,
        item: &Explained<'_>,
        account: &mut Account<A>,
    ) -> Result<(), AllocError>
        ensures fields { OnOk result (account.new.shows_fields ≡ shows_fields_with item.now) }
        ensures warnings { OnOk result (AreWarnings item.now account.new.facts account.new.warnings) }
        ensures run { OnOk result (account.new.warnings.run ≡ run_facts self.old.granted self.old.empties item.now) }
        ensures empties { OnOk result (self.new.empties ≡ empties_after self.old.empties (head_in item.now.what)) }
        ensures changes { OnOk result (ListsChanges item.now conn.now.state (begun_by item.now self.old.notes.block) (note_of self.old.notes) account.new.changes.items) }
        ensures texts { OnOk result (account.new.is_full ≡ self.old.is_full) }
        ensures notes { OnOk result (NotesItem item.now conn.now.state self.old.notes self.new.notes) }
        ensures full { self.new.is_full ≡ self.old.is_full }
        ensures reader { OnOk result (self.new.reader ≡ blocks_with item.now (fields_at_hand conn.now.state.block self.old.memory.decoding.fields) self.old.reader) }
        ensures memory { self.new.memory ≡ self.old.memory }
        ensures table { OnOk result (following self.new.table account.new.entries.items ≡ followed_with item.now (fields_at_hand conn.now.state.block self.old.memory.decoding.fields) self.new.reader self.old.table) }
    {
        let empties = self.empties;
        let run = run_facts(&mut self.granted, empties, item)?;
        account.is_full = self.is_full;
        account.shows_fields = self.read_block(conn, item)?;
        self.put_entries(alloc, conn, item, &mut account.entries)?;
        account.facts = self.facts(conn, item);
        let request = self.request_facts(conn, item);
        let block = self.block_facts(conn, item, account.shows_fields);
        account.warnings = warnings_of(item, account.facts, request, block, run);
        self.put_error(alloc, conn, item, account)?;
        let sent = sent_streams(alloc, item)?;
        put_moved(
            conn,
            item,
            &self.notes,
            &self.live,
            &sent,
            &mut account.unshown,
        )?;
        self.put_changes(conn, item, &mut account.changes)?;
        self.note_rest(conn, item, &sent)?;
        put_opening(alloc, conn, item.number == 1, &mut account.opening)?;
        self.empties = empties_after(empties, item.head());
        Ok(())
    }

    /// Puts the entries of the client's header table that an item entered or evicted in the place of those before; none
    /// where the connection ends with it.
    #[inline(always)]
    fn put_entries(
        &mut self,
        alloc: A,
        conn: &Conn<'_, A>,
        item: &Explained<'_>,
        entries: &mut Vec<EntryChange<A>, A>,
    ) -> Result<(), AllocError>
        ensures notes { self.new.notes ≡ self.old.notes }
        ensures keeps { KeepsReader self.old self.new }
        ensures table { OnOk result (following self.new.table entries.new.items ≡ followed_with item.now (fields_at_hand conn.now.state.block self.old.memory.decoding.fields) self.old.reader self.old.table) }
    {
        entries.clear();
        let ItemHead::Frame(head) = item.what else {
            return Ok(());
        };
        if !is_of_block(item, &head) {
            return Ok(());
        }
        self.follow(alloc, conn, item, entries)
    }

    /// Follows the header table over what an item's frame has of a field block, and puts the entries that it entered or
    /// evicted.
    #[inline(never)]
    fn follow(
        &mut self,
        alloc: A,
        conn: &Conn<'_, A>,
        item: &Explained<'_>,
        entries: &mut Vec<EntryChange<A>, A>,
    ) -> Result<(), AllocError>
        ensures notes { self.new.notes ≡ self.old.notes }
        ensures keeps { KeepsReader self.old self.new }
        ensures table { OnOk result (following self.new.table entries.new.items ≡ block_of_frame item.now (fields_at_hand conn.now.state.block self.old.memory.decoding.fields) self.old.reader (following self.old.table entries.old.items)) }
    {
        if item.before.block.is_none() {
            self.table.begin();
        }
        let (limit, fields) = (item.before.counts.own.table, conn.fields(&self.memory));
        self.table
            .follow(alloc, item.number, limit, &self.reader, fields, entries)?;
        if !is_ended(item.after.counts.phase) {
            return Ok(());
        }
        entries.clear();
        Ok(())
    }

    /// Lists what an item changed: on the connection, on its stream, and on the streams that frames were sent on for it;
    /// these streams are noted.
    #[inline(always)]
    fn put_changes(
        &mut self,
        conn: &Conn<'_, A>,
        item: &Explained<'_>,
        list: &mut Changes<A>,
    ) -> Result<(), AllocError>
        ensures changes { OnOk result (ListsChanges item.now conn.now.state self.old.notes.block (note_of self.old.notes) list.new.items) }
        ensures notes { OnOk result (AreNotes self.new.notes (notes_of_sent item.now conn.now.state (noted_with item.now self.old.notes.block (note_of self.old.notes)))) }
        ensures blocks { OnOk result (KeepsBlocks self.old.notes self.new.notes) }
        ensures keeps { KeepsTable self.old self.new }
    {
        list.clear();
        let (before, after) = (&item.before, &item.after);
        connection_changes(before, after, list)?;
        stream_changes(&before.stream, &after.stream, after.counts.send, list)?;
        self.see_own(item)?;
        self.see_sent(conn, item, list)
    }

    /// Notes the stream that an item is on as it is after it.
    #[inline(always)]
    fn see_own(&mut self, item: &Explained<'_>) -> Result<(), AllocError>
        ensures notes { OnOk result (AreNotes self.new.notes (noted_with item.now self.old.notes.block (note_of self.old.notes))) }
        ensures blocks { OnOk result (KeepsBlocks self.old.notes self.new.notes) }
        ensures keeps { KeepsTable self.old self.new }
    {
        if item.after.stream.id == 0 {
            return Ok(());
        }
        let ended = self.end_of(item);
        self.notes.see(item.number, ended, item.after.stream)
    }
}
