//! The events of the octets that a server sends. Definitions: `specs/ServerFrames.antt`.

ghost use Rattle.std.specs.Prelude.{◌≡◌, ◌++◌, ℕ, List, IfErr, IfOk, OnOk};
ghost use Rattle.h2_fields.specs.Applied.{IsStopped};
ghost use Rattle.h2_frame.specs.Parts.{part_seen};
ghost use Rattle.h2_spec.specs.Hpack.Block.{Unfinished, carried_on, decoded, progress_with};
ghost use Rattle.h2_cmd_judge.specs.ServerFrames.{answer_event, begin, block_event, block_of, carried_more, continued, is_digit, is_whole, opened_by, read_on, stamped, status_number, status_of, unread_frames, with_fragment, with_frame, with_part, with_taken};

use crate::event::{Event, Seen};
use h2_explain_words::sent::next_frame;
use h2_fields::BlockFault;
use h2_fields::collected::Collected;
use h2_fields::fragment::decode_piece;
use h2_fields::rest::{Rest, RestChange};
use h2_frame::{FrameRef, Head, Part, part_of};
use h2_spec::frames::{ACK, END_HEADERS, END_STREAM};
use h2_table::{DynTable, Edit};
use std::alloc::{AllocError, Global};
use std::marker::Model;
use std::mem;

/// The most octets of a list of fields, 32 for each beside its own (RFC 9113, 6.5.2), after which a block is read on.
const MAX_LIST: u64 = 65_536;

/// A field block that is open.
#[derive(Clone, Copy)]
pub struct OpenBlock {
    /// Its stream.
    pub stream: u32,
    /// Whether its HEADERS have END_STREAM.
    pub ends: bool,
}

/// How far the frames of a server are read.
#[derive(Drop)]
pub struct ServerFrames {
    /// The header table of its field blocks.
    table: DynTable<Global>,
    /// The fields of the last block, which share their octets where the server repeats them.
    fields: Collected<Global>,
    /// The octets of that block that begin an instruction and do not end it.
    rest: Rest<Global>,
    /// The fault of that block, if it has one.
    fault: Option<BlockFault>,
    /// The block that is open.
    opened: Option<OpenBlock>,
}

impl Model for ServerFrames {
    ghost use Rattle.h2_cmd_judge.specs.ServerFrames as frames;

    ghost Value = { frames.ServerFrames };

    ghost view = { λ s. record { limit = s.table.limit; block = frames.block_seen s.table.table s.fields s.rest s.fault; opened = s.opened } };
}

/// Whether an octet is a digit.
fn is_digit(octet: u8) -> bool
    ensures { result ≡ is_digit octet }
{
    b'0' <= octet && octet <= b'9'
}

/// The number of three digits (RFC 9110, 15).
fn status_number(value: &[u8]) -> Option<u32>
    ensures { result ≡ status_number value.now }
{
    match value {
        [a, b, c] => {
            if is_digit(*a) && (is_digit(*b) && is_digit(*c)) {
                let (a, b, c) = (u32::from(*a) - 48, u32::from(*b) - 48, u32::from(*c) - 48);
                Some(100 * a + (10 * b + c))
            } else {
                None
            }
        }
        _ => None,
    }
}

/// The status of the first :status among fields, if there is one (RFC 9113, 8.3.2).
fn status_of(fields: &Collected<Global>) -> Option<u32>
    ensures { result ≡ status_of fields.now.fields }
{
    for place in 0..fields.len() {
        let (name, value) = fields.get(place)?;
        if name == b":status".as_slice() {
            return status_number(value);
        }
    }
    None
}

/// What the fields of a block are: an answer, an informational response, or trailers.
fn answer_event(block: OpenBlock, status: Option<u32>) -> Option<Event>
    ensures { result ≡ answer_event block status }
{
    match status {
        Some(status) => {
            (200 <= status).then_some(Event::Answered(block.stream, status, block.ends))
        }
        None => {
            if block.ends {
                Some(Event::Ended(block.stream))
            } else {
                Some(Event::Unreadable(block.stream))
            }
        }
    }
}

/// Decodes a fragment more of a block, after the octets that are left of those before it. Where memory is refused, the block
/// should not be decoded any further.
fn decode_on(
    fields: &mut Collected<Global>,
    rest: &mut Rest<Global>,
    table: &mut DynTable<Global>,
    fragment: &[u8],
) -> Result<(), BlockFault>
    ensures decoded { OnOk result (decoded table.old.limit (progress_with table.old.table fields.old) (rest.old ++ fragment.now) ≡ record { progress = progress_with table.new.table fields.new; outcome = Unfinished rest.new }) }
    ensures fault { IfErr result (λ fault. IsStopped table.old.limit (progress_with table.old.table fields.old) (rest.old ++ fragment.now) (progress_with table.new.table fields.new) fault) }
    ensures limit { table.new.limit ≡ table.old.limit }
{
    let mut edit = Edit::new(fields.allocator());
    let none = Rest::new(fields.allocator());
    let mut change = RestChange::unchanged(mem::replace(rest, none));
    let answer = decode_piece(fields, table, &mut edit, &mut change, fragment);
    table.commit(&mut edit);
    *rest = change.take_over();
    answer
}

/// The block that HEADERS opens.
fn block_of(head: Head) -> OpenBlock
    ensures { result ≡ block_of head }
{
    OpenBlock {
        stream: head.stream,
        ends: head.has(END_STREAM),
    }
}

impl ServerFrames {
    /// Nothing is read yet.
    pub fn new(alloc: Global) -> Result<ServerFrames, AllocError>
        ensures { IfOk result (λ frames. frames ≡ unread_frames) }
    {
        let mut table = DynTable::new(alloc, 4096)?;
        table.set_limit(65_536)?;
        Ok(ServerFrames {
            table,
            fields: Collected::new(alloc),
            rest: Rest::new(alloc),
            fault: None,
            opened: None,
        })
    }

    /// A fragment more of the last block is decoded, unless the block has a fault.
    fn carry_on(&mut self, fragment: &[u8]) -> Result<(), AllocError>
        ensures { OnOk result (self.new ≡ record self.old { block = carried_on self.old.limit self.old.block fragment.now }) }
    {
        if let Some(_) = self.fault {
            return Ok(());
        }
        let Err(fault) = decode_on(&mut self.fields, &mut self.rest, &mut self.table, fragment)
        else {
            return Ok(());
        };
        if let BlockFault::NoMemory = fault {
            return Err(AllocError);
        }
        self.fault = Some(fault);
        Ok(())
    }

    /// The same of a block whose list is not above 65,536 octets so far. A larger one is not read any further, so a block without
    /// end takes no more memory.
    fn carry_more(&mut self, fragment: &[u8]) -> Result<(), AllocError>
        ensures { OnOk result (self.new ≡ record self.old { block = carried_more self.old.limit self.old.block fragment.now }) }
    {
        if self.fields.list_size() > MAX_LIST {
            self.fault = Some(BlockFault::Integer);
            return Ok(());
        }
        self.carry_on(fragment)
    }

    /// Whether the last block can end so: after a whole instruction, without a fault, and no size update is due.
    fn is_whole(&self) -> bool
        ensures { result ≡ is_whole self.now.block }
    {
        match self.fault {
            Some(_) => false,
            None => self.rest.is_empty() && !self.fields.is_due(),
        }
    }

    /// What the last block is, which has ended.
    fn block_event(&self, block: OpenBlock) -> Option<Event>
        ensures { result ≡ block_event block self.now.block }
    {
        if self.is_whole() {
            answer_event(block, status_of(&self.fields))
        } else {
            Some(Event::Unreadable(block.stream))
        }
    }

    /// A fragment is read; with the last one the block ends.
    fn with_fragment(
        &mut self,
        block: OpenBlock,
        head: Head,
        fragment: &[u8],
    ) -> Result<Option<Event>, AllocError>
        ensures { IfOk result (λ event. with_fragment self.old block head.flags fragment.now ≡ record { after = self.new; event = event }) }
    {
        self.carry_more(fragment)?;
        if head.has(END_HEADERS) {
            self.opened = None;
            Ok(self.block_event(block))
        } else {
            self.opened = Some(block);
            Ok(None)
        }
    }

    /// A block begins.
    fn begin(&mut self)
        ensures { self.new ≡ begin self.old }
    {
        self.fields.clear(false);
        self.rest.clear();
        self.fault = None;
    }

    /// CONTINUATION goes on with the open block (RFC 9113, 6.10).
    fn continued(&mut self, head: Head, fragment: &[u8]) -> Result<Option<Event>, AllocError>
        ensures { IfOk result (λ event. continued self.old self.old.opened head.flags fragment.now ≡ record { after = self.new; event = event }) }
    {
        match self.opened {
            Some(block) => self.with_fragment(block, head, fragment),
            None => Ok(None),
        }
    }

    /// HEADERS opens a block, with this fragment (RFC 9113, 6.2).
    fn opened_by(&mut self, head: Head, fragment: &[u8]) -> Result<Option<Event>, AllocError>
        ensures { IfOk result (λ event. opened_by self.old head fragment.now ≡ record { after = self.new; event = event }) }
    {
        self.begin();
        self.with_fragment(block_of(head), head, fragment)
    }

    /// Takes a frame with this payload, and says what it is.
    fn with_part(&mut self, head: Head, part: Part<'_>) -> Result<Option<Event>, AllocError>
        ensures { IfOk result (λ event. with_part self.old head (part_seen part.entry) ≡ record { after = self.new; event = event }) }
    {
        match part {
            Part::Data(_) => Ok(head.has(END_STREAM).then_some(Event::Ended(head.stream))),
            Part::Headers(headers) => { self.opened_by(head, headers.fragment) }
            Part::RstStream(code) => Ok(Some(Event::Reset(head.stream, code))),
            Part::SettingsAck => Ok(Some(Event::Acknowledged)),
            Part::Ping(octets) => Ok(head.has(ACK).then_some(Event::Pong(octets))),
            Part::Goaway(_, code) => Ok(Some(Event::Goaway(code))),
            Part::WindowUpdate(octets) => Ok(Some(Event::Credit(head.stream, octets))),
            Part::Continuation(fragment) => self.continued(head, fragment),
            Part::Priority | Part::Settings(_) | Part::PushPromise | Part::Unknown => Ok(None),
        }
    }

    /// Takes a frame, and says what it is; one whose payload can't be read is passed over.
    fn take_frame(&mut self, frame: FrameRef<'_>) -> Result<Option<Event>, AllocError>
        ensures { IfOk result (λ event. with_frame self.old frame.entry.head frame.entry.payload.now ≡ record { after = self.new; event = event }) }
    {
        match part_of(frame) {
            Ok(part) => self.with_part(frame.head, part),
            Err(_) => Ok(None),
        }
    }

    /// Takes a frame that came after the item with this number, and appends what it is.
    fn take_seen(
        &mut self,
        frame: FrameRef<'_>,
        after: u32,
        events: &mut Vec<Seen>,
    ) -> Result<(), AllocError>
        ensures { OnOk result ((rest : List ℕ) → with_taken after events.old.items rest (with_frame self.old frame.entry.head frame.entry.payload.now)
            ≡ record { frames = self.new; rest = rest; events = events.new.items }) }
    {
        let event = self.take_frame(frame)?;
        push_event(after, event, events)
    }

    /// Takes the whole frames that octets begin with, and appends what they are: all of them came after the item with this
    /// number. Gives the octets that are left.
    ///
    /// `AllocError` where memory is refused: the frames should not be read any further.
    pub fn read_on<'o>(
        &mut self,
        octets: &'o [u8],
        after: u32,
        events: &mut Vec<Seen>,
    ) -> Result<&'o [u8], AllocError>
        ensures { IfOk result (λ rest. read_on after self.old events.old.items octets.now ≡ record { frames = self.new; rest = rest.now; events = events.new.items }) }
    {
        let mut rest = octets;
        for _frame in 0..octets.len() {
            let Some((frame, behind)) = next_frame(rest) else {
                return Ok(rest);
            };
            rest = behind;
            self.take_seen(frame, after, events)?;
        }
        Ok(rest)
    }
}

/// Appends an event that came after this item, if it is one.
fn push_event(after: u32, event: Option<Event>, events: &mut Vec<Seen>) -> Result<(), AllocError>
    ensures { OnOk result (events.new.items ≡ events.old.items ++ stamped after event) }
{
    match event {
        Some(event) => match events.push(Seen { after, event }) {
            Ok(()) => Ok(()),
            Err(_) => Err(AllocError),
        },
        None => Ok(()),
    }
}
