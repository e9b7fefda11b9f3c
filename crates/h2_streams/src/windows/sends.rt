//! The send windows of records, kept apart from them: one SETTINGS moves the windows of all streams (RFC 9113, 6.9.2), and
//! the records are the same then but for these. Definitions: `specs/Sends.antt`.

ghost use Rattle.std.specs.Prelude.{◌≡◌, ◌↔◌, IfOk, map, pos, true};
ghost use Rattle.h2_spec.specs.Change as changes;
ghost use Rattle.h2_streams.specs.Sends as spec;

use h2_spec::flow::{Credit, Window};
use h2_spec::streams::{Numbers, Pick, Stream, StreamState};
use std::alloc::{AllocError, Allocator};
use std::marker::Model;
use std::rc::Rc;

/// The record of a stream without its send window; contracts see the record, with a send window of 0.
#[derive(Drop)]
pub(crate) struct Record {
    id: u32,
    kind: StreamState,
    recv: Window,
    owed: Credit,
    content_received: u64,
    declared: Option<u64>,
    body_remaining: Option<u64>,
    pick: Pick,
}

impl Model for Record {
    ghost use Rattle.std.specs.Prelude.{pos};
    ghost use Rattle.h2_spec.specs.declared.streams.Stream as streams;

    ghost Value = { streams.Stream };

    ghost view = { λ r. record { id = r.id; kind = r.kind; numbers = record { recv = r.recv; owed = r.owed; send = pos 0; content_received = r.content_received; declared = r.declared; body_remaining = r.body_remaining }; pick = r.pick } };
}

impl Record {
    /// The record without its send window.
    pub(crate) fn of(stream: &Stream) -> Self
        ensures { result ≡ spec.without_send stream.now }
    {
        let numbers = &stream.numbers;
        Record {
            id: stream.id,
            kind: stream.kind,
            recv: numbers.recv,
            owed: numbers.owed,
            content_received: numbers.content_received,
            declared: numbers.declared,
            body_remaining: numbers.body_remaining,
            pick: stream.pick,
        }
    }

    /// The stream's identifier.
    pub(crate) fn id(&self) -> u32
        ensures { result ≡ self.now.id }
    {
        self.id
    }

    /// The record with this send window.
    pub(crate) fn with_send(&self, send: Window) -> Stream
        ensures { result ≡ changes.with_send self.now send }
    {
        Stream {
            id: self.id,
            kind: self.kind,
            numbers: Numbers {
                recv: self.recv,
                owed: self.owed,
                send,
                content_received: self.content_received,
                declared: self.declared,
                body_remaining: self.body_remaining,
            },
            pick: self.pick,
        }
    }

    /// Whether it is this record without its send window.
    pub(crate) fn is(&self, stream: &Stream) -> bool
        ensures { (result ≡ true) ↔ (self.now ≡ spec.without_send stream.now) }
    {
        self.id == stream.id
            && self.kind == stream.kind
            && self.counts(&stream.numbers)
            && self.pick == stream.pick
    }

    /// Whether it counts the same, but for the send window.
    fn counts(&self, numbers: &Numbers) -> bool
        ensures { (result ≡ true) ↔ (self.now.numbers ≡ record numbers.now { send = pos 0 }) }
    {
        self.recv.value() == numbers.recv.value()
            && self.owed.owed() == numbers.owed.owed()
            && self.content_received == numbers.content_received
            && self.declared == numbers.declared
            && self.body_remaining == numbers.body_remaining
    }
}

/// Whether these are the send windows of the records.
fn are_sends_of(sends: &[Window], streams: &[Stream]) -> bool
    ensures { (result ≡ true) ↔ (sends.now ≡ map spec.send_of streams.now) }
{
    if sends.len() != streams.len() {
        return false;
    }
    for i in 0..streams.len() {
        if sends[i].value() != streams[i].numbers.send.value() {
            return false;
        }
    }
    true
}

// Send windows are a list apart in a checkpoint: one SETTINGS of 15 octets moves all of them, and 1,000
// records would be copied for it.
/// The send windows of the records.
fn sends_of<A: Allocator>(streams: &[Stream], alloc: A) -> Result<Vec<Window, A>, AllocError>
    ensures { IfOk result (λ sends. sends.items ≡ map spec.send_of streams.now) }
{
    let mut sends = Vec::with_capacity(alloc, streams.len())?;
    for stream in streams {
        sends.push(stream.numbers.send)?;
    }
    Ok(sends)
}

/// The send windows of the records, in memory that can be shared.
pub(crate) fn new_sends<A: Allocator + Copy>(
    streams: &[Stream],
    alloc: A,
) -> Result<Rc<Vec<Window, A>, A>, AllocError>
    ensures { IfOk result (λ sends. sends.value.items ≡ map spec.send_of streams.now) }
{
    let sends = sends_of(streams, alloc)?;
    match Rc::new(alloc, sends) {
        Ok(sends) => Ok(sends),
        Err(_) => Err(AllocError),
    }
}

/// The send windows of the records, shared with earlier ones where those are the same.
pub(crate) fn next_sends<A: Allocator + Copy>(
    streams: &[Stream],
    earlier: &Rc<Vec<Window, A>, A>,
    alloc: A,
) -> Result<Rc<Vec<Window, A>, A>, AllocError>
    ensures { IfOk result (λ sends. sends.value.items ≡ map spec.send_of streams.now) }
{
    if are_sends_of(earlier.as_ref().as_slice(), streams) {
        return Ok(earlier.clone()?);
    }
    new_sends(streams, alloc)
}
