//! What a client may send in one read: what it was granted before that read. What is granted for the octets of a read is
//! written after the read, so a client that has sent more has not waited for it (RFC 9113, 6.9). Definitions:
//! `specs/Granted.antt`.

ghost use Rattle.std.specs.Prelude.{◌≡◌, ◌-◌, ℕ, Some, nat_lt, IfOk, OnOk};
ghost use Rattle.std.specs.BTreeMap.{IsEmpty, get};
ghost use Rattle.std.specs.Ordering.{nat_cmp};
ghost use Rattle.h2_spec.specs.Window.{sendable};
ghost use Rattle.h2_explain_item.specs.Granted.{counted_octets, is_early, left_after, left_on, left_or};
ghost use Rattle.h2_explain_item.specs.RunFacts.{is_unacknowledged_use};

use crate::item::Explained;
use h2_spec::flow::Window;
use h2_spec::frames::{DATA, ItemHead};
use h2_spec::streams::{Stream, is_live};
use std::alloc::{AllocError, Allocator, Global};
use std::collections::BTreeMap;

/// The rest of what a client was granted before a read, in octets.
#[derive(Drop)]
pub struct Granted<A: Allocator = Global> {
    /// The rest for the connection; none where it is not known what came in one read.
    pub connection: Option<u64>,
    /// The rest for each stream on which DATA came in this read.
    pub streams: BTreeMap<u32, u64, A>,
    /// The rest of what a client may send that has read nothing: the first window of a connection (RFC 9113, 6.9.2).
    pub unasked: u64,
}

/// The octets that a window lets pass: none where it is negative (RFC 9113, 6.9.2).
fn octets_of(window: Window) -> u64
    ensures { result ≡ sendable window }
{
    let size = window.value();
    if size < 0 { 0 } else { size as u64 }
}

/// The octets that flow control counts of an item: the payload of DATA with its padding (RFC 9113, 6.9).
fn counted_octets(what: ItemHead) -> u64
    ensures { result ≡ counted_octets what }
{
    match what {
        ItemHead::Frame(head) if head.kind == DATA => u64::from(head.length),
        _ => 0,
    }
}

/// The rest for a stream: its receive window, where none of its DATA came in the read yet.
fn left_or(left: Option<u64>, stream: &Stream) -> u64
    ensures { result ≡ left_or left stream.now }
{
    match left {
        Some(left) => left,
        None => octets_of(stream.numbers.recv),
    }
}

impl<A: Allocator + Copy> Granted<A> {
    /// It is not known what comes in one read.
    pub fn new(alloc: A) -> Granted<A> {
        Granted {
            connection: None,
            streams: BTreeMap::new(alloc),
            unasked: 65535,
        }
    }

    /// A read begins, where the connection has this receive window.
    pub fn begin(&mut self, window: Window)
        ensures connection { self.new.connection ≡ Some (sendable window) }
        ensures streams { IsEmpty self.new.streams }
    {
        self.connection = Some(octets_of(window));
        self.streams.clear();
    }

    /// Takes octets that came on a stream; says whether they go beyond the rest for it.
    fn take_on(&mut self, stream: &Stream, count: u64) -> Result<bool, AllocError>
        ensures beyond { IfOk result (λ beyond. beyond ≡ nat_lt (left_on self.old stream.now) count) }
        ensures left { OnOk result (get nat_cmp self.new.streams stream.now.id ≡ Some (left_on self.old stream.now - count)) }
        ensures others { OnOk result ((id : ℕ) → (id ≡ stream.now.id → ⊥) → get nat_cmp self.new.streams id ≡ get nat_cmp self.old.streams id) }
        ensures connection { self.new.connection ≡ self.old.connection }
    {
        let left = left_or(self.streams.get(&stream.id).copied(), stream);
        self.streams.insert(stream.id, left.saturating_sub(count))?;
        Ok(left < count)
    }

    /// Looks at the windows of streams anew where an item puts the server's initial window into force (RFC 9113, 6.9.2).
    fn renew(&mut self, item: &Explained<'_>)
        ensures { self.new.connection ≡ self.old.connection }
    {
        if item.before.counts.own.window != item.after.counts.own.window {
            self.streams.clear();
        }
    }

    /// Takes the octets of an item from what a client may send that has read nothing. Says whether, in a read, it is DATA
    /// beyond that, while the server's SETTINGS are not acknowledged (RFC 9113, 6.5.3).
    pub fn take_unasked(&mut self, item: &Explained<'_>) -> bool
        ensures used { result ≡ is_unacknowledged_use self.old item.now }
        ensures taken { self.new ≡ record self.old { unasked = self.old.unasked - counted_octets item.now.what } }
    {
        let count = counted_octets(item.what);
        let left = self.unasked;
        self.unasked = left.saturating_sub(count);
        self.connection.is_some() && left < count && !item.before.counts.acked
    }

    /// Takes the octets of an item that came in the read, and says whether it is DATA beyond what was granted before that
    /// read.
    ///
    /// `AllocError` where memory is refused.
    pub fn take(&mut self, item: &Explained<'_>) -> Result<bool, AllocError>
        ensures early { IfOk result (λ early. early ≡ is_early self.old item.now) }
        ensures connection { OnOk result (self.new.connection ≡ left_after self.old.connection (counted_octets item.now.what)) }
    {
        let count = counted_octets(item.what);
        let Some(left) = self.connection else {
            return Ok(false);
        };
        self.connection = Some(left.saturating_sub(count));
        if count == 0 {
            self.renew(item);
            return Ok(false);
        }
        let stream = &item.before.stream;
        let on_stream = is_live(stream.kind) && self.take_on(stream, count)?;
        Ok(left < count || on_stream)
    }
}
