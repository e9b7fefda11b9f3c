//! The records: what opens, changes and ends a stream. Those that can change are a list of their own, and most others
//! are kept in brief (RFC 9113, 5.1). The program does not call `open_stream`, `open_reset`, `set`, `end_remote`,
//! `end_local` and `next_waiting`, which are for users of the library: its rules return the whole record after a frame,
//! which `put` puts in place, and `next_ready` finds the next stream that can send.
//! Definitions: `h2_spec/specs/Stream.antt`; what is in brief: `specs/Joined.antt`.

ghost use Rattle.std.specs.Prelude.{◌≡◌, false, not, take, ◌<◌, ◌≤◌, ◌%◌, ◌==◌, ◌||◌, nat_lt, length, IsOk, OnOk, OnErr, IfOk, IfErr, IfSome, IsTrue, is_err, slice_get};
ghost use Rattle.std.specs.List.{AllByRecursion, filter, list_any};
ghost use Rattle.h2_spec.specs.Stream as spec;
ghost use Rattle.h2_spec.specs.Requests.StreamEnds as ends;
ghost use Rattle.h2_spec.specs.Change as changes;
ghost use Rattle.h2_streams.specs.Greatest.{IsGreatest};
ghost use Rattle.h2_streams.specs.Kept as kept;
ghost use Rattle.h2_streams.specs.Put.{CanPut, can_become};
ghost use Rattle.h2_streams.specs.Raised.{can_rise, raised};
ghost use Rattle.h2_streams.specs.Rebuilt as earlier;
ghost use Rattle.h2_streams.specs.Shift as shift;

use crate::brief::base::{Base, list_of, replace};
use crate::kinds::{are_brief, not_live, peer_closed, reset_kind, server_ended};
use crate::lookup::places::write_each;
use crate::own::OwnRecords;
use crate::sharing::rebuilt::insert_closed;
use crate::windows::greatest::overflows_with;
use h2_spec::errors::FlowFault;
use h2_spec::flow::Window;
use h2_spec::streams::{Numbers, Pick, Stream, StreamState};
use std::alloc::{AllocError, Allocator};
use std::marker::Model;

/// The records of a connection's streams.
///
/// The record of a live stream is found by one look-up in a map. Of a stream that is not live only the identifier and the
/// state are kept once many are: an octet, where identifiers follow one another, and else 17. They are found by binary
/// search.
pub struct Streams<A: Allocator> {
    own: OwnRecords<A>,
    /// The first of the records, in brief.
    base: Base<A>,
    /// Whether all records are kept whole: something was counted on a stream that had ended. No rule does that.
    is_whole: bool,
}

impl<A: Allocator> Model for Streams<A> {
    ghost use Rattle.h2_spec.specs.Stream.{Records};
    ghost use Rattle.h2_streams.specs.Joined.{GoWith, with_base};

    ghost Value = { Records };

    ghost view = { λ s. with_base s.base s.own };

    ghost invariant = { λ s. GoWith s.base s.own };
}

/// By hand, so that a function that drops it makes one call, where a derived `Drop` would drop each part there.
impl<A: Allocator> Drop for Streams<A> {
    fn drop(self) {
        let Self {
            own: _,
            base: _,
            is_whole: _,
        } = self;
    }
}

impl<A: Allocator + Copy> Streams<A> {
    /// No stream is open yet. Takes no memory.
    pub fn new(alloc: A) -> Self
        ensures { result ≡ spec.no_records }
    {
        Streams {
            own: OwnRecords::new(alloc),
            base: Base::new(alloc),
            is_whole: false,
        }
    }

    /// A copy of the records.
    pub fn try_clone(&self) -> Result<Self, AllocError>
        ensures { IfOk result (λ copy. copy ≡ self.now) }
    {
        let base = self.base.try_clone()?;
        let own = self.own.try_clone()?;
        Ok(Streams {
            own,
            base,
            is_whole: self.is_whole,
        })
    }
}

impl<A: Allocator + Copy> Streams<A> {
    /// The records that are live, and that of one more stream, if it has one; in the order of opening.
    ///
    /// `AllocError` where memory for the list is refused.
    pub(crate) fn live_or(&self, other: Option<u32>) -> Result<Vec<Stream, A>, AllocError>
        ensures { IfOk result (λ list. list.items ≡ filter (earlier.is_live_or other) self.now.streams) }
    {
        let mut list = self.own.live_list()?;
        let Some(id) = other else {
            return Ok(list);
        };
        let Some(stream) = self.get(id) else {
            return Ok(list);
        };
        insert_closed(&mut list, &stream)?;
        Ok(list)
    }

    /// That many first records where those that have changed since are as in `changed`: the records at an earlier time,
    /// when `last` was the last stream that was opened. Records in brief are not copied: both share them.
    ///
    /// `AllocError` where memory is refused. The records are as they were.
    pub fn rebuilt(
        &mut self,
        count: usize,
        last: u32,
        changed: Vec<Stream, A>,
    ) -> Result<Self, AllocError>
        requires within { count ≤ length self.old.streams }
        requires rising { spec.AreRising 0 last (take count self.old.streams) }
        requires changed { kept.Rise 0 changed.items }
        requires known { earlier.AreKnown (take count self.old.streams) changed.items }
        requires closed { earlier.AreOthersClosed changed.items (take count self.old.streams) }
        ensures rebuilt { IfOk result (λ streams. streams ≡ record { streams = earlier.rebuilt count changed.items self.old.streams; last = last }) }
        ensures same { self.new ≡ self.old }
    {
        if !are_brief(self.own.as_slice()) {
            return self.rebuilt_whole(count, last, changed);
        }
        self.base.settle(&mut self.own)?;
        self.base.share()?;
        let base = self.base.first(count, changed.as_slice().len())?;
        let own = OwnRecords::of(changed, last)?;
        Ok(Streams {
            own,
            base,
            is_whole: false,
        })
    }

    /// As `rebuilt`, where something is counted on a stream that has ended: a list of whole records.
    #[inline(never)]
    fn rebuilt_whole(
        &self,
        count: usize,
        last: u32,
        changed: Vec<Stream, A>,
    ) -> Result<Self, AllocError>
        requires rising { spec.AreRising 0 last (take count self.now.streams) }
        requires changed { kept.Rise 0 changed.items }
        requires known { earlier.AreKnown (take count self.now.streams) changed.items }
        ensures { IfOk result (λ streams. streams ≡ record { streams = earlier.rebuilt count changed.items self.now.streams; last = last }) }
    {
        let mut list = list_of(&self.base, &self.own, count)?;
        write_each(&mut list, changed.as_slice());
        let own = OwnRecords::of(list, last)?;
        Ok(Streams {
            base: Base::new(own.allocator()),
            own,
            is_whole: true,
        })
    }
}

impl<A: Allocator> Streams<A> {
    /// The last stream that was opened, 0 before the first.
    #[inline(always)]
    pub fn last(&self) -> u32
        ensures value { result ≡ self.now.last }
        ensures rising { spec.AreRising 0 self.now.last self.now.streams }
    {
        self.own.last() // 0 for none: client streams have odd identifiers
    }

    /// The record of the stream, if it has one: by one look-up where it is live, and else by binary search.
    #[inline(always)]
    pub fn get(&self, id: u32) -> Option<Stream>
        ensures { result ≡ spec.record_of self.now.streams id }
    {
        self.base.find(&self.own, id)
    }

    /// Looks the record of a live stream up, so that the calls that come next find it at once. Nothing changes.
    /// Where it returns `true` the stream is live.
    pub fn look_up(&mut self, id: u32) -> bool
        ensures same { self.new ≡ self.old }
        ensures live { IsTrue result → IsTrue (spec.is_live (spec.kind_of self.old.last self.old.streams id)) }
    {
        self.own.look_up(id)
    }

    /// The i-th record in the order of opening, from 0.
    pub fn at(&self, i: usize) -> Option<Stream>
        ensures { result ≡ slice_get self.now.streams i }
    {
        self.base.at(&self.own, i)
    }

    /// The number of records.
    pub fn count(&self) -> usize
        ensures { result ≡ length self.now.streams }
    {
        self.base.count(&self.own)
    }

    /// The number of live streams.
    pub fn live_count(&self) -> usize
        ensures { result ≡ spec.live_count self.now.streams }
    {
        self.own.live_count()
    }

    /// The stream with this identifier: its record, or, where it has none, `Idle` or `Skipped` without numbers.
    #[tactic(auto, unfolding(h2_spec::specs::Stream::stream_at))]
    #[inline(always)]
    pub fn stream_at(&self, id: u32) -> Stream
        ensures value { result ≡ spec.stream_at self.now.last self.now.streams id }
        ensures id { result.id ≡ id }
    {
        if is_idle(self.last(), id) {
            return not_live(id, StreamState::Idle);
        }
        match self.get(id) {
            None => not_live(id, StreamState::Skipped),
            Some(stream) => stream,
        }
    }

    /// The state of the stream (RFC 9113, 5.1): even identifiers and those above `last` are idle.
    pub fn kind(&self, id: u32) -> StreamState
        ensures { result ≡ spec.kind_of self.now.last self.now.streams id }
    {
        self.stream_at(id).kind
    }

    /// Gives a live stream these numbers.
    pub fn set(&mut self, id: u32, numbers: Numbers)
        requires { IsTrue (spec.is_live (spec.kind_of self.old.last self.old.streams id)) }
        ensures { self.new ≡ spec.changed id (spec.with_numbers numbers) self.old }
    {
        let stream = self.stream_at(id);
        self.replace(Stream { numbers, ..stream });
    }

    /// Raises the send window of a live stream, which stays at most 2147483647 (RFC 9113, 6.9 and 6.9.1).
    #[inline(always)]
    pub fn raise(&mut self, id: u32, increment: u32)
        requires live { IsTrue (spec.is_live (spec.kind_of self.old.last self.old.streams id)) }
        requires fits { IsTrue (can_rise increment (spec.stream_at self.old.last self.old.streams id)) }
        ensures { self.new ≡ spec.changed id (raised increment) self.old }
    {
        self.own.raise(id, increment);
    }

    /// The peer's side ends: a stream that was open on both sides is half-closed then, a half-closed one has ended.
    pub fn end_remote(&mut self, id: u32)
        requires { IsTrue (spec.is_peer_open (spec.kind_of self.old.last self.old.streams id)) }
        ensures { self.new ≡ spec.changed id spec.peer_closed self.old }
    {
        let stream = self.stream_at(id);
        self.replace(peer_closed(stream));
    }

    /// The server's side ends: nothing of its answer is left to send, and a half-closed stream has ended.
    pub fn end_local(&mut self, id: u32)
        requires { IsTrue (spec.is_server_open (spec.kind_of self.old.last self.old.streams id)) }
        ensures { self.new ≡ spec.changed id ends.server_ended self.old }
    {
        let stream = self.stream_at(id);
        self.replace(server_ended(stream));
    }

    /// RST_STREAM ends a live stream, from the peer or from the server (RFC 9113, 6.4).
    pub fn reset(&mut self, id: u32, by_peer: bool)
        requires { IsTrue (spec.is_live (spec.kind_of self.old.last self.old.streams id)) }
        ensures { self.new ≡ spec.changed id (spec.reset_as by_peer) self.old }
    {
        self.replace(not_live(id, reset_kind(by_peer)));
    }

    /// The first live stream above this one that has octets to send, if there is one. All live ones may be looked at.
    pub fn next_waiting(&self, after: u32) -> Option<u32>
        ensures first { result ≡ spec.next_waiting after self.now.streams }
        ensures least { IfSome result (λ id. AllByRecursion (λ st. IsTrue (spec.waits_above after st) → id ≤ st.id) self.now.streams) }
    {
        self.own.next_waiting(after)
    }

    /// The first stream above this one that can send, if there is one, by binary search: it has octets to send, and a
    /// send window above 0 (RFC 9113, 6.9).
    pub fn next_ready(&self, after: u32) -> Option<u32>
        ensures { result ≡ kept.next_ready after self.now.streams }
    {
        self.own.next_ready(after)
    }

    /// Whether no stream can send: none has both octets to send and a send window above 0 (RFC 9113, 6.9).
    #[inline(always)]
    pub fn none_ready(&self) -> bool
        ensures { result ≡ not (list_any kept.is_ready self.now.streams) }
    {
        self.own.none_ready()
    }

    /// The greatest of the send windows that settings move, if there is one: it alone decides whether a move takes a
    /// window too far (RFC 9113, 6.9.2).
    pub fn greatest_send(&self) -> Option<Window>
        ensures { IsGreatest result self.now.streams }
    {
        self.own.greatest_send()
    }

    /// Moves the send windows of the streams that settings move, as SETTINGS_INITIAL_WINDOW_SIZE changes by `delta`
    /// (RFC 9113, 6.9.2).
    /// A window may become negative, but not less than -2147483648.
    /// `Overflow`, and nothing is changed, where one would pass 2147483647.
    pub fn shift_send(&mut self, delta: i64) -> Result<(), FlowFault>
        requires { AllByRecursion (shift.CanShift delta) self.old.streams }
        ensures moved { OnOk result (self.new ≡ record self.old { streams = changes.shifted delta self.old.streams }) }
        ensures refused { IfErr result (λ e. (e ≡ FlowFault.Overflow) × (self.new ≡ self.old)) }
        ensures overflow { is_err result ≡ changes.overflows delta self.old.streams }
    {
        if overflows_with(self.greatest_send(), delta) {
            return Err(FlowFault::Overflow);
        }
        self.move_send(delta);
        Ok(())
    }

    /// Moves the send windows as `shift_send` does, where none of them would pass 2147483647.
    pub fn move_send(&mut self, delta: i64)
        requires can { AllByRecursion (shift.CanShift delta) self.old.streams }
        requires fits { changes.overflows delta self.old.streams ≡ false }
        ensures { self.new ≡ record self.old { streams = changes.shifted delta self.old.streams } }
    {
        self.own.move_send(delta);
    }

    /// Moves the receive windows of the live streams by `delta`, as the server's own SETTINGS_INITIAL_WINDOW_SIZE comes
    /// into force (RFC 9113, 6.5.3 and 6.9.2). Takes no memory.
    /// A window may become negative, but not less than -2147483648, and none passes 2147483647.
    pub fn shift_recv(&mut self, delta: i64)
        requires { AllByRecursion (shift.CanReceive delta) self.old.streams }
        ensures { self.new ≡ record self.old { streams = changes.received delta self.old.streams } }
    {
        self.own.shift_recv(delta);
    }

    /// Puts a record in the place of that of a live stream. Takes no memory.
    #[inline(always)]
    pub fn replace(&mut self, stream: Stream)
        requires { IsTrue (spec.is_live (spec.kind_of self.old.last self.old.streams stream.id)) }
        ensures { self.new ≡ record self.old { streams = spec.put stream self.old.streams } }
    {
        self.own.replace(stream);
    }
}

impl<A: Allocator + Copy> Streams<A> {
    /// Opens the stream at the end of its request's block, which may end the peer's side.
    /// `Err` leaves the records as they were.
    pub fn open_stream(
        &mut self,
        id: u32,
        numbers: Numbers,
        pick: Pick,
        ends: bool,
    ) -> Result<(), AllocError>
        requires odd { id % 2 ≡ 1 }
        requires above { self.old.last < id }
        ensures ok { OnOk result (self.new ≡ spec.added (spec.requested id numbers pick ends) self.old) }
        ensures err { OnErr result (self.new ≡ self.old) }
    {
        let kind = if ends {
            StreamState::HalfRemote
        } else {
            StreamState::BothOpen
        };
        self.add(Stream {
            id,
            kind,
            numbers,
            pick,
        })
    }

    /// Records the stream as reset by the server, as one that it refuses.
    /// `Err` leaves the records as they were.
    pub fn open_reset(&mut self, id: u32) -> Result<(), AllocError>
        requires odd { id % 2 ≡ 1 }
        requires above { self.old.last < id }
        ensures ok { OnOk result (self.new ≡ spec.added (spec.not_live id StreamState.WeReset) self.old) }
        ensures err { OnErr result (self.new ≡ self.old) }
    {
        self.add(not_live(id, StreamState::WeReset))
    }

    /// Puts a record: in the place of the one of the same stream, or after all, of a stream above them. A live stream
    /// may move to any state, one that is closed stays closed (RFC 9113, 5.1). A live stream's takes no memory; `Err` leaves
    /// the records as they were.
    #[inline(always)]
    pub fn put(&mut self, stream: Stream) -> Result<(), AllocError>
        requires { CanPut stream self.old }
        ensures ok { OnOk result (self.new ≡ spec.with_record stream self.old) }
        ensures err { OnErr result (self.new ≡ self.old) }
        ensures known { IsTrue (spec.is_live (spec.kind_of self.old.last self.old.streams stream.id)) → IsOk result }
    {
        if self.last() < stream.id {
            return self.add(stream);
        }
        replace(&mut self.own, &mut self.base, stream)
    }

    /// Records a stream above all others.
    fn add(&mut self, stream: Stream) -> Result<(), AllocError>
        requires odd { stream.id % 2 ≡ 1 }
        requires above { self.old.last < stream.id }
        ensures ok { OnOk result (self.new ≡ spec.added stream self.old) }
        ensures err { OnErr result (self.new ≡ self.old) }
    {
        self.settle()?;
        self.own.add(stream)
    }

    /// Keeps the records of streams that have ended in brief, once there are many. Nothing else changes.
    #[inline(always)]
    fn settle(&mut self) -> Result<(), AllocError>
        ensures { self.new ≡ self.old }
    {
        if self.is_whole || !self.own.is_crowded() {
            return Ok(());
        }
        self.settle_all()
    }

    /// Keeps the records of streams that have ended in brief, unless something is counted on one. Nothing else changes.
    #[inline(never)]
    fn settle_all(&mut self) -> Result<(), AllocError>
        ensures { self.new ≡ self.old }
    {
        if are_brief(self.own.as_slice()) {
            return self.base.settle(&mut self.own);
        }
        self.is_whole = true;
        Ok(())
    }
}

/// Whether the stream is idle, where the last one that was opened is this: even identifiers are the server's, which
/// opens none.
#[inline(always)]
fn is_idle(last: u32, id: u32) -> bool
    ensures { result ≡ (id % 2 == 0 || nat_lt last id) }
{
    id % 2 == 0 || last < id
}
