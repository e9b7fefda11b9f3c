//! Records in a list of their own: what opens, changes and ends a stream, where no record is in brief.
//! Definitions: `h2_spec/specs/Stream.antt`; what the fields keep: `specs/Kept.antt`.

ghost use Rattle.std.specs.Prelude.{◌≡◌, false, not, ◌+◌, ◌<◌, ◌≤◌, ◌%◌, ◌&&◌, length, OnOk, OnErr, IfOk, IfSome, IsTrue, slice_get};
ghost use Rattle.std.specs.List.{AllByRecursion, filter, list_any};
ghost use Rattle.std.specs.Option.{option_copied};
ghost use Rattle.std.specs.Vec.{vec_capacity};
ghost use Rattle.h2_spec.specs.Stream as spec;
ghost use Rattle.h2_spec.specs.Change as changes;
ghost use Rattle.h2_streams.specs.Greatest.{IsGreatest};
ghost use Rattle.h2_streams.specs.Kept as kept;
ghost use Rattle.h2_streams.specs.Put.{can_become};
ghost use Rattle.h2_streams.specs.Raised.{can_rise, raised};
ghost use Rattle.h2_streams.specs.Shift as shift;

use crate::kinds::is_ready;
use crate::lookup::hash::IdHash;
use crate::lookup::ids::{append, ids_above, list};
use crate::lookup::live::{enter, enter_each, known_place, note_ended, place_in, record_in};
use crate::lookup::places::{is_live_at, raise_at, write};
use crate::lookup::walks::{first_waiting, list_ready};
use crate::sharing::rebuilt::live_records;
use crate::windows::greatest::greatest_of;
use crate::windows::shift::{InitialWindow, move_each};
use h2_spec::flow::Window;
use h2_spec::streams::{Stream, is_live};
use indexmap::IndexMap;
use std::alloc::{AllocError, Allocator};
use std::marker::Model;

/// How many records may be here beyond twice those in the map of the live streams.
const SPARE_RECORDS: usize = 128;

// A map and a rising list beside the records: places of live streams, identifiers of those that can send.
// Without the second each of 1,000 waiting streams would be looked at for each item.
/// Records in a list of their own.
///
/// The record of a live stream is found by one look-up in a map, that of another stream by binary search over the
/// identifiers. The peer chooses identifiers, and could crowd a map of all records, but this one has at most two entries
/// for each live stream, and 32.
pub(crate) struct OwnRecords<A: Allocator> {
    /// In the order of opening, so that identifiers rise.
    records: Vec<Stream, A>,
    /// The places of the live streams' records, by identifier, in the order of opening. A record's place never changes.
    /// Streams that ended may be left here, as long as they are at most 32 more than the live ones.
    live: IndexMap<u32, usize, IdHash, A>,
    /// How many of the streams in `live` have ended.
    ended: usize,
    /// The identifiers of the streams that can send, rising; it has space for all that are in `live`.
    ready: Vec<u32, A>,
    last: u32,
    /// The place where a record was found or put last. It is looked at first, and may be any number.
    recent: usize,
}

impl<A: Allocator> Model for OwnRecords<A> {
    ghost use Rattle.std.specs.Prelude.{◌≤◌, length};
    ghost use Rattle.std.specs.Vec.{vec_capacity};
    ghost use Rattle.h2_spec.specs.Stream.{Records};
    ghost use Rattle.h2_streams.specs.Kept.{IsKept};

    ghost Value = { Records };

    ghost view = { λ s. record { streams = s.records.items; last = s.last } };

    ghost invariant = { λ s. IsKept s.records.items s.live.entries s.ended s.ready.items s.last × (length s.live.entries ≤ vec_capacity s.ready) };
}

/// By hand, so that a function that drops it makes one call, where a derived `Drop` would drop each part there.
impl<A: Allocator> Drop for OwnRecords<A> {
    fn drop(self) {
        let Self {
            records: _,
            live: _,
            ended: _,
            ready: _,
            last: _,
            recent: _,
        } = self;
    }
}

impl<A: Allocator + Copy> OwnRecords<A> {
    /// No stream is open yet. Takes no memory.
    pub(crate) fn new(alloc: A) -> Self
        ensures { result ≡ spec.no_records }
    {
        OwnRecords {
            records: Vec::new(alloc),
            live: IndexMap::with_hasher(alloc, IdHash),
            ended: 0,
            ready: Vec::new(alloc),
            last: 0,
            recent: 0,
        }
    }

    /// A copy of the records.
    pub(crate) fn try_clone(&self) -> Result<Self, AllocError>
        ensures { IfOk result (λ copy. copy ≡ self.now) }
    {
        let records = copy_of(&self.records)?;
        let ready = copy_with_capacity(&self.ready, self.live.len())?;
        let live = self.live.clone()?;
        Ok(OwnRecords {
            records,
            live,
            ended: self.ended,
            ready,
            last: self.last,
            recent: self.recent,
        })
    }
}

impl<A: Allocator + Copy> OwnRecords<A> {
    /// A list of these records, the last stream that was opened being this one.
    ///
    /// `AllocError` where memory for the map of the live streams is refused.
    pub(crate) fn of(records: Vec<Stream, A>, last: u32) -> Result<Self, AllocError>
        requires { spec.AreRising 0 last records.items }
        ensures { IfOk result (λ own. own ≡ record { streams = records.items; last = last }) }
    {
        let alloc = *records.allocator();
        let mut live = IndexMap::with_capacity_and_hasher(alloc, records.as_slice().len(), IdHash)?;
        enter_each(records.as_slice(), records.as_slice(), &mut live);
        let mut ready = Vec::with_capacity(alloc, live.len())?;
        list_ready(records.as_slice(), &live, &mut ready);
        Ok(OwnRecords {
            records,
            live,
            ended: 0,
            ready,
            last,
            recent: 0,
        })
    }

    /// The records that are live, in the order of opening.
    ///
    /// `AllocError` where memory for the list is refused.
    pub(crate) fn live_list(&self) -> Result<Vec<Stream, A>, AllocError>
        ensures { IfOk result (λ list. list.items ≡ filter kept.lives self.now.streams) }
    {
        let alloc = *self.records.allocator();
        live_records(self.records.as_slice(), &self.live, alloc)
    }

    /// The allocator that the records are from.
    pub(crate) fn allocator(&self) -> A {
        *self.records.allocator()
    }
}

impl<A: Allocator> OwnRecords<A> {
    /// Leaves the live records alone. Takes no memory.
    pub(crate) fn leave_live(&mut self)
        ensures { self.new ≡ record self.old { streams = filter kept.lives self.old.streams } }
    {
        self.records.retain(
            |stream: &Stream| -> bool
                ensures { result ≡ kept.lives stream.now }
            { is_live(stream.kind) },
        );
        self.live.clear();
        let records = self.records.as_slice();
        enter_each(records, records, &mut self.live);
        self.ended = 0;
        self.recent = 0;
    }

    /// The records, in the order of opening.
    pub(crate) fn as_slice(&self) -> &[Stream]
        ensures { result.now ≡ self.now.streams }
    {
        self.records.as_slice()
    }
}

impl<A: Allocator> OwnRecords<A> {
    /// The last stream that was opened, 0 before the first.
    #[inline(always)]
    pub(crate) fn last(&self) -> u32
        ensures value { result ≡ self.now.last }
        ensures rising { spec.AreRising 0 self.now.last self.now.streams }
    {
        self.last // 0 for none: client streams have odd identifiers
    }

    /// The record of the stream, if it has one: by one look-up where it is live, and else by binary search.
    #[inline(always)]
    pub(crate) fn get(&self, id: u32) -> Option<&Stream>
        ensures { option_copied result ≡ spec.record_of self.now.streams id }
    {
        record_in(&self.live, self.records.as_slice(), self.recent, id)
    }

    // The place is compared where it is used, so it may be any number.
    /// Looks the record of a live stream up, so that the calls that come next find it at once. Nothing changes.
    /// Where it returns `true` the stream is live.
    pub(crate) fn look_up(&mut self, id: u32) -> bool
        ensures same { self.new ≡ self.old }
        ensures live { IsTrue result → IsTrue (spec.is_live (spec.kind_of self.old.last self.old.streams id)) }
    {
        let records = self.records.as_slice();
        let Some(place) = known_place(&self.live, records, self.recent, id) else {
            return false;
        };
        self.recent = place;
        is_live_at(records, place)
    }

    /// The number of records.
    pub(crate) fn count(&self) -> usize
        ensures { result ≡ length self.now.streams }
    {
        self.records.as_slice().len()
    }

    /// Whether there are many more records than live streams.
    #[inline(always)]
    pub(crate) fn is_crowded(&self) -> bool {
        self.records.len() / 2 > self.live.len().saturating_add(SPARE_RECORDS / 2)
    }

    /// The number of live streams.
    pub(crate) fn live_count(&self) -> usize
        ensures { result ≡ spec.live_count self.now.streams }
    {
        self.live.len() - self.ended
    }

    /// The first live stream above this one that has octets to send, if there is one. All live ones may be looked at.
    pub(crate) fn next_waiting(&self, after: u32) -> Option<u32>
        ensures first { result ≡ spec.next_waiting after self.now.streams }
        ensures least { IfSome result (λ id. AllByRecursion (λ st. IsTrue (spec.waits_above after st) → id ≤ st.id) self.now.streams) }
    {
        first_waiting(self.records.as_slice(), &self.live, after)
    }

    /// The first stream above this one that can send, if there is one, by binary search: it has octets to send, and a
    /// send window above 0 (RFC 9113, 6.9).
    pub(crate) fn next_ready(&self, after: u32) -> Option<u32>
        ensures { result ≡ kept.next_ready after self.now.streams }
    {
        first(ids_above(self.ready.as_slice(), after))
    }

    /// Whether no stream can send: none has both octets to send and a send window above 0 (RFC 9113, 6.9).
    #[inline(always)]
    pub(crate) fn none_ready(&self) -> bool
        ensures { result ≡ not (list_any kept.is_ready self.now.streams) }
    {
        self.ready.as_slice().is_empty()
    }

    /// The greatest of the send windows that settings move, if there is one: it alone decides whether a move takes a
    /// window too far (RFC 9113, 6.9.2).
    pub(crate) fn greatest_send(&self) -> Option<Window>
        ensures { IsGreatest result self.now.streams }
    {
        greatest_of(self.records.as_slice(), &self.live)
    }

    /// Moves the send windows as `shift_send` does, where none of them would pass 2147483647.
    pub(crate) fn move_send(&mut self, delta: i64)
        requires can { AllByRecursion (shift.CanShift delta) self.old.streams }
        requires fits { changes.overflows delta self.old.streams ≡ false }
        ensures { self.new ≡ record self.old { streams = changes.shifted delta self.old.streams } }
    {
        move_each(&mut self.records, &self.live, InitialWindow::Peer, delta);
        list_ready(self.records.as_slice(), &self.live, &mut self.ready);
    }

    /// Moves the receive windows of the live streams by `delta`, as the server's own SETTINGS_INITIAL_WINDOW_SIZE comes
    /// into force (RFC 9113, 6.5.3 and 6.9.2). Takes no memory.
    /// A window may become negative, but not less than -2147483648, and none passes 2147483647.
    pub(crate) fn shift_recv(&mut self, delta: i64)
        requires { AllByRecursion (shift.CanReceive delta) self.old.streams }
        ensures { self.new ≡ record self.old { streams = changes.received delta self.old.streams } }
    {
        move_each(&mut self.records, &self.live, InitialWindow::Own, delta);
    }

    /// Records a stream above all others.
    #[inline(never)]
    pub(crate) fn add(&mut self, stream: Stream) -> Result<(), AllocError>
        requires odd { stream.id % 2 ≡ 1 }
        requires above { self.old.last < stream.id }
        ensures ok { OnOk result (self.new ≡ spec.added stream self.old) }
        ensures err { OnErr result (self.new ≡ self.old) }
    {
        let live = is_live(stream.kind);
        let ready = is_ready(&stream);
        self.live.reserve(1)?;
        let more = self.live.len() - self.ready.as_slice().len() + 1;
        self.ready.reserve(more)?;
        let place = self.records.as_slice().len();
        self.records.push(stream)?;
        enter(&mut self.live, stream.id, place, live);
        append(&mut self.ready, stream.id, ready);
        self.last = stream.id;
        self.recent = place;
        Ok(())
    }

    /// Puts a record in the place of the one of the same stream.
    #[inline(always)]
    pub(crate) fn replace(&mut self, stream: Stream)
        requires { IsTrue (can_become (spec.kind_of self.old.last self.old.streams stream.id) stream.kind) }
        ensures { self.new ≡ record self.old { streams = spec.put stream self.old.streams } }
    {
        let live = is_live(stream.kind);
        let ready = is_ready(&stream);
        let place = place_in(&self.live, self.records.as_slice(), self.recent, stream.id);
        self.recent = place;
        let was_live = write(&mut self.records, place, stream);
        list(&mut self.ready, stream.id, ready);
        if has_ended(was_live, live) {
            self.ended = note_ended(&mut self.live, self.records.as_slice(), self.ended);
        }
    }

    /// Raises the send window of a live stream, in place.
    #[inline(always)]
    pub(crate) fn raise(&mut self, id: u32, increment: u32)
        requires live { IsTrue (spec.is_live (spec.kind_of self.old.last self.old.streams id)) }
        requires fits { IsTrue (can_rise increment (spec.stream_at self.old.last self.old.streams id)) }
        ensures { self.new ≡ spec.changed id (raised increment) self.old }
    {
        let place = place_in(&self.live, self.records.as_slice(), self.recent, id);
        let ready = raise_at(&mut self.records, place, increment);
        list(&mut self.ready, id, ready);
    }
}

/// Whether a stream has ended, by whether it was live and is.
#[inline(always)]
fn has_ended(was_live: bool, live: bool) -> bool
    ensures { result ≡ (was_live && not live) }
{
    was_live && !live
}

fn first(ids: &[u32]) -> Option<u32>
    ensures { result ≡ slice_get ids.now 0 }
{
    let id = ids.first()?;
    Some(*id)
}

/// A copy of the records.
fn copy_of<A: Allocator + Copy>(records: &Vec<Stream, A>) -> Result<Vec<Stream, A>, AllocError>
    ensures { IfOk result (λ copy. copy.items ≡ records.now.items) }
{
    let mut copy = Vec::new(*records.allocator());
    copy.extend_from_slice(records.as_slice())?;
    Ok(copy)
}

/// A copy of the identifiers, with space for that many.
fn copy_with_capacity<A: Allocator + Copy>(
    ids: &Vec<u32, A>,
    count: usize,
) -> Result<Vec<u32, A>, AllocError>
    ensures items { IfOk result (λ copy. copy.items ≡ ids.now.items) }
    ensures enough { IfOk result (λ copy. count ≤ vec_capacity copy) }
{
    let mut copy = Vec::with_capacity(*ids.allocator(), count)?;
    copy.extend_from_slice(ids.as_slice())?;
    Ok(copy)
}
