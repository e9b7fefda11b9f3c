//! The live streams by identifier: the place of each one's record, in the order of opening. Definitions:
//! `specs/Kept.antt`. A stream that ends is left in the map until such streams are more than the live ones, and all are
//! then taken out at once: what the end of a stream costs does not depend on how many are live.

ghost use Rattle.std.specs.Prelude.{◌≡◌, ◌+◌, ◌<◌, ◌≤◌, ◌++◌, ◌∷◌, [], ◌==◌, None, length, nat_eq, if◌then◌else◌, IfSome, IsTrue};
ghost use Rattle.std.specs.Option.{option_copied};
ghost use Rattle.indexmap.specs.IndexMap.{get, spare};
ghost use Rattle.h2_spec.specs.Stream as spec;
ghost use Rattle.h2_streams.specs.Kept as kept;
ghost use Rattle.h2_streams.specs.Rebuilt.{live_entries};

use crate::lookup::hash::IdHash;
use crate::lookup::places::{find, is_live_at, place_of, record_at};
use h2_spec::streams::{Stream, is_live};
use indexmap::IndexMap;
use std::alloc::Allocator;

/// How many streams that ended may be in the map beyond the number of live ones.
const SPARE_ENTRIES: usize = 32;

/// Puts a stream after the others, if it is to be there. There is space for it then.
pub(crate) fn enter<A: Allocator>(
    live: &mut IndexMap<u32, usize, IdHash, A>,
    id: u32,
    place: usize,
    is_in: bool,
)
    requires new { get nat_eq live.old id ≡ None }
    requires enough { IsTrue is_in → 0 < spare live.old }
    ensures entries { live.new.entries ≡ live.old.entries ++ (if is_in then (id, place) ∷ [] else []) }
    ensures spare { spare live.old ≤ spare live.new + (if is_in then 1 else 0) }
{
    if is_in {
        let _ = live.insert(id, place);
    }
}

/// Puts the live ones of these streams into a map that is empty, with their places among the records. There is space for
/// them.
pub(crate) fn enter_each<A: Allocator>(
    records: &[Stream],
    streams: &[Stream],
    live: &mut IndexMap<u32, usize, IdHash, A>,
)
    requires rising { kept.Rise 0 records.now }
    requires order { kept.Rise 0 streams.now }
    requires empty { live.old.entries ≡ [] }
    requires enough { spec.live_count streams.now ≤ spare live.old }
    ensures { live.new.entries ≡ live_entries streams.now records.now }
{
    for stream in streams {
        enter(
            live,
            stream.id,
            place_of(records, stream.id),
            is_live(stream.kind),
        );
    }
}

/// Notes that one more of the streams in the map has ended. Takes those that ended out where they are more than the live
/// ones and some. Returns how many of them are in it then.
#[inline(never)]
pub(crate) fn note_ended<A: Allocator>(
    live: &mut IndexMap<u32, usize, IdHash, A>,
    records: &[Stream],
    ended: usize,
) -> usize
    requires { ended < length live.old.entries }
    ensures entries { live.new.entries ≡ kept.entries_left (ended + 1) records.now live.old.entries }
    ensures ended { result ≡ kept.ended_left (ended + 1) live.old.entries }
{
    let listed = live.len();
    let ended = ended + 1;
    if listed + SPARE_ENTRIES >= 2 * ended {
        return ended;
    }
    live.retain(
        |_id: &u32, place: &mut usize| -> bool
            ensures { (result ≡ kept.passes_at kept.lives records.entry.now place.old) × (place.new ≡ place.old) }
        { is_live_at(records, *place) },
    );
    0
}

/// How many records are below this identifier: its record's place. That is `recent` where the record there has the
/// identifier; else it is found by one look-up where the stream is live, and else by binary search.
#[inline(always)]
pub(crate) fn place_in<A: Allocator>(
    live: &IndexMap<u32, usize, IdHash, A>,
    records: &[Stream],
    recent: usize,
    id: u32,
) -> usize
    requires { kept.Rise 0 records.now }
    ensures { result ≡ kept.place_of id records.now }
{
    match known_place(live, records, recent, id) {
        Some(place) => place,
        None => place_of(records, id),
    }
}

/// The record with this identifier; `recent` is looked at first.
#[inline(always)]
pub(crate) fn record_in<'a, A: Allocator>(
    live: &IndexMap<u32, usize, IdHash, A>,
    records: &'a [Stream],
    recent: usize,
    id: u32,
) -> Option<&'a Stream>
    requires { kept.Rise 0 records.now }
    ensures { option_copied result ≡ spec.record_of records.now id }
{
    match known_place(live, records, recent, id) {
        Some(place) => record_at(records, place),
        None => find(records, id),
    }
}

// What the map says is compared with the record there, so a look-up needs no law of the map.
/// The place of the record with this identifier, if it is `recent` or the map has it.
#[inline(always)]
pub(crate) fn known_place<A: Allocator>(
    live: &IndexMap<u32, usize, IdHash, A>,
    records: &[Stream],
    recent: usize,
    id: u32,
) -> Option<usize>
    ensures { IfSome result (λ place. IsTrue (kept.passes_at (λ st. st.id == id) records.now place)) }
{
    if has_id(records, recent, id) {
        Some(recent)
    } else {
        entered_place(live, records, id)
    }
}

/// The place of the record with this identifier, if the map has it.
#[inline(never)]
fn entered_place<A: Allocator>(
    live: &IndexMap<u32, usize, IdHash, A>,
    records: &[Stream],
    id: u32,
) -> Option<usize>
    ensures { IfSome result (λ place. IsTrue (kept.passes_at (λ st. st.id == id) records.now place)) }
{
    let place = *live.get(&id)?;
    if has_id(records, place, id) {
        Some(place)
    } else {
        None
    }
}

/// Whether the record at this place has this identifier.
#[inline(always)]
fn has_id(records: &[Stream], place: usize, id: u32) -> bool
    ensures { result ≡ kept.passes_at (λ st. st.id == id) records.now place }
{
    match record_at(records, place) {
        Some(stream) => stream.id == id,
        None => false,
    }
}
