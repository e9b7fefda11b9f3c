//! Records by their identifiers, which rise: a binary search. Definitions: `specs/Kept.antt`,
//! `specs/Rebuilt.antt`.

ghost use Rattle.std.specs.Prelude.{◌≡◌, ◌≤◌, false, length, map, IsTrue, slice_get};
ghost use Rattle.std.specs.Option.{option_copied, option_map_or, is_some};
ghost use Rattle.std.specs.Vec.{vec_capacity};
ghost use Rattle.h2_spec.specs.Stream as spec;
ghost use Rattle.h2_streams.specs.Kept as kept;
ghost use Rattle.h2_streams.specs.Raised.{can_rise, raised};
ghost use Rattle.h2_streams.specs.Rebuilt as rebuilt;
ghost use Rattle.h2_streams.specs.Shift.{update};

use crate::kinds::{is_ready, raise};
use h2_spec::streams::{Stream, is_live};
use std::alloc::Allocator;

/// How many records are below this identifier.
pub(crate) fn place_of(records: &[Stream], id: u32) -> usize
    requires { kept.Rise 0 records.now }
    ensures value { result ≡ kept.place_of id records.now }
    ensures within { result ≤ length records.now }
{
    records.partition_point(|stream| stream.id < id)
}

/// The record at this place.
#[inline(always)]
pub(crate) fn record_at(records: &[Stream], place: usize) -> Option<&Stream>
    ensures { option_copied result ≡ slice_get records.now place }
{
    records.get(place)
}

/// The record with this identifier.
pub(crate) fn find(records: &[Stream], id: u32) -> Option<&Stream>
    requires { kept.Rise 0 records.now }
    ensures { option_copied result ≡ spec.record_of records.now id }
{
    let stream = record_at(records, place_of(records, id))?;
    if stream.id == id { Some(stream) } else { None }
}

/// Whether there is a record at this place and its stream is live.
#[inline(always)]
pub(crate) fn is_live_at(records: &[Stream], place: usize) -> bool
    ensures { result ≡ kept.passes_at kept.lives records.now place }
{
    match record_at(records, place) {
        Some(stream) => is_live(stream.kind),
        None => false,
    }
}

/// Writes a record at the place of the one with its identifier, and returns whether that one was live.
#[inline(always)]
pub(crate) fn write<A: Allocator>(
    records: &mut Vec<Stream, A>,
    place: usize,
    stream: Stream,
) -> bool
    requires rising { kept.Rise 0 records.old.items }
    requires known { IsTrue (is_some (spec.record_of records.old.items stream.id)) }
    requires place { place ≡ kept.place_of stream.id records.old.items }
    ensures items { records.new.items ≡ spec.put stream records.old.items }
    ensures was_live { result ≡ option_map_or kept.lives (spec.record_of records.old.items stream.id) false }
    ensures capacity { vec_capacity records.old ≤ vec_capacity records.new }
{
    let was_live = is_live_at(records.as_slice(), place);
    records[place] = stream;
    was_live
}

/// Raises the send window of the record at this place, and returns whether its stream can send then.
#[inline(always)]
pub(crate) fn raise_at<A: Allocator>(
    records: &mut Vec<Stream, A>,
    place: usize,
    increment: u32,
) -> bool
    requires { IsTrue (kept.passes_at (can_rise increment) records.old.items place) }
    ensures items { records.new.items ≡ update (raised increment) place records.old.items }
    ensures ready { result ≡ kept.passes_at (λ st. kept.is_ready (raised increment st)) records.old.items place }
{
    let stream = &mut records[place];
    raise(stream, increment);
    is_ready(stream)
}

/// Writes records in the places of those with their identifiers.
pub(crate) fn write_each<A: Allocator>(records: &mut Vec<Stream, A>, changed: &[Stream])
    requires rising { kept.Rise 0 records.old.items }
    requires changed { kept.Rise 0 changed.now }
    requires known { rebuilt.AreKnown records.old.items changed.now }
    ensures items { records.new.items ≡ map (rebuilt.as_in changed.now) records.old.items }
    ensures capacity { vec_capacity records.old ≤ vec_capacity records.new }
{
    for stream in changed {
        let place = place_of(records.as_slice(), stream.id);
        write(records, place, *stream);
    }
}
