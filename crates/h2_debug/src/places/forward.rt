//! Moves forward through a run: items taken one after another, where something is kept of each place at a multiple of
//! 64 that is left for the first time. Definitions: `specs/Places.antt`, and `stop` of h2_spec's `specs/Texts/Debug.antt`.

ghost use Rattle.std.specs.Prelude.{◌≡◌, ◌+◌, ◌-◌, ◌*◌, ◌<◌, ◌≤◌, [], ◌∷◌, ◌++◌, IfOk, OnErr, OnOk, length, min, map};
ghost use Rattle.h2_spec.specs.Texts.Debug.{stop};
ghost use Rattle.h2_conn.specs.Checkpoint.{IsConsistent};
ghost use Rattle.h2_debug.specs.Breakpoints.{break_of};
ghost use Rattle.h2_debug.specs.Places.{Advances, AreKept, IsAt, IsReached, Source, end, events, kept_of};

use crate::breakpoints::{Break, any_match};
use crate::places::kept_place::KeptPlace;
use crate::places::place::Place;
use crate::places::source::Source as Input;
use std::alloc::{AllocError, Allocator};

/// How many items there are from one place of which something is kept to the next.
pub const SPACING: usize = 64;

/// How many items a run to a breakpoint takes over positions that were reached before, until its place is made again
/// from what is kept. The records that it adds itself, at most one for each item, are in memory twice meanwhile; to make
/// it again takes some time, as space for all records is needed.
pub const LEG: usize = 256 * SPACING;

/// Keeps a checkpoint of a place after those that are kept, with which it shares what it can.
#[inline(never)]
fn keep<'b, A: Allocator + Copy>(
    place: &Place<'b, A>,
    kept: &mut Vec<KeptPlace<'b, A>, A>,
) -> Result<(), AllocError>
    ensures kept { OnOk result (kept.new.items ≡ kept.old.items ++ kept_of place.now ∷ []) }
    ensures unchanged { OnErr result (kept.new.items ≡ kept.old.items) }
    ensures consistent { OnOk result (IsConsistent place.now.connection.state) }
{
    let next = KeptPlace::of(place, kept.last())?;
    kept.push(next)?;
    Ok(())
}

/// Keeps a checkpoint of a place where it is at the next multiple of 64.
#[inline(always)]
pub fn keep_if_due<'b, A: Allocator + Copy>(
    place: &Place<'b, A>,
    kept: &mut Vec<KeptPlace<'b, A>, A>,
) -> Result<(), AllocError>
    requires { place.now.position ≤ length kept.old.items * 64 }
    ensures kept { (r : Source) → IsAt r place.now → AreKept r 0 kept.old.items → AreKept r 0 kept.new.items }
    ensures more { length kept.old.items ≤ length kept.new.items }
    ensures below { OnOk result (place.now.position < length kept.new.items * 64) }
{
    if place.position() / SPACING == kept.len() {
        keep(place, kept)?;
    }
    Ok(())
}

/// Takes the next item, if there is one, and says whether; a checkpoint of the place before it is kept where one is due.
/// An `AllocError` leaves the place as it was.
pub fn keep_and_advance<'b, A: Allocator + Copy>(
    source: &Input<'_, 'b, A>,
    place: &mut Place<'b, A>,
    kept: &mut Vec<KeptPlace<'b, A>, A>,
) -> Result<bool, AllocError>
    requires { IsReached source.now place.old kept.old.items }
    ensures advances { IfOk result (Advances source.now place.old place.new) }
    ensures unchanged { OnErr result (place.new ≡ place.old) }
    ensures reached { IsReached source.now place.new kept.new.items }
    ensures more { length kept.old.items ≤ length kept.new.items }
{
    keep_if_due(place, kept)?;
    place.advance(source)
}

/// Takes items up to a position or the end; the place counts them.
pub fn forward_to<'b, A: Allocator + Copy>(
    source: &Input<'_, 'b, A>,
    place: &mut Place<'b, A>,
    target: usize,
    kept: &mut Vec<KeptPlace<'b, A>, A>,
) -> Result<(), AllocError>
    requires reached { IsReached source.now place.old kept.old.items }
    requires ahead { place.old.position ≤ target }
    ensures reached { IsReached source.now place.new kept.new.items }
    ensures more { length kept.old.items ≤ length kept.new.items }
    ensures position { OnOk result (place.new.position ≡ min target (end source.now)) }
    ensures ran { place.new.ran ≡ place.old.ran + (place.new.position - place.old.position) }
{
    while place.position() < target {
        if !keep_and_advance(source, place, kept)? {
            return Ok(());
        }
    }
    Ok(())
}

/// Takes items up to the first one that a breakpoint matches, or to a position, or the end; the place counts them.
pub fn forward_to_stop<'b, A: Allocator + Copy>(
    source: &Input<'_, 'b, A>,
    place: &mut Place<'b, A>,
    breaks: &[Break],
    bound: usize,
    kept: &mut Vec<KeptPlace<'b, A>, A>,
) -> Result<(), AllocError>
    requires reached { IsReached source.now place.old kept.old.items }
    requires ahead { place.old.position ≤ bound }
    ensures reached { IsReached source.now place.new kept.new.items }
    ensures more { length kept.old.items ≤ length kept.new.items }
    ensures ran { place.new.ran ≡ place.old.ran + (place.new.position - place.old.position) }
    ensures position { OnOk result (place.new.position ≡ min bound (stop (map break_of breaks.now) (events source.now) place.old.position)) }
{
    while place.position() < bound {
        let used = place.used();
        if !keep_and_advance(source, place, kept)? {
            return Ok(());
        }
        if any_match(
            breaks,
            place.position(),
            source.octets_from(used),
            place.sent(),
        ) {
            return Ok(());
        }
    }
    Ok(())
}
