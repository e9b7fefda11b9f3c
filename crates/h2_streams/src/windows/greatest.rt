//! The greatest of the send windows that settings move (RFC 9113, 6.9.2). Definitions: `specs/Greatest.antt`, over
//! `h2_spec/specs/Change.antt`.

ghost use Rattle.std.specs.Prelude.{◌≡◌, ◌||◌, ℤ, ◌+ℤ◌};
ghost use Rattle.std.specs.List.{list_any};
ghost use Rattle.indexmap.specs.IndexMap.{values};
ghost use Rattle.h2_spec.specs.Change.{overflows_one};
ghost use Rattle.h2_spec.specs.Window.{is_above_max};
ghost use Rattle.h2_streams.specs.Greatest.{overflows_with};
ghost use Rattle.h2_streams.specs.Kept.{passes_at};

use crate::lookup::hash::IdHash;
use crate::lookup::places::record_at;
use crate::windows::shift::follows_initial_window;
use h2_spec::flow::{MAX_WINDOW, Window};
use h2_spec::streams::Stream;
use indexmap::IndexMap;
use std::alloc::Allocator;

/// Whether the greatest window, if there is one, passes its limit with this move.
#[tactic(auto, unfolding(crate::specs::Greatest::overflows_with))]
pub(crate) fn overflows_with(greatest: Option<Window>, delta: i64) -> bool
    ensures { result ≡ overflows_with greatest delta }
{
    match greatest {
        None => false,
        Some(window) => delta > i64::from(MAX_WINDOW) - i64::from(window.value()),
    }
}

/// The greatest of the send windows that settings move, of the streams in the map, if there is one.
#[tactic(auto, unfolding(crate::specs::Greatest::overflows_with))]
pub(crate) fn greatest_of<A: Allocator>(
    records: &[Stream],
    live: &IndexMap<u32, usize, IdHash, A>,
) -> Option<Window>
    ensures { (d : ℤ) → overflows_with result d ≡ list_any (passes_at (overflows_one d) records.now) (values live.now) }
{
    let mut greatest = None;
    for place in live.values() {
        greatest = greater_at(records, *place, greatest);
    }
    greatest
}

/// The greater one of a window and that of the record at this place, if settings move that.
#[tactic(auto, unfolding(crate::specs::Greatest::overflows_with))]
fn greater_at(records: &[Stream], place: usize, greatest: Option<Window>) -> Option<Window>
    ensures { (d : ℤ) → overflows_with result d ≡ (overflows_with greatest d || passes_at (overflows_one d) records.now place) }
{
    match record_at(records, place) {
        Some(stream) => greater(greatest, stream),
        None => greatest,
    }
}

/// The greater one of a window and the stream's, if settings move that.
#[tactic(auto, unfolding(crate::specs::Greatest::overflows_with))]
fn greater(greatest: Option<Window>, stream: &Stream) -> Option<Window>
    ensures { (d : ℤ) → overflows_with result d ≡ (overflows_with greatest d || overflows_one d stream.now) }
{
    if !follows_initial_window(stream.kind) {
        return greatest;
    }
    Some(larger(greatest, stream.numbers.send))
}

/// The larger of two windows.
#[tactic(auto, unfolding(crate::specs::Greatest::overflows_with))]
fn larger(greatest: Option<Window>, window: Window) -> Window
    ensures { (d : ℤ) → is_above_max (result +ℤ d) ≡ (overflows_with greatest d || is_above_max (window +ℤ d)) }
{
    match greatest {
        None => window,
        Some(other) => larger_of(other, window),
    }
}

fn larger_of(a: Window, b: Window) -> Window
    ensures { (d : ℤ) → is_above_max (result +ℤ d) ≡ (is_above_max (a +ℤ d) || is_above_max (b +ℤ d)) }
{
    if a.value() < b.value() { b } else { a }
}
