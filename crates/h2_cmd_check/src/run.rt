//! The items of a case's octets, taken one after another, and what is seen of them. Definitions: `specs/ItemsTaken.antt`.

ghost use Rattle.std.specs.Prelude.{◌≡◌, ◌≤◌, ◌<◌, ◌^◌, [], drop, length, IfOk};
ghost use Rattle.h2_conn.specs.Connection.{going};
ghost use Rattle.h2_spec.specs.Frames.Parse.{parse_all};
ghost use Rattle.h2_spec.specs.Trace.{next_event};
ghost use Rattle.h2_cmd_check.specs.ItemsTaken.{TakesNext, cause_or, seen_by, with_items};

use h2_conn::{Conn, Scratch};
use h2_spec::causes::Cause;
use h2_spec::ignored::Ignored;
use h2_spec::octets::octets_from;
use std::alloc::{AllocError, Global};

/// What is seen of the items that were taken.
#[derive(Drop)]
pub(crate) struct ItemsTaken {
    /// How many there were.
    pub items: usize,
    /// The octets that were sent, the opening SETTINGS first.
    pub sent: Vec<u8>,
    /// Why the first error was one, if there was an error.
    pub first: Option<Cause>,
    /// Why the last item is an error, if it is one.
    pub cause: Option<Cause>,
    /// Why the last item is ignored, if it is.
    pub ignored: Option<Ignored>,
    /// Memory of items.
    pub memory: Scratch<Global>,
}

/// A cause, or else another.
fn cause_or(one: Option<Cause>, other: Option<Cause>) -> Option<Cause>
    ensures { result ≡ cause_or one other }
{
    match one {
        Some(cause) => Some(cause),
        None => other,
    }
}

/// Takes the item that octets begin with, if there is a whole one, and gives how many octets it has.
///
/// `AllocError` where memory is refused.
fn take_item(
    conn: &mut Conn<'_, Global>,
    octets: &[u8],
    seen: &mut ItemsTaken,
) -> Result<Option<usize>, AllocError>
    requires ready { conn.old ≡ going conn.old.state [] }
    requires few { seen.old.items < 2 ^ 63 }
    ensures ready { conn.new ≡ going conn.new.state [] }
    ensures takes { IfOk result (λ used. TakesNext conn.old.state octets.now (seen_by seen.old) conn.new.state (seen_by seen.new) used) }
{
    let Some(taken) = conn.take_and_lend(octets, &mut seen.memory, &mut seen.sent)? else {
        return Ok(None);
    };
    seen.items += 1;
    seen.first = cause_or(seen.first, taken.cause);
    seen.cause = taken.cause;
    seen.ignored = taken.ignored;
    Ok(Some(taken.used))
}

/// Takes the items that octets have from a place on, and gives the place after them.
///
/// `AllocError` where memory is refused.
pub(crate) fn take_items(
    conn: &mut Conn<'_, Global>,
    octets: &[u8],
    start: usize,
    seen: &mut ItemsTaken,
) -> Result<usize, AllocError>
    requires ready { conn.old ≡ going conn.old.state [] }
    requires few { seen.old.items ≤ start }
    requires within { start ≤ length octets.now }
    ensures ready { conn.new ≡ going conn.new.state [] }
    ensures few { IfOk result (λ at. seen.new.items ≤ at) }
    ensures within { IfOk result (λ at. at ≤ length octets.now) }
    ensures state { IfOk result (λ at. (parse_all next_event conn.old.state (drop start octets.now)).state ≡ conn.new.state) }
    ensures rest { IfOk result (λ at. (parse_all next_event conn.old.state (drop start octets.now)).rest ≡ drop at octets.now) }
    ensures seen { IfOk result (λ at. seen_by seen.new ≡ with_items conn.old.state (seen_by seen.old) (parse_all next_event conn.old.state (drop start octets.now)).elements) }
{
    let mut at = start;
    loop {
        match take_item(conn, octets_from(octets, at), seen)? {
            Some(used) => at += used,
            None => return Ok(at),
        }
    }
}
