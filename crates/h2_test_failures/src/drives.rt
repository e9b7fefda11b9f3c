//! Connections driven over wires with a script: an allocation, a read or a write fails.
//! The numbers of a line are the most streams, the size of the header table, which answers the book has, the turns,
//! and the octets of one write; then, for each piece, how many octets have to be written before it can be read.

ghost use Rattle.std.specs.Prelude.{◌≡◌, false};

use crate::feeds::{Left, Way, left_by};
use crate::heap::Heap;
use crate::line::Call;
use crate::scripted::{ScriptedWire, Step};
use crate::shown::{End, Hex};
use crate::trials::Reply;
use h2_conn::Conn;
use h2_serve::{DriveEnd, DriveFault, drive};
use std::alloc::{AllocError, Global};

/// What fails while a connection is driven.
#[derive(Clone, Copy)]
pub enum Failing {
    Memory,
    Write,
    Read,
}

/// Drives the connection of a line. `verb` says what fails: an allocation, a write or a read. It is that of number `turn`,
/// from 1; at 0 none fails.
pub fn tried(alloc: Global, verb: &str, call: &Call<'_>, turn: u64) -> Result<Reply, AllocError> {
    let failing = match verb {
        "memory" => Failing::Memory,
        "write" => Failing::Write,
        "read" => Failing::Read,
        _ => return Err(AllocError),
    };
    let left = left_by(alloc, call, Way::Drive(failing), turn)?;
    Ok(Reply {
        text: left.text,
        failed: left.failed,
    })
}

/// What the read of a piece gives; the read that fails has no piece.
fn step_at<'c>(call: &'c Call<'_>, place: usize, failing: usize) -> Step<'c> {
    if place == failing {
        return Step::Fault;
    }
    Step::Piece {
        after: call.size(place.saturating_add(5)),
        octets: call.piece(place),
    }
}

/// What the reads give: the pieces, or those before the read that fails.
fn steps_of<'c>(
    alloc: Global,
    call: &'c Call<'_>,
    failing: usize,
) -> Result<Vec<Step<'c>>, AllocError> {
    let mut steps = Vec::new(alloc);
    for place in 0..=call.pieces().len().min(failing) {
        steps.push(step_at(call, place, failing))?;
    }
    Ok(steps)
}

/// How many come before the one in this turn, counted from 1; all at 0, or where something else fails.
fn before(turn: u64, is_this: bool) -> usize {
    match usize::try_from(turn) {
        Ok(turn) if turn > 0 && is_this => turn.saturating_sub(1),
        _ => usize::MAX,
    }
}

/// Drives over a wire that gives all pieces; an allocation, the octet of a write, or a read fails in this turn, counted
/// from 1.
pub fn driven<'h>(
    alloc: Global,
    heap: &'h Heap,
    conn: &mut Conn<'_, &'h Heap>,
    out: &mut Vec<u8, &'h Heap>,
    call: &Call<'_>,
    (failing, turn): (Failing, u64),
) -> Result<Left, AllocError> {
    let reads = before(turn, matches!(failing, Failing::Read));
    let writable = before(turn, matches!(failing, Failing::Write));
    let steps = steps_of(alloc, call, reads)?;
    let mut wire = ScriptedWire::new(alloc, steps.as_slice(), writable, call.size(4));
    heap.refuse(if matches!(failing, Failing::Memory) {
        turn
    } else {
        0
    });
    over_wire(alloc, heap, conn, out, call, &mut wire, writable)
}

// This has no clause but what it needs, so that no proof above it carries the run.
/// How the driving ends, in as many turns as the line says.
fn gone<'h>(
    conn: &mut Conn<'_, &'h Heap>,
    out: &mut Vec<u8, &'h Heap>,
    wire: &mut ScriptedWire<'_>,
    call: &Call<'_>,
) -> Result<DriveEnd, DriveFault>
    requires { wire.old.failed ≡ false }
{
    drive(conn, out, wire, call.short(3))
}

/// How much of what was sent is written.
fn amount(pending: &[u8], written: usize, writable: usize) -> &'static str {
    if pending.is_empty() {
        "all"
    } else if written == writable {
        "as far as the wire takes it"
    } else {
        "in part"
    }
}

/// How driving ended, what was written with the pending output after it, and the lengths of the reads.
fn told(
    alloc: Global,
    end: Result<DriveEnd, DriveFault>,
    wire: &ScriptedWire<'_>,
    pending: &[u8],
    writable: usize,
) -> Result<String, AllocError> {
    let amount = amount(pending, wire.written().len(), writable);
    let end = End(end);
    let written = Hex(wire.written());
    let pending = Hex(pending);
    format!(in alloc;
        "{end} sent {written}{pending}, written {amount}, reads {:?}",
        wire.lengths()
    )
}

/// Drives over a wire: how that ends, and what was read and written.
fn over_wire<'h>(
    alloc: Global,
    heap: &'h Heap,
    conn: &mut Conn<'_, &'h Heap>,
    out: &mut Vec<u8, &'h Heap>,
    call: &Call<'_>,
    wire: &mut ScriptedWire<'_>,
    writable: usize,
) -> Result<Left, AllocError>
    requires { wire.old.failed ≡ false }
{
    let end = gone(conn, out, wire, call);
    let failed = heap.has_refused();
    let mut text = told(alloc, end, wire, out.as_slice(), writable)?;
    if failed {
        add_again(alloc, conn, out, call, &mut text)?;
    }
    Ok(Left {
        text,
        place: String::new(alloc),
        failed: failed || matches!(end, Err(DriveFault::Read | DriveFault::Write)),
    })
}

/// What driving once more over a new wire returns and writes.
fn add_again<'h>(
    alloc: Global,
    conn: &mut Conn<'_, &'h Heap>,
    out: &mut Vec<u8, &'h Heap>,
    call: &Call<'_>,
    text: &mut String,
) -> Result<(), AllocError> {
    let mut wire = ScriptedWire::new(alloc, &[], usize::MAX, usize::MAX);
    let pending = out.len();
    let end = gone(conn, out, &mut wire, call);
    write!(
        *text,
        "; again {}, written {}, unchanged {}",
        End(end),
        wire.written().len(),
        out.len() == pending
    )
}
