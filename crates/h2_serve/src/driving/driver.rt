//! A connection driven over a wire: what is read is fed to it, and the frames that it sends are written before the next
//! read. Definitions: `specs/Drives.antt`.

ghost use Rattle.std.specs.Prelude.{◌≡◌, ◌<◌, ◌≤◌, [], take, length, false, option_map, OnOk, OnErr, is_err};
ghost use Rattle.h2_spec.specs.Causes.Errors.{code_number};
ghost use Rattle.h2_spec.specs.State.{ended_code};
ghost use Rattle.h2_conn.specs.Runs.{Fed, Halts};
ghost use Rattle.h2_serve.specs.Drives.{Drives, EndsAs, HasNoItem, HasRead, TakesTurn, TurnEndsAs, drive_state, is_out_of_memory, is_wire_fault};

use crate::driving::drive_fault::{DriveEnd, DriveFault};
use crate::driving::driven::Driven;
use crate::driving::outgoing::Pending;
use crate::driving::wire::Wire;
use h2_spec::octets::{octets_from, octets_up_to};
use std::alloc::AllocError;

/// The most octets of one read: two windows of 65,535 octets, so that a client is seen that sends DATA before it may (RFC
/// 9113, 6.9).
const READ_SIZE: usize = 131_072;

/// Takes the octets of a read, portion by portion; what is sent for them is appended to `out`.
///
/// `AllocError` where memory is refused: the items before it are taken whole, `out` has gained what is sent for them,
/// and from then on nothing is taken.
fn take_read<O: Pending, D: Driven<O>>(
    driven: &mut D,
    octets: &[u8],
    out: &mut O,
) -> Result<(), AllocError>
    requires ready { D.is_ready driven.old }
    requires no_item { HasNoItem (D.connection driven.old) }
    requires going { (D.connection driven.old).failed ≡ false }
    ensures ready { D.is_ready driven.new }
    ensures ok { OnOk result (Fed (D.connection driven.old) octets.now (O.pending out.old) (D.connection driven.new) (O.pending out.new)) }
    ensures no_memory { OnErr result (Halts (D.connection driven.old) octets.now (O.pending out.old) (D.connection driven.new) (O.pending out.new)) }
    ensures passes { D.passes (is_err result) driven.old octets.now driven.new }
{
    driven.begin_read(octets);
    let mut at = 0usize;
    while at < octets.len() {
        let rest = octets_from(octets, at);
        let count = driven.portion(rest);
        driven.take_octets(octets_up_to(rest, count), out)?;
        at += count;
    }
    Ok(())
}

/// Reads once, feeds what was read to the connection, and writes the frames that it sends for that. Returns how many
/// octets were read; 0 is the end of the input. What was in `buffer` does not matter.
fn take_turn<O: Pending, D: Driven<O>, S: Wire>(
    driven: &mut D,
    out: &mut O,
    wire: &mut S,
    buffer: &mut [u8; READ_SIZE],
) -> Result<usize, DriveFault>
    requires open { S.has_failed wire.old ≡ false }
    requires empty { O.pending out.old ≡ [] }
    requires no_item { HasNoItem (D.connection driven.old) }
    requires ready { D.is_ready driven.old }
    requires going { (D.connection driven.old).failed ≡ false }
    ensures ready { D.is_ready driven.new }
    ensures turn { TakesTurn
        (drive_state (S.octets_read wire.old) (S.octets_written wire.old) (S.read_lengths wire.old)
        (O.pending out.old) (D.connection driven.old))
        (drive_state (S.octets_read wire.new) (S.octets_written wire.new) (S.read_lengths wire.new)
        (O.pending out.new) (D.connection driven.new))
        result }
    ensures ends { TurnEndsAs result (D.connection driven.old) (D.connection driven.new) (O.pending out.new) }
    ensures flag { S.has_failed wire.new ≡ is_wire_fault result }
    ensures passes { HasRead (λ octets. D.passes (is_out_of_memory result) driven.old octets driven.new)
        (S.octets_read wire.old) (S.octets_read wire.new) }
{
    let count = match wire.read(buffer) {
        Ok(count) => count,
        Err(_) => return Err(DriveFault::Read),
    };
    if count == 0 {
        return Ok(0);
    }
    match take_read(driven, octets_up_to(buffer, count), out) {
        Ok(()) => {}
        Err(_) => return Err(DriveFault::NoMemory),
    }
    match out.write_all(wire) {
        Ok(()) => Ok(count),
        Err(_) => Err(DriveFault::Write),
    }
}

// No octets are fed first: that reports a connection that has failed, and proves that no item is pending.
/// Drives a connection, with what looks at its items, as `drive` does. What else becomes of the octets that were read
/// is what the connection's type says of them (`Driven`).
///
/// # Errors
///
/// Those of `drive`.
pub fn drive_with<O: Pending, D: Driven<O>, S: Wire>(
    driven: &mut D,
    out: &mut O,
    wire: &mut S,
    turns: u32,
) -> Result<DriveEnd, DriveFault>
    requires open { S.has_failed wire.old ≡ false }
    requires ready { D.is_ready driven.old }
    ensures ready { D.is_ready driven.new }
    ensures drives { Drives turns
        (drive_state (S.octets_read wire.old) (S.octets_written wire.old) (S.read_lengths wire.old)
        (O.pending out.old) (D.connection driven.old))
        (drive_state (S.octets_read wire.new) (S.octets_written wire.new) (S.read_lengths wire.new)
        (O.pending out.new) (D.connection driven.new))
        result }
    ensures ends { EndsAs result (option_map code_number (ended_code (D.connection driven.new).state.core.phase)) (O.pending out.new) }
    ensures flag { S.has_failed wire.new ≡ is_wire_fault result }
    ensures passes { HasRead (λ octets. D.passes (is_out_of_memory result) driven.old octets driven.new)
        (S.octets_read wire.old) (S.octets_read wire.new) }
{
    if driven.is_failed() {
        return Err(DriveFault::Failed);
    }
    match out.write_all(wire) {
        Ok(()) => {}
        Err(_) => return Err(DriveFault::Write),
    }
    let mut buffer = [0u8; READ_SIZE];
    for _turn in 0..turns {
        if let Some(code) = driven.end_code() {
            return Ok(DriveEnd::Goaway(code));
        }
        if take_turn(driven, out, wire, &mut buffer)? == 0 {
            return Ok(DriveEnd::Input);
        }
    }
    match driven.end_code() {
        Some(code) => Ok(DriveEnd::Goaway(code)),
        None => Err(DriveFault::TurnLimit),
    }
}

/// Drives a connection, a `Conn` or what is `Driven`, over a wire whose last call did not fail: writes the pending
/// output `out`, and then takes at most `turns` turns. In each turn it reads once, at most 131,072 octets, feeds them to
/// the connection, and writes the frames that the connection sends for them.
///
/// It ends with `Input` where a read returns 0 octets, and with `Goaway` where a connection error has ended the
/// connection (RFC 9113, 5.4.1). All output was written then.
///
/// # Errors
///
/// - `Failed` where the connection ran out of memory in an earlier call: nothing changes.
/// - `NoMemory` where memory is refused now: the items before that are handled, and `out` has what is to be sent for
///   them and was not written.
/// - `Read` where a read failed: all output was written.
/// - `Write` where a write failed: `out` keeps what was not written.
/// - `TurnLimit` where all turns were used and nothing has ended: all output was written, and the connection can be
///   driven further.
pub fn drive<O: Pending, D: Driven<O>, S: Wire>(
    conn: &mut D,
    out: &mut O,
    wire: &mut S,
    turns: u32,
) -> Result<DriveEnd, DriveFault>
    requires open { S.has_failed wire.old ≡ false }
    requires ready { D.is_ready conn.old }
    ensures ready { D.is_ready conn.new }
    ensures drives { Drives turns
        (drive_state (S.octets_read wire.old) (S.octets_written wire.old) (S.read_lengths wire.old)
        (O.pending out.old) (D.connection conn.old))
        (drive_state (S.octets_read wire.new) (S.octets_written wire.new) (S.read_lengths wire.new)
        (O.pending out.new) (D.connection conn.new))
        result }
    ensures ends { EndsAs result (option_map code_number (ended_code (D.connection conn.new).state.core.phase)) (O.pending out.new) }
    ensures flag { S.has_failed wire.new ≡ is_wire_fault result }
{
    drive_with(conn, out, wire, turns)
}
