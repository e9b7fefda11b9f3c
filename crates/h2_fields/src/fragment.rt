//! Decoding the octets of a field block (RFC 7541, 3; RFC 9113, 4.3): its whole instructions, one after another. The
//! definition is `decoded` of `h2_spec`, specs/Hpack/Block.antt.

ghost use Rattle.std.specs.Prelude.{◌≡◌, ◌≤◌, ◌+◌, [], ◌++◌, length, drop, min, IfOk, IfErr, OnOk, OnErr};
ghost use Rattle.h2_spec.specs.Hpack.Block as block;
ghost use Rattle.h2_spec.specs.Hpack.Block.{Unfinished, progress_with};
ghost use Rattle.h2_spec.specs.Hpack.Instruction.{instr_at};
ghost use Rattle.h2_spec.specs.Read.{More};
ghost use Rattle.h2_table.specs.Edits.{IsEdit, edited};
ghost use Rattle.h2_fields.specs.Applied.{Grows, IsStopped, progress_in};
ghost use Rattle.h2_hpack_instruction.specs.Resume.{IsPoint, IsRest, huffman_octets};
ghost use Rattle.h2_fields.specs.Rests.{IsCounted, IsFresh, IsTicked, most_ticks};
ghost use Rattle.h2_hpack_instruction.specs.Shapes.{shape_of};

use crate::collected::Collected;
use crate::effect::{apply, apply_indexed};
use crate::rest::RestChange;
use h2_hpack_instruction::fault::BlockFault;
use h2_hpack_instruction::shape::{Point, Shape, ShapeFault, shape_from, short_index};
use h2_spec::octets::octets_from;
use h2_table::{DynTable, Edit};
use std::alloc::{AllocError, Allocator};

/// Does what the whole instructions at the front of the octets say; reading goes on from a point of the first one.
/// Returns how many octets they take, makes `next` the point where reading goes on after them, and counts the steps. An
/// index of one octet, which is most frequent, is read by itself: the value of all that an instruction can be goes through
/// memory. So is the end of octets that end with an instruction.
fn decode<A: Allocator + Copy>(
    collected: &mut Collected<A>,
    table: &DynTable<A>,
    edit: &mut Edit<A>,
    ticks: &mut u64,
    next: &mut Point,
    from: Point,
    octets: &[u8],
) -> Result<usize, BlockFault>
    requires belongs { IsEdit table.now edit.old }
    requires point { IsPoint octets.now from }
    requires passed { from.passed ≤ length octets.now }
    ensures belongs { IsEdit table.now edit.new }
    ensures used { IfOk result (λ used. (used ≤ length octets.now) × (block.decoded table.now.limit (progress_in collected.old table.now edit.old) octets.now ≡ record { progress = progress_in collected.new table.now edit.new; outcome = Unfinished (drop used octets.now) })) }
    ensures cut { IfOk result (λ used. instr_at (drop used octets.now) ≡ More) }
    ensures rest { IfOk result (λ used. IsRest (drop used octets.now) next.new) }
    ensures ticks { IfOk result (λ used. IsCounted from.passed (length octets.now) used ticks.old ticks.new) }
    ensures fault { IfErr result (λ fault. IsStopped table.now.limit (progress_in collected.old table.now edit.old) octets.now (progress_in collected.new table.now edit.new) fault) }
    ensures stays { IfErr result (λ _. next.new ≡ next.old) }
    ensures grows { Grows collected.old collected.new }
{
    let mut at = 0;
    let mut point = from;
    loop {
        let left = octets_from(octets, at);
        if left.is_empty() {
            *next = Point::start();
            return Ok(at);
        }
        if let Some(index) = short_index(point, left) {
            apply_indexed(collected, table, edit, index)?;
            *ticks = with_instruction(*ticks, 1 - point.passed, Shape::Indexed(index));
            at += 1;
            point = Point::start();
            continue;
        }
        match shape_from(point, left) {
            Ok((shape, used)) => {
                apply(collected, table, edit, shape)?;
                *ticks = with_instruction(*ticks, used - point.passed, shape);
                at += used;
                point = Point::start();
            }
            Err(ShapeFault::More(stop)) => {
                *ticks = ticks.saturating_add((left.len() - point.passed) as u64);
                *next = stop;
                return Ok(at);
            }
            Err(ShapeFault::TooLong) => return Err(BlockFault::Integer),
        }
    }
}

/// The ticks with those of an instruction that is done: one for each octet of it that was passed now, one for each
/// octet of its Huffman strings, and one for itself.
fn with_instruction(ticks: u64, passed: usize, shape: Shape<'_>) -> u64
    ensures { result ≡ min (ticks + passed + huffman_octets (shape_of shape.entry) + 1) most_ticks }
{
    ticks
        .saturating_add(passed as u64)
        .saturating_add(shape.huffman_octets())
        .saturating_add(1)
}

// The rest, the edit and the point are lent: by value they were copied at each of eight returns, 500
// instructions.
/// Decodes a fragment of a block: the octets of `rest`, which the fragments before it left, from the point where reading
/// stopped in them, and those of `piece` after them. Adds the fields of the whole instructions, and makes `edit` one with
/// their changes of the table, for `DynTable::commit`; what `rest` has after it begins an instruction and does not
/// end it. The table does not change here. `edit` may be of any table: its memory is used again.
///
/// # Errors
///
/// `ZeroIndex`, `Index`, `Integer`, `Huffman`, `LateUpdate` and `LargeUpdate` as RFC 7541 has them, for the first
/// instruction that is refused: the fields and the edit are those of the instructions before it. `NoMemory` where
/// memory was refused: fields may have been added, which a savepoint of before takes back, and the edit should not be
/// committed. What was left before the fragment stays in `rest` in each case.
#[inline(always)]
pub fn decode_piece<A: Allocator + Copy>(
    collected: &mut Collected<A>,
    table: &DynTable<A>,
    edit: &mut Edit<A>,
    rest: &mut RestChange<A>,
    piece: &[u8],
) -> Result<(), BlockFault>
    requires fresh { IsFresh rest.old }
    ensures belongs { IsEdit table.now edit.new }
    ensures before { rest.new.before ≡ rest.old.before }
    ensures decoded { OnOk result (block.decoded table.now.limit (progress_with table.now.table collected.old) (rest.old.before ++ piece.now) ≡ record { progress = progress_with (edited table.now.table.entries edit.new) collected.new; outcome = Unfinished rest.new.after }) }
    ensures cut { OnOk result (instr_at rest.new.after ≡ More) }
    ensures ticks { OnOk result (IsTicked (length rest.old.before) (length piece.now) (length rest.new.after) rest.new.ticks) }
    ensures fault { IfErr result (λ fault. IsStopped table.now.limit (progress_with table.now.table collected.old) (rest.old.before ++ piece.now) (progress_with (edited table.now.table.entries edit.new) collected.new) fault) }
    ensures grows { Grows collected.old collected.new }
{
    edit.begin(table);
    if rest.is_empty() {
        decode_alone(collected, table, edit, rest, piece)
    } else {
        decode_behind(collected, table, edit, rest, piece)
    }
}

/// Decodes a fragment after the octets that are left of those before it.
fn decode_behind<A: Allocator + Copy>(
    collected: &mut Collected<A>,
    table: &DynTable<A>,
    edit: &mut Edit<A>,
    rest: &mut RestChange<A>,
    piece: &[u8],
) -> Result<(), BlockFault>
    requires fresh { IsFresh rest.old }
    requires belongs { IsEdit table.now edit.old }
    ensures belongs { IsEdit table.now edit.new }
    ensures before { rest.new.before ≡ rest.old.before }
    ensures decoded { OnOk result (block.decoded table.now.limit (progress_in collected.old table.now edit.old) (rest.old.before ++ piece.now) ≡ record { progress = progress_in collected.new table.now edit.new; outcome = Unfinished rest.new.after }) }
    ensures cut { OnOk result (instr_at rest.new.after ≡ More) }
    ensures ticks { OnOk result (IsTicked (length rest.old.before) (length piece.now) (length rest.new.after) rest.new.ticks) }
    ensures fault { IfErr result (λ fault. IsStopped table.now.limit (progress_in collected.old table.now edit.old) (rest.old.before ++ piece.now) (progress_in collected.new table.now edit.new) fault) }
    ensures grows { Grows collected.old collected.new }
{
    rest.kept = rest.octets.len();
    if rest.octets.extend_from_slice(piece).is_err() {
        return Err(BlockFault::NoMemory);
    }
    rest.ticks = 0;
    let all = rest.octets.as_slice();
    match decode(
        collected,
        table,
        edit,
        &mut rest.ticks,
        &mut rest.next,
        rest.point,
        all,
    ) {
        Ok(used) => {
            rest.used = used;
            Ok(())
        }
        Err(fault) => {
            rest.octets.truncate(rest.kept);
            Err(fault)
        }
    }
}

/// Puts octets after the others, where there are any: most fragments end with an instruction.
#[inline(always)]
fn append<A: Allocator>(octets: &mut Vec<u8, A>, more: &[u8]) -> Result<(), AllocError>
    ensures ok { OnOk result (octets.new.items ≡ octets.old.items ++ more.now) }
    ensures err { OnErr result (octets.new.items ≡ octets.old.items) }
{
    if more.is_empty() {
        return Ok(());
    }
    octets.extend_from_slice(more)
}

/// Decodes a fragment where nothing is left of those before it: only what does not end an instruction is copied.
fn decode_alone<A: Allocator + Copy>(
    collected: &mut Collected<A>,
    table: &DynTable<A>,
    edit: &mut Edit<A>,
    rest: &mut RestChange<A>,
    piece: &[u8],
) -> Result<(), BlockFault>
    requires empty { rest.old.all ≡ [] }
    requires belongs { IsEdit table.now edit.old }
    ensures belongs { IsEdit table.now edit.new }
    ensures before { rest.new.before ≡ [] }
    ensures decoded { OnOk result (block.decoded table.now.limit (progress_in collected.old table.now edit.old) piece.now ≡ record { progress = progress_in collected.new table.now edit.new; outcome = Unfinished rest.new.after }) }
    ensures cut { OnOk result (instr_at rest.new.after ≡ More) }
    ensures ticks { OnOk result (IsTicked 0 (length piece.now) (length rest.new.after) rest.new.ticks) }
    ensures fault { IfErr result (λ fault. IsStopped table.now.limit (progress_in collected.old table.now edit.old) piece.now (progress_in collected.new table.now edit.new) fault) }
    ensures grows { Grows collected.old collected.new }
{
    rest.ticks = 0;
    let used = decode(
        collected,
        table,
        edit,
        &mut rest.ticks,
        &mut rest.next,
        Point::start(),
        piece,
    )?;
    if append(&mut rest.octets, octets_from(piece, used)).is_err() {
        rest.next = rest.point;
        return Err(BlockFault::NoMemory);
    }
    rest.kept = 0;
    rest.used = 0;
    Ok(())
}
