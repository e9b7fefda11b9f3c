//! For users of the library; the program does not call it: a connection decodes by `decode_piece` of `fragment`. The
//! decoder of a field block, which comes in fragments (RFC 7541, 3; RFC 9113, 4.3), with fields that own their memory.
//! It commits what a fragment changes of the table only once no memory is needed any more. The definitions are
//! `decoded` and `carried_on` of `h2_spec`, specs/Hpack/Block.antt; contracts see a decoder as `BlockSoFar` of
//! specs/Blocks.antt.

ghost use Rattle.std.specs.Prelude.{◌≡◌, ◌≢◌, ◌≤◌, ◌<◌, ◌+◌, ◌*◌, [], ◌++◌, true, false, take, length, Some, None, option_map, IfOk, IfErr, IsErr, IsErrOf, OnOk};
ghost use Rattle.h2_spec.specs.Hpack.Block as block;
ghost use Rattle.h2_spec.specs.Hpack.Block.{Unfinished, carried_on, progress_with};
ghost use Rattle.h2_spec.specs.Hpack.Instruction.{instr_at};
ghost use Rattle.h2_spec.specs.Read.{More};
ghost use Rattle.h2_fields.specs.Blocks.{TicksRise, answer_of, decoded_with, finish_of};
ghost use Rattle.h2_fields.specs.Applied.{IsStopped};
ghost use Rattle.h2_fields.specs.Rests.{most_ticks};
ghost use Rattle.h2_hpack_instruction.specs.declared.fault.BlockFault.TheVariants as faults;

use crate::collected::Collected;
use crate::fragment::decode_piece;
use crate::rest::{Rest, RestChange};
use h2_hpack_instruction::fault::BlockFault;
use h2_hpack_instruction::field::Field;
use h2_table::{DynTable, Edit};
use std::alloc::{AllocError, Allocator};
use std::marker::Model;
use std::mem;

// For users of the library. The connection calls `decode_piece` and never this decoder.
/// A decoder of one field block: the fields so far, the octets that begin an instruction and do not end it, the fault,
/// if there was one, and the ticks.
pub struct BlockDecoder<A: Allocator> {
    collected: Collected<A>,
    fields: Vec<Field<A>, A>,
    rest: Rest<A>,
    fault: Option<BlockFault>,
    ticks: u64,
}

impl<A: Allocator> Model for BlockDecoder<A> {
    ghost use Rattle.std.specs.Prelude.{◌≡◌};
    ghost use Rattle.h2_fields.specs.Blocks.{BlockSoFar, CanRemain, outcome_of};

    ghost Value = { BlockSoFar };

    ghost view = { λ d. record { fields = d.collected.fields; due = d.collected.due; outcome = outcome_of d.rest d.fault; ticks = d.ticks } };

    ghost invariant = { λ d. (d.fields.items ≡ d.collected.fields) × CanRemain d.rest d.fault };
}

/// By hand, so that a function that drops one makes one call, where a derived `Drop` would drop each part there.
impl<A: Allocator> Drop for BlockDecoder<A> {
    fn drop(self) {
        let Self {
            collected: _,
            fields: _,
            rest: _,
            fault: _,
            ticks: _,
        } = self;
    }
}

impl<A: Allocator + Copy> BlockDecoder<A> {
    /// A decoder of a block of which nothing has arrived; `due` says whether the block has to begin with a size update
    /// of the table (RFC 7541, 4.2), as `DynTable::due` has it. No memory is taken.
    pub fn start(alloc: A, due: bool) -> Self
        ensures { result ≡ record { fields = []; due = due; outcome = Some (Unfinished []); ticks = 0 } }
    {
        let mut collected = Collected::new(alloc);
        collected.clear(due);
        BlockDecoder {
            collected,
            fields: Vec::new(alloc),
            rest: Rest::new(alloc),
            fault: None,
            ticks: 0,
        }
    }

    /// Decodes a fragment more: what was left of those before it, and then its octets, instruction by instruction. It
    /// goes on where the octets stopped: at the first octet of an integer that is not whole, or inside a string.
    ///
    /// # Errors
    ///
    /// `ZeroIndex`, `Index`, `Integer`, `Huffman`, `LateUpdate` and `LargeUpdate` as RFC 7541 has them, once the
    /// instruction is whole, an integer already at its fifth octet after the prefix; the fields and the table are those
    /// after the instructions before it. `MissingUpdate` where an update is due and the first instruction is none; it
    /// is decided before `Index` and `Huffman`. `NoMemory` where memory was refused; the fields and the table are as
    /// they were. After an error each further call returns the same one and changes nothing.
    pub fn push(&mut self, table: &mut DynTable<A>, piece: &[u8]) -> Result<(), BlockFault>
        ensures answer { result ≡ answer_of self.new.outcome }
        ensures carried { self.new.outcome ≢ None → decoded_with table.new.table self.new ≡ option_map (λ before. carried_on table.old.limit before piece.now) (decoded_with table.old.table self.old) }
        ensures refused { self.new.outcome ≡ None → (self.new ≡ record self.old { outcome = None }) × (table.new ≡ table.old) }
        ensures spent { self.old.outcome ≡ None → (self.new ≡ self.old) × (table.new ≡ table.old) }
        ensures stays { IsErr (answer_of self.old.outcome) → (result ≡ answer_of self.old.outcome) × (self.new ≡ self.old) × (table.new ≡ table.old) }
        ensures limit { table.new.limit ≡ table.old.limit }
        ensures ticks { OnOk result (TicksRise self.old piece.now self.new) }
    {
        if let Some(repeated) = self.fault {
            return Err(repeated);
        }
        match advance(
            &mut self.collected,
            &mut self.fields,
            &mut self.rest,
            &mut self.ticks,
            table,
            piece,
        ) {
            Ok(()) => Ok(()),
            Err(fault) => {
                self.fault = Some(fault);
                Err(fault)
            }
        }
    }

    /// Ends the block.
    ///
    /// # Errors
    ///
    /// `Truncated` where it ends inside an instruction, else `MissingUpdate` where there was no instruction and a size
    /// update is due; after an error of `push` the same one. Takes no memory.
    pub fn finish(&self) -> Result<(), BlockFault>
        ensures { result ≡ finish_of self.now.due self.now.outcome }
    {
        if let Some(fault) = self.fault {
            return Err(fault);
        }
        if !self.rest.is_empty() {
            return Err(BlockFault::Truncated);
        }
        if self.collected.is_due() {
            return Err(BlockFault::MissingUpdate);
        }
        Ok(())
    }

    /// The fields so far, in their order.
    pub fn fields(&self) -> &[Field<A>]
        ensures { result.now ≡ self.now.fields }
    {
        self.fields.as_slice()
    }

    /// What the fields so far count together, in octets: 32 each beside their own (RFC 9113, 6.5.2); 2^64 - 1 where
    /// that is more.
    pub fn list_size(&self) -> u64
        ensures { result ≡ block.list_size self.now.fields }
    {
        self.collected.list_size()
    }

    /// The steps so far: one for each octet that was passed, and one more each time it was passed again; one for each
    /// octet of a Huffman string that was decoded; one for each instruction that was done; and one for each fragment.
    /// A fragment that returns a fault counts the instructions before the one that is refused, and itself; one that
    /// repeats a fault, or is refused memory, counts nothing. The count stays at 2^64 - 1 once there.
    pub fn ticks(&self) -> u64
        ensures { result ≡ self.now.ticks }
    {
        self.ticks
    }

    /// A copy of the decoder, in memory of its own.
    ///
    /// # Errors
    ///
    /// `AllocError` where memory was refused; `self` is as it was.
    pub fn try_clone(&self) -> Result<BlockDecoder<A>, AllocError>
        ensures same { IfOk result (λ copy. copy ≡ self.now) }
    {
        let mut fields = Vec::new(self.collected.allocator());
        copy_rest(&mut fields, &self.collected)?;
        Ok(BlockDecoder {
            collected: self.collected.try_clone()?,
            fields,
            rest: self.rest.try_clone()?,
            fault: self.fault,
            ticks: self.ticks,
        })
    }
}

/// Decodes what was left and a piece after it, copies the new fields, commits the changes of the table, and counts the
/// ticks; all or none of it where memory was refused.
fn advance<A: Allocator + Copy>(
    collected: &mut Collected<A>,
    fields: &mut Vec<Field<A>, A>,
    rest: &mut Rest<A>,
    ticks: &mut u64,
    table: &mut DynTable<A>,
    piece: &[u8],
) -> Result<(), BlockFault>
    requires copied { fields.old.items ≡ collected.old.fields }
    ensures copied { fields.new.items ≡ collected.new.fields }
    ensures ok { OnOk result (block.decoded table.old.limit (progress_with table.old.table collected.old) (rest.old ++ piece.now) ≡ record { progress = progress_with table.new.table collected.new; outcome = Unfinished rest.new }) }
    ensures cut { OnOk result (instr_at rest.new ≡ More) }
    ensures ticks { OnOk result ((ticks.new < most_ticks → ticks.old + length piece.now ≤ ticks.new) × (ticks.new + 2 * length rest.new ≤ ticks.old + 2 * length rest.old + 4 * length piece.now + 8)) }
    ensures fault { IfErr result (λ fault. IsStopped table.old.limit (progress_with table.old.table collected.old) (rest.old ++ piece.now) (progress_with table.new.table collected.new) fault) }
    ensures unchanged { IsErrOf result faults.NoMemory → (collected.new ≡ collected.old) × (rest.new ≡ rest.old) × (ticks.new ≡ ticks.old) × (table.new ≡ table.old) }
    ensures limit { table.new.limit ≡ table.old.limit }
{
    let savepoint = collected.savepoint();
    let mut edit = Edit::new(collected.allocator());
    let before = mem::replace(rest, Rest::new(collected.allocator()));
    let mut change = RestChange::unchanged(before);
    let answer = decode_piece(collected, table, &mut edit, &mut change, piece);
    if answer == Err(BlockFault::NoMemory) {
        collected.restore(savepoint);
        *rest = change.give_up();
        return Err(BlockFault::NoMemory);
    }
    if !has_copied(fields, collected) {
        collected.restore(savepoint);
        *rest = change.give_up();
        return Err(BlockFault::NoMemory);
    }
    table.commit(&mut edit);
    *ticks = ticks.saturating_add(change.ticks()).saturating_add(1);
    *rest = left_of(change, answer.is_ok());
    answer
}

/// The rest of a fragment that was decoded, or what was left before it.
fn left_of<A: Allocator + Copy>(change: RestChange<A>, is_decoded: bool) -> Rest<A>
    ensures decoded { is_decoded ≡ true → result ≡ change.after }
    ensures refused { is_decoded ≡ false → result ≡ change.before }
{
    if is_decoded {
        change.take_over()
    } else {
        change.give_up()
    }
}

/// Copies the fields after those that are copied already; false where memory was refused, and then the copies are as
/// they were.
fn has_copied<A: Allocator + Copy>(fields: &mut Vec<Field<A>, A>, collected: &Collected<A>) -> bool
    requires begins { take (length fields.old.items) collected.now.fields ≡ fields.old.items }
    ensures copied { result ≡ true → fields.new.items ≡ collected.now.fields }
    ensures refused { result ≡ false → fields.new.items ≡ fields.old.items }
{
    let before = fields.len();
    if copy_rest(fields, collected).is_ok() {
        return true;
    }
    fields.truncate(before);
    false
}

/// Copies the fields after those that are copied already; where memory was refused, some of them.
fn copy_rest<A: Allocator + Copy>(
    fields: &mut Vec<Field<A>, A>,
    collected: &Collected<A>,
) -> Result<(), AllocError>
    requires begins { take (length fields.old.items) collected.now.fields ≡ fields.old.items }
    ensures copied { OnOk result (fields.new.items ≡ collected.now.fields) }
    ensures begins { take (length fields.old.items) fields.new.items ≡ fields.old.items }
{
    for place in fields.len()..collected.len() {
        if let Some((name, value)) = collected.get(place) {
            let field = Field::of(collected.allocator(), name, value)?;
            fields.push(field)?;
        }
    }
    Ok(())
}
