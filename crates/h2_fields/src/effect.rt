//! What one instruction does to a field block: its field, and the table after it (RFC 7541, 3.2 and 6). The definition
//! is `applied` of `h2_spec`, specs/Hpack/Block.antt: a size update is decided first, then an index, then a Huffman
//! string.

ghost use Rattle.std.specs.Prelude.{◌≡◌, List, [], ◌∷◌, ◌++◌, OnOk, IfSome, option_map};
ghost use Rattle.h2_spec.specs.Hpack.Block as block;
ghost use Rattle.h2_spec.specs.Hpack.Block.{text_result};
ghost use Rattle.h2_spec.specs.Hpack.DynamicTable.{field_at, insert};
ghost use Rattle.h2_spec.specs.Hpack.Field.{Field};
ghost use Rattle.h2_spec.specs.Hpack.Instruction as spec;
ghost use Rattle.h2_spec.specs.Hpack.Instruction.{text_of};
ghost use Rattle.h2_table.specs.Edits.{IsEdit, edited};
ghost use Rattle.h2_table.specs.Lent.{field_lent, IsMarked};
ghost use Rattle.h2_fields.specs.Applied.{Grows, IsApplied, IsReadAs, progress_in};
ghost use Rattle.h2_hpack_instruction.specs.Faults.{fault_of};
ghost use Rattle.h2_hpack_instruction.specs.Shapes.{mode_of, string_of, name_of, shape_of};

use crate::collected::Collected;
use h2_hpack_instruction::fault::BlockFault;
use h2_hpack_instruction::instruction::Mode;
use h2_hpack_instruction::shape::{RawName, RawString, Shape};
use h2_table::{DynTable, Edit, LentField, static_entry};
use std::alloc::{AllocError, Allocator};

/// Does what an instruction says, or refuses it. A refusal leaves the fields and the edit as they were, except where
/// memory was refused: then the fields before it stay, others may be after them, and the edit may have changed.
pub fn apply<A: Allocator + Copy>(
    collected: &mut Collected<A>,
    table: &DynTable<A>,
    edit: &mut Edit<A>,
    shape: Shape<'_>,
) -> Result<(), BlockFault>
    requires belongs { IsEdit table.now edit.old }
    ensures belongs { IsEdit table.now edit.new }
    ensures applied { IsApplied table.now.limit (progress_in collected.old table.now edit.old) (shape_of shape.entry) (progress_in collected.new table.now edit.new) result }
    ensures grows { Grows collected.old collected.new }
{
    match shape {
        Shape::Indexed(index) => apply_indexed(collected, table, edit, index),
        Shape::Update(max) => apply_update(collected, table, edit, max),
        Shape::Literal(mode, name, value) => apply_literal(
            collected, table, edit, mode, name, value,
        ),
    }
}

/// A field of the tables (RFC 7541, 6.1).
#[inline(always)]
pub(crate) fn apply_indexed<A: Allocator + Copy>(
    collected: &mut Collected<A>,
    table: &DynTable<A>,
    edit: &Edit<A>,
    index: u64,
) -> Result<(), BlockFault>
    requires belongs { IsEdit table.now edit.now }
    ensures applied { IsApplied table.now.limit (progress_in collected.old table.now edit.now) (spec.Indexed index) (progress_in collected.new table.now edit.now) result }
    ensures grows { Grows collected.old collected.new }
{
    if collected.is_due() {
        return Err(BlockFault::MissingUpdate);
    }
    match field_found(table, edit, index) {
        Some(found) => {
            collected.add_indexed(index, table.limit(), found)?;
            Ok(())
        }
        None => Err(index_fault(index)),
    }
}

/// Why an index has no field.
fn index_fault(index: u64) -> BlockFault
    ensures { result ≡ fault_of (block.index_fault index) }
{
    if index == 0 {
        BlockFault::ZeroIndex
    } else {
        BlockFault::Index
    }
}

/// A new maximum of the table, before any field of the block (RFC 7541, 4.2 and 6.3).
fn apply_update<A: Allocator + Copy>(
    collected: &mut Collected<A>,
    table: &DynTable<A>,
    edit: &mut Edit<A>,
    max: u64,
) -> Result<(), BlockFault>
    requires belongs { IsEdit table.now edit.old }
    ensures belongs { IsEdit table.now edit.new }
    ensures applied { IsApplied table.now.limit (progress_in collected.old table.now edit.old) (spec.Update max) (progress_in collected.new table.now edit.new) result }
    ensures grows { Grows collected.old collected.new }
{
    if !collected.is_empty() {
        return Err(BlockFault::LateUpdate);
    }
    match edit.set_max(table, max) {
        Ok(()) => {
            collected.update_came();
            Ok(())
        }
        Err(_) => Err(BlockFault::LargeUpdate),
    }
}

/// A field that is spelled, its name perhaps by an index (RFC 7541, 6.2).
fn apply_literal<A: Allocator + Copy>(
    collected: &mut Collected<A>,
    table: &DynTable<A>,
    edit: &mut Edit<A>,
    mode: Mode,
    name: RawName<'_>,
    value: RawString<'_>,
) -> Result<(), BlockFault>
    requires belongs { IsEdit table.now edit.old }
    ensures belongs { IsEdit table.now edit.new }
    ensures applied { IsApplied table.now.limit (progress_in collected.old table.now edit.old) (spec.Literal (mode_of mode) (name_of name.entry) (string_of value.entry)) (progress_in collected.new table.now edit.new) result }
    ensures grows { Grows collected.old collected.new }
{
    if collected.is_due() {
        return Err(BlockFault::MissingUpdate);
    }
    read_literal(collected, table, edit, name, value)?;
    match mode {
        Mode::IncrementalIndexing => Ok(enter_last(collected, table, edit)?),
        Mode::WithoutIndexing | Mode::NeverIndexed => Ok(()),
    }
}

/// Adds the field of a literal to the fields; its name is from the table as it is before the literal enters it
/// (RFC 7541, 4.4).
fn read_literal<A: Allocator + Copy>(
    collected: &mut Collected<A>,
    table: &DynTable<A>,
    edit: &Edit<A>,
    name: RawName<'_>,
    value: RawString<'_>,
) -> Result<(), BlockFault>
    requires belongs { IsEdit table.now edit.now }
    ensures { IsReadAs (block.name_of (name_of name.entry) (edited table.now.table.entries edit.now).entries) (text_result (text_of (string_of value.entry))) collected.old collected.new result }
{
    match name {
        RawName::Ref(index) => match field_found(table, edit, index) {
            Some(named) => collected.add_named(index, table.limit(), named, value),
            None => Err(BlockFault::Index),
        },
        RawName::Named(name) => collected.add_spelled(name, value),
    }
}

/// Enters the last field into the table (RFC 7541, 6.2.1).
fn enter_last<A: Allocator + Copy>(
    collected: &mut Collected<A>,
    table: &DynTable<A>,
    edit: &mut Edit<A>,
) -> Result<(), AllocError>
    requires belongs { IsEdit table.now edit.old }
    ensures belongs { IsEdit table.now edit.new }
    ensures table { OnOk result ((fields : List Field) (f : Field) → collected.old.fields ≡ fields ++ f ∷ [] → edited table.now.table.entries edit.new ≡ insert (edited table.now.table.entries edit.old) f) }
    ensures fields { collected.new ≡ collected.old }
{
    let Some(last) = collected.last() else {
        return Ok(());
    };
    edit.insert(table, last.name, last.value, last.mark)?;
    collected.entry_added(table.limit())
}

/// The field at an index of the tables, with its mark: 1 to 61 are static, 62 is the newest entry (RFC 7541, 2.3.3).
#[inline(always)]
fn field_found<'t, A: Allocator + Copy>(
    table: &'t DynTable<A>,
    edit: &'t Edit<A>,
    index: u64,
) -> Option<LentField<'t>>
    requires belongs { IsEdit table.now edit.now }
    ensures field { option_map field_lent result ≡ field_at index (edited table.now.table.entries edit.now).entries }
    ensures marked { IfSome result IsMarked }
{
    if index <= 61 {
        static_entry(index as usize)
    } else {
        edit.get(table, (index - 61) as usize)
    }
}
