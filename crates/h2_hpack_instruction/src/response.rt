//! The field block of a response: its status and its fields, none of which enters the dynamic table (RFC 9113, 8.3.2).
//! The definition is `response_block` of `h2_spec`, specs/Requests/Answer.antt.

ghost use Rattle.std.specs.Prelude.{◌≡◌, ◌≤◌, ◌++◌, ◌==◌, false, IfOk, OnOk, flat_map, map, position};
ghost use Rattle.std.specs.List.{AllByRecursion};
ghost use Rattle.h2_spec.specs.Requests.Answer as spec;
ghost use Rattle.h2_spec.specs.Requests.Answer.{indexed_statuses, plain_literal, status_digits, status_instruction, update_if};
ghost use Rattle.h2_spec.specs.Hpack.Instruction.{spell, spell_string};
ghost use Rattle.h2_hpack_instruction.specs.Instructions.{IsWritableField};

use crate::field::Field;
use crate::instruction::write_plain;
use h2_prim::write_int;
use std::alloc::{AllocError, Allocator};

/// The field block of a response with this status, 200 to 599, and these fields.
///
/// With `size_update_pending` the block begins with a table size update to 0: the peer gave up its dynamic table (RFC
/// 7541, 4.2). The status is an index where the static table has it; each field is a literal that does not enter the
/// dynamic table, its strings as they are. Names and values have at most 33,554,432 octets each.
///
/// # Errors
///
/// `AllocError` where memory was refused.
pub fn response_block<A: Allocator, B: Allocator>(
    alloc: A,
    size_update_pending: bool,
    status: u16,
    fields: &[Field<B>],
) -> Result<Vec<u8, A>, AllocError>
    requires status { (200 ≤ status) × (status ≤ 599) }
    requires fields { AllByRecursion IsWritableField fields.now }
    ensures block { IfOk result (λ block. block.items ≡ spec.response_block size_update_pending status fields.now) }
{
    let mut block = Vec::new(alloc);
    write_update(size_update_pending, &mut block)?;
    write_status(status, &mut block)?;
    write_fields(fields, &mut block)?;
    Ok(block)
}

/// Appends a table size update to 0, where there is to be one.
#[tactic(auto, unfolding(h2_spec::specs::Hpack::Instruction::spell))]
fn write_update<A: Allocator>(
    size_update_pending: bool,
    block: &mut Vec<u8, A>,
) -> Result<(), AllocError>
    ensures ok { OnOk result (block.new.items ≡ block.old.items ++ flat_map spell (update_if size_update_pending)) }
{
    if size_update_pending {
        write_int(5, 32, 0, block)?;
    }
    Ok(())
}

/// Appends a status: by its index where the static table has it, else by the name of index 8 and its digits.
#[tactic(auto, unfolding(h2_spec::specs::Hpack::Instruction::spell))]
fn write_status<A: Allocator>(status: u16, block: &mut Vec<u8, A>) -> Result<(), AllocError>
    requires { (200 ≤ status) × (status ≤ 599) }
    ensures ok { OnOk result (block.new.items ≡ block.old.items ++ spell (status_instruction status)) }
{
    match place_of(status) {
        Some(place) => write_int(7, 128, 8 + u32::from(place), block),
        None => {
            write_int(4, 0, 8, block)?;
            write_digits(status, block)
        }
    }
}

/// The place of a status among those that the static table has from index 8 on.
fn place_of(status: u16) -> Option<u8>
    ensures { result ≡ position (λ s. s == status) indexed_statuses }
{
    match status {
        200 => Some(0),
        204 => Some(1),
        206 => Some(2),
        304 => Some(3),
        400 => Some(4),
        404 => Some(5),
        500 => Some(6),
        _ => None,
    }
}

/// Appends the three digits of a status as a string.
fn write_digits<A: Allocator>(status: u16, block: &mut Vec<u8, A>) -> Result<(), AllocError>
    requires { (200 ≤ status) × (status ≤ 599) }
    ensures ok { OnOk result (block.new.items ≡ block.old.items ++ spell_string false (status_digits status)) }
{
    let digits = [
        48 + (status / 100) as u8,
        48 + (status / 10 % 10) as u8,
        48 + (status % 10) as u8,
    ];
    write_plain(digits.as_slice(), block)
}

/// Appends fields, each as a literal that does not enter the dynamic table.
fn write_fields<A: Allocator, B: Allocator>(
    fields: &[Field<B>],
    block: &mut Vec<u8, A>,
) -> Result<(), AllocError>
    requires { AllByRecursion IsWritableField fields.now }
    ensures ok { OnOk result (block.new.items ≡ block.old.items ++ flat_map spell (map plain_literal fields.now)) }
{
    for field in fields {
        write_field(field, block)?;
    }
    Ok(())
}

/// Appends a field as a literal that does not enter the dynamic table (RFC 7541, 6.2.2).
#[tactic(auto, unfolding(h2_spec::specs::Hpack::Instruction::spell))]
fn write_field<A: Allocator, B: Allocator>(
    field: &Field<B>,
    block: &mut Vec<u8, A>,
) -> Result<(), AllocError>
    requires { IsWritableField field.now }
    ensures ok { OnOk result (block.new.items ≡ block.old.items ++ spell (plain_literal field.now)) }
{
    block.push(0)?;
    write_plain(field.name.as_slice(), block)?;
    write_plain(field.value.as_slice(), block)
}
