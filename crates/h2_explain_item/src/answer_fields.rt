//! The fields of the server's answers, read where they were written: indexes of the static table, and literals that are
//! no Huffman strings and enter no table (RFC 7541, 6). Definitions: `specs/AnswerFields.antt`.

ghost use Rattle.std.specs.Prelude.{◌≡◌, option_map};
ghost use Rattle.h2_spec.specs.Hpack.Instruction.{instr_at};
ghost use Rattle.h2_explain_words.specs.Spelled.{spelling_seen};
ghost use Rattle.h2_hpack_instruction.specs.Shapes as shapes;
ghost use Rattle.h2_hpack_list.specs.Lent.{lent_field};
ghost use Rattle.h2_explain_item.specs.AnswerFields as spec;

use crate::shown_block::SpelledField;
use h2_explain_words::spelled::{Spelling, literal_spelling};
use h2_hpack_instruction::shape::{Point, RawName, RawString, Shape, shape_from};
use h2_spec::octets::octets_from;
use h2_table::static_field;

/// A field of an answer, or a table size update.
#[derive(Clone, Copy)]
pub enum AnswerPart<'o> {
    /// A table size update.
    Update(u64),
    /// A field.
    Field(SpelledField<'o>),
}

/// The octets of a string that is no Huffman string.
fn plain(string: RawString<'_>) -> Option<&[u8]>
    ensures { option_map (λ x. x.now) result ≡ spec.plain (shapes.string_of string.entry) }
{
    if string.huffman {
        None
    } else {
        Some(string.octets)
    }
}

/// The octets of a field's name.
fn name_in<'o>(field: Option<(&'o [u8], &'o [u8])>) -> Option<&'o [u8]>
    ensures { option_map (λ x. x.now) result ≡ option_map (λ f. f.name) (option_map lent_field field.entry) }
{
    match field {
        Some((name, _)) => Some(name),
        None => None,
    }
}

/// The octets of a name that is an index of the static table, or no Huffman string.
fn name_of(name: RawName<'_>) -> Option<&[u8]>
    ensures { option_map (λ x. x.now) result ≡ spec.name_of (shapes.name_of name.entry) }
{
    match name {
        RawName::Ref(index) => name_in(static_field(index as usize)),
        RawName::Named(name) => plain(name),
    }
}

/// The field of an index.
fn indexed<'o>(index: u64, field: Option<(&'o [u8], &'o [u8])>) -> Option<AnswerPart<'o>>
    ensures { option_map spec.part_seen result ≡ spec.indexed index (option_map lent_field field.entry) }
{
    match field {
        Some((name, value)) => Some(AnswerPart::Field(SpelledField {
            name,
            value,
            spelling: Spelling::Indexed(index),
        })),
        None => None,
    }
}

/// The field of a literal.
fn literal<'o>(
    spelling: Spelling,
    name: Option<&'o [u8]>,
    value: Option<&'o [u8]>,
) -> Option<AnswerPart<'o>>
    ensures { option_map spec.part_seen result ≡ spec.literal (spelling_seen spelling) (option_map (λ x. x.now) name.entry) (option_map (λ x. x.now) value.entry) }
{
    match (name, value) {
        (Some(name), Some(value)) => Some(AnswerPart::Field(SpelledField {
            name,
            value,
            spelling,
        })),
        _ => None,
    }
}

/// What an instruction gives.
fn part_of(shape: Shape<'_>) -> Option<AnswerPart<'_>>
    ensures { option_map spec.part_seen result ≡ spec.part_of (shapes.shape_of shape.entry) }
{
    match shape {
        Shape::Update(max) => Some(AnswerPart::Update(max)),
        Shape::Indexed(index) => indexed(index, static_field(index as usize)),
        Shape::Literal(mode, name, value) => literal(
            literal_spelling(mode, name, value.huffman),
            name_of(name),
            plain(value),
        ),
    }
}

/// What the block of an answer begins with, and the octets after it; none at its end.
pub fn next_part(block: &[u8]) -> Option<(AnswerPart<'_>, &[u8])>
    ensures { option_map (λ x. (spec.part_seen x.0, x.1.now)) result ≡ spec.part_by block.now (instr_at block.now) }
{
    match shape_from(Point::start(), block) {
        Ok((shape, used)) => match part_of(shape) {
            Some(part) => Some((part, octets_from(block, used))),
            None => None,
        },
        Err(_) => None,
    }
}
