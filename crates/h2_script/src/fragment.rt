//! A fragment of a field block as text: its instructions, or hex where a script would spell them in other octets. The
//! definitions are `block_said` and `instruction_text` of `h2_spec`, specs/Texts/Written.antt.

ghost use Rattle.std.specs.Prelude.{◌≡◌, ◌<◌, ◌^◌, ◌++◌, ◌∷◌, [], length, IfOk, OnOk, true, bytes_eq, if◌then◌else◌, Some, None};
ghost use Rattle.std.specs.String.{string_bytes};
ghost use Rattle.h2_hpack_instruction.specs.Instructions.{instr_of, name_text_of, IsWritable};
ghost use Rattle.h2_hpack_instruction.specs.Shapes.{mode_of};
ghost use Rattle.h2_spec.specs.Hpack.Instruction as spec;
ghost use Rattle.h2_spec.specs.Texts.Script.{instruction_octets, mode_letter};
ghost use Rattle.h2_spec.specs.Texts.Written.{block_said, instruction_text, is_writable, name_text, payload_text, string_text};
ghost use Rattle.h2_script.specs.Texts.{AddsText, IsBlockText, IsFirstSaid, SaysFirst, is_writable_name};

use crate::said::push_hex;
use crate::text::{push_number, push_numbered, push_string};
use h2_hpack_instruction::fault::BlockFault;
use h2_hpack_instruction::instruction::{
    HpackString, Instr, InstrRead, Mode, Name, read_instr, write_instr,
};
use h2_spec::octets::octets_from;
use std::alloc::{AllocError, Allocator};

/// Appends the text of a fragment of a field block.
pub(crate) fn push_fragment<A: Allocator + Copy>(
    alloc: A,
    payload: &[u8],
    out: &mut String<A>,
) -> Result<(), AllocError>
    requires { length payload.now < 2 ^ 24 }
    ensures { OnOk result (string_bytes out.new ≡ string_bytes out.old ++ payload_text (block_said payload.now)) }
{
    match instructions_text(alloc, payload)? {
        Some(text) => {
            out.push_str("h")?;
            out.push_str(text.as_str())
        }
        None => push_hex(alloc, payload, out),
    }
}

/// The text of whole instructions, where a script would spell them in just these octets.
fn instructions_text<A: Allocator + Copy>(
    alloc: A,
    payload: &[u8],
) -> Result<Option<String<A>>, AllocError>
    requires { length payload.now < 2 ^ 24 }
    ensures { IfOk result (λ text. IsBlockText text (block_said payload.now) payload.now) }
{
    let mut text = String::new(alloc);
    let mut octets = Vec::new(alloc);
    let mut rest = payload;
    while !rest.is_empty() {
        let Some(used) = push_first(alloc, rest, &mut text, &mut octets)? else {
            return Ok(None);
        };
        rest = octets_from(rest, used);
    }
    Ok(if_spelled(text, octets.as_slice(), payload))
}

// A payload is written as instructions exactly where encoding them gives these octets. They are encoded and
// compared, so no second reading of the rules can differ.
/// The text of instructions, where the octets that a script spells for it are the payload.
fn if_spelled<A: Allocator>(text: String<A>, octets: &[u8], payload: &[u8]) -> Option<String<A>>
    ensures { result ≡ if bytes_eq octets.now payload.now then Some text else None }
{
    (octets == payload).then_some(text)
}

/// Appends the text and the octets of the instruction at the front, if a script can say it; returns how many octets
/// it takes.
fn push_first<A: Allocator + Copy>(
    alloc: A,
    rest: &[u8],
    text: &mut String<A>,
    octets: &mut Vec<u8, A>,
) -> Result<Option<usize>, AllocError>
    requires { length rest.now < 2 ^ 24 }
    ensures { IfOk result (λ used. SaysFirst (string_bytes text.old) (string_bytes text.new) octets.old.items octets.new.items used (spec.instruction_at rest.now)) }
{
    match first_said(alloc, rest)? {
        Some((instr, used)) => push_said(&instr, text, octets).and(Ok(Some(used))),
        None => Ok(None),
    }
}

/// Appends the text of an instruction, and the octets that a script spells for it.
fn push_said<A: Allocator, B: Allocator>(
    instr: &Instr<B>,
    text: &mut String<A>,
    octets: &mut Vec<u8, A>,
) -> Result<(), AllocError>
    requires { IsWritable (instr_of instr.now) }
    ensures text { OnOk result (AddsText (string_bytes text.old) (string_bytes text.new) (instr_of instr.now)) }
    ensures octets { OnOk result (octets.new.items ≡ octets.old.items ++ instruction_octets (instr_of instr.now)) }
{
    push_behind(instr, text)?;
    write_instr(instr, octets)?;
    Ok(())
}

/// The instruction at the front of octets, if it is whole and a script can say it, and how many octets it takes.
fn first_said<A: Allocator + Copy>(
    alloc: A,
    octets: &[u8],
) -> Result<Option<(Instr<A>, usize)>, AllocError>
    ensures { IfOk result (λ o. IsFirstSaid o (spec.instruction_at octets.now)) }
{
    match read_instr(alloc, octets) {
        Ok(InstrRead::Whole(instr, used)) => {
            if is_writable(&instr) {
                Ok(Some((instr, used)))
            } else {
                Ok(None)
            }
        }
        Ok(InstrRead::More) => Ok(None),
        Err(BlockFault::NoMemory) => Err(AllocError),
        Err(_) => Ok(None),
    }
}

/// Whether a script can write an instruction's numbers.
fn is_writable<A: Allocator>(instr: &Instr<A>) -> bool
    ensures { result ≡ is_writable (instr_of instr.now) }
{
    match instr {
        Instr::Indexed(index) => *index < 4_294_967_296,
        Instr::Update(max) => *max < 4_294_967_296,
        Instr::Literal { name, .. } => is_writable_name(name),
    }
}

/// Whether a script can write the number in the name of a literal.
fn is_writable_name<A: Allocator>(name: &Name<A>) -> bool
    ensures { result ≡ is_writable_name (name_text_of name.now) }
{
    match name {
        Name::Ref(index) => *index > 0 && *index < 4_294_967_296,
        Name::Text(_) => true,
    }
}

/// Appends an instruction, and a comma before it where others precede it.
fn push_behind<A: Allocator, B: Allocator>(
    instr: &Instr<B>,
    out: &mut String<A>,
) -> Result<(), AllocError>
    ensures { OnOk result (AddsText (string_bytes out.old) (string_bytes out.new) (instr_of instr.now)) }
{
    if !out.is_empty() {
        out.push_str(",")?;
    }
    push_instruction(instr, out)
}

/// Appends an instruction: `i` and an index, `u` and a size, or a literal.
fn push_instruction<A: Allocator, B: Allocator>(
    instr: &Instr<B>,
    out: &mut String<A>,
) -> Result<(), AllocError>
    ensures { OnOk result (string_bytes out.new ≡ string_bytes out.old ++ instruction_text (instr_of instr.now)) }
{
    match instr {
        Instr::Indexed(index) => push_numbered("i", *index, out),
        Instr::Update(max) => push_numbered("u", *max, out),
        Instr::Literal { mode, name, value } => push_literal(*mode, name, value, out),
    }
}

/// Appends a literal: its letter, its name, an equals sign, its value.
fn push_literal<A: Allocator, B: Allocator>(
    mode: Mode,
    name: &Name<B>,
    value: &HpackString<B>,
    out: &mut String<A>,
) -> Result<(), AllocError>
    ensures { OnOk result (string_bytes out.new ≡ string_bytes out.old ++ (mode_letter (mode_of mode) ∷ (name_text (name_text_of name.now) ++ 61 ∷ string_text value.now))) }
{
    out.push_str(letter_of(mode))?;
    push_name(name, out)?;
    out.push_str("=")?;
    push_text(value, out)
}

/// The letter of a literal, by what becomes of it.
fn letter_of(mode: Mode) -> &'static str
    ensures { result.now ≡ mode_letter (mode_of mode) ∷ [] }
{
    match mode {
        Mode::IncrementalIndexing => "a",
        Mode::WithoutIndexing => "n",
        Mode::NeverIndexed => "v",
    }
}

/// Appends the name of a literal: its index, or a string.
fn push_name<A: Allocator, B: Allocator>(
    name: &Name<B>,
    out: &mut String<A>,
) -> Result<(), AllocError>
    ensures { OnOk result (string_bytes out.new ≡ string_bytes out.old ++ name_text (name_text_of name.now)) }
{
    match name {
        Name::Ref(index) => push_number(*index, out),
        Name::Text(text) => push_text(text, out),
    }
}

/// Appends a string between its quotes.
fn push_text<A: Allocator, B: Allocator>(
    text: &HpackString<B>,
    out: &mut String<A>,
) -> Result<(), AllocError>
    ensures { OnOk result (string_bytes out.new ≡ string_bytes out.old ++ string_text text.now) }
{
    push_string(text.huffman, text.octets.as_slice(), out)
}
