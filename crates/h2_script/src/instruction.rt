//! Instructions of a field block in a script. The definition is `instruction_at` of `h2_spec`,
//! specs/Texts/Assemble.antt.

ghost use Rattle.std.specs.Prelude.{◌≡◌, ◌≤◌, ◌^◌, ◌++◌, ℕ, List, length, nat_le, slice_index, option_map, option_and_then, IfOk, OnOk, true, false, Some};
ghost use Rattle.h2_hpack_instruction.specs.Instructions.{instr_of, name_text_of, IsWritable, IsWritableName, IsWritableText};
ghost use Rattle.h2_hpack_instruction.specs.Shapes.{mode_of};
ghost use Rattle.h2_spec.specs.Texts.Assemble.{all_at, instruction_at, is_quote, literal_at, name_at, numbered_at, string_at, string_of, value_at};
ghost use Rattle.h2_spec.specs.Hpack.Instruction.{Indexed, Update};
ghost use Rattle.h2_spec.specs.Texts.Script.{Instructions, Payload, cut_at, instruction_octets, payload_octets};
ghost use Rattle.h2_script.specs.Readings.{AddsFirst, IsBuilt, WrittenOut};
ghost use Rattle.h2_script.specs.Writable.{can_write, can_write_name, indexed_name};

use crate::built::Built;
use crate::number::number_at;
use crate::words::{after, cut, split_before, unescaped};
use h2_hpack_instruction::instruction::{HpackString, Instr, Mode, Name, write_instr};
use h2_hpack_instruction::octets::Octets;
use std::alloc::{AllocError, Allocator};

/// The octets of instructions with commas between.
pub(crate) fn instructions_at<A: Allocator + Copy>(
    alloc: A,
    text: &[u8],
) -> Result<Option<Built<A>>, AllocError>
    ensures { IfOk result (λ o. IsBuilt o (option_map Instructions (all_at instruction_at text.now))) }
{
    let mut octets = Vec::new(alloc);
    let mut long = false;
    let mut rest = text;
    for _turn in 0..text.len() + 1 {
        let Some(behind) = push_first(alloc, rest, &mut octets, &mut long)? else {
            return Ok(None);
        };
        if behind.is_empty() {
            return Ok(Some(built(octets, long)));
        }
        let Some(more) = after(behind, b',') else {
            return Ok(None);
        };
        rest = more;
    }
    Ok(None)
}

/// What was written out, or that it is too long.
fn built<A: Allocator>(octets: Vec<u8, A>, long: bool) -> Built<A>
    ensures { (p : Payload) → WrittenOut long octets.items (payload_octets p) → IsBuilt (Some result) (Some p) }
{
    if long {
        Built::Long
    } else {
        Built::Whole(octets)
    }
}

/// Appends the instruction at the front of a text, if there is one; returns what follows it.
fn push_first<'a, A: Allocator + Copy>(
    alloc: A,
    text: &'a [u8],
    octets: &mut Vec<u8, A>,
    long: &mut bool,
) -> Result<Option<&'a [u8]>, AllocError>
    ensures { IfOk result (λ left. AddsFirst long.old octets.old.items long.new octets.new.items (option_map (λ t. t.now) left) (instruction_at text.now)) }
{
    match instruction_at(alloc, text)? {
        Some((instr, behind)) => push_instr(&instr, octets, long).and(Ok(Some(behind))),
        None => Ok(None),
    }
}

/// Appends an instruction, or notes that it alone is more than a frame holds.
fn push_instr<A: Allocator, B: Allocator>(
    instr: &Instr<B>,
    octets: &mut Vec<u8, A>,
    long: &mut bool,
) -> Result<(), AllocError>
    requires { can_write (instr_of instr.now) ≡ false → 2 ^ 24 ≤ length (instruction_octets (instr_of instr.now)) }
    ensures { OnOk result ((o : List ℕ) → WrittenOut long.old octets.old.items o → WrittenOut long.new octets.new.items (o ++ instruction_octets (instr_of instr.now))) }
{
    if !can_write(instr) {
        *long = true;
        return Ok(());
    }
    write_instr(instr, octets)?;
    Ok(())
}

/// The instruction at the front of a text, and what follows it.
#[tactic(auto, unfolding(h2_spec::specs::Texts::Assemble::instruction_at))]
fn instruction_at<A: Allocator + Copy>(
    alloc: A,
    text: &[u8],
) -> Result<Option<(Instr<A>, &[u8])>, AllocError>
    ensures { IfOk result (λ o. option_map (λ p. (instr_of p.0, p.1.now)) o ≡ instruction_at text.now) }
{
    let Some((letter, rest)) = text.split_first() else {
        return Ok(None);
    };
    match *letter {
        b'i' => Ok(indexed_at(rest)),
        b'u' => Ok(update_at(rest)),
        b'a' => literal_at(alloc, Mode::IncrementalIndexing, rest),
        b'n' => literal_at(alloc, Mode::WithoutIndexing, rest),
        b'v' => literal_at(alloc, Mode::NeverIndexed, rest),
        _ => Ok(None),
    }
}

/// A field of the tables, by its index.
fn indexed_at<A: Allocator>(text: &[u8]) -> Option<(Instr<A>, &[u8])>
    ensures { option_map (λ p. (instr_of p.0, p.1.now)) result ≡ numbered_at Indexed text.now }
{
    let (digits, rest) = split_before(text, b',');
    let number = number_at(4_294_967_295, digits)?;
    Some((Instr::Indexed(u64::from(number)), rest))
}

/// A new maximum of the dynamic table.
fn update_at<A: Allocator>(text: &[u8]) -> Option<(Instr<A>, &[u8])>
    ensures { option_map (λ p. (instr_of p.0, p.1.now)) result ≡ numbered_at Update text.now }
{
    let (digits, rest) = split_before(text, b',');
    let number = number_at(4_294_967_295, digits)?;
    Some((Instr::Update(u64::from(number)), rest))
}

/// A literal: its name, an equals sign, its value.
fn literal_at<A: Allocator + Copy>(
    alloc: A,
    mode: Mode,
    text: &[u8],
) -> Result<Option<(Instr<A>, &[u8])>, AllocError>
    ensures { IfOk result (λ o. option_map (λ p. (instr_of p.0, p.1.now)) o ≡ literal_at (mode_of mode) text.now) }
{
    match name_at(alloc, text)? {
        Some((name, rest)) => value_at(alloc, mode, name, rest),
        None => Ok(None),
    }
}

/// The equals sign and the value of a literal of this name.
fn value_at<A: Allocator + Copy>(
    alloc: A,
    mode: Mode,
    name: Name<A>,
    text: &[u8],
) -> Result<Option<(Instr<A>, &[u8])>, AllocError>
    ensures { IfOk result (λ o. option_map (λ p. (instr_of p.0, p.1.now)) o ≡ value_at (mode_of mode) (name_text_of name) text.now) }
{
    let Some(rest) = after(text, b'=') else {
        return Ok(None);
    };
    match string_at(alloc, rest)? {
        Some((value, rest)) => Ok(Some((Instr::Literal { mode, name, value }, rest))),
        None => Ok(None),
    }
}

/// The name of a literal: an index of 1 or more, or a string.
fn name_at<A: Allocator + Copy>(
    alloc: A,
    text: &[u8],
) -> Result<Option<(Name<A>, &[u8])>, AllocError>
    ensures { IfOk result (λ o. option_map (λ p. (name_text_of p.0, p.1.now)) o ≡ name_at text.now) }
{
    if begins_with_quote(text) {
        return match string_at(alloc, text)? {
            Some((string, rest)) => Ok(Some((Name::Text(string), rest))),
            None => Ok(None),
        };
    }
    Ok(index_at(text))
}

/// An index of 1 or more before an equals sign.
fn index_at<A: Allocator>(text: &[u8]) -> Option<(Name<A>, &[u8])>
    ensures { option_map (λ p. (name_text_of p.0, p.1.now)) result ≡ indexed_name text.now }
{
    let (digits, rest) = split_before(text, b'=');
    let index = number_at(4_294_967_295, digits)?;
    if index == 0 {
        return None;
    }
    Some((Name::Ref(u64::from(index)), rest))
}

/// Whether a text begins with a quote of either kind.
fn begins_with_quote(text: &[u8]) -> bool
    ensures { result ≡ is_quote (slice_index text.now 0) }
{
    !text.is_empty() && (text[0] == b'"' || text[0] == b'\'')
}

/// The string at the front of a text, and what follows it.
fn string_at<A: Allocator + Copy>(
    alloc: A,
    text: &[u8],
) -> Result<Option<(HpackString<A>, &[u8])>, AllocError>
    ensures { IfOk result (λ o. option_map (λ p. (p.0, p.1.now)) o ≡ string_at text.now) }
{
    let Some((quote, rest)) = text.split_first() else {
        return Ok(None);
    };
    match *quote {
        b'"' => quoted_at(alloc, b'"', false, rest),
        b'\'' => quoted_at(alloc, b'\'', true, rest),
        _ => Ok(None),
    }
}

/// The string up to its second quote, and what follows that.
fn quoted_at<A: Allocator + Copy>(
    alloc: A,
    quote: u8,
    huffman: bool,
    text: &[u8],
) -> Result<Option<(HpackString<A>, &[u8])>, AllocError>
    ensures { IfOk result (λ o. option_map (λ p. (p.0, p.1.now)) o ≡ option_and_then (string_of huffman) (cut_at quote text.now)) }
{
    let Some((inside, rest)) = cut(text, quote) else {
        return Ok(None);
    };
    let Some(octets) = unescaped(alloc, inside)? else {
        return Ok(None);
    };
    let octets = Octets::new(octets);
    Ok(Some((HpackString { octets, huffman }, rest)))
}

/// Whether an instruction's numbers and strings are within what `write_instr` takes.
pub(crate) fn can_write<A: Allocator>(instr: &Instr<A>) -> bool
    ensures value { result ≡ can_write (instr_of instr.now) }
    ensures writable { result ≡ true → IsWritable (instr_of instr.now) }
{
    match instr {
        Instr::Indexed(number) => *number < 4_294_967_296,
        Instr::Update(number) => *number < 4_294_967_296,
        Instr::Literal { name, value, .. } => can_write_name(name) && is_short(value),
    }
}

/// Whether the name of a literal is within what `write_instr` takes.
fn can_write_name<A: Allocator>(name: &Name<A>) -> bool
    ensures value { result ≡ can_write_name (name_text_of name.now) }
    ensures writable { result ≡ true → IsWritableName (name_text_of name.now) }
{
    match name {
        Name::Ref(index) => *index > 0 && *index < 4_294_967_296,
        Name::Text(text) => is_short(text),
    }
}

/// Whether a string is short enough to be written out: a longer one alone is more than a frame holds.
fn is_short<A: Allocator>(text: &HpackString<A>) -> bool
    ensures value { result ≡ nat_le (length text.now.text) 33554432 }
    ensures writable { result ≡ true → IsWritableText text.now }
{
    text.octets.as_slice().len() <= 33_554_432
}
