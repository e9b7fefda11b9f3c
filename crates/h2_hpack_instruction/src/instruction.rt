//! Instructions of a field block with the texts of their strings: reading one, and writing one (RFC 7541, 6). The
//! definitions are `instruction_at`, `shape_of` and `spell` of `h2_spec`, specs/Hpack/Instruction.antt.

ghost use Rattle.std.specs.Prelude.{◌≡◌, ◌≢◌, ◌≤◌, ◌++◌, true, false, length, Some, None, IfOk, IfErr, IsErrOf, IsSome, OnOk, OnErr, take};
ghost use Rattle.std.specs.Vec.{vec_len};
ghost use Rattle.h2_spec.specs.Hpack.Block.{text_result};
ghost use Rattle.h2_spec.specs.Hpack.Huffman as huffman;
ghost use Rattle.h2_spec.specs.Hpack.Huffman.{spell_huffman};
ghost use Rattle.h2_spec.specs.Hpack.Instruction as spec;
ghost use Rattle.h2_hpack_instruction.specs.Faults.{refusal};
ghost use Rattle.h2_hpack_instruction.specs.Instructions.{instr_of, name_text_of, read_text, fault_at, HasInstruction, HasLiteral, HasText, IsLiteral, IsWritable, IsWritableName, IsWritableText};
ghost use Rattle.h2_hpack_instruction.specs.Shapes.{mode_of, string_of, name_of, shape_of};
ghost use Rattle.h2_hpack_instruction.specs.declared.fault.BlockFault.TheVariants as faults;

use crate::fault::BlockFault;
use crate::octets::Octets;
use crate::shape::{Point, RawName, RawString, Shape, ShapeFault, shape_from};
use h2_prim::{huff_len, huff_read, huff_write, write_int};
use std::alloc::{AllocError, Allocator};
use std::marker::Model;

/// What becomes of a literal field (RFC 7541, 6.2).
#[derive(Clone, Copy)]
pub enum Mode {
    /// It enters the dynamic table.
    IncrementalIndexing,
    /// It does not enter the dynamic table.
    WithoutIndexing,
    /// It must never enter a table, of no hop on the way.
    NeverIndexed,
}

/// A string of an instruction (RFC 7541, 5.2).
#[derive(Drop)]
pub struct HpackString<A: Allocator> {
    /// The octets that the string means.
    pub octets: Octets<A>,
    /// Whether it is written as a Huffman string.
    pub huffman: bool,
}

impl<A: Allocator> Model for HpackString<A> {
    ghost use Rattle.h2_spec.specs.Hpack.Instruction.{TextStr};

    ghost Value = { TextStr };

    ghost view = { λ t. record { huffman = t.huffman; text = t.octets } };
}

/// The name of a literal field (RFC 7541, 6.2).
#[derive(Drop)]
pub enum Name<A: Allocator> {
    /// The name of the field at this index of the tables, from 1 on.
    Ref(u64),
    /// A name that is spelled.
    Text(HpackString<A>),
}

/// An instruction of a field block (RFC 7541, 6).
#[derive(Drop)]
pub enum Instr<A: Allocator> {
    /// The field at this index of the tables (6.1).
    Indexed(u64),
    /// A new maximum of the dynamic table, in octets (6.3).
    Update(u64),
    /// A field that is spelled, its name perhaps by an index (6.2).
    Literal {
        /// What becomes of it.
        mode: Mode,
        /// Its name.
        name: Name<A>,
        /// Its value.
        value: HpackString<A>,
    },
}

/// What is at the front of octets.
#[derive(Drop)]
pub enum InstrRead<A: Allocator> {
    /// A whole instruction, and how many octets it takes.
    Whole(Instr<A>, usize),
    /// The beginning of an instruction: it goes on in octets that are not there.
    More,
}

impl Mode {
    /// How many bits the index of the name has in the first octet: 6 or 4.
    pub fn prefix(self) -> u8
        ensures { result ≡ spec.mode_prefix (mode_of self) }
    {
        match self {
            Mode::IncrementalIndexing => 6,
            Mode::WithoutIndexing | Mode::NeverIndexed => 4,
        }
    }

    /// The bits above the index, which announce the literal: 64, 0 or 16.
    pub fn high(self) -> u8
        ensures { result ≡ spec.mode_high (mode_of self) }
    {
        match self {
            Mode::IncrementalIndexing => 64,
            Mode::WithoutIndexing => 0,
            Mode::NeverIndexed => 16,
        }
    }
}

// ---- reading

/// Reads the instruction at the front of the octets (RFC 7541, 6), however its integers and strings are spelled.
///
/// # Errors
///
/// `Integer` where an integer of it is too long, as soon as its fifth octet after the prefix is there; `Huffman` where
/// it is whole and a string of it is no Huffman string; `NoMemory` where it is a whole literal, each of its strings has
/// a text, and memory was refused. An indexed field and a size update take no memory.
pub fn read_instr<A: Allocator + Copy>(alloc: A, octets: &[u8]) -> Result<InstrRead<A>, BlockFault>
    ensures read { IfOk result (λ read. read_text read ≡ spec.instruction_at octets.now) }
    ensures fault { IfErr result (λ fault. fault ≢ faults.NoMemory → fault_at (spec.instruction_at octets.now) ≡ Some fault) }
    ensures no_memory { IsErrOf result faults.NoMemory → HasInstruction (spec.instruction_at octets.now) }
    ensures literal { IsErrOf result faults.NoMemory → HasLiteral (spec.instr_at octets.now) }
{
    match shape_from(Point::start(), octets) {
        Ok((shape, used)) => Ok(InstrRead::Whole(with_texts(alloc, shape)?, used)),
        Err(ShapeFault::More(_)) => Ok(InstrRead::More),
        Err(ShapeFault::TooLong) => Err(BlockFault::Integer),
    }
}

/// The instruction of a shape, with the texts of its strings.
fn with_texts<A: Allocator + Copy>(alloc: A, shape: Shape<'_>) -> Result<Instr<A>, BlockFault>
    ensures texts { IfOk result (λ instr. spec.instruction_of (shape_of shape.entry) ≡ Some (instr_of instr)) }
    ensures fault { IfErr result (λ fault. fault ≢ faults.NoMemory → (fault ≡ faults.Huffman) × (spec.instruction_of (shape_of shape.entry) ≡ None)) }
    ensures no_memory { IsErrOf result faults.NoMemory → IsSome (spec.instruction_of (shape_of shape.entry)) }
    ensures literal { IsErrOf result faults.NoMemory → IsLiteral (shape_of shape.entry) }
{
    match shape {
        Shape::Indexed(index) => Ok(Instr::Indexed(index)),
        Shape::Update(max) => Ok(Instr::Update(max)),
        Shape::Literal(mode, name, value) => literal_with_texts(alloc, mode, name, value),
    }
}

/// A literal with the texts of its strings.
fn literal_with_texts<A: Allocator + Copy>(
    alloc: A,
    mode: Mode,
    name: RawName<'_>,
    value: RawString<'_>,
) -> Result<Instr<A>, BlockFault>
    ensures texts { IfOk result (λ instr. spec.instruction_of (spec.Literal (mode_of mode) (name_of name.entry) (string_of value.entry)) ≡ Some (instr_of instr)) }
    ensures fault { IfErr result (λ fault. fault ≢ faults.NoMemory → (fault ≡ faults.Huffman) × (spec.instruction_of (spec.Literal (mode_of mode) (name_of name.entry) (string_of value.entry)) ≡ None)) }
    ensures no_memory { IsErrOf result faults.NoMemory → IsSome (spec.instruction_of (spec.Literal (mode_of mode) (name_of name.entry) (string_of value.entry))) }
{
    match name_with_text(alloc, name) {
        Ok(name) => Ok(Instr::Literal {
            mode,
            name,
            value: with_text(alloc, value)?,
        }),
        // a bad value is found before memory for the name is needed
        Err(BlockFault::NoMemory) => {
            with_text(alloc, value)?;
            Err(BlockFault::NoMemory)
        }
        Err(fault) => Err(fault),
    }
}

/// A name, with its text where it is a string.
fn name_with_text<A: Allocator + Copy>(alloc: A, name: RawName<'_>) -> Result<Name<A>, BlockFault>
    ensures text { IfOk result (λ read. spec.name_text (name_of name.entry) ≡ Some (name_text_of read)) }
    ensures fault { IfErr result (λ fault. fault ≢ faults.NoMemory → (fault ≡ faults.Huffman) × (spec.name_text (name_of name.entry) ≡ None)) }
    ensures no_memory { IsErrOf result faults.NoMemory → IsSome (spec.name_text (name_of name.entry)) }
{
    match name {
        RawName::Ref(index) => Ok(Name::Ref(index)),
        RawName::Named(string) => Ok(Name::Text(with_text(alloc, string)?)),
    }
}

/// A string with its text.
fn with_text<A: Allocator + Copy>(
    alloc: A,
    string: RawString<'_>,
) -> Result<HpackString<A>, BlockFault>
    ensures text { IfOk result (λ text. spec.text_str (string_of string.entry) ≡ Some text) }
    ensures fault { IfErr result (λ fault. fault ≢ faults.NoMemory → (fault ≡ faults.Huffman) × (spec.text_str (string_of string.entry) ≡ None)) }
    ensures no_memory { IsErrOf result faults.NoMemory → IsSome (spec.text_str (string_of string.entry)) }
{
    let octets = text_of(alloc, string)?;
    Ok(HpackString {
        octets: Octets::new(octets),
        huffman: string.huffman,
    })
}

/// The octets that a string means.
fn text_of<A: Allocator + Copy>(alloc: A, string: RawString<'_>) -> Result<Vec<u8, A>, BlockFault>
    ensures text { IfOk result (λ text. spec.text_of (string_of string.entry) ≡ huffman.Text text.items) }
    ensures fault { IfErr result (λ fault. fault ≢ faults.NoMemory → (fault ≡ faults.Huffman) × (refusal (text_result (spec.text_of (string_of string.entry))) ≡ Some faults.Huffman)) }
    ensures no_memory { IsErrOf result faults.NoMemory → HasText (spec.text_of (string_of string.entry)) }
{
    if string.huffman {
        Ok(huff_read(alloc, string.octets)?)
    } else {
        Ok(Vec::from_slice(alloc, string.octets)?)
    }
}

// ---- writing

/// Appends the instruction, each integer in its shortest spelling and each string as its flag says (RFC 7541, 5 and 6).
///
/// Its numbers are below 2^32, an index of a name above 0, and its texts have at most 33,554,432 octets each.
///
/// # Errors
///
/// `AllocError` where memory was refused; `out` is as it was.
pub fn write_instr<A: Allocator, B: Allocator>(
    instr: &Instr<B>,
    out: &mut Vec<u8, A>,
) -> Result<(), AllocError>
    requires { IsWritable (instr_of instr.now) }
    ensures ok { OnOk result (out.new.items ≡ out.old.items ++ spec.spell (spec.shape_of (instr_of instr.now))) }
    ensures err { OnErr result (out.new.items ≡ out.old.items) }
{
    let before = out.len();
    match write_parts(instr, out) {
        Ok(()) => Ok(()),
        Err(error) => {
            out.truncate(before);
            Err(error)
        }
    }
}

/// Appends the instruction; where memory was refused, some of its octets may be appended.
#[tactic(auto, unfolding(h2_spec::specs::Hpack::Instruction::spell))]
fn write_parts<A: Allocator, B: Allocator>(
    instr: &Instr<B>,
    out: &mut Vec<u8, A>,
) -> Result<(), AllocError>
    requires { IsWritable (instr_of instr.now) }
    ensures ok { OnOk result (out.new.items ≡ out.old.items ++ spec.spell (spec.shape_of (instr_of instr.now))) }
    ensures kept { take (vec_len out.old) out.new.items ≡ out.old.items }
{
    match instr {
        Instr::Indexed(index) => write_int(7, 128, *index as u32, out),
        Instr::Update(max) => write_int(5, 32, *max as u32, out),
        Instr::Literal { mode, name, value } => {
            write_name(*mode, name, out)?;
            write_text(value, out)
        }
    }
}

/// Appends the name of a literal after the literal's mark.
fn write_name<A: Allocator, B: Allocator>(
    mode: Mode,
    name: &Name<B>,
    out: &mut Vec<u8, A>,
) -> Result<(), AllocError>
    requires { IsWritableName (name_text_of name.now) }
    ensures ok { OnOk result (out.new.items ≡ out.old.items ++ spec.spell_name (mode_of mode) (spec.coded_name (name_text_of name.now))) }
    ensures kept { take (vec_len out.old) out.new.items ≡ out.old.items }
{
    match name {
        Name::Ref(index) => write_int(mode.prefix(), mode.high(), *index as u32, out),
        Name::Text(text) => {
            out.push(mode.high())?;
            write_text(text, out)
        }
    }
}

/// Appends a string as its flag says.
fn write_text<A: Allocator, B: Allocator>(
    text: &HpackString<B>,
    out: &mut Vec<u8, A>,
) -> Result<(), AllocError>
    requires { IsWritableText text.now }
    ensures ok { OnOk result (out.new.items ≡ out.old.items ++ spec.spell_string text.now.huffman (spec.coded text.now.huffman text.now.text)) }
    ensures kept { take (vec_len out.old) out.new.items ≡ out.old.items }
{
    let octets = text.octets.as_slice();
    if text.huffman {
        write_huffman(octets, out)
    } else {
        write_plain(octets, out)
    }
}

/// Appends a Huffman string.
fn write_huffman<A: Allocator>(text: &[u8], out: &mut Vec<u8, A>) -> Result<(), AllocError>
    requires { length text.now ≤ 33554432 }
    ensures ok { OnOk result (out.new.items ≡ out.old.items ++ spec.spell_string true (spell_huffman text.now)) }
    ensures kept { take (vec_len out.old) out.new.items ≡ out.old.items }
{
    write_int(7, 128, huff_len(text) as u32, out)?;
    huff_write(text, out)
}

/// Appends a string as it is.
pub(crate) fn write_plain<A: Allocator>(
    octets: &[u8],
    out: &mut Vec<u8, A>,
) -> Result<(), AllocError>
    requires { length octets.now ≤ 33554432 }
    ensures ok { OnOk result (out.new.items ≡ out.old.items ++ spec.spell_string false octets.now) }
    ensures kept { take (vec_len out.old) out.new.items ≡ out.old.items }
{
    write_int(7, 0, octets.len() as u32, out)?;
    out.extend_from_slice(octets)
}
