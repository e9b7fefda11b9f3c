//! Reading one instruction at the front of octets, its strings lent as they are (RFC 7541, 5.2 and 6), and reading it
//! on from where its octets stopped. It takes no memory. The definition is `instr_at` of `h2_spec`,
//! specs/Hpack/Instruction.antt; what is known of an instruction that is cut is in `specs/Resume.antt`.

ghost use Rattle.std.specs.Prelude.{◌≡◌, ◌≤◌, ◌+◌, ◌-◌, ◌^◌, ◌==◌, ℕ, List, ◌++◌, length, drop, min, None, IfOk, IfSome, if◌then◌else◌};
ghost use Rattle.h2_prim.specs.Readings.{int_read};
ghost use Rattle.h2_spec.specs.Hpack.Integer.{int_at};
ghost use Rattle.h2_spec.specs.Hpack.Instruction as spec;
ghost use Rattle.h2_spec.specs.Read.{Whole, read_map};
ghost use Rattle.h2_hpack_instruction.specs.Resume.{BeginsLiteral, Nothing, NameLength, NameOctets, ValueLength, ValueOctets, IfMore, IsIntegerAt, IsNameBefore, IsPoint, IsReadOn, IsRest, IsTaken, huffman_flag, huffman_octets, name_at, string_octets};
ghost use Rattle.h2_hpack_instruction.specs.Shapes.{mode_of, string_of, name_of, shape_of, short_index, read_of};

use crate::instruction::Mode;
use h2_prim::{IntRead, read_int};
use h2_spec::octets::{octets_from, octets_up_to};

/// Why there is no whole instruction at the front of octets.
#[derive(Clone, Copy)]
pub enum ShapeFault {
    /// It goes on in octets that are not there; with them, reading goes on from this point.
    More(Point),
    /// An integer of it is too long.
    TooLong,
}

/// The name of a literal: an index of the tables, or a string by its place in the octets of the instruction.
#[derive(Clone, Copy)]
pub enum PartialName {
    /// The index, above 0.
    Ref(u64),
    /// Whether the octets are a Huffman string, where they begin, and how many they are.
    Named(bool, usize, usize),
}

/// What is known of an instruction that is cut.
#[derive(Clone, Copy)]
pub enum Known {
    /// Nothing: its first integer is not whole.
    Nothing,
    /// A literal whose name is spelled; the length of the name comes next.
    NameLength(Mode),
    /// A literal whose name has this flag and this length; the octets of the name come next.
    NameOctets(Mode, bool, u64),
    /// A literal and its name; the length of the value comes next.
    ValueLength(Mode, PartialName),
    /// A literal and its name, with the flag and the length of the value; the octets of the value come next.
    ValueOctets(Mode, PartialName, bool, u64),
}

// What is known of a cut instruction. Reading goes on at the first octet of an integer, so a fragment passes
// at most five octets again.
/// Where reading goes on in an instruction whose octets stopped: at the first octet of the integer that is not whole,
/// or inside the string that is not.
#[derive(Clone, Copy)]
pub struct Point {
    /// What is known of the instruction.
    pub known: Known,
    /// How many of its octets that took.
    pub at: usize,
    /// How many of its octets are not passed again: `at`, or all that have arrived of a string.
    pub passed: usize,
}

/// A string as it is: whether its octets are a Huffman string, and its octets.
#[derive(Clone, Copy)]
pub struct RawString<'a> {
    /// Whether the octets are a Huffman string (RFC 7541, 5.2).
    pub huffman: bool,
    /// The octets as they were sent.
    pub octets: &'a [u8],
}

/// The name of a literal as it is: an index of the tables, or a string.
#[derive(Clone, Copy)]
pub enum RawName<'a> {
    Ref(u64),
    Named(RawString<'a>),
}

/// An instruction as it is.
#[derive(Clone, Copy)]
pub enum Shape<'a> {
    Indexed(u64),
    Update(u64),
    Literal(Mode, RawName<'a>, RawString<'a>),
}

impl Point {
    /// The beginning of an instruction.
    pub fn start() -> Self
        ensures anywhere { (octets : List ℕ) → IsPoint octets result }
        ensures passed { result.passed ≡ 0 }
    {
        Point {
            known: Known::Nothing,
            at: 0,
            passed: 0,
        }
    }
}

// An index of one octet has a reading of its own: the value of all that an instruction can be goes through
// memory, 90 instructions.
/// The index of a field of the tables that the octets begin with, where it takes one octet, whole: it is below 127 (RFC
/// 7541, 6.1). None where octets of an instruction were passed before.
#[inline(always)]
pub fn short_index(point: Point, octets: &[u8]) -> Option<u64>
    ensures value { result ≡ (if point.passed == 0 then short_index octets.now else None) }
    ensures read { IfSome result (λ index. spec.instr_at octets.now ≡ Whole (spec.Indexed index) 1) }
    ensures taken { IfSome result (λ index. IsTaken octets.now point.passed (spec.Indexed index) 1) }
{
    if point.passed != 0 {
        return None;
    }
    match octets.split_first() {
        Some((first, _)) if 128 <= *first && *first < 255 => Some(u64::from(*first - 128)),
        _ => None,
    }
}

/// The instruction at the front of the octets, and how many octets it takes (RFC 7541, 6); reading goes on from a point
/// of it.
#[inline(always)]
pub fn shape_from(point: Point, octets: &[u8]) -> Result<(Shape<'_>, usize), ShapeFault>
    requires point { IsPoint octets.now point }
    ensures read { read_of shape_of result ≡ spec.instr_at octets.now }
    ensures taken { IfOk result (λ read. IsTaken octets.now point.passed (shape_of read.0) read.1) }
    ensures rest { IfMore result (λ next. IsRest octets.now next) }
{
    match point.known {
        Known::Nothing => from_first(octets),
        Known::NameLength(mode) => from_name_length(mode, point.at, octets),
        Known::NameOctets(mode, huffman, count) => {
            from_name(mode, huffman, count, point.at, octets)
        }
        Known::ValueLength(mode, name) => from_value_length(mode, name, point.at, octets),
        Known::ValueOctets(mode, name, huffman, count) => {
            from_value(mode, name, huffman, count, point.at, octets)
        }
    }
}

/// The instruction at the front of the octets, from its first octet.
#[inline(always)]
fn from_first(octets: &[u8]) -> Result<(Shape<'_>, usize), ShapeFault>
    ensures { IsReadOn octets.now Nothing 0 0 result }
{
    let Some((first, _)) = octets.split_first() else {
        return Err(ShapeFault::More(Point::start()));
    };
    if *first >= 128 {
        return indexed(octets);
    }
    if *first >= 64 {
        return literal(Mode::IncrementalIndexing, octets);
    }
    if *first >= 32 {
        return update(octets);
    }
    if *first >= 16 {
        literal(Mode::NeverIndexed, octets)
    } else {
        literal(Mode::WithoutIndexing, octets)
    }
}

/// A field of the tables (RFC 7541, 6.1).
#[inline(always)]
fn indexed(octets: &[u8]) -> Result<(Shape<'_>, usize), ShapeFault>
    requires announced { (more : List ℕ) → spec.instr_at (octets.now ++ more) ≡ read_map spec.Indexed (int_at 7 (octets.now ++ more)) }
    ensures { IsReadOn octets.now Nothing 0 0 result }
{
    match integer_at(7, 0, octets) {
        IntRead::Whole(index, used) => Ok((Shape::Indexed(index), used)),
        IntRead::More => Err(ShapeFault::More(Point::start())),
        IntRead::TooLong => Err(ShapeFault::TooLong),
    }
}

/// A new maximum of the dynamic table (RFC 7541, 6.3).
fn update(octets: &[u8]) -> Result<(Shape<'_>, usize), ShapeFault>
    requires announced { (more : List ℕ) → spec.instr_at (octets.now ++ more) ≡ read_map spec.Update (int_at 5 (octets.now ++ more)) }
    ensures { IsReadOn octets.now Nothing 0 0 result }
{
    match integer_at(5, 0, octets) {
        IntRead::Whole(max, used) => Ok((Shape::Update(max), used)),
        IntRead::More => Err(ShapeFault::More(Point::start())),
        IntRead::TooLong => Err(ShapeFault::TooLong),
    }
}

/// A literal, from the index of its name: 0 means that the name is the string after it (RFC 7541, 6.2).
fn literal(mode: Mode, octets: &[u8]) -> Result<(Shape<'_>, usize), ShapeFault>
    requires announced { BeginsLiteral octets.now (mode_of mode) }
    ensures { IsReadOn octets.now Nothing 0 0 result }
{
    match integer_at(mode.prefix(), 0, octets) {
        IntRead::Whole(0, used) => from_name_length(mode, used, octets),
        IntRead::Whole(index, used) => {
            from_value_length(mode, PartialName::Ref(index), used, octets)
        }
        IntRead::More => Err(ShapeFault::More(Point::start())),
        IntRead::TooLong => Err(ShapeFault::TooLong),
    }
}

/// A literal whose name is spelled, from the length of the name, which begins at `at`.
fn from_name_length(mode: Mode, at: usize, octets: &[u8]) -> Result<(Shape<'_>, usize), ShapeFault>
    requires begins { (1 ≤ at) × (at ≤ length octets.now) }
    ensures { IsReadOn octets.now (NameLength (mode_of mode)) at at result }
{
    match integer_at(7, at, octets) {
        IntRead::Whole(count, used) => {
            let huffman = is_huffman(octets_from(octets, at));
            from_name(mode, huffman, count, at + used, octets)
        }
        IntRead::More => Err(ShapeFault::More(Point {
            known: Known::NameLength(mode),
            at,
            passed: at,
        })),
        IntRead::TooLong => Err(ShapeFault::TooLong),
    }
}

/// A literal whose name is spelled, from the octets of the name, which begin at `at`.
fn from_name(
    mode: Mode,
    huffman: bool,
    count: u64,
    at: usize,
    octets: &[u8],
) -> Result<(Shape<'_>, usize), ShapeFault>
    requires begins { (1 ≤ at) × (at ≤ length octets.now) }
    ensures { IsReadOn octets.now (NameOctets (mode_of mode) huffman count) at (at + count) result }
{
    if count <= octets_from(octets, at).len() as u64 {
        let count = count as usize;
        return from_value_length(
            mode,
            PartialName::Named(huffman, at, count),
            at + count,
            octets,
        );
    }
    Err(ShapeFault::More(Point {
        known: Known::NameOctets(mode, huffman, count),
        at,
        passed: octets.len(),
    }))
}

/// A literal with its name, from the length of the value, which begins at `at`.
fn from_value_length(
    mode: Mode,
    name: PartialName,
    at: usize,
    octets: &[u8],
) -> Result<(Shape<'_>, usize), ShapeFault>
    requires begins { IsNameBefore at name × (at ≤ length octets.now) }
    ensures { IsReadOn octets.now (ValueLength (mode_of mode) (name_at octets.now name)) at at result }
{
    match integer_at(7, at, octets) {
        IntRead::Whole(count, used) => {
            let huffman = is_huffman(octets_from(octets, at));
            from_value(mode, name, huffman, count, at + used, octets)
        }
        IntRead::More => Err(ShapeFault::More(Point {
            known: Known::ValueLength(mode, name),
            at,
            passed: at,
        })),
        IntRead::TooLong => Err(ShapeFault::TooLong),
    }
}

/// A literal with its name, from the octets of the value, which begin at `at`.
fn from_value(
    mode: Mode,
    name: PartialName,
    huffman: bool,
    count: u64,
    at: usize,
    octets: &[u8],
) -> Result<(Shape<'_>, usize), ShapeFault>
    requires begins { IsNameBefore at name × (at ≤ length octets.now) }
    ensures { IsReadOn octets.now (ValueOctets (mode_of mode) (name_at octets.now name) huffman count) at (at + count) result }
{
    let value = octets_from(octets, at);
    if count <= value.len() as u64 {
        let count = count as usize;
        let value = RawString {
            huffman,
            octets: octets_up_to(value, count),
        };
        return Ok((
            Shape::Literal(mode, name_in(name, octets), value),
            at + count,
        ));
    }
    Err(ShapeFault::More(Point {
        known: Known::ValueOctets(mode, name, huffman, count),
        at,
        passed: octets.len(),
    }))
}

/// A name that is known, with its octets.
fn name_in(name: PartialName, octets: &[u8]) -> RawName<'_>
    requires within { IsNameBefore (length octets.now) name }
    ensures { name_of result ≡ name_at octets.now name }
{
    match name {
        PartialName::Ref(index) => RawName::Ref(index),
        PartialName::Named(huffman, start, count) => RawName::Named(RawString {
            huffman,
            octets: octets_up_to(octets_from(octets, start), count),
        }),
    }
}

/// The integer that begins at `at`, with a prefix of `prefix` bits (RFC 7541, 5.1).
fn integer_at(prefix: u8, at: usize, octets: &[u8]) -> IntRead
    requires prefix { (1 ≤ prefix) × (prefix ≤ 8) }
    requires within { at ≤ length octets.now }
    ensures value { int_read result ≡ int_at prefix (drop at octets.now) }
    ensures place { IsIntegerAt at (length octets.now) result }
{
    read_int(prefix, octets_from(octets, at))
}

/// Whether the string that the octets begin is a Huffman string (RFC 7541, 5.2).
fn is_huffman(octets: &[u8]) -> bool
    ensures { result ≡ huffman_flag octets.now }
{
    match octets.split_first() {
        Some((first, _)) => *first >= 128,
        None => false,
    }
}

impl Shape<'_> {
    /// How many octets of the instruction are Huffman strings; 2^64 - 1 where there are more.
    pub fn huffman_octets(&self) -> u64
        ensures { result ≡ min (huffman_octets (shape_of self.entry.now)) (2 ^ 64 - 1) }
    {
        match self {
            Shape::Literal(_, RawName::Named(name), value) => {
                name.huffman_octets().saturating_add(value.huffman_octets())
            }
            Shape::Literal(_, RawName::Ref(_), value) => value.huffman_octets(),
            Shape::Indexed(_) | Shape::Update(_) => 0,
        }
    }
}

impl RawString<'_> {
    /// How many octets of the string are to be decoded: all, or none.
    fn huffman_octets(&self) -> u64
        ensures { result ≡ string_octets (string_of self.entry.now) }
    {
        if self.huffman {
            self.octets.len() as u64
        } else {
            0
        }
    }
}
