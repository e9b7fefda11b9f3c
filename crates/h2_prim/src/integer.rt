//! Integers with a prefix of some bits of an octet (RFC 7541, 5.1). Its definitions are `int_at` and `spell_int` of
//! `h2_spec`, specs/Hpack/Integer.antt, and the law that these are what the RFC says is `h2_spec_laws::integer_laws`.

ghost use Rattle.std.specs.Prelude.{◌≡◌, ◌+◌, ◌-◌, ◌%◌, ◌^◌, ◌<◌, ◌≤◌, ◌++◌, OnOk, OnErr};
ghost use Rattle.std.specs.Vec.{vec_len, vec_capacity};
ghost use Rattle.h2_spec.specs.Hpack.Integer.{IsReadOf, groups_at, groups_of, int_at, spell_int};
ghost use Rattle.h2_prim.specs.Readings.{int_read, IsSmall};

use std::alloc::{AllocError, Allocator};

/// What is at the front of octets, as an integer (RFC 7541, 5.1).
#[derive(Clone, Copy)]
pub enum IntRead {
    /// A whole integer: its value, below 2^36, and how many octets it takes, 1 to 6.
    Whole(u64, usize),
    /// The beginning of an integer: it goes on in octets that are not there.
    More,
    /// A fifth octet after the prefix announces another one.
    TooLong,
}

/// The integer with a prefix of `prefix` bits, 1 to 8, at the front of the octets, whatever the bits above the prefix
/// are. Spellings longer than the shortest are accepted up to five octets after the prefix. Takes no memory.
pub fn read_int(prefix: u8, octets: &[u8]) -> IntRead
    requires { (1 ≤ prefix) × (prefix ≤ 8) }
    ensures value { int_read result ≡ int_at prefix octets.now }
    ensures read { IsReadOf prefix octets.now (int_read result) }
{
    let full = ones(prefix);
    let Some((first, rest)) = octets.split_first() else {
        return IntRead::More;
    };
    let low = u64::from(*first) % (full + 1);
    if low < full {
        return IntRead::Whole(low, 1);
    }
    match read_groups(rest) {
        IntRead::Whole(value, used) => IntRead::Whole(full + value, used + 1),
        IntRead::More => IntRead::More,
        IntRead::TooLong => IntRead::TooLong,
    }
}

/// Appends the shortest spelling of `value` with a prefix of `prefix` bits, 1 to 8, and `high` in the bits above it.
///
/// # Errors
///
/// `AllocError` where memory was refused; `out` is as it was.
pub fn write_int<A: Allocator>(
    prefix: u8,
    high: u8,
    value: u32,
    out: &mut Vec<u8, A>,
) -> Result<(), AllocError>
    requires prefix { (1 ≤ prefix) × (prefix ≤ 8) }
    requires high { high % 2 ^ prefix ≡ 0 }
    ensures ok { OnOk result (out.new.items ≡ out.old.items ++ spell_int prefix high value) }
    ensures err { OnErr result (out.new.items ≡ out.old.items) }
{
    let full = ones(prefix);
    let value = u64::from(value);
    if value < full {
        return Ok(out.push(high + value as u8)?);
    }
    out.reserve(6)?;
    out.push_reserved(high + full as u8);
    write_groups(value - full, out);
    Ok(())
}

/// The number whose low bits are ones, this many.
fn ones(bits: u8) -> u64
    requires { bits ≤ 8 }
    ensures value { result ≡ 2 ^ bits - 1 }
    ensures small { result < 256 }
{
    (1 << bits) - 1
}

/// The number that groups of seven bits write, the lowest first, in at most five octets.
fn read_groups(octets: &[u8]) -> IntRead
    ensures value { int_read result ≡ groups_at 5 octets.now }
    ensures small { IsSmall result }
{
    let mut value: u64 = 0;
    let mut weight: u64 = 1;
    for (i, octet) in octets.iter().enumerate() {
        if i == 5 {
            return IntRead::TooLong;
        }
        if *octet < 128 {
            return IntRead::Whole(value + u64::from(*octet) * weight, i + 1);
        }
        value += u64::from(*octet % 128) * weight;
        weight *= 128;
    }
    if octets.len() == 5 {
        IntRead::TooLong
    } else {
        IntRead::More
    }
}

/// Appends the groups of seven bits of `value`, the lowest first; there is space for five.
fn write_groups<A: Allocator>(value: u64, out: &mut Vec<u8, A>)
    requires value { value < 2 ^ 35 }
    requires enough { vec_len out.old + 5 ≤ vec_capacity out.old }
    ensures { out.new.items ≡ out.old.items ++ groups_of 5 value }
{
    let mut value = value;
    while value >= 128 {
        out.push_reserved((value % 128 + 128) as u8);
        value /= 128;
    }
    out.push_reserved(value as u8);
}
