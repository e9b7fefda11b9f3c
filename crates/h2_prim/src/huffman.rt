//! Huffman strings (RFC 7541, 5.2 and Appendix B): how long one is, writing one, and reading one. Proofs tie the arrays
//! of `tables` to the code of `h2_spec`; its definitions are `spell_huffman` and `huffman_text` of `h2_spec`,
//! specs/Hpack/Huffman.antt, and the law that these are what the RFC says is `h2_spec_laws::huffman_laws`.

ghost use Rattle.std.specs.Prelude.{◌≡◌, ℕ, ◌+◌, ◌*◌, ◌/◌, ◌^◌, ◌<◌, ◌≤◌, ◌↔◌, ◌++◌, Bool, List, length, take, IfOk, OnOk, OnErr, IsErrOf};
ghost use Rattle.std.specs.Vec.{vec_len, vec_capacity};
ghost use Rattle.h2_spec.specs.Hpack.HuffmanCode.{bits_of, code};
ghost use Rattle.h2_spec.specs.Hpack.Huffman.{HasEos, IsHuffman, IsPadding, bits, huffman_text, spell_huffman, Text, Eos, Padding};
ghost use Rattle.h2_prim.specs.States.{IsRow, Leads, Represents, Prints};
ghost use Rattle.h2_prim.specs.Written.{Written};
ghost use Rattle.h2_prim.specs.declared.fault.HuffFault.TheVariants as fault;

use crate::fault::HuffFault;
use crate::tables::{CODES, LENGTHS, MOVES};
use std::alloc::{AllocError, Allocator};

/// How many octets the Huffman string of the text takes. Takes no memory.
pub fn huff_len(text: &[u8]) -> usize
    requires { length text.now ≤ 33554432 }
    ensures { result ≡ length (spell_huffman text.now) }
{
    let mut bits = 0;
    for octet in text {
        bits += usize::from(code_of(*octet).1);
    }
    (bits + 7) / 8
}

/// Appends the Huffman string of the text: the codes of its octets, and ones up to a whole octet.
///
/// # Errors
///
/// `AllocError` where memory was refused; `out` is as it was.
pub fn huff_write<A: Allocator>(text: &[u8], out: &mut Vec<u8, A>) -> Result<(), AllocError>
    requires { length text.now ≤ 33554432 }
    ensures ok { OnOk result (out.new.items ≡ out.old.items ++ spell_huffman text.now) }
    ensures err { OnErr result (out.new.items ≡ out.old.items) }
{
    out.reserve(huff_len(text))?;
    write_codes(text, out);
    Ok(())
}

/// The text that the octets are the Huffman string of.
///
/// # Errors
///
/// `Eos` where the whole code of the end of a string is in the octets, `Padding` where they are neither a text nor
/// that;
/// `NoMemory` where they are a text and memory was refused.
pub fn huff_read<A: Allocator>(alloc: A, octets: &[u8]) -> Result<Vec<u8, A>, HuffFault>
    ensures text { IfOk result (λ text. huffman_text octets.now ≡ Text text.items) }
    ensures eos { IsErrOf result fault.Eos ↔ (huffman_text octets.now ≡ Eos) }
    ensures padding { IsErrOf result fault.Padding ↔ (huffman_text octets.now ≡ Padding) }
    ensures is_huffman { IfOk result (λ text. IsHuffman text.items octets.now) }
    ensures has_eos { IsErrOf result fault.Eos ↔ HasEos octets.now }
    ensures is_padding { IsErrOf result fault.Padding ↔ IsPadding octets.now }
{
    let mut text = Vec::new(alloc);
    huff_append(octets, &mut text)?;
    Ok(text)
}

/// Appends the text that the octets are the Huffman string of.
///
/// # Errors
///
/// As `huff_read`; `out` is as it was.
pub fn huff_append<A: Allocator>(octets: &[u8], out: &mut Vec<u8, A>) -> Result<(), HuffFault>
    ensures text { OnOk result ((text : List ℕ) × (huffman_text octets.now ≡ Text text) × (out.new.items ≡ out.old.items ++ text)) }
    ensures unchanged { OnErr result (out.new.items ≡ out.old.items) }
    ensures eos { IsErrOf result fault.Eos ↔ (huffman_text octets.now ≡ Eos) }
    ensures padding { IsErrOf result fault.Padding ↔ (huffman_text octets.now ≡ Padding) }
{
    let before = out.len();
    let end = before.saturating_add(room_for(octets.len()));
    if out.resize(end, 0).is_err() {
        return Err(fault_at(state_after(octets)).unwrap_or(HuffFault::NoMemory));
    }
    let (len, state) = decode(octets, out.as_mut_slice().split_at_mut(before).1);
    match fault_at(state) {
        None => {
            out.truncate(before + len);
            Ok(())
        }
        Some(fault) => {
            out.truncate(before);
            Err(fault)
        }
    }
}

/// The code of an octet as a number, and how many bits it has.
fn code_of(octet: u8) -> (u32, u8)
    ensures code { bits_of result.1 result.0 ≡ code octet }
    ensures bits { (5 ≤ result.1) × (result.1 ≤ 30) }
    ensures small { result.0 < 2 ^ result.1 }
{
    (CODES[usize::from(octet)], LENGTHS[usize::from(octet)])
}

/// Space for the text of this many octets: a code has 5 bits or more, so 8/5 of them are enough, and 13/8 are found with no
/// division.
fn room_for(octets: usize) -> usize
    requires { octets < 2 ^ 63 }
    ensures { 8 * octets ≤ 5 * result }
{
    2 * octets - octets / 4 - octets / 8
}

/// The row that four bits lead to from a row, and 256 more than the octet whose code they make whole, 0 where they make
/// none.
fn move_at(row: usize, nibble: u8) -> (usize, u16)
    requires row { IsRow row }
    requires nibble { nibble < 16 }
    ensures leads { Leads (row / 16) (bits_of 4 nibble) result.1 (result.0 / 16) }
    ensures row { IsRow result.0 }
    ensures symbol { result.1 < 512 }
{
    let found = MOVES[row + usize::from(nibble)];
    ((found / 65536) as usize, (found % 65536) as u16)
}

/// Takes four bits: writes the octet that they may make whole at `len`, and returns the text's length and the row after
/// them.
fn step(text: &mut [u8], len: usize, row: usize, nibble: u8) -> (usize, usize)
    requires enough { len < length text.now }
    requires row { IsRow row }
    requires nibble { nibble < 16 }
    ensures read { (bs : List Bool) → Represents bs (take len text.old) (row / 16) → Represents (bs ++ bits_of 4 nibble) (take result.0 text.new) (result.1 / 16) }
    ensures within { result.0 ≤ length text.new }
    ensures row { IsRow result.1 }
{
    let (next, symbol) = move_at(row, nibble);
    text[len] = (symbol % 256) as u8;
    (len + usize::from(symbol / 256), next)
}

/// Takes an octet that ends no later than the octets that `text` has space for, as `step` takes four bits.
fn take_octet(text: &mut [u8], len: usize, row: usize, octet: u8) -> (usize, usize)
    requires enough { (bs : List Bool) × Represents bs (take len text.now) (row / 16) × (length bs + 8 ≤ 5 * length text.now) }
    requires within { len ≤ length text.now }
    requires row { IsRow row }
    ensures read { (bs : List Bool) → Represents bs (take len text.old) (row / 16) → Represents (bs ++ bits_of 8 octet) (take result.0 text.new) (result.1 / 16) }
    ensures within { result.0 ≤ length text.new }
    ensures row { IsRow result.1 }
{
    let half = step(text, len, row, octet / 16);
    step(text, half.0, half.1, octet % 16)
}

// Each step writes, and the place advances only where a code is complete, so there is no branch to guess. A
// state that nothing leaves follows EOS, so the loop has no test for it.
/// Decodes the octets to the front of `text`; returns how many octets that is, and the state after them. Two octets are
/// taken at a turn, and the last of an odd number by itself.
fn decode(octets: &[u8], text: &mut [u8]) -> (usize, usize)
    requires { 8 * length octets.now ≤ 5 * length text.now }
    ensures read { Represents (bits octets.now) (take result.0 text.new) result.1 }
    ensures small { (result.0 ≤ length text.new) × (result.1 ≤ 256) }
{
    let mut len = 0;
    let mut row = 0;
    for pair in 0..octets.len() / 2 {
        let first = take_octet(text, len, row, octets[2 * pair]);
        let second = take_octet(text, first.0, first.1, octets[2 * pair + 1]);
        len = second.0;
        row = second.1;
    }
    if octets.len() % 2 == 0 {
        return (len, row / 16);
    }
    let last = take_octet(text, len, row, octets[octets.len() - 1]);
    (last.0, last.1 / 16)
}

/// The state after the octets, with no text written.
fn state_after(octets: &[u8]) -> usize
    ensures read { (text : List ℕ) × Represents (bits octets.now) text result }
    ensures small { result ≤ 256 }
{
    let mut row = 0;
    for octet in octets {
        row = move_at(row, *octet / 16).0;
        row = move_at(row, *octet % 16).0;
    }
    row / 16
}

/// What a string that ends in the state is refused for, if it is. States 0 to 7 are those of no ones to seven ones, and
/// 256 is that of the whole end of a string.
fn fault_at(state: usize) -> Option<HuffFault>
    requires { state ≤ 256 }
    ensures { (octets text : List ℕ) → Represents (bits octets) text state → Prints (huffman_text octets) text result }
{
    match state {
        0..=7 => None,
        256 => Some(HuffFault::Eos),
        _ => Some(HuffFault::Padding),
    }
}

/// Appends the codes of the text's octets, and then ones up to a whole octet; there is space for them.
fn write_codes<A: Allocator>(text: &[u8], out: &mut Vec<u8, A>)
    requires { vec_len out.old + length (spell_huffman text.now) ≤ vec_capacity out.old }
    ensures { out.new.items ≡ out.old.items ++ spell_huffman text.now }
{
    let mut number = 0;
    let mut count = 0;
    for octet in text {
        let (code, length) = code_of(*octet);
        let left = flush(
            out,
            number * power(length) + u64::from(code),
            count + length,
        );
        number = left.0;
        count = left.1;
    }
    if count > 0 {
        let rest = power(8 - count);
        out.push_reserved((number * rest + (rest - 1)) as u8);
    }
}

/// Two to the power of `bits`.
fn power(bits: u8) -> u64
    requires { bits ≤ 40 }
    ensures { result ≡ 2 ^ bits }
{
    1 << bits
}

/// Appends the whole octets of a number of `count` bits, for which there is space; returns the rest, and how many bits
/// it has.
fn flush<A: Allocator>(out: &mut Vec<u8, A>, number: u64, count: u8) -> (u64, u8)
    requires few { count ≤ 40 }
    requires small { number < 2 ^ count }
    requires enough { 8 * vec_len out.old + count ≤ 8 * vec_capacity out.old }
    ensures few { result.1 < 8 }
    ensures small { result.0 < 2 ^ result.1 }
    ensures written { (before : List ℕ) (bs : List Bool) → Written before out.old.items count number bs → Written before out.new.items result.1 result.0 bs }
    ensures size { 8 * vec_len out.new + result.1 ≡ 8 * vec_len out.old + count }
    ensures capacity { vec_capacity out.new ≡ vec_capacity out.old }
{
    let mut number = number;
    let mut count = count;
    while count >= 8 {
        count -= 8;
        let scale = power(count);
        out.push_reserved((number / scale) as u8);
        number %= scale;
    }
    (number, count)
}
