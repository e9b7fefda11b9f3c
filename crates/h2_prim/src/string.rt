//! Strings of HPACK (RFC 7541, 5.2): a flag, a length, and octets that are the text or its Huffman string. The program
//! does not call `read_str`, which is for users of the library: `find_str` lends the string, and its reader decodes it.
//! Its definitions are `string_at` and `text_of` of `h2_spec`, specs/Hpack/Instruction.antt.

ghost use Rattle.std.specs.Prelude.{◌≡◌, ◌↔◌, ◌≤◌, ◌<◌, length, take, drop, Some, Ok, IfOk, IfSome, IsSome, IsErrOf};
ghost use Rattle.h2_spec.specs.Hpack.Huffman.{Text, Eos, Padding};
ghost use Rattle.h2_spec.specs.Hpack.Instruction.{string_at, text_of, text_str};
ghost use Rattle.h2_spec.specs.Read.{More, TooLong, read_map};
ghost use Rattle.h2_prim.specs.Readings.{str, str_at, str_read, IsWhole};
ghost use Rattle.h2_prim.specs.declared.fault.HuffFault.TheVariants as fault;
ghost use Rattle.h2_prim.specs.declared.string.StrRead.TheVariants as read;

use crate::fault::HuffFault;
use crate::huffman::huff_read;
use crate::integer::{IntRead, read_int};
use std::alloc::Allocator;

/// What is at the front of octets, as a string with its octets as they are (RFC 7541, 5.2).
#[derive(Clone, Copy)]
pub enum StrAt<'a> {
    /// A whole string: whether it is a Huffman string, its octets, and how many octets it takes with its length.
    Whole(bool, &'a [u8], usize),
    /// The beginning of a string: it goes on in octets that are not there.
    More,
    /// The length is an integer that is too long.
    TooLong,
}

/// What is at the front of octets, as a string by its text (RFC 7541, 5.2).
#[derive(Drop)]
pub enum StrRead<A: Allocator> {
    /// A whole string: its text, whether it is a Huffman string, and how many octets it takes with its length.
    Whole(Vec<u8, A>, bool, usize),
    /// The beginning of a string: it goes on in octets that are not there.
    More,
    /// The length is an integer that is too long.
    TooLong,
}

/// The string at the front of the octets, with its octets as they are. Takes no memory.
pub fn find_str(octets: &[u8]) -> StrAt<'_>
    ensures { str_at result ≡ string_at octets.now }
{
    let Some((first, _)) = octets.split_first() else {
        return StrAt::More;
    };
    match read_int(7, octets) {
        IntRead::Whole(length, start) => match octets_at(octets, start, length) {
            Some(inside) => StrAt::Whole(*first >= 128, inside, start + inside.len()),
            None => StrAt::More,
        },
        IntRead::More => StrAt::More,
        IntRead::TooLong => StrAt::TooLong,
    }
}

/// The string at the front of the octets, by its text.
///
/// # Errors
///
/// `Eos` and `Padding` where the whole string is there and has no text, as `huff_read` says; `NoMemory` where it has
/// one and memory was refused.
pub fn read_str<A: Allocator>(alloc: A, octets: &[u8]) -> Result<StrRead<A>, HuffFault>
    ensures text { IfOk result (λ s. read_map text_str (string_at octets.now) ≡ read_map Some (str_read s)) }
    ensures eos { IsErrOf result fault.Eos ↔ IsWhole Eos (read_map text_of (string_at octets.now)) }
    ensures padding { IsErrOf result fault.Padding ↔ IsWhole Padding (read_map text_of (string_at octets.now)) }
    ensures more { string_at octets.now ≡ More → result ≡ Ok read.More }
    ensures too_long { string_at octets.now ≡ TooLong → result ≡ Ok read.TooLong }
{
    match find_str(octets) {
        StrAt::Whole(huffman, inside, used) => {
            let text = text_in(alloc, huffman, inside)?;
            Ok(StrRead::Whole(text, huffman, used))
        }
        StrAt::More => Ok(StrRead::More),
        StrAt::TooLong => Ok(StrRead::TooLong),
    }
}

/// This many octets from a place on, if they are there.
fn octets_at(octets: &[u8], start: usize, count: u64) -> Option<&[u8]>
    requires { start ≤ length octets.now }
    ensures there { IfSome result (λ inside. inside.now ≡ take count (drop start octets.now)) }
    ensures enough { IsSome result ↔ (count ≤ length (drop start octets.now)) }
{
    let rest = octets.split_at(start).1;
    if count <= rest.len() as u64 {
        Some(rest.split_at(count as usize).0)
    } else {
        None
    }
}

/// The text of a string's octets: what they are the Huffman string of, or the octets themselves.
fn text_in<A: Allocator>(alloc: A, huffman: bool, octets: &[u8]) -> Result<Vec<u8, A>, HuffFault>
    ensures text { IfOk result (λ text. text_of (str huffman octets.now) ≡ Text text.items) }
    ensures eos { IsErrOf result fault.Eos ↔ (text_of (str huffman octets.now) ≡ Eos) }
    ensures padding { IsErrOf result fault.Padding ↔ (text_of (str huffman octets.now) ≡ Padding) }
{
    if huffman {
        return huff_read(alloc, octets);
    }
    let mut text = Vec::new(alloc);
    text.extend_from_slice(octets)?;
    Ok(text)
}
