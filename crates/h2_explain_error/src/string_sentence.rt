//! The sentences of Huffman strings that are refused: which string, and what is wrong with it (RFC 7541, 5.2). The
//! refused literal is at the front of the rest of its block.

ghost use Rattle.std.specs.Prelude.{◌≤◌};

use h2_explain_item::diagnosis::error_context::ErrorContext;
use h2_io::say::{Cut, HexOctet, OctetCount, Ordinal, TextBuilder};
use h2_io::say_all;
use h2_prim::{HuffFault, IntRead, StrAt, find_str, huff_read, read_int};
use h2_spec::causes::Cause;
use h2_spec::octets::{first_octets, octets_from};
use std::alloc::{AllocError, Allocator};

/// What is wrong with the octets of a Huffman string.
#[derive(Clone, Copy)]
enum Flaw {
    /// The code of EOS is in them; it ends in the octet of this place, from 1.
    Eos(usize),
    /// They end with ones, 8 or more after the last code.
    Long,
    /// After the last code there is a 0.
    NotOnes,
}

/// The name of a literal.
#[derive(Clone, Copy)]
enum NameIs<'o> {
    /// That of an index of the tables.
    Index(u64),
    /// A string: whether it is a Huffman string, and its octets.
    Text(bool, &'o [u8]),
}

/// The octets from a place on; none where there are fewer.
fn behind(octets: &[u8], place: usize) -> &[u8] {
    octets_from(octets, place.min(octets.len()))
}

/// Why octets are no Huffman string, if they are none.
fn fault_in<A: Allocator + Copy>(alloc: A, octets: &[u8]) -> Option<HuffFault> {
    match huff_read(alloc, octets) {
        Ok(_) | Err(HuffFault::NoMemory) => None,
        Err(fault) => Some(fault),
    }
}

/// Whether the code of EOS is in octets.
fn has_eos<A: Allocator + Copy>(alloc: A, octets: &[u8]) -> bool {
    match fault_in(alloc, octets) {
        Some(HuffFault::Eos) => true,
        _ => false,
    }
}

/// The place of the octet, from 1, in which the first code of EOS ends: the length of the shortest beginning that has it.
/// A string has less than 2^17 octets, so that many halvings find it.
fn end_of_eos<A: Allocator + Copy>(alloc: A, octets: &[u8]) -> usize {
    let (mut without, mut with) = (0usize, octets.len());
    for _halving in 0..17 {
        let half = without.saturating_add(with) / 2;
        if has_eos(alloc, first_octets(octets, half)) {
            with = half;
        } else {
            without = half;
        }
    }
    with
}

/// Whether octets whose padding is refused end with ones after the last code. Three octets of ones more make the code
/// of EOS, which has 30, whole only then: a code that a 0 has begun takes some of them, and less than 30 are left.
fn ends_with_ones<A: Allocator + Copy>(alloc: A, octets: &[u8]) -> Result<bool, AllocError> {
    let mut longer = Vec::from_slice(alloc, octets)?;
    longer.extend_from_slice(&[255, 255, 255])?;
    Ok(has_eos(alloc, longer.as_slice()))
}

// All bad strings give one fault. To name the flaw, halve for the shortest prefix with EOS; where there is
// none, append three octets of ones: if that completes EOS, the padding was all ones.
/// What is wrong with the octets of a string, if anything is. `AllocError` where memory was refused.
fn flaw_of<A: Allocator + Copy>(
    alloc: A,
    huffman: bool,
    octets: &[u8],
) -> Result<Option<Flaw>, AllocError> {
    if !huffman {
        return Ok(None);
    }
    match fault_in(alloc, octets) {
        Some(HuffFault::Eos) => Ok(Some(Flaw::Eos(end_of_eos(alloc, octets)))),
        Some(HuffFault::Padding) => {
            if ends_with_ones(alloc, octets)? {
                Ok(Some(Flaw::Long))
            } else {
                Ok(Some(Flaw::NotOnes))
            }
        }
        _ => Ok(None),
    }
}

/// How many bits of its first octet are of a literal's index (RFC 7541, 6.2).
fn prefix_of(first: u8) -> u8
    ensures { (1 ≤ result) × (result ≤ 8) }
{
    if first >= 64 { 6 } else { 4 }
}

/// Puts last what is wrong with a string.
fn say_flaw<A: Allocator>(flaw: Flaw, octets: &[u8], out: &mut TextBuilder<A>) {
    say_all!(out; " is a Huffman string of ", OctetCount(octets.len() as u64));
    match flaw {
        Flaw::Eos(place) => say_all!(out; " that has EOS: its code ends in octet ", place),
        Flaw::Long => say_all!(out; " with more than 7 bits of padding"),
        Flaw::NotOnes => {
            let last = octets.last().copied().unwrap_or(0);
            say_all!(out; " whose padding, at the end of ", HexOctet(last), ", has a 0 in it");
        }
    }
}

/// Puts last which field it is, if those before it are all shown.
fn say_place<A: Allocator + Copy>(context: &ErrorContext<'_, '_, A>, out: &mut TextBuilder<A>) {
    if context.fields().decoded().list_size() <= 65536 {
        say_all!(out; " of the ", Ordinal(context.fields().len().saturating_add(1)), " field");
    }
}

/// Puts the name of a literal last, after a comma, if it is known.
fn say_name<A: Allocator + Copy>(
    alloc: A,
    name: NameIs<'_>,
    context: &ErrorContext<'_, '_, A>,
    out: &mut TextBuilder<A>,
) {
    match name {
        NameIs::Index(index) => {
            if let Some(name) = context.table.name_at(index) {
                say_all!(out; ", ", Cut(name), ",");
            }
        }
        NameIs::Text(false, octets) => say_all!(out; ", ", Cut(octets), ","),
        NameIs::Text(true, octets) => match huff_read(alloc, octets) {
            Ok(name) => say_all!(out; ", ", Cut(name.as_slice()), ","),
            Err(_) => {}
        },
    }
}

/// The sentence of a value.
fn say_value<A: Allocator + Copy>(
    alloc: A,
    name: NameIs<'_>,
    octets: &[u8],
    context: &ErrorContext<'_, '_, A>,
    out: &mut TextBuilder<A>,
) -> bool {
    let StrAt::Whole(huffman, value, _) = find_str(octets) else {
        return false;
    };
    match flaw_of(alloc, huffman, value) {
        Ok(Some(flaw)) => {
            say_all!(out; "the value");
            say_place(context, out);
            say_name(alloc, name, context, out);
            say_flaw(flaw, value, out);
            true
        }
        Ok(None) | Err(_) => false,
    }
}

/// The sentence of a literal whose name is a string: of the name, or else of the value.
fn say_named<A: Allocator + Copy>(
    alloc: A,
    octets: &[u8],
    context: &ErrorContext<'_, '_, A>,
    out: &mut TextBuilder<A>,
) -> bool {
    let StrAt::Whole(huffman, name, used) = find_str(octets) else {
        return false;
    };
    match flaw_of(alloc, huffman, name) {
        Ok(Some(flaw)) => {
            say_all!(out; "the name");
            say_place(context, out);
            say_flaw(flaw, name, out);
            true
        }
        Ok(None) => {
            let name = NameIs::Text(huffman, name);
            say_value(alloc, name, behind(octets, used), context, out)
        }
        Err(_) => false,
    }
}

/// The sentence of a Huffman string that is refused: that of the literal at which decoding stopped.
pub(crate) fn say_huffman<A: Allocator + Copy>(
    alloc: A,
    cause: Cause,
    context: &ErrorContext<'_, '_, A>,
    out: &mut TextBuilder<A>,
) -> bool {
    let Cause::HuffmanString = cause else {
        return false;
    };
    let octets = context.reader.rest();
    let Some(first) = octets.first() else {
        return false;
    };
    match read_int(prefix_of(*first), octets) {
        IntRead::Whole(0, used) => say_named(alloc, behind(octets, used), context, out),
        IntRead::Whole(index, used) => say_value(
            alloc,
            NameIs::Index(index),
            behind(octets, used),
            context,
            out,
        ),
        IntRead::More | IntRead::TooLong => false,
    }
}
