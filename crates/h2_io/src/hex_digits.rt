//! Digits with nothing between them: whether they are pairs of hex digits, and the octets that they write. Definitions:
//! `body_of` of h2_spec's specs/Requests/AnswerWords.antt, `octet_at` of its specs/Texts/Assemble.antt.

ghost use Rattle.std.specs.Prelude.{◌≡◌, is_some, option_map, true, IfOk, OnErr};
ghost use Rattle.h2_spec.specs.Requests.AnswerWords.{body_of};
ghost use Rattle.h2_spec.specs.Texts.Assemble.{octet_at};

use crate::hex_block::{DIGITS, OCTETS, decode_block};
use h2_spec::octets::{octets_from, octets_up_to};
use hex::{FromHex, FromHexError};
use std::alloc::{AllocError, Allocator};

/// Whether digits are pairs of hex digits, in either case; none at all are. Takes no memory.
#[tactic(auto, using(crate::proofs::HexBlocks::blocks))]
pub fn is_hex(digits: &[u8]) -> bool
    ensures { result ≡ is_some (body_of digits.now) }
{
    let mut block = [0; OCTETS];
    let mut rest = digits;
    while !rest.is_empty() {
        let count = rest.len().min(DIGITS);
        let Some(_octets) = decode_block(octets_up_to(rest, count), &mut block) else {
            return false;
        };
        rest = octets_from(rest, count);
    }
    true
}

/// The octets that pairs of hex digits write, in either case; `None` where the digits are no such pairs.
///
/// `AllocError` where memory is refused, and only for digits that are such pairs.
pub fn octets_of<A: Allocator>(alloc: A, digits: &[u8]) -> Result<Option<Vec<u8, A>>, AllocError>
    ensures ok { IfOk result (λ octets. option_map (λ o. o.items) octets ≡ body_of digits.now) }
    ensures err { OnErr result (is_some (body_of digits.now) ≡ true) }
{
    match hex::decode(alloc, digits) {
        Ok(octets) => Ok(Some(octets)),
        Err(FromHexError::OutOfMemory) if is_hex(digits) => Err(AllocError),
        Err(_) => Ok(None),
    }
}

/// The octet that two hex digits write; `None` where they are no two such digits.
pub fn octet_of(digits: &[u8]) -> Option<u8>
    ensures { result ≡ octet_at digits.now }
{
    match <[u8; 1] as FromHex>::from_hex(digits) {
        Ok(octets) => Some(octets[0]),
        Err(_) => None,
    }
}
