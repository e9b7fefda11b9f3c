//! Hex text: pairs of hex digits, with white space (space, tab, carriage return, line feed) anywhere between digits.
//! Each line of text is decoded as it is, and a text without lines block by block; only where that fails, white space
//! is dropped into a block of its own first. How many digits are tried is what the line before had, so that lines of
//! the same length, as other programs write them, cost what one long line does. Definition: `octets_spelled` of
//! `specs/HexText.antt`.

ghost use Rattle.std.specs.Prelude.{◌≡◌, ◌<◌, ◌≤◌, [], Some, None, drop, false, is_some, length, option_map, take, true, IfNone, IfOk, IfSome, OnErr};
ghost use Rattle.h2_io.specs.HexText.{all_in_front, most_digits, most_octets, octets_spelled};

use crate::hex_block::{DIGITS, OCTETS, decode_block};
use crate::hex_spaced::{Digits, after_spaces, begins_with_space, digits_ahead, take_digits};
use h2_spec::octets::{octets_from, octets_up_to};
use std::alloc::{AllocError, Allocator};

/// Decodes the digits at the front of a text into a block, white space dropped; says how far that is in the text, and
/// how many octets they are. `None` where the text is no hex.
#[tactic(auto, using(crate::proofs::HexBlocks::spelled))]
fn decode_spaced(text: &[u8], block: &mut [u8]) -> Option<(usize, usize)>
    requires some { 0 < length text.now }
    requires block { length block.old ≡ most_octets }
    ensures spelled { IfSome result (λ x. octets_spelled text.now ≡ all_in_front (take x.1 block.new) (octets_spelled (drop x.0 text.now))) }
    ensures within { IfSome result (λ x. (0 < x.0) × (x.0 ≤ length text.now) × (x.1 ≤ most_octets)) }
    ensures none { IfNone result (octets_spelled text.now ≡ None) }
    ensures same { length block.new ≡ length block.old }
{
    let mut digits = Digits::new();
    let used = take_digits(text, &mut digits);
    match decode_block(digits.as_slice(), block) {
        Some(count) => Some((used, count)),
        None => None,
    }
}

/// The least digits of a line that are decoded as they are; before fewer white space is dropped.
const LINE: usize = 16;

/// As `decode_spaced`, for the digits before the first white space, as they are; if there are only few, or they are no pairs, white
/// space is dropped.
#[tactic(auto, using(crate::proofs::HexBlocks::spelled))]
fn decode_line(text: &[u8], block: &mut [u8]) -> Option<(usize, usize)>
    requires some { 0 < length text.now }
    requires block { length block.old ≡ most_octets }
    ensures spelled { IfSome result (λ x. octets_spelled text.now ≡ all_in_front (take x.1 block.new) (octets_spelled (drop x.0 text.now))) }
    ensures within { IfSome result (λ x. (0 < x.0) × (x.0 ≤ length text.now) × (x.1 ≤ most_octets)) }
    ensures none { IfNone result (octets_spelled text.now ≡ None) }
    ensures same { length block.new ≡ length block.old }
{
    let used = digits_ahead(text);
    if used < LINE {
        return decode_spaced(text, block);
    }
    match decode_block(octets_up_to(text, used), block) {
        Some(count) => Some((used, count)),
        None => decode_spaced(text, block),
    }
}

/// As `decode_spaced`, for the octets of this width as they are, if there is no white space among them.
#[tactic(auto, using(crate::proofs::HexBlocks::spelled))]
fn decode_front(text: &[u8], width: usize, block: &mut [u8]) -> Option<(usize, usize)>
    requires some { 0 < length text.now }
    requires width { 0 < width }
    requires few { width ≤ most_digits }
    requires block { length block.old ≡ most_octets }
    ensures spelled { IfSome result (λ x. octets_spelled text.now ≡ all_in_front (take x.1 block.new) (octets_spelled (drop x.0 text.now))) }
    ensures within { IfSome result (λ x. (0 < x.0) × (x.0 ≤ length text.now) × (x.1 ≤ most_octets)) }
    ensures none { IfNone result (octets_spelled text.now ≡ None) }
    ensures same { length block.new ≡ length block.old }
{
    let used = text.len().min(width);
    match decode_block(octets_up_to(text, used), block) {
        Some(count) => Some((used, count)),
        None => decode_line(text, block),
    }
}

/// How many digits are tried next: as many as were used where a line ends with them, else as many as are decoded at a time.
fn width_after(used: usize, rest: &[u8]) -> usize
    requires { 0 < used }
    ensures some { 0 < result }
    ensures few { result ≤ most_digits }
{
    if begins_with_space(rest) {
        used.min(DIGITS)
    } else {
        DIGITS
    }
}

/// Whether a text without white space is pairs of hex digits, in either case. Takes no memory.
#[tactic(auto, using(crate::proofs::HexBlocks::texts))]
pub fn is_hex_text(text: &[u8]) -> bool
    ensures { result ≡ is_some (octets_spelled text.now) }
{
    let mut block = [0; OCTETS];
    let mut width = DIGITS;
    let mut rest = after_spaces(text);
    while !rest.is_empty() {
        let Some((used, _)) = decode_front(rest, width, &mut block) else {
            return false;
        };
        let after = octets_from(rest, used);
        width = width_after(used, after);
        rest = after_spaces(after);
    }
    true
}

/// Puts the octets that a text spells into a list; false where it is no hex.
#[tactic(auto, using(crate::proofs::HexBlocks::texts))]
fn decode_text<A: Allocator>(text: &[u8], octets: &mut Vec<u8, A>) -> Result<bool, AllocError>
    requires { octets.old.items ≡ [] }
    ensures hex { IfOk result (λ is_hex. is_hex ≡ true → octets_spelled text.now ≡ Some octets.new.items) }
    ensures none { IfOk result (λ is_hex. is_hex ≡ false → octets_spelled text.now ≡ None) }
{
    octets.reserve(text.len() / 2)?;
    let mut block = [0; OCTETS];
    let mut width = DIGITS;
    let mut rest = after_spaces(text);
    while !rest.is_empty() {
        let Some((used, count)) = decode_front(rest, width, &mut block) else {
            return Ok(false);
        };
        octets.extend_from_slice(octets_up_to(&block, count))?;
        let after = octets_from(rest, used);
        width = width_after(used, after);
        rest = after_spaces(after);
    }
    Ok(true)
}

/// The octets that a hex text spells, white space dropped; `None` where it is no hex.
///
/// `AllocError` where memory is refused, and only for a text that is hex.
pub fn read_hex<A: Allocator>(alloc: A, text: &[u8]) -> Result<Option<Vec<u8, A>>, AllocError>
    ensures ok { IfOk result (λ octets. option_map (λ o. o.items) octets ≡ octets_spelled text.now) }
    ensures err { OnErr result (is_some (octets_spelled text.now) ≡ true) }
{
    let mut octets = Vec::new(alloc);
    match decode_text(text, &mut octets) {
        Ok(true) => Ok(Some(octets)),
        Ok(false) => Ok(None),
        Err(refused) if is_hex_text(text) => Err(refused),
        Err(_) => Ok(None),
    }
}
