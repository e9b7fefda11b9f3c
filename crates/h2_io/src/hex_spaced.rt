//! White space passed over and dropped: the text after it, the digits before it, and the digits at the front of a text,
//! as many as a block takes. Definition: `is_digit` of `specs/HexText.antt`.

ghost use Rattle.std.specs.Prelude.{◌≡◌, ◌<◌, ◌≤◌, ◌∷◌, ◌++◌, [], filter, length, not, take};
ghost use Rattle.std.specs.List.{list_all};
ghost use Rattle.h2_io.specs.HexText.{is_digit, most_digits, octets_spelled};

use crate::hex_block::DIGITS;
use arrayvec::ArrayVec;
use h2_spec::octets::octets_from;

/// Digits without white space, as many as are decoded at a time.
pub(crate) type Digits = ArrayVec<u8, DIGITS>;

/// Whether an octet is a space, a tab, a carriage return or a line feed.
fn is_space(octet: u8) -> bool
    ensures { result ≡ not (is_digit octet) }
{
    octet == b' ' || octet == b'\t' || octet == b'\r' || octet == b'\n'
}

/// Whether a text begins with white space.
pub(crate) fn begins_with_space(text: &[u8]) -> bool
    ensures { result ≡ not (list_all is_digit (take 1 text.now)) }
{
    !text.is_empty() && is_space(text[0])
}

/// The text after the white space at its front.
#[tactic(auto, using(crate::proofs::HexBlocks::spaces))]
pub(crate) fn after_spaces(text: &[u8]) -> &[u8]
    ensures spelled { octets_spelled result.now ≡ octets_spelled text.now }
    ensures within { length result.now ≤ length text.now }
{
    let mut used = 0;
    while used < text.len() && is_space(text[used]) {
        used += 1;
    }
    octets_from(text, used)
}

/// How many digits a text has before its first white space, at most as many as are decoded at a time.
pub(crate) fn digits_ahead(text: &[u8]) -> usize
    ensures digits { filter is_digit (take result text.now) ≡ take result text.now }
    ensures within { result ≤ length text.now }
    ensures few { result ≤ most_digits }
{
    let most = text.len().min(DIGITS);
    let mut used = 0;
    while used < most && !is_space(text[used]) {
        used += 1;
    }
    used
}

/// Puts an octet after the others, unless it is white space.
fn keep_digit(digits: &mut Digits, octet: u8)
    requires { length digits.old.items < most_digits }
    ensures { digits.new.items ≡ digits.old.items ++ filter is_digit (octet ∷ []) }
{
    if !is_space(octet) {
        digits.push(octet);
    }
}

/// Takes the digits at the front of a text, as many as there is space for, and says how far that is in the text.
pub(crate) fn take_digits(text: &[u8], digits: &mut Digits) -> usize
    requires empty { digits.old.items ≡ [] }
    ensures digits { digits.new.items ≡ filter is_digit (take result text.now) }
    ensures within { result ≤ length text.now }
    ensures few { length digits.new.items ≤ most_digits }
    ensures whole { length digits.new.items < most_digits → result ≡ length text.now }
    ensures some { 0 < length text.now → 0 < result }
{
    let mut used = 0;
    while used < text.len() && !digits.is_full() {
        keep_digit(digits, text[used]);
        used += 1;
    }
    used
}
