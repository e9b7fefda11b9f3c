//! The words of a line: parts between octets, octets in hex, the text of a string. The definitions are in `h2_spec`,
//! specs/Texts/Assemble.antt, under the same names.

ghost use Rattle.std.specs.Prelude.{◌≡◌, ◌≤◌, ◌==◌, ◌<◌, ◌+◌, length, bytes_eq, drop, take, option_map, position, IfOk, IfSome};
ghost use Rattle.std.specs.List.{position_or_len};
ghost use Rattle.h2_spec.specs.Texts.Assemble.{before, behind, octets_at, onwards, unescaped};
ghost use Rattle.h2_spec.specs.Texts.Script.{cut_at, is_plain};
ghost use Rattle.h2_script.specs.Characters.{character_at};

use h2_io::{octet_of, octets_of};
use h2_spec::octets::octets_from;
use std::alloc::{AllocError, Allocator};

/// Whether a text is this word.
pub(crate) fn is_word(text: &[u8], word: &[u8]) -> bool
    ensures { result ≡ bytes_eq text.now word.now }
{
    text == word
}

/// Where an octet first is.
fn place_of(text: &[u8], octet: u8) -> Option<usize>
    ensures { result ≡ position (λ b. b == octet) text.now }
{
    text.iter().position(|b| *b == octet)
}

/// What precedes an octet's first place, and what follows it.
pub(crate) fn cut(text: &[u8], octet: u8) -> Option<(&[u8], &[u8])>
    ensures { option_map (λ p. (p.0.now, p.1.now)) result ≡ cut_at octet text.now }
{
    match place_of(text, octet) {
        Some(at) => Some((&text[..at], &text[at + 1..])),
        None => None,
    }
}

/// Where an octet first is, or the end of the text.
fn place_or_end(text: &[u8], octet: u8) -> usize
    ensures place { result ≡ position_or_len (λ b. b == octet) text.now }
    ensures within { result ≤ length text.now }
{
    place_of(text, octet).unwrap_or(text.len())
}

/// The text before an octet's first place, or all of it, and what begins there.
pub(crate) fn split_before(text: &[u8], octet: u8) -> (&[u8], &[u8])
    ensures before { result.0.now ≡ before octet text.now }
    ensures onwards { result.1.now ≡ onwards octet text.now }
{
    text.split_at(place_or_end(text, octet))
}

/// What follows an octet, where the text begins with it.
pub(crate) fn after(text: &[u8], octet: u8) -> Option<&[u8]>
    ensures { option_map (λ t. t.now) result ≡ behind octet text.now }
{
    if text.is_empty() || text[0] != octet {
        return None;
    }
    Some(&text[1..])
}

/// The octets that hex digits write, at least one octet.
#[tactic(auto, using(h2_io::proofs::HexRelations::same_octets))]
pub(crate) fn octets_at<A: Allocator>(
    alloc: A,
    text: &[u8],
) -> Result<Option<Vec<u8, A>>, AllocError>
    ensures { IfOk result (λ o. option_map (λ v. v.items) o ≡ octets_at text.now) }
{
    if text.is_empty() {
        return Ok(None);
    }
    octets_of(alloc, text)
}

/// The octets of a text between quotes: each is itself, or a backslash and two hex digits.
pub(crate) fn unescaped<A: Allocator>(
    alloc: A,
    text: &[u8],
) -> Result<Option<Vec<u8, A>>, AllocError>
    ensures { IfOk result (λ o. option_map (λ v. v.items) o ≡ unescaped text.now) }
{
    let mut octets = Vec::with_capacity(alloc, text.len())?;
    let mut at = 0;
    while at < text.len() {
        let Some((octet, used)) = character_at(octets_from(text, at)) else {
            return Ok(None);
        };
        octets.push(octet)?;
        at += used;
    }
    Ok(Some(octets))
}

/// The octet at the front of a text between quotes, and how many octets of the text it takes, 1 or 3.
fn character_at(text: &[u8]) -> Option<(u8, usize)>
    requires { 0 < length text.now }
    ensures octet { result ≡ character_at text.now }
    ensures within { IfSome result (λ c. (0 < c.1) × (c.1 ≤ length text.now)) }
{
    let first = text[0];
    if is_plain(first) {
        return Some((first, 1));
    }
    if first != b'\\' || text.len() < 3 {
        return None;
    }
    match octet_of(&text[1..3]) {
        Some(octet) => Some((octet, 3)),
        None => None,
    }
}

/// A printable ASCII octet other than a quote of either kind and the backslash.
pub(crate) fn is_plain(octet: u8) -> bool
    ensures { result ≡ is_plain octet }
{
    (0x20..=0x7e).contains(&octet) && octet != b'"' && octet != b'\'' && octet != b'\\'
}
