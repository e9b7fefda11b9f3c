//! A dump with offsets as the input of `explain FILE` and `debug --in FILE`: its octets are read, without the offsets
//! before them and the text beside them, where no others can be meant.

ghost use Rattle.std.specs.Prelude.{◌≤◌};

use std::alloc::{AllocError, Global};

/// How many digits the octets of a line have at most.
const DIGITS: usize = 32;

/// What is between the octets of a line and the text beside them, where the line is no full one.
const GAP: &str = "   ";

/// Whether a word is hex digits: those of an octet, or of two beside an offset that is marked, as xxd groups them. Without
/// the mark they may be a number whose octets are turned around.
fn is_octets(word: &str, is_marked: bool) -> bool {
    (word.len() == 2 || (is_marked && word.len() == 4))
        && word
            .as_bytes()
            .iter()
            .all(|digit| digit.is_ascii_hexdigit())
}

/// Appends the digits of a line's octets, which precede the text beside them; says whether they are clear.
fn add_octets(line: &str, is_marked: bool, digits: &mut Vec<u8>) -> Result<bool, AllocError> {
    let octets = match line.split_once(GAP) {
        Some((octets, _)) => octets,
        None => line,
    };
    let full = digits.len().saturating_add(DIGITS);
    for word in octets.split(' ') {
        if digits.len() >= full {
            return Ok(true);
        }
        if is_octets(word, is_marked) {
            digits.extend_from_slice(word.as_bytes())?;
        } else if !word.is_empty() {
            return Ok(false);
        }
    }
    Ok(true)
}

/// Appends the digits of a line whose offset, in this base, has to be the number of octets so far; says whether it is.
fn add_line(line: &str, base: u32, digits: &mut Vec<u8>) -> Result<bool, AllocError>
    requires lower { 2 ≤ base }
    requires upper { base ≤ 36 }
{
    let (word, octets) = match line.split_once(' ') {
        Some((word, octets)) => (word, octets.trim_start()),
        None => (line, ""),
    };
    let (offset, is_marked) = match word.strip_suffix(':') {
        Some(offset) => (offset, true),
        None => (word, false),
    };
    match usize::from_str_radix(offset, base) {
        Ok(octet) if offset.len() >= 4 && octet == digits.len() / 2 => {
            add_octets(octets, is_marked, digits)
        }
        _ => Ok(false),
    }
}

/// The octets of a dump with offsets in this base, as hex; `None` where a text is none.
fn dump_in(alloc: Global, text: &str, base: u32) -> Result<Option<Vec<u8>>, AllocError>
    requires lower { 2 ≤ base }
    requires upper { base ≤ 36 }
{
    let mut digits = Vec::new(alloc);
    let mut count = 0usize;
    for line in text.lines() {
        let line = line.trim();
        if !line.is_empty() {
            if !add_line(line, base, &mut digits)? {
                return Ok(None);
            }
            count = count.saturating_add(1);
        }
    }
    Ok(if count >= 2 && !digits.is_empty() {
        Some(digits)
    } else {
        None
    })
}

/// The octets of a dump, as hex; `None` where a text is none, or its octets are not clear. Offsets are in hex, in octal or
/// in decimal digits.
pub(crate) fn hex_of_dump(alloc: Global, text: &str) -> Result<Option<Vec<u8>>, AllocError> {
    if let Some(digits) = dump_in(alloc, text, 16)? {
        return Ok(Some(digits));
    }
    if let Some(digits) = dump_in(alloc, text, 8)? {
        return Ok(Some(digits));
    }
    dump_in(alloc, text, 10)
}
