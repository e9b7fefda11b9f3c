//! What a text that is no hex looks like, as far as the ways are known in which people have octets at hand. Definition:
//! `specs/Capture.antt`.

ghost use Rattle.std.specs.Prelude.{◌≡◌};
ghost use Rattle.h2_cmd_messages.specs.Capture.{is_capture};

use crate::place::{are_hex_digits, up_to};
use h2_spec::frames::type_named;
use h2_spec::octets::first_octets;

/// What a text looks like.
#[derive(Clone, Copy)]
pub(crate) enum Look {
    /// It begins with a mark of byte order.
    Mark,
    /// A script of frames.
    Script,
    /// Several cases.
    Cases,
    /// A capture of packets: a file of tcpdump, tshark or Wireshark.
    Capture,
    /// What tshark prints of a capture, but for its octets.
    Listing,
    /// What tshark prints of the octets of a TCP or TLS stream.
    Followed,
    /// The log of a client.
    Log,
    /// The octets themselves.
    Octets,
    /// A dump whose lines begin with offsets.
    Offsets,
    /// Hex digits after `0x`.
    Prefix,
    /// Hex digits after `\x`.
    Escape,
    /// Hex digits with something between them.
    Separator,
    /// None of these.
    Other,
}

/// How many lines of a text are looked at.
const LINES: usize = 100;

/// What a text looks like in which the octet at a place is no hex digit.
pub(crate) fn look_of(text: &[u8], at: usize) -> Look {
    match look_of_whole(text) {
        Look::Other => look_at(text, at),
        look => look,
    }
}

/// What a text that is no hex looks like, by its first lines.
fn look_of_whole(text: &[u8]) -> Look {
    if is_capture(text) {
        Look::Capture
    } else if has_mark(text) {
        Look::Mark
    } else if is_script(text) {
        if has_titles(text) {
            Look::Cases
        } else {
            Look::Script
        }
    } else if text.iter().any(|octet| is_control(*octet)) {
        Look::Octets
    } else if has_followed(text) {
        Look::Followed
    } else if has_log(text) {
        Look::Log
    } else if has_offsets(text) || is_dump_line(first_line(text)) {
        Look::Offsets
    } else if has_listed(text) {
        Look::Listing
    } else if is_message(first_line(text)) || std::str::from_utf8(text).is_err() {
        Look::Octets
    } else {
        Look::Other
    }
}

/// What octets look like that are no beginning of a connection, nor of another protocol: a capture, or a text.
pub(crate) fn look_of_octets(octets: &[u8]) -> Look {
    match look_of_whole(octets) {
        Look::Octets => Look::Other,
        look => look,
    }
}

/// Whether octets begin as a capture of packets does: as pcap in both orders, in microseconds or in nanoseconds, or as pcapng.
pub fn is_capture(octets: &[u8]) -> bool
    ensures { result ≡ is_capture octets.now }
{
    octets.starts_with(b"\xd4\xc3\xb2\xa1".as_slice())
        || octets.starts_with(b"\xa1\xb2\xc3\xd4".as_slice())
        || octets.starts_with(b"\x4d\x3c\xb2\xa1".as_slice())
        || octets.starts_with(b"\xa1\xb2\x3c\x4d".as_slice())
        || octets.starts_with(b"\x0a\x0d\x0d\x0a".as_slice())
}

/// Whether one of the first lines of a text begins what tshark prints for `-z follow`.
fn has_followed(text: &[u8]) -> bool {
    let mut lines = text.split(|octet| *octet == b'\n').take(LINES);
    lines.any(|line| line.starts_with(b"Follow: ".as_slice()))
}

/// What lines of a client's log begin with: `curl --trace` and `curl -v`; `nghttp -v` has the time between brackets.
static LOGGED: [&str; 8] = [
    "== Info: ",
    "=> Send ",
    "<= Recv ",
    "* ",
    "> ",
    "< ",
    "[  ",
    "[INFO]",
];

/// Whether a line begins as one of a client's log.
fn is_log(line: &[u8]) -> bool {
    LOGGED
        .iter()
        .any(|front| line.starts_with(front.as_bytes()))
}

/// Whether one of the first lines of a text is one of a client's log.
fn has_log(text: &[u8]) -> bool {
    let mut lines = text.split(|octet| *octet == b'\n').take(LINES);
    lines.any(|line| is_log(line))
}

/// Whether a line is one of tshark's list of packets, or begins its JSON.
fn is_listed(line: &[u8]) -> bool {
    line == b"[".as_slice()
        || line.split(|octet| *octet == b' ').any(|word| word == b"TCP".as_slice()
            || word == b"HTTP2".as_slice())
}

/// Whether one of the first lines of a text is one of tshark's list of packets.
fn has_listed(text: &[u8]) -> bool {
    let mut lines = text.split(|octet| *octet == b'\n').take(LINES);
    lines.any(|line| is_listed(line))
}

/// Whether more than one of the first lines of a text is the title of a case.
fn has_titles(text: &[u8]) -> bool {
    let lines = text.split(|octet| *octet == b'\n').take(LINES);
    lines
        .filter(|line| line.starts_with(b";# ".as_slice()))
        .count()
        > 1
}

/// What the neighbours of an octet tell that is no hex digit.
fn look_at(text: &[u8], at: usize) -> Look {
    let before = text.get(at.wrapping_sub(1)).copied();
    match (before, text.get(at).copied()) {
        (Some(b'0'), Some(b'x' | b'X')) => Look::Prefix,
        (_, Some(b'\\')) => Look::Escape,
        (_, Some(b':' | b'-' | b',' | b'_')) => Look::Separator,
        _ => Look::Other,
    }
}

/// Whether a text begins with a mark of byte order, in UTF-8 or UTF-16.
fn has_mark(text: &[u8]) -> bool {
    text.starts_with(b"\xef\xbb\xbf".as_slice())
        || text.starts_with(b"\xff\xfe".as_slice())
        || text.starts_with(b"\xfe\xff".as_slice())
}

/// Whether a line is the first one of a request or of a response, as it is on the wire.
fn is_message(line: &[u8]) -> bool {
    line.split(|octet| *octet == b' ')
        .any(|word| word.starts_with(b"HTTP/".as_slice()))
}

/// Whether an octet is in no text.
fn is_control(octet: u8) -> bool {
    octet == 127 || (octet < 32 && octet != b'\t' && octet != b'\n' && octet != b'\r')
}

/// The number of a frame type, by its name.
pub fn type_number(name: &[u8]) -> Option<u8> {
    type_named(name, None)
}

/// Whether the first line that is not empty is one of a script.
fn is_script(text: &[u8]) -> bool {
    for line in text.split(|octet| *octet == b'\n').take(LINES) {
        if !line.is_empty() {
            return line.starts_with(b";".as_slice()) || is_script_word(first_word(line));
        }
    }
    false
}

/// Whether a line of a script can begin with this word.
fn is_script_word(word: &[u8]) -> bool {
    word == b"PREFACE".as_slice() || word == b"RAW".as_slice() || type_number(word).is_some()
}

/// What precedes the first blank of a line.
fn first_word(line: &[u8]) -> &[u8] {
    up_to(up_to(line, b' '), b'\r')
}

/// What precedes the first line feed.
fn first_line(text: &[u8]) -> &[u8] {
    up_to(text, b'\n')
}

/// Whether a line begins with an offset of a dump, four digits or more, and `:` where it is one of xxd; or shows its octets as
/// text between bars, as `hexdump -C` does; or has an octet after its offset, as those of Wireshark do.
fn is_dump_line(line: &[u8]) -> bool {
    let word = first_word(line);
    let is_marked = word.last().copied() == Some(b':') || line.contains(&b'|') || has_octet(line);
    let digits = match word.strip_suffix(b":".as_slice()) {
        Some(digits) => digits,
        None => word,
    };
    is_marked && digits.len() >= LEAST && are_hex_digits(digits)
}

/// How many digits an offset has at least.
const LEAST: usize = 4;

/// Whether the second word of a line is an octet, as two hex digits.
fn has_octet(line: &[u8]) -> bool {
    let mut words = line
        .split(|octet| *octet == b' ')
        .filter(|word| !word.is_empty());
    match (words.next(), words.next()) {
        (Some(_), Some(second)) => second.len() == 2 && are_hex_digits(second),
        _ => false,
    }
}

/// How many octets a line is looked at for its offset: 15 digits, a colon, and the blank after it.
const OFFSET: usize = 17;

/// Whether the first line that is not empty begins with the offset 0, as it does in a dump. Only then are lines read to
/// their ends: a line of hex may have all octets of an input.
fn begins_at_zero(text: &[u8]) -> bool {
    let start = text.iter().position(|octet| *octet != b'\n');
    let front = first_octets(text.get(start.unwrap_or(0)..).unwrap_or(text), OFFSET);
    offset_in(first_word(first_line(front)), 16) == Some(0)
}

// Octets may look like offsets in hex, so such a dump is read as hex all the same, with a warning.
/// Whether each line of a text begins with its offset, which grows by 16, in hex, octal or decimal digits. A line of a dump
/// has 16 octets; the last line may be a bare offset.
pub fn has_offsets(text: &[u8]) -> bool {
    begins_at_zero(text) && (grows(text, 16) || grows(text, 8) || grows(text, 10))
}

/// Whether each line of a text begins with its offset in this base, which grows by 16.
fn grows(text: &[u8], base: u64) -> bool {
    let mut expected = 0u64;
    let mut lines = 0usize;
    for line in text.split(|octet| *octet == b'\n').take(LINES) {
        if line.is_empty() {
            continue;
        }
        let offset = offset_in(first_word(line), base);
        if offset != Some(expected) {
            return lines >= 2 && offset.is_some();
        }
        lines = lines.saturating_add(1);
        expected = expected.saturating_add(16);
    }
    lines >= 2
}

/// The value of a digit of this base.
fn digit_value(octet: u8, base: u64) -> Option<u64> {
    let value = match octet {
        b'0'..=b'9' => octet.saturating_sub(b'0'),
        b'a'..=b'f' => octet.saturating_sub(b'a').saturating_add(10),
        _ => return None,
    };
    let value = u64::from(value);
    if value < base { Some(value) } else { None }
}

/// The number that four digits or more of this base spell, with `:` after them or not.
fn offset_in(word: &[u8], base: u64) -> Option<u64> {
    let word = match word.strip_suffix(b":".as_slice()) {
        Some(digits) => digits,
        None => word,
    };
    if word.len() < LEAST || word.len() > 15 {
        return None;
    }
    let mut number = 0u64;
    for octet in word {
        let digit = digit_value(*octet, base)?;
        number = number.saturating_mul(base).saturating_add(digit);
    }
    Some(number)
}
