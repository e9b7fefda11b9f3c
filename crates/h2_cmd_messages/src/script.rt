//! What is wrong with a line of a script: its kind in words, and the place in the line.

use crate::place::{InputSource, Quoted, up_to};
use h2_io::say::{Say, TextBuilder};
use h2_io::{is_hex_text, say_all};
use h2_spec::scripts::SyntaxKind;
use memchr::{memchr, memchr_iter};

/// What a text has after this many line feeds; nothing where there are fewer.
fn after_lines(text: &[u8], count: usize) -> &[u8] {
    if count == 0 {
        return text;
    }
    match memchr_iter(b'\n', text).nth(count - 1) {
        Some(end) => text.get(end.saturating_add(1)..).unwrap_or(&[]),
        None => &[],
    }
}

/// The line with this number, from 1; empty where there are fewer.
pub(crate) fn line_of(text: &[u8], number: usize) -> &[u8] {
    let rest = after_lines(text, number.saturating_sub(1));
    match memchr(b'\n', rest) {
        Some(end) => rest.get(..end).unwrap_or(rest),
        None => rest,
    }
}

/// Which part of a line is at fault, from 0; 4 for what follows the last part.
fn part_of(kind: SyntaxKind, line: &[u8]) -> usize {
    if line.starts_with(b"RAW".as_slice()) {
        return 1;
    }
    match kind {
        SyntaxKind::Parts => 4,
        SyntaxKind::Name => 0,
        SyntaxKind::Flags => 1,
        SyntaxKind::Stream => 2,
        SyntaxKind::Payload | SyntaxKind::Size => 3,
    }
}

/// Where a part of a line begins: after this many blanks; at its end where there are fewer.
fn start_of(line: &[u8], part: usize) -> usize {
    let mut blanks = 0usize;
    for (at, octet) in line.iter().enumerate() {
        if blanks == part {
            return at;
        }
        if *octet == b' ' {
            blanks = blanks.saturating_add(1);
        }
    }
    line.len()
}

/// The part of a line that begins at a place: what precedes the next blank, and the whole rest of a payload.
fn part_at(line: &[u8], part: usize) -> &[u8] {
    let rest = match line.get(start_of(line, part)..) {
        Some(rest) => rest,
        None => &[],
    };
    if part == 3 {
        return rest;
    }
    up_to(rest, b' ')
}

/// What a part has to be.
fn rule(kind: SyntaxKind) -> &'static str {
    match kind {
        SyntaxKind::Parts =>
            "a line is PREFACE, RAW HEX, or NAME FLAGS STREAM PAYLOAD with one blank between them",
        SyntaxKind::Name =>
            "a frame type is DATA, HEADERS, PRIORITY, RST_STREAM, SETTINGS, PUSH_PROMISE, PING, GOAWAY, WINDOW_UPDATE, CONTINUATION, or T and two hex digits",
        SyntaxKind::Flags => "flags are two hex digits",
        SyntaxKind::Stream => "a stream is 0 to 2147483647, with R after it for the reserved bit",
        SyntaxKind::Payload => "a payload is -, xHEX, sID=VALUE,.., wN, cN, or hI,..",
        SyntaxKind::Size => "a payload has at most 16777215 octets",
    }
}

/// Says what is wrong with a line of a script.
pub fn say_bad_line(
    source: InputSource<'_>,
    text: &[u8],
    line: usize,
    kind: SyntaxKind,
    out: &mut TextBuilder,
) {
    let found = line_of(text, line);
    let part = part_of(kind, found);
    let column = start_of(found, part).saturating_add(1);
    say_all!(out; source, ", line ", line, ", column ", column, ": ");
    if part < 4 {
        say_all!(out; Quoted(part_at(found, part)), ": ");
    }
    say_all!(out; rule(kind));
    if is_hex_text(text) {
        say_all!(out; "; it looks like hex, of which h2_bench dis writes a script");
    }
    say_all!(out; ".\n");
}
