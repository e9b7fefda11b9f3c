//! Why a text is no hex text: its first octet that is no hex digit, and what the text looks like; or an odd number of
//! digits.

use crate::dump::{Look, has_offsets, look_of, look_of_octets};
use crate::place::{InputSource, place_at};
use h2_io::say::{HexOctet, Say, TextBuilder};
use h2_io::say_all;
use h2_spec::octets::first_octets;
use std::alloc::Allocator;

/// Whether an octet is a space, a tab, a carriage return or a line feed.
fn is_space(octet: u8) -> bool {
    octet == b' ' || octet == b'\t' || octet == b'\r' || octet == b'\n'
}

/// An octet: between backquotes where it is printable, else as a number.
#[derive(Clone, Copy)]
struct Octet(u8);

impl Say for Octet {
    fn say<A: Allocator>(self, out: &mut TextBuilder<A>) {
        if (33..=126).contains(&self.0) {
            say_all!(out; '`', char::from(self.0), '`');
        } else {
            HexOctet(self.0).say(out);
        }
    }
}

/// What to do with a text that looks so.
fn advice(look: Look) -> &'static str {
    match look {
        Look::Mark => "it begins with a mark of byte order: save it without one",
        Look::Script => "it looks like a script: h2_bench asm writes its octets as hex",
        Look::Cases =>
            "it looks like several cases, and one is taken here: h2_bench check plays them all",
        Look::Capture =>
            "it looks like a capture of packets: tshark -r FILE -Y 'tcp.stream==0 && tcp.dstport==PORT' -T fields -e tcp.payload writes the client's octets as hex (docs/CAPTURE.md)",
        Look::Listing =>
            "it looks like tshark's list of packets: tshark -r FILE -Y 'tcp.stream==0 && tcp.dstport==PORT' -T fields -e tcp.payload writes the client's octets as hex (docs/CAPTURE.md)",
        Look::Followed =>
            "it looks like what tshark writes of a stream: tshark -r FILE -q -z follow,tcp,raw,0 | sed -n '/^[0-9a-f][0-9a-f]*$/p' writes the client's octets as hex (docs/CAPTURE.md)",
        Look::Log =>
            "it looks like the log of a client, which does not have the octets of the connection: h2_bench serve --record keeps them, and so does a capture (docs/CAPTURE.md)",
        Look::Octets =>
            "it looks like the octets themselves: add --raw, or write them as hex by xxd -p",
        Look::Offsets =>
            "it looks like a dump with offsets: explain and debug --in FILE read its octets where each offset is their number so far; else make it by xxd -p",
        Look::Prefix => "leave out each 0x, and each comma",
        Look::Escape => "leave out each \\x",
        Look::Separator => "leave out what is between the digits",
        Look::Other =>
            "the octets are given as pairs of hex digits, with blanks and line feeds anywhere",
    }
}

/// How many octets of a text are no white space.
pub fn digit_count(text: &[u8]) -> usize {
    text.iter().filter(|octet| !is_space(**octet)).count()
}

/// Whether an octet of a text is no white space.
pub fn has_digits(text: &[u8]) -> bool {
    text.iter().any(|octet| !is_space(*octet))
}

/// The place of the first octet that is neither a hex digit nor white space.
fn bad_digit(text: &[u8]) -> Option<usize> {
    text.iter()
        .position(|octet| !is_space(*octet) && !octet.is_ascii_hexdigit())
}

/// Says why a text is no hex text.
pub fn say_no_hex(source: InputSource<'_>, text: &[u8], out: &mut TextBuilder) {
    match bad_digit(text) {
        _ if text == UNCLEAR => say_unclear(source, out),
        Some(at) => say_bad_digit(source, text, at, out),
        None => say_odd(source, text, out),
    }
}

/// Says that a text, or octets, are a capture.
pub fn say_capture(source: InputSource<'_>, out: &mut TextBuilder) {
    say_all!(out; source, ": ", advice(Look::Capture), ".\n");
}

/// Says which octet of a text is no hex digit, and what to do.
fn say_bad_digit(source: InputSource<'_>, text: &[u8], at: usize, out: &mut TextBuilder) {
    let octet = Octet(text.get(at).copied().unwrap_or(0));
    match look_of(text, at) {
        Look::Capture => say_capture(source, out),
        look =>
            say_all!(out; source, ", ", place_at(text, at), ": ", octet, " is no hex digit; ", advice(look), ".\n"),
    }
}

/// What to do with an odd number of digits.
fn odd_advice(text: &[u8]) -> &'static str {
    if has_offsets(text) {
        advice(Look::Offsets)
    } else {
        "an octet is two digits"
    }
}

/// Says that there is an odd number of digits, and what to do.
fn say_odd(source: InputSource<'_>, text: &[u8], out: &mut TextBuilder) {
    let digits = digit_count(text);
    let last = text
        .iter()
        .rposition(|octet| !is_space(*octet))
        .unwrap_or(0);
    say_all!(
        out;
        source,
        ", ",
        place_at(text, last),
        ": the last of ",
        digits,
        " hex digits, an odd number; ",
        odd_advice(text),
        ".\n"
    );
}

/// What is given instead of a dump with offsets whose octets are not clear: no hex text.
pub const UNCLEAR: &[u8] = b"(a dump whose octets are not clear)";

/// Says that a text was read as hex that looks like a dump with offsets.
fn say_offsets(source: InputSource<'_>, out: &mut TextBuilder) {
    say_all!(out; source, ": each line begins with a number that grows by 16, so this looks like a dump with offsets; they were read as octets too: explain and debug --in FILE read its octets where each offset is their number so far; else make it by xxd -p.\n");
}

/// Says that a text is a dump with offsets whose octets are not clear.
fn say_unclear(source: InputSource<'_>, out: &mut TextBuilder) {
    say_all!(out; source, ": it looks like a dump with offsets, and its octets are not clear, as in words that are turned around: make it by xxd -p.\n");
}

/// How many octets are looked at.
const FRONT: usize = 4096;

/// The value of a hex digit.
fn digit_of(octet: u8) -> Option<u8> {
    let value = char::from(octet).to_digit(16)?;
    u8::try_from(value).ok()
}

/// Puts the first octets that a hex text writes into `octets`, and gives how many they are.
fn put_front(text: &[u8], octets: &mut [u8]) -> usize {
    let mut digits = text.iter().filter_map(|octet| digit_of(*octet));
    let mut count = 0usize;
    for place in octets {
        let (Some(high), Some(low)) = (digits.next(), digits.next()) else {
            return count;
        };
        *place = high << 4 | low;
        count = count.saturating_add(1);
    }
    count
}

/// Says what is strange about octets that were taken: there are none, or they look like a capture or a text and no connection.
pub fn say_octets(source: InputSource<'_>, octets: &[u8], out: &mut TextBuilder) {
    let octets = first_octets(octets, FRONT);
    if octets.is_empty() {
        say_all!(out; source, ": no octets.\n");
    }
    if octets.starts_with(b"PRI".as_slice()) || octets.len() < 4 {
        return;
    }
    if bad_digit(octets).is_none() {
        say_all!(out; source, ": its octets are hex digits themselves: leave out --raw.\n");
        return;
    }
    match look_of_octets(octets) {
        Look::Other | Look::Mark => {}
        look => say_all!(out; source, ": its octets are no connection; ", advice(look), ".\n"),
    }
}

/// Says what is strange about a hex text that was taken.
pub fn say_warnings(source: InputSource<'_>, text: &[u8], out: &mut TextBuilder) {
    if has_offsets(text) {
        say_offsets(source, out);
        return;
    }
    let mut front = [0; FRONT];
    let count = put_front(text, &mut front);
    say_octets(source, first_octets(&front, count), out);
}
