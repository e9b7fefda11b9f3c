//! What is between the quotes of a JSON string (RFC 8259, 7): characters from a blank to `~`, and escapes of all others.
//! No definition speaks of it.

use crate::plain::is_all_plain;
use crate::say::{Hex, Say, TextBuilder};
use crate::say_all;
use std::alloc::Allocator;

/// The escapes of the first 32 characters, in their order.
static ESCAPES: [&str; 32] = [
    "\\u0000", "\\u0001", "\\u0002", "\\u0003", "\\u0004", "\\u0005", "\\u0006", "\\u0007", "\\b",
    "\\t", "\\n", "\\u000b", "\\f", "\\r", "\\u000e", "\\u000f", "\\u0010", "\\u0011", "\\u0012",
    "\\u0013", "\\u0014", "\\u0015", "\\u0016", "\\u0017", "\\u0018", "\\u0019", "\\u001a",
    "\\u001b", "\\u001c", "\\u001d", "\\u001e", "\\u001f",
];

/// The escape of an ASCII character of a text; none where it is written as it is.
fn escape_of(octet: u8) -> Option<&'static str> {
    match octet {
        b'"' => Some("\\\""),
        b'\\' => Some("\\\\"),
        127 => Some("\\u007f"),
        _ => ESCAPES.get(usize::from(octet)).copied(),
    }
}

/// Puts an ASCII character of a text last, or its escape.
fn say_octet<A: Allocator>(octet: u8, out: &mut TextBuilder<A>) {
    match escape_of(octet) {
        Some(escape) => out.text(escape),
        None => out.octet(octet),
    }
}

/// Puts the escape of a code unit of UTF-16 last.
fn say_unit<A: Allocator>(unit: u16, out: &mut TextBuilder<A>) {
    say_all!(out; "\\u", Hex(&unit.to_be_bytes()));
}

/// Puts a character of a text last, or its escape: that of one above U+FFFF is a pair.
fn say_character<A: Allocator>(character: char, out: &mut TextBuilder<A>) {
    if character.is_ascii() {
        say_octet(character as u8, out);
        return;
    }
    let mut space = [0u16; 2];
    for unit in character.encode_utf16(&mut space) {
        say_unit(*unit, out);
    }
}

/// A text as the value of a JSON string.
#[derive(Clone, Copy)]
pub struct JsonText<'a> {
    /// In UTF-8.
    octets: &'a [u8],
    /// The same, unless it is known that no character is escaped.
    text: Option<&'a str>,
}

impl<'a> JsonText<'a> {
    /// A text.
    pub fn new(text: &'a str) -> Self {
        let octets = text.as_bytes();
        let text = if is_all_plain(octets) {
            None
        } else {
            Some(text)
        };
        Self { octets, text }
    }

    /// The text of octets, none where they are not UTF-8.
    pub fn of(octets: &'a [u8]) -> Option<Self> {
        if is_all_plain(octets) {
            return Some(Self { octets, text: None });
        }
        match str::from_utf8(octets) {
            Ok(text) => Some(Self {
                octets,
                text: Some(text),
            }),
            Err(_) => None,
        }
    }
}

impl Say for JsonText<'_> {
    fn say<A: Allocator>(self, out: &mut TextBuilder<A>) {
        let Some(text) = self.text else {
            out.utf8(self.octets);
            return;
        };
        for character in text.chars() {
            say_character(character, out);
        }
    }
}

impl<A: Allocator> TextBuilder<A> {
    /// Escapes what was put from a place on, which is ASCII.
    pub fn escape_from(&mut self, start: usize) {
        if is_all_plain(self.octets_from(start)) {
            return;
        }
        let end = self.len();
        for place in start..end {
            if let Some(octet) = self.octet_at(place) {
                say_octet(octet, self);
            }
        }
        self.remove(start, end);
    }
}
