//! Where something is: in which input, and at which line, column and octet of it.

use h2_io::say::{Cut, Say, TextBuilder};
use h2_io::say_all;
use h2_spec::octets::first_octets;
use std::alloc::{Allocator, Global};

/// What was read: standard input, or the file at a path.
#[derive(Clone, Copy)]
pub enum InputSource<'a> {
    Input,
    File(&'a str),
}

impl<'a> InputSource<'a> {
    /// The file at a path; standard input where the path is empty.
    pub fn at(path: &'a str) -> InputSource<'a> {
        if path.is_empty() {
            InputSource::Input
        } else {
            InputSource::File(path)
        }
    }
}

impl Say for InputSource<'_> {
    fn say<A: Allocator>(self, out: &mut TextBuilder<A>) {
        match self {
            InputSource::Input => "standard input".say(out),
            InputSource::File(path) => Cut(path.as_bytes()).say(out),
        }
    }
}

/// What a command says of its input.
#[derive(Drop)]
pub struct Reasons<'a> {
    /// What the input is called.
    pub source: InputSource<'a>,
    /// The sentences, each a line.
    pub out: TextBuilder,
}

impl<'a> Reasons<'a> {
    /// Nothing yet; the input is the file at a path, or standard input where that is empty. Takes no memory.
    pub fn new(alloc: Global, path: &'a str) -> Reasons<'a> {
        Reasons {
            source: InputSource::at(path),
            out: TextBuilder::new(alloc),
        }
    }
}

/// A place in a text: its line, the octet of the line and the octet of the text, each counted from 1.
#[derive(Clone, Copy)]
pub struct TextPlace {
    /// The line.
    pub line: usize,
    /// The octet of the line.
    pub column: usize,
    /// The octet of the text.
    pub octet: usize,
}

impl Say for TextPlace {
    fn say<A: Allocator>(self, out: &mut TextBuilder<A>) {
        say_all!(out; "line ", self.line, ", column ", self.column, " (octet ", self.octet, ")");
    }
}

/// Whether all octets are decimal digits.
pub(crate) fn are_digits(text: &[u8]) -> bool {
    text.iter().all(|octet| octet.is_ascii_digit())
}

/// Whether all octets are hex digits.
pub(crate) fn are_hex_digits(text: &[u8]) -> bool {
    text.iter().all(|octet| octet.is_ascii_hexdigit())
}

/// What precedes the first octet of this value; all where there is none.
pub(crate) fn up_to(text: &[u8], end: u8) -> &[u8] {
    match text.iter().position(|octet| *octet == end) {
        Some(place) => first_octets(text, place),
        None => text,
    }
}

/// The place of an octet, by how many octets are before it.
pub fn place_at(text: &[u8], before: usize) -> TextPlace {
    let mut line = 1usize;
    let mut column = 1usize;
    for octet in first_octets(text, before) {
        if *octet == b'\n' {
            line = line.saturating_add(1);
            column = 1;
        } else {
            column = column.saturating_add(1);
        }
    }
    TextPlace {
        line,
        column,
        octet: before.saturating_add(1),
    }
}

/// A text between backquotes, cut and escaped.
#[derive(Clone, Copy)]
pub struct Quoted<'a>(pub &'a [u8]);

impl Say for Quoted<'_> {
    fn say<A: Allocator>(self, out: &mut TextBuilder<A>) {
        say_all!(out; '`', Cut(self.0), '`');
    }
}
