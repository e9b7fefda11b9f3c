//! The sentence that says why a book's file is refused: the file, the line of the key, the answer, what is wrong. Texts
//! of the file are cut and escaped as in `explain`. No definition speaks of it.

use crate::fault::{BookRefusal, Key};
use crate::header::{header_in, headers_in};
use crate::line::{line_of_answer, line_of_key};
use h2_cmd_messages::{Cut, Quoted, Say, TextBuilder, field_reason, file_reason, say_entry};
use h2_io::say_all;
use h2_request_book::fault::EntryFault;
use std::alloc::{AllocError, Global};
use toml::Value;

/// Where in a book's file something is wrong, and what is there.
#[derive(Clone, Copy)]
pub(crate) struct Where<'w> {
    /// The path of the book.
    path: &'w str,
    /// Its text; empty where that does not matter.
    text: &'w str,
    /// Which answer, from 1, of how many; 0 where none is at fault.
    answer: usize,
    answers: usize,
    /// What the answer says.
    value: Option<&'w Value>,
    /// The line, from 1, where it is known by itself; else 0.
    line: usize,
}

impl<'w> Where<'w> {
    /// The whole file.
    pub(crate) fn of_file(path: &'w str) -> Where<'w> {
        Where {
            path,
            text: "",
            answer: 0,
            answers: 0,
            value: None,
            line: 0,
        }
    }

    /// A line of the file; 0 where it is not known.
    pub(crate) fn of_line(path: &'w str, text: &'w str, line: usize) -> Where<'w> {
        Where {
            text,
            line,
            ..Where::of_file(path)
        }
    }

    /// An answer of the file, from 1, among these.
    pub(crate) fn of_answer(
        path: &'w str,
        text: &'w str,
        answer: usize,
        answers: &'w [Value],
    ) -> Where<'w> {
        Where {
            text,
            answer,
            answers: answers.len(),
            value: answers.get(answer.saturating_sub(1)),
            ..Where::of_file(path)
        }
    }

    /// What an answer has for a key.
    fn get(self, key: &str) -> Option<&'w Value> {
        match self.value {
            Some(value) => match value.as_table() {
                Some(table) => table.get(key),
                None => None,
            },
            None => None,
        }
    }

    /// The text that an answer has for a key; empty where it has none.
    fn text_at(self, key: &str) -> &'w str {
        match self.get(key) {
            Some(value) => value.as_str().unwrap_or(""),
            None => "",
        }
    }

    /// The integer that an answer has for `status`.
    fn status(self) -> i64 {
        match self.get("status") {
            Some(value) => value.as_integer().unwrap_or(0),
            None => 0,
        }
    }

    /// The line of what is wrong: that of the key where it has one of its own, else that of the answer.
    fn line(self, cause: &BookRefusal) -> usize {
        if self.line > 0 {
            return self.line;
        }
        if self.answer == 0 {
            return match cause {
                BookRefusal::UnknownTop(Some(key)) => line_of_key(self.text, 1, key.as_str()),
                _ => 0,
            };
        }
        let header = line_of_answer(self.text, self.answer, self.answers);
        if header == 0 {
            return 0;
        }
        let line = line_of_key(self.text, header.saturating_add(1), key_of(cause, self));
        if line == 0 { header } else { line }
    }
}

/// The key of the body that an answer has.
fn body_key(place: Where<'_>) -> &'static str {
    for key in ["body-hex", "body-file", "body-fill"] {
        if place.get(key).is_some() {
            return key;
        }
    }
    "body"
}

/// The key that is at fault; empty where none is.
fn key_of<'c>(cause: &'c BookRefusal, place: Where<'_>) -> &'c str {
    match cause {
        BookRefusal::UnknownKey(Some(key)) => key.as_str(),
        BookRefusal::Malformed(key) => key.name(),
        BookRefusal::FileUnread(_) | BookRefusal::FileTooLong => Key::BodyFile.name(),
        BookRefusal::FillTooLong => Key::BodyFill.name(),
        BookRefusal::BadEntry(EntryFault::BadStatus) => Key::Status.name(),
        BookRefusal::BadEntry(EntryFault::BadField) => Key::Headers.name(),
        BookRefusal::BadEntry(EntryFault::BodyNotAllowed) => body_key(place),
        _ => "",
    }
}

/// Says where a fault is: the file, and the line and the answer where these are known.
fn say_place(place: Where<'_>, line: usize, out: &mut TextBuilder) {
    say_all!(out; Cut(place.path.as_bytes()));
    if line > 0 {
        say_all!(out; ", line ", line);
    }
    if place.answer > 0 {
        say_all!(out; ", answer ", place.answer);
    }
    ": ".say(out);
}

fn say_unknown(key: &Option<String>, out: &mut TextBuilder) {
    match key {
        Some(key) => say_all!(out; "the key ", Quoted(key.as_bytes()), " is unknown"),
        None => "a key is unknown".say(out),
    }
}

/// Says what is wrong with a text that is no TOML. A number that is too long has several messages of the reader.
fn say_no_toml(place: Where<'_>, message: &str, out: &mut TextBuilder) {
    let line = match place.text.lines().nth(place.line.saturating_sub(1)) {
        Some(line) => line,
        None => "",
    };
    if has_long_number(line) {
        "a number has more than 64 bits".say(out);
    } else {
        say_all!(out; "the file is not TOML: ", message);
    }
}

/// How many digits a number of 64 bits has at most, of any base.
const LONGEST: usize = 16;

// `toml` has several messages for a number of more than 64 bits, by its base. The line is looked at again for
// one sentence.
/// Whether a line ends in a number that may be one of more than 64 bits.
fn has_long_number(line: &str) -> bool {
    match line.split_once('=') {
        Some((_, value)) => is_long_number(value.trim().as_bytes()),
        None => false,
    }
}

/// Whether octets are a number of too many digits, with nothing else that a number can't have.
fn is_long_number(octets: &[u8]) -> bool {
    let mut digits = 0usize;
    for octet in octets {
        if octet.is_ascii_hexdigit() {
            digits = digits.saturating_add(1);
        } else if !is_beside_digits(*octet) {
            return false;
        }
    }
    digits >= LONGEST
}

/// Whether a number may have this octet besides its digits.
fn is_beside_digits(octet: u8) -> bool {
    matches!(octet, b'x' | b'o' | b'_' | b'+' | b'-')
}

/// The first header that is not allowed, and why.
fn bad_header(place: Where<'_>) -> Option<(&str, &'static str)> {
    match headers_in(place.get("headers")) {
        Some(headers) => first_bad(headers),
        None => None,
    }
}

/// The first header that is refused, by its name, and why.
fn first_bad(headers: &[Value]) -> Option<(&str, &'static str)> {
    for pair in headers {
        if let Some((name, value)) = header_in(pair)
            && let Some(reason) = field_reason(name.as_bytes(), value.as_bytes())
        {
            return Some((name, reason));
        }
    }
    None
}

/// Says why an entry is refused.
fn say_refused(place: Where<'_>, fault: EntryFault, out: &mut TextBuilder) {
    if let EntryFault::BadField = fault
        && let Some((name, reason)) = bad_header(place)
    {
        say_all!(out; "the field ", Quoted(name.as_bytes()), " ", reason);
        return;
    }
    say_entry(fault, place.text_at("method"), place.status(), None, out);
}

/// Says why a book is refused.
fn say_cause(place: Where<'_>, cause: &BookRefusal, out: &mut TextBuilder) {
    match cause {
        BookRefusal::NoMemory => "out of memory".say(out),
        BookRefusal::Unread(None) => "the file can't be read, or has more than 16777216 octets".say(
            out,
        ),
        BookRefusal::Unread(Some(kind)) => file_reason(*kind).say(out),
        BookRefusal::NoText => "the file is not UTF-8".say(out),
        BookRefusal::NoTable => "an answer has to be a table".say(out),
        BookRefusal::ManyBodies => "there are two bodies or more".say(out),
        BookRefusal::FillTooLong => "the count of `body-fill` is above 1048576".say(out),
        BookRefusal::NoToml(error) => say_no_toml(place, error.message(), out),
        BookRefusal::UnknownTop(key) => {
            say_unknown(key, out);
            ", a book has nothing but [[answer]]".say(out);
        }
        BookRefusal::UnknownKey(key) => say_unknown(key, out),
        BookRefusal::Missing(key) =>
            say_all!(out; "the key ", Quoted(key.name().as_bytes()), " is missing"),
        BookRefusal::Malformed(key) =>
            say_all!(out; "the key ", Quoted(key.name().as_bytes()), " has to be ", key.wanted()),
        BookRefusal::FileTooLong =>
            say_all!(out; "the file of `body-file`, ", Quoted(place.text_at("body-file").as_bytes()), ", has more than 1048576 octets"),
        BookRefusal::FileUnread(kind) => {
            say_all!(out; "the file of `body-file`, ", Quoted(place.text_at("body-file").as_bytes()), ", can't be read");
            if let Some(kind) = kind {
                say_all!(out; ": ", file_reason(*kind));
            }
        }
        BookRefusal::BadEntry(fault) => say_refused(place, *fault, out),
    }
}

/// The sentence of a fault.
pub(crate) fn sentence_of(
    alloc: Global,
    place: Where<'_>,
    cause: &BookRefusal,
) -> Result<String, AllocError> {
    let mut out = TextBuilder::new(alloc);
    say_place(place, place.line(cause), &mut out);
    say_cause(place, cause, &mut out);
    ".".say(&mut out);
    out.finish()
}
