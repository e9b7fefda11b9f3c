//! Which part of an ANSWER is at fault: METHOD|PATH|STATUS|BODYHEX, and further parts NAME=VALUE or early.

use crate::entry::{field_reason, say_entry};
use crate::place::{Quoted, are_digits, are_hex_digits};
use h2_io::say::{Cut, Hex, Say, TextBuilder};
use h2_io::say_all;
use h2_request_book::fault::EntryFault;
use h2_spec::octets::first_octets;
use std::alloc::Allocator;

/// How many octets of a body are written as hex where it was given as a text.
const SHOWN: usize = 40;

/// A part of a word, from 1; empty where there are fewer.
fn part_of(word: &str, number: usize) -> &str {
    match word.split('|').nth(number.saturating_sub(1)) {
        Some(part) => part,
        None => "",
    }
}

/// Whether a part has three digits.
fn is_status(part: &str) -> bool {
    part.len() == 3 && are_digits(part.as_bytes())
}

/// Whether a part is pairs of hex digits.
fn is_hex(part: &str) -> bool {
    part.len() % 2 == 0 && are_hex_digits(part.as_bytes())
}

/// Whether more than one part after the first four is `early`.
fn is_early_twice(word: &str) -> bool {
    let mut is_early = false;
    for part in word.split('|').skip(4) {
        if part == "early" {
            if is_early {
                return true;
            }
            is_early = true;
        }
    }
    false
}

/// Where a word of the command line is: `answer 1 of the command line`.
#[derive(Clone, Copy)]
struct AnswerPlace(usize);

impl Say for AnswerPlace {
    fn say<A: Allocator>(self, out: &mut TextBuilder<A>) {
        say_all!(out; "answer ", self.0, " of the command line");
    }
}

/// Says why a word says no answer; `place` is which of the answers it is, from 1.
pub fn say_no_answer(place: usize, word: &str, out: &mut TextBuilder) {
    let parts = word.split('|').count();
    if parts == 1 {
        say_no_bar(place, word, out);
    } else if parts < 4 {
        say_all!(out; AnswerPlace(place), ": ", Quoted(word.as_bytes()), " has ", parts, " parts; an answer has at least four: METHOD|PATH|STATUS|BODYHEX.\n");
    } else if !is_status(part_of(word, 3)) {
        say_all!(out; AnswerPlace(place), ", part 3, STATUS: ", Quoted(part_of(word, 3).as_bytes()), " is not three digits, 200 to 599.\n");
    } else if is_early_twice(word) {
        say_all!(out; AnswerPlace(place), ": the part early is there more than once.\n");
    } else if !is_hex(part_of(word, 4)) {
        say_no_body(place, part_of(word, 4), out);
    } else {
        say_bad_part(place, word, out);
    }
}

/// Says that a word has no `|`, and so is no answer.
fn say_no_bar(place: usize, word: &str, out: &mut TextBuilder) {
    if word == "-" {
        say_all!(out; AnswerPlace(place), ": `-` is no answer; standard input is read without it, or by --in -.\n");
        return;
    }
    say_all!(out; AnswerPlace(place), ": ", Quoted(word.as_bytes()), " has no |, and an answer is METHOD|PATH|STATUS|BODYHEX; there is no file of that name, which would be the input in front of the answers.\n");
}

/// Says that the fourth part is no hex, and what it is as octets.
fn say_no_body(place: usize, body: &str, out: &mut TextBuilder) {
    let octets = body.as_bytes();
    say_all!(out; AnswerPlace(place), ", part 4, BODYHEX: ", Quoted(octets), " is not pairs of hex digits; as octets it is ", Hex(first_octets(octets, SHOWN)));
    if octets.len() > SHOWN {
        ".. ".say(out);
    }
    ".\n".say(out);
}

/// The first further part that is neither a field nor the word of an early answer, and its number.
fn bad_part(word: &str) -> Option<(usize, &str)> {
    let mut number = 4usize;
    for part in word.split('|').skip(4) {
        number = number.saturating_add(1);
        if part != "early" && !part.as_bytes().contains(&b'=') {
            return Some((number, part));
        }
    }
    None
}

/// Says which further part is neither a field nor the word of an early answer.
fn say_bad_part(place: usize, word: &str, out: &mut TextBuilder) {
    if let Some((number, part)) = bad_part(word) {
        let part = Quoted(part.as_bytes());
        say_all!(out; AnswerPlace(place), ", part ", number, ": ", part, " is neither NAME=VALUE nor early.\n");
    }
}

/// A field that is not allowed: which part it is, its name, and why.
#[derive(Clone, Copy)]
struct BadField<'w> {
    part: usize,
    name: &'w str,
    reason: &'static str,
}

/// The first field of a word that is not allowed.
fn bad_field(word: &str) -> Option<BadField<'_>> {
    let mut number = 4usize;
    for part in word.split('|').skip(4) {
        number = number.saturating_add(1);
        if let Some((name, value)) = part.split_once('=')
            && let Some(reason) = field_reason(name.as_bytes(), value.as_bytes())
        {
            return Some(BadField {
                part: number,
                name,
                reason,
            });
        }
    }
    None
}

/// Says which field of a word is refused, and why.
fn say_field(word: &str, out: &mut TextBuilder) {
    match bad_field(word) {
        Some(field) => say_all!(
            out;
            ", part ",
            field.part,
            ": the field ",
            Quoted(field.name.as_bytes()),
            " ",
            field.reason,
            ".\n"
        ),
        None => ": a field is not allowed in an answer.\n".say(out),
    }
}

/// Where in a word the reason of a refusal is.
fn place_of(fault: EntryFault) -> &'static str {
    match fault {
        EntryFault::BadStatus => ", part 3, STATUS: ",
        EntryFault::BodyNotAllowed => ", part 4, BODYHEX: ",
        EntryFault::BadField | EntryFault::TooLong => ": ",
    }
}

/// Says why the book refuses the answer that a word says.
pub fn say_answer(place: usize, word: &str, fault: EntryFault, out: &mut TextBuilder) {
    AnswerPlace(place).say(out);
    if let EntryFault::BadField = fault {
        say_field(word, out);
        return;
    }
    place_of(fault).say(out);
    let status = Cut(part_of(word, 3).as_bytes());
    let octets = part_of(word, 4).len() / 2;
    say_entry(fault, part_of(word, 1), status, Some(octets), out);
    ".\n".say(out);
}
