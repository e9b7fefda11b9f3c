//! The text of a verdict, by version 13 of the Test Anything Protocol. Definitions: `specs/Tap.antt`.

ghost use Rattle.std.specs.Prelude.{◌≡◌, ◌++◌, codes, decimal, IfOk};
ghost use Rattle.std.specs.Option.{option_map};
ghost use Rattle.h2_cmd_check.specs.Tap.{Gains, GainsSome, IsResult, directive, result_front, result_line, result_words, title_text};
ghost use Rattle.h2_cmd_check.specs.Walks.{outcome_by};

use crate::growing::{Growing, is_printable};
use crate::pattern::shared;
use crate::verdict::{CaseVerdict, Wrong};
use h2_io::say::{EscapedText, OctetCount, Say, TextBuilder};
use h2_io::say_all;
use std::alloc::{AllocError, Global};

/// What a case is called: its file, and its title if it has one.
#[derive(Clone, Copy)]
pub struct Title<'t> {
    /// The path of the file, as the command line or a folder has it.
    pub file: &'t str,
    /// The text of its first comment line, none where it has none.
    pub title: Option<&'t [u8]>,
}

/// The words before the number of a result.
fn result_words(verdict: &CaseVerdict<'_>) -> &'static str
    ensures { result.now ≡ result_words (outcome_by verdict.now) }
{
    match verdict {
        CaseVerdict::Skipped | CaseVerdict::Holds => "ok ",
        CaseVerdict::Fails(_) => "not ok ",
    }
}

/// The words after the name of a result.
fn directive(verdict: &CaseVerdict<'_>) -> &'static str
    ensures { result.now ≡ directive (outcome_by verdict.now) }
{
    match verdict {
        CaseVerdict::Skipped => " # SKIP it expects nothing\n",
        CaseVerdict::Holds | CaseVerdict::Fails(_) => "\n",
    }
}

/// The title of a case after its file.
fn put_title(title: Option<&[u8]>, out: &mut Growing)
    ensures { Gains (title_text (option_map (λ t. t.now) title.entry)) out.old out.new }
{
    if let Some(words) = title {
        out.text(": ");
        out.escaped(words);
    }
}

/// The line of a result.
fn put_result(number: u64, title: Title<'_>, verdict: &CaseVerdict<'_>, out: &mut Growing)
    ensures { Gains (result_line number title.entry.file.now (option_map (λ t. t.now) title.entry.title) (outcome_by verdict.now)) out.old out.new }
{
    out.text(result_words(verdict));
    out.number(number);
    out.text(" - ");
    out.escaped(title.file.as_bytes());
    put_title(title.title, out);
    out.text(directive(verdict));
}

/// Says an octet of a wanted or found line: as it is, or as a backslash and two hex digits where it is not printable.
fn say_octet(octet: u8, out: &mut TextBuilder) {
    if is_printable(octet) {
        char::from(octet).say(out);
    } else {
        EscapedText(&[octet]).say(out);
    }
}

/// Says a file between the quotes of YAML, as standard error shows it.
fn say_file(file: &str, out: &mut TextBuilder) {
    for octet in file.as_bytes() {
        if *octet == b'"' || *octet == b'\\' || !is_printable(*octet) {
            '\\'.say(out);
        }
        say_octet(*octet, out);
    }
}

/// How many octets of a long line are shown.
const SHOWN: usize = 160;

/// How many of them are before the first difference.
const BEFORE: usize = 60;

/// The first octet that is shown of two lines that agree in this many.
fn first_shown(wanted: &[u8], found: &[u8], agreed: usize) -> usize {
    if wanted.len().max(found.len()) <= SHOWN {
        0
    } else {
        agreed.saturating_sub(BEFORE)
    }
}

/// The octets from one place up to another; up to the end where there are fewer.
fn between(octets: &[u8], start: usize, end: usize) -> &[u8] {
    let end = end.min(octets.len());
    let start = start.min(end);
    &octets[start..end]
}

/// Says the octets of a line from a place on, with a blank at its front as two hex digits: YAML takes it for the indent.
fn say_front(octets: &[u8], start: usize, out: &mut TextBuilder) {
    for (place, octet) in octets.iter().enumerate() {
        if start == 0 && place == 0 && *octet == b' ' {
            "\\20".say(out);
        } else {
            say_octet(*octet, out);
        }
    }
}

/// Says a name and a line from a place on, as a YAML block, in which nothing needs a quote; a long line is cut.
fn say_block(name: &str, line: &[u8], start: usize, out: &mut TextBuilder) {
    say_all!(out; "    ", name, ": |\n      ");
    if start > 0 {
        "..".say(out);
    }
    let end = start.saturating_add(SHOWN);
    say_front(between(line, start, end), start, out);
    if line.len() > end {
        say_all!(out; ".. of ", OctetCount(line.len() as u64));
    }
    "\n".say(out);
}

/// Says a mark below the first octet of the line above it that differs: below the end of these octets, which are shown from a
/// place on.
fn say_mark(alloc: Global, agreed: &[u8], start: usize, out: &mut TextBuilder) {
    let mut shown = TextBuilder::new(alloc);
    say_front(agreed, start, &mut shown);
    let before = if start > 0 { 2 } else { 0 };
    "    differs: |\n      ".say(out);
    for _blank in 0..shown.len().saturating_add(before) {
        ' '.say(out);
    }
    "^\n".say(out);
}

/// Says what was found instead of what a line expects.
fn say_wrong(alloc: Global, file: &str, wrong: &Wrong<'_>, out: &mut TextBuilder) {
    let (wanted, found) = (wrong.wanted, wrong.found.as_str().as_bytes());
    let agreed = shared(wanted, found);
    let start = first_shown(wanted, found, agreed);
    "  - file: \"".say(out);
    say_file(file, out);
    say_all!(out; "\"\n    line: ", wrong.line, "\n");
    say_block("wanted", wanted, start, out);
    say_block("found", found, start, out);
    say_mark(alloc, between(found, start, agreed), start, out);
    if let Some(cause) = wrong.ended {
        say_all!(out; "    ended: ", cause.name(), "\n");
    }
}

/// What was found instead of what some lines expect, in YAML.
fn wrongs_text(alloc: Global, file: &str, wrongs: &[Wrong<'_>]) -> Result<String, AllocError> {
    let mut out = TextBuilder::new(alloc);
    "  ---\n".say(&mut out);
    for wrong in wrongs {
        say_wrong(alloc, file, wrong, &mut out);
    }
    "  ...\n".say(&mut out);
    out.finish()
}

/// What was found instead of what some lines expect.
fn put_wrongs(alloc: Global, file: &str, wrongs: &[Wrong<'_>], out: &mut Growing)
    ensures { GainsSome out.old out.new }
{
    match wrongs_text(alloc, file, wrongs) {
        Ok(text) => out.text(text.as_str()),
        Err(_) => out.refuse(),
    }
}

/// How many octets the line of a result has mostly, at most.
const RESULT: usize = 128;

/// The text of the result with this number, from 1.
///
/// `AllocError` where memory is refused.
pub fn verdict_text(
    alloc: Global,
    number: u64,
    title: Title<'_>,
    verdict: &CaseVerdict<'_>,
) -> Result<Vec<u8>, AllocError>
    ensures { IfOk result (λ text. IsResult number title.entry.file.now (option_map (λ t. t.now) title.entry.title) (outcome_by verdict.now) text.items) }
{
    let mut out = Growing::with_capacity(alloc, RESULT);
    put_result(number, title, verdict, &mut out);
    match verdict {
        CaseVerdict::Skipped | CaseVerdict::Holds => {}
        CaseVerdict::Fails(wrongs) => put_wrongs(alloc, title.file, wrongs.as_slice(), &mut out),
    }
    out.finish()
}

/// The line of a result up to its name: whether it is `ok`, its number, from 1, and what the case is called.
///
/// `AllocError` where memory is refused.
pub fn result_front(
    alloc: Global,
    is_ok: bool,
    number: u64,
    title: Title<'_>,
) -> Result<Vec<u8>, AllocError>
    ensures { IfOk result (λ text. text.items ≡ result_front is_ok number title.entry.file.now (option_map (λ t. t.now) title.entry.title)) }
{
    let mut out = Growing::new(alloc);
    out.text(if is_ok { "ok " } else { "not ok " });
    out.number(number);
    out.text(" - ");
    out.escaped(title.file.as_bytes());
    put_title(title.title, &mut out);
    out.finish()
}

/// The line of how many results there are, which is the last one.
///
/// `AllocError` where memory is refused.
pub fn plan_line(alloc: Global, count: u64) -> Result<Vec<u8>, AllocError>
    ensures { IfOk result (λ text. text.items ≡ codes "1.." ++ decimal count ++ codes "\n") }
{
    let mut out = Growing::new(alloc);
    out.text("1..");
    out.number(count);
    out.text("\n");
    out.finish()
}
