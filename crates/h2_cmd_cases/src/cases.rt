//! The lines of a case file, and the cases among them. Definitions: `specs/Lines.antt`, `specs/Files.antt`.

ghost use Rattle.std.specs.Prelude.{◌≡◌, ◌<◌, ◌≤◌, length, map, take, drop, is_some, IfOk};
ghost use Rattle.std.specs.List.{list_all, list_any, position_or_len};
ghost use Rattle.std.specs.Option.{option_map};
ghost use Rattle.h2_spec.specs.Texts.Script.{lines_of};
ghost use Rattle.h2_cmd_cases.specs.Files.{case_length, expect_something, is_silent_line, preamble_length, title_in, title_said};
ghost use Rattle.h2_cmd_cases.specs.Lines.{begins, expects, line_said};

use crate::line::{Line, line_of};
use std::alloc::{AllocError, Global};

/// The lines of a text: a line feed ends each, and the last may lack it.
///
/// `AllocError` where memory is refused.
pub fn lines_in(alloc: Global, text: &[u8]) -> Result<Vec<&[u8]>, AllocError>
    ensures { IfOk result (λ lines. map (λ l. l.now) lines.items ≡ lines_of text.now) }
{
    text.split(|octet| *octet == b'\n').collect(alloc)
}

/// The title of a line that begins a case.
#[tactic(auto, using(crate::proofs::LineLaws::title_is))]
fn title_of_line(line: &[u8]) -> Option<&[u8]>
    ensures { option_map (λ t. t.now) result ≡ title_said (line_said line.now) }
{
    line.strip_prefix(b";# ".as_slice())
}

/// Whether a line begins a case.
#[tactic(auto, using(crate::proofs::LineLaws::begins_is))]
fn begins(line: &[u8]) -> bool
    ensures { result ≡ begins (line_said line.now) }
{
    title_of_line(line).is_some()
}

/// Whether a line expects something.
fn expects(line: &[u8]) -> bool
    ensures { result ≡ expects (line_said line.now) }
{
    match line_of(line) {
        Line::Title(_) | Line::Words(_) | Line::Script(_) => false,
        Line::Sent(_)
        | Line::Shown(_)
        | Line::Cause(_)
        | Line::Reason(_)
        | Line::Explained(_)
        | Line::Command(_)
        | Line::Unspaced(_) => true,
    }
}

/// Whether a line is empty or a comment that says nothing of a case.
fn is_silent(line: &[u8]) -> bool
    ensures { result ≡ is_silent_line line.now }
{
    match line_of(line) {
        Line::Script(text) => text.is_empty() || text[0] == b';',
        Line::Title(_)
        | Line::Words(_)
        | Line::Sent(_)
        | Line::Shown(_)
        | Line::Cause(_)
        | Line::Reason(_)
        | Line::Explained(_)
        | Line::Command(_)
        | Line::Unspaced(_) => false,
    }
}

/// Whether lines expect something.
pub fn expect_something(lines: &[&[u8]]) -> bool
    ensures { result ≡ expect_something (map (λ l. l.now) lines.now) }
{
    lines.iter().any(|line| expects(line))
}

/// Whether lines say nothing of a case.
fn are_silent(lines: &[&[u8]]) -> bool
    ensures { result ≡ list_all is_silent_line (map (λ l. l.now) lines.now) }
{
    lines.iter().all(|line| is_silent(line))
}

/// How many lines there are before the first one that begins a case.
fn before_title(lines: &[&[u8]]) -> usize
    ensures value { result ≡ position_or_len (λ l. begins (line_said l)) (map (λ l. l.now) lines.now) }
    ensures within { result ≤ length lines.now }
{
    match lines.iter().position(|line| begins(line)) {
        Some(place) => place,
        None => lines.len(),
    }
}

/// How many lines the case has that lines begin with: its first line, and those before the next that begins a case.
pub fn case_length(lines: &[&[u8]]) -> usize
    requires { 0 < length lines.now }
    ensures value { result ≡ case_length (map (λ l. l.now) lines.now) }
    ensures within { result ≤ length lines.now }
    ensures some { 0 < result }
{
    1 + before_title(&lines[1..])
}

/// The title of a case, where its first line has one.
pub fn title_of<'t>(lines: &[&'t [u8]]) -> Option<&'t [u8]>
    ensures { option_map (λ t. t.now) result ≡ title_in (map (λ l. l.now) lines.now) }
{
    let Some((first, _)) = lines.split_first() else {
        return None;
    };
    title_of_line(first)
}

/// Whether lines begin with a title.
fn is_titled(lines: &[&[u8]]) -> bool
    ensures { result ≡ is_some (title_in (map (λ l. l.now) lines.now)) }
{
    title_of(lines).is_some()
}

/// How many lines are in front of the first case: those before the first title, where they say nothing.
pub fn preamble_length(lines: &[&[u8]]) -> usize
    ensures value { result ≡ preamble_length (map (λ l. l.now) lines.now) }
    ensures within { result ≤ length lines.now }
{
    if lines.is_empty() {
        return 0;
    }
    let length = case_length(lines);
    if length == lines.len() {
        return 0;
    }
    if is_titled(lines) {
        return 0;
    }
    if !are_silent(&lines[..length]) {
        return 0;
    }
    length
}
