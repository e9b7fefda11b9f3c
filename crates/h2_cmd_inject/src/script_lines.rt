//! The parts of a dialogue's lines: items, frames, and what a client has to do. Definitions: `specs/ScriptLines.antt`.

ghost use Rattle.std.specs.Prelude.{◌≡◌, ◌==◌, IfOk, position};
ghost use Rattle.h2_cmd_inject.specs.ScriptLines.{code_named, digits_of, duty_of, first_word, frame_at, frame_said, front_frame, has_name, is_octets, is_status, item_said, pattern_at, pattern_said, rest_of_words, sends_said, wanted_in, wanted_said, wanted_stream};
ghost use Rattle.h2_cmd_inject.specs.Whys.{Reads};

use crate::why::{LineRefusal, Why};
use h2_cmd_dialogue::step::{Awaited, Means, Pattern, ScriptFrame, SendsLine};
use h2_cmd_dialogue::verdict::{Duty, Wanted, WantedLine};
use h2_explain_words::names::code_name;
use h2_explain_words::sent::next_frame;
use h2_script::{LineFault, add_line, number_at};
use std::alloc::{AllocError, Global};

/// The frame that octets begin with, if it is whole.
fn front_frame(alloc: Global, octets: &[u8]) -> Result<Option<ScriptFrame>, AllocError>
    ensures { IfOk result (λ frame. frame ≡ front_frame octets.now) }
{
    match next_frame(octets) {
        Some((frame, _)) => Ok(Some(ScriptFrame {
            head: frame.head,
            payload: Vec::from_slice(alloc, frame.payload)?,
        })),
        None => Ok(None),
    }
}

/// The frame of a line that `asm` reads, if it is one.
fn read_frame(alloc: Global, line: &[u8]) -> Result<Option<ScriptFrame>, AllocError>
    ensures { IfOk result (λ frame. frame ≡ frame_at line.now) }
{
    let mut octets = Vec::new(alloc);
    match add_line(alloc, line, &mut octets) {
        Ok(()) => front_frame(alloc, octets.as_slice()),
        Err(LineFault::Bad(_)) => Ok(None),
        Err(LineFault::NoMemory) => Err(AllocError),
    }
}

/// Whether a line is the preface, or octets.
fn is_octets(line: &[u8]) -> bool
    ensures { result ≡ is_octets line.now }
{
    line == b"PREFACE".as_slice() || line.starts_with(b"RAW ".as_slice())
}

/// The frame of a line.
pub fn frame_of(alloc: Global, line: &[u8]) -> Result<ScriptFrame, LineRefusal>
    ensures { Reads result (frame_said line.now) }
{
    if is_octets(line) {
        return Err(LineRefusal::Because(Why::NotOneFrame));
    }
    match read_frame(alloc, line)? {
        Some(frame) => Ok(frame),
        None => Err(LineRefusal::Because(Why::NotScript)),
    }
}

/// The frame without a payload that a pattern NAME FLAGS STREAM writes, if it is one.
fn read_pattern(alloc: Global, text: &[u8]) -> Result<Option<ScriptFrame>, AllocError>
    ensures { IfOk result (λ frame. frame ≡ pattern_at text.now) }
{
    let mut line = Vec::from_slice(alloc, text)?;
    line.extend_from_slice(b" -".as_slice())?;
    read_frame(alloc, line.as_slice())
}

/// The same without the reserved bit.
fn pattern_of(alloc: Global, text: &[u8]) -> Result<ScriptFrame, LineRefusal>
    ensures { Reads result (pattern_said text.now) }
{
    match read_pattern(alloc, text)? {
        Some(frame) => {
            if frame.head.reserved {
                Err(LineRefusal::Because(Why::Item))
            } else {
                Ok(frame)
            }
        }
        None => Err(LineRefusal::Because(Why::Item)),
    }
}

/// The item of a step.
pub fn item_of(alloc: Global, text: &[u8]) -> Result<Awaited, LineRefusal>
    ensures { Reads result (item_said text.now) }
{
    if text == b"start".as_slice() {
        return Ok(Awaited::Start);
    }
    if text == b"pong".as_slice() {
        return Ok(Awaited::Pong);
    }
    let frame = pattern_of(alloc, text)?;
    Ok(Awaited::Frame(Pattern {
        kind: frame.head.kind,
        flags: frame.head.flags,
        stream: frame.head.stream,
    }))
}

/// The line `;<` with this number and text.
pub fn sends_of(alloc: Global, line: usize, text: &[u8]) -> Result<SendsLine, LineRefusal>
    ensures { Reads result (sends_said line text.now) }
{
    if let Some(pattern) = text.strip_prefix(b"! ".as_slice()) {
        return Ok(SendsLine {
            line,
            means: Means::Never,
            frame: pattern_of(alloc, pattern)?,
        });
    }
    if let Some(front) = text.strip_suffix(b"...".as_slice()) {
        return Ok(SendsLine {
            line,
            means: Means::Beginning,
            frame: frame_of(alloc, front)?,
        });
    }
    Ok(SendsLine {
        line,
        means: Means::Frame,
        frame: frame_of(alloc, text)?,
    })
}

/// The place of the first blank.
fn blank_in(text: &[u8]) -> Option<usize>
    ensures { result ≡ position (λ octet. octet == 32) text.now }
{
    text.iter().position(|octet| *octet == b' ')
}

/// A text up to its first blank, and what is after that; all of it and nothing where it has none.
fn split_word(text: &[u8]) -> (&[u8], &[u8])
    ensures word { result.0.now ≡ first_word text.now }
    ensures rest { result.1.now ≡ rest_of_words text.now }
{
    match blank_in(text) {
        Some(place) => (&text[..place], &text[place + 1..]),
        None => (text, &[]),
    }
}

/// Whether an error's code has this name (RFC 9113, 7).
fn has_name(code: u32, name: &[u8]) -> bool
    ensures { result ≡ has_name code name.now }
{
    match code_name(code) {
        Some(known) => known.as_bytes() == name,
        None => false,
    }
}

/// The number of an error's code by its name (RFC 9113, 7).
fn code_named(name: &[u8]) -> Option<u32>
    ensures { result ≡ code_named name.now }
{
    for code in 0..14u32 {
        if has_name(code, name) {
            return Some(code);
        }
    }
    None
}

/// An error of a stream, in words.
fn wanted_stream(text: &[u8]) -> Option<Wanted>
    ensures { result ≡ wanted_stream text.now }
{
    let (stream, code) = split_word(text);
    let stream = number_at(2_147_483_647, stream)?;
    Some(Wanted::Stream(stream, code_named(code)?))
}

/// What a client has to do, in words.
fn wanted_in(text: &[u8]) -> Option<Wanted>
    ensures { result ≡ wanted_in text.now }
{
    if text == b"-".as_slice() {
        return Some(Wanted::GoesOn);
    }
    let (scope, rest) = split_word(text);
    if scope == b"connection".as_slice() {
        return Some(Wanted::Connection(code_named(rest)?));
    }
    if scope == b"stream".as_slice() {
        return wanted_stream(rest);
    }
    None
}

/// A duty by its word.
fn duty_of(word: &[u8]) -> Option<Duty>
    ensures { result ≡ duty_of word.now }
{
    if word == b"MUST".as_slice() {
        Some(Duty::Must)
    } else if word == b"MUST?".as_slice() {
        Some(Duty::Unsettled)
    } else if word == b"SHOULD".as_slice() {
        Some(Duty::Should)
    } else if word == b"MAY".as_slice() {
        Some(Duty::May)
    } else {
        None
    }
}

/// The line `;!` with this number and text.
pub fn wanted_of(line: usize, text: &[u8]) -> Result<WantedLine, LineRefusal>
    ensures { Reads result (wanted_said line text.now) }
{
    let (word, rest) = split_word(text);
    let Some(duty) = duty_of(word) else {
        return Err(LineRefusal::Because(Why::Duty));
    };
    match wanted_in(rest) {
        Some(wanted) => Ok(WantedLine { line, duty, wanted }),
        None => Err(LineRefusal::Because(Why::Reaction)),
    }
}

/// A status without the `!` at its front.
fn digits_of(text: &[u8]) -> &[u8]
    ensures { result.now ≡ digits_of text.now }
{
    match text.strip_prefix(b"!".as_slice()) {
        Some(digits) => digits,
        None => text,
    }
}

/// Whether a text is a status: up to three digits, after `!` or not.
pub fn is_status(text: &[u8]) -> bool
    ensures { result ≡ is_status text.now }
{
    let digits = digits_of(text);
    digits.len() <= 3 && number_at(999, digits).is_some()
}
