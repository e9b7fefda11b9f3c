//! One line of a script: what it says, as octets. The definition is `statement_at` of `h2_spec`,
//! specs/Texts/Assemble.antt.

ghost use Rattle.std.specs.Prelude.{◌≡◌, ◌⊎◌, ◌+◌, ◌^◌, ◌<◌, ◌≤◌, ◌++◌, ◌∷◌, if◌then◌else◌, ℕ, List, Some, None, length, OnOk, IfErr, IfSome};
ghost use Rattle.h2_spec.specs.Texts.Assemble.{frame_at, frame_of, octet_at, raw_at, statement_at, stream_at, type_at, words_at};
ghost use Rattle.h2_spec.specs.Octets.{big_endian};
ghost use Rattle.h2_spec.specs.Texts.Script.{stream_octets};
ghost use Rattle.h2_script.specs.Readings.{Adds, says_nothing};
ghost use Rattle.h2_spec.specs.declared.scripts.SyntaxKind.TheVariants.{Size};
ghost use Rattle.h2_script.specs.declared.fault.LineFault.TheVariants.{Bad, NoMemory};

use crate::built::Built;
use crate::fault::LineFault;
use crate::number::number_at;
use crate::payload::payload_at;
use crate::words::{after, cut, is_word, octets_at};
use h2_frame::append_frame;
use h2_io::octet_of;
use h2_spec::frames::{PREFACE, type_named};
use h2_spec::scripts::SyntaxKind;
use std::alloc::Allocator;

/// Appends the octets that a line represents.
///
/// # Errors
///
/// `Bad` where it says nothing: the least kind of fault in it; `NoMemory` where memory was refused before that was found.
pub fn add_line<A: Allocator + Copy>(
    alloc: A,
    line: &[u8],
    out: &mut Vec<u8, A>,
) -> Result<(), LineFault>
    ensures { Adds out.old.items out.new.items result (statement_at line.now) }
{
    if says_nothing(line) {
        return Ok(());
    }
    match cut(line, b' ') {
        None => add_word(line, out),
        Some((word, rest)) => add_words(alloc, word, rest, out),
    }
}

/// Whether a line is empty or a comment.
fn says_nothing(line: &[u8]) -> bool
    ensures { result ≡ says_nothing line.now }
{
    line.is_empty() || line[0] == b';'
}

/// Appends the octets of a line that is one word.
#[tactic(auto, unfolding(h2_spec::specs::Frames::Frame::preface))]
fn add_word<A: Allocator>(line: &[u8], out: &mut Vec<u8, A>) -> Result<(), LineFault>
    ensures { Adds out.old.items out.new.items result (words_at line.now None) }
{
    if !is_word(line, b"PREFACE") {
        return Err(LineFault::Bad(SyntaxKind::Parts));
    }
    out.extend_from_slice(&PREFACE)?;
    Ok(())
}

/// Appends the octets of a line's first word and what follows it.
fn add_words<A: Allocator + Copy>(
    alloc: A,
    word: &[u8],
    rest: &[u8],
    out: &mut Vec<u8, A>,
) -> Result<(), LineFault>
    ensures { (line : List ℕ) → Adds out.old.items out.new.items result (words_at line (Some (word.now, rest.now))) }
{
    if is_word(word, b"PREFACE") {
        return Err(LineFault::Bad(SyntaxKind::Parts));
    }
    if is_word(word, b"RAW") {
        return add_raw(alloc, rest, out);
    }
    add_frame(alloc, word, rest, out)
}

/// Appends octets in hex as they are.
fn add_raw<A: Allocator>(alloc: A, digits: &[u8], out: &mut Vec<u8, A>) -> Result<(), LineFault>
    ensures { Adds out.old.items out.new.items result (raw_at digits.now) }
{
    if digits.is_empty() {
        return Err(LineFault::Bad(SyntaxKind::Parts));
    }
    match octets_at(alloc, digits)? {
        Some(octets) => Ok(out.extend_from_slice(octets.as_slice())?),
        None => Err(LineFault::Bad(SyntaxKind::Payload)),
    }
}

/// Appends the frame of a name and the parts after it; the faults of the parts are found in the order of their kinds.
fn add_frame<A: Allocator + Copy>(
    alloc: A,
    name: &[u8],
    rest: &[u8],
    out: &mut Vec<u8, A>,
) -> Result<(), LineFault>
    ensures { Adds out.old.items out.new.items result (frame_at name.now rest.now) }
{
    let Some((flags, rest)) = cut(rest, b' ') else {
        return Err(LineFault::Bad(SyntaxKind::Parts));
    };
    let Some((stream, text)) = cut(rest, b' ') else {
        return Err(LineFault::Bad(SyntaxKind::Parts));
    };
    add_parts(alloc, name, flags, stream, text, out)
}

/// Appends the frame of four parts.
fn add_parts<A: Allocator + Copy>(
    alloc: A,
    name: &[u8],
    flags: &[u8],
    stream: &[u8],
    text: &[u8],
    out: &mut Vec<u8, A>,
) -> Result<(), LineFault>
    ensures { Adds out.old.items out.new.items result (frame_of name.now flags.now stream.now text.now) }
{
    let Some(kind) = type_at(name) else {
        return Err(LineFault::Bad(SyntaxKind::Name));
    };
    let Some(flags) = flags_at(flags) else {
        return Err(LineFault::Bad(SyntaxKind::Flags));
    };
    let Some((stream, reserved)) = stream_at(stream) else {
        return Err(LineFault::Bad(SyntaxKind::Stream));
    };
    match payload_at(alloc, text)? {
        Some(Built::Whole(octets)) => {
            push_frame(kind, flags, stream, reserved, octets.as_slice(), out)
        }
        Some(Built::Long) => Err(LineFault::Bad(SyntaxKind::Size)),
        None => Err(LineFault::Bad(SyntaxKind::Payload)),
    }
}

/// The flags of a frame: two hex digits.
fn flags_at(text: &[u8]) -> Option<u8>
    ensures { result ≡ octet_at text.now }
{
    octet_of(text)
}

/// Appends a frame with this reserved bit, unless its payload is longer than a frame's can be (RFC 9113, 4.1).
#[tactic(auto, unfolding(h2_spec::specs::Frames::Frame::frame_octets))]
fn push_frame<A: Allocator>(
    kind: u8,
    flags: u8,
    stream: u32,
    reserved: bool,
    payload: &[u8],
    out: &mut Vec<u8, A>,
) -> Result<(), LineFault>
    requires { stream < 2 ^ 31 }
    ensures ok { OnOk result ((length payload.now < 2 ^ 24) × (out.new.items ≡ out.old.items ++ (big_endian 3 (length payload.now) ++ kind ∷ flags ∷ (stream_octets stream reserved ++ payload.now)))) }
    ensures err { IfErr result (λ fault. (fault ≡ NoMemory) ⊎ ((fault ≡ Bad Size) × (2 ^ 24 ≤ length payload.now))) }
{
    if payload.len() >= 16_777_216 {
        return Err(LineFault::Bad(SyntaxKind::Size));
    }
    append_frame(
        kind,
        flags,
        stream_number(stream, reserved),
        &[],
        payload,
        out,
    )?;
    Ok(())
}

/// The number that the last four octets of a head write: the reserved bit above the stream's identifier (RFC 9113,
/// 4.1).
fn stream_number(stream: u32, reserved: bool) -> u32
    requires { stream < 2 ^ 31 }
    ensures { result ≡ if reserved then 2 ^ 31 + stream else stream }
{
    if reserved {
        stream + 2_147_483_648
    } else {
        stream
    }
}

/// The number of a frame type: of its name, or of `T` and two hex digits.
fn type_at(text: &[u8]) -> Option<u8>
    ensures { result ≡ type_at text.now }
{
    let other = match after(text, b'T') {
        Some(digits) => octet_of(digits),
        None => None,
    };
    type_named(text, other)
}

/// A stream's identifier, and whether the reserved bit is set.
fn stream_at(text: &[u8]) -> Option<(u32, bool)>
    ensures value { result ≡ stream_at text.now }
    ensures small { IfSome result (λ s. s.0 < 2147483648) }
{
    if !text.is_empty() && text[text.len() - 1] == b'R' {
        match number_at(2_147_483_647, &text[..text.len() - 1]) {
            Some(number) => Some((number, true)),
            None => None,
        }
    } else {
        match number_at(2_147_483_647, text) {
            Some(number) => Some((number, false)),
            None => None,
        }
    }
}
