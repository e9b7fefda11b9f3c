//! What a line `;<` says of a frame that is sent: DATA of many octets by the length of its payload and the SHA-256 of that, so
//! that a case of a large answer is short. Definitions: `specs/Frames.antt`.

ghost use Rattle.std.specs.Prelude.{◌≡◌, ◌++◌, ◌≤◌, decimal, flat_map, length, map, if◌then◌else◌, IfOk, IfSome, OnOk};
ghost use Rattle.std.specs.String.{string_bytes};
ghost use Rattle.h2_cmd_cases.specs.Frames.{has_summary, is_long, is_summary, short_line, short_of_frame, sum_text, summary_front, summary_text, summed, told_line, told_lines};
ghost use Rattle.h2_explain_words.specs.Sent.{first_frame};

use crate::cases::lines_in;
use h2_explain_words::sent::next_frame;
use h2_frame::{FrameRef, Head};
use h2_script::{LineFault, add_line, disassemble};
use h2_spec::frames::DATA;
use sha2::{Digest, Sha256};
use std::alloc::{AllocError, Global};
use std::fmt::Write;

/// The most octets of DATA that are written in full.
const IN_FULL: usize = 100;

/// Whether a frame has a summary: only DATA without the reserved bit.
fn has_summary(head: &Head) -> bool
    ensures { result ≡ has_summary head.now }
{
    head.kind == DATA && !head.reserved
}

/// The SHA-256 of a payload, in hex.
fn sum_text(alloc: Global, payload: &[u8]) -> Result<String, AllocError>
    ensures { IfOk result (λ text. string_bytes text ≡ sum_text payload.now) }
{
    hex::encode(alloc, Sha256::digest(payload))
}

/// Appends a number in decimal digits.
fn push_number(number: u64, out: &mut String) -> Result<(), AllocError>
    ensures { OnOk result (string_bytes out.new ≡ string_bytes out.old ++ decimal number) }
{
    write!(out, "{}", number)
}

/// The summary of a frame, up to its sum.
#[tactic(auto, unfolding(crate::specs::Frames::summary_front))]
fn summary_front(alloc: Global, frame: FrameRef<'_>) -> Result<String, AllocError>
    ensures { IfOk result (λ text. string_bytes text ≡ summary_front frame.entry.head frame.entry.payload.now) }
{
    let flags = hex::encode(alloc, [frame.head.flags])?;
    let mut out = String::from_str(alloc, "DATA ")?;
    out.push_str(flags.as_str())?;
    out.push_str(" ")?;
    push_number(u64::from(frame.head.stream), &mut out)?;
    out.push_str(" length ")?;
    push_number(frame.payload.len() as u64, &mut out)?;
    out.push_str(" sha256 ")?;
    Ok(out)
}

/// Whether a line is the summary of a frame.
fn is_summary(alloc: Global, line: &[u8], frame: FrameRef<'_>) -> Result<bool, AllocError>
    ensures { IfOk result (λ is. is ≡ is_summary line.now frame.entry.head frame.entry.payload.now) }
{
    if !has_summary(&frame.head) {
        return Ok(false);
    }
    let front = summary_front(alloc, frame)?;
    match line.strip_prefix(front.as_str().as_bytes()) {
        Some(digits) => Ok(digits == sum_text(alloc, frame.payload)?.as_str().as_bytes()),
        None => Ok(false),
    }
}

/// How many octets the frame has that octets begin with, if a line is its summary.
///
/// `AllocError` where memory is refused.
#[tactic(auto, unfolding(crate::specs::Frames::summed))]
pub fn summed(alloc: Global, line: &[u8], octets: &[u8]) -> Result<Option<usize>, AllocError>
    ensures value { IfOk result (λ count. count ≡ summed line.now octets.now) }
    ensures within { IfOk result (λ count. IfSome count (λ n. n ≤ length octets.now)) }
{
    let Some((frame, _)) = next_frame(octets) else {
        return Ok(None);
    };
    if is_summary(alloc, line, frame)? {
        return Ok(Some(9 + frame.payload.len()));
    }
    Ok(None)
}

/// Appends the summary of a frame.
fn push_summary(alloc: Global, frame: FrameRef<'_>, out: &mut Vec<u8>) -> Result<(), AllocError>
    ensures { OnOk result (out.new.items ≡ out.old.items ++ summary_text frame.entry.head frame.entry.payload.now) }
{
    let front = summary_front(alloc, frame)?;
    let sum = sum_text(alloc, frame.payload)?;
    out.extend_from_slice(front.as_str().as_bytes())?;
    out.extend_from_slice(sum.as_str().as_bytes())
}

/// Appends a line, or the summary of its frame, where that is long DATA.
fn push_line_of(
    alloc: Global,
    line: &[u8],
    frame: FrameRef<'_>,
    out: &mut Vec<u8>,
) -> Result<(), AllocError>
    ensures { OnOk result (out.new.items ≡ out.old.items ++ (if is_long frame.entry.head frame.entry.payload.now then summary_text frame.entry.head frame.entry.payload.now else line.now)) }
{
    if has_summary(&frame.head) && frame.payload.len() > IN_FULL {
        return push_summary(alloc, frame, out);
    }
    out.extend_from_slice(line)
}

/// Appends a line, or the summary of the frame that its octets begin with, where that is long DATA.
fn push_short(
    alloc: Global,
    line: &[u8],
    octets: &[u8],
    out: &mut Vec<u8>,
) -> Result<(), AllocError>
    ensures { OnOk result (out.new.items ≡ out.old.items ++ short_of_frame line.now (first_frame octets.now)) }
{
    match next_frame(octets) {
        Some((frame, _)) => push_line_of(alloc, line, frame, out),
        None => out.extend_from_slice(line),
    }
}

/// Appends a line that `dis` writes, or the summary of the DATA that it says, where that has more than 100 octets.
///
/// `AllocError` where memory is refused; some of it may have been added.
#[tactic(auto, unfolding(crate::specs::Frames::short_line))]
pub fn push_short_line(alloc: Global, line: &[u8], out: &mut Vec<u8>) -> Result<(), AllocError>
    ensures { OnOk result (out.new.items ≡ out.old.items ++ short_line line.now) }
{
    let mut octets = Vec::new(alloc);
    match add_line(alloc, line, &mut octets) {
        Ok(()) => push_short(alloc, line, octets.as_slice(), out),
        Err(LineFault::Bad(_)) => out.extend_from_slice(line),
        Err(LineFault::NoMemory) => Err(AllocError),
    }
}

/// Appends a line `;<` for a line that `dis` writes; none for the end of a text.
fn push_told_line(alloc: Global, line: &[u8], out: &mut Vec<u8>) -> Result<(), AllocError>
    ensures { OnOk result (out.new.items ≡ out.old.items ++ told_line line.now) }
{
    if line.is_empty() {
        return Ok(());
    }
    out.extend_from_slice(b";< ".as_slice())?;
    push_short_line(alloc, line, out)?;
    out.extend_from_slice(b"\n".as_slice())
}

/// Appends such lines for the lines of a text.
fn push_told_lines(alloc: Global, lines: &[&[u8]], out: &mut Vec<u8>) -> Result<(), AllocError>
    ensures { OnOk result (out.new.items ≡ out.old.items ++ flat_map told_line (map (λ l. l.now) lines.now)) }
{
    for line in lines {
        push_told_line(alloc, line, out)?;
    }
    Ok(())
}

/// Appends a line `;<` for each frame of octets that were sent, as `dis` writes it; DATA of more than 100 octets as its summary.
///
/// `AllocError` where memory is refused; some may have been added.
#[tactic(auto, unfolding(crate::specs::Frames::told_lines))]
pub fn push_told(alloc: Global, octets: &[u8], out: &mut Vec<u8>) -> Result<(), AllocError>
    ensures { OnOk result (out.new.items ≡ out.old.items ++ told_lines octets.now) }
{
    let script = disassemble(alloc, octets)?;
    let lines = lines_in(alloc, script.as_str().as_bytes())?;
    push_told_lines(alloc, lines.as_slice(), out)
}
