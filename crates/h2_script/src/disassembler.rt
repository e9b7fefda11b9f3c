//! Disassembling octets, frame by frame. The definition is `written` of `h2_spec`, specs/Texts/Written.antt, and the
//! law that
//! this is a script of the octets is `h2_spec_laws::script_laws::what_is_written_assembles_to_its_octets`.

ghost use Rattle.std.specs.Prelude.{◌≡◌, ◌<◌, ◌≤◌, ◌^◌, ◌++◌, ◌&&◌, true, nat_eq, length, option_map, IfOk, IfSome, OnOk};
ghost use Rattle.std.specs.List.{starts_with};
ghost use Rattle.std.specs.String.{string_bytes};
ghost use Rattle.h2_spec.specs.Frames.Frame.{preface};
ghost use Rattle.h2_spec.specs.Texts.Script.{Script};
ghost use Rattle.h2_spec.specs.Texts.Written.{frame_said, line_text, next_said, rest_text, written};
ghost use Rattle.h2_script.specs.Texts.{IsFrame, IsNext, head_text, said_text};

use crate::said::push_payload;
use crate::text::{push_octet, push_octets, push_stream, push_type};
use h2_frame::{Head, read_head};
use h2_spec::frames::PREFACE;
use h2_spec::octets::{octets_from, octets_up_to};
use std::alloc::{AllocError, Allocator};

/// The one script that is written for octets: the preface, a line for each whole frame, and the rest in hex.
///
/// # Errors
///
/// `AllocError` where memory was refused.
#[tactic(auto, unfolding(h2_spec::specs::Texts::Written::written, h2_spec::specs::Frames::Parse::parse_all))]
pub fn disassemble<A: Allocator + Copy>(alloc: A, octets: &[u8]) -> Result<String<A>, AllocError>
    ensures value { IfOk result (λ t. string_bytes t ≡ written octets.now) }
    ensures assembles { IfOk result (λ t. Script (string_bytes t) octets.now) }
{
    let mut out = String::new(alloc);
    push_all(alloc, octets, &mut out)?;
    Ok(out)
}

/// Appends the lines of octets from their beginning on.
fn push_all<A: Allocator + Copy>(
    alloc: A,
    octets: &[u8],
    out: &mut String<A>,
) -> Result<(), AllocError>
    ensures { OnOk result (string_bytes out.new ≡ string_bytes out.old ++ said_text (length octets.now) true octets.now) }
{
    let mut rest = octets;
    let mut first = true;
    for _turn in 0..octets.len() {
        match push_next(alloc, first, rest, out)? {
            Some(used) => rest = octets_from(rest, used),
            None => return push_rest(alloc, rest, out),
        }
        first = false;
    }
    push_rest(alloc, rest, out)
}

/// Appends the line of what is at the front of octets, if it is whole; returns how many octets it takes.
#[tactic(auto, unfolding(h2_spec::specs::Frames::Frame::preface))]
fn push_next<A: Allocator + Copy>(
    alloc: A,
    first: bool,
    octets: &[u8],
    out: &mut String<A>,
) -> Result<Option<usize>, AllocError>
    ensures next { IfOk result (λ used. IsNext (string_bytes out.old) (string_bytes out.new) used (next_said first octets.now)) }
    ensures within { IfOk result (λ used. IfSome used (λ n. n ≤ length octets.now)) }
{
    if begins_with_preface(first, octets) {
        out.push_str("PREFACE\n")?;
        return Ok(Some(24));
    }
    let Some((head, payload)) = first_frame(octets) else {
        return Ok(None);
    };
    push_frame(alloc, &head, payload, out)?;
    Ok(Some(9 + payload.len()))
}

/// The head and the payload of the frame at the front of octets, if it is whole.
fn first_frame(octets: &[u8]) -> Option<(Head, &[u8])>
    ensures { IsFrame (option_map (λ f. (f.0, f.1.now)) result) octets.now }
{
    let Some(head) = read_head(octets) else {
        return None;
    };
    let rest = octets_from(octets, 9);
    if rest.len() < head.length as usize {
        return None;
    }
    Some((head, octets_up_to(rest, head.length as usize)))
}

/// Whether octets begin with the client's preface, where it is allowed (RFC 9113, 3.4).
#[tactic(auto, unfolding(h2_spec::specs::Frames::Frame::preface))]
fn begins_with_preface(first: bool, octets: &[u8]) -> bool
    ensures { result ≡ (first && starts_with nat_eq octets.now preface) }
{
    first && octets.starts_with(&PREFACE)
}

/// Appends the line of a frame.
fn push_frame<A: Allocator + Copy>(
    alloc: A,
    head: &Head,
    payload: &[u8],
    out: &mut String<A>,
) -> Result<(), AllocError>
    requires { length payload.now < 2 ^ 24 }
    ensures { OnOk result (string_bytes out.new ≡ string_bytes out.old ++ line_text (frame_said head.now payload.now)) }
{
    push_head(head, out)?;
    push_payload(alloc, head.kind, head.flags, payload, out)?;
    out.push_str("\n")
}

/// Appends the type, the flags and the stream of a frame, a space after each.
fn push_head<A: Allocator>(head: &Head, out: &mut String<A>) -> Result<(), AllocError>
    ensures { OnOk result (string_bytes out.new ≡ string_bytes out.old ++ head_text head.now) }
{
    push_type(head.kind, out)?;
    out.push_str(" ")?;
    push_octet(head.flags, out)?;
    out.push_str(" ")?;
    push_stream(head.stream, head.reserved, out)?;
    out.push_str(" ")?;
    Ok(())
}

/// Appends the line of the rest after the last whole frame, if anything is.
fn push_rest<A: Allocator + Copy>(
    alloc: A,
    octets: &[u8],
    out: &mut String<A>,
) -> Result<(), AllocError>
    ensures { OnOk result (string_bytes out.new ≡ string_bytes out.old ++ rest_text octets.now) }
{
    if octets.is_empty() {
        return Ok(());
    }
    out.push_str("RAW ")?;
    push_octets(alloc, octets, out)?;
    out.push_str("\n")
}
