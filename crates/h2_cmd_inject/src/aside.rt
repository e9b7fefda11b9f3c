//! The lines below an item that a script adds: the frames that did not go out, those of the script, and an error that is not
//! judged. Definitions: `specs/Asides.antt`; a frame is said in words of which they say nothing.

ghost use Rattle.std.specs.Prelude.{◌≡◌, ◌++◌, ℕ, List, codes, length, Some, IfOk, OnOk};
ghost use Rattle.std.specs.String.{string_bytes};
ghost use Rattle.h2_explain_text.specs.Why.{head_line};
ghost use Rattle.h2_explain_words.specs.Sent.{first_seen};
ghost use Rattle.h2_cmd_inject.specs.Asides.{ArePartLines, IsFrameLine, frame_line, frames_in, unjudged_line, unjudged_lines, without_end};
ghost use Rattle.h2_cmd_inject.specs.Results.{AppendsOne, AppendsSome};

use h2_cmd_dialogue::weave::Parts;
use h2_explain_item::item::Explained;
use h2_explain_text::paint::{Paint, Role};
use h2_explain_text::why::WhyHead;
use h2_explain_words::frame_words::say_frame;
use h2_explain_words::sent::next_frame;
use h2_frame::FrameRef;
use h2_io::say::TextBuilder;
use h2_io::{string_of, texts};
use h2_spec::octets::first_octets;
use std::alloc::{AllocError, Global};

/// A frame in words.
fn frame_text(alloc: Global, frame: FrameRef<'_>) -> Result<String, AllocError> {
    let mut words = TextBuilder::with(alloc, true);
    say_frame(frame, &mut words);
    words.finish()
}

/// The line of a frame, with this word before it.
#[tactic(auto, unfolding(crate::specs::Asides::frame_line))]
fn frame_line(
    alloc: Global,
    word: &str,
    frame: FrameRef<'_>,
    paint: Paint,
) -> Result<String, AllocError>
    ensures { IfOk result (λ text. (words : List ℕ) × (string_bytes text ≡ frame_line paint.0 word.now words)) }
{
    let words = frame_text(alloc, frame)?;
    let (start, end) = (paint.started(Role::Sent), paint.ended());
    string_of(
        alloc,
        &texts!("        ", start, word, " ", words.as_str(), end),
    )
}

/// Appends a line for each frame of octets, with this word before it.
fn put_frames(
    alloc: Global,
    word: &str,
    octets: &[u8],
    paint: Paint,
    out: &mut Vec<u8>,
) -> Result<(), AllocError>
    ensures { OnOk result (AppendsSome (IsFrameLine paint.0 word.now) (frames_in (length octets.now) octets.now) out.old.items out.new.items) }
{
    let mut rest = octets;
    for _frame in 0..octets.len() {
        let Some((frame, after)) = next_frame(rest) else {
            return Ok(());
        };
        rest = after;
        let line = frame_line(alloc, word, frame, paint)?;
        out.extend_from_slice(line.as_bytes())?;
    }
    Ok(())
}

/// Appends the lines of what did not go out, and of what the script sent.
pub fn put_parts(
    alloc: Global,
    parts: &Parts,
    paint: Paint,
    out: &mut Vec<u8>,
) -> Result<(), AllocError>
    ensures { OnOk result (AppendsOne (ArePartLines paint.0 parts.now) out.old.items out.new.items) }
{
    put_frames(alloc, "withheld", parts.withheld.as_slice(), paint, out)?;
    put_frames(alloc, "script", parts.script.as_slice(), paint, out)
}

/// The line of the first words of an error, or of why an item is ignored.
fn why_text(alloc: Global, item: &Explained<'_>) -> Result<String, AllocError>
    ensures { IfOk result (λ text. string_bytes text ≡ head_line item.now.after.counts.phase item.now.cause item.now.ignored) }
{
    string_of(
        alloc,
        &WhyHead {
            phase: item.after.counts.phase,
            cause: item.cause,
            ignored: item.ignored,
        },
    )
}

/// A text without its last octet.
fn without_end(text: &[u8]) -> &[u8]
    ensures { result.now ≡ without_end text.now }
{
    first_octets(text, text.len().saturating_sub(1))
}

/// The line of something that is not judged, since the script has spoken since this item; `why` is the line of its first words.
#[tactic(auto, unfolding(crate::specs::Asides::unjudged_line))]
fn unjudged_line(alloc: Global, since: u64, why: &[u8], paint: Paint) -> Result<Vec<u8>, AllocError>
    ensures { IfOk result (λ line. line.items ≡ unjudged_line paint.0 since why.now) }
{
    let number = format!(in alloc; "{since}")?;
    let mut line = Vec::from_slice(alloc, b"        ".as_slice())?;
    line.extend_from_slice(paint.started(Role::Ignored).as_bytes())?;
    line.extend_from_slice(without_end(why))?;
    line.extend_from_slice(b"; not judged, the script has spoken since #".as_slice())?;
    line.extend_from_slice(number.as_bytes())?;
    line.extend_from_slice(paint.ended().as_bytes())?;
    Ok(line)
}

/// Appends the line of an error or a reason of an item that is not judged, once the script has spoken, if there is one.
pub fn put_unjudged(
    alloc: Global,
    since: Option<u64>,
    item: &Explained<'_>,
    paint: Paint,
    out: &mut Vec<u8>,
) -> Result<(), AllocError>
    ensures { OnOk result (out.new.items ≡ out.old.items ++ unjudged_lines paint.0 since item.now) }
{
    let Some(since) = since else {
        return Ok(());
    };
    if item.cause.is_some() || item.ignored.is_some() {
        let why = why_text(alloc, item)?;
        let line = unjudged_line(alloc, since, why.as_bytes(), paint)?;
        return out.extend_from_slice(line.as_slice());
    }
    Ok(())
}
