//! The text of a dialogue's result, by version 13 of the Test Anything Protocol. Definitions: `specs/Results.antt`; what is wanted
//! and found is said in words of which they say nothing.

ghost use Rattle.std.specs.Prelude.{◌≡◌, IfOk, OnOk};
ghost use Rattle.std.specs.Option.{option_map};
ghost use Rattle.std.specs.String.{string_bytes};
ghost use Rattle.h2_cmd_inject.specs.Wants.{going_on, text_at, unsaid, why_allowed};
ghost use Rattle.h2_cmd_inject.specs.Results.{AppendsOne, AppendsSome, AreVerdicts, IsNote, IsNoteIf, IsResult, IsVerdict, IsVerdictIf, decides, directive, has_broken, is_allowed, is_open, is_shown, is_unsettled, line_shown, note_mark};

use h2_cmd_check::{Title, result_front};
use h2_cmd_dialogue::findings::{Finding, Found};
use h2_cmd_dialogue::limits::LimitFault;
use h2_cmd_dialogue::play::End;
use h2_cmd_dialogue::verdict::{Judged, Taken, Wanted, WantedLine};
use h2_explain_words::names::Code;
use h2_io::say::{EscapedText, Hex, HexOctet, Say, TextBuilder};
use h2_io::say_all;
use h2_spec::causes::Cause;
use h2_spec::frames::type_name;
use h2_spec::octets::{first_octets, octets_from};
use std::alloc::{AllocError, Global};

/// How many seconds a silent client is waited for.
pub const PATIENCE: u32 = 3;

/// How many octets that are no frames are shown.
const SHOWN: usize = 24;

/// How a connection ended, as it is said.
#[derive(Clone, Copy)]
pub struct Ending<'p> {
    pub end: End,
    /// The cause of the server's error, if that ended it.
    pub cause: Option<Cause>,
    /// What came and is no whole item.
    pub rest: &'p [u8],
}

/// The text of a line, after its mark.
fn text_at<'t>(lines: &[&'t [u8]], line: usize) -> &'t [u8]
    ensures { result.now ≡ text_at lines.now line }
{
    let Some(text) = lines.get(line.saturating_sub(1)) else {
        return &[];
    };
    if text.len() < 3 {
        return &[];
    }
    octets_from(text, 3)
}

/// What is wanted where no line says it.
fn unsaid(found: Found) -> &'static str
    ensures { result.now ≡ unsaid found }
{
    match found {
        Found::Limit(_) | Found::Late(_) => "the limits of SETTINGS",
        Found::Ended(End::ByServer(_)) => "a client that the server goes on with",
        Found::Lingers => "the connection ends after GOAWAY with an error (5.4.1)",
        Found::Ended(_) | Found::Reaction(_, _) | Found::Sends(_) | Found::Missing => {
            "frames of a client, and their end"
        }
    }
}

/// Why the server ended a connection, in words.
fn say_cause(code: u32, cause: Option<Cause>, out: &mut TextBuilder) {
    match cause {
        Some(cause) => cause.name().say(out),
        None => Code(code).say(out),
    }
}

/// How a connection ended, in words.
fn say_end(ending: Ending<'_>, out: &mut TextBuilder) {
    match ending.end {
        End::Closed => "closed".say(out),
        End::Silent => "silent".say(out),
        End::ByServer(code) => {
            "ended by the server: ".say(out);
            say_cause(code, ending.cause, out);
        }
        End::NoFrames => {
            say_all!(out; "octets that are no frames: ", Hex(first_octets(ending.rest, SHOWN)));
        }
        End::TooMuch => "the client has sent more than 16777216 octets".say(out),
        End::Late => "the dialogue has not ended in its time".say(out),
    }
}

/// Why the RFC allows a reaction that a line does not say, if it does.
fn why_allowed(wanted: Wanted, taken: Taken) -> &'static str
    ensures { result.now ≡ why_allowed wanted taken }
{
    match (wanted, taken) {
        (Wanted::GoesOn, _) => "",
        (_, Taken::Closed) => ": no GOAWAY; 5.4.1 has SHOULD",
        (Wanted::Connection(_), Taken::Connection(_)) => ": another code, 5.4",
        (Wanted::Stream(_, _), Taken::Connection(_)) => {
            ": a connection error for a stream error, 5.4.2"
        }
        (Wanted::Stream(stream, _), Taken::Stream(reset, 1 | 2)) if stream == reset => {
            ": a generic code, 5.4"
        }
        _ => "",
    }
}

/// That a client goes on, in words. Where an error of a stream is wanted, it may end by itself, and its command fail.
fn going_on(wanted: Wanted, end: End) -> &'static str
    ensures { result.now ≡ going_on wanted end }
{
    match (wanted, end) {
        (Wanted::Stream(_, _), End::Silent) => "goes on, and the connection stays open",
        _ => "goes on",
    }
}

/// What a client did, in words.
fn say_taken(line: WantedLine, taken: Taken, end: End, out: &mut TextBuilder) {
    match taken {
        Taken::GoesOn => going_on(line.wanted, end).say(out),
        Taken::Connection(code) => say_all!(out; "connection ", Code(code)),
        Taken::Stream(stream, code) => say_all!(out; "stream ", stream, " ", Code(code)),
        Taken::Closed => "closed".say(out),
        Taken::Silent => "silent: no error, no answer to the PING, no end".say(out),
    }
    why_allowed(line.wanted, taken).say(out);
}

/// The name of a frame's type.
fn say_type(kind: u8, out: &mut TextBuilder) {
    match type_name(kind) {
        Some(name) => name.say(out),
        None => say_all!(out; "type ", HexOctet(kind)),
    }
}

/// What a client did against its limits, in words.
fn say_limit(fault: LimitFault, out: &mut TextBuilder) {
    match fault {
        LimitFault::NoSettings => "SETTINGS ACK without SETTINGS".say(out),
        LimitFault::LongFrame(kind, length, most) => {
            say_type(kind, out);
            say_all!(out; " of ", length, " octets, where ", most, " are allowed");
        }
        LimitFault::ManyStreams(stream, most) => {
            say_all!(out; "HEADERS on stream ", stream, ", where ", most, " streams are allowed");
        }
    }
}

/// What was found, in words.
fn say_found(finding: Finding, ending: Ending<'_>, out: &mut TextBuilder) {
    match finding.found {
        Found::Reaction(line, taken) => say_taken(line, taken, ending.end, out),
        Found::Sends(true) => "it is sent".say(out),
        Found::Sends(false) => "-".say(out),
        Found::Missing => {
            "no such item came; ".say(out);
            say_end(ending, out);
        }
        Found::Limit(fault) => say_limit(fault, out),
        Found::Late(count) => say_all!(out; count, " SETTINGS frames are not acknowledged"),
        Found::Ended(_) => say_end(ending, out),
        Found::Lingers => say_all!(out; "open after ", PATIENCE, " s"),
    }
}

/// A verdict that the RFC leaves open.
fn is_unsettled(judged: Judged) -> bool
    ensures { result ≡ is_unsettled judged }
{
    matches!(judged, Judged::Unsettled)
}

/// A verdict that the RFC allows.
fn is_allowed(judged: Judged) -> bool
    ensures { result ≡ is_allowed judged }
{
    matches!(judged, Judged::Allowed)
}

/// Whether a verdict is shown as that of the result: those that are broken, or, where none is, those that are open.
fn is_shown(judged: Judged, has_broken: bool) -> bool
    ensures { result ≡ is_shown has_broken judged }
{
    if has_broken {
        judged.is_broken()
    } else {
        is_unsettled(judged)
    }
}

/// Whether one of these is broken.
pub fn has_broken(findings: &[Finding]) -> bool
    ensures { result ≡ has_broken findings.now }
{
    findings.iter().any(|finding| finding.judged.is_broken())
}

/// Whether one of these is open.
fn is_open(findings: &[Finding]) -> bool
    ensures { result ≡ is_open findings.now }
{
    findings.iter().any(|finding| is_unsettled(finding.judged))
}

/// Whether one of these decides that the result is `not ok`.
fn decides(findings: &[Finding]) -> bool
    ensures { result ≡ decides findings.now }
{
    has_broken(findings) || is_open(findings)
}

/// The words after the name of a result.
fn directive(findings: &[Finding]) -> &'static str
    ensures { result.now ≡ directive findings.now }
{
    if has_broken(findings) {
        return "\n";
    }
    if is_open(findings) {
        return " # TODO the RFC leaves it open, or the code is neither named nor generic\n";
    }
    "\n"
}

/// The number of the line that a finding is about, from 1; that of the title, where it is about the dialogue.
fn line_shown(first: usize, finding: Finding) -> usize
    ensures { result ≡ line_shown first finding.line }
{
    if finding.line == 0 {
        first.saturating_add(1)
    } else {
        finding.line
    }
}

/// What is wanted, as a text: that of its line, with the characters escaped that have to be.
fn wanted_text(alloc: Global, lines: &[&[u8]], finding: Finding) -> Result<String, AllocError>
    ensures { finding.line ≡ 0 → IfOk result (λ text. string_bytes text ≡ unsaid finding.found) }
{
    if finding.line == 0 {
        return String::from_str(alloc, unsaid(finding.found));
    }
    let mut out = TextBuilder::with(alloc, true);
    EscapedText(text_at(lines, finding.line)).say(&mut out);
    out.finish()
}

/// What was found, as a text.
fn found_text(alloc: Global, finding: Finding, ending: Ending<'_>) -> Result<String, AllocError> {
    let mut out = TextBuilder::with(alloc, true);
    say_found(finding, ending, &mut out);
    out.finish()
}

/// A verdict in YAML.
fn verdict_text(
    alloc: Global,
    lines: &[&[u8]],
    first: usize,
    finding: Finding,
    ending: Ending<'_>,
) -> Result<String, AllocError>
    ensures { IfOk result (λ text. IsVerdict (line_shown first finding.line) (string_bytes text)) }
{
    let line = line_shown(first, finding);
    let wanted = wanted_text(alloc, lines, finding)?;
    let found = found_text(alloc, finding, ending)?;
    format!(in alloc; "  - line: {line}\n    wanted: \"{wanted}\"\n    found: \"{found}\"\n")
}

/// Appends a verdict in YAML, if it is shown.
fn push_verdict(
    alloc: Global,
    lines: &[&[u8]],
    first: usize,
    has_broken: bool,
    finding: Finding,
    ending: Ending<'_>,
    out: &mut Vec<u8>,
) -> Result<(), AllocError>
    ensures { OnOk result (AppendsOne (IsVerdictIf has_broken first finding) out.old.items out.new.items) }
{
    if !is_shown(finding.judged, has_broken) {
        return Ok(());
    }
    let text = verdict_text(alloc, lines, first, finding, ending)?;
    out.extend_from_slice(text.as_bytes())?;
    Ok(())
}

/// Appends the verdicts that are shown, in YAML.
fn push_verdicts(
    alloc: Global,
    lines: &[&[u8]],
    first: usize,
    has_broken: bool,
    findings: &[Finding],
    ending: Ending<'_>,
    out: &mut Vec<u8>,
) -> Result<(), AllocError>
    ensures { OnOk result (AppendsSome (IsVerdictIf has_broken first) findings.now out.old.items out.new.items) }
{
    for finding in findings {
        push_verdict(alloc, lines, first, has_broken, *finding, ending, out)?;
    }
    Ok(())
}

/// The words before a note: the connection is still open, or another reaction is allowed.
fn note_mark(found: Found) -> &'static str
    ensures { result.now ≡ note_mark found }
{
    match found {
        Found::Lingers => "# lingers: ",
        Found::Reaction(_, _)
        | Found::Sends(_)
        | Found::Missing
        | Found::Limit(_)
        | Found::Late(_)
        | Found::Ended(_) => "# allowed: ",
    }
}

/// A note in a comment.
fn note_text(
    alloc: Global,
    lines: &[&[u8]],
    finding: Finding,
    ending: Ending<'_>,
) -> Result<String, AllocError>
    ensures { IfOk result (λ text. IsNote finding.found (string_bytes text)) }
{
    let mark = note_mark(finding.found);
    let found = found_text(alloc, finding, ending)?;
    let wanted = wanted_text(alloc, lines, finding)?;
    format!(in alloc; "{mark}{found}; wanted: {wanted}\n")
}

/// Appends a note in a comment, where a verdict is that something is allowed.
fn push_note(
    alloc: Global,
    lines: &[&[u8]],
    finding: Finding,
    ending: Ending<'_>,
    out: &mut Vec<u8>,
) -> Result<(), AllocError>
    ensures { OnOk result (AppendsOne (IsNoteIf finding) out.old.items out.new.items) }
{
    if !is_allowed(finding.judged) {
        return Ok(());
    }
    let text = note_text(alloc, lines, finding, ending)?;
    out.extend_from_slice(text.as_bytes())
}

/// Appends the notes in comments.
fn push_notes(
    alloc: Global,
    lines: &[&[u8]],
    findings: &[Finding],
    ending: Ending<'_>,
    out: &mut Vec<u8>,
) -> Result<(), AllocError>
    ensures { OnOk result (AppendsSome IsNoteIf findings.now out.old.items out.new.items) }
{
    for finding in findings {
        push_note(alloc, lines, *finding, ending, out)?;
    }
    Ok(())
}

/// The verdicts that decide, as a block of YAML; nothing where none does.
fn verdicts_text(
    alloc: Global,
    lines: &[&[u8]],
    first: usize,
    findings: &[Finding],
    ending: Ending<'_>,
) -> Result<Vec<u8>, AllocError>
    ensures { IfOk result (λ text. AreVerdicts first findings.now text.items) }
{
    if !decides(findings) {
        return Ok(Vec::new(alloc));
    }
    let mut out = Vec::from_slice(alloc, b"  ---\n".as_slice())?;
    let has_broken = has_broken(findings);
    push_verdicts(alloc, lines, first, has_broken, findings, ending, &mut out)?;
    out.extend_from_slice(b"  ...\n".as_slice())?;
    Ok(out)
}

/// The text of the result of the dialogue with this number, from 1, whose first line is at this place of a file's.
///
/// `AllocError` where memory is refused.
pub fn result_text(
    alloc: Global,
    number: u64,
    title: Title<'_>,
    lines: &[&[u8]],
    first: usize,
    findings: &[Finding],
    ending: Ending<'_>,
) -> Result<Vec<u8>, AllocError>
    ensures { IfOk result (λ text. IsResult number title.entry.file.now (option_map (λ t. t.now) title.entry.title) first findings.now text.items) }
{
    let mut text = result_front(alloc, !decides(findings), number, title)?;
    text.extend_from_slice(directive(findings).as_bytes())?;
    let verdicts = verdicts_text(alloc, lines, first, findings, ending)?;
    text.extend_from_slice(verdicts.as_slice())?;
    push_notes(alloc, lines, findings, ending, &mut text)?;
    Ok(text)
}
