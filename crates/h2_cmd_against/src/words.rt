//! The YAML of a case, after the line of its result. No definition speaks of these texts.

use crate::ends::{CaseEnd, Refusal, Skip};
use h2_cmd_items::sent::Sent;
use h2_cmd_judge::case::{Finding, Judgement};
use h2_cmd_judge::judge::{Reaction, Unseen, Verdict};
use h2_explain_text::others::no_errors;
use h2_explain_words::names::Code;
use h2_io::say::{Say, TextBuilder};
use h2_io::say_all;
use h2_spec::accepted::Accepted;
use h2_spec::conforming::{Codes, Observed, Reactions};
use h2_spec::rules::ServerDuty;
use std::alloc::{AllocError, Global};

/// A reaction in words.
fn say_observed(seen: Observed, out: &mut TextBuilder) {
    match seen {
        Observed::ConnectionError(code) => say_all!(out; "connection error ", Code(code)),
        Observed::StreamError(code) => say_all!(out; "stream error ", Code(code)),
        Observed::Close => say_all!(out; "the end of the connection"),
        Observed::Answer => say_all!(out; "an answer of 400 or more"),
        Observed::Ignore => say_all!(out; "it is ignored"),
        Observed::Accept => say_all!(out; "it takes effect"),
        Observed::Wait => say_all!(out; "waiting for more octets"),
        Observed::Http1 => say_all!(out; "an answer in HTTP/1.1"),
    }
}

/// What was seen, in words.
fn say_seen(seen: Reaction, out: &mut TextBuilder) {
    match seen {
        Reaction::One(seen) => say_observed(seen, out),
        Reaction::Served => say_all!(out; "an answer"),
        Reaction::Either => say_all!(out; "an answer as a lawful request gets it"),
        Reaction::Refused => say_observed(Observed::Answer, out),
        Reaction::Quiet | Reaction::Pending | Reaction::Waiting => say_all!(out; "nothing"),
        Reaction::Silent | Reaction::SilentWaiting => say_all!(out; "nothing, not even for PING"),
        Reaction::Missing => say_all!(out; "no answer"),
        Reaction::Closed | Reaction::AfterGoaway => say_observed(Observed::Close, out),
        Reaction::TimedOut => say_observed(Observed::ConnectionError(4), out),
    }
}

/// Codes of an error, in words, after `lead`. Gives what is before the next part.
fn say_codes(
    lead: &'static str,
    scope: &'static str,
    codes: Codes,
    out: &mut TextBuilder,
) -> &'static str {
    match codes {
        Codes::None => return lead,
        Codes::One(code) => say_all!(out; lead, scope, Code(code)),
        Codes::Two(one, other) => say_all!(out; lead, scope, Code(one), " or ", Code(other)),
        Codes::Any => say_all!(out; lead, scope, "with any code"),
    }
    "; "
}

/// Reactions, in words; a dash for none.
fn say_reactions(these: Reactions, out: &mut TextBuilder) {
    let mut lead = say_codes("", "connection error ", these.connection, out);
    lead = say_codes(lead, "stream error ", these.stream, out);
    for other in no_errors() {
        if these.is_named(*other) {
            say_all!(out; lead);
            say_observed(*other, out);
            lead = "; ";
        }
    }
    if lead.is_empty() {
        say_all!(out; "-");
    }
}

/// Why an item is not judged, in words.
fn unseen_words(why: Unseen) -> &'static str {
    match why {
        Unseen::ConnectionEnded => "the connection had ended",
        Unseen::OtherState =>
            "the stream had another state; mostly it was answered before (RFC 9113, 8.1)",
        Unseen::LongerFrames => "the server takes longer frames",
        Unseen::LargerWindows => "the server's windows are larger",
        Unseen::KnowsProtocol => "the server knows :protocol (RFC 8441)",
    }
}

/// The word of a verdict.
fn verdict_word(verdict: Verdict) -> &'static str {
    match verdict {
        Verdict::Same => "same",
        Verdict::Allowed => "allowed",
        Verdict::Doubtful => "doubtful",
        Verdict::Broken => "broken",
        Verdict::Skipped(_) => "skipped",
    }
}

/// Whether nothing was seen that an item asks for.
fn is_nothing(seen: Option<Reaction>) -> bool {
    match seen {
        Some(
            Reaction::Quiet
            | Reaction::Pending
            | Reaction::Waiting
            | Reaction::Silent
            | Reaction::SilentWaiting
            | Reaction::Missing,
        ) => true,
        _ => false,
    }
}

/// What was seen beside an item, in words: RST_STREAM that is not for it instead of nothing.
fn say_found(finding: &Finding, out: &mut TextBuilder) {
    if is_nothing(finding.seen) {
        if let Some((stream, code)) = finding.elsewhere {
            say_all!(out; "RST_STREAM on stream ", stream, " with ", Code(code));
            return;
        }
    }
    match finding.seen {
        Some(seen) => say_seen(seen, out),
        None => "as wanted".say(out),
    }
}

/// Why a reaction is allowed that this server does not have, in words.
fn why_allowed(own: Option<Observed>, seen: Option<Reaction>) -> &'static str {
    match (own, seen) {
        (_, Some(Reaction::One(Observed::Close))) => "the end without GOAWAY, RFC 9113 5.4.1",
        (Some(Observed::StreamError(_)), Some(Reaction::One(Observed::ConnectionError(_)))) => {
            "a connection error for a stream error, RFC 9113 5.4.1"
        }
        (Some(_), Some(Reaction::One(Observed::ConnectionError(1 | 2))))
        | (Some(_), Some(Reaction::One(Observed::StreamError(1 | 2)))) => {
            "a code that fits each error, RFC 9113 5.4"
        }
        (_, Some(Reaction::Refused | Reaction::Either)) => {
            "an answer for a malformed request, RFC 9113 8.1.1"
        }
        _ => "the row of the rule has it",
    }
}

/// Why a reaction is allowed beside an item whose row does not have it: the name, the section and the sentence of another row.
fn say_row(accepted: Accepted, out: &mut TextBuilder) {
    let row = accepted.row();
    say_all!(out; row.name, ", ", row.section, ": ", row.sentence);
}

/// Why a reaction is allowed, in words.
fn say_why(finding: &Finding, out: &mut TextBuilder) {
    match finding.seen {
        Some(Reaction::AfterGoaway) => say_row(Accepted::Goaway, out),
        Some(Reaction::TimedOut) => say_row(Accepted::SettingsNotAcknowledged, out),
        seen => say_all!(out; why_allowed(finding.own, seen)),
    }
}

/// What this server does, in words.
fn say_own(own: Option<Observed>, out: &mut TextBuilder) {
    match own {
        Some(own) => say_observed(own, out),
        None => say_all!(out; "no error"),
    }
}

/// What is to be said about an item.
fn say_finding(sent: &Sent, finding: &Finding, out: &mut TextBuilder) {
    if let Verdict::Same = finding.verdict {
        return;
    }
    let row = sent.row;
    say_all!(out; "  - item: ", sent.number, "\n    verdict: ", verdict_word(finding.verdict));
    say_all!(out; "\n    rule: ", row.name, ", ", row.section);
    if let Verdict::Skipped(why) = finding.verdict {
        say_all!(out; "\n    why: ", unseen_words(why), "\n");
        return;
    }
    let duty = match row.duties.server {
        ServerDuty::Must => "MUST",
        ServerDuty::Should => "SHOULD",
        ServerDuty::May => "MAY",
        ServerDuty::Own => "left to the server",
    };
    say_all!(out; ", ", duty, "\n    wanted: ");
    say_own(finding.own, out);
    "\n    allowed: ".say(out);
    say_reactions(row.duties.conforming.allowed, out);
    "\n    open: ".say(out);
    say_reactions(row.duties.conforming.open, out);
    "\n    seen: ".say(out);
    say_found(finding, out);
    if let Verdict::Allowed = finding.verdict {
        "\n    why: ".say(out);
        say_why(finding, out);
    }
    "\n".say(out);
}

/// What is to be said about a case.
fn say_findings(judged: &[Sent], judgement: &Judgement, out: &mut TextBuilder) {
    "  ---\n".say(out);
    for (sent, finding) in judged.iter().zip(judgement.findings.as_slice()) {
        say_finding(sent, finding, out);
    }
    if let Some(stream) = judgement.stray {
        say_all!(out; "  - verdict: broken\n    rule: RFC 9113 6.4, MUST NOT\n    seen: RST_STREAM on the idle stream ", stream, "\n");
    }
    if let Some(stream) = judgement.unreadable {
        say_all!(out; "  - verdict: broken\n    rule: RFC 9113 4.3\n    seen: a field block that can't be read, on stream ", stream, "\n");
    }
    "  ...\n".say(out);
}

/// Why a case is skipped, in words: as for its first item.
fn skip_words(judgement: &Judgement) -> &'static str {
    for finding in judgement.findings.as_slice() {
        if let Verdict::Skipped(why) = finding.verdict {
            return unseen_words(why);
        }
    }
    "no item is judged"
}

/// Why a case is passed over, in words.
fn passed_words(why: Skip) -> &'static str {
    match why {
        Skip::SendsNothing => "it sends nothing",
        Skip::OtherOctets => "the client sent other octets",
        Skip::Cut => "it took more than 5 s, or more than 16 MiB came",
    }
}

/// Why a case can't be played, in words.
fn refusal_words(why: &Refusal) -> &str {
    match why {
        Refusal::NothingListens => "nothing listens on the port any more",
        Refusal::BadLimits => "a limit or a setting is out of range",
        Refusal::Unread => "the file can't be read",
        Refusal::TooLong => "the file has more than 16777216 octets",
        Refusal::NoText => "the file is not UTF-8",
        Refusal::Words(why) => why.as_str(),
    }
}

/// The words of a verdict, after its line.
fn say_judged(sent: &[Sent], judgement: &Judgement, out: &mut TextBuilder) {
    if let Verdict::Skipped(_) = judgement.verdict {
        say_all!(out; skip_words(judgement), "\n");
    } else {
        say_findings(sent, judgement, out);
    }
}

/// The words of a case with these items, after the line of its result.
///
/// `AllocError` where memory is refused.
pub fn details(alloc: Global, sent: &[Sent], end: &CaseEnd) -> Result<Vec<u8>, AllocError> {
    let mut out = TextBuilder::with(alloc, true);
    match end {
        CaseEnd::Judged(judgement) => say_judged(sent, judgement, &mut out),
        CaseEnd::Skipped(why) => say_all!(&mut out; passed_words(*why), "\n"),
        CaseEnd::Refused(why) => {
            say_all!(&mut out; "  ---\n  - found: ", refusal_words(why), "\n  ...\n")
        }
    }
    out.into_octets()
}
