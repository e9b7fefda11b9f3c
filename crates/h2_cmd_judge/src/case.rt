//! The verdict on a server in a case: the worst of those beside its items. Definitions: `specs/CaseVerdicts.antt`.

ghost use Rattle.std.specs.Prelude.{◌≡◌, IfOk, map};
ghost use Rattle.h2_cmd_judge.specs.CaseVerdicts.{case_verdict, found_beside, found_with, judgement, or_same, seen_with, stray_in, stray_of, unreadable_in, unreadable_of, worse_or, worst, worst_after};
ghost use Rattle.h2_cmd_judge.specs.Judges.{error_of};

use crate::event::{Event, Item, Seen, Shown, shown_by};
use crate::judge::{
    Ending, Peer, Reaction, Verdict, error_of, judged, lawful_reaction, reaction_of, softened,
    worse,
};
use h2_spec::conforming::Observed;
use std::alloc::{AllocError, Global};
use std::marker::Model;

/// An item that is judged.
#[derive(Clone, Copy)]
pub struct Due {
    pub item: Item,
    /// Whether the RFC leaves a server more than the row of its rule says.
    pub is_left: bool,
}

/// What is found beside an item.
#[derive(Clone, Copy)]
pub struct Finding {
    pub verdict: Verdict,
    /// What this server does, where that is an error.
    pub own: Option<Observed>,
    /// What the server did; none where no error is due and it did the same.
    pub seen: Option<Reaction>,
    /// The stream and the code of the first RST_STREAM after it that is an error and not for it (`Shown`).
    pub elsewhere: Option<(u32, u32)>,
}

/// What is found in a case.
#[derive(Drop)]
pub struct Judgement {
    pub verdict: Verdict,
    /// What is found beside each item.
    pub findings: Vec<Finding>,
    /// The stream of a RST_STREAM that no frame of the case is on (RFC 9113, 6.4).
    pub stray: Option<u32>,
    /// The stream of a field block that can't be read (RFC 9113, 4.3).
    pub unreadable: Option<u32>,
}

impl Model for Judgement {
    ghost use Rattle.h2_cmd_judge.specs.CaseVerdicts as cases;

    ghost Value = { cases.Judgement };

    ghost view = { λ j. record { verdict = j.verdict; findings = j.findings.items; stray = j.stray; unreadable = j.unreadable } };
}

/// The stream that an event resets, where it is an error and no frame of the client is on that stream or a higher one.
fn stray_in(highest: u32, event: Event) -> Option<u32>
    ensures { result ≡ stray_in highest event }
{
    match event {
        Event::Reset(stream, code) => {
            if code != 0 && stream > highest {
                Some(stream)
            } else {
                None
            }
        }
        Event::Goaway(_)
        | Event::Answered(_, _, _)
        | Event::Ended(_)
        | Event::Acknowledged
        | Event::Pong(_)
        | Event::Credit(_, _)
        | Event::Unreadable(_) => None,
    }
}

/// The first stream that is reset so.
fn stray_of(highest: u32, events: &[Seen]) -> Option<u32>
    ensures { result ≡ stray_of highest events.now }
{
    for seen in events {
        if let Some(stream) = stray_in(highest, seen.event) {
            return Some(stream);
        }
    }
    None
}

/// The stream of a field block that can't be read.
fn unreadable_in(event: Event) -> Option<u32>
    ensures { result ≡ unreadable_in event }
{
    match event {
        Event::Unreadable(stream) => Some(stream),
        Event::Goaway(_)
        | Event::Reset(_, _)
        | Event::Answered(_, _, _)
        | Event::Ended(_)
        | Event::Acknowledged
        | Event::Pong(_)
        | Event::Credit(_, _) => None,
    }
}

/// The first of these streams.
fn unreadable_of(events: &[Seen]) -> Option<u32>
    ensures { result ≡ unreadable_of events.now }
{
    for seen in events {
        if let Some(stream) = unreadable_in(seen.event) {
            return Some(stream);
        }
    }
    None
}

/// What the server did, where this server has this error, or none.
fn seen_with(
    own_error: Option<Observed>,
    item: &Item,
    own: &Shown,
    theirs: &Shown,
    ending: Ending,
    peer: Peer,
) -> Option<Reaction>
    ensures { result ≡ seen_with own_error item.now own.now theirs.now ending peer }
{
    match own_error {
        Some(_) => Some(reaction_of(item, theirs, ending, peer)),
        None => lawful_reaction(item, own, theirs, ending),
    }
}

/// What is found beside an item of which this is seen.
fn found_with(due: &Due, own: &Shown, theirs: &Shown, ending: Ending, peer: Peer) -> Finding
    ensures { result ≡ found_with due.now own.now theirs.now ending peer }
{
    let own_error = error_of(own);
    Finding {
        verdict: softened(due.is_left, judged(&due.item, own, theirs, ending, peer)),
        own: own_error,
        seen: seen_with(own_error, &due.item, own, theirs, ending, peer),
        elsewhere: theirs.elsewhere,
    }
}

/// What is found beside an item, by what this server does in the case and what the server did.
pub fn found_beside(due: &Due, own: &[Seen], theirs: &[Seen], ending: Ending, peer: Peer) -> Finding
    ensures { result ≡ found_beside own.now theirs.now ending peer due.now }
{
    let own_shown = shown_by(&due.item, own);
    let shown = shown_by(&due.item, theirs);
    found_with(due, &own_shown, &shown, ending, peer)
}

/// What is found beside each item.
fn findings(
    alloc: Global,
    dues: &[Due],
    own: &[Seen],
    theirs: &[Seen],
    ending: Ending,
    peer: Peer,
) -> Result<Vec<Finding>, AllocError>
    ensures { IfOk result (λ found. found.items ≡ map (found_beside own.now theirs.now ending peer) dues.now) }
{
    let mut found = Vec::new(alloc);
    for due in dues {
        match found.push(found_beside(due, own, theirs, ending, peer)) {
            Ok(()) => {}
            Err(_) => return Err(AllocError),
        }
    }
    Ok(found)
}

/// The worse of two verdicts, where there is one before.
fn worse_or(before: Option<Verdict>, verdict: Verdict) -> Verdict
    ensures { result ≡ worse_or before verdict }
{
    match before {
        Some(before) => worse(before, verdict),
        None => verdict,
    }
}

/// The worst verdict, if there is one.
fn worst(findings: &[Finding]) -> Option<Verdict>
    ensures { result ≡ worst findings.now }
{
    let mut found = None;
    for finding in findings {
        found = Some(worse_or(found, finding.verdict));
    }
    found
}

/// A verdict, or that the server does the same.
fn or_same(verdict: Option<Verdict>) -> Verdict
    ensures { result ≡ or_same verdict }
{
    match verdict {
        Some(verdict) => verdict,
        None => Verdict::Same,
    }
}

/// The verdict in a case.
fn case_verdict(findings: &[Finding], stray: Option<u32>, unreadable: Option<u32>) -> Verdict
    ensures { result ≡ case_verdict findings.now stray unreadable }
{
    if stray.is_some() || unreadable.is_some() {
        Verdict::Broken
    } else {
        or_same(worst(findings))
    }
}

/// The verdict on a server that did `theirs` in a case where this server does `own`; `highest` is the highest stream that a
/// frame of the case is on.
///
/// `AllocError` where memory is refused.
pub fn judge_case(
    alloc: Global,
    dues: &[Due],
    highest: u32,
    own: &[Seen],
    theirs: &[Seen],
    ending: Ending,
    peer: Peer,
) -> Result<Judgement, AllocError>
    ensures { IfOk result (λ j. j ≡ judgement dues.now highest own.now theirs.now ending peer) }
{
    let stray = stray_of(highest, theirs);
    let unreadable = unreadable_of(theirs);
    let findings = findings(alloc, dues, own, theirs, ending, peer)?;
    Ok(Judgement {
        verdict: case_verdict(findings.as_slice(), stray, unreadable),
        findings,
        stray,
        unreadable,
    })
}
