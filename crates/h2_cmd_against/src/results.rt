//! The results of cases, by version 13 of the Test Anything Protocol. Definitions: `specs/Results.antt`.

ghost use Rattle.std.specs.Prelude.{◌≡◌, [], IfOk, OnOk, option_map, true};
ghost use Rattle.h2_cmd_against.specs.Results.{Adds, AddsResult, directive, emptied, end_text, is_ok, is_plain, no_case};

use crate::counts::{Counts, Rule, count_broken, end_text};
use crate::ends::{CaseEnd, is_same};
use crate::words::details;
use h2_cmd_check::{Title, result_front};
use h2_cmd_items::sent::Sent;
use h2_cmd_judge::judge::Verdict;
use std::alloc::{AllocError, Global};
use std::marker::Model;
use std::mem;

/// The results of some first cases of a file, and what was counted with those of the files before.
#[derive(Drop)]
pub struct SoFar {
    pub counts: Counts,
    /// The rules that were broken, each once, in the order in which they were.
    pub rules: Vec<Rule>,
    /// The text of the results.
    pub text: Vec<u8>,
}

impl Model for SoFar {
    ghost use Rattle.h2_cmd_against.specs.Results as results;

    ghost Value = { results.SoFar };

    ghost view = { λ s. record { counts = s.counts; rules = s.rules.items; text = s.text.items } };
}

/// Whether the line of a result begins with `ok`.
fn is_ok(end: &CaseEnd) -> bool
    ensures { result ≡ is_ok end.now }
{
    match end {
        CaseEnd::Judged(judgement) => match judgement.verdict {
            Verdict::Same | Verdict::Allowed | Verdict::Skipped(_) => true,
            Verdict::Doubtful | Verdict::Broken => false,
        },
        CaseEnd::Skipped(_) => true,
        CaseEnd::Refused(_) => false,
    }
}

/// The words after the name of a result.
fn directive(end: &CaseEnd) -> &'static str
    ensures { result.now ≡ directive end.now }
{
    match end {
        CaseEnd::Judged(judgement) => match judgement.verdict {
            Verdict::Same | Verdict::Allowed | Verdict::Broken => "\n",
            Verdict::Doubtful => " # TODO doubtful\n",
            Verdict::Skipped(_) => " # SKIP ",
        },
        CaseEnd::Skipped(_) => " # SKIP ",
        CaseEnd::Refused(_) => "\n",
    }
}

/// Whether the line of a result is all that is said.
fn is_plain(end: &CaseEnd) -> bool
    ensures { result ≡ is_plain end.now }
{
    match end {
        CaseEnd::Judged(judgement) => is_same(judgement.verdict),
        CaseEnd::Skipped(_) | CaseEnd::Refused(_) => false,
    }
}

/// What is said after the line of a result.
fn more(alloc: Global, sent: &[Sent], end: &CaseEnd) -> Result<Vec<u8>, AllocError>
    ensures { IfOk result (λ text. is_plain end.now ≡ true → text.items ≡ []) }
{
    if is_plain(end) {
        return Ok(Vec::new(alloc));
    }
    details(alloc, sent, end)
}

/// Appends the text of a result.
fn add_result(
    alloc: Global,
    number: u64,
    title: Title<'_>,
    sent: &[Sent],
    end: &CaseEnd,
    text: &mut Vec<u8>,
) -> Result<(), AllocError>
    ensures { OnOk result (AddsResult number title.entry.file.now (option_map (λ t. t.now) title.entry.title) end.now text.old.items text.new.items) }
{
    let front = result_front(alloc, is_ok(end), number, title)?;
    let more = more(alloc, sent, end)?;
    text.extend_from_slice(front.as_slice())?;
    text.extend_from_slice(directive(end).as_bytes())?;
    text.extend_from_slice(more.as_slice())
}

impl SoFar {
    /// No case yet. Takes no memory.
    pub fn new(alloc: Global) -> SoFar
        ensures { result ≡ no_case }
    {
        SoFar {
            counts: Counts::new(),
            rules: Vec::new(alloc),
            text: Vec::new(alloc),
        }
    }

    /// The lines after the results.
    ///
    /// `AllocError` where memory is refused.
    pub fn end(&self, alloc: Global) -> Result<Vec<u8>, AllocError>
        ensures { IfOk result (λ text. text.items ≡ end_text self.now.counts self.now.rules) }
    {
        end_text(alloc, self.counts, self.rules.as_slice())
    }

    /// Takes the text out.
    pub fn take_text(&mut self, alloc: Global) -> Vec<u8>
        ensures { (result.items ≡ self.old.text) × (self.new ≡ emptied self.old) }
    {
        mem::replace(&mut self.text, Vec::new(alloc))
    }

    /// Adds the result of a case with these items, and counts it.
    ///
    /// `AllocError` where memory is refused.
    pub fn add(
        &mut self,
        alloc: Global,
        title: Title<'_>,
        sent: &[Sent],
        end: &CaseEnd,
    ) -> Result<(), AllocError>
        ensures { OnOk result (Adds title.entry.file.now (option_map (λ t. t.now) title.entry.title) sent.now end.now self.old self.new) }
    {
        self.counts = self.counts.with_end(end);
        add_result(alloc, self.counts.all, title, sent, end, &mut self.text)?;
        count_broken(alloc, &mut self.rules, sent, end)
    }
}
