//! What is found in a dialogue that was played: a verdict for each step, up to the first that the client did not go on from.
//! Definitions: `specs/Findings.antt`.

ghost use Rattle.std.specs.Prelude.{◌≡◌, ◌++◌, ◌∷◌, [], IfOk, OnOk};
ghost use Rattle.h2_cmd_dialogue.specs.Findings.{end_found, finding, findings_of, have_going_on, limits_found, lingers, missed_line, step_found, steps_found, taken_found, taken_from, with_played};

use crate::heard::{Ending, Heard, reaction_to};
use crate::limits::{LimitFault, Limits};
use crate::play::{Course, End};
use crate::step::Step;
use crate::verdict::{ByLine, Duty, Judged, Taken, WantedLine, best_of};
use crate::watched::events_from;
use std::alloc::{AllocError, Global};

/// What is found.
#[derive(Clone, Copy)]
pub enum Found {
    /// This reaction, where the line wants another.
    Reaction(WantedLine, Taken),
    /// What a line `;<` means was sent, or not.
    Sends(bool),
    /// The item of a step never came.
    Missing,
    /// Something against the limits of SETTINGS.
    Limit(LimitFault),
    /// This many SETTINGS are not acknowledged.
    Late(usize),
    /// The connection ended so.
    Ended(End),
    /// It is open after GOAWAY with an error; only a note.
    Lingers,
}

/// What is found, and the verdict on it.
#[derive(Clone, Copy)]
pub struct Finding {
    pub judged: Judged,
    /// The number of the line that it is about, from 1; 0 for the dialogue.
    pub line: usize,
    pub found: Found,
}

/// Appends what is found.
fn push(
    judged: Judged,
    line: usize,
    found: Found,
    findings: &mut Vec<Finding>,
) -> Result<(), AllocError>
    ensures { OnOk result (findings.new.items ≡ findings.old.items ++ finding judged line found ∷ []) }
{
    match findings.push(Finding {
        judged,
        line,
        found,
    }) {
        Ok(()) => Ok(()),
        Err(_) => Err(AllocError),
    }
}

/// Whether a client has to go on, by the first of these lines.
fn have_going_on(lines: &[WantedLine]) -> bool
    ensures { result ≡ have_going_on lines.now }
{
    match lines.first() {
        Some(line) => line.wanted.goes_on(),
        None => false,
    }
}

/// The verdict where a line `;<` does not hold, by the first of these lines of its step.
fn missed_line(lines: &[WantedLine]) -> Judged
    ensures { result ≡ missed_line lines.now }
{
    match lines.first() {
        Some(line) => match line.duty {
            Duty::Must => Judged::Broken,
            Duty::Unsettled | Duty::Should | Duty::May => Judged::Allowed,
        },
        None => Judged::Allowed,
    }
}

/// Appends how a connection ended, where that is none of the client's.
fn judge_end(end: End, findings: &mut Vec<Finding>) -> Result<(), AllocError>
    ensures { OnOk result (findings.new.items ≡ findings.old.items ++ end_found end) }
{
    match end {
        End::Closed | End::Silent => Ok(()),
        End::ByServer(_) | End::NoFrames | End::TooMuch | End::Late => {
            push(Judged::Broken, 0, Found::Ended(end), findings)
        }
    }
}

/// Appends what the client did against its limits.
fn judge_limits(limits: &Limits, findings: &mut Vec<Finding>) -> Result<(), AllocError>
    ensures { OnOk result (findings.new.items ≡ findings.old.items ++ limits_found limits.now) }
{
    let late = limits.late();
    match limits.fault() {
        Some(fault) => push(Judged::Broken, 0, Found::Limit(fault), findings),
        None => {
            if late > 0 {
                push(Judged::Broken, 0, Found::Late(late), findings)
            } else {
                Ok(())
            }
        }
    }
}

/// A connection that was played, and how it ended.
#[derive(Clone, Copy)]
pub struct Ended<'c, 'b> {
    pub course: &'c Course<'b>,
    pub end: End,
}

impl Ended<'_, '_> {
    /// What the client did from a step on.
    fn reaction(&self, number: usize, goes_on: bool) -> Taken
        ensures { result ≡ taken_from self.now.course.now self.now.end number goes_on }
    {
        let course = self.course;
        let watched = &course.watched;
        let events = events_from(watched.events.as_slice(), watched.mark(number));
        let ending = Ending {
            is_closed: self.end.is_closed(),
            waits: watched.limits.is_unanswered(),
            is_later: number.saturating_add(1) < watched.marks.len(),
        };
        reaction_to(
            course.weaver.base(),
            goes_on,
            Heard::of(events, goes_on),
            ending,
        )
    }

    /// Appends the verdict on a step that was taken. Says whether the client went on from it.
    fn judge_taken(
        &self,
        number: usize,
        step: &Step,
        findings: &mut Vec<Finding>,
    ) -> Result<bool, AllocError>
        ensures found { OnOk result (findings.new.items ≡ findings.old.items ++ (taken_found self.now.course.now self.now.end number step.now).0) }
        ensures on { IfOk result (λ on. on ≡ (taken_found self.now.course.now self.now.end number step.now).1) }
    {
        let wanted = step.wanted.as_slice();
        let taken = self.reaction(number, have_going_on(wanted));
        let Some(ByLine { line, judged }) = best_of(wanted, taken) else {
            return Ok(true);
        };
        if !judged.is_same() {
            push(judged, line.line, Found::Reaction(line, taken), findings)?;
            return Ok(taken.does_go_on() && !judged.is_broken());
        }
        let course = self.course;
        match course.watched.missed_sends(number, step.sends.as_slice()) {
            None => Ok(taken.does_go_on()),
            Some((line, sent)) => {
                let judged = missed_line(wanted);
                push(judged, line, Found::Sends(sent), findings)?;
                Ok(taken.does_go_on() && !judged.is_broken())
            }
        }
    }

    /// Appends the verdict on a step. Says whether those after it are judged.
    fn judge_step(
        &self,
        number: usize,
        step: &Step,
        findings: &mut Vec<Finding>,
    ) -> Result<bool, AllocError>
        ensures found { OnOk result (findings.new.items ≡ findings.old.items ++ (step_found self.now.course.now self.now.end number step.now).0) }
        ensures on { IfOk result (λ on. on ≡ (step_found self.now.course.now self.now.end number step.now).1) }
    {
        let course = self.course;
        if number < course.weaver.taken() {
            return self.judge_taken(number, step, findings);
        }
        if step.is_optional() {
            return Ok(true);
        }
        push(Judged::Broken, step.line, Found::Missing, findings)?;
        Ok(false)
    }

    /// Appends the verdicts on steps. Says whether the client went on from all of them.
    fn judge_steps(&self, steps: &[Step], findings: &mut Vec<Finding>) -> Result<bool, AllocError>
        ensures found { OnOk result (findings.new.items ≡ findings.old.items ++ (steps_found self.now.course.now self.now.end 0 steps.now).0) }
        ensures on { IfOk result (λ on. on ≡ (steps_found self.now.course.now self.now.end 0 steps.now).1) }
    {
        for (number, step) in steps.iter().enumerate() {
            if !self.judge_step(number, step, findings)? {
                return Ok(false);
            }
        }
        Ok(true)
    }

    /// Whether the connection is open after GOAWAY with an error.
    fn lingers(&self) -> bool
        ensures { result ≡ lingers self.now.end self.now.course.now.watched.events }
    {
        let course = self.course;
        self.end.is_silent() && course.watched.has_goaway()
    }

    /// Appends what is found of a connection that the server did not end.
    fn judge_played(&self, steps: &[Step], findings: &mut Vec<Finding>) -> Result<(), AllocError>
        ensures { OnOk result (findings.new.items ≡ with_played self.now.course.now self.now.end steps.now findings.old.items) }
    {
        let course = self.course;
        if self.judge_steps(steps, findings)? {
            judge_limits(&course.watched.limits, findings)?;
        }
        if self.lingers() {
            push(Judged::Allowed, 0, Found::Lingers, findings)?;
        }
        Ok(())
    }

    /// All that is found, but what is as it should be.
    ///
    /// `AllocError` where memory is refused.
    pub fn findings(&self, alloc: Global, steps: &[Step]) -> Result<Vec<Finding>, AllocError>
        ensures { IfOk result (λ found. found.items ≡ findings_of self.now.course.now self.now.end steps.now) }
    {
        let mut findings = Vec::new(alloc);
        judge_end(self.end, &mut findings)?;
        if !self.end.is_by_server() {
            self.judge_played(steps, &mut findings)?;
        }
        Ok(findings)
    }
}
