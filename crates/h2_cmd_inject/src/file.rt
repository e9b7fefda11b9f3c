//! A file of dialogues: each line is read, and the first that is none of a dialogue is refused with its number. Definitions:
//! `specs/Dialogues.antt`.

ghost use Rattle.std.specs.Prelude.{◌≡◌, ◌++◌, ◌∷◌, [], None, Ok, map, option_to_list, IfOk, OnOk};
ghost use Rattle.h2_cmd_cases.specs.Lines.{line_said};
ghost use Rattle.h2_cmd_inject.specs.Dialogues.{ReadsFile, Takes, begun, dialogues_said, ended_before, first_taken, is_comment, is_comment_behind, later_taken, line_taken, nothing_read, script_taken, text_taken, with_frame, with_sends, with_step, with_wanted};

use crate::script_lines::{frame_of, is_status, item_of, sends_of, wanted_of};
use crate::why::{LineRefusal, Why};
use h2_cmd_cases::{Line, line_of};
use h2_cmd_dialogue::step::Step;
use std::alloc::{AllocError, Global};
use std::marker::Model;
use std::mem;

/// Why a file is refused.
#[derive(Clone, Copy)]
pub enum FileRefusal {
    NoMemory,
    /// The line with this number, from 1, is none of a dialogue.
    Line(usize, Why),
}

/// A dialogue of a file.
#[derive(Drop)]
pub struct Dialogue {
    /// The place of its first line, from 0.
    pub first: usize,
    /// How many lines it has.
    pub count: usize,
    pub steps: Vec<Step>,
}

impl Model for Dialogue {
    ghost use Rattle.h2_cmd_inject.specs.Dialogues as files;

    ghost Value = { files.Dialogue };

    ghost view = { λ d. record { first = d.first; count = d.count; steps = d.steps.items } };
}

/// A file, as far as it was read.
#[derive(Drop)]
struct Reading {
    /// The dialogues before the last.
    dialogues: Vec<Dialogue>,
    /// The place of the first line of the last, if one begins.
    first: Option<usize>,
    /// The steps of the last, but its last step.
    steps: Vec<Step>,
    last: Option<Step>,
}

impl Model for Reading {
    ghost use Rattle.h2_cmd_inject.specs.Dialogues as files;

    ghost Value = { files.Reading };

    ghost view = { λ r. record { dialogues = r.dialogues.items; first = r.first; steps = r.steps.items; last = r.last } };
}

/// Appends a step.
fn push_step(step: Step, steps: &mut Vec<Step>) -> Result<(), AllocError>
    ensures { OnOk result (steps.new.items ≡ steps.old.items ++ step ∷ []) }
{
    match steps.push(step) {
        Ok(()) => Ok(()),
        Err(_) => Err(AllocError),
    }
}

/// Whether what follows a semicolon makes a line a comment: nothing, a blank, or one more.
fn is_comment_behind(text: &[u8]) -> bool
    ensures { result ≡ is_comment_behind text.now }
{
    text.is_empty() || text[0] == b' ' || text[0] == b';'
}

/// Whether a line without a mark of a case is a comment, or empty.
fn is_comment(text: &[u8]) -> bool
    ensures { result ≡ is_comment text.now }
{
    match text.split_first() {
        None => true,
        Some((first, rest)) => *first == b';' && is_comment_behind(rest),
    }
}

impl Reading {
    /// Nothing was read.
    fn new(alloc: Global) -> Reading
        ensures { result ≡ nothing_read }
    {
        Reading {
            dialogues: Vec::new(alloc),
            first: None,
            steps: Vec::new(alloc),
            last: None,
        }
    }

    /// No line of the last step follows.
    fn end_step(&mut self) -> Result<(), AllocError>
        ensures { OnOk result (self.new ≡ record self.old { steps = self.old.steps ++ option_to_list self.old.last; last = None }) }
    {
        match self.last.take() {
            Some(step) => push_step(step, &mut self.steps),
            None => Ok(()),
        }
    }

    /// Appends the last dialogue to the others.
    fn push_dialogue(&mut self, alloc: Global, first: usize, count: usize) -> Result<(), AllocError>
        ensures { OnOk result (self.new ≡ record self.old {
          dialogues = self.old.dialogues ++ record { first = first; count = count; steps = self.old.steps } ∷ [];
          steps = [];
        }) }
    {
        let steps = mem::replace(&mut self.steps, Vec::new(alloc));
        match self.dialogues.push(Dialogue {
            first,
            count,
            steps,
        }) {
            Ok(()) => Ok(()),
            Err(_) => Err(AllocError),
        }
    }

    /// The last dialogue ends before this place, if there is one.
    fn end(&mut self, alloc: Global, place: usize) -> Result<(), AllocError>
        ensures { OnOk result (self.new ≡ ended_before place self.old) }
    {
        let Some(first) = self.first else {
            return Ok(());
        };
        self.end_step()?;
        self.push_dialogue(alloc, first, place.saturating_sub(first))
    }

    /// A dialogue begins at the line with this number.
    fn begin(&mut self, alloc: Global, line: usize) -> Result<(), LineRefusal>
        ensures { Takes result self.new (Ok (begun line self.old)) }
    {
        let place = line.saturating_sub(1);
        self.end(alloc, place)?;
        self.first = Some(place);
        Ok(())
    }

    /// A step begins at the line with this number.
    fn begin_step(
        &mut self,
        alloc: Global,
        line: usize,
        is_instead: bool,
        item: &[u8],
    ) -> Result<(), LineRefusal>
        ensures { Takes result self.new (with_step line is_instead item.now self.old) }
    {
        let awaited = item_of(alloc, item)?;
        self.end_step()?;
        self.last = Some(Step {
            line,
            awaited,
            is_instead,
            frames: Vec::new(alloc),
            wanted: Vec::new(alloc),
            sends: Vec::new(alloc),
        });
        Ok(())
    }

    /// A frame of the last step.
    fn add_frame(&mut self, alloc: Global, text: &[u8]) -> Result<(), LineRefusal>
        ensures { Takes result self.new (with_frame text.now self.old) }
    {
        let Some(mut step) = self.last.take() else {
            return Err(LineRefusal::Because(Why::NoStep));
        };
        let frame = frame_of(alloc, text)?;
        match step.frames.push(frame) {
            Ok(()) => {}
            Err(_) => return Err(LineRefusal::NoMemory),
        }
        self.last = Some(step);
        Ok(())
    }

    /// A line `;<` of the last step, with this number.
    fn add_sends(&mut self, alloc: Global, line: usize, text: &[u8]) -> Result<(), LineRefusal>
        ensures { Takes result self.new (with_sends line text.now self.old) }
    {
        let Some(mut step) = self.last.take() else {
            return Err(LineRefusal::Because(Why::NoStep));
        };
        let sends = sends_of(alloc, line, text)?;
        match step.sends.push(sends) {
            Ok(()) => {}
            Err(_) => return Err(LineRefusal::NoMemory),
        }
        self.last = Some(step);
        Ok(())
    }

    /// A line `;!` of the last step, with this number.
    fn add_wanted(&mut self, line: usize, text: &[u8]) -> Result<(), LineRefusal>
        ensures { Takes result self.new (with_wanted line text.now self.old) }
    {
        let Some(mut step) = self.last.take() else {
            return Err(LineRefusal::Because(Why::NoStep));
        };
        let wanted = wanted_of(line, text)?;
        match step.wanted.push(wanted) {
            Ok(()) => {}
            Err(_) => return Err(LineRefusal::NoMemory),
        }
        self.last = Some(step);
        Ok(())
    }

    /// A comment, a mark that is none, or a frame of the last step.
    fn take_text(&mut self, alloc: Global, text: &[u8]) -> Result<(), LineRefusal>
        ensures { Takes result self.new (text_taken text.now self.old) }
    {
        if is_comment(text) {
            return Ok(());
        }
        if text.starts_with(b";".as_slice()) {
            return Err(LineRefusal::Because(Why::Mark));
        }
        self.add_frame(alloc, text)
    }

    /// A line without a mark of a case, with this number: a step begins, a status, or a frame of the last step.
    fn take_script(&mut self, alloc: Global, line: usize, text: &[u8]) -> Result<(), LineRefusal>
        ensures { Takes result self.new (script_taken line text.now self.old) }
    {
        if let Some(item) = text.strip_prefix(b";+ ".as_slice()) {
            return self.begin_step(alloc, line, false, item);
        }
        if let Some(item) = text.strip_prefix(b";- ".as_slice()) {
            return self.begin_step(alloc, line, true, item);
        }
        if let Some(status) = text.strip_prefix(b";$ ".as_slice()) {
            if is_status(status) {
                return Ok(());
            }
            return Err(LineRefusal::Because(Why::Status));
        }
        self.take_text(alloc, text)
    }

    /// A line before the first dialogue, with this number.
    fn take_first(&mut self, alloc: Global, line: usize, text: &[u8]) -> Result<(), LineRefusal>
        ensures { Takes result self.new (first_taken line (line_said text.now) self.old) }
    {
        match line_of(text) {
            Line::Title(_) => self.begin(alloc, line),
            Line::Script(text) => {
                if is_comment(text) {
                    Ok(())
                } else {
                    Err(LineRefusal::Because(Why::NoTitle))
                }
            }
            Line::Words(_)
            | Line::Sent(_)
            | Line::Cause(_)
            | Line::Shown(_)
            | Line::Reason(_)
            | Line::Explained(_)
            | Line::Command(_)
            | Line::Unspaced(_) => Err(LineRefusal::Because(Why::NoTitle)),
        }
    }

    /// A line of a dialogue, or the first of the next, with this number.
    fn take_later(&mut self, alloc: Global, line: usize, text: &[u8]) -> Result<(), LineRefusal>
        ensures { Takes result self.new (later_taken line (line_said text.now) self.old) }
    {
        match line_of(text) {
            Line::Title(_) => self.begin(alloc, line),
            Line::Words(_) => Ok(()),
            Line::Script(text) => self.take_script(alloc, line, text),
            Line::Sent(text) => self.add_sends(alloc, line, text),
            Line::Cause(text) => self.add_wanted(line, text),
            Line::Shown(_)
            | Line::Reason(_)
            | Line::Explained(_)
            | Line::Command(_)
            | Line::Unspaced(_) => Err(LineRefusal::Because(Why::Mark)),
        }
    }

    /// A line of the file, with this number from 1.
    fn take(&mut self, alloc: Global, line: usize, text: &[u8]) -> Result<(), LineRefusal>
        ensures { Takes result self.new (line_taken line text.now self.old) }
    {
        match self.first {
            Some(_) => self.take_later(alloc, line, text),
            None => self.take_first(alloc, line, text),
        }
    }

    /// The dialogues, of a file with this many lines.
    fn finish(self, alloc: Global, count: usize) -> Result<Vec<Dialogue>, AllocError>
        ensures { IfOk result (λ dialogues. dialogues.items ≡ (ended_before count self).dialogues) }
    {
        let mut reading = self;
        reading.end(alloc, count)?;
        Ok(reading.dialogues)
    }
}

/// The dialogues of a file's lines.
///
/// `Line` for the first line that is none of a dialogue; `NoMemory` may come before.
pub fn dialogues_of(alloc: Global, lines: &[&[u8]]) -> Result<Vec<Dialogue>, FileRefusal>
    ensures { ReadsFile (λ v. v.items) result (dialogues_said (map (λ l. l.now) lines.now)) }
{
    let mut reading = Reading::new(alloc);
    for (place, text) in lines.iter().enumerate() {
        match reading.take(alloc, place + 1, text) {
            Ok(()) => {}
            Err(LineRefusal::NoMemory) => return Err(FileRefusal::NoMemory),
            Err(LineRefusal::Because(why)) => return Err(FileRefusal::Line(place + 1, why)),
        }
    }
    match reading.finish(alloc, lines.len()) {
        Ok(dialogues) => Ok(dialogues),
        Err(_) => Err(FileRefusal::NoMemory),
    }
}
