//! Which trial a line names, and each failure in turn.

use crate::line::Call;
use crate::{bounds, debuggers, drives, feeds, heap, openings, programs, scripts, sessions};
use std::alloc::{AllocError, Global};

/// What a trial found.
#[derive(Drop)]
pub struct Reply {
    /// What was answered.
    pub text: String,
    /// Whether the failure that was asked for came: an allocation, a read or a write was refused.
    pub failed: bool,
}

/// The lines that answer a line of the input; none to a comment.
pub fn answered(alloc: Global, line: &str) -> Result<String, AllocError> {
    if line.starts_with(";") || line.is_empty() {
        return Ok(String::new(alloc));
    }
    match line.strip_prefix("each ") {
        Some(line) => in_turn(alloc, line),
        None => once(alloc, line),
    }
}

/// The first word of a line, and the rest.
fn verb_of(line: &str) -> (&str, &str) {
    match line.split_once(" ") {
        Some(parts) => parts,
        None => (line, ""),
    }
}

/// A trial in which nothing fails.
fn once(alloc: Global, line: &str) -> Result<String, AllocError> {
    let (verb, rest) = verb_of(line);
    let call = Call::of(alloc, rest)?;
    first_turn(alloc, verb, &call)
}

/// The reply of a trial in which nothing fails, as a line.
fn first_turn(alloc: Global, verb: &str, call: &Call<'_>) -> Result<String, AllocError> {
    let answer = tried(alloc, verb, call, 0)?;
    format!(in alloc; "  {}\n", answer.text)
}

/// More failures than any trial has.
const MOST: u64 = 100_000;

/// A trial in which the first allocation, read or write fails, then one in which the second does, and so on until one
/// in which nothing fails. An answer that is equal to the one before is left out.
fn in_turn(alloc: Global, line: &str) -> Result<String, AllocError> {
    let (verb, rest) = verb_of(line);
    let call = Call::of(alloc, rest)?;
    all_turns(alloc, verb, &call)
}

/// The replies of a trial with each failure in turn, a line each.
fn all_turns(alloc: Global, verb: &str, call: &Call<'_>) -> Result<String, AllocError> {
    let mut lines = Lines::new(alloc);
    for turn in 1..MOST {
        if !lines.add(alloc, verb, call, turn)? {
            return Ok(lines.all);
        }
    }
    String::from_str(alloc, "  more failures than were tried\n")
}

/// Lines, and the last one.
#[derive(Drop)]
struct Lines {
    all: String,
    last: String,
}

impl Lines {
    fn new(alloc: Global) -> Lines {
        Lines {
            all: String::new(alloc),
            last: String::new(alloc),
        }
    }

    /// Adds a line, unless it is the last one once more.
    fn add_line(&mut self, line: &str) -> Result<(), AllocError> {
        if line == self.last.as_str() {
            return Ok(());
        }
        self.last.clear();
        self.last.push_str(line)?;
        write!(self.all, "  {line}\n")
    }

    /// Adds the answer of a trial; whether something failed in it.
    fn add(
        &mut self,
        alloc: Global,
        verb: &str,
        call: &Call<'_>,
        turn: u64,
    ) -> Result<bool, AllocError> {
        let answer = tried(alloc, verb, call, turn)?;
        self.add_line(answer.text.as_str())?;
        Ok(answer.failed)
    }
}

/// A trial; the failure in this turn comes, counted from 1, and none at 0.
fn tried(alloc: Global, verb: &str, call: &Call<'_>, turn: u64) -> Result<Reply, AllocError> {
    match verb.split_once("-") {
        Some(("drive", verb)) => drives::tried(alloc, verb, call, turn),
        Some(("session", verb)) => sessions::tried(alloc, verb, call, turn),
        Some(("run", verb)) => programs::tried(alloc, verb, call, turn),
        _ => of_memory(alloc, verb, call, turn),
    }
}

/// A trial of memory.
fn of_memory(alloc: Global, verb: &str, call: &Call<'_>, turn: u64) -> Result<Reply, AllocError> {
    match verb {
        "feed" => feeds::fed(alloc, call, turn),
        "items" => feeds::sent(alloc, call),
        "copy" => feeds::copied_and_fed(alloc, call, turn),
        "open" => openings::opened(alloc, call, turn),
        "play" => openings::played(alloc, call, turn),
        "debug" => debuggers::asked(alloc, call, turn),
        "assemble" => scripts::assembled(alloc, call, turn),
        "disassemble" => scripts::disassembled(alloc, call, turn),
        "grant" => heap::granted(alloc, turn),
        "grow" => heap::grown(alloc, turn),
        "room" => bounds::room(alloc, call),
        "fits" => bounds::fits(alloc, call),
        "lends" => bounds::lends(alloc, call),
        _ => Err(AllocError),
    }
}
