//! What a command does to a debugger, and the reply to it. Definition: `specs/Replies.antt`.

ghost use Rattle.std.specs.Prelude.{◌≡◌, option_map, Some};
ghost use Rattle.h2_debug.specs.Commands.{Back, BreakOn, Run, Step, Why};
ghost use Rattle.h2_debug.specs.Replies.{Obeys, moved_reply, reply_text, set_reply, why_reply};
ghost use Rattle.h2_debug.specs.Words.{asked_by};
ghost use Rattle.h2_debug.specs.Breakpoints.{break_of};

use crate::breakpoints::Break;
use crate::commands::command::Command;
use crate::commands::reply::Reply;
use crate::debugger::Debugger;
use crate::fault::DebugFault;
use h2_spec::special_cases::SpecialCase;
use std::alloc::Global;

/// The number of the fault of a line that is no command.
const BAD_COMMAND: u8 = 27;

/// The reply to a move.
fn moved(answer: Result<usize, DebugFault>) -> Reply
    ensures { result ≡ moved_reply answer }
{
    match answer {
        Ok(position) => Reply::At(position),
        Err(fault) => Reply::Refused(fault.number()),
    }
}

/// Goes forward over items.
fn step(debugger: &mut Debugger<'_, Global>, count: usize) -> Reply
    ensures { Obeys debugger.old (Some (Step count)) (reply_text debugger.new result) debugger.new }
{
    moved(debugger.step(count))
}

/// Goes back over items.
fn back(debugger: &mut Debugger<'_, Global>, count: usize) -> Reply
    ensures { Obeys debugger.old (Some (Back count)) (reply_text debugger.new result) debugger.new }
{
    moved(debugger.back(count))
}

/// Goes forward to the next stop.
fn run(debugger: &mut Debugger<'_, Global>) -> Reply
    ensures { Obeys debugger.old (Some Run) (reply_text debugger.new result) debugger.new }
{
    moved(debugger.run())
}

/// The reply to a breakpoint.
fn set(answer: Result<(), DebugFault>) -> Reply
    ensures { result ≡ set_reply answer }
{
    match answer {
        Ok(()) => Reply::Done,
        Err(fault) => Reply::Refused(fault.number()),
    }
}

/// Lets later runs stop there.
fn break_on(debugger: &mut Debugger<'_, Global>, stop: Break) -> Reply
    ensures { Obeys debugger.old (Some (BreakOn (break_of stop))) (reply_text debugger.new result) debugger.new }
{
    set(debugger.break_on(stop))
}

/// The reply to `why`.
fn explained(answer: Result<Option<SpecialCase>, DebugFault>) -> Reply
    ensures { result ≡ why_reply answer }
{
    match answer {
        Ok(case) => Reply::Explained(case),
        Err(fault) => Reply::Refused(fault.number()),
    }
}

/// Says why the present item was an error, or was ignored.
fn why(debugger: &mut Debugger<'_, Global>) -> Reply
    ensures { Obeys debugger.old (Some Why) (reply_text debugger.new result) debugger.new }
{
    explained(debugger.special_case())
}

/// Does what a line asks for.
pub fn obey(debugger: &mut Debugger<'_, Global>, command: Option<Command>) -> Reply
    ensures { Obeys debugger.old (option_map asked_by command) (reply_text debugger.new result) debugger.new }
{
    match command {
        None => Reply::Refused(BAD_COMMAND),
        Some(Command::Step(count)) => step(debugger, count as usize),
        Some(Command::Back(count)) => back(debugger, count as usize),
        Some(Command::Go(position)) => moved(debugger.go(position as usize)),
        Some(Command::Run) => run(debugger),
        Some(Command::Break(stop)) => break_on(debugger, stop),
        Some(Command::Clear) => {
            debugger.clear();
            Reply::Done
        }
        Some(Command::Show) => Reply::Shown,
        Some(Command::Why) => why(debugger),
    }
}
