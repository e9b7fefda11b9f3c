//! The commands of `debug`, and the lines that spell them: exactly one space between words. Definitions:
//! `specs/Commands.antt`, `specs/Words.antt`.

ghost use Rattle.std.specs.Prelude.{◌≡◌, option_map};
ghost use Rattle.h2_debug.specs.Commands.{break_of, command_of, word_of};
ghost use Rattle.h2_debug.specs.Words.{asked_by};
ghost use Rattle.h2_debug.specs.Breakpoints.{break_of as break_on};

use crate::breakpoints::Break;
use h2_script::number_at;

/// What a line asks for.
#[derive(Clone, Copy)]
pub enum Command {
    /// Go forward over this many items, or to the end.
    Step(u32),
    /// Go back over this many items, or to the start.
    Back(u32),
    /// Go to this position.
    Go(u32),
    /// Go forward to the next breakpoint, or to the end.
    Run,
    /// Stop here in later runs.
    Break(Break),
    /// Remove all breakpoints.
    Clear,
    /// Print the position, what its item sent, and the state.
    Show,
    /// Print why the item at this position was an error, or was ignored.
    Why,
}

/// Where `at N`, `type N`, `stream N` or `sent N` lets a run stop; `None` for any other text.
fn break_of(text: &[u8]) -> Option<Break>
    ensures { option_map break_on result ≡ break_of text.now }
{
    if let Some(rest) = text.strip_prefix(b"at ".as_slice()) {
        return Some(Break::Position(number_at(u32::MAX, rest)? as usize));
    }
    if let Some(rest) = text.strip_prefix(b"type ".as_slice()) {
        return Some(Break::Type(number_at(255, rest)? as u8));
    }
    if let Some(rest) = text.strip_prefix(b"stream ".as_slice()) {
        return Some(Break::Stream(number_at(u32::MAX, rest)?));
    }
    let rest = text.strip_prefix(b"sent ".as_slice())?;
    Some(Break::Sent(number_at(255, rest)? as u8))
}

/// The command of one word that a line is; `None` for any other line.
fn word_of(line: &[u8]) -> Option<Command>
    ensures { option_map asked_by result ≡ word_of line.now }
{
    if line == b"run".as_slice() {
        return Some(Command::Run);
    }
    if line == b"clear".as_slice() {
        return Some(Command::Clear);
    }
    if line == b"show".as_slice() {
        return Some(Command::Show);
    }
    if line == b"why".as_slice() {
        return Some(Command::Why);
    }
    None
}

/// What a line asks for; `None` where it is no command.
pub fn command_of(line: &[u8]) -> Option<Command>
    ensures { option_map asked_by result ≡ command_of line.now }
{
    if let Some(rest) = line.strip_prefix(b"step ".as_slice()) {
        return Some(Command::Step(number_at(u32::MAX, rest)?));
    }
    if let Some(rest) = line.strip_prefix(b"back ".as_slice()) {
        return Some(Command::Back(number_at(u32::MAX, rest)?));
    }
    if let Some(rest) = line.strip_prefix(b"go ".as_slice()) {
        return Some(Command::Go(number_at(u32::MAX, rest)?));
    }
    if let Some(rest) = line.strip_prefix(b"break ".as_slice()) {
        return Some(Command::Break(break_of(rest)?));
    }
    word_of(line)
}
