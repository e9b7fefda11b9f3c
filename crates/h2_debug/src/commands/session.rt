//! A session with a debugger: the octets of a peer in hex, and then commands, each answered before the next is read.
//! Definition: `specs/Session.antt`.

ghost use Rattle.std.specs.Prelude.{◌≡◌, ◌==◌, ◌-◌, ◌≤◌, ℕ, List, Some, false, IfErr, IfOk, OnErr, OnOk, is_err};
ghost use Rattle.h2_spec.specs.State.{is_allowed};
ghost use Rattle.h2_debug.specs.SessionFaults.{fault_number};
ghost use Rattle.h2_debug.specs.Commands.{command_of};
ghost use Rattle.h2_io.specs.HexText.{octets_spelled};
ghost use Rattle.h2_debug.specs.Reading.{ahead, most};
ghost use Rattle.h2_debug.specs.Replies.{Obeys, reply_text};
ghost use Rattle.h2_debug.specs.Session.{AnswersLine, IsFollowed, IsSession, IsSessionOver, Prints, Printed, failed};
ghost use Rattle.h2_debug.specs.Responses.{IsRefusal, IsResponse};
ghost use Rattle.h2_debug.specs.declared.commands.line.LineEnd.TheVariants.{Input as LastLine};
ghost use Rattle.h2_debug.specs.Loading.{Loads, load_fault};

use crate::commands::line::{LineEnd, LineStart, next_line, spelled, take_line};
use crate::commands::obey::obey;
use crate::commands::reader::Reader;
use crate::commands::session_fault::SessionFault;
use crate::commands::written::write_flushed;
use crate::{Debugger, FaultLine, Reply, ReplyText, command_of};
use h2_io::{DeviceFault, Input, Output, is_hex_text};
use h2_request_book::book::Book;
use h2_spec::connection::Config;
use std::alloc::Global;

/// Writes the line of a fault, and gives status 1, or 3 where that failed.
fn refuse<O: Output>(output: &mut O, fault: SessionFault) -> u8
    requires { O.has_failed output.old ≡ false }
    ensures printed { O.has_failed output.new ≡ false → (held : List ℕ) → O.written output.old ≡ Some held → Prints (failed (fault_number fault)) held (O.written output.new) result }
    ensures flag { O.has_failed output.new ≡ (result == 3) }
    ensures name { O.name output.new ≡ O.name output.old }
{
    match write_flushed(output, &FaultLine(fault.number())) {
        Ok(()) => 1,
        Err(_) => 3,
    }
}

/// Does what a line asks for.
fn obey_line(debugger: &mut Debugger<'_, Global>, line: &[u8]) -> Reply
    ensures { Obeys debugger.old (command_of line.now) (reply_text debugger.new result) debugger.new }
{
    obey(debugger, command_of(line))
}

/// Does what a line asks for, writes the reply, and flushes the output.
fn answer<O: Output>(
    debugger: &mut Debugger<'_, Global>,
    line: &[u8],
    output: &mut O,
) -> Result<(), DeviceFault>
    requires { O.has_failed output.old ≡ false }
    ensures printed { OnOk result (AnswersLine debugger.old (command_of line.now) debugger.new (O.written output.old) (O.written output.new)) }
    ensures flag { O.has_failed output.new ≡ is_err result }
    ensures name { O.name output.new ≡ O.name output.old }
{
    let reply = obey_line(debugger, line);
    write_flushed(output, &ReplyText { reply, debugger })
}

/// Answers each line until the input ends, and gives the exit status.
fn follow<I: Input, O: Output>(
    debugger: &mut Debugger<'_, Global>,
    reader: &mut Reader,
    input: &mut I,
    output: &mut O,
) -> u8
    requires input { I.has_failed input.old ≡ false }
    requires output { O.has_failed output.old ≡ false }
    ensures printed { O.has_failed output.new ≡ false → (octets held : List ℕ) → ahead reader.old (I.remaining input.old) ≡ Some octets → O.written output.old ≡ Some held
        → (t : Printed) × IsFollowed debugger.old (most - reader.old.passed) octets (I.has_failed input.new) (I.remaining input.new) t × Prints t held (O.written output.new) result }
    ensures flag { O.has_failed output.new ≡ (result == 3) }
    ensures input { I.name input.new ≡ I.name input.old }
    ensures name { O.name output.new ≡ O.name output.old }
{
    loop {
        let mut line = LineStart::new();
        let end = match next_line(reader, input, &mut line) {
            Ok(Some(end)) => end,
            Ok(None) => return 0,
            Err(_) => return refuse(output, SessionFault::Read),
        };
        let Ok(()) = answer(debugger, line.as_slice(), output) else {
            return 3;
        };
        if let LineEnd::Input = end {
            return 0;
        }
    }
}

/// Responds to the lines after a first line that ends so, and gives the exit status.
fn follow_behind<I: Input, O: Output>(
    debugger: &mut Debugger<'_, Global>,
    end: LineEnd,
    reader: &mut Reader,
    input: &mut I,
    output: &mut O,
) -> u8
    requires input { I.has_failed input.old ≡ false }
    requires output { O.has_failed output.old ≡ false }
    ensures printed { IsResponse debugger.old end (most - reader.old.passed) (ahead reader.old (I.remaining input.old)) (I.has_failed input.new) (I.remaining input.new)
        (O.has_failed output.new) (O.written output.old) (O.written output.new) result }
    ensures unread { end ≡ LastLine → I.has_failed input.new ≡ false }
    ensures flag { O.has_failed output.new ≡ (result == 3) }
    ensures input { I.name input.new ≡ I.name input.old }
    ensures name { O.name output.new ≡ O.name output.old }
{
    match end {
        LineEnd::Input => 0,
        LineEnd::LineFeed => follow(debugger, reader, input, output),
    }
}

/// Responds to the lines as `follow_behind` does, or writes the fault of a debugger that was not loaded.
fn respond<I: Input, O: Output>(
    loaded: &mut Result<Debugger<'_, Global>, SessionFault>,
    end: LineEnd,
    reader: &mut Reader,
    input: &mut I,
    output: &mut O,
) -> u8
    requires input { I.has_failed input.old ≡ false }
    requires output { O.has_failed output.old ≡ false }
    ensures ok { IfOk loaded.old (λ debugger. IsResponse debugger end (most - reader.old.passed) (ahead reader.old (I.remaining input.old)) (I.has_failed input.new) (I.remaining input.new)
        (O.has_failed output.new) (O.written output.old) (O.written output.new) result) }
    ensures err { IfErr loaded.old (λ fault. IsRefusal fault (O.has_failed output.new) (O.written output.old) (O.written output.new) result) }
    ensures unread { OnErr loaded.old (I.has_failed input.new ≡ false) }
    ensures last { end ≡ LastLine → I.has_failed input.new ≡ false }
    ensures flag { O.has_failed output.new ≡ (result == 3) }
    ensures input { I.name input.new ≡ I.name input.old }
    ensures name { O.name output.new ≡ O.name output.old }
{
    match loaded {
        Ok(debugger) => follow_behind(debugger, end, reader, input, output),
        Err(fault) => refuse(output, *fault),
    }
}

/// Why a line is not loaded where a limit or a setting is out of range: it is no hex, or it is for that. Takes no memory.
fn refused_limits(line: &[u8]) -> SessionFault
    ensures { result ≡ load_fault (octets_spelled line.now) false }
{
    if is_hex_text(line) {
        SessionFault::BadConfig
    } else {
        SessionFault::BadHex
    }
}

/// A debugger over octets.
///
/// `BadConfig` where a limit or a setting is out of range, found without memory; elsewhere `NoMemory`.
fn load_octets<'b>(
    book: &'b Book<Global>,
    config: Config,
    octets: Vec<u8>,
) -> Result<Debugger<'b, Global>, SessionFault>
    ensures ok { IfOk result (λ debugger. Loads book.now config (Some octets.items) debugger) }
    ensures err { IfErr result (λ fault. fault ≡ load_fault (Some octets.items) (is_allowed config)) }
{
    if !config.is_allowed() {
        return Err(SessionFault::BadConfig);
    }
    match Debugger::load(book, config, octets) {
        Ok(debugger) => Ok(debugger),
        Err(_) => Err(SessionFault::NoMemory),
    }
}

/// A debugger over the octets that a line spells.
///
/// `BadHex` where it spells none, then `BadConfig` where a limit or a setting is out of range; elsewhere `NoMemory`.
fn load<'b>(
    alloc: Global,
    book: &'b Book<Global>,
    config: Config,
    line: Vec<u8>,
) -> Result<Debugger<'b, Global>, SessionFault>
    ensures ok { IfOk result (λ debugger. Loads book.now config (octets_spelled line.items) debugger) }
    ensures err { IfErr result (λ fault. fault ≡ load_fault (octets_spelled line.items) (is_allowed config)) }
{
    if !config.is_allowed() {
        return Err(refused_limits(line.as_slice()));
    }
    let octets = spelled(alloc, line.as_slice())?;
    load_octets(book, config, octets)
}

/// The program `debug`: loads the octets that the first line spells in hex, answers each further line, and gives the
/// exit status. Each answer is written and flushed before the next line is read.
///
/// 0: the input ended. 1: a fault ended the session, and its line was written: 22 where a read failed or the input has
/// more than 16,777,216 octets, 25 where the first line is not hex, 16 where a limit or a setting is out of range, both
/// found without memory once the line is read, 0 where memory for the first line was refused. 3: the output could not be written.
pub fn debug_session<I: Input, O: Output>(
    alloc: Global,
    book: &Book<Global>,
    config: Config,
    input: &mut I,
    output: &mut O,
) -> u8
    requires reader { I.has_failed input.old ≡ false }
    requires writer { O.has_failed output.old ≡ false }
    ensures printed { O.has_failed output.new ≡ false → (octets held : List ℕ) → I.remaining input.old ≡ Some octets → O.written output.old ≡ Some held
        → (t : Printed) × IsSession book.now config octets (I.has_failed input.new) (I.remaining input.new) t × Prints t held (O.written output.new) result }
    ensures flag { O.has_failed output.new ≡ (result == 3) }
    ensures input { I.name input.new ≡ I.name input.old }
    ensures name { O.name output.new ≡ O.name output.old }
{
    let mut reader = Reader::new();
    let mut line = Vec::new(alloc);
    match take_line(&mut reader, input, &mut line) {
        Ok(end) => {
            let mut loaded = load(alloc, book, config, line);
            let status = respond(&mut loaded, end, &mut reader, input, output);
            drop(loaded);
            status
        }
        Err(fault) => refuse(output, fault),
    }
}

/// The same session over the octets of a peer that are not of the input: all lines of the input are commands, and have at most 16,777,216
/// octets by themselves.
///
/// The status and the faults are those of `debug_session`, but for 25.
pub fn debug_session_over<I: Input, O: Output>(
    book: &Book<Global>,
    config: Config,
    peer: Vec<u8>,
    input: &mut I,
    output: &mut O,
) -> u8
    requires reader { I.has_failed input.old ≡ false }
    requires writer { O.has_failed output.old ≡ false }
    ensures printed { O.has_failed output.new ≡ false → (octets held : List ℕ) → I.remaining input.old ≡ Some octets → O.written output.old ≡ Some held
        → (t : Printed) × IsSessionOver peer.items book.now config octets (I.has_failed input.new) (I.remaining input.new) t
        × Prints t held (O.written output.new) result }
    ensures flag { O.has_failed output.new ≡ (result == 3) }
    ensures input { I.name input.new ≡ I.name input.old }
    ensures name { O.name output.new ≡ O.name output.old }
{
    let mut reader = Reader::new();
    let mut debugger = load_octets(book, config, peer);
    let status = respond(&mut debugger, LineEnd::LineFeed, &mut reader, input, output);
    drop(debugger);
    status
}
