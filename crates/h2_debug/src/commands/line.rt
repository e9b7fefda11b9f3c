//! Lines that are taken from an input: the first one as the octets that it spells in hex, each other one as far as a
//! command goes. Definitions: `specs/Lines.antt`, `specs/Reading.antt`.

ghost use Rattle.std.specs.Prelude.{◌≡◌, ◌⊎◌, ◌<◌, ◌≤◌, false, [], ◌∷◌, ◌++◌, Some, None, length, take, IfOk, IfErr, IfSome, OnOk, OnErr};
ghost use Rattle.h2_debug.specs.Commands.{longest};
ghost use Rattle.h2_io.specs.HexText.{octets_spelled};
ghost use Rattle.h2_debug.specs.Reading.{IsCut, ahead, most};
ghost use Rattle.h2_debug.specs.declared.commands.line.LineEnd.TheVariants.{Input};
ghost use Rattle.h2_debug.specs.Takes.{IsNoHex, IsRefused, TakesFirst, TakesNext};

use crate::commands::reader::{Reader, Unread};
use crate::commands::session_fault::SessionFault;
use arrayvec::ArrayVec;
use h2_io::{Input, read_hex};
use std::alloc::Global;

/// More octets than any command has.
pub const LONGEST: usize = 24;

/// The first octets of a line, more than any command has.
pub type LineStart = ArrayVec<u8, LONGEST>;

/// How a line ends.
#[derive(Clone, Copy)]
pub enum LineEnd {
    /// By a line feed.
    LineFeed,
    /// With the input.
    Input,
}

/// Takes a line, and puts it after what is in `line`, without its line feed. Says how it ends; where the input has ended
/// it is empty.
///
/// `Read` where nothing more can be taken, `NoMemory`.
pub fn take_line<I: Input>(
    reader: &mut Reader,
    input: &mut I,
    line: &mut Vec<u8>,
) -> Result<LineEnd, SessionFault>
    requires well { I.has_failed input.old ≡ false }
    requires empty { line.old.items ≡ [] }
    ensures ok { IfOk result (λ end. TakesFirst (ahead reader.old (I.remaining input.old)) (ahead reader.new (I.remaining input.new)) reader.old.passed reader.new.passed line.new.items end) }
    ensures err { IfErr result (λ fault. IsRefused (I.has_failed input.new) (IsCut (ahead reader.old (I.remaining input.old)) (I.remaining input.new) reader.old.passed (I.has_failed input.new)) fault) }
    ensures within { OnOk result (reader.new.passed ≤ most) }
    ensures well { OnOk result (I.has_failed input.new ≡ false) }
    ensures name { I.name input.new ≡ I.name input.old }
{
    loop {
        match reader.fill(input) {
            Ok(true) => {}
            Ok(false) => return Ok(LineEnd::Input),
            Err(_) => return Err(SessionFault::Read),
        }
        match reader.take_part(line) {
            Ok(false) => {}
            Ok(true) => return Ok(LineEnd::LineFeed),
            Err(_) => return Err(SessionFault::NoMemory),
        }
    }
}

/// The octets that a line spells in hex: `BadHex` where it spells none, and only elsewhere `NoMemory`.
pub fn spelled(alloc: Global, line: &[u8]) -> Result<Vec<u8>, SessionFault>
    ensures ok { IfOk result (λ octets. octets_spelled line.now ≡ Some octets.items) }
    ensures err { IfErr result (λ fault. IsNoHex (octets_spelled line.now) fault) }
{
    match read_hex(alloc, line) {
        Ok(Some(octets)) => Ok(octets),
        Ok(None) => Err(SessionFault::BadHex),
        Err(_) => Err(SessionFault::NoMemory),
    }
}

/// Puts an octet after the others, where there is space.
#[tactic(auto, using(crate::proofs::Taking::takes_short))]
fn keep(line: &mut LineStart, octet: u8)
    ensures { line.new.items ≡ take longest (line.old.items ++ octet ∷ []) }
{
    if !line.is_full() {
        line.push(octet);
    }
}

/// How a last line without a line feed ends: with the input; `None` where it has no octet, and so is no line.
fn last_end(line: &LineStart) -> Option<LineEnd>
    ensures none { result ≡ None → line.now.items ≡ [] }
    ensures some { IfSome result (λ end. (end ≡ Input) × (0 < length line.now.items)) }
{
    if line.is_empty() {
        return None;
    }
    Some(LineEnd::Input)
}

/// Takes the next line, as far as a command goes, and says how it ends; `None` at the end of the input. Takes no
/// memory.
///
/// `Unread` where nothing more can be taken.
pub fn next_line<I: Input>(
    reader: &mut Reader,
    input: &mut I,
    line: &mut LineStart,
) -> Result<Option<LineEnd>, Unread>
    requires well { I.has_failed input.old ≡ false }
    requires empty { line.old.items ≡ [] }
    ensures ok { IfOk result (λ end. TakesNext (ahead reader.old (I.remaining input.old)) (ahead reader.new (I.remaining input.new)) reader.old.passed reader.new.passed line.new.items end) }
    ensures err { OnErr result (IsCut (ahead reader.old (I.remaining input.old)) (I.remaining input.new) reader.old.passed (I.has_failed input.new)) }
    ensures within { OnOk result (reader.new.passed ≤ most) }
    ensures well { OnOk result (I.has_failed input.new ≡ false) }
    ensures name { I.name input.new ≡ I.name input.old }
{
    loop {
        let Some(octet) = reader.next(input)? else {
            return Ok(last_end(line));
        };
        if octet == b'\n' {
            return Ok(Some(LineEnd::LineFeed));
        }
        keep(line, octet);
    }
}
