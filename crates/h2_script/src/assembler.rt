//! Assembling a script, line by line. The definitions are `Script` and `Bad` of `h2_spec`, specs/Texts/Script.antt, and
//! `assembled`, specs/Texts/Assemble.antt, which computes them.

ghost use Rattle.std.specs.Prelude.{◌+◌, ◌<◌, IfErr, IfOk};
ghost use Rattle.h2_spec.specs.Texts.Assemble.{assembled, lines_at, statement_at};
ghost use Rattle.h2_spec.specs.Texts.Script.{Script, lines_of};
ghost use Rattle.h2_script.specs.Readings.{AddsAt, Assembles, NamesBadLine};

use crate::fault::{LineFault, ScriptFault};
use crate::line::add_line;
use crate::words::cut;
use std::alloc::Allocator;

/// The octets that a script represents.
///
/// # Errors
///
/// `Syntax(line, kind)` where a line says nothing: the first such line, counted from 1, and the least kind of fault
/// in it;
/// `NoMemory` where memory was refused before that was found.
#[tactic(auto, unfolding(h2_spec::specs::Texts::Assemble::assembled))]
pub fn assemble<A: Allocator + Copy>(alloc: A, text: &str) -> Result<Vec<u8, A>, ScriptFault>
    ensures value { Assembles (λ v. v.items) result (assembled text.now) }
    ensures script { IfOk result (λ v. Script text.now v.items) }
    ensures bad { IfErr result (λ fault. NamesBadLine text.now fault) }
{
    assemble_lines(alloc, text.as_bytes())
}

/// The octets of all lines of a text.
fn assemble_lines<A: Allocator + Copy>(alloc: A, text: &[u8]) -> Result<Vec<u8, A>, ScriptFault>
    ensures { Assembles (λ v. v.items) result (lines_at 1 (lines_of text.now)) }
{
    let mut out = Vec::new(alloc);
    let mut rest = text;
    let mut number = 1;
    while let Some((line, more)) = cut(rest, b'\n') {
        add_at(alloc, line, number, &mut out)?;
        rest = more;
        number += 1;
    }
    add_at(alloc, rest, number, &mut out)?;
    Ok(out)
}

/// Appends the octets of the line of this number.
fn add_at<A: Allocator + Copy>(
    alloc: A,
    line: &[u8],
    number: usize,
    out: &mut Vec<u8, A>,
) -> Result<(), ScriptFault>
    ensures { AddsAt number out.old.items out.new.items result (statement_at line.now) }
{
    match add_line(alloc, line, out) {
        Ok(()) => Ok(()),
        Err(LineFault::Bad(kind)) => Err(ScriptFault::Syntax(number, kind)),
        Err(LineFault::NoMemory) => Err(ScriptFault::NoMemory),
    }
}
