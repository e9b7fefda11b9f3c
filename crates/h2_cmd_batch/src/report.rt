//! What a program results in: a text and an exit status. What a report says: `specs/Reports.antt`.

ghost use Rattle.std.specs.Prelude.{◌≡◌, ◌<◌};
ghost use Rattle.h2_cmd_batch.specs.Reports.{Gives, Meets, printed_by};
ghost use Rattle.h2_cmd_batch.specs.Printing.{Printed};
ghost use Rattle.h2_cmd_batch.specs.ScriptPrograms.{hex_line, syntax_line};

use crate::fault::BenchFault;
use h2_io::{DeviceFault, HexText, Number, Output, Text, texts};
use h2_script::{SyntaxKind, kind_number};

/// What `asm` or `dis` found. Its text is written with no memory.
#[derive(Drop)]
pub enum Report {
    /// The octets of a script: their hex, on one line.
    Octets(Vec<u8>),
    /// The first bad line of a script, from 1, and the least kind of fault in it: the line that reports them.
    Syntax(usize, SyntaxKind),
    /// The script of octets.
    Script(String),
}

/// Octets in hex, on one line.
#[derive(Clone, Copy)]
struct HexLine<'o>(&'o [u8]);

#[tactic(auto, unfolding(crate::specs::ScriptPrograms::hex_line))]
impl Text for HexLine<'_> {
    ghost text = { λ l. hex_line l.0.now };

    fn write_to<O: Output>(&self, output: &mut O) -> Result<(), DeviceFault> {
        texts!(HexText(self.0), "\n").write_to(output)
    }
}

/// The line that reports the first bad line of a script, and the least kind of fault in it.
#[derive(Clone, Copy)]
struct SyntaxLine {
    line: usize,
    kind: SyntaxKind,
}

#[tactic(auto, unfolding(crate::specs::ScriptPrograms::syntax_line))]
impl Text for SyntaxLine {
    ghost text = { λ l. syntax_line l.line l.kind };

    fn write_to<O: Output>(&self, output: &mut O) -> Result<(), DeviceFault> {
        let line = Number(self.line as u64);
        let kind = Number(u64::from(kind_number(self.kind)));
        texts!("fault 18 ", line, " ", kind, "\n").write_to(output)
    }
}

impl Text for Report {
    ghost text = { λ r. (printed_by r).text };

    fn write_to<O: Output>(&self, output: &mut O) -> Result<(), DeviceFault> {
        match self {
            Report::Octets(octets) => HexLine(octets.as_slice()).write_to(output),
            Report::Syntax(line, kind) => {
                let (line, kind) = (*line, *kind);
                SyntaxLine { line, kind }.write_to(output)
            }
            Report::Script(text) => text.as_str().write_to(output),
        }
    }
}

impl Report {
    /// The exit status. 0: done. 1: the text reports a fault.
    pub fn status(&self) -> u8
        ensures value { result ≡ (printed_by self.now).status }
        ensures small { result < 3 }
    {
        match self {
            Report::Octets(_) | Report::Script(_) => 0,
            Report::Syntax(_, _) => 1,
        }
    }
}

/// The script of octets, as a report.
pub fn whole(text: Result<String, BenchFault>) -> Result<Report, BenchFault>
    ensures { (t : Printed) → Meets text t → Gives result t }
{
    Ok(Report::Script(text?))
}
