//! The program `asm`: the octets of a script. Definitions: `specs/ScriptPrograms.antt`.

ghost use Rattle.h2_cmd_batch.specs.Reports.{Gives};
ghost use Rattle.h2_cmd_batch.specs.ScriptPrograms.{printed_asm};

use crate::fault::BenchFault;
use crate::report::Report;
use h2_cmd_messages::{Reasons, say_bad_line, say_no_text};
use h2_script::{ScriptFault, assemble};
use std::alloc::Global;
use std::str;

/// What `asm` prints for its input: the octets of the script, or its first bad line.
///
/// `Read` where the input is not UTF-8, `NoMemory` where memory is refused. The reasons say what is wrong with a script.
pub fn asm_report(
    alloc: Global,
    input: &[u8],
    reasons: &mut Reasons<'_>,
) -> Result<Report, BenchFault>
    ensures { Gives result (printed_asm input.now) }
{
    let source = reasons.source;
    let Ok(text) = str::from_utf8(input) else {
        say_no_text(source, input, &mut reasons.out);
        return Err(BenchFault::Read);
    };
    match assemble(alloc, text) {
        Ok(octets) => Ok(Report::Octets(octets)),
        Err(ScriptFault::Syntax(line, kind)) => {
            say_bad_line(source, input, line, kind, &mut reasons.out);
            Ok(Report::Syntax(line, kind))
        }
        Err(ScriptFault::NoMemory) => Err(BenchFault::NoMemory),
    }
}
