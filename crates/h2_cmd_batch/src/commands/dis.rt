//! The program `dis`: the script of the octets of its input. Definitions: `specs/ScriptPrograms.antt`.

ghost use Rattle.h2_cmd_batch.specs.Reports.{Meets};
ghost use Rattle.h2_cmd_batch.specs.Input.{octets_of};
ghost use Rattle.h2_cmd_batch.specs.ScriptPrograms.{printed_dis};

use crate::fault::BenchFault;
use crate::input::read_octets;
use h2_cmd_messages::Reasons;
use h2_script::disassemble;
use std::alloc::Global;

/// What `dis` prints of its input: the script of its octets.
///
/// `BadHex` where the input gives no octets, which the reasons say; `NoMemory` where memory is refused.
pub fn dis_text(
    alloc: Global,
    raw: bool,
    input: Vec<u8>,
    reasons: &mut Reasons<'_>,
) -> Result<String, BenchFault>
    ensures { Meets result (printed_dis (octets_of raw input.items)) }
{
    let octets = read_octets(alloc, raw, input, reasons)?;
    match disassemble(alloc, octets.as_slice()) {
        Ok(text) => Ok(text),
        Err(_) => Err(BenchFault::NoMemory),
    }
}
