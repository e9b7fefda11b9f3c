//! How replies are written: whole, and then flushed, before the next command is read.

ghost use Rattle.std.specs.Prelude.{◌≡◌, OnOk, false, is_err};
ghost use Rattle.std.specs.Io.KnownBytes.{Appends};

use h2_io::{DeviceFault, Output, Text};

/// Writes a text, and flushes the output. Takes no memory.
///
/// `DeviceFault` where the output failed; some first octets may be written then.
#[tactic(auto, using(crate::proofs::Appending::kept))]
pub fn write_flushed<O: Output, T: Text>(output: &mut O, text: &T) -> Result<(), DeviceFault>
    requires { O.has_failed output.old ≡ false }
    ensures octets { OnOk result (Appends (O.written output.old) (O.written output.new) (T.text text.now)) }
    ensures flag { O.has_failed output.new ≡ is_err result }
    ensures name { O.name output.new ≡ O.name output.old }
{
    text.write_to(output)?;
    output.flush()
}
