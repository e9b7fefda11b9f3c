//! Octets as text: two hex digits each, in lower case.

ghost use Rattle.std.specs.Prelude.{◌≡◌, ◌*◌, length};
ghost use Rattle.hex.specs.Hex.{encode_lower};

use crate::output::{DeviceFault, Output};
use crate::text::Text;

/// How many octets are spelled at a time.
const CHUNK: usize = 64;

/// Octets in lower-case hex, none where there are none.
#[derive(Clone, Copy, Debug, PartialEq, Eq)]
pub struct HexText<'a>(pub &'a [u8]);

impl Text for HexText<'_> {
    ghost text = { λ x. encode_lower x.0.now };

    fn write_to<O: Output>(&self, output: &mut O) -> Result<(), DeviceFault> {
        let mut digits = [0u8; 2 * CHUNK];
        for chunk in self.0.chunks(CHUNK) {
            let digits = spelled(chunk, &mut digits[..2 * chunk.len()]);
            output.write(digits)?;
        }
        Ok(())
    }
}

/// The digits of octets in lower-case hex, written into space for just these.
fn spelled<'r>(octets: &[u8], buffer: &'r mut [u8]) -> &'r [u8]
    requires { length buffer.old ≡ 2 * length octets.now }
    ensures { result.now ≡ encode_lower octets.now }
{
    let Ok(()) = hex::encode_to_slice(octets, buffer) else {
        unreachable!();
    };
    buffer
}
