//! Octets as text, a dash where there are none. Definition: h2_spec's `specs/Texts/Show.antt`.

ghost use Rattle.std.specs.Prelude.{◌≡◌};
ghost use Rattle.h2_spec.specs.Texts.Show.{octets_text};

use h2_io::{DeviceFault, HexText, Output, Text};

/// Octets in lower-case hex, a dash where there are none.
#[derive(Clone, Copy)]
pub struct OctetsText<'a>(pub &'a [u8]);

#[tactic(auto, unfolding(h2_spec::specs::Texts::Show::octets_text))]
impl Text for OctetsText<'_> {
    ghost text = { λ x. octets_text x.0.now };

    fn write_to<O: Output>(&self, output: &mut O) -> Result<(), DeviceFault> {
        if self.0.is_empty() {
            "-".write_to(output)
        } else {
            HexText(self.0).write_to(output)
        }
    }
}
