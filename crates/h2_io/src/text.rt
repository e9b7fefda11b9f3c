//! Texts that are written to an output. A text fails only where the output does, and takes no memory. What a write
//! appends: the standard library's `KnownBytes`.

ghost use Rattle.std.specs.Prelude.{◌≡◌, ◌++◌, ℕ, List, false, decimal, OnOk, is_err};
ghost use Rattle.std.specs.Fmt.{signed_decimal};
ghost use Rattle.std.specs.Io.KnownBytes.{Appends};

use crate::output::{DeviceFault, Output};
use itoa::Buffer;

/// A value with a text. A contract sees the text, and that it is written whole unless the output fails.
pub trait Text {
    ghost text: { Self → List ℕ };

    /// Writes the text. Takes no memory.
    ///
    /// `DeviceFault` where the output failed, and only then; some first octets may be written.
    fn write_to<O: Output>(&self, output: &mut O) -> Result<(), DeviceFault>
    where
        Self: Sized,
        requires { O.has_failed output.old ≡ false }
        ensures octets { OnOk result (Appends (O.written output.old) (O.written output.new) (text self.now)) }
        ensures flag { O.has_failed output.new ≡ is_err result }
        ensures name { O.name output.new ≡ O.name output.old };
}

impl Text for &str {
    ghost text = { λ s. s.now };

    fn write_to<O: Output>(&self, output: &mut O) -> Result<(), DeviceFault> {
        output.write(self.as_bytes())
    }
}

/// A number in decimal digits.
#[derive(Clone, Copy, Debug, PartialEq, Eq)]
pub struct Number(pub u64);

impl Text for Number {
    ghost text = { λ n. decimal n.0 };

    fn write_to<O: Output>(&self, output: &mut O) -> Result<(), DeviceFault> {
        let mut buffer = Buffer::new();
        output.write(buffer.format(self.0).as_bytes())
    }
}

/// A number in decimal digits, after a `-` where it is negative.
#[derive(Clone, Copy, Debug, PartialEq, Eq)]
pub struct SignedNumber(pub i32);

impl Text for SignedNumber {
    ghost text = { λ n. signed_decimal n.0 };

    fn write_to<O: Output>(&self, output: &mut O) -> Result<(), DeviceFault> {
        let mut buffer = Buffer::new();
        output.write(buffer.format(self.0).as_bytes())
    }
}

/// One text after another.
#[tactic(auto, using(crate::proofs::Appending::both))]
impl<A: Text, B: Text> Text for (A, B) {
    ghost text = { λ p. A.text p.0 ++ B.text p.1 };

    fn write_to<O: Output>(&self, output: &mut O) -> Result<(), DeviceFault> {
        self.0.write_to(output)?;
        self.1.write_to(output)
    }
}

/// Texts in a row, as one text: pairs of a text and what follows it.
#[macro_export]
macro_rules! texts {
    ($last:expr $(,)?) => { $last };
    ($first:expr, $($more:expr),+ $(,)?) => { ($first, $crate::texts!($($more),+)) };
}
