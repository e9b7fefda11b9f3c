//! What a program writes to. What a write appends: the standard library's `KnownBytes`.

ghost use Rattle.std.specs.Prelude.{◌≡◌, ℕ, List, Option, Bool, OnOk, is_err};
ghost use Rattle.std.specs.Io.KnownBytes.{Appends, Keeps};

use thiserror::Error;

/// A call of a device failed.
#[derive(Clone, Copy, Debug, PartialEq, Eq, Error)]
#[error("the device failed")]
pub struct DeviceFault;

/// What a program writes to. A contract sees the octets that were written, where the device reports them, whether its
/// last call failed, and which device it is: a number that no call changes.
pub trait Output {
    ghost written: { Self → Option (List ℕ) };

    ghost has_failed: { Self → Bool };

    ghost name: { Self → ℕ };

    /// Writes all of the octets.
    ///
    /// `DeviceFault` where the device failed; some first octets may be written then.
    fn write(&mut self, octets: &[u8]) -> Result<(), DeviceFault>
        ensures octets { OnOk result (Appends (written self.old) (written self.new) octets.now) }
        ensures flag { has_failed self.new ≡ is_err result }
        ensures name { name self.new ≡ name self.old };

    /// Passes on what was written and is still held back in a buffer, so that the reader on the other side can see it.
    ///
    /// `DeviceFault` where the device failed; some first octets may have been passed on then.
    fn flush(&mut self) -> Result<(), DeviceFault>
        ensures octets { Keeps (written self.old) (written self.new) }
        ensures flag { has_failed self.new ≡ is_err result }
        ensures name { name self.new ≡ name self.old };
}
