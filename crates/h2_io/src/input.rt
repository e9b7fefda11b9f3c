//! What a program reads from, and how much at most. What a read consumes: the standard library's `KnownBytes`.

ghost use Rattle.std.specs.Prelude.{◌≡◌, ◌<◌, ◌≤◌, ℕ, List, Option, Bool, IfOk, OnErr, is_err, length, take};
ghost use Rattle.std.specs.Io.KnownBytes.{Consumes, IsAtEnd, Keeps};

use crate::output::DeviceFault;

/// The most octets that an input may have, or a file that is read instead of one. Definition: `specs/Limit.antt`.
pub const MAX_INPUT: usize = 16_777_216;

/// What a program reads from. A contract sees the octets that are left, where the device reports them, whether its last
/// call failed, and which device it is: a number that no call changes.
pub trait Input {
    ghost remaining: { Self → Option (List ℕ) };

    ghost has_failed: { Self → Bool };

    ghost name: { Self → ℕ };

    /// Reads some octets to the front of the buffer, and says how many; 0 are the end of the input.
    ///
    /// `DeviceFault` where the read failed, an interruption too: nothing was read.
    fn read(&mut self, buffer: &mut [u8]) -> Result<usize, DeviceFault>
        requires { 0 < length buffer.old }
        ensures bound { IfOk result (λ count. count ≤ length buffer.new) }
        ensures octets { IfOk result (λ count. Consumes (remaining self.old) (remaining self.new) (take count buffer.new)) }
        ensures end { IfOk result (λ count. count ≡ 0 → IsAtEnd (remaining self.new)) }
        ensures kept { OnErr result (Keeps (remaining self.old) (remaining self.new)) }
        ensures flag { has_failed self.new ≡ is_err result }
        ensures name { name self.new ≡ name self.old };
}
