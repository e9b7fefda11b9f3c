//! The octets in both directions that a connection is driven over. A contract sees of them what the wire reports.
//! Definitions: `specs/Wires.antt`.

ghost use Rattle.std.specs.Prelude.{◌≡◌, ℕ, ◌<◌, ◌≤◌, List, [], ◌∷◌, length, take, Option, Bool, IfOk, OnErr, is_err};
ghost use Rattle.h2_serve.specs.Wires.{grown};

use thiserror::Error;

/// A read or a write failed.
#[derive(Clone, Copy, Debug, Error)]
#[error("the wire failed")]
pub struct WireFault;

/// Octets in both directions, as a TCP connection has them.
///
/// A contract sees the octets read so far, the octets written so far and the lengths of the reads so far, each of the
/// three only where the type reports it (`Some`), and whether the last call failed.
pub trait Wire {
    ghost octets_read: { Self → Option (List ℕ) };

    ghost octets_written: { Self → Option (List ℕ) };

    ghost read_lengths: { Self → Option (List ℕ) };

    ghost has_failed: { Self → Bool };

    /// Reads some octets to the front of `buffer`, which must not be empty, and returns how many: at most the length
    /// of the buffer. 0 is the end of what the peer sends.
    ///
    /// # Errors
    ///
    /// `WireFault` where the read failed: nothing was read.
    fn read(&mut self, buffer: &mut [u8]) -> Result<usize, WireFault>
        requires { 0 < length buffer.old }
        ensures bound { IfOk result (λ count. count ≤ length buffer.new) }
        ensures octets { IfOk result (λ count.
            octets_read self.new ≡ grown (octets_read self.old) (take count buffer.new)) }
        ensures lengths { IfOk result (λ count. read_lengths self.new ≡ grown (read_lengths self.old) (count ∷ [])) }
        ensures written { octets_written self.new ≡ octets_written self.old }
        ensures flag { has_failed self.new ≡ is_err result }
        ensures err { OnErr result (
            (octets_read self.new ≡ octets_read self.old) × (read_lengths self.new ≡ read_lengths self.old)) };

    /// Writes some octets from the front of `octets`, which must not be empty, and returns how many: at least 1.
    ///
    /// # Errors
    ///
    /// `WireFault` where the write failed: nothing was written.
    fn write(&mut self, octets: &[u8]) -> Result<usize, WireFault>
        requires { 0 < length octets.now }
        ensures bound { IfOk result (λ count. (0 < count) × (count ≤ length octets.now)) }
        ensures octets { IfOk result (λ count.
            octets_written self.new ≡ grown (octets_written self.old) (take count octets.now)) }
        ensures read { (octets_read self.new ≡ octets_read self.old) × (read_lengths self.new ≡ read_lengths self.old) }
        ensures flag { has_failed self.new ≡ is_err result }
        ensures err { OnErr result (octets_written self.new ≡ octets_written self.old) };
}
