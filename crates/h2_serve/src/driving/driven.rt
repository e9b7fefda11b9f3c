//! What is driven over a wire: a connection, by itself or with something that looks at each of its items. Definitions:
//! h2_conn's `specs/Runs.antt`, and `specs/Drives.antt`.

ghost use Rattle.std.specs.Prelude.{◌≡◌, ⊤, ℕ, ◌<◌, ◌≤◌, List, [], ◌++◌, length, Bool, true, false, OnOk, OnErr, is_err, option_map};
ghost use Rattle.h2_spec.specs.Causes.Errors.{code_number};
ghost use Rattle.h2_spec.specs.State.{ended_code};
ghost use Rattle.h2_conn.specs.Connection.{Connection};
ghost use Rattle.h2_conn.specs.Runs.{Fed, Halts};
ghost use Rattle.h2_serve.specs.Drives.{HasNoItem};

use crate::driving::outgoing::Pending;
use h2_conn::Conn;
use h2_frame::Outbox;
use std::alloc::{AllocError, Allocator};

// `Conn` is `Driven` once for each kind of output. One impl for every `Outgoing` would put a lifetime into
// the trait, and then `drive_with` could not cite its laws.
/// A connection that can be driven over a wire, with its output in an `O`.
///
/// A contract sees the connection, with the octets of an item that is not whole yet, and whether it can be driven
/// (`is_ready`), which no call changes. It also sees what else became of octets that were taken (`passes`): whether
/// memory was refused, the value before, the octets, the value after. That holds for no octets, and for octets in
/// pieces it holds for all of them joined; where memory was refused, for more octets too.
pub trait Driven<O: Pending> {
    ghost connection: { Self → Connection };

    ghost is_ready: { Self → Type 0 };

    ghost passes: { Bool → Self → List ℕ → Self → Type 0 };

    /// Begins a read of these octets, which are then taken in portions.
    fn begin_read(&mut self, octets: &[u8])
        requires ready { is_ready self.old }
        requires going { (connection self.old).failed ≡ false }
        ensures ready { is_ready self.new }
        ensures same { connection self.new ≡ connection self.old }
        ensures passes { passes false self.old [] self.new };

    /// How many of these octets to take at once: at least one.
    fn portion(&self, octets: &[u8]) -> usize
        requires { 0 < length octets.now }
        ensures some { 0 < result }
        ensures within { result ≤ length octets.now };

    /// Takes all items that there are with these octets after those that wait. What is sent for them is appended to
    /// `out`.
    ///
    /// `AllocError` where memory is refused: the items before it are taken whole, `out` has gained what is sent for
    /// them, and from then on nothing is taken.
    fn take_octets(&mut self, piece: &[u8], out: &mut O) -> Result<(), AllocError>
        requires ready { is_ready self.old }
        requires going { (connection self.old).failed ≡ false }
        ensures ready { is_ready self.new }
        ensures ok { OnOk result (Fed (connection self.old) piece.now (O.pending out.old) (connection self.new) (O.pending out.new)) }
        ensures no_memory { OnErr result (Halts (connection self.old) piece.now (O.pending out.old) (connection self.new) (O.pending out.new)) }
        ensures passes { passes (is_err result) self.old piece.now self.new };

    /// The code of the connection error that ended the connection, if one did (RFC 9113, 5.4.1).
    fn end_code(&self) -> Option<u32>
        ensures { result ≡ option_map code_number (ended_code (connection self.now).state.core.phase) };

    /// Whether a call was refused memory. Where none was, all items were taken: the octets that wait complete none.
    fn is_failed(&self) -> bool
        requires { is_ready self.now }
        ensures value { result ≡ (connection self.now).failed }
        ensures no_item { result ≡ false → HasNoItem (connection self.now) };

    ghost passes_none: { (d : Self) → passes false d [] d };

    ghost passes_more: { (refused : Bool) (d e f : Self) (a b : List ℕ) → passes false d a e → passes refused e b f → passes refused d (a ++ b) f };

    ghost passes_cut: { (d e : Self) (a b : List ℕ) → passes true d a e → passes true d (a ++ b) e };
}

/// A connection by itself, whose output is copied.
impl<A: Allocator + Copy> Driven<Vec<u8, A>> for Conn<'_, A> {
    ghost connection = { λ c. c };

    ghost is_ready = { λ _. ⊤ };

    ghost passes = { λ _ _ _ _. ⊤ };

    fn begin_read(&mut self, _octets: &[u8]) {}

    fn portion(&self, octets: &[u8]) -> usize {
        octets.len()
    }

    fn take_octets(&mut self, piece: &[u8], out: &mut Vec<u8, A>) -> Result<(), AllocError> {
        match self.feed(piece, out) {
            Ok(_) => Ok(()),
            Err(_) => Err(AllocError),
        }
    }

    fn end_code(&self) -> Option<u32> {
        self.ended()
    }

    fn is_failed(&self) -> bool {
        self.failed()
    }

    ghost passes_none = { λ _. tt };

    ghost passes_more = { λ _ _ _ _ _ _ _ _. tt };

    ghost passes_cut = { λ _ _ _ _ _. tt };
}

/// A connection by itself, whose bodies are lent.
impl<'b, A: Allocator + Copy> Driven<Outbox<'b, A>> for Conn<'b, A> {
    ghost connection = { λ c. c };

    ghost is_ready = { λ _. ⊤ };

    ghost passes = { λ _ _ _ _. ⊤ };

    fn begin_read(&mut self, _octets: &[u8]) {}

    fn portion(&self, octets: &[u8]) -> usize {
        octets.len()
    }

    fn take_octets(&mut self, piece: &[u8], out: &mut Outbox<'b, A>) -> Result<(), AllocError> {
        match self.feed(piece, out) {
            Ok(_) => Ok(()),
            Err(_) => Err(AllocError),
        }
    }

    fn end_code(&self) -> Option<u32> {
        self.ended()
    }

    fn is_failed(&self) -> bool {
        self.failed()
    }

    ghost passes_none = { λ _. tt };

    ghost passes_more = { λ _ _ _ _ _ _ _ _. tt };

    ghost passes_cut = { λ _ _ _ _ _. tt };
}
