//! The pending output of a connection, as it is written to a wire: octets in memory in one write, where the wire takes
//! them so, and an outbox in portions of some 64 KiB. Definitions: `specs/Wires.antt`.

ghost use Rattle.std.specs.Prelude.{◌≡◌, ℕ, ◌<◌, ◌≤◌, List, [], length, drop, false, OnOk, OnErr, vec_len, is_err};
ghost use Rattle.h2_serve.specs.Wires.{Writes};

use crate::driving::wire::{Wire, WireFault};
use h2_explain::ItemOutbox;
use h2_frame::{Outbox, Outgoing};
use h2_spec::octets::octets_from;
use std::alloc::Allocator;
use std::mem;

/// Octets that are to be sent, and can be written to a wire. A contract sees them in order.
pub trait Pending {
    ghost pending: { Self → List ℕ };

    /// Writes all of the octets, in order; then there are none.
    ///
    /// # Errors
    ///
    /// `WireFault` where a write failed: the octets that were not written are kept, at least one.
    fn write_all<S: Wire>(&mut self, wire: &mut S) -> Result<(), WireFault>
        requires { S.has_failed wire.old ≡ false }
        ensures written { Writes (S.octets_written wire.old) (pending self.old) (S.octets_written wire.new) (pending self.new) }
        ensures ok { OnOk result (pending self.new ≡ []) }
        ensures err { OnErr result (0 < length (pending self.new)) }
        ensures read { (S.octets_read wire.new ≡ S.octets_read wire.old)
            × (S.read_lengths wire.new ≡ S.read_lengths wire.old) }
        ensures flag { S.has_failed wire.new ≡ is_err result };
}

/// As many octets in one write as the wire takes.
impl<A: Allocator> Pending for Vec<u8, A> {
    ghost pending = { λ v. v.items };

    #[inline(always)]
    fn write_all<S: Wire>(&mut self, wire: &mut S) -> Result<(), WireFault> {
        write_all(wire, self)
    }
}

/// At most 66,560 octets in one write where some are lent, else as many as the wire takes.
impl<A: Allocator> Pending for Outbox<'_, A> {
    ghost pending = { λ o. o };

    #[inline(always)]
    fn write_all<S: Wire>(&mut self, wire: &mut S) -> Result<(), WireFault> {
        write_outbox(wire, self)
    }
}

/// As an outbox.
impl<'b, A: Allocator + Copy> Pending for ItemOutbox<'b, A> {
    ghost pending = { λ o. o };

    fn write_all<S: Wire>(&mut self, wire: &mut S) -> Result<(), WireFault> {
        let none = ItemOutbox::new(*self.memory());
        let mut outbox = mem::replace(self, none).into_outbox();
        let written = write_outbox(wire, &mut outbox);
        let _none = mem::replace(self, ItemOutbox::of(outbox));
        written
    }
}

fn remove_front<A: Allocator>(octets: &mut Vec<u8, A>, count: usize)
    requires { count ≤ vec_len octets.old }
    ensures { octets.new.items ≡ drop count octets.old.items }
{
    let len = octets.len();
    octets.rotate_left(count);
    octets.truncate(len - count);
}

/// Writes all of `out` and empties it.
///
/// # Errors
///
/// `WireFault` where a write failed: `out` keeps the octets that were not written, at least one.
#[tactic(auto, using(crate::proofs::Growing::growing))]
fn write_all<A: Allocator, S: Wire>(wire: &mut S, out: &mut Vec<u8, A>) -> Result<(), WireFault>
    requires { S.has_failed wire.old ≡ false }
    ensures written { Writes (S.octets_written wire.old) out.old.items (S.octets_written wire.new) out.new.items }
    ensures ok { OnOk result (out.new.items ≡ []) }
    ensures err { OnErr result (0 < vec_len out.new) }
    ensures read { (S.octets_read wire.new ≡ S.octets_read wire.old)
        × (S.read_lengths wire.new ≡ S.read_lengths wire.old) }
    ensures flag { S.has_failed wire.new ≡ is_err result }
{
    let mut done = 0usize;
    while done < out.len() {
        match wire.write(octets_from(out.as_slice(), done)) {
            Ok(count) => done += count,
            Err(fault) => {
                remove_front(out, done);
                return Err(fault);
            }
        }
    }
    out.clear();
    Ok(())
}

/// Writes all of an outbox and empties it.
///
/// # Errors
///
/// `WireFault` where a write failed: `out` keeps the octets that were not written, at least one.
fn write_outbox<A: Allocator, S: Wire>(
    wire: &mut S,
    out: &mut Outbox<'_, A>,
) -> Result<(), WireFault>
    requires { S.has_failed wire.old ≡ false }
    ensures written { Writes (S.octets_written wire.old) out.old (S.octets_written wire.new) out.new }
    ensures ok { OnOk result (out.new ≡ []) }
    ensures err { OnErr result (0 < length out.new) }
    ensures read { (S.octets_read wire.new ≡ S.octets_read wire.old)
        × (S.read_lengths wire.new ≡ S.read_lengths wire.old) }
    ensures flag { S.has_failed wire.new ≡ is_err result }
{
    while !out.is_empty() {
        out.gather();
        let count = wire.write(out.front())?;
        out.remove_front(count);
    }
    Ok(())
}
