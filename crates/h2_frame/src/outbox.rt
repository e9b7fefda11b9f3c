//! Octets that are to be sent, of which long payloads are kept by reference; they are gathered again into portions as
//! they are written.

ghost use Rattle.std.specs.Prelude.{◌≡◌, ◌+◌, ◌-◌, ◌<◌, ◌≤◌, ◌++◌, ◌==◌, [], length, take, drop, IfOk, IsTrue};

use crate::lending::Lending;
use crate::outgoing::Outgoing;
use h2_spec::octets::{octets_from, octets_up_to};
use std::alloc::{AllocError, Allocator};
use std::marker::Model;

/// The shortest payload that is kept by reference: a reference takes as much time as copying some hundreds of octets.
const LENT: usize = 512;

/// The most octets of a portion: four DATA of 16,384 octets, with space for some small frames.
const PORTION: usize = 66_560;

/// Octets that are to be sent. Payloads of 512 octets and more that are lent to it, as the bodies of answers are by a
/// book, are kept by reference: they take 33 octets of memory each. All else is copied.
///
/// A contract sees the octets in order.
#[derive(Drop)]
pub struct Outbox<'b, A: Allocator> {
    /// Octets that were gathered, in front of the rest.
    portion: Vec<u8, A>,
    /// How many octets of the portion are gone.
    gone: usize,
    rest: Lending<'b, A>,
    /// How many octets there are.
    len: usize,
}

impl<'b, A: Allocator> Model for Outbox<'b, A> {
    ghost use Rattle.std.specs.Prelude.{◌≡◌, ℕ, ◌≤◌, ◌++◌, List, length, drop};

    ghost Value = { List ℕ };

    ghost view = { λ o. drop o.gone o.portion.items ++ o.rest };

    ghost invariant = { λ o. (o.gone ≤ length o.portion.items) × (o.len ≡ length (drop o.gone o.portion.items ++ o.rest)) };
}

/// The length of octets with these more; `AllocError` where no `usize` has it.
#[inline(always)]
fn longer(len: usize, more: usize) -> Result<usize, AllocError>
    ensures { IfOk result (λ sum. sum ≡ len + more) }
{
    match len.checked_add(more) {
        Some(sum) => Ok(sum),
        None => Err(AllocError),
    }
}

impl<'b, A: Allocator + Copy> Outbox<'b, A> {
    /// No octets. Takes no memory.
    pub fn new(alloc: A) -> Self
        ensures { result ≡ [] }
    {
        Outbox {
            portion: Vec::new(alloc),
            gone: 0,
            rest: Lending::new(alloc),
            len: 0,
        }
    }
}

impl<'b, A: Allocator> Outbox<'b, A> {
    /// Whether there are no octets.
    pub fn is_empty(&self) -> bool
        ensures { result ≡ (length self.now == 0) }
    {
        self.len == 0
    }

    /// Some of the first octets, where they are in one place; none only where there are none.
    pub fn front(&self) -> &[u8]
        ensures first { result.now ≡ take (length result.now) self.now }
        ensures some { 0 < length self.now → 0 < length result.now }
    {
        if self.gone < self.portion.len() {
            octets_from(self.portion.as_slice(), self.gone)
        } else {
            self.rest.front()
        }
    }

    /// Takes this many of the first octets out.
    pub fn remove_front(&mut self, count: usize)
        requires { count ≤ length self.old }
        ensures { self.new ≡ drop count self.old }
    {
        let held = self.portion.len() - self.gone;
        self.len -= count;
        if count < held {
            self.gone += count;
            return;
        }
        self.portion.clear();
        self.gone = 0;
        self.rest.remove_front(count - held);
    }

    // One portion of at most 66,560 octets, four DATA of 16,384. Where its memory is refused each place is
    // written by itself, so writing never fails for memory.
    /// Brings the first octets to one place, at most 66,560 of them, where some octets are lent; the octets stay the
    /// same. It takes memory for them once; where that is refused, they stay where they are.
    pub fn gather(&mut self)
        ensures { self.new ≡ self.old }
    {
        if self.gone < self.portion.len() || !self.rest.has_loans() {
            return;
        }
        self.portion.clear();
        self.gone = 0;
        if self.portion.reserve(PORTION).is_ok() {
            gather(&mut self.portion, &mut self.rest);
        }
    }
}

/// Takes octets off the front of the rest and appends them to a portion, until it is full or nothing is left.
fn gather<A: Allocator>(portion: &mut Vec<u8, A>, rest: &mut Lending<'_, A>)
    ensures { portion.new.items ++ rest.new ≡ portion.old.items ++ rest.old }
{
    while portion.len() < PORTION {
        if !gather_some(portion, rest) {
            return;
        }
    }
}

/// Takes some octets off the front of the rest and appends them to a portion that is not full, and says whether there
/// were any. Where memory is refused, there are none.
fn gather_some<A: Allocator>(portion: &mut Vec<u8, A>, rest: &mut Lending<'_, A>) -> bool
    requires { length portion.old.items < 66560 }
    ensures same { portion.new.items ++ rest.new ≡ portion.old.items ++ rest.old }
    ensures more { IsTrue result → length portion.old.items < length portion.new.items }
{
    let front = rest.front();
    let count = front.len().min(PORTION - portion.len());
    if portion
        .extend_from_slice(octets_up_to(front, count))
        .is_err()
    {
        return false;
    }
    rest.remove_front(count);
    count > 0
}

impl<'b, A: Allocator> Outgoing<'b, A> for Outbox<'b, A> {
    ghost octets = { λ o. o };

    fn len(&self) -> usize {
        self.len
    }

    fn memory(&self) -> &A {
        self.rest.memory()
    }

    fn append_copied(
        &mut self,
        head: &[u8; 9],
        front: &[u8],
        rest: &[u8],
    ) -> Result<(), AllocError> {
        let len = longer(self.len, 9 + (front.len() + rest.len()))?;
        self.rest.copy(head, front, rest)?;
        self.len = len;
        Ok(())
    }

    // A payload below 512 octets is copied: a loan and its part of a write cost as much.
    fn append_lent(&mut self, head: &[u8; 9], payload: &'b [u8]) -> Result<(), AllocError> {
        if payload.len() < LENT {
            return self.append_copied(head, &[], payload);
        }
        let len = longer(self.len, 9 + payload.len())?;
        self.rest.lend(head, payload)?;
        self.len = len;
        Ok(())
    }

    fn keep_first(&mut self, len: usize) {
        if self.len <= len {
            return;
        }
        let all = self.len;
        let held = self.portion.len() - self.gone;
        self.len = len;
        if held <= len {
            self.rest.cut(all - len);
            return;
        }
        self.rest.cut(all - held);
        self.portion.truncate(self.gone + len);
    }
}
