//! The octets at the end of a fragment of a field block that begin an instruction and do not end it, with the point
//! where reading goes on in them (RFC 7541, 3; RFC 9113, 4.3). What a point is, is in h2_hpack_instruction, `specs/Resume.antt`; contracts
//! see the octets alone.

ghost use Rattle.std.specs.Prelude.{◌≡◌, ◌==◌, [], length, IfOk};

use h2_hpack_instruction::shape::Point;
use h2_spec::octets::drop_front;
use std::alloc::{AllocError, Allocator};
use std::marker::Model;

/// The most octets whose memory is kept for the next field block.
const MAX_KEPT_OCTETS: usize = 16_384;

/// The octets that begin an instruction and do not end it; none where the last instruction is whole.
#[derive(Drop)]
pub struct Rest<A: Allocator> {
    /// The octets; fewer than one instruction has.
    pub(crate) octets: Vec<u8, A>,
    /// Where reading goes on in them.
    pub(crate) point: Point,
}

impl<A: Allocator> Model for Rest<A> {
    ghost use Rattle.std.specs.Prelude.{ℕ, List};
    ghost use Rattle.h2_hpack_instruction.specs.Resume.{IsRest};

    ghost Value = { List ℕ };

    ghost view = { λ r. r.octets.items };

    ghost invariant = { λ r. IsRest r.octets.items r.point };
}

/// The rest of a block before a fragment and after it: either of them can be kept. It counts the steps of the
/// fragment's decoding too.
#[derive(Drop)]
pub struct RestChange<A: Allocator> {
    /// The octets left before the fragment, then those of the fragment.
    pub(crate) octets: Vec<u8, A>,
    /// How many octets there were before the fragment.
    pub(crate) kept: usize,
    /// Where reading went on in them.
    pub(crate) point: Point,
    /// How many octets at the front are decoded.
    pub(crate) used: usize,
    /// Where reading goes on in the octets after them.
    pub(crate) next: Point,
    /// The steps of the fragment's decoding.
    pub(crate) ticks: u64,
}

impl<A: Allocator> Model for RestChange<A> {
    ghost use Rattle.std.specs.Prelude.{◌≤◌, take, drop, length};
    ghost use Rattle.h2_hpack_instruction.specs.Resume.{IsRest};
    ghost use Rattle.h2_fields.specs.Rests as rests;

    ghost Value = { rests.RestChange };

    ghost view = { λ r. record { before = take r.kept r.octets.items; after = drop r.used r.octets.items; all = r.octets.items; ticks = r.ticks } };

    ghost invariant = { λ r. IsRest (take r.kept r.octets.items) r.point × IsRest (drop r.used r.octets.items) r.next × (r.used ≤ length r.octets.items) };
}

impl<A: Allocator> Rest<A> {
    /// Nothing is left. Takes no memory.
    pub fn new(alloc: A) -> Self
        ensures { result ≡ [] }
    {
        Rest {
            octets: Vec::new(alloc),
            point: Point::start(),
        }
    }

    /// Nothing is left any more. The memory is kept for another field block, unless it holds more than 16,384 octets.
    pub fn clear(&mut self)
        ensures { self.new ≡ [] }
    {
        self.point = Point::start();
        self.octets.clear();
        if self.octets.capacity() > MAX_KEPT_OCTETS {
            self.octets.shrink_to_fit();
        }
    }

    /// Whether nothing is left.
    pub fn is_empty(&self) -> bool
        ensures { result ≡ (length self.now == 0) }
    {
        self.octets.is_empty()
    }
}

impl<A: Allocator + Copy> Rest<A> {
    /// A copy of the octets, in memory of their own.
    ///
    /// # Errors
    ///
    /// `AllocError` where memory was refused; `self` is as it was.
    pub fn try_clone(&self) -> Result<Rest<A>, AllocError>
        ensures same { IfOk result (λ copy. copy ≡ self.now) }
    {
        Ok(Rest {
            octets: self.octets.clone()?,
            point: self.point,
        })
    }
}

impl<A: Allocator> RestChange<A> {
    /// No fragment is decoded.
    pub fn unchanged(rest: Rest<A>) -> Self
        ensures { result ≡ record { before = rest; after = rest; all = rest; ticks = 0 } }
    {
        let Rest { octets, point } = rest;
        let kept = octets.len();
        RestChange {
            octets,
            kept,
            point,
            used: 0,
            next: point,
            ticks: 0,
        }
    }

    /// What was left before the fragment.
    #[inline(always)]
    pub fn give_up(self) -> Rest<A>
        ensures { result ≡ self.before }
    {
        let RestChange {
            mut octets,
            kept,
            point,
            used: _,
            next: _,
            ticks: _,
        } = self;
        octets.truncate(kept);
        Rest { octets, point }
    }

    /// The rest after the fragment.
    pub fn take_over(self) -> Rest<A>
        ensures { result ≡ self.after }
    {
        let RestChange {
            mut octets,
            kept: _,
            point: _,
            used,
            next,
            ticks: _,
        } = self;
        drop_front(&mut octets, used);
        Rest {
            octets,
            point: next,
        }
    }

    /// Whether there are no octets, before the fragment and after it.
    pub(crate) fn is_empty(&self) -> bool
        ensures { result ≡ (length self.now.all == 0) }
    {
        self.octets.len() == 0
    }

    /// Whether nothing is left after the fragment.
    pub fn is_whole(&self) -> bool
        ensures { result ≡ (length self.now.after == 0) }
    {
        self.used == self.octets.len()
    }

    /// How many steps the decoding of the fragment took: one for each octet that was passed, one for each octet of a
    /// Huffman string, and one for each instruction that was done; 2^64 - 1 where that is more.
    pub fn ticks(&self) -> u64
        ensures { result ≡ self.now.ticks }
    {
        self.ticks
    }
}
