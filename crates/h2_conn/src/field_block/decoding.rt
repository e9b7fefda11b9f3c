//! How far a field block is decoded (RFC 9113, 4.3). Definition: `Decoding` of h2_spec's `specs/State.antt`.

ghost use Rattle.std.specs.Prelude.{◌≡◌, [], IfOk};
ghost use Rattle.h2_spec.specs.Hpack.Block.{list_size};

use h2_fields::collected::Collected;
use h2_fields::rest::Rest;
use h2_spec::connection::Purpose;
use std::alloc::{AllocError, Allocator};
use std::marker::Model;

/// How far a field block is decoded, and what it is for: its fields, whether it still has to begin with a size update,
/// and the octets that begin an instruction and do not end it.
pub struct Decoding<A: Allocator> {
    /// What the fields are for.
    pub purpose: Purpose,
    /// The fields so far, and whether a table size update is still due (RFC 7541, 4.2).
    pub collected: Collected<A>,
    /// The octets of the fragments so far that begin an instruction and do not end it.
    pub rest: Rest<A>,
}

impl<A: Allocator> Model for Decoding<A> {
    ghost use Rattle.h2_spec.specs.State as state;

    ghost Value = { state.Decoding };

    ghost view = { λ d. record { purpose = d.purpose; fields = d.collected.fields; due = d.collected.due; rest = d.rest } };
}

/// By hand, so that a function that drops it makes one call, where a derived `Drop` would drop each part there.
impl<A: Allocator> Drop for Decoding<A> {
    fn drop(self) {
        let Self {
            purpose: _,
            collected: _,
            rest: _,
        } = self;
    }
}

impl<A: Allocator + Copy> Decoding<A> {
    /// Nothing of a block is decoded yet; `due` says whether it has to begin with a size update (RFC 7541, 4.2). No
    /// memory is taken.
    pub fn fresh(alloc: A, purpose: Purpose, due: bool) -> Self
        ensures { result ≡ record { purpose = purpose; fields = []; due = due; rest = [] } }
    {
        let mut decoding = Decoding {
            purpose,
            collected: Collected::new(alloc),
            rest: Rest::new(alloc),
        };
        decoding.renew(purpose, due);
        decoding
    }

    /// Nothing of another block is decoded yet; `due` says whether it has to begin with a size update. The memory is
    /// used again, unless it is of a large block.
    pub fn renew(&mut self, purpose: Purpose, due: bool)
        ensures { self.new ≡ record { purpose = purpose; fields = []; due = due; rest = [] } }
    {
        self.purpose = purpose;
        self.collected.clear(due);
        self.rest.clear();
    }

    /// Where there are many fields, copies made from now on share them; the block stays the same.
    pub fn share(&mut self)
        ensures { self.new ≡ self.old }
    {
        self.collected.share();
    }

    /// The size of the fields (RFC 9113, 6.5.2).
    pub fn list_size(&self) -> u64
        ensures { result ≡ list_size self.now.fields }
    {
        self.collected.list_size()
    }

    /// A copy, in memory of its own.
    pub fn try_clone(&self) -> Result<Decoding<A>, AllocError>
        ensures { IfOk result (λ copy. copy ≡ self.now) }
    {
        let collected = self.collected.try_clone()?;
        let rest = self.rest.try_clone()?;
        Ok(Decoding {
            purpose: self.purpose,
            collected,
            rest,
        })
    }
}
