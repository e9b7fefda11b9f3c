//! An open field block as it is at one time, kept to be gone on with later (RFC 9113, 4.3 and 6.10). Blocks that are kept
//! one after another share the first fields and the octets of a long string. Definition: `OpenBlock` of h2_spec's
//! `specs/State.antt`.

ghost use Rattle.std.specs.Prelude.{◌≡◌, IfOk};

use crate::field_block::decoding::Decoding;
use crate::field_block::open_block::OpenBlock;
use h2_fields::collected::Collected;
use h2_fields::kept_rest::KeptRest;
use h2_spec::connection::{BlockView, Purpose};
use std::alloc::{AllocError, Allocator};
use std::marker::Model;

/// An open field block as it was: as it is shown, and how far it was decoded where it went on.
pub struct KeptBlock<A: Allocator> {
    shown: BlockView,
    purpose: Purpose,
    collected: Collected<A>,
    /// The octets that begin an instruction and do not end it; other kept blocks can have them too.
    rest: KeptRest<A>,
    /// Whether it was decoded further.
    goes_on: bool,
}

impl<A: Allocator> Model for KeptBlock<A> {
    ghost use Rattle.h2_spec.specs.State as state;
    ghost use Rattle.h2_conn.specs.OpenBlocks.{decoding_if};

    ghost Value = { state.OpenBlock };

    ghost view = { λ b. record {
      shown = b.shown;
      decoding = decoding_if b.goes_on
          (record { purpose = b.purpose; fields = b.collected.fields; due = b.collected.due; rest = b.rest });
    } };
}

/// By hand, as that of `Decoding`.
impl<A: Allocator> Drop for KeptBlock<A> {
    fn drop(self) {
        let Self {
            shown: _,
            purpose: _,
            collected: _,
            rest: _,
            goes_on: _,
        } = self;
    }
}

impl<A: Allocator + Copy> KeptBlock<A> {
    /// The block as it is now; what it has in common with an earlier one is in memory once.
    fn of(block: &OpenBlock<A>, earlier: Option<&KeptBlock<A>>) -> Result<Self, AllocError>
        ensures { IfOk result (λ kept. kept ≡ block.now) }
    {
        let decoding = &block.decoding;
        let collected = decoding.collected.keep(collected_of(earlier))?;
        let rest = decoding.rest.keep(rest_of(earlier))?;
        Ok(KeptBlock {
            shown: block.shown,
            purpose: decoding.purpose,
            collected,
            rest,
            goes_on: block.goes_on,
        })
    }

    /// The block that was kept, to be gone on with.
    fn restore(&self) -> Result<OpenBlock<A>, AllocError>
        ensures { IfOk result (λ block. block ≡ self.now) }
    {
        let collected = self.collected.try_clone()?;
        let rest = self.rest.restore()?;
        let decoding = Decoding {
            purpose: self.purpose,
            collected,
            rest,
        };
        Ok(OpenBlock {
            shown: self.shown,
            decoding,
            goes_on: self.goes_on,
        })
    }
}

/// The fields of an earlier block, if there is one.
fn collected_of<A: Allocator>(block: Option<&KeptBlock<A>>) -> Option<&Collected<A>> {
    match block {
        Some(block) => Some(&block.collected),
        None => None,
    }
}

/// What is kept of the rest of an earlier block, if there is one.
fn rest_of<A: Allocator>(block: Option<&KeptBlock<A>>) -> Option<&KeptRest<A>> {
    match block {
        Some(block) => Some(&block.rest),
        None => None,
    }
}

/// The open block as it is now, if one is open. What it has in common with `earlier` is in memory once.
///
/// `AllocError` where the memory was refused.
pub fn keep_open<A: Allocator + Copy>(
    block: &Option<OpenBlock<A>>,
    earlier: Option<&KeptBlock<A>>,
) -> Result<Option<KeptBlock<A>>, AllocError>
    ensures { IfOk result (λ kept. kept ≡ block.now) }
{
    match block {
        None => Ok(None),
        Some(block) => Ok(Some(KeptBlock::of(block, earlier)?)),
    }
}

/// The open block that was kept, if one was open.
///
/// `AllocError` where the memory was refused.
pub fn restore_open<A: Allocator + Copy>(
    kept: &Option<KeptBlock<A>>,
) -> Result<Option<OpenBlock<A>>, AllocError>
    ensures { IfOk result (λ block. block ≡ kept.now) }
{
    match kept {
        None => Ok(None),
        Some(kept) => Ok(Some(kept.restore()?)),
    }
}
