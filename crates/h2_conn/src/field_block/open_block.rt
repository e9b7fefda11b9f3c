//! A field block that is open between two frames (RFC 9113, 4.3 and 6.10). Definition: `OpenBlock` of h2_spec's
//! `specs/State.antt`.

ghost use Rattle.std.specs.Prelude.{◌≡◌, None, Some, IfOk, option_map};
ghost use Rattle.h2_spec.specs.Requests.Headers as rule;
ghost use Rattle.h2_conn.specs.OpenBlocks.{block_after, decoding_in};
ghost use Rattle.h2_conn.specs.Shown.{fields_at_hand, fields_in};

use crate::field_block::decoding::Decoding;
use h2_fields::collected::Collected;
use h2_spec::connection::{BlockView, Purpose};
use h2_spec::frames::{END_STREAM, Head};
use std::alloc::{AllocError, Allocator};
use std::marker::Model;
use std::mem;

/// A field block that has begun; after the end of the connection it is shown, and decoded no more. What it is decoded to
/// changes places with memory of the caller, so that no fragment copies it into memory of its own.
#[derive(Drop)]
pub struct OpenBlock<A: Allocator> {
    /// The block as the state shows it.
    pub(crate) shown: BlockView,
    /// How far it is decoded where it goes on; else memory alone.
    pub(crate) decoding: Decoding<A>,
    /// Whether it is decoded further: not after the end of the connection, and not while its decoding is taken out.
    pub(crate) goes_on: bool,
}

impl<A: Allocator> Model for OpenBlock<A> {
    ghost use Rattle.h2_spec.specs.State as state;
    ghost use Rattle.h2_conn.specs.OpenBlocks.{decoding_if};

    ghost Value = { state.OpenBlock };

    ghost view = { λ b. record { shown = b.shown; decoding = decoding_if b.goes_on b.decoding } };
}

impl<A: Allocator + Copy> OpenBlock<A> {
    /// A copy of the block, in memory of its own.
    fn try_clone(&self) -> Result<OpenBlock<A>, AllocError>
        ensures { IfOk result (λ copy. copy ≡ self.now) }
    {
        Ok(OpenBlock {
            shown: self.shown,
            decoding: self.decoding.try_clone()?,
            goes_on: self.goes_on,
        })
    }

    /// The block is decoded no more: it is only shown. Its memory goes where it is large.
    pub fn stop(&mut self)
        ensures { self.new ≡ record self.old { decoding = None } }
    {
        let purpose = self.decoding.purpose;
        self.decoding.renew(purpose, false);
        self.goes_on = false;
    }

    // Changes places with memory of the caller. As an `Option` the decoding was moved out and in, 750
    // instructions a CONTINUATION.
    /// How far the block is decoded, taken out into `decoding`, and the block as it is shown; nothing where it is decoded
    /// no more. Where it has many fields, copies made from now on share them.
    pub fn take_out(&mut self, decoding: &mut Decoding<A>) -> Option<BlockView>
        ensures taken { option_map (λ shown. (shown, decoding.new)) result ≡ decoding_in self.old.shown self.old.decoding }
        ensures stopped { self.new ≡ record self.old { decoding = None } }
    {
        if !self.goes_on {
            return None;
        }
        mem::swap(&mut self.decoding, decoding);
        decoding.share();
        self.goes_on = false;
        Some(self.shown)
    }

    /// The block goes on, shown like this and with this decoding, which is taken out.
    fn go_on(&mut self, shown: BlockView, decoding: &mut Decoding<A>)
        ensures { Some self.new ≡ block_after (Some shown) decoding.old }
    {
        mem::swap(&mut self.decoding, decoding);
        self.shown = shown;
        self.goes_on = true;
    }
}

/// A copy of the open block, if there is one.
pub fn copy_of<A: Allocator + Copy>(
    block: &Option<OpenBlock<A>>,
) -> Result<Option<OpenBlock<A>>, AllocError>
    ensures { IfOk result (λ copy. copy ≡ block.now) }
{
    match block {
        None => Ok(None),
        Some(block) => Ok(Some(block.try_clone()?)),
    }
}

impl<A: Allocator> OpenBlock<A> {
    /// The block as the state shows it.
    pub fn shown(&self) -> BlockView
        ensures { result ≡ self.now.shown }
    {
        self.shown
    }

    /// The fields of the block, while it is decoded further; else those that are left in memory.
    fn fields_or<'f>(&'f self, memory: &'f Decoding<A>) -> &'f Collected<A>
        ensures { result.now.fields ≡ fields_in self.now.decoding memory.now.fields }
    {
        if self.goes_on {
            &self.decoding.collected
        } else {
            &memory.collected
        }
    }

    /// What the block is for, while it is decoded further.
    pub fn purpose(&self) -> Option<Purpose>
        ensures { result ≡ option_map (λ decoding. decoding.purpose) self.now.decoding }
    {
        if self.goes_on {
            Some(self.decoding.purpose)
        } else {
            None
        }
    }

    /// The stream that the block is on.
    pub fn stream(&self) -> u32
        ensures { result ≡ self.now.shown.stream }
    {
        self.shown.stream
    }
}

/// The open block becomes the one after a fragment, as it is shown and decoded: its decoding is taken out. Where none is
/// open, the decoding stays, as memory for the next one.
#[inline(always)]
pub fn leave_open<A: Allocator + Copy>(
    block: &mut Option<OpenBlock<A>>,
    shown: Option<BlockView>,
    decoding: &mut Decoding<A>,
)
    ensures open { block.new ≡ block_after shown decoding.old }
    ensures fields { fields_at_hand block.new decoding.new.fields ≡ decoding.old.fields }
{
    match shown {
        None => match block {
            None => {}
            Some(_) => close(block),
        },
        Some(shown) => match block {
            None => begin(block, shown, decoding),
            Some(open) => open.go_on(shown, decoding),
        },
    }
}

/// The fields of the block that goes on; where none does, those that are left in memory.
pub fn fields_at_hand<'f, A: Allocator>(
    block: &'f Option<OpenBlock<A>>,
    memory: &'f Decoding<A>,
) -> &'f Collected<A>
    ensures { result.now.fields ≡ fields_at_hand block.now memory.now.fields }
{
    match block {
        Some(open) => open.fields_or(memory),
        None => &memory.collected,
    }
}

/// No block is open any more. Most fragments end a block that they began, so this is apart.
#[inline(never)]
fn close<A: Allocator>(block: &mut Option<OpenBlock<A>>)
    ensures { block.new ≡ None }
{
    *block = None;
}

/// A block is open that goes on with this decoding, which is taken out.
#[inline(never)]
fn begin<A: Allocator + Copy>(
    block: &mut Option<OpenBlock<A>>,
    shown: BlockView,
    decoding: &mut Decoding<A>,
)
    ensures { block.new ≡ block_after (Some shown) decoding.old }
{
    let none = Decoding::fresh(decoding.collected.allocator(), decoding.purpose, false);
    *block = Some(OpenBlock {
        shown,
        decoding: mem::replace(decoding, none),
        goes_on: true,
    });
}

/// A block that HEADERS open, before its first fragment.
pub fn fresh_block(head: &Head) -> BlockView
    ensures { result ≡ rule.fresh_block head.now }
{
    BlockView {
        stream: head.stream,
        octets: 0,
        list_size: 0,
        ends: head.has(END_STREAM),
    }
}
