//! The records of streams that can still change, kept to be made again later (RFC 9113, 5.1). Lists that are kept one
//! after another share the records that they have in common, by counted pointers. A list that is the same as the one
//! before is shared as a whole; one that differs little is the list before it that was kept whole, and a patch of it
//! (`patch.rt`). Send windows are a list apart (`sends.rt`). Contracts see the records that were kept, and nothing of
//! what is shared. Definitions: `specs/Sends.antt`, `specs/Patches.antt`.

ghost use Rattle.std.specs.Prelude.{◌≡◌, IfOk, length, map};
ghost use Rattle.std.specs.List.{filter};
ghost use Rattle.h2_streams.specs.Rebuilt.{is_live_or};
ghost use Rattle.h2_streams.specs.Sends as spec;

use crate::records::Streams;
use crate::sharing::patch::{Patch, count_steps};
use crate::sharing::shared::{SharedStream, are_these, joined, shared_streams};
use crate::windows::sends::{new_sends, next_sends};
use h2_spec::flow::Window;
use h2_spec::streams::Stream;
use std::alloc::{AllocError, Allocator};
use std::marker::Model;
use std::rc::Rc;

/// The records of streams that could still change at one time, in the order of opening.
#[derive(Drop)]
pub struct KeptStreams<A: Allocator> {
    /// The records without their send windows.
    records: SharedList<A>,
    /// Their send windows.
    sends: Rc<Vec<Window, A>, A>,
}

impl<A: Allocator> Model for KeptStreams<A> {
    ghost use Rattle.std.specs.Prelude.{◌≡◌, List, length};
    ghost use Rattle.h2_spec.specs.declared.streams.Stream as streams;
    ghost use Rattle.h2_streams.specs.Sends.{with_sends};

    ghost Value = { List streams.Stream };

    ghost view = { λ k. with_sends k.records k.sends.value.items };

    ghost invariant = { λ k. length k.sends.value.items ≡ length k.records };
}

impl<A: Allocator + Copy> Streams<A> {
    /// The records that are live, and that of one more stream, if it has one; in the order of opening. What is the same
    /// in `earlier`, which was kept of the same streams before, is not copied: both have it then.
    ///
    /// # Errors
    ///
    /// `AllocError` where the memory was refused; `self` is as it was.
    pub fn keep(
        &self,
        other: Option<u32>,
        earlier: Option<&KeptStreams<A>>,
    ) -> Result<KeptStreams<A>, AllocError>
        ensures { IfOk result (λ kept. kept ≡ filter (is_live_or other) self.now.streams) }
    {
        let list = self.live_or(other)?;
        let alloc = *list.allocator();
        KeptStreams::of(list.as_slice(), earlier, alloc)
    }
}

impl<A: Allocator + Copy> KeptStreams<A> {
    /// These records, shared with earlier ones where they are the same.
    fn of(streams: &[Stream], earlier: Option<&Self>, alloc: A) -> Result<Self, AllocError>
        ensures { IfOk result (λ kept. kept ≡ streams.now) }
    {
        let sends = sends_after(streams, earlier, alloc)?;
        let records = records_after(streams, earlier, alloc)?;
        Ok(KeptStreams { records, sends })
    }

    /// The records that were kept, in memory of their own.
    ///
    /// # Errors
    ///
    /// `AllocError` where the memory was refused; `self` is as it was.
    pub fn list(&self) -> Result<Vec<Stream, A>, AllocError>
        ensures same { IfOk result (λ list. list.items ≡ self.now) }
    {
        self.records.with_sends(self.sends.as_ref().as_slice())
    }

    /// The allocator that the records are from.
    pub fn allocator(&self) -> &A {
        self.sends.as_ref().allocator()
    }
}

/// The send windows of the records, shared with earlier ones where those are the same.
fn sends_after<A: Allocator + Copy>(
    streams: &[Stream],
    earlier: Option<&KeptStreams<A>>,
    alloc: A,
) -> Result<Rc<Vec<Window, A>, A>, AllocError>
    ensures { IfOk result (λ sends. sends.value.items ≡ map spec.send_of streams.now) }
{
    match earlier {
        Some(earlier) => next_sends(streams, &earlier.sends, alloc),
        None => new_sends(streams, alloc),
    }
}

/// The records without their send windows, shared with earlier ones where those are the same.
fn records_after<A: Allocator + Copy>(
    streams: &[Stream],
    earlier: Option<&KeptStreams<A>>,
    alloc: A,
) -> Result<SharedList<A>, AllocError>
    ensures { IfOk result (λ records. records ≡ map spec.without_send streams.now) }
{
    match earlier {
        Some(earlier) => earlier.records.next(streams, alloc),
        None => {
            let none = Vec::new(alloc);
            SharedList::whole(streams, none.as_slice(), alloc)
        }
    }
}

/// Records without their send windows, as a whole list that others share, and what differs from it; contracts see the
/// records.
#[derive(Drop)]
struct SharedList<A: Allocator> {
    /// The whole list.
    base: Rc<Vec<SharedStream<A>, A>, A>,
    /// What differs from it, if something does.
    patch: Option<Rc<Patch<A>, A>>,
    /// The steps of all patches of the whole list up to this one.
    steps: usize,
}

impl<A: Allocator> Model for SharedList<A> {
    ghost use Rattle.std.specs.Prelude.{List};
    ghost use Rattle.std.specs.Option.{option_map_or};
    ghost use Rattle.h2_spec.specs.declared.streams.Stream as streams;
    ghost use Rattle.h2_streams.specs.Patches.{patched};

    ghost Value = { List streams.Stream };

    ghost view = { λ s. option_map_or (λ p. patched s.base.value.items p.value.steps.items p.value.last) s.patch s.base.value.items };
}

impl<A: Allocator + Copy> SharedList<A> {
    /// A whole list of these records without their send windows, each shared with an earlier one where that is the same.
    fn whole(streams: &[Stream], earlier: &[SharedStream<A>], alloc: A) -> Result<Self, AllocError>
        ensures { IfOk result (λ records. records ≡ map spec.without_send streams.now) }
    {
        let records = shared_streams(streams, earlier, alloc)?;
        match Rc::new(alloc, records) {
            Ok(base) => Ok(SharedList {
                base,
                patch: None,
                steps: 0,
            }),
            Err(_) => Err(AllocError),
        }
    }

    /// The records without their send windows, shared with this list where those are the same.
    fn next(&self, streams: &[Stream], alloc: A) -> Result<Self, AllocError>
        ensures { IfOk result (λ records. records ≡ map spec.without_send streams.now) }
    {
        let base = self.base.as_ref().as_slice();
        match &self.patch {
            Some(patch) => {
                let list = patch.as_ref().list(base, alloc)?;
                self.after(list.as_slice(), streams, alloc)
            }
            None => self.after(base, streams, alloc),
        }
    }

    /// As `next`, where this list's records are given. A patch takes 16 octets for each step and a whole list 8 for each
    /// record: where the patches of one whole list would take more than another, that is made.
    fn after(
        &self,
        records: &[SharedStream<A>],
        streams: &[Stream],
        alloc: A,
    ) -> Result<Self, AllocError>
        requires { records.now ≡ self.now }
        ensures { IfOk result (λ records. records ≡ map spec.without_send streams.now) }
    {
        if are_these(records, streams) {
            return self.share();
        }
        let steps = count_steps(streams, self.base.as_ref().as_slice());
        if streams.len() < 32 || self.steps.saturating_add(steps) > streams.len() / 2 {
            return SharedList::whole(streams, records, alloc);
        }
        self.patched(streams, records, steps, alloc)
    }

    /// The list, shared.
    fn share(&self) -> Result<Self, AllocError>
        ensures { IfOk result (λ list. list ≡ self.now) }
    {
        let base = self.base.clone()?;
        let patch = match &self.patch {
            Some(patch) => Some(patch.clone()?),
            None => None,
        };
        Ok(SharedList {
            base,
            patch,
            steps: self.steps,
        })
    }

    /// The records without their send windows, as the whole list of this one and a patch with this many steps.
    fn patched(
        &self,
        streams: &[Stream],
        earlier: &[SharedStream<A>],
        steps: usize,
        alloc: A,
    ) -> Result<Self, AllocError>
        ensures { IfOk result (λ records. records ≡ map spec.without_send streams.now) }
    {
        let patch = Patch::of(
            streams,
            self.base.as_ref().as_slice(),
            earlier,
            steps,
            alloc,
        )?;
        let base = self.base.clone()?;
        match Rc::new(alloc, patch) {
            Ok(patch) => Ok(SharedList {
                base,
                patch: Some(patch),
                steps: self.steps.saturating_add(steps),
            }),
            Err(_) => Err(AllocError),
        }
    }

    /// The records with these send windows.
    fn with_sends(&self, sends: &[Window]) -> Result<Vec<Stream, A>, AllocError>
        requires { length sends.now ≡ length self.now }
        ensures { IfOk result (λ list. list.items ≡ spec.with_sends self.now sends.now) }
    {
        let base = self.base.as_ref().as_slice();
        let alloc = *self.base.as_ref().allocator();
        match &self.patch {
            Some(patch) => {
                let list = patch.as_ref().list(base, alloc)?;
                joined(list.as_slice(), sends, alloc)
            }
            None => joined(base, sends, alloc),
        }
    }
}
