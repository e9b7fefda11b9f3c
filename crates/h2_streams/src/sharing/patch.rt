//! Records as what differs from a whole list of them: few records change from one kept list to the next, and a patch is
//! small where they are few. Definitions: `specs/Patches.antt`.

ghost use Rattle.std.specs.Prelude.{◌≡◌, ◌+◌, [], ◌∷◌, ◌++◌, IfOk, IfSome, map};
ghost use Rattle.h2_streams.specs.Patches as patches;
ghost use Rattle.h2_streams.specs.Sends as spec;

use crate::sharing::shared::{SharedStream, place_from, share_or_copy};
use h2_spec::streams::Stream;
use std::alloc::{AllocError, Allocator};
use std::marker::Model;

/// Records of the whole list, one after another: the place of the first, and how many.
#[derive(Clone, Copy)]
pub(crate) struct Run {
    from: u32,
    length: u32,
}

/// A run, and the record that is next, which the step has itself; contracts see both.
#[derive(Drop)]
pub(crate) struct Step<A: Allocator> {
    run: Run,
    own: SharedStream<A>,
}

impl<A: Allocator> Model for Step<A> {
    ghost use Rattle.h2_streams.specs.Patches as patches;

    ghost Value = { patches.Step };

    ghost view = { λ s. record { run = s.run; own = s.own } };
}

/// Steps, and then a last run.
#[derive(Drop)]
pub(crate) struct Patch<A: Allocator> {
    steps: Vec<Step<A>, A>,
    last: Run,
}

impl Run {
    /// The place after it in the whole list.
    #[inline(always)]
    fn end(self) -> usize
        ensures { result ≡ self.from + self.length }
    {
        self.from as usize + self.length as usize
    }

    /// The run with the record after it, if that is this one without its send window.
    #[inline(always)]
    fn extended<A: Allocator + Copy>(
        self,
        base: &[SharedStream<A>],
        stream: &Stream,
    ) -> Option<Self>
        ensures { IfSome result (λ run. patches.run_of base.now run ≡ patches.run_of base.now self ++ spec.without_send stream.now ∷ []) }
    {
        match base.get(self.end()) {
            Some(next) if self.length < u32::MAX && next.is(stream) => Some(Run {
                from: self.from,
                length: self.length + 1,
            }),
            _ => None,
        }
    }

    /// An empty run before the first record after this run that is of a stream above this one.
    fn next<A: Allocator + Copy>(self, base: &[SharedStream<A>], id: u32) -> Self
        ensures { patches.run_of base.now result ≡ [] }
    {
        let place = place_from(base, self.end(), id.saturating_add(1));
        Run {
            from: place.min(u32::MAX as usize) as u32,
            length: 0,
        }
    }

    /// Its records.
    fn records<A: Allocator + Copy>(self, base: &[SharedStream<A>]) -> &[SharedStream<A>]
        ensures { result.now ≡ patches.run_of base.now self }
    {
        let from = (self.from as usize).min(base.len());
        let length = (self.length as usize).min(base.len() - from);
        &base[from..from + length]
    }
}

impl<A: Allocator + Copy> Patch<A> {
    /// Adds a record without its send window: to the last run, or as a step's own, shared with an earlier one where that
    /// is the same.
    fn add(
        &mut self,
        stream: &Stream,
        base: &[SharedStream<A>],
        earlier: Option<&SharedStream<A>>,
        alloc: A,
    ) -> Result<(), AllocError>
        ensures { IfOk result (λ _. patches.patched base.now self.new.steps.items self.new.last ≡ patches.patched base.now self.old.steps.items self.old.last ++ spec.without_send stream.now ∷ []) }
    {
        if let Some(run) = self.last.extended(base, stream) {
            self.last = run;
            return Ok(());
        }
        let own = share_or_copy(stream, earlier, alloc)?;
        let next = self.last.next(base, stream.id);
        self.steps.push(Step {
            run: self.last,
            own,
        })?;
        self.last = next;
        Ok(())
    }

    /// The patch for these records without their send windows, which has this many steps. Their own records are shared
    /// with earlier ones where those are the same. All are in the order of opening.
    pub(crate) fn of(
        streams: &[Stream],
        base: &[SharedStream<A>],
        earlier: &[SharedStream<A>],
        steps: usize,
        alloc: A,
    ) -> Result<Self, AllocError>
        ensures { IfOk result (λ patch. patches.patched base.now patch.steps.items patch.last ≡ map spec.without_send streams.now) }
    {
        let mut patch = Patch {
            steps: Vec::with_capacity(alloc, steps)?,
            last: Run { from: 0, length: 0 },
        };
        let mut place = 0;
        for stream in streams {
            place = place_from(earlier, place, stream.id);
            patch.add(stream, base, earlier.get(place), alloc)?;
        }
        Ok(patch)
    }

    /// The records.
    pub(crate) fn list(
        &self,
        base: &[SharedStream<A>],
        alloc: A,
    ) -> Result<Vec<SharedStream<A>, A>, AllocError>
        ensures { IfOk result (λ list. list.items ≡ patches.patched base.now self.now.steps.items self.now.last) }
    {
        let mut list = Vec::new(alloc);
        for step in self.steps.as_slice() {
            append(&mut list, step.run.records(base))?;
            list.push(step.own.share()?)?;
        }
        append(&mut list, self.last.records(base))?;
        Ok(list)
    }
}

/// Appends records, shared.
fn append<A: Allocator + Copy>(
    list: &mut Vec<SharedStream<A>, A>,
    records: &[SharedStream<A>],
) -> Result<(), AllocError>
    ensures { IfOk result (λ _. list.new.items ≡ list.old.items ++ records.now) }
{
    for record in records {
        list.push(record.share()?)?;
    }
    Ok(())
}

/// How many steps the patch for these records has. All are in the order of opening.
pub(crate) fn count_steps<A: Allocator + Copy>(
    streams: &[Stream],
    base: &[SharedStream<A>],
) -> usize {
    let mut steps: usize = 0;
    let mut run = Run { from: 0, length: 0 };
    for stream in streams {
        match run.extended(base, stream) {
            Some(longer) => run = longer,
            None => {
                run = run.next(base, stream.id);
                steps = steps.saturating_add(1);
            }
        }
    }
    steps
}
