//! Identifiers in the order of opening, as runs: those that a client opens are odd and mostly follow one another (RFC
//! 9113, 5.1.1). A run takes 16 octets, whatever its length; a client that leaves some out begins one more with each.
//! Definitions: `specs/Brief.antt`.

ghost use Rattle.std.specs.Prelude.{◌≡◌, ℕ, suc, ◌*◌, ◌-◌, ◌+◌, ◌<◌, ◌≤◌, true, length, IfOk, Some, slice_get};
ghost use Rattle.h2_streams.specs.declared.brief.runs.IdRun.{IdRun};
ghost use Rattle.std.specs.Vec.{vec_capacity, vec_len};
ghost use Rattle.h2_streams.specs.Brief as spec;

use std::alloc::{AllocError, Allocator};

/// Identifiers two apart: the last one, and the place after it.
#[derive(Clone, Copy)]
pub(crate) struct IdRun {
    last: u32,
    end: usize,
}

impl IdRun {
    /// The identifier at this place, which is in the run.
    #[inline(always)]
    fn id(self, place: usize) -> u32
        requires { place < self.end }
        ensures { result ≡ self.last - 2 * (self.end - suc place) }
    {
        let last = self.last as usize;
        let back = (self.end - 1 - place).min(last);
        last.saturating_sub(2 * back) as u32
    }

    /// Whether this identifier follows the last one.
    fn precedes(self, id: u32) -> bool
        ensures { result ≡ true → self.last + 2 ≡ id }
    {
        self.last < id && id - self.last == 2
    }
}

/// The identifier at this place.
#[inline(always)]
pub(crate) fn id_at(runs: &[IdRun], place: usize) -> u32
    requires { spec.AreEnds 0 runs.now }
    ensures { result ≡ spec.id_at runs.now place }
{
    let index = runs.partition_point(|run| run.end <= place);
    match run_at(runs, index) {
        Some(run) => run.id(place),
        None => 0,
    }
}

/// The run at this index.
#[inline(always)]
fn run_at(runs: &[IdRun], index: usize) -> Option<IdRun>
    ensures { result ≡ slice_get runs.now index }
{
    runs.get(index).copied()
}

/// The place of this identifier, if it is there; else any.
pub(crate) fn likely_place(runs: &[IdRun], id: u32) -> usize {
    let index = runs.partition_point(|run| run.last < id);
    match run_at(runs, index) {
        Some(run) => {
            let back = run.last.saturating_sub(id) as usize / 2;
            run.end.saturating_sub(1).saturating_sub(back)
        }
        None => 0,
    }
}

/// Whether this identifier follows the last one of all.
fn is_next(runs: &[IdRun], id: u32) -> bool
    ensures { result ≡ true → (before : IdRun) × (slice_get runs.now (length runs.now - 1) ≡ Some before) × (before.last + 2 ≡ id) }
{
    match runs.last() {
        Some(run) => run.precedes(id),
        None => false,
    }
}

/// Puts an identifier after the others, at the place before `end`. There is space for it.
pub(crate) fn append_id<A: Allocator>(runs: &mut Vec<IdRun, A>, id: u32, end: usize)
    requires ends { spec.AreEnds 0 runs.old.items × (suc (spec.end_of 0 runs.old.items) ≡ end) }
    requires enough { vec_len runs.old < vec_capacity runs.old }
    ensures before { (place : ℕ) → suc place < end → spec.id_at runs.new.items place ≡ spec.id_at runs.old.items place }
    ensures last { spec.id_at runs.new.items (end - 1) ≡ id }
    ensures ends { spec.AreEnds 0 runs.new.items × (spec.end_of 0 runs.new.items ≡ end) }
    ensures len { vec_len runs.new ≤ vec_len runs.old + 1 }
    ensures capacity { vec_capacity runs.old ≤ vec_capacity runs.new }
{
    let run = IdRun { last: id, end };
    if !is_next(runs.as_slice(), id) {
        runs.push_reserved(run);
        return;
    }
    let last = runs.len() - 1;
    runs[last] = run;
}

/// The runs up to this place.
///
/// `AllocError` where memory for them is refused.
pub(crate) fn first_runs<A: Allocator + Copy>(
    runs: &[IdRun],
    end: usize,
    alloc: A,
) -> Result<Vec<IdRun, A>, AllocError>
    requires ends { spec.AreEnds 0 runs.now }
    requires within { end ≤ spec.end_of 0 runs.now }
    ensures same { IfOk result (λ first. (place : ℕ) → place < end → spec.id_at first.items place ≡ spec.id_at runs.now place) }
    ensures ends { IfOk result (λ first. spec.AreEnds 0 first.items × (spec.end_of 0 first.items ≡ end)) }
{
    let mut first = Vec::new(alloc);
    if end == 0 {
        return Ok(first);
    }
    let count = runs.partition_point(|run| run.end < end);
    first.extend_from_slice(&runs[..count])?;
    first.push(IdRun {
        last: id_at(runs, end - 1),
        end,
    })?;
    Ok(first)
}
