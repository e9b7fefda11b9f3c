//! Records in brief: an octet for the state of each, and runs of identifiers. A stream that is not live is seen by no more
//! than these (RFC 9113, 5.1), and a client may open a million streams on one connection. Definitions:
//! `specs/Brief.antt`.

ghost use Rattle.std.specs.Prelude.{◌≡◌, ◌+◌, ◌-◌, ◌<◌, ◌≤◌, ◌++◌, [], map, take, length, IfOk, IsTrue, OnOk, OnErr, slice_get};
ghost use Rattle.std.specs.Option.{is_some};
ghost use Rattle.std.specs.Vec.{vec_capacity, vec_len};
ghost use Rattle.h2_spec.specs.Stream.{not_live, put, record_of};
ghost use Rattle.h2_streams.specs.Brief as spec;
ghost use Rattle.h2_streams.specs.Joined.{joined};
ghost use Rattle.h2_streams.specs.Kept as kept;
ghost use Rattle.h2_streams.specs.Rebuilt as rebuilt;

use crate::brief::runs::{IdRun, append_id, first_runs, id_at, likely_place};
use crate::kinds::not_live;
use h2_spec::streams::{Stream, StreamState};
use std::alloc::{AllocError, Allocator};
use std::marker::Model;

/// Records in brief, in the order of opening; contracts see the records.
#[derive(Drop)]
pub(crate) struct BriefRecords<A: Allocator> {
    runs: Vec<IdRun, A>,
    kinds: Vec<StreamState, A>,
}

impl<A: Allocator> Model for BriefRecords<A> {
    ghost use Rattle.std.specs.Prelude.{◌≡◌, List, length};
    ghost use Rattle.h2_spec.specs.declared.streams.Stream as streams;
    ghost use Rattle.h2_streams.specs.Brief.{AreEnds, briefs_from, end_of};

    ghost Value = { List streams.Stream };

    ghost view = { λ b. briefs_from 0 b.runs.items b.kinds.items };

    ghost invariant = { λ b. AreEnds 0 b.runs.items × (end_of 0 b.runs.items ≡ length b.kinds.items) };
}

impl<A: Allocator + Copy> BriefRecords<A> {
    /// No records. Takes no memory.
    pub(crate) fn new(alloc: A) -> Self
        ensures { result ≡ [] }
    {
        BriefRecords {
            runs: Vec::new(alloc),
            kinds: Vec::new(alloc),
        }
    }

    /// A copy of that many first records.
    ///
    /// `AllocError` where memory is refused.
    pub(crate) fn first(&self, count: usize) -> Result<Self, AllocError>
        requires { count ≤ length self.now }
        ensures { IfOk result (λ first. first ≡ take count self.now) }
    {
        let alloc = *self.kinds.allocator();
        let mut kinds = Vec::new(alloc);
        kinds.extend_from_slice(self.kinds.as_slice())?;
        kinds.truncate(count);
        let runs = first_runs(self.runs.as_slice(), count, alloc)?;
        Ok(BriefRecords { runs, kinds })
    }
}

impl<A: Allocator + Copy> BriefRecords<A> {
    /// The allocator that the records are from.
    pub(crate) fn allocator(&self) -> A {
        *self.kinds.allocator()
    }
}

impl<A: Allocator> BriefRecords<A> {
    /// How many there are.
    pub(crate) fn count(&self) -> usize
        ensures { result ≡ length self.now }
    {
        self.kinds.len()
    }

    /// The record at this place, from 0.
    pub(crate) fn at(&self, place: usize) -> Option<Stream>
        ensures { result ≡ slice_get self.now place }
    {
        record_at(self.runs.as_slice(), self.kinds.as_slice(), place)
    }

    /// The record with this identifier among the first `count`.
    pub(crate) fn find(&self, count: usize, id: u32) -> Option<Stream>
        requires within { count ≤ length self.now }
        requires rising { kept.Rise 0 (take count self.now) }
        ensures { result ≡ record_of (take count self.now) id }
    {
        let runs = self.runs.as_slice();
        let kinds = first_kinds(self.kinds.as_slice(), count);
        let stream = record_at(runs, kinds, place_in(runs, kinds, id))?;
        if stream.id == id { Some(stream) } else { None }
    }

    /// Writes the first `front` of these records in the places of those with their identifiers, and puts the others after
    /// all.
    ///
    /// `AllocError` where memory is refused.
    pub(crate) fn join(&mut self, front: usize, own: &[Stream]) -> Result<(), AllocError>
        requires rising { kept.Rise 0 self.old }
        requires order { kept.Rise 0 own.now }
        requires within { front ≤ length own.now }
        requires known { rebuilt.AreKnown self.old (take front own.now) }
        ensures ok { OnOk result (self.new ≡ joined self.old front (map spec.brief own.now)) }
        ensures err { OnErr result (self.new ≡ self.old) }
    {
        let rest = &own[front..];
        self.kinds.reserve(rest.len())?;
        self.runs.reserve(rest.len())?;
        write_each(self.runs.as_slice(), &mut self.kinds, &own[..front]);
        append_each(&mut self.runs, &mut self.kinds, rest);
        Ok(())
    }
}

/// The record at this place.
fn record_at(runs: &[IdRun], kinds: &[StreamState], place: usize) -> Option<Stream>
    requires { spec.AreEnds 0 runs.now }
    ensures { result ≡ slice_get (spec.briefs_from 0 runs.now kinds.now) place }
{
    let kind = kind_at(kinds, place)?;
    Some(not_live(id_at(runs, place), kind))
}

/// The first states.
fn first_kinds(kinds: &[StreamState], count: usize) -> &[StreamState]
    requires { count ≤ length kinds.now }
    ensures { result.now ≡ take count kinds.now }
{
    &kinds[..count]
}

/// The state at this place.
fn kind_at(kinds: &[StreamState], place: usize) -> Option<StreamState>
    ensures { result ≡ slice_get kinds.now place }
{
    kinds.get(place).copied()
}

/// How many records are below this identifier. Identifiers that follow one another are found at once, and others by
/// binary search.
fn place_in(runs: &[IdRun], kinds: &[StreamState], id: u32) -> usize
    requires ends { spec.AreEnds 0 runs.now }
    requires rising { kept.Rise 0 (spec.briefs_from 0 runs.now kinds.now) }
    ensures { result ≡ kept.place_of id (spec.briefs_from 0 runs.now kinds.now) }
{
    let near = likely_place(runs, id);
    if near < kinds.len() && id_at(runs, near) == id {
        return near;
    }
    searched(runs, kinds, id)
}

/// How many records are below this identifier, by binary search.
fn searched(runs: &[IdRun], kinds: &[StreamState], id: u32) -> usize
    requires ends { spec.AreEnds 0 runs.now }
    requires rising { kept.Rise 0 (spec.briefs_from 0 runs.now kinds.now) }
    ensures { result ≡ kept.place_of id (spec.briefs_from 0 runs.now kinds.now) }
{
    let mut low = 0;
    let mut high = kinds.len();
    while low < high {
        let next = halved(runs, kinds, id, low, high);
        low = next.0;
        high = next.1;
    }
    low
}

/// The half of these places, from one to another, that has the place of this identifier.
fn halved(runs: &[IdRun], kinds: &[StreamState], id: u32, low: usize, high: usize) -> (usize, usize)
    requires ends { spec.AreEnds 0 runs.now }
    requires rising { kept.Rise 0 (spec.briefs_from 0 runs.now kinds.now) }
    requires places { (low < high) × (high ≤ length kinds.now) }
    requires between { (low ≤ kept.place_of id (spec.briefs_from 0 runs.now kinds.now)) × (kept.place_of id (spec.briefs_from 0 runs.now kinds.now) ≤ high) }
    ensures between { (result.0 ≤ kept.place_of id (spec.briefs_from 0 runs.now kinds.now)) × (kept.place_of id (spec.briefs_from 0 runs.now kinds.now) ≤ result.1) }
    ensures less { (result.1 ≤ high) × (result.1 - result.0 < high - low) }
{
    let middle = low + (high - low) / 2;
    if id_at(runs, middle) < id {
        (middle + 1, high)
    } else {
        (low, middle)
    }
}

/// Writes a record in the place of the one with its identifier.
fn write<A: Allocator>(runs: &[IdRun], kinds: &mut Vec<StreamState, A>, stream: &Stream)
    requires ends { spec.AreEnds 0 runs.now }
    requires rising { kept.Rise 0 (spec.briefs_from 0 runs.now kinds.old.items) }
    requires known { IsTrue (is_some (record_of (spec.briefs_from 0 runs.now kinds.old.items) stream.now.id)) }
    ensures items { spec.briefs_from 0 runs.now kinds.new.items ≡ put (spec.brief stream.now) (spec.briefs_from 0 runs.now kinds.old.items) }
    ensures len { length kinds.new.items ≡ length kinds.old.items }
    ensures capacity { vec_capacity kinds.old ≤ vec_capacity kinds.new }
{
    let place = place_in(runs, kinds.as_slice(), stream.id);
    kinds[place] = stream.kind;
}

/// Writes records in the places of those with their identifiers.
fn write_each<A: Allocator>(runs: &[IdRun], kinds: &mut Vec<StreamState, A>, changed: &[Stream])
    requires ends { spec.AreEnds 0 runs.now }
    requires rising { kept.Rise 0 (spec.briefs_from 0 runs.now kinds.old.items) }
    requires changed { kept.Rise 0 changed.now }
    requires known { rebuilt.AreKnown (spec.briefs_from 0 runs.now kinds.old.items) changed.now }
    ensures items { spec.briefs_from 0 runs.now kinds.new.items ≡ map (rebuilt.as_in (map spec.brief changed.now)) (spec.briefs_from 0 runs.now kinds.old.items) }
    ensures len { length kinds.new.items ≡ length kinds.old.items }
    ensures capacity { vec_capacity kinds.old ≤ vec_capacity kinds.new }
{
    for stream in changed {
        write(runs, kinds, stream);
    }
}

/// Puts records after the others. There is space for them.
fn append_each<A: Allocator>(
    runs: &mut Vec<IdRun, A>,
    kinds: &mut Vec<StreamState, A>,
    more: &[Stream],
)
    requires ends { spec.AreEnds 0 runs.old.items × (spec.end_of 0 runs.old.items ≡ length kinds.old.items) }
    requires kinds { length kinds.old.items + length more.now ≤ vec_capacity kinds.old }
    requires runs { vec_len runs.old + length more.now ≤ vec_capacity runs.old }
    ensures items { spec.briefs_from 0 runs.new.items kinds.new.items ≡ spec.briefs_from 0 runs.old.items kinds.old.items ++ map spec.brief more.now }
    ensures ends { spec.AreEnds 0 runs.new.items × (spec.end_of 0 runs.new.items ≡ length kinds.new.items) }
{
    for stream in more {
        kinds.push_reserved(stream.kind);
        append_id(runs, stream.id, kinds.len());
    }
}
