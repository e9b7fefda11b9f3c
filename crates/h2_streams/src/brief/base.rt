//! The first records, in brief: those of streams that are not live any more are kept by their identifiers and states
//! alone. Definitions: `specs/Joined.antt`.

ghost use Rattle.std.specs.Prelude.{◌≡◌, ◌≤◌, [], length, map, take, true, IfOk, IsOk, IsTrue, OnErr, OnOk, Some, slice_get, unwrap_or};
ghost use Rattle.h2_spec.specs.Stream.{is_live, kind_of, put, record_of};
ghost use Rattle.h2_streams.specs.Brief.{AreBrief, brief};
ghost use Rattle.h2_streams.specs.Joined as spec;
ghost use Rattle.h2_streams.specs.Kept.{Rise};
ghost use Rattle.h2_streams.specs.Put.{can_become};

use crate::brief::shared::SharedRecords;
use crate::kinds::is_bare;
use crate::lookup::places::record_at;
use crate::own::OwnRecords;
use h2_spec::streams::Stream;
use std::alloc::{AllocError, Allocator};
use std::marker::Model;

/// The first records, in brief.
#[derive(Drop)]
pub(crate) struct Base<A: Allocator> {
    records: SharedRecords<A>,
    /// How many of the first of one's own records are in the place of some of them.
    front: usize,
}

impl<A: Allocator> Model for Base<A> {
    ghost use Rattle.h2_streams.specs.Joined as joined;

    ghost Value = { joined.Base };

    ghost view = { λ b. record { records = b.records; front = b.front } };
}

impl<A: Allocator + Copy> Base<A> {
    /// No records. Takes no memory.
    pub(crate) fn new(alloc: A) -> Self
        ensures { result ≡ record { records = []; front = 0 } }
    {
        Base {
            records: SharedRecords::new(alloc),
            front: 0,
        }
    }

    /// That many first records, where `front` of one's own are in the place of some of them; they are shared where they
    /// are shared already.
    ///
    /// `AllocError` where memory is refused.
    pub(crate) fn first(&self, count: usize, front: usize) -> Result<Self, AllocError>
        requires { count ≤ length self.now.records }
        ensures { IfOk result (λ first. first ≡ record { records = take count self.now.records; front = front }) }
    {
        let records = self.records.first(count)?;
        Ok(Base { records, front })
    }

    /// A copy of the records, as `first`.
    ///
    /// `AllocError` where memory is refused.
    pub(crate) fn try_clone(&self) -> Result<Self, AllocError>
        ensures { IfOk result (λ copy. copy ≡ self.now) }
    {
        self.first(self.records.count(), self.front)
    }

    /// Lets other lists share the records. Nothing else changes.
    ///
    /// `AllocError` where memory is refused.
    pub(crate) fn share(&mut self) -> Result<(), AllocError>
        ensures { self.new ≡ self.old }
    {
        self.records.share()
    }

    /// Leaves the live records in one's own list, and keeps the others in brief.
    ///
    /// `AllocError` where memory is refused. All records are as they were.
    #[inline(never)]
    pub(crate) fn settle(&mut self, own: &mut OwnRecords<A>) -> Result<(), AllocError>
        requires go { spec.GoWith self.old own.old }
        requires brief { AreBrief own.old.streams }
        ensures same { spec.with_base self.new own.new ≡ spec.with_base self.old own.old }
        ensures go { spec.GoWith self.new own.new }
        ensures settled { OnOk result (self.new.records ≡ map brief (spec.with_base self.old own.old).streams) }
    {
        if self.has_all(own.as_slice()) {
            return Ok(());
        }
        self.records.join(self.front, own.as_slice())?;
        own.leave_live();
        self.front = own.count();
        Ok(())
    }
}

impl<A: Allocator> Base<A> {
    /// How many records there are, with those of one's own list.
    pub(crate) fn count(&self, own: &OwnRecords<A>) -> usize
        requires { spec.GoWith self.now own.now }
        ensures { result ≡ length (spec.with_base self.now own.now).streams }
    {
        let _last = own.last(); // no more than that many
        self.records.count() + (own.count() - self.front)
    }

    /// The record with this identifier: one's own, if there is one, and else one in brief.
    #[inline(always)]
    pub(crate) fn find(&self, own: &OwnRecords<A>, id: u32) -> Option<Stream>
        requires { spec.GoWith self.now own.now }
        ensures { result ≡ record_of (spec.with_base self.now own.now).streams id }
    {
        match own.get(id).copied() {
            Some(stream) => Some(stream),
            None => self.records.find(id),
        }
    }

    /// The record at a place in the order of opening, from 0.
    pub(crate) fn at(&self, own: &OwnRecords<A>, place: usize) -> Option<Stream>
        requires { spec.GoWith self.now own.now }
        ensures { result ≡ slice_get (spec.with_base self.now own.now).streams place }
    {
        match self.records.at(place) {
            Some(stream) => Some(own_or(own, stream)),
            None => {
                let rest = &own.as_slice()[self.front..];
                record_at(rest, place - self.records.count()).copied()
            }
        }
    }

    // A move of the debugger settles the farthest place each time, which has most often not changed since.
    /// Whether one's own records are all in the place of those that are here in brief, and are so here.
    fn has_all(&self, own: &[Stream]) -> bool
        requires { Rise 0 self.now.records }
        ensures { result ≡ true → (self.now.front ≡ length own.now) × spec.AreKept self.now.records own.now }
    {
        self.front == own.len() && are_kept(&self.records, own)
    }
}

/// One's own record of the same stream, or else this one.
fn own_or<A: Allocator>(own: &OwnRecords<A>, stream: Stream) -> Stream
    ensures { result ≡ unwrap_or (record_of own.now.streams stream.id) stream }
{
    match own.get(stream.id) {
        Some(changed) => *changed,
        None => stream,
    }
}

/// Whether these records are in brief as they are here.
fn are_kept<A: Allocator>(records: &SharedRecords<A>, own: &[Stream]) -> bool
    requires { Rise 0 records.now }
    ensures { result ≡ true → spec.AreKept records.now own.now }
{
    for stream in own {
        if !is_kept(records.find(stream.id), stream) {
            return false;
        }
    }
    true
}

/// Whether there is a record, and it is this one in brief.
fn is_kept(found: Option<Stream>, stream: &Stream) -> bool
    ensures { result ≡ true → found ≡ Some (brief stream.now) }
{
    match found {
        Some(kept) => kept.id == stream.id && kept.kind == stream.kind && is_bare(&kept),
        None => false,
    }
}

/// The first `count` records, each as it is.
///
/// `AllocError` where memory is refused.
pub(crate) fn list_of<A: Allocator + Copy>(
    base: &Base<A>,
    own: &OwnRecords<A>,
    count: usize,
) -> Result<Vec<Stream, A>, AllocError>
    requires { spec.GoWith base.now own.now }
    ensures { IfOk result (λ list. list.items ≡ take count (spec.with_base base.now own.now).streams) }
{
    let mut list = Vec::with_capacity(own.allocator(), count)?;
    for place in 0..count {
        let Some(stream) = base.at(own, place) else {
            return Err(AllocError);
        };
        list.push(stream)?;
    }
    Ok(list)
}

/// Makes a list of one's own of all records, so that none is in brief.
///
/// `AllocError` where memory is refused. All records are as they were.
fn unite<A: Allocator + Copy>(own: &mut OwnRecords<A>, base: &mut Base<A>) -> Result<(), AllocError>
    requires { spec.GoWith base.old own.old }
    ensures base { OnOk result (base.new ≡ record { records = []; front = 0 }) }
    ensures own { OnOk result (own.new ≡ spec.with_base base.old own.old) }
    ensures err { OnErr result ((base.new ≡ base.old) × (own.new ≡ own.old)) }
{
    let list = list_of(base, own, base.count(own))?;
    let whole = OwnRecords::of(list, own.last())?;
    *base = Base::new(whole.allocator());
    *own = whole;
    Ok(())
}

/// Puts a record in the place of one in brief. None is in brief then.
///
/// `AllocError` where memory is refused. All records are as they were.
#[inline(never)]
fn put_back<A: Allocator + Copy>(
    own: &mut OwnRecords<A>,
    base: &mut Base<A>,
    stream: Stream,
) -> Result<(), AllocError>
    requires go { spec.GoWith base.old own.old }
    requires can { IsTrue (can_become (kind_of (spec.with_base base.old own.old).last (spec.with_base base.old own.old).streams stream.id) stream.kind) }
    ensures ok { OnOk result (spec.with_base base.new own.new ≡ record (spec.with_base base.old own.old) { streams = put stream (spec.with_base base.old own.old).streams }) }
    ensures err { OnErr result (spec.with_base base.new own.new ≡ spec.with_base base.old own.old) }
    ensures go { spec.GoWith base.new own.new }
{
    unite(own, base)?;
    own.replace(stream);
    Ok(())
}

/// Puts a record in the place of the one of the same stream. That of a live stream takes no memory.
///
/// `AllocError` where memory is refused. All records are as they were.
#[inline(always)]
pub(crate) fn replace<A: Allocator + Copy>(
    own: &mut OwnRecords<A>,
    base: &mut Base<A>,
    stream: Stream,
) -> Result<(), AllocError>
    requires go { spec.GoWith base.old own.old }
    requires can { IsTrue (can_become (kind_of (spec.with_base base.old own.old).last (spec.with_base base.old own.old).streams stream.id) stream.kind) }
    ensures ok { OnOk result (spec.with_base base.new own.new ≡ record (spec.with_base base.old own.old) { streams = put stream (spec.with_base base.old own.old).streams }) }
    ensures err { OnErr result (spec.with_base base.new own.new ≡ spec.with_base base.old own.old) }
    ensures go { spec.GoWith base.new own.new }
    ensures known { IsTrue (is_live (kind_of (spec.with_base base.old own.old).last (spec.with_base base.old own.old).streams stream.id)) → IsOk result }
{
    if own.get(stream.id).is_some() {
        own.replace(stream);
        return Ok(());
    }
    put_back(own, base, stream)
}
