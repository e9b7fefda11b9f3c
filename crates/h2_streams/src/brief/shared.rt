//! Records in brief that lists have in common: the places of a debugger share those of the farthest one. Definitions:
//! `specs/Brief.antt`.

ghost use Rattle.std.specs.Prelude.{◌≡◌, ◌≤◌, [], map, take, length, IfOk, OnOk, OnErr, slice_get};
ghost use Rattle.std.specs.Option.{option_map_or};
ghost use Rattle.h2_spec.specs.Stream.{record_of};
ghost use Rattle.h2_streams.specs.Brief as spec;
ghost use Rattle.h2_streams.specs.Joined.{joined};
ghost use Rattle.h2_streams.specs.Kept.{Rise};
ghost use Rattle.h2_streams.specs.Rebuilt.{AreKnown};

use crate::brief::records::BriefRecords;
use h2_spec::streams::Stream;
use std::alloc::{AllocError, Allocator};
use std::marker::Model;
use std::mem;
use std::rc::Rc;

/// The first of some records in brief, which other lists may have too; contracts see the records.
#[derive(Drop)]
pub(crate) struct SharedRecords<A: Allocator> {
    /// The list of its own, where none is shared.
    own: BriefRecords<A>,
    shared: Option<Rc<BriefRecords<A>, A>>,
    /// How many of the first records there are.
    count: usize,
}

impl<A: Allocator> Model for SharedRecords<A> {
    ghost use Rattle.std.specs.Prelude.{◌≤◌, List, length, take};
    ghost use Rattle.h2_spec.specs.declared.streams.Stream as streams;
    ghost use Rattle.std.specs.Option.{option_map_or};

    ghost Value = { List streams.Stream };

    ghost view = { λ s. take s.count (option_map_or (λ w. w.value) s.shared s.own) };

    ghost invariant = { λ s. s.count ≤ length (option_map_or (λ w. w.value) s.shared s.own) };
}

/// The list that has the records.
#[inline(always)]
fn held_in<'a, A: Allocator>(
    own: &'a BriefRecords<A>,
    shared: &'a Option<Rc<BriefRecords<A>, A>>,
) -> &'a BriefRecords<A>
    ensures { result.now ≡ option_map_or (λ w. w.value) shared.now own.now }
{
    match shared {
        None => own,
        Some(whole) => whole.as_ref(),
    }
}

impl<A: Allocator + Copy> SharedRecords<A> {
    /// No records. Takes no memory.
    pub(crate) fn new(alloc: A) -> Self
        ensures { result ≡ [] }
    {
        SharedRecords {
            own: BriefRecords::new(alloc),
            shared: None,
            count: 0,
        }
    }

    /// That many first records: shared where they are shared already, else copies.
    ///
    /// `AllocError` where memory is refused.
    pub(crate) fn first(&self, count: usize) -> Result<Self, AllocError>
        requires { count ≤ length self.now }
        ensures { IfOk result (λ first. first ≡ take count self.now) }
    {
        let Some(whole) = &self.shared else {
            let own = self.own.first(count)?;
            return Ok(SharedRecords {
                own,
                shared: None,
                count,
            });
        };
        let own = BriefRecords::new(self.own.allocator());
        let shared = Some(whole.clone()?);
        Ok(SharedRecords { own, shared, count })
    }

    /// Lets other lists share the records. Nothing else changes.
    ///
    /// `AllocError` where memory is refused.
    pub(crate) fn share(&mut self) -> Result<(), AllocError>
        ensures { self.new ≡ self.old }
    {
        if self.shared.is_some() {
            return Ok(());
        }
        let alloc = self.own.allocator();
        let own = mem::replace(&mut self.own, BriefRecords::new(alloc));
        match Rc::new(alloc, own) {
            Ok(whole) => {
                self.shared = Some(whole);
                Ok(())
            }
            Err(failed) => {
                self.own = failed.value;
                Err(AllocError)
            }
        }
    }

    /// Takes the records out, into a list that nobody shares.
    ///
    /// `AllocError` where memory is refused. The records are as they were.
    fn take_out(&mut self) -> Result<BriefRecords<A>, AllocError>
        ensures ok { IfOk result (λ records. records ≡ self.old) }
        ensures err { OnErr result (self.new ≡ self.old) }
    {
        if self.shared.is_some() || self.count != self.own.count() {
            return held_in(&self.own, &self.shared).first(self.count);
        }
        self.count = 0;
        let none = BriefRecords::new(self.own.allocator());
        Ok(mem::replace(&mut self.own, none))
    }

    /// Writes the first `front` of these records in the places of those with their identifiers, and puts the others after
    /// all. Records that are shared are copied first.
    ///
    /// `AllocError` where memory is refused. The records are as they were.
    pub(crate) fn join(&mut self, front: usize, own: &[Stream]) -> Result<(), AllocError>
        requires rising { Rise 0 self.old }
        requires order { Rise 0 own.now }
        requires within { front ≤ length own.now }
        requires known { AreKnown self.old (take front own.now) }
        ensures ok { OnOk result (self.new ≡ joined self.old front (map spec.brief own.now)) }
        ensures err { OnErr result (self.new ≡ self.old) }
    {
        let mut records = self.take_out()?;
        let done = records.join(front, own);
        self.count = records.count();
        self.shared = None;
        self.own = records;
        done
    }
}

impl<A: Allocator> SharedRecords<A> {
    /// How many there are.
    #[inline(always)]
    pub(crate) fn count(&self) -> usize
        ensures { result ≡ length self.now }
    {
        self.count
    }

    /// The record at this place, from 0.
    pub(crate) fn at(&self, place: usize) -> Option<Stream>
        ensures { result ≡ slice_get self.now place }
    {
        if place < self.count {
            held_in(&self.own, &self.shared).at(place)
        } else {
            None
        }
    }

    /// The record with this identifier.
    #[inline(never)]
    pub(crate) fn find(&self, id: u32) -> Option<Stream>
        requires { Rise 0 self.now }
        ensures { result ≡ record_of self.now id }
    {
        held_in(&self.own, &self.shared).find(self.count, id)
    }
}
