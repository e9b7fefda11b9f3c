//! A dynamic table as it is at one time, kept to be made again later (RFC 7541, 2.3.2). Its entries are in runs, which do
//! not change any more. Tables that are kept one after another share the runs that they have in common, so an entry is in
//! memory once however often the table is kept, and a table to which nothing was added takes a few octets. Which runs may
//! be a table's is a guess that is compared. Contracts see the table that was kept, and nothing of what is shared.

ghost use Rattle.std.specs.Prelude.{◌≡◌, ◌+◌, ◌-◌, ◌^◌, ◌<◌, ◌≤◌, ◌++◌, [], drop, take, true, IfOk, OnOk, length, option_map, slice_get};
ghost use Rattle.std.specs.Option.{option_copied};
ghost use Rattle.circular_buffer.specs.Buffer.{buffer};
ghost use Rattle.h2_hpack_list.specs.Lent.{lent_field};
ghost use Rattle.h2_table.specs.Runs.{entries_in};

use crate::dynamic_table::{DynTable, places_for, put_oldest};
use crate::entry::TableEntry;
use circular_buffer::HeapCircularBuffer;
use h2_hpack_list::{FieldList, FoldedFields};
use h2_hpack_validity::FieldMark;
use std::alloc::{AllocError, Allocator};
use std::marker::Model;
use std::rc::Rc;

/// The most runs of an earlier table that are shared: where there are more, the entries are put into one run again.
const MAX_RUNS: usize = 64;

/// The newest entries of a run that does not change any more; the others were evicted.
#[derive(Drop)]
struct Run<A: Allocator> {
    entries: Rc<FoldedFields<A>, A>,
    count: usize,
}

impl<A: Allocator> Model for Run<A> {
    ghost use Rattle.std.specs.Prelude.{◌≤◌, List, length, take};
    ghost use Rattle.h2_spec.specs.Hpack.Field.{Field};

    ghost Value = { List Field };

    ghost view = { λ r. take r.count r.entries.value };

    ghost invariant = { λ r. r.count ≤ length r.entries.value };
}

impl<A: Allocator> Run<A> {
    /// The name and the value of the entry at a place, from 0, the newest; none past the oldest.
    fn get(&self, place: usize) -> Option<(&[u8], &[u8])>
        ensures { option_map lent_field result ≡ slice_get self.now place }
    {
        if place >= self.count {
            return None;
        }
        self.entries.as_ref().get(place)
    }

    /// How many of its entries, the newest first, are in a ring one after another from a place on.
    fn common(&self, ring: &HeapCircularBuffer<TableEntry<A>, A>, from: usize) -> usize
        requires { from ≤ length ring.now.items }
        ensures same { take result self.now ≡ take result (drop from ring.now.items) }
        ensures within { (from + result ≤ length ring.now.items) × (from + result < 2 ^ 64) }
        ensures few { result ≤ length self.now }
    {
        let most = self.count.min(ring.len() - from);
        for place in 0..most {
            if !is_same(self.get(place), ring.get(from + place)) {
                return place;
            }
        }
        most
    }

    /// Its newest entries once more, that many.
    fn share(&self, count: usize) -> Result<Self, AllocError>
        requires { count ≤ length self.now }
        ensures { IfOk result (λ run. run ≡ take count self.now) }
    {
        Ok(Run {
            entries: self.entries.clone()?,
            count,
        })
    }
}

/// Whether there are a field and an entry, and they are the same.
fn is_same<A: Allocator>(field: Option<(&[u8], &[u8])>, entry: Option<&TableEntry<A>>) -> bool
    ensures { result ≡ true → option_map lent_field field.entry ≡ option_copied entry.entry }
{
    match (field, entry) {
        (Some(field), Some(entry)) => field.0 == entry.name() && field.1 == entry.value(),
        _ => false,
    }
}

// Runs of entries that don't change. Which runs may be the table's is guessed by the count of insertions, and
// compared.
/// A dynamic table as it was: its entries, the newest first, the maximum and the limit.
#[derive(Drop)]
pub struct KeptTable<A: Allocator> {
    runs: Vec<Run<A>, A>,
    size: usize,
    max: u32,
    limit: u32,
    /// How many entries had been added to the table.
    added: usize,
}

impl<A: Allocator> Model for KeptTable<A> {
    ghost use Rattle.std.specs.Prelude.{◌≡◌, ◌≤◌};
    ghost use Rattle.h2_spec.specs.Hpack.DynamicTable.{LimitedTable, total_size};
    ghost use Rattle.h2_table.specs.Runs.{entries_in};

    ghost Value = { LimitedTable };

    ghost view = { λ t. record { table = record { entries = entries_in t.runs.items; max = t.max }; limit = t.limit } };

    ghost invariant = { λ t. (t.size ≡ total_size (entries_in t.runs.items)) × (t.size ≤ t.max) };
}

impl<A: Allocator + Copy> DynTable<A> {
    /// The table as it is now. Entries that it has in common with `earlier`, the same table as it was before, are not
    /// copied: both have them then.
    ///
    /// # Errors
    ///
    /// `AllocError` where the memory was refused; `self` is as it was.
    pub fn keep(&self, earlier: Option<&KeptTable<A>>) -> Result<KeptTable<A>, AllocError>
        ensures same { IfOk result (λ kept. kept ≡ self.now) }
    {
        let since = added_since(earlier, self.added);
        let runs = runs_of(&self.ring, runs_before(earlier), since)?;
        Ok(KeptTable {
            runs,
            size: self.size,
            max: self.max,
            limit: self.limit,
            added: self.added,
        })
    }
}

impl<A: Allocator + Copy> KeptTable<A> {
    /// The table that was kept, in memory of its own.
    ///
    /// # Errors
    ///
    /// `AllocError` where the memory was refused; `self` is as it was.
    pub fn restore(&self) -> Result<DynTable<A>, AllocError>
        ensures same { IfOk result (λ table. table ≡ self.now) }
    {
        let places = places_for(self.max.max(self.limit));
        let ring = ring_of(self.runs.as_slice(), places, *self.runs.allocator())?;
        Ok(DynTable {
            ring,
            size: self.size,
            max: self.max,
            limit: self.limit,
            added: self.added,
        })
    }
}

/// How many entries were added since an earlier table was kept, where that many have been added.
fn added_since<A: Allocator>(earlier: Option<&KeptTable<A>>, added: usize) -> usize {
    match earlier {
        Some(earlier) => added.wrapping_sub(earlier.added),
        None => 0,
    }
}

/// The runs of an earlier table, if there is one.
fn runs_before<A: Allocator>(earlier: Option<&KeptTable<A>>) -> &[Run<A>] {
    match earlier {
        Some(earlier) => earlier.runs.as_slice(),
        None => &[],
    }
}

/// The entries of a ring in runs: those of an earlier table where they are the same, with as many before them as were
/// added since. Where those are too many, one run has all entries.
fn runs_of<A: Allocator + Copy>(
    ring: &HeapCircularBuffer<TableEntry<A>, A>,
    earlier: &[Run<A>],
    since: usize,
) -> Result<Vec<Run<A>, A>, AllocError>
    ensures { IfOk result (λ runs. entries_in runs.items ≡ ring.now.items) }
{
    let mut runs = Vec::new(*ring.allocator());
    let mut taken = 0;
    if earlier.len() <= MAX_RUNS {
        let newer = since.min(ring.len());
        push_run(&mut runs, ring, 0, newer)?;
        taken = share_runs(&mut runs, earlier, ring, newer)?;
    }
    push_run(&mut runs, ring, taken, ring.len())?;
    runs.shrink_to_fit();
    Ok(runs)
}

/// Puts runs of an earlier table after those that have the first entries of a ring, up to a place, as long as the ring has
/// their entries there. Returns up to which place the runs have its entries then.
fn share_runs<A: Allocator>(
    runs: &mut Vec<Run<A>, A>,
    earlier: &[Run<A>],
    ring: &HeapCircularBuffer<TableEntry<A>, A>,
    from: usize,
) -> Result<usize, AllocError>
    requires first { entries_in runs.old.items ≡ take from ring.now.items }
    requires within { from ≤ length ring.now.items }
    ensures first { IfOk result (λ taken. entries_in runs.new.items ≡ take taken ring.now.items) }
    ensures within { IfOk result (λ taken. taken ≤ length ring.now.items) }
{
    let mut taken = from;
    for run in earlier {
        let count = run.common(ring, taken);
        if count == 0 {
            return Ok(taken);
        }
        let shared = run.share(count)?;
        runs.push(shared)?;
        taken += count;
    }
    Ok(taken)
}

/// Puts a run with the entries of a ring from a place up to another after those that have the entries before it, if there
/// are any.
fn push_run<A: Allocator + Copy>(
    runs: &mut Vec<Run<A>, A>,
    ring: &HeapCircularBuffer<TableEntry<A>, A>,
    from: usize,
    to: usize,
) -> Result<(), AllocError>
    requires first { entries_in runs.old.items ≡ take from ring.now.items }
    requires order { from ≤ to }
    requires within { to ≤ length ring.now.items }
    ensures { OnOk result (entries_in runs.new.items ≡ take to ring.now.items) }
{
    if from == to {
        return Ok(());
    }
    let entries = folded(ring, from, to)?;
    match Rc::new(*ring.allocator(), entries) {
        Ok(entries) => {
            let count = to - from;
            runs.push(Run { entries, count })?;
            Ok(())
        }
        Err(_) => Err(AllocError),
    }
}

/// The entries of a ring from a place up to another, in little memory.
fn folded<A: Allocator + Copy>(
    ring: &HeapCircularBuffer<TableEntry<A>, A>,
    from: usize,
    to: usize,
) -> Result<FoldedFields<A>, AllocError>
    requires order { from ≤ to }
    requires within { to ≤ length ring.now.items }
    ensures { IfOk result (λ entries. entries ≡ take (to - from) (drop from ring.now.items)) }
{
    let mut list = FieldList::new(*ring.allocator());
    for place in from..to {
        if let Some(entry) = ring.get(place) {
            let like = list.len().wrapping_sub(1);
            list.append_like(like, entry.name(), entry.value())?;
        }
    }
    list.fold()
}

/// A ring of that many places with copies of the entries of these runs.
fn ring_of<A: Allocator + Copy>(
    runs: &[Run<A>],
    places: usize,
    alloc: A,
) -> Result<HeapCircularBuffer<TableEntry<A>, A>, AllocError>
    requires { length (entries_in runs.now) ≤ places }
    ensures { IfOk result (λ ring. ring ≡ buffer (entries_in runs.now) places) }
{
    let mut ring = HeapCircularBuffer::with_capacity(alloc, places)?;
    for run in runs {
        put_run(&mut ring, run, alloc)?;
    }
    Ok(ring)
}

/// Puts copies of the entries of a run into a ring, as the oldest.
fn put_run<A: Allocator + Copy>(
    ring: &mut HeapCircularBuffer<TableEntry<A>, A>,
    run: &Run<A>,
    alloc: A,
) -> Result<(), AllocError>
    requires { length ring.old.items + length run.now ≤ ring.old.capacity }
    ensures { OnOk result (ring.new ≡ buffer (ring.old.items ++ run.now) ring.old.capacity) }
{
    for place in 0..run.count {
        if let Some((name, value)) = run.get(place) {
            let entry = TableEntry::of(alloc, name, value, FieldMark::of(name, value))?;
            put_oldest(ring, entry);
        }
    }
    Ok(())
}
