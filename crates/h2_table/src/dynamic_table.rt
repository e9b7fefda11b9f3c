//! The dynamic table of one decoder (RFC 7541, 2.3.2 and 4): what enters, what is evicted, and what is found.
//! Its entries are in a ring, the newest at the front; beside it runs what they count. The ring has places for as many
//! entries as the limit or the maximum lets in, whichever is larger.
//! The definitions are `Table`, `insert` and `resize` of `h2_spec`, specs/Hpack/DynamicTable.antt.

ghost use Rattle.std.specs.Prelude.{◌≡◌, ◌<◌, ◌≤◌, [], ◌∷◌, ◌++◌, ◌↔◌, length, option_map, true, Ok, OnOk, OnErr, IfOk, IfErr, IfSome, IsErr, nat_lt};
ghost use Rattle.circular_buffer.specs.Buffer.{buffer};
ghost use Rattle.h2_spec.specs.Hpack.DynamicTable.{IsLongestFit, fit, insert, resize, total_size, entry_at};
ghost use Rattle.h2_spec.specs.Hpack.Field.{field};
ghost use Rattle.h2_table.specs.Held.{places_for};
ghost use Rattle.h2_hpack_list.specs.Lent.{lent_field};
ghost use Rattle.h2_table.specs.Lent.{field_lent, IsMarked};
ghost use Rattle.h2_table.specs.declared.fault.TableFault.TheVariants as faults;

use crate::entry::TableEntry;
use crate::fault::TableFault;
use crate::lent::LentField;
use circular_buffer::HeapCircularBuffer;
use std::alloc::{AllocError, Allocator};
use std::marker::Model;

/// The dynamic table of one decoder: its entries, the newest first, the maximum of what they count together, and the
/// limit that the maximum may be given.
///
/// An entry counts the octets of its name and value and 32 more (RFC 7541, 4.1).
#[derive(Drop)]
pub struct DynTable<A: Allocator> {
    /// The entries, the newest at the front.
    pub(crate) ring: HeapCircularBuffer<TableEntry<A>, A>,
    /// What the entries count together, in octets (RFC 7541, 4.1).
    pub(crate) size: usize,
    /// The most that they may count, at most `limit` unless an update is due (4.2).
    pub(crate) max: u32,
    /// The greatest maximum that an update may set (4.2, 6.3).
    pub(crate) limit: u32,
    /// How many entries were ever added, round and round: it says only where to look for an entry that was kept.
    pub(crate) added: usize,
}

impl<A: Allocator> Model for DynTable<A> {
    ghost use Rattle.h2_spec.specs.Hpack.DynamicTable.{LimitedTable};
    ghost use Rattle.h2_table.specs.Held.{IsHeld};

    ghost Value = { LimitedTable };

    ghost view = { λ t. record { table = record { entries = t.ring.items; max = t.max }; limit = t.limit } };

    ghost invariant = { λ t. IsHeld t.ring.items t.ring.capacity t.size t.max t.limit };
}

impl<A: Allocator> DynTable<A> {
    /// An empty table whose maximum is its limit, in octets as entries count them.
    ///
    /// # Errors
    ///
    /// `AllocError` where the places for its entries, one for each 32 octets of the limit, were refused.
    pub fn new(alloc: A, limit: u32) -> Result<Self, AllocError>
        ensures empty { IfOk result (λ t. t ≡ record { table = record { entries = []; max = limit }; limit = limit }) }
    {
        let ring = HeapCircularBuffer::with_capacity(alloc, places_for(limit))?;
        Ok(DynTable {
            ring,
            size: 0,
            max: limit,
            limit,
            added: 0,
        })
    }

    /// How many entries there are.
    pub fn len(&self) -> usize
        ensures { result ≡ length self.now.table.entries }
    {
        self.ring.len()
    }

    /// Whether there is no entry.
    pub fn is_empty(&self) -> bool
        ensures { (result ≡ true) ↔ (self.now.table.entries ≡ []) }
    {
        self.ring.is_empty()
    }

    /// What the entries count together, in octets; at most the maximum (RFC 7541, 4.1).
    pub fn size(&self) -> usize
        ensures sum { result ≡ total_size self.now.table.entries }
        ensures within { result ≤ self.now.table.max }
    {
        self.size
    }

    /// The most that the entries may count together, in octets. It is above the limit exactly while a size update is due
    /// (RFC 7541, 4.2).
    pub fn max(&self) -> u32
        ensures is { result ≡ self.now.table.max }
    {
        self.max
    }

    /// The most that the maximum may be set to, in octets.
    pub fn limit(&self) -> u32
        ensures { result ≡ self.now.limit }
    {
        self.limit
    }

    /// Whether the next field block has to begin with a size update: the limit is below the maximum (RFC 7541, 4.2). An
    /// accepted `set_max` ends it.
    pub fn due(&self) -> bool
        ensures { result ≡ nat_lt self.now.limit self.now.table.max }
    {
        self.limit < self.max
    }

    /// Sets the limit of the maximum, in octets, to one that is not above it. Entries and maximum stay; where the maximum
    /// is above the limit then, a size update is due (RFC 7541, 4.2). No memory is taken.
    pub fn lower_limit(&mut self, limit: u32)
        requires { limit ≤ self.old.limit }
        ensures { self.new ≡ record self.old { limit = limit } }
    {
        self.limit = limit;
    }

    /// The name and the value of the `i`-th entry, counted from 1, the newest; none past the oldest, and none for 0.
    pub fn get(&self, i: usize) -> Option<(&[u8], &[u8])>
        ensures { option_map lent_field result ≡ entry_at i self.now.table.entries }
    {
        let entry = self.entry(i)?;
        Some((entry.name, entry.value))
    }

    /// As `get`, with the mark of the entry.
    pub(crate) fn entry(&self, i: usize) -> Option<LentField<'_>>
        ensures field { option_map field_lent result ≡ entry_at i self.now.table.entries }
        ensures marked { IfSome result IsMarked }
    {
        if i == 0 {
            return None;
        }
        Some(lend(self.ring.get(i - 1)?))
    }

    /// Sets the maximum to `n` octets, and evicts the oldest entries until the others are within it (RFC 7541, 4.3).
    ///
    /// # Errors
    ///
    /// `OverLimit` where `n` is above the limit; the table is as it was. No memory is taken.
    #[tactic(auto, unfolding(h2_spec::specs::Hpack::DynamicTable::resize))]
    pub fn set_max(&mut self, n: u64) -> Result<(), TableFault>
        ensures over_limit { IsErr result ↔ (self.old.limit < n) }
        ensures resized { OnOk result (self.new ≡ record self.old { table = resize self.old.table n }) }
        ensures fault { IfErr result (λ fault. fault ≡ faults.OverLimit) }
        ensures unchanged { OnErr result (self.new ≡ self.old) }
    {
        let is_over = n > u64::from(self.limit);
        if is_over {
            return Err(TableFault::OverLimit);
        }
        let max = n as u32;
        self.size = evict(&mut self.ring, self.size, max as usize);
        self.max = max;
        Ok(())
    }

    // Needs no memory: the ring has a place for each 32 octets of the larger of limit and maximum, and an
    // entry counts at least 32.
    /// Adds a field as the newest entry, once the oldest ones have made space for it; one that counts more than the
    /// maximum empties the table and is no error (RFC 7541, 4.4). No memory is taken.
    pub fn insert(&mut self, name: Vec<u8, A>, value: Vec<u8, A>)
        ensures value { self.new ≡ record self.old { table = insert self.old.table (field name.items value.items) } }
        ensures longest { IsLongestFit (field name.items value.items ∷ self.old.table.entries) self.old.table.max self.new.table.entries }
    {
        let size = name.len().saturating_add(value.len()).saturating_add(32);
        let max = self.max as usize;
        if size > max {
            self.size = evict(&mut self.ring, self.size, 0);
            return;
        }
        self.size = evict(&mut self.ring, self.size, max - size) + size;
        put_newest(&mut self.ring, TableEntry::new(name, value));
        self.added = self.added.wrapping_add(1);
    }
}

impl<A: Allocator + Copy> DynTable<A> {
    // A lower limit evicts nothing: the peer refers to the entries until it has sent its size update (RFC
    // 7541, 4.2).
    /// Sets the limit of the maximum to `n` octets. Entries and maximum stay; where the maximum is above the limit then,
    /// a size update is due (RFC 7541, 4.2).
    ///
    /// # Errors
    ///
    /// `AllocError` where places for more entries were refused; the table is as it was. There is no error where `n` is
    /// not above the limit: then no memory is taken.
    pub fn set_limit(&mut self, n: u32) -> Result<(), AllocError>
        ensures lowered { n ≤ self.old.limit → result ≡ Ok tt }
        ensures limited { OnOk result (self.new ≡ record self.old { limit = n }) }
        ensures unchanged { OnErr result (self.new ≡ self.old) }
    {
        make_places(&mut self.ring, places_for(self.max.max(n)))?;
        self.limit = n;
        Ok(())
    }

    /// A copy of the table, in memory of its own.
    ///
    /// # Errors
    ///
    /// `AllocError` where the memory was refused; `self` is as it was.
    pub fn try_clone(&self) -> Result<DynTable<A>, AllocError>
        ensures same { IfOk result (λ copy. copy ≡ self.now) }
    {
        let ring = copy_of(&self.ring)?;
        Ok(DynTable {
            ring,
            size: self.size,
            max: self.max,
            limit: self.limit,
            added: self.added,
        })
    }
}

/// An entry, lent with its mark.
pub(crate) fn lend<A: Allocator>(entry: &TableEntry<A>) -> LentField<'_>
    ensures field { field_lent result ≡ entry.now }
    ensures marked { IsMarked result }
{
    LentField {
        name: entry.name(),
        value: entry.value(),
        mark: entry.mark(),
    }
}

/// The places of a ring for entries that count that many octets together: each counts 32 or more.
pub(crate) fn places_for(most: u32) -> usize
    ensures { result ≡ places_for most }
{
    (most / 32).max(1) as usize
}

/// Gives a ring that many places, if it has fewer.
fn make_places<A: Allocator + Copy>(
    ring: &mut HeapCircularBuffer<TableEntry<A>, A>,
    places: usize,
) -> Result<(), AllocError>
    requires { length ring.old.items ≤ places }
    ensures enough { places ≤ ring.old.capacity → result ≡ Ok tt }
    ensures items { ring.new.items ≡ ring.old.items }
    ensures places { OnOk result (places ≤ ring.new.capacity) }
    ensures unchanged { OnErr result (ring.new ≡ ring.old) }
{
    if places <= ring.capacity() {
        return Ok(());
    }
    ring.resize(places)
}

/// Takes out the oldest entries until those left, which count `size` together, count at most `available`; the rest
/// counts the answer.
fn evict<A: Allocator>(
    ring: &mut HeapCircularBuffer<TableEntry<A>, A>,
    size: usize,
    available: usize,
) -> usize
    requires { size ≡ total_size ring.old.items }
    ensures kept { ring.new.items ≡ fit ring.old.items available }
    ensures counted { result ≡ total_size ring.new.items }
    ensures within { result ≤ available }
    ensures places { ring.new.capacity ≡ ring.old.capacity }
{
    let mut left = size;
    while left > available {
        match ring.pop_back() {
            Some(entry) => left -= entry.name().len() + entry.value().len() + 32,
            None => return left,
        }
    }
    left
}

/// Puts an entry in a free place, as the newest.
pub(crate) fn put_newest<A: Allocator>(
    ring: &mut HeapCircularBuffer<TableEntry<A>, A>,
    entry: TableEntry<A>,
)
    requires { length ring.old.items < ring.old.capacity }
    ensures { ring.new ≡ buffer (entry ∷ ring.old.items) ring.old.capacity }
{
    let _ = ring.try_push_front(entry);
}

/// Puts an entry in a free place, as the oldest.
pub(crate) fn put_oldest<A: Allocator>(
    ring: &mut HeapCircularBuffer<TableEntry<A>, A>,
    entry: TableEntry<A>,
)
    requires { length ring.old.items < ring.old.capacity }
    ensures { ring.new ≡ buffer (ring.old.items ++ entry ∷ []) ring.old.capacity }
{
    let _ = ring.try_push_back(entry);
}

/// A copy of the entries in as many places.
fn copy_of<A: Allocator + Copy>(
    ring: &HeapCircularBuffer<TableEntry<A>, A>,
) -> Result<HeapCircularBuffer<TableEntry<A>, A>, AllocError>
    ensures { IfOk result (λ copy. copy ≡ ring.now) }
{
    let mut copy = HeapCircularBuffer::with_capacity(*ring.allocator(), ring.capacity())?;
    for i in 0..ring.len() {
        if let Some(entry) = ring.get(i) {
            let entry = entry.try_clone()?;
            put_oldest(&mut copy, entry);
        }
    }
    Ok(copy)
}
