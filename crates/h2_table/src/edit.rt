//! An edit of a dynamic table (RFC 7541, 2.3.2 and 4): the entries that were added, and how many of the table's own
//! remain. The table does not change until the edit is committed, which needs no memory; an edit that is never
//! committed changes nothing. So a field block can be decoded without a copy of the table. The definitions are `Table`,
//! `insert` and `resize` of `h2_spec`, specs/Hpack/DynamicTable.antt, and those of `specs/Edits.antt`.

ghost use Rattle.std.specs.Prelude.{◌≡◌, ◌<◌, ◌≤◌, [], ◌∷◌, ◌++◌, ◌↔◌, length, take, option_map, true, OnOk, OnErr, IfOk, IfErr, IfSome, IsErr};
ghost use Rattle.std.specs.VecDeque.{deque_len, deque_capacity};
ghost use Rattle.circular_buffer.specs.Buffer.{buffer};
ghost use Rattle.h2_spec.specs.Hpack.DynamicTable.{fit, insert, resize, total_size, entry_at};
ghost use Rattle.h2_spec.specs.Hpack.Field.{field};
ghost use Rattle.h2_hpack_validity.specs.Mark.{mark_of};
ghost use Rattle.h2_table.specs.Edits.{IsEdit, edited};
ghost use Rattle.h2_table.specs.Lent.{field_lent, IsMarked};
ghost use Rattle.h2_table.specs.declared.fault.TableFault.TheVariants as faults;

use crate::dynamic_table::{DynTable, lend, put_newest};
use crate::entry::TableEntry;
use crate::fault::TableFault;
use crate::lent::LentField;
use circular_buffer::HeapCircularBuffer;
use h2_hpack_validity::FieldMark;
use std::alloc::{AllocError, Allocator};
use std::collections::VecDeque;
use std::marker::Model;

/// How many evicted entries keep their memory for entries to come.
const SPARE_ENTRIES: usize = 8;

/// The most octets that the lists of such an entry have places for: a table whose entries all had such memory takes four
/// times what they count.
const SPARE_OCTETS: usize = 128;

// Plain data beside its table, which each call is given. A value with both was moved at each fragment, 80
// instructions.
/// An edit of a dynamic table, without the table: the added entries, the newest first, how many of the table's own
/// entries remain, what both count together, and the maximum. Besides it has the memory of some entries that were
/// evicted.
#[derive(Drop)]
pub struct Edit<A: Allocator> {
    /// The entries that are added, the newest first.
    pub(crate) added: VecDeque<TableEntry<A>, A>,
    /// Evicted entries whose memory is used again.
    pub(crate) spare: Vec<TableEntry<A>, A>,
    /// How many of the table's own entries remain, the newest.
    pub(crate) kept: usize,
    /// What these entries count together, in octets (RFC 7541, 4.1).
    pub(crate) size: usize,
    /// The most that they may count.
    pub(crate) max: u32,
}

impl<A: Allocator> Model for Edit<A> {
    ghost use Rattle.h2_table.specs.Edits.{EditOf};

    ghost Value = { EditOf };

    ghost view = { λ e. record { added = e.added.items; kept = e.kept; size = e.size; max = e.max } };
}

impl<A: Allocator> Edit<A> {
    /// An edit for `begin`. Takes no memory.
    pub fn new(alloc: A) -> Self
    where
        A: Copy,
        ensures { result ≡ record { added = []; kept = 0; size = 0; max = 0 } }
    {
        Edit {
            added: VecDeque::new(alloc),
            spare: Vec::new(alloc),
            kept: 0,
            size: 0,
            max: 0,
        }
    }
}

impl<A: Allocator + Copy> Edit<A> {
    /// Makes it an edit of a table without changes. It may have been of any table: its entries are dropped, and its places
    /// and the memory of its evicted entries are used again. Takes no memory.
    pub fn begin(&mut self, base: &DynTable<A>)
        ensures belongs { IsEdit base.now self.new }
        ensures same { edited base.now.table.entries self.new ≡ base.now.table }
    {
        self.added.clear();
        self.kept = base.len();
        self.size = base.size();
        self.max = base.max();
    }

    /// The `i`-th entry of the edited table with its mark, counted from 1, the newest; none past the oldest, and none for 0.
    pub fn get<'e>(&'e self, base: &'e DynTable<A>, i: usize) -> Option<LentField<'e>>
        requires belongs { IsEdit base.now self.now }
        ensures field { option_map field_lent result ≡ entry_at i (edited base.now.table.entries self.now).entries }
        ensures marked { IfSome result IsMarked }
    {
        if i == 0 {
            return None;
        }
        let count = self.added.len();
        if i <= count {
            return Some(lend(self.added.get(i - 1)?));
        }
        if i - count > self.kept {
            return None;
        }
        base.entry(i - count)
    }

    /// Sets the maximum of the edited table to `n` octets, and evicts the oldest entries until the others are within it
    /// (RFC 7541, 4.3).
    ///
    /// # Errors
    ///
    /// `OverLimit` where `n` is above the limit of the table; nothing has changed. No memory is taken.
    pub fn set_max(&mut self, base: &DynTable<A>, n: u64) -> Result<(), TableFault>
        requires belongs { IsEdit base.now self.old }
        ensures belongs { IsEdit base.now self.new }
        ensures over_limit { IsErr result ↔ (base.now.limit < n) }
        ensures resized { OnOk result (edited base.now.table.entries self.new ≡ resize (edited base.now.table.entries self.old) n) }
        ensures fault { IfErr result (λ fault. fault ≡ faults.OverLimit) }
        ensures unchanged { OnErr result (self.new ≡ self.old) }
    {
        let is_over = n > u64::from(base.limit());
        if is_over {
            return Err(TableFault::OverLimit);
        }
        let max = n as u32;
        let (kept, left) = evict_oldest(
            &mut self.added,
            &mut self.spare,
            base,
            self.kept,
            self.size,
            max as usize,
        );
        self.kept = kept;
        self.size = left;
        self.max = max;
        Ok(())
    }

    /// Adds a field as the newest entry of the edited table, once the oldest ones have made space for it; one that counts
    /// more than the maximum empties the table and is no error (RFC 7541, 4.4). `mark` is the mark of the field.
    ///
    /// # Errors
    ///
    /// `AllocError` where memory was refused; nothing has changed.
    pub fn insert(
        &mut self,
        base: &DynTable<A>,
        name: &[u8],
        value: &[u8],
        mark: FieldMark,
    ) -> Result<(), AllocError>
        requires belongs { IsEdit base.now self.old }
        requires marked { mark ≡ mark_of (field name.now value.now) }
        ensures belongs { IsEdit base.now self.new }
        ensures ok { OnOk result (edited base.now.table.entries self.new ≡ insert (edited base.now.table.entries self.old) (field name.now value.now)) }
        ensures err { OnErr result (self.new ≡ self.old) }
    {
        let size = name.len().saturating_add(value.len()).saturating_add(32);
        let max = self.max as usize;
        if size > max {
            let (kept, left) = evict_oldest(
                &mut self.added,
                &mut self.spare,
                base,
                self.kept,
                self.size,
                0,
            );
            self.kept = kept;
            self.size = left;
            return Ok(());
        }
        self.added.reserve(1)?;
        let entry = entry_in(&mut self.spare, name, value, mark)?;
        let (kept, left) = evict_oldest(
            &mut self.added,
            &mut self.spare,
            base,
            self.kept,
            self.size,
            max - size,
        );
        self.added.push_front_reserved(entry);
        self.kept = kept;
        self.size = left + size;
        Ok(())
    }
}

/// An entry of this name and this value, in the memory of a spare one where there is one. Has places for spare entries
/// from then on.
fn entry_in<A: Allocator + Copy>(
    spare: &mut Vec<TableEntry<A>, A>,
    name: &[u8],
    value: &[u8],
    mark: FieldMark,
) -> Result<TableEntry<A>, AllocError>
    requires marked { mark ≡ mark_of (field name.now value.now) }
    ensures { IfOk result (λ entry. entry ≡ record { name = name.now; value = value.now }) }
{
    if let Some(entry) = spare.pop() {
        return entry.again(name, value, mark);
    }
    if spare.capacity() == 0 {
        spare.reserve_exact(SPARE_ENTRIES)?;
    }
    TableEntry::of(*spare.allocator(), name, value, mark)
}

/// Keeps the memory of an entry that was evicted, if there is a place and it is little; drops it elsewhere.
fn set_aside<A: Allocator>(spare: &mut Vec<TableEntry<A>, A>, entry: TableEntry<A>) {
    if spare.len() < spare.capacity() && entry.places() <= SPARE_OCTETS {
        spare.push_reserved(entry);
    }
}

/// Evicts the oldest entries until the others count at most `available` octets: first the table's own, then those that were
/// added. Returns how many of the table's own remain, and what all that remain count.
fn evict_oldest<A: Allocator>(
    added: &mut VecDeque<TableEntry<A>, A>,
    spare: &mut Vec<TableEntry<A>, A>,
    base: &DynTable<A>,
    kept: usize,
    size: usize,
    available: usize,
) -> (usize, usize)
    requires counted { size ≡ total_size (added.old.items ++ take kept base.now.table.entries) }
    requires held { kept ≤ length base.now.table.entries }
    ensures left { added.new.items ++ take result.0 base.now.table.entries ≡ fit (added.old.items ++ take kept base.now.table.entries) available }
    ensures held { result.0 ≤ length base.now.table.entries }
    ensures counted { result.1 ≡ total_size (added.new.items ++ take result.0 base.now.table.entries) }
    ensures within { result.1 ≤ available }
    ensures fewer { deque_len added.new ≤ deque_len added.old }
    ensures places { deque_capacity added.new ≡ deque_capacity added.old }
{
    let (kept, left) = evict_own(added, base, kept, size, available);
    if left <= available {
        return (kept, left);
    }
    (0, evict_added(added, spare, left, available))
}

/// Evicts the oldest of the entries until the others, all of which count `size` octets, count at most `available`; returns
/// what they count.
fn evict_added<A: Allocator>(
    added: &mut VecDeque<TableEntry<A>, A>,
    spare: &mut Vec<TableEntry<A>, A>,
    size: usize,
    available: usize,
) -> usize
    requires { size ≡ total_size added.old.items }
    ensures kept { added.new.items ≡ fit added.old.items available }
    ensures counted { result ≡ total_size added.new.items }
    ensures within { result ≤ available }
    ensures fewer { deque_len added.new ≤ deque_len added.old }
    ensures places { deque_capacity added.new ≡ deque_capacity added.old }
{
    let mut left = size;
    while left > available {
        match added.pop_back() {
            Some(entry) => {
                left -= entry.name().len() + entry.value().len() + 32;
                set_aside(spare, entry);
            }
            None => return left,
        }
    }
    left
}

/// How many of the table's own entries remain where the oldest of them are evicted, until all count at most `available`
/// octets or none of the table's own is left, and what all that remain count.
fn evict_own<A: Allocator>(
    added: &VecDeque<TableEntry<A>, A>,
    base: &DynTable<A>,
    kept: usize,
    size: usize,
    available: usize,
) -> (usize, usize)
    requires counted { size ≡ total_size (added.now.items ++ take kept base.now.table.entries) }
    requires held { kept ≤ length base.now.table.entries }
    ensures same { fit (added.now.items ++ take result.0 base.now.table.entries) available ≡ fit (added.now.items ++ take kept base.now.table.entries) available }
    ensures held { result.0 ≤ length base.now.table.entries }
    ensures counted { result.1 ≡ total_size (added.now.items ++ take result.0 base.now.table.entries) }
    ensures gone { available < result.1 → result.0 ≡ 0 }
{
    let mut last = kept;
    let mut left = size;
    while left > available && last > 0 {
        match base.get(last) {
            Some((name, value)) => left -= name.len() + value.len() + 32,
            None => return (last, left),
        }
        last -= 1;
    }
    (last, left)
}

impl<A: Allocator> DynTable<A> {
    /// Makes the changes of an edit that belongs to the table. Takes no memory; the places of the edit can be used
    /// again.
    #[inline(always)]
    pub fn commit(&mut self, edit: &mut Edit<A>)
        requires belongs { IsEdit self.old edit.old }
        ensures { self.new ≡ record self.old { table = edited self.old.table.entries edit.old } }
    {
        self.added = self.added.wrapping_add(edit.added.len());
        evict_from(&mut self.ring, &mut edit.spare, edit.kept);
        move_newest(&mut self.ring, &mut edit.added);
        self.size = edit.size;
        self.max = edit.max;
    }
}

/// Evicts the entries after the newest `kept` ones.
fn evict_from<A: Allocator>(
    ring: &mut HeapCircularBuffer<TableEntry<A>, A>,
    spare: &mut Vec<TableEntry<A>, A>,
    kept: usize,
)
    ensures { ring.new ≡ buffer (take kept ring.old.items) ring.old.capacity }
{
    while ring.len() > kept {
        match ring.pop_back() {
            Some(entry) => set_aside(spare, entry),
            None => return,
        }
    }
}

/// Moves all entries of a ring, the oldest first, to the front of another, which has places for them.
fn move_newest<A: Allocator>(
    ring: &mut HeapCircularBuffer<TableEntry<A>, A>,
    added: &mut VecDeque<TableEntry<A>, A>,
)
    requires { length (added.old.items ++ ring.old.items) ≤ ring.old.capacity }
    ensures { ring.new ≡ buffer (added.old.items ++ ring.old.items) ring.old.capacity }
{
    while let Some(entry) = added.pop_back() {
        put_newest(ring, entry);
    }
}
