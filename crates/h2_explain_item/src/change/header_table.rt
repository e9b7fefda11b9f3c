//! The client's header table, followed by the fields of its blocks: which entries an item enters, and which it evicts
//! (RFC 7541, 2.3.2 and 4). Definitions: `specs/FollowedTable.antt`.

ghost use Rattle.std.specs.Prelude.{◌≡◌, ◌∷◌, ◌++◌, option_map, take, IfOk, OnOk};
ghost use Rattle.h2_explain_words.specs.Spelled.{spelling_seen};
ghost use Rattle.h2_hpack_list.specs.Lent.{lent_field};
ghost use Rattle.h2_spec.specs.Hpack.DynamicTable.{field_at};
ghost use Rattle.h2_spec.specs.Hpack.Field.{field, size};
ghost use Rattle.h2_explain_item.specs.ShownBlock.{field_seen, fields_seen, up_to_64_bits};
ghost use Rattle.h2_explain_item.specs.FollowedTable as spec;

use crate::shown_block::{BlockReader, SpelledField, SpelledFields};
use h2_explain_words::spelled::Spelling;
use h2_fields::collected::Collected;
use h2_hpack_instruction::instruction::Mode;
use h2_table::{DynTable, static_field};
use std::alloc::{AllocError, Allocator, Global};
use std::collections::VecDeque;
use std::marker::Model;

/// An entry of the table.
#[derive(Drop)]
pub struct ShownEntry<A: Allocator = Global> {
    /// The octets of its name.
    pub name: Vec<u8, A>,
    /// The octets of its value.
    pub value: Vec<u8, A>,
}

impl<A: Allocator> Model for ShownEntry<A> {
    ghost use Rattle.h2_spec.specs.Hpack.Field.{Field};

    ghost Value = { Field };

    ghost view = { λ e. record { name = e.name.items; value = e.value.items } };
}

/// What an entry counts: its octets and 32 (RFC 7541, 4.1).
fn size_of(name: &[u8], value: &[u8]) -> usize
    ensures { result ≡ up_to_64_bits (size (field name.now value.now)) }
{
    name.len().saturating_add(value.len()).saturating_add(32)
}

impl<A: Allocator + Copy> ShownEntry<A> {
    /// A copy of these octets.
    fn of(alloc: A, name: &[u8], value: &[u8]) -> Result<Self, AllocError>
        ensures { IfOk result (λ entry. entry ≡ field name.now value.now) }
    {
        let name = Vec::from_slice(alloc, name)?;
        let value = Vec::from_slice(alloc, value)?;
        Ok(ShownEntry { name, value })
    }

    /// What it counts: its octets and 32 (RFC 7541, 4.1).
    pub fn size(&self) -> usize
        ensures { result ≡ up_to_64_bits (size self.now) }
    {
        size_of(self.name.as_slice(), self.value.as_slice())
    }
}

/// An entry that was entered, which is then at index 62, or evicted.
#[derive(Drop)]
pub struct EntryChange<A: Allocator = Global> {
    /// Whether it was entered; else it was evicted.
    pub is_entered: bool,
    /// The entry.
    pub entry: ShownEntry<A>,
}

impl<A: Allocator> Model for EntryChange<A> {
    ghost use Rattle.h2_explain_item.specs.FollowedTable.{EntryListed};

    ghost Value = { EntryListed };

    ghost view = { λ c. record { is_entered = c.is_entered; entry = c.entry } };
}

/// What evicts an entry.
#[derive(Clone, Copy)]
struct EvictedBy<'f> {
    /// The number of the item.
    item: u64,
    /// The name of the entry that does, none where a table size update does.
    name: Option<&'f [u8]>,
}

/// An entry that was evicted.
#[derive(Drop)]
pub struct Gone<A: Allocator> {
    /// The entry.
    pub entry: ShownEntry<A>,
    /// The number of the item that evicted it.
    pub item: u64,
    /// The name of the entry that evicted it, none where a table size update did.
    pub by: Option<Vec<u8, A>>,
}

impl<A: Allocator> Model for Gone<A> {
    ghost use Rattle.std.specs.Prelude.{option_map};
    ghost use Rattle.h2_explain_item.specs.FollowedTable.{EntryGone};

    ghost Value = { EntryGone };

    ghost view = { λ g. record { entry = g.entry; evictor = record { item = g.item; by = option_map (λ x. x.items) g.by } } };
}

impl<A: Allocator + Copy> Gone<A> {
    /// What is kept of an entry of these octets.
    fn of(alloc: A, name: &[u8], value: &[u8], by: EvictedBy<'_>) -> Result<Self, AllocError>
        ensures { IfOk result (λ gone. gone ≡ record { entry = field name.now value.now; evictor = spec.evictor_seen by.entry }) }
    {
        let evictor = match by.name {
            Some(name) => Some(Vec::from_slice(alloc, name)?),
            None => None,
        };
        Ok(Gone {
            entry: ShownEntry::of(alloc, name, value)?,
            item: by.item,
            by: evictor,
        })
    }
}

/// How many of the entries that were evicted last are kept.
const MOST_GONE: usize = 64;

/// Keeps an entry that was evicted, beside the 63 before it.
fn keep<A: Allocator>(kept: &mut VecDeque<Gone<A>, A>, gone: Gone<A>) -> Result<(), AllocError>
    ensures { OnOk result (kept.new.items ≡ gone ∷ take 63 kept.old.items) }
{
    kept.truncate(MOST_GONE - 1);
    kept.push_front(gone)?;
    Ok(())
}

/// Lists and keeps the oldest entries of a table, those that are evicted where the others count at most `available` octets.
fn note_evicted<A: Allocator + Copy>(
    alloc: A,
    table: &DynTable<A>,
    available: usize,
    by: EvictedBy<'_>,
    kept: &mut VecDeque<Gone<A>, A>,
    out: &mut Vec<EntryChange<A>, A>,
) -> Result<(), AllocError>
    ensures kept { OnOk result (kept.new.items ≡ spec.gone_with (spec.evictor_seen by.entry) (spec.evicted table.now.table.entries available) kept.old.items) }
    ensures listed { OnOk result (out.new.items ≡ out.old.items ++ spec.evictions (spec.evicted table.now.table.entries available)) }
{
    let mut left = table.size();
    let mut place = table.len();
    while left > available {
        let Some((name, value)) = table.get(place) else {
            return Ok(());
        };
        keep(kept, Gone::of(alloc, name, value, by)?)?;
        let entry = ShownEntry::of(alloc, name, value)?;
        out.push(EntryChange {
            is_entered: false,
            entry,
        })?;
        left = left
            .saturating_sub(name.len())
            .saturating_sub(value.len())
            .saturating_sub(32);
        place = place.saturating_sub(1);
    }
    Ok(())
}

/// The field at an index of both tables: 1 to 61 are static, 62 is the newest entry (RFC 7541, 2.3.3).
fn field_at<A: Allocator>(table: &DynTable<A>, index: u64) -> Option<(&[u8], &[u8])>
    ensures { option_map lent_field result ≡ field_at index table.now.table.entries }
{
    if index <= 61 {
        static_field(index as usize)
    } else {
        table.get((index - 61) as usize)
    }
}

// Keeps the 64 entries that were evicted last: they are what an index beyond both tables would name in a
// larger table.
/// The table, followed by the fields of blocks.
#[derive(Drop)]
pub struct Followed<A: Allocator = Global> {
    table: DynTable<A>,
    /// Entries that were evicted, the last one first: with those of the table they are what the table would have if it
    /// were larger.
    gone: VecDeque<Gone<A>, A>,
    /// How many fields and updates of the open block were followed.
    fields: usize,
    updates: usize,
}

impl<A: Allocator> Model for Followed<A> {
    ghost use Rattle.h2_explain_item.specs.FollowedTable.{TableFollowed};

    ghost Value = { TableFollowed };

    ghost view = { λ f. record { table = f.table; gone = f.gone.items; fields = f.fields; updates = f.updates } };
}

/// Whether a field enters the table (RFC 7541, 6.2.1).
fn enters(spelling: Spelling) -> bool
    ensures { result ≡ spec.enters (spelling_seen spelling) }
{
    match spelling {
        Spelling::Literal(Mode::IncrementalIndexing, _, _, _) => true,
        _ => false,
    }
}

impl<A: Allocator + Copy> Followed<A> {
    /// The table is empty, with this maximum in octets.
    ///
    /// # Errors
    ///
    /// `AllocError` where the places for its entries were refused.
    pub fn new(alloc: A, maximum: u32) -> Result<Self, AllocError>
        ensures { IfOk result (λ f. f ≡ spec.empty maximum) }
    {
        Ok(Followed {
            table: DynTable::new(alloc, maximum)?,
            gone: VecDeque::new(alloc),
            fields: 0,
            updates: 0,
        })
    }

    /// The name at an index of both tables; none where no entry has it (RFC 7541, 2.3.3).
    pub fn name_at(&self, index: u64) -> Option<&[u8]>
        ensures { option_map (λ x. x.now) result ≡ spec.name_at index self.now }
    {
        match field_at(&self.table, index) {
            Some((name, _)) => Some(name),
            None => None,
        }
    }

    /// The highest index that has an entry in the static or the dynamic table, 61 or more (RFC 7541, 2.3.3).
    pub fn highest_index(&self) -> usize
        ensures { result ≡ spec.highest_index self.now }
    {
        self.table.len().saturating_add(61)
    }

    /// What an index that is beyond both tables would name if nothing had been evicted; none where that is not known.
    pub fn gone_at(&self, index: u64) -> Option<&Gone<A>>
        ensures { option_map (λ x. x.now) result ≡ spec.gone_at index self.now }
    {
        let place = index
            .checked_sub(self.highest_index() as u64)?
            .checked_sub(1)?;
        self.gone.get(place as usize)
    }

    /// A block begins.
    pub fn begin(&mut self)
        ensures { self.new ≡ spec.begun self.old }
    {
        self.fields = 0;
        self.updates = 0;
    }

    /// Enters a field; what has no space in the empty table only empties it (RFC 7541, 4.4), and then no index tells any
    /// more which of the evicted entries it would name.
    fn enter(
        &mut self,
        alloc: A,
        item: u64,
        name: &[u8],
        value: &[u8],
        out: &mut Vec<EntryChange<A>, A>,
    ) -> Result<(), AllocError>
        ensures { OnOk result (spec.following self.new out.new.items ≡ spec.entering item (field name.now value.now) (spec.following self.old out.old.items)) }
    {
        let (size, max) = (size_of(name, value), self.table.max() as usize);
        let by = EvictedBy {
            item,
            name: Some(name),
        };
        note_evicted(
            alloc,
            &self.table,
            max.saturating_sub(size),
            by,
            &mut self.gone,
            out,
        )?;
        let entry = ShownEntry::of(alloc, name, value)?;
        self.table.insert(entry.name, entry.value);
        if size > max {
            self.gone.clear();
            return Ok(());
        }
        let entry = ShownEntry::of(alloc, name, value)?;
        out.push(EntryChange {
            is_entered: true,
            entry,
        })?;
        Ok(())
    }

    /// Carries out a table size update; one above the limit, which the connection refuses, does nothing (RFC 7541, 6.3).
    fn resize(
        &mut self,
        alloc: A,
        item: u64,
        max: u64,
        out: &mut Vec<EntryChange<A>, A>,
    ) -> Result<(), AllocError>
        ensures { OnOk result (spec.following self.new out.new.items ≡ spec.resizing item max (spec.following self.old out.old.items)) }
    {
        if max > u64::from(self.table.limit()) {
            return Ok(());
        }
        let by = EvictedBy { item, name: None };
        note_evicted(alloc, &self.table, max as usize, by, &mut self.gone, out)?;
        let _ = self.table.set_max(max);
        Ok(())
    }

    /// Follows a field; what it does is listed or not.
    fn follow_field(
        &mut self,
        alloc: A,
        item: u64,
        field: SpelledField<'_>,
        is_listed: bool,
        out: &mut Vec<EntryChange<A>, A>,
    ) -> Result<(), AllocError>
        ensures { OnOk result (spec.following self.new out.new.items ≡ spec.field_followed item is_listed (field_seen field.entry) (spec.following self.old out.old.items)) }
    {
        if !enters(field.spelling) {
            return Ok(());
        }
        let before = out.len();
        self.enter(alloc, item, field.name, field.value, out)?;
        if !is_listed {
            out.truncate(before);
        }
        Ok(())
    }

    /// Carries out the updates of a block that were not followed yet.
    fn follow_updates(
        &mut self,
        alloc: A,
        item: u64,
        updates: &[u64],
        out: &mut Vec<EntryChange<A>, A>,
    ) -> Result<(), AllocError>
        ensures { OnOk result (spec.following self.new out.new.items ≡ spec.updates_left item updates.now (spec.following self.old out.old.items)) }
    {
        for place in self.updates..updates.len() {
            if let Some(max) = updates.get(place) {
                self.resize(alloc, item, *max, out)?;
            }
        }
        Ok(())
    }

    /// Follows the fields of a block that were not followed yet; what those at places below `listed` do is listed.
    fn follow_fields(
        &mut self,
        alloc: A,
        item: u64,
        fields: SpelledFields<'_, A>,
        listed: usize,
        out: &mut Vec<EntryChange<A>, A>,
    ) -> Result<(), AllocError>
        ensures { OnOk result (spec.following self.new out.new.items ≡ spec.fields_left item listed (fields_seen fields.entry).shown (spec.following self.old out.old.items)) }
    {
        for place in self.fields..fields.len() {
            if let Some(field) = fields.get(place) {
                self.follow_field(alloc, item, field, place < listed, out)?;
            }
        }
        Ok(())
    }

    /// Follows what a block has given since it was followed last, and lists what its fields that are shown do after what
    /// was listed before. The item has this number, the block these fields with it, and the table this limit in octets.
    ///
    /// # Errors
    ///
    /// `AllocError` where memory was refused; the table should not be followed any further.
    pub fn follow(
        &mut self,
        alloc: A,
        item: u64,
        limit: u32,
        reader: &BlockReader<A>,
        fields: &Collected<A>,
        out: &mut Vec<EntryChange<A>, A>,
    ) -> Result<(), AllocError>
        ensures { OnOk result (spec.following self.new out.new.items ≡ spec.block_followed item limit reader.now fields.now.fields (spec.following self.old out.old.items)) }
    {
        let block = reader.block(fields);
        let (all, listed) = (reader.all_fields(fields), block.fields.len());
        self.table.set_limit(limit)?;
        self.follow_updates(alloc, item, block.updates, out)?;
        self.follow_fields(alloc, item, all, listed, out)?;
        self.fields = all.len();
        self.updates = block.updates.len();
        Ok(())
    }
}
