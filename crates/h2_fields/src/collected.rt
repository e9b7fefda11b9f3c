//! The fields that a field block has given so far, with the mark of each, in lists whose memory is kept from block to
//! block. Of a long block all but the last fields are in batches, which its copies share. Contracts see it as the
//! record `FieldsSoFar` of `h2_spec`, specs/Hpack/Block.antt.

ghost use Rattle.std.specs.Prelude.{◌≡◌, ◌≢◌, ◌≤◌, ◌-◌, ◌^◌, ℕ, List, [], ◌∷◌, ◌++◌, false, not, min, length, take, drop, slice_get, option_map, Some, Ok, IfOk, IfErr, IfSome, OnOk, OnErr};
ghost use Rattle.h2_spec.specs.Hpack.Block.{has_fields, list_size, text_result};
ghost use Rattle.h2_spec.specs.Hpack.Field.{Field, field, size};
ghost use Rattle.h2_spec.specs.Hpack.Huffman.{Text};
ghost use Rattle.h2_spec.specs.Hpack.Instruction.{text_of};
ghost use Rattle.h2_fields.specs.Applied.{IsReadAs};
ghost use Rattle.h2_hpack_instruction.specs.Faults.{refusal};
ghost use Rattle.h2_hpack_instruction.specs.Shapes.{string_of};
ghost use Rattle.h2_hpack_instruction.specs.declared.fault.BlockFault.TheVariants as faults;
ghost use Rattle.h2_hpack_validity.specs.Mark.{mark_of};
ghost use Rattle.h2_hpack_list.specs.Lent.{lent_field};
ghost use Rattle.h2_table.specs.Lent.{field_lent, IsMarked};

use crate::batches::{Batches, lent_at};
use crate::hints::Hints;
use h2_hpack_instruction::fault::BlockFault;
use h2_hpack_instruction::shape::RawString;
use h2_hpack_list::FieldList;
use h2_hpack_validity::FieldMark;
use h2_table::LentField;
use std::alloc::{AllocError, Allocator};
use std::marker::Model;

/// The most octets of a field that is not shared: to look for them costs more than to copy them.
const MAX_COPIED: usize = 32;

/// After how many fields of a block these are shared too, since the block may be long then.
const MANY_FIELDS: usize = 64;

/// How many fields a batch has at least, but the last ones of a block that is kept.
const MIN_SHARED: usize = 1_024;

/// The most marks whose memory is kept for the next field block.
const MAX_KEPT_MARKS: usize = 512;

/// The fields of a block so far, what each can be malformed for by itself, their size together, and whether the block
/// must still begin with a table size update (RFC 7541, 4.2).
pub struct Collected<A: Allocator> {
    /// The first fields.
    shared: Batches<A>,
    /// The fields after them.
    list: FieldList<A>,
    /// The marks of those.
    marks: Vec<FieldMark, A>,
    /// Where fields of the tables are in the list.
    hints: Hints<A>,
    size: u64,
    due: bool,
}

impl<A: Allocator> Model for Collected<A> {
    ghost use Rattle.std.specs.Prelude.{◌≡◌, ◌++◌, map};
    ghost use Rattle.h2_hpack_validity.specs.Mark.{mark_of};
    ghost use Rattle.h2_spec.specs.Hpack.Block.{FieldsSoFar, list_size};

    ghost Value = { FieldsSoFar };

    ghost view = { λ c. record { fields = c.shared ++ c.list.fields; due = c.due } };

    ghost invariant = { λ c. (c.size ≡ list_size (c.shared ++ c.list.fields)) × (c.marks.items ≡ map mark_of c.list.fields) };
}

/// By hand, so that a function that drops one makes one call, where a derived `Drop` would drop each part there.
impl<A: Allocator> Drop for Collected<A> {
    fn drop(self) {
        let Self {
            shared: _,
            list: _,
            marks: _,
            hints: _,
            size: _,
            due: _,
        } = self;
    }
}

/// A place in a field block to which `Collected::restore` goes back; plain data.
#[derive(Clone, Copy)]
pub struct Savepoint {
    /// How many fields there were.
    pub count: usize,
    /// Their size together, as `Collected::list_size` has it.
    pub size: u64,
    /// Whether a table size update was due.
    pub due: bool,
}

impl<A: Allocator> Collected<A> {
    /// No field, and no table size update is due. Takes no memory.
    pub fn new(alloc: A) -> Self
    where
        A: Copy,
        ensures { result ≡ record { fields = []; due = false } }
    {
        Collected {
            shared: Batches::new(alloc),
            list: FieldList::new(alloc),
            marks: Vec::new(alloc),
            hints: Hints::new(alloc),
            size: 0,
            due: false,
        }
    }

    /// Removes all fields, for a new block; `due` says whether it must begin with a table size update. The memory is
    /// kept.
    #[inline(always)]
    pub fn clear(&mut self, due: bool)
        ensures { self.new ≡ record { fields = []; due = due } }
    {
        self.shared.clear();
        self.list.clear();
        self.marks.clear();
        if self.marks.capacity() > MAX_KEPT_MARKS {
            self.marks.shrink_to_fit();
        }
        self.size = 0;
        self.due = due;
    }

    /// How many fields there are.
    pub fn len(&self) -> usize
        ensures { result ≡ length self.now.fields }
    {
        self.shared.len() + self.marks.len()
    }

    /// Whether there is no field.
    pub fn is_empty(&self) -> bool
        ensures { result ≡ not (has_fields self.now.fields) }
    {
        self.len() == 0
    }

    /// The name and the value of the field at a place, counted from 0; none at `len()` and above.
    pub fn get(&self, place: usize) -> Option<(&[u8], &[u8])>
        ensures { option_map lent_field result ≡ slice_get self.now.fields place }
    {
        let lent = self.lent(place)?;
        Some((lent.name, lent.value))
    }

    /// The field at a place with its mark; none at `len()` and above.
    #[inline(always)]
    pub fn lent(&self, place: usize) -> Option<LentField<'_>>
        ensures field { option_map field_lent result ≡ slice_get self.now.fields place }
        ensures marked { IfSome result IsMarked }
    {
        let before = self.shared.len();
        if place < before {
            self.shared.lent(place)
        } else {
            lent_at(&self.list, self.marks.as_slice(), place - before)
        }
    }

    /// The last field with its mark, if there is one.
    pub(crate) fn last(&self) -> Option<LentField<'_>>
        ensures field { (fields : List Field) (f : Field) → self.now.fields ≡ fields ++ f ∷ [] → option_map field_lent result ≡ Some f }
        ensures marked { IfSome result IsMarked }
    {
        let count = self.len();
        if count > 0 {
            self.lent(count - 1)
        } else {
            None
        }
    }

    /// The size of the fields together, in octets: 32 each beside those of their names and values (RFC 9113, 6.5.2);
    /// 2^64 - 1 where it is more.
    pub fn list_size(&self) -> u64
        ensures { result ≡ list_size self.now.fields }
    {
        self.size
    }

    /// Whether a table size update is still due.
    pub fn is_due(&self) -> bool
        ensures { result ≡ self.now.due }
    {
        self.due
    }

    /// A table size update was read: none is due any more.
    pub fn update_came(&mut self)
        ensures { self.new ≡ record self.old { due = false } }
    {
        self.due = false;
    }

    /// The place after the fields so far.
    pub fn savepoint(&self) -> Savepoint
        ensures { result ≡ record { count = length self.now.fields; size = list_size self.now.fields; due = self.now.due } }
    {
        Savepoint {
            count: self.len(),
            size: self.size,
            due: self.due,
        }
    }

    /// Removes the fields after a savepoint that was taken of the fields before them. Takes no memory.
    pub fn restore(&mut self, savepoint: Savepoint)
        requires size { savepoint.size ≡ list_size (take savepoint.count self.old.fields) }
        ensures { self.new ≡ record { fields = take savepoint.count self.old.fields; due = savepoint.due } }
    {
        let behind = savepoint.count.saturating_sub(self.shared.len());
        self.shared.truncate(savepoint.count);
        self.list.truncate(behind);
        self.marks.truncate(behind);
        self.size = savepoint.size;
        self.due = savepoint.due;
    }

    /// Adds a field after the others.
    ///
    /// # Errors
    ///
    /// `AllocError` where memory was refused; the fields are as they were.
    #[inline(always)]
    pub fn add(&mut self, added: LentField<'_>) -> Result<(), AllocError>
        requires marked { IsMarked added }
        ensures ok { OnOk result (self.new ≡ record self.old { fields = self.old.fields ++ field_lent added.entry ∷ [] }) }
        ensures err { OnErr result (self.new ≡ self.old) }
    {
        let LentField { name, value, mark } = added;
        let size = size_of(name, value);
        self.marks.reserve(1)?;
        self.list.append(name, value)?;
        self.marks.push_reserved(mark);
        self.size = self.size.saturating_add(size);
        Ok(())
    }

    /// Adds the field of an index of the tables after the others, `limit` being the most octets of the dynamic table.
    /// Where the index was added before, the octets of its name and value are shared, unless they are at most 32 and the
    /// fields are few.
    ///
    /// # Errors
    ///
    /// `AllocError` where memory was refused; the fields before it stay.
    #[inline(always)]
    pub fn add_indexed(
        &mut self,
        index: u64,
        limit: u32,
        added: LentField<'_>,
    ) -> Result<(), AllocError>
        requires marked { IsMarked added }
        ensures ok { OnOk result (self.new ≡ record self.old { fields = self.old.fields ++ field_lent added.entry ∷ [] }) }
        ensures err { OnErr result (self.new ≡ self.old) }
    {
        let place = if is_copied(self.len(), added.name, added.value) {
            usize::MAX
        } else {
            self.place_like(index, limit)?
        };
        if place < self.list.len() {
            self.add_like(place, added)
        } else {
            self.add(added)
        }
    }

    /// Where a field of this index may be; a place at the end of the fields and above where none is. The next field is
    /// noted as one of the index.
    ///
    /// # Errors
    ///
    /// `AllocError` where memory was refused; the fields are as they were.
    fn place_like(&mut self, index: u64, limit: u32) -> Result<usize, AllocError>
        ensures { self.new ≡ self.old }
    {
        let key = self.hints.key(index, limit);
        let place = self.hints.place(key);
        self.hints.set(key, limit, self.list.len())?;
        Ok(place)
    }

    /// Adds a field after the others; `place` is that of a field that may be the same, whose octets are shared then.
    ///
    /// # Errors
    ///
    /// `AllocError` where memory was refused; the fields before it stay.
    #[inline(never)]
    fn add_like(&mut self, place: usize, added: LentField<'_>) -> Result<(), AllocError>
        requires marked { IsMarked added }
        ensures ok { OnOk result (self.new ≡ record self.old { fields = self.old.fields ++ field_lent added.entry ∷ [] }) }
        ensures err { OnErr result (self.new ≡ self.old) }
    {
        let LentField { name, value, mark } = added;
        self.marks.reserve(1)?;
        let size = size_of(name, value);
        self.list.append_like(place, name, value)?;
        self.marks.push_reserved(mark);
        self.size = self.size.saturating_add(size);
        Ok(())
    }

    /// Adds the field of a name and a value that are both spelled after the others.
    ///
    /// # Errors
    ///
    /// `Huffman` where one of them is no Huffman string, `NoMemory` where memory was refused; the fields are as they
    /// were.
    pub(crate) fn add_spelled(
        &mut self,
        name: RawString<'_>,
        value: RawString<'_>,
    ) -> Result<(), BlockFault>
        ensures { IsReadAs (text_result (text_of (string_of name.entry))) (text_result (text_of (string_of value.entry))) self.old self.new result }
    {
        self.marks.reserve(1)?;
        self.list.clear_next();
        put_text(&mut self.list, name)?;
        let split = self.list.next().len();
        put_text(&mut self.list, value)?;
        let mark = mark_of_parts(self.list.next(), split);
        let size = size_of(self.list.next(), b"");
        self.list.close(split)?;
        self.marks.push_reserved(mark);
        self.size = self.size.saturating_add(size);
        Ok(())
    }

    /// Adds the field of a name that is that of an entry of the tables, and a value that is spelled, after the others;
    /// `index` is the index of the entry, `limit` the most octets of the dynamic table. Where a field with the name of
    /// the index was added before, the octets of the name are shared, unless the field has at most 32 and the fields are
    /// few.
    ///
    /// # Errors
    ///
    /// `Huffman` where the value is no Huffman string, `NoMemory` where memory was refused; the fields are as they
    /// were.
    pub(crate) fn add_named(
        &mut self,
        index: u64,
        limit: u32,
        named: LentField<'_>,
        value: RawString<'_>,
    ) -> Result<(), BlockFault>
        requires marked { IsMarked named }
        ensures { IsReadAs (Ok named.entry.name.now) (text_result (text_of (string_of value.entry))) self.old self.new result }
    {
        let name = named.name;
        let count = self.len();
        self.marks.reserve(1)?;
        self.list.clear_next();
        put_text(&mut self.list, value)?;
        let mark = named.mark.with_value(self.list.next());
        let size = size_of(name, self.list.next());
        let like = like_named(&mut self.hints, &self.list, count, index, limit, name)?;
        self.list.close_named(like, name)?;
        self.marks.push_reserved(mark);
        self.size = self.size.saturating_add(size);
        Ok(())
    }

    /// The last field was added to the dynamic table, whose limit is `limit` octets: its octets are shared from now on.
    ///
    /// # Errors
    ///
    /// `AllocError` where memory was refused; the fields are as they were.
    pub fn entry_added(&mut self, limit: u32) -> Result<(), AllocError>
        ensures { self.new ≡ self.old }
    {
        self.hints.entry_added(limit);
        let key = self.hints.key(62, limit);
        let place = self.list.len().saturating_sub(1);
        self.hints.set(key, limit, place)
    }
}

impl<A: Allocator + Copy> Collected<A> {
    /// The allocator of the fields.
    pub fn allocator(&self) -> A {
        self.list.allocator()
    }

    /// Puts the fields into a batch, which copies made from now on share; where they are few, or memory is refused,
    /// they stay where they are.
    pub fn share(&mut self)
        ensures { self.new ≡ self.old }
    {
        if self.list.len() < MIN_SHARED {
            return;
        }
        if self.shared.push(&self.list).is_ok() {
            self.list.clear();
            self.marks.clear();
        }
    }

    /// A copy of the fields to be kept, in little memory: batches are shared, also those of a block that was kept earlier where
    /// it has the same fields, and the others are one batch more.
    ///
    /// # Errors
    ///
    /// `AllocError` where memory was refused; `self` is as it was.
    pub fn keep(&self, earlier: Option<&Collected<A>>) -> Result<Collected<A>, AllocError>
        ensures same { IfOk result (λ copy. copy ≡ self.now) }
    {
        let shared = self.shared.with_list(shared_of(earlier), &self.list)?;
        let alloc = self.list.allocator();
        Ok(Collected {
            shared,
            list: FieldList::new(alloc),
            marks: Vec::new(alloc),
            hints: Hints::new(alloc),
            size: self.size,
            due: self.due,
        })
    }

    /// A copy of the fields: batches are shared, the others copied.
    ///
    /// # Errors
    ///
    /// `AllocError` where memory was refused; `self` is as it was.
    pub fn try_clone(&self) -> Result<Collected<A>, AllocError>
        ensures same { IfOk result (λ copy. copy ≡ self.now) }
    {
        let marks = self.marks.clone()?;
        let list = self.list.try_clone()?;
        Ok(Collected {
            shared: self.shared.try_clone()?,
            list,
            marks,
            hints: Hints::new(self.list.allocator()),
            size: self.size,
            due: self.due,
        })
    }
}

/// The batches of an earlier block, if there is one.
fn shared_of<A: Allocator>(earlier: Option<&Collected<A>>) -> Option<&Batches<A>> {
    match earlier {
        Some(earlier) => Some(&earlier.shared),
        None => None,
    }
}

/// The mark of the field whose name is the first `split` of these octets, and whose value is the others.
fn mark_of_parts(octets: &[u8], split: usize) -> FieldMark
    requires { split ≤ length octets.now }
    ensures { result ≡ mark_of (field (take split octets.now) (drop split octets.now)) }
{
    let (name, value) = octets.split_at(split);
    FieldMark::of(name, value)
}

// A field of at most 32 octets is copied while its block has fewer than 64: to look for it costs more than
// the copy.
/// Whether a field is copied in any case, where there are that many others in its block.
fn is_copied(count: usize, name: &[u8], value: &[u8]) -> bool {
    count < MANY_FIELDS && name.len().saturating_add(value.len()) <= MAX_COPIED
}

/// The place of a field that may have the name of an index, in a block of that many others; none where the name is to be
/// copied.
fn like_named<A: Allocator>(
    hints: &mut Hints<A>,
    list: &FieldList<A>,
    count: usize,
    index: u64,
    limit: u32,
    name: &[u8],
) -> Result<usize, AllocError> {
    if is_copied(count, name, list.next()) {
        return Ok(usize::MAX);
    }
    let key = hints.key(index, limit);
    let like = hints.place(key);
    let named = if has_name(list, like, name) {
        like
    } else {
        list.len()
    };
    hints.set(key, limit, named)?;
    Ok(like)
}

/// Whether the field at a place has this name.
fn has_name<A: Allocator>(list: &FieldList<A>, place: usize, name: &[u8]) -> bool {
    match list.get(place) {
        Some((other, _)) => other == name,
        None => false,
    }
}

/// Puts the octets that a string means after those of the next field.
fn put_text<A: Allocator>(list: &mut FieldList<A>, string: RawString<'_>) -> Result<(), BlockFault>
    ensures text { OnOk result ((text : List ℕ) × (text_of (string_of string.entry) ≡ Text text) × (list.new ≡ record list.old { next = list.old.next ++ text })) }
    ensures unchanged { OnErr result (list.new ≡ list.old) }
    ensures fault { IfErr result (λ fault. fault ≢ faults.NoMemory → refusal (text_result (text_of (string_of string.entry))) ≡ Some fault) }
{
    if string.huffman {
        list.put_huffman(string.octets)?;
    } else {
        list.put(string.octets)?;
    }
    Ok(())
}

/// The size of a field: its octets and 32 more; 2^64 - 1 where it is more.
fn size_of(name: &[u8], value: &[u8]) -> u64
    ensures { result ≡ min (size (field name.now value.now)) (2 ^ 64 - 1) }
{
    (name.len() as u64)
        .saturating_add(value.len() as u64)
        .saturating_add(32)
}
