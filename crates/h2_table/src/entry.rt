//! An entry of the dynamic table: a name and a value that the table owns, and their mark.
//! Contracts see it as the record `Field` of the definitions (`h2_spec`, specs/Hpack/Field.antt).

ghost use Rattle.std.specs.Prelude.{◌≡◌, ◌++◌, IfOk};
ghost use Rattle.h2_hpack_validity.specs.Mark.{mark_of};
ghost use Rattle.h2_spec.specs.Hpack.Field.{field};

use h2_hpack_validity::FieldMark;
use h2_spec::octets::{octets_from, octets_up_to};
use std::alloc::{AllocError, Allocator};
use std::marker::Model;

/// A header field in the table. Name and value are in one list, so that an entry takes memory once.
#[derive(Drop)]
pub struct TableEntry<A: Allocator> {
    /// The octets of the name, and then those of the value, unless they are apart.
    octets: Vec<u8, A>,
    /// How many of the octets are the name's.
    name_len: usize,
    /// The octets of the value where it was given in a list of its own.
    apart: Vec<u8, A>,
    mark: FieldMark,
}

impl<A: Allocator> Model for TableEntry<A> {
    ghost use Rattle.std.specs.Prelude.{◌≡◌, ◌<◌, ◌≤◌, ◌++◌, [], drop, length, take};
    ghost use Rattle.h2_hpack_validity.specs.Mark.{mark_of};
    ghost use Rattle.h2_spec.specs.Hpack.Field as spec;

    ghost Value = { spec.Field };

    ghost view = { λ e. record { name = take e.name_len e.octets.items; value = drop e.name_len e.octets.items ++ e.apart.items } };

    ghost invariant = { λ e. (e.name_len ≤ length e.octets.items) × (e.name_len < length e.octets.items → e.apart.items ≡ []) × (e.mark ≡ mark_of (spec.field (take e.name_len e.octets.items) (drop e.name_len e.octets.items ++ e.apart.items))) };
}

impl<A: Allocator> TableEntry<A> {
    /// The entry of this name and this value; no memory is taken.
    pub fn new(name: Vec<u8, A>, value: Vec<u8, A>) -> Self
        ensures { result ≡ record { name = name.items; value = value.items } }
    {
        let mark = FieldMark::of(name.as_slice(), value.as_slice());
        let name_len = name.len();
        TableEntry {
            octets: name,
            name_len,
            apart: value,
            mark,
        }
    }

    /// The octets of the name.
    pub fn name(&self) -> &[u8]
        ensures { result.now ≡ self.now.name }
    {
        octets_up_to(self.octets.as_slice(), self.name_len)
    }

    /// The octets of the value.
    pub fn value(&self) -> &[u8]
        ensures { result.now ≡ self.now.value }
    {
        if self.name_len < self.octets.len() {
            octets_from(self.octets.as_slice(), self.name_len)
        } else {
            self.apart.as_slice()
        }
    }

    /// How many octets it has places for.
    pub(crate) fn places(&self) -> usize {
        self.octets.capacity().saturating_add(self.apart.capacity())
    }

    /// What the entry can be malformed for by itself.
    pub fn mark(&self) -> FieldMark
        ensures { result ≡ mark_of self.now }
    {
        self.mark
    }
}

impl<A: Allocator + Copy> TableEntry<A> {
    /// The entry of this name and this value, in memory of its own; `mark` is their mark.
    ///
    /// # Errors
    ///
    /// `AllocError` where the memory was refused.
    pub fn of(
        alloc: A,
        name: &[u8],
        value: &[u8],
        mark: FieldMark,
    ) -> Result<TableEntry<A>, AllocError>
        requires marked { mark ≡ mark_of (field name.now value.now) }
        ensures { IfOk result (λ entry. entry ≡ record { name = name.now; value = value.now }) }
    {
        Ok(TableEntry {
            octets: joined(alloc, name, value)?,
            name_len: name.len(),
            apart: Vec::new(alloc),
            mark,
        })
    }

    /// The entry of this name and this value, as `of` makes it, in the memory of an entry that is needed no longer
    /// where that is enough.
    ///
    /// # Errors
    ///
    /// `AllocError` where memory was refused.
    pub(crate) fn again(
        self,
        name: &[u8],
        value: &[u8],
        mark: FieldMark,
    ) -> Result<TableEntry<A>, AllocError>
        requires marked { mark ≡ mark_of (field name.now value.now) }
        ensures { IfOk result (λ entry. entry ≡ record { name = name.now; value = value.now }) }
    {
        let none = Vec::new(*self.octets.allocator());
        Ok(TableEntry {
            octets: refilled(self.octets, name, value)?,
            name_len: name.len(),
            apart: none,
            mark,
        })
    }

    /// A copy of the entry, in memory of its own.
    ///
    /// # Errors
    ///
    /// `AllocError` where the memory was refused; `self` is as it was.
    pub fn try_clone(&self) -> Result<TableEntry<A>, AllocError>
        ensures same { IfOk result (λ copy. copy ≡ self.now) }
    {
        Ok(TableEntry {
            octets: self.octets.clone()?,
            name_len: self.name_len,
            apart: self.apart.clone()?,
            mark: self.mark,
        })
    }
}

/// A name and a value in one list, in memory of just their length.
pub(crate) fn joined<A: Allocator + Copy>(
    alloc: A,
    name: &[u8],
    value: &[u8],
) -> Result<Vec<u8, A>, AllocError>
    ensures { IfOk result (λ list. list.items ≡ name.now ++ value.now) }
{
    let mut list = Vec::with_capacity(alloc, name.len() + value.len())?;
    list.extend_from_slice(name)?;
    list.extend_from_slice(value)?;
    Ok(list)
}

/// A name and a value in one list, in its memory where that is enough, and in new memory elsewhere.
fn refilled<A: Allocator + Copy>(
    list: Vec<u8, A>,
    name: &[u8],
    value: &[u8],
) -> Result<Vec<u8, A>, AllocError>
    ensures { IfOk result (λ list. list.items ≡ name.now ++ value.now) }
{
    if list.capacity() < name.len() + value.len() {
        return joined(*list.allocator(), name, value);
    }
    let mut list = list;
    list.clear();
    list.extend_from_slice(name)?;
    list.extend_from_slice(value)?;
    Ok(list)
}
