//! Fields of a field block in batches, which do not change any more and are shared by the copies of the block.
//! Contracts see the fields alone, one batch after another. Definitions: `specs/Batches.antt`.

ghost use Rattle.std.specs.Prelude.{◌≡◌, ◌+◌, ◌-◌, ◌^◌, ◌<◌, ◌≤◌, [], ◌++◌, true, length, map, drop, take, slice_get, option_map, IfErr, IfOk, IfSome, OnErr, OnOk};
ghost use Rattle.h2_hpack_validity.specs.Mark.{mark_of};
ghost use Rattle.h2_hpack_list.specs.Lent.{lent_field};
ghost use Rattle.h2_table.specs.Lent.{field_lent, IsMarked};
ghost use Rattle.h2_fields.specs.Batches.{AreBatches, before};

use h2_hpack_list::{FieldList, FoldedFields};
use h2_hpack_validity::FieldMark;
use h2_table::LentField;
use std::alloc::{AllocError, Allocator};
use std::marker::Model;
use std::rc::Rc;

/// The most fields that are in batches: their number stays far below the greatest `usize`.
const MAX_FIELDS: usize = 4_294_967_295;

/// How many fields a batch has at least that blocks share which are kept one after another, or how many octets: a smaller one is
/// made again, together with the fields after it.
const MIN_SHARED_AGAIN: usize = 32;

/// How many octets that are at least.
const MIN_OCTETS_SHARED_AGAIN: usize = 512;

/// The field of a list at a place with its mark, where these are the marks of all of them; none at the length of the
/// list and above.
pub(crate) fn lent_at<'a, A: Allocator>(
    list: &'a FieldList<A>,
    marks: &[FieldMark],
    place: usize,
) -> Option<LentField<'a>>
    requires marked { marks.now ≡ map mark_of list.now.fields }
    ensures field { option_map field_lent result ≡ slice_get list.now.fields place }
    ensures marked { IfSome result IsMarked }
{
    if place >= marks.len() {
        return None;
    }
    let (name, value) = list.get(place)?;
    Some(LentField {
        name,
        value,
        mark: marks[place],
    })
}

/// The first fields of a batch, and how many there are before them. What a field can be malformed for is found anew where it is
/// lent: a block of more than 1,024 fields is seldom looked at, since most are refused for their size.
#[derive(Drop)]
struct Shared<A: Allocator> {
    batch: Rc<FoldedFields<A>, A>,
    start: u32,
    count: u32,
}

impl<A: Allocator> Model for Shared<A> {
    ghost use Rattle.std.specs.Prelude.{◌≤◌, length, take};
    ghost use Rattle.h2_fields.specs.Batches.{FieldsFrom};

    ghost Value = { FieldsFrom };

    ghost view = { λ s. record { start = s.start; fields = take s.count s.batch.value } };

    ghost invariant = { λ s. s.count ≤ length s.batch.value };
}

impl<A: Allocator> Clone for Shared<A> {
    ghost use Rattle.std.specs.Prelude.{◌≡◌};

    ghost is_clone = { λ s copy. copy ≡ s };

    fn clone(&self) -> Result<Shared<A>, AllocError> {
        Ok(Shared {
            batch: self.batch.clone()?,
            start: self.start,
            count: self.count,
        })
    }
}

impl<A: Allocator> Shared<A> {
    /// The name and the value of the field at a place; none at the number of fields and above.
    fn get(&self, place: usize) -> Option<(&[u8], &[u8])>
        ensures { option_map lent_field result ≡ slice_get self.now.fields place }
    {
        if place >= self.count as usize {
            return None;
        }
        self.batch.as_ref().get(place)
    }

    /// The field at a place with its mark; none at the number of fields and above.
    fn lent(&self, place: usize) -> Option<LentField<'_>>
        ensures field { option_map field_lent result ≡ slice_get self.now.fields place }
        ensures marked { IfSome result IsMarked }
    {
        let (name, value) = self.get(place)?;
        let mark = FieldMark::of(name, value);
        Some(LentField { name, value, mark })
    }

    /// Drops the fields from this number on, those before the batch counted.
    fn cut(&mut self, bound: usize)
        ensures { self.new ≡ record self.old { fields = take (bound - self.old.start) self.old.fields } }
    {
        let most = bound.saturating_sub(self.start as usize);
        if most < self.count as usize {
            self.count = most as u32;
        }
    }
}

/// Batches of fields, one after another.
#[derive(Drop)]
pub(crate) struct Batches<A: Allocator> {
    batches: Vec<Shared<A>, A>,
    count: usize,
}

impl<A: Allocator> Model for Batches<A> {
    ghost use Rattle.std.specs.Prelude.{◌≡◌, ◌≤◌, List, length};
    ghost use Rattle.h2_spec.specs.Hpack.Field.{Field};
    ghost use Rattle.h2_fields.specs.Batches.{AreBatches, fields_in};

    ghost Value = { List Field };

    ghost view = { λ b. fields_in b.batches.items };

    ghost invariant = { λ b. AreBatches 0 b.batches.items × (b.count ≡ length (fields_in b.batches.items)) × (b.count ≤ 4294967295) };
}

impl<A: Allocator> Batches<A> {
    /// No fields. Takes no memory.
    pub(crate) fn new(alloc: A) -> Self
        ensures { result ≡ [] }
    {
        Batches {
            batches: Vec::new(alloc),
            count: 0,
        }
    }

    /// Drops all fields.
    pub(crate) fn clear(&mut self)
        ensures { self.new ≡ [] }
    {
        self.batches.clear();
        self.count = 0;
    }

    /// How many fields there are.
    pub(crate) fn len(&self) -> usize
        ensures count { result ≡ length self.now }
        ensures few { result ≤ 4294967295 }
    {
        self.count
    }

    /// The field at a place with its mark; none at `len()` and above.
    pub(crate) fn lent(&self, place: usize) -> Option<LentField<'_>>
        ensures field { option_map field_lent result ≡ slice_get self.now place }
        ensures marked { IfSome result IsMarked }
    {
        if place >= self.count {
            return None;
        }
        let before = batches_before(self.batches.as_slice(), place + 1);
        let shared = &self.batches[before - 1];
        shared.lent(place - shared.start as usize)
    }

    /// Drops all fields but the first `count`. Takes no memory.
    pub(crate) fn truncate(&mut self, count: usize)
        ensures { self.new ≡ take count self.old }
    {
        if count >= self.count {
            return;
        }
        let before = batches_before(self.batches.as_slice(), count);
        self.batches.truncate(before);
        self.count = count;
        if before > 0 {
            self.batches[before - 1].cut(count);
        }
    }
}

/// How many batches begin before this number of fields.
fn batches_before<A: Allocator>(batches: &[Shared<A>], bound: usize) -> usize
    requires { AreBatches 0 batches.now }
    ensures value { result ≡ before bound batches.now }
    ensures within { result ≤ length batches.now }
{
    batches.partition_point(|shared| (shared.start as usize) < bound)
}

impl<A: Allocator> Shared<A> {
    /// Whether to have the fields in memory once more costs more than a reference to them.
    fn is_large(&self) -> bool {
        if self.count as usize >= MIN_SHARED_AGAIN {
            return true;
        }
        let mut octets = 0_usize;
        for place in 0..self.count as usize {
            if let Some((name, value)) = self.get(place) {
                octets = octets
                    .saturating_add(name.len())
                    .saturating_add(value.len());
            }
        }
        octets >= MIN_OCTETS_SHARED_AGAIN
    }

    /// Whether these fields are in a list from a place on.
    fn is_in(&self, list: &FieldList<A>, from: usize) -> bool
        ensures within { result ≡ true → from + length self.now.fields ≤ length list.now.fields }
        ensures few { result ≡ true → from + length self.now.fields < 2 ^ 64 }
        ensures same { result ≡ true → self.now.fields ≡ take (length self.now.fields) (drop from list.now.fields) }
    {
        let count = self.count as usize;
        if from > list.len() || list.len() - from < count {
            return false;
        }
        for place in 0..count {
            if !is_same(self.get(place), list.get(from + place)) {
                return false;
            }
        }
        true
    }
}

/// Whether there are two fields, and they are the same.
fn is_same(one: Option<(&[u8], &[u8])>, other: Option<(&[u8], &[u8])>) -> bool
    ensures { result ≡ true → option_map lent_field one.entry ≡ option_map lent_field other.entry }
{
    match (one, other) {
        (Some(one), Some(other)) => one.0 == other.0 && one.1 == other.1,
        _ => false,
    }
}

impl<A: Allocator + Copy> Batches<A> {
    /// Puts a batch of another block after the others, without those of its fields that were dropped there.
    ///
    /// # Errors
    ///
    /// `AllocError` where memory was refused, or there would be more than 4,294,967,295 fields; nothing has changed.
    fn push_shared(&mut self, shared: &Shared<A>) -> Result<(), AllocError>
        ensures ok { OnOk result (self.new ≡ self.old ++ shared.now.fields) }
        ensures unchanged { OnErr result (self.new ≡ self.old) }
    {
        let count = shared.count as usize;
        if count > MAX_FIELDS - self.count {
            return Err(AllocError);
        }
        let batch = shared.batch.clone()?;
        self.batches.push(Shared {
            batch,
            start: self.count as u32,
            count: shared.count,
        })?;
        self.count += count;
        Ok(())
    }

    /// Puts the first fields of a list after the others, as far as another block has them in batches at that place, which both
    /// share then; and says how many these are.
    ///
    /// # Errors
    ///
    /// `AllocError` where memory was refused.
    fn go_on(&mut self, other: &Batches<A>, list: &FieldList<A>) -> Result<usize, AllocError>
        ensures { IfOk result (λ taken. (taken ≤ length list.now.fields) × (self.new ≡ self.old ++ take taken list.now.fields)) }
    {
        let mut taken = 0;
        let first = batches_before(other.batches.as_slice(), self.count);
        for shared in &other.batches.as_slice()[first..] {
            if !shared.is_large() || !shared.is_in(list, taken) {
                return Ok(taken);
            }
            self.push_shared(shared)?;
            taken += shared.count as usize;
        }
        Ok(taken)
    }

    /// Puts the fields of a list from a place on after the others, as a batch, if there are any. `AllocError` where memory was
    /// refused.
    fn push_rest(&mut self, list: &FieldList<A>, taken: usize) -> Result<(), AllocError>
        ensures { OnOk result (self.new ≡ self.old ++ drop taken list.now.fields) }
    {
        if taken >= list.len() {
            return Ok(());
        }
        let rest = list.copy_from(taken)?;
        self.push(&rest)
    }

    /// A copy of the batches with the fields of a list after them, which are in batches too: in those of `earlier` where it has the
    /// same fields there.
    ///
    /// # Errors
    ///
    /// `AllocError` where memory was refused; `self` is as it was.
    pub(crate) fn with_list(
        &self,
        earlier: Option<&Batches<A>>,
        list: &FieldList<A>,
    ) -> Result<Self, AllocError>
        ensures { IfOk result (λ all. all ≡ self.now ++ list.now.fields) }
    {
        let mut all = self.try_clone()?;
        let Some(earlier) = earlier else {
            all.push_rest(list, 0)?;
            return Ok(all);
        };
        let taken = all.go_on(earlier, list)?;
        all.push_rest(list, taken)?;
        Ok(all)
    }

    /// Puts the fields of a list after the others, as a batch.
    ///
    /// # Errors
    ///
    /// `AllocError` where memory was refused, or there would be more than 4,294,967,295 fields; nothing has changed.
    pub(crate) fn push(&mut self, list: &FieldList<A>) -> Result<(), AllocError>
        ensures ok { OnOk result (self.new ≡ self.old ++ list.now.fields) }
        ensures unchanged { OnErr result (self.new ≡ self.old) }
    {
        let count = list.len();
        if count > MAX_FIELDS - self.count {
            return Err(AllocError);
        }
        let fields = list.fold()?;
        self.batches.reserve(1)?;
        match Rc::new(*self.batches.allocator(), fields) {
            Ok(batch) => {
                self.batches.push_reserved(Shared {
                    batch,
                    start: self.count as u32,
                    count: count as u32,
                });
                self.count += count;
                Ok(())
            }
            Err(_) => Err(AllocError),
        }
    }

    /// A copy of the batches; their fields are not copied.
    ///
    /// # Errors
    ///
    /// `AllocError` where memory was refused; `self` is as it was.
    pub(crate) fn try_clone(&self) -> Result<Self, AllocError>
        ensures { IfOk result (λ copy. copy ≡ self.now) }
    {
        let batches = self.batches.clone()?;
        Ok(Batches {
            batches,
            count: self.count,
        })
    }
}
