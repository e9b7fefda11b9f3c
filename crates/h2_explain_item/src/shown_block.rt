//! A field block as it is shown: the fields that the connection has decoded, lent, each with how it was spelled.
//! Definitions: `specs/ShownBlock.antt`.

ghost use Rattle.std.specs.Prelude.{◌≡◌, ◌==◌, length, slice_get, None, Some, option_map, OnOk};
ghost use Rattle.h2_spec.specs.Hpack.Instruction.{instr_at};
ghost use Rattle.h2_explain_words.specs.Spelled.{spelling_seen, stopped_at};
ghost use Rattle.h2_hpack_list.specs.Lent.{lent_field};
ghost use Rattle.h2_explain_item.specs.ShownBlock as spec;

use h2_explain_words::spelled::{Spelling, Spellings, Stopped};
use h2_fields::collected::Collected;
use std::alloc::{AllocError, Allocator, Global};
use std::marker::Model;

/// The most that the fields before a field may count for it to be shown, in octets: a list that counts more is an error
/// (RFC 9113, 10.5.1).
const MOST: u64 = 65536;

/// A field as it came: the octets of its name and value, and how it was spelled.
#[derive(Clone, Copy)]
pub struct SpelledField<'f> {
    /// The octets of the name, decoded.
    pub name: &'f [u8],
    /// The octets of the value, decoded.
    pub value: &'f [u8],
    /// Its instruction (RFC 7541, 6).
    pub spelling: Spelling,
}

/// A field that was spelled so, if there is one.
#[inline(always)]
fn spelled_as<'f>(
    field: Option<(&'f [u8], &'f [u8])>,
    spelling: Spelling,
) -> Option<SpelledField<'f>>
    ensures { option_map spec.field_seen result ≡ spec.with_spelling (option_map lent_field field.entry) (spelling_seen spelling) }
{
    match field {
        Some((name, value)) => Some(SpelledField {
            name,
            value,
            spelling,
        }),
        None => None,
    }
}

/// The fields of a block, each with how it was spelled.
pub struct SpelledFields<'f, A: Allocator = Global> {
    /// The fields that the connection has decoded.
    fields: &'f Collected<A>,
    /// The spellings of those that are shown.
    spellings: &'f [Spelling],
}

/// By hand, since a derived `clone` copies field by field.
impl<A: Allocator> Clone for SpelledFields<'_, A> {
    ghost is_clone = { λ x y. y ≡ x };

    ghost is_infallible = { λ _. Unit {0} };

    fn clone(&self) -> Result<Self, AllocError> {
        Ok(*self)
    }
}

impl<A: Allocator> Copy for SpelledFields<'_, A> {}

impl<'f, A: Allocator> SpelledFields<'f, A> {
    /// How many fields are shown.
    pub fn len(&self) -> usize
        ensures { result ≡ length (spec.fields_seen self.now).shown }
    {
        self.spellings.len().min(self.fields.len())
    }

    /// Whether no field is shown.
    pub fn is_empty(&self) -> bool
        ensures { result ≡ (length (spec.fields_seen self.now).shown == 0) }
    {
        self.len() == 0
    }

    /// Whether all fields are shown.
    pub fn is_whole(&self) -> bool
        ensures { result ≡ (length (spec.fields_seen self.now).shown == length (spec.fields_seen self.now).decoded) }
    {
        self.len() == self.fields.len()
    }

    /// All fields that the connection has decoded of the block.
    pub fn decoded(&self) -> &'f Collected<A>
        ensures { result.now.fields ≡ (spec.fields_seen self.now).decoded }
    {
        self.fields
    }

    /// The field that is shown at a place, from 0.
    #[inline(always)]
    pub fn get(&self, place: usize) -> Option<SpelledField<'f>>
        ensures { option_map spec.field_seen result ≡ slice_get (spec.fields_seen self.now).shown place }
    {
        match self.spellings.get(place) {
            Some(spelling) => spelled_as(self.fields.get(place), *spelling),
            None => None,
        }
    }
}

/// A block as it is shown.
pub struct ShownBlock<'f, A: Allocator = Global> {
    /// The table size updates in front of the fields, in octets.
    pub updates: &'f [u64],
    /// The fields.
    pub fields: SpelledFields<'f, A>,
}

/// By hand, since a derived `clone` copies field by field.
impl<A: Allocator> Clone for ShownBlock<'_, A> {
    ghost is_clone = { λ x y. y ≡ x };

    ghost is_infallible = { λ _. Unit {0} };

    fn clone(&self) -> Result<Self, AllocError> {
        Ok(*self)
    }
}

impl<A: Allocator> Copy for ShownBlock<'_, A> {}

/// What fields count with one more, if there is one, in octets; 2^64 - 1 where it is more.
fn size_with(size: u64, field: Option<(&[u8], &[u8])>) -> u64
    ensures { result ≡ spec.size_with size (option_map lent_field field.entry) }
{
    match field {
        Some((name, value)) => size
            .saturating_add(name.len() as u64)
            .saturating_add(value.len() as u64)
            .saturating_add(32),
        None => size,
    }
}

/// How many fields of a list are shown.
#[inline(never)]
fn shown_of<A: Allocator>(fields: &Collected<A>) -> usize
    ensures { result ≡ spec.shown_of 0 fields.now.fields }
{
    let mut size = 0;
    for place in 0..fields.len() {
        if size > MOST {
            return place;
        }
        size = size_with(size, fields.get(place));
    }
    fields.len()
}

/// The first spellings, up to this many, or all.
fn up_to(most: Option<usize>, given: &[Spelling]) -> &[Spelling]
    ensures { result.now ≡ spec.up_to most given.now }
{
    match most {
        Some(most) => {
            if most < given.len() {
                &given[..most]
            } else {
                given
            }
        }
        None => given,
    }
}

/// The spellings of the blocks of one side of a connection, and how many of the fields of the last one are shown: those
/// before which the others count at most 65,536 octets, 32 each beside their own.
#[derive(Drop)]
pub struct BlockReader<A: Allocator = Global> {
    spellings: Spellings<A>,
    /// How many fields are shown, where not all are.
    most: Option<usize>,
}

impl<A: Allocator> Model for BlockReader<A> {
    ghost use Rattle.h2_explain_item.specs.ShownBlock.{BlocksRead};

    ghost Value = { BlocksRead };

    ghost view = { λ b. record { block = b.spellings; most = b.most } };
}

impl<A: Allocator + Copy> BlockReader<A> {
    /// No block was read. Takes no memory.
    pub fn new(alloc: A) -> Self
        ensures { result ≡ spec.unread }
    {
        BlockReader {
            spellings: Spellings::new(alloc),
            most: None,
        }
    }

    /// A new block begins.
    pub fn begin(&mut self)
        ensures { self.new ≡ spec.unread }
    {
        self.spellings.begin();
        self.most = None;
    }

    /// Reads a fragment more, with which the block has these fields; `limit` is the most octets of the header table.
    ///
    /// # Errors
    ///
    /// `AllocError` where memory was refused; the block should not be read any further.
    pub fn read(
        &mut self,
        fields: &Collected<A>,
        limit: u32,
        fragment: &[u8],
    ) -> Result<(), AllocError>
        ensures { OnOk result (self.new ≡ spec.read_on self.old fields.now.fields limit fragment.now) }
    {
        self.spellings.read(fields.len(), limit, fragment)?;
        if self.most.is_none() && fields.list_size() > MOST {
            self.most = Some(shown_of(fields));
        }
        Ok(())
    }

    /// The block so far, as it is shown, where it has these fields.
    pub fn block<'f>(&'f self, fields: &'f Collected<A>) -> ShownBlock<'f, A>
        ensures updates { result.updates.now ≡ self.now.block.taken.updates }
        ensures fields { spec.fields_seen result.fields ≡ spec.shown_fields self.now fields.now.fields }
    {
        ShownBlock {
            updates: self.spellings.updates(),
            fields: SpelledFields {
                fields,
                spellings: up_to(self.most, self.spellings.given()),
            },
        }
    }

    /// All fields of the block so far, also those that are not shown, where it has these.
    pub fn all_fields<'f>(&'f self, fields: &'f Collected<A>) -> SpelledFields<'f, A>
        ensures { spec.fields_seen result ≡ spec.all_fields self.now fields.now.fields }
    {
        SpelledFields {
            fields,
            spellings: self.spellings.given(),
        }
    }

    /// What decoding of the block stopped at, if it did; `is_index` says whether it was an index that no entry has.
    pub fn stopped(&self, is_index: bool) -> Option<Stopped>
        ensures { result ≡ stopped_at is_index (instr_at self.now.block.rest) }
    {
        self.spellings.stopped(is_index)
    }

    /// How many octets there are after the instructions that were carried out.
    pub fn cut(&self) -> usize
        ensures { result ≡ length self.now.block.rest }
    {
        self.spellings.cut()
    }

    /// These octets: they begin with the instruction that is not whole, or was refused.
    pub fn rest(&self) -> &[u8]
        ensures { result.now ≡ self.now.block.rest }
    {
        self.spellings.rest()
    }
}
