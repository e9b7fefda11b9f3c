//! A list of header fields in one list of octets, whose memory is used again for the next field block. A field is a
//! span of the octets, as `specs/Spans.antt` has it.
#![tactic(auto)]

ghost use Rattle.std.specs.Prelude.{◌≡◌, ◌↔◌, ℕ, ◌≤◌, List, [], ◌∷◌, ◌++◌, take, drop, length, slice_get, option_map, IfOk, IsErrOf, OnOk, OnErr};
ghost use Rattle.h2_spec.specs.Hpack.Field.{field};
ghost use Rattle.h2_prim.specs.declared.fault.HuffFault.TheVariants as fault;
ghost use Rattle.h2_spec.specs.Hpack.Huffman.{Text, Eos, Padding, huffman_text};
ghost use Rattle.h2_hpack_list.specs.Lent.{lent_field};
ghost use Rattle.h2_hpack_list.specs.Spans.{AreSpans, IsOrdered, IsPart, field_in};

mod fold;

pub use fold::FoldedFields;
use h2_prim::{HuffFault, huff_append};
use std::alloc::{AllocError, Allocator};
use std::marker::Model;

/// The most octets whose memory an empty list keeps.
const MAX_KEPT_OCTETS: usize = 16_384;

/// The most fields for whose places an empty list keeps the memory.
const MAX_KEPT_FIELDS: usize = 512;

/// The most octets of a list: places in it are numbers of 32 bits.
const MAX_OCTETS: usize = 4_294_967_295;

/// A part of a list of octets: from a place up to another.
#[derive(Clone, Copy)]
struct OctetRange {
    start: u32,
    end: u32,
}

/// A field as two parts of a list of octets, and how long the list was before the field was added and with it. A part
/// may be that of an earlier field.
#[derive(Clone, Copy)]
struct Span {
    name: OctetRange,
    value: OctetRange,
    start: u32,
    end: u32,
}

/// A span of no octets.
const NOTHING: Span = Span {
    name: OctetRange { start: 0, end: 0 },
    value: OctetRange { start: 0, end: 0 },
    start: 0,
    end: 0,
};

/// A list of header fields, and after them the octets of a next field that is not complete yet. Fields can share
/// octets: `append_like` and `close_named` do not add those of a name or a value that an earlier field has.
#[derive(Drop)]
pub struct FieldList<A: Allocator> {
    octets: Vec<u8, A>,
    spans: Vec<Span, A>,
    start: usize,
}

impl<A: Allocator> Model for FieldList<A> {
    ghost use Rattle.std.specs.Prelude.{◌≤◌, map, take, drop, length};
    ghost use Rattle.h2_hpack_list.specs.Listed.{Listed};
    ghost use Rattle.h2_hpack_list.specs.Spans.{AreSpans, field_in};

    ghost Value = { Listed };

    ghost view = { λ l. record { fields = map (field_in (take l.start l.octets.items)) l.spans.items; next = drop l.start l.octets.items } };

    ghost invariant = { λ l. (l.start ≤ length l.octets.items) × AreSpans 0 l.spans.items l.start };
}

impl<A: Allocator> FieldList<A> {
    /// An empty list. Takes no memory.
    pub fn new(alloc: A) -> Self
    where
        A: Copy,
        ensures { result ≡ record { fields = []; next = [] } }
    {
        FieldList {
            octets: Vec::new(alloc),
            spans: Vec::new(alloc),
            start: 0,
        }
    }

    /// Removes all fields and the octets of the next one. The memory is kept for other fields, except that a list of
    /// more than 16,384 octets is freed, and so is one of places for more than 512 fields.
    pub fn clear(&mut self)
        ensures { self.new ≡ record { fields = []; next = [] } }
    {
        self.octets.clear();
        if self.octets.capacity() > MAX_KEPT_OCTETS {
            self.octets.shrink_to_fit();
        }
        self.spans.clear();
        if self.spans.capacity() > MAX_KEPT_FIELDS {
            self.spans.shrink_to_fit();
        }
        self.start = 0;
    }

    /// How many fields there are, without the next one.
    pub fn len(&self) -> usize
        ensures { result ≡ length self.now.fields }
    {
        self.spans.len()
    }

    /// The name and the value of the field at a place, counted from 0; none at the length of the list and above.
    pub fn get(&self, place: usize) -> Option<(&[u8], &[u8])>
        ensures { option_map lent_field result ≡ slice_get self.now.fields place }
    {
        if place < self.spans.len() {
            let span = self.spans[place];
            Some(parts(self.octets.as_slice(), span))
        } else {
            None
        }
    }

    /// The octets of the next field so far.
    pub fn next(&self) -> &[u8]
        ensures { result.now ≡ self.now.next }
    {
        self.octets.as_slice().split_at(self.start).1
    }

    /// Adds octets to the next field.
    ///
    /// # Errors
    ///
    /// `AllocError` where memory was refused; nothing has changed.
    pub fn put(&mut self, octets: &[u8]) -> Result<(), AllocError>
        ensures ok { OnOk result (self.new ≡ record self.old { next = self.old.next ++ octets.now }) }
        ensures err { OnErr result (self.new ≡ self.old) }
    {
        self.octets.extend_from_slice(octets)
    }

    /// Adds the text that the octets are the Huffman string of to the next field (RFC 7541, 5.2).
    ///
    /// # Errors
    ///
    /// `Eos` where the whole code of the end of a string is in the octets, `Padding` where they are neither a text nor
    /// that, `NoMemory` where they are a text and memory was refused; nothing has changed.
    pub fn put_huffman(&mut self, octets: &[u8]) -> Result<(), HuffFault>
        ensures text { OnOk result ((text : List ℕ) × (huffman_text octets.now ≡ Text text) × (self.new ≡ record self.old { next = self.old.next ++ text })) }
        ensures unchanged { OnErr result (self.new ≡ self.old) }
        ensures eos { IsErrOf result fault.Eos ↔ (huffman_text octets.now ≡ Eos) }
        ensures padding { IsErrOf result fault.Padding ↔ (huffman_text octets.now ≡ Padding) }
    {
        huff_append(octets, &mut self.octets)
    }

    /// Removes the octets of the next field.
    pub fn clear_next(&mut self)
        ensures { self.new ≡ record self.old { next = [] } }
    {
        self.octets.truncate(self.start);
    }

    /// Makes the octets of the next field a field: the first `name` of them are its name, the others its value.
    ///
    /// # Errors
    ///
    /// `AllocError` where memory was refused; nothing has changed.
    pub fn close(&mut self, name: usize) -> Result<(), AllocError>
        requires within { name ≤ length self.old.next }
        ensures ok { OnOk result (self.new ≡ record { fields = self.old.fields ++ field (take name self.old.next) (drop name self.old.next) ∷ []; next = [] }) }
        ensures err { OnErr result (self.new ≡ self.old) }
    {
        let split = self.start + name;
        let end = self.octets.len();
        if end > MAX_OCTETS {
            return Err(AllocError);
        }
        self.spans.push(Span {
            name: OctetRange {
                start: self.start as u32,
                end: split as u32,
            },
            value: OctetRange {
                start: split as u32,
                end: end as u32,
            },
            start: self.start as u32,
            end: end as u32,
        })?;
        self.start = end;
        Ok(())
    }

    /// Makes the octets of the next field the value of a field with this name. `like` is the place of a field that may
    /// have the same name: then its octets are shared; any number is allowed.
    ///
    /// # Errors
    ///
    /// `AllocError` where memory was refused; the fields are as they were.
    pub fn close_named(&mut self, like: usize, name: &[u8]) -> Result<(), AllocError>
        ensures ok { OnOk result (self.new ≡ record { fields = self.old.fields ++ field name.now self.old.next ∷ []; next = [] }) }
        ensures err { OnErr result (self.new.fields ≡ self.old.fields) }
    {
        let before = self.octets.len();
        if before > MAX_OCTETS {
            return Err(AllocError);
        }
        let value = OctetRange {
            start: self.start as u32,
            end: before as u32,
        };
        let earlier = span_at(self.spans.as_slice(), like);
        let name = put_part(&mut self.octets, earlier.name, name)?;
        let end = self.octets.len();
        self.spans.push(Span {
            name,
            value,
            start: self.start as u32,
            end: end as u32,
        })?;
        self.start = end;
        Ok(())
    }

    /// Adds a field after the others, instead of octets of a next field. `like` is the place of a field that may have
    /// the same name or the same value: then their octets are shared; any number is allowed.
    ///
    /// # Errors
    ///
    /// `AllocError` where memory was refused; the fields are as they were.
    pub fn append_like(&mut self, like: usize, name: &[u8], value: &[u8]) -> Result<(), AllocError>
        ensures ok { OnOk result (self.new ≡ record { fields = self.old.fields ++ field name.now value.now ∷ []; next = [] }) }
        ensures err { OnErr result (self.new.fields ≡ self.old.fields) }
    {
        self.octets.truncate(self.start);
        let earlier = span_at(self.spans.as_slice(), like);
        let name = put_part(&mut self.octets, earlier.name, name)?;
        let value = put_part(&mut self.octets, earlier.value, value)?;
        let end = self.octets.len();
        self.spans.push(Span {
            name,
            value,
            start: self.start as u32,
            end: end as u32,
        })?;
        self.start = end;
        Ok(())
    }

    /// Adds a field after the others, instead of octets of a next field.
    ///
    /// # Errors
    ///
    /// `AllocError` where memory was refused; the fields are as they were.
    #[inline(always)]
    pub fn append(&mut self, name: &[u8], value: &[u8]) -> Result<(), AllocError>
        ensures ok { OnOk result (self.new ≡ record { fields = self.old.fields ++ field name.now value.now ∷ []; next = [] }) }
        ensures err { OnErr result (self.new.fields ≡ self.old.fields) }
    {
        self.clear_next();
        self.put(name)?;
        self.put(value)?;
        self.close(name.len())
    }

    /// Removes all fields but the first `count`, and the octets of the next one.
    pub fn truncate(&mut self, count: usize)
        ensures { self.new ≡ record { fields = take count self.old.fields; next = [] } }
    {
        if count < self.spans.len() {
            let start = self.spans[count].start as usize;
            self.octets.truncate(start);
            self.spans.truncate(count);
            self.start = start;
        } else {
            self.octets.truncate(self.start);
        }
    }
}

impl<A: Allocator + Copy> FieldList<A> {
    /// The allocator of the list.
    pub fn allocator(&self) -> A {
        *self.octets.allocator()
    }

    /// A copy of the list, in memory of its own.
    ///
    /// # Errors
    ///
    /// `AllocError` where memory was refused; `self` is as it was.
    pub fn try_clone(&self) -> Result<FieldList<A>, AllocError>
        ensures same { IfOk result (λ copy. copy ≡ self.now) }
    {
        Ok(FieldList {
            octets: self.octets.clone()?,
            spans: self.spans.clone()?,
            start: self.start,
        })
    }
}

/// The name and the value of a span that is within the octets.
fn parts(octets: &[u8], span: Span) -> (&[u8], &[u8])
    requires ordered { IsOrdered span }
    requires within { span.end ≤ length octets.now }
    ensures { lent_field result ≡ field_in octets.now span }
{
    (
        &octets[span.name.start as usize..span.name.end as usize],
        &octets[span.value.start as usize..span.value.end as usize],
    )
}

/// The span at a place, or one of no octets where there is none.
fn span_at(spans: &[Span], place: usize) -> Span
    ensures { (end : ℕ) → AreSpans 0 spans.now end → IsOrdered result × (result.end ≤ end) }
{
    if place < spans.len() {
        spans[place]
    } else {
        NOTHING
    }
}

/// The part that is these octets: an earlier one where it is the same, or else what is added at the end.
fn put_part<A: Allocator>(
    octets: &mut Vec<u8, A>,
    earlier: OctetRange,
    text: &[u8],
) -> Result<OctetRange, AllocError>
    requires ordered { earlier.start ≤ earlier.end }
    requires within { earlier.end ≤ length octets.old.items }
    ensures ok { IfOk result (λ part. IsPart part octets.new.items text.now) }
    ensures short { OnOk result (length octets.new.items ≤ 4294967295) }
    ensures kept { take (length octets.old.items) octets.new.items ≡ octets.old.items }
{
    let start = octets.len();
    let end = start.saturating_add(text.len());
    if end > MAX_OCTETS {
        return Err(AllocError);
    }
    if &octets[earlier.start as usize..earlier.end as usize] == text {
        return Ok(earlier);
    }
    octets.extend_from_slice(text)?;
    Ok(OctetRange {
        start: start as u32,
        end: end as u32,
    })
}
