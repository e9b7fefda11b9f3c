//! Header fields that do not change any more, in little memory: of a field whose octets are all those of an earlier one
//! there is only the place of that one. Definitions: `specs/Folded.antt`.

ghost use Rattle.std.specs.Prelude.{◌≡◌, ℕ, ◌<◌, ◌≤◌, List, [], true, drop, take, length, map, slice_get, option_map, IfOk};
ghost use Rattle.h2_hpack_list.specs.Lent.{lent_field};
ghost use Rattle.h2_hpack_list.specs.Spans.{AreSpans, IsOrdered, between, field_in};
ghost use Rattle.h2_hpack_list.specs.Folded.{AreBelow, AreWithin, chosen, field_at};

use crate::{FieldList, OctetRange, Span, parts};
use std::alloc::{AllocError, Allocator};
use std::marker::Model;

/// No place of a field: there are fewer.
const NO_PLACE: u32 = 4_294_967_295;

/// Header fields that do not change any more, in little memory.
#[derive(Drop)]
pub struct FoldedFields<A: Allocator> {
    octets: Vec<u8, A>,
    /// The spans of fields whose octets are not all those of an earlier one.
    spans: Vec<Span, A>,
    /// Where among those the span of each field is.
    places: Vec<u32, A>,
}

impl<A: Allocator> Model for FoldedFields<A> {
    ghost use Rattle.std.specs.Prelude.{List, length};
    ghost use Rattle.h2_spec.specs.Hpack.Field.{Field};
    ghost use Rattle.h2_hpack_list.specs.Folded.{AreBelow, AreWithin, chosen};

    ghost Value = { List Field };

    ghost view = { λ f. chosen f.octets.items f.spans.items f.places.items };

    ghost invariant = { λ f. AreBelow (length f.spans.items) f.places.items × AreWithin (length f.octets.items) f.spans.items };
}

impl<A: Allocator> FoldedFields<A> {
    /// The name and the value of the field at a place, counted from 0; none at the number of fields and above.
    pub fn get(&self, place: usize) -> Option<(&[u8], &[u8])>
        ensures { option_map lent_field result ≡ slice_get self.now place }
    {
        if place >= self.places.len() {
            return None;
        }
        let span = self.spans[self.places[place] as usize];
        Some(parts(self.octets.as_slice(), span))
    }
}

impl<A: Allocator + Copy> FieldList<A> {
    /// The fields in little memory, which is their own.
    ///
    /// # Errors
    ///
    /// `AllocError` where memory was refused; `self` is as it was.
    pub fn fold(&self) -> Result<FoldedFields<A>, AllocError>
        ensures same { IfOk result (λ folded. folded ≡ self.now.fields) }
    {
        let mut octets = Vec::new(self.allocator());
        octets.extend_from_slice(&self.octets.as_slice()[..self.start])?;
        let (spans, places) = fold_spans(self.spans.as_slice(), self.start, self.allocator())?;
        Ok(FoldedFields {
            octets,
            spans,
            places,
        })
    }
}

impl<A: Allocator + Copy> FieldList<A> {
    /// The fields from a place on, as a list in memory of its own, in which fields share octets as here.
    ///
    /// # Errors
    ///
    /// `AllocError` where memory was refused; `self` is as it was.
    pub fn copy_from(&self, from: usize) -> Result<FieldList<A>, AllocError>
        ensures same { IfOk result (λ copy. copy ≡ record { fields = drop from self.now.fields; next = [] }) }
    {
        let mut copy = FieldList::new(self.allocator());
        let mut seen = Vec::new(self.allocator());
        seen.resize(self.start.saturating_add(1), NO_PLACE)?;
        for place in from..self.len() {
            if let Some((name, value)) = self.get(place) {
                let start = self.spans[place].name.start as usize;
                let like = place_seen(seen.as_slice(), start);
                copy.append_like(like as usize, name, value)?;
                see(&mut seen, start, place - from);
            }
        }
        Ok(copy)
    }
}

// For each place where a name or value can start it is noted which span was seen there last. Nothing is
// hashed, so a peer can't make two fields collide.
/// The spans without those of which each is an earlier one, and the place of each in them. `last` is the greatest place of an
/// octet at which one can start: where it is not, more spans are there twice.
fn fold_spans<A: Allocator + Copy>(
    list: &[Span],
    last: usize,
    alloc: A,
) -> Result<(Vec<Span, A>, Vec<u32, A>), AllocError>
    ensures below { IfOk result (λ folded. AreBelow (length folded.0.items) folded.1.items) }
    ensures within { IfOk result (λ folded. (end : ℕ) → AreSpans 0 list.now end → AreWithin end folded.0.items) }
    ensures same { IfOk result (λ folded. (octets : List ℕ) → chosen octets folded.0.items folded.1.items ≡ map (field_in octets) list.now) }
{
    let mut spans = Vec::new(alloc);
    let mut places = Vec::new(alloc);
    let mut seen = Vec::new(alloc);
    seen.resize(last.saturating_add(1), NO_PLACE)?;
    places.reserve(list.len())?;
    for span in list {
        let place = place_for(&mut spans, &mut seen, *span)?;
        places.push(place)?;
    }
    spans.shrink_to_fit();
    Ok((spans, places))
}

/// The place of a span, which is added where the one that was last seen with the same start is another. `seen` has the place
/// of that, for each start.
fn place_for<A: Allocator>(
    spans: &mut Vec<Span, A>,
    seen: &mut Vec<u32, A>,
    span: Span,
) -> Result<u32, AllocError>
    ensures below { IfOk result (λ place. place < length spans.new.items) }
    ensures is { IfOk result (λ place. (octets : List ℕ) → field_at octets spans.new.items place ≡ field_in octets span) }
    ensures kept { take (length spans.old.items) spans.new.items ≡ spans.old.items }
    ensures within { (end : ℕ) → AreWithin end spans.old.items → IsOrdered span → span.end ≤ end → AreWithin end spans.new.items }
{
    let start = start_of(span);
    let earlier = place_seen(seen.as_slice(), start);
    if (earlier as usize) < spans.len() && is_same(spans[earlier as usize], span) {
        return Ok(earlier);
    }
    let place = spans.len();
    if place >= NO_PLACE as usize {
        return Err(AllocError);
    }
    spans.push(span)?;
    see(seen, start, place);
    Ok(place as u32)
}

/// Notes a place for a start.
fn see<A: Allocator>(seen: &mut Vec<u32, A>, start: usize, place: usize) {
    if start < seen.len() && place < NO_PLACE as usize {
        seen[start] = place as u32;
    }
}

/// What was seen with a start; no place where nothing was.
fn place_seen(seen: &[u32], start: usize) -> u32 {
    if start < seen.len() {
        seen[start]
    } else {
        NO_PLACE
    }
}

/// Where a span starts for which others are looked for: at its value, or its name where the value has no octets.
fn start_of(span: Span) -> usize {
    if span.value.start < span.value.end {
        span.value.start as usize
    } else {
        span.name.start as usize
    }
}

/// Whether two spans have name and value in the same octets.
fn is_same(one: Span, other: Span) -> bool
    ensures { result ≡ true → (octets : List ℕ) → field_in octets one ≡ field_in octets other }
{
    is_same_range(one.name, other.name) && is_same_range(one.value, other.value)
}

/// Whether two ranges are the same, or have both no octets.
fn is_same_range(one: OctetRange, other: OctetRange) -> bool
    ensures { result ≡ true → (octets : List ℕ) → between one.start one.end octets ≡ between other.start other.end octets }
{
    if one.start == one.end {
        return other.start == other.end;
    }
    one.start == other.start && one.end == other.end
}
