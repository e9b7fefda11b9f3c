//! What is wrong with the fields of a block, looked up in the fields themselves (RFC 9113, 8.1 to 8.5): the first field
//! at fault for a sentence, and all the faults of a block. The rules of one field are h2_hpack_validity's.

ghost use Rattle.std.specs.Prelude.{◌≡◌};
ghost use Rattle.std.specs.List.{list_any};
ghost use Rattle.h2_explain_item.specs.FieldFacts.{is_no_digit, is_number};

use crate::shown_block::{SpelledField, SpelledFields};
use h2_hpack_validity::mark::KnownName;
use h2_hpack_validity::octets::{
    is_bad_name, is_bad_value, is_connection_name, is_pseudo_name, is_trailers, number_of,
};
use h2_spec::causes::Cause;
use std::alloc::{AllocError, Allocator};

/// What is wrong with a field.
#[derive(Clone, Copy)]
pub enum FieldFault {
    /// The name is empty, or has an octet that no name has (RFC 9113, 8.2.1).
    Name,
    /// The value has an octet that no value has, or begins or ends with a blank (RFC 9113, 8.2.1).
    Value,
    /// The name is that of a pseudo-field, and of none of a request (RFC 9113, 8.3).
    Unknown,
    /// The name is that of a pseudo-field (RFC 9113, 8.1).
    Pseudo,
    /// The name belongs to connections of HTTP/1.1 (RFC 9113, 8.2.2).
    Connection,
    /// The field is te, with another value than `trailers` (RFC 9113, 8.2.2).
    Te,
    /// The field is content-length (RFC 9113, 8.1.1).
    Length,
}

/// Whether this is wrong with a field.
fn is_wrong(wrong: FieldFault, field: SpelledField<'_>) -> bool {
    let name = field.name;
    let value = field.value;
    match wrong {
        FieldFault::Name => is_bad_name(name),
        FieldFault::Value => is_bad_value(value),
        FieldFault::Unknown => matches!(KnownName::of(name), KnownName::OtherPseudo),
        FieldFault::Pseudo => is_pseudo_name(name),
        FieldFault::Connection => is_connection_name(name),
        FieldFault::Te => name == "te".as_bytes() && !is_trailers(value),
        FieldFault::Length => name == "content-length".as_bytes(),
    }
}

/// The place of the first field from a place on with which this is wrong.
pub fn first_wrong<A: Allocator>(
    wrong: FieldFault,
    from: usize,
    fields: SpelledFields<'_, A>,
) -> Option<usize> {
    for place in from..fields.len() {
        if let Some(field) = fields.get(place) {
            if is_wrong(wrong, field) {
                return Some(place);
            }
        }
    }
    None
}

/// Whether a name is one of those before a place.
fn is_before<A: Allocator>(name: &[u8], place: usize, fields: SpelledFields<'_, A>) -> bool {
    for other in 0..place {
        if let Some(field) = fields.get(other) {
            if field.name == name {
                return true;
            }
        }
    }
    false
}

/// Whether a field has this name.
pub fn has<A: Allocator>(name: &[u8], fields: SpelledFields<'_, A>) -> bool {
    is_before(name, fields.len(), fields)
}

/// The first pseudo-field after a regular field, and that field.
pub fn late_pseudo<'s, A: Allocator>(
    fields: SpelledFields<'s, A>,
) -> Option<(SpelledField<'s>, SpelledField<'s>)> {
    let mut regular = None;
    for place in 0..fields.len() {
        let Some(field) = fields.get(place) else {
            break;
        };
        if !is_pseudo_name(field.name) {
            regular = Some(field);
        } else if let Some(before) = regular {
            return Some((field, before));
        }
    }
    None
}

/// The first pseudo-field that is there twice.
pub fn double_pseudo<'s, A: Allocator>(fields: SpelledFields<'s, A>) -> Option<SpelledField<'s>> {
    for place in 0..fields.len() {
        let Some(field) = fields.get(place) else {
            break;
        };
        let name = field.name;
        if is_pseudo_name(name) && is_before(name, place, fields) {
            return Some(field);
        }
    }
    None
}

/// Whether the method is CONNECT.
pub fn is_connect<A: Allocator>(fields: SpelledFields<'_, A>) -> bool {
    for place in 0..fields.len() {
        let Some(field) = fields.get(place) else {
            break;
        };
        if field.name == ":method".as_bytes() && field.value == "CONNECT".as_bytes() {
            return true;
        }
    }
    false
}

/// The value of the first field with this name.
pub fn value_of<'s, A: Allocator>(name: &[u8], fields: SpelledFields<'s, A>) -> Option<&'s [u8]> {
    for place in 0..fields.len() {
        let Some(field) = fields.get(place) else {
            break;
        };
        if field.name == name {
            return Some(field.value);
        }
    }
    None
}

/// Whether :path is there and empty.
fn has_empty_path<A: Allocator>(fields: SpelledFields<'_, A>) -> bool {
    match value_of(b":path", fields) {
        Some(path) => path.is_empty(),
        None => false,
    }
}

/// Whether a pseudo-field of a request is missing, empty, or there where it may not be (RFC 9113, 8.3.1 and 8.5).
fn is_lacking<A: Allocator>(fields: SpelledFields<'_, A>) -> bool {
    let scheme = has(b":scheme", fields);
    let path = has(b":path", fields);
    if is_connect(fields) {
        return !has(b":authority", fields) || scheme || path;
    }
    !has(b":method", fields) || !scheme || !path || has_empty_path(fields)
}

/// Whether the scheme is there, and is neither http nor https.
pub fn has_other_scheme<A: Allocator>(fields: SpelledFields<'_, A>) -> bool {
    match value_of(b":scheme", fields) {
        Some(scheme) => {
            !scheme.eq_ignore_ascii_case("http".as_bytes())
                && !scheme.eq_ignore_ascii_case("https".as_bytes())
        }
        None => false,
    }
}

/// Whether an octet is no digit.
fn is_no_digit(octet: u8) -> bool
    ensures { result ≡ is_no_digit octet }
{
    !(b'0' <= octet && octet <= b'9')
}

/// Whether an octet of a value is no digit.
fn has_no_digit(value: &[u8]) -> bool
    ensures { result ≡ list_any is_no_digit value.now }
{
    let mut found = false;
    for octet in value {
        found |= is_no_digit(*octet);
    }
    found
}

/// Whether a value is of digits alone, one at least.
pub fn is_number(value: &[u8]) -> bool
    ensures { result ≡ is_number value.now }
{
    !value.is_empty() && !has_no_digit(value)
}

/// What the content-lengths of a block are.
#[derive(Clone, Copy)]
enum Lengths {
    /// One is no number.
    NoNumber,
    /// All are numbers, and one has more than 18 digits.
    Long,
    /// All are numbers of at most 18 digits, if there are any.
    Numbers,
}

/// What the content-lengths of a block are.
fn lengths_of<A: Allocator>(fields: SpelledFields<'_, A>) -> Lengths {
    let mut lengths = Lengths::Numbers;
    for place in 0..fields.len() {
        let Some(field) = fields.get(place) else {
            break;
        };
        if is_wrong(FieldFault::Length, field) {
            let value = field.value;
            if !is_number(value) {
                return Lengths::NoNumber;
            }
            if value.len() > 18 {
                lengths = Lengths::Long;
            }
        }
    }
    lengths
}

/// Whether a content-length is another number than the first.
fn has_other_length<A: Allocator>(fields: SpelledFields<'_, A>) -> bool {
    let mut first = None;
    for place in 0..fields.len() {
        let Some(field) = fields.get(place) else {
            break;
        };
        if is_wrong(FieldFault::Length, field) {
            let number = number_of(field.value);
            if first.is_some() && first != number {
                return true;
            }
            first = number;
        }
    }
    false
}

/// The first content-length that is no number of 1 to 18 digits, or the first of all where there is none.
pub fn refused_length<'s, A: Allocator>(fields: SpelledFields<'s, A>) -> Option<SpelledField<'s>> {
    let mut first = None;
    for place in 0..fields.len() {
        let Some(field) = fields.get(place) else {
            break;
        };
        if is_wrong(FieldFault::Length, field) {
            let value = field.value;
            if !is_number(value) || value.len() > 18 {
                return Some(field);
            }
            if first.is_none() {
                first = Some(field);
            }
        }
    }
    first
}

/// The first content-length that is another number than a value of at most 18 digits.
pub fn other_length<'s, A: Allocator>(
    value: &[u8],
    fields: SpelledFields<'s, A>,
) -> Option<SpelledField<'s>> {
    for place in 0..fields.len() {
        let Some(field) = fields.get(place) else {
            break;
        };
        if is_wrong(FieldFault::Length, field) && number_of(field.value) != number_of(value) {
            return Some(field);
        }
    }
    None
}

/// The first field with which this is wrong.
fn first_with<'s, A: Allocator>(
    wrong: FieldFault,
    fields: SpelledFields<'s, A>,
) -> Option<SpelledField<'s>> {
    match first_wrong(wrong, 0, fields) {
        Some(place) => fields.get(place),
        None => None,
    }
}

/// Whether a content-length is not taken: no number of 1 to 18 digits, or two that differ (RFC 9113, 8.1.1).
fn is_bad_length<A: Allocator>(fields: SpelledFields<'_, A>) -> bool {
    match lengths_of(fields) {
        Lengths::Numbers => has_other_length(fields),
        Lengths::NoNumber | Lengths::Long => true,
    }
}

/// Whether a block declares content other than none (RFC 9113, 8.1.1).
fn declares_content<A: Allocator>(fields: SpelledFields<'_, A>) -> bool {
    match first_with(FieldFault::Length, fields) {
        Some(field) => !is_bad_length(fields) && number_of(field.value) != Some(0),
        None => false,
    }
}

/// The causes for which a request is malformed, in their order.
pub(crate) static OF_REQUESTS: [Cause; 10] = [
    Cause::BadName,
    Cause::BadValue,
    Cause::LatePseudoField,
    Cause::UnknownPseudoField,
    Cause::DoublePseudoField,
    Cause::LackingPseudoField,
    Cause::ConnectionField,
    Cause::BadTe,
    Cause::BadContentLength,
    Cause::ContentMissing,
];

/// The causes for which trailers are malformed, in their order.
pub(crate) static OF_TRAILERS: [Cause; 7] = [
    Cause::TrailersBadName,
    Cause::TrailersBadValue,
    Cause::TrailersPseudoField,
    Cause::TrailersConnectionField,
    Cause::TrailersBadTe,
    Cause::TrailersWithoutEndStream,
    Cause::ContentTooShort,
];

/// A block, as far as its faults depend on more than its fields.
pub struct BlockFields<'s, A: Allocator> {
    /// Its fields in their order.
    pub fields: SpelledFields<'s, A>,
    /// Whether its HEADERS had END_STREAM.
    pub ends: bool,
    /// Whether less content has arrived than was declared.
    pub is_short: bool,
}

/// By hand, since a derived `clone` copies field by field.
impl<A: Allocator> Clone for BlockFields<'_, A> {
    ghost is_clone = { λ x y. y ≡ x };

    ghost is_infallible = { λ _. Unit {0} };

    fn clone(&self) -> Result<Self, AllocError> {
        Ok(*self)
    }
}

impl<A: Allocator> Copy for BlockFields<'_, A> {}

/// What is wrong with a field where a cause holds, if one field by itself shows that.
fn fault_of(cause: Cause) -> Option<FieldFault> {
    match cause {
        Cause::BadName | Cause::TrailersBadName => Some(FieldFault::Name),
        Cause::BadValue | Cause::TrailersBadValue => Some(FieldFault::Value),
        Cause::UnknownPseudoField => Some(FieldFault::Unknown),
        Cause::TrailersPseudoField => Some(FieldFault::Pseudo),
        Cause::ConnectionField | Cause::TrailersConnectionField => Some(FieldFault::Connection),
        Cause::BadTe | Cause::TrailersBadTe => Some(FieldFault::Te),
        _ => None,
    }
}

/// Whether a cause holds of a block.
pub fn holds<A: Allocator>(cause: Cause, block: BlockFields<'_, A>) -> bool {
    let fields = block.fields;
    if let Some(fault) = fault_of(cause) {
        return first_wrong(fault, 0, fields).is_some();
    }
    match cause {
        Cause::LatePseudoField => late_pseudo(fields).is_some(),
        Cause::DoublePseudoField => double_pseudo(fields).is_some(),
        Cause::LackingPseudoField => is_lacking(fields),
        Cause::BadContentLength => is_bad_length(fields),
        Cause::ContentMissing => block.ends && declares_content(fields),
        Cause::TrailersWithoutEndStream => !block.ends,
        Cause::ContentTooShort => block.is_short,
        _ => false,
    }
}

/// The causes among which that of a malformed block is: those of requests or of trailers; none of another cause.
pub fn family_of(cause: Cause) -> &'static [Cause] {
    match cause {
        Cause::BadName
        | Cause::BadValue
        | Cause::LatePseudoField
        | Cause::UnknownPseudoField
        | Cause::DoublePseudoField
        | Cause::LackingPseudoField
        | Cause::ConnectionField
        | Cause::BadTe
        | Cause::BadContentLength
        | Cause::ContentMissing => &OF_REQUESTS,
        Cause::TrailersBadName
        | Cause::TrailersBadValue
        | Cause::TrailersPseudoField
        | Cause::TrailersConnectionField
        | Cause::TrailersBadTe
        | Cause::TrailersWithoutEndStream => &OF_TRAILERS,
        _ => &[],
    }
}
