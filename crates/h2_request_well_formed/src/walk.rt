//! What one walk over a list of fields notes: marks of fields alone, the pseudo-fields, and the content-length. How a
//! field more changes each is `marked`, `noted` and `measured` of specs/Walk.antt, and by the field's mark `marked_by`,
//! `noted_by` and `measured_by` of specs/Marked.antt. That they then say what the definitions test of the whole list is
//! proved in proofs/Seen.antt.

ghost use Rattle.std.specs.Prelude.{◌≡◌, ◌||◌, false, Some, is_some, unwrap_or};
ghost use Rattle.std.specs.Option.{option_copied};
ghost use Rattle.h2_request_well_formed.specs.Fields.{fields_in};
ghost use Rattle.h2_request_well_formed.specs.Marked.{marked_by, noted_by, measured_by, counted};
ghost use Rattle.h2_request_well_formed.specs.Walk.{pseudo_of};
ghost use Rattle.h2_request_well_formed.specs.Seen.{AreSeen};

use crate::fields::Fields;
use h2_hpack_validity::{FieldMark, KnownName, octets};
use std::alloc::Allocator;

/// The marks of all fields of a list together: what some field of it is malformed for by itself.
#[derive(Clone, Copy)]
pub struct ListMark {
    /// A name is empty, has an octet that no name has, or a misplaced colon (RFC 9113, 8.2.1).
    pub bad_name: bool,
    /// A value has an octet that no value has, or begins or ends with a blank (8.2.1).
    pub bad_value: bool,
    /// A name begins with a colon (8.3).
    pub pseudo: bool,
    /// A field is one of an HTTP/1.1 connection (8.2.2).
    pub of_connection: bool,
    /// A `te` field is not `trailers` (8.2.2).
    pub bad_te: bool,
}

impl ListMark {
    /// Of no field.
    pub fn none() -> Self
        ensures { result ≡ record { bad_name = false; bad_value = false; pseudo = false; of_connection = false; bad_te = false } }
    {
        ListMark {
            bad_name: false,
            bad_value: false,
            pseudo: false,
            of_connection: false,
            bad_te: false,
        }
    }

    /// With the mark of one field more.
    pub fn with(self, mark: FieldMark) -> Self
        ensures { result ≡ marked_by self mark }
    {
        ListMark {
            bad_name: self.bad_name || mark.bad_name,
            bad_value: self.bad_value || mark.bad_value,
            pseudo: self.pseudo || mark.known.is_pseudo(),
            of_connection: self.of_connection || mark.known.is_of_connection(),
            bad_te: self.bad_te || mark.bad_te,
        }
    }
}

/// The pseudo-fields of a request: the first value of each, and the reason against them.
#[derive(Clone, Copy)]
pub struct PseudoFields<'a> {
    /// Whether a field was no pseudo-field.
    pub regular: bool,
    /// Whether a pseudo-field came after such a field (RFC 9113, 8.3).
    pub late: bool,
    /// Whether a pseudo-field is none of the four of a request (8.3.1).
    pub unknown: bool,
    /// Whether one of the four is there twice.
    pub double: bool,
    /// The first value of `:method`.
    pub method: Option<&'a [u8]>,
    /// The first value of `:scheme`.
    pub scheme: Option<&'a [u8]>,
    /// The first value of `:path`.
    pub path: Option<&'a [u8]>,
    /// The first value of `:authority`.
    pub authority: Option<&'a [u8]>,
}

impl<'a> PseudoFields<'a> {
    /// Of no field; the values are lent by these.
    pub fn none<A: Allocator>(_lender: &Fields<'a, A>) -> Self
        ensures { pseudo_of result ≡ record { regular = false; late = false; unknown = false; double = false; method = None; scheme = None; path = None; authority = None } }
    {
        PseudoFields {
            regular: false,
            late: false,
            unknown: false,
            double: false,
            method: None,
            scheme: None,
            path: None,
            authority: None,
        }
    }

    /// Adds one field more: which name it has, and its value.
    pub fn note(&mut self, known: KnownName, value: &'a [u8])
        ensures { pseudo_of self.new ≡ noted_by (pseudo_of self.old) known value.now }
    {
        if !known.is_pseudo() {
            self.regular = true;
            return;
        }
        self.late = self.late || self.regular;
        match known {
            KnownName::Method => self.double = is_again(self.double, &mut self.method, value),
            KnownName::Scheme => self.double = is_again(self.double, &mut self.scheme, value),
            KnownName::Path => self.double = is_again(self.double, &mut self.path, value),
            KnownName::Authority => self.double = is_again(self.double, &mut self.authority, value),
            _ => self.unknown = true,
        }
    }
}

/// Makes a value that of a pseudo-field if it is the first; whether one is there twice now.
fn is_again<'a>(double: bool, first: &mut Option<&'a [u8]>, value: &'a [u8]) -> bool
    ensures double { result ≡ (double || is_some (option_copied first.old)) }
    ensures first { option_copied first.new ≡ Some (unwrap_or (option_copied first.old) value.now) }
{
    if first.is_some() {
        return true;
    }
    *first = Some(value);
    double
}

/// The content-length of a request: its number, and whether one is no number or another number.
#[derive(Clone, Copy)]
pub struct ContentLength {
    /// The octets of content that the first one that is a number declares.
    pub declared: Option<u64>,
    /// Whether one is no number, or another number than the first (RFC 9113, 8.1.1).
    pub bad: bool,
}

impl ContentLength {
    /// Of no field.
    pub fn none() -> Self
        ensures { result ≡ record { declared = None; bad = false } }
    {
        ContentLength {
            declared: None,
            bad: false,
        }
    }

    /// With one field more: which name it has, and its value.
    pub fn with(self, known: KnownName, value: &[u8]) -> Self
        ensures { result ≡ measured_by self known value.now }
    {
        match known {
            KnownName::ContentLength => self.counted(value),
            _ => self,
        }
    }

    /// With one content-length more.
    fn counted(self, value: &[u8]) -> Self
        ensures { result ≡ counted self value.now }
    {
        match (octets::number_of(value), self.declared) {
            (None, _) => ContentLength {
                declared: self.declared,
                bad: true,
            },
            (Some(number), None) => ContentLength {
                declared: Some(number),
                bad: self.bad,
            },
            (Some(number), Some(first)) => ContentLength {
                declared: Some(first),
                bad: self.bad || number != first,
            },
        }
    }
}

/// What one walk over a list of fields found.
#[derive(Clone, Copy)]
pub struct FieldScan<'a> {
    /// The marks of all fields together.
    pub marks: ListMark,
    /// The pseudo-fields.
    pub pseudo: PseudoFields<'a>,
    /// The content-length.
    pub length: ContentLength,
}

impl<'a> FieldScan<'a> {
    /// Of these fields, in one walk over them.
    #[inline(always)]
    pub fn of<A: Allocator>(fields: &Fields<'a, A>) -> Self
        ensures { AreSeen (fields_in fields.now) result }
    {
        let count = fields.len();
        let mut marks = ListMark::none();
        let mut pseudo = PseudoFields::none(fields);
        let mut length = ContentLength::none();
        for place in 0..count {
            if let Some(found) = fields.get(place) {
                marks = marks.with(found.mark);
                pseudo.note(found.mark.known, found.value);
                length = length.with(found.mark.known, found.value);
            }
        }
        FieldScan {
            marks,
            pseudo,
            length,
        }
    }
}
