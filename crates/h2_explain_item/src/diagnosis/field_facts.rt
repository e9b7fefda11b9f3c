//! What the fields of a block are, as far as special cases of malformed requests and trailers depend on it (RFC 9113, 8.2
//! and 8.3): one field after another, as the connection lends them. Definitions:
//! `specs/FieldFacts.antt`.

ghost use Rattle.std.specs.Prelude.{◌≡◌, ◌==◌, ℕ, List, [], not, option_map};
ghost use Rattle.std.specs.List.{position_or_len};
ghost use Rattle.h2_spec.specs.Hpack.Field.{field};
ghost use Rattle.h2_hpack_list.specs.Lent.{lent_field};
ghost use Rattle.h2_explain_item.specs.FieldFacts as spec;
ghost use Rattle.h2_explain_item.specs.FieldFacts.{field_facts, with_field};

use crate::diagnosis::fields::is_number;
use h2_fields::collected::Collected;
use h2_hpack_validity::octets::{is_bad_name, number_of, same};
use h2_spec::octets::{octets_from, octets_up_to};
use std::alloc::Allocator;

/// What the fields of a block are. A request or trailers of which a cause holds are a special case of it by these.
#[derive(Clone, Copy)]
pub struct FieldFacts {
    /// Whether each name that is refused is empty (RFC 9113, 8.2.1).
    pub empty_names: bool,
    /// Whether there is a method.
    pub method: bool,
    /// Whether a method is CONNECT.
    pub connect: bool,
    /// Whether there is a scheme.
    pub scheme: bool,
    /// Whether a scheme is neither http nor https.
    pub other_scheme: bool,
    /// Whether a path is empty.
    pub empty_path: bool,
    /// Whether no te has a member but `trailers` (RFC 9110, 10.1.4).
    pub trailers_alone: bool,
    /// Whether each content-length is a number of at most 18 digits.
    pub short_lengths: bool,
    /// Whether each content-length is a number.
    pub numeric_lengths: bool,
}

/// Where the first member of a list ends: at its first comma, or at the end of the list (RFC 9110, 5.6.1).
fn end_of_member(list: &[u8]) -> usize
    ensures { result ≡ position_or_len (λ c. c == 44) list.now }
{
    for (at, octet) in list.iter().enumerate() {
        if *octet == b',' {
            return at;
        }
    }
    list.len()
}

/// Whether a member of a list is empty, or `trailers`, in any case of its letters (RFC 9110, 10.1.4).
fn is_trailers_member(member: &[u8]) -> bool
    ensures { result ≡ spec.is_trailers_member member.now }
{
    let member = member.trim_ascii();
    member.is_empty() || member.eq_ignore_ascii_case(b"trailers")
}

/// Whether a list has no member but `trailers`.
fn is_trailers_alone(list: &[u8]) -> bool
    ensures { result ≡ spec.is_trailers_alone list.now }
{
    let mut rest = list;
    'members: loop {
        let end = end_of_member(rest);
        if !is_trailers_member(octets_up_to(rest, end)) {
            return false;
        }
        if end == rest.len() {
            return true;
        }
        rest = octets_from(rest, end + 1);
    }
}

/// Whether the name of a field is taken, or is empty (RFC 9113, 8.2.1).
fn has_taken_or_empty_name(name: &[u8], value: &[u8]) -> bool
    ensures { result ≡ spec.has_taken_or_empty_name (field name.now value.now) }
{
    name.is_empty() || !is_bad_name(name)
}

/// Whether a field is the method CONNECT (RFC 9113, 8.5).
fn has_connect(name: &[u8], value: &[u8]) -> bool
    ensures { result ≡ spec.has_connect (field name.now value.now) }
{
    same(name, b":method") && same(value, b"CONNECT")
}

/// Whether a field is a scheme that is neither http nor https.
fn has_other_scheme(name: &[u8], value: &[u8]) -> bool
    ensures { result ≡ spec.has_other_scheme (field name.now value.now) }
{
    same(name, b":scheme")
        && !(value.eq_ignore_ascii_case(b"http") || value.eq_ignore_ascii_case(b"https"))
}

/// Whether a field is a path that is empty (RFC 9113, 8.3.1).
fn has_empty_path(name: &[u8], value: &[u8]) -> bool
    ensures { result ≡ spec.has_empty_path (field name.now value.now) }
{
    same(name, b":path") && value.is_empty()
}

/// Whether a field is no te, or one with no member but `trailers` (RFC 9113, 8.2.2).
fn has_trailers_alone(name: &[u8], value: &[u8]) -> bool
    ensures { result ≡ spec.has_trailers_alone (field name.now value.now) }
{
    !same(name, b"te") || is_trailers_alone(value)
}

/// Whether a field is no content-length, or one of 1 to 18 digits (RFC 9113, 8.1.1).
fn has_short_length(name: &[u8], value: &[u8]) -> bool
    ensures { result ≡ spec.has_short_length (field name.now value.now) }
{
    !same(name, b"content-length") || number_of(value).is_some()
}

/// Whether a field is no content-length, or one of digits alone.
fn has_length(name: &[u8], value: &[u8]) -> bool
    ensures { result ≡ spec.has_length (field name.now value.now) }
{
    !same(name, b"content-length") || is_number(value)
}

impl FieldFacts {
    /// Of no field.
    pub fn none() -> Self
        ensures { result ≡ field_facts [] }
    {
        FieldFacts {
            empty_names: true,
            method: false,
            connect: false,
            scheme: false,
            other_scheme: false,
            empty_path: false,
            trailers_alone: true,
            short_lengths: true,
            numeric_lengths: true,
        }
    }

    /// With one field more.
    pub fn with(self, name: &[u8], value: &[u8]) -> Self
        ensures { result ≡ with_field self (field name.now value.now) }
    {
        FieldFacts {
            empty_names: self.empty_names & has_taken_or_empty_name(name, value),
            method: self.method | same(name, b":method"),
            connect: self.connect | has_connect(name, value),
            scheme: self.scheme | same(name, b":scheme"),
            other_scheme: self.other_scheme | has_other_scheme(name, value),
            empty_path: self.empty_path | has_empty_path(name, value),
            trailers_alone: self.trailers_alone & has_trailers_alone(name, value),
            short_lengths: self.short_lengths & has_short_length(name, value),
            numeric_lengths: self.numeric_lengths & has_length(name, value),
        }
    }
}

/// The facts of fields with one more, if there is one.
fn facts_with(facts: FieldFacts, field: Option<(&[u8], &[u8])>) -> FieldFacts
    ensures { result ≡ spec.facts_with facts (option_map lent_field field.entry) }
{
    match field {
        Some((name, value)) => facts.with(name, value),
        None => facts,
    }
}

/// The facts of the fields that a connection has decoded of a block.
pub fn field_facts<A: Allocator>(fields: &Collected<A>) -> FieldFacts
    ensures { result ≡ field_facts fields.now.fields }
{
    let mut facts = FieldFacts::none();
    for place in 0..fields.len() {
        facts = facts_with(facts, fields.get(place));
    }
    facts
}
