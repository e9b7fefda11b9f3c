//! Whether fields make a request or trailers, and what a request asks for (RFC 9113, 8.1 to 8.5). The program does not
//! call `check` and `check_trailers`, which are for users of the library: `check_fields` and `check_trailer_fields` do
//! the same over the fields of a block, which share their octets. The definitions are `malformed`, `malformed_trailers`
//! and `request_of` of `h2_spec`, specs/Requests/Request.antt, and its specs/Requests/Reasons.antt, which states the
//! reasons by the
//! places of fields in their list.

ghost use Rattle.std.specs.Prelude.{◌≡◌, ◌==◌, [], length, unwrap_or, IfOk, IfErr, OnOk};
ghost use Rattle.std.specs.Option.{option_map, option_copied};
ghost use Rattle.h2_spec.specs.Requests.Reasons.{IsLeast, IsReason, IsTrailersReason};
ghost use Rattle.h2_spec.specs.Requests.Request.{malformed, malformed_trailers, request_of};
ghost use Rattle.h2_request_well_formed.specs.Asked.{request_seen};
ghost use Rattle.h2_request_book.specs.Asked.{asked};
ghost use Rattle.h2_request_well_formed.specs.Fields.{fields_in};
ghost use Rattle.h2_request_well_formed.specs.ReasonNumber.{reason_number};
ghost use Rattle.h2_request_well_formed.specs.Seen.{seen_reason, seen_trailers_reason, is_lacking};
ghost use Rattle.h2_request_well_formed.specs.Walk.{pseudo_of};

use crate::fields::Fields;
use crate::reason::{Malformed, Reason};
use crate::walk::{FieldScan, ListMark, PseudoFields};
use h2_hpack_instruction::field::Field;
use h2_hpack_validity::octets;
use h2_request_book::asked::Request;
use std::alloc::Allocator;

/// What the fields of a request ask for. One walk over the fields; no memory is taken.
///
/// # Errors
///
/// `Malformed` with the least reason against the fields (RFC 9113, 8.1.1, 8.2, 8.3 and 8.5).
pub fn check<A: Allocator>(fields: &[Field<A>]) -> Result<Request<'_>, Malformed>
    ensures accepted { OnOk result (malformed fields.now ≡ None) }
    ensures request { IfOk result (λ request. asked request ≡ request_of fields.now) }
    ensures refused { IfErr result (λ e. malformed fields.now ≡ Some (reason_number e.0)) }
    ensures none { OnOk result (IsLeast (IsReason fields.now) None) }
    ensures least { IfErr result (λ e. IsLeast (IsReason fields.now) (Some (reason_number e.0))) }
{
    check_fields(&Fields::Slice(fields))
}

/// As `check`, over fields in either form.
///
/// # Errors
///
/// As `check`.
#[inline(never)]
pub fn check_fields<'a, A: Allocator>(fields: &Fields<'a, A>) -> Result<Request<'a>, Malformed>
    ensures accepted { OnOk result (malformed (fields_in fields.now) ≡ None) }
    ensures request { IfOk result (λ request. asked request ≡ request_of (fields_in fields.now)) }
    ensures refused { IfErr result (λ e. malformed (fields_in fields.now) ≡ Some (reason_number e.0)) }
{
    let seen = FieldScan::of(fields);
    match request_reason(seen) {
        Some(reason) => Err(Malformed(reason)),
        None => Ok(requested(seen)),
    }
}

/// Whether fields make trailers. One walk over the fields; no memory is taken.
///
/// # Errors
///
/// `Malformed` with the least reason against the fields: `BadName`, `BadValue`, `UnknownPseudoField` for any
/// pseudo-field, `ConnectionField` or `BadTe` (RFC 9113, 8.1 and 8.2).
pub fn check_trailers<A: Allocator>(fields: &[Field<A>]) -> Result<(), Malformed>
    ensures accepted { OnOk result (malformed_trailers fields.now ≡ None) }
    ensures refused { IfErr result (λ e. malformed_trailers fields.now ≡ Some (reason_number e.0)) }
    ensures none { OnOk result (IsLeast (IsTrailersReason fields.now) None) }
    ensures least { IfErr result (λ e. IsLeast (IsTrailersReason fields.now) (Some (reason_number e.0))) }
{
    check_trailer_fields(&Fields::Slice(fields))
}

/// As `check_trailers`, over fields in either form.
///
/// # Errors
///
/// As `check_trailers`.
pub fn check_trailer_fields<A: Allocator>(fields: &Fields<'_, A>) -> Result<(), Malformed>
    ensures accepted { OnOk result (malformed_trailers (fields_in fields.now) ≡ None) }
    ensures refused { IfErr result (λ e. malformed_trailers (fields_in fields.now) ≡ Some (reason_number e.0)) }
{
    match trailers_reason(FieldScan::of(fields).marks) {
        Some(reason) => Err(Malformed(reason)),
        None => Ok(()),
    }
}

/// The least reason against a request of which this is seen.
fn request_reason(seen: FieldScan<'_>) -> Option<Reason>
    ensures { option_map reason_number result ≡ seen_reason seen.entry.marks (pseudo_of seen.entry.pseudo) seen.entry.length }
{
    let FieldScan {
        marks,
        pseudo,
        length,
    } = seen;
    if marks.bad_name {
        Some(Reason::BadName)
    } else if marks.bad_value {
        Some(Reason::BadValue)
    } else if pseudo.late {
        Some(Reason::LatePseudoField)
    } else if pseudo.unknown {
        Some(Reason::UnknownPseudoField)
    } else if pseudo.double {
        Some(Reason::DoublePseudoField)
    } else if lacks(pseudo) {
        Some(Reason::LackingPseudoField)
    } else if marks.of_connection {
        Some(Reason::ConnectionField)
    } else if marks.bad_te {
        Some(Reason::BadTe)
    } else if length.bad {
        Some(Reason::BadContentLength)
    } else {
        None
    }
}

/// The least reason against trailers of which this is seen.
fn trailers_reason(marks: ListMark) -> Option<Reason>
    ensures { option_map reason_number result ≡ seen_trailers_reason marks }
{
    if marks.bad_name {
        Some(Reason::BadName)
    } else if marks.bad_value {
        Some(Reason::BadValue)
    } else if marks.pseudo {
        Some(Reason::UnknownPseudoField)
    } else if marks.of_connection {
        Some(Reason::ConnectionField)
    } else if marks.bad_te {
        Some(Reason::BadTe)
    } else {
        None
    }
}

/// Whether a pseudo-field that has to be there is not, or one is there that may not be (RFC 9113, 8.3.1 and 8.5).
fn lacks(pseudo: PseudoFields<'_>) -> bool
    ensures { result ≡ is_lacking (pseudo_of pseudo.entry) }
{
    match pseudo.method {
        None => true,
        Some(method) => {
            if octets::same(method, b"CONNECT") {
                pseudo.authority.is_none() || pseudo.scheme.is_some() || pseudo.path.is_some()
            } else {
                pseudo.scheme.is_none() || is_missing_or_empty(pseudo.path)
            }
        }
    }
}

fn is_missing_or_empty(value: Option<&[u8]>) -> bool
    ensures { result ≡ (length (unwrap_or (option_copied value.entry) []) == 0) }
{
    match value {
        None => true,
        Some(octets) => octets.is_empty(),
    }
}

/// What fields of which this is seen ask for, if they are well-formed.
fn requested(seen: FieldScan<'_>) -> Request<'_>
    ensures { asked result ≡ request_seen (pseudo_of seen.entry.pseudo) seen.entry.length }
{
    let method = octets_or_none(seen.pseudo.method);
    let connect = octets::same(method, b"CONNECT");
    Request {
        connect,
        method,
        path: if connect {
            b"".as_slice()
        } else {
            octets_or_none(seen.pseudo.path)
        },
        declared: seen.length.declared,
    }
}

fn octets_or_none(value: Option<&[u8]>) -> &[u8]
    ensures { result.now ≡ unwrap_or (option_copied value.entry) [] }
{
    match value {
        None => b"".as_slice(),
        Some(octets) => octets,
    }
}
