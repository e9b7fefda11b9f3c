//! What a book refuses an entry for, with its values.

use h2_hpack_validity::octets::{
    bad_octet_of_name, bad_octet_of_value, is_bad_value, is_connection_name, is_pseudo_name,
};
use h2_io::say::{OctetCount, Say, TextBuilder};
use h2_io::say_all;
use h2_request_book::book::MAX_BODY;
use h2_request_book::fault::EntryFault;

/// Why a field is not allowed in an answer, after its name: it is one of a connection, one that the server writes itself,
/// or has an octet that it may not have.
pub fn field_reason(name: &[u8], value: &[u8]) -> Option<&'static str> {
    if is_pseudo_name(name) {
        return Some("is a pseudo-field, which the server writes itself");
    }
    match bad_octet_of_name(name) {
        Some(b'A'..=b'Z') => Some("has an upper-case letter; names are lower case (RFC 9113, 8.2)"),
        Some(_) => Some("has an octet that no name may have (RFC 9113, 8.2.1)"),
        None if name.is_empty() => Some("has an empty name"),
        None if is_connection_name(name) || name == "content-length".as_bytes() => Some(
            "is not allowed: it is one of a connection, or what the server writes itself (RFC 9113, 8.2.2)",
        ),
        None if bad_octet_of_value(value).is_some() => Some(
            "has a value with NUL, CR or LF (RFC 9113, 8.2.1)",
        ),
        None if is_bad_value(value) => Some(
            "has a value that begins or ends with a blank (RFC 9113, 8.2.1)",
        ),
        None => None,
    }
}

/// Says that an entry with this method and this status has no body, and that this one has, of this many octets where that is
/// known.
fn say_no_body<S: Say + Copy>(
    method: &str,
    status: S,
    octets: Option<usize>,
    out: &mut TextBuilder,
) {
    if method == "HEAD" {
        say_all!(out; "an answer to HEAD");
    } else {
        say_all!(out; "an answer with status ", status);
    }
    say_all!(out; " has no body, and this one has");
    if let Some(octets) = octets {
        say_all!(out; " ", OctetCount(octets as u64));
    }
}

/// Says why an entry is too long, whose body has this many octets where that is known.
fn say_long(octets: Option<usize>, out: &mut TextBuilder) {
    match octets {
        None =>
            say_all!(out; "the body has more than ", MAX_BODY, " octets, the fields take more than 16383, or the book has 1000 answers already"),
        Some(octets) if octets > MAX_BODY =>
            say_all!(out; "the body has ", OctetCount(octets as u64), "; at most ", MAX_BODY, " are taken"),
        Some(_) =>
            say_all!(out; "the fields take more than 16383 octets, or the book has 1000 answers already"),
    }
}

/// Says what a book refuses an entry for that has this method and this status, and a body of this many octets where that is
/// known. The sentence has no end.
pub fn say_entry<S: Say + Copy>(
    fault: EntryFault,
    method: &str,
    status: S,
    octets: Option<usize>,
    out: &mut TextBuilder,
) {
    match fault {
        EntryFault::BadStatus =>
            say_all!(out; "the status is ", status, "; it has to be 200 to 599"),
        EntryFault::BadField => say_all!(out; "a field is not allowed in an answer"),
        EntryFault::BodyNotAllowed => say_no_body(method, status, octets, out),
        EntryFault::TooLong => say_long(octets, out),
    }
}
