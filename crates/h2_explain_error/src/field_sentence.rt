//! The sentences of malformed requests and trailers, with the field that is at fault (RFC 9113, 8.1 to 8.5). The
//! causes: h2_spec's `specs/Causes/CauseWords.antt`.

use h2_explain_item::diagnosis::fields::{
    FieldFault, double_pseudo, first_wrong, has, has_other_scheme, is_connect, is_number,
    late_pseudo, other_length, refused_length,
};
use h2_explain_item::shown_block::{SpelledField, SpelledFields};
use h2_hpack_validity::octets::{bad_octet_of_name, bad_octet_of_value, begins_blank};
use h2_io::say::{Cut, HexOctet, TextBuilder};
use h2_io::say_all;
use h2_spec::causes::Cause;
use std::alloc::Allocator;

/// An octet by name, where it has one.
fn octet_name(octet: u8) -> Option<&'static str> {
    match octet {
        b' ' => Some("a space"),
        b'\t' => Some("a tab"),
        b'\n' => Some("a line feed"),
        b'\r' => Some("a carriage return"),
        b':' => Some("a colon"),
        _ => None,
    }
}

/// Puts an octet last that may not be in a name or in a value: by name where it has one.
fn say_octet<A: Allocator>(octet: u8, out: &mut TextBuilder<A>) {
    if let Some(name) = octet_name(octet) {
        say_all!(out; name);
    } else if (b'A'..=b'Z').contains(&octet) {
        say_all!(out; "the upper-case letter ", char::from(octet));
    } else {
        say_all!(out; "the octet ", HexOctet(octet));
    }
}

/// Puts last what would have been right instead of an octet of a name, where one thing would.
fn say_repair<A: Allocator>(octet: u8, out: &mut TextBuilder<A>) {
    if (b'A'..=b'Z').contains(&octet) {
        say_all!(out; "; names are in lower case");
    }
}

/// Puts last which end of a value has a blank, and which blank.
fn say_blank_end<A: Allocator>(value: &[u8], out: &mut TextBuilder<A>) {
    let first = value.first().copied().unwrap_or(0);
    let last = value.last().copied().unwrap_or(0);
    if begins_blank(value) {
        say_all!(out; " begins with ");
        say_octet(first, out);
    } else {
        say_all!(out; " ends with ");
        say_octet(last, out);
    }
}

/// Which pseudo-field of a request other than CONNECT is missing or empty (RFC 9113, 8.3.1).
fn lack_of<A: Allocator>(fields: SpelledFields<'_, A>) -> &'static str {
    if !has(b":method", fields) {
        ":method is missing"
    } else if !has(b":scheme", fields) {
        ":scheme is missing"
    } else if !has(b":path", fields) {
        ":path is missing"
    } else if has_other_scheme(fields) {
        ":path is empty, which this server refuses for all schemes"
    } else {
        ":path is empty; it has to be / at least"
    }
}

/// What of the pseudo-fields is missing, empty, or too much (RFC 9113, 8.3.1 and 8.5).
fn say_lacking<A: Allocator>(fields: SpelledFields<'_, A>, out: &mut TextBuilder<A>) {
    if is_connect(fields) {
        say_connect(fields, out);
    } else {
        say_all!(out; lack_of(fields));
    }
}

/// What CONNECT has too much, empty where it has not (RFC 9113, 8.5).
fn too_much<A: Allocator>(fields: SpelledFields<'_, A>) -> &'static str {
    match (has(b":scheme", fields), has(b":path", fields)) {
        (true, true) => " has :scheme and :path, and may have neither",
        (true, false) => " has :scheme, and may not have it",
        (false, true) => " has :path, and may not have it",
        (false, false) => "",
    }
}

/// What CONNECT lacks, and what it has too much (RFC 9113, 8.5).
fn say_connect<A: Allocator>(fields: SpelledFields<'_, A>, out: &mut TextBuilder<A>) {
    let more = too_much(fields);
    say_all!(out; "CONNECT");
    if !has(b":authority", fields) {
        say_all!(out; " lacks :authority", if more.is_empty() { "" } else { "; it" });
    }
    say_all!(out; more);
}

/// Puts last what is wrong with the content-length that is shown: `other` is one of another number, if there is one.
fn say_digits<'s, A: Allocator>(
    value: &[u8],
    other: Option<SpelledField<'s>>,
    out: &mut TextBuilder<A>,
) {
    if !is_number(value) {
        say_all!(out; "; it has to be of digits alone");
    } else if value.len() > 18 {
        say_all!(out; ", of ", value.len(), " digits; this server takes up to 18");
    } else if let Some(other) = other {
        say_all!(out; " and \"", Cut(other.value), "\"; they have to be the same number");
    }
}

/// The value or the values of content-length (RFC 9113, 8.1.1).
fn say_content_length<A: Allocator>(
    cause: Cause,
    fields: SpelledFields<'_, A>,
    out: &mut TextBuilder<A>,
) -> bool {
    let Some(field) = refused_length(fields) else {
        return false;
    };
    let value = field.value;
    say_all!(out; "content-length is \"", Cut(value), "\"");
    if let Cause::ContentMissing = cause {
        say_all!(out; ", and HEADERS ended the stream");
    } else {
        say_digits(value, other_length(value, fields), out);
    }
    true
}

/// What is wrong with the field that a cause is about, if that tells which field it is.
fn fault_of(cause: Cause) -> Option<FieldFault> {
    match cause {
        Cause::BadName | Cause::TrailersBadName => Some(FieldFault::Name),
        Cause::BadValue | Cause::TrailersBadValue => Some(FieldFault::Value),
        Cause::UnknownPseudoField => Some(FieldFault::Unknown),
        Cause::TrailersPseudoField => Some(FieldFault::Pseudo),
        Cause::ConnectionField | Cause::TrailersConnectionField => Some(FieldFault::Connection),
        Cause::BadTe | Cause::TrailersBadTe => Some(FieldFault::Te),
        _ => None,
    }
}

/// The field that a cause is about.
fn found<'s, A: Allocator>(cause: Cause, fields: SpelledFields<'s, A>) -> Option<SpelledField<'s>> {
    match fault_of(cause) {
        Some(fault) => fields.get(first_wrong(fault, 0, fields)?),
        None => double_pseudo(fields),
    }
}

/// The words before and after the name of a field, or the value of te, that a cause is about (RFC 9113, 8.1 to 8.3).
fn words_around(cause: Cause) -> &'static (&'static str, &'static str) {
    match cause {
        Cause::BadName => &("the name \"", "\" has "),
        Cause::TrailersBadName => &("the name \"", "\", in the trailers, has "),
        Cause::BadValue => &("the value of \"", "\""),
        Cause::TrailersBadValue => &("the value of \"", "\", in the trailers,"),
        Cause::UnknownPseudoField => &("\"", "\" is no pseudo-field of a request"),
        Cause::DoublePseudoField => &("\"", "\" is there twice"),
        Cause::TrailersPseudoField => &("trailers have no pseudo-field, and here is \"", "\""),
        Cause::ConnectionField => &("\"", "\" belongs to HTTP/1.1 connections"),
        Cause::TrailersConnectionField => {
            &("\"", "\", in the trailers, belongs to HTTP/1.1 connections")
        }
        Cause::BadTe => &("te is \"", "\"; it may only be trailers"),
        Cause::TrailersBadTe => &("te, in the trailers, is \"", "\"; it may only be trailers"),
        _ => &("", ""),
    }
}

/// What is shown of the field that a cause is about: the value of te, the name of others.
fn shown_of(cause: Cause, field: SpelledField<'_>) -> &[u8] {
    match cause {
        Cause::BadTe | Cause::TrailersBadTe => field.value,
        _ => field.name,
    }
}

/// Puts the octet of a name last that may not be in it, and what would have been right.
fn say_name_octet<A: Allocator>(name: &[u8], out: &mut TextBuilder<A>) {
    if let Some(octet) = bad_octet_of_name(name) {
        say_octet(octet, out);
        say_repair(octet, out);
    }
}

/// Puts last what is wrong with a value: an octet, or a blank at an end.
fn say_value_octet<A: Allocator>(value: &[u8], out: &mut TextBuilder<A>) {
    match bad_octet_of_value(value) {
        Some(octet) => {
            say_all!(out; " has ");
            say_octet(octet, out);
        }
        None => say_blank_end(value, out),
    }
}

/// Puts last that a field has an empty name.
fn say_empty_name<A: Allocator>(cause: Cause, out: &mut TextBuilder<A>) {
    let name = match cause {
        Cause::TrailersBadName => "a field, in the trailers, has an empty name",
        _ => "a field has an empty name",
    };
    say_all!(out; name);
}

/// The sentence of a field that a cause is about.
fn say_found<A: Allocator>(cause: Cause, field: SpelledField<'_>, out: &mut TextBuilder<A>) {
    let shown = shown_of(cause, field);
    if shown.is_empty() && is_of_name(cause) {
        say_empty_name(cause, out);
        return;
    }
    let around = words_around(cause);
    say_all!(out; around.0, Cut(shown), around.1);
    if is_of_name(cause) {
        say_name_octet(shown, out);
    } else if is_of_value(cause) {
        say_value_octet(field.value, out);
    }
}

/// Whether a cause is about a name that may not be.
fn is_of_name(cause: Cause) -> bool {
    matches!(cause, Cause::BadName | Cause::TrailersBadName)
}

/// Whether a cause is about a value that may not be.
fn is_of_value(cause: Cause) -> bool {
    matches!(cause, Cause::BadValue | Cause::TrailersBadValue)
}

/// A pseudo-field after a regular field (RFC 9113, 8.3).
fn say_late<A: Allocator>(fields: SpelledFields<'_, A>, out: &mut TextBuilder<A>) -> bool {
    let Some((field, before)) = late_pseudo(fields) else {
        return false;
    };
    let (late, regular) = (Cut(field.name), Cut(before.name));
    say_all!(out; "\"", late, "\" comes after the field \"", regular, "\"");
    true
}

/// The sentences of requests and trailers.
pub(crate) fn say_field<A: Allocator>(
    cause: Cause,
    fields: SpelledFields<'_, A>,
    out: &mut TextBuilder<A>,
) -> bool {
    match cause {
        Cause::LackingPseudoField => say_lacking(fields, out),
        Cause::LatePseudoField => return say_late(fields, out),
        Cause::BadContentLength | Cause::ContentMissing => {
            return say_content_length(cause, fields, out);
        }
        _ if words_around(cause).1.is_empty() => return false,
        _ => match found(cause, fields) {
            Some(field) => say_found(cause, field, out),
            None => return false,
        },
    }
    true
}
