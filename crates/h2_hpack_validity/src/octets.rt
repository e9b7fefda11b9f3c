//! Tests of one field's name or value (RFC 9113, 8.1.1, 8.2 and 8.3). Each is the test of its name in `h2_spec`,
//! specs/Requests/Request.antt.

ghost use Rattle.std.specs.Prelude.{◌≡◌, ◌≤◌, ◌==◌, ◌||◌, not, drop, length, codes, bytes_eq, map, if◌then◌else◌};
ghost use Rattle.std.specs.Char.{to_ascii_lowercase};
ghost use Rattle.std.specs.List.{find, list_any, list_all};
ghost use Rattle.h2_hpack_validity.specs.Octets;
ghost use Rattle.h2_spec.specs.Requests.Request.{first_is, last_is, is_between, is_colon, is_outside_names, is_outside_values, is_blank, is_digits, decimal_value, connection_names};

use crate::classes::{
    first_outside_of_rest, first_outside_of_values, has_outside_of_rest, has_outside_of_values,
};

/// Whether a name is empty, has an octet that no name has, or a colon that is not its first octet.
pub fn is_bad_name(name: &[u8]) -> bool
    ensures { result ≡ (length name.now == 0 || list_any is_outside_names name.now || list_any is_colon (drop 1 name.now)) }
{
    match name {
        [] => true,
        [first, rest @ ..] => is_outside(*first) || has_outside_of_rest(rest),
    }
}

/// The first octet of a name for which `is_bad_name` refuses it; none of an empty one, and of one that it takes.
pub fn bad_octet_of_name(name: &[u8]) -> Option<u8>
    ensures { result ≡ Octets.bad_octet_of_name name.now }
{
    match name {
        [] => None,
        [first, ..] if is_outside(*first) => Some(*first),
        [_, rest @ ..] => first_outside_of_rest(rest),
    }
}

/// Whether no name has this octet: a control, a space, a capital letter, or one from 7f on.
fn is_outside(octet: u8) -> bool
    ensures { result ≡ is_outside_names octet }
{
    octet <= 0x20 || (0x41 <= octet && octet <= 0x5a) || 0x7f <= octet
}

/// Whether a value has an octet that no value has, or begins or ends with a blank.
pub fn is_bad_value(value: &[u8]) -> bool
    ensures { result ≡ (list_any is_outside_values value.now || first_is is_blank value.now || last_is is_blank value.now) }
{
    has_outside_of_values(value) || begins_blank(value) || ends_blank(value)
}

/// The first octet that no value has: NUL, LF or CR.
pub fn bad_octet_of_value(value: &[u8]) -> Option<u8>
    ensures { result ≡ find is_outside_values value.now }
{
    first_outside_of_values(value)
}

/// Whether a value begins with a space or a tab.
pub fn begins_blank(value: &[u8]) -> bool
    ensures { result ≡ first_is is_blank value.now }
{
    match value {
        [] => false,
        [first, ..] => is_space_or_tab(*first),
    }
}

fn ends_blank(value: &[u8]) -> bool
    ensures { result ≡ last_is is_blank value.now }
{
    match value.last() {
        None => false,
        Some(last) => is_space_or_tab(*last),
    }
}

fn is_space_or_tab(octet: u8) -> bool
    ensures { result ≡ is_blank octet }
{
    octet == b' ' || octet == b'\t'
}

/// Whether a name begins with a colon.
pub fn is_pseudo_name(name: &[u8]) -> bool
    ensures { result ≡ first_is is_colon name.now }
{
    match name {
        [] => false,
        [first, ..] => *first == b':',
    }
}

/// Whether these are the same octets.
pub fn same(octets: &[u8], others: &[u8]) -> bool
    ensures { result ≡ bytes_eq octets.now others.now }
{
    octets == others
}

/// Whether a name is one of an HTTP/1.1 connection's fields.
pub fn is_connection_name(name: &[u8]) -> bool
    ensures { result ≡ list_any (λ other. bytes_eq name.now other) connection_names }
{
    same(name, b"connection")
        || same(name, b"proxy-connection")
        || same(name, b"keep-alive")
        || same(name, b"transfer-encoding")
        || same(name, b"upgrade")
}

/// Whether a value is `trailers`, in any case of its letters.
pub fn is_trailers(value: &[u8]) -> bool
    ensures { result ≡ bytes_eq (map to_ascii_lowercase value.now) (codes "trailers") }
{
    value.eq_ignore_ascii_case(b"trailers")
}

/// The number that 1 to 18 decimal digits write, or none where the octets are something else.
pub fn number_of(digits: &[u8]) -> Option<u64>
    ensures { result ≡ (if is_digits digits.now then Some (decimal_value digits.now) else None) }
{
    if digits.is_empty() || digits.len() > 18 {
        return None;
    }
    number_of_digits(digits)
}

/// The number that at most 18 decimal digits write.
fn number_of_digits(digits: &[u8]) -> Option<u64>
    requires { length digits.now ≤ 18 }
    ensures { result ≡ (if list_all (is_between 48 57) digits.now then Some (decimal_value digits.now) else None) }
{
    let mut number: u64 = 0;
    for digit in digits {
        if *digit < b'0' || *digit > b'9' {
            return None;
        }
        number = 10 * number + u64::from(*digit - b'0');
    }
    Some(number)
}
