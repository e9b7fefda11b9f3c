//! Which octets names and values can't have (RFC 9113, 8.2.1), by tables: one look-up an octet. Each table is tied to
//! the test of `h2_spec`, specs/Requests/Request.antt, by a proof that computes over the whole table.

ghost use Rattle.std.specs.Prelude.{◌≡◌, ◌&&◌};
ghost use Rattle.std.specs.List.{find, list_any};
ghost use Rattle.h2_spec.specs.Requests.Request.{is_outside_values};
ghost use Rattle.h2_hpack_validity.specs.Octets.{is_low, is_outside_rest};

/// For each octet whether no name has it after its first octet: a control, a space, a capital letter, a colon, or one
/// from 7f on.
static OUTSIDE_REST: [bool; 256] = [
    true, true, true, true, true, true, true, true, true, true, true, true, true, true, true, true,
    true, true, true, true, true, true, true, true, true, true, true, true, true, true, true, true,
    true, false, false, false, false, false, false, false, false, false, false, false, false,
    false, false, false, false, false, false, false, false, false, false, false, false, false,
    true, false, false, false, false, false, false, true, true, true, true, true, true, true, true,
    true, true, true, true, true, true, true, true, true, true, true, true, true, true, true, true,
    true, true, false, false, false, false, false, false, false, false, false, false, false, false,
    false, false, false, false, false, false, false, false, false, false, false, false, false,
    false, false, false, false, false, false, false, false, false, false, false, true, true, true,
    true, true, true, true, true, true, true, true, true, true, true, true, true, true, true, true,
    true, true, true, true, true, true, true, true, true, true, true, true, true, true, true, true,
    true, true, true, true, true, true, true, true, true, true, true, true, true, true, true, true,
    true, true, true, true, true, true, true, true, true, true, true, true, true, true, true, true,
    true, true, true, true, true, true, true, true, true, true, true, true, true, true, true, true,
    true, true, true, true, true, true, true, true, true, true, true, true, true, true, true, true,
    true, true, true, true, true, true, true, true, true, true, true, true, true, true, true, true,
    true, true, true, true, true, true, true, true, true, true, true, true, true, true,
];

/// For each octet whether no value has it: NUL, LF or CR.
static OUTSIDE_VALUES: [bool; 256] = [
    true, false, false, false, false, false, false, false, false, false, true, false, false, true,
    false, false, false, false, false, false, false, false, false, false, false, false, false,
    false, false, false, false, false, false, false, false, false, false, false, false, false,
    false, false, false, false, false, false, false, false, false, false, false, false, false,
    false, false, false, false, false, false, false, false, false, false, false, false, false,
    false, false, false, false, false, false, false, false, false, false, false, false, false,
    false, false, false, false, false, false, false, false, false, false, false, false, false,
    false, false, false, false, false, false, false, false, false, false, false, false, false,
    false, false, false, false, false, false, false, false, false, false, false, false, false,
    false, false, false, false, false, false, false, false, false, false, false, false, false,
    false, false, false, false, false, false, false, false, false, false, false, false, false,
    false, false, false, false, false, false, false, false, false, false, false, false, false,
    false, false, false, false, false, false, false, false, false, false, false, false, false,
    false, false, false, false, false, false, false, false, false, false, false, false, false,
    false, false, false, false, false, false, false, false, false, false, false, false, false,
    false, false, false, false, false, false, false, false, false, false, false, false, false,
    false, false, false, false, false, false, false, false, false, false, false, false, false,
    false, false, false, false, false, false, false, false, false, false, false, false, false,
    false, false, false, false, false, false, false, false, false, false, false, false, false,
    false, false, false, false, false, false, false, false,
];

/// Whether no name has this octet after its first one.
fn is_outside_of_rest(octet: u8) -> bool
    ensures { result ≡ is_outside_rest octet }
{
    OUTSIDE_REST[usize::from(octet)]
}

/// Whether no value has this octet.
fn is_outside_of_values(octet: u8) -> bool
    ensures { result ≡ is_outside_values octet }
{
    OUTSIDE_VALUES[usize::from(octet)]
}

/// Whether one of the octets after the first of a name is none of a name's.
pub fn has_outside_of_rest(octets: &[u8]) -> bool
    ensures { result ≡ list_any is_outside_rest octets.now }
{
    let mut found = false;
    for octet in octets {
        found |= is_outside_of_rest(*octet);
    }
    found
}

/// Whether one of the octets is none of a value's. No octet above 0d is, and most values have none up to it, which a
/// loop with no table finds out many octets at a time.
pub fn has_outside_of_values(octets: &[u8]) -> bool
    ensures { result ≡ list_any is_outside_values octets.now }
{
    has_low_outside(octets)
}

/// As `has_outside_of_values`: first by a loop without a table, then by one with it.
fn has_low_outside(octets: &[u8]) -> bool
    ensures { result ≡ (list_any is_low octets.now && list_any is_outside_values octets.now) }
{
    has_low(octets) && has_outside_in_table(octets)
}

/// Whether one of the octets is at most 0d.
fn has_low(octets: &[u8]) -> bool
    ensures { result ≡ list_any is_low octets.now }
{
    let mut found = false;
    for octet in octets {
        found |= *octet <= 0x0d;
    }
    found
}

/// Whether one of the octets is none of a value's, by the table.
fn has_outside_in_table(octets: &[u8]) -> bool
    ensures { result ≡ list_any is_outside_values octets.now }
{
    let mut found = false;
    for octet in octets {
        found |= is_outside_of_values(*octet);
    }
    found
}

/// The first of the octets that no name has after its first one.
pub fn first_outside_of_rest(octets: &[u8]) -> Option<u8>
    ensures { result ≡ find is_outside_rest octets.now }
{
    for octet in octets {
        if is_outside_of_rest(*octet) {
            return Some(*octet);
        }
    }
    None
}

/// The first of the octets that no value has.
pub fn first_outside_of_values(octets: &[u8]) -> Option<u8>
    ensures { result ≡ find is_outside_values octets.now }
{
    for octet in octets {
        if is_outside_of_values(*octet) {
            return Some(*octet);
        }
    }
    None
}
