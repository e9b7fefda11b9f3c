//! Octets that are written as they are, in a text and in a JSON string: those from a blank to `~`, but for `"` and `\`.
//! No definition speaks of them.

/// An octet of 1 in each place of a word.
const ONES: u64 = 0x0101_0101_0101_0101;

/// The highest bit of each octet of a word.
const HIGHEST: u64 = 0x8080_8080_8080_8080;

/// Whether an octet is written as it is.
pub(crate) fn is_plain(octet: u8) -> bool {
    (32..=126).contains(&octet) && octet != b'"' && octet != b'\\'
}

/// A word whose octets are all this one.
const fn all_of(octet: u8) -> u64 {
    ONES * (octet as u64)
}

/// Whether the eight octets of a word are written as they are. An octet above 127 has its highest bit set. Where there is
/// none, a difference has such a bit where an octet is below a blank, or is the one that is looked for, and only then.
fn is_plain_word(word: u64) -> bool {
    let low = word.wrapping_sub(all_of(b' '));
    let quote = (word ^ all_of(b'"')).wrapping_sub(ONES);
    let backslash = (word ^ all_of(b'\\')).wrapping_sub(ONES);
    let delete = (word ^ all_of(127)).wrapping_sub(ONES);
    (word | low | quote | backslash | delete) & HIGHEST == 0
}

/// The octets of a word, up to eight, and blanks.
fn word_of(octets: &[u8]) -> u64 {
    let mut word = all_of(b' ');
    for octet in octets {
        word = word << 8 | u64::from(*octet);
    }
    word
}

/// Whether octets are written as they are, all of them.
pub(crate) fn is_all_plain(octets: &[u8]) -> bool {
    let Some(last) = octets.last_chunk::<8>() else {
        return is_plain_word(word_of(octets));
    };
    let mut plain = is_plain_word(u64::from_le_bytes(*last));
    for piece in octets.chunks(8) {
        if let Some(word) = piece.first_chunk::<8>() {
            plain &= is_plain_word(u64::from_le_bytes(*word));
        }
    }
    plain
}
