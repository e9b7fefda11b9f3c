//! The static table (RFC 7541, 2.3.1 and Appendix A): 61 fields that every decoder knows. The definition is
//! `static_field` of `h2_spec`, specs/Hpack/StaticTable.antt, and the marks of the entries are those that `mark_of` of
//! `h2_hpack_validity`, specs/Mark.antt, computes.

ghost use Rattle.std.specs.Prelude.{◌≡◌, option_map, map, slice_get, Some, IfSome};
ghost use Rattle.h2_spec.specs.Hpack.Field.{Field};
ghost use Rattle.h2_spec.specs.Hpack.StaticTable as spec;
ghost use Rattle.h2_hpack_validity.specs.Mark.{mark_of};
ghost use Rattle.h2_hpack_list.specs.Lent.{lent_field};
ghost use Rattle.h2_table.specs.Lent.{field_lent, IsMarked};
ghost use Rattle.h2_table.specs.StaticMarks.{mark_with};

use crate::lent::LentField;
use h2_hpack_validity::{FieldMark, KnownName};

// Text, since a proof goes through 61 pairs of texts in a second, through octets in seven.
/// The entries in order, the first at index 1.
static ENTRIES: [(&str, &str); 61] = [
    (":authority", ""),
    (":method", "GET"),
    (":method", "POST"),
    (":path", "/"),
    (":path", "/index.html"),
    (":scheme", "http"),
    (":scheme", "https"),
    (":status", "200"),
    (":status", "204"),
    (":status", "206"),
    (":status", "304"),
    (":status", "400"),
    (":status", "404"),
    (":status", "500"),
    ("accept-charset", ""),
    ("accept-encoding", "gzip, deflate"),
    ("accept-language", ""),
    ("accept-ranges", ""),
    ("accept", ""),
    ("access-control-allow-origin", ""),
    ("age", ""),
    ("allow", ""),
    ("authorization", ""),
    ("cache-control", ""),
    ("content-disposition", ""),
    ("content-encoding", ""),
    ("content-language", ""),
    ("content-length", ""),
    ("content-location", ""),
    ("content-range", ""),
    ("content-type", ""),
    ("cookie", ""),
    ("date", ""),
    ("etag", ""),
    ("expect", ""),
    ("expires", ""),
    ("from", ""),
    ("host", ""),
    ("if-match", ""),
    ("if-modified-since", ""),
    ("if-none-match", ""),
    ("if-range", ""),
    ("if-unmodified-since", ""),
    ("last-modified", ""),
    ("link", ""),
    ("location", ""),
    ("max-forwards", ""),
    ("proxy-authenticate", ""),
    ("proxy-authorization", ""),
    ("range", ""),
    ("referer", ""),
    ("refresh", ""),
    ("retry-after", ""),
    ("server", ""),
    ("set-cookie", ""),
    ("strict-transport-security", ""),
    ("transfer-encoding", ""),
    ("user-agent", ""),
    ("vary", ""),
    ("via", ""),
    ("www-authenticate", ""),
];

/// Which known name each entry has; no entry is malformed for anything.
static KNOWN: [KnownName; 61] = [
    KnownName::Authority,
    KnownName::Method,
    KnownName::Method,
    KnownName::Path,
    KnownName::Path,
    KnownName::Scheme,
    KnownName::Scheme,
    KnownName::OtherPseudo,
    KnownName::OtherPseudo,
    KnownName::OtherPseudo,
    KnownName::OtherPseudo,
    KnownName::OtherPseudo,
    KnownName::OtherPseudo,
    KnownName::OtherPseudo,
    KnownName::Other,
    KnownName::Other,
    KnownName::Other,
    KnownName::Other,
    KnownName::Other,
    KnownName::Other,
    KnownName::Other,
    KnownName::Other,
    KnownName::Other,
    KnownName::Other,
    KnownName::Other,
    KnownName::Other,
    KnownName::Other,
    KnownName::ContentLength,
    KnownName::Other,
    KnownName::Other,
    KnownName::Other,
    KnownName::Other,
    KnownName::Other,
    KnownName::Other,
    KnownName::Other,
    KnownName::Other,
    KnownName::Other,
    KnownName::Other,
    KnownName::Other,
    KnownName::Other,
    KnownName::Other,
    KnownName::Other,
    KnownName::Other,
    KnownName::Other,
    KnownName::Other,
    KnownName::Other,
    KnownName::Other,
    KnownName::Other,
    KnownName::Other,
    KnownName::Other,
    KnownName::Other,
    KnownName::Other,
    KnownName::Other,
    KnownName::Other,
    KnownName::Other,
    KnownName::Other,
    KnownName::OfConnection,
    KnownName::Other,
    KnownName::Other,
    KnownName::Other,
    KnownName::Other,
];

/// The table as a slice; read here alone, so that no other proof goes through its entries.
#[tactic(auto, unfolding(h2_spec::specs::Hpack::StaticTable::static_entries))]
fn entries() -> &'static [(&'static str, &'static str)]
    ensures { map lent_field result.now ≡ spec.static_entries }
{
    &ENTRIES
}

/// The entry at a place of a table.
fn entry_of(
    entries: &'static [(&'static str, &'static str)],
    place: usize,
) -> Option<(&'static [u8], &'static [u8])>
    ensures { option_map lent_field result ≡ slice_get (map lent_field entries.now) place }
{
    if place < entries.len() {
        let (name, value) = entries[place];
        Some((name.as_bytes(), value.as_bytes()))
    } else {
        None
    }
}

/// The name and the value at an index of the static table, from 1 to 61; none at any other.
pub fn static_field(i: usize) -> Option<(&'static [u8], &'static [u8])>
    ensures { option_map lent_field result ≡ spec.static_field i }
{
    if i == 0 {
        None
    } else {
        entry_of(entries(), i - 1)
    }
}

/// As `static_field`, with the mark of the entry.
pub fn static_entry(i: usize) -> Option<LentField<'static>>
    ensures field { option_map field_lent result ≡ spec.static_field i }
    ensures marked { IfSome result IsMarked }
{
    let (name, value) = static_field(i)?;
    let mark = static_mark(i);
    Some(LentField { name, value, mark })
}

/// The names of the table's entries as a slice; read here alone, as `entries` is.
#[tactic(auto, unfolding(h2_spec::specs::Hpack::StaticTable::static_entries, h2_hpack_validity::specs::Mark::mark_of, h2_hpack_validity::specs::Mark::known_of))]
fn known_names() -> &'static [KnownName]
    ensures { map mark_with result.now ≡ map mark_of spec.static_entries }
{
    &KNOWN
}

/// The mark of the entry at an index of the static table; any mark where there is none.
fn static_mark(i: usize) -> FieldMark
    ensures { (f : Field) → Some f ≡ spec.static_field i → result ≡ mark_of f }
{
    let known = known_names();
    if i == 0 || i > known.len() {
        mark_with(KnownName::Other)
    } else {
        mark_with(known[i - 1])
    }
}

/// The mark of an entry with this name.
fn mark_with(known: KnownName) -> FieldMark
    ensures { result ≡ mark_with known }
{
    FieldMark {
        known,
        bad_name: false,
        bad_value: false,
        bad_te: false,
    }
}
