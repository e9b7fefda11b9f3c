//! What a field can be malformed for by itself, and which of the names that the rules of a request are about it has
//! (RFC 9113, 8.1.1, 8.2 and 8.3). The definition is `mark_of` of specs/Mark.antt, over the tests of `h2_spec`,
//! specs/Requests/Request.antt. A name is compared with the known names of its length alone: proofs/KnownNames.antt
//! proves that
//! this finds the same.

ghost use Rattle.std.specs.Prelude.{◌≡◌, ◌&&◌, not, [], bytes_eq, codes, map};
ghost use Rattle.std.specs.Char.{to_ascii_lowercase};
ghost use Rattle.h2_spec.specs.Hpack.Field.{Field, field};
ghost use Rattle.h2_spec.specs.Requests.Request.{has_bad_name};
ghost use Rattle.h2_hpack_validity.specs.Mark.{mark_of, known_of, known_by_length, unknown, one_name, of_seven, of_ten, is_other, begins_with_colon, is_te, is_connection};

use crate::octets;

/// The names that the rules of a request are about.
#[derive(Clone, Copy)]
pub enum KnownName {
    Method,
    Scheme,
    Path,
    Authority,
    /// Another name that begins with a colon.
    OtherPseudo,
    ContentLength,
    Te,
    /// A field of an HTTP/1.1 connection (RFC 9113, 8.2.2).
    OfConnection,
    /// Another name.
    Other,
}

impl KnownName {
    /// Which name this is.
    #[tactic(auto, unfolding(crate::specs::Mark::known_by_length))]
    fn by_length(name: &[u8]) -> Self
        ensures { result ≡ known_by_length name.now }
    {
        match name.len() {
            2 => one_name(name, b"te", KnownName::Te),
            5 => one_name(name, b":path", KnownName::Path),
            7 => of_seven(name),
            10 => of_ten(name),
            14 => one_name(name, b"content-length", KnownName::ContentLength),
            16 => one_name(name, b"proxy-connection", KnownName::OfConnection),
            17 => one_name(name, b"transfer-encoding", KnownName::OfConnection),
            _ => unknown(name),
        }
    }

    /// Which name this is.
    pub fn of(name: &[u8]) -> Self
        ensures { result ≡ known_of name.now }
    {
        KnownName::by_length(name)
    }

    /// Whether it is none of the names themselves.
    fn is_other(self) -> bool
        ensures { result ≡ is_other self }
    {
        matches!(self, KnownName::OtherPseudo | KnownName::Other)
    }

    /// Whether it is that of a pseudo-field.
    pub fn is_pseudo(self) -> bool
        ensures { result ≡ begins_with_colon self }
    {
        match self {
            KnownName::Method
            | KnownName::Scheme
            | KnownName::Path
            | KnownName::Authority
            | KnownName::OtherPseudo => true,
            KnownName::ContentLength | KnownName::Te | KnownName::OfConnection | KnownName::Other =>
                false,
        }
    }

    /// Whether it is `te`.
    fn is_te(self) -> bool
        ensures { result ≡ is_te self }
    {
        matches!(self, KnownName::Te)
    }

    /// Whether it is that of a field of an HTTP/1.1 connection.
    pub fn is_of_connection(self) -> bool
        ensures { result ≡ is_connection self }
    {
        matches!(self, KnownName::OfConnection)
    }
}

/// A name that is none of the names themselves.
fn unknown(name: &[u8]) -> KnownName
    ensures { result ≡ unknown name.now }
{
    if octets::is_pseudo_name(name) {
        KnownName::OtherPseudo
    } else {
        KnownName::Other
    }
}

/// A name that is this one, or none of them.
fn one_name(name: &[u8], other: &[u8], known: KnownName) -> KnownName
    ensures { result ≡ one_name other.now known name.now }
{
    if octets::same(name, other) {
        known
    } else {
        unknown(name)
    }
}

/// A name of seven octets.
fn of_seven(name: &[u8]) -> KnownName
    ensures { result ≡ of_seven name.now }
{
    if octets::same(name, b":method") {
        KnownName::Method
    } else if octets::same(name, b":scheme") {
        KnownName::Scheme
    } else {
        one_name(name, b"upgrade", KnownName::OfConnection)
    }
}

/// A name of ten octets.
fn of_ten(name: &[u8]) -> KnownName
    ensures { result ≡ of_ten name.now }
{
    if octets::same(name, b":authority") {
        KnownName::Authority
    } else if octets::same(name, b"connection") {
        KnownName::OfConnection
    } else {
        one_name(name, b"keep-alive", KnownName::OfConnection)
    }
}

/// What a field can be malformed for by itself.
#[derive(Clone, Copy)]
pub struct FieldMark {
    /// Which name it has.
    pub known: KnownName,
    /// Whether its name is empty, has an octet that no name has, or a colon that is not its first octet.
    pub bad_name: bool,
    /// Whether its value has an octet that no value has, or begins or ends with a blank.
    pub bad_value: bool,
    /// Whether it is a `te` field that is not `trailers`.
    pub bad_te: bool,
}

impl FieldMark {
    /// The mark of the field of this name and this value.
    pub fn of(name: &[u8], value: &[u8]) -> Self
        ensures { result ≡ mark_of (field name.now value.now) }
    {
        let known = KnownName::of(name);
        FieldMark {
            known,
            bad_name: has_bad_name(known, name),
            bad_value: octets::is_bad_value(value),
            bad_te: has_bad_te(known, value),
        }
    }

    /// The mark of a field with the name of one that has this mark, and this value.
    pub fn with_value(self, value: &[u8]) -> Self
        ensures { (f : Field) → self ≡ mark_of f → result ≡ mark_of (field f.name value.now) }
    {
        FieldMark {
            known: self.known,
            bad_name: self.bad_name,
            bad_value: octets::is_bad_value(value),
            bad_te: has_bad_te(self.known, value),
        }
    }
}

/// Whether a name that is this one is bad: none of the known names is.
fn has_bad_name(known: KnownName, name: &[u8]) -> bool
    ensures { result ≡ (is_other known && has_bad_name (field name.now [])) }
{
    known.is_other() && octets::is_bad_name(name)
}

/// Whether a field of this name is a `te` field whose value is not `trailers`.
fn has_bad_te(known: KnownName, value: &[u8]) -> bool
    ensures { result ≡ (is_te known && not (bytes_eq (map to_ascii_lowercase value.now) (codes "trailers"))) }
{
    known.is_te() && !octets::is_trailers(value)
}
