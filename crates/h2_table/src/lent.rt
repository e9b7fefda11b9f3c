//! A field that a table lends, with its mark. That the mark is the field's is `IsMarked` of specs/Lent.antt.

use h2_hpack_validity::FieldMark;

/// The name and the value of an entry, and what it can be malformed for by itself.
#[derive(Clone, Copy)]
pub struct LentField<'a> {
    /// The octets of the name.
    pub name: &'a [u8],
    /// The octets of the value.
    pub value: &'a [u8],
    /// Their mark.
    pub mark: FieldMark,
}
