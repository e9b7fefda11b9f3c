//! A list of fields, as a request or trailers are checked over it. What a list contains is `fields_in` of
//! specs/Fields.antt.

ghost use Rattle.std.specs.Prelude.{◌≡◌, length, slice_get, IfSome};
ghost use Rattle.std.specs.Option.{option_map};
ghost use Rattle.h2_spec.specs.Hpack.Field.{field};
ghost use Rattle.h2_table.specs.Lent.{field_lent, IsMarked};
ghost use Rattle.h2_request_well_formed.specs.Fields.{fields_in};

use h2_fields::collected::Collected;
use h2_hpack_instruction::field::Field;
use h2_hpack_validity::FieldMark;
use h2_table::LentField;
use std::alloc::Allocator;

/// A list of fields: each with octets of its own, or those of a block, whose octets are one list.
#[derive(Drop)]
pub enum Fields<'a, A: Allocator> {
    Slice(&'a [Field<A>]),
    Block(&'a Collected<A>),
}

impl<'a, A: Allocator> Fields<'a, A> {
    /// How many fields there are.
    pub fn len(&self) -> usize
        ensures { result ≡ length (fields_in self.now) }
    {
        match self {
            Fields::Slice(fields) => fields.len(),
            Fields::Block(fields) => fields.len(),
        }
    }

    /// The field at a place, counted from 0, with its mark; none from the end of the list on. A block has the marks of
    /// its fields already.
    #[inline(always)]
    pub fn get(&self, place: usize) -> Option<LentField<'a>>
        ensures field { option_map field_lent result ≡ slice_get (fields_in self.now) place }
        ensures marked { IfSome result IsMarked }
    {
        match self {
            Fields::Slice(fields) => {
                let field = fields.get(place)?;
                Some(lend(field.name.as_slice(), field.value.as_slice()))
            }
            Fields::Block(fields) => fields.lent(place),
        }
    }
}

/// A field with its mark, which is found here.
fn lend<'a>(name: &'a [u8], value: &'a [u8]) -> LentField<'a>
    ensures field { field_lent result ≡ field name.now value.now }
    ensures marked { IsMarked result }
{
    LentField {
        name,
        value,
        mark: FieldMark::of(name, value),
    }
}
