//! The fields of an answer: a small type over a list that contracts see as the list itself.

ghost use Rattle.std.specs.Prelude.{◌≡◌};

use h2_hpack_instruction::field::Field;
use std::alloc::Allocator;
use std::marker::Model;

/// The fields of an answer besides its status, in their order.
#[derive(Drop)]
pub struct EntryFields<A: Allocator> {
    items: Vec<Field<A>, A>,
}

impl<A: Allocator> Model for EntryFields<A> {
    ghost use Rattle.std.specs.Prelude.{List};
    ghost use Rattle.h2_spec.specs.Hpack.Field as spec;

    ghost Value = { List spec.Field };

    ghost view = { λ e. e.items.items };
}

impl<A: Allocator> EntryFields<A> {
    /// These fields; no memory is taken.
    pub fn new(items: Vec<Field<A>, A>) -> Self
        ensures { result ≡ items.items }
    {
        EntryFields { items }
    }

    /// The fields, in their order.
    pub fn as_slice(&self) -> &[Field<A>]
        ensures { result.now ≡ self.now }
    {
        self.items.as_slice()
    }

    /// The fields as a list of its own; the value is given up and no memory is taken.
    pub fn into_vec(self) -> Vec<Field<A>, A>
        ensures { result.items ≡ self }
    {
        self.items
    }
}
