//! The lists that a view owns: small types over a list that contracts see as the list itself.

ghost use Rattle.std.specs.Prelude.{◌≡◌};

use h2_hpack_instruction::field::Field;
use h2_spec::streams::StreamView;
use std::alloc::Allocator;
use std::marker::Model;

/// The entries of a header table, the newest first.
#[derive(Drop)]
pub struct Entries<A: Allocator> {
    items: Vec<Field<A>, A>,
}

impl<A: Allocator> Model for Entries<A> {
    ghost use Rattle.std.specs.Prelude.{List};
    ghost use Rattle.h2_spec.specs.Hpack.Field as spec;

    ghost Value = { List spec.Field };

    ghost view = { λ e. e.items.items };
}

impl<A: Allocator> Entries<A> {
    /// These entries; no memory is taken.
    pub fn new(items: Vec<Field<A>, A>) -> Self
        ensures { result ≡ items.items }
    {
        Entries { items }
    }

    /// The entries, in their order.
    pub fn as_slice(&self) -> &[Field<A>]
        ensures { result.now ≡ self.now }
    {
        self.items.as_slice()
    }

    /// The entries as a list of its own; the value is given up and no memory is taken.
    pub fn into_vec(self) -> Vec<Field<A>, A>
        ensures { result.items ≡ self }
    {
        self.items
    }
}

/// What is shown of streams, in the order of their opening.
#[derive(Drop)]
pub struct StreamViews<A: Allocator> {
    items: Vec<StreamView, A>,
}

impl<A: Allocator> Model for StreamViews<A> {
    ghost use Rattle.std.specs.Prelude.{List};
    ghost use Rattle.h2_spec.specs.declared.streams.StreamView as spec;

    ghost Value = { List spec.StreamView };

    ghost view = { λ s. s.items.items };
}

impl<A: Allocator> StreamViews<A> {
    /// These streams; no memory is taken.
    pub fn new(items: Vec<StreamView, A>) -> Self
        ensures { result ≡ items.items }
    {
        StreamViews { items }
    }

    /// The streams, in their order.
    pub fn as_slice(&self) -> &[StreamView]
        ensures { result.now ≡ self.now }
    {
        self.items.as_slice()
    }

    /// The streams as a list of its own; the value is given up and no memory is taken.
    pub fn into_vec(self) -> Vec<StreamView, A>
        ensures { result.items ≡ self }
    {
        self.items
    }
}
