//! Octets that own their memory: a small type over a list that contracts see as the list itself. What fields and
//! strings mean by their octets is in the definitions (`h2_spec`, Field and Instruction).

ghost use Rattle.std.specs.Prelude.{◌≡◌, IfOk};

use std::alloc::{AllocError, Allocator};
use std::marker::Model;

/// A list of octets, kept in the memory of `A`: a name, a value, or another string.
#[derive(Drop)]
pub struct Octets<A: Allocator> {
    items: Vec<u8, A>,
}

impl<A: Allocator> Model for Octets<A> {
    ghost use Rattle.std.specs.Prelude.{ℕ, List};

    ghost Value = { List ℕ };

    ghost view = { λ o. o.items.items };
}

impl<A: Allocator> Octets<A> {
    /// The octets of `items`, any number of them; no memory is taken.
    pub fn new(items: Vec<u8, A>) -> Self
        ensures { result ≡ items.items }
    {
        Octets { items }
    }

    /// The octets, in their order.
    pub fn as_slice(&self) -> &[u8]
        ensures { result.now ≡ self.now }
    {
        self.items.as_slice()
    }

    /// The octets as a list of its own; the value is given up and no memory is taken.
    pub fn into_vec(self) -> Vec<u8, A>
        ensures { result.items ≡ self }
    {
        self.items
    }
}

impl<A: Allocator + Copy> Octets<A> {
    /// A copy of the octets, in memory of their own.
    ///
    /// # Errors
    ///
    /// `AllocError` where the memory was refused; `self` is as it was.
    pub fn try_clone(&self) -> Result<Octets<A>, AllocError>
        ensures same { IfOk result (λ copy. copy ≡ self.now) }
    {
        let items = self.items.clone()?;
        Ok(Octets { items })
    }
}
