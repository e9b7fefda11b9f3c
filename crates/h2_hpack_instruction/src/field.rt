//! Header fields: a name and a value, each a list of octets (RFC 7541, 1.3). Contracts see a field as the record
//! `Field` of the definitions (`h2_spec`, specs/Hpack/Field.antt).

ghost use Rattle.std.specs.Prelude.{◌≡◌, IfOk};

use crate::octets::Octets;
use std::alloc::{AllocError, Allocator};
use std::marker::Model;

/// A header field (RFC 7541, 1.3): a name and a value, of any octets and any length.
#[derive(Drop)]
pub struct Field<A: Allocator> {
    /// The name, as it came: nothing is folded to lower case here.
    pub name: Octets<A>,
    /// The value.
    pub value: Octets<A>,
}

impl<A: Allocator> Model for Field<A> {
    ghost use Rattle.h2_spec.specs.Hpack.Field as spec;

    ghost Value = { spec.Field };

    ghost view = { λ f. record { name = f.name; value = f.value } };
}

impl<A: Allocator> Field<A> {
    /// The field of this name and this value; no memory is taken.
    pub fn new(name: Vec<u8, A>, value: Vec<u8, A>) -> Self
        ensures { result ≡ record { name = name.items; value = value.items } }
    {
        Field {
            name: Octets::new(name),
            value: Octets::new(value),
        }
    }
}

impl<A: Allocator + Copy> Field<A> {
    /// The field of this name and this value, in memory of its own.
    ///
    /// # Errors
    ///
    /// `AllocError` where the memory was refused.
    pub fn of(alloc: A, name: &[u8], value: &[u8]) -> Result<Field<A>, AllocError>
        ensures { IfOk result (λ field. field ≡ record { name = name.now; value = value.now }) }
    {
        let name = Vec::from_slice(alloc, name)?;
        let value = Vec::from_slice(alloc, value)?;
        Ok(Field::new(name, value))
    }

    /// A copy of the field, in memory of its own.
    ///
    /// # Errors
    ///
    /// `AllocError` where the memory was refused; `self` is as it was.
    pub fn try_clone(&self) -> Result<Field<A>, AllocError>
        ensures same { IfOk result (λ copy. copy ≡ self.now) }
    {
        Ok(Field {
            name: self.name.try_clone()?,
            value: self.value.try_clone()?,
        })
    }
}
