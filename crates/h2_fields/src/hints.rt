//! Where fields of the tables are in a list of fields: guesses, for what `FieldList` shares. No contract says what a
//! guess is: a wrong one costs memory and changes no field.

ghost use Rattle.std.specs.Prelude.{◌≤◌};

use std::alloc::{AllocError, Allocator};

// A guess for each index: the last field made from it. `append_like` compares; a wrong guess costs a copy.
/// For each entry of the static and of the dynamic table the place of a field in a list that may be the same.
///
/// Each entry that can be in the table at a time has a guess of its own (RFC 7541, 4.1: an entry counts 32 octets or
/// more), so a list gets the octets of an entry once, however often a block refers to it.
#[derive(Drop)]
pub(crate) struct Hints<A: Allocator> {
    places: Vec<usize, A>,
    /// How many entries were added, modulo the most entries of the table.
    added: usize,
}

impl<A: Allocator> Hints<A> {
    /// No guess. Takes no memory.
    pub(crate) fn new(alloc: A) -> Self {
        Hints {
            places: Vec::new(alloc),
            added: 0,
        }
    }

    /// Which guess is that of an index of the tables, where the limit of the dynamic table is `limit` octets.
    pub(crate) fn key(&self, index: u64, limit: u32) -> usize {
        if index <= 61 {
            return index as usize;
        }
        let entries = most_entries(limit);
        let age = (index - 61) as usize;
        62 + self.added.wrapping_add(entries).wrapping_sub(age) % entries
    }

    /// The guess for a key; no place at all where there is none.
    pub(crate) fn place(&self, key: usize) -> usize {
        if key < self.places.len() {
            self.places[key]
        } else {
            usize::MAX
        }
    }

    /// Sets the guess for a key.
    ///
    /// # Errors
    ///
    /// `AllocError` where memory for the guesses was refused.
    pub(crate) fn set(&mut self, key: usize, limit: u32, place: usize) -> Result<(), AllocError> {
        if key >= self.places.len() {
            self.places.resize(62 + most_entries(limit), usize::MAX)?;
        }
        if key < self.places.len() {
            self.places[key] = place;
        }
        Ok(())
    }

    /// An entry was added to the dynamic table: the others are one place further from its front.
    pub(crate) fn entry_added(&mut self, limit: u32) {
        self.added = self.added.wrapping_add(1) % most_entries(limit);
    }
}

/// The most entries of a dynamic table with this limit, but 1 at least.
fn most_entries(limit: u32) -> usize
    ensures positive { 1 ≤ result }
    ensures small { result ≤ 134217728 }
{
    (limit / 32).max(1) as usize
}
