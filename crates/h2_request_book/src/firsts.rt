//! The first entry of a book with a method and a path: its place, found by one hash of their octets. Definitions:
//! `specs/Firsts.antt`. A book is written by the user, so the hasher is a fixed one: only the book's own author could
//! crowd the map.

ghost use Rattle.std.specs.Prelude.{◌≡◌, [], nat_lt, fold, IfOk, OnOk, OnErr};
ghost use Rattle.std.specs.Cmp.{on_equiv, on_per, partial_equiv_from_equiv};
ghost use Rattle.std.specs.Ordering.{on};
ghost use Rattle.h2_request_book.specs.Firsts.{Key, below, find, same, same_equiv, same_inputs, wanted, with_first};
ghost use Rattle.h2_request_book.specs.Firsts as spec;

use h2_hpack_instruction::octets::Octets;
use h2_hpack_validity::octets;
use indexmap::{Equivalent, IndexMap};
use std::alloc::{AllocError, Allocator};
use std::hash::{BuildHasher, Hash, Hasher};
use std::marker::Model;

// Method and path have memory of their own, so that a look-up reads no entry.
/// The method and the path of an entry, in memory of their own.
#[derive(Drop)]
struct EntryKey<A: Allocator> {
    method: Octets<A>,
    path: Octets<A>,
}

impl<A: Allocator> Model for EntryKey<A> {
    ghost use Rattle.std.specs.Prelude.{ℕ, List};

    ghost Value = { List ℕ × List ℕ };

    ghost view = { λ k. (k.method, k.path) };
}

impl<A: Allocator> PartialEq for EntryKey<A> {
    ghost eq = { same };

    ghost laws = { partial_equiv_from_equiv same_equiv };

    fn eq(&self, other: &EntryKey<A>) -> bool {
        octets::same(self.method.as_slice(), other.method.as_slice())
            && octets::same(self.path.as_slice(), other.path.as_slice())
    }
}

impl<A: Allocator> Eq for EntryKey<A> {
    ghost laws = { same_equiv };
}

impl<A: Allocator> Hash for EntryKey<A> {
    ghost hash_input = { spec.inputs };

    ghost respects_eq = { same_inputs };

    fn hash<H: Hasher>(&self, state: &mut H) {
        state.write(self.method.as_slice());
        state.write(self.path.as_slice());
    }
}

/// The method and the path of a request.
#[derive(Clone, Copy)]
struct Wanted<'a> {
    method: &'a [u8],
    path: &'a [u8],
}

impl<'a> PartialEq for Wanted<'a> {
    ghost eq = { on wanted same };

    ghost laws = { on_per wanted (partial_equiv_from_equiv same_equiv) };

    fn eq(&self, other: &Wanted<'a>) -> bool {
        octets::same(self.method, other.method) && octets::same(self.path, other.path)
    }
}

impl<'a> Eq for Wanted<'a> {
    ghost laws = { on_equiv wanted same_equiv };
}

impl<'a> Hash for Wanted<'a> {
    ghost hash_input = { λ w. spec.inputs (wanted w) };

    ghost respects_eq = { λ a b. same_inputs (wanted a) (wanted b) };

    fn hash<H: Hasher>(&self, state: &mut H) {
        state.write(self.method);
        state.write(self.path);
    }
}

impl<'a, A: Allocator> Equivalent<EntryKey<A>> for Wanted<'a> {
    ghost equivalent = { λ w. same (wanted w) };

    ghost respects_hash = { λ w. same_inputs (wanted w) };

    ghost respects_eq = { λ w. same_equiv.congr (wanted w) };

    fn equivalent(&self, key: &EntryKey<A>) -> bool {
        octets::same(self.method, key.method.as_slice())
            && octets::same(self.path, key.path.as_slice())
    }
}

/// FNV-1a of 64 bits over all octets that are written.
#[derive(Clone, Copy)]
struct OctetHasher {
    hash: u64,
}

impl Hasher for OctetHasher {
    ghost write = { λ h octets. record { hash = fold spec.mixed h.hash octets } };

    ghost finish = { λ h. h.hash };

    fn finish(&self) -> u64 {
        self.hash
    }

    fn write(&mut self, bytes: &[u8]) {
        let mut hash = self.hash;
        for byte in bytes {
            hash = (hash ^ u64::from(*byte)).wrapping_mul(0x0000_0100_0000_01b3);
        }
        self.hash = hash;
    }
}

/// Makes a hasher for each key, always the same.
#[derive(Clone, Copy)]
struct OctetHash;

impl BuildHasher for OctetHash {
    type Hasher = OctetHasher;

    ghost build_hasher = { λ _. record { hash = 14695981039346656037 } };

    fn build_hasher(&self) -> OctetHasher {
        OctetHasher {
            hash: 0xcbf2_9ce4_8422_2325,
        }
    }
}

/// The place of the first entry with each method and path, in the order of those entries.
#[derive(Drop)]
pub(crate) struct Firsts<A: Allocator> {
    places: IndexMap<EntryKey<A>, usize, OctetHash, A>,
}

impl<A: Allocator> Model for Firsts<A> {
    ghost use Rattle.std.specs.Prelude.{ℕ, List};

    ghost Value = { List ((List ℕ × List ℕ) × ℕ) };

    ghost view = { λ f. f.places.entries };
}

impl<A: Allocator + Copy> Firsts<A> {
    /// No entry yet. Takes no memory.
    pub(crate) fn new(alloc: A) -> Self
        ensures { result ≡ [] }
    {
        Firsts {
            places: IndexMap::with_hasher(alloc, OctetHash),
        }
    }

    /// Notes that an entry with this method and this path is at this place, after the others: nothing changes where
    /// there is one before it.
    ///
    /// `AllocError` where memory is refused, and then nothing changes.
    pub(crate) fn note(
        &mut self,
        method: &Octets<A>,
        path: &Octets<A>,
        place: usize,
    ) -> Result<(), AllocError>
        ensures noted { OnOk result (self.new ≡ with_first (method.now, path.now) place self.old) }
        ensures kept { OnErr result (self.new ≡ self.old) }
    {
        if self.place_of(method.as_slice(), path.as_slice()).is_some() {
            return Ok(());
        }
        let key = key_of(method, path)?;
        self.places.insert(key, place)?;
        Ok(())
    }
}

impl<A: Allocator> Firsts<A> {
    /// The place of the first entry with this method and this path, if there is one.
    pub(crate) fn place_of(&self, method: &[u8], path: &[u8]) -> Option<usize>
        ensures { result ≡ find (method.now, path.now) self.now }
    {
        let place = self.places.get(Wanted { method, path })?;
        Some(*place)
    }

    /// Forgets the entries from this place on.
    pub(crate) fn truncate(&mut self, count: usize)
        ensures { (key : Key) → find key self.new ≡ below count (find key self.old) }
    {
        let _len = self.places.len(); // which says that no two keys are the same
        self.places.retain(
            |_key: &EntryKey<A>, place: &mut usize| -> bool
                ensures { (result ≡ nat_lt place.old count) × (place.new ≡ place.old) }
            { *place < count },
        );
    }
}

/// The method and the path once more, as a key.
fn key_of<A: Allocator + Copy>(
    method: &Octets<A>,
    path: &Octets<A>,
) -> Result<EntryKey<A>, AllocError>
    ensures { IfOk result (λ key. key ≡ (method.now, path.now)) }
{
    let method = method.try_clone()?;
    let path = path.try_clone()?;
    Ok(EntryKey { method, path })
}
