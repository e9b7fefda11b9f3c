//! The rising list of the identifiers of the streams that can send.
//! Definitions: `specs/Kept.antt`.

ghost use Rattle.std.specs.Prelude.{◌≡◌, ◌+◌, ◌<◌, ◌≤◌, ◌++◌, ◌∷◌, [], length, if◌then◌else◌};
ghost use Rattle.std.specs.Vec.{vec_len, vec_capacity};
ghost use Rattle.h2_streams.specs.Kept as kept;

use std::alloc::Allocator;

/// Puts an identifier into a rising list or takes it out. The list has space for it.
#[inline(always)]
pub(crate) fn list<A: Allocator>(ids: &mut Vec<u32, A>, id: u32, is_in: bool)
    requires rising { kept.IdsRise 0 ids.old.items }
    requires enough { length (kept.listed is_in id ids.old.items) ≤ vec_capacity ids.old }
    ensures items { ids.new.items ≡ kept.listed is_in id ids.old.items }
    ensures capacity { vec_capacity ids.old ≤ vec_capacity ids.new }
{
    if is_in {
        place(ids, id);
    } else {
        remove(ids, id);
    }
}

/// Takes an identifier out of a rising list, which most often is empty.
#[inline(always)]
fn remove<A: Allocator>(ids: &mut Vec<u32, A>, id: u32)
    requires { kept.IdsRise 0 ids.old.items }
    ensures items { ids.new.items ≡ kept.without id ids.old.items }
    ensures capacity { vec_capacity ids.old ≤ vec_capacity ids.new }
{
    if ids.is_empty() {
        return;
    }
    if let Ok(place) = ids.binary_search(&id) {
        ids.remove(place);
    }
}

/// Puts an identifier into a rising list, which has space for it.
#[inline(always)]
fn place<A: Allocator>(ids: &mut Vec<u32, A>, id: u32)
    requires rising { kept.IdsRise 0 ids.old.items }
    requires enough { length (kept.placed id ids.old.items) ≤ vec_capacity ids.old }
    ensures items { ids.new.items ≡ kept.placed id ids.old.items }
    ensures capacity { vec_capacity ids.old ≤ vec_capacity ids.new }
{
    if let Err(place) = ids.binary_search(&id) {
        let _ = ids.insert(place, id);
    }
}

/// Puts an identifier after the others, if it is to be listed. There is space for it.
pub(crate) fn append<A: Allocator>(ids: &mut Vec<u32, A>, id: u32, is_in: bool)
    requires { vec_len ids.old < vec_capacity ids.old }
    ensures items { ids.new.items ≡ ids.old.items ++ (if is_in then id ∷ [] else []) }
    ensures len { vec_len ids.new ≤ vec_len ids.old + 1 }
    ensures capacity { vec_capacity ids.old ≤ vec_capacity ids.new }
{
    if is_in {
        ids.push_reserved(id);
    }
}

/// The part of a rising list above this identifier.
pub(crate) fn ids_above(ids: &[u32], after: u32) -> &[u32]
    requires { kept.IdsRise 0 ids.now }
    ensures { result.now ≡ kept.above after ids.now }
{
    let start = ids.partition_point(|id| *id <= after);
    &ids[start..]
}
