//! Parts of a list of octets.

ghost use Rattle.std.specs.Prelude.{◌≡◌, ◌≤◌, length, take, drop};
ghost use Rattle.std.specs.Vec.{vec_len};

use std::alloc::Allocator;

/// The octets from a place on. The place is counted from 0 and may be the length: then there are none.
pub fn octets_from(octets: &[u8], start: usize) -> &[u8]
    requires { start ≤ length octets.now }
    ensures { result.now ≡ drop start octets.now }
{
    &octets[start..]
}

/// The octets before a place. The place is counted from 0 and may be the length: then they are all.
pub fn octets_up_to(octets: &[u8], end: usize) -> &[u8]
    requires { end ≤ length octets.now }
    ensures { result.now ≡ take end octets.now }
{
    &octets[..end]
}

/// The first `count` octets; all where there are fewer.
pub fn first_octets(octets: &[u8], count: usize) -> &[u8]
    ensures { result.now ≡ take count octets.now }
{
    if octets.len() < count {
        return octets;
    }
    octets_up_to(octets, count)
}

/// Takes out the first octets, this many; those after them are moved to the front once. Where they are none, nothing
/// moves.
pub fn drop_front<A: Allocator>(octets: &mut Vec<u8, A>, count: usize)
    requires { count ≤ vec_len octets.old }
    ensures { octets.new.items ≡ drop count octets.old.items }
{
    if count > 0 {
        let left = octets.len() - count;
        octets.copy_within(count.., 0);
        octets.truncate(left);
    }
}
