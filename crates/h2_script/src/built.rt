//! The octets of a payload that a text says. What a payload represents is `payload_octets` of `h2_spec`,
//! specs/Texts/Script.antt.

use std::alloc::Allocator;

/// The octets of a payload.
#[derive(Drop)]
pub(crate) enum Built<A: Allocator> {
    /// The octets, any number of them.
    Whole(Vec<u8, A>),
    /// They are more than a frame holds, 2^24 or more, and were not written out.
    Long,
}
