//! Memory that one fragment of a field block leaves to the next. It is beside the state and lent with it, so that a
//! fragment moves neither.

use crate::field_block::decoding::Decoding;
use h2_spec::connection::Purpose;
use h2_table::Edit;
use std::alloc::Allocator;

// Beside the state and lent with it: inside the state, each HEADERS moved both out and in.
/// Memory for fragments of field blocks. What is in it between two items means nothing.
#[derive(Drop)]
pub struct Scratch<A: Allocator> {
    /// The edit of the header table by a fragment.
    pub edit: Edit<A>,
    /// The decoding of a block that began with the fragment at hand, or the memory of one that has ended.
    pub decoding: Decoding<A>,
}

impl<A: Allocator + Copy> Scratch<A> {
    /// Takes no memory.
    pub fn new(alloc: A) -> Self {
        Scratch {
            edit: Edit::new(alloc),
            decoding: Decoding::fresh(alloc, Purpose::Request, false),
        }
    }
}
