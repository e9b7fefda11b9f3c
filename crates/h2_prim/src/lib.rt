//! The primitive types of HPACK (RFC 7541, 5): integers with a prefix, and strings with their Huffman code. The
//! definitions are Integer, Huffman, HuffmanCode and, for strings, Instruction of `h2_spec`. How an answer of this
//! crate is one of the definitions' is in `specs/Readings.antt`.
#![tactic(auto)]

pub mod fault;
pub mod huffman;
pub mod integer;
pub mod string;
mod tables;

pub use fault::HuffFault;
pub use huffman::{huff_append, huff_len, huff_read, huff_write};
pub use integer::{IntRead, read_int, write_int};
pub use string::{StrAt, StrRead, find_str, read_str};
