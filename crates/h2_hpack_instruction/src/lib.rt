//! Instructions of a field block (RFC 7541, 6): header fields, reading one instruction and reading it on, writing one, and
//! the block of a response. The decoder of blocks is h2_fields. The definitions are Field, Instruction and Answer of `h2_spec`.
#![tactic(auto)]

pub mod fault;
pub mod field;
pub mod instruction;
pub mod laws;
pub mod octets;
pub mod response;
pub mod shape;
