//! Field blocks of HPACK (RFC 7541): the decoder of blocks, over the instructions of h2_hpack_instruction, and what it has
//! collected. The definition is Block of `h2_spec`.
#![tactic(auto)]

mod batches;
pub mod block;
pub mod collected;
mod effect;
pub mod fragment;
mod hints;
pub mod kept_rest;
pub mod laws;
pub mod rest;

pub use h2_hpack_instruction::fault::BlockFault;
pub use h2_hpack_instruction::field::Field;
pub use h2_hpack_instruction::instruction::{
    HpackString, Instr, InstrRead, Mode, Name, read_instr, write_instr,
};
pub use h2_hpack_instruction::octets::Octets;
pub use h2_hpack_instruction::response::response_block;
