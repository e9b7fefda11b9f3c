//! Scripts of frames: the octets that a text represents, and the text that is written for octets. The definitions are
//! Script, Assemble and Written of `h2_spec`; their laws are in `h2_spec_laws::script_laws`.
#![tactic(auto)]

mod assembler;
mod built;
mod disassembler;
pub mod fault;
mod fragment;
mod instruction;
mod line;
mod number;
mod payload;
mod said;
mod text;
mod words;

pub use assembler::assemble;
pub use disassembler::disassemble;
pub use fault::{LineFault, ScriptFault, kind_number};
pub use h2_spec::scripts::SyntaxKind;
pub use line::add_line;
pub use number::number_at;
