//! The commands, each from its whole input to its output.

pub(crate) mod asm;
pub(crate) mod dis;
pub(crate) mod each;
pub(crate) mod play;
pub(crate) mod table;
