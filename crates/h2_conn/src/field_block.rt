//! Field blocks: a block is opened, goes on and ends; how far it is decoded, and what is kept of it (RFC 9113, 4.3, 6.2 and 6.10).

pub(crate) mod block;
pub(crate) mod block_end;
pub(crate) mod decoding;
pub(crate) mod headers_frame;
pub(crate) mod kept_block;
pub(crate) mod open_block;
pub(crate) mod scratch;
pub(crate) mod tentative;
