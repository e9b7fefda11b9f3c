//! The book of answers: its entries, what it refuses, which one a request picks, and the frames of each (RFC 9113, 8).
//! The definitions are Answer and Book of `h2_spec`.
#![tactic(auto)]

pub mod asked;
mod block_length;
pub mod book;
pub mod entry_fields;
pub mod fault;
mod firsts;
