//! What is shown of a connection's state, and its text, line by line. The definitions are View and Show of `h2_spec`.
#![tactic(auto)]

pub mod hex_text;
mod lines;
pub mod lists;
pub mod show;
pub mod view;
