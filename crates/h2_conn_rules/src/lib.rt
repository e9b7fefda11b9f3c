//! The rules of a connection: what a frame changes and what is sent for it, each a function of values (RFC 9113, 5 to
//! 8). The definitions are in `h2_spec`, in the file of the rule's name; what holds of every connection is in
//! specs/Sound.antt here.
#![tactic(auto)]

pub mod block;
pub mod change;
pub mod checks;
pub mod control;
pub mod data;
pub mod ends;
pub mod headers;
pub mod reset;
pub mod settings;
pub mod window_update;
