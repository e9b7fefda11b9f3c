//! A debugger of connections: any position in the run of a new connection over octets, forward and back (RFC 9113, 3.4
//! to 6). Definitions: h2_spec's `specs/Texts/Debug.antt` for positions and breakpoints, and `specs/` here for what a
//! debugger represents. Others give it commands by `command_of` and `obey`, and print what it replies by `ReplyText`. The
//! command `debug` (`session`) reads octets in hex, and then commands, line by line: each reply is written and flushed
//! before the next command is read, so that a person or a program can work with it over a pipe.
#![tactic(auto)]

mod breakpoints;
pub mod commands;
pub mod debugger;
mod fault;
pub mod laws;
mod places;
mod reasons;

pub use breakpoints::Break;
pub use commands::command::{Command, command_of};
pub use commands::reply::{FaultLine, Reply, ReplyText};
pub use commands::session::{debug_session, debug_session_over};
pub use debugger::Debugger;
pub use fault::DebugFault;
