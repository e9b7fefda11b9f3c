//! The command `debug`: lines of an input, what they ask for, and the replies.

pub(crate) mod command;
pub(crate) mod line;
pub mod obey;
pub(crate) mod reader;
pub(crate) mod reply;
pub mod session;
pub(crate) mod session_fault;
pub(crate) mod written;
