//! `serve --inject`: one dialogue of a file is played to the first client of a port, and its verdict printed; later clients get
//! the server alone. The definitions of what goes out, and of the verdict, are those of h2_cmd_dialogue. A file is read by `file`
//! and `script_lines`, a result is said by `words`, and a connection is shown by `view` (`aside`) and kept by a `keeper`.
#![tactic(auto)]

mod aside;
mod file;
mod keeper;
mod script_lines;
mod serving;
mod view;
mod why;
mod words;

pub use h2_cmd_exchange::link::{Link, LinkRead};
pub use keeper::ScriptKeeper;
pub use serving::{Guests, inject};
