//! The bench for a page of a browser: a connection over octets, its explanation, scripts, and the octets of scripts, in
//! memory that the page gives (`arena`). It is a static library: the gate proves it for this machine, tools/web.sh builds it as WebAssembly.
#![tactic(auto)]

mod answers;
mod arena;
mod fault;
mod memory;
mod put;
mod run;
mod script;
mod words;

pub use run::places;
pub use script::{octets_of, script_of};
pub use words::explanation;
