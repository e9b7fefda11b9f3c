//! Cases that judge other servers: over a connection (`check --against`), or by octets that were recorded (`check --judge`).
//! The verdict in a case is that of h2_cmd_items, over what h2_cmd_exchange played. Definitions: `specs/Aims.antt` (where
//! requests go), `specs/Servers.antt` (what is asked of a server first), `specs/Ends.antt` (what comes of a case),
//! `specs/Results.antt` (its result, and how they are counted), `specs/Files.antt` (the cases of files), `specs/Program.antt`
//! (the program). What is said beside an item no definition says.
#![tactic(auto)]

pub mod against;
pub mod aim;
pub mod cases;
pub mod counts;
pub mod ends;
pub mod files;
pub mod program;
pub mod results;
pub mod server;
pub mod start;
mod words;

pub use h2_cmd_exchange::link::{Link, LinkRead};
