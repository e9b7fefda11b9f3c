//! A case played to a server over a connection: its octets are sent item by item, and between them what comes is read until
//! nothing comes any more. What is judged of it is a function of what happened, in order. Definitions: `specs/Links.antt` (what
//! happens on a connection), `specs/Plays.antt` (how a case is played).
#![tactic(auto)]

pub mod link;
pub mod played;
