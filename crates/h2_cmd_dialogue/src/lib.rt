//! Dialogues with a client: which octets of a script go out after or instead of what the server sends for an item, what the
//! client does then, and whether it may. Definitions: `specs/Steps.antt` (which item a step waits for), `specs/Woven.antt` (what
//! goes out), `specs/Plays.antt` (how a connection is played), `specs/Heard.antt` (what a client does), `specs/Limits.antt` (what
//! SETTINGS let it do), `specs/Verdicts.antt`, `specs/Findings.antt`.
#![tactic(auto)]

pub mod cause;
pub mod findings;
pub mod heard;
mod item;
mod laws;
pub mod limits;
pub mod play;
pub mod step;
pub mod verdict;
pub mod watched;
pub mod weave;
