//! The records of connections that are served (`--record`): the files that a `Keeper` of h2_serve writes.
#![tactic(auto)]

mod recordings;

pub use recordings::{Recordings, recordings_for, refuse_recording};
