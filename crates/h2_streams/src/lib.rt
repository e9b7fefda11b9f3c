//! The records of a connection's streams, in the order of their opening (RFC 9113, 5.1). Live streams are found by a
//! map, the others by binary search, since identifiers rise. What each call does to the list of records is said in
//! `h2_spec/specs/Stream.antt`.
#![tactic(auto)]

mod brief;
mod kinds;
mod lookup;
mod own;
mod records;
mod sharing;
mod windows;

pub use h2_spec::errors::FlowFault;
pub use h2_spec::streams::{Numbers, Pick, Stream, StreamState, is_live};
pub use kinds::{not_live, octets_waiting, raise, server_ended};
pub use records::Streams;
pub use sharing::kept::KeptStreams;
