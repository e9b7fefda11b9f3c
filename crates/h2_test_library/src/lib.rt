//! Calls of the library, for a reader who wants to make them: integers, strings, field blocks, frames, windows, credit,
//! settings, streams, requests and a connection. Calls that the program does not make are made here once.
//! Tests alone. Expected values come from RFC 9113, RFC 7541 and computation by hand; more of them are computed from the
//! definitions, in `h2_spec_examples/proofs`.
#![tactic(auto)]

#[cfg(test)]
mod blocks;
#[cfg(test)]
mod connection;
#[cfg(test)]
mod flow;
#[cfg(test)]
mod frames;
#[cfg(test)]
mod integers;
#[cfg(test)]
mod requests;
#[cfg(test)]
mod same;
#[cfg(test)]
mod streams;
