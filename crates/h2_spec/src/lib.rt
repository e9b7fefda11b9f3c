//! What everything means: the words that definitions and code share, and the definitions (`specs/`). Their laws are
//! in `h2_spec_laws`; in `proofs/` here are the lemmas that code is proved with.
#![tactic(auto)]

pub mod accepted;
pub mod causes;
pub mod conforming;
pub mod connection;
pub mod errors;
pub mod flow;
pub mod frames;
pub mod ignored;
pub mod octets;
pub mod reactions;
pub mod rules;
pub mod scripts;
pub mod special_cases;
pub mod streams;
