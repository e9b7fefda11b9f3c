//! The laws of the definitions: each is the contract of a public function with an empty body. No code calls them; a
//! contract of h2_conn cites one, the law of grants. h2_spec has the definitions, and those lemmas that proofs of code
//! need too; h2_spec_examples has worked examples.
#![tactic(auto)]

pub mod block_laws;
pub mod cause_laws;
pub mod conformance_laws;
pub mod flow_laws;
pub mod frame_laws;
pub mod grants_laws;
pub mod huffman_laws;
pub mod integer_laws;
pub mod request_laws;
pub mod script_laws;
pub mod table_laws;
pub mod trace_laws;
