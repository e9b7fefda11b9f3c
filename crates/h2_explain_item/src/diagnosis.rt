//! What is wrong with an item, and which special case or warning that is.

pub mod accepted;
pub mod error_context;
pub mod facts;
pub mod field_facts;
pub mod fields;
pub mod frame_facts;
pub mod integer;
pub mod others;
pub mod request_facts;
pub mod run_facts;
pub mod special;
pub mod warning;
