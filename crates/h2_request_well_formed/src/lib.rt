//! Requests: which fields make a request or trailers, what is asked for, and the cause where they make none (RFC 9113, 8.1
//! to 8.5). The book of answers is h2_request_book. The definitions are Request and Reasons of `h2_spec`.
#![tactic(auto)]

pub mod causes;
pub mod fields;
pub mod reason;
mod walk;
pub mod well_formed;
