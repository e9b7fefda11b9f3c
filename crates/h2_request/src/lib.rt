//! Requests for users of the library: what a well-formed request is (`h2_request_well_formed`), and the book of answers
//! (`h2_request_book`; RFC 9113, 8.1 to 8.5).
#![tactic(auto)]

pub use h2_request_book::asked::Request;
pub use h2_request_book::book::{Answer, Book, Entry};
pub use h2_request_book::fault::BookFault;
pub use h2_request_well_formed::reason::{Malformed, Reason};
pub use h2_request_well_formed::well_formed::{check, check_trailers};
pub use h2_spec::streams::Pick;
