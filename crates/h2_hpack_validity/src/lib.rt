//! The marks of fields: what a name or a value can be malformed for by itself, and which of the names that the rules of
//! a request are about a field has (RFC 9113, 8.1.1, 8.2 and 8.3). The definitions are the tests of one field in
//! `h2_spec`, specs/Requests/Request.antt, and `mark_of` of specs/Mark.antt over them.
#![tactic(auto)]

mod classes;
pub mod mark;
pub mod octets;

pub use mark::{FieldMark, KnownName};
