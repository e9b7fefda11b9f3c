//! The header tables of HPACK (RFC 7541, 2.3 and 4): the static table, and the dynamic table of one decoder. A
//! `circular_buffer` has the dynamic table's entries, the newest at the front, each with its mark (`h2_hpack_validity`) beside
//! it. The definitions are in `h2_spec`: StaticTable and DynamicTable; what a table holds privately, in
//! `specs/Held.antt`.
#![tactic(auto)]

pub mod dynamic_table;
pub mod edit;
pub mod entry;
pub mod fault;
pub mod kept;
pub mod lent;
pub mod static_table;

pub use dynamic_table::DynTable;
pub use edit::Edit;
pub use fault::TableFault;
pub use kept::KeptTable;
pub use lent::LentField;
pub use static_table::{static_entry, static_field};
