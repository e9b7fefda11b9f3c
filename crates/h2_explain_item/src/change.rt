//! What an item changes.

pub mod change_laws;
pub mod changes;
pub mod count;
pub mod granted;
pub mod header_table;
