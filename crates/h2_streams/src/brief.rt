//! Records in brief: those of streams that are not live, by their identifiers and states alone.

pub(crate) mod base;
pub(crate) mod records;
pub(crate) mod runs;
pub(crate) mod shared;
