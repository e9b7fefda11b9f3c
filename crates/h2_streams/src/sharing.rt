//! Records that lists have in common, and lists that are kept to be made again.

pub(crate) mod kept;
pub(crate) mod patch;
pub(crate) mod rebuilt;
pub(crate) mod shared;
