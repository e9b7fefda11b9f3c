//! Places in a run, and the moves between them.

pub(crate) mod cases;
pub(crate) mod forward;
pub(crate) mod kept_place;
pub(crate) mod place;
pub(crate) mod source;
