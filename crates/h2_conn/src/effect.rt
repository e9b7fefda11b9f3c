//! What one item does: its rule, and the change that is made of it (RFC 9113, 5 and 6).

pub(crate) mod apply_change;
pub(crate) mod data_frame;
pub(crate) mod item;
pub(crate) mod receive;
pub(crate) mod window_frame;
