//! The windows of all streams, which one SETTINGS moves (RFC 9113, 6.9.2).

pub(crate) mod greatest;
pub(crate) mod sends;
pub(crate) mod shift;
