//! How a record is found: by its identifier, or as the next that can send (RFC 9113, 5.1).

pub(crate) mod hash;
pub(crate) mod ids;
pub(crate) mod live;
pub(crate) mod places;
pub(crate) mod walks;
