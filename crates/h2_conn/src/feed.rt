//! Octets to items: a piece is fed, and its items are taken one after another (RFC 9113, 3.4).

pub(crate) mod feeding;
pub(crate) mod first;
pub(crate) mod one;
