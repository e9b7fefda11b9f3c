//! A connection over a wire: what is read is fed to it, and what it sends is written.

pub(crate) mod drive_fault;
pub(crate) mod driven;
pub(crate) mod driver;
pub(crate) mod outgoing;
pub(crate) mod socket;
pub(crate) mod wire;
