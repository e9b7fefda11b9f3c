//! What keeps the octets and the items of the connections that are served.

use h2_explain::{Explained, Recorder};

/// What keeps the octets of each read and each item. It changes nothing of the connection, and has to remember itself
/// what failed.
pub trait Keeper: Recorder {
    /// The connection with this number begins, the first is 1; `opening` is what is sent before anything is read.
    fn begin(&mut self, number: u32, opening: &[u8]);

    /// A read has got these octets.
    fn keep_read(&mut self, octets: &[u8]);

    /// The connection has ended. Where not all `is_written`, some of what was sent for the last read was not.
    fn end(&mut self, is_written: bool);
}

/// Keeps nothing.
#[derive(Clone, Copy)]
pub struct NoKeeper;

impl Recorder for NoKeeper {
    fn record(&mut self, _item: &Explained<'_>) {}
}

impl Keeper for NoKeeper {
    fn begin(&mut self, _number: u32, _opening: &[u8]) {}

    fn keep_read(&mut self, _octets: &[u8]) {}

    fn end(&mut self, _is_written: bool) {}
}
