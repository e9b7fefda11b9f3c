//! What takes note of each item that is explained, beside the text.

use h2_explain_item::item::Explained;

/// What takes note of each item that is explained, as soon as a connection has taken it. It changes nothing of the
/// connection and of its explanation, and has to remember itself what failed.
pub trait Recorder {
    /// Takes note of an item.
    fn record(&mut self, item: &Explained<'_>);
}

/// Takes note of nothing.
#[derive(Clone, Copy)]
pub struct NoRecord;

impl Recorder for NoRecord {
    fn record(&mut self, _item: &Explained<'_>) {}
}
