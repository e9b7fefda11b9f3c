//! What taking at most one item results in. Definition: `FeedsOne` of `specs/Runs.antt`.

/// How far one call went.
#[derive(Clone, Copy)]
pub struct One {
    /// How many of the octets were taken: up to the end of the item, or all where there is none.
    pub used: usize,
    /// Whether there was an item.
    pub item: bool,
}
