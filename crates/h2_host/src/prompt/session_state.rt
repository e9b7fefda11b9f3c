//! What the lines and the answers of a session tell each other.

use std::cell::Cell;

/// What is known of a session.
#[derive(Drop)]
pub struct SessionState {
    /// The position, by the last answer that had one.
    pub position: Cell<usize>,
    /// Whether the last answer was a fault.
    pub is_refused: Cell<bool>,
    /// Whether the header table is written next, of all that `show` prints.
    pub has_table: Cell<bool>,
}

impl SessionState {
    /// The state of a session that begins.
    pub fn new() -> SessionState {
        SessionState {
            position: Cell::new(0),
            is_refused: Cell::new(false),
            has_table: Cell::new(false),
        }
    }
}
