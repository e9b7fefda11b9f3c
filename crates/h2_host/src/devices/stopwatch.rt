//! The time since a connection was accepted.

use std::cell::Cell;
use std::time::{Clock, Instant};

/// What measures the time since the connection that is served now was accepted.
#[derive(Drop)]
pub struct Stopwatch<'c, C> {
    clock: &'c C,
    start: Cell<Option<Instant>>,
}

impl<'c, C: Clock> Stopwatch<'c, C> {
    /// One that was not started yet.
    pub fn new(clock: &'c C) -> Stopwatch<'c, C> {
        Stopwatch {
            clock,
            start: Cell::new(None),
        }
    }

    /// Starts it, anew where it was started.
    pub fn start(&self) {
        self.start.set(Instant::now(self.clock).ok());
    }

    /// How many milliseconds it runs; none where it was not started, or the clock can't be read.
    pub fn millis(&self) -> Option<u64> {
        let elapsed = self.start.get()?.elapsed(self.clock).ok()?;
        u64::try_from(elapsed.as_millis()).ok()
    }
}
