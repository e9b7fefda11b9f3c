//! Which allocation is refused.

ghost use Rattle.std.specs.Prelude.{◌≡◌, ◌-◌, ◌||◌, false, nat_eq};

/// How many allocations there are up to and including the one that is refused, 0 where none is or it is past, and
/// whether it is past.
#[derive(Clone, Copy)]
pub(crate) struct Countdown {
    left: u64,
    has_refused: bool,
}

impl Countdown {
    /// The `nth` allocation is refused, counted from 1; none at 0.
    pub(crate) fn new(nth: u64) -> Countdown
        ensures { result ≡ record { left = nth; has_refused = false } }
    {
        Countdown {
            left: nth,
            has_refused: false,
        }
    }

    /// Counts an allocation. Returns whether it is the one that is refused.
    pub(crate) fn spend(&mut self) -> bool
        ensures refused { result ≡ nat_eq self.old.left 1 }
        ensures counted { self.new ≡ record { left = self.old.left - 1; has_refused = self.old.has_refused || nat_eq self.old.left 1 } }
    {
        let is_refused = self.left == 1;
        self.left = self.left.saturating_sub(1);
        self.has_refused = self.has_refused || is_refused;
        is_refused
    }

    /// Whether the allocation that is refused is past.
    pub(crate) fn has_refused(&self) -> bool
        ensures { result ≡ self.now.has_refused }
    {
        self.has_refused
    }
}
