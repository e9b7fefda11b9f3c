//! Why an item was an error, or was ignored (RFC 9113, 5.4). Definitions: `specs/Reasons.antt`.

ghost use Rattle.std.specs.Prelude.{◌≡◌};
ghost use Rattle.h2_debug.specs.Reasons.{no_reasons, reasons_by};

use h2_conn::TakenItem;
use h2_spec::causes::Cause;
use h2_spec::ignored::Ignored;

/// Why an item was an error, or was ignored.
#[derive(Clone, Copy)]
pub struct Reasons {
    /// Why it was a connection error or a stream error, if it was one.
    pub cause: Option<Cause>,
    /// Why it was ignored, if it was.
    pub ignored: Option<Ignored>,
}

impl Reasons {
    /// Of no item.
    pub fn none() -> Self
        ensures { result ≡ no_reasons }
    {
        Reasons {
            cause: None,
            ignored: None,
        }
    }

    /// Of an item that was taken.
    pub fn of(taken: TakenItem) -> Self
        ensures { result ≡ reasons_by taken }
    {
        Reasons {
            cause: taken.cause,
            ignored: taken.ignored,
        }
    }
}
