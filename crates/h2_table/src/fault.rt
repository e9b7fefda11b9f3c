//! What the dynamic table refuses, numbered as the faults of all crates are.
//! Calls that can only run out of memory answer `AllocError`, as the crates of the kit do.

ghost use Rattle.std.specs.Prelude.{◌≡◌};

use thiserror::Error;

/// Why a call on the dynamic table was refused.
#[derive(Clone, Copy, Debug, Error)]
pub enum TableFault {
    /// A maximum above the table's limit (RFC 7541, 4.2).
    #[error("the maximum is above the limit of the dynamic table")]
    OverLimit,
}

impl TableFault {
    /// The number of the fault, the same in all crates: 3.
    pub fn number(self) -> u8
        ensures { result ≡ 3 }
    {
        match self {
            TableFault::OverLimit => 3,
        }
    }
}
