//! Why a connection is refused, numbered as the faults of all crates are. Definitions: `specs/Faults.antt`.

ghost use Rattle.std.specs.Prelude.{◌≡◌};
ghost use Rattle.h2_conn.specs.Faults.{fault_number};
ghost use Rattle.h2_conn.specs.declared.fault.ConnFault.TheVariants.{NoMemory};

use std::alloc::AllocError;
use thiserror::Error;

/// Why a call of a connection is refused.
#[derive(Clone, Copy, Debug, Error)]
pub enum ConnFault {
    /// 0: a growth was refused.
    #[error("out of memory")]
    NoMemory,
    /// 16: a limit or a setting is outside its range (`Config::is_allowed`).
    #[error("a limit or a setting is out of range")]
    BadConfig,
    /// 17: memory was refused to an earlier call, and the octets that came then were lost.
    #[error("memory was refused earlier")]
    Failed,
}

impl ConnFault {
    /// The number of the fault, the same in all crates: 0, 16 or 17.
    pub fn number(self) -> u8
        ensures { result ≡ fault_number self }
    {
        match self {
            ConnFault::NoMemory => 0,
            ConnFault::BadConfig => 16,
            ConnFault::Failed => 17,
        }
    }
}

impl From<AllocError> for ConnFault {
    ghost from_gives = { λ _ fault. fault ≡ NoMemory };

    fn from(_refused: AllocError) -> ConnFault {
        ConnFault::NoMemory
    }
}
