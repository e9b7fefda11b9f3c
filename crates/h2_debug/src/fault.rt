//! Why a debugger refuses a call, numbered as the faults of all crates are. Definitions: `specs/Faults.antt`.

ghost use Rattle.std.specs.Prelude.{◌≡◌};
ghost use Rattle.h2_debug.specs.Faults.{fault_number};
ghost use Rattle.h2_debug.specs.declared.fault.DebugFault.TheVariants.{NoMemory};

use std::alloc::{AllocError, AllocFailed};
use thiserror::Error;

/// Why a call of a debugger is refused.
#[derive(Clone, Copy, Debug, Error)]
pub enum DebugFault {
    /// 0: memory was refused.
    #[error("out of memory")]
    NoMemory,
    /// 16: a limit or a setting is outside its range (`Config::is_allowed`).
    #[error("a limit or a setting is out of range")]
    BadConfig,
    /// 19: no item follows.
    #[error("at the end")]
    AtEnd,
    /// 20: no item came before.
    #[error("at the start")]
    AtStart,
    /// 21: the position is after the end.
    #[error("after the end")]
    OutOfRange,
}

impl DebugFault {
    /// The number of the fault, the same in all crates: 0, 16, 19, 20 or 21.
    pub fn number(self) -> u8
        ensures { result ≡ fault_number self }
    {
        match self {
            DebugFault::NoMemory => 0,
            DebugFault::BadConfig => 16,
            DebugFault::AtEnd => 19,
            DebugFault::AtStart => 20,
            DebugFault::OutOfRange => 21,
        }
    }
}

impl From<AllocError> for DebugFault {
    ghost from_gives = { λ _ fault. fault ≡ NoMemory };

    fn from(_refused: AllocError) -> DebugFault {
        DebugFault::NoMemory
    }
}

impl<T: Drop> From<AllocFailed<T>> for DebugFault {
    ghost from_gives = { λ _ fault. fault ≡ NoMemory };

    fn from(_refused: AllocFailed<T>) -> DebugFault {
        DebugFault::NoMemory
    }
}
