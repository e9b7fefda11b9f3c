//! Why the words of an answer are refused, each cause with its number. Definitions: `specs/Faults.antt`.

ghost use Rattle.std.specs.Prelude.{◌≡◌};
ghost use Rattle.h2_cmd_play.specs.Faults.{fault_number};
ghost use Rattle.h2_cmd_play.specs.declared.fault.AnswerFault.TheVariants.{NoMemory};

use h2_request_book::fault::EntryFault;
use std::alloc::{AllocError, AllocFailed};

/// Why the words of an answer are refused.
#[derive(Clone, Copy)]
pub enum AnswerFault {
    /// Memory was refused.
    NoMemory,
    /// The words say no answer.
    BadAnswer,
    /// The book refuses the answer that they say.
    BadEntry(EntryFault),
}

impl AnswerFault {
    /// The fault's number, one numbering over all crates.
    pub fn number(self) -> u8
        ensures { result ≡ fault_number self }
    {
        match self {
            AnswerFault::NoMemory => 0,
            AnswerFault::BadAnswer => 26,
            AnswerFault::BadEntry(fault) => fault.number(),
        }
    }
}

impl From<AllocError> for AnswerFault {
    ghost from_gives = { λ _ fault. fault ≡ NoMemory };

    fn from(_error: AllocError) -> AnswerFault {
        AnswerFault::NoMemory
    }
}

impl<T: Drop> From<AllocFailed<T>> for AnswerFault {
    ghost from_gives = { λ _ fault. fault ≡ NoMemory };

    fn from(_error: AllocFailed<T>) -> AnswerFault {
        AnswerFault::NoMemory
    }
}
