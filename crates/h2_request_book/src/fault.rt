//! Why a book refuses an entry, numbered as the faults of all crates are. Which entries are refused is in `h2_spec`,
//! specs/Requests/Book.antt.

ghost use Rattle.std.specs.Prelude.{◌≡◌};
ghost use Rattle.h2_request_book.specs.Fault.{entry_number, fault_number};
ghost use Rattle.h2_request_book.specs.declared.fault.BookFault.TheVariants.{NoMemory};

use std::alloc::{AllocError, AllocFailed};
use thiserror::Error;

/// What is wrong with an entry, in the order in which it is looked for.
#[derive(Clone, Copy, Debug, Error)]
pub enum EntryFault {
    /// 12: the status is outside 200 to 599.
    #[error("the status is outside 200 to 599")]
    BadStatus,
    /// 13: a field is ill-formed (RFC 9113, 8.2.1), of a connection (RFC 9113, 8.2.2), a pseudo-field, or
    /// `content-length`.
    #[error("a field is not allowed in an answer")]
    BadField,
    /// 14: there is a body with status 204, 205 or 304, or for the method HEAD.
    #[error("a body is not allowed in this answer")]
    BodyNotAllowed,
    /// 15: the book is full, or the body or the response's field block is above its limit.
    #[error("the book, the body or the fields would pass their limit")]
    TooLong,
}

impl EntryFault {
    /// The number of the fault, the same in all crates: 12 to 15.
    pub fn number(self) -> u8
        ensures { result ≡ entry_number self }
    {
        match self {
            EntryFault::BadStatus => 12,
            EntryFault::BadField => 13,
            EntryFault::BodyNotAllowed => 14,
            EntryFault::TooLong => 15,
        }
    }
}

/// Why a book did not take an entry.
#[derive(Clone, Copy, Debug, Error)]
pub enum BookFault {
    /// 0: the growth of the book's memory was refused.
    #[error("out of memory")]
    NoMemory,
    /// 12 to 15: the entry is refused.
    #[error("{0}")]
    BadEntry(EntryFault),
}

impl BookFault {
    /// The number of the fault, the same in all crates: 0, or 12 to 15.
    pub fn number(self) -> u8
        ensures { result ≡ fault_number self }
    {
        match self {
            BookFault::NoMemory => 0,
            BookFault::BadEntry(fault) => fault.number(),
        }
    }
}

impl From<AllocError> for BookFault {
    ghost from_gives = { λ _ e. e ≡ NoMemory };

    fn from(_refused: AllocError) -> BookFault {
        BookFault::NoMemory
    }
}

impl<T: Drop> From<AllocFailed<T>> for BookFault {
    ghost from_gives = { λ _ e. e ≡ NoMemory };

    fn from(_refused: AllocFailed<T>) -> BookFault {
        BookFault::NoMemory
    }
}
