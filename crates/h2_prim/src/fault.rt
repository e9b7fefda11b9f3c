//! What the reader of strings refuses, numbered as the faults of all crates are. What each fault means is `HasEos` and
//! `IsPadding` of `h2_spec`, specs/Hpack/Huffman.antt.

ghost use Rattle.std.specs.Prelude.{◌≡◌};
ghost use Rattle.h2_prim.specs.Readings.{number_of};

use std::alloc::{AllocError, AllocFailed};
use thiserror::Error;

/// Why octets are no Huffman string (RFC 7541, 5.2), or could not be decoded.
#[derive(Clone, Copy, Debug, Error)]
pub enum HuffFault {
    /// Memory was refused.
    #[error("out of memory")]
    NoMemory,
    /// The whole code of the end of a string is in the octets.
    #[error("the end-of-string code is inside a Huffman string")]
    Eos,
    /// The rest after the last whole code is longer than seven bits, or has a zero in it.
    #[error("a Huffman string ends in what is neither a code nor padding")]
    Padding,
}

impl HuffFault {
    /// The number of the fault, the same in all crates: 0 to 2.
    pub fn number(self) -> u8
        ensures { result ≡ number_of self }
    {
        match self {
            HuffFault::NoMemory => 0,
            HuffFault::Eos => 1,
            HuffFault::Padding => 2,
        }
    }
}

impl From<AllocError> for HuffFault {
    ghost use Rattle.h2_prim.specs.declared.fault.HuffFault.TheVariants.{NoMemory};

    ghost from_gives = { λ _ e. e ≡ NoMemory };

    fn from(_error: AllocError) -> HuffFault {
        HuffFault::NoMemory
    }
}

impl<T: Drop> From<AllocFailed<T>> for HuffFault {
    ghost use Rattle.h2_prim.specs.declared.fault.HuffFault.TheVariants.{NoMemory};

    ghost from_gives = { λ _ e. e ≡ NoMemory };

    fn from(_error: AllocFailed<T>) -> HuffFault {
        HuffFault::NoMemory
    }
}
