//! Why a field block or an instruction is refused, numbered as the faults of all crates are. What each fault means is
//! `Fault` of `h2_spec`, specs/Hpack/Block.antt.

ghost use Rattle.std.specs.Prelude.{◌≡◌};
ghost use Rattle.h2_hpack_instruction.specs.Faults.{number_of};

use h2_prim::HuffFault;
use std::alloc::{AllocError, AllocFailed};
use thiserror::Error;

/// Why a field block, or an instruction of it, is refused (RFC 7541; RFC 9113, 4.3).
#[derive(Clone, Copy, Debug, PartialEq, Eq, Error)]
pub enum BlockFault {
    /// Memory was refused.
    #[error("out of memory")]
    NoMemory,
    /// An indexed field of index 0 (RFC 7541, 6.1).
    #[error("an indexed field has the index 0")]
    ZeroIndex,
    /// An index beyond both tables (RFC 7541, 2.3.3).
    #[error("an index is of neither header table")]
    Index,
    /// An integer that goes on after its fifth octet after the prefix (RFC 7541, 5.1).
    #[error("an integer is too long")]
    Integer,
    /// A string that is no Huffman string (RFC 7541, 5.2).
    #[error("a string is no Huffman string")]
    Huffman,
    /// A table size update after a field (RFC 7541, 4.2).
    #[error("a table size update is after a field")]
    LateUpdate,
    /// A table size update above the limit (RFC 7541, 6.3).
    #[error("a table size update is above the limit")]
    LargeUpdate,
    /// No table size update where one is due (RFC 9113, 4.3.1).
    #[error("a table size update is missing")]
    MissingUpdate,
    /// The block ends inside an instruction.
    #[error("the block ends inside an instruction")]
    Truncated,
}

impl BlockFault {
    /// The number of the fault, the same in all crates: 0, and 4 to 8; 4 is both faults of an index, 7 all three of a
    /// table size update.
    pub fn number(self) -> u8
        ensures { result ≡ number_of self }
    {
        match self {
            BlockFault::NoMemory => 0,
            BlockFault::ZeroIndex | BlockFault::Index => 4,
            BlockFault::Integer => 5,
            BlockFault::Huffman => 6,
            BlockFault::LateUpdate | BlockFault::LargeUpdate | BlockFault::MissingUpdate => 7,
            BlockFault::Truncated => 8,
        }
    }
}

impl From<AllocError> for BlockFault {
    ghost use Rattle.std.specs.Prelude.{◌≡◌};
    ghost use Rattle.h2_hpack_instruction.specs.declared.fault.BlockFault.TheVariants.{NoMemory};

    ghost from_gives = { λ _ fault. fault ≡ NoMemory };

    fn from(_error: AllocError) -> BlockFault {
        BlockFault::NoMemory
    }
}

impl<T: Drop> From<AllocFailed<T>> for BlockFault {
    ghost use Rattle.std.specs.Prelude.{◌≡◌};
    ghost use Rattle.h2_hpack_instruction.specs.declared.fault.BlockFault.TheVariants.{NoMemory};

    ghost from_gives = { λ _ fault. fault ≡ NoMemory };

    fn from(_error: AllocFailed<T>) -> BlockFault {
        BlockFault::NoMemory
    }
}

impl From<HuffFault> for BlockFault {
    ghost use Rattle.std.specs.Prelude.{◌≡◌};
    ghost use Rattle.h2_hpack_instruction.specs.Faults.{of_huffman};

    ghost from_gives = { λ error fault. fault ≡ of_huffman error };

    fn from(error: HuffFault) -> BlockFault {
        match error {
            HuffFault::NoMemory => BlockFault::NoMemory,
            HuffFault::Eos | HuffFault::Padding => BlockFault::Huffman,
        }
    }
}
