//! Why a text is no script, numbered as the faults of all crates are. What each means is `HasFault` of `h2_spec`,
//! specs/Texts/Script.antt.

ghost use Rattle.std.specs.Prelude.{◌≡◌};
ghost use Rattle.h2_spec.specs.Texts.Script.{kind_number};
ghost use Rattle.h2_script.specs.Faults.{number_of};

use h2_spec::scripts::SyntaxKind;
use std::alloc::{AllocError, AllocFailed};
use thiserror::Error;

/// Why a text was not assembled.
#[derive(Clone, Copy, Debug, Error)]
pub enum ScriptFault {
    /// Memory was refused.
    #[error("out of memory")]
    NoMemory,
    /// The first bad line, counted from 1, and the least kind of fault in it.
    #[error("line {0} of the script is bad")]
    Syntax(usize, SyntaxKind),
}

impl ScriptFault {
    /// The number of the fault, the same in all crates: 0, or 18.
    pub fn number(self) -> u8
        ensures { result ≡ number_of self }
    {
        match self {
            ScriptFault::NoMemory => 0,
            ScriptFault::Syntax(_, _) => 18,
        }
    }
}

/// The number of a kind of fault in a line, 1 to 6.
pub fn kind_number(kind: SyntaxKind) -> u8
    ensures { result ≡ kind_number kind }
{
    match kind {
        SyntaxKind::Parts => 1,
        SyntaxKind::Name => 2,
        SyntaxKind::Flags => 3,
        SyntaxKind::Stream => 4,
        SyntaxKind::Payload => 5,
        SyntaxKind::Size => 6,
    }
}

/// Why one line was not read.
#[derive(Clone, Copy)]
pub enum LineFault {
    /// Memory was refused.
    NoMemory,
    /// The least kind of fault in the line.
    Bad(SyntaxKind),
}

impl From<AllocError> for LineFault {
    ghost use Rattle.std.specs.Prelude.{◌≡◌};
    ghost use Rattle.h2_script.specs.declared.fault.LineFault.TheVariants.{NoMemory};

    ghost from_gives = { λ _ fault. fault ≡ NoMemory };

    fn from(_error: AllocError) -> LineFault {
        LineFault::NoMemory
    }
}

impl<T: Drop> From<AllocFailed<T>> for LineFault {
    ghost use Rattle.std.specs.Prelude.{◌≡◌};
    ghost use Rattle.h2_script.specs.declared.fault.LineFault.TheVariants.{NoMemory};

    ghost from_gives = { λ _ fault. fault ≡ NoMemory };

    fn from(_error: AllocFailed<T>) -> LineFault {
        LineFault::NoMemory
    }
}
