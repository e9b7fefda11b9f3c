//! How the driving of a connection ends. Definitions: `specs/Drives.antt`.

ghost use Rattle.std.specs.Prelude.{◌≡◌};
ghost use Rattle.h2_serve.specs.Drives.{fault_number};

use thiserror::Error;

/// How a connection ended where nothing failed.
#[derive(Clone, Copy)]
pub enum DriveEnd {
    /// The peer sends no more.
    Input,
    /// A connection error ended the connection (RFC 9113, 5.4.1); the GOAWAY with this error code was written.
    Goaway(u32),
}

/// Why a connection could not be driven to its end.
#[derive(Clone, Copy, Debug, Error)]
pub enum DriveFault {
    /// 0: out of memory.
    #[error("out of memory")]
    NoMemory,
    /// 17: the connection ran out of memory in an earlier call.
    #[error("the connection ran out of memory earlier")]
    Failed,
    /// 22: a read failed.
    #[error("a read failed")]
    Read,
    /// 23: a write failed.
    #[error("a write failed")]
    Write,
    /// 24: all turns were used, and neither the input nor the connection has ended.
    #[error("too many turns")]
    TurnLimit,
}

impl DriveFault {
    /// The number of the fault, the same in all crates: 0, 17, or 22 to 24.
    pub fn number(self) -> u8
        ensures { result ≡ fault_number self }
    {
        match self {
            DriveFault::NoMemory => 0,
            DriveFault::Failed => 17,
            DriveFault::Read => 22,
            DriveFault::Write => 23,
            DriveFault::TurnLimit => 24,
        }
    }
}
