//! Why a session is refused, each cause with its number (one numbering over all crates). The numbers:
//! `specs/SessionFaults.antt`.

ghost use Rattle.std.specs.Prelude.{◌≡◌};
ghost use Rattle.h2_debug.specs.SessionFaults.{fault_number};

use thiserror::Error;

/// Why a session ends before its first command, or a line is refused.
#[derive(Clone, Copy, Debug, Error)]
pub enum SessionFault {
    /// 0: out of memory.
    #[error("out of memory")]
    NoMemory,
    /// 16: a limit or a setting is outside its range (`Config::is_allowed`).
    #[error("a limit or a setting is out of range")]
    BadConfig,
    /// 22: a read failed, or the input has more than 16,777,216 octets.
    #[error("the input can't be read")]
    Read,
    /// 25: the first line is not hex.
    #[error("the first line is not hex")]
    BadHex,
    /// 27: a line is no command.
    #[error("the line is no command")]
    BadCommand,
}

impl SessionFault {
    /// The number of the fault: 0, 16, 22, 25 or 27.
    pub fn number(self) -> u8
        ensures { result ≡ fault_number self }
    {
        match self {
            SessionFault::NoMemory => 0,
            SessionFault::BadConfig => 16,
            SessionFault::Read => 22,
            SessionFault::BadHex => 25,
            SessionFault::BadCommand => 27,
        }
    }
}
