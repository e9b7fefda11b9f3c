//! Why a server stops, numbered as the faults of all crates are. Definitions: `specs/Serves.antt`.

ghost use Rattle.std.specs.Prelude.{◌≡◌, Some, true};
ghost use Rattle.h2_serve.specs.Faults.{failed_by, fault_number, is_of_printing, is_write};

use thiserror::Error;

/// Why a server stops before it has served all connections.
#[derive(Clone, Copy, Debug, Error)]
pub enum ServeFault {
    /// 0: out of memory for a new connection.
    #[error("out of memory")]
    NoMemory,
    /// 16: a limit or a setting is outside its range (`Config::is_allowed`).
    #[error("a limit or a setting is out of range")]
    BadConfig,
    /// 23: a line could not be written.
    #[error("the output could not be written")]
    Write,
    /// 28: the port could not be listened on, or a connection could not be accepted.
    #[error("the socket failed")]
    Socket,
}

impl ServeFault {
    /// The number of the fault, the same in all crates: 0, 16, 23 or 28.
    pub fn number(self) -> u8
        ensures { result ≡ fault_number self }
    {
        match self {
            ServeFault::NoMemory => 0,
            ServeFault::BadConfig => 16,
            ServeFault::Write => 23,
            ServeFault::Socket => 28,
        }
    }

    /// Whether the output failed.
    pub(crate) fn is_write(self) -> bool
        ensures { result ≡ is_write self }
    {
        matches!(self, ServeFault::Write)
    }
}

/// Why a text was not printed.
#[derive(Clone, Copy)]
pub(crate) enum TextFault {
    /// Out of memory for the text.
    NoMemory,
    /// The output could not be written.
    Write,
}

impl TextFault {
    /// This fault of a connection, as a fault of a server.
    pub(crate) fn of_server(self) -> ServeFault
        ensures printing { is_of_printing result ≡ true }
        ensures write { is_write result ≡ failed_by (Some self) }
    {
        match self {
            TextFault::NoMemory => ServeFault::NoMemory,
            TextFault::Write => ServeFault::Write,
        }
    }
}
