//! How a call ended, as numbers. Definitions: `specs/Embed.antt`.

ghost use Rattle.std.specs.Prelude.{◌≡◌};
ghost use Rattle.h2_embed.specs.Embed.{given, number, refused};

/// Why nothing was carried out, or what was printed is not given.
#[derive(Clone, Copy)]
pub enum RunFault {
    /// Memory was refused.
    NoMemory,
    /// The place for what is printed has no space for it.
    NoRoom,
    /// The words open no connection, or there is none.
    NoConnection,
    /// A word or the name of the file is not UTF-8.
    NoText,
}

impl RunFault {
    /// 1, 2, 3 or 22.
    pub(crate) fn number(self) -> u8
        ensures { result ≡ number self }
    {
        match self {
            RunFault::NoMemory => 1,
            RunFault::NoRoom => 2,
            RunFault::NoConnection => 3,
            RunFault::NoText => 22,
        }
    }
}

/// How a call ended.
#[repr(C)]
#[derive(Clone, Copy)]
pub struct RunEnd {
    /// 0 where what the command printed is given, else the number of a `RunFault`.
    pub fault: u8,
    /// The exit status of the command; 0 where it was not carried out.
    pub status: u8,
    /// How many octets the command printed; 0 where it was not carried out.
    pub printed: usize,
    /// How many octets the sentence has that says why something was refused; 0 where there is none.
    pub sentence: usize,
}

/// The end of a call that carried out no command.
pub(crate) fn refused(fault: RunFault) -> RunEnd
    ensures { result ≡ refused fault }
{
    RunEnd {
        fault: fault.number(),
        status: 0,
        printed: 0,
        sentence: 0,
    }
}

/// The end of a call of a connection that stays: that many octets were printed, and they were given unless a fault is named.
pub(crate) fn given(fault: u8, count: usize) -> RunEnd
    ensures { result ≡ given fault count }
{
    RunEnd {
        fault,
        status: 0,
        printed: count,
        sentence: 0,
    }
}
