//! Why a program is refused, each cause with its number, and the line that reports it. Definitions:
//! `specs/Faults.antt`.

ghost use Rattle.std.specs.Prelude.{◌≡◌};
ghost use Rattle.h2_cmd_batch.specs.Faults.{fault_line, fault_number, fault_object, fault_text};
ghost use Rattle.h2_request_book.specs.Fault.{entry_number};
ghost use Rattle.h2_cmd_batch.specs.declared.fault.BenchFault.TheVariants.{NoMemory};

use h2_io::{DeviceFault, Number, Output, Text, texts};
use h2_request_book::fault::EntryFault;
use std::alloc::{AllocError, AllocFailed};
use thiserror::Error;

/// Why a program is refused.
#[derive(Clone, Copy, Debug, Error)]
pub enum BenchFault {
    /// A growth was refused.
    #[error("out of memory")]
    NoMemory,
    /// An answer is refused, or there are more than 1000.
    #[error("{0}")]
    BadEntry(EntryFault),
    /// A limit or a setting is outside its range (`Config::is_allowed`).
    #[error("a limit or a setting is out of range")]
    BadConfig,
    /// A read of the input failed, an interruption too, or the input has more than 16,777,216 octets.
    #[error("the input can't be read")]
    Read,
    /// A file can't be written; it is as it was.
    #[error("the file can't be written")]
    Write,
    /// The input is no hex text.
    #[error("the input is no hex text")]
    BadHex,
    /// A word of the command line says no answer.
    #[error("the word says no answer")]
    BadAnswer,
    /// A line of the input is no command.
    #[error("the line is no command")]
    BadCommand,
    /// A port can't be listened on, or a connection can't be accepted.
    #[error("the socket failed")]
    Socket,
}

impl BenchFault {
    /// The fault's number, one numbering over all crates.
    pub fn number(self) -> u8
        ensures { result ≡ fault_number self }
    {
        match self {
            BenchFault::NoMemory => 0,
            BenchFault::BadEntry(fault) => fault.number(),
            BenchFault::BadConfig => 16,
            BenchFault::Read => 22,
            BenchFault::Write => 23,
            BenchFault::BadHex => 25,
            BenchFault::BadAnswer => 26,
            BenchFault::BadCommand => 27,
            BenchFault::Socket => 28,
        }
    }

    /// The line `fault N`, which takes no memory.
    pub fn line(self) -> &'static str
        ensures { result.now ≡ fault_line (fault_number self) }
    {
        match self {
            BenchFault::NoMemory => "fault 0\n",
            BenchFault::BadEntry(fault) => entry_line(fault),
            BenchFault::BadConfig => "fault 16\n",
            BenchFault::Read => "fault 22\n",
            BenchFault::Write => "fault 23\n",
            BenchFault::BadHex => "fault 25\n",
            BenchFault::BadAnswer => "fault 26\n",
            BenchFault::BadCommand => "fault 27\n",
            BenchFault::Socket => "fault 28\n",
        }
    }
}

/// The line `fault N` of what is wrong with an entry.
fn entry_line(fault: EntryFault) -> &'static str
    ensures { result.now ≡ fault_line (entry_number fault) }
{
    match fault {
        EntryFault::BadStatus => "fault 12\n",
        EntryFault::BadField => "fault 13\n",
        EntryFault::BodyNotAllowed => "fault 14\n",
        EntryFault::TooLong => "fault 15\n",
    }
}

/// The object that reports the fault of a number in JSON, on a line of its own.
#[derive(Clone, Copy)]
struct FaultObject(u8);

#[tactic(auto, unfolding(crate::specs::Faults::fault_object))]
impl Text for FaultObject {
    ghost text = { λ o. fault_object o.0 };

    fn write_to<O: Output>(&self, output: &mut O) -> Result<(), DeviceFault> {
        let number = Number(u64::from(self.0));
        texts!("{\"fault\":{\"number\":", number, "}}\n").write_to(output)
    }
}

/// What reports a fault: the line `fault N`, or its object where JSON is written.
#[derive(Clone, Copy)]
pub struct FaultText {
    /// Whether it is written as an object of JSON.
    pub json: bool,
    /// The fault that is reported.
    pub fault: BenchFault,
}

impl Text for FaultText {
    ghost text = { λ t. fault_text t.json (fault_number t.fault) };

    fn write_to<O: Output>(&self, output: &mut O) -> Result<(), DeviceFault> {
        if self.json {
            FaultObject(self.fault.number()).write_to(output)
        } else {
            self.fault.line().write_to(output)
        }
    }
}

impl From<AllocError> for BenchFault {
    ghost from_gives = { λ _ fault. fault ≡ NoMemory };

    fn from(_error: AllocError) -> BenchFault {
        BenchFault::NoMemory
    }
}

impl<T: Drop> From<AllocFailed<T>> for BenchFault {
    ghost from_gives = { λ _ fault. fault ≡ NoMemory };

    fn from(_error: AllocFailed<T>) -> BenchFault {
        BenchFault::NoMemory
    }
}
