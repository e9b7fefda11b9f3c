//! Commands of a debugger in a case. Definitions: `specs/Commands.antt`.

ghost use Rattle.std.specs.Prelude.{◌≡◌, ◌<◌, is_some, not, IfOk, IfSome};
ghost use Rattle.h2_debug.specs.Loaded.{loaded};
ghost use Rattle.h2_cmd_check.specs.Commands.{answered, fault_in, is_memory_fault, is_refusal};

use h2_debug::commands::obey::obey;
use h2_debug::{Debugger, Reply, command_of};
use h2_request_book::book::Book;
use h2_spec::connection::Config;
use std::alloc::{AllocError, Global};

/// What a case is checked with.
#[derive(Clone, Copy)]
pub(crate) struct Given<'c, 'b> {
    /// The texts of its items.
    pub texts: &'c [String],
    /// The answers of its connection, which a debugger gives too.
    pub book: &'b Book<Global>,
    /// The limits and the settings of both.
    pub config: Config,
}

/// The number of the fault that a reply is, if it is one.
fn fault_in(reply: Reply) -> Option<u8>
    ensures value { result ≡ fault_in reply }
    ensures few { IfSome result (λ fault. fault < 256) }
{
    match reply {
        Reply::Refused(fault) => Some(fault),
        Reply::At(_) | Reply::Done | Reply::Shown | Reply::Explained(_) => None,
    }
}

/// Whether it is that memory was refused.
fn is_memory_fault(fault: Option<u8>) -> bool
    ensures { result ≡ is_memory_fault fault }
{
    match fault {
        Some(number) => number == 0,
        None => false,
    }
}

/// Gives a debugger a line, and says with which fault it is refused, if it is.
pub(crate) fn give_line(
    debugger: &mut Debugger<'_, Global>,
    line: &[u8],
) -> Result<Option<u8>, AllocError>
    ensures { IfOk result (λ fault. (is_some fault ≡ is_refusal (answered debugger.old line.now).text) × (debugger.new ≡ (answered debugger.old line.now).after)) }
{
    let fault = fault_in(obey(debugger, command_of(line)));
    if is_memory_fault(fault) {
        return Err(AllocError);
    }
    Ok(fault)
}

/// Whether a line was refused with no fault.
pub(crate) fn is_obeyed(fault: Option<u8>) -> bool
    ensures { result ≡ not (is_some fault) }
{
    match fault {
        None => true,
        Some(_) => false,
    }
}

/// A debugger at the start of the run of these octets.
pub(crate) fn debugger_over<'b>(
    given: &Given<'_, 'b>,
    octets: &Vec<u8>,
) -> Result<Debugger<'b, Global>, AllocError>
    ensures { IfOk result (λ debugger. debugger ≡ loaded given.now.book.now given.now.config octets.now.items) }
{
    let octets = match octets.clone() {
        Ok(octets) => octets,
        Err(error) => return Err(error),
    };
    match Debugger::load(given.book, given.config, octets) {
        Ok(debugger) => Ok(debugger),
        Err(_) => Err(AllocError),
    }
}

/// The line of a fault; a dash for none.
pub(crate) fn fault_line(fault: Option<u8>) -> &'static str {
    match fault {
        None => "-",
        Some(19) => "fault 19",
        Some(20) => "fault 20",
        Some(21) => "fault 21",
        Some(_) => "fault 27",
    }
}
