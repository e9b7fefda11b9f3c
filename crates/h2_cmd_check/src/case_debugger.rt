//! The debugger of a case, which is kept from its first command on. Definitions: `specs/Commands.antt`.

ghost use Rattle.std.specs.Prelude.{◌≡◌, true, is_some, IfOk, OnOk};
ghost use Rattle.h2_debug.specs.Debugging.{fed};
ghost use Rattle.h2_debug.specs.Loaded.{loaded};
ghost use Rattle.h2_cmd_check.specs.Commands.{answered, debugger_or, is_present, is_refusal, left_with};
ghost use Rattle.h2_cmd_check.specs.declared.case_debugger.CaseDebugger.TheVariants.{Absent, Left, Present};

use crate::command::{Given, debugger_over, give_line};
use h2_debug::Debugger;
use std::alloc::{AllocError, Global};
use std::marker::Model;

/// A debugger on the heap: it is large, and a function pays for the space of its locals. A contract sees the debugger.
#[derive(Drop)]
pub(crate) struct BoxedDebugger<'b> {
    boxed: Box<Debugger<'b, Global>>,
}

impl<'b> Model for BoxedDebugger<'b> {
    ghost use Rattle.h2_debug.specs.Debugging.{Debugging};

    ghost Value = { Debugging };

    ghost view = { λ d. d.boxed.value };
}

impl<'b> BoxedDebugger<'b> {
    /// A debugger, moved to the heap.
    fn of(alloc: Global, debugger: Debugger<'b, Global>) -> Result<Self, AllocError>
        ensures { IfOk result (λ boxed. boxed ≡ debugger.entry) }
    {
        match Box::new(alloc, debugger) {
            Ok(boxed) => Ok(BoxedDebugger { boxed }),
            Err(_) => Err(AllocError),
        }
    }

    /// The debugger.
    pub(crate) fn as_ref(&self) -> &Debugger<'b, Global>
        ensures { result.now ≡ self.now }
    {
        self.boxed.as_ref()
    }

    /// Appends octets of the client.
    fn feed(&mut self, more: &[u8]) -> Result<(), AllocError>
        ensures { OnOk result (self.new ≡ fed more.now self.old) }
    {
        let debugger = self.boxed.as_mut();
        match debugger.feed(more) {
            Ok(()) => Ok(()),
            Err(_) => Err(AllocError),
        }
    }

    /// Gives it a line, as `give_line`.
    pub(crate) fn give(&mut self, line: &[u8]) -> Result<Option<u8>, AllocError>
        ensures { IfOk result (λ fault. (is_some fault ≡ is_refusal (answered self.old line.now).text) × (self.new ≡ (answered self.old line.now).after)) }
    {
        give_line(self.boxed.as_mut(), line)
    }
}

/// The debugger of a case.
#[derive(Drop)]
pub(crate) enum CaseDebugger<'b> {
    /// No command came yet.
    Absent,
    /// Here is its position.
    Present(BoxedDebugger<'b>),
    /// Octets came after its last command, and it was fed them: here is after all items.
    Left(BoxedDebugger<'b>),
}

/// A debugger that is fed the octets after its last command.
fn feed_left<'b>(
    mut debugger: BoxedDebugger<'b>,
    more: &[u8],
) -> Result<CaseDebugger<'b>, AllocError>
    ensures { IfOk result (λ after. after ≡ Left (fed more.now debugger.entry)) }
{
    debugger.feed(more)?;
    Ok(CaseDebugger::Left(debugger))
}

impl<'b> CaseDebugger<'b> {
    /// Whether no command came yet.
    pub(crate) fn is_absent(&self) -> bool
        ensures { result ≡ true → self.now ≡ Absent }
    {
        match self {
            CaseDebugger::Absent => true,
            CaseDebugger::Present(_) | CaseDebugger::Left(_) => false,
        }
    }

    /// Whether here is its position.
    pub(crate) fn is_present(&self) -> bool
        ensures { result ≡ is_present self.now }
    {
        match self {
            CaseDebugger::Present(_) => true,
            CaseDebugger::Absent | CaseDebugger::Left(_) => false,
        }
    }

    /// More octets come: it is fed them, and here is its position no longer.
    pub(crate) fn leave(self, more: &[u8]) -> Result<CaseDebugger<'b>, AllocError>
        ensures { IfOk result (λ after. after ≡ left_with more.now self.entry) }
    {
        match self {
            CaseDebugger::Absent => Ok(CaseDebugger::Absent),
            CaseDebugger::Present(debugger) => feed_left(debugger, more),
            CaseDebugger::Left(debugger) => feed_left(debugger, more),
        }
    }

    /// A command comes: the one that is there, or else a new one over these octets.
    pub(crate) fn enter(
        self,
        alloc: Global,
        given: &Given<'_, 'b>,
        octets: &Vec<u8>,
    ) -> Result<CaseDebugger<'b>, AllocError>
        ensures { IfOk result (λ after. after ≡ Present (debugger_or self.entry (loaded given.now.book.now given.now.config octets.now.items))) }
    {
        match self {
            CaseDebugger::Present(debugger) => Ok(CaseDebugger::Present(debugger)),
            CaseDebugger::Left(debugger) => Ok(CaseDebugger::Present(debugger)),
            CaseDebugger::Absent => {
                let debugger = BoxedDebugger::of(alloc, debugger_over(given, octets)?)?;
                Ok(CaseDebugger::Present(debugger))
            }
        }
    }
}
