//! Replies to commands, as texts. No memory is taken for them. Definitions: `specs/Replies.antt`.

ghost use Rattle.std.specs.Prelude.{◌≡◌};
ghost use Rattle.h2_debug.specs.Replies.{fault_line, number_line, reply_text, shown_text, why_text};
ghost use Rattle.h2_explain_text.specs.Why.{why_lines};

use crate::debugger::Debugger;
use h2_conn_view::hex_text::OctetsText;
use h2_explain_text::why::WhyText;
use h2_io::{DeviceFault, Number, Output, Text, texts};
use h2_spec::special_cases::SpecialCase;
use std::alloc::Global;

/// What is printed for a command.
#[derive(Clone, Copy)]
pub enum Reply {
    /// The new position.
    At(usize),
    /// A breakpoint was set, or all were removed.
    Done,
    /// The number of a fault.
    Refused(u8),
    /// The debugger's position, what its item sent, and the state.
    Shown,
    /// Why the item at the debugger's position was an error, or was ignored, and which special case that is.
    Explained(Option<SpecialCase>),
}

/// A word, a number and a line feed.
#[derive(Clone, Copy)]
struct NumberLine<'w> {
    word: &'w str,
    number: u64,
}

#[tactic(auto, unfolding(crate::specs::Replies::number_line))]
impl Text for NumberLine<'_> {
    ghost text = { λ l. number_line l.word.now l.number };

    fn write_to<O: Output>(&self, output: &mut O) -> Result<(), DeviceFault> {
        texts!(self.word, Number(self.number), "\n").write_to(output)
    }
}

/// The line of a fault, by its number.
#[derive(Clone, Copy)]
pub struct FaultLine(pub u8);

impl Text for FaultLine {
    ghost text = { λ l. fault_line l.0 };

    fn write_to<O: Output>(&self, output: &mut O) -> Result<(), DeviceFault> {
        let word = "fault ";
        let number = u64::from(self.0);
        NumberLine { word, number }.write_to(output)
    }
}

/// The position of a debugger, the octets that its item sent, and the text of the state.
#[derive(Clone, Copy)]
struct PlaceText<'d, 'b>(&'d Debugger<'b, Global>);

#[tactic(auto, using(h2_io::proofs::Appending::both), unfolding(crate::specs::Replies::place_text))]
impl Text for PlaceText<'_, '_> {
    ghost text = { λ p. shown_text p.0.now };

    fn write_to<O: Output>(&self, output: &mut O) -> Result<(), DeviceFault> {
        let position = Number(self.0.pos() as u64);
        let sent = OctetsText(self.0.sent());
        texts!("at ", position, "\nsent ", sent, "\n").write_to(output)?;
        self.0.conn().write_to(output)
    }
}

/// Why the item at the position of a debugger was an error, or was ignored, and which special case that is.
fn why_of(debugger: &Debugger<'_, Global>, case: Option<SpecialCase>) -> WhyText
    ensures { why_lines result.phase result.cause result.ignored result.case ≡ why_text debugger.now case }
{
    WhyText {
        phase: debugger.conn().counts().phase,
        cause: debugger.cause(),
        ignored: debugger.ignored(),
        case,
    }
}

/// A reply of a debugger.
#[derive(Clone, Copy)]
pub struct ReplyText<'d, 'b> {
    /// What is replied to the command.
    pub reply: Reply,
    /// The debugger after the command.
    pub debugger: &'d Debugger<'b, Global>,
}

impl Text for ReplyText<'_, '_> {
    ghost text = { λ r. reply_text r.debugger.now r.reply };

    fn write_to<O: Output>(&self, output: &mut O) -> Result<(), DeviceFault> {
        match self.reply {
            Reply::At(position) => {
                let word = "at ";
                let number = position as u64;
                NumberLine { word, number }.write_to(output)
            }
            Reply::Done => "ok\n".write_to(output),
            Reply::Refused(fault) => FaultLine(fault).write_to(output),
            Reply::Shown => PlaceText(self.debugger).write_to(output),
            Reply::Explained(case) => why_of(self.debugger, case).write_to(output),
        }
    }
}
