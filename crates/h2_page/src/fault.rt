//! Why a call of the page gives less than it was asked for, as numbers. Definitions: `specs/Web.antt`.

ghost use Rattle.std.specs.Prelude.{◌≡◌};
ghost use Rattle.h2_page.specs.Web.{end_of};

use h2_cmd_play::AnswerFault;
use h2_script::{SyntaxKind, kind_number};

/// Why a call does not give all that it was asked for.
#[derive(Clone, Copy)]
pub enum WebFault {
    /// The memory that was given did not suffice.
    NoMemory,
    /// The place for what is given has no space for it.
    NoRoom,
    /// A limit or a setting is outside its range.
    BadConfig,
    /// This line of the answers, from 1, says none, or the book refuses it.
    BadAnswer(usize, AnswerFault),
    /// The text is not UTF-8.
    NoText,
    /// The first bad line of a script, from 1, and the least kind of fault in it.
    Syntax(usize, SyntaxKind),
}

/// How a call ended, as the page reads it.
#[repr(C)]
#[derive(Clone, Copy)]
pub struct CallEnd {
    /// 0 where all was given; 1 where memory did not suffice; 2 where there was no space; else the number of the
    /// program.
    pub fault: u8,
    /// The kind of fault in a line of a script, else 0.
    pub kind: u8,
    /// The line that is at fault, from 1, else 0.
    pub line: usize,
}

/// How a call ended, as numbers.
pub(crate) fn end_of(ended: Result<(), WebFault>) -> CallEnd
    ensures { result ≡ end_of ended }
{
    let (fault, kind, line) = match ended {
        Ok(()) => (0, 0, 0),
        Err(WebFault::NoMemory) => (1, 0, 0),
        Err(WebFault::NoRoom) => (2, 0, 0),
        Err(WebFault::BadConfig) => (16, 0, 0),
        Err(WebFault::BadAnswer(line, fault)) => (fault.number(), 0, line),
        Err(WebFault::NoText) => (22, 0, 0),
        Err(WebFault::Syntax(line, kind)) => (18, kind_number(kind), line),
    };
    CallEnd { fault, kind, line }
}
