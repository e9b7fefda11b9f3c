//! What `explain` prints of the octets of a session, for the lines `explain` and `list` of a person or a program.

use crate::OctetsExplainer;
use crate::commands::Commands;
use crate::devices::files::NamedFiles;
use h2_cmd_args::command::{BookWords, Debug, Explain, Plan, Refusal};
use h2_io::Gathered;
use std::alloc::{AllocError, Global};

/// What explains the octets of a session.
pub struct SessionExplainer<'r, 'c, C> {
    rt: &'r HostRuntime,
    commands: &'r C,
    /// The words of the session; of another command there are none.
    words: Option<Debug<'c>>,
    /// Whether its octets are given as they are, not as hex.
    raw: bool,
}

impl<'r, 'c, C> Drop for SessionExplainer<'r, 'c, C> {
    fn drop(self) {
        let Self {
            rt: _,
            commands: _,
            words: _,
            raw: _,
        } = self;
    }
}

/// The book of a session, whose sentences were said already.
fn book_of<'c>(alloc: Global, debug: &Debug<'c>) -> Result<BookWords<'c>, AllocError> {
    let answers = Vec::from_slice(alloc, debug.book.answers.as_slice())?;
    Ok(BookWords {
        file: debug.book.file,
        why: false,
        answers,
    })
}

/// The words of a session once more.
fn words_of<'c>(alloc: Global, debug: &Debug<'c>) -> Result<Debug<'c>, AllocError> {
    let book = book_of(alloc, debug)?;
    Ok(Debug {
        config: debug.config,
        book,
        input: debug.input,
    })
}

/// `explain` with the limits, the settings and the book of a session.
fn plan_of<'c>(alloc: Global, words: &Debug<'c>, raw: bool) -> Result<Plan<'c>, AllocError> {
    let book = book_of(alloc, words)?;
    Ok(Plan::Explain(Explain {
        config: words.config,
        json: false,
        color: false,
        strict: false,
        full: false,
        brief: false,
        errors: false,
        stream: None,
        raw,
        file: "",
        book,
        input: "",
    }))
}

/// Whether `explain` was refused memory, where it ended with this status and printed this: its output is memory too.
fn is_out_of_memory(status: u8, printed: &[u8]) -> bool {
    status == 3 || (status == 1 && printed.ends_with(b"fault 0\n".as_slice()))
}

impl<'r, 'c, C: Commands> SessionExplainer<'r, 'c, C> {
    /// What a session is explained by, and no other command. Where memory for its words is refused, the words are refused
    /// for that.
    pub fn new(
        rt: &'r HostRuntime,
        commands: &'r C,
        asked: &mut Result<Plan<'c>, Refusal>,
        raw: bool,
    ) -> SessionExplainer<'r, 'c, C> {
        let words = match asked {
            Ok(Plan::Debug(debug)) => words_of(rt.alloc(), debug).ok(),
            _ => return SessionExplainer {
                rt,
                commands,
                words: None,
                raw,
            },
        };
        if words.is_none() {
            *asked = Err(Refusal::NoMemory);
        }
        SessionExplainer {
            rt,
            commands,
            words,
            raw,
        }
    }
}

impl<C: Commands> OctetsExplainer for SessionExplainer<'_, '_, C> {
    fn explain(&self, alloc: Global, text: &[u8]) -> Result<Vec<u8>, AllocError> {
        let Some(words) = &self.words else {
            return Ok(Vec::new(alloc));
        };
        let asked: Result<Plan<'_>, Refusal> = Ok(plan_of(alloc, words, self.raw)?);
        let mut files = NamedFiles { rt: self.rt };
        let mut input = text;
        let mut output = Gathered::new(alloc);
        let mut errors = Gathered::new(alloc);
        let status = self.commands.carry_out(
            alloc,
            &asked,
            &mut files,
            &mut input,
            &mut output,
            &mut errors,
        );
        if is_out_of_memory(status, output.octets.as_slice()) {
            return Err(AllocError);
        }
        Ok(output.octets)
    }
}
