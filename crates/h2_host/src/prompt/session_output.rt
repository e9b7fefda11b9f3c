//! Outputs that are looked at on their way: whether a sentence was written, and what the answers of a session begin
//! with.

ghost use Rattle.std.specs.Prelude.{◌≡◌, None, false};

use crate::SessionState;
use crate::items::number_in;
use crate::prompt::table_text::table_text;
use arrayvec::ArrayVec;
use h2_cmd_messages::{TextBuilder, say_session_fault};
use h2_io::{DeviceFault, Output};
use std::alloc::{AllocError, Global};
use std::io::Write;

/// An output that notes whether anything was written to it.
#[derive(Drop)]
pub struct Noted<'o, O> {
    inner: &'o mut O,
    written: bool,
}

impl<'o, O: Output> Noted<'o, O> {
    pub fn new(inner: &'o mut O) -> Noted<'o, O>
        ensures { result.inner.now ≡ inner.entry.now }
    {
        Noted {
            inner,
            written: false,
        }
    }

    /// Whether anything was written.
    pub fn is_written(&self) -> bool {
        self.written
    }
}

impl<O: Output> Output for Noted<'_, O> {
    ghost written = { λ d. O.written d.inner.now };

    ghost has_failed = { λ d. O.has_failed d.inner.now };

    ghost name = { λ d. O.name d.inner.now };

    fn write(&mut self, octets: &[u8]) -> Result<(), DeviceFault> {
        self.written = true;
        self.inner.write(octets)
    }

    fn flush(&mut self) -> Result<(), DeviceFault> {
        self.inner.flush()
    }
}

/// How many octets of an answer are looked at: more than its first line has, where that is a position or a fault.
const LOOKED_AT: usize = 32;

/// The first octets of an answer.
type AnswerFront = ArrayVec<u8, LOOKED_AT>;

/// Keeps the first octets of an answer.
fn note(octets: &[u8], front: &mut AnswerFront) {
    for octet in octets {
        // The others are not looked at.
        let _ = front.try_push(*octet);
    }
}

/// The first line of a text, without its line feed.
fn first_line(text: &[u8]) -> &[u8] {
    match text.split(|octet| *octet == b'\n').next() {
        Some(line) => line,
        None => &[],
    }
}

/// The sentence about the first line of an answer, where that is a fault; `line` is the number of the command's line, where
/// it is known. None where memory was refused.
fn sentence_of(alloc: Global, line: Option<usize>, answer: &[u8]) -> Option<String> {
    let number = answer.strip_prefix(b"fault ".as_slice())?;
    let mut words = TextBuilder::new(alloc);
    say_session_fault(line, number, &mut words);
    words.finish().ok()
}

/// The output of a session: it notes the position, writes a sentence for each command that was refused, and a line `.`
/// after each answer where that is asked for.
#[derive(Drop)]
pub struct SessionOutput<'w, O, E> {
    output: &'w mut O,
    errors: E,
    alloc: Global,
    is_quiet: bool,
    has_dots: bool,
    state: &'w SessionState,
    /// What `show` has printed, where its table alone is written.
    shown: Vec<u8>,
    /// Whether memory for that was refused.
    is_cut: bool,
    /// The number of the line that is answered next, where each line has an answer here.
    line: Option<usize>,
    front: AnswerFront,
    failed: bool,
}

impl<'w, O: Output, E: Write> SessionOutput<'w, O, E> {
    /// The output of a session over this one; sentences are written to `errors`, the position to `state`. `line` is
    /// the number of the first command's line, where each line is answered by the session itself.
    pub fn new(
        alloc: Global,
        output: &'w mut O,
        errors: E,
        is_quiet: bool,
        has_dots: bool,
        state: &'w SessionState,
        line: Option<usize>,
    ) -> SessionOutput<'w, O, E>
        ensures { result.failed ≡ false }
    {
        SessionOutput {
            output,
            errors,
            alloc,
            is_quiet,
            has_dots,
            state,
            shown: Vec::new(alloc),
            is_cut: false,
            line,
            front: ArrayVec::new(),
            failed: false,
        }
    }

    /// Looks at the answer that was written.
    fn look(&mut self) {
        let line = first_line(self.front.as_slice());
        if let Some(position) = line.strip_prefix(b"at ".as_slice()) {
            self.state.position.set(number_in(position));
        }
        self.state
            .is_refused
            .set(line.starts_with(b"fault ".as_slice()));
        if !self.is_quiet
            && let Some(text) = sentence_of(self.alloc, self.line, line)
        {
            let _ = self.errors.write_all(text.as_bytes());
        }
        self.front.clear();
        if let Some(line) = self.line {
            self.line = Some(line.saturating_add(1));
        }
    }

    /// Writes the header table of what `show` has printed; `fault 0` where memory for it is refused.
    fn write_table(&mut self) -> Result<(), DeviceFault> {
        self.state.has_table.set(false);
        let text = if self.is_cut {
            Err(AllocError)
        } else {
            table_text(self.alloc, self.shown.as_slice())
        };
        self.shown.clear();
        self.is_cut = false;
        match text {
            Ok(text) => self.output.write(text.as_bytes()),
            Err(_) => self.output.write(b"fault 0\n".as_slice()),
        }
    }

    /// Writes what follows a reply: the header table, the line with a dot. Then flushes.
    fn write_on(&mut self) -> Result<(), DeviceFault> {
        if self.state.has_table.get() && !self.front.is_empty() {
            self.write_table()?;
        }
        if self.has_dots && !self.front.is_empty() {
            self.output.write(b".\n".as_slice())?;
        }
        self.output.flush()
    }
}

impl<O: Output, E: Write> Output for SessionOutput<'_, O, E> {
    ghost written = { λ _. None };

    ghost has_failed = { λ d. d.failed };

    ghost name = { λ _. 0 };

    fn write(&mut self, octets: &[u8]) -> Result<(), DeviceFault> {
        note(octets, &mut self.front);
        let written = if self.state.has_table.get() {
            self.is_cut = self.is_cut || self.shown.extend_from_slice(octets).is_err();
            Ok(())
        } else {
            self.output.write(octets)
        };
        self.failed = written.is_err();
        written
    }

    fn flush(&mut self) -> Result<(), DeviceFault> {
        let flushed = self.write_on();
        self.look();
        self.failed = flushed.is_err();
        flushed
    }
}
