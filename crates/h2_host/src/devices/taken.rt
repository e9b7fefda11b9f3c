//! The input of a command: the text of a file, or what a reader gives. What a session was given is kept, since h2_debug
//! does not say why it refuses that.

ghost use Rattle.std.specs.Prelude.{◌≤◌, length, IfOk};

use crate::devices::copied::copy_from;
use std::alloc::Global;
use std::io::{ErrorKind, Read};
use std::{io, mem};

/// What a file gives: the input of a command, or the octets of a session, whose commands the reader gives.
#[derive(Drop)]
pub struct Front {
    /// What is given of it.
    pub text: Vec<u8>,
    /// Why the file was not read, where it was not.
    pub failure: Option<ErrorKind>,
    /// Whether the reader is read.
    pub reads_on: bool,
    /// Whether what it gives is kept in `seen`.
    pub keeps: bool,
}

impl Front {
    /// Nothing: all is what the reader gives, which is kept for a session.
    pub fn empty(alloc: Global, keeps: bool) -> Front {
        Front {
            reads_on: true,
            keeps,
            ..Front::of(Vec::new(alloc))
        }
    }

    /// A text alone.
    pub fn of(text: Vec<u8>) -> Front {
        Front {
            text,
            failure: None,
            reads_on: false,
            keeps: false,
        }
    }

    /// A file that can't be read for this reason.
    pub fn unread(alloc: Global, failure: ErrorKind) -> Front {
        Front {
            failure: Some(failure),
            ..Front::of(Vec::new(alloc))
        }
    }
}

/// The input of a command.
#[derive(Drop)]
pub struct TakenInput<R> {
    /// What is given first.
    front: Vec<u8>,
    given: usize,
    reader: R,
    /// Whether the reader is read after what is given first.
    reads_on: bool,
    /// What the reader gave a session, where there is no file.
    seen: Vec<u8>,
    /// Whether the reader's text is kept there.
    keeps: bool,
    /// How many octets the reader gave.
    count: usize,
    /// Whether it was the reader that could not be read.
    is_reader_failure: bool,
    /// Whether memory for that text was refused.
    is_cut: bool,
    /// Why the file can't be read.
    unread: Option<ErrorKind>,
    /// Why the last read failed.
    failure: Option<ErrorKind>,
}

impl<R: Read> TakenInput<R> {
    /// What a file gives, or what a reader gives.
    pub fn new(front: Front, reader: R) -> TakenInput<R> {
        TakenInput {
            keeps: front.keeps,
            count: 0,
            seen: Vec::new(*front.text.allocator()),
            front: front.text,
            given: 0,
            reader,
            reads_on: front.reads_on,
            is_reader_failure: false,
            is_cut: false,
            unread: front.failure,
            failure: None,
        }
    }

    /// What standard input gave a session that has no file.
    pub fn seen(&self) -> &[u8] {
        self.seen.as_slice()
    }

    /// The text of a session's octets, where a file gave it, and the reader gives commands alone.
    pub fn take_text(&mut self) -> Option<Vec<u8>> {
        if self.keeps || !self.reads_on {
            return None;
        }
        let none = Vec::new(*self.front.allocator());
        Some(mem::replace(&mut self.front, none))
    }

    /// How many octets the reader gave.
    pub fn count(&self) -> usize {
        self.count
    }

    /// Whether it was the reader that could not be read, and no file.
    pub fn is_reader_failure(&self) -> bool {
        self.is_reader_failure
    }

    /// Whether memory for that text was refused, so that it is not whole.
    pub fn is_cut(&self) -> bool {
        self.is_cut
    }

    /// Why the last read failed, where it did.
    pub fn failure(&self) -> Option<ErrorKind> {
        self.failure
    }

    /// Gives of what is given first as much as there is space for.
    fn give_front(&mut self, buffer: &mut [u8]) -> usize
        ensures { result ≤ length buffer.new }
    {
        let count = copy_from(self.front.as_slice(), self.given, buffer);
        self.given = self.given.saturating_add(count);
        count
    }

    /// Reads after what is given first.
    fn read_after(&mut self, buffer: &mut [u8]) -> io::Result<usize>
        ensures { IfOk result (λ count. count ≤ length buffer.new) }
    {
        if self.reads_on {
            self.reader.read(buffer)
        } else {
            Ok(0)
        }
    }

    /// Keeps octets that were read, where that is asked for, as far as there is memory.
    fn keep(&mut self, octets: &[u8]) {
        self.count = self.count.saturating_add(octets.len());
        if self.keeps && !self.is_cut {
            self.is_cut = self.seen.extend_from_slice(octets).is_err();
        }
    }
}

impl<R: Read> Read for TakenInput<R> {
    fn read(&mut self, buffer: &mut [u8]) -> io::Result<usize> {
        if let Some(kind) = self.unread {
            self.failure = self.unread;
            return Err(io::Error::from(kind));
        }
        let count = self.give_front(buffer);
        if count > 0 {
            return Ok(count);
        }
        match self.read_after(buffer) {
            Ok(count) => {
                self.keep(&buffer[..count]);
                Ok(count)
            }
            Err(error) => {
                self.failure = Some(error.kind());
                self.is_reader_failure = true;
                Err(error)
            }
        }
    }
}
