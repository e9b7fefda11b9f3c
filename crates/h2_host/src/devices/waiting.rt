//! Standard input and standard output that wait where they were left non-blocking: the same pipe or terminal is opened
//! once more, without that flag, and read or written there.

use std::fs::OpenOptions;
use std::io::{ErrorKind, Read, Write};
use std::{fs, io, rt};

/// Standard input.
#[derive(Drop)]
pub struct WaitingInput<'r, F: rt::Files, S> {
    runtime: &'r F,
    input: S,
    again: Option<F::File>,
}

impl<'r, F: rt::Files, S: Read> WaitingInput<'r, F, S> {
    /// Standard input over this reader of it.
    pub fn new(runtime: &'r F, input: S) -> WaitingInput<'r, F, S> {
        WaitingInput {
            runtime,
            input,
            again: None,
        }
    }

    // Opened once more by /proc/self/fd, since O_NONBLOCK belongs to what was opened, which other processes
    // share. A socket can't be opened so, and is a failed read or write.
    /// Opens it once more; says whether that was possible. A socket can't be opened so.
    fn open_again(&mut self) -> bool {
        match fs::open(self.runtime, "/proc/self/fd/0") {
            Ok(file) => {
                self.again = Some(file);
                true
            }
            Err(_) => false,
        }
    }
}

impl<F: rt::Files, S: Read> Read for WaitingInput<'_, F, S> {
    fn read(&mut self, buffer: &mut [u8]) -> io::Result<usize> {
        if self.again.is_none() {
            match self.input.read(buffer) {
                Ok(count) => return Ok(count),
                Err(error) => {
                    if error.kind() != ErrorKind::WouldBlock || !self.open_again() {
                        return Err(error);
                    }
                }
            }
        }
        match &mut self.again {
            Some(file) => file.read(buffer),
            None => Err(io::Error::from(ErrorKind::WouldBlock)),
        }
    }
}

/// Standard output. It notes why the system refused a write.
#[derive(Drop)]
pub struct WaitingOutput<'r, F: rt::Files, S> {
    runtime: &'r F,
    output: S,
    again: Option<F::File>,
    failure: Option<ErrorKind>,
}

impl<'r, F: rt::Files, S: Write> WaitingOutput<'r, F, S> {
    /// Standard output over this writer of it.
    pub fn new(runtime: &'r F, output: S) -> WaitingOutput<'r, F, S> {
        WaitingOutput {
            runtime,
            output,
            again: None,
            failure: None,
        }
    }

    /// Why the last write was refused, where one was.
    pub fn failure(&self) -> Option<ErrorKind> {
        self.failure
    }

    /// Opens it once more; says whether that was possible.
    fn open_again(&mut self) -> bool {
        match OpenOptions::new()
            .write(true)
            .open(self.runtime, "/proc/self/fd/1")
        {
            Ok(file) => {
                self.again = Some(file);
                true
            }
            Err(_) => false,
        }
    }

    fn fail(&mut self, error: io::Error) -> io::Error {
        self.failure = Some(error.kind());
        error
    }
}

impl<F: rt::Files, S: Write> Write for WaitingOutput<'_, F, S> {
    fn write(&mut self, octets: &[u8]) -> io::Result<usize> {
        if self.again.is_none() {
            match self.output.write(octets) {
                Ok(count) => return Ok(count),
                Err(error) => {
                    if error.kind() != ErrorKind::WouldBlock || !self.open_again() {
                        return Err(self.fail(error));
                    }
                }
            }
        }
        let written = match &mut self.again {
            Some(file) => file.write(octets),
            None => Err(io::Error::from(ErrorKind::WouldBlock)),
        };
        match written {
            Ok(count) => Ok(count),
            Err(error) => Err(self.fail(error)),
        }
    }

    fn flush(&mut self) -> io::Result<()> {
        match self.output.flush() {
            Ok(()) => Ok(()),
            Err(error) => Err(self.fail(error)),
        }
    }
}
