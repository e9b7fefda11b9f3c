//! The standard library's readers and writers as devices: each sets its flag exactly where the call below failed.

ghost use Rattle.std.specs.Prelude.{◌≡◌, false};

use crate::input::Input;
use crate::output::{DeviceFault, Output};
use std::io::{Read, Write};

// Has its own loop over `read`: std's `read_to_end` tries again after an interruption, which here is fault
// 22.
/// A reader as an input.
#[derive(Drop)]
pub struct FromRead<'r, R> {
    inner: &'r mut R,
    failed: bool,
}

impl<'r, R: Read> FromRead<'r, R> {
    /// An input over this reader; no call of it has failed.
    pub fn new(inner: &'r mut R) -> FromRead<'r, R>
        ensures failed { result.failed ≡ false }
        ensures reader { result.inner.now ≡ inner.entry.now }
        ensures same_reference { result.inner.ghost_name ≡ inner.entry.ghost_name }
    {
        FromRead {
            inner,
            failed: false,
        }
    }
}

impl<'r, R: Read> FromRead<'r, R> {
    /// The reader.
    pub fn into_inner(self) -> &'r mut R
        ensures reader { result.now ≡ self.entry.inner.now }
        ensures same_reference { result.ghost_name ≡ self.entry.inner.ghost_name }
    {
        self.inner
    }
}

impl<R: Read> Input for FromRead<'_, R> {
    ghost remaining = { λ d. R.remaining d.inner.now };

    ghost has_failed = { λ d. d.failed };

    ghost name = { λ d. d.inner.ghost_name };

    fn read(&mut self, buffer: &mut [u8]) -> Result<usize, DeviceFault> {
        match self.inner.read(buffer) {
            Ok(count) => {
                self.failed = false;
                Ok(count)
            }
            Err(_) => {
                self.failed = true;
                Err(DeviceFault)
            }
        }
    }
}

/// A writer as an output.
#[derive(Drop)]
pub struct IntoWrite<'w, W> {
    inner: &'w mut W,
    failed: bool,
}

impl<'w, W: Write> IntoWrite<'w, W> {
    /// An output over this writer; no call of it has failed.
    pub fn new(inner: &'w mut W) -> IntoWrite<'w, W>
        ensures failed { result.failed ≡ false }
        ensures writer { result.inner.now ≡ inner.entry.now }
        ensures same_reference { result.inner.ghost_name ≡ inner.entry.ghost_name }
    {
        IntoWrite {
            inner,
            failed: false,
        }
    }
}

impl<'w, W: Write> IntoWrite<'w, W> {
    /// The writer.
    pub fn into_inner(self) -> &'w mut W
        ensures writer { result.now ≡ self.entry.inner.now }
        ensures same_reference { result.ghost_name ≡ self.entry.inner.ghost_name }
    {
        self.inner
    }
}

impl<W: Write> Output for IntoWrite<'_, W> {
    ghost written = { λ d. W.contents d.inner.now };

    ghost has_failed = { λ d. d.failed };

    ghost name = { λ d. d.inner.ghost_name };

    fn write(&mut self, octets: &[u8]) -> Result<(), DeviceFault> {
        match self.inner.write_all(octets) {
            Ok(()) => {
                self.failed = false;
                Ok(())
            }
            Err(_) => {
                self.failed = true;
                Err(DeviceFault)
            }
        }
    }

    fn flush(&mut self) -> Result<(), DeviceFault> {
        match self.inner.flush() {
            Ok(()) => {
                self.failed = false;
                Ok(())
            }
            Err(_) => {
                self.failed = true;
                Err(DeviceFault)
            }
        }
    }
}
