//! Devices for sessions: an input that comes in pieces, fails at a given read, and fails where something was written
//! that was not flushed; and an output that fails at a given call.

ghost use Rattle.std.specs.Prelude.{◌≡◌, None, false, is_err, true};

use h2_io::{DeviceFault, Input, Output};
use std::alloc::Global;
use std::cell::Cell;

/// An input that gives at most that many octets a read. The read with the number in `reads` fails, counted from 1, and
/// so does each where the output holds something back.
#[derive(Drop)]
pub struct Pieces<'o> {
    pub octets: &'o [u8],
    pub size: usize,
    pub reads: u64,
    pub held_back: &'o Cell<bool>,
    pub failed: bool,
}

impl Input for Pieces<'_> {
    ghost remaining = { λ _. None };

    ghost has_failed = { λ p. p.failed };

    ghost name = { λ _. 0 };

    fn read(&mut self, buffer: &mut [u8]) -> Result<usize, DeviceFault> {
        self.failed = self.reads == 1 || self.held_back.get();
        if self.failed {
            return Err(DeviceFault);
        }
        self.reads = self.reads.saturating_sub(1);
        let count = self.size.min(buffer.len()).min(self.octets.len());
        let (taken, left) = self.octets.split_at(count);
        buffer[..count].copy_from_slice(taken);
        self.octets = left;
        Ok(count)
    }
}

/// An output in memory. The call with the number in `calls` fails, counted from 1. It says whether something was
/// written since the last flush.
#[derive(Drop)]
pub struct Limited<'o> {
    pub octets: Vec<u8>,
    pub calls: u64,
    pub held_back: &'o Cell<bool>,
    pub failed: bool,
}

impl<'o> Limited<'o> {
    pub fn new(alloc: Global, calls: u64, held_back: &'o Cell<bool>) -> Limited<'o>
        ensures { result.failed ≡ false }
    {
        Limited {
            octets: Vec::new(alloc),
            calls,
            held_back,
            failed: false,
        }
    }
}

impl Output for Limited<'_> {
    ghost written = { λ _. None };

    ghost has_failed = { λ l. l.failed };

    ghost name = { λ _. 0 };

    fn write(&mut self, octets: &[u8]) -> Result<(), DeviceFault> {
        self.failed = self.calls == 1 || self.octets.extend_from_slice(octets).is_err();
        if self.failed {
            return Err(DeviceFault);
        }
        self.calls = self.calls.saturating_sub(1);
        self.held_back.set(true);
        Ok(())
    }

    fn flush(&mut self) -> Result<(), DeviceFault> {
        self.failed = self.calls == 1;
        if self.failed {
            return Err(DeviceFault);
        }
        self.calls = self.calls.saturating_sub(1);
        self.held_back.set(false);
        Ok(())
    }
}
