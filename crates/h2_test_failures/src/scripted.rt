//! A wire with a script: what each read gives, and how many octets the writes take. It reports all that was read and
//! written.

ghost use Rattle.std.specs.Prelude.{◌≡◌, ◌≤◌, Some, length, take, drop, false};

use h2_serve::{Wire, WireFault};
use h2_spec::octets::{octets_from, octets_up_to};
use std::alloc::Global;

/// What one read gives.
#[derive(Clone, Copy)]
pub enum Step<'a> {
    /// These octets, if at least `after` octets were written before; otherwise the read fails.
    Piece { after: usize, octets: &'a [u8] },
    /// The read fails.
    Fault,
}

/// A wire with these reads, and then the end of the input. Its writes take at most `write_size` octets each, and
/// `writable` octets in all; the next write fails.
#[derive(Drop)]
pub struct ScriptedWire<'a> {
    steps: &'a [Step<'a>],
    rest: &'a [u8],
    writable: usize,
    write_size: usize,
    read: Vec<u8>,
    written: Vec<u8>,
    lengths: Vec<usize>,
    failed: bool,
}

fn copy_front(buffer: &mut [u8], octets: &[u8], count: usize)
    requires octets { count ≤ length octets.now }
    requires buffer { count ≤ length buffer.old }
    ensures bound { count ≤ length buffer.new }
    ensures octets { take count buffer.new ≡ take count octets.now }
{
    buffer[..count].copy_from_slice(&octets[..count]);
}

/// The octets of the next read, none at the end of the input; `None` where the read fails.
fn next_piece<'a>(steps: &mut &'a [Step<'a>], written: usize) -> Option<&'a [u8]> {
    match *steps {
        [] => Some(&[]),
        [first, more @ ..] => {
            *steps = more;
            match *first {
                Step::Piece { after, octets } if after <= written => Some(octets),
                _ => None,
            }
        }
    }
}

impl<'a> ScriptedWire<'a> {
    pub fn new(
        alloc: Global,
        steps: &'a [Step<'a>],
        writable: usize,
        write_size: usize,
    ) -> ScriptedWire<'a>
        ensures { result.failed ≡ false }
    {
        ScriptedWire {
            steps,
            rest: &[],
            writable,
            write_size,
            read: Vec::new(alloc),
            written: Vec::new(alloc),
            lengths: Vec::new(alloc),
            failed: false,
        }
    }

    pub fn written(&self) -> &[u8] {
        self.written.as_slice()
    }

    pub fn lengths(&self) -> &[usize] {
        self.lengths.as_slice()
    }
}

impl Wire for ScriptedWire<'_> {
    ghost octets_read = { λ s. Some s.read.items };

    ghost octets_written = { λ s. Some s.written.items };

    ghost read_lengths = { λ s. Some s.lengths.items };

    ghost has_failed = { λ s. s.failed };

    fn read(&mut self, buffer: &mut [u8]) -> Result<usize, WireFault> {
        self.failed = true;
        let octets = if self.rest.is_empty() {
            match next_piece(&mut self.steps, self.written.len()) {
                Some(octets) => octets,
                None => return Err(WireFault),
            }
        } else {
            self.rest
        };
        let count = octets.len().min(buffer.len());
        if self.lengths.reserve(1).is_err() {
            return Err(WireFault);
        }
        if self
            .read
            .extend_from_slice(octets_up_to(octets, count))
            .is_err()
        {
            return Err(WireFault);
        }
        self.lengths.push_reserved(count);
        copy_front(buffer, octets, count);
        self.rest = octets_from(octets, count);
        self.failed = false;
        Ok(count)
    }

    fn write(&mut self, octets: &[u8]) -> Result<usize, WireFault> {
        self.failed = true;
        let count = octets.len().min(self.writable).min(self.write_size);
        if count == 0 {
            return Err(WireFault);
        }
        match self.written.extend_from_slice(octets_up_to(octets, count)) {
            Ok(()) => {}
            Err(_) => return Err(WireFault),
        }
        self.writable -= count;
        self.failed = false;
        Ok(count)
    }
}
