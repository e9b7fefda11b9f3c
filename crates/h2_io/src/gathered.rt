//! What is written, gathered in memory. It fails only where a growth is refused.

ghost use Rattle.std.specs.Prelude.{◌≡◌, [], Some, false, IfOk};
ghost use Rattle.std.specs.String.{string_bytes};

use crate::output::{DeviceFault, Output};
use crate::text::Text;
use std::alloc::{AllocError, Allocator, Global};

/// What was written, in memory.
#[derive(Drop)]
pub struct Gathered<A: Allocator = Global> {
    /// The octets written so far.
    pub octets: Vec<u8, A>,
    /// Whether the growth for the last write was refused.
    pub failed: bool,
}

impl<A: Allocator> Gathered<A> {
    /// Nothing yet. Takes no memory.
    pub fn new(alloc: A) -> Gathered<A>
        ensures { (result.octets.items ≡ []) × (result.failed ≡ false) }
    {
        Gathered {
            octets: Vec::new(alloc),
            failed: false,
        }
    }
}

impl<A: Allocator> Output for Gathered<A> {
    ghost written = { λ g. Some g.octets.items };

    ghost has_failed = { λ g. g.failed };

    ghost name = { λ _. 0 };

    fn write(&mut self, octets: &[u8]) -> Result<(), DeviceFault> {
        match self.octets.extend_from_slice(octets) {
            Ok(()) => {
                self.failed = false;
                Ok(())
            }
            Err(_) => {
                self.failed = true;
                Err(DeviceFault)
            }
        }
    }

    /// Memory holds nothing back.
    fn flush(&mut self) -> Result<(), DeviceFault> {
        self.failed = false;
        Ok(())
    }
}

/// The octets of a text, with memory for this many from the first on: where they suffice, it does not grow.
///
/// `AllocError` where memory for it is refused.
pub fn octets_with<A: Allocator, T: Text>(
    alloc: A,
    room: usize,
    text: &T,
) -> Result<Vec<u8, A>, AllocError>
    ensures { IfOk result (λ octets. octets.items ≡ T.text text.now) }
{
    let mut gathered = Gathered {
        octets: Vec::with_capacity(alloc, room)?,
        failed: false,
    };
    match text.write_to(&mut gathered) {
        Ok(()) => Ok(gathered.octets),
        Err(_) => Err(AllocError),
    }
}

/// A text as a string, which grows as the text does.
///
/// `AllocError` where memory for it is refused. A text that is not UTF-8 is refused so too.
pub fn string_of<A: Allocator, T: Text>(alloc: A, text: &T) -> Result<String<A>, AllocError>
    ensures { IfOk result (λ string. string_bytes string ≡ T.text text.now) }
{
    match String::from_utf8(octets_with(alloc, 0, text)?) {
        Ok(string) => Ok(string),
        Err(_) => Err(AllocError),
    }
}
