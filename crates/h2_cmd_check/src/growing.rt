//! A text that is put together part by part, as octets. Definitions: `specs/Tap.antt`.

ghost use Rattle.std.specs.Prelude.{◌≡◌, ◌∷◌, [], codes, decimal, false, true, IfOk};
ghost use Rattle.hex.specs.Hex.{encode_lower};
ghost use Rattle.h2_cmd_check.specs.Tap.{Gains, escaped, escaped_octet, is_printable};

use itoa::Buffer;
use std::alloc::{AllocError, Global};

/// Whether an octet is a character of ASCII that is shown: from a blank to `~`.
pub(crate) fn is_printable(octet: u8) -> bool
    ensures { result ≡ is_printable octet }
{
    (32..127).contains(&octet)
}

/// A text that grows. Once memory for a part of it is refused, it takes no part more, and there is no text.
#[derive(Drop)]
pub(crate) struct Growing {
    octets: Vec<u8>,
    refused: bool,
}

impl Growing {
    /// No part yet. Takes no memory.
    pub(crate) fn new(alloc: Global) -> Growing
        ensures { (result.octets.items ≡ []) × (result.refused ≡ false) }
    {
        Growing {
            octets: Vec::new(alloc),
            refused: false,
        }
    }

    /// No part yet, with memory for this many octets. Where that is refused, no part is taken.
    pub(crate) fn with_capacity(alloc: Global, count: usize) -> Growing
        ensures { result.octets.items ≡ [] }
    {
        match Vec::with_capacity(alloc, count) {
            Ok(octets) => Growing {
                octets,
                refused: false,
            },
            Err(_) => Growing {
                octets: Vec::new(alloc),
                refused: true,
            },
        }
    }

    /// The text.
    ///
    /// `AllocError` where memory for a part was refused.
    pub(crate) fn finish(self) -> Result<Vec<u8>, AllocError>
        ensures { IfOk result (λ text. (self.refused ≡ false) × (text.items ≡ self.octets.items)) }
    {
        if self.refused {
            return Err(AllocError);
        }
        Ok(self.octets)
    }

    /// Puts octets last.
    pub(crate) fn put(&mut self, octets: &[u8])
        ensures { Gains octets.now self.old self.new }
    {
        if self.refused {
            return;
        }
        match self.octets.extend_from_slice(octets) {
            Ok(()) => {}
            Err(_) => self.refused = true,
        }
    }

    /// Puts an octet last.
    fn push(&mut self, octet: u8)
        ensures { Gains (octet ∷ []) self.old self.new }
    {
        if self.refused {
            return;
        }
        match self.octets.push(octet) {
            Ok(()) => {}
            Err(_) => self.refused = true,
        }
    }

    /// Puts a text last.
    pub(crate) fn text(&mut self, text: &str)
        ensures { Gains text.now self.old self.new }
    {
        self.put(text.as_bytes());
    }

    /// Puts a number in decimal digits last.
    pub(crate) fn number(&mut self, number: u64)
        ensures { Gains (decimal number) self.old self.new }
    {
        let mut buffer = Buffer::new();
        self.put(buffer.format(number).as_bytes());
    }

    /// Takes no part more: memory for one was refused elsewhere.
    pub(crate) fn refuse(&mut self)
        ensures { self.new.refused ≡ true }
    {
        self.refused = true;
    }

    /// Puts the two hex digits of an octet last.
    pub(crate) fn digits(&mut self, octet: u8)
        ensures { Gains (encode_lower (octet ∷ [])) self.old self.new }
    {
        let mut digits = [0; 2];
        match hex::encode_to_slice([octet], &mut digits) {
            Ok(()) => self.put(&digits),
            Err(_) => self.refuse(),
        }
    }

    /// Puts an octet of a name last: after a backslash where it is a backslash or `#`, and as a backslash and two hex digits
    /// where it is not printable.
    fn octet(&mut self, octet: u8)
        ensures { Gains (escaped_octet octet) self.old self.new }
    {
        if octet == b'\\' || octet == b'#' {
            self.put(&[b'\\', octet]);
        } else if is_printable(octet) {
            self.push(octet);
        } else {
            self.put(b"\\");
            self.digits(octet);
        }
    }

    /// Puts the octets of a name last, so that none of them ends a line or begins a directive.
    pub(crate) fn escaped(&mut self, octets: &[u8])
        ensures { Gains (escaped octets.now) self.old self.new }
    {
        for octet in octets {
            self.octet(*octet);
        }
    }
}
