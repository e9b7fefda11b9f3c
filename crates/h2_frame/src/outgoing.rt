//! Octets that are to be sent. A `Vec` copies all of them; an `Outbox` keeps references to octets that are lent to it,
//! as the bodies of answers are by a book.

ghost use Rattle.std.specs.Prelude.{◌≡◌, ℕ, ◌+◌, ◌<◌, ◌^◌, ◌++◌, List, length, take, OnOk, OnErr};

use std::alloc::{AllocError, Allocator};

/// Octets that are to be sent, to which frames are appended (RFC 9113, 4.1). A contract sees the octets in order.
///
/// `'b` is how long octets are lent to it, and `A` is the allocator of the memory that it takes.
pub trait Outgoing<'b, A: Allocator> {
    ghost octets: { Self → List ℕ };

    /// How many octets there are.
    fn len(&self) -> usize
        ensures { result ≡ length (octets self.now) };

    /// The allocator of its memory.
    fn memory(&self) -> &A;

    /// Appends copies of the octets of a frame: its head, and its payload in two parts.
    ///
    /// `AllocError` where memory is refused: nothing is appended.
    fn append_copied(&mut self, head: &[u8; 9], front: &[u8], rest: &[u8]) -> Result<(), AllocError>
        requires fits { length front.now + length rest.now < 2 ^ 24 }
        ensures ok { OnOk result (octets self.new ≡ octets self.old ++ head.now ++ front.now ++ rest.now) }
        ensures no_memory { OnErr result (octets self.new ≡ octets self.old) };

    /// Appends the octets of a frame: a copy of its head, and its payload, which may be kept by reference.
    ///
    /// `AllocError` where memory is refused: nothing is appended.
    fn append_lent(&mut self, head: &[u8; 9], payload: &'b [u8]) -> Result<(), AllocError>
        ensures ok { OnOk result (octets self.new ≡ octets self.old ++ head.now ++ payload.now) }
        ensures no_memory { OnErr result (octets self.new ≡ octets self.old) };

    /// Keeps this many octets, the first ones, and drops those after them; all where there are no more.
    fn keep_first(&mut self, len: usize)
        ensures { octets self.new ≡ take len (octets self.old) };
}

/// Copies of all octets.
impl<'b, A: Allocator> Outgoing<'b, A> for Vec<u8, A> {
    ghost octets = { λ v. v.items };

    #[inline(always)]
    fn len(&self) -> usize {
        self.as_slice().len()
    }

    #[inline(always)]
    fn memory(&self) -> &A {
        self.allocator()
    }

    #[inline(always)]
    fn append_copied(
        &mut self,
        head: &[u8; 9],
        front: &[u8],
        rest: &[u8],
    ) -> Result<(), AllocError> {
        self.reserve(9 + (front.len() + rest.len()))?;
        self.extend_from_slice(head)?;
        self.extend_from_slice(front)?;
        self.extend_from_slice(rest)
    }

    #[inline(always)]
    fn append_lent(&mut self, head: &[u8; 9], payload: &'b [u8]) -> Result<(), AllocError> {
        self.reserve(9 + payload.len())?;
        self.extend_from_slice(head)?;
        self.extend_from_slice(payload)
    }

    #[inline(always)]
    fn keep_first(&mut self, len: usize) {
        self.truncate(len);
    }
}
