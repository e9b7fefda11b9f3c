//! What a connection that is explained sends: an outbox, and a copy of what was sent for its last item.

ghost use Rattle.std.specs.Prelude.{◌≡◌, [], length, drop, IfSome};

use h2_frame::{Outbox, Outgoing};
use std::alloc::{AllocError, Allocator};
use std::marker::Model;

/// Octets that are to be sent, in an outbox, so bodies are kept by reference. Those of the last item are copied too, as
/// one text. A contract sees the octets in order.
#[derive(Drop)]
pub struct ItemOutbox<'b, A: Allocator> {
    outbox: Outbox<'b, A>,
    /// Where the last item began.
    start: usize,
    /// A copy of the octets from there on.
    item: Vec<u8, A>,
}

impl<'b, A: Allocator> Model for ItemOutbox<'b, A> {
    ghost use Rattle.std.specs.Prelude.{◌≡◌, ℕ, ◌≤◌, List, length, drop};

    ghost Value = { List ℕ };

    ghost view = { λ o. o.outbox };

    ghost invariant = { λ o. (o.start ≤ length o.outbox) × (o.item.items ≡ drop o.start o.outbox) };
}

impl<'b, A: Allocator + Copy> ItemOutbox<'b, A> {
    /// No octets. Takes no memory.
    pub fn new(alloc: A) -> Self
        ensures { result ≡ [] }
    {
        ItemOutbox {
            outbox: Outbox::new(alloc),
            start: 0,
            item: Vec::new(alloc),
        }
    }

    /// The octets of an outbox, where no item has begun after them. Takes no memory.
    pub fn of(outbox: Outbox<'b, A>) -> Self
        ensures { result ≡ outbox.entry }
    {
        let item = Vec::new(*outbox.memory());
        ItemOutbox {
            start: outbox.len(),
            item,
            outbox,
        }
    }
}

impl<'b, A: Allocator> ItemOutbox<'b, A> {
    /// The outbox alone.
    pub fn into_outbox(self) -> Outbox<'b, A>
        ensures { result ≡ self.entry }
    {
        let Self { outbox, .. } = self;
        outbox
    }

    /// Begins an item, and returns how many octets there are.
    pub fn begin(&mut self) -> usize
        ensures start { result ≡ length self.new }
        ensures same { self.new ≡ self.old }
    {
        self.item.clear();
        self.start = self.outbox.len();
        self.start
    }

    /// The octets from there on where the last item began; nothing where it began elsewhere.
    pub fn since(&self, start: usize) -> Option<&[u8]>
        ensures { IfSome result (λ octets. octets.now ≡ drop start self.now) }
    {
        if start == self.start {
            Some(self.item.as_slice())
        } else {
            None
        }
    }
}

// Where the outbox has no memory, the copy is given up: then no item is explained any more.
impl<'b, A: Allocator> Outgoing<'b, A> for ItemOutbox<'b, A> {
    ghost octets = { λ o. o };

    fn len(&self) -> usize {
        self.outbox.len()
    }

    fn memory(&self) -> &A {
        self.outbox.memory()
    }

    fn append_copied(
        &mut self,
        head: &[u8; 9],
        front: &[u8],
        rest: &[u8],
    ) -> Result<(), AllocError> {
        self.item.append_copied(head, front, rest)?;
        match self.outbox.append_copied(head, front, rest) {
            Ok(()) => Ok(()),
            Err(fault) => {
                self.item.clear();
                self.start = self.outbox.len();
                Err(fault)
            }
        }
    }

    fn append_lent(&mut self, head: &[u8; 9], payload: &'b [u8]) -> Result<(), AllocError> {
        self.item.append_lent(head, payload)?;
        match self.outbox.append_lent(head, payload) {
            Ok(()) => Ok(()),
            Err(fault) => {
                self.item.clear();
                self.start = self.outbox.len();
                Err(fault)
            }
        }
    }

    fn keep_first(&mut self, len: usize) {
        self.outbox.keep_first(len);
        if self.start <= len {
            self.item.truncate(len - self.start);
        } else {
            self.item.clear();
            self.start = self.outbox.len();
        }
    }
}
