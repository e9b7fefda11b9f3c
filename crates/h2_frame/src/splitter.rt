//! The splitter: octets come in pieces of any length, and items are taken from their front (RFC 9113, 3.4, 4.1 and
//! 4.2). Definitions: `next` of `h2_spec/specs/Frames/Frame.antt`, and `specs/Items.antt` for what a splitter holds.

ghost use Rattle.std.specs.Prelude.{◌≡◌, ℕ, ◌+◌, ◌-◌, ◌≤◌, ◌<◌, ◌++◌, List, [], length, true, false, nat_eq, IfOk, IfSome, OnOk, OnErr, None};
ghost use Rattle.std.specs.List.{common_prefix_len};
ghost use Rattle.std.specs.Option.{option_map};
ghost use Rattle.std.specs.Borrow.{sem};
ghost use Rattle.std.specs.Io.BufRead.{Rests};
ghost use Rattle.h2_spec.specs.Frames.Frame.{next, preface, frame_item};
ghost use Rattle.h2_frame.specs.Items.{IsDataCompleted, data_completed, item_of, ends_items, found_in, missing_in, missing_of_frame, missing_of_preface, next_in, rest_after, with_more};
ghost use Rattle.h2_frame.specs.contracts.splitter.Splitter.{the_row};

use crate::head::{FrameRef, first_head};
use h2_spec::frames::{DATA, Head, PADDED, PREFACE};
use h2_spec::octets::{drop_front, octets_from, octets_up_to};
use std::alloc::{AllocError, Allocator};
use std::marker::Model;

/// One step of the input.
#[derive(Clone, Copy)]
pub enum Item<'a> {
    /// The client's connection preface (RFC 9113, 3.4).
    Preface,
    /// Octets that are no preface, up to the first that differs.
    BadPreface,
    /// A whole frame.
    Frame(FrameRef<'a>),
    /// The head of a frame whose length is above the limit; its payload is not awaited (RFC 9113, 4.2).
    Oversize(Head),
}

/// Octets that were pushed and not yet taken.
///
/// Memory follows what is held: once half of the list has been taken, a push gives it back first.
#[derive(Drop)]
pub struct Splitter<A: Allocator> {
    /// All octets, those already taken in front.
    buffer: Vec<u8, A>,
    /// How many of them are taken.
    offset: usize,
    /// Whether the preface is still awaited.
    expects_preface: bool,
    /// Whether an item was taken that ends all items.
    is_over: bool,
}

impl<A: Allocator> Model for Splitter<A> {
    ghost use Rattle.std.specs.Prelude.{◌≤◌, drop, vec_len};
    ghost use Rattle.h2_frame.specs.Rest.{Rest};

    ghost Value = { Rest };

    ghost view = { λ s. record { octets = drop s.offset s.buffer.items; expects_preface = s.expects_preface; is_over = s.is_over } };

    ghost invariant = { λ s. s.offset ≤ vec_len s.buffer };
}

impl<A: Allocator> Splitter<A> {
    /// A splitter that holds nothing and awaits the preface. Takes no memory.
    pub fn new(alloc: A) -> Self
        ensures { result ≡ record { octets = []; expects_preface = true; is_over = false } }
    {
        Splitter {
            buffer: Vec::new(alloc),
            offset: 0,
            expects_preface: true,
            is_over: false,
        }
    }

    /// Sets whether the preface is still awaited: not where it was taken from octets that were not pushed.
    pub fn expect_preface(&mut self, expected: bool)
        ensures { self.new ≡ record self.old { expects_preface = expected } }
    {
        self.expects_preface = expected;
    }

    // Octets that were taken stay in front until they are at least as many as those held; the next push moves
    // the held ones. So the whole is linear.
    /// Adds the octets after those that are held.
    ///
    /// `AllocError` where the list could not grow; then what is held is as before.
    pub fn push(&mut self, octets: &[u8]) -> Result<(), AllocError>
        ensures ok { OnOk result (self.new ≡ record self.old { octets = self.old.octets ++ octets.now }) }
        ensures no_memory { OnErr result (self.new ≡ self.old) }
    {
        if self.offset >= self.buffer.len() - self.offset {
            self.give_back();
        }
        self.buffer.extend_from_slice(octets)
    }

    /// How many octets are held: pushed, and not yet taken.
    pub fn rest_len(&self) -> usize
        ensures { result ≡ length self.now.octets }
    {
        self.buffer.len() - self.offset
    }

    /// How many octets the first item lacks, at the least; 0 where it is whole, or none follows.
    ///
    /// Of the preface that is 1, since any octet may be the one that differs; of a frame it is what the nine octets of
    /// its head lack, and after the head what the payload lacks. With fewer octets more there is no item.
    pub fn missing(&self, limit: u32) -> usize
        ensures value { result ≡ missing_in limit self.now }
        ensures fewer { (more : List ℕ) → length more < result → next_in limit (with_more self.now more) ≡ None }
    {
        if self.is_over {
            return 0;
        }
        let held = octets_from(self.buffer.as_slice(), self.offset);
        if self.expects_preface {
            missing_of_preface(held)
        } else {
            missing_of_frame(held, limit)
        }
    }

    /// The head of the frame that is held, where that is DATA without padding and `more` is what it lacks: then its payload
    /// need not be in one place, since all of it is content (RFC 9113, 6.1).
    pub fn data_completed_by(&self, more: &[u8], limit: u32) -> Option<Head>
        ensures value { result ≡ data_completed limit self.now more.now }
        ensures completed { IfSome result (λ head. IsDataCompleted limit self.now more.now head) }
    {
        if self.is_over || self.expects_preface {
            return None;
        }
        let held = octets_from(self.buffer.as_slice(), self.offset);
        if held.len() < 9 {
            return None;
        }
        let head = first_head(held);
        if head.kind != DATA || head.has(PADDED) {
            return None;
        }
        if head.length > limit || 9 + head.length as usize != held.len() + more.len() {
            return None;
        }
        Some(head)
    }

    /// Forgets the octets that are held, of a frame that was taken with what it lacked. The memory is kept.
    pub fn forget_frame(&mut self)
        ensures { self.new ≡ record self.old { octets = [] } }
    {
        self.buffer.clear();
        self.offset = 0;
    }

    /// Takes the next item, if the octets held begin with a whole one; a frame is oversized when its length is above
    /// the limit.
    ///
    /// The first item is the preface or a bad one. After a bad preface or an oversized head the answer is `None`
    /// permanently.
    /// The payload is lent from the splitter.
    pub fn next(&mut self, limit: u32) -> Option<Item<'_>>
        ensures* leaves { sem 𝓛 (Rests (the_row A.row A.Allocator) self.entry (λ rest. rest ≡ rest_after limit self.old)) }
        ensures item { option_map item_of result ≡ next_in limit self.old }
    {
        if self.is_over {
            return None;
        }
        let held = octets_from(self.buffer.as_slice(), self.offset);
        let (item, used) = first_item(held, self.expects_preface, limit)?;
        self.offset += used;
        self.expects_preface = false;
        self.is_over = item.ends_items();
        Some(item)
    }

    /// Gives the octets that were taken back to the list.
    fn give_back(&mut self)
        ensures { self.new ≡ self.old }
    {
        drop_front(&mut self.buffer, self.offset);
        self.offset = 0;
    }
}

impl<A: Allocator + Copy> Splitter<A> {
    /// A copy of the splitter, in memory of its own; octets that were taken are not copied.
    ///
    /// `AllocError` where the memory was refused; `self` is as it was.
    pub fn try_clone(&self) -> Result<Splitter<A>, AllocError>
        ensures same { IfOk result (λ copy. copy ≡ self.now) }
    {
        let mut buffer = Vec::new(*self.buffer.allocator());
        buffer.extend_from_slice(octets_from(self.buffer.as_slice(), self.offset))?;
        Ok(Splitter {
            buffer,
            offset: 0,
            expects_preface: self.expects_preface,
            is_over: self.is_over,
        })
    }
}

impl Item<'_> {
    /// Whether no item follows.
    fn ends_items(&self) -> bool
        ensures { result ≡ ends_items (item_of self.now) }
    {
        match self {
            Item::Preface | Item::Frame(_) => false,
            Item::BadPreface | Item::Oversize(_) => true,
        }
    }
}

/// The item that the octets begin with, if there is a whole one, and how many octets it takes; a frame is oversized
/// when its length is above the limit. `expects_preface` says whether the preface is still awaited.
/// The payload is lent from the octets.
#[inline(always)]
pub fn first_item(octets: &[u8], expects_preface: bool, limit: u32) -> Option<(Item<'_>, usize)>
    ensures item { found_in result ≡ next expects_preface limit octets.now }
    ensures within { IfSome result (λ x. x.1 ≤ length octets.now) }
{
    if expects_preface {
        preface_item(octets)
    } else {
        frame_item(octets, limit)
    }
}

/// How many octets the preface lacks at the least.
fn missing_of_preface(octets: &[u8]) -> usize
    ensures { (limit : ℕ) → result ≡ missing_of_preface (next true limit octets.now) }
{
    match preface_item(octets) {
        None => 1,
        Some(_) => 0,
    }
}

/// How many octets a frame lacks: those of its head, then those of its payload, which is not awaited above the limit.
fn missing_of_frame(octets: &[u8], limit: u32) -> usize
    ensures { result ≡ missing_of_frame limit octets.now }
{
    if octets.len() < 9 {
        return 9 - octets.len();
    }
    let length = first_head(octets).length;
    if length > limit {
        return 0;
    }
    (9 + length as usize).saturating_sub(octets.len())
}

/// How many octets agree with those expected.
fn agreeing(octets: &[u8], expected: &[u8]) -> usize
    ensures within { result ≤ length octets.now }
    ensures common { result ≡ common_prefix_len nat_eq octets.now expected.now }
{
    let shorter = octets.len().min(expected.len());
    for count in 0..shorter {
        if octets[count] != expected[count] {
            return count;
        }
    }
    shorter
}

/// The preface or a bad one, if it is decided, and how many octets it takes.
#[tactic(auto, unfolding(h2_spec::specs::Frames::Frame::next))]
fn preface_item(octets: &[u8]) -> Option<(Item<'_>, usize)>
    ensures item { (limit : ℕ) → found_in result ≡ next true limit octets.now }
    ensures within { IfSome result (λ x. x.1 ≤ length octets.now) }
{
    let agreeing = agreeing(octets, &PREFACE);
    if agreeing == 24 {
        return Some((Item::Preface, 24));
    }
    if agreeing < octets.len() {
        return Some((Item::BadPreface, agreeing + 1));
    }
    None
}

/// The first frame or oversized head, and how many octets it takes.
#[inline(always)]
#[tactic(auto, unfolding(h2_spec::specs::Frames::Frame::next))]
fn frame_item(octets: &[u8], limit: u32) -> Option<(Item<'_>, usize)>
    ensures item { found_in result ≡ next false limit octets.now }
    ensures within { IfSome result (λ x. x.1 ≤ length octets.now) }
{
    if octets.len() < 9 {
        return None;
    }
    headed_item(first_head(octets), octets, limit)
}

/// The item of a head and the octets from it on: the head alone where the frame is longer than the limit.
#[inline(always)]
fn headed_item(head: Head, octets: &[u8], limit: u32) -> Option<(Item<'_>, usize)>
    requires { 9 ≤ length octets.now }
    ensures item { found_in result ≡ frame_item limit head octets.now }
    ensures within { IfSome result (λ x. x.1 ≤ length octets.now) }
{
    if head.length > limit {
        return Some((Item::Oversize(head), 9));
    }
    let size = head.length as usize;
    let rest = octets_from(octets, 9);
    if rest.len() < size {
        return None;
    }
    let payload = octets_up_to(rest, size);
    Some((Item::Frame(FrameRef { head, payload }), 9 + size))
}
