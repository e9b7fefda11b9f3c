//! A connection of a client: what comes is taken item by item, and what goes out for each is woven with the script. Definitions:
//! `specs/Plays.antt`; what the client does: `specs/Watches.antt`.

ghost use Rattle.std.specs.Prelude.{◌≡◌, ◌++◌, ◌≤◌, List, [], drop, length, is_some, take, vec_len, Option, IfOk, OnOk};
ghost use Rattle.h2_cmd_exchange.specs.Links.{IsWithin, LinkEvent};
ghost use Rattle.h2_conn.specs.Runs.{Fed};
ghost use Rattle.h2_cmd_dialogue.specs.Woven.{after_item, next_step, no_steps_taken, with_item, woven_item};
ghost use Rattle.h2_cmd_dialogue.specs.Findings.{is_by_server, is_closed, is_silent_end};
ghost use Rattle.h2_cmd_dialogue.specs.Watches.{heard_item, nothing_watched, watched_item, with_octets};
ghost use Rattle.h2_cmd_dialogue.specs.Steps.{Start, Step, incoming_of};
ghost use Rattle.h2_cmd_dialogue.specs.Plays.{Goes, TakesOne, TakesSome, with_read};

use crate::item::{front_item, is_client};
use crate::step::{Incoming, Step};
use crate::watched::Watched;
use crate::weave::Weaver;
use h2_cmd_exchange::link::{Link, LinkRead};
use h2_conn::Conn;
use h2_spec::octets::{drop_front, octets_from, octets_up_to};
use std::alloc::{AllocError, Global};
use std::marker::Model;
use std::mem;

/// The most octets of one read.
const READ_SIZE: usize = 16_384;

/// The most octets that are read of a client.
const MOST: usize = 16_777_216;

/// The most turns of a connection: each reads once, or takes what was read.
const TURNS: u32 = 10_000_000;

/// How many milliseconds what a client still sends is waited for, once it takes no more.
const LAST_MILLIS: u64 = 300;

/// How a connection ended.
#[derive(Clone, Copy)]
pub enum End {
    /// The client ended it.
    Closed,
    /// Nothing came for as long as was waited.
    Silent,
    /// A connection error of the server ended it (RFC 9113, 5.4.1), with this code.
    ByServer(u32),
    /// Octets came that are no frames of a client.
    NoFrames,
    /// More came than is read.
    TooMuch,
    /// Its time was over.
    Late,
}

impl End {
    /// Whether the client ended the connection.
    pub fn is_closed(self) -> bool
        ensures { result ≡ is_closed self }
    {
        matches!(self, End::Closed)
    }

    /// Whether nothing came any more.
    pub fn is_silent(self) -> bool
        ensures { result ≡ is_silent_end self }
    {
        matches!(self, End::Silent)
    }

    /// Whether the server ended it.
    pub fn is_by_server(self) -> bool
        ensures { result ≡ is_by_server self }
    {
        matches!(self, End::ByServer(_))
    }
}

/// A connection, and how far its dialogue was played.
#[derive(Drop)]
pub struct Course<'b> {
    pub conn: Conn<'b, Global>,
    pub weaver: Weaver,
    pub watched: Watched,
    /// All items that came.
    octets: Vec<u8>,
    /// What came and is no whole item yet.
    inbox: Vec<u8>,
    /// What is to be written.
    out: Vec<u8>,
    has_preface: bool,
    /// How many octets came.
    came: usize,
    /// Whether the client has ended its side.
    is_closed: bool,
}

impl<'b> Model for Course<'b> {
    ghost use Rattle.h2_cmd_dialogue.specs.Plays as plays;

    ghost Value = { plays.Course };

    ghost view = { λ c. record { conn = c.conn; weaving = c.weaver; watched = c.watched; octets = c.octets.items; inbox = c.inbox.items; out = c.out.items } };
}

/// The first steps, as many as were taken.
fn steps_taken(steps: &[Step], count: usize) -> &[Step]
    ensures { result.now ≡ take count steps.now }
{
    if steps.len() <= count {
        return steps;
    }
    &steps[..count]
}

impl<'b> Course<'b> {
    /// A connection of which nothing came; the server has sent this.
    ///
    /// `AllocError` where memory is refused.
    pub fn begin(
        alloc: Global,
        conn: Conn<'b, Global>,
        steps: &[Step],
        opening: &[u8],
    ) -> Result<Course<'b>, AllocError>
        ensures { IfOk result (λ course. course ≡ record {
          conn = conn.entry;
          weaving = after_item steps.now no_steps_taken Start;
          watched = watched_item steps.now no_steps_taken nothing_watched Start opening.now;
          octets = [];
          inbox = [];
          out = woven_item steps.now no_steps_taken Start opening.now;
        }) }
    {
        let mut course = Course {
            conn,
            weaver: Weaver::new(alloc),
            watched: Watched::new(alloc),
            octets: Vec::new(alloc),
            inbox: Vec::new(alloc),
            out: Vec::new(alloc),
            has_preface: false,
            came: 0,
            is_closed: false,
        };
        course.weave(alloc, steps, Incoming::Start, opening)?;
        Ok(course)
    }

    /// The octets of all items that came.
    pub fn octets(&self) -> &[u8]
        ensures { result.now ≡ self.now.octets }
    {
        self.octets.as_slice()
    }

    /// What came and is no whole item.
    pub fn rest(&self) -> &[u8]
        ensures { result.now ≡ self.now.inbox }
    {
        self.inbox.as_slice()
    }

    /// An item came, for which the server sends this.
    fn weave(
        &mut self,
        alloc: Global,
        steps: &[Step],
        item: Incoming<'_>,
        sent: &[u8],
    ) -> Result<(), AllocError>
        ensures { OnOk result (self.new ≡ record self.old {
          weaving = after_item steps.now self.old.weaving (incoming_of item.entry);
          watched = with_octets self.old.watched (woven_item steps.now self.old.weaving (incoming_of item.entry) sent.now)
              (is_some (next_step steps.now (with_item self.old.weaving (incoming_of item.entry)) (incoming_of item.entry)));
          out = self.old.out ++ woven_item steps.now self.old.weaving (incoming_of item.entry) sent.now;
        }) }
    {
        let (parts, is_step) = self.weaver.weave(alloc, steps, item, sent)?;
        let out = parts.into_out()?;
        self.out.extend_from_slice(out.as_slice())?;
        self.watched.note(out.as_slice(), is_step)
    }

    /// What the server sends for these octets.
    fn feed(&mut self, alloc: Global, octets: &[u8]) -> Result<Vec<u8>, AllocError>
        ensures fed { IfOk result (λ sent. Fed self.old.conn octets.now [] self.new.conn sent.items) }
        ensures rest { self.new ≡ record self.old { conn = self.new.conn } }
    {
        let mut sent = Vec::new(alloc);
        match self.conn.feed(octets, &mut sent) {
            Ok(_) => Ok(sent),
            Err(_) => Err(AllocError),
        }
    }

    /// An item with these octets came: what the client does with it.
    fn hear(&mut self, steps: &[Step], octets: &[u8], item: Incoming<'_>) -> Result<(), AllocError>
        ensures { OnOk result (self.new ≡ record self.old {
          watched = heard_item steps.now self.old.weaving self.old.watched (incoming_of item.entry);
          octets = self.old.octets ++ octets.now;
        }) }
    {
        self.octets.extend_from_slice(octets)?;
        let Incoming::Frame(frame) = item else {
            return Ok(());
        };
        let base = self.weaver.base_with(item);
        let taken = steps_taken(steps, self.weaver.taken());
        self.watched.came(base, taken, frame)
    }

    /// Takes an item with these octets.
    fn take_item(
        &mut self,
        alloc: Global,
        steps: &[Step],
        octets: &[u8],
        item: Incoming<'_>,
    ) -> Result<(), AllocError>
        ensures { OnOk result (TakesOne steps.now self.old (incoming_of item.entry) octets.now self.new) }
    {
        let sent = self.feed(alloc, octets)?;
        self.hear(steps, octets, item)?;
        self.weave(alloc, steps, item, sent.as_slice())
    }

    /// Takes the item that octets begin with, where it is whole. Gives how many octets it has; 0 where it is not.
    fn take_front(
        &mut self,
        alloc: Global,
        steps: &[Step],
        octets: &[u8],
    ) -> Result<usize, AllocError>
        ensures within { IfOk result (λ count. count ≤ length octets.now) }
        ensures items { IfOk result (λ count. TakesSome steps.now self.old (take count octets.now) self.new) }
    {
        let Some((item, count)) = front_item(octets, self.has_preface) else {
            return Ok(0);
        };
        self.has_preface = true;
        self.take_item(alloc, steps, octets_up_to(octets, count), item)?;
        Ok(count)
    }

    /// Takes all items that octets begin with. Gives how many octets they have.
    fn take_octets(
        &mut self,
        alloc: Global,
        steps: &[Step],
        octets: &[u8],
    ) -> Result<usize, AllocError>
        ensures within { IfOk result (λ count. count ≤ length octets.now) }
        ensures items { IfOk result (λ count. TakesSome steps.now self.old (take count octets.now) self.new) }
    {
        let mut at = 0usize;
        for _item in 0..octets.len() {
            let count = self.take_front(alloc, steps, octets_from(octets, at))?;
            if count == 0 {
                return Ok(at);
            }
            at += count;
        }
        Ok(at)
    }

    /// Takes out what came.
    fn take_inbox(&mut self, alloc: Global) -> Vec<u8>
        ensures octets { result.items ≡ self.old.inbox }
        ensures rest { self.new ≡ record self.old { inbox = [] } }
    {
        mem::replace(&mut self.inbox, Vec::new(alloc))
    }

    /// Puts back what came, without this many octets that were taken.
    fn put_inbox(&mut self, inbox: Vec<u8>, taken: usize)
        requires { taken ≤ vec_len inbox }
        ensures { self.new ≡ record self.old { inbox = drop taken inbox.items } }
    {
        let mut inbox = inbox;
        drop_front(&mut inbox, taken);
        self.inbox = inbox;
    }

    /// Takes all items that are whole. Says whether there were any.
    fn take_all(&mut self, alloc: Global, steps: &[Step]) -> Result<bool, AllocError>
        ensures { OnOk result ((log : Option (List LinkEvent)) → Goes steps.now self.old log self.new log) }
    {
        let inbox = self.take_inbox(alloc);
        let taken = self.take_octets(alloc, steps, inbox.as_slice())?;
        self.put_inbox(inbox, taken);
        Ok(taken > 0)
    }

    /// What a read gave came. Says whether something did, or the end.
    fn hear_read(&mut self, read: LinkRead, buffer: &[u8]) -> Result<bool, AllocError>
        requires { IsWithin read (length buffer.now) }
        ensures { OnOk result (self.new ≡ with_read self.old read buffer.now) }
    {
        match read {
            LinkRead::Octets(count) => {
                self.came = self.came.saturating_add(count);
                self.inbox.extend_from_slice(octets_up_to(buffer, count))?;
                Ok(true)
            }
            LinkRead::Quiet => Ok(false),
            LinkRead::Ended => {
                self.is_closed = true;
                Ok(true)
            }
        }
    }

    /// Reads once. Says whether octets came, or the end.
    fn read<L: Link>(
        &mut self,
        link: &mut L,
        buffer: &mut [u8; READ_SIZE],
        millis: u64,
    ) -> Result<bool, AllocError>
        ensures { OnOk result ((steps : List Step) → Goes steps self.old (L.log link.old) self.new (L.log link.new)) }
    {
        let read = link.read(millis, buffer);
        let came = self.hear_read(read, buffer)?;
        Ok(came)
    }

    /// Reads until nothing comes any more.
    fn read_rest<L: Link>(
        &mut self,
        link: &mut L,
        buffer: &mut [u8; READ_SIZE],
    ) -> Result<(), AllocError>
        ensures { OnOk result ((steps : List Step) → Goes steps self.old (L.log link.old) self.new (L.log link.new)) }
    {
        for _read in 0..TURNS {
            if self.is_closed || self.came > MOST {
                return Ok(());
            }
            if !self.read(link, buffer, LAST_MILLIS)? {
                return Ok(());
            }
        }
        Ok(())
    }

    /// Reads what a client still sends that takes no more.
    fn read_last<L: Link>(
        &mut self,
        alloc: Global,
        steps: &[Step],
        link: &mut L,
        buffer: &mut [u8; READ_SIZE],
    ) -> Result<(), AllocError>
        ensures { OnOk result (Goes steps.now self.old (L.log link.old) self.new (L.log link.new)) }
    {
        self.read_rest(link, buffer)?;
        self.take_all(alloc, steps)?;
        Ok(())
    }

    /// Why the dialogue can't go on, if it can't.
    fn stop<L: Link>(&self, link: &mut L) -> Option<End>
        ensures { (steps : List Step) → Goes steps self.now (L.log link.old) self.now (L.log link.new) }
    {
        if !is_client(self.inbox.as_slice(), self.has_preface) {
            return Some(End::NoFrames);
        }
        if self.came > MOST {
            return Some(End::TooMuch);
        }
        if link.is_late() {
            return Some(End::Late);
        }
        self.conn.ended().map(End::ByServer)
    }

    /// What is to be written.
    fn out(&self) -> &[u8]
        ensures { result.now ≡ self.now.out }
    {
        self.out.as_slice()
    }

    /// Nothing is to be written any more.
    fn clear(&mut self)
        ensures { self.new ≡ record self.old { out = [] } }
    {
        self.out.clear();
    }

    /// Writes what is to be written. Says whether the client took it.
    fn write<L: Link>(&mut self, link: &mut L) -> bool
        ensures { (steps : List Step) → Goes steps self.old (L.log link.old) self.new (L.log link.new) }
    {
        if self.out().is_empty() {
            return true;
        }
        let is_done = link.write_all(self.out());
        self.clear();
        is_done
    }

    /// Takes what was read; where there was no item, reads.
    fn take_or_read<L: Link>(
        &mut self,
        alloc: Global,
        steps: &[Step],
        link: &mut L,
        buffer: &mut [u8; READ_SIZE],
        millis: u64,
    ) -> Result<Option<End>, AllocError>
        ensures { OnOk result (Goes steps.now self.old (L.log link.old) self.new (L.log link.new)) }
    {
        if self.take_all(alloc, steps)? {
            return Ok(None);
        }
        if self.is_closed {
            return Ok(Some(End::Closed));
        }
        if self.read(link, buffer, millis)? {
            return Ok(None);
        }
        Ok(Some(End::Silent))
    }

    /// One turn of a connection whose output is written.
    fn turn_on<L: Link>(
        &mut self,
        alloc: Global,
        steps: &[Step],
        link: &mut L,
        buffer: &mut [u8; READ_SIZE],
        millis: u64,
    ) -> Result<Option<End>, AllocError>
        ensures { OnOk result (Goes steps.now self.old (L.log link.old) self.new (L.log link.new)) }
    {
        if let Some(end) = self.stop(link) {
            return Ok(Some(end));
        }
        let end = self.take_or_read(alloc, steps, link, buffer, millis)?;
        Ok(end)
    }

    /// One turn: writes, and takes what was read; where there was no item, reads.
    fn turn<L: Link>(
        &mut self,
        alloc: Global,
        steps: &[Step],
        link: &mut L,
        buffer: &mut [u8; READ_SIZE],
        millis: u64,
    ) -> Result<Option<End>, AllocError>
        ensures { OnOk result (Goes steps.now self.old (L.log link.old) self.new (L.log link.new)) }
    {
        if !self.write(link) {
            self.read_last(alloc, steps, link, buffer)?;
            return Ok(Some(End::Closed));
        }
        if self.is_closed && self.inbox.is_empty() {
            return Ok(Some(End::Closed));
        }
        let end = self.turn_on(alloc, steps, link, buffer, millis)?;
        Ok(end)
    }

    /// Plays the connection to its end; a client that is silent for this many milliseconds ends it.
    ///
    /// `AllocError` where memory is refused.
    pub fn play<L: Link>(
        &mut self,
        alloc: Global,
        steps: &[Step],
        link: &mut L,
        millis: u64,
    ) -> Result<End, AllocError>
        ensures { OnOk result (Goes steps.now self.old (L.log link.old) self.new (L.log link.new)) }
    {
        let mut buffer = [0u8; READ_SIZE];
        for _turn in 0..TURNS {
            if let Some(end) = self.turn(alloc, steps, link, &mut buffer, millis)? {
                return Ok(end);
            }
        }
        Ok(End::TooMuch)
    }
}
