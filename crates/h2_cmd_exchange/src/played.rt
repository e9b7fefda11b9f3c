//! A case played to a server. Definitions: `specs/Plays.antt`.

ghost use Rattle.std.specs.Prelude.{◌≡◌, ◌<◌, drop, length, true, IfOk, OnOk};
ghost use Rattle.h2_cmd_exchange.specs.Plays.{AsksIf, HearsOne, ListensFor, Plays, Sends, SendsAll, SendsIf, between, closed_if, ending_of, goes_on, have_answer, is_answer, is_cut, is_open, taken_if, unplayed, with_piece};

use crate::link::{Link, LinkRead};
use h2_cmd_judge::event::{Event, Seen};
use h2_cmd_judge::judge::Ending;
use h2_cmd_judge::reading::{Reading, is_http1};
use h2_spec::octets::{first_octets, octets_from, octets_up_to};
use std::alloc::{AllocError, Global};
use std::marker::Model;

/// The octets of the PING at the end.
const PROBE: [u8; 8] = *b"probe!!!";

/// The PING at the end.
const PROBE_FRAME: [u8; 17] = *b"\x00\x00\x08\x06\x00\x00\x00\x00\x00probe!!!";

/// The most octets that are read in a case.
const MOST: usize = 16_777_216;

/// The most octets of one read.
const READ_SIZE: usize = 16_384;

/// How many milliseconds the answer to the PING is waited for at least.
const PROBE_MILLIS: u64 = 500;

/// How many milliseconds are waited for what a server sends by itself, at most.
const FIRST_MILLIS: u64 = 20;

/// How far a case is played.
#[derive(Drop)]
pub struct Played {
    /// What arrived.
    pub reading: Reading,
    /// The number of the last piece that was sent; 0 before the first.
    pub number: u32,
    /// The number of the piece after which the server closed the connection.
    pub closed: Option<u32>,
    /// Whether the time of the case was over.
    pub late: bool,
}

impl Model for Played {
    ghost use Rattle.h2_cmd_exchange.specs.Plays as plays;

    ghost Value = { plays.Played };

    ghost view = { λ p. record { reading = p.reading; number = p.number; closed = p.closed; late = p.late } };
}

/// Whether an event answers the PING at the end.
fn is_answer(event: Event) -> bool
    ensures { result ≡ is_answer event }
{
    match event {
        Event::Pong(octets) => octets == PROBE,
        Event::Goaway(_)
        | Event::Reset(_, _)
        | Event::Answered(_, _, _)
        | Event::Ended(_)
        | Event::Acknowledged
        | Event::Credit(_, _)
        | Event::Unreadable(_) => false,
    }
}

/// Whether one of these does.
fn have_answer(events: &[Seen]) -> bool
    ensures { result ≡ have_answer events.now }
{
    for seen in events {
        if is_answer(seen.event) {
            return true;
        }
    }
    false
}

/// The octets from a place on; none where there are fewer.
fn behind(octets: &[u8], start: usize) -> &[u8]
    ensures { result.now ≡ drop start octets.now }
{
    if octets.len() < start {
        return &[];
    }
    octets_from(octets, start)
}

/// The octets from one place up to another.
fn between(octets: &[u8], start: usize, end: usize) -> &[u8]
    ensures { result.now ≡ between octets.now start end }
{
    first_octets(behind(octets, start), end.saturating_sub(start))
}

/// A connection that could not take a piece is closed after it.
fn closed_if(done: bool, number: u32, closed: Option<u32>) -> Option<u32>
    ensures { result ≡ closed_if done number closed }
{
    if done {
        return closed;
    }
    match closed {
        Some(before) => Some(before),
        None => Some(number),
    }
}

impl Played {
    /// Nothing happened yet.
    fn new(alloc: Global) -> Result<Played, AllocError>
        ensures { IfOk result (λ played. played ≡ unplayed) }
    {
        let reading = Reading::new(alloc)?;
        Ok(Played {
            reading,
            number: 0,
            closed: None,
            late: false,
        })
    }

    /// Whether it took too long, or too much came: then there is no verdict.
    pub fn is_cut(&self) -> bool
        ensures { result ≡ is_cut self.now }
    {
        self.late || self.reading.octets().len() > MOST
    }

    /// Whether more is sent and read.
    fn is_open(&self) -> bool
        ensures { result ≡ is_open self.now }
    {
        !self.is_cut() && self.closed.is_none()
    }

    /// Whether reading goes on.
    fn goes_on(&self, asked: bool) -> bool
        ensures { result ≡ goes_on asked self.now }
    {
        self.is_open() && !(asked && have_answer(self.reading.events()))
    }

    /// Reads once, and says whether octets came.
    fn hear<L: Link>(
        &mut self,
        alloc: Global,
        link: &mut L,
        buffer: &mut [u8; READ_SIZE],
        millis: u64,
    ) -> Result<bool, AllocError>
        ensures hears { IfOk result (λ came. HearsOne self.old (L.log link.old) came self.new (L.log link.new)) }
        ensures grows { IfOk result (λ came. came ≡ true → length self.old.reading.octets < length self.new.reading.octets) }
    {
        if link.is_late() {
            self.late = true;
            return Ok(false);
        }
        match link.read(millis, buffer) {
            LinkRead::Octets(count) => {
                let octets = octets_up_to(buffer, count);
                self.reading.take(alloc, octets, self.number)?;
                Ok(true)
            }
            LinkRead::Quiet => Ok(false),
            LinkRead::Ended => {
                self.closed = Some(self.number);
                Ok(false)
            }
        }
    }

    /// Reads until nothing has arrived for this many milliseconds; or, where only the answer to the PING is
    /// waited for, until that comes.
    fn listen<L: Link>(
        &mut self,
        alloc: Global,
        link: &mut L,
        asked: bool,
        millis: u64,
    ) -> Result<(), AllocError>
        ensures { OnOk result (ListensFor asked self.old (L.log link.old) self.new (L.log link.new)) }
    {
        let mut buffer = [0u8; READ_SIZE];
        while self.goes_on(asked) {
            let is_heard = self.hear(alloc, link, &mut buffer, millis)?;
            if !is_heard {
                return Ok(());
            }
        }
        Ok(())
    }

    /// One piece more is sent.
    fn count(&mut self)
        ensures { self.new ≡ with_piece self.old }
    {
        self.number = self.number.saturating_add(1);
    }

    /// The connection is closed after the last piece, where it could not take that.
    fn close_if(&mut self, done: bool)
        ensures { self.new ≡ taken_if done self.old }
    {
        self.closed = closed_if(done, self.number, self.closed);
    }

    /// Sends a piece, and reads what comes after it.
    fn send_open<L: Link>(
        &mut self,
        alloc: Global,
        link: &mut L,
        piece: &[u8],
        asked: bool,
        millis: u64,
    ) -> Result<(), AllocError>
        ensures { OnOk result (SendsIf true asked piece.now self.old (L.log link.old) self.new (L.log link.new)) }
    {
        self.count();
        let done = link.write_all(piece);
        self.listen(alloc, link, asked, millis)?;
        self.close_if(done);
        Ok(())
    }

    /// Sends a piece, where the connection is open, and reads what comes after it.
    fn send<L: Link>(
        &mut self,
        alloc: Global,
        link: &mut L,
        piece: &[u8],
        asked: bool,
        millis: u64,
    ) -> Result<(), AllocError>
        ensures { OnOk result (Sends asked piece.now self.old (L.log link.old) self.new (L.log link.new)) }
    {
        if self.is_open() {
            self.send_open(alloc, link, piece, asked, millis)
        } else {
            Ok(())
        }
    }

    /// Sends the pieces of octets up to these places.
    fn send_all<L: Link>(
        &mut self,
        alloc: Global,
        link: &mut L,
        octets: &[u8],
        ends: &[usize],
        millis: u64,
    ) -> Result<(), AllocError>
        ensures { OnOk result (SendsAll octets.now 0 ends.now self.old (L.log link.old) self.new (L.log link.new)) }
    {
        let mut start = 0usize;
        for end in ends {
            let piece = between(octets, start, *end);
            self.send(alloc, link, piece, false, millis)?;
            start = *end;
        }
        Ok(())
    }

    /// Asks by a PING whether the connection is alive, where that is asked for.
    fn ask<L: Link>(
        &mut self,
        alloc: Global,
        link: &mut L,
        asks: bool,
        millis: u64,
    ) -> Result<(), AllocError>
        ensures { OnOk result (AsksIf asks self.old (L.log link.old) self.new (L.log link.new)) }
    {
        if !asks {
            return Ok(());
        }
        let wait = PROBE_MILLIS.max(millis.saturating_mul(4));
        self.send(alloc, link, &PROBE_FRAME, true, wait)?;
        self.listen(alloc, link, false, millis)
    }

    /// A case is played: what the server sends by itself is read, then the pieces of its octets up to these places are sent, one
    /// after another, and then a PING where that is asked for. After each piece what comes is read until nothing has arrived for
    /// this many milliseconds.
    ///
    /// `AllocError` where memory is refused.
    pub fn play<L: Link>(
        alloc: Global,
        link: &mut L,
        octets: &[u8],
        ends: &[usize],
        asks: bool,
        millis: u64,
    ) -> Result<Played, AllocError>
        ensures { IfOk result (λ played. Plays octets.now ends.now asks (L.log link.old) played (L.log link.new)) }
    {
        let mut played = Played::new(alloc)?;
        played.listen(alloc, link, false, millis.min(FIRST_MILLIS))?;
        played.send_all(alloc, link, octets, ends, millis)?;
        played.ask(alloc, link, asks, millis)?;
        Ok(played)
    }

    /// How the connection ended.
    pub fn ending(&self, asks: bool) -> Ending
        ensures { result ≡ ending_of asks self.now }
    {
        let answers = if asks && self.closed.is_none() {
            Some(have_answer(self.reading.events()))
        } else {
            None
        };
        Ending {
            closed: self.closed,
            answers,
            http1: is_http1(self.reading.octets()),
        }
    }
}
