//! What a server does that a judge looks at, and what of it is seen beside an item that the client sends. Definitions:
//! `specs/Events.antt`.

ghost use Rattle.std.specs.Prelude.{◌≡◌};
ghost use Rattle.std.specs.Str.{bytes_eq};
ghost use Rattle.h2_cmd_judge.specs.Events.{added, ends_with, is_before, is_behind, is_elsewhere, is_own, is_ping_of, shown_by, with_acknowledgement, with_answer, with_credit, with_end, with_end_if, with_event, with_goaway, with_pong, with_reset};

use h2_spec::conforming::Conforming;

/// What a server does.
#[derive(Clone, Copy)]
pub enum Event {
    /// GOAWAY with this code (RFC 9113, 6.8).
    Goaway(u32),
    /// RST_STREAM on this stream with this code (6.4).
    Reset(u32, u32),
    /// The fields of a final answer on this stream: its status, and whether they have END_STREAM (8.1).
    Answered(u32, u32, bool),
    /// DATA or trailers with END_STREAM on this stream (8.1).
    Ended(u32),
    /// SETTINGS with ACK (6.5.3).
    Acknowledged,
    /// PING with ACK and these octets (6.7).
    Pong([u8; 8]),
    /// WINDOW_UPDATE on this stream by this many octets (6.9).
    Credit(u32, u32),
    /// A field block on this stream that can't be read, or is none of an answer (4.3 and 8.3.2).
    Unreadable(u32),
}

/// An event, and the number of the item after which it came; 0 before the first.
#[derive(Clone, Copy)]
pub struct Seen {
    pub after: u32,
    pub event: Event,
}

/// What decides whether a server can break the rule of an item at all.
#[derive(Clone, Copy)]
pub enum Condition {
    /// Nothing.
    Always,
    /// The frame is longer than the peer takes: this many octets (RFC 9113, 4.2).
    Frame(u32),
    /// DATA is beyond the windows that the peer gives (6.9.1): octets so far on the connection, and on the stream.
    Windows(u64, u64),
    /// The peer doesn't know :protocol (RFC 8441, 3).
    Protocol,
    /// As many streams have ended (RFC 9113, 6.9.2).
    Streams,
}

/// An item that a client sends, and its rule.
#[derive(Clone, Copy)]
pub struct Item {
    /// Its number: the preface is 1.
    pub number: u32,
    /// The number of the first item of its field block, else its own.
    pub low: u32,
    /// The number of the next item that is judged, or of its field block's first.
    pub until: u32,
    /// The stream of its frame; 0 for none.
    pub stream: u32,
    /// The octets of a PING that has to be answered.
    pub ping: Option<[u8; 8]>,
    /// How many SETTINGS have to be acknowledged with it and before it, if it is one.
    pub settings: Option<u32>,
    /// Whether a request on its stream has to be answered: the client has ended the stream with it or before it, and nothing after
    /// it cuts the answer off or holds it back.
    pub is_owed: bool,
    /// Whether a request was under way on its stream before it, which a server may have handed on (8.1).
    pub is_begun: bool,
    /// Whether a server may wait for more octets.
    pub waits: bool,
    /// Whether the client has sent GOAWAY with it or before it (6.8).
    pub has_goaway: bool,
    /// Whether the client has acknowledged the server's SETTINGS with it or before it (6.5.3).
    pub is_acknowledged: bool,
    /// Whether no item is after it.
    pub is_last: bool,
    /// What decides whether its rule can be broken.
    pub condition: Condition,
    /// What a server may do.
    pub rule: Conforming,
}

/// What is seen of a server beside an item.
#[derive(Clone, Copy)]
pub struct Shown {
    /// The code of the first GOAWAY after the item that is an error.
    pub goaway: Option<u32>,
    /// The code of the first RST_STREAM after it on its stream that is an error.
    pub reset: Option<u32>,
    /// The stream and the code of the first RST_STREAM after it that is an error and not for it: on another stream, or after the next
    /// item that is judged.
    pub elsewhere: Option<(u32, u32)>,
    /// The status of the answer after it on its stream.
    pub answered: Option<u32>,
    /// Whether an answer is there on its stream, before it or after it.
    pub answered_before: bool,
    /// Whether the connection had ended before it by an error.
    pub was_over: bool,
    /// Whether it has ended after it by an error.
    pub is_over: bool,
    /// Whether the server had ended the item's stream before it: by END_STREAM, not by RST_STREAM.
    pub had_ended: bool,
    /// Whether it had reset that stream before it.
    pub had_reset: bool,
    /// Whether it has ended that stream after the item.
    pub ended_behind: bool,
    /// How many times the server had ended or reset a stream before it.
    pub ends: u64,
    /// How many SETTINGS are acknowledged in all.
    pub acknowledged: u64,
    /// Whether the PING of the item is answered.
    pub pong: bool,
    /// What WINDOW_UPDATE had added to the connection's window before it.
    pub credit: u64,
    /// The same of the window of its stream.
    pub stream_credit: u64,
}

/// Whether octets are those of a PING.
fn is_ping_of(own: Option<[u8; 8]>, octets: [u8; 8]) -> bool
    ensures { result ≡ is_ping_of own octets }
{
    match own {
        Some(own) => own == octets,
        None => false,
    }
}

impl Item {
    /// Whether an event came before it.
    fn is_before(&self, after: u32) -> bool
        ensures { result ≡ is_before self.now after }
    {
        after < self.low
    }

    /// Whether it came after it, and before the next that is judged.
    pub(crate) fn is_behind(&self, after: u32) -> bool
        ensures { result ≡ is_behind self.now after }
    {
        self.low <= after && after < self.until
    }

    /// Whether an event on a stream is on its stream.
    fn is_own(&self, stream: u32) -> bool
        ensures { result ≡ is_own self.now stream }
    {
        stream != 0 && stream == self.stream
    }

    /// Whether an event on a stream came after it, but not as what a server does for it.
    fn is_elsewhere(&self, after: u32, stream: u32) -> bool
        ensures { result ≡ is_elsewhere self.now after stream }
    {
        if self.is_own(stream) {
            self.until <= after
        } else {
            self.is_behind(after)
        }
    }

    /// How many times the server has ended or reset a stream before it, with one time more.
    fn ends_with(&self, ends: u64, after: u32) -> u64
        ensures { result ≡ ends_with self.now ends after }
    {
        if self.is_before(after) {
            ends.saturating_add(1)
        } else {
            ends
        }
    }
}

/// Nothing was seen.
const NOTHING: Shown = Shown {
    goaway: None,
    reset: None,
    elsewhere: None,
    answered: None,
    answered_before: false,
    was_over: false,
    is_over: false,
    had_ended: false,
    had_reset: false,
    ended_behind: false,
    ends: 0,
    acknowledged: 0,
    pong: false,
    credit: 0,
    stream_credit: 0,
};

impl Shown {
    /// With GOAWAY: NO_ERROR is no error (RFC 9113, 6.8).
    fn with_goaway(self, item: &Item, after: u32, code: u32) -> Shown
        ensures { result ≡ with_goaway item.now self after code }
    {
        let is_error = code != 0;
        Shown {
            goaway: self
                .goaway
                .or((item.is_behind(after) && is_error).then_some(code)),
            was_over: self.was_over || item.is_before(after) && is_error,
            is_over: self.is_over || item.low <= after && is_error,
            ..self
        }
    }

    /// With the end of the server's side of a stream (RFC 9113, 5.1).
    fn with_end(self, item: &Item, after: u32, stream: u32) -> Shown
        ensures { result ≡ with_end item.now self after stream }
    {
        let is_own = item.is_own(stream);
        Shown {
            had_ended: self.had_ended || item.is_before(after) && is_own,
            ended_behind: self.ended_behind || item.is_behind(after) && is_own,
            ends: item.ends_with(self.ends, after),
            ..self
        }
    }

    /// With RST_STREAM, after which the server's side has not ended, but the stream is closed (RFC 9113, 5.1): NO_ERROR, or any
    /// code after the end of the answer, only says that the rest of the request is not needed (8.1).
    fn with_reset(self, item: &Item, after: u32, stream: u32, code: u32) -> Shown
        ensures { result ≡ with_reset item.now self after stream code }
    {
        let is_own = item.is_own(stream);
        let is_error = item.is_behind(after) && (is_own && (code != 0 && !self.ended_behind));
        let is_elsewhere = item.is_elsewhere(after, stream) && code != 0;
        Shown {
            reset: self.reset.or(is_error.then_some(code)),
            elsewhere: self.elsewhere.or(is_elsewhere.then_some((stream, code))),
            had_reset: self.had_reset || item.is_before(after) && is_own,
            ends: item.ends_with(self.ends, after),
            ..self
        }
    }

    /// With an answer, which may have the end of the stream (RFC 9113, 8.1).
    fn with_answer(self, item: &Item, after: u32, stream: u32, status: u32, ends: bool) -> Shown
        ensures { result ≡ with_answer item.now self after stream status ends }
    {
        let is_own = item.is_own(stream);
        let shown = Shown {
            answered: self
                .answered
                .or((item.is_behind(after) && is_own).then_some(status)),
            answered_before: self.answered_before || is_own,
            ..self
        };
        if ends {
            shown.with_end(item, after, stream)
        } else {
            shown
        }
    }

    /// With an acknowledgement of SETTINGS (RFC 9113, 6.5.3).
    fn with_acknowledgement(self) -> Shown
        ensures { result ≡ with_acknowledgement self }
    {
        Shown {
            acknowledged: self.acknowledged.saturating_add(1),
            ..self
        }
    }

    /// With an acknowledgement of PING (RFC 9113, 6.7).
    fn with_pong(self, item: &Item, after: u32, octets: [u8; 8]) -> Shown
        ensures { result ≡ with_pong item.now self after octets }
    {
        let is_answer = item.low <= after && is_ping_of(item.ping, octets);
        Shown {
            pong: self.pong || is_answer,
            ..self
        }
    }

    /// With octets that the client may send besides (RFC 9113, 6.9).
    fn with_credit(self, item: &Item, after: u32, stream: u32, octets: u32) -> Shown
        ensures { result ≡ with_credit item.now self after stream octets }
    {
        let is_before = item.is_before(after);
        Shown {
            credit: added(self.credit, octets, is_before && stream == 0),
            stream_credit: added(self.stream_credit, octets, is_before && item.is_own(stream)),
            ..self
        }
    }

    /// With one more event.
    fn with_event(self, item: &Item, after: u32, event: Event) -> Shown
        ensures { result ≡ with_event item.now self after event }
    {
        match event {
            Event::Goaway(code) => self.with_goaway(item, after, code),
            Event::Reset(stream, code) => self.with_reset(item, after, stream, code),
            Event::Answered(stream, status, ends) => {
                self.with_answer(item, after, stream, status, ends)
            }
            Event::Ended(stream) => self.with_end(item, after, stream),
            Event::Acknowledged => self.with_acknowledgement(),
            Event::Pong(octets) => self.with_pong(item, after, octets),
            Event::Credit(stream, octets) => self.with_credit(item, after, stream, octets),
            Event::Unreadable(_) => self,
        }
    }
}

/// A count with more, where that counts; it stays at 2^64 - 1 once there.
fn added(count: u64, more: u32, counts: bool) -> u64
    ensures { result ≡ added count more counts }
{
    if counts {
        count.saturating_add(u64::from(more))
    } else {
        count
    }
}

/// What is seen of a server beside an item.
pub fn shown_by(item: &Item, events: &[Seen]) -> Shown
    ensures { result ≡ shown_by item.now events.now }
{
    let mut shown = NOTHING;
    for seen in events {
        shown = shown.with_event(item, seen.after, seen.event);
    }
    shown
}
