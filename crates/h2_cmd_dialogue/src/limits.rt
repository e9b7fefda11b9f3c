//! What the SETTINGS that go to a client let it do, and what it does against that (RFC 9113, 6.5.2 and 6.5.3). A value that is not
//! acknowledged yet may be in force already where it allows more. Definitions: `specs/Limits.antt`.

ghost use Rattle.std.specs.Prelude.{◌≡◌, ◌<◌, ◌==◌, IfSome, OnOk, None, length, nat_lt};
ghost use Rattle.std.specs.List.{position};
ghost use Rattle.h2_frame.specs.Parts.{settings_in};
ghost use Rattle.h2_cmd_dialogue.specs.Limits.{acknowledged, came, counted, ended_by, grant_in, grant_of, higher, is_end, most_frame, most_streams, new_limits, noted, opened, sent, sent_frames, value_of, with_control, with_first, with_length, without};

use crate::step::is_pong;
use h2_explain_words::sent::next_frame;
use h2_frame::{FrameRef, Head, SettingsPart};
use h2_spec::frames::{ACK, DATA, END_STREAM, HEADERS, RST_STREAM, SETTINGS};
use std::alloc::{AllocError, Global};
use std::marker::Model;

/// What SETTINGS that went to a client say, of what it has to keep to.
#[derive(Clone, Copy)]
pub struct Grant {
    /// MAX_CONCURRENT_STREAMS.
    pub streams: Option<u32>,
    /// MAX_FRAME_SIZE.
    pub frame: Option<u32>,
}

/// What a client does against its limits.
#[derive(Clone, Copy)]
pub enum LimitFault {
    /// It acknowledges SETTINGS that it did not get.
    NoSettings,
    /// A frame of this type and length, where this is the most.
    LongFrame(u8, u32, u32),
    /// A request on this stream, where this is the most of streams.
    ManyStreams(u32, u32),
}

/// The limits of a client, and what it does.
#[derive(Drop)]
pub struct Limits {
    /// Those that it has not acknowledged, in order.
    pub waiting: Vec<Grant>,
    /// The most octets of a payload.
    pub frame: u32,
    /// The most streams; none where there is no limit.
    pub streams: Option<u32>,
    /// Its streams that are live.
    pub live: Vec<u32>,
    /// Its streams whose request has no whole answer.
    pub unanswered: Vec<u32>,
    /// The highest of its streams.
    pub highest: u32,
    /// How many of `waiting` it has had since before the last PING of a step that it answered.
    pub late: usize,
    /// The first thing that it did against its limits.
    pub fault: Option<LimitFault>,
}

impl Model for Limits {
    ghost use Rattle.h2_cmd_dialogue.specs.Limits as limits;

    ghost Value = { limits.Limits };

    ghost view = { λ l. record { waiting = l.waiting.items; frame = l.frame; streams = l.streams; live = l.live.items; unanswered = l.unanswered.items; highest = l.highest; late = l.late; fault = l.fault } };
}

/// The last value of a setting, if it is there.
fn value_of(settings: SettingsPart<'_>, id: u16) -> Option<u32>
    ensures { result ≡ value_of id None (settings_in settings.entry) }
{
    let mut value = None;
    for place in 0..settings.count() {
        value = with_first(settings.pair_at(place), id, value);
    }
    value
}

/// A value, or that of a pair of this identifier.
fn with_first(pair: (u16, u32), id: u16, value: Option<u32>) -> Option<u32>
    ensures { result ≡ with_first id value pair }
{
    if pair.0 == id { Some(pair.1) } else { value }
}

/// What SETTINGS say.
fn grant_of(settings: SettingsPart<'_>) -> Grant
    ensures { result ≡ grant_of (settings_in settings.entry) }
{
    Grant {
        streams: value_of(settings, 3),
        frame: value_of(settings, 5),
    }
}

/// The higher one of a limit and of one that may be given.
fn higher(limit: u32, given: Option<u32>) -> u32
    ensures { result ≡ higher limit given }
{
    match given {
        Some(given) => limit.max(given),
        None => limit,
    }
}

/// The longest payload that may be sent.
fn most_frame(frame: u32, waiting: &[Grant]) -> u32
    ensures { result ≡ most_frame frame waiting.now }
{
    let mut most = frame;
    for grant in waiting {
        most = higher(most, grant.frame);
    }
    most
}

/// The most streams, with a limit that may be given.
fn most_streams(streams: u32, waiting: &[Grant]) -> u32
    ensures { result ≡ most_streams streams waiting.now }
{
    let mut most = streams;
    for grant in waiting {
        most = higher(most, grant.streams);
    }
    most
}

/// The place of a stream in a list.
fn place_of(stream: u32, list: &[u32]) -> Option<usize>
    ensures value { result ≡ position (λ k. k == stream) list.now }
    ensures within { IfSome result (λ place. place < length list.now) }
{
    list.iter().position(|other| *other == stream)
}

/// Takes a stream out of a list.
fn take_out(stream: u32, list: &mut Vec<u32>)
    ensures { list.new.items ≡ without stream list.old.items }
{
    match place_of(stream, list.as_slice()) {
        Some(place) => {
            let _stream = list.remove(place);
        }
        None => {}
    }
}

/// Whether a frame that is sent ends its stream on the sender's side.
fn is_end(head: Head) -> bool
    ensures { result ≡ is_end head }
{
    if head.kind == DATA || head.kind == HEADERS {
        head.has(END_STREAM)
    } else {
        head.kind == RST_STREAM
    }
}

/// What a frame that is sent lets the client do, if it is SETTINGS.
fn grant_in(frame: FrameRef<'_>) -> Option<Grant>
    ensures { result ≡ grant_in frame.entry.head frame.entry.payload.now }
{
    let head = frame.head;
    if head.kind != SETTINGS || (head.has(ACK) || head.stream != 0) {
        return None;
    }
    if frame.payload.len() % 6 == 0 {
        Some(grant_of(SettingsPart::new(frame.payload)))
    } else {
        None
    }
}

impl Limits {
    /// Those of a client that got nothing (RFC 9113, 6.5.2).
    pub fn new(alloc: Global) -> Limits
        ensures { result ≡ new_limits }
    {
        Limits {
            waiting: Vec::new(alloc),
            frame: 16_384,
            streams: None,
            live: Vec::new(alloc),
            unanswered: Vec::new(alloc),
            highest: 0,
            late: 0,
            fault: None,
        }
    }

    /// A frame that went to the client ends its stream.
    fn end(&mut self, head: Head)
        ensures { self.new ≡ ended_by head self.old }
    {
        if is_end(head) {
            take_out(head.stream, &mut self.live);
            take_out(head.stream, &mut self.unanswered);
        }
    }

    /// A frame went to the client.
    fn sent(&mut self, frame: FrameRef<'_>) -> Result<(), AllocError>
        ensures { OnOk result (self.new ≡ sent self.old frame.entry.head frame.entry.payload.now) }
    {
        self.end(frame.head);
        match grant_in(frame) {
            Some(grant) => match self.waiting.push(grant) {
                Ok(()) => Ok(()),
                Err(_) => Err(AllocError),
            },
            None => Ok(()),
        }
    }

    /// Frames went to the client.
    ///
    /// `AllocError` where memory is refused.
    pub fn all_sent(&mut self, octets: &[u8]) -> Result<(), AllocError>
        ensures { OnOk result (self.new ≡ sent_frames (length octets.now) self.old octets.now) }
    {
        let mut rest = octets;
        for _frame in 0..octets.len() {
            let Some((frame, behind)) = next_frame(rest) else {
                return Ok(());
            };
            self.sent(frame)?;
            rest = behind;
        }
        Ok(())
    }

    /// The client did something against its limits.
    fn note(&mut self, fault: LimitFault)
        ensures { self.new ≡ noted self.old fault }
    {
        if self.fault.is_none() {
            self.fault = Some(fault);
        }
    }

    /// The client acknowledges the first SETTINGS that wait for that (RFC 9113, 6.5.3).
    fn acknowledge(&mut self)
        ensures { self.new ≡ acknowledged self.old self.old.waiting }
    {
        if self.waiting.is_empty() {
            self.note(LimitFault::NoSettings);
            return;
        }
        let grant = self.waiting.remove(0);
        self.late = self.late.saturating_sub(1);
        if let Some(frame) = grant.frame {
            self.frame = frame;
        }
        if grant.streams.is_some() {
            self.streams = grant.streams;
        }
    }

    /// The client opens a stream: whether it may.
    fn count(&mut self, stream: u32)
        ensures { self.new ≡ counted self.old stream self.old.streams }
    {
        let Some(streams) = self.streams else {
            return;
        };
        let most = most_streams(streams, self.waiting.as_slice());
        if self.live.len() >= most as usize {
            self.note(LimitFault::ManyStreams(stream, most));
        }
    }

    /// The client opens a stream.
    fn open(&mut self, stream: u32) -> Result<(), AllocError>
        ensures { OnOk result (self.new ≡ opened self.old stream) }
    {
        self.count(stream);
        self.highest = stream;
        match self.live.push(stream) {
            Ok(()) => {}
            Err(_) => return Err(AllocError),
        }
        match self.unanswered.push(stream) {
            Ok(()) => Ok(()),
            Err(_) => Err(AllocError),
        }
    }

    /// A frame of the client has this length.
    fn measure(&mut self, head: Head)
        ensures { self.new ≡ with_length self.old head }
    {
        let most = most_frame(self.frame, self.waiting.as_slice());
        if head.length > most {
            self.note(LimitFault::LongFrame(head.kind, head.length, most));
        }
    }

    /// The client acknowledges SETTINGS, resets a stream, or answers a PING of a step.
    fn take(&mut self, frame: FrameRef<'_>)
        ensures { self.new ≡ with_control self.old frame.entry.head frame.entry.payload.now }
    {
        let head = frame.head;
        if head.kind == SETTINGS && head.has(ACK) {
            self.acknowledge();
        } else if head.kind == RST_STREAM {
            take_out(head.stream, &mut self.live);
        } else if is_pong(frame) {
            self.late = self.waiting.len();
        }
    }

    /// A frame of the client came.
    ///
    /// `AllocError` where memory is refused.
    pub fn came(&mut self, frame: FrameRef<'_>) -> Result<(), AllocError>
        ensures { OnOk result (self.new ≡ came self.old frame.entry.head frame.entry.payload.now) }
    {
        let head = frame.head;
        self.measure(head);
        self.take(frame);
        if head.kind == HEADERS && head.stream > self.highest {
            return self.open(head.stream);
        }
        Ok(())
    }

    /// The first thing that the client did against its limits.
    pub fn fault(&self) -> Option<LimitFault>
        ensures { result ≡ self.now.fault }
    {
        self.fault
    }

    /// How many SETTINGS it has not acknowledged that it had before its last answer to a PING of a step.
    pub fn late(&self) -> usize
        ensures { result ≡ self.now.late }
    {
        self.late
    }

    /// Whether a request of the client has no whole answer.
    pub fn is_unanswered(&self) -> bool
        ensures { result ≡ nat_lt 0 (length self.now.unanswered) }
    {
        !self.unanswered.is_empty()
    }
}
