//! The steps of a dialogue, and which item of the client each waits for. Definitions: `specs/Steps.antt`.

ghost use Rattle.std.specs.Prelude.{◌≡◌};
ghost use Rattle.h2_cmd_dialogue.specs.Findings.{holds, is_optional};
ghost use Rattle.h2_cmd_dialogue.specs.Steps.{based, fits, incoming_of, is_pong, names, with_request};

use crate::verdict::WantedLine;
use h2_frame::{FrameRef, Head};
use h2_spec::frames::{ACK, HEADERS, PING};
use std::marker::Model;

/// The octets of the PING that follows the frames of a step.
pub const PROBE: [u8; 8] = *b"h2_bench";

/// Frames of a client: of this type, with at least these flags, on this stream. Odd streams count from that of its first
/// request, which is 1.
#[derive(Clone, Copy)]
pub struct Pattern {
    pub kind: u8,
    pub flags: u8,
    pub stream: u32,
}

/// The item that a step waits for.
#[derive(Clone, Copy)]
pub enum Awaited {
    /// The connection begins.
    Start,
    /// The answer to the PING of a step.
    Pong,
    Frame(Pattern),
}

/// A frame of a script, with streams as in the file.
#[derive(Drop)]
pub struct ScriptFrame {
    pub head: Head,
    pub payload: Vec<u8>,
}

impl Model for ScriptFrame {
    ghost use Rattle.h2_cmd_dialogue.specs.Steps as steps;

    ghost Value = { steps.ScriptFrame };

    ghost view = { λ f. record { head = f.head; payload = f.payload.items } };
}

/// Which frames a line means.
#[derive(Clone, Copy)]
pub enum Means {
    /// This frame.
    Frame,
    /// Those that fit its head as a pattern, and whose payload, of HEADERS the fragment, begins as its own.
    Beginning,
    /// Those that fit its head as a pattern: none of them is sent.
    Never,
}

/// A line `;<`: what the client sends after a step, or does not send before the next.
#[derive(Drop)]
pub struct SendsLine {
    /// Its number in the file, from 1.
    pub line: usize,
    pub means: Means,
    pub frame: ScriptFrame,
}

impl Model for SendsLine {
    ghost use Rattle.h2_cmd_dialogue.specs.Steps as steps;

    ghost Value = { steps.SendsLine };

    ghost view = { λ l. record { line = l.line; means = l.means; frame = l.frame } };
}

/// A step of a dialogue.
#[derive(Drop)]
pub struct Step {
    /// The number of its first line in the file, from 1.
    pub line: usize,
    pub awaited: Awaited,
    /// Whether its frames go out instead of what the server sends for the item; else after that.
    pub is_instead: bool,
    pub frames: Vec<ScriptFrame>,
    /// What the client does then; a PING follows the frames where there is such a line.
    pub wanted: Vec<WantedLine>,
    pub sends: Vec<SendsLine>,
}

impl Model for Step {
    ghost use Rattle.h2_cmd_dialogue.specs.Steps as steps;

    ghost Value = { steps.Step };

    ghost view = { λ s. record { line = s.line; awaited = s.awaited; is_instead = s.is_instead; frames = s.frames.items; wanted = s.wanted.items; sends = s.sends.items } };
}

impl Means {
    /// Whether a line holds where what it means was sent, or was not.
    pub fn holds(self, is_sent: bool) -> bool
        ensures { result ≡ holds self is_sent }
    {
        match self {
            Means::Frame | Means::Beginning => is_sent,
            Means::Never => !is_sent,
        }
    }
}

impl Step {
    /// Whether it need not be reached.
    pub fn is_optional(&self) -> bool
        ensures { result ≡ is_optional self.now }
    {
        self.frames.is_empty() && self.wanted.is_empty()
    }
}

/// What comes from a client.
#[derive(Clone, Copy)]
pub enum Incoming<'a> {
    /// Nothing yet: the connection begins.
    Start,
    Preface,
    Frame(FrameRef<'a>),
}

/// The number of a stream of the script, on a connection whose first request has this number, less 1.
pub fn based(base: u32, stream: u32) -> u32
    ensures { result ≡ based base stream }
{
    if stream % 2 == 1 {
        stream.saturating_add(base)
    } else {
        stream
    }
}

impl Pattern {
    /// Whether a frame fits.
    pub fn fits(self, base: u32, head: Head) -> bool
        ensures { result ≡ fits base self head }
    {
        head.kind == self.kind
            && (head.stream == based(base, self.stream) && head.flags & self.flags == self.flags)
    }
}

/// Whether a frame answers the PING of a step.
pub fn is_pong(frame: FrameRef<'_>) -> bool
    ensures { result ≡ is_pong frame.entry.head frame.entry.payload.now }
{
    let head = frame.head;
    head.kind == PING
        && (head.flags == ACK && (head.stream == 0 && frame.payload == PROBE.as_slice()))
}

impl Awaited {
    /// Whether this is the item.
    pub fn names(self, base: u32, item: Incoming<'_>) -> bool
        ensures { result ≡ names base self (incoming_of item.entry) }
    {
        match item {
            Incoming::Start => matches!(self, Awaited::Start),
            Incoming::Preface => false,
            Incoming::Frame(frame) => match self {
                Awaited::Start => false,
                Awaited::Pong => is_pong(frame),
                Awaited::Frame(pattern) => pattern.fits(base, frame.head),
            },
        }
    }
}

/// One less than the stream of the client's first request, with an item more; none before it.
pub fn with_request(base: Option<u32>, item: Incoming<'_>) -> Option<u32>
    ensures { result ≡ with_request base (incoming_of item.entry) }
{
    match base {
        Some(base) => Some(base),
        None => match item {
            Incoming::Frame(frame) => {
                if frame.head.kind == HEADERS {
                    Some(frame.head.stream.saturating_sub(1))
                } else {
                    None
                }
            }
            Incoming::Start | Incoming::Preface => None,
        },
    }
}
