//! What a client does that a dialogue looks at, and its reaction to a step. Definitions: `specs/Heard.antt`.

ghost use Rattle.std.specs.Prelude.{◌≡◌, ◌++◌, option_to_list, OnOk};
ghost use Rattle.h2_cmd_dialogue.specs.Heard.{based_on, event_of, fragment_of, gives_up, goaway_event, heard_from, heard_with, is_sent, nothing_heard, reaction_to, sends, sent_after, with_sent};

use crate::step::{Means, SendsLine, Step, based, is_pong};
use crate::verdict::Taken;
use h2_frame::{FrameRef, HeadersPart, Part, part_of};
use h2_spec::frames::HEADERS;
use std::alloc::AllocError;

/// What a client does that a dialogue looks at.
#[derive(Clone, Copy)]
pub enum Event {
    /// It answers the PING of a step.
    Pong,
    /// GOAWAY with this code, which is not NO_ERROR.
    Goaway(u32),
    /// RST_STREAM on this stream, with this code.
    Reset(u32, u32),
    /// It sends what the line `;<` with this number means.
    Sends(usize),
}

/// What was heard of a client since a step.
#[derive(Clone, Copy)]
pub struct Heard {
    /// The code of its first GOAWAY with an error.
    pub goaway: Option<u32>,
    /// The stream and the code of its first RST_STREAM.
    pub reset: Option<(u32, u32)>,
    /// Whether it has answered a PING of a step.
    pub answers: bool,
}

/// How a connection ended, as its client is judged.
#[derive(Clone, Copy)]
pub struct Ending {
    /// Whether the client ended it.
    pub is_closed: bool,
    /// Whether a request of the client has no whole answer.
    pub waits: bool,
    /// Whether a later step was taken.
    pub is_later: bool,
}

/// What a frame says of a client: an error, or that it answers.
fn event_of(frame: FrameRef<'_>) -> Option<Event>
    ensures { result ≡ event_of frame.entry.head frame.entry.payload.now }
{
    if is_pong(frame) {
        return Some(Event::Pong);
    }
    match part_of(frame) {
        Ok(Part::Goaway(_, code)) => goaway_event(code),
        Ok(Part::RstStream(code)) => Some(Event::Reset(frame.head.stream, code)),
        _ => None,
    }
}

/// Appends what a frame says of a client, if it says something.
///
/// `AllocError` where memory is refused.
pub fn push_event(frame: FrameRef<'_>, events: &mut Vec<Event>) -> Result<(), AllocError>
    ensures { OnOk result (events.new.items ≡ events.old.items ++ option_to_list (event_of frame.entry.head frame.entry.payload.now)) }
{
    match event_of(frame) {
        Some(event) => match events.push(event) {
            Ok(()) => Ok(()),
            Err(_) => Err(AllocError),
        },
        None => Ok(()),
    }
}

/// GOAWAY with this code, where that is an error.
fn goaway_event(code: u32) -> Option<Event>
    ensures { result ≡ goaway_event code }
{
    if code == 0 {
        None
    } else {
        Some(Event::Goaway(code))
    }
}

/// The payload of a frame; of HEADERS the fragment of the field block, without padding and priority.
fn fragment_of(frame: FrameRef<'_>) -> &[u8]
    ensures { result.now ≡ fragment_of frame.entry.head frame.entry.payload.now }
{
    if frame.head.kind != HEADERS {
        return frame.payload;
    }
    match part_of(frame) {
        Ok(Part::Headers(HeadersPart { fragment, .. })) => fragment,
        _ => frame.payload,
    }
}

impl SendsLine {
    /// Whether a frame of the client is one that this line means.
    fn means(&self, base: u32, frame: FrameRef<'_>) -> bool
        ensures { result ≡ sends base self.now frame.entry.head frame.entry.payload.now }
    {
        let wanted = self.frame.head;
        let payload = self.frame.payload.as_slice();
        if frame.head.kind != wanted.kind || frame.head.stream != based(base, wanted.stream) {
            return false;
        }
        match self.means {
            Means::Frame => frame.head.flags == wanted.flags && frame.payload == payload,
            Means::Beginning | Means::Never => {
                frame.head.flags & wanted.flags == wanted.flags
                    && fragment_of(frame).starts_with(payload)
            }
        }
    }
}

/// Appends what is meant by these lines of what a frame is.
///
/// `AllocError` where memory is refused.
fn push_sends(
    base: u32,
    lines: &[SendsLine],
    frame: FrameRef<'_>,
    events: &mut Vec<Event>,
) -> Result<(), AllocError>
    ensures { OnOk result (events.new.items ≡ events.old.items ++ with_sent base lines.now frame.entry.head frame.entry.payload.now) }
{
    for line in lines {
        if line.means(base, frame) {
            match events.push(Event::Sends(line.line)) {
                Ok(()) => {}
                Err(_) => return Err(AllocError),
            }
        }
    }
    Ok(())
}

/// Appends what is meant of what a frame is by the lines of these steps.
///
/// `AllocError` where memory is refused.
pub fn push_steps(
    base: u32,
    steps: &[Step],
    frame: FrameRef<'_>,
    events: &mut Vec<Event>,
) -> Result<(), AllocError>
    ensures { OnOk result (events.new.items ≡ events.old.items ++ sent_after base steps.now frame.entry.head frame.entry.payload.now) }
{
    for step in steps {
        push_sends(base, step.sends.as_slice(), frame, events)?;
    }
    Ok(())
}

impl Heard {
    /// Nothing.
    fn nothing() -> Heard
        ensures { result ≡ nothing_heard }
    {
        Heard {
            goaway: None,
            reset: None,
            answers: false,
        }
    }

    /// Whether a client that has to go on only gives a stream up at its end: by NO_ERROR or CANCEL, after an answer.
    fn gives_up(self, goes_on: bool, code: u32) -> bool
        ensures { result ≡ gives_up goes_on self code }
    {
        goes_on && (self.answers && (code == 0 || code == 8))
    }

    /// With what it does next.
    fn with(self, goes_on: bool, event: Event) -> Heard
        ensures { result ≡ heard_with goes_on self event }
    {
        match event {
            Event::Pong => Heard {
                answers: true,
                ..self
            },
            Event::Goaway(code) => match self.goaway {
                Some(_) => self,
                None => Heard {
                    goaway: Some(code),
                    ..self
                },
            },
            Event::Reset(stream, code) => match self.reset {
                Some(_) => self,
                None => {
                    if self.gives_up(goes_on, code) {
                        self
                    } else {
                        Heard {
                            reset: Some((stream, code)),
                            ..self
                        }
                    }
                }
            },
            Event::Sends(_) => self,
        }
    }

    /// What is heard in these events, where the client has to go on or not.
    pub fn of(events: &[Event], goes_on: bool) -> Heard
        ensures { result ≡ heard_from goes_on nothing_heard events.now }
    {
        let mut heard = Heard::nothing();
        for event in events {
            heard = heard.with(goes_on, *event);
        }
        heard
    }
}

/// The number that a stream of the client has in the file.
fn unbased(base: u32, stream: u32) -> u32
    ensures { result ≡ based_on base stream }
{
    if stream % 2 == 1 {
        stream.saturating_sub(base)
    } else {
        stream
    }
}

/// What a client does from a step on, after which this was heard.
pub fn reaction_to(base: u32, goes_on: bool, heard: Heard, ending: Ending) -> Taken
    ensures { result ≡ reaction_to base goes_on heard ending }
{
    if let Some(code) = heard.goaway {
        return Taken::Connection(code);
    }
    if let Some((stream, code)) = heard.reset {
        return Taken::Stream(unbased(base, stream), code);
    }
    if ending.is_closed && goes_on {
        if ending.is_later || !ending.waits {
            return Taken::GoesOn;
        }
        return Taken::Closed;
    }
    if heard.answers {
        Taken::GoesOn
    } else if ending.is_closed {
        Taken::Closed
    } else {
        Taken::Silent
    }
}

/// Whether what a line `;<` means is among these.
pub fn is_sent(line: usize, events: &[Event]) -> bool
    ensures { result ≡ is_sent line events.now }
{
    events.iter().any(|event| matches!(event, Event::Sends(number) if *number == line))
}
