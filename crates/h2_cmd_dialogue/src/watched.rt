//! What a client does on a connection, and what goes to it that it is judged by. Definitions: `specs/Watches.antt`, and of lines
//! `;<` `specs/Findings.antt`.

ghost use Rattle.std.specs.Prelude.{◌≡◌, None, drop, take, OnOk};
ghost use Rattle.std.specs.List.{list_any};
ghost use Rattle.h2_cmd_dialogue.specs.Findings.{events_for, is_goaway, mark_of, missed_by, missed_sends};
ghost use Rattle.h2_cmd_dialogue.specs.Watches.{nothing_watched, with_frame, with_octets};

use crate::heard::{Event, is_sent, push_event, push_steps};
use crate::limits::Limits;
use crate::step::{Means, SendsLine, Step};
use h2_frame::FrameRef;
use std::alloc::{AllocError, Global};
use std::marker::Model;

/// What a client does on a connection.
#[derive(Drop)]
pub struct Watched {
    pub events: Vec<Event>,
    /// How many events there were when each step was taken.
    pub marks: Vec<usize>,
    pub limits: Limits,
}

impl Model for Watched {
    ghost use Rattle.h2_cmd_dialogue.specs.Watches as watches;

    ghost Value = { watches.Watched };

    ghost view = { λ w. record { events = w.events.items; marks = w.marks.items; limits = w.limits } };
}

/// The events from a place on; none where there are fewer.
pub fn events_from(events: &[Event], start: usize) -> &[Event]
    ensures { result.now ≡ drop start events.now }
{
    if events.len() < start {
        return &[];
    }
    &events[start..]
}

/// The first events, this many; all where there are fewer.
fn first_events(events: &[Event], count: usize) -> &[Event]
    ensures { result.now ≡ take count events.now }
{
    if events.len() <= count {
        return events;
    }
    &events[..count]
}

impl Watched {
    /// Nothing happened.
    pub fn new(alloc: Global) -> Watched
        ensures { result ≡ nothing_watched }
    {
        Watched {
            events: Vec::new(alloc),
            marks: Vec::new(alloc),
            limits: Limits::new(alloc),
        }
    }

    /// A frame of the client came, after these steps.
    pub fn came(&mut self, base: u32, steps: &[Step], frame: FrameRef<'_>) -> Result<(), AllocError>
        ensures { OnOk result (self.new ≡ with_frame base steps.now self.old frame.entry.head frame.entry.payload.now) }
    {
        push_event(frame, &mut self.events)?;
        push_steps(base, steps, frame, &mut self.events)?;
        self.limits.came(frame)
    }

    /// These octets go to the client; whether a step was taken with them.
    pub fn note(&mut self, octets: &[u8], is_step: bool) -> Result<(), AllocError>
        ensures { OnOk result (self.new ≡ with_octets self.old octets.now is_step) }
    {
        self.limits.all_sent(octets)?;
        if !is_step {
            return Ok(());
        }
        match self.marks.push(self.events.len()) {
            Ok(()) => Ok(()),
            Err(_) => Err(AllocError),
        }
    }

    /// The place of the first event after a step.
    pub fn mark(&self, step: usize) -> usize
        ensures { result ≡ mark_of self.now step }
    {
        match self.marks.as_slice().get(step) {
            Some(mark) => *mark,
            None => self.events.len(),
        }
    }

    /// The events that a line `;<` of a step is about.
    fn events_for(&self, number: usize, means: Means) -> &[Event]
        ensures { result.now ≡ events_for self.now number means }
    {
        let first = self.mark(number);
        let events = events_from(self.events.as_slice(), first);
        match means {
            Means::Frame | Means::Beginning => events,
            Means::Never => {
                let next = self.mark(number.saturating_add(1));
                first_events(events, next.saturating_sub(first))
            }
        }
    }

    /// The last one that does not hold so far, with a line `;<` of a step more.
    fn missed_by(
        &self,
        number: usize,
        line: &SendsLine,
        before: Option<(usize, bool)>,
    ) -> Option<(usize, bool)>
        ensures { result ≡ missed_by self.now number before line.now }
    {
        let sent = is_sent(line.line, self.events_for(number, line.means));
        if line.means.holds(sent) {
            before
        } else {
            Some((line.line, sent))
        }
    }

    /// The last line `;<` of a step that does not hold, and whether what it means was sent.
    pub fn missed_sends(&self, number: usize, lines: &[SendsLine]) -> Option<(usize, bool)>
        ensures { result ≡ missed_sends self.now number None lines.now }
    {
        let mut missed = None;
        for line in lines {
            missed = self.missed_by(number, line, missed);
        }
        missed
    }

    /// Whether the client has sent GOAWAY with an error.
    pub fn has_goaway(&self) -> bool
        ensures { result ≡ list_any is_goaway self.now.events }
    {
        self.events
            .iter()
            .any(|event| matches!(event, Event::Goaway(_)))
    }
}
