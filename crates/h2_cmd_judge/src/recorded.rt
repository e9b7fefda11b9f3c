//! Octets that were recorded say what a server sent, not after which item it came. Each event is put after the item beside
//! which this server does the like, the one after the event before; an error after the last item where this server has none;
//! anything else after the event before it. Definitions: `specs/Recorded.antt`.

ghost use Rattle.std.specs.Prelude.{◌≡◌, ◌≤◌, IfOk, IfSome, drop, length};
ghost use Rattle.std.specs.Option.{option_map};
ghost use Rattle.h2_cmd_judge.specs.Recorded.{aligned, answered_stream, behind_like, behind_place, is_acknowledgement, is_answer_on, is_error_event, is_like, is_pong_like, is_same_stream, place_without};

use crate::event::{Event, Seen};
use std::alloc::{AllocError, Global};

/// Whether an event is an error.
fn is_error_event(event: Event) -> bool
    ensures { result ≡ is_error_event event }
{
    match event {
        Event::Goaway(code) | Event::Reset(_, code) => code != 0,
        Event::Answered(_, _, _)
        | Event::Ended(_)
        | Event::Acknowledged
        | Event::Pong(_)
        | Event::Credit(_, _)
        | Event::Unreadable(_) => false,
    }
}

/// The stream of an answer or its end.
fn answered_stream(event: Event) -> Option<u32>
    ensures { result ≡ answered_stream event }
{
    match event {
        Event::Answered(stream, _, _) | Event::Ended(stream) => Some(stream),
        Event::Goaway(_)
        | Event::Reset(_, _)
        | Event::Acknowledged
        | Event::Pong(_)
        | Event::Credit(_, _)
        | Event::Unreadable(_) => None,
    }
}

/// Whether both are there, and the same.
fn is_same_stream(one: Option<u32>, other: Option<u32>) -> bool
    ensures { result ≡ is_same_stream one other }
{
    match (one, other) {
        (Some(one), Some(other)) => one == other,
        _ => false,
    }
}

/// Whether an event answers a PING with these octets.
fn is_pong_like(octets: [u8; 8], event: Event) -> bool
    ensures { result ≡ is_pong_like octets event }
{
    match event {
        Event::Pong(other) => octets == other,
        Event::Goaway(_)
        | Event::Reset(_, _)
        | Event::Answered(_, _, _)
        | Event::Ended(_)
        | Event::Acknowledged
        | Event::Credit(_, _)
        | Event::Unreadable(_) => false,
    }
}

/// Whether an event acknowledges SETTINGS.
fn is_acknowledgement(event: Event) -> bool
    ensures { result ≡ is_acknowledgement event }
{
    match event {
        Event::Acknowledged => true,
        Event::Goaway(_)
        | Event::Reset(_, _)
        | Event::Answered(_, _, _)
        | Event::Ended(_)
        | Event::Pong(_)
        | Event::Credit(_, _)
        | Event::Unreadable(_) => false,
    }
}

/// Whether an event is the answer on a stream.
fn is_answer_on(stream: u32, event: Event) -> bool
    ensures { result ≡ is_answer_on stream event }
{
    match event {
        Event::Answered(other, _, _) => stream == other,
        Event::Goaway(_)
        | Event::Reset(_, _)
        | Event::Ended(_)
        | Event::Acknowledged
        | Event::Pong(_)
        | Event::Credit(_, _)
        | Event::Unreadable(_) => false,
    }
}

/// Whether an event of this server is what an event of the other server is.
fn is_like(own: Event, event: Event) -> bool
    ensures { result ≡ is_like own event }
{
    match own {
        Event::Acknowledged => is_acknowledgement(event),
        Event::Pong(octets) => is_pong_like(octets, event),
        Event::Goaway(_) => is_error_event(own) && is_error_event(event),
        Event::Reset(stream, code) => {
            code != 0 && (is_error_event(event) || is_answer_on(stream, event))
        }
        Event::Answered(_, _, _) | Event::Ended(_) => {
            is_same_stream(answered_stream(own), answered_stream(event))
        }
        Event::Credit(_, _) | Event::Unreadable(_) => false,
    }
}

/// The events from a place on.
fn events_from(events: &[Seen], start: usize) -> &[Seen]
    requires { start ≤ length events.now }
    ensures { result.now ≡ drop start events.now }
{
    &events[start..]
}

/// The first event that is like another: after which item it came, and the place after it.
fn behind_like(own: &[Seen], event: Event) -> Option<(u32, usize)>
    ensures found { option_map (behind_place own.now) result ≡ behind_like own.now event }
    ensures within { IfSome result (λ found. found.1 ≤ length own.now) }
{
    for (place, seen) in own.iter().enumerate() {
        if is_like(seen.event, event) {
            return Some((seen.after, place + 1));
        }
    }
    None
}

/// The item after which an event is put that this server has not: the last one for an error.
fn place_without(event: Event, after: u32, last: u32) -> u32
    ensures { result ≡ place_without event after last }
{
    if is_error_event(event) { last } else { after }
}

/// The events of a server, each put after an item, by what this server does; `last` is the number of the last item.
///
/// `AllocError` where memory is refused.
pub fn aligned(
    alloc: Global,
    own: &[Seen],
    theirs: &[Seen],
    last: u32,
) -> Result<Vec<Seen>, AllocError>
    ensures { IfOk result (λ events. events.items ≡ aligned own.now 0 last theirs.now) }
{
    let mut events = Vec::new(alloc);
    let mut from = 0usize;
    let mut after = 0u32;
    for seen in theirs {
        match behind_like(events_from(own, from), seen.event) {
            Some((found, used)) => {
                after = found;
                from += used;
            }
            None => after = place_without(seen.event, after, last),
        }
        let event = seen.event;
        match events.push(Seen { after, event }) {
            Ok(()) => {}
            Err(_) => return Err(AllocError),
        }
    }
    Ok(events)
}
