//! A frame in words: its type, its stream, its flags by name, and what its payload has. No definition speaks of them.

use crate::names::{Code, TypeWords, registered_setting, say_flags, say_registered, setting_name};
use h2_frame::{DataPart, FrameRef, Head, HeadersPart, Part, SettingsPart, part_of};
use h2_io::say::{Cut, Hex, OctetCount, TextBuilder};
use h2_io::say_all;
use h2_spec::frames::{END_HEADERS, FrameType, WITH_PRIORITY};
use h2_spec::octets::octets_from;
use std::alloc::Allocator;

/// Whether a type is on streams only; the others name one only where it is not 0.
fn is_on_streams(kind: FrameType) -> bool {
    match kind {
        FrameType::Settings | FrameType::Ping | FrameType::Goaway => false,
        FrameType::Data
        | FrameType::Headers
        | FrameType::Priority
        | FrameType::RstStream
        | FrameType::PushPromise
        | FrameType::WindowUpdate
        | FrameType::Continuation
        | FrameType::Unknown(_) => true,
    }
}

/// Puts the type, the stream and the flags of a frame last.
pub fn say_head<A: Allocator>(head: &Head, out: &mut TextBuilder<A>) {
    let kind = head.frame_type();
    say_all!(out; TypeWords(kind));
    if is_on_streams(kind) || head.stream != 0 {
        say_all!(out; " stream ", head.stream);
    }
    say_flags(head, out);
}

/// Puts the length of a payload last, and that the block stays open where it does: if it can.
fn say_fragment<A: Allocator>(head: &Head, can_stay: bool, out: &mut TextBuilder<A>) {
    say_all!(out; ", ", OctetCount(u64::from(head.length)));
    if can_stay && !head.has(END_HEADERS) {
        say_all!(out; "; the block stays open");
    }
}

/// Puts the length of the padding last, if a frame is padded.
fn say_padding<A: Allocator>(pad: Option<u8>, out: &mut TextBuilder<A>) {
    if let Some(pad) = pad {
        say_all!(out; ", padding ", u64::from(pad));
    }
}

/// Puts a dependency and a weight last (RFC 9113, 5.3.2; of the 32 bits the first is the exclusive one).
fn say_priority<A: Allocator>(bits: u32, weight: u8, out: &mut TextBuilder<A>) {
    say_all!(out; ", depends on ", bits % 2_147_483_648);
    if bits >= 2_147_483_648 {
        say_all!(out; ", exclusive");
    }
    say_all!(out; ", weight ", u64::from(weight) + 1);
}

fn say_data<A: Allocator>(head: &Head, part: DataPart<'_>, out: &mut TextBuilder<A>) {
    say_all!(out; ", ", OctetCount(u64::from(head.length)));
    say_padding(part.pad, out);
}

fn say_headers<A: Allocator>(
    head: &Head,
    part: HeadersPart<'_>,
    can_stay: bool,
    out: &mut TextBuilder<A>,
) {
    if head.has(WITH_PRIORITY) {
        if let Some((bits, weight)) = part.priority {
            say_priority(bits, weight, out);
        }
    }
    say_padding(part.pad, out);
    say_fragment(head, can_stay, out);
}

/// Puts a setting last: its name, or its number, and its value.
fn say_setting<A: Allocator>(id: u16, value: u32, out: &mut TextBuilder<A>) {
    match setting_name(id) {
        Some(name) => say_all!(out; ", ", name, " ", value),
        None => {
            say_all!(out; ", unknown setting ", u32::from(id));
            say_registered(registered_setting(id), out);
            say_all!(out; " ", value);
        }
    }
}

fn say_settings<A: Allocator>(settings: SettingsPart<'_>, out: &mut TextBuilder<A>) {
    if settings.count() == 0 {
        say_all!(out; ", empty");
    }
    for place in 0..settings.count() {
        if let Some((id, value)) = settings.pair(place) {
            say_setting(id, value, out);
        }
    }
}

/// Puts the last stream, the code and the debug octets of a GOAWAY last (RFC 9113, 6.8).
fn say_goaway<A: Allocator>(last: u32, code: u32, payload: &[u8], out: &mut TextBuilder<A>) {
    say_all!(out; " last ", last, " ", Code(code));
    if payload.len() > 8 {
        say_all!(out; ", debug \"", Cut(octets_from(payload, 8)), "\"");
    }
}

/// Puts the dependency of a PRIORITY frame last.
fn say_dependency<A: Allocator>(payload: &[u8], out: &mut TextBuilder<A>) {
    if let [a, b, c, d, weight] = payload {
        say_priority(u32::from_be_bytes([*a, *b, *c, *d]), *weight, out);
    }
}

/// Puts what a payload has last.
fn say_part<A: Allocator>(
    frame: FrameRef<'_>,
    part: Part<'_>,
    can_stay: bool,
    out: &mut TextBuilder<A>,
) {
    let head = frame.head;
    match part {
        Part::Data(part) => say_data(&head, part, out),
        Part::Headers(part) => say_headers(&head, part, can_stay, out),
        Part::Priority => say_dependency(frame.payload, out),
        Part::RstStream(code) => say_all!(out; " ", Code(code)),
        Part::Settings(settings) => say_settings(settings, out),
        Part::SettingsAck => {}
        Part::Ping(octets) => say_all!(out; " ", Hex(&octets)),
        Part::Goaway(last, code) => say_goaway(last, code, frame.payload, out),
        Part::WindowUpdate(increment) => say_all!(out; ", ", increment),
        Part::Continuation(_) => say_fragment(&head, can_stay, out),
        Part::PushPromise | Part::Unknown =>
            say_all!(out; ", ", OctetCount(u64::from(head.length))),
    }
}

/// Puts a frame in words last; its length alone where its payload can't be read.
pub fn say_frame<A: Allocator>(frame: FrameRef<'_>, out: &mut TextBuilder<A>) {
    say_frame_in(frame, part_of(frame).ok(), true, out);
}

/// Puts a frame in words last whose payload was read already: `part` is what it holds, none where it can't be read. `can_stay` is
/// whether a field block can be open after the frame: not where it ended the connection.
pub fn say_frame_in<A: Allocator>(
    frame: FrameRef<'_>,
    part: Option<Part<'_>>,
    can_stay: bool,
    out: &mut TextBuilder<A>,
) {
    say_head(&frame.head, out);
    match part {
        Some(part) => say_part(frame, part, can_stay, out),
        None => say_all!(out; ", ", OctetCount(u64::from(frame.head.length))),
    }
}
