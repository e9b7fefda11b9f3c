//! What is wrong with a frame by itself, though a receiver has to pass it over (RFC 9113, 4.1, 6.1 and 6.2; RFC 8441,
//! 3). Definitions: `specs/FrameFacts.antt`.

ghost use Rattle.std.specs.Prelude.{◌≡◌, ◌≤◌};
ghost use Rattle.std.specs.List.{list_any};
ghost use Rattle.std.specs.Option.{option_map};
ghost use Rattle.h2_frame.specs.Parts.{part_seen, settings_in};
ghost use Rattle.h2_spec.specs.Frames.FrameType.{frame_type};
ghost use Rattle.h2_explain_item.specs.Item.{head_in};
ghost use Rattle.h2_explain_item.specs.FrameFacts.{defined_flags, flag_in, frame_facts, has_bad_connect, has_bad_padding, has_reserved_bit, has_undefined_flags, is_bad_connect, is_high, is_not_zero};

use crate::item::Explained;
use h2_frame::{Part, SettingsPart};
use h2_spec::frames::{ACK, END_HEADERS, END_STREAM, FrameType, Head, PADDED, WITH_PRIORITY};

/// What is wrong with a frame by itself.
#[derive(Clone, Copy)]
pub struct FrameFacts {
    /// Whether padding has an octet other than 0 (RFC 9113, 6.1 and 6.2).
    pub padding: bool,
    /// Whether the reserved bit of the head is set (RFC 9113, 4.1).
    pub reserved_bit: bool,
    /// Whether a flag is set that the type of the frame does not define (RFC 9113, 4.1).
    pub flags: bool,
    /// Whether the setting ENABLE_CONNECT_PROTOCOL is above 1 (RFC 8441, 3).
    pub connect_protocol: bool,
}

impl FrameFacts {
    /// Nothing is wrong.
    pub fn none() -> FrameFacts {
        FrameFacts {
            padding: false,
            reserved_bit: false,
            flags: false,
            connect_protocol: false,
        }
    }
}

/// Whether one of the octets is not 0.
fn has_not_zero(octets: &[u8]) -> bool
    ensures { result ≡ list_any is_not_zero octets.now }
{
    let mut found = false;
    for octet in octets {
        found |= *octet != 0;
    }
    found
}

/// Whether padding has an octet that is not 0 (RFC 9113, 6.1).
fn has_bad_padding(part: Option<Part<'_>>) -> bool
    ensures { result ≡ has_bad_padding (option_map part_seen part.entry) }
{
    match part {
        Some(Part::Data(part)) => has_not_zero(part.padding),
        Some(Part::Headers(part)) => has_not_zero(part.padding),
        _ => false,
    }
}

/// Whether the highest bit of an octet is set.
fn is_high(octet: Option<u8>) -> bool
    ensures { result ≡ is_high octet }
{
    match octet {
        Some(octet) => octet >= 128,
        None => false,
    }
}

/// Whether the reserved bit of an item's head is set, if it is a frame (RFC 9113, 4.1).
fn has_reserved_bit(item: &Explained<'_>) -> bool
    ensures { result ≡ has_reserved_bit (head_in item.now.what) item.now.octets.now }
{
    item.head().is_some() && is_high(item.octets.get(5).copied())
}

/// A flag where it is set, else 0.
fn flag_in(head: Head, flag: u8) -> u8
    requires { 1 ≤ flag }
    ensures value { result ≡ flag_in head.flags flag }
    ensures small { result ≤ flag }
{
    if head.has(flag) { flag } else { 0 }
}

/// The flags that are set and that the type defines; all of a type that is not known (RFC 9113, 6.1 to 6.10).
fn defined_flags(head: Head) -> u8
    ensures { result ≡ defined_flags (frame_type head.kind) head.flags }
{
    match head.frame_type() {
        FrameType::Data => flag_in(head, END_STREAM) + flag_in(head, PADDED),
        FrameType::Headers => {
            flag_in(head, END_STREAM)
                + flag_in(head, END_HEADERS)
                + flag_in(head, PADDED)
                + flag_in(head, WITH_PRIORITY)
        }
        FrameType::Settings | FrameType::Ping => flag_in(head, ACK),
        FrameType::PushPromise => flag_in(head, END_HEADERS) + flag_in(head, PADDED),
        FrameType::Continuation => flag_in(head, END_HEADERS),
        FrameType::Priority | FrameType::RstStream | FrameType::Goaway | FrameType::WindowUpdate =>
            0,
        FrameType::Unknown(_) => head.flags,
    }
}

/// Whether a flag is set that the type of the frame does not define (RFC 9113, 4.1).
fn has_undefined_flags(head: Option<Head>) -> bool
    ensures { result ≡ has_undefined_flags head }
{
    match head {
        Some(head) => defined_flags(head) != head.flags,
        None => false,
    }
}

/// Whether a setting is ENABLE_CONNECT_PROTOCOL above 1 (RFC 8441, 3).
fn is_bad_connect(number: u16, value: u32) -> bool
    ensures { result ≡ is_bad_connect (number, value) }
{
    number == 8 && value > 1
}

/// Whether one of the settings is ENABLE_CONNECT_PROTOCOL above 1 (RFC 8441, 3).
fn has_connect_above_one(settings: SettingsPart<'_>) -> bool
    ensures { result ≡ list_any is_bad_connect (settings_in settings.entry) }
{
    let mut found = false;
    for place in 0..settings.count() {
        let (number, value) = settings.pair_at(place);
        found |= is_bad_connect(number, value);
    }
    found
}

/// Whether a payload has such a setting.
fn has_bad_connect(part: Option<Part<'_>>) -> bool
    ensures { result ≡ has_bad_connect (option_map part_seen part.entry) }
{
    match part {
        Some(Part::Settings(settings)) => has_connect_above_one(settings),
        _ => false,
    }
}

/// What is wrong with the frame that an item is, if it is one.
pub fn frame_facts(item: &Explained<'_>) -> FrameFacts
    ensures { result ≡ frame_facts item.now }
{
    FrameFacts {
        padding: has_bad_padding(item.part),
        reserved_bit: has_reserved_bit(item),
        flags: has_undefined_flags(item.head()),
        connect_protocol: has_bad_connect(item.part),
    }
}
