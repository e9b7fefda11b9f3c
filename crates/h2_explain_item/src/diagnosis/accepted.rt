//! What is accepted of an item although the RFC has a rule for it: what a server may refuse, or has to accept. It is looked
//! up in the frame, in the fields of its block, and in the warnings, which have the same names. No definition speaks of it.

use crate::diagnosis::fields::{has, is_connect};
use crate::diagnosis::warning::{Warnings, all_warnings, opens_stream};
use crate::item::Explained;
use crate::shown_block::SpelledFields;
use h2_frame::{Part, SettingsPart};
use h2_spec::accepted::Accepted;
use h2_spec::frames::END_STREAM;
use h2_spec::streams::is_live;
use std::alloc::Allocator;

/// What can be seen of one item, in their order: all but what no section lets a server refuse, GOAWAY, and what is seen of
/// several items, by the spelling of an integer, or by a limit that no document has.
static ALL: [Accepted; 28] = [
    Accepted::UnknownSetting,
    Accepted::SettingTwice,
    Accepted::UndefinedFlags,
    Accepted::ReservedBit,
    Accepted::PaddingNotZero,
    Accepted::EmptyFragments,
    Accepted::EmptyData,
    Accepted::NoAuthority,
    Accepted::HostDiffers,
    Accepted::HostTwice,
    Accepted::Userinfo,
    Accepted::BadPath,
    Accepted::BadMethod,
    Accepted::BadScheme,
    Accepted::NameNoToken,
    Accepted::ValueControlOctet,
    Accepted::ContentLengthTwice,
    Accepted::TeCase,
    Accepted::TrailersEmpty,
    Accepted::PriorityFlag,
    Accepted::DependsOnItself,
    Accepted::GoawayOddStream,
    Accepted::RequestAfterGoaway,
    Accepted::UnknownCode,
    Accepted::ManySizeUpdates,
    Accepted::Connect,
    Accepted::OptionsStar,
    Accepted::EmptyDataBelowZero,
];

/// What can be seen of one item.
pub fn all_listed() -> &'static [Accepted] {
    &ALL
}

/// A bit for a setting of RFC 9113, 6.5.2; none for one that is not known.
fn bit_of(id: u16) -> u8 {
    match id {
        1 => 1,
        2 => 2,
        3 => 4,
        4 => 8,
        5 => 16,
        6 => 32,
        _ => 0,
    }
}

/// Whether a setting is not known.
fn has_unknown(settings: SettingsPart<'_>) -> bool {
    for place in 0..settings.count() {
        if let Some((id, _)) = settings.pair(place) {
            if bit_of(id) == 0 {
                return true;
            }
        }
    }
    false
}

/// Whether one of the settings that are known is there twice.
fn has_twice(settings: SettingsPart<'_>) -> bool {
    let mut seen = 0u8;
    for place in 0..settings.count() {
        if let Some((id, _)) = settings.pair(place) {
            let bit = bit_of(id);
            if seen & bit != 0 {
                return true;
            }
            seen |= bit;
        }
    }
    false
}

/// Whether the client sends an error code that is not known (RFC 9113, 7).
fn has_unknown_code(part: Part<'_>) -> bool {
    match part {
        Part::RstStream(code) | Part::Goaway(_, code) => code > 13,
        _ => false,
    }
}

/// Whether DATA has no octet, and does not end the stream.
fn is_empty_data(item: &Explained<'_>) -> bool {
    match (item.part, item.head()) {
        (Some(Part::Data(data)), Some(head)) => { data.content.is_empty() && !head.has(END_STREAM) }
        _ => false,
    }
}

/// The stream that HEADERS depends on, if it says so (RFC 9113, 6.2).
fn dependency_of(item: &Explained<'_>) -> Option<u32> {
    match item.part {
        Some(Part::Headers(headers)) => match headers.priority {
            Some((dependency, _)) => Some(dependency & 0x7fff_ffff),
            None => None,
        },
        _ => None,
    }
}

/// Whether it is in the frame of an item.
fn is_in_frame(accepted: Accepted, item: &Explained<'_>) -> bool {
    match (accepted, item.part) {
        (Accepted::UnknownSetting, Some(Part::Settings(settings))) => has_unknown(settings),
        (Accepted::SettingTwice, Some(Part::Settings(settings))) => has_twice(settings),
        (Accepted::EmptyFragments, Some(Part::Continuation(fragment))) => fragment.is_empty(),
        (Accepted::EmptyData, Some(Part::Data(_))) => is_empty_data(item),
        (Accepted::PriorityFlag, Some(Part::Headers(_))) => dependency_of(item).is_some(),
        (Accepted::DependsOnItself, Some(Part::Headers(_))) => {
            dependency_of(item) == Some(item.before.stream.id)
        }
        (Accepted::UnknownCode, Some(part)) => has_unknown_code(part),
        (Accepted::RequestAfterGoaway, Some(_)) => {
            opens_stream(item) && item.before.counts.goaway.is_some()
        }
        (Accepted::EmptyDataBelowZero, Some(Part::Data(_))) => {
            is_empty_data(item) && item.before.stream.numbers.recv.value() < 0
        }
        _ => false,
    }
}

/// Whether a field has this name and this value.
fn has_value<A: Allocator>(name: &[u8], value: &[u8], fields: SpelledFields<'_, A>) -> bool {
    for place in 0..fields.len() {
        let Some(field) = fields.get(place) else {
            break;
        };
        if field.name == name && field.value == value {
            return true;
        }
    }
    false
}

/// Whether a value has an octet that controls: below 32, but a tab, or 127 (RFC 9110, 5.5).
fn has_control(value: &[u8]) -> bool {
    for octet in value {
        if (*octet < 32 && *octet != 9) || *octet == 127 {
            return true;
        }
    }
    false
}

/// Whether a value of some field has such an octet.
fn have_control<A: Allocator>(fields: SpelledFields<'_, A>) -> bool {
    for place in 0..fields.len() {
        let Some(field) = fields.get(place) else {
            break;
        };
        if has_control(field.value) {
            return true;
        }
    }
    false
}

/// Whether it is in the fields of the block that an item ends.
fn is_in_fields<A: Allocator>(
    accepted: Accepted,
    item: &Explained<'_>,
    fields: SpelledFields<'_, A>,
) -> bool {
    match accepted {
        Accepted::ValueControlOctet => have_control(fields),
        Accepted::TeCase => has(b"te", fields) && !has_value(b"te", b"trailers", fields),
        Accepted::TrailersEmpty => fields.is_empty() && is_live(item.before.stream.kind),
        Accepted::Connect => opens_stream(item) && is_connect(fields),
        Accepted::OptionsStar => {
            has_value(b":method", b"OPTIONS", fields) && has_value(b":path", b"*", fields)
        }
        _ => false,
    }
}

/// Whether a warning says it: it has the same name.
fn is_warned(accepted: Accepted, warnings: Warnings) -> bool {
    for warning in all_warnings() {
        if warnings.has(*warning) && warning.name() == accepted.name() {
            return true;
        }
    }
    false
}

/// Whether this is accepted of an item; `fields` are those of the block that it ends, if it ends one.
pub fn is_accepted<A: Allocator>(
    accepted: Accepted,
    item: &Explained<'_>,
    warnings: Warnings,
    fields: Option<SpelledFields<'_, A>>,
) -> bool {
    if item.cause.is_some() || item.ignored.is_some() {
        return false;
    }
    let in_fields = match fields {
        Some(fields) => is_in_fields(accepted, item, fields),
        None => false,
    };
    in_fields || is_in_frame(accepted, item) || is_warned(accepted, warnings)
}
