//! What an error or an ignored frame is besides its cause: the facts that decide its special case (`specs/CaseFacts.antt`),
//! and the other faults of its block, of which no definition speaks.

ghost use Rattle.std.specs.Prelude.{◌≡◌};
ghost use Rattle.std.specs.Option.{option_map};
ghost use Rattle.h2_frame.specs.Parts.{part_seen, settings_in};
ghost use Rattle.h2_explain_item.specs.CaseFacts.{ends_lawful, facts_by, has_lawful_window, lawful_with};

use crate::diagnosis::error_context::ErrorContext;
use crate::diagnosis::field_facts::{FieldFacts, field_facts};
use crate::diagnosis::fields::{BlockFields, family_of, holds};
use crate::diagnosis::integer::is_beyond_tables;
use crate::diagnosis::special::CaseFacts;
use h2_frame::{Part, SettingsPart};
use h2_spec::causes::Cause;
use h2_spec::streams::{Stream, StreamState};
use std::alloc::{AllocError, Allocator};

/// What decides, beside what is seen of an item, whether its rule is a special case: whether it is after a CONTINUATION of the
/// open block, what its payload holds, what its fields are, the octets of its block from an instruction on, and whether the
/// client had ended its side of the stream before it was reset.
pub fn case_facts(
    continued: bool,
    part: Option<Part<'_>>,
    fields: FieldFacts,
    octets: &[u8],
    after_end: bool,
) -> CaseFacts
    ensures { result ≡ facts_by continued (option_map part_seen part.entry) fields octets.now after_end }
{
    CaseFacts {
        continued,
        fields,
        lawful_window: has_lawful_window(part),
        beyond_tables: is_beyond_tables(octets),
        after_end,
    }
}

// The fields of a block say nothing of an item that is ignored, and a client may send many of these after a long block.
/// The same of an item that is explained.
pub fn facts_of<A: Allocator + Copy>(context: ErrorContext<'_, '_, A>) -> CaseFacts {
    let fields = if context.item.cause.is_some() {
        field_facts(context.fields().decoded())
    } else {
        FieldFacts::none()
    };
    let continued = context.item.number > context.notes.block.saturating_add(1);
    case_facts(
        continued,
        context.item.part,
        fields,
        context.reader.rest(),
        context.after_end,
    )
}

/// The same after one setting more.
fn lawful_with(lawful: bool, number: u16, value: u32) -> bool
    ensures { result ≡ lawful_with lawful (number, value) }
{
    if number == 4 {
        value <= 2_147_483_647
    } else {
        lawful
    }
}

/// Whether the last SETTINGS_INITIAL_WINDOW_SIZE of a frame is one that it may be (RFC 9113, 6.5.2).
fn ends_lawful(settings: SettingsPart<'_>) -> bool
    ensures { result ≡ ends_lawful (settings_in settings.entry) }
{
    let mut lawful = false;
    for place in 0..settings.count() {
        let (number, value) = settings.pair_at(place);
        lawful = lawful_with(lawful, number, value);
    }
    lawful
}

/// The same of a payload.
fn has_lawful_window(part: Option<Part<'_>>) -> bool
    ensures { result ≡ has_lawful_window (option_map part_seen part.entry) }
{
    match part {
        Some(Part::Settings(settings)) => ends_lawful(settings),
        _ => false,
    }
}

/// The block that an item ends, as far as its faults depend on it.
fn block_of<'f, A: Allocator + Copy>(context: ErrorContext<'f, '_, A>) -> BlockFields<'f, A> {
    let numbers = &context.item.before.stream.numbers;
    BlockFields {
        fields: context.fields(),
        ends: context.ends(),
        is_short: match numbers.declared {
            Some(declared) => numbers.content_received < declared,
            None => false,
        },
    }
}

/// The other causes that hold of a malformed block, in their order (RFC 9113, 8.1.1).
pub fn others_of<A: Allocator + Copy>(
    alloc: A,
    cause: Cause,
    context: ErrorContext<'_, '_, A>,
) -> Result<Vec<Cause, A>, AllocError> {
    let block = block_of(context);
    let mut others = Vec::new(alloc);
    for other in family_of(cause) {
        if *other as usize != cause as usize && holds(*other, block) {
            others.push(*other)?;
        }
    }
    Ok(others)
}

/// Whether the send window of a stream follows the client's SETTINGS_INITIAL_WINDOW_SIZE: while the server may send on it
/// (RFC 9113, 6.9.2).
fn follows(kind: StreamState) -> bool {
    match kind {
        StreamState::BothOpen | StreamState::HalfRemote => true,
        _ => false,
    }
}

/// The stream with the greatest send window among this one and those before, and the window; `found` is that of the
/// streams before.
pub fn wider_of(stream: &Stream, found: Option<(u32, i64)>) -> Option<(u32, i64)> {
    let window = i64::from(stream.numbers.send.value());
    match found {
        _ if !follows(stream.kind) => found,
        Some((_, widest)) if widest >= window => found,
        _ => Some((stream.id, window)),
    }
}
