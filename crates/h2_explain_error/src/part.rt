//! The parts of a sentence: words, and the names of values that an item and what was noted before it have. A sentence is
//! a list of parts, so that what it says is data; the values are looked up when it is put together.

use h2_explain_item::diagnosis::error_context::ErrorContext;
use h2_explain_item::item::{Explained, Moment};
use h2_explain_item::notes::StreamNote;
use h2_explain_item::shown_block::SpelledFields;
use h2_explain_words::names::TypeWords;
use h2_explain_words::spelled::Stopped;
use h2_io::say::{Cut, FieldCount, HexOctet, OctetCount, Say, TextBuilder};
use h2_spec::frames::{FrameType, PREFACE};
use h2_spec::octets::first_octets;
use h2_spec::streams::StreamState;
use std::alloc::Allocator;

/// A part of a sentence.
#[derive(Clone, Copy)]
pub(crate) enum SentencePart {
    /// These words.
    Words(&'static str),
    /// The type of the frame.
    Type,
    /// The length of the frame's payload, in octets.
    Length,
    /// The Pad Length, the octets after it, and those after all that HEADERS has before its fragment.
    PadLength,
    AfterPad,
    AfterFixed,
    /// How many octets HEADERS has before its fragment.
    Fixed,
    /// The increment of WINDOW_UPDATE.
    Increment,
    /// The first line of the octets that are not the preface.
    FirstLine,
    /// Which octet is not that of the preface, that octet, and that of the preface.
    Place,
    WrongOctet,
    WantedOctet,
    /// The stream, and how it closed.
    Stream,
    HowClosed,
    /// The highest stream that was opened.
    Highest,
    /// The limits of the server: a frame's length, the header table, live streams.
    FrameLimit,
    TableLimit,
    StreamLimit,
    /// The maximum of the header table.
    TableMaximum,
    /// The windows of the connection and of the stream.
    ConnectionReceive,
    ConnectionSend,
    StreamReceive,
    StreamSend,
    /// The stream of the open field block, and the item that began it.
    BlockStream,
    BlockItem,
    /// The item that ended the last field block.
    BlockEnd,
    /// The octets of the block's fragments.
    BlockOctets,
    /// The octets of the instruction that the block ends in.
    CutOctets,
    /// How many fields the block has, and what their list counts.
    Fields,
    ListSize,
    /// The index, or the size, at which decoding stopped.
    StoppedAt,
    /// The highest index of both tables.
    HighestIndex,
    /// The items that ended the client's side of the stream, and that closed it.
    EndedAt,
    ClosedAt,
    /// The content-length, and the content that came, in octets and as a number.
    Declared,
    ReceivedOctets,
    Received,
}

/// A value as it is shown.
#[derive(Clone, Copy)]
enum ShownValue<'o> {
    Words(&'static str),
    Text(&'o [u8]),
    Type(FrameType),
    Number(u64),
    Signed(i64),
    Octets(u64),
    Octet(u8),
    Fields(usize),
}

impl Say for ShownValue<'_> {
    fn say<A: Allocator>(self, out: &mut TextBuilder<A>) {
        match self {
            ShownValue::Words(words) => words.say(out),
            ShownValue::Text(octets) => Cut(octets).say(out),
            ShownValue::Type(kind) => TypeWords(kind).say(out),
            ShownValue::Number(number) => number.say(out),
            ShownValue::Signed(number) => number.say(out),
            ShownValue::Octets(count) => OctetCount(count).say(out),
            ShownValue::Octet(octet) => HexOctet(octet).say(out),
            ShownValue::Fields(count) => FieldCount(count).say(out),
        }
    }
}

/// A value of the frame.
fn frame_value<A: Allocator + Copy>(
    part: SentencePart,
    context: &ErrorContext<'_, '_, A>,
) -> ShownValue<'static> {
    match part {
        SentencePart::Type => ShownValue::Type(context.frame_type()),
        SentencePart::Length => ShownValue::Octets(context.length()),
        SentencePart::PadLength => ShownValue::Number(context.pad()),
        SentencePart::AfterPad => ShownValue::Octets(context.length().saturating_sub(1)),
        SentencePart::AfterFixed => ShownValue::Octets(
            context.length().saturating_sub(context.fixed()),
        ),
        SentencePart::Fixed => ShownValue::Number(context.fixed()),
        SentencePart::Increment => ShownValue::Number(u64::from(context.increment())),
        _ => ShownValue::Words(""),
    }
}

/// Where a line ends: before the first octet that is no visible one of ASCII.
fn line_in(octets: &[u8]) -> &[u8] {
    for (place, octet) in octets.iter().enumerate() {
        if !(b' '..=b'~').contains(octet) {
            return first_octets(octets, place);
        }
    }
    octets
}

/// The first line of octets, or what they begin with.
pub(crate) fn first_line(octets: &[u8]) -> &[u8] {
    line_in(first_octets(octets, 4096))
}

/// A value of the octets that are not the preface: the last one is not that of the preface.
fn preface_value<'o>(part: SentencePart, item: &Explained<'o>) -> ShownValue<'o> {
    let octets = item.octets;
    let place = octets.len();
    match part {
        SentencePart::FirstLine => ShownValue::Text(first_line(item.ahead)),
        SentencePart::Place => ShownValue::Number(place as u64),
        SentencePart::WrongOctet => ShownValue::Octet(octets.last().copied().unwrap_or(0)),
        SentencePart::WantedOctet => {
            ShownValue::Octet(PREFACE.get(place.saturating_sub(1)).copied().unwrap_or(0))
        }
        _ => ShownValue::Words(""),
    }
}

/// How a stream closed.
fn how_closed(kind: StreamState) -> &'static str {
    match kind {
        StreamState::PeerReset => "reset by the client",
        StreamState::WeReset => "reset by the server",
        _ => "both sides ended",
    }
}

/// The stream of the open field block, 0 where none is open.
fn block_stream(before: &Moment) -> u64 {
    match before.block {
        Some(block) => u64::from(block.stream),
        None => 0,
    }
}

/// A value of the connection or of the stream, as they were before the item.
fn moment_value(part: SentencePart, before: &Moment) -> ShownValue<'static> {
    match part {
        SentencePart::Stream => ShownValue::Number(u64::from(before.stream.id)),
        SentencePart::HowClosed => ShownValue::Words(how_closed(before.stream.kind)),
        SentencePart::Highest => ShownValue::Number(u64::from(before.counts.last)),
        SentencePart::FrameLimit => ShownValue::Number(u64::from(before.counts.own.frame)),
        SentencePart::TableLimit => ShownValue::Number(u64::from(before.counts.own.table)),
        SentencePart::TableMaximum => ShownValue::Number(u64::from(before.table_max)),
        SentencePart::ConnectionReceive => ShownValue::Signed(i64::from(
            before.counts.recv.value(),
        )),
        SentencePart::ConnectionSend => ShownValue::Signed(i64::from(before.counts.send.value())),
        SentencePart::StreamReceive => ShownValue::Signed(i64::from(
            before.stream.numbers.recv.value(),
        )),
        SentencePart::StreamSend => ShownValue::Signed(i64::from(
            before.stream.numbers.send.value(),
        )),
        SentencePart::BlockStream => ShownValue::Number(block_stream(before)),
        SentencePart::Declared => ShownValue::Number(before.stream.numbers.declared.unwrap_or(0)),
        _ => ShownValue::Words(""),
    }
}

/// Where decoding stopped: at an index, or at a table size update.
fn stopped_at(stopped: Option<Stopped>) -> u64 {
    match stopped {
        Some(Stopped::Index(number) | Stopped::Update(number)) => number,
        Some(Stopped::Other) | None => 0,
    }
}

/// What the fields that are shown count together, in octets: 32 each beside their own (RFC 9113, 6.5.2).
fn size_of<A: Allocator>(fields: SpelledFields<'_, A>) -> u64 {
    let mut size = 0u64;
    for place in 0..fields.len() {
        if let Some(field) = fields.get(place) {
            let octets = field.name.len().saturating_add(field.value.len());
            size = size.saturating_add(octets as u64).saturating_add(32);
        }
    }
    size
}

/// A value of the field block.
fn block_value<A: Allocator + Copy>(
    part: SentencePart,
    context: &ErrorContext<'_, '_, A>,
) -> ShownValue<'static> {
    match part {
        SentencePart::BlockItem => ShownValue::Number(context.notes.block),
        SentencePart::BlockEnd => ShownValue::Number(context.notes.block_end),
        SentencePart::BlockOctets => ShownValue::Octets(block_octets(
            &context.item.before,
            context.length(),
        )),
        SentencePart::CutOctets => ShownValue::Octets(context.reader.cut() as u64),
        SentencePart::Fields => ShownValue::Fields(context.fields().len()),
        SentencePart::ListSize => ShownValue::Number(size_of(context.fields())),
        SentencePart::StoppedAt => ShownValue::Number(stopped_at(context.stopped())),
        SentencePart::HighestIndex => ShownValue::Number(context.table.highest_index() as u64),
        _ => ShownValue::Words(""),
    }
}

/// The octets of a block's fragments with one of this length.
fn block_octets(before: &Moment, length: u64) -> u64 {
    match before.block {
        Some(block) => u64::from(block.octets).saturating_add(length),
        None => length,
    }
}

/// How many octets of content a request has once DATA has arrived: those before it, and those of its payload without
/// padding.
fn received(item: &Explained<'_>) -> u64 {
    let before = item.before.stream.numbers.content_received;
    match item.part {
        Some(h2_frame::Part::Data(part)) => before.saturating_add(part.content.len() as u64),
        _ => before,
    }
}

/// The items that ended the client's side of a stream, and that closed it; 0 where nothing was noted.
fn noted(note: Option<StreamNote>) -> (u64, u64) {
    match note {
        Some(note) => (note.ended, note.closed),
        None => (0, 0),
    }
}

/// A value that was noted of the stream, or of its content, or the limit of streams.
fn stream_value<A: Allocator + Copy>(
    part: SentencePart,
    context: &ErrorContext<'_, '_, A>,
) -> ShownValue<'static> {
    match part {
        SentencePart::StreamLimit => ShownValue::Number(u64::from(context.config.streams)),
        SentencePart::EndedAt => ShownValue::Number(noted(context.note()).0),
        SentencePart::ClosedAt => ShownValue::Number(noted(context.note()).1),
        SentencePart::ReceivedOctets => ShownValue::Octets(received(context.item)),
        SentencePart::Received => ShownValue::Number(received(context.item)),
        _ => ShownValue::Words(""),
    }
}

/// A part as it is shown.
fn value_of<'o, A: Allocator + Copy>(
    part: SentencePart,
    context: &ErrorContext<'_, 'o, A>,
) -> ShownValue<'o> {
    match part {
        SentencePart::Words(words) => ShownValue::Words(words),
        SentencePart::Type
        | SentencePart::Length
        | SentencePart::PadLength
        | SentencePart::AfterPad
        | SentencePart::AfterFixed
        | SentencePart::Fixed
        | SentencePart::Increment => frame_value(part, context),
        SentencePart::FirstLine
        | SentencePart::Place
        | SentencePart::WrongOctet
        | SentencePart::WantedOctet => { preface_value(part, context.item) }
        SentencePart::Stream
        | SentencePart::HowClosed
        | SentencePart::Highest
        | SentencePart::FrameLimit
        | SentencePart::TableLimit
        | SentencePart::TableMaximum
        | SentencePart::ConnectionReceive
        | SentencePart::ConnectionSend
        | SentencePart::StreamReceive
        | SentencePart::StreamSend
        | SentencePart::BlockStream
        | SentencePart::Declared => moment_value(part, &context.item.before),
        SentencePart::BlockItem
        | SentencePart::BlockEnd
        | SentencePart::BlockOctets
        | SentencePart::CutOctets
        | SentencePart::Fields
        | SentencePart::ListSize
        | SentencePart::StoppedAt
        | SentencePart::HighestIndex => block_value(part, context),
        SentencePart::StreamLimit
        | SentencePart::EndedAt
        | SentencePart::ClosedAt
        | SentencePart::ReceivedOctets
        | SentencePart::Received => stream_value(part, context),
    }
}

/// Puts parts last.
pub(crate) fn say_parts<A: Allocator + Copy>(
    parts: &'static [SentencePart],
    context: &ErrorContext<'_, '_, A>,
    out: &mut TextBuilder<A>,
) {
    for part in parts {
        value_of(*part, context).say(out);
    }
}
