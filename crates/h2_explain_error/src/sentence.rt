//! The sentence of each error with the values at hand, by its cause. The causes: h2_spec's `specs/Causes/CauseWords.antt`.

use crate::field_sentence::say_field;
use crate::part::{SentencePart, first_line, say_parts};
use crate::string_sentence::say_huffman;
use h2_explain_item::change::header_table::Gone;
use h2_explain_item::diagnosis::error_context::ErrorContext;
use h2_explain_item::diagnosis::fields::has;
use h2_explain_words::spelled::Stopped;
use h2_io::say::{Cut, Ordinal, TextBuilder};
use h2_io::say_all;
use h2_spec::causes::Cause;
use h2_spec::streams::StreamState;
use std::alloc::Allocator;

/// A list of parts: texts are words, names are values.
macro_rules! parts {
    (@one $text:literal) => { SentencePart::Words($text) };
    (@one $name:ident) => { SentencePart::$name };
    ($($part:tt)+) => { &[$(parts!(@one $part)),+] };
}

/// Puts the sentence of a cause last: with its values, or the rule alone where they are not at hand.
pub fn say_sentence<A: Allocator + Copy>(
    alloc: A,
    cause: Cause,
    context: ErrorContext<'_, '_, A>,
    out: &mut TextBuilder<A>,
) {
    let said = say_listed(cause, &context, out)
        || say_setting(cause, &context, out)
        || say_huffman(alloc, cause, &context, out)
        || say_field(cause, context.fields(), out);
    if !said {
        say_all!(out; cause.row().sentence);
    }
    if has(b":status".as_slice(), context.fields()) || begins_with_status(context.item.octets) {
        say_all!(out; "; a response has :status, so these may be the octets of a server");
    }
}

/// Whether an item is a HEADERS frame, without padding and priority, whose block begins with `:status`: a field of the indices
/// 8 to 14 of the static table, as each of its four forms has it (RFC 7541, 6 and A).
fn begins_with_status(item: &[u8]) -> bool {
    match (
        item.get(3).copied(),
        item.get(4).copied(),
        item.get(9).copied(),
    ) {
        (Some(1), Some(flags), Some(first)) => {
            flags & 0x28 == 0
                && matches!(first, 0x08..=0x0e | 0x18..=0x1e | 0x48..=0x4e | 0x88..=0x8e)
        }
        _ => false,
    }
}

/// The sentences that are lists of parts.
fn say_listed<A: Allocator + Copy>(
    cause: Cause,
    context: &ErrorContext<'_, '_, A>,
    out: &mut TextBuilder<A>,
) -> bool {
    let parts = parts_of(cause, context);
    if parts.is_empty() || !is_at_hand(cause, context) {
        return false;
    }
    say_parts(parts, context, out);
    say_parts(last_parts(cause, context), context, out);
    if let Cause::IndexOutOfTables = cause {
        say_gone(context, out);
    }
    true
}

/// Whether the values of a cause's sentence are at hand.
fn is_at_hand<A: Allocator + Copy>(cause: Cause, context: &ErrorContext<'_, '_, A>) -> bool {
    match cause {
        Cause::BlockInterrupted => context.item.before.block.is_some(),
        Cause::DataAfterEndStream
        | Cause::HeadersAfterEndStream
        | Cause::DataOnClosed
        | Cause::HeadersOnClosed
        | Cause::TrailersWithoutEndStream => context.note().is_some(),
        Cause::IndexOutOfTables => {
            matches!(context.stopped(), Some(Stopped::Index(_))) && context.fields.is_whole()
        }
        Cause::SizeUpdateLate | Cause::SizeUpdateTooLarge => {
            matches!(context.stopped(), Some(Stopped::Update(_)))
        }
        Cause::ContentTooLong | Cause::ContentTooShort => {
            context.item.before.stream.numbers.declared.is_some()
        }
        _ => true,
    }
}

/// The parts of a cause's sentence; none where it has other values.
fn parts_of<A: Allocator + Copy>(
    cause: Cause,
    context: &ErrorContext<'_, '_, A>,
) -> &'static [SentencePart] {
    match cause {
        Cause::BadPreface => preface_parts(other_of(context.item.ahead)),
        Cause::DataOnIdle | Cause::RstStreamOnIdle | Cause::WindowUpdateOnIdle => {
            idle_parts(context.stream())
        }
        _ => listed_parts(cause),
    }
}

/// The parts of a sentence that are the same whatever the values are.
fn listed_parts(cause: Cause) -> &'static [SentencePart] {
    let of_frame = frame_parts(cause);
    if !of_frame.is_empty() {
        return of_frame;
    }
    let of_stream = stream_parts(cause);
    if of_stream.is_empty() {
        block_parts(cause)
    } else {
        of_stream
    }
}

/// What octets are that are no connection preface.
#[derive(Clone, Copy)]
enum Other {
    /// The first line of an HTTP/1.1 message.
    Http1,
    /// The head of a TLS record with a handshake.
    Tls,
    /// A SETTINGS frame, or a GOAWAY frame.
    Settings,
    Goaway,
    Unknown,
}

/// Whether a line has ` HTTP/1.` in it, or begins with `HTTP/1.`.
fn is_http1(line: &[u8]) -> bool {
    for part in line.split(|octet| *octet == b' ') {
        if part.starts_with(b"HTTP/1.") {
            return true;
        }
    }
    false
}

/// What the octets are, by how they begin (RFC 9113, 4.1; RFC 9112, 3; RFC 8446, 5.1).
fn other_of(octets: &[u8]) -> Other {
    match octets {
        [22, 3, ..] => Other::Tls,
        [0, 0, _, 4, ..] => Other::Settings,
        [0, 0, _, 7, ..] => Other::Goaway,
        _ => {
            if is_http1(first_line(octets)) {
                Other::Http1
            } else {
                Other::Unknown
            }
        }
    }
}

/// What the octets are that should be the preface, where that is known, or the first that is not the preface's.
fn preface_parts(other: Other) -> &'static [SentencePart] {
    match other {
        Other::Http1 => parts!("this is HTTP/1.1: \"" FirstLine
            "\"; with prior knowledge HTTP/2 begins with \"PRI * HTTP/2.0\""),
        Other::Tls => parts!("this is a TLS handshake; this server takes HTTP/2 without TLS"),
        Other::Settings => parts!(
            "this is a SETTINGS frame: the connection preface is missing before it, or these are the octets of a server"
        ),
        Other::Goaway => parts!(
            "this is a GOAWAY frame: the connection preface is missing, or these are the octets of a server"
        ),
        Other::Unknown =>
            parts!("octet " Place " of the connection preface is " WrongOctet ", not " WantedOctet),
    }
}

/// An idle stream (RFC 9113, 5.1 and 5.1.1).
fn idle_parts(stream: u32) -> &'static [SentencePart] {
    if stream % 2 == 0 {
        parts!("stream " Stream " is even; the streams of a client are odd")
    } else {
        parts!("stream " Stream " is idle; HEADERS has to open it first")
    }
}

/// The first frame; frames that are too long, or on a stream and belong on 0; payloads of a wrong length, and padding
/// that is longer than the octets left for it (RFC 9113, 3.4, 4.2 and 6).
fn frame_parts(cause: Cause) -> &'static [SentencePart] {
    match cause {
        Cause::FirstNotSettings => parts!(
            "the first frame is " Type "; SETTINGS has to follow the preface"),
        Cause::FrameTooLarge => parts!(Type " of " Length "; this server takes " FrameLimit),
        Cause::StreamFrameTooLarge => parts!(
            Type " of " Length " on stream " Stream "; this server takes " FrameLimit),
        Cause::SettingsOnStream | Cause::PingOnStream | Cause::GoawayOnStream => parts!(
            Type " is on stream " Stream "; it has to be on 0"),
        Cause::PriorityLength => parts!(Type " of " Length "; it has 5"),
        Cause::RstStreamLength | Cause::WindowUpdateLength => parts!(
            Type " of " Length "; it has 4"),
        Cause::SettingsLength => parts!(Type " of " Length ", which 6 does not divide"),
        Cause::PingLength => parts!(Type " of " Length "; it has 8"),
        Cause::GoawayLength => parts!(Type " of " Length "; it has at least 8"),
        Cause::DataLength => parts!("DATA with PADDED is empty: the Pad Length is missing"),
        Cause::HeadersLength => parts!(
            "HEADERS of " Length "; its flags ask for " Fixed " before the fragment"),
        Cause::SettingsAckLength => parts!(
            "SETTINGS with ACK has " Length "; it has to be empty"),
        Cause::DataPadding => parts!(
            "a Pad Length of " PadLength ", with " AfterPad " after it"),
        Cause::HeadersPadding => parts!(
            "a Pad Length of " PadLength ", with " AfterFixed " for fragment and padding"),
        _ => &[],
    }
}

/// Streams that were never opened, or have ended, and windows (RFC 9113, 5.1, 5.1.2, 6.9 and 6.9.1).
fn stream_parts(cause: Cause) -> &'static [SentencePart] {
    match cause {
        Cause::DataOnSkipped => parts!(
            "stream " Stream " was never opened; it was closed when stream " Highest " was opened"),
        Cause::HeadersOnEven => parts!("stream " Stream " is even; a client opens odd ones"),
        Cause::HeadersOnSkipped => parts!(
            "stream " Stream " is new and below " Highest ", which was opened before"),
        Cause::TooManyStreams => parts!(
            "as many streams are live as this server takes, " StreamLimit),
        Cause::DataAfterEndStream | Cause::HeadersAfterEndStream => parts!(
            "the client ended stream " Stream " at #" EndedAt),
        Cause::DataOnClosed | Cause::HeadersOnClosed => parts!(
            "stream " Stream " is closed since #" ClosedAt ": " HowClosed),
        Cause::TrailersWithoutEndStream => parts!(
            "a second HEADERS on stream " Stream " has to have END_STREAM"),
        Cause::ConnectionWindowExceeded => parts!(
            "the connection's window is " ConnectionReceive ", " Length " arrived"),
        Cause::StreamWindowExceeded => parts!(
            "the window of stream " Stream " is " StreamReceive ", " Length " arrived"),
        Cause::ConnectionIncrementZero => parts!("an increment of 0; the least is 1"),
        Cause::StreamIncrementZero => parts!(
            "an increment of 0 on stream " Stream "; the least is 1"),
        Cause::ConnectionWindowOverflow => parts!(
            "the connection's send window: " ConnectionSend " + " Increment " is above 2147483647"),
        Cause::StreamWindowOverflow => parts!(
            "the send window of stream " Stream ": " StreamSend " + " Increment " is above 2147483647"),
        Cause::ContentTooLong => parts!(
            "content-length is " Declared ", " ReceivedOctets " came"),
        Cause::ContentTooShort => parts!(
            "content-length is " Declared ", the stream ended after " Received),
        _ => &[],
    }
}

/// Field blocks: their place, their size and their end, and the header table (RFC 9113, 4.3, 6.10 and 10.5.1; RFC 7541,
/// 2.3.3, 4.2, 6.1 and 6.3).
fn block_parts(cause: Cause) -> &'static [SentencePart] {
    match cause {
        Cause::BlockInterrupted => parts!(
            "the block of stream " BlockStream " is open since #" BlockItem
            ": only CONTINUATION on stream " BlockStream " may follow"),
        Cause::ContinuationOutsideBlock => parts!("no field block is open"),
        Cause::BlockTooLarge => parts!(
            "the fragments of the block are " BlockOctets "; this server takes 65536"),
        Cause::BlockTruncated => parts!(
            "the block ends inside an instruction, of which " CutOctets " came"),
        Cause::ListTooLarge => parts!(
            "a list of fields of " ListSize " octets or more; this server takes 65536"),
        Cause::IndexZero => parts!("an indexed field of index 0"),
        Cause::IndexOutOfTables => parts!(
            "index " StoppedAt "; both tables end at " HighestIndex),
        Cause::SizeUpdateMissing => parts!(
            "the limit of the header table is " TableLimit " and its maximum " TableMaximum
            ": the block has to begin with a table size update"),
        Cause::SizeUpdateLate => parts!(
            "a table size update to " StoppedAt " after " Fields "; it has to open the block"),
        Cause::SizeUpdateTooLarge => parts!(
            "a table size update to " StoppedAt "; the limit is " TableLimit),
        _ => &[],
    }
}

/// What follows the parts of a cause's sentence, where more is known.
fn last_parts<A: Allocator + Copy>(
    cause: Cause,
    context: &ErrorContext<'_, '_, A>,
) -> &'static [SentencePart] {
    match cause {
        Cause::ContinuationOutsideBlock if context.notes.block_end > 0 =>
            parts!(" since #" BlockEnd),
        Cause::TooManyStreams if !context.item.before.counts.acked => parts!(
            "; the client has not acknowledged that limit yet"
        ),
        // A client may count another window on a half-closed (local) stream (RFC 9113, 6.9.2).
        Cause::StreamWindowOverflow if is_half_local(context.item.before.stream.kind) => parts!(
            "; on a half-closed (local) stream this server's number does not follow SETTINGS_INITIAL_WINDOW_SIZE, and the client's may be lower"
        ),
        _ => &[],
    }
}

/// Whether a stream is half-closed (local) (RFC 9113, 5.1).
fn is_half_local(kind: StreamState) -> bool {
    matches!(kind, StreamState::HalfLocal)
}

/// Whether a setting is one that a cause refuses; `widest` is the greatest send window of a stream, and `from` the initial
/// window before the frame.
fn is_refused(cause: Cause, id: u16, value: u32, widest: i64, from: u32) -> bool {
    match cause {
        Cause::EnablePushValue => id == 2 && value > 1,
        Cause::InitialWindowSizeValue => id == 4 && value > 2_147_483_647,
        Cause::MaxFrameSizeValue => id == 5 && !(16_384..=16_777_215).contains(&value),
        Cause::InitialWindowSizeOverflow => {
            id == 4 && moved(widest, from, value) > 2_147_483_647
        }
        _ => false,
    }
}

/// A window, where the initial window goes from one value to another (RFC 9113, 6.9.2).
fn moved(window: i64, from: u32, to: u32) -> i64 {
    window
        .saturating_add(i64::from(to))
        .saturating_sub(i64::from(from))
}

/// The place and the value of the first setting that a cause refuses.
fn refused_setting<A: Allocator + Copy>(
    cause: Cause,
    context: &ErrorContext<'_, '_, A>,
) -> Option<(usize, u32)> {
    let from = context.item.before.counts.peer.window;
    let widest = match context.widest {
        Some((_, widest)) => widest,
        None => 0,
    };
    for place in 0..context.payload().len() / 6 {
        if let Some((id, value)) = context.setting(place) {
            if is_refused(cause, id, value, widest, from) {
                return Some((place.saturating_add(1), value));
            }
        }
    }
    None
}

/// An initial window that takes the send window of a stream too far (RFC 9113, 6.9.2).
fn say_moved<A: Allocator + Copy>(
    place: usize,
    value: u32,
    context: &ErrorContext<'_, '_, A>,
    out: &mut TextBuilder<A>,
) -> bool {
    let from = context.item.before.counts.peer.window;
    let Some((stream, window)) = context.widest else {
        return false;
    };
    say_all!(out;
        "the ", Ordinal(place), " setting, INITIAL_WINDOW_SIZE (4), from ", from, " to ", value,
        " moves the send window of stream ", stream, " from ", window, " to ",
        moved(window, from, value), ", above 2147483647");
    true
}

/// The setting that a cause refuses, and the values that it may have (RFC 9113, 6.5.2).
fn allowed_values(cause: Cause) -> Option<(&'static str, &'static str)> {
    match cause {
        Cause::EnablePushValue => Some(("ENABLE_PUSH (2)", "0 or 1")),
        Cause::InitialWindowSizeValue => Some(("INITIAL_WINDOW_SIZE (4)", "up to 2147483647")),
        Cause::MaxFrameSizeValue => Some(("MAX_FRAME_SIZE (5)", "16384 to 16777215")),
        _ => None,
    }
}

/// Settings (RFC 9113, 6.5.2 and 6.9.2).
fn say_setting<A: Allocator + Copy>(
    cause: Cause,
    context: &ErrorContext<'_, '_, A>,
    out: &mut TextBuilder<A>,
) -> bool {
    let Some((place, value)) = refused_setting(cause, context) else {
        return false;
    };
    let Some((name, values)) = allowed_values(cause) else {
        return say_moved(place, value, context, out);
    };
    say_all!(out;
        "the ", Ordinal(place), " setting, ", name, ", is ", value, "; it may be ", values);
    true
}

/// Puts last which entry an index would name that was evicted, if there is one (RFC 7541, 4.4).
fn say_gone<A: Allocator + Copy>(context: &ErrorContext<'_, '_, A>, out: &mut TextBuilder<A>) {
    let Some(Stopped::Index(index)) = context.stopped() else {
        return;
    };
    if let Some(gone) = context.table.gone_at(index) {
        say_evicted(gone, out);
    }
}

/// Puts last which entry was evicted, and by what.
fn say_evicted<A: Allocator>(gone: &Gone<A>, out: &mut TextBuilder<A>) {
    let entry = &gone.entry;
    say_all!(out;
        "; it was ", Cut(entry.name.as_slice()), ": \"", Cut(entry.value.as_slice()), "\" until #",
        gone.item, ", where ");
    match &gone.by {
        Some(name) => say_all!(out; "the entry ", Cut(name.as_slice()), " evicted it"),
        None => say_all!(out; "a table size update evicted it"),
    }
}
