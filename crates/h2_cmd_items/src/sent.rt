//! An item that a client sends in a case: what a judge has to know of it. Definitions: `specs/SentItems.antt`.

ghost use Rattle.std.specs.Prelude.{◌≡◌, ◌^◌, ◌-◌, is_some, min};
ghost use Rattle.h2_explain_item.specs.Item.{frame_in, head_in, part_in};
ghost use Rattle.h2_frame.specs.Parts.{part_seen};
ghost use Rattle.std.specs.Option.{option_map};
ghost use Rattle.h2_cmd_items.specs.SentItems.{ends_stream, increment_for, increment_in, is_data_head, is_due_settings, is_data_type, is_reset_head, is_reset_type, is_settings_type, length_in, may_end, narrow, ping_for, ping_in, sent_of, stream_in};

use h2_explain_item::item::Explained;
use h2_frame::Part;
use h2_spec::causes::Cause;
use h2_spec::frames::{ACK, END_STREAM, FrameType, Head};
use h2_spec::rules::Row;
use h2_spec::streams::is_live;

/// An item that a client sends.
#[derive(Clone, Copy)]
pub struct Sent {
    /// Its number: the preface is 1.
    pub number: u32,
    /// The number of the first item of its field block, else its own.
    pub low: u32,
    /// The place after its octets in those of the case.
    pub end: usize,
    /// The stream of its frame; 0 for none.
    pub stream: u32,
    /// How many octets its frame announces.
    pub length: u32,
    /// Whether its frame is DATA.
    pub is_data: bool,
    /// Whether its frame ends the client's side of the stream: DATA or HEADERS with END_STREAM (RFC 9113, 5.1).
    pub ends: bool,
    /// Whether it is RST_STREAM that is no error (6.4).
    pub resets: bool,
    /// Whether a request was under way on its stream before it: the stream was open or half-closed (5.1).
    pub is_begun: bool,
    /// The window that the client gives a new stream after it (6.5.2).
    pub window: u32,
    /// By how much it raises the window of its stream, as WINDOW_UPDATE that is no error (6.9); 0 for all else.
    pub increment: u32,
    /// Whether the client has sent GOAWAY with it or before it (6.8).
    pub has_goaway: bool,
    /// Whether the client has acknowledged this server's SETTINGS with it or before it (6.5.3).
    pub is_acknowledged: bool,
    /// Whether it is SETTINGS that has to be acknowledged (6.5.3).
    pub is_settings: bool,
    /// The octets of a PING that is no error (6.7).
    pub ping: Option<[u8; 8]>,
    /// Whether a field block is open after it.
    pub opens: bool,
    /// Why it is an error, if it is one.
    pub cause: Option<Cause>,
    /// The row of its rule.
    pub row: Row,
    /// Whether the RFC leaves a server more than the row says.
    pub is_left: bool,
    /// Whether the fields of its block have :protocol (RFC 8441, 4).
    pub has_protocol: bool,
}

/// A number of 64 bits in 32; the greatest where it is greater.
pub fn narrow(number: u64) -> u32
    ensures { result ≡ narrow number }
{
    number.min(4_294_967_295) as u32
}

/// Whether a type is DATA.
fn is_data_type(kind: FrameType) -> bool
    ensures { result ≡ is_data_type kind }
{
    match kind {
        FrameType::Data => true,
        _ => false,
    }
}

/// Whether a type is SETTINGS.
fn is_settings_type(kind: FrameType) -> bool
    ensures { result ≡ is_settings_type kind }
{
    match kind {
        FrameType::Settings => true,
        _ => false,
    }
}

/// Whether a type is RST_STREAM.
fn is_reset_type(kind: FrameType) -> bool
    ensures { result ≡ is_reset_type kind }
{
    match kind {
        FrameType::RstStream => true,
        _ => false,
    }
}

/// Whether frames of a type may end the client's side of a stream (RFC 9113, 6.1 and 6.2).
fn may_end(kind: FrameType) -> bool
    ensures { result ≡ may_end kind }
{
    match kind {
        FrameType::Data | FrameType::Headers => true,
        _ => false,
    }
}

/// The stream of a head; 0 without one.
fn stream_in(head: Option<Head>) -> u32
    ensures { result ≡ stream_in head }
{
    match head {
        Some(head) => head.stream,
        None => 0,
    }
}

/// How many octets a head announces; 0 without one.
fn length_in(head: Option<Head>) -> u32
    ensures { result ≡ length_in head }
{
    match head {
        Some(head) => head.length,
        None => 0,
    }
}

/// Whether a head is that of DATA.
fn is_data_head(head: Option<Head>) -> bool
    ensures { result ≡ is_data_head head }
{
    match head {
        Some(head) => is_data_type(head.frame_type()),
        None => false,
    }
}

/// Whether a head is that of RST_STREAM.
fn is_reset_head(head: Option<Head>) -> bool
    ensures { result ≡ is_reset_head head }
{
    match head {
        Some(head) => is_reset_type(head.frame_type()),
        None => false,
    }
}

/// Whether a frame with this head ends the client's side of its stream.
fn ends_stream(head: Option<Head>) -> bool
    ensures { result ≡ ends_stream head }
{
    match head {
        Some(head) => may_end(head.frame_type()) && head.has(END_STREAM),
        None => false,
    }
}

/// Whether a frame with this head is SETTINGS that has to be acknowledged, unless it is an error.
fn is_due_settings(head: Option<Head>) -> bool
    ensures { result ≡ is_due_settings head }
{
    match head {
        Some(head) => is_settings_type(head.frame_type()) && !head.has(ACK),
        None => false,
    }
}

/// By how much a payload raises a window.
fn increment_in(part: Option<Part<'_>>) -> u32
    ensures { result ≡ increment_in (option_map part_seen part.entry) }
{
    match part {
        Some(Part::WindowUpdate(octets)) => octets,
        _ => 0,
    }
}

/// The same where the item is no error.
fn increment_for(cause: Option<Cause>, increment: u32) -> u32
    ensures { result ≡ increment_for cause increment }
{
    match cause {
        Some(_) => 0,
        None => increment,
    }
}

/// The octets of a payload that is PING's.
fn ping_in(part: Option<Part<'_>>) -> Option<[u8; 8]>
    ensures { result ≡ ping_in (option_map part_seen part.entry) }
{
    match part {
        Some(Part::Ping(octets)) => Some(octets),
        _ => None,
    }
}

/// The same where the item is no error.
fn ping_for(cause: Option<Cause>, ping: Option<[u8; 8]>) -> Option<[u8; 8]>
    ensures { result ≡ ping_for cause ping }
{
    match cause {
        Some(_) => None,
        None => ping,
    }
}

/// What a judge has to know of an item: that has this rule, and its block began with the item of this number.
pub fn sent_of(item: &Explained<'_>, low: u32, row: Row, is_left: bool, has_protocol: bool) -> Sent
    ensures { result ≡ sent_of item.now low row is_left has_protocol }
{
    let head = item.head();
    Sent {
        number: narrow(item.number),
        low,
        end: item.offset.saturating_add(item.used),
        stream: stream_in(head),
        length: length_in(head),
        is_data: is_data_head(head),
        ends: ends_stream(head),
        resets: is_reset_head(head) && item.cause.is_none(),
        is_begun: is_live(item.before.stream.kind),
        window: item.after.counts.peer.window,
        increment: increment_for(item.cause, increment_in(item.part)),
        has_goaway: item.after.counts.goaway.is_some(),
        is_acknowledged: item.after.counts.acked,
        is_settings: is_due_settings(head) && item.cause.is_none(),
        ping: ping_for(item.cause, ping_in(item.part)),
        opens: item.after.block.is_some(),
        cause: item.cause,
        row,
        is_left,
        has_protocol,
    }
}
