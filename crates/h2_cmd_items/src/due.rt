//! Which items of a case are judged, and what has to be known of those before and after each. Definitions: `specs/Dues.antt`.

ghost use Rattle.std.specs.Prelude.{◌≡◌, ◌≤◌, [], IfOk, drop, length, take};
ghost use Rattle.h2_cmd_items.specs.Dues.{acknowledgements, closes, condition_by, data_on, due_of, dues, first_error, first_whole, have_close, have_end, have_error, highest, increments_on, is_error, is_judged, is_owed, is_shut, is_whole, item_of, judged_behind, settings_of, until_of, waits_by, window_after, with_data, with_increment, with_settings};

use crate::sent::Sent;
use h2_cmd_judge::case::Due;
use h2_cmd_judge::event::{Condition, Item};
use h2_spec::causes::Cause;
use std::alloc::{AllocError, Global};

/// What is known of the octets of a case.
#[derive(Clone, Copy)]
pub struct Whole {
    /// How many there are.
    pub length: usize,
    /// Whether they end in a field block or a frame that is open, on a connection that has not ended.
    pub is_unfinished: bool,
    /// Whether the case says that the RFC leaves a server more than this server does.
    pub is_tagged: bool,
}

/// Whether an item is an error.
fn is_error(item: &Sent) -> bool
    ensures { result ≡ is_error item.now }
{
    item.cause.is_some()
}

/// Whether it is an error, or no block is open after it.
fn is_whole(item: &Sent) -> bool
    ensures { result ≡ is_whole item.now }
{
    is_error(item) || !item.opens
}

/// Whether one of these is an error.
fn have_error(items: &[Sent]) -> bool
    ensures { result ≡ have_error items.now }
{
    for item in items {
        if is_error(item) {
            return true;
        }
    }
    false
}

/// Whether one of these ends the client's side of a stream.
fn have_end(stream: u32, items: &[Sent]) -> bool
    ensures { result ≡ have_end stream items.now }
{
    for item in items {
        if item.ends && item.stream == stream {
            return true;
        }
    }
    false
}

/// Whether an item resets a stream, or is an error on it.
fn closes(stream: u32, item: &Sent) -> bool
    ensures { result ≡ closes stream item.now }
{
    (item.resets || is_error(item)) && item.stream == stream
}

/// Whether one of these does.
fn have_close(stream: u32, items: &[Sent]) -> bool
    ensures { result ≡ have_close stream items.now }
{
    for item in items {
        if closes(stream, item) {
            return true;
        }
    }
    false
}

/// The window of a new stream that the client gives after these, or, where there are none, this one.
fn window_after(before: u32, items: &[Sent]) -> u32
    ensures { result ≡ window_after before items.now }
{
    let mut window = before;
    for item in items {
        window = item.window;
    }
    window
}

/// More octets that may be sent on a stream, where an item is WINDOW_UPDATE on it.
fn with_increment(count: u64, stream: u32, item: &Sent) -> u64
    ensures { result ≡ with_increment count stream item.now }
{
    if item.stream == stream {
        count.saturating_add(u64::from(item.increment))
    } else {
        count
    }
}

/// How many octets WINDOW_UPDATE lets be sent besides on a stream, with those before.
fn increments_on(before: u64, stream: u32, items: &[Sent]) -> u64
    ensures { result ≡ increments_on before stream items.now }
{
    let mut count = before;
    for item in items {
        count = with_increment(count, stream, item);
    }
    count
}

/// Whether the client lets no octet be sent on a stream, by all items of the case.
fn is_shut(stream: u32, upto: &[Sent], behind: &[Sent]) -> bool
    ensures { result ≡ is_shut stream upto.now behind.now }
{
    let window = window_after(window_after(65_535, upto), behind);
    let increments = increments_on(increments_on(0, stream, upto), stream, behind);
    window == 0 && increments == 0
}

/// Whether a request on a stream has to be answered.
fn is_owed(stream: u32, upto: &[Sent], behind: &[Sent]) -> bool
    ensures { result ≡ is_owed stream upto.now behind.now }
{
    have_end(stream, upto) && (!have_close(stream, behind) && !is_shut(stream, upto, behind))
}

/// One more acknowledgement, where an item is SETTINGS.
fn with_settings(count: u32, item: &Sent) -> u32
    ensures { result ≡ with_settings count item.now }
{
    if item.is_settings {
        count.saturating_add(1)
    } else {
        count
    }
}

/// How many SETTINGS of these have to be acknowledged.
pub fn acknowledgements(items: &[Sent]) -> u32
    ensures { result ≡ acknowledgements 0 items.now }
{
    let mut count = 0u32;
    for item in items {
        count = with_settings(count, item);
    }
    count
}

/// More octets of DATA, where an item is DATA on a stream, or on any where that is 0.
fn with_data(count: u64, stream: u32, item: &Sent) -> u64
    ensures { result ≡ with_data count stream item.now }
{
    if item.is_data && (stream == 0 || item.stream == stream) {
        count.saturating_add(u64::from(item.length))
    } else {
        count
    }
}

/// How many octets of DATA these have on a stream, or on all where that is 0.
fn data_on(stream: u32, items: &[Sent]) -> u64
    ensures { result ≡ data_on 0 stream items.now }
{
    let mut count = 0u64;
    for item in items {
        count = with_data(count, stream, item);
    }
    count
}

/// The highest stream that these are on.
pub fn highest(items: &[Sent]) -> u32
    ensures { result ≡ highest 0 items.now }
{
    let mut found = 0u32;
    for item in items {
        found = found.max(item.stream);
    }
    found
}

/// The number of the first error among items, or of its block's first item; 2^32 - 1 where there is none.
fn first_error(items: &[Sent]) -> u32
    ensures { result ≡ first_error items.now }
{
    for item in items {
        if is_error(item) {
            return item.low;
        }
    }
    u32::MAX
}

/// The same of the first that is an error, or after which no block is open.
fn first_whole(items: &[Sent]) -> u32
    ensures { result ≡ first_whole items.now }
{
    for item in items {
        if is_whole(item) {
            return item.low;
        }
    }
    u32::MAX
}

/// Whether an item is judged: an error is, and before the first error also anything else, a fragment of a block with its end.
fn is_judged(before: &[Sent], item: &Sent) -> bool
    ensures { result ≡ is_judged before.now item.now }
{
    is_error(item) || (!item.opens && !have_error(before))
}

/// The number of the next item that is judged: after an error only errors are.
fn until_of(item: &Sent, behind: &[Sent]) -> u32
    ensures { result ≡ until_of item.now behind.now }
{
    if is_error(item) {
        first_error(behind)
    } else {
        first_whole(behind)
    }
}

/// What decides whether the rule of an item with this cause can be broken; `upto` are the items up to it.
fn condition_by(cause: Option<Cause>, upto: &[Sent], item: &Sent) -> Condition
    ensures { result ≡ condition_by cause upto.now item.now }
{
    match cause {
        Some(Cause::FrameTooLarge | Cause::StreamFrameTooLarge) => Condition::Frame(item.length),
        Some(Cause::ConnectionWindowExceeded | Cause::StreamWindowExceeded) => {
            Condition::Windows(data_on(0, upto), data_on(item.stream, upto))
        }
        Some(Cause::UnknownPseudoField) => {
            if item.has_protocol {
                Condition::Protocol
            } else {
                Condition::Always
            }
        }
        Some(Cause::InitialWindowSizeOverflow) => Condition::Streams,
        _ => Condition::Always,
    }
}

/// Whether a server may wait for more octets beside an item with this cause; `ends`: the client ends its stream in the case.
fn waits_by(cause: Option<Cause>, ends: bool, item: &Sent, whole: Whole) -> bool
    ensures { result ≡ waits_by cause ends item.now whole }
{
    match cause {
        Some(Cause::ContentTooLong | Cause::BadContentLength) => !ends,
        Some(Cause::BadPreface) => true,
        Some(Cause::FrameTooLarge | Cause::StreamFrameTooLarge) => {
            whole.length.saturating_sub(item.end) < item.length as usize
        }
        _ => whole.is_unfinished,
    }
}

/// How many SETTINGS are to be acknowledged with an item, where it is one.
fn settings_of(upto: &[Sent], item: &Sent) -> Option<u32>
    ensures { result ≡ settings_of upto.now item.now }
{
    if item.is_settings {
        Some(acknowledgements(upto))
    } else {
        None
    }
}

/// An item as it is judged, by the items up to it, and those after it.
fn item_of(upto: &[Sent], item: &Sent, behind: &[Sent], whole: Whole) -> Item
    ensures { result ≡ item_of upto.now item.now behind.now whole }
{
    let ends = have_end(item.stream, upto) || have_end(item.stream, behind);
    let until = until_of(item, behind);
    Item {
        number: item.number,
        low: item.low,
        until,
        stream: item.stream,
        ping: item.ping,
        settings: settings_of(upto, item),
        is_owed: is_owed(item.stream, upto, behind),
        is_begun: item.is_begun,
        waits: waits_by(item.cause, ends, item, whole),
        has_goaway: item.has_goaway,
        is_acknowledged: item.is_acknowledged,
        is_last: until == u32::MAX,
        condition: condition_by(item.cause, upto, item),
        rule: item.row.duties.conforming,
    }
}

/// An item that is judged.
fn due_of(upto: &[Sent], item: &Sent, behind: &[Sent], whole: Whole) -> Due
    ensures { result ≡ due_of upto.now item.now behind.now whole }
{
    Due {
        item: item_of(upto, item, behind, whole),
        is_left: whole.is_tagged || item.is_left,
    }
}

/// This many first items.
fn first(items: &[Sent], count: usize) -> &[Sent]
    requires { count ≤ length items.now }
    ensures { result.now ≡ take count items.now }
{
    &items[..count]
}

/// The items from a place on.
fn from(items: &[Sent], start: usize) -> &[Sent]
    requires { start ≤ length items.now }
    ensures { result.now ≡ drop start items.now }
{
    &items[start..]
}

/// The items that are judged.
///
/// `AllocError` where memory is refused.
pub fn dues(alloc: Global, items: &[Sent], whole: Whole) -> Result<Vec<Due>, AllocError>
    ensures { IfOk result (λ found. found.items ≡ dues whole items.now) }
{
    let mut found = Vec::new(alloc);
    for (place, item) in items.iter().enumerate() {
        if is_judged(first(items, place), item) {
            let due = due_of(first(items, place + 1), item, from(items, place + 1), whole);
            match found.push(due) {
                Ok(()) => {}
                Err(_) => return Err(AllocError),
            }
        }
    }
    Ok(found)
}

/// Those of the items that are judged, as they were sent.
///
/// `AllocError` where memory is refused.
pub fn judged(alloc: Global, items: &[Sent]) -> Result<Vec<Sent>, AllocError>
    ensures { IfOk result (λ found. found.items ≡ judged_behind [] items.now) }
{
    let mut found = Vec::new(alloc);
    for (place, item) in items.iter().enumerate() {
        if is_judged(first(items, place), item) {
            match found.push(*item) {
                Ok(()) => {}
                Err(_) => return Err(AllocError),
            }
        }
    }
    Ok(found)
}
