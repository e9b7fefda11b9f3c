//! What becomes of the records, and what is sent from them then (RFC 9113, 5.2 and 6.9): each whole, or else the
//! records are as they were. Definitions: `specs/Sending.antt`, over h2_spec's `specs/Change.antt`.

ghost use Rattle.std.specs.Prelude.{◌≡◌, ◌<◌, ◌≤◌, ◌^◌};
ghost use Rattle.std.specs.List.{AllByRecursion};
ghost use Rattle.h2_spec.specs.Change as changes;
ghost use Rattle.h2_spec.specs.Stream.{put, with_record};
ghost use Rattle.h2_conn_send.specs.Moves.{move_of};
ghost use Rattle.h2_conn_send.specs.Sending.{CanApply, CanSend, CanUndo, NoneSends, Sends};
ghost use Rattle.h2_conn_rules.specs.Sound.{HasBody, updated_records};
ghost use Rattle.h2_streams.specs.Put.{CanPut};

use crate::send_pending::{after_sending, none_sends, send_ready, write_next};
use h2_frame::Outgoing;
use h2_request_book::book::Book;
use h2_spec::reactions::RecordUpdate;
use h2_spec::streams::Stream;
use h2_streams::{Streams, octets_waiting};
use std::alloc::{AllocError, Allocator};

/// The records change, and their pending output is then sent, as far as this much of the connection's window goes: the
/// frames are written whole, or in part and then the records stay. Answers how many octets are sent.
#[inline(always)]
pub fn update_and_send<'b, A: Allocator + Copy, O: Outgoing<'b, A>>(
    book: &'b Book<A>,
    streams: &mut Streams<A>,
    record_update: RecordUpdate,
    size: usize,
    window: u64,
    out: &mut O,
) -> Result<u64, AllocError>
    requires size { (0 < size) × (size < 2 ^ 24) }
    requires few { window ≤ 2147483647 }
    requires sends { CanSend book.now streams.old record_update }
    ensures { Sends book.now size window streams.old (updated_records record_update streams.old)
        (O.octets out.old) result streams.new (O.octets out.new) }
{
    match record_update {
        RecordUpdate::Unchanged => send_ready(book, streams, size, window, out),
        RecordUpdate::Put(stream) => put_and_send(book, streams, stream, size, window, out),
        RecordUpdate::Shift(from, to) => {
            let windows = Windows::Send;
            move_and_send(book, streams, windows, (from, to), size, window, out)
        }
        RecordUpdate::Receive(from, to) => {
            let windows = Windows::Receive;
            move_and_send(book, streams, windows, (from, to), size, window, out)
        }
    }
}

// After an item no stream can send, or the connection's window is used up. So where a record is put its
// stream alone can send; that is asked (`none_ready`), not kept as an invariant.
/// A record is put, and the pending output is then sent: nothing where no stream can send, and none of this one waits.
#[inline(always)]
fn put_and_send<'b, A: Allocator + Copy, O: Outgoing<'b, A>>(
    book: &'b Book<A>,
    streams: &mut Streams<A>,
    stream: Stream,
    size: usize,
    window: u64,
    out: &mut O,
) -> Result<u64, AllocError>
    requires size { (0 < size) × (size < 2 ^ 24) }
    requires few { window ≤ 2147483647 }
    requires made { CanPut stream streams.old }
    requires bodies { AllByRecursion (HasBody book.now) (put stream streams.old.streams) }
    ensures { Sends book.now size window streams.old (with_record stream streams.old) (O.octets out.old) result streams.new (O.octets out.new) }
{
    if !none_sends(streams, window) {
        return put_among(book, streams, stream, size, window, out);
    }
    if octets_waiting(&stream) > 0 {
        return put_alone(book, streams, &stream, size, window, out);
    }
    streams.put(stream)?;
    Ok(0)
}

/// A record is put where no other stream can send: its stream alone sends, and its record is put once, as it is then.
#[inline(always)]
fn put_alone<'b, A: Allocator + Copy, O: Outgoing<'b, A>>(
    book: &'b Book<A>,
    streams: &mut Streams<A>,
    stream: &Stream,
    size: usize,
    window: u64,
    out: &mut O,
) -> Result<u64, AllocError>
    requires size { (0 < size) × (size < 2 ^ 24) }
    requires few { window ≤ 2147483647 }
    requires made { CanPut stream.now streams.old }
    requires body { HasBody book.now stream.now }
    requires alone { NoneSends window streams.old.streams }
    ensures { Sends book.now size window streams.old (with_record stream.now streams.old)
        (O.octets out.old) result streams.new (O.octets out.new) }
{
    let allowance = write_next(book, stream, size, window, out)?;
    streams.put(after_sending(allowance, stream))?;
    Ok(allowance)
}

/// A record is put where other streams can send too. No item leads here: after each, no stream can send or the
/// connection's window is used up, and no rule both puts a record and opens that window. So the records may be copied.
#[inline(never)]
fn put_among<'b, A: Allocator + Copy, O: Outgoing<'b, A>>(
    book: &'b Book<A>,
    streams: &mut Streams<A>,
    stream: Stream,
    size: usize,
    window: u64,
    out: &mut O,
) -> Result<u64, AllocError>
    requires size { (0 < size) × (size < 2 ^ 24) }
    requires few { window ≤ 2147483647 }
    requires made { CanPut stream streams.old }
    requires bodies { AllByRecursion (HasBody book.now) (put stream streams.old.streams) }
    ensures { Sends book.now size window streams.old (with_record stream streams.old) (O.octets out.old) result streams.new (O.octets out.new) }
{
    let mut after = streams.try_clone()?;
    after.put(stream)?;
    let count = send_ready(book, &mut after, size, window, out)?;
    *streams = after;
    Ok(count)
}

/// Which windows of the streams move.
#[derive(Clone, Copy)]
enum Windows {
    Send,
    Receive,
}

/// These windows move, as the initial one goes from one value to another, and the pending output is then sent; where
/// memory is refused they move back (RFC 9113, 6.5.3 and 6.9.2).
#[inline(never)]
fn move_and_send<'b, A: Allocator, O: Outgoing<'b, A>>(
    book: &'b Book<A>,
    streams: &mut Streams<A>,
    windows: Windows,
    initial: (u32, u32),
    size: usize,
    window: u64,
    out: &mut O,
) -> Result<u64, AllocError>
    requires size { (0 < size) × (size < 2 ^ 24) }
    requires few { window ≤ 2147483647 }
    requires made { CanApply streams.old (move_of windows initial.0 initial.1) }
    requires undone { CanUndo streams.old (move_of windows initial.0 initial.1) }
    requires bodies { AllByRecursion (HasBody book.now) (changes.updated_streams (move_of windows initial.0 initial.1) streams.old.streams) }
    ensures { Sends book.now size window streams.old (updated_records (move_of windows initial.0 initial.1) streams.old)
        (O.octets out.old) result streams.new (O.octets out.new) }
{
    let (from, to) = initial;
    move_windows(streams, windows, from, to);
    match send_ready(book, streams, size, window, out) {
        Ok(count) => Ok(count),
        Err(error) => {
            move_windows(streams, windows, to, from);
            Err(error)
        }
    }
}

/// Moves these windows, as the initial one goes from one value to another (RFC 9113, 6.9.2).
fn move_windows<A: Allocator>(streams: &mut Streams<A>, windows: Windows, from: u32, to: u32)
    requires { CanApply streams.old (move_of windows from to) }
    ensures { streams.new ≡ updated_records (move_of windows from to) streams.old }
{
    let difference = i64::from(to) - i64::from(from);
    match windows {
        Windows::Send => streams.move_send(difference),
        Windows::Receive => streams.shift_recv(difference),
    }
}
