//! A change is sent: its frames after what is in `out`, what becomes of the records, and what is sent from them then;
//! where memory is refused, nothing (RFC 9113, 5.4). Definitions: h2_spec's `specs/Change.antt`,
//! `specs/SendPending.antt`, and `specs/Sending.antt` here.

ghost use Rattle.std.specs.Prelude.{◌≡◌, ◌<◌, ◌≤◌, ◌^◌, ◌++◌, length, slice_index, pos, ◌-ℤ◌, OnOk, OnErr, take};
ghost use Rattle.h2_spec.specs.Change as changes;
ghost use Rattle.h2_spec.specs.Requests.Answer.{picked};
ghost use Rattle.h2_spec.specs.Frames.Frame.{frame_octets, frames_octets};
ghost use Rattle.h2_spec.specs.Window.{sendable};
ghost use Rattle.h2_conn_send.specs.Sending as sending;
ghost use Rattle.h2_conn_send.specs.Sending.{CanSend, SendsChange};
ghost use Rattle.h2_spec.specs.Short.{AreShort, IsShortFrame};
ghost use Rattle.h2_conn_send.specs.Writes.{Writes, WritesInPart};

use crate::send_pending::{sendable, without};
use crate::send_update::update_and_send;
use crate::write::{write_connection_frame, write_prepared, write_stream_frame};
use h2_frame::{Outgoing, append_frame};
use h2_request_book::book::Book;
use h2_spec::connection::{ConnectionState, Phase};
use h2_spec::frames::HEADERS;
use h2_spec::reactions::{AnswerStart, Change};
use h2_streams::Streams;
use std::alloc::{AllocError, Allocator};

/// Writes the HEADERS of an answer that begins, or nothing.
#[tactic(auto, unfolding(h2_spec::specs::Requests::Answer::response_block))]
#[inline(always)]
fn write_answer<'b, A: Allocator, O: Outgoing<'b, A>>(
    book: &'b Book<A>,
    answer: Option<AnswerStart>,
    out: &mut O,
) -> Result<(), AllocError>
    ensures written { Writes (frames_octets (changes.answer_frames book.now answer)) (O.octets out.old) result (O.octets out.new) }
    ensures short { OnOk result (AreShort (changes.answer_frames book.now answer)) }
{
    match answer {
        None => Ok(()),
        Some(answer) => write_headers(book, answer, out),
    }
}

/// Writes the HEADERS of an answer, or nothing: those that the book has ready, or their field block after a table size
/// update to 0 (RFC 7541, 4.2 and 6.3).
fn write_headers<'b, A: Allocator, O: Outgoing<'b, A>>(
    book: &'b Book<A>,
    answer: AnswerStart,
    out: &mut O,
) -> Result<(), AllocError>
    ensures written { Writes (frame_octets (changes.response answer.size_update_pending answer.id (picked book.now answer.pick)))
        (O.octets out.old) result (O.octets out.new) }
    ensures short { IsShortFrame (changes.response answer.size_update_pending answer.id (picked book.now answer.pick)) }
{
    let headers = book.headers(answer.pick);
    if answer.size_update_pending {
        let block = book.block(answer.pick);
        append_frame(HEADERS, flags_of(headers), answer.id, &[32], block, out)
    } else {
        write_prepared(headers, answer.id, out)
    }
}

/// The flags in the head of a frame (RFC 9113, 4.1).
fn flags_of(frame: &[u8]) -> u8
    requires { 9 ≤ length frame.now }
    ensures { result ≡ slice_index frame.now 4 }
{
    frame[4]
}

/// Writes the frames of a change, whole or in part.
#[tactic(auto, unfolding(h2_spec::specs::Change::frames_of))]
#[inline(always)]
fn write_change<'b, A: Allocator, O: Outgoing<'b, A>>(
    book: &'b Book<A>,
    change: &Change,
    out: &mut O,
) -> Result<(), AllocError>
    ensures written { WritesInPart (frames_octets (changes.frames_of book.now change.now)) (O.octets out.old) result (O.octets out.new) }
    ensures short { OnOk result (AreShort (changes.frames_of book.now change.now)) }
{
    write_connection_frame(change.connection_frame, out)?;
    write_stream_frame(change.stream_frame, out)?;
    write_answer(book, change.answer, out)
}

/// The octets that the connection's window lets pass: none once the connection has ended.
fn open_window(core: &ConnectionState) -> u64
    ensures window { (result ≡ sending.open_window core.now) × (result ≤ sendable core.now.send) }
    ensures few { result ≤ 2147483647 }
{
    match core.phase {
        Phase::Ended(_) => 0,
        Phase::Preface | Phase::Settings | Phase::Running => sendable(core.send),
    }
}

/// The frames of a change, what becomes of the records, and what is sent from them then: whole, or in part and then the
/// records stay. Answers how many octets are sent.
#[inline(always)]
fn write_and_update<'b, A: Allocator + Copy, O: Outgoing<'b, A>>(
    book: &'b Book<A>,
    streams: &mut Streams<A>,
    change: &Change,
    out: &mut O,
) -> Result<u64, AllocError>
    requires frame { (0 < change.now.core.peer.frame) × (change.now.core.peer.frame < 2 ^ 24) }
    requires sends { CanSend book.now streams.old change.now.record_update }
    ensures sends { SendsChange book.now change.now streams.old (O.octets out.old) result streams.new (O.octets out.new) }
    ensures err { OnErr result (streams.new ≡ streams.old) }
    ensures kept { take (length (O.octets out.old)) (O.octets out.new) ≡ O.octets out.old }
{
    write_change(book, change, out)?;
    let window = open_window(&change.core);
    let size = change.core.peer.frame as usize;
    update_and_send(book, streams, change.record_update, size, window, out)
}

/// Writes the frames of a change after what is in `out`, changes the records and sends what they can send then; or changes
/// nothing. Answers how many octets of the connection's window that takes.
#[inline(always)]
pub fn send_and_update<'b, A: Allocator + Copy, O: Outgoing<'b, A>>(
    book: &'b Book<A>,
    streams: &mut Streams<A>,
    change: &Change,
    out: &mut O,
) -> Result<u64, AllocError>
    requires frame { (0 < change.now.core.peer.frame) × (change.now.core.peer.frame < 2 ^ 24) }
    requires sends { CanSend book.now streams.old change.now.record_update }
    ensures sends { SendsChange book.now change.now streams.old (O.octets out.old) result streams.new (O.octets out.new) }
    ensures err { OnErr result ((streams.new ≡ streams.old) × (O.octets out.new ≡ O.octets out.old)) }
{
    let before = out.len();
    match write_and_update(book, streams, change, out) {
        Ok(count) => Ok(count),
        Err(error) => {
            out.keep_first(before);
            Err(error)
        }
    }
}

/// The counts with octets taken from the connection's send window.
pub fn with_sent(core: ConnectionState, count: u64) -> ConnectionState
    requires { count ≤ sendable core.send }
    ensures { result ≡ record core { send = core.send -ℤ pos count } }
{
    ConnectionState {
        send: without(core.send, count),
        ..core
    }
}
