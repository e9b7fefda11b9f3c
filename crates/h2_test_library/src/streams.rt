//! Records of streams (RFC 9113, 5.1).

use crate::same::same;
use h2_spec::flow::{Credit, Window};
use h2_streams::{Numbers, Pick, StreamState, Streams};
use std::alloc::{AllocError, Global};
use std::process::Abort;

/// The numbers of a stream that has just been opened.
fn numbers() -> Numbers {
    Numbers {
        recv: Window::start(65_535),
        owed: Credit::none(),
        send: Window::start(65_535),
        content_received: 0,
        declared: None,
        body_remaining: None,
    }
}

/// The numbers of a stream whose answer has 4 octets to send.
fn answered() -> Numbers {
    Numbers {
        body_remaining: Some(4),
        ..numbers()
    }
}

/// Opens a stream 5, and a stream 7 that the server resets at once.
fn open_and_reset(rt: &impl Abort, streams: &mut Streams<Global>) -> Result<(), AllocError> {
    assert!(rt; streams.last() < 5);
    streams.open_stream(5, numbers(), Pick::NotFound, false)?;
    assert!(rt; streams.last() < 7);
    streams.open_reset(7)
}

/// The last stream, how many are live, and whether the streams 3, 5, 7 and 9 are skipped, open, reset and idle. No clause
/// says it, so that the proof of a test does not carry the records.
fn state(streams: &Streams<Global>) -> (u32, usize, [bool; 4]) {
    let states = [
        matches!(streams.kind(3), StreamState::Skipped),
        matches!(streams.kind(5), StreamState::BothOpen),
        matches!(streams.kind(7), StreamState::WeReset),
        matches!(streams.kind(9), StreamState::Idle),
    ];
    (streams.last(), streams.live_count(), states)
}

/// Stream 5 gets other numbers, and ends on both sides. No clause says it.
fn end(rt: &impl Abort, streams: &mut Streams<Global>) {
    match streams.kind(5) {
        StreamState::BothOpen => streams.set(5, answered()),
        _ => assert!(rt; false),
    }
    same(rt, &streams.next_waiting(0), &Some(5), &"an answer waits");
    match streams.kind(5) {
        StreamState::BothOpen => streams.end_remote(5),
        _ => assert!(rt; false),
    }
    match streams.kind(5) {
        StreamState::HalfRemote => streams.end_local(5),
        _ => assert!(rt; false),
    }
}

/// Opens a stream 9, which the peer resets. No clause says it.
fn open_to_reset(rt: &impl Abort, streams: &mut Streams<Global>) -> Result<(), AllocError> {
    assert!(rt; streams.last() < 9);
    streams.open_stream(9, numbers(), Pick::NotFound, false)?;
    match streams.kind(9) {
        StreamState::BothOpen => streams.reset(9, true),
        _ => assert!(rt; false),
    }
    Ok(())
}

/// The streams that have ended: 5, which ended on both sides, and 9, which the peer reset. No clause says it.
fn ended(streams: &Streams<Global>) -> (usize, [bool; 2]) {
    let states = [
        matches!(streams.kind(5), StreamState::Ended),
        matches!(streams.kind(9), StreamState::PeerReset),
    ];
    (streams.live_count(), states)
}

/// Whether the send windows of no streams move.
fn moved(alloc: Global) -> bool {
    let mut streams = Streams::new(alloc);
    streams.shift_send(10).is_ok()
}

#[test]
fn streams_are_opened_and_ended(rt: HostRuntime) {
    let mut streams = Streams::new(rt.alloc());
    let opened = open_and_reset(&rt, &mut streams);
    same(&rt, &opened, &Ok(()), &"memory for the records");
    same(&rt, &state(&streams), &(7, 1, [true; 4]), &"two records");
    end(&rt, &mut streams);
    let reset = open_to_reset(&rt, &mut streams);
    same(&rt, &reset, &Ok(()), &"memory for one more");
    same(&rt, &ended(&streams), &(0, [true; 2]), &"both have ended");
    assert!(rt; moved(rt.alloc()));
}
