//! What a change of an initial window does to the windows of streams: the peer's moves the send windows, the server's
//! own the receive windows (RFC 9113, 6.9.2). Definitions: `specs/Shift.antt`, over `h2_spec/specs/Change.antt`.

ghost use Rattle.std.specs.Prelude.{◌≡◌};
ghost use Rattle.indexmap.specs.IndexMap.{values};
ghost use Rattle.h2_spec.specs.Change as changes;
ghost use Rattle.h2_streams.specs.Shift as shift;

use crate::lookup::hash::IdHash;
use h2_spec::flow::Window;
use h2_spec::streams::{Stream, StreamState, is_live};
use indexmap::IndexMap;
use std::alloc::Allocator;

/// The least window.
const LEAST_WINDOW: i64 = -2_147_483_648;

/// Whose initial window changes, and so which windows move.
#[derive(Clone, Copy)]
pub(crate) enum InitialWindow {
    /// The peer's: send windows move.
    Peer,
    /// The server's own: receive windows move.
    Own,
}

/// Whether settings move the send window of the stream.
pub(crate) fn follows_initial_window(kind: StreamState) -> bool
    ensures { result ≡ changes.follows_initial_window kind }
{
    match kind {
        StreamState::BothOpen | StreamState::HalfRemote => true,
        StreamState::Idle
        | StreamState::Skipped
        | StreamState::HalfLocal
        | StreamState::Ended
        | StreamState::PeerReset
        | StreamState::WeReset => false,
    }
}

/// The window moved by `delta`, or `None` where it would leave its range.
fn moved_window(window: Window, delta: i64) -> Option<Window>
    ensures { result ≡ shift.moved_window delta window }
{
    if delta < LEAST_WINDOW - i64::from(window.value()) {
        return None;
    }
    let mut moved = window;
    match moved.shift(delta) {
        Ok(()) => Some(moved),
        Err(_) => None,
    }
}

/// Moves the send window of the stream by `delta`, where settings move it and it stays in its range.
fn move_send(stream: &mut Stream, delta: i64)
    ensures { stream.new ≡ shift.moved_or_same delta stream.old }
{
    if !follows_initial_window(stream.kind) {
        return;
    }
    if let Some(send) = moved_window(stream.numbers.send, delta) {
        stream.numbers.send = send;
    }
}

/// Moves the receive window of a live stream by `delta`, where it stays in its range.
fn move_recv(stream: &mut Stream, delta: i64)
    ensures { stream.new ≡ shift.received_or_same delta stream.old }
{
    if !is_live(stream.kind) {
        return;
    }
    if let Some(recv) = moved_window(stream.numbers.recv, delta) {
        stream.numbers.recv = recv;
    }
}

/// Moves the window of the stream that the change is of.
fn move_one(stream: &mut Stream, of: InitialWindow, delta: i64)
    ensures { stream.new ≡ shift.moved_as of delta stream.old }
{
    match of {
        InitialWindow::Peer => move_send(stream, delta),
        InitialWindow::Own => move_recv(stream, delta),
    }
}

/// Moves the window of the record at this place, where there is one and it can be moved.
fn move_at<A: Allocator>(records: &mut Vec<Stream, A>, place: usize, of: InitialWindow, delta: i64)
    ensures { records.new.items ≡ shift.update (shift.moved_as of delta) place records.old.items }
{
    if place < records.len() {
        move_one(&mut records[place], of, delta);
    }
}

/// Moves the windows of the streams in the map.
pub(crate) fn move_each<A: Allocator>(
    records: &mut Vec<Stream, A>,
    live: &IndexMap<u32, usize, IdHash, A>,
    of: InitialWindow,
    delta: i64,
)
    ensures { records.new.items ≡ shift.update_each (shift.moved_as of delta) (values live.now) records.old.items }
{
    for place in live.values() {
        move_at(records, *place, of, delta);
    }
}
