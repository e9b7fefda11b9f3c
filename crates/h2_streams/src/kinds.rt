//! What the kind of a stream says (RFC 9113, 5.1). Definitions: its `specs/Stream.antt`, and `is_ready` of
//! `specs/Kept.antt`.

ghost use Rattle.std.specs.Prelude.{◌≡◌, ◌↔◌, IsTrue, true};
ghost use Rattle.h2_spec.specs.Stream as spec;
ghost use Rattle.h2_spec.specs.Requests.StreamEnds as ends;
ghost use Rattle.h2_streams.specs.Brief.{AreBrief, IsBrief, brief};
ghost use Rattle.h2_streams.specs.Kept as kept;
ghost use Rattle.h2_streams.specs.Raised.{can_rise, raised};

use h2_spec::flow::{Credit, Window};
use h2_spec::streams::{Numbers, Pick, Stream, StreamState, is_live};

/// The octets of its answer that a stream still has to send: 0 where it is not live or nothing waits.
#[tactic(auto, unfolding(h2_spec::specs::Stream::octets_waiting))]
#[inline(always)]
pub fn octets_waiting(stream: &Stream) -> u64
    ensures { result ≡ spec.octets_waiting stream.now }
{
    match stream.numbers.body_remaining {
        Some(octets) if is_live(stream.kind) => octets,
        _ => 0,
    }
}

/// Whether the stream can send: it has octets to send, and a send window that lets some of them pass (RFC 9113, 6.9).
#[inline(always)]
pub(crate) fn is_ready(stream: &Stream) -> bool
    ensures { result ≡ kept.is_ready stream.now }
{
    octets_waiting(stream) > 0 && stream.numbers.send.value() > 0
}

/// Raises the stream's send window, which stays at most 2147483647 (RFC 9113, 6.9 and 6.9.1).
#[inline(always)]
pub fn raise(stream: &mut Stream, increment: u32)
    requires { IsTrue (can_rise increment stream.old) }
    ensures { stream.new ≡ raised increment stream.old }
{
    stream.numbers.send = stream.numbers.send.plus(increment);
}

/// A stream that is not live: its identifier and its state alone.
pub fn not_live(id: u32, kind: StreamState) -> Stream
    ensures { result ≡ spec.not_live id kind }
{
    Stream {
        id,
        kind,
        numbers: Numbers {
            recv: Window::start(0),
            owed: Credit::none(),
            send: Window::start(0),
            content_received: 0,
            declared: None,
            body_remaining: None,
        },
        pick: Pick::NotFound,
    }
}

/// Whether nothing is counted.
fn counts_nothing(numbers: &Numbers) -> bool
    ensures { (result ≡ true) ↔ (numbers.now ≡ spec.no_numbers) }
{
    numbers.recv.value() == 0
        && numbers.owed.owed() == 0
        && numbers.send.value() == 0
        && numbers.content_received == 0
        && numbers.declared.is_none()
        && numbers.body_remaining.is_none()
}

/// Whether the record says no more than the stream's identifier and state.
pub(crate) fn is_bare(stream: &Stream) -> bool
    ensures { (result ≡ true) ↔ (stream.now ≡ brief stream.now) }
{
    counts_nothing(&stream.numbers) && stream.pick == Pick::NotFound
}

/// Whether the record is of a live stream, or says no more than the stream's identifier and state.
fn is_brief(stream: &Stream) -> bool
    ensures { (result ≡ true) ↔ IsBrief stream.now }
{
    is_live(stream.kind) || is_bare(stream)
}

/// Whether each of these records is so.
pub(crate) fn are_brief(streams: &[Stream]) -> bool
    ensures { result ≡ true → AreBrief streams.now }
{
    for stream in streams {
        if !is_brief(stream) {
            return false;
        }
    }
    true
}

/// The stream after the peer's last frame.
pub(crate) fn peer_closed(stream: Stream) -> Stream
    ensures { result ≡ spec.peer_closed stream }
{
    match stream.kind {
        StreamState::BothOpen => Stream {
            kind: StreamState::HalfRemote,
            ..stream
        },
        StreamState::HalfLocal => not_live(stream.id, StreamState::Ended),
        StreamState::Idle
        | StreamState::Skipped
        | StreamState::HalfRemote
        | StreamState::Ended
        | StreamState::PeerReset
        | StreamState::WeReset => stream,
    }
}

/// The stream after the server's last frame: nothing waits any more, and it ends where the peer's side has ended (RFC
/// 9113, 5.1).
#[tactic(auto, unfolding(h2_spec::specs::Requests::StreamEnds::server_ended))]
pub fn server_ended(stream: Stream) -> Stream
    ensures value { result ≡ ends.server_ended stream }
    ensures id { result.id ≡ stream.id }
{
    match stream.kind {
        StreamState::BothOpen => {
            let numbers = Numbers {
                body_remaining: None,
                ..stream.numbers
            };
            Stream {
                kind: StreamState::HalfLocal,
                numbers,
                ..stream
            }
        }
        StreamState::HalfRemote => not_live(stream.id, StreamState::Ended),
        StreamState::Idle
        | StreamState::Skipped
        | StreamState::HalfLocal
        | StreamState::Ended
        | StreamState::PeerReset
        | StreamState::WeReset => stream,
    }
}

/// The state after RST_STREAM, from the peer or from the server.
pub(crate) fn reset_kind(by_peer: bool) -> StreamState
    ensures { result ≡ spec.reset_kind by_peer }
{
    if by_peer {
        StreamState::PeerReset
    } else {
        StreamState::WeReset
    }
}
