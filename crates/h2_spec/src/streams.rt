//! Streams: their states, what is counted on them, and their records (RFC 9113, 5.1). Definitions: `specs/Stream.antt`.

ghost use Rattle.std.specs.Prelude.{◌≡◌};
ghost use Rattle.h2_spec.specs.Stream.{is_live};

use crate::flow::{Credit, Window};

/// The states of a stream (RFC 9113, 5.1). Client streams alone have records.
#[derive(Clone, Copy, PartialEq, Eq)]
pub enum StreamState {
    /// Not begun.
    Idle,
    /// Passed over by a request on a higher stream, and so closed.
    Skipped,
    BothOpen,
    /// The peer has ended its side.
    HalfRemote,
    /// The server has ended its side.
    HalfLocal,
    /// Both sides have ended.
    Ended,
    /// The peer has reset it.
    PeerReset,
    /// The server has reset it.
    WeReset,
}

/// Whether a stream in this state is live: open or half-closed, and so counted for the limit of streams (RFC 9113, 5.1.2).
#[inline(always)]
pub fn is_live(kind: StreamState) -> bool
    ensures { result ≡ is_live kind }
{
    match kind {
        StreamState::BothOpen | StreamState::HalfRemote | StreamState::HalfLocal => true,
        StreamState::Idle
        | StreamState::Skipped
        | StreamState::Ended
        | StreamState::PeerReset
        | StreamState::WeReset => false,
    }
}

/// What is counted on a live stream; all 0 and `None` on one that is not live.
#[derive(Clone, Copy)]
pub struct Numbers {
    /// The receive window (RFC 9113, 6.9).
    pub recv: Window,
    /// Octets received that the server has not yet given back by WINDOW_UPDATE.
    pub owed: Credit,
    /// The send window (RFC 9113, 6.9).
    pub send: Window,
    /// Octets of content received; stays at 2^64 - 1 once there.
    pub content_received: u64,
    /// The content-length of the request, if it has one (RFC 9113, 8.1.1).
    pub declared: Option<u64>,
    /// The octets of the answer that wait to be sent, if there are any.
    pub body_remaining: Option<u64>,
}

/// Which answer a request gets.
#[derive(Clone, Copy, PartialEq, Eq)]
pub enum Pick {
    /// The entry of the book at this place, from 0.
    Listed(usize),
    /// None of the book: 404.
    NotFound,
    /// CONNECT, which is not done here: 501.
    Connect,
}

/// The record of a stream.
#[derive(Clone, Copy)]
pub struct Stream {
    /// The stream's identifier: odd, since clients open all streams (RFC 9113, 5.1.1).
    pub id: u32,
    /// Its state (5.1).
    pub kind: StreamState,
    /// Its counts; all 0 and none where it is not live.
    pub numbers: Numbers,
    /// The answer that its request picked.
    pub pick: Pick,
}

/// A stream as it is shown: its record without the answer.
#[derive(Clone, Copy)]
pub struct StreamView {
    /// The stream's identifier.
    pub id: u32,
    /// Its state (RFC 9113, 5.1).
    pub kind: StreamState,
    /// Its counts; all 0 and none where it is not live.
    pub numbers: Numbers,
}
