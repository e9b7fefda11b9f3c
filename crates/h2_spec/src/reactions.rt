//! What a rule returns: a connection error, or a small change with at most one frame of each place in the order of
//! sending. Definitions: `specs/Change.antt`.

use crate::causes::Cause;
use crate::connection::ConnectionState;
use crate::ignored::Ignored;
use crate::streams::{Pick, Stream};

/// What becomes of the streams' records.
#[derive(Clone, Copy)]
pub enum RecordUpdate {
    Unchanged,
    /// A record takes the place of the one with its identifier, or goes last.
    Put(Stream),
    /// Send windows move by the difference of these initial windows (RFC 9113, 6.9.2).
    Shift(u32, u32),
    /// Receive windows move by the difference of these initial windows of the server's, the one in force before its
    /// settings were acknowledged and the one after (RFC 9113, 6.5.3 and 6.9.2).
    Receive(u32, u32),
}

/// What is sent first for an item, on the connection.
#[derive(Clone, Copy)]
pub enum ConnectionFrame {
    NoConnectionFrame,
    SettingsAck,
    /// With the octets of the PING that is answered.
    PingAck([u8; 8]),
    /// WINDOW_UPDATE with this increment.
    Credit(u32),
}

/// What is sent next for an item, on a stream.
#[derive(Clone, Copy)]
pub enum StreamFrame {
    NoStreamFrame,
    /// RST_STREAM on this stream, for this cause.
    Reset(u32, Cause),
    /// WINDOW_UPDATE on this stream, with this increment.
    StreamCredit(u32, u32),
}

/// An answer that begins: HEADERS is sent.
#[derive(Clone, Copy)]
pub struct AnswerStart {
    /// The stream's identifier.
    pub id: u32,
    /// The answer.
    pub pick: Pick,
    /// Whether the block begins with a table size update to 0 (RFC 7541, 4.2).
    pub size_update_pending: bool,
}

/// What a rule of one stream returns: its record, what is sent on it, and the answer that begins.
#[derive(Clone, Copy)]
pub struct StreamOutcome {
    /// The record after it.
    pub stream: Stream,
    /// The frame that is sent on the stream, before an answer.
    pub frame: StreamFrame,
    /// The answer that begins on it, if one does.
    pub answer: Option<Pick>,
}

/// What an item changes, and what is sent for it.
#[derive(Clone, Copy)]
pub struct Change {
    /// The counts of the connection after it.
    pub core: ConnectionState,
    /// What becomes of the records of streams.
    pub record_update: RecordUpdate,
    /// The frame that is sent on the connection, before all others.
    pub connection_frame: ConnectionFrame,
    /// The frame that is sent on a stream, after that.
    pub stream_frame: StreamFrame,
    /// The answer whose HEADERS are sent after both, if one begins.
    pub answer: Option<AnswerStart>,
    /// Why the item is ignored, if it is; nothing changes then but what the reason leaves to change.
    pub ignored: Option<Ignored>,
}

/// What an item results in: a connection error, or a change (RFC 9113, 5.4).
#[derive(Clone, Copy)]
pub enum Reaction {
    ConnectionError(Cause),
    Continues(Change),
}

/// How an item was judged: an error for a cause, ignored for a reason, or neither (RFC 9113, 5.4).
#[derive(Clone, Copy)]
pub struct Verdict {
    /// Why it is a connection error or a stream error, if it is one.
    pub cause: Option<Cause>,
    /// Why it is ignored, if it is.
    pub ignored: Option<Ignored>,
}

/// DATA that comes: its octets, those of its content, and whether it ends the peer's side.
#[derive(Clone, Copy)]
pub struct ReceivedData {
    /// The octets of the payload, Pad Length and padding included: those that windows count (RFC 9113, 6.9.1).
    pub octets: u32,
    /// The octets of the body among them: those that content-length counts (8.1.1).
    pub content: u32,
    /// Whether the frame has END_STREAM.
    pub ends: bool,
}

/// What the fields of a block result in: their size, why they make no request, if they don't, what they declare, and
/// the answer that is picked.
#[derive(Clone, Copy)]
pub struct BlockSummary {
    /// The size of its fields in octets, 32 more for each (RFC 9113, 6.5.2); stays at 2^64 - 1 once there.
    pub size: u64,
    /// Why they make no request (8.1.1), if they don't.
    pub malformed: Option<Cause>,
    /// The octets of content that content-length declares, if there is one.
    pub declared: Option<u64>,
    /// The answer that the request picks.
    pub pick: Pick,
}
