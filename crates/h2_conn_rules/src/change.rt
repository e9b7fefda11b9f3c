//! Changes, and what a rule of one stream adds to them (RFC 9113, 5.4). Definition: `specs/Change.antt` there.

ghost use Rattle.std.specs.Prelude.{◌≡◌, ℕ, true, List, max};
ghost use Rattle.h2_spec.specs.Change as changes;
ghost use Rattle.h2_spec.specs.Effect as effect;
ghost use Rattle.h2_spec.specs.Stream.{Records};
ghost use Rattle.h2_streams.specs.Put.{CanPut};
ghost use Rattle.h2_spec.specs.declared.connection.ConnectionState.{ConnectionState};
ghost use Rattle.h2_spec.specs.Requests.Answer.{Entry};
ghost use Rattle.h2_conn_rules.specs.Sound.{HasBody, InForce, IsCalm, IsSoundChange, IsSoundStream, in_force, is_recorded};

use h2_spec::causes::Cause;
use h2_spec::connection::ConnectionState;
use h2_spec::flow::Settings;
use h2_spec::ignored::Ignored;
use h2_spec::reactions::{
    AnswerStart, Change, ConnectionFrame, RecordUpdate, StreamFrame, StreamOutcome, Verdict,
};
use h2_spec::streams::{Pick, Stream, StreamState};
use h2_streams::not_live;

/// The stream's record, with nothing sent.
pub fn outcome_without_frame(stream: Stream) -> StreamOutcome
    ensures rule { result ≡ changes.outcome_without_frame stream }
    ensures id { result.stream.id ≡ stream.id }
    ensures recorded { is_recorded stream.kind ≡ true → is_recorded result.stream.kind ≡ true }
{
    StreamOutcome {
        stream,
        frame: StreamFrame::NoStreamFrame,
        answer: None,
    }
}

/// A stream error (RFC 9113, 5.4.2): RST_STREAM with this code is sent, and the stream is one that the server has reset.
#[tactic(auto, unfolding(h2_spec::specs::Stream::octets_waiting))]
pub fn stream_error(id: u32, cause: Cause) -> StreamOutcome
    ensures rule { result ≡ changes.stream_error id cause }
    ensures id { result.stream.id ≡ id }
    ensures sound { (f : InForce) → IsSoundStream f result.stream }
    ensures waits { (book : List Entry) → HasBody book result.stream }
    ensures recorded { is_recorded result.stream.kind ≡ true }
{
    StreamOutcome {
        stream: not_live(id, StreamState::WeReset),
        frame: StreamFrame::Reset(id, cause),
        answer: None,
    }
}

/// Nothing but the counts changes, and nothing is sent.
pub fn only_counts(core: ConnectionState) -> Change
    ensures { result ≡ changes.only_counts core }
{
    Change {
        core,
        record_update: RecordUpdate::Unchanged,
        connection_frame: ConnectionFrame::NoConnectionFrame,
        stream_frame: StreamFrame::NoStreamFrame,
        answer: None,
        ignored: None,
    }
}

/// What changes for an item that is ignored for this reason.
pub fn ignoring(reason: Ignored, change: Change) -> Change
    ensures { result ≡ changes.ignoring reason change }
{
    Change {
        ignored: Some(reason),
        ..change
    }
}

/// The answer that begins on a stream, if one does. Where a table size update is pending, its block begins with it (RFC
/// 7541, 4.2).
fn answer_begun(size_update_pending: bool, id: u32, answer: Option<Pick>) -> Option<AnswerStart>
    ensures { result ≡ changes.answer_begun size_update_pending id answer }
{
    match answer {
        None => None,
        Some(pick) => Some(AnswerStart {
            id,
            pick,
            size_update_pending,
        }),
    }
}

/// Whether a table size update is still pending after the answer that begins, if one does.
fn still_pending(size_update_pending: bool, answer: Option<Pick>) -> bool
    ensures { result ≡ changes.still_pending size_update_pending answer }
{
    match answer {
        None => size_update_pending,
        Some(_) => false,
    }
}

/// A change, and then what a rule does to one stream.
#[tactic(auto, unfolding(h2_spec::specs::Change::with_outcome))]
pub fn with_outcome(change: Change, outcome: StreamOutcome) -> Change
    ensures rule { result ≡ changes.with_outcome change outcome }
    ensures sound { (book : List Entry) (r : Records) (core : ConnectionState) → IsCalm core change → core.last ≡ max r.last outcome.stream.id
        → IsSoundStream (in_force core) outcome.stream → HasBody book outcome.stream → CanPut outcome.stream r → is_recorded outcome.stream.kind ≡ true
        → IsSoundChange book r (in_force core) result }
{
    let core = change.core;
    let pending = core.peer.size_update_pending;
    let peer = Settings {
        size_update_pending: still_pending(pending, outcome.answer),
        ..core.peer
    };
    Change {
        core: ConnectionState { peer, ..core },
        record_update: RecordUpdate::Put(outcome.stream),
        connection_frame: change.connection_frame,
        stream_frame: outcome.frame,
        answer: answer_begun(pending, outcome.stream.id, outcome.answer),
        ignored: None,
    }
}

/// How an item is judged that results in this change.
#[inline(always)]
pub fn verdict_of(change: &Change) -> Verdict
    ensures { result ≡ record { cause = effect.stream_cause change.now.stream_frame; ignored = change.now.ignored } }
{
    Verdict {
        cause: stream_cause(change.stream_frame),
        ignored: change.ignored,
    }
}

/// The cause of a stream error, where one is sent.
#[inline(always)]
fn stream_cause(frame: StreamFrame) -> Option<Cause>
    ensures { result ≡ effect.stream_cause frame }
{
    match frame {
        StreamFrame::Reset(_, cause) => Some(cause),
        StreamFrame::NoStreamFrame | StreamFrame::StreamCredit(_, _) => None,
    }
}
