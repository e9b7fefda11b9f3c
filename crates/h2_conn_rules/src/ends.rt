//! How the sides of a stream end, and how its answer begins (RFC 9113, 5.1 and 8.1). Definition: h2_spec's
//! `specs/Requests/StreamEnds.antt`.

ghost use Rattle.std.specs.Prelude.{◌≡◌, ℕ, ◌≤◌, true, List, length};
ghost use Rattle.h2_spec.specs.Requests.StreamEnds as rule;
ghost use Rattle.h2_spec.specs.Data as data_rule;
ghost use Rattle.h2_spec.specs.Requests.Answer.{Entry, picked};
ghost use Rattle.h2_conn_rules.specs.Sound.{HasBody, InForce, IsSoundStream, is_recorded};

use crate::change::outcome_without_frame;
use h2_spec::causes::Cause;
use h2_spec::reactions::{StreamFrame, StreamOutcome};
use h2_spec::streams::{Numbers, Stream, StreamState};
use h2_streams::not_live;

/// The stream after the server's last frame.
#[tactic(auto, unfolding(h2_spec::specs::Requests::StreamEnds::server_ended, h2_spec::specs::Stream::octets_waiting))]
pub fn server_ended(stream: Stream) -> Stream
    ensures rule { result ≡ rule.server_ended stream }
    ensures id { result.id ≡ stream.id }
    ensures sound { (f : InForce) → f.window ≤ 2147483647 → IsSoundStream f stream → IsSoundStream f result }
    ensures waits { (book : List Entry) → HasBody book stream → HasBody book result }
    ensures recorded { is_recorded stream.kind ≡ true → is_recorded result.kind ≡ true }
{
    h2_streams::server_ended(stream)
}

/// With this many octets of the answer left.
#[tactic(auto, unfolding(h2_spec::specs::Stream::octets_waiting))]
pub fn with_body_remaining(stream: Stream, left: u64) -> Stream
    ensures rule { result ≡ rule.with_body_remaining stream left }
    ensures id { result.id ≡ stream.id }
    ensures sound { (f : InForce) → IsSoundStream f stream → IsSoundStream f result }
    ensures waits { (book : List Entry) → HasBody book stream → left ≤ length (picked book stream.pick).body → HasBody book result }
    ensures recorded { is_recorded stream.kind ≡ true → is_recorded result.kind ≡ true }
{
    let numbers = Numbers {
        body_remaining: Some(left),
        ..stream.numbers
    };
    Stream { numbers, ..stream }
}

/// The stream as its answer begins, with the length of the answer's body.
#[tactic(auto, unfolding(h2_spec::specs::Requests::StreamEnds::begun))]
fn begun(body: u64, stream: Stream) -> Stream
    ensures rule { result ≡ rule.begun body stream }
    ensures id { result.id ≡ stream.id }
    ensures sound { (f : InForce) → f.window ≤ 2147483647 → IsSoundStream f stream → IsSoundStream f result }
    ensures waits { (book : List Entry) → body ≡ length (picked book stream.pick).body → HasBody book stream → HasBody book result }
    ensures recorded { is_recorded stream.kind ≡ true → is_recorded result.kind ≡ true }
{
    if body == 0 {
        server_ended(stream)
    } else {
        with_body_remaining(stream, body)
    }
}

/// The answer begins, `body` being the length of its body in octets.
#[tactic(auto, unfolding(h2_spec::specs::Requests::StreamEnds::answered))]
pub fn answered(body: u64, stream: Stream) -> StreamOutcome
    ensures rule { result ≡ rule.answered body stream }
    ensures id { result.stream.id ≡ stream.id }
    ensures sound { (f : InForce) → f.window ≤ 2147483647 → IsSoundStream f stream → IsSoundStream f result.stream }
    ensures waits { (book : List Entry) → body ≡ length (picked book stream.pick).body → HasBody book stream → HasBody book result.stream }
    ensures recorded { is_recorded stream.kind ≡ true → is_recorded result.stream.kind ≡ true }
{
    let pick = stream.pick;
    StreamOutcome {
        stream: begun(body, stream),
        frame: StreamFrame::NoStreamFrame,
        answer: Some(pick),
    }
}

/// The peer's side ends: what was open is answered, with this length of the answer's body, unless that has begun.
#[tactic(auto, unfolding(h2_spec::specs::Requests::StreamEnds::peer_ended, h2_spec::specs::Stream::octets_waiting))]
pub fn peer_ended(body: u64, stream: Stream) -> StreamOutcome
    ensures rule { result ≡ rule.peer_ended body stream }
    ensures id { result.stream.id ≡ stream.id }
    ensures sound { (f : InForce) → f.window ≤ 2147483647 → IsSoundStream f stream → IsSoundStream f result.stream }
    ensures waits { (book : List Entry) → body ≡ length (picked book stream.pick).body → HasBody book stream → HasBody book result.stream }
    ensures recorded { is_recorded stream.kind ≡ true → is_recorded result.stream.kind ≡ true }
{
    match stream.kind {
        StreamState::BothOpen => {
            let half = Stream {
                kind: StreamState::HalfRemote,
                ..stream
            };
            if stream.numbers.body_remaining.is_some() {
                outcome_without_frame(half)
            } else {
                answered(body, half)
            }
        }
        StreamState::HalfLocal => { outcome_without_frame(not_live(stream.id, StreamState::Ended)) }
        StreamState::Idle
        | StreamState::Skipped
        | StreamState::HalfRemote
        | StreamState::Ended
        | StreamState::PeerReset
        | StreamState::WeReset => outcome_without_frame(stream),
    }
}

/// Why the content does not fit what was declared (RFC 9113, 8.1.1).
pub fn length_broken(declared: Option<u64>, content_received: u64, ends: bool) -> Option<Cause>
    ensures { result ≡ data_rule.length_broken declared content_received ends }
{
    let count = declared?;
    if count < content_received {
        return Some(Cause::ContentTooLong);
    }
    if ends && content_received != count {
        return Some(Cause::ContentTooShort);
    }
    None
}
