//! The rule for DATA (RFC 9113, 6.1 and 6.9). Definitions: h2_spec's `specs/Data.antt`, and `on_data` of
//! `specs/Effect.antt`.

ghost use Rattle.std.specs.Prelude.{◌≡◌, ℕ, ◌<◌, ◌≤◌, true, false, List, length, pos, ◌≤ℤ◌, ◌&&◌, nat_lt, int_lt};
ghost use Rattle.h2_spec.specs.Requests.Answer.{Entry, picked};
ghost use Rattle.h2_spec.specs.Data as rule;
ghost use Rattle.h2_spec.specs.Effect as effect;
ghost use Rattle.h2_spec.specs.Stream.{Records, is_live, is_peer_open, stream_at};
ghost use Rattle.h2_conn_rules.specs.Plain.{only_takes};
ghost use Rattle.h2_conn_rules.specs.Sound.{HasBody, InForce, IsCalm, IsCredit, IsSound, IsSoundAt, IsSoundConnectionState, IsSoundStream, IsWindow, in_force, is_recorded};

use crate::change::{ignoring, only_counts, outcome_without_frame, stream_error, with_outcome};
use crate::ends::{length_broken, peer_ended};
use h2_spec::causes::Cause;
use h2_spec::connection::{Config, ConnectionState};
use h2_spec::flow::Window;
use h2_spec::ignored::Ignored;
use h2_spec::reactions::{
    Change, ConnectionFrame, Reaction, ReceivedData, StreamFrame, StreamOutcome,
};
use h2_spec::streams::{Numbers, Stream, StreamState};

/// Octets of DATA are counted on the connection, and given back once they reach the threshold.
#[tactic(auto, unfolding(h2_spec::specs::Data::counted, h2_spec::specs::Data::owed_on_connection))]
fn counted(threshold: u32, core: ConnectionState, count: u32) -> Change
    requires core { IsSoundConnectionState core }
    requires within { pos count ≤ℤ core.recv }
    ensures rule { result ≡ rule.counted threshold core count }
    ensures calm { IsCalm core result }
{
    let recv = core.recv.minus(count);
    let mut owed = core.owed;
    match owed.owe(count, threshold) {
        None => only_counts(ConnectionState { recv, owed, ..core }),
        Some(credit) => Change {
            connection_frame: ConnectionFrame::Credit(credit),
            ..only_counts(ConnectionState {
                recv: recv.plus(credit),
                owed,
                ..core
            })
        },
    }
}

/// What is owed on the stream is given back once it reaches the threshold.
#[tactic(auto, unfolding(h2_spec::specs::Data::returned, h2_spec::specs::Stream::octets_waiting))]
fn returned(threshold: u32, stream: Stream) -> StreamOutcome
    requires credit { IsCredit stream.numbers.recv stream.numbers.owed }
    ensures rule { result ≡ rule.returned threshold stream }
    ensures id { result.stream.id ≡ stream.id }
    ensures sound { (f : InForce) → f.window ≤ 2147483647 → IsSoundStream f stream → IsSoundStream f result.stream }
    ensures waits { (book : List Entry) → HasBody book stream → HasBody book result.stream }
    ensures recorded { is_recorded stream.kind ≡ true → is_recorded result.stream.kind ≡ true }
{
    let numbers = stream.numbers;
    let mut owed = numbers.owed;
    match owed.owe(0, threshold) {
        None => outcome_without_frame(stream),
        Some(credit) => {
            let recv = numbers.recv.plus(credit);
            let numbers = Numbers {
                recv,
                owed,
                ..numbers
            };
            StreamOutcome {
                frame: StreamFrame::StreamCredit(stream.id, credit),
                ..outcome_without_frame(Stream { numbers, ..stream })
            }
        }
    }
}

/// The content that a stream has received with more of it: as far as 64 bits go, which is far above what can be declared.
fn content_with(stream: &Stream, incoming: ReceivedData) -> u64
    ensures { result ≡ rule.content_with stream.now.numbers.content_received incoming.content }
{
    let received = stream.numbers.content_received;
    received.saturating_add(u64::from(incoming.content))
}

/// The stream has taken the octets.
#[tactic(auto, unfolding(h2_spec::specs::Data::taken, h2_spec::specs::Stream::octets_waiting))]
fn taken(stream: Stream, incoming: ReceivedData) -> Stream
    requires recv { 0 < incoming.octets → pos incoming.octets ≤ℤ stream.numbers.recv }
    requires credit { IsCredit stream.numbers.recv stream.numbers.owed }
    requires least { IsWindow stream.numbers.recv }
    ensures rule { result ≡ rule.taken stream incoming }
    ensures id { result.id ≡ stream.id }
    ensures sound { (f : InForce) → IsSoundStream f stream → IsSoundStream f result }
    ensures waits { (book : List Entry) → HasBody book stream → HasBody book result }
    ensures recorded { is_recorded stream.kind ≡ true → is_recorded result.kind ≡ true }
{
    let numbers = stream.numbers;
    let numbers = Numbers {
        recv: numbers.recv.minus(incoming.octets),
        owed: numbers.owed.plus(incoming.octets),
        content_received: content_with(&stream, incoming),
        ..numbers
    };
    Stream { numbers, ..stream }
}

/// Whether there are octets, and the window holds fewer than these.
fn exceeds(window: Window, octets: u32) -> bool
    ensures { result ≡ (nat_lt 0 octets && int_lt window (pos octets)) }
{
    0 < octets && window.is_below(octets)
}

/// DATA on a stream whose peer's side is open: the threshold, and the length of the answer's body.
#[tactic(auto, unfolding(h2_spec::specs::Data::data_outcome))]
fn data_outcome(threshold: u32, body: u64, incoming: ReceivedData, stream: Stream) -> StreamOutcome
    requires credit { IsCredit stream.numbers.recv stream.numbers.owed }
    requires least { IsWindow stream.numbers.recv }
    ensures rule { result ≡ rule.data_outcome threshold body incoming stream }
    ensures id { result.stream.id ≡ stream.id }
    ensures sound { (f : InForce) → f.window ≤ 2147483647 → IsSoundStream f stream → IsSoundStream f result.stream }
    ensures waits { (book : List Entry) → body ≡ length (picked book stream.pick).body → HasBody book stream → HasBody book result.stream }
    ensures recorded { is_recorded stream.kind ≡ true → is_recorded result.stream.kind ≡ true }
{
    let numbers = stream.numbers;
    if exceeds(numbers.recv, incoming.octets) {
        return stream_error(stream.id, Cause::StreamWindowExceeded);
    }
    let content_received = content_with(&stream, incoming);
    if let Some(cause) = length_broken(numbers.declared, content_received, incoming.ends) {
        return stream_error(stream.id, cause);
    }
    let after = taken(stream, incoming);
    if incoming.ends {
        peer_ended(body, after)
    } else {
        returned(threshold, after)
    }
}

/// DATA on a stream (RFC 9113, 5.1, 5.2, 6.1 and 6.9); `body` is the length of the body of the stream's answer, in octets.
///
/// All octets of the payload count, padding included.
///
/// # Errors
///
/// - On an idle stream: connection error PROTOCOL_ERROR. On one that was skipped, has ended, or was reset by the peer:
///   connection error STREAM_CLOSED.
/// - Above the connection's receive window: connection error FLOW_CONTROL_ERROR.
/// - On a stream whose peer's side has ended: stream error STREAM_CLOSED. The octets count on the connection.
/// - Above the stream's receive window: stream error FLOW_CONTROL_ERROR. DATA without octets never is, also where the
///   server's settings have made the window negative (6.9.2).
/// - More content than `content-length` declared, or less at END_STREAM: stream error PROTOCOL_ERROR (8.1.1).
///
/// On a stream that the server has reset it is ignored, but that the octets count on the connection.
#[inline(always)]
#[tactic(auto, unfolding(h2_spec::specs::Effect::on_data))]
pub fn on_data(
    config: Config,
    core: ConnectionState,
    body: u64,
    incoming: ReceivedData,
    stream: Stream,
) -> Reaction
    requires core { IsSoundConnectionState core }
    requires stream { IsSoundStream (in_force core) stream }
    ensures rule { result ≡ effect.on_data config core body incoming stream }
    ensures sound { (book : List Entry) (r : Records) → body ≡ length (picked book stream.pick).body → IsSoundAt book r core stream result }
{
    match stream.kind {
        StreamState::Idle => Reaction::ConnectionError(Cause::DataOnIdle),
        StreamState::Skipped => Reaction::ConnectionError(Cause::DataOnSkipped),
        StreamState::Ended | StreamState::PeerReset => {
            Reaction::ConnectionError(Cause::DataOnClosed)
        }
        StreamState::BothOpen | StreamState::HalfLocal => {
            data_taken(config, core, body, incoming, stream)
        }
        StreamState::HalfRemote => {
            data_refused(config, core, incoming, stream, Cause::DataAfterEndStream)
        }
        StreamState::WeReset => data_counted(config, core, incoming, Ignored::DataOnReset),
    }
}

/// Whether the peer may still send on a stream of this state.
#[inline(always)]
fn is_peer_open(kind: StreamState) -> bool
    ensures { result ≡ is_peer_open kind }
{
    match kind {
        StreamState::BothOpen | StreamState::HalfLocal => true,
        StreamState::Idle
        | StreamState::Skipped
        | StreamState::HalfRemote
        | StreamState::Ended
        | StreamState::PeerReset
        | StreamState::WeReset => false,
    }
}

/// Whether DATA is taken by its stream and nothing is wrong with it: the peer's side is open, both receive windows hold it,
/// and it is what was declared (RFC 9113, 6.1, 6.9 and 8.1.1).
#[inline(always)]
pub fn only_takes(core: &ConnectionState, incoming: ReceivedData, stream: &Stream) -> bool
    ensures { result ≡ only_takes core.now incoming stream.now }
{
    is_peer_open(stream.kind)
        && !core.recv.is_below(incoming.octets)
        && !exceeds(stream.numbers.recv, incoming.octets)
        && length_broken(
            stream.numbers.declared,
            content_with(stream, incoming),
            incoming.ends,
        )
        .is_none()
}

/// DATA on a stream, as `on_data`, where it is taken and more may come: it only moves numbers.
#[inline(always)]
pub fn take(
    config: Config,
    core: ConnectionState,
    incoming: ReceivedData,
    stream: Stream,
) -> Reaction
    requires core { IsSoundConnectionState core }
    requires stream { IsSoundStream (in_force core) stream }
    requires takes { only_takes core incoming stream ≡ true }
    requires stays { incoming.ends ≡ false }
    ensures rule { (body : ℕ) → result ≡ effect.on_data config core body incoming stream }
    ensures sound { (book : List Entry) (r : Records) → IsSoundAt book r core stream result }
{
    let change = counted(config.credit, core, incoming.octets);
    let outcome = returned(config.credit, taken(stream, incoming));
    Reaction::Continues(with_outcome(change, outcome))
}

/// DATA on a stream, as `on_data`, where it is taken and ends the peer's side.
#[inline(always)]
pub fn take_last(
    config: Config,
    core: ConnectionState,
    body: u64,
    incoming: ReceivedData,
    stream: Stream,
) -> Reaction
    requires core { IsSoundConnectionState core }
    requires stream { IsSoundStream (in_force core) stream }
    requires takes { only_takes core incoming stream ≡ true }
    requires ends { incoming.ends ≡ true }
    ensures rule { result ≡ effect.on_data config core body incoming stream }
    ensures sound { (book : List Entry) (r : Records) → body ≡ length (picked book stream.pick).body → IsSoundAt book r core stream result }
{
    let change = counted(config.credit, core, incoming.octets);
    let outcome = peer_ended(body, taken(stream, incoming));
    Reaction::Continues(with_outcome(change, outcome))
}

/// DATA that its stream takes.
#[inline(always)]
#[tactic(auto, unfolding(h2_spec::specs::Data::data_taken))]
fn data_taken(
    config: Config,
    core: ConnectionState,
    body: u64,
    incoming: ReceivedData,
    stream: Stream,
) -> Reaction
    requires core { IsSoundConnectionState core }
    requires stream { IsSoundStream (in_force core) stream }
    requires live { is_live stream.kind ≡ true }
    ensures rule { result ≡ rule.data_taken config core body incoming stream }
    ensures sound { (book : List Entry) (r : Records) → body ≡ length (picked book stream.pick).body → IsSoundAt book r core stream result }
{
    let threshold = config.credit;
    if core.recv.is_below(incoming.octets) {
        return Reaction::ConnectionError(Cause::ConnectionWindowExceeded);
    }
    let change = counted(threshold, core, incoming.octets);
    let outcome = data_outcome(threshold, body, incoming, stream);
    Reaction::Continues(with_outcome(change, outcome))
}

/// DATA that is refused on its stream, and counted.
#[tactic(auto, unfolding(h2_spec::specs::Data::data_refused, h2_spec::specs::Stream::octets_waiting))]
fn data_refused(
    config: Config,
    core: ConnectionState,
    incoming: ReceivedData,
    stream: Stream,
    cause: Cause,
) -> Reaction
    requires core { IsSoundConnectionState core }
    ensures rule { result ≡ rule.data_refused config core incoming stream cause }
    ensures sound { (book : List Entry) (r : Records) → stream ≡ stream_at r.last r.streams stream.id → is_live stream.kind ≡ true
        → r.last ≡ core.last → IsSound book r (in_force core) result }
{
    if core.recv.is_below(incoming.octets) {
        return Reaction::ConnectionError(Cause::ConnectionWindowExceeded);
    }
    let change = counted(config.credit, core, incoming.octets);
    let outcome = stream_error(stream.id, cause);
    Reaction::Continues(with_outcome(change, outcome))
}

/// DATA that is counted on the connection alone, and ignored for this reason.
#[tactic(auto, unfolding(h2_spec::specs::Data::data_counted))]
fn data_counted(
    config: Config,
    core: ConnectionState,
    incoming: ReceivedData,
    reason: Ignored,
) -> Reaction
    requires core { IsSoundConnectionState core }
    ensures rule { result ≡ rule.data_counted config core incoming reason }
    ensures sound { (book : List Entry) (r : Records) → r.last ≡ core.last → IsSound book r (in_force core) result }
{
    if core.recv.is_below(incoming.octets) {
        return Reaction::ConnectionError(Cause::ConnectionWindowExceeded);
    }
    let change = counted(config.credit, core, incoming.octets);
    Reaction::Continues(ignoring(reason, change))
}
