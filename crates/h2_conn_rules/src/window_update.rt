//! The rule for WINDOW_UPDATE (RFC 9113, 6.9 and 6.9.1). Definitions: h2_spec's `specs/WindowUpdate.antt`, and
//! `on_window` of `specs/Effect.antt`.

ghost use Rattle.std.specs.Prelude.{◌≡◌, ◌==◌, ℕ, ◌≤◌, true, IsTrue, List};
ghost use Rattle.h2_spec.specs.Change as changes;
ghost use Rattle.h2_spec.specs.WindowUpdate as rule;
ghost use Rattle.h2_spec.specs.Effect as effect;
ghost use Rattle.h2_spec.specs.ReactionTable.{unless_zero};
ghost use Rattle.h2_spec.specs.Stream.{Records};
ghost use Rattle.h2_spec.specs.Requests.Answer.{Entry};
ghost use Rattle.h2_conn_rules.specs.Plain.{only_raises};
ghost use Rattle.h2_conn_rules.specs.Sound.{HasBody, InForce, IsSound, IsSoundAt, IsSoundConnectionState, IsSoundStream, in_force, is_recorded};
ghost use Rattle.h2_streams.specs.Raised.{can_rise, raised};

use crate::change::{only_counts, outcome_without_frame, stream_error, with_outcome};
use crate::control::ignore;
use h2_spec::causes::Cause;
use h2_spec::connection::ConnectionState;
use h2_spec::ignored::Ignored;
use h2_spec::reactions::{Reaction, StreamOutcome};
use h2_spec::streams::{Stream, StreamState, is_live};
use h2_streams::raise;

/// The send window of a stream with an increment, and nothing sent.
#[inline(always)]
#[tactic(auto, unfolding(h2_spec::specs::Stream::octets_waiting))]
fn raised(increment: u32, stream: Stream) -> StreamOutcome
    requires { IsTrue (can_rise increment stream) }
    ensures rule { result ≡ changes.outcome_without_frame (raised increment stream) }
    ensures id { result.stream.id ≡ stream.id }
    ensures sound { (f : InForce) → f.window ≤ 2147483647 → IsSoundStream f stream → IsSoundStream f result.stream }
    ensures waits { (book : List Entry) → HasBody book stream → HasBody book result.stream }
    ensures recorded { is_recorded stream.kind ≡ true → is_recorded result.stream.kind ≡ true }
{
    let mut stream = stream;
    raise(&mut stream, increment);
    outcome_without_frame(stream)
}

/// An increment of a live stream's send window.
#[tactic(auto, unfolding(h2_spec::specs::WindowUpdate::window_outcome, h2_spec::specs::Stream::octets_waiting))]
fn window_outcome(increment: u32, stream: Stream) -> StreamOutcome
    ensures rule { result ≡ rule.window_outcome increment stream }
    ensures id { result.stream.id ≡ stream.id }
    ensures sound { (f : InForce) → f.window ≤ 2147483647 → IsSoundStream f stream → IsSoundStream f result.stream }
    ensures waits { (book : List Entry) → HasBody book stream → HasBody book result.stream }
    ensures recorded { is_recorded stream.kind ≡ true → is_recorded result.stream.kind ≡ true }
{
    if increment == 0 {
        return stream_error(stream.id, Cause::StreamIncrementZero);
    }
    let numbers = stream.numbers;
    if numbers.send.overflows(increment) {
        return stream_error(stream.id, Cause::StreamWindowOverflow);
    }
    raised(increment, stream)
}

/// An increment that is ignored, for this reason unless it is 0 (RFC 9113, 6.9).
fn increment_ignored(core: ConnectionState, increment: u32, reason: Ignored) -> Reaction
    requires core { IsSoundConnectionState core }
    ensures rule { result ≡ effect.ignore core (unless_zero (increment == 0) reason) }
    ensures sound { (book : List Entry) (r : Records) → r.last ≡ core.last → IsSound book r (in_force core) result }
{
    if increment == 0 {
        ignore(core, Ignored::WindowUpdateByZero)
    } else {
        ignore(core, reason)
    }
}

/// WINDOW_UPDATE on a stream (RFC 9113, 6.9): its send window rises by `increment`, 0 to 2147483647; on a stream that
/// is closed it is ignored.
///
/// # Errors
///
/// - On an idle stream: connection error PROTOCOL_ERROR.
/// - An increment of 0: stream error PROTOCOL_ERROR.
/// - A window above 2147483647: stream error FLOW_CONTROL_ERROR (6.9.1).
#[inline(always)]
#[tactic(auto, unfolding(h2_spec::specs::Effect::on_window))]
pub fn on_window(core: ConnectionState, increment: u32, stream: Stream) -> Reaction
    requires core { IsSoundConnectionState core }
    requires stream { IsSoundStream (in_force core) stream }
    ensures rule { result ≡ effect.on_window core increment stream }
    ensures sound { (book : List Entry) (r : Records) → IsSoundAt book r core stream result }
{
    match stream.kind {
        StreamState::Idle => Reaction::ConnectionError(Cause::WindowUpdateOnIdle),
        StreamState::Skipped => increment_ignored(core, increment, Ignored::WindowUpdateOnSkipped),
        StreamState::Ended => increment_ignored(core, increment, Ignored::WindowUpdateOnClosed),
        StreamState::PeerReset => {
            increment_ignored(core, increment, Ignored::WindowUpdateOnPeerReset)
        }
        StreamState::WeReset => increment_ignored(core, increment, Ignored::WindowUpdateOnReset),
        StreamState::BothOpen | StreamState::HalfLocal | StreamState::HalfRemote => {
            let outcome = window_outcome(increment, stream);
            Reaction::Continues(with_outcome(only_counts(core), outcome))
        }
    }
}

/// Whether an increment raises the send window of a live stream, and does nothing else: it is above 0, and the window
/// stays below 2147483648 (RFC 9113, 6.9 and 6.9.1).
#[inline(always)]
pub fn only_raises(increment: u32, stream: &Stream) -> bool
    ensures { result ≡ only_raises increment stream.now }
{
    is_live(stream.kind) && increment != 0 && !stream.numbers.send.overflows(increment)
}

/// WINDOW_UPDATE on the connection (RFC 9113, 6.9): its send window rises by `increment`, 0 to 2147483647.
///
/// # Errors
///
/// - An increment of 0: connection error PROTOCOL_ERROR.
/// - A window above 2147483647: connection error FLOW_CONTROL_ERROR (6.9.1).
#[tactic(auto, unfolding(h2_spec::specs::WindowUpdate::connection_window))]
pub fn connection_window(core: ConnectionState, increment: u32) -> Reaction
    requires core { IsSoundConnectionState core }
    ensures rule { result ≡ rule.connection_window core increment }
    ensures sound { (book : List Entry) (r : Records) → r.last ≡ core.last → IsSound book r (in_force core) result }
{
    if increment == 0 {
        return Reaction::ConnectionError(Cause::ConnectionIncrementZero);
    }
    let mut send = core.send;
    if send.add(increment).is_err() {
        return Reaction::ConnectionError(Cause::ConnectionWindowOverflow);
    }
    Reaction::Continues(only_counts(ConnectionState { send, ..core }))
}
