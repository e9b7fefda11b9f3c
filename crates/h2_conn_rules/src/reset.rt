//! The rule for RST_STREAM (RFC 9113, 6.4). Definition: `on_reset` of h2_spec's `specs/Effect.antt`.

ghost use Rattle.std.specs.Prelude.{◌≡◌, List};
ghost use Rattle.h2_spec.specs.Effect as rule;
ghost use Rattle.h2_spec.specs.Stream.{Records, stream_at};
ghost use Rattle.h2_spec.specs.Requests.Answer.{Entry};
ghost use Rattle.h2_conn_rules.specs.Sound.{IsSound, IsSoundConnectionState, in_force};

use crate::change::{only_counts, outcome_without_frame, with_outcome};
use crate::control::ignore;
use h2_spec::causes::Cause;
use h2_spec::connection::ConnectionState;
use h2_spec::ignored::Ignored;
use h2_spec::reactions::Reaction;
use h2_spec::streams::{Stream, StreamState};
use h2_streams::not_live;

/// RST_STREAM on a stream (RFC 9113, 5.4.2 and 6.4): an open or half-closed stream is reset by the peer, and nothing
/// more is sent on it; on a stream that is closed it is ignored.
///
/// # Errors
///
/// On an idle stream: connection error PROTOCOL_ERROR.
#[inline(always)]
#[tactic(auto, unfolding(h2_spec::specs::Effect::on_reset, h2_spec::specs::Effect::reset_outcome, h2_spec::specs::Stream::octets_waiting))]
pub fn on_reset(core: ConnectionState, stream: Stream) -> Reaction
    requires core { IsSoundConnectionState core }
    ensures rule { result ≡ rule.on_reset core stream }
    ensures sound { (book : List Entry) (r : Records) → stream ≡ stream_at r.last r.streams stream.id
        → r.last ≡ core.last → IsSound book r (in_force core) result }
{
    match stream.kind {
        StreamState::Idle => Reaction::ConnectionError(Cause::RstStreamOnIdle),
        StreamState::Skipped => ignore(core, Ignored::RstStreamOnSkipped),
        StreamState::Ended => ignore(core, Ignored::RstStreamOnClosed),
        StreamState::PeerReset => ignore(core, Ignored::RstStreamOnPeerReset),
        StreamState::WeReset => ignore(core, Ignored::RstStreamOnReset),
        StreamState::BothOpen | StreamState::HalfLocal | StreamState::HalfRemote => {
            let outcome = outcome_without_frame(not_live(stream.id, StreamState::PeerReset));
            Reaction::Continues(with_outcome(only_counts(core), outcome))
        }
    }
}
