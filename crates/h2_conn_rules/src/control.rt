//! The rules for PING and GOAWAY, and for frames that are ignored (RFC 9113, 6.3, 6.7 and 6.8). Definition:
//! `frame_effect` of h2_spec's `specs/Effect.antt`.

ghost use Rattle.std.specs.Prelude.{◌≡◌, List};
ghost use Rattle.h2_spec.specs.Requests.Answer.{Entry};
ghost use Rattle.h2_spec.specs.Effect as rule;
ghost use Rattle.h2_spec.specs.Stream.{Records};
ghost use Rattle.h2_conn_rules.specs.Sound.{IsSound, IsSoundConnectionState, in_force};

use crate::change::{ignoring, only_counts};
use h2_spec::connection::ConnectionState;
use h2_spec::ignored::Ignored;
use h2_spec::reactions::{Change, ConnectionFrame, Reaction};

/// A frame that is ignored for this reason: nothing changes (RFC 9113, 4.1, 5.1, 5.5 and 6.3).
pub fn ignore(core: ConnectionState, reason: Ignored) -> Reaction
    requires core { IsSoundConnectionState core }
    ensures rule { result ≡ rule.ignore core reason }
    ensures sound { (book : List Entry) (r : Records) → r.last ≡ core.last → IsSound book r (in_force core) result }
{
    Reaction::Continues(ignoring(reason, only_counts(core)))
}

/// PING with these octets (RFC 9113, 6.7): they are sent back, unless it is an answer itself (`is_answer`), which is
/// ignored. There is no error.
pub fn on_ping(core: ConnectionState, is_answer: bool, octets: [u8; 8]) -> Reaction
    requires core { IsSoundConnectionState core }
    ensures rule { result ≡ rule.on_ping core is_answer octets }
    ensures sound { (book : List Entry) (r : Records) → r.last ≡ core.last → IsSound book r (in_force core) result }
{
    if is_answer {
        return ignore(core, Ignored::PingAcknowledgement);
    }
    let change = only_counts(core);
    Reaction::Continues(Change {
        connection_frame: ConnectionFrame::PingAck(octets),
        ..change
    })
}

/// GOAWAY (RFC 9113, 6.8): the last stream and the code of the latest one are kept, and nothing else changes. There is
/// no error.
pub fn on_goaway(core: ConnectionState, last: u32, code: u32) -> Reaction
    requires core { IsSoundConnectionState core }
    ensures rule { result ≡ rule.on_goaway core last code }
    ensures sound { (book : List Entry) (r : Records) → r.last ≡ core.last → IsSound book r (in_force core) result }
{
    Reaction::Continues(only_counts(ConnectionState {
        goaway: Some((last, code)),
        ..core
    }))
}
