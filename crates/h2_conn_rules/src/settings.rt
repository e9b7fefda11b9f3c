//! The rule for SETTINGS (RFC 9113, 6.5 and 6.9.2). Definitions: h2_spec's `specs/SettingsFrame.antt`,
//! `specs/Settings.antt`.

ghost use Rattle.std.specs.Prelude.{◌≡◌, List, Ok, Err};
ghost use Rattle.h2_frame.specs.Parts.{settings_in};
ghost use Rattle.h2_spec.specs.Change.{moved_by};
ghost use Rattle.h2_spec.specs.SettingsFrame as rule;
ghost use Rattle.h2_spec.specs.Requests.Answer.{Entry};
ghost use Rattle.h2_spec.specs.Stream.{Records};
ghost use Rattle.h2_spec.specs.declared.streams.Stream.{Stream};
ghost use Rattle.h2_streams.specs.Greatest.{IsGreatest, overflows_with};
ghost use Rattle.h2_conn_rules.specs.OneSetting.{one_setting};
ghost use Rattle.h2_conn_rules.specs.Sound.{IsSound, IsSoundState, in_force};

use crate::change::only_counts;
use h2_frame::SettingsPart;
use h2_spec::causes::Cause;
use h2_spec::connection::{ConnectionState, Phase};
use h2_spec::errors::FlowFault;
use h2_spec::flow::{LocalSettings, Settings, Window};
use h2_spec::reactions::{Change, ConnectionFrame, Reaction, RecordUpdate};

// Compared with the greatest send window, which is found once: 2,730 settings by 1,000 live streams.
/// Whether the greatest window, if there is one, passes its limit where the initial window goes from one value to
/// another.
#[tactic(auto, unfolding(h2_streams::specs::Greatest::overflows_with))]
fn overflows(greatest: Option<Window>, from: u32, to: u32) -> bool
    ensures { result ≡ overflows_with greatest (moved_by from to) }
{
    match greatest {
        None => false,
        Some(window) => window.overflows_by(from, to),
    }
}

/// The settings after one of them, where they were `from` before the frame.
#[tactic(auto, unfolding(crate::specs::OneSetting::one_setting))]
fn one_setting(
    greatest: &Option<Window>,
    from: Settings,
    now: Settings,
    id: u16,
    value: u32,
) -> Result<Settings, Cause>
    ensures { (streams : List Stream) → IsGreatest greatest.now streams → result ≡ one_setting streams from now id value }
{
    let mut next = now;
    match next.apply(id, value) {
        Ok(_) => {
            if overflows(*greatest, from.window, next.window) {
                Err(Cause::InitialWindowSizeOverflow)
            } else {
                Ok(next)
            }
        }
        Err(FlowFault::BadSetting(cause)) => Err(cause),
        Err(_) => unreachable!(),
    }
}

/// The settings after those of a frame in their order; the first one that is refused decides.
fn settings_applied(
    greatest: &Option<Window>,
    from: Settings,
    part: SettingsPart<'_>,
) -> Result<Settings, Cause>
    ensures { (streams : List Stream) → IsGreatest greatest.now streams → result ≡ rule.settings_applied streams from from (settings_in part.entry) }
{
    let mut now = from;
    for place in 0..part.count() {
        let (id, value) = part.pair_at(place);
        now = one_setting(greatest, from, now, id, value)?;
    }
    Ok(now)
}

/// SETTINGS without ACK (RFC 9113, 6.5): all settings of the frame in their order, and then its acknowledgement; or
/// none of them. `greatest` is the greatest of the send windows that SETTINGS_INITIAL_WINDOW_SIZE moves.
///
/// # Errors
///
/// The first setting that is refused decides, each a connection error (6.5.2):
///
/// - SETTINGS_ENABLE_PUSH other than 0 and 1, SETTINGS_MAX_FRAME_SIZE below 16384 or above 16777215: PROTOCOL_ERROR.
/// - SETTINGS_INITIAL_WINDOW_SIZE above 2147483647, or one that takes a send window above it (6.9.2):
///   FLOW_CONTROL_ERROR.
#[inline(always)]
#[tactic(auto, unfolding(h2_spec::specs::SettingsFrame::settings_rule))]
pub fn settings_rule(
    greatest: &Option<Window>,
    core: ConnectionState,
    part: SettingsPart<'_>,
) -> Reaction
    ensures rule { (streams : List Stream) → IsGreatest greatest.now streams → result ≡ rule.settings_rule streams core (settings_in part.entry) }
    ensures sound { (book : List Entry) (r : Records) → IsGreatest greatest.now r.streams → IsSoundState book core r
        → IsSound book r (in_force core) result }
{
    let before = core.peer.window;
    match settings_applied(greatest, core.peer, part) {
        Err(cause) => Reaction::ConnectionError(cause),
        Ok(peer) => {
            let change = only_counts(ConnectionState {
                peer,
                phase: Phase::Running,
                ..core
            });
            Reaction::Continues(Change {
                record_update: RecordUpdate::Shift(before, peer.window),
                connection_frame: ConnectionFrame::SettingsAck,
                ..change
            })
        }
    }
}

/// The server's settings come into force, as the peer has acknowledged them for the first time: the receive windows of
/// live streams move by the change of the initial window (RFC 9113, 6.5.3 and 6.9.2). There is no error.
pub fn comes_into_force(core: ConnectionState, own: LocalSettings) -> Change
    ensures { result ≡ rule.comes_into_force core own }
{
    let change = only_counts(ConnectionState {
        acked: true,
        own,
        ..core
    });
    Change {
        record_update: RecordUpdate::Receive(core.own.window, own.window),
        ..change
    }
}
