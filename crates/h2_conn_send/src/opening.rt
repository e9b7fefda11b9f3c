//! What is sent before anything is read: SETTINGS with the server's limits and settings (RFC 9113, 3.4 and 6.5.2).
//! Definition: h2_spec's `specs/Opening.antt`.

ghost use Rattle.std.specs.Prelude.{◌≡◌, ◌++◌, IfOk, OnOk};
ghost use Rattle.h2_spec.specs.Opening.{opening_octets, opening_payload, setting, setting_unless};
ghost use Rattle.h2_conn_send.specs.Writes.{Writes};

use h2_conn_rules::headers::MAX_LIST;
use h2_frame::{Outgoing, append_frame};
use h2_spec::connection::Config;
use h2_spec::flow::{
    LocalSettings, SETTINGS_HEADER_TABLE_SIZE, SETTINGS_INITIAL_WINDOW_SIZE,
    SETTINGS_MAX_CONCURRENT_STREAMS, SETTINGS_MAX_FRAME_SIZE, SETTINGS_MAX_HEADER_LIST_SIZE,
};
use h2_spec::frames::SETTINGS;
use std::alloc::{AllocError, Allocator};

/// The octets of a setting: its identifier, and its value (RFC 9113, 6.5.1).
fn setting_of(id: u16, value: u32) -> [u8; 6]
    ensures { result ≡ setting id value }
{
    let name = id.to_be_bytes();
    let octets = value.to_be_bytes();
    [name[0], name[1], octets[0], octets[1], octets[2], octets[3]]
}

/// Appends a setting, unless it has the value that every connection begins with.
#[tactic(auto, unfolding(h2_spec::specs::Opening::setting_unless))]
fn append_unless<A: Allocator>(
    first: u32,
    id: u16,
    value: u32,
    payload: &mut Vec<u8, A>,
) -> Result<(), AllocError>
    ensures { OnOk result (payload.new.items ≡ payload.old.items ++ setting_unless first id value) }
{
    if value == first {
        return Ok(());
    }
    payload.extend_from_slice(&setting_of(id, value))
}

/// The payload of the opening SETTINGS.
#[tactic(auto, unfolding(h2_spec::specs::Opening::opening_payload))]
fn opening_payload<A: Allocator>(alloc: A, config: Config) -> Result<Vec<u8, A>, AllocError>
    ensures { IfOk result (λ payload. payload.items ≡ opening_payload config) }
{
    let first = LocalSettings::initial();
    // Space for five settings.
    let mut payload = Vec::with_capacity(alloc, 30)?;
    append_unless(
        first.table,
        SETTINGS_HEADER_TABLE_SIZE,
        config.table,
        &mut payload,
    )?;
    payload.extend_from_slice(&setting_of(SETTINGS_MAX_CONCURRENT_STREAMS, config.streams))?;
    append_unless(
        first.window,
        SETTINGS_INITIAL_WINDOW_SIZE,
        config.window,
        &mut payload,
    )?;
    append_unless(
        first.frame,
        SETTINGS_MAX_FRAME_SIZE,
        config.frame,
        &mut payload,
    )?;
    payload.extend_from_slice(&setting_of(SETTINGS_MAX_HEADER_LIST_SIZE, MAX_LIST))?;
    Ok(payload)
}

/// Appends the opening SETTINGS, or nothing where memory is refused.
#[tactic(auto, unfolding(h2_spec::specs::Opening::opening_octets))]
pub fn write_opening<'b, A: Allocator + Copy, O: Outgoing<'b, A>>(
    config: Config,
    out: &mut O,
) -> Result<(), AllocError>
    ensures { Writes (opening_octets config) (O.octets out.old) result (O.octets out.new) }
{
    let payload = opening_payload(*out.memory(), config)?;
    append_frame(SETTINGS, 0, 0, payload.as_slice(), &[], out)
}
