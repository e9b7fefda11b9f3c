//! The payload of a frame as text, in the form that its type and flags ask for. The definitions are `payload_said` and
//! `payload_text` of `h2_spec`, specs/Texts/Written.antt.

ghost use Rattle.std.specs.Prelude.{◌≡◌, ◌<◌, ◌≤◌, ◌^◌, ◌++◌, length, OnOk};
ghost use Rattle.std.specs.Fmt.{decimal};
ghost use Rattle.std.specs.String.{string_bytes};
ghost use Rattle.h2_frame.specs.Parts.{settings_in};
ghost use Rattle.h2_spec.specs.Octets.{four_octets};
ghost use Rattle.h2_spec.specs.Texts.Script.{Octets};
ghost use Rattle.h2_script.specs.Texts.{comma};
ghost use Rattle.h2_spec.specs.Texts.Written.{each_text, is_fragment, payload_said, payload_text, setting_text};

use crate::fragment::push_fragment;
use crate::text::{push_numbered, push_octets};
use h2_frame::SettingsPart;
use std::alloc::{AllocError, Allocator};
use std::fmt::Write;

/// Appends the text of a frame's payload.
#[tactic(auto, unfolding(h2_spec::specs::Texts::Written::payload_said))]
pub(crate) fn push_payload<A: Allocator + Copy>(
    alloc: A,
    kind: u8,
    flags: u8,
    payload: &[u8],
    out: &mut String<A>,
) -> Result<(), AllocError>
    requires { length payload.now < 2 ^ 24 }
    ensures { OnOk result (string_bytes out.new ≡ string_bytes out.old ++ payload_text (payload_said kind flags payload.now)) }
{
    if payload.is_empty() {
        return out.push_str("-");
    }
    if kind == 4 && payload.len() % 6 == 0 {
        out.push_str("s")?;
        return push_settings(SettingsPart::new(payload), out);
    }
    if kind == 8 && payload.len() == 4 && payload[0] < 128 {
        return push_lettered("w", payload, out);
    }
    if kind == 3 && payload.len() == 4 {
        return push_lettered("c", payload, out);
    }
    if is_fragment(kind, flags) {
        return push_fragment(alloc, payload, out);
    }
    push_hex(alloc, payload, out)
}

/// Whether the payload is a fragment of a field block alone (RFC 9113, 6.2 and 6.10).
fn is_fragment(kind: u8, flags: u8) -> bool
    ensures { result ≡ is_fragment kind flags }
{
    kind == 9 || (kind == 1 && flags / 8 % 2 != 1 && flags / 32 % 2 != 1)
}

/// Appends octets in hex.
pub(crate) fn push_hex<A: Allocator + Copy>(
    alloc: A,
    octets: &[u8],
    out: &mut String<A>,
) -> Result<(), AllocError>
    ensures { OnOk result (string_bytes out.new ≡ string_bytes out.old ++ payload_text (Octets octets.now)) }
{
    out.push_str("x")?;
    push_octets(alloc, octets, out)
}

/// Appends a letter and the number of four octets.
fn push_lettered<A: Allocator>(
    letter: &str,
    octets: &[u8],
    out: &mut String<A>,
) -> Result<(), AllocError>
    requires { length octets.now ≡ 4 }
    ensures { OnOk result (string_bytes out.new ≡ string_bytes out.old ++ (letter.now ++ decimal (four_octets octets.now 0))) }
{
    push_numbered(letter, number_of(octets), out)
}

/// The number that the first four octets write.
fn number_of(octets: &[u8]) -> u64
    requires { 4 ≤ length octets.now }
    ensures { result ≡ four_octets octets.now 0 }
{
    let number = u32::from_be_bytes([octets[0], octets[1], octets[2], octets[3]]);
    u64::from(number)
}

/// Appends settings with commas between.
fn push_settings<A: Allocator>(
    settings: SettingsPart<'_>,
    out: &mut String<A>,
) -> Result<(), AllocError>
    ensures { OnOk result (string_bytes out.new ≡ string_bytes out.old ++ each_text setting_text (settings_in settings.entry)) }
{
    for place in 0..settings.count() {
        push_comma(place, out)?;
        push_setting(settings.pair_at(place), out)?;
    }
    Ok(())
}

/// Appends a comma where something precedes.
fn push_comma<A: Allocator>(place: usize, out: &mut String<A>) -> Result<(), AllocError>
    ensures { OnOk result (string_bytes out.new ≡ string_bytes out.old ++ comma place) }
{
    if place > 0 {
        out.push_str(",")?;
    }
    Ok(())
}

/// Appends a setting: its identifier, an equals sign, its value.
fn push_setting<A: Allocator>(setting: (u16, u32), out: &mut String<A>) -> Result<(), AllocError>
    ensures { OnOk result (string_bytes out.new ≡ string_bytes out.old ++ setting_text setting) }
{
    write!(out, "{}={}", setting.0, setting.1)
}
