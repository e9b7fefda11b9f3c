//! The whole input of a program, and the octets that it gives. Definitions: `specs/Input.antt`, and h2_io's
//! `specs/HexText.antt`.

ghost use Rattle.std.specs.Prelude.{◌≡◌, ◌≤◌, ◌+◌, ℕ, List, Some, false, true, length, IfOk, IfErr, OnOk};
ghost use Rattle.h2_cmd_batch.specs.Input.{IsUnread, input_fault, octets_of};
ghost use Rattle.h2_io.specs.HexText.{octets_spelled};
ghost use Rattle.h2_spec.specs.State.{is_allowed};

use crate::fault::BenchFault;
use h2_cmd_messages::{
    Reasons, is_capture, say_capture, say_limits, say_no_hex, say_octets, say_too_long,
    say_warnings,
};
use h2_io::{Input, MAX_INPUT, is_hex_text};
use h2_spec::connection::Config;
use std::alloc::Global;

/// All that an input has left.
///
/// `Read` where a read failed, or where there is more than the limit, which the reasons say. `NoMemory` may come before
/// either.
pub fn read_all<I: Input>(
    alloc: Global,
    input: &mut I,
    reasons: &mut Reasons<'_>,
) -> Result<Vec<u8>, BenchFault>
    ensures ok { IfOk result (λ octets. (known : List ℕ) → I.remaining input.old ≡ Some known → octets.items ≡ known) }
    ensures within { IfOk result (λ octets. length octets.items ≤ MAX_INPUT) }
    ensures well { OnOk result (I.has_failed input.new ≡ false) }
    ensures name { I.name input.new ≡ I.name input.old }
    ensures err { IfErr result (λ fault. IsUnread (I.remaining input.old) (I.has_failed input.new) fault) }
{
    let mut octets = Vec::new(alloc);
    let mut buffer = [0; 4096];
    loop {
        let Ok(count) = input.read(&mut buffer) else {
            return Err(BenchFault::Read);
        };
        if count == 0 {
            return Ok(octets);
        }
        if octets.len() + count > MAX_INPUT {
            say_too_long(reasons.source, MAX_INPUT, &mut reasons.out);
            return Err(BenchFault::Read);
        }
        let Ok(()) = octets.extend_from_slice(&buffer[..count]) else {
            return Err(BenchFault::NoMemory);
        };
    }
}

/// The octets that hex text spells, white space dropped; the reasons say what is strange about them, or where the text spells none.
fn read_hex(alloc: Global, text: &[u8], reasons: &mut Reasons<'_>) -> Result<Vec<u8>, BenchFault>
    ensures ok { IfOk result (λ octets. octets_spelled text.now ≡ Some octets.items) }
    ensures err { IfErr result (λ fault. fault ≡ input_fault (octets_spelled text.now) true) }
{
    match h2_io::read_hex(alloc, text) {
        Ok(Some(octets)) => {
            say_warnings(reasons.source, text, &mut reasons.out);
            Ok(octets)
        }
        Ok(None) => {
            say_no_hex(reasons.source, text, &mut reasons.out);
            Err(BenchFault::BadHex)
        }
        Err(_) => Err(BenchFault::NoMemory),
    }
}

/// The octets that an input has as they are, which are not copied; the reasons say what is strange about them, or that they are a
/// capture.
fn take_raw(octets: Vec<u8>, reasons: &mut Reasons<'_>) -> Result<Vec<u8>, BenchFault>
    ensures ok { IfOk result (λ taken. octets_of true octets.items ≡ Some taken.items) }
    ensures err { IfErr result (λ fault. fault ≡ input_fault (octets_of true octets.items) true) }
{
    if is_capture(octets.as_slice()) {
        say_capture(reasons.source, &mut reasons.out);
        return Err(BenchFault::BadHex);
    }
    say_octets(reasons.source, octets.as_slice(), &mut reasons.out);
    Ok(octets)
}

/// The octets that an input gives: its own where it is raw, else those that its hex spells.
///
/// `BadHex` where it is no hex text, or is raw and a capture of packets, and the reasons say which; `NoMemory` only elsewhere. The
/// reasons also say what is strange about octets that are taken.
pub fn read_octets(
    alloc: Global,
    raw: bool,
    input: Vec<u8>,
    reasons: &mut Reasons<'_>,
) -> Result<Vec<u8>, BenchFault>
    ensures ok { IfOk result (λ octets. octets_of raw input.items ≡ Some octets.items) }
    ensures err { IfErr result (λ fault. fault ≡ input_fault (octets_of raw input.items) true) }
{
    if raw {
        take_raw(input, reasons)
    } else {
        read_hex(alloc, input.as_slice(), reasons)
    }
}

/// Why an input is refused whose limits or settings are out of range: it gives no octets, or it is for them. The reasons say
/// which.
fn refused_limits(config: Config, raw: bool, input: &[u8], reasons: &mut Reasons<'_>) -> BenchFault
    ensures { result ≡ input_fault (octets_of raw input.now) false }
{
    let is_given = if raw {
        !is_capture(input)
    } else {
        is_hex_text(input)
    };
    if is_given {
        say_limits(config, &mut reasons.out);
        BenchFault::BadConfig
    } else if raw {
        say_capture(reasons.source, &mut reasons.out);
        BenchFault::BadHex
    } else {
        say_no_hex(reasons.source, input, &mut reasons.out);
        BenchFault::BadHex
    }
}

/// The octets that an input gives a connection with these limits and settings.
///
/// Errors as those of `read_octets`, and before `NoMemory` `BadConfig` where a limit or a setting is out of range. The reasons say
/// which, as of `read_octets`.
pub fn read_for(
    alloc: Global,
    config: Config,
    raw: bool,
    input: Vec<u8>,
    reasons: &mut Reasons<'_>,
) -> Result<Vec<u8>, BenchFault>
    ensures ok { IfOk result (λ octets. octets_of raw input.items ≡ Some octets.items) }
    ensures allowed { OnOk result (is_allowed config ≡ true) }
    ensures err { IfErr result (λ fault. fault ≡ input_fault (octets_of raw input.items) (is_allowed config)) }
{
    if !config.is_allowed() {
        return Err(refused_limits(config, raw, input.as_slice(), reasons));
    }
    read_octets(alloc, raw, input, reasons)
}
