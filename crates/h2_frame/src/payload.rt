//! What the payload of a frame holds, by its type, borrowed from it (RFC 9113, 6). Definitions:
//! `h2_spec/specs/Frames/Payload.antt`.

ghost use Rattle.std.specs.Prelude.{◌≡◌, ℕ, ◌+◌, ◌-◌, ◌*◌, ◌%◌, ◌≤◌, ◌<◌, List, length, slice_get, ◌==◌, if◌then◌else◌, Some, Ok, Err};
ghost use Rattle.h2_spec.specs.Frames.FrameType.{DATA, HEADERS, RST_STREAM, SETTINGS, GOAWAY, WINDOW_UPDATE, ACK, PADDED, has};
ghost use Rattle.h2_spec.specs.Frames.Payload as spec;
ghost use Rattle.h2_spec.specs.Frames.Payload.Part.{OfPriority};
ghost use Rattle.h2_spec.specs.Frames.Payload.{octets_if, fixed_len, pad_or_0, pad_length, priority_of, data_part, headers_part, settings_part, window_part, goaway_part, reset_part, with_part, of_length, setting_pairs, settings_or_ack};
ghost use Rattle.h2_spec.specs.declared.causes.Cause.TheVariants.{PingLength, PriorityLength};
ghost use Rattle.h2_frame.specs.Parts.{both_seen, cut_between, data_seen, headers_seen, settings_in, part_seen, seen};

use crate::cuts::{u16_at, u31_at, u32_at};
use crate::head::FrameRef;
use h2_spec::causes::Cause;
use h2_spec::frames::{ACK, FrameType, PADDED, WITH_PRIORITY};
use h2_spec::octets::{octets_from, octets_up_to};

/// What DATA holds (RFC 9113, 6.1).
#[derive(Clone, Copy)]
pub struct DataPart<'a> {
    /// The length of the padding, if the frame is padded.
    pub pad: Option<u8>,
    /// The octets of the body, without Pad Length and padding.
    pub content: &'a [u8],
    /// The octets of the padding; empty in a frame without PADDED.
    pub padding: &'a [u8],
}

/// What HEADERS hold (RFC 9113, 6.2).
#[derive(Clone, Copy)]
pub struct HeadersPart<'a> {
    /// The length of the padding, if the frame is padded.
    pub pad: Option<u8>,
    /// The 32 bits of the dependency, the exclusive bit first, and the weight, if the frame has them.
    pub priority: Option<(u32, u8)>,
    /// A fragment of a field block.
    pub fragment: &'a [u8],
    /// The octets of the padding; empty in a frame without PADDED.
    pub padding: &'a [u8],
}

/// The settings of a SETTINGS frame in their order, six octets each (RFC 9113, 6.5.1).
#[derive(Clone, Copy)]
pub struct SettingsPart<'a> {
    octets: &'a [u8],
}

impl<'a> SettingsPart<'a> {
    /// The settings that octets have, six octets each; a rest of fewer than six is none.
    pub fn new(octets: &'a [u8]) -> SettingsPart<'a>
        ensures { settings_in result ≡ setting_pairs octets.now }
    {
        SettingsPart { octets }
    }

    /// How many settings there are.
    pub fn count(self) -> usize
        ensures { result ≡ length (settings_in self.entry) }
    {
        self.octets.len() / 6
    }

    /// The identifier and the value of the setting at a place, from 0; none from `count` on.
    pub fn pair(self, place: usize) -> Option<(u16, u32)>
        ensures { result ≡ slice_get (settings_in self.entry) place }
    {
        let count = self.count();
        if place < count {
            Some(self.pair_at(place))
        } else {
            None
        }
    }

    /// The identifier and the value of the setting at a place below `count`, from 0.
    #[tactic(auto, using(crate::proofs::Pairs::found))]
    pub fn pair_at(self, place: usize) -> (u16, u32)
        requires { place < length (settings_in self) }
        ensures { slice_get (settings_in self.entry) place ≡ Some result }
    {
        let octets = octets_from(self.octets, 6 * place);
        (u16_at(octets, 0), u32_at(octets, 2))
    }
}

/// What DATA holds (RFC 9113, 6.1).
///
/// `DataLength` where the length of the padding is missing, then `DataPadding` where the padding is longer than what
/// follows.
#[tactic(auto, unfolding(h2_spec::specs::Frames::Payload::data_part))]
pub fn data_of(frame: FrameRef<'_>) -> Result<DataPart<'_>, Cause>
    requires { frame.head.kind ≡ DATA }
    ensures { seen data_seen result ≡ data_part frame.entry.head.flags frame.entry.payload.now }
{
    let fixed = octets_if(frame.head.has(PADDED), 1);
    if frame.payload.len() < fixed {
        return Err(Cause::DataLength);
    }
    let pad = pad_length(frame);
    let (content, padding) = unpadded(frame.payload, fixed, pad, Cause::DataPadding)?;
    Ok(DataPart {
        pad,
        content,
        padding,
    })
}

/// What HEADERS hold (RFC 9113, 6.2).
///
/// `HeadersLength` where the length of the padding, the dependency or the weight is missing, then `HeadersPadding`
/// where the padding is longer than what follows them.
#[tactic(auto, unfolding(h2_spec::specs::Frames::Payload::headers_part))]
pub fn headers_of(frame: FrameRef<'_>) -> Result<HeadersPart<'_>, Cause>
    requires { frame.head.kind ≡ HEADERS }
    ensures { seen headers_seen result ≡ headers_part frame.entry.head.flags frame.entry.payload.now }
{
    let pad_octets = octets_if(frame.head.has(PADDED), 1);
    let fixed = pad_octets + octets_if(frame.head.has(WITH_PRIORITY), 5);
    if frame.payload.len() < fixed {
        return Err(Cause::HeadersLength);
    }
    let pad = pad_length(frame);
    let priority = priority_of(frame, pad_octets);
    let (fragment, padding) = unpadded(frame.payload, fixed, pad, Cause::HeadersPadding)?;
    Ok(HeadersPart {
        pad,
        priority,
        fragment,
        padding,
    })
}

/// This many octets, where the flag is set.
fn octets_if(flag: bool, count: usize) -> usize
    ensures { result ≡ octets_if flag count }
{
    if flag { count } else { 0 }
}

/// The length of the padding, if the frame is padded.
fn pad_length(frame: FrameRef<'_>) -> Option<u8>
    requires { octets_if (has frame.head.flags PADDED) 1 ≤ length frame.payload.now }
    ensures { result ≡ pad_length frame.entry.head.flags frame.entry.payload.now }
{
    if frame.head.has(PADDED) {
        Some(frame.payload[0])
    } else {
        None
    }
}

/// The 32 bits of the dependency and the weight from a place on, if the frame has them.
fn priority_of(frame: FrameRef<'_>, start: usize) -> Option<(u32, u8)>
    requires place { start ≡ octets_if (has frame.head.flags PADDED) 1 }
    requires fits { fixed_len frame.head.flags ≤ length frame.payload.now }
    ensures { result ≡ priority_of frame.entry.head.flags frame.entry.payload.now }
{
    if frame.head.has(WITH_PRIORITY) {
        Some((u32_at(frame.payload, start), frame.payload[start + 4]))
    } else {
        None
    }
}

/// The octets between the fixed ones in front and the padding, and the padding; this cause where they overlap.
fn unpadded(
    octets: &[u8],
    fixed: usize,
    pad: Option<u8>,
    cause: Cause,
) -> Result<(&[u8], &[u8]), Cause>
    requires { fixed ≤ length octets.now }
    ensures { seen both_seen result ≡ cut_between cause fixed (pad_or_0 pad) octets.now }
{
    let pad = usize::from(pad.unwrap_or(0));
    if octets.len() - fixed < pad {
        return Err(cause);
    }
    let end = octets.len() - pad;
    let content = octets_up_to(octets_from(octets, fixed), end - fixed);
    Ok((content, octets_from(octets, end)))
}

/// The settings of a SETTINGS frame, none in an acknowledgement (RFC 9113, 6.5).
///
/// `SettingsLength` where the length is no multiple of 6, `SettingsAckLength` where it is not 0 in an acknowledgement.
#[tactic(auto, unfolding(h2_spec::specs::Frames::Payload::settings_part))]
pub fn settings_of(frame: FrameRef<'_>) -> Result<SettingsPart<'_>, Cause>
    requires { frame.head.kind ≡ SETTINGS }
    ensures { seen settings_in result ≡ settings_part frame.entry.head.flags frame.entry.payload.now }
{
    if frame.head.has(ACK) {
        if !frame.payload.is_empty() {
            return Err(Cause::SettingsAckLength);
        }
    } else if frame.payload.len() % 6 != 0 {
        return Err(Cause::SettingsLength);
    }
    Ok(SettingsPart::new(frame.payload))
}

/// The increment of a WINDOW_UPDATE frame, below 2^31; 0 is not refused here (RFC 9113, 6.9).
///
/// `WindowUpdateLength` where the payload is not 4 octets.
#[tactic(auto, unfolding(h2_spec::specs::Frames::Payload::window_part))]
pub fn window_of(frame: FrameRef<'_>) -> Result<u32, Cause>
    requires { frame.head.kind ≡ WINDOW_UPDATE }
    ensures { result ≡ window_part frame.entry.payload.now }
{
    if frame.payload.len() != 4 {
        return Err(Cause::WindowUpdateLength);
    }
    Ok(u31_at(frame.payload, 0))
}

/// The last stream and the error code of a GOAWAY frame; what follows them is not looked at (RFC 9113, 6.8).
///
/// `GoawayLength` where the payload is below 8 octets.
#[tactic(auto, unfolding(h2_spec::specs::Frames::Payload::goaway_part))]
pub fn goaway_of(frame: FrameRef<'_>) -> Result<(u32, u32), Cause>
    requires { frame.head.kind ≡ GOAWAY }
    ensures { result ≡ goaway_part frame.entry.payload.now }
{
    if frame.payload.len() < 8 {
        return Err(Cause::GoawayLength);
    }
    Ok((u31_at(frame.payload, 0), u32_at(frame.payload, 4)))
}

/// The error code of a RST_STREAM frame (RFC 9113, 6.4).
///
/// `RstStreamLength` where the payload is not 4 octets.
#[tactic(auto, unfolding(h2_spec::specs::Frames::Payload::reset_part))]
pub fn reset_of(frame: FrameRef<'_>) -> Result<u32, Cause>
    requires { frame.head.kind ≡ RST_STREAM }
    ensures { result ≡ reset_part frame.entry.payload.now }
{
    if frame.payload.len() != 4 {
        return Err(Cause::RstStreamLength);
    }
    Ok(u32_at(frame.payload, 0))
}

/// What a payload holds, by the frame's type (RFC 9113, 6).
#[derive(Clone, Copy)]
pub enum Part<'a> {
    Data(DataPart<'a>),
    Headers(HeadersPart<'a>),
    /// A dependency and a weight, which are not looked at.
    Priority,
    /// The error code.
    RstStream(u32),
    Settings(SettingsPart<'a>),
    SettingsAck,
    /// Not looked at, since a client may not send it.
    PushPromise,
    /// Eight octets.
    Ping([u8; 8]),
    /// The last stream and the error code.
    Goaway(u32, u32),
    /// The increment.
    WindowUpdate(u32),
    /// A fragment of a field block.
    Continuation(&'a [u8]),
    /// Ignored (RFC 9113, 4.1).
    Unknown,
}

/// What a frame's payload holds, by the frame's type; the refusals are those of the readers above, and PRIORITY
/// has 5 octets, PING 8 (RFC 9113, 6).
#[inline(always)]
#[tactic(auto, unfolding(h2_spec::specs::Frames::Payload::part_as))]
pub fn part_of(frame: FrameRef<'_>) -> Result<Part<'_>, Cause>
    ensures { seen part_seen result ≡ spec.part_of frame.entry.head frame.entry.payload.now }
{
    match frame.head.frame_type() {
        FrameType::Data => Ok(Part::Data(data_of(frame)?)),
        FrameType::Headers => Ok(Part::Headers(headers_of(frame)?)),
        FrameType::Priority => priority_part(frame.payload),
        FrameType::RstStream => Ok(Part::RstStream(reset_of(frame)?)),
        FrameType::Settings => settings_or_ack(frame),
        FrameType::PushPromise => Ok(Part::PushPromise),
        FrameType::Ping => Ok(Part::Ping(ping_octets(frame.payload)?)),
        FrameType::Goaway => {
            let (last, code) = goaway_of(frame)?;
            Ok(Part::Goaway(last, code))
        }
        FrameType::WindowUpdate => Ok(Part::WindowUpdate(window_of(frame)?)),
        FrameType::Continuation => Ok(Part::Continuation(frame.payload)),
        FrameType::Unknown(_) => Ok(Part::Unknown),
    }
}

/// The eight octets of a PING.
fn ping_octets(octets: &[u8]) -> Result<[u8; 8], Cause>
    ensures { result ≡ (if length octets.now == 8 then Ok octets.now else Err PingLength) }
{
    match <[u8; 8]>::try_from(octets) {
        Ok(eight) => Ok(eight),
        Err(_) => Err(Cause::PingLength),
    }
}

/// The five octets of a PRIORITY frame, which are not looked at.
fn priority_part(octets: &[u8]) -> Result<Part<'_>, Cause>
    ensures { seen part_seen result ≡ of_length 5 PriorityLength OfPriority octets.now }
{
    if octets.len() != 5 {
        return Err(Cause::PriorityLength);
    }
    Ok(Part::Priority)
}

/// The settings of a SETTINGS frame, or its acknowledgement.
fn settings_or_ack(frame: FrameRef<'_>) -> Result<Part<'_>, Cause>
    requires { frame.head.kind ≡ SETTINGS }
    ensures { seen part_seen result ≡ with_part (settings_or_ack (has frame.entry.head.flags ACK)) (settings_part frame.entry.head.flags frame.entry.payload.now) }
{
    let settings = settings_of(frame)?;
    if frame.head.has(ACK) {
        return Ok(Part::SettingsAck);
    }
    Ok(Part::Settings(settings))
}
