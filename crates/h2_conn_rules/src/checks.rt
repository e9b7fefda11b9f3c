//! The checks of a frame before it is looked at by its type (RFC 9113, 3.4, 6 and 6.10). Definition:
//! `specs/Checks.antt` there.

ghost use Rattle.std.specs.Prelude.{◌≡◌, ◌<◌};
ghost use Rattle.h2_spec.specs.Frames.FrameType as frame;
ghost use Rattle.h2_spec.specs.Causes.Cause as causes;
ghost use Rattle.h2_spec.specs.Checks as rule;

use h2_spec::causes::Cause;
use h2_spec::connection::Phase;
use h2_spec::frames::{ACK, CONTINUATION, FrameType, Head, SETTINGS};

/// Inside a block on this stream, what is no CONTINUATION of it.
#[tactic(auto, unfolding(h2_spec::specs::Checks::interrupts))]
fn interrupts(block: Option<u32>, head: &Head) -> bool
    ensures { result ≡ rule.interrupts block head.now }
{
    match block {
        None => false,
        Some(stream) => !(head.kind == CONTINUATION && head.stream == stream),
    }
}

/// Why a first frame is refused: it has to be SETTINGS without ACK.
#[tactic(auto, unfolding(h2_spec::specs::Checks::early))]
fn early(phase: Phase, head: &Head) -> Option<Cause>
    ensures { result ≡ rule.early phase head.now }
{
    match phase {
        Phase::Settings => early_as(head),
        Phase::Preface | Phase::Running | Phase::Ended(_) => None,
    }
}

/// Why a frame is no SETTINGS without ACK.
fn early_as(head: &Head) -> Option<Cause>
    ensures { result ≡ rule.early_as head.now }
{
    if head.kind != SETTINGS {
        return Some(Cause::FirstNotSettings);
    }
    if head.has(ACK) {
        return Some(Cause::FirstIsSettingsAck);
    }
    None
}

/// Why a frame of a type may not be on stream 0.
fn on_zero(kind: FrameType) -> Option<Cause>
    ensures { result ≡ rule.on_zero kind }
{
    match kind {
        FrameType::Data => Some(Cause::DataOnStreamZero),
        FrameType::Headers => Some(Cause::HeadersOnStreamZero),
        FrameType::Priority => Some(Cause::PriorityOnStreamZero),
        FrameType::RstStream => Some(Cause::RstStreamOnStreamZero),
        FrameType::Continuation => Some(Cause::ContinuationOnStreamZero),
        FrameType::Settings
        | FrameType::PushPromise
        | FrameType::Ping
        | FrameType::Goaway
        | FrameType::WindowUpdate
        | FrameType::Unknown(_) => None,
    }
}

/// Why a frame of a type may not be on a stream.
fn on_stream(kind: FrameType) -> Option<Cause>
    ensures { result ≡ rule.on_stream kind }
{
    match kind {
        FrameType::Settings => Some(Cause::SettingsOnStream),
        FrameType::Ping => Some(Cause::PingOnStream),
        FrameType::Goaway => Some(Cause::GoawayOnStream),
        FrameType::Data
        | FrameType::Headers
        | FrameType::Priority
        | FrameType::RstStream
        | FrameType::PushPromise
        | FrameType::WindowUpdate
        | FrameType::Continuation
        | FrameType::Unknown(_) => None,
    }
}

/// Why a frame may not be where it is: its stream is 0 or not 0 against the rule of its type.
#[tactic(auto, unfolding(h2_spec::specs::Checks::misplaced))]
fn misplaced(head: &Head) -> Option<Cause>
    ensures { result ≡ rule.misplaced head.now }
{
    let kind = FrameType::of(head.kind);
    if head.stream == 0 {
        on_zero(kind)
    } else {
        on_stream(kind)
    }
}

/// The first cause, if there is one, and else the second.
pub(crate) fn first_of(first: Option<Cause>, second: Option<Cause>) -> Option<Cause>
    ensures { result ≡ causes.first_of first second }
{
    match first {
        Some(cause) => Some(cause),
        None => second,
    }
}

/// Why the head of a frame is a connection error, whatever its payload: the first of these that applies, each
/// PROTOCOL_ERROR. Another frame than its CONTINUATION comes inside a block (RFC 9113, 6.10); the first frame is not
/// SETTINGS without ACK (3.4); the stream is 0 or not 0 against the rule of its type (6). `block` is the stream of the
/// open block, if there is one.
#[tactic(auto, unfolding(h2_spec::specs::Checks::refusal))]
pub fn refusal(block: Option<u32>, phase: Phase, head: &Head) -> Option<Cause>
    ensures { result ≡ rule.refusal block phase head.now }
{
    if interrupts(block, head) {
        return Some(Cause::BlockInterrupted);
    }
    first_of(early(phase, head), misplaced(head))
}

/// Whether an error in the size of such a frame always is one of the connection (RFC 9113, 4.2).
fn concerns_connection(kind: FrameType) -> bool
    ensures { result ≡ rule.concerns_connection kind }
{
    match kind {
        FrameType::Headers
        | FrameType::Settings
        | FrameType::PushPromise
        | FrameType::Ping
        | FrameType::Goaway
        | FrameType::Continuation => true,
        FrameType::Data
        | FrameType::Priority
        | FrameType::RstStream
        | FrameType::WindowUpdate
        | FrameType::Unknown(_) => false,
    }
}

/// Why a frame above the longest one is refused, a connection error FRAME_SIZE_ERROR in any case (RFC 9113, 4.2).
#[tactic(auto, unfolding(h2_spec::specs::Checks::oversize))]
pub fn oversize(head: &Head) -> Cause
    ensures { result ≡ rule.oversize head.now }
{
    if head.stream == 0 || concerns_connection(FrameType::of(head.kind)) {
        Cause::FrameTooLarge
    } else {
        Cause::StreamFrameTooLarge
    }
}
