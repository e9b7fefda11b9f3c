//! Heads of frames: reading them, and writing whole frames (RFC 9113, 4.1). The program does not call `write_frame`,
//! which is for users of the library: `append_frame` does the same for a payload in two parts. Definitions:
//! `h2_spec/specs/Frames/Frame.antt`.

ghost use Rattle.std.specs.Prelude.{◌≡◌, ℕ, ◌+◌, ◌<◌, ◌≤◌, ◌^◌, ◌∷◌, ◌++◌, List, drop, length, false, Some, OnOk, OnErr};
ghost use Rattle.h2_spec.specs.Frames.Frame.{head_at, head_of, frame, frame_octets, frame_of};
ghost use Rattle.h2_spec.specs.Octets.{big_endian};

use crate::cuts::u31_at;
use crate::outgoing::Outgoing;
use h2_spec::frames::Head;
use std::alloc::{AllocError, Allocator};

/// A whole frame: its head, and its payload where it lies.
#[derive(Clone, Copy)]
pub struct FrameRef<'a> {
    /// The head.
    pub head: Head,
    /// As many octets as the head's length says.
    pub payload: &'a [u8],
}

/// The head in the first nine octets; `None` where there are fewer (RFC 9113, 4.1).
#[tactic(auto, unfolding(h2_spec::specs::Frames::Frame::head_at))]
pub fn read_head(octets: &[u8]) -> Option<Head>
    ensures { result ≡ head_at octets.now }
{
    if octets.len() < 9 {
        return None;
    }
    Some(first_head(octets))
}

/// The head that the first nine octets spell.
#[tactic(auto, unfolding(h2_spec::specs::Frames::Frame::head_of))]
pub(crate) fn first_head(octets: &[u8]) -> Head
    requires { 9 ≤ length octets.now }
    ensures { result ≡ head_of octets.now }
{
    let length = u32::from(octets[0]) * 65536 + u32::from(octets[1]) * 256 + u32::from(octets[2]);
    Head {
        length,
        kind: octets[3],
        flags: octets[4],
        reserved: octets[5] >= 128,
        stream: u31_at(octets, 5),
    }
}

/// Appends the frame with this head and payload to `out` (RFC 9113, 4.1).
///
/// The head's length is the payload's. The reserved bit is written as 0 whatever the head says, so what is read back
/// is the head with that bit 0.
/// `AllocError` where `out` could not grow; then `out` is as before.
pub fn write_frame<'b, A: Allocator, O: Outgoing<'b, A>>(
    head: &Head,
    payload: &[u8],
    out: &mut O,
) -> Result<(), AllocError>
    requires length { head.now.length ≡ length payload.now }
    requires fits { head.now.length < 2 ^ 24 }
    requires stream { head.now.stream < 2 ^ 31 }
    ensures ok { OnOk result (O.octets out.new ≡ O.octets out.old ++ frame_octets (frame_of head.now payload.now)) }
    ensures read_back { OnOk result ((more : List ℕ) → head_at (drop (length (O.octets out.old)) (O.octets out.new) ++ more) ≡ Some (record head.now { reserved = false })) }
    ensures no_memory { OnErr result (O.octets out.new ≡ O.octets out.old) }
{
    append_frame(head.kind, head.flags, head.stream, &[], payload, out)
}

/// Appends a frame whose payload is in two parts, as a response's header block after a table size update.
///
/// The last four octets of its head write `stream`: an identifier, or 2^31 more where the reserved bit is to be set.
/// `AllocError` where `out` could not grow; then `out` is as before.
#[tactic(auto, unfolding(h2_spec::specs::Frames::Frame::frame_octets))]
pub fn append_frame<'b, A: Allocator, O: Outgoing<'b, A>>(
    kind: u8,
    flags: u8,
    stream: u32,
    front: &[u8],
    rest: &[u8],
    out: &mut O,
) -> Result<(), AllocError>
    requires fits { length front.now + length rest.now < 2 ^ 24 }
    ensures ok { OnOk result (O.octets out.new ≡ O.octets out.old ++ frame_octets (frame kind flags stream (front.now ++ rest.now))) }
    ensures no_memory { OnErr result (O.octets out.new ≡ O.octets out.old) }
{
    let count = front.len() + rest.len();
    let head = head_octets(count as u32, kind, flags, stream);
    out.append_copied(&head, front, rest)
}

/// Appends a frame whose payload is lent: `out` may keep it by reference.
///
/// As `append_frame`, also where memory is refused.
#[tactic(auto, unfolding(h2_spec::specs::Frames::Frame::frame_octets))]
pub fn lend_frame<'b, A: Allocator, O: Outgoing<'b, A>>(
    kind: u8,
    flags: u8,
    stream: u32,
    payload: &'b [u8],
    out: &mut O,
) -> Result<(), AllocError>
    requires fits { length payload.now < 2 ^ 24 }
    ensures ok { OnOk result (O.octets out.new ≡ O.octets out.old ++ frame_octets (frame kind flags stream payload.now)) }
    ensures no_memory { OnErr result (O.octets out.new ≡ O.octets out.old) }
{
    let head = head_octets(payload.len() as u32, kind, flags, stream);
    out.append_lent(&head, payload)
}

/// The nine octets of a head; the last four write the number of its stream, with the reserved bit where that has it.
fn head_octets(length: u32, kind: u8, flags: u8, stream: u32) -> [u8; 9]
    ensures { result ≡ big_endian 3 length ++ kind ∷ flags ∷ big_endian 4 stream }
{
    let length = length.to_be_bytes();
    let stream = stream.to_be_bytes();
    [
        length[1], length[2], length[3], kind, flags, stream[0], stream[1], stream[2], stream[3],
    ]
}
