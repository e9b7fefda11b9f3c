//! Frames in octets, one after another. The definition is `first_frame` of specs/Sent.antt.

ghost use Rattle.std.specs.Prelude.{◌≡◌, take, drop, option_map};
ghost use Rattle.h2_explain_words.specs.Sent.{first_frame, first_seen};

use h2_frame::{FrameRef, read_head};
use h2_spec::octets::{first_octets, octets_from};

/// The octets after the nine of a head; none where there are fewer (RFC 9113, 4.1).
pub fn behind_head(octets: &[u8]) -> &[u8]
    ensures { result.now ≡ drop 9 octets.now }
{
    if octets.len() < 9 {
        return &[];
    }
    octets_from(octets, 9)
}

/// The frame at the front of octets, and the octets after it; `None` where not all of its octets are there (RFC 9113,
/// 4.1).
pub fn next_frame(octets: &[u8]) -> Option<(FrameRef<'_>, &[u8])>
    ensures { option_map first_seen result ≡ first_frame octets.now }
{
    let head = read_head(octets)?;
    let rest = behind_head(octets);
    let length = head.length as usize;
    if rest.len() < length {
        return None;
    }
    let payload = first_octets(rest, length);
    Some((FrameRef { head, payload }, octets_from(rest, length)))
}
