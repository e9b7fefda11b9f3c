//! The items of a client's octets: the preface, then frames. Definitions: `specs/Items.antt`.

ghost use Rattle.std.specs.Prelude.{◌≡◌, IfSome, ◌≤◌, drop, length, option_map};
ghost use Rattle.h2_cmd_dialogue.specs.Items.{front_of, front_seen, is_client};

use crate::step::Incoming;
use h2_explain_words::sent::next_frame;
use h2_frame::read_head;
use h2_spec::frames::PREFACE;
use h2_spec::octets::{first_octets, octets_from};

/// The longest payload that a server of a dialogue takes.
const MOST_PAYLOAD: u32 = 65_536;

/// The octets from a place on; none where there are fewer.
pub fn behind(octets: &[u8], start: usize) -> &[u8]
    ensures { result.now ≡ drop start octets.now }
{
    if octets.len() < start {
        return &[];
    }
    octets_from(octets, start)
}

/// The item that octets begin with, and how many octets it has, where it is whole.
pub fn front_item(octets: &[u8], has_preface: bool) -> Option<(Incoming<'_>, usize)>
    ensures item { option_map front_seen result ≡ front_of has_preface octets.now }
    ensures within { IfSome result (λ x. x.1 ≤ length octets.now) }
{
    if has_preface {
        let (frame, _) = next_frame(octets)?;
        return Some((Incoming::Frame(frame), 9 + frame.payload.len()));
    }
    if octets.len() < 24 {
        return None;
    }
    Some((Incoming::Preface, 24))
}

/// Whether octets begin as those of a client do: with the preface, and then with a frame that is not too long.
#[tactic(auto, unfolding(h2_spec::specs::Frames::Frame::preface))]
pub fn is_client(octets: &[u8], has_preface: bool) -> bool
    ensures { result ≡ is_client has_preface octets.now }
{
    if !has_preface {
        let front = first_octets(octets, PREFACE.len());
        return PREFACE.starts_with(front);
    }
    match read_head(octets) {
        Some(head) => head.length <= MOST_PAYLOAD,
        None => true,
    }
}
