//! The octets of a read, cut into portions that complete at most one item each.

ghost use Rattle.std.specs.Prelude.{◌≡◌, ◌<◌, ◌≤◌, length};

use h2_explain_text::rest::missing_of;
use h2_frame::read_head;
use h2_spec::connection::Phase;
use h2_spec::frames::PREFACE;
use h2_spec::octets::octets_from;

/// How many of these octets complete a preface after those that are held; all where they do not, since a connection
/// error shows the whole first line then (RFC 9113, 3.4).
fn preface_rest(held: &[u8], octets: &[u8]) -> usize {
    let rest = octets_from(&PREFACE, held.len().min(PREFACE.len()));
    if octets.starts_with(rest) {
        rest.len()
    } else {
        octets.len()
    }
}

/// How many octets complete a frame after those that are held, as far as its head is there (RFC 9113, 4.1).
fn frame_rest(phase: Phase, held: &[u8], octets: &[u8]) -> usize {
    if !held.is_empty() {
        return missing_of(phase, held).needs;
    }
    match read_head(octets) {
        Some(head) => 9 + head.length as usize,
        None => octets.len(),
    }
}

/// How many of these octets to take at once after those that are held, so that they complete at most one item: at least
/// one.
pub(crate) fn portion_of(phase: Phase, held: &[u8], octets: &[u8]) -> usize
    requires { 0 < length octets.now }
    ensures some { 0 < result }
    ensures within { result ≤ length octets.now }
{
    let rest = match phase {
        Phase::Preface => preface_rest(held, octets),
        Phase::Settings | Phase::Running => frame_rest(phase, held, octets),
        Phase::Ended(_) => octets.len(),
    };
    rest.max(1).min(octets.len())
}
