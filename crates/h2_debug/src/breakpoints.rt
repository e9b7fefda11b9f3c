//! Breakpoints: a position, or the type of an item, its stream, or the type of a frame sent for it. Definition:
//! `matches` of h2_spec's `specs/Texts/Debug.antt`.

ghost use Rattle.std.specs.Prelude.{◌≡◌, ℕ, ◌<◌, ◌++◌, ◌==◌, [], List, length, map, if◌then◌else◌, IfSome, IsSomeAnd};
ghost use Rattle.std.specs.List.{list_any};
ghost use Rattle.h2_spec.specs.Texts.Debug.{matches};
ghost use Rattle.h2_spec.specs.Frames.Frame.{Frame, frame_octets, frames_octets, head_at};
ghost use Rattle.h2_spec.specs.Trace.{Event};
ghost use Rattle.h2_spec.specs.Does.{AreShort, IsShortFrame};
ghost use Rattle.h2_debug.specs.Breakpoints.{break_of};
ghost use Rattle.h2_debug.specs.Items.{IsItem, head_of_item};

use h2_frame::read_head;
use h2_spec::frames::Head;

/// Where a run stops.
#[derive(Clone, Copy)]
pub enum Break {
    /// At this position.
    Position(usize),
    /// After an item whose head has this type (RFC 9113, 4.1); the preface has none.
    Type(u8),
    /// After an item whose head has this stream; the preface has none.
    Stream(u32),
    /// After an item for which a frame of this type is sent.
    Sent(u8),
}

/// The type of the first frame and the octets after it; `None` where the octets are no whole frame.
fn first_frame(octets: &[u8]) -> Option<(u8, &[u8])>
    ensures none { octets.now ≡ [] → result ≡ None }
    ensures some { (f : Frame) (more : List ℕ) → octets.now ≡ frame_octets f ++ more → IsShortFrame f → IsSomeAnd result (λ x. (x.0 ≡ f.kind) × (x.1.now ≡ more)) }
    ensures shorter { IfSome result (λ x. length x.1.now < length octets.now) }
{
    let head = read_head(octets)?;
    let size = 9 + head.length as usize;
    if octets.len() < size {
        return None;
    }
    Some((head.kind, &octets[size..]))
}

// Reads the octets sent once more: no memory, and one record of what was sent.
/// Whether one of the frames that the octets are has this type.
fn sends(octets: &[u8], kind: u8) -> bool
    ensures { (frames : List Frame) → octets.now ≡ frames_octets frames → AreShort frames → result ≡ list_any (λ f. f.kind == kind) frames }
{
    let mut rest = octets;
    while let Some((found, more)) = first_frame(rest) {
        if found == kind {
            return true;
        }
        rest = more;
    }
    false
}

/// The head of the item that leads to a position, from the octets that begin with it; the preface, which leads to
/// position 1, has none.
fn head_of(position: usize, octets: &[u8]) -> Option<Head>
    ensures { result ≡ (if position == 1 then None else head_at octets.now) }
{
    if position == 1 {
        None
    } else {
        read_head(octets)
    }
}

/// Whether a breakpoint matches the item that leads to a position, with this head, for which these octets were sent.
fn is_match(stop: Break, position: usize, head: Option<Head>, sent: &[u8]) -> bool
    ensures { (e : Event) → head_of_item e.item ≡ head → sent.now ≡ frames_octets e.sent → AreShort e.sent → result ≡ matches position e (break_of stop) }
{
    match stop {
        Break::Position(at) => at == position,
        Break::Type(kind) => match head {
            None => false,
            Some(head) => head.kind == kind,
        },
        Break::Stream(id) => match head {
            None => false,
            Some(head) => head.stream == id,
        },
        Break::Sent(kind) => sends(sent, kind),
    }
}

/// Whether one of the breakpoints matches the item that leads to a position: `octets` begin with it, and `sent` was
/// sent for it.
pub fn any_match(breaks: &[Break], position: usize, octets: &[u8], sent: &[u8]) -> bool
    ensures { (e : Event) → IsItem position octets.now sent.now e → result ≡ list_any (matches position e) (map break_of breaks.now) }
{
    let head = head_of(position, octets);
    for stop in breaks {
        if is_match(*stop, position, head, sent) {
            return true;
        }
    }
    false
}
