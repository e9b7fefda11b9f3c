//! An item that was taken, with what was before it and what is after it. Definitions: `specs/Item.antt`.

ghost use Rattle.std.specs.Prelude.{◌≡◌, is_some};
ghost use Rattle.std.specs.Option.{option_map};
ghost use Rattle.h2_spec.specs.State.{ended_code};
ghost use Rattle.h2_frame.specs.Parts.{part_seen};
ghost use Rattle.h2_explain_item.specs.Item.{frame_in, frame_seen, head_in, part_in, payload_in};

use h2_frame::{FrameRef, Part, part_of};
use h2_spec::causes::Cause;
use h2_spec::connection::{BlockView, ConnectionState, Phase};
use h2_spec::frames::{Head, ItemHead};
use h2_spec::ignored::Ignored;
use h2_spec::octets::octets_from;
use h2_spec::streams::Stream;

/// What is looked at of a connection at one moment: nothing of it needs a step over all streams.
#[derive(Clone, Copy)]
pub struct Moment {
    /// The counts of the connection: its phase, windows and settings.
    pub counts: ConnectionState,
    /// The open field block.
    pub block: Option<BlockView>,
    /// The entries of the header table.
    pub entries: usize,
    /// What they count together (RFC 7541, 4.1).
    pub table_size: usize,
    /// The table's maximum (RFC 7541, 4.2).
    pub table_max: u32,
    /// The stream that the item is on, stream 0 where it is on none.
    pub stream: Stream,
}

/// An item of a connection that was taken.
#[derive(Clone, Copy)]
pub struct Explained<'o> {
    /// Its number: the preface is 1.
    pub number: u64,
    /// How many octets came before it.
    pub offset: usize,
    /// Its octets.
    pub octets: &'o [u8],
    /// Its octets and those after them that are there already.
    pub ahead: &'o [u8],
    /// How many octets it has.
    pub used: usize,
    /// What it is.
    pub what: ItemHead,
    /// What its payload holds, if it is a whole frame whose payload can be read (RFC 9113, 6): what `part_in` gives.
    pub part: Option<Part<'o>>,
    /// Why it is a connection error or a stream error, if it is one (RFC 9113, 5.4).
    pub cause: Option<Cause>,
    /// Why it is ignored, if it is.
    pub ignored: Option<Ignored>,
    /// The octets that were sent for it.
    pub sent: &'o [u8],
    /// The connection before it.
    pub before: Moment,
    /// The connection after it.
    pub after: Moment,
    /// The part is that of the item's own octets.
    pub ghost part_is: { option_map part_seen part ≡ part_in (frame_in what octets.now) },
}

/// The octets of an item after the nine of a frame's head.
fn payload_in(octets: &[u8]) -> &[u8]
    ensures { result.now ≡ payload_in octets.now }
{
    if octets.len() < 9 {
        return &[];
    }
    octets_from(octets, 9)
}

/// The frame that an item is, if it is a whole one.
fn frame_in(what: ItemHead, octets: &[u8]) -> Option<FrameRef<'_>>
    ensures { option_map frame_seen result ≡ frame_in what octets.now }
{
    match what {
        ItemHead::Frame(head) => Some(FrameRef {
            head,
            payload: payload_in(octets),
        }),
        ItemHead::Oversize(_) | ItemHead::Preface | ItemHead::BadPreface => None,
    }
}

/// What the payload of the frame that an item is holds, if it is a whole one and can be read (RFC 9113, 6).
pub fn part_in(what: ItemHead, octets: &[u8]) -> Option<Part<'_>>
    ensures { option_map part_seen result ≡ part_in (frame_in what octets.now) }
{
    match part_of(frame_in(what, octets)?) {
        Ok(part) => Some(part),
        Err(_) => None,
    }
}

impl Explained<'_> {
    /// The head of the frame, if the item is one: a whole one, or one that is longer than frames may be (RFC 9113, 4.1
    /// and 4.2).
    pub fn head(&self) -> Option<Head>
        ensures { result ≡ head_in self.now.what }
    {
        match self.what {
            ItemHead::Frame(head) | ItemHead::Oversize(head) => Some(head),
            ItemHead::Preface | ItemHead::BadPreface => None,
        }
    }

    /// The octets after the nine of a frame's head: none of a frame of which only the head has arrived (RFC 9113, 4.1).
    pub fn payload(&self) -> &[u8]
        ensures { result.now ≡ payload_in self.now.octets.now }
    {
        payload_in(self.octets)
    }

    /// Whether it ended the connection, as a connection error (RFC 9113, 5.4.1).
    pub fn ends_connection(&self) -> bool
        ensures { result ≡ is_some (ended_code self.now.after.counts.phase) }
    {
        matches!(self.after.counts.phase, Phase::Ended(_))
    }

    /// The frame, if the item is a whole one (RFC 9113, 4.1).
    pub fn frame(&self) -> Option<FrameRef<'_>>
        ensures { option_map frame_seen result ≡ frame_in self.now.what self.now.octets.now }
    {
        frame_in(self.what, self.octets)
    }
}
