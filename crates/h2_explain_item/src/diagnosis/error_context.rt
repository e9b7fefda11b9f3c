//! What a sentence about an error can draw its values from. Definitions: `specs/ErrorContext.antt`.

ghost use Rattle.std.specs.Prelude.{◌≡◌};
ghost use Rattle.h2_explain_item.specs.Item.{frame_in, head_in, part_in, payload_in};
ghost use Rattle.h2_explain_item.specs.ErrorContext.{fixed_in, increment_in, length_in, pad_in, setting_in, type_in};
ghost use Rattle.h2_explain_item.specs.Notes.{note_of};

use crate::change::header_table::Followed;
use crate::item::Explained;
use crate::notes::{Notes, StreamNote};
use crate::shown_block::{BlockReader, SpelledFields};
use h2_explain_words::spelled::Stopped;
use h2_frame::Part;
use h2_spec::causes::Cause;
use h2_spec::connection::Config;
use h2_spec::frames::{END_STREAM, FrameType, PADDED, WITH_PRIORITY};
use std::alloc::{AllocError, Allocator};

/// An item, what was noted before it, the fields of its block, and the limits of the server.
pub struct ErrorContext<'f, 'o, A: Allocator> {
    /// The item that is an error.
    pub item: &'f Explained<'o>,
    /// What was noted before it.
    pub notes: &'f Notes<A>,
    /// The spellings of the item's block.
    pub reader: &'f BlockReader<A>,
    /// Its fields.
    pub fields: SpelledFields<'f, A>,
    /// The client's header table.
    pub table: &'f Followed<A>,
    /// The limits and the settings of the server.
    pub config: Config,
    /// The open or half-closed (remote) stream with the greatest send window, and that window; looked up for
    /// `InitialWindowSizeOverflow` alone.
    pub widest: Option<(u32, i64)>,
    /// Whether the client had ended the stream when the server reset it.
    pub after_end: bool,
}

/// By hand, since a derived `clone` copies field by field.
impl<A: Allocator> Clone for ErrorContext<'_, '_, A> {
    ghost is_clone = { λ x y. y ≡ x };

    ghost is_infallible = { λ _. Unit {0} };

    fn clone(&self) -> Result<Self, AllocError> {
        Ok(*self)
    }
}

impl<A: Allocator> Copy for ErrorContext<'_, '_, A> {}

impl<'f, A: Allocator + Copy> ErrorContext<'f, '_, A> {
    /// The stream that the item is on, 0 for the connection.
    pub fn stream(&self) -> u32
        ensures { result ≡ self.now.item.now.before.stream.id }
    {
        self.item.before.stream.id
    }

    /// The type of the frame; `Unknown(0)` where the item is none (RFC 9113, 4.1).
    pub fn frame_type(&self) -> FrameType
        ensures { result ≡ type_in (head_in self.now.item.now.what) }
    {
        match self.item.head() {
            Some(head) => head.frame_type(),
            None => FrameType::Unknown(0),
        }
    }

    /// The length of the frame's payload in octets, also of one that is too long; 0 where the item is none (RFC 9113,
    /// 4.1).
    pub fn length(&self) -> u64
        ensures { result ≡ length_in (head_in self.now.item.now.what) }
    {
        match self.item.head() {
            Some(head) => u64::from(head.length),
            None => 0,
        }
    }

    /// The octets of the frame's payload, none where only its head has arrived.
    pub fn payload(&self) -> &[u8]
        ensures { result.now ≡ payload_in self.now.item.now.octets.now }
    {
        self.item.payload()
    }

    /// The Pad Length, 0 where there is none (RFC 9113, 6.1 and 6.2).
    pub fn pad(&self) -> u64
        ensures { result ≡ pad_in (payload_in self.now.item.now.octets.now) }
    {
        match self.payload().first() {
            Some(first) => u64::from(*first),
            None => 0,
        }
    }

    /// How many octets the flags of HEADERS put before the fragment: 1 for the Pad Length, 5 for the priority (RFC
    /// 9113, 6.2).
    pub fn fixed(&self) -> u64
        ensures { result ≡ fixed_in (head_in self.now.item.now.what) }
    {
        let Some(head) = self.item.head() else {
            return 0;
        };
        let pad = if head.has(PADDED) { 1 } else { 0 };
        let priority = if head.has(WITH_PRIORITY) { 5 } else { 0 };
        pad + priority
    }

    /// The increment of WINDOW_UPDATE, 0 to 2147483647; 0 where the item is none (RFC 9113, 6.9).
    pub fn increment(&self) -> u32
        ensures { result ≡ increment_in (part_in (frame_in self.now.item.now.what self.now.item.now.octets.now)) }
    {
        match self.item.part {
            Some(Part::WindowUpdate(increment)) => increment,
            _ => 0,
        }
    }

    /// The setting of SETTINGS at a place, from 0: its identifier and its value; `None` after the last one (RFC 9113,
    /// 6.5.1).
    pub fn setting(&self, place: usize) -> Option<(u16, u32)>
        ensures { result ≡ setting_in place (part_in (frame_in self.now.item.now.what self.now.item.now.octets.now)) }
    {
        match self.item.part {
            Some(Part::Settings(part)) => part.pair(place),
            _ => None,
        }
    }

    /// What was noted of the stream, if anything was.
    pub fn note(&self) -> Option<StreamNote>
        ensures { result ≡ note_of self.now.notes.now self.now.item.now.before.stream.id }
    {
        self.notes.of(self.stream())
    }

    /// The fields of the block.
    pub fn fields(&self) -> SpelledFields<'f, A> {
        self.fields
    }

    /// What decoding of the block stopped at, if it did.
    pub fn stopped(&self) -> Option<Stopped> {
        self.reader
            .stopped(matches!(self.item.cause, Some(Cause::IndexOutOfTables)))
    }

    /// Whether the HEADERS of the block had END_STREAM: the open block's, or those on hand (RFC 9113, 6.2).
    pub fn ends(&self) -> bool {
        match (self.item.before.block, self.item.head()) {
            (Some(block), _) => block.ends,
            (None, Some(head)) => head.has(END_STREAM),
            (None, None) => false,
        }
    }
}
