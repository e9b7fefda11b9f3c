//! The octets of a server as they arrive, and the events in them. Definitions: `specs/Readings.antt`.

ghost use Rattle.std.specs.Prelude.{◌≡◌, IfOk, OnOk};
ghost use Rattle.std.specs.Option.{option_map};
ghost use Rattle.h2_frame.specs.Parts.{settings_in};
ghost use Rattle.h2_cmd_judge.specs.Readings.{announced, first_settings, is_http1, new_reading, read_more, value_among, value_with};

use crate::event::Seen;
use crate::frames::ServerFrames;
use h2_explain_words::sent::next_frame;
use h2_frame::{Part, SettingsPart, part_of};
use std::alloc::{AllocError, Global};
use std::marker::Model;

/// What arrived of a server.
#[derive(Drop)]
pub struct Reading {
    /// All octets.
    octets: Vec<u8>,
    frames: ServerFrames,
    /// The octets at the end that are no whole frame yet.
    rest: Vec<u8>,
    events: Vec<Seen>,
}

impl Model for Reading {
    ghost use Rattle.h2_cmd_judge.specs.Readings as readings;

    ghost Value = { readings.Reading };

    ghost view = { λ r. record { octets = r.octets.items; frames = r.frames; rest = r.rest.items; events = r.events.items } };
}

/// Whether octets begin as an answer in HTTP/1.1 does (RFC 9112, 4).
pub fn is_http1(octets: &[u8]) -> bool
    ensures { result ≡ is_http1 octets.now }
{
    octets.starts_with(b"HTTP/1".as_slice())
}

/// The settings of the frame that octets begin with, if it is SETTINGS (RFC 9113, 3.4).
fn first_settings(octets: &[u8]) -> Option<SettingsPart<'_>>
    ensures { option_map settings_in result ≡ first_settings octets.now }
{
    let (frame, _) = next_frame(octets)?;
    match part_of(frame) {
        Ok(Part::Settings(settings)) => Some(settings),
        _ => None,
    }
}

/// A value, or another where an identifier is that of a setting.
fn value_with(pair: (u16, u32), id: u16, value: u32) -> u32
    ensures { result ≡ value_with id value pair }
{
    if pair.0 == id { pair.1 } else { value }
}

/// The last value of a setting among settings; another where it is not there.
fn value_among(settings: SettingsPart<'_>, id: u16, other: u32) -> u32
    ensures { result ≡ value_among id other (settings_in settings.entry) }
{
    let mut value = other;
    for place in 0..settings.count() {
        value = value_with(settings.pair_at(place), id, value);
    }
    value
}

/// The value of a setting that a server announces in the first frame of its octets (RFC 9113, 3.4 and 6.5.2); another where it
/// announces none.
pub fn announced(octets: &[u8], id: u16, other: u32) -> u32
    ensures { result ≡ announced octets.now id other }
{
    match first_settings(octets) {
        Some(settings) => value_among(settings, id, other),
        None => other,
    }
}

impl Reading {
    /// Nothing has arrived.
    ///
    /// `AllocError` where memory is refused.
    pub fn new(alloc: Global) -> Result<Reading, AllocError>
        ensures { IfOk result (λ reading. reading ≡ new_reading) }
    {
        let frames = ServerFrames::new(alloc)?;
        Ok(Reading {
            octets: Vec::new(alloc),
            frames,
            rest: Vec::new(alloc),
            events: Vec::new(alloc),
        })
    }

    /// All octets that arrived.
    pub fn octets(&self) -> &[u8]
        ensures { result.now ≡ self.now.octets }
    {
        self.octets.as_slice()
    }

    /// The events in them.
    pub fn events(&self) -> &[Seen]
        ensures { result.now ≡ self.now.events }
    {
        self.events.as_slice()
    }

    /// Octets arrive after the item with this number.
    ///
    /// `AllocError` where memory is refused: no more octets should be taken.
    pub fn take(&mut self, alloc: Global, octets: &[u8], after: u32) -> Result<(), AllocError>
        ensures { OnOk result (self.new ≡ read_more after self.old octets.now) }
    {
        self.octets.extend_from_slice(octets)?;
        self.rest.extend_from_slice(octets)?;
        let rest = self
            .frames
            .read_on(self.rest.as_slice(), after, &mut self.events)?;
        let left = Vec::from_slice(alloc, rest)?;
        self.rest = left;
        Ok(())
    }
}
