//! Texts that are put together part by part. No definition speaks of them.

ghost use Rattle.std.specs.Prelude.{◌≡◌, ◌+◌, ◌≤◌, length, IfSome};

use crate::plain::{is_all_plain, is_plain};
use h2_spec::octets::{first_octets, octets_from};
use itoa::Buffer;
use std::alloc::{AllocError, Allocator, Global};

// Octets with space after them: 9 instructions and the copy for a part, where a `String` takes 55. Only UTF-8
// is put there; `finish` tests it once.
/// A text that grows. Once memory for a part of it is refused, there is no text: so only its end asks whether memory was
/// refused.
#[derive(Drop)]
pub struct TextBuilder<A: Allocator = Global> {
    /// The text in UTF-8, and octets after it that mean nothing: a part goes in their place, and takes memory only where
    /// they are too few.
    octets: Vec<u8, A>,
    /// How many octets the text has.
    len: usize,
    refused: bool,
    /// How many octets of a long text are shown.
    shown: usize,
}

/// How many octets of a long text are shown, where it is not shown whole.
const SHOWN: usize = 100;

/// How many octets a text has space for at first: the lines of a GET and of its answer fit.
const ROOM: usize = 1000;

/// How many octets of a long text are shown: all where this is asked for.
fn shown_octets(is_whole: bool) -> usize {
    if is_whole { usize::MAX } else { SHOWN }
}

impl<A: Allocator> TextBuilder<A> {
    /// No part yet; of a long text the first 100 octets are shown. Takes no memory.
    pub fn new(alloc: A) -> Self {
        Self::with(alloc, false)
    }

    /// No part yet; long texts are shown whole where this is asked for, else as by `new`. Takes no memory.
    pub fn with(alloc: A, is_whole: bool) -> Self {
        Self::over(Vec::new(alloc), is_whole)
    }

    /// No part yet, in the memory of these octets; long texts are shown whole where this is asked for.
    pub fn over(octets: Vec<u8, A>, is_whole: bool) -> Self {
        Self {
            octets,
            len: 0,
            refused: false,
            shown: shown_octets(is_whole),
        }
    }

    /// What is shown of octets: the first of them, or all.
    pub fn shown_of<'o>(&self, octets: &'o [u8]) -> &'o [u8] {
        first_octets(octets, self.shown)
    }

    /// The text.
    ///
    /// # Errors
    ///
    /// `AllocError` where memory for a part was refused.
    pub fn finish(self) -> Result<String<A>, AllocError> {
        match String::from_utf8(self.into_octets()?) {
            Ok(text) => Ok(text),
            Err(_) => Err(AllocError),
        }
    }

    /// The octets of the text, in UTF-8.
    ///
    /// # Errors
    ///
    /// `AllocError` where memory for a part was refused.
    pub fn into_octets(self) -> Result<Vec<u8, A>, AllocError> {
        if self.refused {
            return Err(AllocError);
        }
        let mut octets = self.octets;
        octets.truncate(self.len);
        Ok(octets)
    }

    /// The octets so far, in UTF-8.
    ///
    /// # Errors
    ///
    /// `AllocError` where memory for a part was refused.
    pub fn octets(&self) -> Result<&[u8], AllocError> {
        if self.refused {
            return Err(AllocError);
        }
        Ok(first_octets(self.octets.as_slice(), self.len))
    }

    /// As if no part had been put: the memory stays. Long texts are shown whole where this is asked for.
    pub fn clear(&mut self, is_whole: bool) {
        self.len = 0;
        self.refused = false;
        self.shown = shown_octets(is_whole);
    }

    /// How many octets it has so far.
    pub fn len(&self) -> usize {
        self.len
    }

    /// Puts an end to it: memory for what belongs into the text was refused.
    pub fn refuse(&mut self) {
        self.refused = true;
    }

    /// Takes memory for this many octets more at once, and for a line or two at first, so that few parts make the text
    /// grow.
    #[cold]
    #[inline(never)]
    fn reserve(&mut self, more: usize) {
        let wanted = self.len.saturating_add(more);
        let held = self.octets.capacity();
        let size = if wanted <= held {
            held
        } else {
            wanted.max(held.saturating_mul(2)).max(ROOM)
        };
        if self.refused || self.octets.resize(size, 0).is_err() {
            self.refused = true;
        }
    }

    /// The end of the text with this many octets more, where there is space for them.
    #[inline(always)]
    fn end_with(&self, more: usize) -> Option<usize>
        ensures { IfSome result (λ end. (end ≡ self.now.len + more) × (end ≤ length self.now.octets.items)) }
    {
        match self.len.checked_add(more) {
            Some(end) if end <= self.octets.len() => Some(end),
            _ => None,
        }
    }

    /// Puts octets of UTF-8 last, if there is space for them.
    #[inline(always)]
    fn has_put(&mut self, octets: &[u8]) -> bool {
        let Some(end) = self.end_with(octets.len()) else {
            return false;
        };
        self.octets[self.len..end].copy_from_slice(octets);
        self.len = end;
        true
    }

    /// Puts octets of UTF-8 last, for which there is no space yet.
    #[cold]
    #[inline(never)]
    fn put_in_more(&mut self, octets: &[u8]) {
        self.reserve(octets.len());
        if !self.has_put(octets) {
            self.refused = true;
        }
    }

    /// Puts octets of UTF-8 last.
    #[inline(always)]
    pub(crate) fn utf8(&mut self, octets: &[u8]) {
        if !self.has_put(octets) {
            self.put_in_more(octets);
        }
    }

    /// Puts an octet of UTF-8 last.
    #[inline(always)]
    pub(crate) fn octet(&mut self, octet: u8) {
        self.utf8(&[octet]);
    }

    /// Puts a text last.
    #[inline(always)]
    pub(crate) fn text(&mut self, part: &str) {
        self.utf8(part.as_bytes());
    }

    /// Puts a character last.
    #[inline(always)]
    fn character(&mut self, part: char) {
        if part.is_ascii() {
            self.octet(part as u8);
        } else {
            let mut space = [0u8; 4];
            self.text(part.encode_utf8(&mut space));
        }
    }

    /// Puts the digits of octets last.
    fn digits(&mut self, octets: &[u8]) {
        let count = octets.len().saturating_mul(2);
        if self.end_with(count).is_none() {
            self.reserve(count);
        }
        let Some(end) = self.end_with(count) else {
            self.refused = true;
            return;
        };
        let space = &mut self.octets[self.len..end];
        if hex::encode_to_slice(octets, space).is_ok() {
            self.len = end;
        }
    }

    /// The octets from a place on.
    pub(crate) fn octets_from(&self, start: usize) -> &[u8] {
        let octets = first_octets(self.octets.as_slice(), self.len);
        octets_from(octets, start.min(octets.len()))
    }

    /// The octet at a place, if there is one.
    pub(crate) fn octet_at(&self, place: usize) -> Option<u8> {
        self.octets.get(place).copied()
    }

    /// Takes the octets between two places out.
    pub(crate) fn remove(&mut self, start: usize, end: usize) {
        if start <= end && end <= self.len && self.len <= self.octets.len() {
            self.octets.drain(start..end);
            self.len -= end - start;
        }
    }

    /// Puts an octet of a text last: as it is, or as `\` and two digits.
    fn text_octet(&mut self, octet: u8) {
        if is_plain(octet) {
            self.octet(octet);
        } else {
            self.octet(b'\\');
            self.digits(&[octet]);
        }
    }
}

/// A part of a text.
pub trait Say {
    /// Puts the part last.
    fn say<A: Allocator>(self, out: &mut TextBuilder<A>);
}

/// Puts two parts last. Several parts are one call, since the proof of a function pays for each call.
pub fn say_two<A: Allocator, P: Say, Q: Say>(first: P, second: Q, out: &mut TextBuilder<A>) {
    first.say(out);
    second.say(out);
}

/// Puts three parts last.
pub fn say_three<A: Allocator, P: Say, Q: Say, R: Say>(
    first: P,
    second: Q,
    third: R,
    out: &mut TextBuilder<A>,
) {
    first.say(out);
    second.say(out);
    third.say(out);
}

/// Puts four parts last.
pub fn say_four<A: Allocator, P: Say, Q: Say, R: Say, S: Say>(
    first: P,
    second: Q,
    third: R,
    fourth: S,
    out: &mut TextBuilder<A>,
) {
    first.say(out);
    second.say(out);
    third.say(out);
    fourth.say(out);
}

/// Puts five parts last.
pub fn say_five<A: Allocator, P: Say, Q: Say, R: Say, S: Say, T: Say>(
    first: P,
    second: Q,
    third: R,
    fourth: S,
    fifth: T,
    out: &mut TextBuilder<A>,
) {
    first.say(out);
    second.say(out);
    third.say(out);
    fourth.say(out);
    fifth.say(out);
}

/// Puts parts last, one after another, five in a call.
#[macro_export]
macro_rules! say_all {
    ($out:expr; $a:expr $(,)?) => { $crate::say::Say::say($a, $out) };
    ($out:expr; $a:expr, $b:expr $(,)?) => { $crate::say::say_two($a, $b, $out) };
    ($out:expr; $a:expr, $b:expr, $c:expr $(,)?) => { $crate::say::say_three($a, $b, $c, $out) };
    ($out:expr; $a:expr, $b:expr, $c:expr, $d:expr $(,)?) => {
        $crate::say::say_four($a, $b, $c, $d, $out)
    };
    ($out:expr; $a:expr, $b:expr, $c:expr, $d:expr, $e:expr $(,)?) => {
        $crate::say::say_five($a, $b, $c, $d, $e, $out)
    };
    ($out:expr; $a:expr, $b:expr, $c:expr, $d:expr, $e:expr, $($more:expr),+ $(,)?) => {{
        $crate::say::say_five($a, $b, $c, $d, $e, $out);
        $crate::say_all!($out; $($more),+);
    }};
}

impl Say for &str {
    fn say<A: Allocator>(self, out: &mut TextBuilder<A>) {
        out.text(self);
    }
}

impl Say for char {
    fn say<A: Allocator>(self, out: &mut TextBuilder<A>) {
        out.character(self);
    }
}

impl Say for u64 {
    fn say<A: Allocator>(self, out: &mut TextBuilder<A>) {
        if self < 10 {
            out.octet(b'0' + self as u8);
            return;
        }
        let mut buffer = Buffer::new();
        out.text(buffer.format(self));
    }
}

impl Say for i64 {
    fn say<A: Allocator>(self, out: &mut TextBuilder<A>) {
        let mut buffer = Buffer::new();
        out.text(buffer.format(self));
    }
}

impl Say for u32 {
    fn say<A: Allocator>(self, out: &mut TextBuilder<A>) {
        u64::from(self).say(out);
    }
}

impl Say for usize {
    fn say<A: Allocator>(self, out: &mut TextBuilder<A>) {
        (self as u64).say(out);
    }
}

/// Octets as lower-case hex digits.
#[derive(Clone, Copy)]
pub struct Hex<'a>(pub &'a [u8]);

impl Say for Hex<'_> {
    fn say<A: Allocator>(self, out: &mut TextBuilder<A>) {
        out.digits(self.0);
    }
}

/// An octet as `0x2a`.
#[derive(Clone, Copy)]
pub struct HexOctet(pub u8);

impl Say for HexOctet {
    fn say<A: Allocator>(self, out: &mut TextBuilder<A>) {
        out.text("0x");
        out.digits(&[self.0]);
    }
}

/// Octets as text: those from a blank to `~` as they are, `"`, `\` and each other octet as `\` and two hex digits.
#[derive(Clone, Copy)]
pub struct EscapedText<'a>(pub &'a [u8]);

impl Say for EscapedText<'_> {
    fn say<A: Allocator>(self, out: &mut TextBuilder<A>) {
        if is_all_plain(self.0) {
            out.utf8(self.0);
            return;
        }
        for octet in self.0 {
            out.text_octet(*octet);
        }
    }
}

/// The first octets of a text, and how many it has where not all are shown.
#[derive(Clone, Copy)]
pub struct Cut<'a>(pub &'a [u8]);

impl Say for Cut<'_> {
    fn say<A: Allocator>(self, out: &mut TextBuilder<A>) {
        let shown = out.shown_of(self.0);
        EscapedText(shown).say(out);
        if self.0.len() > shown.len() {
            out.text(".. of ");
            OctetCount(self.0.len() as u64).say(out);
        }
    }
}

/// A number in its order: `1st`, `2nd`, `3rd`, `4th`.
#[derive(Clone, Copy)]
pub struct Ordinal(pub usize);

/// What is written after a number in its order.
fn ordinal_end(number: usize) -> &'static str {
    match (number % 10, number % 100) {
        (1, end) if end != 11 => "st",
        (2, end) if end != 12 => "nd",
        (3, end) if end != 13 => "rd",
        _ => "th",
    }
}

impl Say for Ordinal {
    fn say<A: Allocator>(self, out: &mut TextBuilder<A>) {
        self.0.say(out);
        out.text(ordinal_end(self.0));
    }
}

/// A number of fields: `1 field`, `2 fields`.
#[derive(Clone, Copy)]
pub struct FieldCount(pub usize);

impl Say for FieldCount {
    fn say<A: Allocator>(self, out: &mut TextBuilder<A>) {
        self.0.say(out);
        out.text(if self.0 == 1 { " field" } else { " fields" });
    }
}

/// A number of octets: `1 octet`, `2 octets`.
#[derive(Clone, Copy)]
pub struct OctetCount(pub u64);

impl Say for OctetCount {
    fn say<A: Allocator>(self, out: &mut TextBuilder<A>) {
        self.0.say(out);
        out.text(if self.0 == 1 { " octet" } else { " octets" });
    }
}
