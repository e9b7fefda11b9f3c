//! The octets after the last item: those that make no whole item yet, and those that are not read after the end.
//! Definitions: `specs/Rest.antt`; the format is in docs/EXPLAIN.md.

ghost use Rattle.std.specs.Prelude.{◌≡◌, false, IfOk};
ghost use Rattle.std.specs.String.{string_bytes};
ghost use Rattle.h2_explain_text.specs.Lines.{EndsLineIf};
ghost use Rattle.h2_explain_text.specs.Rest.{is_said, missing_of, missing_of_front};

use crate::paint::{Paint, Role};
use crate::text::say_opening;
use h2_explain_words::frame_words::say_head;
use h2_frame::read_head;
use h2_io::say::{OctetCount, TextBuilder};
use h2_io::{say_all, string_of, texts};
use h2_spec::connection::Phase;
use h2_spec::frames::Head;
use std::alloc::{AllocError, Allocator};

/// What the next item is.
#[derive(Clone, Copy)]
pub enum Awaited {
    /// The client's connection preface (RFC 9113, 3.4).
    Preface,
    /// A frame (RFC 9113, 4.1).
    Frame,
}

/// What octets lack to be the next item.
#[derive(Clone, Copy)]
pub struct Missing {
    /// What is awaited.
    pub what: Awaited,
    /// How many octets it needs more.
    pub needs: usize,
    /// Whether it may need more than these: the length of the frame is not there yet.
    pub at_least: bool,
    /// The head of the frame, once it is there.
    pub head: Option<Head>,
}

/// What is after the last item.
#[derive(Clone, Copy)]
pub struct InputRest {
    /// How many items there were.
    pub items: u64,
    /// How many octets came before.
    pub offset: usize,
    /// How many octets there are.
    pub octets: usize,
    /// The code of the connection error that ended the connection, if one did: then no octet is read (RFC 9113, 5.4.1).
    pub ended: Option<u32>,
    /// What they lack to be an item.
    pub missing: Missing,
}

/// What octets that begin the next item lack to be one: the preface has 24 octets, a frame nine and its payload (RFC
/// 9113, 3.4 and 4.1).
pub fn missing_of(phase: Phase, octets: &[u8]) -> Missing
    ensures { result ≡ missing_of phase octets.now }
{
    if let Phase::Preface = phase {
        return Missing {
            what: Awaited::Preface,
            needs: 24usize.saturating_sub(octets.len()),
            at_least: false,
            head: None,
        };
    }
    match read_head(octets) {
        Some(head) => Missing {
            what: Awaited::Frame,
            needs: (9 + head.length as usize).saturating_sub(octets.len()),
            at_least: false,
            head: Some(head),
        },
        None => missing_of_front(octets),
    }
}

/// What octets lack that are not the whole head of a frame: they begin with its length (RFC 9113, 4.1).
fn missing_of_front(octets: &[u8]) -> Missing
    ensures { result ≡ missing_of_front octets.now }
{
    if octets.len() < 3 {
        return Missing {
            what: Awaited::Frame,
            needs: 9usize.saturating_sub(octets.len()),
            at_least: true,
            head: None,
        };
    }
    let length = 65536 * octets[0] as usize + 256 * octets[1] as usize + octets[2] as usize;
    Missing {
        what: Awaited::Frame,
        needs: (9 + length).saturating_sub(octets.len()),
        at_least: false,
        head: None,
    }
}

/// Where the words of a line begin.
const COLUMN: usize = 8;

/// Puts blanks last, up to the column of the words, two at least.
fn say_blanks<A: Allocator>(used: usize, out: &mut TextBuilder<A>) {
    say_all!(out; "  ");
    for _place in used.saturating_add(2)..COLUMN {
        say_all!(out; " ");
    }
}

/// Begins a line with how many octets came before, as `@60     `.
pub fn say_place<A: Allocator>(offset: usize, paint: Paint, out: &mut TextBuilder<A>) {
    paint.start(Role::Item, out);
    let start = out.len();
    say_all!(out; "@", offset);
    let used = out.len().saturating_sub(start);
    say_blanks(used, out);
}

/// Whether something is said after that many items: of octets that are left, or that none came at all.
fn is_said(items: u64, octets: usize) -> bool
    ensures { result ≡ is_said items octets }
{
    0 < octets || items == 0
}

/// Puts last how many octets there are.
fn say_count<A: Allocator>(octets: usize, out: &mut TextBuilder<A>) {
    match octets {
        0 => say_all!(out; "no octets"),
        _ => say_all!(out; OctetCount(octets as u64)),
    }
}

/// The lines of the server's opening, if it is given, and that of the octets after the last item, without its end.
fn rest_words<A: Allocator + Copy>(
    alloc: A,
    rest: InputRest,
    opening: &[u8],
    paint: Paint,
) -> Result<String<A>, AllocError> {
    let mut words = TextBuilder::new(alloc);
    say_opening(opening, paint, &mut words);
    say_place(rest.offset, paint, &mut words);
    say_count(rest.octets, &mut words);
    match rest.ended {
        Some(_) => say_all!(&mut words; " not read"),
        None => say_missing(rest.missing, &mut words),
    }
    words.finish()
}

/// The line of the octets after the last item, empty if there are none; before it, where no item came, the lines of the
/// server's opening.
pub fn rest_line<A: Allocator + Copy>(
    alloc: A,
    rest: InputRest,
    opening: &[u8],
    paint: Paint,
) -> Result<String<A>, AllocError>
    ensures { IfOk result (λ text. EndsLineIf (is_said rest.items rest.octets) paint.0 (string_bytes text)) }
{
    if is_said(rest.items, rest.octets) {
        let words = rest_words(alloc, rest, opening, paint)?;
        string_of(alloc, &texts!(words.as_str(), paint.ended()))
    } else {
        Ok(String::new(alloc))
    }
}

/// Puts last what octets lack to be an item.
fn say_missing<A: Allocator>(missing: Missing, out: &mut TextBuilder<A>) {
    say_all!(out; " of ");
    match (missing.what, missing.head) {
        (Awaited::Preface, _) => say_all!(out; "the connection preface"),
        (Awaited::Frame, Some(head)) => say_head(&head, out),
        (Awaited::Frame, None) => say_all!(out; "a frame"),
    }
    let least = if missing.at_least { "at least " } else { "" };
    say_all!(out; ", which needs ", least, missing.needs, " more");
}
