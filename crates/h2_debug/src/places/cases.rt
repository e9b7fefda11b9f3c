//! Which special case the rule of the item after a place is: what was before it is found by taking the items up to it once
//! more. Definitions: `specs/Cases.antt`.

ghost use Rattle.std.specs.Prelude.{◌≡◌, ◌++◌, ◌+◌, ◌-◌, ◌<◌, ◌≤◌, ℕ, List, [], Bool, true, IfOk, OnOk, Some, is_some, min, option_map};
ghost use Rattle.h2_spec.specs.Effect.{cause_of};
ghost use Rattle.h2_spec.specs.Frames.Frame as frames;
ghost use Rattle.h2_spec.specs.Frames.Frame.{Got, WholeFrame};
ghost use Rattle.h2_spec.specs.Texts.View.{shown_block};
ghost use Rattle.h2_spec.specs.ReactionTable.{headers_cell};
ghost use Rattle.h2_spec.specs.declared.causes.Cause.{Cause};
ghost use Rattle.h2_spec.specs.declared.causes.Cause.TheVariants.{ContinuationOutsideBlock, IntegerTooLong};
ghost use Rattle.h2_spec.specs.Trace.{next_item};
ghost use Rattle.h2_conn.specs.Connection.{going};
ghost use Rattle.h2_conn.specs.Shown.{item_fields, next_fields};
ghost use Rattle.h2_frame.specs.Items.{found_in, item_of};
ghost use Rattle.h2_frame.specs.Parts.{part_seen, seen};
ghost use Rattle.h2_explain_item.specs.FieldFacts.{field_facts};
ghost use Rattle.h2_explain_item.specs.Special.{case_of_cause};
ghost use Rattle.h2_debug.specs.Cases as spec;
ghost use Rattle.h2_debug.specs.Cases.{facts_in, fields_or_none, seen_in};
ghost use Rattle.h2_debug.specs.Items.{head_of_item};
ghost use Rattle.h2_debug.specs.Places.{IsAt, end};

use crate::places::place::Place;
use crate::places::source::Source;
use h2_conn::{Conn, Phase, Scratch};
use h2_conn_rules::block::headers_purpose;
use h2_conn_rules::checks::refusal;
use h2_explain_item::diagnosis::facts::case_facts;
use h2_explain_item::diagnosis::field_facts::{FieldFacts, field_facts};
use h2_explain_item::diagnosis::special::{case_of_cause, seen_by};
use h2_explain_item::notes::has_client_ended;
use h2_frame::{FrameRef, Item, Part, first_item, part_of, read_head};
use h2_spec::causes::Cause;
use h2_spec::connection::BlockView;
use h2_spec::frames::{CONTINUATION, DATA, END_STREAM, HEADERS, Head};
use h2_spec::special_cases::SpecialCase;
use h2_spec::streams::StreamState;
use std::alloc::{AllocError, Allocator};

/// Takes items up to a position.
pub fn advance_to<'b, A: Allocator + Copy>(
    source: &Source<'_, 'b, A>,
    place: &mut Place<'b, A>,
    target: usize,
) -> Result<(), AllocError>
    requires at { IsAt source.now place.old }
    requires ahead { place.old.position ≤ target }
    ensures at { OnOk result (IsAt source.now place.new) }
    ensures position { OnOk result (place.new.position ≡ min target (end source.now)) }
{
    while place.position() < target {
        if !place.advance(source)? {
            return Ok(());
        }
    }
    Ok(())
}

/// Takes the next item, and returns the head of its frame.
fn advance_seeing<'b, A: Allocator + Copy>(
    source: &Source<'_, 'b, A>,
    place: &mut Place<'b, A>,
) -> Result<Option<Head>, AllocError>
    requires at { IsAt source.now place.old }
    requires more { place.old.position < end source.now }
    ensures at { OnOk result (IsAt source.now place.new) }
    ensures position { OnOk result (place.new.position ≡ place.old.position + 1) }
    ensures head { IfOk result (λ head. head ≡ spec.head_after source.now place.old.position) }
{
    let octets = source.octets_from(place.used());
    place.advance(source)?;
    if place.position() == 1 {
        return Ok(None);
    }
    Ok(read_head(octets))
}

/// Whether a frame is CONTINUATION (RFC 9113, 6.10).
fn is_continuation(head: Option<Head>) -> bool
    ensures { result ≡ spec.is_continuation head }
{
    match head {
        Some(head) => head.kind == CONTINUATION,
        None => false,
    }
}

/// Takes items up to a position, and says whether the last of them is CONTINUATION.
pub fn advance_until<'b, A: Allocator + Copy>(
    source: &Source<'_, 'b, A>,
    place: &mut Place<'b, A>,
    target: usize,
) -> Result<bool, AllocError>
    requires at { IsAt source.now place.old }
    requires ahead { place.old.position ≤ target - 1 }
    requires within { target ≤ end source.now }
    ensures at { OnOk result (IsAt source.now place.new) }
    ensures position { OnOk result (place.new.position ≡ target) }
    ensures continued { IfOk result (λ continued. continued ≡ spec.is_continued source.now target) }
{
    if target == 0 {
        return Ok(false);
    }
    advance_to(source, place, target - 1)?;
    let head = advance_seeing(source, place)?;
    Ok(is_continuation(head))
}

/// The stream of a frame, 0 of no frame.
fn stream_in(head: Option<Head>) -> u32
    ensures { result ≡ spec.stream_in head }
{
    match head {
        Some(head) => head.stream,
        None => 0,
    }
}

/// The stream of the next item, 0 where it is on none. It takes the item.
pub fn next_stream<'b, A: Allocator + Copy>(
    source: &Source<'_, 'b, A>,
    place: &mut Place<'b, A>,
) -> Result<u32, AllocError>
    requires at { IsAt source.now place.old }
    requires more { place.old.position < end source.now }
    ensures { IfOk result (λ stream. stream ≡ spec.stream_in (spec.head_after source.now place.old.position)) }
{
    let head = advance_seeing(source, place)?;
    Ok(stream_in(head))
}

/// Whether a frame has END_STREAM, or the HEADERS of the block that it continues (RFC 9113, 6.1 and 6.2).
fn ends_side(block: Option<BlockView>, head: Option<Head>) -> bool
    ensures { result ≡ spec.ends_side block head }
{
    match (block, head) {
        (Some(block), _) => block.ends,
        (None, Some(head)) => {
            (head.kind == DATA || head.kind == HEADERS) && head.has(END_STREAM)
        }
        (None, None) => false,
    }
}

/// Whether the server has reset a stream (RFC 9113, 5.1).
fn is_reset(kind: StreamState) -> bool
    ensures { result ≡ spec.is_reset kind }
{
    matches!(kind, StreamState::WeReset)
}

/// Whether the client has ended its side of a stream at an item, by the stream's state before and after it.
fn leaves_ended(before: StreamState, after: StreamState, ends: bool) -> bool
    ensures { result ≡ spec.leaves_ended before after ends }
{
    has_client_ended(after) || (!is_reset(before) && is_reset(after) && ends)
}

/// Whether the client has ended its side of a stream at one of the items up to a position: they are taken from the start.
pub fn is_ended_by<'b, A: Allocator + Copy>(
    source: &Source<'_, 'b, A>,
    place: &mut Place<'b, A>,
    stream: u32,
    target: usize,
) -> Result<bool, AllocError>
    requires at { IsAt source.now place.old }
    requires start { place.old.position ≡ 0 }
    requires within { target ≤ end source.now }
    ensures { IfOk result (λ ended. ended ≡ spec.is_ended_by source.now stream target) }
{
    let mut ended = false;
    while place.position() < target {
        let before = place.conn().stream(stream).kind;
        let block = place.conn().open_block();
        let head = advance_seeing(source, place)?;
        let after = place.conn().stream(stream).kind;
        ended |= leaves_ended(before, after, ends_side(block, head));
    }
    Ok(ended)
}

/// The item that octets begin with.
#[tactic(auto, unfolding(h2_spec::specs::Trace::next_item))]
fn item_ahead<'o, A: Allocator + Copy>(
    conn: &Conn<'_, A>,
    octets: &'o [u8],
) -> Option<(Item<'o>, usize)>
    ensures { found_in result ≡ next_item conn.now.state octets.now }
{
    let core = conn.counts();
    match core.phase {
        Phase::Ended(_) => None,
        Phase::Preface => first_item(octets, true, core.own.frame),
        Phase::Settings | Phase::Running => first_item(octets, false, core.own.frame),
    }
}

/// The head of the frame that an item is, if it is one.
fn head_of(item: &Item<'_>) -> Option<Head>
    ensures { result ≡ head_of_item (item_of item.now) }
{
    match item {
        Item::Frame(frame) => Some(frame.head),
        Item::Oversize(head) => Some(*head),
        Item::Preface | Item::BadPreface => None,
    }
}

/// What the payload of an item holds, if it is a whole frame whose payload can be read.
fn part_in<'o>(item: &Item<'o>) -> Option<Part<'o>>
    ensures { option_map part_seen result ≡ spec.part_in (item_of item.now) }
{
    match item {
        Item::Frame(frame) => match part_of(*frame) {
            Ok(part) => Some(part),
            Err(_) => None,
        },
        Item::Oversize(_) | Item::Preface | Item::BadPreface => None,
    }
}

/// The octets that a payload has of a field block.
fn fragment_in<'o>(part: Option<Part<'o>>) -> &'o [u8]
    ensures { result.now ≡ spec.fragment_in (option_map part_seen part.entry) }
{
    match part {
        Some(Part::Headers(part)) => part.fragment,
        Some(Part::Continuation(fragment)) => fragment,
        _ => &[],
    }
}

/// The stream of the open block.
fn block_stream(block: Option<BlockView>) -> Option<u32>
    ensures { result ≡ spec.shown_stream block }
{
    match block {
        Some(block) => Some(block.stream),
        None => None,
    }
}

/// Whether HEADERS on a stream open a block.
fn opens_block(id: u32, kind: StreamState) -> bool
    ensures { result ≡ spec.opens (headers_cell id kind) }
{
    match headers_purpose(id, kind) {
        Ok(_) => true,
        Err(_) => false,
    }
}

/// Whether a payload shows fields of its block: HEADERS where they open one, CONTINUATION where one is open.
fn is_shown(part: Result<Part<'_>, Cause>, opens: bool, is_open: bool) -> bool
    ensures { result ≡ spec.shows_by opens is_open (seen part_seen part.entry) }
{
    match part {
        Ok(Part::Headers(_)) => opens,
        Ok(Part::Continuation(_)) => is_open,
        _ => false,
    }
}

/// Whether a frame shows fields of its block: its fragment is decoded. After the end of the connection an open block is decoded
/// no more, and CONTINUATION is an error of a cause that has no case by its fields.
fn is_decoded<A: Allocator + Copy>(conn: &Conn<'_, A>, frame: FrameRef<'_>) -> bool
    ensures { (cause : Cause) → cause_of conn.now.state (WholeFrame frame.entry.head frame.entry.payload.now) ≡ Some cause → (cause ≡ ContinuationOutsideBlock → ⊥)
        → result ≡ is_some (item_fields conn.now.state (WholeFrame frame.entry.head frame.entry.payload.now)) }
{
    let block = conn.open_block();
    if refusal(block_stream(block), conn.counts().phase, &frame.head).is_some() {
        return false;
    }
    let stream = conn.stream(frame.head.stream);
    let opens = opens_block(frame.head.stream, stream.kind);
    is_shown(part_of(frame), opens, block.is_some())
}

/// The same of an item.
fn shows_fields<A: Allocator + Copy>(conn: &Conn<'_, A>, item: &Item<'_>) -> bool
    ensures { (cause : Cause) → cause_of conn.now.state (item_of item.now) ≡ Some cause → (cause ≡ ContinuationOutsideBlock → ⊥)
        → result ≡ is_some (item_fields conn.now.state (item_of item.now)) }
{
    match item {
        Item::Frame(frame) => is_decoded(conn, *frame),
        Item::Preface | Item::BadPreface | Item::Oversize(_) => false,
    }
}

/// The facts of the fields that the next item shows. A copy of the connection takes it.
fn fields_ahead<A: Allocator + Copy>(
    alloc: A,
    conn: &Conn<'_, A>,
    octets: &[u8],
) -> Result<FieldFacts, AllocError>
    requires { conn.now ≡ going conn.now.state [] }
    ensures { IfOk result (λ facts. is_some (next_fields conn.now.state (next_item conn.now.state octets.now)) ≡ true
        → facts ≡ field_facts (fields_or_none (next_fields conn.now.state (next_item conn.now.state octets.now)))) }
{
    let mut copy = conn.try_clone()?;
    let mut memory = Scratch::new(alloc);
    let mut sent = Vec::new(alloc);
    copy.take_and_lend(octets, &mut memory, &mut sent)?;
    Ok(field_facts(copy.fields(&memory)))
}

/// The facts of the fields of the next item, if it shows any.
fn fields_shown<A: Allocator + Copy>(
    alloc: A,
    conn: &Conn<'_, A>,
    octets: &[u8],
    shows: bool,
) -> Result<FieldFacts, AllocError>
    requires { conn.now ≡ going conn.now.state [] }
    ensures { IfOk result (λ facts. shows ≡ is_some (next_fields conn.now.state (next_item conn.now.state octets.now))
        → facts ≡ field_facts (fields_or_none (next_fields conn.now.state (next_item conn.now.state octets.now)))) }
{
    if shows {
        fields_ahead(alloc, conn, octets)
    } else {
        Ok(FieldFacts::none())
    }
}

/// The octets that the next item has of a field block.
fn fragment_ahead<'o, A: Allocator + Copy>(conn: &Conn<'_, A>, octets: &'o [u8]) -> &'o [u8]
    ensures { result.now ≡ spec.fragment_of_next (next_item conn.now.state octets.now) }
{
    match item_ahead(conn, octets) {
        Some((item, _)) => fragment_in(part_in(&item)),
        None => &[],
    }
}

/// Forgets the octets of a block that is open no more.
fn clear_unless_open<A: Allocator>(shown: Option<BlockView>, block: &mut Vec<u8, A>)
    ensures { block.new.items ≡ spec.open_octets shown block.old.items }
{
    if shown.is_none() {
        block.clear();
    }
}

/// Adds the octets that the next item has of a field block to those of the open block.
fn add_fragment<A: Allocator + Copy>(
    conn: &Conn<'_, A>,
    octets: &[u8],
    block: &mut Vec<u8, A>,
) -> Result<(), AllocError>
    ensures { OnOk result (block.new.items ≡ spec.open_octets (shown_block conn.now.state.block) block.old.items ++ spec.fragment_of_next (next_item conn.now.state octets.now)) }
{
    clear_unless_open(conn.open_block(), block);
    block.extend_from_slice(fragment_ahead(conn, octets))?;
    Ok(())
}

/// The octets of the field block that an item goes on with, from its HEADERS on: all items up to it are taken from the start.
pub fn block_octets<'b, A: Allocator + Copy>(
    alloc: A,
    source: &Source<'_, 'b, A>,
    place: &mut Place<'b, A>,
    target: usize,
) -> Result<Vec<u8, A>, AllocError>
    requires at { IsAt source.now place.old }
    requires start { place.old.position ≡ 0 }
    requires within { target ≤ end source.now }
    ensures { IfOk result (λ octets. octets.items ≡ spec.block_octets source.now target) }
{
    let mut block = Vec::new(alloc);
    while place.position() < target {
        let octets = source.octets_from(place.used());
        add_fragment(place.conn(), octets, &mut block)?;
        place.advance(source)?;
    }
    Ok(block)
}

/// The special case of the next item of a connection, which has this cause, if it is one; `continued` says whether the item
/// before it is CONTINUATION. That of an integer that is too long is `block_octets`' to say.
pub fn case_ahead<A: Allocator + Copy>(
    alloc: A,
    conn: &Conn<'_, A>,
    octets: &[u8],
    cause: Cause,
    continued: bool,
) -> Result<Option<SpecialCase>, AllocError>
    requires ready { conn.now ≡ going conn.now.state [] }
    requires other { cause ≡ IntegerTooLong → ⊥ }
    ensures { IfOk result (λ case. (item : frames.Item) (used : ℕ) → next_item conn.now.state octets.now ≡ Got item used → cause_of conn.now.state item ≡ Some cause
        → (block : List ℕ) (after_end : Bool) → case ≡ case_of_cause cause (seen_in conn.now.state (head_of_item item)) (facts_in continued conn.now.state item block after_end)) }
{
    let Some((item, _)) = item_ahead(conn, octets) else {
        return Ok(None);
    };
    let head = head_of(&item);
    let stream = conn.stream(stream_in(head));
    let seen = seen_by(head, &stream, conn.counts().acked);
    let shows = shows_fields(conn, &item);
    let fields = fields_shown(alloc, conn, octets, shows)?;
    let facts = case_facts(continued, part_in(&item), fields, &[], false);
    Ok(case_of_cause(cause, seen, facts))
}
