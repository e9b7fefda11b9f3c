//! A piece of a connection's octets: the item that is held is completed, the items in the piece are taken from the
//! piece itself, and what makes no whole item is held (RFC 9113, 3.4). Definitions: `specs/Runs.antt`.

ghost use Rattle.std.specs.Prelude.{◌≡◌, ◌++◌, ◌≤◌, [], false, true, length, IfOk, IsOk, OnOk, OnErr};
ghost use Rattle.h2_frame.specs.Items.{IsDataCompleted};
ghost use Rattle.h2_spec.specs.Trace.{left_by};
ghost use Rattle.h2_conn.specs.Connection.{Fits, going, halted, is_ended, IsAtRest};
ghost use Rattle.h2_conn.specs.Runs.{Advances, Feeds, FeedsOne, Halts};

use crate::conn::is_ended;
use crate::feed::first::{awaits_preface, take_all, take_first};
use crate::feed::one::One;
use crate::field_block::scratch::Scratch;
use crate::state::State;
use h2_frame::{Outgoing, Splitter};
use h2_spec::frames::Head;
use h2_spec::octets::{octets_from, octets_up_to};
use std::alloc::{AllocError, Allocator};

/// Takes the item that is held, if it is whole, and says whether. Where memory is refused nothing of it is done.
fn advance<'b, A: Allocator + Copy, O: Outgoing<'b, A>>(
    splitter: &mut Splitter<A>,
    state: &mut State<'b, A>,
    scratch: &mut Scratch<A>,
    out: &mut O,
) -> Result<bool, AllocError>
    requires { Fits splitter.old state.old.core.phase }
    ensures ok { IfOk result (Advances state.old splitter.old.octets (O.octets out.old) state.new splitter.new.octets (O.octets out.new)) }
    ensures fits { OnOk result (Fits splitter.new state.new.core.phase) }
    ensures err { OnErr result ((state.new ≡ state.old) × (O.octets out.new ≡ O.octets out.old)) }
{
    if is_ended(state.phase()) {
        return Ok(false);
    }
    match splitter.next(state.limit()) {
        None => Ok(false),
        Some(item) => {
            state.item(&item, scratch, out)?;
            Ok(true)
        }
    }
}

/// Takes a frame of DATA without padding that octets complete after those held. They are not put together with those: of the
/// payload its length alone matters.
fn take_completed<'b, A: Allocator + Copy, O: Outgoing<'b, A>>(
    splitter: &mut Splitter<A>,
    state: &mut State<'b, A>,
    head: &Head,
    octets: &[u8],
    out: &mut O,
) -> Result<bool, AllocError>
    requires fits { Fits splitter.old state.old.core.phase }
    requires goes { is_ended state.old.core.phase ≡ false }
    requires completed { IsDataCompleted state.old.core.own.frame splitter.old octets.now head.now }
    ensures ok { IfOk result (Advances state.old (splitter.old.octets ++ octets.now) (O.octets out.old) state.new splitter.new.octets (O.octets out.new)) }
    ensures fits { OnOk result (Fits splitter.new state.new.core.phase) }
    ensures err { OnErr result ((state.new ≡ state.old) × (O.octets out.new ≡ O.octets out.old)) }
{
    state.on_plain_data(head, out)?;
    splitter.forget_frame();
    Ok(true)
}

/// Takes the item that octets complete after those held, if they do, and says whether.
fn offer<'b, A: Allocator + Copy, O: Outgoing<'b, A>>(
    splitter: &mut Splitter<A>,
    state: &mut State<'b, A>,
    scratch: &mut Scratch<A>,
    octets: &[u8],
    out: &mut O,
) -> Result<bool, AllocError>
    requires fits { Fits splitter.old state.old.core.phase }
    requires goes { is_ended state.old.core.phase ≡ false }
    ensures ok { IfOk result (Advances state.old (splitter.old.octets ++ octets.now) (O.octets out.old) state.new splitter.new.octets (O.octets out.new)) }
    ensures fits { OnOk result (Fits splitter.new state.new.core.phase) }
    ensures err { OnErr result ((state.new ≡ state.old) × (O.octets out.new ≡ O.octets out.old)) }
{
    if let Some(head) = splitter.data_completed_by(octets, state.limit()) {
        return take_completed(splitter, state, &head, octets, out);
    }
    splitter.push(octets)?;
    advance(splitter, state, scratch, out)
}

// Only an item that two pieces share is held. The splitter says how many octets it lacks, and no more are
// pushed.
/// Takes the item that is held with the octets that it lacks, and no octets after it; where these are not all there,
/// all octets are held. Where memory is refused nothing of the item is done.
fn complete<'b, A: Allocator + Copy, O: Outgoing<'b, A>>(
    splitter: &mut Splitter<A>,
    state: &mut State<'b, A>,
    scratch: &mut Scratch<A>,
    piece: &[u8],
    out: &mut O,
) -> Result<One, AllocError>
    requires rest { IsAtRest false state.old splitter.old }
    requires goes { is_ended state.old.core.phase ≡ false }
    ensures ok { IfOk result (FeedsOne (going state.old (left_by state.old.core.phase splitter.old.octets)) piece.now (O.octets out.old)
        (going state.new (left_by state.new.core.phase splitter.new.octets)) (O.octets out.new)) }
    ensures rest { OnOk result (IsAtRest false state.new splitter.new) }
    ensures empty { IfOk result (λ one. one.item ≡ true → splitter.new.octets ≡ []) }
    ensures within { IfOk result (λ one. one.used ≤ length piece.now) }
    ensures err { OnErr result ((state.new ≡ state.old) × (O.octets out.new ≡ O.octets out.old)) }
{
    let limit = state.limit();
    let mut used = 0usize;
    loop {
        let rest = octets_from(piece, used);
        let count = splitter.missing(limit);
        if rest.len() < count {
            splitter.push(rest)?;
            return Ok(One {
                used: piece.len(),
                item: false,
            });
        }
        used += count;
        if offer(splitter, state, scratch, octets_up_to(rest, count), out)? {
            return Ok(One { used, item: true });
        }
    }
}

/// Takes the item that a piece begins with, where no octets are held, and no octets after it; where there is none, all
/// octets are held. Where memory is refused nothing of the item is done.
fn take_in_hand<'b, A: Allocator + Copy, O: Outgoing<'b, A>>(
    splitter: &mut Splitter<A>,
    state: &mut State<'b, A>,
    scratch: &mut Scratch<A>,
    piece: &[u8],
    out: &mut O,
) -> Result<One, AllocError>
    requires rest { IsAtRest false state.old splitter.old }
    requires goes { is_ended state.old.core.phase ≡ false }
    requires empty { splitter.old.octets ≡ [] }
    ensures ok { IfOk result (FeedsOne (going state.old []) piece.now (O.octets out.old)
        (going state.new (left_by state.new.core.phase splitter.new.octets)) (O.octets out.new)) }
    ensures rest { OnOk result (IsAtRest false state.new splitter.new) }
    ensures err { OnErr result ((state.new ≡ state.old) × (O.octets out.new ≡ O.octets out.old)) }
{
    match take_first(state, scratch, piece, out)? {
        Some(used) => {
            splitter.expect_preface(false);
            Ok(One { used, item: true })
        }
        None => {
            splitter.push(piece)?;
            Ok(One {
                used: piece.len(),
                item: false,
            })
        }
    }
}

/// Takes the next item with more octets, if there is one, and no octets after it; none after the end. Where memory is
/// refused nothing of it is done.
pub(crate) fn take_one<'b, A: Allocator + Copy, O: Outgoing<'b, A>>(
    splitter: &mut Splitter<A>,
    state: &mut State<'b, A>,
    scratch: &mut Scratch<A>,
    piece: &[u8],
    out: &mut O,
) -> Result<One, AllocError>
    requires { IsAtRest false state.old splitter.old }
    ensures ok { IfOk result (FeedsOne (going state.old (left_by state.old.core.phase splitter.old.octets)) piece.now (O.octets out.old)
        (going state.new (left_by state.new.core.phase splitter.new.octets)) (O.octets out.new)) }
    ensures rest { OnOk result (IsAtRest false state.new splitter.new) }
    ensures err { OnErr result ((state.new ≡ state.old) × (O.octets out.new ≡ O.octets out.old)) }
    ensures over { is_ended state.old.core.phase ≡ true → IsOk result }
{
    let all = piece.len();
    if is_ended(state.phase()) {
        return Ok(One {
            used: all,
            item: false,
        });
    }
    if splitter.rest_len() == 0 {
        return take_in_hand(splitter, state, scratch, piece, out);
    }
    complete(splitter, state, scratch, piece, out)
}

/// Takes all items of octets, where none are held, and says how many; the rest of the octets is held. Where memory is
/// refused, the items before it are taken.
fn take_rest<'b, A: Allocator + Copy, O: Outgoing<'b, A>>(
    splitter: &mut Splitter<A>,
    state: &mut State<'b, A>,
    scratch: &mut Scratch<A>,
    octets: &[u8],
    out: &mut O,
) -> Result<usize, AllocError>
    requires fits { Fits splitter.old state.old.core.phase }
    requires empty { splitter.old.octets ≡ [] }
    ensures ok { IfOk result (Feeds (going state.old []) octets.now (O.octets out.old)
        (going state.new (left_by state.new.core.phase splitter.new.octets)) (O.octets out.new)) }
    ensures rest { OnOk result (IsAtRest false state.new splitter.new) }
    ensures few { IfOk result (λ count. count ≤ length octets.now) }
    ensures err { OnErr result (Halts (going state.old []) octets.now (O.octets out.old) (halted state.new) (O.octets out.new)) }
{
    let all = take_all(state, scratch, octets, out)?;
    let phase = state.phase();
    if is_ended(phase) {
        return Ok(all.items);
    }
    splitter.expect_preface(awaits_preface(phase));
    splitter.push(octets_from(octets, all.used))?;
    Ok(all.items)
}

/// Takes all items that there are with more octets, and says how many; none after the end. Where memory is refused,
/// those before it are taken.
pub(crate) fn take_piece<'b, A: Allocator + Copy, O: Outgoing<'b, A>>(
    splitter: &mut Splitter<A>,
    state: &mut State<'b, A>,
    scratch: &mut Scratch<A>,
    piece: &[u8],
    out: &mut O,
) -> Result<usize, AllocError>
    requires { IsAtRest false state.old splitter.old }
    ensures ok { IfOk result (Feeds (going state.old (left_by state.old.core.phase splitter.old.octets)) piece.now (O.octets out.old)
        (going state.new (left_by state.new.core.phase splitter.new.octets)) (O.octets out.new)) }
    ensures rest { OnOk result (IsAtRest false state.new splitter.new) }
    ensures err { OnErr result (Halts (going state.old (left_by state.old.core.phase splitter.old.octets)) piece.now (O.octets out.old)
        (halted state.new) (O.octets out.new)) }
    ensures over { is_ended state.old.core.phase ≡ true → IsOk result }
{
    if is_ended(state.phase()) {
        return Ok(0);
    }
    if splitter.rest_len() == 0 {
        return take_rest(splitter, state, scratch, piece, out);
    }
    let one = complete(splitter, state, scratch, piece, out)?;
    if !one.item {
        return Ok(0);
    }
    let count = take_rest(splitter, state, scratch, octets_from(piece, one.used), out)?;
    Ok(count + 1)
}
