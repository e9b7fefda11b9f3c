//! Items of octets in hand, of which none is held or copied (RFC 9113, 3.4). Definitions: `specs/First.antt`,
//! `specs/Runs.antt`.

ghost use Rattle.std.specs.Prelude.{◌≡◌, ◌≤◌, [], IfOk, OnErr, OnOk, drop, length};
ghost use Rattle.h2_conn.specs.Connection.{Fits, awaits_preface, is_ended};
ghost use Rattle.h2_conn.specs.First.{TakesIfAny};
ghost use Rattle.h2_conn.specs.Runs.{Halted, Ran};

use crate::conn::is_ended;
use crate::field_block::scratch::Scratch;
use crate::state::State;
use h2_frame::{Outgoing, Splitter, first_item};
use h2_spec::connection::Phase;
use h2_spec::octets::octets_from;
use std::alloc::{AllocError, Allocator};

/// Whether the preface is awaited.
pub(crate) fn awaits_preface(phase: Phase) -> bool
    ensures { result ≡ awaits_preface phase }
{
    matches!(phase, Phase::Preface)
}

/// A splitter that holds nothing, for the items of a connection in this phase.
pub(crate) fn empty_splitter<A: Allocator>(phase: Phase, alloc: A) -> Splitter<A>
    ensures fits { Fits result phase }
    ensures empty { result.octets ≡ [] }
{
    let mut splitter = Splitter::new(alloc);
    splitter.expect_preface(awaits_preface(phase));
    splitter
}

/// Takes the item that octets begin with, if there is a whole one, and returns how many of them it takes; none after
/// the end. Where memory is refused nothing of it is done.
#[inline(always)]
pub(crate) fn take_first<'b, A: Allocator + Copy, O: Outgoing<'b, A>>(
    state: &mut State<'b, A>,
    scratch: &mut Scratch<A>,
    octets: &[u8],
    out: &mut O,
) -> Result<Option<usize>, AllocError>
    ensures ok { IfOk result (λ used. TakesIfAny state.old octets.now (O.octets out.old) state.new (O.octets out.new) used) }
    ensures err { OnErr result ((state.new ≡ state.old) × (O.octets out.new ≡ O.octets out.old)) }
{
    let phase = state.phase();
    if is_ended(phase) {
        return Ok(None);
    }
    match first_item(octets, awaits_preface(phase), state.limit()) {
        None => Ok(None),
        Some((item, used)) => {
            state.item(&item, scratch, out)?;
            Ok(Some(used))
        }
    }
}

/// How far a run through octets in hand went.
#[derive(Clone, Copy)]
pub(crate) struct Taken {
    /// How many items were taken.
    pub(crate) items: usize,
    /// How many of the octets they are.
    pub(crate) used: usize,
}

/// Takes all items of octets one after another. Where memory is refused, those before it are taken.
pub(crate) fn take_all<'b, A: Allocator + Copy, O: Outgoing<'b, A>>(
    state: &mut State<'b, A>,
    scratch: &mut Scratch<A>,
    octets: &[u8],
    out: &mut O,
) -> Result<Taken, AllocError>
    ensures ok { IfOk result (λ all. Ran state.old octets.now (O.octets out.old) state.new (drop all.used octets.now) (O.octets out.new) all.items) }
    ensures few { IfOk result (λ all. (all.items ≤ all.used) × (all.used ≤ length octets.now)) }
    ensures err { OnErr result (Halted state.old octets.now (O.octets out.old) state.new (O.octets out.new)) }
{
    let mut items = 0usize;
    let mut used = 0usize;
    while used < octets.len() {
        let Some(more) = take_first(state, scratch, octets_from(octets, used), out)? else {
            return Ok(Taken { items, used });
        };
        items += 1;
        used += more;
    }
    Ok(Taken { items, used })
}
