//! What a client did wrong with an item, by what came before it in the run: what it was granted, and the empty frames of
//! its field block. Definitions: `specs/RunFacts.antt`.

ghost use Rattle.std.specs.Prelude.{◌≡◌, IfOk};
ghost use Rattle.h2_explain_item.specs.RunFacts.{empties_after, is_empty_continuation, is_headers, is_one_too_many, run_facts};

use crate::change::granted::Granted;
use crate::item::Explained;
use h2_spec::frames::{CONTINUATION, HEADERS, Head};
use std::alloc::{AllocError, Allocator};

/// What a client did wrong with an item, by what came before it.
#[derive(Clone, Copy)]
pub struct RunFacts {
    /// Whether it is DATA beyond what was granted before the read that it came in (RFC 9113, 6.9).
    pub sent_early: bool,
    /// Whether it is DATA that needs a WINDOW_UPDATE which came after the server's SETTINGS, and these are not
    /// acknowledged (RFC 9113, 6.5.3).
    pub sent_unacknowledged: bool,
    /// Whether it is the first empty CONTINUATION above 100 of its field block (RFC 9113, 10.5.1).
    pub many_empty: bool,
}

impl RunFacts {
    /// Nothing.
    pub fn none() -> RunFacts {
        RunFacts {
            sent_early: false,
            sent_unacknowledged: false,
            many_empty: false,
        }
    }
}

/// Whether a frame is CONTINUATION without octets (RFC 9113, 6.10).
fn is_empty_continuation(head: Option<Head>) -> bool
    ensures { result ≡ is_empty_continuation head }
{
    match head {
        Some(head) => head.kind == CONTINUATION && head.length == 0,
        None => false,
    }
}

/// Whether a frame is HEADERS, with which a field block begins (RFC 9113, 4.3).
fn is_headers(head: Option<Head>) -> bool
    ensures { result ≡ is_headers head }
{
    match head {
        Some(head) => head.kind == HEADERS,
        None => false,
    }
}

/// How many CONTINUATION frames of the last field block are empty, after this frame; stays at 2^64 - 1 once there.
pub fn empties_after(empties: u64, head: Option<Head>) -> u64
    ensures { result ≡ empties_after empties head }
{
    if is_headers(head) {
        0
    } else if is_empty_continuation(head) {
        empties.saturating_add(1)
    } else {
        empties
    }
}

/// Whether this frame is the first empty CONTINUATION above 100 of its field block, where that many came before.
fn is_one_too_many(empties: u64, head: Option<Head>) -> bool
    ensures { result ≡ is_one_too_many empties head }
{
    empties == 100 && is_empty_continuation(head)
}

/// What is wrong with an item by what came before it; `empties` is how many CONTINUATION frames of the last field block
/// are empty. Its octets are taken from what was granted.
///
/// `AllocError` where memory is refused.
pub fn run_facts<A: Allocator + Copy>(
    granted: &mut Granted<A>,
    empties: u64,
    item: &Explained<'_>,
) -> Result<RunFacts, AllocError>
    ensures { IfOk result (λ facts. facts ≡ run_facts granted.old empties item.now) }
{
    let needs_answer = granted.take_unasked(item);
    let sent_early = granted.take(item)?;
    Ok(RunFacts {
        sent_early,
        sent_unacknowledged: needs_answer && !sent_early,
        many_empty: is_one_too_many(empties, item.head()),
    })
}
