//! The verdict on a server in a case: by what it did while the case was played, or by octets that were recorded. Definitions:
//! `specs/Judgings.antt`.

ghost use Rattle.std.specs.Prelude.{◌≡◌, IfOk};
ghost use Rattle.h2_cmd_items.specs.Judgings.{judged_by, limits_of, peer_of, played_judgement, recorded_ending, recorded_judgement, within};

use crate::case::CaseItems;
use crate::sent::narrow;
use h2_cmd_exchange::played::Played;
use h2_cmd_judge::case::{Judgement, judge_case};
use h2_cmd_judge::event::Seen;
use h2_cmd_judge::judge::{Ending, Peer};
use h2_cmd_judge::reading::{Reading, announced, is_http1};
use h2_cmd_judge::recorded::aligned;
use h2_spec::connection::Config;
use std::alloc::{AllocError, Global};

/// What the verdict needs to know of a server that sends these octets first, and answers a lawful request with this status; 0
/// where that is not known.
pub fn peer_of(octets: &[u8], status: u32) -> Peer
    ensures { result ≡ peer_of octets.now status }
{
    Peer {
        window: announced(octets, 4, 65_535),
        frame: announced(octets, 5, 16_384),
        protocol: announced(octets, 8, 0) == 1,
        status,
    }
}

/// A number within a range.
fn within(value: u32, least: u32, most: u32) -> u32
    ensures { result ≡ within value least most }
{
    value.max(least).min(most)
}

/// The limits and the settings that a server announces in the octets that it sends first, as far as this server can have them.
pub fn limits_of(octets: &[u8]) -> Config
    ensures { result ≡ limits_of octets.now }
{
    Config {
        streams: within(announced(octets, 3, 1000), 1, 1000),
        credit: 65_535,
        table: within(announced(octets, 1, 4096), 0, 65_536),
        window: within(announced(octets, 4, 65_535), 0, 2_147_483_647),
        frame: within(announced(octets, 5, 16_384), 16_384, 65_536),
    }
}

/// The verdict on a server that did this in a case.
fn judged_by(
    alloc: Global,
    case: &CaseItems,
    theirs: &[Seen],
    ending: Ending,
    peer: Peer,
) -> Result<Judgement, AllocError>
    ensures { IfOk result (λ j. j ≡ judged_by case.now theirs.now ending peer) }
{
    let dues = case.dues.as_slice();
    judge_case(
        alloc,
        dues,
        case.highest,
        case.own.as_slice(),
        theirs,
        ending,
        peer,
    )
}

/// How the connection ended of which these octets were recorded.
fn recorded_ending(octets: &[u8]) -> Ending
    ensures { result ≡ recorded_ending octets.now }
{
    Ending {
        closed: None,
        answers: None,
        http1: is_http1(octets),
    }
}

/// The verdict on a server of which these octets were recorded in a case. Which of them came after which item is not known: each
/// event is put after the item beside which this server does the like.
///
/// `AllocError` where memory is refused.
pub fn judge_recorded(
    alloc: Global,
    case: &CaseItems,
    octets: &[u8],
) -> Result<Judgement, AllocError>
    ensures { IfOk result (λ j. j ≡ recorded_judgement case.now octets.now) }
{
    let mut reading = Reading::new(alloc)?;
    reading.take(alloc, octets, 0)?;
    let last = narrow(case.ends.len() as u64);
    let theirs = aligned(alloc, case.own.as_slice(), reading.events(), last)?;
    let ending = recorded_ending(octets);
    judged_by(alloc, case, theirs.as_slice(), ending, peer_of(octets, 0))
}

/// The verdict on a server to which a case was played, and that answers a lawful request with this status.
///
/// `AllocError` where memory is refused.
pub fn judge_played(
    alloc: Global,
    case: &CaseItems,
    played: &Played,
    status: u32,
) -> Result<Judgement, AllocError>
    ensures { IfOk result (λ j. j ≡ played_judgement case.now played.now status) }
{
    let peer = peer_of(played.reading.octets(), status);
    let ending = played.ending(case.asks);
    judged_by(alloc, case, played.reading.events(), ending, peer)
}
