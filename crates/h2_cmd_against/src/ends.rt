//! What comes of a case: the verdict on the server, or why there is none. Definitions: `specs/Ends.antt`.

ghost use Rattle.std.specs.Prelude.{◌≡◌, IfOk};
ghost use Rattle.h2_cmd_against.specs.Ends.{EndsItems, PlaysOnce, PlaysTwice, end_of, is_other, is_part, is_same, skip_of, status_for};

use crate::server::Server;
use h2_cmd_exchange::link::Link;
use h2_cmd_exchange::played::Played;
use h2_cmd_items::case::CaseItems;
use h2_cmd_items::judging::{judge_played, judge_recorded};
use h2_cmd_judge::case::Judgement;
use h2_cmd_judge::judge::Verdict;
use std::alloc::{AllocError, Global};

/// How many milliseconds without an octet end a wait of the second run.
const SECOND_WAIT: u64 = 200;

/// Why a case is passed over.
#[derive(Clone, Copy)]
pub enum Skip {
    /// It sends nothing.
    SendsNothing,
    /// The client sent other octets, where that was recorded.
    OtherOctets,
    /// It took too long, or too much came.
    Cut,
}

/// Why a case can't be played.
#[derive(Drop)]
pub enum Refusal {
    /// Nothing listens any more.
    NothingListens,
    /// A limit or a setting is out of range.
    BadLimits,
    /// Its file can't be read.
    Unread,
    /// Its file is too long.
    TooLong,
    /// Its file is not UTF-8.
    NoText,
    /// Its words are refused, for this reason.
    Words(String),
}

/// What comes of a case.
#[derive(Drop)]
pub enum CaseEnd {
    /// The verdict on the server.
    Judged(Judgement),
    /// There is none, as the case says nothing of this server.
    Skipped(Skip),
    /// There is none, as the case can't be played.
    Refused(Refusal),
}

/// What comes of a case that was played; `status` is that of a lawful request.
fn end_of(
    alloc: Global,
    items: &CaseItems,
    played: &Played,
    status: u32,
) -> Result<CaseEnd, AllocError>
    ensures { IfOk result (λ end. end ≡ end_of items.now played.now status) }
{
    if played.is_cut() && played.closed.is_none() {
        return Ok(CaseEnd::Skipped(Skip::Cut));
    }
    let judgement = judge_played(alloc, items, played, status)?;
    Ok(CaseEnd::Judged(judgement))
}

/// Plays a case to the server.
fn play_once<L: Link>(
    alloc: Global,
    link: &mut L,
    items: &CaseItems,
    status: u32,
    millis: u64,
) -> Result<CaseEnd, AllocError>
    ensures { IfOk result (λ end. PlaysOnce items.now status (L.log link.old) end (L.log link.new)) }
{
    if !link.connect() {
        return Ok(CaseEnd::Refused(Refusal::NothingListens));
    }
    let (octets, ends) = (items.octets.as_slice(), items.ends.as_slice());
    let played = Played::play(alloc, link, octets, ends, items.asks, millis)?;
    end_of(alloc, items, &played, status)
}

/// Whether a verdict is that the server does the same.
pub fn is_same(verdict: Verdict) -> bool
    ensures { result ≡ is_same verdict }
{
    match verdict {
        Verdict::Same => true,
        Verdict::Allowed | Verdict::Doubtful | Verdict::Broken | Verdict::Skipped(_) => false,
    }
}

/// Whether the server did something else than this one does.
fn is_other(end: &CaseEnd) -> bool
    ensures { result ≡ is_other end.now }
{
    match end {
        CaseEnd::Judged(judgement) => !is_same(judgement.verdict),
        CaseEnd::Skipped(_) | CaseEnd::Refused(_) => false,
    }
}

/// Plays a case to the server; where it did something else than this one does, again with a longer wait, and that counts.
fn play_twice<L: Link>(
    alloc: Global,
    link: &mut L,
    items: &CaseItems,
    status: u32,
    millis: u64,
) -> Result<CaseEnd, AllocError>
    ensures { IfOk result (λ end. PlaysTwice items.now status (L.log link.old) end (L.log link.new)) }
{
    let end = play_once(alloc, link, items, status, millis)?;
    if is_other(&end) {
        return play_once(alloc, link, items, status, SECOND_WAIT);
    }
    Ok(end)
}

/// The status that a lawful request gets of the method that a case has.
fn status_for(server: &Server, items: &CaseItems) -> u32
    ensures { result ≡ status_for server.now items.now }
{
    if items.is_post {
        server.post
    } else {
        server.get
    }
}

/// What comes of a case with these items: it is played to the server, or what was recorded is judged.
///
/// `AllocError` where memory is refused.
pub fn end_with<L: Link>(
    alloc: Global,
    server: &Server,
    link: &mut L,
    items: &CaseItems,
    millis: u64,
) -> Result<CaseEnd, AllocError>
    ensures { IfOk result (λ end. EndsItems server.now items.now (L.log link.old) end (L.log link.new)) }
{
    if server.client.is_none() {
        return play_twice(alloc, link, items, status_for(server, items), millis);
    }
    let judgement = judge_recorded(alloc, items, server.octets.as_slice())?;
    Ok(CaseEnd::Judged(judgement))
}

/// Whether one of two texts begins with the other.
fn is_part(octets: &[u8], others: &[u8]) -> bool
    ensures { result ≡ is_part octets.now others.now }
{
    octets.starts_with(others) || others.starts_with(octets)
}

/// Why a case with these octets is passed over, if it is.
pub fn skip_of(server: &Server, octets: &[u8]) -> Option<Skip>
    ensures { result ≡ skip_of server.now octets.now }
{
    if octets.is_empty() {
        return Some(Skip::SendsNothing);
    }
    match &server.client {
        Some(client) if !is_part(octets, client.as_slice()) => Some(Skip::OtherOctets),
        _ => None,
    }
}
