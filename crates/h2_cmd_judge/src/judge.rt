//! The verdict on a server beside an item. Definitions: `specs/Judges.antt`.

ghost use Rattle.std.specs.Prelude.{◌≡◌};
ghost use Rattle.h2_cmd_judge.specs.Judges.{accepted_permission, answer_reaction, at_most_open, better, by_permission, error_of, error_verdict, excuse, excused_if, is_closed_before, is_closed_behind, is_dead, is_error, is_missing, is_other_state, is_over_behind, is_same_error, is_timeout, judged, lacks_acknowledgement, lacks_answer, lawful_reaction, lawful_verdict, permission, quiet, reaction_with, softened, undue_end, undue_error, verdict_by, why_unseen, without_error, worse};

use crate::event::{Condition, Item, Shown};
use h2_spec::accepted::Accepted;
use h2_spec::conforming::{Conforming, Observed, Permission};

/// How a connection with a server ended.
#[derive(Clone, Copy)]
pub struct Ending {
    /// The number of the item after which the server closed the connection, if it did.
    pub closed: Option<u32>,
    /// Whether it answered a PING at the end; none where that could not be asked.
    pub answers: Option<bool>,
    /// Whether it answered in HTTP/1.1.
    pub http1: bool,
}

/// What is known of a server.
#[derive(Clone, Copy)]
pub struct Peer {
    /// The window of a new stream that it announced (RFC 9113, 6.5.2).
    pub window: u32,
    /// The longest frame that it announced.
    pub frame: u32,
    /// Whether it announced that it knows :protocol (RFC 8441, 3).
    pub protocol: bool,
    /// The status that a lawful request gets; 0 where that is not known.
    pub status: u32,
}

/// What a server does beside an item.
#[derive(Clone, Copy)]
pub enum Reaction {
    /// This.
    One(Observed),
    /// It answers with a status below 400.
    Served,
    /// It answers with a status of 400 or more, which a lawful request gets too.
    Either,
    /// It answers with another status of 400 or more.
    Refused,
    /// Nothing; the connection lives.
    Quiet,
    /// The same, where a request was under way that it may still answer.
    Pending,
    /// The same, and more octets may come.
    Waiting,
    /// Nothing, not even for PING.
    Silent,
    /// The same, and more octets may come.
    SilentWaiting,
    /// It does not answer what has to be answered.
    Missing,
    /// It ends the connection where no error is due.
    Closed,
    /// The same, after the client's GOAWAY (RFC 9113, 6.8).
    AfterGoaway,
    /// It ends the connection with SETTINGS_TIMEOUT, where no error is due and its SETTINGS are not acknowledged (6.5.3).
    TimedOut,
}

/// Why a server is not judged beside an item.
#[derive(Clone, Copy)]
pub enum Unseen {
    /// The connection had ended.
    ConnectionEnded,
    /// A stream had another state than this server's, mostly since it was answered before.
    OtherState,
    /// The server takes longer frames.
    LongerFrames,
    /// Its windows are larger.
    LargerWindows,
    /// It knows :protocol.
    KnowsProtocol,
}

/// A verdict.
#[derive(Clone, Copy)]
pub enum Verdict {
    /// The server does what this server does.
    Same,
    /// The rule lets a server do it.
    Allowed,
    /// One sentence of the RFC speaks for it, and another against it.
    Doubtful,
    /// The rule doesn't let a server do it.
    Broken,
    /// None can be given.
    Skipped(Unseen),
}

impl Reaction {
    /// Whether the reaction is permitted: of what looks the same, the best.
    pub fn permission(self, rule: Conforming) -> Permission
        ensures { result ≡ permission rule self }
    {
        match self {
            Reaction::One(seen) => rule.allows(seen),
            Reaction::Served => rule.allows(Observed::Accept),
            Reaction::Either => better(
                rule.allows(Observed::Accept),
                at_most_open(rule.allows(Observed::Answer)),
            ),
            Reaction::Refused => rule.allows(Observed::Answer),
            Reaction::Quiet => better(rule.allows(Observed::Ignore), rule.allows(Observed::Accept)),
            Reaction::Pending => better(
                rule.allows(Observed::Ignore),
                better(
                    rule.allows(Observed::Accept),
                    at_most_open(rule.allows(Observed::Answer)),
                ),
            ),
            Reaction::Waiting => better(
                rule.allows(Observed::Wait),
                better(rule.allows(Observed::Ignore), rule.allows(Observed::Accept)),
            ),
            Reaction::Silent => Permission::NotAllowed,
            Reaction::SilentWaiting => rule.allows(Observed::Wait),
            Reaction::Missing => rule.allows(Observed::Ignore),
            Reaction::Closed => better(rule.allows(Observed::Close), Permission::Open),
            Reaction::AfterGoaway => accepted_permission(Accepted::Goaway, Observed::Close),
            Reaction::TimedOut => accepted_permission(
                Accepted::SettingsNotAcknowledged,
                Observed::ConnectionError(4),
            ),
        }
    }

    /// Whether the reaction is this error.
    fn is_error(self, own: Observed) -> bool
        ensures { result ≡ is_error own self }
    {
        match self {
            Reaction::One(seen) => is_same_error(own, seen),
            Reaction::Served
            | Reaction::Either
            | Reaction::Refused
            | Reaction::Quiet
            | Reaction::Pending
            | Reaction::Waiting
            | Reaction::Silent
            | Reaction::SilentWaiting
            | Reaction::Missing
            | Reaction::Closed
            | Reaction::AfterGoaway
            | Reaction::TimedOut => false,
        }
    }
}

/// Whether a reaction is allowed where something is accepted.
fn accepted_permission(accepted: Accepted, seen: Observed) -> Permission
    ensures { result ≡ accepted_permission accepted seen }
{
    let row = accepted.row();
    row.duties.conforming.allows(seen)
}

/// The better of two permissions.
fn better(one: Permission, other: Permission) -> Permission
    ensures { result ≡ better one other }
{
    match (one, other) {
        (Permission::Allowed, _) => Permission::Allowed,
        (Permission::Open, Permission::Allowed) => Permission::Allowed,
        (Permission::Open, _) => Permission::Open,
        (Permission::NotAllowed, other) => other,
    }
}

/// What is allowed is open, since it is not known whether it was done.
fn at_most_open(permission: Permission) -> Permission
    ensures { result ≡ at_most_open permission }
{
    match permission {
        Permission::Allowed | Permission::Open => Permission::Open,
        Permission::NotAllowed => Permission::NotAllowed,
    }
}

/// The verdict by a permission.
fn by_permission(permission: Permission) -> Verdict
    ensures { result ≡ by_permission permission }
{
    match permission {
        Permission::Allowed => Verdict::Allowed,
        Permission::Open => Verdict::Doubtful,
        Permission::NotAllowed => Verdict::Broken,
    }
}

/// The error that was seen: that of the connection, which ends all, first.
pub fn error_of(shown: &Shown) -> Option<Observed>
    ensures { result ≡ error_of shown.now }
{
    match (shown.goaway, shown.reset) {
        (Some(code), _) => Some(Observed::ConnectionError(code)),
        (None, Some(code)) => Some(Observed::StreamError(code)),
        (None, None) => None,
    }
}

/// Whether two errors are the same.
fn is_same_error(one: Observed, other: Observed) -> bool
    ensures { result ≡ is_same_error one other }
{
    match (one, other) {
        (Observed::ConnectionError(one), Observed::ConnectionError(other)) => one == other,
        (Observed::StreamError(one), Observed::StreamError(other)) => one == other,
        _ => false,
    }
}

/// Whether a connection was closed after an item, and before the next that is judged.
fn is_closed_behind(item: &Item, closed: Option<u32>) -> bool
    ensures { result ≡ is_closed_behind item.now closed }
{
    match closed {
        Some(after) => item.is_behind(after),
        None => false,
    }
}

/// Whether it was closed before the item.
fn is_closed_before(item: &Item, closed: Option<u32>) -> bool
    ensures { result ≡ is_closed_before item.now closed }
{
    match closed {
        Some(after) => after < item.low,
        None => false,
    }
}

/// Whether a PING at the end was not answered.
fn is_dead(answers: Option<bool>) -> bool
    ensures { result ≡ is_dead answers }
{
    match answers {
        Some(answers) => !answers,
        None => false,
    }
}

/// Nothing is seen: nothing more is to come, or more may come.
fn quiet(item: &Item, ending: Ending) -> Reaction
    ensures { result ≡ quiet item.now ending }
{
    match (is_dead(ending.answers), item.waits, item.is_begun) {
        (true, true, _) => Reaction::SilentWaiting,
        (true, false, _) => Reaction::Silent,
        (false, true, _) => Reaction::Waiting,
        (false, false, true) => Reaction::Pending,
        (false, false, false) => Reaction::Quiet,
    }
}

/// An answer with this status.
fn answer_reaction(peer: Peer, status: u32) -> Reaction
    ensures { result ≡ answer_reaction peer status }
{
    if status < 400 {
        Reaction::Served
    } else if status == peer.status {
        Reaction::Either
    } else {
        Reaction::Refused
    }
}

/// Nothing of an error is seen.
fn without_error(item: &Item, answered: Option<u32>, ending: Ending, peer: Peer) -> Reaction
    ensures { result ≡ without_error item.now answered ending peer }
{
    match answered {
        Some(status) => answer_reaction(peer, status),
        None => {
            if is_closed_behind(item, ending.closed) {
                Reaction::One(Observed::Close)
            } else {
                quiet(item, ending)
            }
        }
    }
}

/// What is seen where an error is due.
pub fn reaction_of(item: &Item, theirs: &Shown, ending: Ending, peer: Peer) -> Reaction
    ensures { result ≡ reaction_with (error_of theirs.now) item.now theirs.now ending peer }
{
    match error_of(theirs) {
        Some(error) => Reaction::One(error),
        None => {
            if ending.http1 {
                Reaction::One(Observed::Http1)
            } else {
                without_error(item, theirs.answered, ending, peer)
            }
        }
    }
}

/// A reason, where it holds.
fn excused_if(holds: bool, why: Unseen) -> Option<Unseen>
    ensures { result ≡ excused_if holds why }
{
    if holds { Some(why) } else { None }
}

/// Why a server can't break a rule: it gives more than this server does.
fn excuse(condition: Condition, own: &Shown, theirs: &Shown, peer: Peer) -> Option<Unseen>
    ensures { result ≡ excuse condition own.now theirs.now peer }
{
    match condition {
        Condition::Always => None,
        Condition::Frame(length) => excused_if(length <= peer.frame, Unseen::LongerFrames),
        Condition::Windows(all, some) => {
            let connection = theirs.credit.saturating_add(65_535);
            let stream = theirs.stream_credit.saturating_add(u64::from(peer.window));
            excused_if(all <= connection && some <= stream, Unseen::LargerWindows)
        }
        Condition::Protocol => excused_if(peer.protocol, Unseen::KnowsProtocol),
        Condition::Streams => excused_if(own.ends != theirs.ends, Unseen::OtherState),
    }
}

/// Whether one server had reset the stream of an item and the other had not, or, where both had not, one had ended it (RFC 9113,
/// 5.1).
fn is_other_state(own: &Shown, theirs: &Shown) -> bool
    ensures { result ≡ is_other_state own.now theirs.now }
{
    own.had_reset != theirs.had_reset || !own.had_reset && own.had_ended != theirs.had_ended
}

/// Why a server can't be judged beside an item, if it can't: its connection had ended, or its stream had another state than
/// that of this server, since the stream's state is the peer's.
fn why_unseen(
    item: &Item,
    own: &Shown,
    theirs: &Shown,
    ending: Ending,
    peer: Peer,
) -> Option<Unseen>
    ensures { result ≡ why_unseen item.now own.now theirs.now ending peer }
{
    if theirs.was_over || is_closed_before(item, ending.closed) {
        Some(Unseen::ConnectionEnded)
    } else if is_other_state(own, theirs) {
        Some(Unseen::OtherState)
    } else {
        excuse(item.condition, own, theirs, peer)
    }
}

/// Whether SETTINGS is not acknowledged.
fn lacks_acknowledgement(due: Option<u32>, count: u64) -> bool
    ensures { result ≡ lacks_acknowledgement due count }
{
    match due {
        Some(due) => count < u64::from(due),
        None => false,
    }
}

/// Whether the connection ended after an item, by an error or as the server closed it.
fn is_over_behind(item: &Item, theirs: &Shown, closed: Option<u32>) -> bool
    ensures { result ≡ is_over_behind item.now theirs.now closed }
{
    match closed {
        Some(after) => theirs.is_over || item.low <= after,
        None => theirs.is_over,
    }
}

/// Whether a request is not answered that this server answers: nobody owes an answer on a connection that has ended.
fn lacks_answer(item: &Item, own: &Shown, theirs: &Shown, closed: Option<u32>) -> bool
    ensures { result ≡ lacks_answer item.now own.now theirs.now closed }
{
    item.is_owed
        && (own.answered.is_some()
            && (!theirs.answered_before && !is_over_behind(item, theirs, closed)))
}

/// Whether something is not answered that this server answers.
fn is_missing(item: &Item, own: &Shown, theirs: &Shown, closed: Option<u32>) -> bool
    ensures { result ≡ is_missing item.now own.now theirs.now closed }
{
    lacks_acknowledgement(item.settings, theirs.acknowledged)
        || own.pong && !theirs.pong
        || lacks_answer(item, own, theirs, closed)
}

/// Whether an error is a connection error with SETTINGS_TIMEOUT.
fn is_timeout(error: Observed) -> bool
    ensures { result ≡ is_timeout error }
{
    match error {
        Observed::ConnectionError(code) => code == 4,
        _ => false,
    }
}

/// An error where none is due.
fn undue_error(item: &Item, error: Observed) -> Reaction
    ensures { result ≡ undue_error item.now error }
{
    if is_timeout(error) && !item.is_acknowledged {
        Reaction::TimedOut
    } else {
        Reaction::One(error)
    }
}

/// The end of the connection where no error is due.
fn undue_end(item: &Item) -> Reaction
    ensures { result ≡ undue_end item.now }
{
    if item.has_goaway {
        Reaction::AfterGoaway
    } else {
        Reaction::Closed
    }
}

/// What is seen where no error is due, if it is something else than what this server does.
pub fn lawful_reaction(item: &Item, own: &Shown, theirs: &Shown, ending: Ending) -> Option<Reaction>
    ensures { result ≡ lawful_reaction (error_of theirs.now) item.now own.now theirs.now ending }
{
    if let Some(error) = error_of(theirs) {
        return Some(undue_error(item, error));
    }
    if ending.http1 {
        Some(Reaction::One(Observed::Http1))
    } else if is_closed_behind(item, ending.closed) {
        Some(undue_end(item))
    } else if is_missing(item, own, theirs, ending.closed) {
        Some(Reaction::Missing)
    } else if item.is_last && !item.waits && is_dead(ending.answers) {
        Some(Reaction::Silent)
    } else if !own.pong && theirs.pong {
        Some(Reaction::Served)
    } else {
        None
    }
}

/// The verdict where this server has an error.
fn error_verdict(rule: Conforming, own: Observed, seen: Reaction) -> Verdict
    ensures { result ≡ error_verdict rule own seen }
{
    if seen.is_error(own) {
        Verdict::Same
    } else {
        by_permission(seen.permission(rule))
    }
}

/// The verdict where no error is due.
fn lawful_verdict(rule: Conforming, seen: Option<Reaction>) -> Verdict
    ensures { result ≡ lawful_verdict rule seen }
{
    match seen {
        Some(seen) => by_permission(seen.permission(rule)),
        None => Verdict::Same,
    }
}

/// The verdict by what this server does.
fn verdict_by(item: &Item, own: &Shown, theirs: &Shown, ending: Ending, peer: Peer) -> Verdict
    ensures { result ≡ verdict_by (error_of own.now) item.now own.now theirs.now ending peer }
{
    match error_of(own) {
        Some(error) => error_verdict(item.rule, error, reaction_of(item, theirs, ending, peer)),
        None => lawful_verdict(item.rule, lawful_reaction(item, own, theirs, ending)),
    }
}

/// The verdict on a server of which `theirs` is seen beside an item, where `own` is seen of this server.
pub fn judged(item: &Item, own: &Shown, theirs: &Shown, ending: Ending, peer: Peer) -> Verdict
    ensures { result ≡ judged item.now own.now theirs.now ending peer }
{
    match why_unseen(item, own, theirs, ending, peer) {
        Some(why) => Verdict::Skipped(why),
        None => verdict_by(item, own, theirs, ending, peer),
    }
}

/// A verdict where the RFC leaves a server more than the row of the rule says: then nothing is called broken.
pub fn softened(is_left: bool, verdict: Verdict) -> Verdict
    ensures { result ≡ softened is_left verdict }
{
    match verdict {
        Verdict::Broken => {
            if is_left {
                Verdict::Doubtful
            } else {
                Verdict::Broken
            }
        }
        Verdict::Same | Verdict::Allowed | Verdict::Doubtful | Verdict::Skipped(_) => verdict,
    }
}

/// The worse of two verdicts; what is skipped counts before what is the same.
pub fn worse(one: Verdict, other: Verdict) -> Verdict
    ensures { result ≡ worse one other }
{
    match (one, other) {
        (Verdict::Broken, _) | (_, Verdict::Broken) => Verdict::Broken,
        (Verdict::Doubtful, _) | (_, Verdict::Doubtful) => Verdict::Doubtful,
        (Verdict::Allowed, _) | (_, Verdict::Allowed) => Verdict::Allowed,
        (Verdict::Skipped(why), _) => Verdict::Skipped(why),
        (Verdict::Same, other) => other,
    }
}
