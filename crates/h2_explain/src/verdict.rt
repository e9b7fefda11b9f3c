//! What a run says of a client: the errors and the warnings of its items are counted, and the exit status of `--strict`
//! comes of them. Definitions: `specs/Verdicts.antt`.

ghost use Rattle.std.specs.Prelude.{◌≡◌, ◌==◌, false, OnOk};
ghost use Rattle.h2_explain.specs.Explains.{summary_since};
ghost use Rattle.h2_explain.specs.Verdicts.{is_answer_unfinished, is_limit, no_tally, strict_status, tally_with, verdict_at, breaks_rule};

use crate::run::Summary;
use h2_conn::{Conn, is_ended};
use h2_explain_item::diagnosis::special::CaseFacts;
use h2_explain_item::diagnosis::warning::{Warnings, duty_of_error, duty_of_reason, is_breach};
use h2_explain_item::item::Explained;
use h2_spec::causes::Cause;
use h2_spec::rules::ClientDuty;
use std::alloc::{AllocError, Allocator, Global};
use std::marker::Model;

/// What is counted of the items of a run.
#[derive(Drop)]
pub struct Tally<A: Allocator = Global> {
    /// The causes of the errors, in their order.
    pub errors: Vec<Cause, A>,
    /// How many warnings there were; stays at 2^64 - 1 once there.
    pub warnings: u64,
    /// Whether the client broke a rule.
    pub broken: bool,
    /// Whether the client was above a limit of this server.
    pub limited: bool,
}

impl<A: Allocator> Model for Tally<A> {
    ghost use Rattle.h2_explain.specs.Verdicts.{Tallied};

    ghost Value = { Tallied };

    ghost view = { λ t. record { errors = t.errors.items; warnings = t.warnings; broken = t.broken; limited = t.limited } };
}

/// Whether it is a limit of this server that the client was above.
fn is_limit(duty: ClientDuty) -> bool
    ensures { result ≡ is_limit duty }
{
    match duty {
        ClientDuty::Limit => true,
        ClientDuty::MustNot | ClientDuty::Must | ClientDuty::Breach | ClientDuty::Nothing => {
            false
        }
    }
}

/// Whether the client broke a rule with an item: by its error, by why it is ignored, or by a warning that is no note.
fn breaks_rule(item: &Explained<'_>, facts: CaseFacts, warnings: Warnings) -> bool
    ensures { result ≡ breaks_rule item.now facts warnings }
{
    is_breach(duty_of_error(item, facts))
        || is_breach(duty_of_reason(item, facts))
        || warnings.broken_count() > 0
}

impl<A: Allocator> Tally<A> {
    /// Nothing was counted. Takes no memory.
    pub fn new(alloc: A) -> Tally<A>
        ensures { result ≡ no_tally }
    {
        Tally {
            errors: Vec::new(alloc),
            warnings: 0,
            broken: false,
            limited: false,
        }
    }

    /// Counts an item with its warnings; `facts` decide the special case of its rule.
    ///
    /// `AllocError` where memory is refused.
    pub fn note(
        &mut self,
        item: &Explained<'_>,
        facts: CaseFacts,
        warnings: Warnings,
    ) -> Result<(), AllocError>
        ensures { OnOk result (self.new ≡ tally_with self.old item.now facts warnings) }
    {
        if let Some(cause) = item.cause {
            self.errors.push(cause)?;
        }
        self.warnings = self.warnings.saturating_add(warnings.count());
        self.broken = self.broken || breaks_rule(item, facts, warnings);
        self.limited = self.limited || is_limit(duty_of_error(item, facts));
        Ok(())
    }
}

/// What is said about a client at the end of its octets.
#[derive(Clone, Copy)]
pub struct ClientVerdict {
    /// Whether it broke a rule: with an error or an ignored frame whose rule it broke, or with a warning that is no note.
    pub broken: bool,
    /// Whether it was above a limit of this server.
    pub limited: bool,
    /// Whether its octets end within an item, or while an answer waits for a window of its.
    pub unfinished: bool,
}

impl ClientVerdict {
    /// The exit status of `--strict`; `ended` is whether a connection error ended the connection (RFC 9113, 5.4.1).
    ///
    /// 5: the client broke a rule. 6: it was above a limit of this server. 7: octets of a frame are left, or an answer waits. 4: a connection
    /// error ended the connection, and it broke no rule. 0: else. The first of these decides.
    pub fn status(self, ended: bool) -> u8
        ensures value { result ≡ strict_status self ended }
        ensures other { (result == 3) ≡ false }
    {
        if self.broken {
            5
        } else if self.limited {
            6
        } else if self.unfinished {
            7
        } else if ended {
            4
        } else {
            0
        }
    }
}

/// Whether an answer waits for a window of the client's, and the connection goes on (RFC 9113, 6.9).
pub(crate) fn is_answer_unfinished<A: Allocator + Copy>(conn: &Conn<'_, A>) -> bool
    ensures { result ≡ is_answer_unfinished conn.now.state }
{
    !is_ended(conn.counts().phase) && conn.first_waiting().is_some()
}

/// What is said about a client whose items were counted, where that many octets are left after the last.
pub(crate) fn verdict_at<A: Allocator + Copy>(
    tally: &Tally<A>,
    conn: &Conn<'_, A>,
    left: usize,
) -> ClientVerdict
    ensures { result ≡ verdict_at tally.now conn.now.state left }
{
    let counts = conn.counts();
    ClientVerdict {
        broken: tally.broken,
        limited: tally.limited,
        unfinished: (left > 0 && !is_ended(counts.phase)) || is_answer_unfinished(conn),
    }
}

/// What sums up a connection that had this many items, with this many octets left. Where nobody is blamed since an item, what was
/// counted before is all that is said.
pub fn summary_since<A: Allocator + Copy>(
    conn: &Conn<'_, A>,
    tally: &Tally<A>,
    items: u64,
    left: usize,
    since: Option<u64>,
) -> Summary
    ensures { result ≡ summary_since since tally.now conn.now.state items left }
{
    match since {
        None => Summary {
            items,
            ended: conn.ended(),
            verdict: verdict_at(tally, conn, left),
        },
        Some(_) => Summary {
            items,
            ended: None,
            verdict: ClientVerdict {
                broken: tally.broken,
                limited: tally.limited,
                unfinished: false,
            },
        },
    }
}
