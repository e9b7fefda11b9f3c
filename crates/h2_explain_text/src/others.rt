//! What a server may do, in words: a line below those of an error, or of why an item is ignored, and lines of what is
//! accepted. Which reactions are listed has a definition, h2_explain_item's `specs/Others.antt`; the words have none. The form:
//! docs/EXPLAIN.md.

use crate::account::Account;
use crate::paint::{Paint, Role};
use h2_explain_item::diagnosis::accepted::{all_listed, is_accepted};
use h2_explain_item::diagnosis::others::{error_of, is_listed};
use h2_explain_item::diagnosis::special::{
    case_of_error, case_of_reason, rule_of_cause, rule_of_reason,
};
use h2_explain_item::item::Explained;
use h2_explain_item::shown_block::SpelledFields;
use h2_explain_words::names::Code;
use h2_io::say::TextBuilder;
use h2_io::say_all;
use h2_spec::accepted::Accepted;
use h2_spec::conforming::{Codes, Conforming, Least, Observed, Reactions};
use h2_spec::rules::{Row, ServerDuty};
use std::alloc::Allocator;

/// The error codes of RFC 9113, 7.
const CODES: u32 = 14;

/// The reactions that are no error, in their order.
static OTHERS: [Observed; 6] = [
    Observed::Answer,
    Observed::Ignore,
    Observed::Accept,
    Observed::Wait,
    Observed::Http1,
    Observed::Close,
];

/// The reactions that are no error.
pub fn no_errors() -> &'static [Observed] {
    &OTHERS
}

/// A list of reactions that is being put.
#[derive(Clone, Copy)]
struct Listing {
    ours: Observed,
    paint: Paint,
    role: Role,
    /// What the next reaction begins with.
    lead: &'static str,
    is_begun: bool,
}

impl Listing {
    /// Puts what comes before a reaction last.
    fn begin<A: Allocator>(self, out: &mut TextBuilder<A>) -> Listing {
        if !self.is_begun {
            self.paint.begin(self.role, out);
            say_all!(out; "others may: ");
        }
        say_all!(out; self.lead);
        Listing {
            lead: "; ",
            is_begun: true,
            ..self
        }
    }

    /// Puts a reaction last, where it is listed.
    fn put<A: Allocator>(
        self,
        these: Reactions,
        other: Observed,
        out: &mut TextBuilder<A>,
    ) -> Listing {
        if !is_listed(self.ours, these, other) {
            return self;
        }
        let next = self.begin(out);
        say_reaction(other, out);
        next
    }

    /// Puts errors last whose scope this is, where they are listed.
    fn put_errors<A: Allocator>(
        self,
        these: Reactions,
        is_connection: bool,
        out: &mut TextBuilder<A>,
    ) -> Listing {
        let mut list = self;
        for code in 0..CODES {
            list = list.put(these, error_of(is_connection, code), out);
        }
        list
    }

    /// Puts reactions last, where they are listed; where any code is allowed, that there may be an error.
    fn put_all<A: Allocator>(self, these: Reactions, out: &mut TextBuilder<A>) -> Listing {
        let mut list = self;
        if let Codes::Any = these.stream {
            list = list.begin(out);
            say_all!(out; "an error with any code");
        } else {
            list = list.put_errors(these, true, out);
            list = list.put_errors(these, false, out);
        }
        for other in no_errors() {
            list = list.put(these, *other, out);
        }
        list
    }

    /// Puts reactions last that are open, where they are listed.
    fn put_open<A: Allocator>(self, these: Reactions, out: &mut TextBuilder<A>) -> Listing {
        let lead = if self.is_begun { "; open: " } else { "open: " };
        Listing { lead, ..self }.put_all(these, out)
    }
}

/// Puts a reaction in words last.
fn say_reaction<A: Allocator>(other: Observed, out: &mut TextBuilder<A>) {
    match other {
        Observed::ConnectionError(code) => say_all!(out; "connection error ", Code(code)),
        Observed::StreamError(code) => say_all!(out; "stream error ", Code(code)),
        Observed::Close => say_all!(out; "end the connection without an error"),
        Observed::Answer => say_all!(out; "answer with a status of 400 or more"),
        Observed::Ignore => say_all!(out; "ignore it"),
        Observed::Accept => say_all!(out; "accept it"),
        Observed::Wait => say_all!(out; "wait for more octets"),
        Observed::Http1 => say_all!(out; "answer in HTTP/1.1"),
    }
}

/// Puts the line of what other servers may do last, beside this server's own reaction, if a reader does not know it.
fn say_others<A: Allocator>(
    ours: Observed,
    conforming: Conforming,
    paint: Paint,
    role: Role,
    out: &mut TextBuilder<A>,
) {
    let list = Listing {
        ours,
        paint,
        role,
        lead: "",
        is_begun: false,
    };
    let list = list.put_all(conforming.allowed, out);
    let list = list.put_open(conforming.open, out);
    if list.is_begun {
        paint.end(out);
    }
}

/// Puts what other servers may do where an item is an error last.
pub(crate) fn say_beside_error<A: Allocator>(
    item: &Explained<'_>,
    account: &Account<A>,
    paint: Paint,
    out: &mut TextBuilder<A>,
) {
    if account.is_brief {
        return;
    }
    if let Some(cause) = item.cause {
        let rule = rule_of_cause(cause, case_of_error(item, account.facts));
        let ours = error_of(item.ends_connection(), cause.code().number());
        say_others(ours, rule.duties.conforming, paint, Role::Error, out);
    }
}

/// Puts what other servers may do where an item is ignored last.
pub(crate) fn say_beside_reason<A: Allocator>(
    item: &Explained<'_>,
    account: &Account<A>,
    paint: Paint,
    out: &mut TextBuilder<A>,
) {
    if account.is_brief {
        return;
    }
    if let Some(reason) = item.ignored {
        let rule = rule_of_reason(reason, case_of_reason(item, account.facts));
        let conforming = rule.duties.conforming;
        say_others(Observed::Ignore, conforming, paint, Role::Ignored, out);
    }
}

/// How far the RFC decides that something is accepted, in words.
pub fn accepting_words(row: Row) -> &'static str {
    match (row.duties.server, row.duties.conforming.least) {
        (ServerDuty::Must, Least::Accept) => "server MUST accept",
        (ServerDuty::Must, _) => "server MUST refuse",
        (ServerDuty::Should, _) => "server SHOULD refuse",
        (ServerDuty::May, _) => "server MAY refuse",
        (ServerDuty::Own, _) => "own",
    }
}

/// The fields of the block that an item ends, if they are shown with it.
pub fn ended_fields<'f, A: Allocator>(
    account: &Account<A>,
    fields: SpelledFields<'f, A>,
) -> Option<SpelledFields<'f, A>> {
    if account.shows_fields {
        Some(fields)
    } else {
        None
    }
}

/// Puts the line of something that is accepted last, and that of what other servers may do.
fn say_one_accepted<A: Allocator>(accepted: Accepted, paint: Paint, out: &mut TextBuilder<A>) {
    let row = accepted.row();
    paint.begin(Role::Change, out);
    let (name, words) = (row.name, accepting_words(row));
    say_all!(out; "accepted: ", name, ", ", words, ", ", row.section, ": ", row.sentence);
    paint.end(out);
    let conforming = row.duties.conforming;
    say_others(Observed::Accept, conforming, paint, Role::Change, out);
}

/// Puts the lines of what is accepted of an item last, where long texts are shown whole.
pub(crate) fn say_accepted<A: Allocator + Copy>(
    item: &Explained<'_>,
    account: &Account<A>,
    fields: SpelledFields<'_, A>,
    paint: Paint,
    out: &mut TextBuilder<A>,
) {
    if account.is_brief || !account.is_full {
        return;
    }
    let fields = ended_fields(account, fields);
    for accepted in all_listed() {
        if is_accepted(*accepted, item, account.warnings, fields) {
            say_one_accepted(*accepted, paint, out);
        }
    }
}
