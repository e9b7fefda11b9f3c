//! What a server may do, and what is accepted, as JSON. The form: docs/EXPLAIN.md.

use crate::json_words::JsonWords;
use crate::member;
use h2_explain_item::diagnosis::accepted::{all_listed, is_accepted};
use h2_explain_item::item::Explained;
use h2_explain_item::shown_block::SpelledFields;
use h2_explain_text::account::Account;
use h2_explain_text::others::{ended_fields, no_errors};
use h2_explain_words::names::code_name;
use h2_spec::accepted::Accepted;
use h2_spec::conforming::{Codes, Conforming, Observed, Reactions};
use std::alloc::Allocator;

/// Puts the names of codes, as elements.
fn put_codes<A: Allocator>(codes: Codes, out: &mut JsonWords<A>) {
    if let Codes::Any = codes {
        out.text_element("any");
        return;
    }
    for code in 0..14 {
        if codes.has(code) {
            out.text_element(code_name(code).unwrap_or(""));
        }
    }
}

/// The word for a reaction that is no error; empty for an error.
fn word(other: Observed) -> &'static str {
    match other {
        Observed::ConnectionError(_) | Observed::StreamError(_) => "",
        Observed::Close => "close",
        Observed::Answer => "answer",
        Observed::Ignore => "ignore",
        Observed::Accept => "accept",
        Observed::Wait => "wait",
        Observed::Http1 => "http1",
    }
}

/// Puts reactions: the codes of errors, and the words for others.
fn put_reactions<A: Allocator>(these: Reactions, out: &mut JsonWords<A>) {
    out.open_list(member!("connection"));
    put_codes(these.connection, out);
    out.close_list();
    out.open_list(member!("other"));
    for other in no_errors() {
        if these.is_named(*other) {
            out.text_element(word(*other));
        }
    }
    out.close_list();
    out.open_list(member!("stream"));
    put_codes(these.stream, out);
    out.close_list();
}

/// Puts what a server may do: the least, what is allowed, and what is open.
pub(crate) fn put_allowed<A: Allocator>(conforming: Conforming, out: &mut JsonWords<A>) {
    out.open(member!("allowed"));
    out.plain(member!("least"), conforming.least.words());
    out.open(member!("open"));
    put_reactions(conforming.open, out);
    out.close();
    put_reactions(conforming.allowed, out);
    out.close();
}

/// Puts something that is accepted, as an element.
fn put_one<A: Allocator>(accepted: Accepted, out: &mut JsonWords<A>) {
    let row = accepted.row();
    out.open_element();
    put_allowed(row.duties.conforming, out);
    out.plain(member!("client"), row.duties.client.words());
    out.plain(member!("client_section"), row.client_section);
    out.plain(member!("name"), row.name);
    out.plain(member!("section"), row.section);
    out.plain(member!("sentence"), row.sentence);
    out.plain(member!("server"), row.duties.server.words());
    out.close();
}

/// Puts what is accepted of an item, if there is something.
pub(crate) fn put_accepted<A: Allocator + Copy>(
    item: &Explained<'_>,
    account: &Account<A>,
    fields: SpelledFields<'_, A>,
    out: &mut JsonWords<A>,
) {
    let fields = ended_fields(account, fields);
    let mut is_begun = false;
    for accepted in all_listed() {
        if is_accepted(*accepted, item, account.warnings, fields) {
            if !is_begun {
                out.open_list(member!("accepted"));
            }
            is_begun = true;
            put_one(*accepted, out);
        }
    }
    if is_begun {
        out.close_list();
    }
}
