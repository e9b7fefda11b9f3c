//! What is after the last item as JSON, and what each live stream waits for there. The members are described in
//! docs/EXPLAIN.md.

use crate::json::{Unjudged, put_head, put_unjudged};
use crate::json_words::JsonWords;
use crate::member;
use h2_explain_text::rest::{InputRest, Missing};
use h2_explain_text::waits::{AnswerWait, RequestWait, Wait};
use h2_spec::connection::Config;
use std::alloc::Allocator;

/// Puts the head of the frame that is cut off, if it is there.
fn put_cut_frame<A: Allocator>(missing: Missing, out: &mut JsonWords<A>) {
    if let Some(head) = missing.head {
        put_head(&head, out);
    }
}

/// Puts what is after the last item in, and that it is not judged, where it is not.
pub fn put_end<A: Allocator>(rest: InputRest, unjudged: Option<Unjudged>, out: &mut JsonWords<A>) {
    match rest.ended {
        Some(code) => out.number(member!("code"), u64::from(code)),
        None => out.flag(member!("at_least"), rest.missing.at_least),
    }
    out.flag(member!("ended"), rest.ended.is_some());
    if rest.ended.is_none() {
        put_cut_frame(rest.missing, out);
    }
    out.number(member!("items"), rest.items);
    if rest.ended.is_none() {
        out.number(member!("needs"), rest.missing.needs as u64);
    }
    put_unjudged(unjudged, out);
    out.number(member!("octets"), rest.octets as u64);
    out.number(member!("offset"), rest.offset as u64);
}

/// Puts what the client may still send, null where it has ended its side.
fn put_request<A: Allocator>(
    request: Option<RequestWait>,
    config: &Config,
    out: &mut JsonWords<A>,
) {
    let Some(request) = request else {
        out.null(member!("request"));
        return;
    };
    out.open(member!("request"));
    out.signed(member!("connection_window"), request.connection_window);
    out.number_if_any(member!("missing"), request.missing);
    out.number(member!("owed"), u64::from(request.owed));
    out.number(member!("returned_at"), u64::from(config.credit));
    out.signed(member!("window"), request.window);
    out.close();
}

/// Puts what the server has still to send, null where there is nothing.
fn put_answer<A: Allocator>(answer: Option<AnswerWait>, out: &mut JsonWords<A>) {
    let Some(answer) = answer else {
        out.null(member!("answer"));
        return;
    };
    out.open(member!("answer"));
    out.signed(member!("connection_window"), answer.connection_window);
    out.number(member!("remaining"), answer.remaining);
    out.signed(member!("window"), answer.window);
    out.close();
}

/// Puts what a stream waits for, as an element.
pub fn put_wait<A: Allocator>(wait: &Wait, config: &Config, out: &mut JsonWords<A>) {
    out.open_element();
    put_answer(wait.answer, out);
    put_request(wait.request, config, out);
    out.number(member!("stream"), u64::from(wait.stream));
    out.close();
}
