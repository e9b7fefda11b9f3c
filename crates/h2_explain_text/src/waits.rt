//! Why a connection waits at the end of its input: what each live stream waits for, and whose turn it is. Definitions:
//! `specs/Waits.antt`, the words are in docs/EXPLAIN.md.

ghost use Rattle.std.specs.Prelude.{◌≡◌, ◌-◌};
ghost use Rattle.std.specs.Option.{option_map};
ghost use Rattle.h2_explain_text.specs.Waits.{answer_wait, is_sending, request_wait, wait_of};

use h2_io::say::{OctetCount, TextBuilder};
use h2_io::say_all;
use h2_spec::connection::{Config, ConnectionState};
use h2_spec::streams::{Numbers, Stream, StreamState};
use std::alloc::Allocator;

/// What a client may still send on a stream.
#[derive(Clone, Copy)]
pub struct RequestWait {
    /// The receive window of the stream, in octets (RFC 9113, 6.9).
    pub window: i64,
    /// The receive window of the connection.
    pub connection_window: i64,
    /// The octets received on the stream that the server has not yet given back by WINDOW_UPDATE.
    pub owed: u32,
    /// How many octets of content are missing, if the request has a content-length (RFC 9113, 8.1.1).
    pub missing: Option<u64>,
}

/// What the server has still to send on a stream.
#[derive(Clone, Copy)]
pub struct AnswerWait {
    /// The octets that are left of the answer's body.
    pub remaining: u64,
    /// The send window of the stream, in octets (RFC 9113, 6.9).
    pub window: i64,
    /// The send window of the connection.
    pub connection_window: i64,
}

/// What a live stream waits for.
#[derive(Clone, Copy)]
pub struct Wait {
    /// The stream's identifier.
    pub stream: u32,
    /// What the client may still send, unless it has ended its side.
    pub request: Option<RequestWait>,
    /// What the server has still to send, if there is anything.
    pub answer: Option<AnswerWait>,
}

/// Whether the client has still to end its side of a live stream (RFC 9113, 5.1).
fn is_sending(kind: StreamState) -> bool
    ensures { result ≡ is_sending kind }
{
    match kind {
        StreamState::BothOpen | StreamState::HalfLocal => true,
        StreamState::Idle
        | StreamState::Skipped
        | StreamState::HalfRemote
        | StreamState::Ended
        | StreamState::PeerReset
        | StreamState::WeReset => false,
    }
}

/// How much of a declared content is missing.
fn missing_of(declared: Option<u64>, received: u64) -> Option<u64>
    ensures { result ≡ option_map (λ n. n - received) declared }
{
    match declared {
        Some(declared) => Some(declared.saturating_sub(received)),
        None => None,
    }
}

/// What the client may still send, where it is still sending.
fn request_wait(sending: bool, numbers: &Numbers, counts: &ConnectionState) -> Option<RequestWait>
    ensures { result ≡ request_wait sending numbers.now counts.now }
{
    if !sending {
        return None;
    }
    Some(RequestWait {
        window: i64::from(numbers.recv.value()),
        connection_window: i64::from(counts.recv.value()),
        owed: numbers.owed.owed(),
        missing: missing_of(numbers.declared, numbers.content_received),
    })
}

/// What the server has still to send.
fn answer_wait(numbers: &Numbers, counts: &ConnectionState) -> Option<AnswerWait>
    ensures { result ≡ answer_wait numbers.now.body_remaining numbers.now counts.now }
{
    match numbers.body_remaining {
        Some(remaining) => Some(AnswerWait {
            remaining,
            window: i64::from(numbers.send.value()),
            connection_window: i64::from(counts.send.value()),
        }),
        None => None,
    }
}

/// What a live stream waits for.
pub fn wait_of(stream: &Stream, counts: &ConnectionState) -> Wait
    ensures { result ≡ wait_of stream.now counts.now }
{
    let numbers = &stream.numbers;
    Wait {
        stream: stream.id,
        request: request_wait(is_sending(stream.kind), numbers, counts),
        answer: answer_wait(numbers, counts),
    }
}

/// Puts last when the octets that a stream is owed come back, if there are any.
fn say_owed<A: Allocator>(request: &RequestWait, config: &Config, out: &mut TextBuilder<A>) {
    if request.owed == 0 {
        return;
    }
    let verb = if request.owed == 1 { " is" } else { " are" };
    say_all!(out; "; ", OctetCount(u64::from(request.owed)), verb, " to be returned, at ", config.credit);
    if request.window <= 0 && config.window < config.credit {
        say_all!(out; ": never, since --window is below --credit");
    }
}

/// Puts last what the client may still send.
fn say_request<A: Allocator>(request: &RequestWait, config: &Config, out: &mut TextBuilder<A>) {
    let window = request.window.min(request.connection_window);
    if window > 0 {
        say_all!(out; "the client has not ended it, and may send ", window, " more");
    } else {
        say_all!(out; "the client may send no more: its window is ", window);
    }
    say_owed(request, config, out);
    if let Some(missing) = request.missing {
        let verb = if missing == 1 { " is" } else { " are" };
        say_all!(out; "; ", OctetCount(missing), " of its content", verb, " missing");
    }
}

/// Puts last which WINDOW_UPDATE an answer waits for.
fn say_awaited<A: Allocator>(stream: u32, answer: &AnswerWait, out: &mut TextBuilder<A>) {
    match (answer.window <= 0, answer.connection_window <= 0) {
        (true, true) => say_all!(out;
            "the windows of the stream and of the connection are spent: ", answer.window, " and ",
            answer.connection_window, "; WINDOW_UPDATE on stream ", stream, " and on stream 0 has to come"),
        (true, false) => say_all!(out;
            "the window of the stream is spent: ", answer.window,
            "; WINDOW_UPDATE on stream ", stream, " has to come"),
        (false, _) => say_all!(out;
            "the window of the connection is spent: ", answer.connection_window,
            "; WINDOW_UPDATE on stream 0 has to come"),
    }
}

/// Puts last what the server has still to send.
fn say_answer<A: Allocator>(stream: u32, answer: &AnswerWait, out: &mut TextBuilder<A>) {
    let verb = if answer.remaining == 1 {
        " waits"
    } else {
        " wait"
    };
    say_all!(out; OctetCount(answer.remaining), " of the answer", verb, ": ");
    say_awaited(stream, answer, out);
}

/// Puts last what a stream waits for.
pub fn say_wait<A: Allocator>(wait: &Wait, config: &Config, out: &mut TextBuilder<A>) {
    say_all!(out; "stream ", wait.stream, ": ");
    match (wait.request, wait.answer) {
        (Some(request), None) => say_request(&request, config, out),
        (None, Some(answer)) => say_answer(wait.stream, &answer, out),
        (Some(request), Some(answer)) => {
            say_request(&request, config, out);
            say_all!(out; "; ");
            say_answer(wait.stream, &answer, out);
        }
        (None, None) => say_all!(out; "nothing waits"),
    }
}
