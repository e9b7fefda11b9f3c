//! What is said on standard error once a command has ended.

use crate::commands::Commands;
use crate::devices::input::Given;
use crate::refused_words::say_refused_words;
use h2_cmd_args::Words;
use h2_cmd_args::command::{Plan, Refusal, Serve};
use h2_cmd_messages::{
    InputSource, TextBuilder, say_limits, say_port, say_too_long, say_unread, say_unwritten,
};
use h2_io::MAX_INPUT;
use std::io::{ErrorKind, Write};

/// How a command ended.
#[derive(Clone, Copy)]
pub struct Ending {
    /// The exit status.
    pub status: u8,
    /// Whether a sentence says why already.
    pub is_said: bool,
    /// Why the port could not be listened on, where it could not.
    pub unbound: Option<ErrorKind>,
    /// Why the output was not written, where it was not.
    pub unwritten: Option<ErrorKind>,
}

impl Ending {
    /// This status, and whether a sentence says why already.
    pub fn of(status: u8, is_said: bool) -> Ending {
        Ending {
            status,
            is_said,
            unbound: None,
            unwritten: None,
        }
    }
}

/// Says why nothing was served.
fn say_served(serve: &Serve<'_>, ending: Ending, out: &mut TextBuilder) {
    if ending.status != 1 {
        return;
    }
    if ending.unbound.is_none() && !serve.config.is_allowed() {
        say_limits(serve.config, out);
    } else {
        say_port(serve.port, ending.unbound, out);
    }
}

/// Says what the command could not say: why a device failed, and what it does not know of one.
fn say_of_plan<C: Commands>(
    plan: &Plan<'_>,
    given: &Given<'_, '_, C>,
    ending: Ending,
    out: &mut TextBuilder,
) {
    if let Some(kind) = ending.unwritten {
        say_unwritten(kind, out);
        return;
    }
    if let Some(kind) = given.taken.failure() {
        say_unread(given.failed_source(), kind, out);
        return;
    }
    match plan {
        Plan::Debug(_) if given.taken.count() > MAX_INPUT => {
            say_too_long(InputSource::Input, MAX_INPUT, out);
        }
        _ if ending.is_said => {}
        Plan::Serve(serve) => say_served(serve, ending, out),
        Plan::Debug(debug) => given.say_session(ending.status, debug.config, out),
        _ => {}
    }
}

/// Says on standard error what is to be said about a command that ended: its reasons, where its output was written, and what
/// it could not say.
pub fn end<C: Commands>(
    rt: &HostRuntime,
    words: &Words,
    asked: &Result<Plan<'_>, Refusal>,
    given: &Given<'_, '_, C>,
    ending: Ending,
    reasons: &[u8],
) {
    if ending.unwritten.is_none() {
        let _ = rt.stderr().write_all(reasons);
    }
    let mut out = TextBuilder::new(rt.alloc());
    match asked {
        Ok(plan) => say_of_plan(plan, given, ending, &mut out),
        Err(refusal) => say_refused_words(refusal, words.as_slice(), &mut out),
    }
    if let Ok(text) = out.finish() {
        let _ = rt.stderr().write_all(text.as_bytes());
    }
}
