//! The sentence that says why something was refused, as the program says it on standard error.

use h2_cmd_args::Words;
use h2_cmd_args::command::{Plan, parse};
use h2_cmd_messages::TextBuilder;
use h2_cmd_run::Ran;
use h2_host::{SessionEnd, say_refused_words};
use h2_spec::connection::Config;
use std::alloc::{AllocError, Global};

/// The limits of the session that is asked for, if one is.
fn config_of(plan: &Plan<'_>) -> Option<Config> {
    match plan {
        Plan::Debug(debug) => Some(debug.config),
        _ => None,
    }
}

/// Puts what there is to say about a session that ended with this status, or about words that were refused.
fn say(alloc: Global, words: &Words, input: &[u8], status: u8, out: &mut TextBuilder) {
    match parse(alloc, words) {
        Ok(plan) => {
            if let Some(config) = config_of(&plan) {
                let session = SessionEnd {
                    status,
                    config,
                    seen: input,
                };
                session.say(out);
            }
        }
        Err(refusal) => say_refused_words(&refusal, words.as_slice(), out),
    }
}

/// The sentence about words that were refused, or about a session, where the command has not said one; empty where there is none.
pub(crate) fn second_look(
    alloc: Global,
    words: &Words,
    input: &[u8],
    ran: &Ran,
) -> Result<String, AllocError> {
    let mut out = TextBuilder::new(alloc);
    if ran.reason.is_empty() && (ran.status == 1 || ran.status == 2) {
        say(alloc, words, input, ran.status, &mut out);
    }
    out.finish()
}
