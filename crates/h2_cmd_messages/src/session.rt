//! Why a line of `debug` is refused.

use crate::hex::digit_count;
use crate::place::InputSource;
use crate::script::line_of;
use h2_io::say::{Say, TextBuilder};
use h2_io::{is_hex_text, say_all};

/// The numbers of faults, and what each says of a command; those that end a session are not among them, of which more is
/// known.
static REASONS: [(&str, &str); 5] = [
    ("0", "out of memory; the position is as it was"),
    ("19", "no item follows: this is the end of the octets"),
    ("20", "no item came before: this is the start"),
    ("21", "there are fewer items than that"),
    (
        "27",
        "no command; one is step N, back N, go P, run, break at P, break type T, break stream N, break sent T, clear, show, why",
    ),
];

/// What the number of a fault says of a command, if it is one of `REASONS`.
fn reason(number: &[u8]) -> Option<&'static str> {
    for (fault, reason) in &REASONS {
        if fault.as_bytes() == number {
            return Some(*reason);
        }
    }
    None
}

/// Says why a command was refused whose answer is `fault` and this number; `line` is the command's line of standard input,
/// from 1, where it is known.
pub fn say_session_fault(line: Option<usize>, number: &[u8], out: &mut TextBuilder) {
    let Some(reason) = reason(number) else {
        return;
    };
    match line {
        Some(line) => say_all!(out; InputSource::Input, ", line ", line, ": ", reason, ".\n"),
        None if number == b"27".as_slice() => {
            say_all!(out; "debug: ", reason, ", next, break error, breaks, table, explain, list, help, quit, exit.\n");
        }
        None => say_all!(out; "debug: ", reason, ".\n"),
    }
}

/// How many digits a line has at least that is taken for octets.
const DIGITS: usize = 8;

/// Says of the second line of an input that it looks like octets, if it does: only the first line has them.
pub fn say_more_octets(text: &[u8], out: &mut TextBuilder) {
    let line = line_of(text, 2);
    if digit_count(line) >= DIGITS && is_hex_text(line) {
        say_all!(out; InputSource::Input, ", line 2: it looks like more octets, and the first line alone has them; a file of --in FILE may have them on any number of lines.\n");
    }
}
