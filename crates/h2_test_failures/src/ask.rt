//! What is asked of a debugger, as a word says it: `step=3`, `run`.

use h2_debug::{DebugFault, Debugger};
use std::alloc::Allocator;

/// The name of a word, and its number; 0 where it has none.
fn parts_of(word: &str) -> (&str, u32) {
    match word.split_once("=") {
        Some((name, number)) => (name, number.parse().unwrap_or(0)),
        None => (word, 0),
    }
}

// These have no clause, so that no proof above them carries the state of each call.

/// Does what a word asks: the position after it, or the fault. A word that means nothing asks for nothing.
pub fn asked<A: Allocator + Copy>(
    debugger: &mut Debugger<'_, A>,
    word: &str,
) -> Result<usize, DebugFault> {
    let (name, number) = parts_of(word);
    match name {
        "step" => debugger.step(number as usize),
        "back" => debugger.back(number as usize),
        "go" => debugger.go(number as usize),
        "run" => debugger.run(),
        _ => {
            set(debugger, name, number)?;
            Ok(debugger.pos())
        }
    }
}

/// A frame type as an octet; 0 where it is above 255.
fn octet(number: u32) -> u8 {
    u8::try_from(number).unwrap_or(0)
}

/// Sets a breakpoint, or clears all.
fn set<A: Allocator + Copy>(
    debugger: &mut Debugger<'_, A>,
    name: &str,
    number: u32,
) -> Result<(), DebugFault> {
    match name {
        "at" => debugger.break_at(number as usize),
        "type" => debugger.break_type(octet(number)),
        "stream" => debugger.break_stream(number),
        "sent" => debugger.break_sent(octet(number)),
        _ => {
            debugger.clear();
            Ok(())
        }
    }
}
