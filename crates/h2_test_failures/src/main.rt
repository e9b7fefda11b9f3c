//! Trials of what neither computed rows nor runs of the program show: devices that fail, wires with a script, memory
//! that is refused, and bounds of memory. A line of the input is a trial, and its answer is printed below it; a line
//! that begins with `;` says what the trials after it show. The words of a line: `line`; what they do: `trials`.
#![tactic(auto)]

mod ask;
mod bounds;
mod commands;
mod conns;
mod countdown;
mod debuggers;
mod devices;
mod drives;
mod feeds;
mod heap;
mod line;
mod openings;
mod programs;
mod refusing;
mod scripted;
mod scripts;
mod sessions;
mod shown;
mod trials;

use std::io;

fn main(rt: HostRuntime) -> io::Result<()> {
    let text = io::read_to_string(rt.alloc(), rt.stdin())?;
    print_all(&rt, text.as_str())
}

/// Prints each line of the input, and below it what its trial found.
fn print_all(rt: &HostRuntime, text: &str) -> io::Result<()> {
    for line in text.lines() {
        rt.println(line)?;
        rt.print(trials::answered(rt.alloc(), line)?)?;
    }
    Ok(())
}
