//! The files of cases: what a line of one says, which lines a case has, and the words of the command line that it says.
//! Definitions: `specs/Lines.antt`, `specs/Frames.antt`, `specs/Files.antt`, `specs/CaseWords.antt`.
#![tactic(auto)]

mod case_words;
mod cases;
mod frames;
mod line;
mod shell;

pub use case_words::{add_case_words, before_words, have_words, idle_place};
pub use cases::{case_length, expect_something, lines_in, preamble_length, title_of};
pub use frames::{push_short_line, push_told, summed};
pub use line::{Line, line_of};
pub use shell::ShellFault;
