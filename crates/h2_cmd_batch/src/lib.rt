//! The commands that read their whole input before they answer: what is printed for it, and the exit status. Also what
//! a case is played with, which is a book of words too. They are a crate of their own, apart from `debug`, so that they
//! are proved without the debugger.
#![tactic(auto)]

mod advice;
mod answer;
mod batch;
mod books;
mod case_setup;
mod commands;
mod fault;
mod input;
mod report;
mod results;

pub use advice::advise;
pub use answer::parse_answer;
pub use batch::{print, print_end, print_fault, print_fault_as, respond, say_end, say_memory};
pub use books::{book_for_words, write_reason};
pub use case_setup::{Case, CaseSetup, Common, OwnFault, RefusedWords, own_of, words_line};
pub use commands::each::PrintFault;
pub use fault::BenchFault;
pub use input::{read_all, read_for};
pub use results::write_results;
