//! The words of a command line, and what they ask for. A command of the crate `clap` defines which words are taken.
#![tactic(auto)]

pub mod command;
mod legend;
mod usages;
mod words;

pub use words::Words;
