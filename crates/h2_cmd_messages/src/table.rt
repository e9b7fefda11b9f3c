//! Which lines of `table` are refused, and why.

use crate::place::{Quoted, Reasons};
use h2_io::say::Say;
use h2_io::say_all;

/// How many lines that were refused have a sentence of their own.
const SAID: usize = 100;

/// What is said where `table` refuses lines: why, for the first 100, and how many more there are.
#[derive(Drop)]
pub struct TableReasons<'r, 's> {
    reasons: &'r mut Reasons<'s>,
    /// The number of the last line, from 1.
    line: usize,
    /// How many lines were refused.
    refused: usize,
}

impl<'r, 's> TableReasons<'r, 's> {
    /// No line yet.
    pub fn new(reasons: &'r mut Reasons<'s>) -> TableReasons<'r, 's> {
        TableReasons {
            reasons,
            line: 0,
            refused: 0,
        }
    }

    /// The next line begins.
    pub fn next(&mut self) {
        self.line = self.line.saturating_add(1);
    }

    /// Says why the line is refused: it is above this limit of the table, or no command.
    pub fn refuse(&mut self, line: &[u8], limit: Option<u32>) {
        self.refused = self.refused.saturating_add(1);
        if self.refused > SAID {
            return;
        }
        let source = self.reasons.source;
        let out = &mut self.reasons.out;
        say_all!(out; source, ", line ", self.line, ": ", Quoted(line));
        match limit {
            Some(limit) => say_all!(out; " is above the limit of the table, ", limit, ".\n"),
            None => say_all!(out; " is no command; one is add NAME VALUE or max N.\n"),
        }
    }

    /// Says how many more lines were refused.
    pub fn end(&mut self) {
        if self.refused > SAID {
            let source = self.reasons.source;
            let out = &mut self.reasons.out;
            say_all!(out; source, ": ", self.refused.saturating_sub(SAID), " more lines were refused.\n");
        }
    }
}
