//! What is said where words are refused, beside what clap says.

use crate::devices::file_word::file_word;
use h2_cmd_args::command::Refusal;
use h2_cmd_messages::{TextBuilder, range_of, say_no_file, say_no_memory, say_range};

/// Whether a text spells a number in a range.
fn is_within(value: &str, least: u64, most: u64) -> bool {
    match value.parse::<u64>() {
        Ok(number) => least <= number && number <= most,
        Err(_) => false,
    }
}

/// Says that the number of an option is out of range, if it is.
fn say_option(option: &str, value: &str, out: &mut TextBuilder) {
    if let Some(range) = range_of(option)
        && !is_within(value, range.least, range.most)
    {
        say_range(range, value, out);
    }
}

/// Says of a command that was given a FILE that there is no such file.
fn say_file(words: &[String], out: &mut TextBuilder) {
    let Some(command) = words.get(1) else {
        return;
    };
    if let ("asm" | "dis" | "table", Some((_, word))) = (command.as_str(), file_word(words)) {
        say_no_file(command.as_str(), word, out);
    }
}

/// Says of words that were refused which numbers of options are out of range, and which word is a file.
pub fn say_refused_words(refusal: &Refusal, words: &[String], out: &mut TextBuilder) {
    if let Refusal::NoMemory = refusal {
        say_no_memory(out);
        return;
    }
    let mut before = "";
    for word in words {
        let word = word.as_str();
        match word.split_once('=') {
            Some((option, value)) => say_option(option, value, out),
            None => say_option(before, word, out),
        }
        before = word;
    }
    say_file(words, out);
}
