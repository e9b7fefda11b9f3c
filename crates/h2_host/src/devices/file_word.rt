//! A word that is a FILE: in front of the answers of `play` and `debug`, and of `asm`, `dis` and `table` one too many. Where
//! a file of that name is there, it is the input, as by `--in`; else the words are taken or refused as they are.

use h2_cmd_args::Words;
use std::alloc::{AllocError, Global};
use std::rt::Files;

/// How many words are in front of a FILE that are in their places; `None` where a command takes none, or takes it itself.
fn count_before(command: &str) -> Option<usize> {
    match command {
        "play" | "debug" | "asm" | "dis" => Some(0),
        "table" => Some(1),
        _ => None,
    }
}

/// Whether the word after this one is the option's value.
fn has_value(option: &str) -> bool {
    option.starts_with("--")
        && !option.contains('=')
        && !matches!(option, "--each" | "--why" | "--quiet" | "--raw")
}

/// The word that may be a FILE, and its place among the words.
pub(crate) fn file_word(words: &[String]) -> Option<(usize, &str)> {
    let mut before = count_before(words.get(1)?.as_str())?;
    let mut is_value = false;
    for (place, word) in words.iter().enumerate().skip(2) {
        let word = word.as_str();
        if word == "--" {
            return None;
        }
        if !is_value && !word.starts_with("--") {
            if before == 0 {
                let is_file = word != "" && word != "-" && !word.contains('|');
                return is_file.then_some((place, word));
            }
            before = before.saturating_sub(1);
        }
        is_value = !is_value && has_value(word);
    }
    None
}

/// The words with `--in=FILE` at a place.
fn with_in(alloc: Global, texts: &[String], file: usize) -> Result<Words, AllocError> {
    let mut all = Words::new(alloc);
    for (place, text) in texts.iter().enumerate() {
        if place == file {
            all.add(format!(in alloc; "--in={}", text.as_str())?.as_str())?;
        } else {
            all.add(text.as_str())?;
        }
    }
    Ok(all)
}

/// The words with a FILE as `--in`, where one of them is a FILE that is there.
pub(crate) fn with_file(rt: &HostRuntime, words: &Words) -> Result<Option<Words>, AllocError> {
    let texts = words.as_slice();
    match file_word(texts) {
        Some((place, file)) if rt.metadata(file).is_ok() => {
            Ok(Some(with_in(rt.alloc(), texts, place)?))
        }
        _ => Ok(None),
    }
}
