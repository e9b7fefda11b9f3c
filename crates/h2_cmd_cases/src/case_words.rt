//! The words of the command line that a case has in its lines. Definitions: `specs/CaseWords.antt`.

ghost use Rattle.std.specs.Prelude.{◌≡◌, ◌≤◌, ◌⊎◌, [], Some, None, is_some, length, map, string_bytes, IfErr, IfOk, IfSome, OnOk};
ghost use Rattle.std.specs.List.{list_any};
ghost use Rattle.h2_cmd_cases.specs.CaseWords.{before_idle, before_words, have_idle, have_idle_word, have_words, is_idle, is_option, says_idle, says_words, with_case_words, with_said};
ghost use Rattle.h2_cmd_cases.specs.Lines.{line_said};
ghost use Rattle.h2_cmd_cases.specs.Shell.{with_words};
ghost use Rattle.h2_cmd_cases.specs.declared.shell.ShellFault.TheVariants.{NoMemory};

use crate::line::{Line, line_of};
use crate::shell::{ShellFault, add_words};
use h2_cmd_args::Words;
use std::alloc::{AllocError, Global};

/// Whether a line has words of the command line.
fn says_words(line: &[u8]) -> bool
    ensures { result ≡ says_words (line_said line.now) }
{
    match line_of(line) {
        Line::Words(_) => true,
        Line::Script(_)
        | Line::Title(_)
        | Line::Sent(_)
        | Line::Shown(_)
        | Line::Cause(_)
        | Line::Reason(_)
        | Line::Explained(_)
        | Line::Command(_)
        | Line::Unspaced(_) => false,
    }
}

/// Whether lines have words of the command line.
pub fn have_words(lines: &[&[u8]]) -> bool
    ensures { result ≡ have_words (map (λ l. l.now) lines.now) }
{
    lines.iter().any(|line| says_words(line))
}

/// How many lines there are before the first that has words of the command line; all of them where none has.
pub fn before_words(lines: &[&[u8]]) -> usize
    ensures value { result ≡ before_words (map (λ l. l.now) lines.now) }
    ensures within { result ≤ length lines.now }
{
    match lines.iter().position(|line| says_words(line)) {
        Some(place) => place,
        None => lines.len(),
    }
}

/// Whether a word is this option: alone, or before `=` and a value.
fn is_option(word: &str, name: &str) -> bool
    ensures { result ≡ is_option word.now name.now }
{
    match word.as_bytes().strip_prefix(name.as_bytes()) {
        Some(rest) => rest.is_empty() || rest[0] == b'=',
        None => false,
    }
}

/// Whether a word has no effect in a case.
fn is_idle(word: &str) -> bool
    ensures { result ≡ is_idle word.now }
{
    is_option(word, "--in")
        || is_option(word, "--raw")
        || is_option(word, "--prompt")
        || is_option(word, "--quiet")
}

/// Whether one of these words has no effect in a case.
fn have_idle_word(words: &[String]) -> bool
    ensures { result ≡ list_any is_idle (map string_bytes words.now) }
{
    words.iter().any(|word| is_idle(word.as_str()))
}

/// Whether words of a line have no effect in a case.
fn is_idle_text(alloc: Global, text: &[u8]) -> Result<bool, AllocError>
    ensures { IfOk result (λ idle. idle ≡ have_idle_word (with_words [] text.now)) }
{
    let mut words = Words::new(alloc);
    match add_words(alloc, text, &mut words) {
        Ok(()) => Ok(have_idle_word(words.as_slice())),
        Err(ShellFault::Open) => Ok(false),
        Err(ShellFault::NoMemory) => Err(AllocError),
    }
}

/// Whether a line has a word that has no effect in a case.
fn says_idle(alloc: Global, line: &[u8]) -> Result<bool, AllocError>
    ensures { IfOk result (λ idle. idle ≡ says_idle (line_said line.now)) }
{
    match line_of(line) {
        Line::Words(text) => is_idle_text(alloc, text),
        Line::Script(_)
        | Line::Title(_)
        | Line::Sent(_)
        | Line::Shown(_)
        | Line::Cause(_)
        | Line::Reason(_)
        | Line::Explained(_)
        | Line::Command(_)
        | Line::Unspaced(_) => Ok(false),
    }
}

/// How many lines there are before the first that has a word without effect in a case: `--in`, `--raw`, `--prompt` or
/// `--quiet`, if one has.
///
/// `AllocError` where memory is refused.
pub fn idle_place(alloc: Global, lines: &[&[u8]]) -> Result<Option<usize>, AllocError>
    ensures some { IfOk result (λ place. is_some place ≡ have_idle (map (λ l. l.now) lines.now)) }
    ensures first { IfOk result (λ place. IfSome place (λ n. n ≡ before_idle (map (λ l. l.now) lines.now))) }
{
    for (place, line) in lines.iter().enumerate() {
        if says_idle(alloc, line)? {
            return Ok(Some(place));
        }
    }
    Ok(None)
}

/// Puts the words of a line after others, where it has some.
fn add_line_words(alloc: Global, line: &[u8], words: &mut Words) -> Result<(), ShellFault>
    ensures ok { OnOk result (with_said words.old (line_said line.now) ≡ Some words.new) }
    ensures err { IfErr result (λ fault. (fault ≡ NoMemory) ⊎ (with_said words.old (line_said line.now) ≡ None)) }
{
    match line_of(line) {
        Line::Words(text) => add_words(alloc, text, words),
        Line::Script(_)
        | Line::Title(_)
        | Line::Sent(_)
        | Line::Shown(_)
        | Line::Cause(_)
        | Line::Reason(_)
        | Line::Explained(_)
        | Line::Command(_)
        | Line::Unspaced(_) => Ok(()),
    }
}

/// Puts the words of the command line that lines have after others.
///
/// # Errors
///
/// `Open` where a line's words are refused (`add_words`); `NoMemory` may come before. Some words may have been added.
pub fn add_case_words(alloc: Global, lines: &[&[u8]], words: &mut Words) -> Result<(), ShellFault>
    ensures ok { OnOk result (with_case_words words.old (map (λ l. l.now) lines.now) ≡ Some words.new) }
    ensures err { IfErr result (λ fault. (fault ≡ NoMemory)
        ⊎ (with_case_words words.old (map (λ l. l.now) lines.now) ≡ None)) }
{
    for line in lines {
        add_line_words(alloc, line, words)?;
    }
    Ok(())
}
