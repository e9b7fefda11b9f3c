//! The words of a line, by a shell's rules of blanks and quotes. Definition: `specs/Shell.antt`.

ghost use Rattle.std.specs.Prelude.{◌≡◌, ◌⊎◌, ◌++◌, ◌∷◌, [], Some, None, IfOk, IfErr, OnOk};
ghost use Rattle.h2_cmd_cases.specs.Shell.{Reading, behind_octet, gained, is_between, is_part, keeps_backslash, next_place, outside, with_word, with_words, words_ended};
ghost use Rattle.h2_cmd_cases.specs.declared.shell.ShellFault.TheVariants.{NoMemory};

use h2_cmd_args::Words;
use std::alloc::{AllocError, Global};
use std::str;

/// Why a line has no words.
#[derive(Clone, Copy)]
pub enum ShellFault {
    /// Memory was refused.
    NoMemory,
    /// A quote is not closed, nothing follows a backslash, or a word is not UTF-8.
    Open,
}

/// Where in a word an octet is.
#[derive(Clone, Copy)]
pub(crate) enum WordPlace {
    /// Between two words.
    Between,
    /// In a word, outside quotes.
    Plain,
    /// After a backslash, outside quotes.
    Escaped,
    /// Between single quotes.
    Single,
    /// Between double quotes.
    Double,
    /// After a backslash between double quotes.
    DoubleEscaped,
}

/// Where the next octet is, after this one outside quotes; a blank ends a word.
fn outside(octet: u8) -> WordPlace
    ensures { result ≡ outside octet }
{
    if octet == b' ' || octet == b'\t' {
        WordPlace::Between
    } else if octet == b'\\' {
        WordPlace::Escaped
    } else if octet == b'\'' {
        WordPlace::Single
    } else if octet == b'"' {
        WordPlace::Double
    } else {
        WordPlace::Plain
    }
}

/// Where the next octet is, after this one between double quotes.
fn between_doubles(octet: u8) -> WordPlace
    ensures { result ≡ next_place WordPlace.Double octet }
{
    if octet == b'\\' {
        WordPlace::DoubleEscaped
    } else if octet == b'"' {
        WordPlace::Plain
    } else {
        WordPlace::Double
    }
}

/// Where the next octet is, after this one.
fn next_place(place: WordPlace, octet: u8) -> WordPlace
    ensures { result ≡ next_place place octet }
{
    match place {
        WordPlace::Between | WordPlace::Plain => outside(octet),
        WordPlace::Escaped => WordPlace::Plain,
        WordPlace::Single => {
            if octet == b'\'' {
                WordPlace::Plain
            } else {
                WordPlace::Single
            }
        }
        WordPlace::Double => between_doubles(octet),
        WordPlace::DoubleEscaped => WordPlace::Double,
    }
}

/// Whether an octet is part of the word.
fn is_part(place: WordPlace, octet: u8) -> bool
    ensures { result ≡ is_part place octet }
{
    match place {
        WordPlace::Between | WordPlace::Plain => {
            !(octet == b' ' || octet == b'\t' || octet == b'\\' || octet == b'\'' || octet == b'"')
        }
        WordPlace::Escaped | WordPlace::DoubleEscaped => true,
        WordPlace::Single => octet != b'\'',
        WordPlace::Double => !(octet == b'\\' || octet == b'"'),
    }
}

/// Whether the backslash before an octet is part of the word: between double quotes, before any but these.
fn keeps_backslash(place: WordPlace, octet: u8) -> bool
    ensures { result ≡ keeps_backslash place octet }
{
    match place {
        WordPlace::DoubleEscaped => {
            !(octet == b'\\' || octet == b'"' || octet == b'$' || octet == b'`')
        }
        WordPlace::Between
        | WordPlace::Plain
        | WordPlace::Escaped
        | WordPlace::Single
        | WordPlace::Double => false,
    }
}

/// Whether a place is between two words.
fn is_between(place: WordPlace) -> bool
    ensures { result ≡ is_between place }
{
    match place {
        WordPlace::Between => true,
        WordPlace::Plain
        | WordPlace::Escaped
        | WordPlace::Single
        | WordPlace::Double
        | WordPlace::DoubleEscaped => false,
    }
}

/// Appends what an octet adds to a word.
fn add_octet(word: &mut Vec<u8>, place: WordPlace, octet: u8) -> Result<(), AllocError>
    ensures { OnOk result (word.new.items ≡ word.old.items ++ gained place octet) }
{
    if keeps_backslash(place, octet) {
        word.push(b'\\')?;
    }
    if is_part(place, octet) {
        word.push(octet)?;
    }
    Ok(())
}

/// Puts a word after others.
fn add_word(words: &mut Words, word: &[u8]) -> Result<(), ShellFault>
    ensures ok { OnOk result (with_word words.old word.now ≡ Some words.new) }
    ensures err { IfErr result (λ fault. (fault ≡ NoMemory) ⊎ (with_word words.old word.now ≡ None)) }
{
    match str::from_utf8(word) {
        Ok(text) => match words.add(text) {
            Ok(()) => Ok(()),
            Err(_) => Err(ShellFault::NoMemory),
        },
        Err(_) => Err(ShellFault::Open),
    }
}

/// Takes an octet of a line at a place: it is added to the word, or ends it. Gives the place of the next.
fn take_octet(
    words: &mut Words,
    word: &mut Vec<u8>,
    place: WordPlace,
    octet: u8,
) -> Result<WordPlace, ShellFault>
    ensures ok { IfOk result (λ next. behind_octet (record { place = place; word = word.old.items; words = words.old }) octet
        ≡ Some (record { place = next; word = word.new.items; words = words.new })) }
    ensures err { IfErr result (λ fault. (fault ≡ NoMemory)
        ⊎ (behind_octet (record { place = place; word = word.old.items; words = words.old }) octet ≡ None)) }
{
    let next = next_place(place, octet);
    if !is_between(place) && is_between(next) {
        add_word(words, word.as_slice())?;
        word.clear();
        return Ok(next);
    }
    match add_octet(word, place, octet) {
        Ok(()) => Ok(next),
        Err(_) => Err(ShellFault::NoMemory),
    }
}

/// Puts the last word of a line after the others, where the line ends in one.
fn add_last(words: &mut Words, place: WordPlace, word: &[u8]) -> Result<(), ShellFault>
    ensures ok { OnOk result (words_ended place word.now words.old ≡ Some words.new) }
    ensures err { IfErr result (λ fault. (fault ≡ NoMemory) ⊎ (words_ended place word.now words.old ≡ None)) }
{
    match place {
        WordPlace::Between => Ok(()),
        WordPlace::Plain => add_word(words, word),
        WordPlace::Escaped | WordPlace::Single | WordPlace::Double | WordPlace::DoubleEscaped => {
            Err(ShellFault::Open)
        }
    }
}

/// Puts the words of a line after others.
///
/// Blanks and tabs separate words. Between single quotes each octet is itself. Between double quotes a backslash before
/// `\`, `"`, `$` or a backquote is dropped; outside quotes it makes the next octet itself.
///
/// # Errors
///
/// `Open` where a quote is not closed, nothing follows a backslash, or a word is not UTF-8; `NoMemory` may come before.
/// The words may have gained some words of the line then.
pub fn add_words(alloc: Global, line: &[u8], words: &mut Words) -> Result<(), ShellFault>
    ensures ok { OnOk result (with_words words.old line.now ≡ Some words.new) }
    ensures err { IfErr result (λ fault. (fault ≡ NoMemory) ⊎ (with_words words.old line.now ≡ None)) }
{
    let mut place = WordPlace::Between;
    let mut word = Vec::new(alloc);
    for octet in line {
        place = take_octet(words, &mut word, place, *octet)?;
    }
    add_last(words, place, word.as_slice())
}
