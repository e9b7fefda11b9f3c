//! The words of a call, a line for each. Definitions: `specs/Embed.antt`.

ghost use Rattle.std.specs.Prelude.{◌≡◌, ◌⊎◌, Some, None, map, IfOk, IfErr, OnOk};
ghost use Rattle.h2_cmd_cases.specs.Shell.{with_word};
ghost use Rattle.h2_embed.specs.Embed.{words_from, words_said};
ghost use Rattle.h2_embed.specs.declared.words.WordsFault.TheVariants.{NoMemory};

use h2_cmd_args::Words;
use h2_cmd_cases::lines_in;
use std::alloc::Global;
use std::str;

/// Why a text says no words.
#[derive(Clone, Copy)]
pub enum WordsFault {
    /// Memory was refused.
    NoMemory,
    /// A line is not UTF-8.
    NoText,
}

/// Puts a line last among the words.
fn add_line(words: &mut Words, line: &[u8]) -> Result<(), WordsFault>
    ensures ok { OnOk result (with_word words.old line.now ≡ Some words.new) }
    ensures err { IfErr result (λ fault. (fault ≡ NoMemory) ⊎ (with_word words.old line.now ≡ None)) }
{
    match str::from_utf8(line) {
        Ok(word) => match words.add(word) {
            Ok(()) => Ok(()),
            Err(_) => Err(WordsFault::NoMemory),
        },
        Err(_) => Err(WordsFault::NoText),
    }
}

/// Puts lines last among the words, from the first on; the first that is no text decides.
fn add_lines(words: &mut Words, lines: &[&[u8]]) -> Result<(), WordsFault>
    ensures ok { OnOk result (words_from words.old (map (λ l. l.now) lines.now) ≡ Some words.new) }
    ensures err { IfErr result (λ fault. (fault ≡ NoMemory) ⊎ (words_from words.old (map (λ l. l.now) lines.now) ≡ None)) }
{
    for line in lines {
        add_line(words, line)?;
    }
    Ok(())
}

/// The words that a text says.
pub(crate) fn words_in(alloc: Global, text: &[u8]) -> Result<Words, WordsFault>
    ensures ok { IfOk result (λ words. words_said text.now ≡ Some words) }
    ensures err { IfErr result (λ fault. (fault ≡ NoMemory) ⊎ (words_said text.now ≡ None)) }
{
    let mut words = Words::new(alloc);
    let Ok(lines) = lines_in(alloc, text) else {
        return Err(WordsFault::NoMemory);
    };
    add_lines(&mut words, lines.as_slice())?;
    Ok(words)
}
