//! A command over memory. Definitions: `specs/Embed.antt`.

ghost use Rattle.std.specs.Prelude.{◌≡◌, ◌≤◌, length, take, drop, IfOk, IfErr};
ghost use Rattle.h2_cmd_run.specs.Memory.{printed_in};
ghost use Rattle.h2_embed.specs.Embed.{Gives, IsRefusedFor, IsSentence, RunsAs, RunsSaid, may_refuse, one_file, words_said};

use crate::fault::{RunEnd, RunFault, refused};
use crate::put::put_printed;
use crate::sentence::second_look;
use crate::words::{WordsFault, words_in};
use h2_cmd_args::Words;
use h2_cmd_run::{Ran, run_in_memory};
use std::alloc::{AllocError, Global};
use std::str;

/// What a command printed, and the sentence of a second look at its words.
#[derive(Drop)]
struct Said {
    ran: Ran,
    second_look: String,
}

/// Whether a status says that something may have been refused.
fn may_refuse(status: u8) -> bool
    ensures { result ≡ may_refuse status }
{
    status == 1 || status == 2
}

/// The sentence about a command: the one that it said itself, else that of the second look; none where nothing was refused.
fn sentence_in(said: &Said) -> &[u8]
    ensures { IsSentence said.now.ran.status result.now }
{
    if !may_refuse(said.ran.status) {
        return &[];
    }
    if said.ran.reason.is_empty() {
        said.second_look.as_bytes()
    } else {
        said.ran.reason.as_slice()
    }
}

/// Carries out the command of these words.
fn run_words(
    alloc: Global,
    words: &Words,
    name: &str,
    file: &[u8],
    input: &[u8],
) -> Result<Said, AllocError>
    ensures { IfOk result (λ said. RunsAs words.now (one_file name.now file.now) input.now (printed_in said.ran)) }
{
    let ran = run_in_memory(alloc, words, &[(name, file)], input)?;
    let sentence = second_look(alloc, words, input, &ran)?;
    Ok(Said {
        ran,
        second_look: sentence,
    })
}

/// Carries out the command of the words that a text says.
fn run_lines(
    alloc: Global,
    lines: &[u8],
    name: &[u8],
    file: &[u8],
    input: &[u8],
) -> Result<Said, RunFault>
    ensures ok { IfOk result (λ said. RunsSaid (words_said lines.now) (one_file name.now file.now) input.now (printed_in said.ran)) }
    ensures err { IfErr result (λ fault. IsRefusedFor lines.now name.now fault) }
{
    let Ok(path) = str::from_utf8(name) else {
        return Err(RunFault::NoText);
    };
    match words_in(alloc, lines) {
        Ok(words) => match run_words(alloc, &words, path, file, input) {
            Ok(said) => Ok(said),
            Err(_) => Err(RunFault::NoMemory),
        },
        Err(WordsFault::NoMemory) => Err(RunFault::NoMemory),
        Err(WordsFault::NoText) => Err(RunFault::NoText),
    }
}

/// Carries out a command, as the program does it: its words are the lines of `words`, the program's name first, `file` is the
/// one file that it can read, under the path `name`, and `input` is its input.
///
/// The front of `out` gains what it printed, and after that the sentence that says why something was refused, if one does.
/// The number of both octets is returned. `end` says how many each has, and the exit status. With a fault nothing is given:
/// 1 the memory did not suffice, 2 `out` has no space for both, 22 a word or the name is not UTF-8.
#[unsafe(no_mangle)]
pub extern "C" fn h2_bench_run(
    alloc: Global,
    words: &[u8],
    name: &[u8],
    file: &[u8],
    input: &[u8],
    out: &mut [u8],
    end: &mut RunEnd,
) -> usize
    ensures within { result ≤ length out.new }
    ensures given { Gives words.now name.now file.now input.now (length out.old) (take result out.new) end.new }
    ensures rest { drop result out.new ≡ drop result out.old }
{
    match run_lines(alloc, words, name, file, input) {
        Ok(said) => put_printed(&said.ran, sentence_in(&said), out, end),
        Err(fault) => {
            *end = refused(fault);
            0
        }
    }
}
