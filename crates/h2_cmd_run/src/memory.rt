//! A command over memory: words, files and an input as octets, and what is printed for them, whole. The program does
//! not call it, nor `run_on` and `run` of `execute`: h2_host calls `carry_out`, which all three do. Definitions:
//! `specs/Memory.antt`, over `specs/Printed.antt` of h2_cmd_batch.

ghost use Rattle.std.specs.Prelude.{◌≡◌, ◌⊎◌, ℕ, Bool, List, [], Some, None, true, false, IfOk};
ghost use Rattle.h2_spec.specs.declared.connection.Config.{Config};
ghost use Rattle.h2_cmd_book_file.specs.Files.{file_in};
ghost use Rattle.h2_cmd_args.specs.Grammar.{BatchAsked, BookAsked, FormAsked, asked_of, batch, check, debug, explain};
ghost use Rattle.h2_cmd_run.specs.CheckProgram.{IsCheck};
ghost use Rattle.h2_cmd_run.specs.ExplainProgram.{IsExplained, form_of};
ghost use Rattle.h2_cmd_run.specs.Memory.{IsDebugged, printed_in, unserved};
ghost use Rattle.h2_cmd_batch.specs.Printed.{OrCutShort, failed, places_within, printed_within};
ghost use Rattle.h2_cmd_run.specs.ProgramEnd.{IsRefusal, asks_why, is_serve};
ghost use Rattle.h2_cmd_batch.specs.declared.fault.BenchFault.TheVariants.{NoMemory};

use crate::execute::run_on;
use h2_cmd_args::Words;
use h2_cmd_book_file::FilesInMemory;
use h2_io::Gathered;
use std::alloc::{AllocError, Global};

/// What a command printed, and its exit status.
#[derive(Drop)]
pub struct Ran {
    /// The octets of the output.
    pub output: Vec<u8>,
    /// The sentence that says why an entry of the book was refused, where one was and the words do not ask for quiet.
    pub reason: Vec<u8>,
    /// The exit status: 0, 1, 2 or 4, as `carry_out` says.
    pub status: u8,
}

/// Does what the words ask for over memory, and gives what is printed for it, whole, and the exit status. Each file is a
/// path and its octets; where two have one path, the first is the file there. What the words say of devices
/// (`--in`, `--prompt`, `--raw` of `debug`) is for a program that has them: here the input is `input`.
///
/// No call of a device can fail here: the status is never 3, and `fault 22` is printed only where the input or a file is
/// too long, or a file is not there.
///
/// # Errors
///
/// `AllocError` where memory for the output was refused. Where it is refused for anything else, `fault 0` is printed.
pub fn run_in_memory(
    alloc: Global,
    words: &Words,
    files: &[(&str, &[u8])],
    input: &[u8],
) -> Result<Ran, AllocError>
    ensures printed { (asked : BatchAsked) → asked_of words.now ≡ Some (batch asked)
        → IfOk result (λ ran. OrCutShort (places_within (file_in files.now) asked input.now) (printed_within (file_in files.now) asked input.now) (printed_in ran)) }
    ensures debugs { (config : Config) → (book : BookAsked) → asked_of words.now ≡ Some (debug config book)
        → IfOk result (λ ran. IsDebugged (file_in files.now) config book input.now (printed_in ran)) }
    ensures explains { (config : Config) → (view : FormAsked) → (raw : Bool) → (file : List ℕ) → (book : BookAsked)
        → asked_of words.now ≡ Some (explain config view raw file book)
        → IfOk result (λ ran. IsExplained (form_of view) raw (file_in files.now) config file book (Some input.now) false (printed_in ran)) }
    ensures checks { (config : Config) → (book : BookAsked) → (in_place : Bool) → (names : List (List ℕ))
        → asked_of words.now ≡ Some (check config book false in_place [] names)
        → IfOk result (λ ran. IsCheck (file_in files.now) config book names (printed_in ran)) }
    ensures serves { is_serve (asked_of words.now) ≡ true
        → IfOk result (λ ran. (printed_in ran ≡ unserved) ⊎ (printed_in ran ≡ failed NoMemory)) }
    ensures refused { asked_of words.now ≡ None → IfOk result (λ ran. IsRefusal (printed_in ran)) }
    ensures written { IfOk result (λ ran. ran.status ≡ 3 → ⊥) }
    ensures quiet { asks_why (asked_of words.now) ≡ false → IfOk result (λ ran. ran.reason.items ≡ []) }
{
    let mut known = FilesInMemory { files };
    let mut rest = input;
    let mut output = Gathered::new(alloc);
    let mut reason = Gathered::new(alloc);
    let status = run_on(
        alloc,
        words,
        &mut known,
        &mut rest,
        &mut output,
        &mut reason,
    );
    if output.failed {
        return Err(AllocError);
    }
    Ok(Ran {
        output: output.octets,
        reason: reason.octets,
        status,
    })
}
