//! The file that is to have the results of cases. Definition: `specs/Results.antt`.

ghost use Rattle.std.specs.Prelude.{◌≡◌, OnErr, OnOk, false, true};
ghost use Rattle.h2_cmd_book_file.specs.Files.{Replaces};
ghost use Rattle.h2_cmd_batch.specs.Results.{ChangesAlone};

use crate::books::write_reason;
use crate::fault::BenchFault;
use h2_cmd_book_file::{Files, FilesFault};
use h2_cmd_messages::{Cut, Say, TextBuilder};
use h2_io::Output;
use std::alloc::{AllocError, Global};

/// That a file was not written, in words.
fn not_written(alloc: Global, file: &str) -> Result<String, AllocError> {
    let mut out = TextBuilder::new(alloc);
    let file = Cut(file.as_bytes());
    file.say(&mut out);
    ": the results can't be written there: its directory is read-only or not there, it is no plain file, the disk is full, or ".say(
        &mut out,
    );
    file.say(&mut out);
    ".blessed is there already.\n".say(&mut out);
    out.finish()
}

/// Writes results instead of what is in a file. Where they can't be written and `why` asks for that, `errors` gets a sentence.
///
/// # Errors
///
/// `Write`: the file can't be written; `NoMemory`: memory was refused. The file is as it was then.
pub fn write_results<F: Files, E: Output>(
    alloc: Global,
    file: &str,
    results: &[u8],
    why: bool,
    files: &mut F,
    errors: &mut E,
) -> Result<(), BenchFault>
    ensures replaces { F.is_printed files.old ≡ true → OnOk result (Replaces (F.file files.old) file.now results.now (F.file files.new)) }
    ensures kept { OnErr result (F.file files.new ≡ F.file files.old) }
    ensures alone { F.is_printed files.old ≡ true → ChangesAlone file.now (F.file files.old) (F.file files.new) }
    ensures quiet { why ≡ false → errors.new ≡ errors.old }
    ensures name { E.name errors.new ≡ E.name errors.old }
{
    match files.replace(alloc, file, results) {
        Ok(()) => Ok(()),
        Err(FilesFault::NoMemory) => Err(BenchFault::NoMemory),
        Err(FilesFault::Failed | FilesFault::TooLong) => {
            write_reason(errors, why, not_written(alloc, file));
            Err(BenchFault::Write)
        }
    }
}
