//! A command that reads its whole input, from what the words ask for to its output and the exit status. Definitions:
//! `specs/Printed.antt`, `specs/CommandEnd.antt`.

ghost use Rattle.std.specs.Prelude.{◌≡◌, ◌==◌, ◌<◌, ◌⊎◌, ◌++◌, ℕ, List, Some, Ok, Err, false, true, is_err, IfOk, IfErr, OnOk};
ghost use Rattle.h2_cmd_args.specs.Plans.{batch_asked};
ghost use Rattle.h2_cmd_batch.specs.Reports.{seen};
ghost use Rattle.h2_cmd_batch.specs.Books.{book_in};
ghost use Rattle.h2_cmd_batch.specs.Each.{not_written, printed_after};
ghost use Rattle.h2_cmd_batch.specs.CommandEnd.{AnswersBook, EndsBatch, KnowsFile, Prints, PrintsSome, asks_why_batch, file_of};
ghost use Rattle.h2_cmd_batch.specs.Faults.{fault_number};
ghost use Rattle.h2_cmd_batch.specs.Input.{octets_of};
ghost use Rattle.h2_cmd_batch.specs.TableProgram.{table_parts, table_text};
ghost use Rattle.h2_cmd_batch.specs.Printed.{OrCutShort, done, failed, failed_as, places, places_play, printed, printed_play};
ghost use Rattle.h2_cmd_batch.specs.declared.fault.BenchFault.TheVariants.{NoMemory};

use crate::advice::advise_batch;
use crate::books::{book_for_words, write_reason};
use crate::commands::asm::asm_report;
use crate::commands::dis::dis_text;
use crate::commands::each::{PrintFault, write_text};
use crate::commands::play::write_play;
use crate::commands::table::write_table;
use crate::fault::{BenchFault, FaultText};
use crate::input::read_all;
use crate::report::{Report, whole};
use h2_cmd_args::command::{Batch, InputWords, Play};
use h2_cmd_book_file::Files;
use h2_cmd_messages::{Reasons, say_no_memory};
use h2_io::{Input, Output, Text};
use h2_request_book::book::Book;
use std::alloc::Global;

/// The book of a command; a sentence is written to `errors` where an entry is refused and the reason was asked for.
fn book_for<F: Files, E: Output>(
    alloc: Global,
    batch: &Batch<'_>,
    files: &mut F,
    errors: &mut E,
) -> Result<Book<Global>, BenchFault>
    ensures ok { KnowsFile (file_of (batch_asked batch.now)) (F.is_printed files.old)
        → IfOk result (λ book. book_in (F.file files.old) (batch_asked batch.now) ≡ Ok book) }
    ensures err { KnowsFile (file_of (batch_asked batch.now)) (F.is_printed files.old)
        → IfErr result (λ fault. (fault ≡ NoMemory)
        ⊎ (book_in (F.file files.old) (batch_asked batch.now) ≡ Err (fault_number fault))) }
    ensures calm { OnOk result (errors.new ≡ errors.old) }
    ensures quiet { asks_why_batch (batch_asked batch.now) ≡ false → errors.new ≡ errors.old }
    ensures name { E.name errors.new ≡ E.name errors.old }
    ensures same_files { F.file files.new ≡ F.file files.old }
{
    match batch {
        Batch::Play(play) => book_for_words(alloc, &play.book, files, errors),
        Batch::Asm(_) | Batch::Dis(_, _) | Batch::Table(_, _) => Ok(Book::new(alloc)),
    }
}

/// Writes a text, and gives its status, or 3 where that failed.
pub fn print<O: Output, T: Text>(output: &mut O, text: &T, status: u8) -> u8
    requires writer { O.has_failed output.old ≡ false }
    requires status { status < 3 }
    ensures printed { O.has_failed output.new ≡ false → (held : List ℕ) → O.written output.old ≡ Some held
        → Prints (record { text = T.text text.now; status = status }) held (O.written output.new) result }
    ensures status { 0 < status → 0 < result }
    ensures flag { O.has_failed output.new ≡ (result == 3) }
    ensures name { O.name output.new ≡ O.name output.old }
{
    match write_text(output, text) {
        Ok(()) => status,
        Err(_) => 3,
    }
}

/// Writes the line of a fault, and gives status 1, or 3 where that failed.
pub fn print_fault<O: Output>(output: &mut O, fault: BenchFault) -> u8
    requires { O.has_failed output.old ≡ false }
    ensures printed { O.has_failed output.new ≡ false → (held : List ℕ) → O.written output.old ≡ Some held
        → Prints (failed fault) held (O.written output.new) result }
    ensures status { 0 < result }
    ensures flag { O.has_failed output.new ≡ (result == 3) }
    ensures name { O.name output.new ≡ O.name output.old }
{
    print(output, &fault.line(), 1)
}

/// Writes what reports a fault, its line or its object of JSON, and gives status 1, or 3 where that failed.
pub fn print_fault_as<O: Output>(output: &mut O, json: bool, fault: BenchFault) -> u8
    requires { O.has_failed output.old ≡ false }
    ensures printed { O.has_failed output.new ≡ false → (held : List ℕ) → O.written output.old ≡ Some held
        → Prints (failed_as json fault) held (O.written output.new) result }
    ensures status { 0 < result }
    ensures flag { O.has_failed output.new ≡ (result == 3) }
    ensures name { O.name output.new ≡ O.name output.old }
{
    print(output, &FaultText { json, fault }, 1)
}

/// Puts what a fault means that has no reason yet: memory was refused.
pub fn say_memory(fault: BenchFault, reasons: &mut Reasons<'_>) {
    if let BenchFault::NoMemory = fault {
        say_no_memory(&mut reasons.out);
    }
}

/// The same, where a fault ended what is printed.
pub fn say_end<T>(ended: &Result<T, PrintFault>, reasons: &mut Reasons<'_>) {
    if let Err(PrintFault::Fault(fault)) = ended {
        say_memory(*fault, reasons);
    }
}

/// Writes an answer: the text of a report with its status, or the line of a fault with status 1.
fn print_report<O: Output>(
    output: &mut O,
    answer: Result<Report, BenchFault>,
    reasons: &mut Reasons<'_>,
) -> u8
    requires { O.has_failed output.old ≡ false }
    ensures printed { O.has_failed output.new ≡ false → (held : List ℕ) → O.written output.old ≡ Some held
        → Prints (seen answer) held (O.written output.new) result }
    ensures flag { O.has_failed output.new ≡ (result == 3) }
    ensures name { O.name output.new ≡ O.name output.old }
{
    match answer {
        Ok(report) => print(output, &report, report.status()),
        Err(why) => {
            say_memory(why, reasons);
            print_fault(output, why)
        }
    }
}

/// Writes what remains to say of places that were written: the line of a fault that ended them. Gives the status.
pub fn print_end<O: Output>(output: &mut O, ended: Result<(), PrintFault>) -> u8
    requires { O.has_failed output.old ≡ not_written ended }
    ensures printed { O.has_failed output.new ≡ false → (held text : List ℕ) → O.written output.old ≡ Some (held ++ text)
        → Prints (printed_after text ended) held (O.written output.new) result }
    ensures kept { O.has_failed output.new ≡ false → O.has_failed output.old ≡ false }
    ensures status { is_err ended ≡ true → 0 < result }
    ensures flag { O.has_failed output.new ≡ (result == 3) }
    ensures name { O.name output.new ≡ O.name output.old }
{
    match ended {
        Ok(()) => 0,
        Err(why) => match why {
            PrintFault::Fault(fault) => print_fault(output, fault),
            PrintFault::NotWritten => 3,
        },
    }
}

/// Plays a connection over a whole input, and reports it.
fn print_played<O: Output>(
    alloc: Global,
    play: &Play<'_>,
    book: &Book<Global>,
    input: Vec<u8>,
    output: &mut O,
    reasons: &mut Reasons<'_>,
) -> u8
    requires { O.has_failed output.old ≡ false }
    ensures printed { O.has_failed output.new ≡ false → let given = octets_of play.now.raw input.items in
        PrintsSome (OrCutShort (places_play play.now.each book.now play.now.config given) (printed_play play.now.each book.now play.now.config given))
        (O.written output.old) (O.written output.new) result }
    ensures flag { O.has_failed output.new ≡ (result == 3) }
    ensures name { O.name output.new ≡ O.name output.old }
{
    let ended = write_play(alloc, play, book, input, output, reasons);
    say_end(&ended, reasons);
    print_end(output, ended)
}

/// Does what the lines of a whole input ask of a dynamic table, and reports it.
fn print_table<O: Output>(
    alloc: Global,
    limit: u32,
    input: Vec<u8>,
    output: &mut O,
    reasons: &mut Reasons<'_>,
) -> u8
    requires { O.has_failed output.old ≡ false }
    ensures printed { O.has_failed output.new ≡ false
        → PrintsSome (OrCutShort (table_parts limit input.items) (done (table_text limit input.items)))
        (O.written output.old) (O.written output.new) result }
    ensures flag { O.has_failed output.new ≡ (result == 3) }
    ensures name { O.name output.new ≡ O.name output.old }
{
    let ended = write_table(alloc, limit, input.as_slice(), output, reasons);
    say_end(&ended, reasons);
    print_end(output, ended)
}

/// Does a command over a whole input, with its book. The input is given back once it is read.
fn print_input<O: Output>(
    alloc: Global,
    batch: &Batch<'_>,
    book: &Book<Global>,
    input: Vec<u8>,
    output: &mut O,
    reasons: &mut Reasons<'_>,
) -> u8
    requires { O.has_failed output.old ≡ false }
    ensures printed { O.has_failed output.new ≡ false
        → PrintsSome (OrCutShort (places book.now (batch_asked batch.now) input.items) (printed book.now
        (batch_asked batch.now) input.items))
        (O.written output.old) (O.written output.new) result }
    ensures flag { O.has_failed output.new ≡ (result == 3) }
    ensures name { O.name output.new ≡ O.name output.old }
{
    match batch {
        Batch::Play(play) => print_played(alloc, play, book, input, output, reasons),
        Batch::Asm(_) => {
            let report = asm_report(alloc, input.as_slice(), reasons);
            print_report(output, report, reasons)
        }
        Batch::Dis(raw, _) => {
            let report = whole(dis_text(alloc, *raw, input, reasons));
            print_report(output, report, reasons)
        }
        Batch::Table(limit, _) => print_table(alloc, *limit, input, output, reasons),
    }
}

/// Reads the input of a command, and does it with its book.
fn answer<I: Input, O: Output>(
    alloc: Global,
    batch: &Batch<'_>,
    book: &Book<Global>,
    input: &mut I,
    output: &mut O,
    reasons: &mut Reasons<'_>,
) -> u8
    requires reader { I.has_failed input.old ≡ false }
    requires writer { O.has_failed output.old ≡ false }
    ensures printed { O.has_failed output.new ≡ false
        → PrintsSome (AnswersBook book.now (batch_asked batch.now) (I.remaining input.old) (I.has_failed input.new))
        (O.written output.old) (O.written output.new) result }
    ensures flag { O.has_failed output.new ≡ (result == 3) }
    ensures input { I.name input.new ≡ I.name input.old }
    ensures name { O.name output.new ≡ O.name output.old }
{
    match read_all(alloc, input, reasons) {
        Ok(octets) => print_input(alloc, batch, book, octets, output, reasons),
        Err(fault) => {
            say_memory(fault, reasons);
            print_fault(output, fault)
        }
    }
}

/// What the words of a command say of reasons.
fn words_of<'b>(batch: &'b Batch<'_>) -> InputWords<'b>
    ensures { result.why ≡ asks_why_batch (batch_asked batch.now) }
{
    match batch {
        Batch::Play(play) => InputWords {
            why: play.book.why,
            input: play.input,
        },
        Batch::Asm(words) | Batch::Dis(_, words) | Batch::Table(_, words) => *words,
    }
}

/// Reads the input of a command, and does it. Why the book or the input is refused is written to `errors`, and what is strange
/// about an input that is taken, where the words do not ask for quiet; but not why a read failed.
pub fn respond<F: Files, I: Input, O: Output, E: Output>(
    alloc: Global,
    batch: &Batch<'_>,
    files: &mut F,
    input: &mut I,
    output: &mut O,
    errors: &mut E,
) -> u8
    requires reader { I.has_failed input.old ≡ false }
    requires writer { O.has_failed output.old ≡ false }
    ensures printed { KnowsFile (file_of (batch_asked batch.now)) (F.is_printed files.old) → O.has_failed output.new ≡ false
        → EndsBatch (F.file files.old) (batch_asked batch.now) (I.remaining input.old) (I.has_failed input.new)
        (O.written output.old) (O.written output.new) result }
    ensures flag { O.has_failed output.new ≡ (result == 3) }
    ensures input { I.name input.new ≡ I.name input.old }
    ensures name { O.name output.new ≡ O.name output.old }
    ensures quiet { asks_why_batch (batch_asked batch.now) ≡ false → errors.new ≡ errors.old }
    ensures errors { E.name errors.new ≡ E.name errors.old }
    ensures same_files { F.file files.new ≡ F.file files.old }
{
    let book = match book_for(alloc, batch, files, errors) {
        Ok(book) => book,
        Err(fault) => return print_fault(output, fault),
    };
    advise_batch(alloc, batch, errors);
    let words = words_of(batch);
    let mut reasons = Reasons::new(alloc, words.input);
    let status = answer(alloc, batch, &book, input, output, &mut reasons);
    write_reason(errors, words.why, reasons.out.finish());
    status
}
