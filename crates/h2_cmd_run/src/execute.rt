//! What the words ask for, from an input to its output and the exit status. Definitions: `specs/ProgramEnd.antt`, over
//! `specs/ExplainProgram.antt`, `specs/CheckProgram.antt` and those of h2_cmd_batch.

ghost use Rattle.std.specs.Prelude.{◌≡◌, ◌==◌, ◌⊎◌, ℕ, Bool, List, [], Some, None, Ok, true, false, IfErr};
ghost use Rattle.h2_spec.specs.State.{is_allowed};
ghost use Rattle.h2_spec.specs.declared.connection.Config.{Config};
ghost use Rattle.h2_cmd_args.specs.Grammar.{BatchAsked, BookAsked, FormAsked, asked_of, batch, check, debug, explain};
ghost use Rattle.h2_cmd_args.specs.Plans.{asked_in, book_asked};
ghost use Rattle.h2_cmd_check.specs.Frames.{is_none};
ghost use Rattle.h2_cmd_run.specs.Blessing.{EndsBless, writes_files};
ghost use Rattle.h2_cmd_run.specs.CheckProgram.{EndsCheck};
ghost use Rattle.h2_cmd_batch.specs.CommandEnd.{EndsBatch, KnowsFile, PrintsSome, file_of, no_files};
ghost use Rattle.h2_cmd_batch.specs.Input.{octets_of};
ghost use Rattle.h2_cmd_run.specs.ExplainProgram.{EndsExplain, form_of};
ghost use Rattle.h2_cmd_run.specs.JUnitProgram.{EndsJUnit};
ghost use Rattle.h2_cmd_batch.specs.Results.{ChangesAlone};
ghost use Rattle.h2_cmd_run.specs.ProgramEnd.{EndsServe, EndsSession, EndsSessionAs, EndsSessionOver, EndsSomehow, IsSessionGiven, PrintsRefusal, asks_why, is_reader, is_serve, printed_for};

use crate::check::check_plan;
use crate::print::explain_plan;
use h2_cmd_args::Words;
use h2_cmd_args::command::{Debug, Plan, Refusal, parse};
use h2_cmd_batch::{
    BenchFault, book_for_words, print, print_fault, read_for, respond, write_reason,
};
use h2_cmd_book_file::{Files, FilesInMemory};
use h2_cmd_messages::Reasons;
use h2_debug::{debug_session, debug_session_over};
use h2_io::{FromRead, Input, IntoWrite, Output};
use h2_request_book::book::Book;
use h2_spec::connection::Config;
use std::alloc::Global;
use std::io;
use std::io::{Read, Write};

/// Makes the book of a session, and runs it.
fn debug<F: Files, I: Input, O: Output, E: Output>(
    alloc: Global,
    debug: &Debug<'_>,
    files: &mut F,
    input: &mut I,
    output: &mut O,
    errors: &mut E,
) -> u8
    requires reader { I.has_failed input.old ≡ false }
    requires writer { O.has_failed output.old ≡ false }
    ensures printed { KnowsFile debug.now.book.file.now (F.is_printed files.old) → O.has_failed output.new ≡ false
        → EndsSession (F.file files.old) debug.now.config (book_asked debug.now.book) (I.remaining input.old)
        (I.remaining input.new) (I.has_failed input.new) (O.written output.old) (O.written output.new) result }
    ensures flag { O.has_failed output.new ≡ (result == 3) }
    ensures input { I.name input.new ≡ I.name input.old }
    ensures name { O.name output.new ≡ O.name output.old }
    ensures quiet { debug.now.book.why ≡ false → errors.new ≡ errors.old }
    ensures errors { E.name errors.new ≡ E.name errors.old }
    ensures same_files { F.file files.new ≡ F.file files.old }
{
    match book_for_words(alloc, &debug.book, files, errors) {
        Ok(book) => debug_session(alloc, &book, debug.config, input, output),
        Err(fault) => print_fault(output, fault),
    }
}

/// Runs a session over the octets of a text that is not of the input; the reasons say why it has none.
fn session_over<I: Input, O: Output>(
    alloc: Global,
    config: Config,
    raw: bool,
    text: Vec<u8>,
    book: &Book<Global>,
    input: &mut I,
    output: &mut O,
    reasons: &mut Reasons<'_>,
) -> u8
    requires reader { I.has_failed input.old ≡ false }
    requires writer { O.has_failed output.old ≡ false }
    ensures printed { O.has_failed output.new ≡ false
        → EndsSessionAs (IsSessionGiven (is_allowed config) (octets_of raw text.items)) (Ok book.now) config (I.remaining input.old)
        (I.remaining input.new) (I.has_failed input.new) (O.written output.old) (O.written output.new) result }
    ensures flag { O.has_failed output.new ≡ (result == 3) }
    ensures input { I.name input.new ≡ I.name input.old }
    ensures name { O.name output.new ≡ O.name output.old }
{
    match read_for(alloc, config, raw, text, reasons) {
        Ok(octets) => debug_session_over(book, config, octets, input, output),
        Err(fault) => print_fault(output, fault),
    }
}

/// Makes the book of a session, and runs it over the octets of a text that is not of the input: the text itself where it is raw,
/// else what its hex spells. Why the text has no octets is written to `errors`, and what is strange about them, where the words do
/// not ask for quiet.
///
/// The status and the faults are those of `carry_out` for a session.
pub fn debug_over<F: Files, I: Input, O: Output, E: Output>(
    alloc: Global,
    debug: &Debug<'_>,
    raw: bool,
    text: Vec<u8>,
    files: &mut F,
    input: &mut I,
    output: &mut O,
    errors: &mut E,
) -> u8
    requires reader { I.has_failed input.old ≡ false }
    requires writer { O.has_failed output.old ≡ false }
    ensures printed { KnowsFile debug.now.book.file.now (F.is_printed files.old) → O.has_failed output.new ≡ false
        → EndsSessionOver raw text.items (F.file files.old) debug.now.config (book_asked debug.now.book) (I.remaining input.old)
        (I.remaining input.new) (I.has_failed input.new) (O.written output.old) (O.written output.new) result }
    ensures flag { O.has_failed output.new ≡ (result == 3) }
    ensures input { I.name input.new ≡ I.name input.old }
    ensures name { O.name output.new ≡ O.name output.old }
    ensures quiet { debug.now.book.why ≡ false → errors.new ≡ errors.old }
    ensures errors { E.name errors.new ≡ E.name errors.old }
    ensures same_files { F.file files.new ≡ F.file files.old }
{
    let book = match book_for_words(alloc, &debug.book, files, errors) {
        Ok(book) => book,
        Err(fault) => return print_fault(output, fault),
    };
    let mut reasons = Reasons::new(alloc, debug.input);
    let config = debug.config;
    let status = session_over(alloc, config, raw, text, &book, input, output, &mut reasons);
    write_reason(errors, debug.book.why, reasons.out.finish());
    status
}

/// Does what was asked for, and gives the exit status. Where that is nothing, connections to be served or a server to be
/// judged, nothing is read.
///
/// 0: done. 1: a fault ended it, and its line was written. 2: the words were refused, or ask for help, and what there
/// is to say of them was written; or they ask for connections to be served, and nothing was written (`serve` does
/// that). 3: the output failed, and only then. 4: a connection was explained, and a connection error ended it.
///
/// Where an entry of the book is refused and the words ask for the reason, a sentence is written to `errors`; nothing
/// else is written there.
pub fn carry_out<F: Files, I: Input, O: Output, E: Output>(
    alloc: Global,
    asked: &Result<Plan<'_>, Refusal>,
    files: &mut F,
    input: &mut I,
    output: &mut O,
    errors: &mut E,
) -> u8
    requires reader { I.has_failed input.old ≡ false }
    requires writer { O.has_failed output.old ≡ false }
    ensures printed { (is : BatchAsked) → asked_in asked.now ≡ Some (batch is)
        → KnowsFile (file_of is) (F.is_printed files.old) → O.has_failed output.new ≡ false
        → EndsBatch (F.file files.old) is (I.remaining input.old) (I.has_failed input.new) (O.written output.old)
        (O.written output.new) result }
    ensures debugs { (config : Config) → (book : BookAsked) → asked_in asked.now ≡ Some (debug config book)
        → KnowsFile book.file (F.is_printed files.old) → O.has_failed output.new ≡ false
        → EndsSession (F.file files.old) config book (I.remaining input.old) (I.remaining input.new)
        (I.has_failed input.new) (O.written output.old) (O.written output.new) result }
    ensures explains { (config : Config) → (view : FormAsked) → (raw : Bool) → (file : List ℕ) → (book : BookAsked)
        → asked_in asked.now ≡ Some (explain config view raw file book)
        → KnowsFile book.file (F.is_printed files.old) → KnowsFile file (F.is_printed files.old) → O.has_failed output.new ≡ false
        → EndsExplain (form_of view) raw (F.file files.old) config file book (I.remaining input.old) (I.has_failed input.new)
        (O.written output.old) (O.written output.new) result }
    ensures checks { (config : Config) → (book : BookAsked) → (in_place : Bool) → (names : List (List ℕ))
        → asked_in asked.now ≡ Some (check config book false in_place [] names)
        → F.is_printed files.old ≡ true → O.has_failed output.new ≡ false
        → EndsCheck (F.file files.old) config book names (O.written output.old) (O.written output.new) result }
    ensures junit { (config : Config) → (book : BookAsked) → (in_place : Bool) → (junit : List ℕ) → (names : List (List ℕ))
        → asked_in asked.now ≡ Some (check config book false in_place junit names) → is_none junit ≡ false
        → F.is_printed files.old ≡ true → O.has_failed output.new ≡ false
        → EndsJUnit (F.file files.old) config book names junit (F.file files.new) (O.written output.old) (O.written output.new) result }
    ensures alone { (config : Config) → (book : BookAsked) → (in_place : Bool) → (junit : List ℕ) → (names : List (List ℕ))
        → asked_in asked.now ≡ Some (check config book false in_place junit names)
        → F.is_printed files.old ≡ true → ChangesAlone junit (F.file files.old) (F.file files.new) }
    ensures serves { is_serve (asked_in asked.now) ≡ true → (result ≡ 2) × (O.written output.new ≡ O.written output.old) }
    ensures refused { IfErr asked.now (λ refusal. O.has_failed output.new ≡ false
        → PrintsSome (λ t. t ≡ printed_for refusal) (O.written output.old) (O.written output.new) result) }
    ensures unread { is_reader (asked_in asked.now) ≡ false → (I.remaining input.new ≡ I.remaining input.old)
        × (I.has_failed input.new ≡ false) }
    ensures flag { O.has_failed output.new ≡ (result == 3) }
    ensures input { I.name input.new ≡ I.name input.old }
    ensures name { O.name output.new ≡ O.name output.old }
    ensures quiet { asks_why (asked_in asked.now) ≡ false → errors.new ≡ errors.old }
    ensures errors { E.name errors.new ≡ E.name errors.old }
    ensures same_files { writes_files (asked_in asked.now) ≡ false → F.file files.new ≡ F.file files.old }
    ensures blesses { (config : Config) → (book : BookAsked) → (in_place : Bool) → (junit : List ℕ) → (names : List (List ℕ))
        → asked_in asked.now ≡ Some (check config book true in_place junit names) → F.is_printed files.old ≡ true
        → EndsBless (F.file files.old) config book in_place names (F.file files.new) (O.written output.old) (O.written output.new) result }
{
    match asked {
        Ok(Plan::Batch(batch)) => respond(alloc, batch, files, input, output, errors),
        Ok(Plan::Debug(plan)) => debug(alloc, plan, files, input, output, errors),
        Ok(Plan::Serve(_) | Plan::Against(_)) => 2,
        Ok(Plan::Explain(plan)) => explain_plan(alloc, plan, files, input, output, errors),
        Ok(Plan::Check(plan)) => check_plan(alloc, plan, files, output, errors),
        Err(Refusal::Words(text)) => print(output, &text.as_str(), 2),
        Err(Refusal::NoMemory) => print_fault(output, BenchFault::NoMemory),
    }
}

/// Does what the words ask for, and gives the exit status: what `carry_out` does of what `parse` finds in them. The line
/// `fault 0` with status 1 is also printed where memory is refused for the words.
pub fn run_on<F: Files, I: Input, O: Output, E: Output>(
    alloc: Global,
    words: &Words,
    files: &mut F,
    input: &mut I,
    output: &mut O,
    errors: &mut E,
) -> u8
    requires reader { I.has_failed input.old ≡ false }
    requires writer { O.has_failed output.old ≡ false }
    ensures printed { (asked : BatchAsked) → asked_of words.now ≡ Some (batch asked)
        → KnowsFile (file_of asked) (F.is_printed files.old) → O.has_failed output.new ≡ false
        → EndsBatch (F.file files.old) asked (I.remaining input.old) (I.has_failed input.new) (O.written output.old)
        (O.written output.new) result }
    ensures debugs { (config : Config) → (book : BookAsked) → asked_of words.now ≡ Some (debug config book)
        → KnowsFile book.file (F.is_printed files.old) → O.has_failed output.new ≡ false
        → EndsSession (F.file files.old) config book (I.remaining input.old) (I.remaining input.new)
        (I.has_failed input.new) (O.written output.old) (O.written output.new) result }
    ensures explains { (config : Config) → (view : FormAsked) → (raw : Bool) → (file : List ℕ) → (book : BookAsked)
        → asked_of words.now ≡ Some (explain config view raw file book)
        → KnowsFile book.file (F.is_printed files.old) → KnowsFile file (F.is_printed files.old) → O.has_failed output.new ≡ false
        → EndsExplain (form_of view) raw (F.file files.old) config file book (I.remaining input.old) (I.has_failed input.new)
        (O.written output.old) (O.written output.new) result }
    ensures checks { (config : Config) → (book : BookAsked) → (in_place : Bool) → (names : List (List ℕ))
        → asked_of words.now ≡ Some (check config book false in_place [] names)
        → F.is_printed files.old ≡ true → O.has_failed output.new ≡ false
        → EndsCheck (F.file files.old) config book names (O.written output.old) (O.written output.new) result }
    ensures serves { is_serve (asked_of words.now) ≡ true → O.has_failed output.new ≡ false
        → EndsServe (O.written output.old) (O.written output.new) result }
    ensures refused { asked_of words.now ≡ None → O.has_failed output.new ≡ false
        → PrintsRefusal (O.written output.old) (O.written output.new) result }
    ensures unread { is_reader (asked_of words.now) ≡ false → (I.remaining input.new ≡ I.remaining input.old)
        × (I.has_failed input.new ≡ false) }
    ensures flag { O.has_failed output.new ≡ (result == 3) }
    ensures input { I.name input.new ≡ I.name input.old }
    ensures name { O.name output.new ≡ O.name output.old }
    ensures quiet { asks_why (asked_of words.now) ≡ false → errors.new ≡ errors.old }
    ensures errors { E.name errors.new ≡ E.name errors.old }
    ensures same_files { writes_files (asked_of words.now) ≡ false → F.file files.new ≡ F.file files.old }
{
    let asked = parse(alloc, words);
    carry_out(alloc, &asked, files, input, output, errors)
}

/// As `run_on`, over a reader and a writer of the standard library, which say of no call that it does not fail. There are
/// no files, so that a book's file is refused, and reasons are not written anywhere. The output should be buffered, and
/// flushed afterwards.
pub fn run<R: Read, W: Write>(alloc: Global, words: &Words, input: &mut R, output: &mut W) -> u8
    ensures printed { (asked : BatchAsked) → asked_of words.now ≡ Some (batch asked) → EndsSomehow no_files asked
        (R.remaining input.old) (W.contents output.old) (W.contents output.new) result }
    ensures debugs { (config : Config) → (book : BookAsked) → asked_of words.now ≡ Some (debug config book)
        → (result ≡ 3)
        ⊎ ((failed : Bool) × EndsSession no_files config book (R.remaining input.old) (R.remaining input.new) failed (W.contents output.old) (W.contents output.new) result) }
    ensures explains { (config : Config) → (view : FormAsked) → (raw : Bool) → (file : List ℕ) → (book : BookAsked)
        → asked_of words.now ≡ Some (explain config view raw file book) → (result ≡ 3)
        ⊎ ((failed : Bool) × EndsExplain (form_of view) raw no_files config file book (R.remaining input.old) failed
        (W.contents output.old) (W.contents output.new) result) }
    ensures checks { (config : Config) → (book : BookAsked) → (in_place : Bool) → (names : List (List ℕ))
        → asked_of words.now ≡ Some (check config book false in_place [] names) → (result ≡ 3)
        ⊎ EndsCheck no_files config book names (W.contents output.old) (W.contents output.new) result }
    ensures serves { is_serve (asked_of words.now) ≡ true → (result ≡ 3)
        ⊎ EndsServe (W.contents output.old) (W.contents output.new) result }
    ensures refused { asked_of words.now ≡ None → (result ≡ 3)
        ⊎ PrintsRefusal (W.contents output.old) (W.contents output.new) result }
    ensures unread { is_reader (asked_of words.now) ≡ false → R.remaining input.new ≡ R.remaining input.old }
{
    let mut files = FilesInMemory { files: &[] };
    let mut from = FromRead::new(input);
    let mut into = IntoWrite::new(output);
    let mut nowhere = io::sink();
    let mut errors = IntoWrite::new(&mut nowhere);
    let status = run_on(alloc, words, &mut files, &mut from, &mut into, &mut errors);
    // The proof reads what the devices hold from this use of the references.
    let reader = from.into_inner();
    let writer = into.into_inner();
    let _reader = &*reader;
    let _writer = &*writer;
    status
}
