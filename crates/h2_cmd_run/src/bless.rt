//! `check --bless`: files of cases are written anew, to the output or in place.

ghost use Rattle.std.specs.Prelude.{◌≡◌, ◌==◌, ◌++◌, Some, flat_map, map, true, false, is_err, IfOk, OnOk};
ghost use Rattle.std.specs.Io.KnownBytes.{Appends};
ghost use Rattle.h2_cmd_cases.specs.Files.{cases_in};
ghost use Rattle.h2_cmd_batch.specs.CaseSetups.{setup_of};
ghost use Rattle.h2_cmd_batch.specs.Each.{not_written};
ghost use Rattle.h2_cmd_run.specs.Blessing.{Blesses, BlessesFile, BlessesFiles, PrintsFile, PrintsFiles, ReplacesOrNot, blessed_case, blessed_file, blessed_lines, blessed_on, blessed_with};
ghost use Rattle.h2_cmd_run.specs.CheckProgram.{common_of, not_checked};

use crate::check::{first_lines, lines_from};
use h2_cmd_args::command::Check;
use h2_cmd_batch::{
    BenchFault, Case, Common, OwnFault, PrintFault, RefusedWords, own_of, print_end, words_line,
    write_reason,
};
use h2_cmd_book_file::{Files, FilesFault};
use h2_cmd_cases::{case_length, have_words, lines_in, preamble_length};
use h2_cmd_check::{CaseFault, add_lines, bless_case};
use h2_cmd_messages::{Cut, InputSource, Say, TextBuilder, say_no_text, say_too_long, say_unread};
use h2_io::{MAX_INPUT, Output};
use h2_request_book::book::Book;
use h2_spec::connection::Config;
use std::alloc::{AllocError, Global};
use std::str;

/// Why a case stays as it is: its words are refused. `None` where it is written anew.
type KeptCase = Option<RefusedWords>;

/// Says that a case stays as it is.
fn stays_as_it_is(alloc: Global, case: Case<'_, '_>, why: &str) -> Result<KeptCase, AllocError> {
    let line = words_line(case);
    let why = String::from_str(alloc, why)?;
    Ok(Some(RefusedWords { line, why }))
}

/// Adds a case to a text, written anew with this book, these limits and these settings.
fn add_with(
    alloc: Global,
    book: &Book<Global>,
    config: Config,
    case: Case<'_, '_>,
    text: &mut Vec<u8>,
) -> Result<KeptCase, AllocError>
    ensures { OnOk result (text.new.items ≡ text.old.items ++ blessed_with book.now config (map (λ l. l.now) case.entry.lines.now)) }
{
    match bless_case(alloc, book, config, case.lines) {
        Ok(blessed) => {
            text.extend_from_slice(blessed.as_slice())?;
            Ok(None)
        }
        Err(CaseFault::BadConfig) => {
            add_lines(case.lines, text)?;
            stays_as_it_is(alloc, case, "a limit or a setting is out of range")
        }
        Err(CaseFault::NoMemory) => Err(AllocError),
    }
}

/// Adds a case to a text that has words of its own.
fn add_own<F: Files>(
    alloc: Global,
    files: &mut F,
    case: Case<'_, '_>,
    text: &mut Vec<u8>,
) -> Result<KeptCase, AllocError>
    ensures text { F.is_printed files.old ≡ true → OnOk result (text.new.items ≡ text.old.items
        ++ blessed_on (setup_of (F.file files.old) case.entry.file.now (map (λ l. l.now) case.entry.lines.now)) (map (λ l. l.now) case.entry.lines.now)) }
    ensures same_printed { F.is_printed files.new ≡ F.is_printed files.old }
    ensures same_files { F.file files.new ≡ F.file files.old }
{
    match own_of(alloc, files, case) {
        Ok(own) => add_with(alloc, &own.book, own.config, case, text),
        Err(OwnFault::Refused(refused)) => {
            add_lines(case.lines, text)?;
            Ok(Some(refused))
        }
        Err(OwnFault::NoMemory) => Err(AllocError),
    }
}

/// Adds a case to a text, written anew: with its own words where it has some, else with those of the command.
fn add_case<F: Files>(
    alloc: Global,
    common: Common<'_>,
    files: &mut F,
    case: Case<'_, '_>,
    text: &mut Vec<u8>,
) -> Result<KeptCase, AllocError>
    ensures text { F.is_printed files.old ≡ true → OnOk result (text.new.items ≡ text.old.items
        ++ blessed_case (F.file files.old) (common_of common.entry) case.entry.file.now (map (λ l. l.now) case.entry.lines.now)) }
    ensures same_printed { F.is_printed files.new ≡ F.is_printed files.old }
    ensures same_files { F.file files.new ≡ F.file files.old }
{
    if have_words(case.lines) {
        add_own(alloc, files, case, text)
    } else {
        add_with(alloc, common.book, common.config, case, text)
    }
}

/// Says that a case stays as it is, and why, as a sentence on its own line.
fn say_kept(file: &str, refused: &RefusedWords, out: &mut TextBuilder) {
    Cut(file.as_bytes()).say(out);
    ", line ".say(out);
    (refused.line as u64).say(out);
    ": this case stays as it is, since its words are refused: ".say(out);
    Cut(refused.why.as_str().as_bytes()).say(out);
    ".\n".say(out);
}

/// Says of a case whether it was written anew, and if not, why.
fn note(file: &str, kept: &KeptCase, reasons: &mut TextBuilder) -> bool {
    match kept {
        Some(refused) => {
            say_kept(file, refused, reasons);
            false
        }
        None => true,
    }
}

/// Adds the cases of a file's lines to a text, written anew. Says whether each was, and adds to the reasons why one was not.
fn add_cases<F: Files>(
    alloc: Global,
    common: Common<'_>,
    files: &mut F,
    file: &str,
    lines: &[&[u8]],
    text: &mut Vec<u8>,
    reasons: &mut TextBuilder,
) -> Result<bool, AllocError>
    ensures text { F.is_printed files.old ≡ true → OnOk result (text.new.items ≡ text.old.items
        ++ flat_map (blessed_case (F.file files.old) (common_of common.entry) file.now) (cases_in (map (λ l. l.now) lines.now))) }
    ensures same_printed { F.is_printed files.new ≡ F.is_printed files.old }
    ensures same_files { F.file files.new ≡ F.file files.old }
{
    let mut all = true;
    let mut first = preamble_length(lines);
    while first < lines.len() {
        let rest = lines_from(lines, first);
        let length = case_length(rest);
        let number = first + 1;
        let case = Case {
            file,
            lines: first_lines(rest, length),
            number,
        };
        match add_case(alloc, common, files, case, text) {
            Ok(kept) => all = note(file, &kept, reasons) && all,
            Err(error) => return Err(error),
        }
        first += length;
    }
    Ok(all)
}

/// A file that was written anew.
#[derive(Drop)]
struct Anew {
    text: Vec<u8>,
    /// Whether each case was.
    is_whole: bool,
}

/// Adds the lines of a file to a text, each with a line feed.
fn add_file_lines<F: Files>(
    alloc: Global,
    common: Common<'_>,
    files: &mut F,
    file: &str,
    lines: &[&[u8]],
    text: &mut Vec<u8>,
    reasons: &mut TextBuilder,
) -> Result<bool, AllocError>
    ensures text { F.is_printed files.old ≡ true → OnOk result (text.new.items ≡ text.old.items
        ++ blessed_lines (F.file files.old) (common_of common.entry) file.now (map (λ l. l.now) lines.now)) }
    ensures same_printed { F.is_printed files.new ≡ F.is_printed files.old }
    ensures same_files { F.file files.new ≡ F.file files.old }
{
    let preamble = first_lines(lines, preamble_length(lines));
    add_lines(preamble, text)?;
    add_cases(alloc, common, files, file, lines, text, reasons)
}

/// The text of a file whose lines are written anew. `AllocError` where memory is refused.
fn text_anew<F: Files>(
    alloc: Global,
    common: Common<'_>,
    files: &mut F,
    file: &str,
    octets: &[u8],
    reasons: &mut TextBuilder,
) -> Result<Anew, AllocError>
    ensures text { F.is_printed files.old ≡ true → IfOk result (λ new. new.text.items ≡ blessed_file (F.file files.old) (common_of common.entry) file.now octets.now) }
    ensures same_printed { F.is_printed files.new ≡ F.is_printed files.old }
    ensures same_files { F.file files.new ≡ F.file files.old }
{
    let mut text = Vec::new(alloc);
    let lines = lines_in(alloc, octets)?;
    let lines = lines.as_slice();
    let is_whole = add_file_lines(alloc, common, files, file, lines, &mut text, reasons)?;
    // The last line has no line feed.
    text.truncate(text.len().saturating_sub(1));
    Ok(Anew { text, is_whole })
}

/// Says why a file was not read.
fn say_unread_file<F: Files>(files: &F, file: &str, reasons: &mut TextBuilder) {
    if let Some(kind) = files.failure(file) {
        say_unread(InputSource::File(file), kind, reasons);
    }
}

/// The octets of a file of cases, which has to be text. Where it is refused, the reasons say why.
fn read_cases<F: Files>(
    alloc: Global,
    files: &mut F,
    file: &str,
    reasons: &mut TextBuilder,
) -> Result<Vec<u8>, BenchFault>
    ensures octets { F.is_printed files.old ≡ true → IfOk result (λ octets. F.file files.old file.now ≡ Some octets.items) }
    ensures same_printed { F.is_printed files.new ≡ F.is_printed files.old }
    ensures same_files { F.file files.new ≡ F.file files.old }
{
    match files.read(alloc, file, MAX_INPUT) {
        Ok(octets) => {
            if str::from_utf8(octets.as_slice()).is_err() {
                say_no_text(InputSource::File(file), octets.as_slice(), reasons);
                return Err(BenchFault::Read);
            }
            Ok(octets)
        }
        Err(FilesFault::NoMemory) => Err(BenchFault::NoMemory),
        Err(FilesFault::TooLong) => {
            say_too_long(InputSource::File(file), MAX_INPUT, reasons);
            Err(BenchFault::Read)
        }
        Err(FilesFault::Failed) => {
            say_unread_file(files, file, reasons);
            Err(BenchFault::Read)
        }
    }
}

/// Says that a file was not written.
fn say_not_replaced(file: &str, reasons: &mut TextBuilder) {
    Cut(file.as_bytes()).say(reasons);
    ": it can't be written, and is as it was: its directory is read-only, the disk is full, or ".say(
        reasons,
    );
    Cut(file.as_bytes()).say(reasons);
    ".blessed is there already.\n".say(reasons);
}

/// Writes octets, or says that they were not written.
fn write<O: Output>(output: &mut O, octets: &[u8]) -> Result<(), PrintFault>
    requires writer { O.has_failed output.old ≡ false }
    ensures octets { OnOk result (Appends (O.written output.old) (O.written output.new) octets.now) }
    ensures flag { O.has_failed output.new ≡ not_written result }
    ensures name { O.name output.new ≡ O.name output.old }
{
    match output.write(octets) {
        Ok(()) => Ok(()),
        Err(_) => Err(PrintFault::NotWritten),
    }
}

/// The line that says that a file was written anew.
fn blessed_line(alloc: Global, file: &str) -> Result<String, AllocError> {
    format!(in alloc; "blessed {file}\n")
}

/// Replaces the text of a file, and writes that it was; neither where they are the same.
fn replace<F: Files, O: Output>(
    alloc: Global,
    files: &mut F,
    file: &str,
    octets: &[u8],
    text: &[u8],
    output: &mut O,
    reasons: &mut TextBuilder,
) -> Result<(), PrintFault>
    requires writer { O.has_failed output.old ≡ false }
    ensures replaces { F.is_printed files.old ≡ true → F.file files.old file.now ≡ Some octets.now
        → ReplacesOrNot (is_err result) (F.file files.old) file.now text.now (F.file files.new) }
    ensures same_printed { F.is_printed files.new ≡ F.is_printed files.old }
    ensures flag { O.has_failed output.new ≡ not_written result }
    ensures name { O.name output.new ≡ O.name output.old }
{
    if text == octets {
        return Ok(());
    }
    // The line is made first, so that a file is not written where it can't be said.
    let line = match blessed_line(alloc, file) {
        Ok(line) => line,
        Err(_) => return Err(PrintFault::Fault(BenchFault::NoMemory)),
    };
    match files.replace(alloc, file, text) {
        Ok(()) => write(output, line.as_str().as_bytes()),
        Err(FilesFault::NoMemory) => Err(PrintFault::Fault(BenchFault::NoMemory)),
        Err(_) => {
            say_not_replaced(file, reasons);
            Err(PrintFault::Fault(BenchFault::Write))
        }
    }
}

/// Writes a file anew: to the output, or in place. Says whether each case was written anew.
fn bless_file<F: Files, O: Output>(
    alloc: Global,
    plan: &Check<'_>,
    common: Common<'_>,
    files: &mut F,
    file: &str,
    output: &mut O,
    reasons: &mut TextBuilder,
) -> Result<bool, PrintFault>
    requires writer { O.has_failed output.old ≡ false }
    ensures same_files { plan.now.in_place ≡ false → F.file files.new ≡ F.file files.old }
    ensures blesses { plan.now.in_place ≡ true → F.is_printed files.old ≡ true
        → BlessesFile (is_err result) (common_of common.entry) (F.file files.old) file.now (F.file files.new) }
    ensures prints { plan.now.in_place ≡ false → F.is_printed files.old ≡ true
        → OnOk result (PrintsFile (common_of common.entry) (F.file files.old) file.now (O.written output.old) (O.written output.new)) }
    ensures same_printed { F.is_printed files.new ≡ F.is_printed files.old }
    ensures flag { O.has_failed output.new ≡ not_checked result }
    ensures name { O.name output.new ≡ O.name output.old }
{
    let octets = match read_cases(alloc, files, file, reasons) {
        Ok(octets) => octets,
        Err(fault) => return Err(PrintFault::Fault(fault)),
    };
    let new = match text_anew(alloc, common, files, file, octets.as_slice(), reasons) {
        Ok(new) => new,
        Err(_) => return Err(PrintFault::Fault(BenchFault::NoMemory)),
    };
    let (text, octets) = (new.text.as_slice(), octets.as_slice());
    if plan.in_place {
        replace(alloc, files, file, octets, text, output, reasons)?;
        return Ok(new.is_whole);
    }
    write(output, text)?;
    Ok(new.is_whole)
}

/// Writes files anew in their order, until a fault ends that. Says whether each case was written anew.
fn bless_files<F: Files, O: Output>(
    alloc: Global,
    plan: &Check<'_>,
    common: Common<'_>,
    names: &[&str],
    files: &mut F,
    output: &mut O,
    reasons: &mut TextBuilder,
) -> Result<bool, PrintFault>
    requires writer { O.has_failed output.old ≡ false }
    ensures same_files { plan.now.in_place ≡ false → F.file files.new ≡ F.file files.old }
    ensures blesses { plan.now.in_place ≡ true → F.is_printed files.old ≡ true
        → BlessesFiles (is_err result) (common_of common.entry) (F.file files.old) (map (λ n. n.now) names.now) (F.file files.new) }
    ensures prints { plan.now.in_place ≡ false → F.is_printed files.old ≡ true
        → OnOk result (PrintsFiles (common_of common.entry) (F.file files.old) (map (λ n. n.now) names.now) (O.written output.old) (O.written output.new)) }
    ensures flag { O.has_failed output.new ≡ not_checked result }
    ensures name { O.name output.new ≡ O.name output.old }
{
    let mut all = true;
    for file in names {
        let is_whole = bless_file(alloc, plan, common, files, file, output, reasons)?;
        all = is_whole && all;
    }
    Ok(all)
}

/// Writes the line of a fault that ended the writing of files, if one did. Gives the status: 0
/// where each case was, else 1, and after a fault; 3 where the output failed.
fn print_ended<O: Output>(output: &mut O, ended: Result<bool, PrintFault>) -> u8
    requires { O.has_failed output.old ≡ not_checked ended }
    ensures ok { result ≡ 0 → (is_err ended ≡ false) × (O.written output.new ≡ O.written output.old) }
    ensures flag { O.has_failed output.new ≡ (result == 3) }
    ensures name { O.name output.new ≡ O.name output.old }
{
    match ended {
        Ok(true) => 0,
        Ok(false) => 1,
        Err(fault) => print_end(output, Err(fault)),
    }
}

/// Writes files of cases anew, with this book for cases that have no words of their own, and gives the status. Why a case
/// stays as it is is written to `errors`.
pub(crate) fn print_blessed<F: Files, O: Output, E: Output>(
    alloc: Global,
    plan: &Check<'_>,
    book: &Book<Global>,
    files: &mut F,
    output: &mut O,
    errors: &mut E,
) -> u8
    requires writer { O.has_failed output.old ≡ false }
    ensures flag { O.has_failed output.new ≡ (result == 3) }
    ensures name { O.name output.new ≡ O.name output.old }
    ensures quiet { plan.now.book.why ≡ false → errors.new ≡ errors.old }
    ensures errors { E.name errors.new ≡ E.name errors.old }
    ensures same_files { plan.now.in_place ≡ false → F.file files.new ≡ F.file files.old }
    ensures blesses { F.is_printed files.old ≡ true → Blesses (record { config = plan.now.config; book = book.now }) (F.file files.old) plan.now.in_place
        (map (λ n. n.now) plan.now.files.items) (F.file files.new) (O.written output.old) (O.written output.new) result }
{
    let config = plan.config;
    let common = Common { config, book };
    let mut reasons = TextBuilder::new(alloc);
    let names = plan.files.as_slice();
    let ended = bless_files(alloc, plan, common, names, files, output, &mut reasons);
    write_reason(errors, plan.book.why, reasons.finish());
    print_ended(output, ended)
}
