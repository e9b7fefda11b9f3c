//! The program `check`: the cases of files, each on a connection of its own, and the verdicts on them. Definitions:
//! `specs/CheckProgram.antt`, over `specs/Files.antt` of h2_cmd_cases and `specs/Cases.antt` of h2_cmd_check.

ghost use Rattle.std.specs.Prelude.{◌≡◌, ◌==◌, ◌≤◌, ◌<◌, ◌++◌, ℕ, List, [], ◌∷◌, Some, None, false, true, drop, length, map, take, IfErr, is_err};
ghost use Rattle.std.specs.Io.KnownBytes.{Appends};
ghost use Rattle.std.specs.Option.{option_map};
ghost use Rattle.std.specs.Str.{is_utf8};
ghost use Rattle.h2_cmd_book_file.specs.Entries.{Directory};
ghost use Rattle.h2_cmd_check.specs.Cases.{Fails};
ghost use Rattle.h2_cmd_cases.specs.Files.{cases_in, title_in};
ghost use Rattle.h2_cmd_check.specs.Walks.{outcome_by};
ghost use Rattle.h2_cmd_args.specs.Plans.{book_asked};
ghost use Rattle.h2_cmd_run.specs.Blessing.{EndsBless, writes_for};
ghost use Rattle.h2_cmd_run.specs.JUnitProgram.{EndsJUnit};
ghost use Rattle.h2_cmd_batch.specs.Results.{ChangesAlone};
ghost use Rattle.h2_cmd_check.specs.Frames.{is_none};
ghost use Rattle.h2_cmd_run.specs.CheckProgram.{ChecksFiles, EndsCheck, IsChecked, PlansCases, Reports, ReportsOne, all_subjects, cases_if, checked_after, common_of, first_tally, is_failure, not_checked, plan_line, subject, subjects_of, tallied, version_line};
ghost use Rattle.h2_cmd_batch.specs.CommandEnd.{Prints, PrintsSome};
ghost use Rattle.h2_cmd_batch.specs.Each.{not_written};
ghost use Rattle.h2_cmd_batch.specs.declared.commands.each.PrintFault.TheVariants.{Fault};
ghost use Rattle.h2_cmd_batch.specs.declared.fault.BenchFault.TheVariants.{NoMemory};
ghost use Rattle.h2_cmd_batch.specs.declared.case_setup.CaseSetup.{CaseSetup};

use crate::bless::print_blessed;
use crate::judge::{failed_at, judge};
use crate::junit::check_junit;
use h2_cmd_args::command::Check;
use h2_cmd_batch::{BenchFault, Case, Common, PrintFault, book_for_words, print_fault};
use h2_cmd_book_file::{Files, FilesFault};
use h2_cmd_cases::{case_length, lines_in, preamble_length, title_of};
use h2_cmd_check::{CaseVerdict, Title, plan_line, verdict_text};
use h2_cmd_messages::file_reason;
use h2_io::{MAX_INPUT, Output};
use h2_request_book::book::Book;
use std::alloc::Global;
use std::str;

/// How many cases have a verdict, and whether none failed.
#[derive(Clone, Copy)]
pub struct CaseTally {
    /// How many cases have a verdict.
    pub count: u64,
    /// Whether none of them failed.
    pub all_hold: bool,
}

impl CaseTally {
    /// No verdict yet.
    pub(crate) fn new() -> CaseTally
        ensures { result ≡ first_tally }
    {
        CaseTally {
            count: 0,
            all_hold: true,
        }
    }
}

/// What a case is called.
fn title<'c, 't>(case: Case<'c, 't>) -> Title<'c>
where
    't: 'c,
    ensures file { result.file.now ≡ case.entry.file.now }
    ensures title { option_map (λ t. t.now) result.title ≡ title_in (map (λ l. l.now) case.entry.lines.now) }
{
    Title {
        file: case.file,
        title: title_of(case.lines),
    }
}

/// Writes octets, or says that they were not written.
pub(crate) fn write<O: Output>(output: &mut O, octets: &[u8]) -> Result<(), PrintFault>
    requires writer { O.has_failed output.old ≡ false }
    ensures octets { O.has_failed output.new ≡ false → Appends (O.written output.old) (O.written output.new) octets.now }
    ensures flag { O.has_failed output.new ≡ is_err result }
    ensures other { O.has_failed output.new ≡ not_written result }
    ensures name { O.name output.new ≡ O.name output.old }
{
    match output.write(octets) {
        Ok(()) => Ok(()),
        Err(_) => Err(PrintFault::NotWritten),
    }
}

/// Whether a verdict is that a case fails.
fn is_failure(verdict: &CaseVerdict<'_>) -> bool
    ensures { result ≡ is_failure (outcome_by verdict.now) }
{
    match verdict {
        CaseVerdict::Fails(_) => true,
        CaseVerdict::Skipped | CaseVerdict::Holds => false,
    }
}

/// The tally with one more verdict.
fn tallied(tally: CaseTally, verdict: &CaseVerdict<'_>) -> CaseTally
    ensures { result ≡ tallied tally (outcome_by verdict.now) }
{
    CaseTally {
        count: tally.count.saturating_add(1),
        all_hold: tally.all_hold && !is_failure(verdict),
    }
}

/// Writes the result of a verdict, and counts it.
fn report<O: Output>(
    alloc: Global,
    title: Title<'_>,
    verdict: &CaseVerdict<'_>,
    tally: &mut CaseTally,
    output: &mut O,
) -> Result<(), PrintFault>
    requires writer { O.has_failed output.old ≡ false }
    ensures reports { O.has_failed output.new ≡ false → ReportsOne (is_err result) tally.old title.entry.file.now (option_map (λ t. t.now) title.entry.title)
        (outcome_by verdict.now) tally.new (O.written output.old) (O.written output.new) }
    ensures memory { O.has_failed output.new ≡ false → IfErr result (λ fault. fault ≡ Fault NoMemory) }
    ensures flag { O.has_failed output.new ≡ not_written result }
    ensures name { O.name output.new ≡ O.name output.old }
{
    let next = tallied(*tally, verdict);
    let text = match verdict_text(alloc, next.count, title, verdict) {
        Ok(text) => text,
        Err(_) => return Err(PrintFault::Fault(BenchFault::NoMemory)),
    };
    write(output, text.as_slice())?;
    *tally = next;
    Ok(())
}

/// Writes the result of a case, and counts it.
fn check_one<F: Files, O: Output>(
    alloc: Global,
    common: Common<'_>,
    files: &mut F,
    case: Case<'_, '_>,
    tally: &mut CaseTally,
    output: &mut O,
) -> Result<(), PrintFault>
    requires writer { O.has_failed output.old ≡ false }
    ensures reports { F.is_printed files.old ≡ true → O.has_failed output.new ≡ false
        → Reports (is_err result) (F.file files.old) (common_of common.entry) tally.old (subject case.entry.file.now (Some (map (λ l. l.now) case.entry.lines.now)) ∷ [])
        tally.new (O.written output.old) (O.written output.new) }
    ensures memory { O.has_failed output.new ≡ false → IfErr result (λ fault. fault ≡ Fault NoMemory) }
    ensures flag { O.has_failed output.new ≡ not_written result }
    ensures name { O.name output.new ≡ O.name output.old }
    ensures same_printed { F.is_printed files.new ≡ F.is_printed files.old }
    ensures same_files { F.file files.new ≡ F.file files.old }
{
    match judge(alloc, common, files, case) {
        Ok(verdict) => report(alloc, title(case), &verdict, tally, output),
        Err(_) => Err(PrintFault::Fault(BenchFault::NoMemory)),
    }
}

/// The lines from a place on.
pub(crate) fn lines_from<'c, 't>(lines: &'c [&'t [u8]], first: usize) -> &'c [&'t [u8]]
    requires { first ≤ length lines.now }
    ensures { result.now ≡ drop first lines.now }
{
    &lines[first..]
}

/// This many first lines.
pub(crate) fn first_lines<'c, 't>(lines: &'c [&'t [u8]], count: usize) -> &'c [&'t [u8]]
    requires { count ≤ length lines.now }
    ensures { result.now ≡ take count lines.now }
{
    &lines[..count]
}

/// Writes the results of the cases of a file's lines.
fn check_cases<F: Files, O: Output>(
    alloc: Global,
    common: Common<'_>,
    files: &mut F,
    file: &str,
    lines: &[&[u8]],
    tally: &mut CaseTally,
    output: &mut O,
) -> Result<(), PrintFault>
    requires writer { O.has_failed output.old ≡ false }
    ensures reports { F.is_printed files.old ≡ true → O.has_failed output.new ≡ false
        → Reports (is_err result) (F.file files.old) (common_of common.entry) tally.old (map (λ c. subject file.now (Some c)) (cases_in (map (λ l. l.now) lines.now)))
        tally.new (O.written output.old) (O.written output.new) }
    ensures memory { O.has_failed output.new ≡ false → IfErr result (λ fault. fault ≡ Fault NoMemory) }
    ensures flag { O.has_failed output.new ≡ not_written result }
    ensures name { O.name output.new ≡ O.name output.old }
    ensures same_printed { F.is_printed files.new ≡ F.is_printed files.old }
    ensures same_files { F.file files.new ≡ F.file files.old }
{
    let mut first = preamble_length(lines);
    while first < lines.len() {
        let rest = lines_from(lines, first);
        let length = case_length(rest);
        let number = first + 1;
        let case = Case {
            file,
            lines: first_lines(rest, length),
            number,
        };
        check_one(alloc, common, files, case, tally, output)?;
        first += length;
    }
    Ok(())
}

/// Writes that a file has no cases, and why.
fn refuse_file<O: Output>(
    alloc: Global,
    file: &str,
    found: &str,
    tally: &mut CaseTally,
    output: &mut O,
) -> Result<(), PrintFault>
    requires writer { O.has_failed output.old ≡ false }
    ensures reports { O.has_failed output.new ≡ false → (files : Directory) (common : CaseSetup)
        → Reports (is_err result) files common tally.old (subject file.now None ∷ []) tally.new (O.written output.old) (O.written output.new) }
    ensures memory { O.has_failed output.new ≡ false → IfErr result (λ fault. fault ≡ Fault NoMemory) }
    ensures flag { O.has_failed output.new ≡ not_written result }
    ensures name { O.name output.new ≡ O.name output.old }
{
    let title = Title { file, title: None };
    match failed_at(alloc, 1, "a file of cases", found) {
        Ok(verdict) => report(alloc, title, &verdict, tally, output),
        Err(_) => Err(PrintFault::Fault(BenchFault::NoMemory)),
    }
}

/// Whether octets are UTF-8.
fn is_text(octets: &[u8]) -> bool
    ensures { result ≡ is_utf8 octets.now }
{
    match str::from_utf8(octets) {
        Ok(_) => true,
        Err(_) => false,
    }
}

/// Writes the results of the cases of a text.
fn check_text<F: Files, O: Output>(
    alloc: Global,
    common: Common<'_>,
    files: &mut F,
    file: &str,
    text: &[u8],
    tally: &mut CaseTally,
    output: &mut O,
) -> Result<(), PrintFault>
    requires writer { O.has_failed output.old ≡ false }
    ensures reports { F.is_printed files.old ≡ true → O.has_failed output.new ≡ false
        → Reports (is_err result) (F.file files.old) (common_of common.entry) tally.old (map (subject file.now) (cases_if false (is_utf8 text.now) text.now))
        tally.new (O.written output.old) (O.written output.new) }
    ensures memory { O.has_failed output.new ≡ false → IfErr result (λ fault. fault ≡ Fault NoMemory) }
    ensures flag { O.has_failed output.new ≡ not_written result }
    ensures name { O.name output.new ≡ O.name output.old }
    ensures same_printed { F.is_printed files.new ≡ F.is_printed files.old }
    ensures same_files { F.file files.new ≡ F.file files.old }
{
    if !is_text(text) {
        return refuse_file(alloc, file, "the file is not UTF-8", tally, output);
    }
    match lines_in(alloc, text) {
        Ok(lines) => check_cases(alloc, common, files, file, lines.as_slice(), tally, output),
        Err(_) => Err(PrintFault::Fault(BenchFault::NoMemory)),
    }
}

/// Why a file can't be read.
fn unread_reason<F: Files>(files: &F, file: &str) -> &'static str {
    match files.failure(file) {
        Some(kind) => file_reason(kind),
        None => "the file can't be read",
    }
}

/// Writes the results of the cases of a file.
pub(crate) fn check_file<F: Files, O: Output>(
    alloc: Global,
    common: Common<'_>,
    files: &mut F,
    file: &str,
    tally: &mut CaseTally,
    output: &mut O,
) -> Result<(), PrintFault>
    requires writer { O.has_failed output.old ≡ false }
    ensures reports { F.is_printed files.old ≡ true → O.has_failed output.new ≡ false
        → Reports (is_err result) (F.file files.old) (common_of common.entry) tally.old (subjects_of (F.file files.old) file.now)
        tally.new (O.written output.old) (O.written output.new) }
    ensures memory { O.has_failed output.new ≡ false → IfErr result (λ fault. fault ≡ Fault NoMemory) }
    ensures flag { O.has_failed output.new ≡ not_written result }
    ensures name { O.name output.new ≡ O.name output.old }
    ensures same_printed { F.is_printed files.new ≡ F.is_printed files.old }
    ensures same_files { F.file files.new ≡ F.file files.old }
{
    match files.read(alloc, file, MAX_INPUT) {
        Ok(text) => check_text(alloc, common, files, file, text.as_slice(), tally, output),
        Err(FilesFault::NoMemory) => Err(PrintFault::Fault(BenchFault::NoMemory)),
        Err(FilesFault::Failed) => {
            let found = unread_reason(files, file);
            refuse_file(alloc, file, found, tally, output)
        }
        Err(FilesFault::TooLong) => {
            let found = "the file has more than 16777216 octets";
            refuse_file(alloc, file, found, tally, output)
        }
    }
}

/// Writes the results of the cases of files in their order.
fn check_all<F: Files, O: Output>(
    alloc: Global,
    common: Common<'_>,
    names: &[&str],
    files: &mut F,
    tally: &mut CaseTally,
    output: &mut O,
) -> Result<(), PrintFault>
    requires writer { O.has_failed output.old ≡ false }
    ensures reports { F.is_printed files.old ≡ true → O.has_failed output.new ≡ false
        → Reports (is_err result) (F.file files.old) (common_of common.entry) tally.old (all_subjects (F.file files.old) (map (λ n. n.now) names.now))
        tally.new (O.written output.old) (O.written output.new) }
    ensures memory { O.has_failed output.new ≡ false → IfErr result (λ fault. fault ≡ Fault NoMemory) }
    ensures flag { O.has_failed output.new ≡ not_written result }
    ensures name { O.name output.new ≡ O.name output.old }
    ensures same_files { F.file files.new ≡ F.file files.old }
{
    for file in names {
        check_file(alloc, common, files, file, tally, output)?;
    }
    Ok(())
}

/// Writes how many verdicts there are. Says whether no case failed.
fn write_plan<O: Output>(
    alloc: Global,
    tally: CaseTally,
    output: &mut O,
) -> Result<bool, PrintFault>
    requires writer { O.has_failed output.old ≡ false }
    ensures plan { O.has_failed output.new ≡ false → PlansCases tally result (O.written output.old) (O.written output.new) }
    ensures flag { O.has_failed output.new ≡ not_checked result }
    ensures name { O.name output.new ≡ O.name output.old }
{
    match plan_line(alloc, tally.count) {
        Ok(line) => {
            write(output, line.as_slice())?;
            Ok(tally.all_hold)
        }
        Err(_) => Err(PrintFault::Fault(BenchFault::NoMemory)),
    }
}

/// Writes the results of the cases of files, and how many there are. Says whether no case failed.
///
/// `Fault` where memory is refused: some first results were written. `NotWritten` where a write failed.
fn check_files<F: Files, O: Output>(
    alloc: Global,
    common: Common<'_>,
    names: &[&str],
    files: &mut F,
    output: &mut O,
) -> Result<bool, PrintFault>
    requires writer { O.has_failed output.old ≡ false }
    ensures checks { F.is_printed files.old ≡ true → O.has_failed output.new ≡ false
        → ChecksFiles (F.file files.old) (common_of common.entry) (map (λ n. n.now) names.now) result (O.written output.old) (O.written output.new) }
    ensures flag { O.has_failed output.new ≡ not_checked result }
    ensures name { O.name output.new ≡ O.name output.old }
    ensures same_files { F.file files.new ≡ F.file files.old }
{
    let mut tally = CaseTally::new();
    write(output, b"TAP version 13\n")?;
    check_all(alloc, common, names, files, &mut tally, output)?;
    write_plan(alloc, tally, output)
}

/// Writes what remains to say of cases: the line of a fault that ended them. Gives the status: 0 where no case failed,
/// 1 where one did, and after a fault, 3 where the output failed.
pub(crate) fn print_checked<O: Output>(output: &mut O, ended: Result<bool, PrintFault>) -> u8
    requires { O.has_failed output.old ≡ not_checked ended }
    ensures printed { O.has_failed output.new ≡ false → (held text : List ℕ) → O.written output.old ≡ Some (held ++ text)
        → Prints (checked_after text ended) held (O.written output.new) result }
    ensures kept { O.has_failed output.new ≡ false → O.has_failed output.old ≡ false }
    ensures flag { O.has_failed output.new ≡ (result == 3) }
    ensures name { O.name output.new ≡ O.name output.old }
{
    match ended {
        Ok(true) => 0,
        Ok(false) => 1,
        Err(PrintFault::Fault(fault)) => print_fault(output, fault),
        Err(PrintFault::NotWritten) => 3,
    }
}

/// Checks the cases of the files that a plan names, with this book for cases that have no words of their own.
fn check_book<F: Files, O: Output>(
    alloc: Global,
    plan: &Check<'_>,
    book: &Book<Global>,
    files: &mut F,
    output: &mut O,
) -> u8
    requires writer { O.has_failed output.old ≡ false }
    ensures printed { F.is_printed files.old ≡ true → O.has_failed output.new ≡ false
        → PrintsSome (λ t. IsChecked (F.file files.old) (record { config = plan.now.config; book = book.now }) (map (λ n. n.now) plan.now.files.items) t)
        (O.written output.old) (O.written output.new) result }
    ensures flag { O.has_failed output.new ≡ (result == 3) }
    ensures name { O.name output.new ≡ O.name output.old }
    ensures same_files { F.file files.new ≡ F.file files.old }
{
    let config = plan.config;
    let common = Common { config, book };
    let ended = check_files(alloc, common, plan.files.as_slice(), files, output);
    print_checked(output, ended)
}

/// Whether words name no file by a path.
fn is_no_file(path: &str) -> bool
    ensures { result ≡ is_none path.now }
{
    path.as_bytes().is_empty()
}

/// Makes the book of cases that have no words of their own, and checks the cases of the files, or writes them anew.
pub fn check_plan<F: Files, O: Output, E: Output>(
    alloc: Global,
    plan: &Check<'_>,
    files: &mut F,
    output: &mut O,
    errors: &mut E,
) -> u8
    requires writer { O.has_failed output.old ≡ false }
    ensures printed { plan.now.bless ≡ false → plan.now.junit.now ≡ [] → F.is_printed files.old ≡ true → O.has_failed output.new ≡ false
        → EndsCheck (F.file files.old) plan.now.config (book_asked plan.now.book) (map (λ n. n.now) plan.now.files.items)
        (O.written output.old) (O.written output.new) result }
    ensures junit { plan.now.bless ≡ false → is_none plan.now.junit.now ≡ false
        → F.is_printed files.old ≡ true → O.has_failed output.new ≡ false
        → EndsJUnit (F.file files.old) plan.now.config (book_asked plan.now.book) (map (λ n. n.now) plan.now.files.items) plan.now.junit.now
        (F.file files.new) (O.written output.old) (O.written output.new) result }
    ensures alone { plan.now.bless ≡ false → F.is_printed files.old ≡ true → ChangesAlone plan.now.junit.now (F.file files.old) (F.file files.new) }
    ensures flag { O.has_failed output.new ≡ (result == 3) }
    ensures name { O.name output.new ≡ O.name output.old }
    ensures quiet { plan.now.book.why ≡ false → errors.new ≡ errors.old }
    ensures errors { E.name errors.new ≡ E.name errors.old }
    ensures same_files { writes_for plan.now.bless plan.now.in_place plan.now.junit.now ≡ false → F.file files.new ≡ F.file files.old }
    ensures blesses { plan.now.bless ≡ true → F.is_printed files.old ≡ true → EndsBless (F.file files.old) plan.now.config (book_asked plan.now.book)
        plan.now.in_place (map (λ n. n.now) plan.now.files.items) (F.file files.new) (O.written output.old) (O.written output.new) result }
{
    match book_for_words(alloc, &plan.book, files, errors) {
        Ok(book) => {
            if plan.bless {
                return print_blessed(alloc, plan, &book, files, output, errors);
            }
            if is_no_file(plan.junit) {
                return check_book(alloc, plan, &book, files, output);
            }
            check_junit(alloc, plan, &book, files, output, errors)
        }
        Err(fault) => print_fault(output, fault),
    }
}
