//! What a case is played with: its limits, its settings and its book, which its own words may say. Definitions:
//! `specs/CaseSetups.antt`.

ghost use Rattle.std.specs.Prelude.{◌≡◌, ◌⊎◌, [], Option, Some, None, true, map, unwrap_or, IfErr, IfOk, OnOk};
ghost use Rattle.std.specs.Path.{path_buf_bytes, path_bytes, path_parent};
ghost use Rattle.h2_cmd_cases.specs.CaseWords.{have_idle};
ghost use Rattle.h2_cmd_args.specs.Grammar.{asked_of};
ghost use Rattle.h2_cmd_args.specs.Plans.{book_asked, planned};
ghost use Rattle.h2_cmd_batch.specs.Books.{book_said};
ghost use Rattle.h2_cmd_batch.specs.CaseSetups.{RefusesSetup, book_place, first_words, setup_asked, setup_by, setup_of, setup_with, setup_worded, words_line};
ghost use Rattle.h2_cmd_batch.specs.declared.fault.BenchFault.TheVariants.{NoMemory};
ghost use Rattle.h2_cmd_batch.specs.declared.case_setup.CaseSetup.{CaseSetup};

use crate::books::book_for_words;
use crate::fault::BenchFault;
use h2_cmd_args::Words;
use h2_cmd_args::command::{BookWords, Debug, Plan, Refusal, parse};
use h2_cmd_book_file::Files;
use h2_cmd_cases::{ShellFault, add_case_words, before_words, idle_place};
use h2_io::Gathered;
use h2_request_book::book::Book;
use h2_spec::connection::Config;
use std::alloc::{AllocError, Global};
use std::path::{Path, PathBuf};
use std::str;

/// A case of a file.
#[derive(Clone, Copy)]
pub struct Case<'c, 't> {
    pub file: &'c str,
    pub lines: &'c [&'t [u8]],
    /// The number of its first line, from 1.
    pub number: usize,
}

/// The limits, the settings and the book of cases that have no words of their own.
#[derive(Clone, Copy)]
pub struct Common<'c> {
    pub config: Config,
    pub book: &'c Book<Global>,
}

/// What a case with words of its own is played with.
#[derive(Drop)]
pub struct CaseSetup {
    pub config: Config,
    pub book: Book<Global>,
}

/// Why the words of a case are refused.
#[derive(Drop)]
pub struct RefusedWords {
    /// The number of the line that has them, in the case's file.
    pub line: usize,
    /// Why, in words.
    pub why: String,
}

/// Why a case is not played.
#[derive(Drop)]
pub enum OwnFault {
    /// Memory was refused.
    NoMemory,
    /// Its words are refused.
    Refused(RefusedWords),
}

/// The number of the first line of a case that has words.
pub fn words_line(case: Case<'_, '_>) -> usize
    ensures { result ≡ words_line case.entry.number (map (λ l. l.now) case.entry.lines.now) }
{
    let before = before_words(case.lines);
    if before < case.lines.len() {
        case.number.saturating_add(before)
    } else {
        case.number
    }
}

/// Says that the words of a line are refused, and why.
fn refused_at(alloc: Global, line: usize, why: &str) -> OwnFault
    ensures { (setup : Option CaseSetup) → setup ≡ None → RefusesSetup setup result }
{
    match String::from_str(alloc, why) {
        Ok(why) => OwnFault::Refused(RefusedWords { line, why }),
        Err(_) => OwnFault::NoMemory,
    }
}

/// Says that the words of a case are refused, and why.
fn refused(alloc: Global, case: Case<'_, '_>, why: &str) -> OwnFault
    ensures { (setup : Option CaseSetup) → setup ≡ None → RefusesSetup setup result }
{
    refused_at(alloc, words_line(case), why)
}

/// The first line of a text.
fn first_line(text: &str) -> &str {
    match text.split_once('\n') {
        Some((line, _)) => line,
        None => text,
    }
}

/// The first line that was written.
fn said_in(gathered: &Gathered) -> &str {
    match str::from_utf8(gathered.octets.as_slice()) {
        Ok(text) => first_line(text),
        Err(_) => "an answer is refused",
    }
}

/// The directory of a file; empty where its path names none.
fn directory_of(file: &str) -> Path<'_>
    ensures { path_bytes result ≡ unwrap_or (path_parent file.now) [] }
{
    match Path::new(file).parent() {
        Some(directory) => directory,
        None => Path::new(""),
    }
}

/// The path of the book that a case's words name; empty where they name none.
fn book_place(alloc: Global, file: &str, book: &str) -> Result<PathBuf, AllocError>
    ensures { IfOk result (λ place. path_buf_bytes place ≡ book_place file.now book.now) }
{
    if book.is_empty() {
        return Ok(PathBuf::new(alloc));
    }
    directory_of(file).join(alloc, book)
}

/// Why a case is not played whose book has a fault, which these words say.
fn book_refused(alloc: Global, case: Case<'_, '_>, fault: BenchFault, why: &str) -> OwnFault
    ensures { (setup : Option CaseSetup) → (fault ≡ NoMemory) ⊎ (setup ≡ None) → RefusesSetup setup result }
{
    match fault {
        BenchFault::NoMemory => OwnFault::NoMemory,
        BenchFault::BadEntry(_)
        | BenchFault::BadConfig
        | BenchFault::Read
        | BenchFault::Write
        | BenchFault::BadHex
        | BenchFault::BadAnswer
        | BenchFault::BadCommand
        | BenchFault::Socket => refused(alloc, case, why),
    }
}

/// The limits, the settings and the book that these words say.
fn own_book<F: Files>(
    alloc: Global,
    files: &mut F,
    case: Case<'_, '_>,
    config: Config,
    words: &BookWords<'_>,
) -> Result<CaseSetup, OwnFault>
    ensures ok { F.is_printed files.old ≡ true → IfOk result (λ own. setup_with config (book_said (F.file files.old) (book_asked words.now)) ≡ Some own) }
    ensures err { F.is_printed files.old ≡ true → IfErr result (RefusesSetup (setup_with config (book_said (F.file files.old) (book_asked words.now)))) }
    ensures same_printed { F.is_printed files.new ≡ F.is_printed files.old }
    ensures same_files { F.file files.new ≡ F.file files.old }
{
    let mut why = Gathered::new(alloc);
    match book_for_words(alloc, words, files, &mut why) {
        Ok(book) => Ok(CaseSetup { config, book }),
        Err(fault) => Err(book_refused(alloc, case, fault, said_in(&why))),
    }
}

/// The limits, the settings and the book of a plan that plays one connection.
fn own_plan<F: Files>(
    alloc: Global,
    files: &mut F,
    case: Case<'_, '_>,
    plan: Debug<'_>,
) -> Result<CaseSetup, OwnFault>
    ensures ok { F.is_printed files.old ≡ true → IfOk result (λ own.
        setup_by (F.file files.old) case.entry.file.now plan.entry.config (book_asked plan.entry.book) ≡ Some own) }
    ensures err { F.is_printed files.old ≡ true → IfErr result (RefusesSetup
        (setup_by (F.file files.old) case.entry.file.now plan.entry.config (book_asked plan.entry.book))) }
    ensures same_printed { F.is_printed files.new ≡ F.is_printed files.old }
    ensures same_files { F.file files.new ≡ F.file files.old }
{
    if plan.book.file == "-" {
        let why = "--book - reads standard input; the book of a case is a file";
        return Err(refused(alloc, case, why));
    }
    match book_place(alloc, case.file, plan.book.file) {
        Ok(place) => {
            let book = BookWords {
                file: place.as_str(),
                why: true,
                answers: plan.book.answers,
            };
            own_book(alloc, files, case, plan.config, &book)
        }
        Err(_) => Err(OwnFault::NoMemory),
    }
}

/// The limits, the settings and the book of a plan; a plan that does not play one connection is refused.
fn own_asked<F: Files>(
    alloc: Global,
    files: &mut F,
    case: Case<'_, '_>,
    plan: Plan<'_>,
) -> Result<CaseSetup, OwnFault>
    ensures ok { F.is_printed files.old ≡ true → IfOk result (λ own.
        setup_asked (F.file files.old) case.entry.file.now (Some (planned plan.entry)) ≡ Some own) }
    ensures err { F.is_printed files.old ≡ true → IfErr result (RefusesSetup (setup_asked (F.file files.old) case.entry.file.now (Some (planned plan.entry)))) }
    ensures same_printed { F.is_printed files.new ≡ F.is_printed files.old }
    ensures same_files { F.file files.new ≡ F.file files.old }
{
    match plan {
        Plan::Debug(plan) => own_plan(alloc, files, case, plan),
        Plan::Batch(_) | Plan::Serve(_) | Plan::Explain(_) | Plan::Check(_) | Plan::Against(_) => {
            Err(refused(alloc, case, "other words"))
        }
    }
}

/// The limits, the settings and the book of these words of a command line.
fn own_parsed<F: Files>(
    alloc: Global,
    files: &mut F,
    case: Case<'_, '_>,
    words: &Words,
) -> Result<CaseSetup, OwnFault>
    ensures ok { F.is_printed files.old ≡ true → IfOk result (λ own. setup_asked (F.file files.old) case.entry.file.now (asked_of words.now) ≡ Some own) }
    ensures err { F.is_printed files.old ≡ true → IfErr result (RefusesSetup (setup_asked (F.file files.old) case.entry.file.now (asked_of words.now))) }
    ensures same_printed { F.is_printed files.new ≡ F.is_printed files.old }
    ensures same_files { F.file files.new ≡ F.file files.old }
{
    match parse(alloc, words) {
        Ok(plan) => own_asked(alloc, files, case, plan),
        Err(Refusal::Words(text)) => Err(refused(alloc, case, first_line(text.as_str()))),
        Err(Refusal::NoMemory) => Err(OwnFault::NoMemory),
    }
}

/// Puts the words that are before those of a case: the program's name, and a command that plays one connection.
fn add_first_words(words: &mut Words) -> Result<(), AllocError>
    requires { words.old ≡ [] }
    ensures { OnOk result (words.new ≡ first_words) }
{
    words.add("h2_bench")?;
    words.add("debug")
}

/// The limits, the settings and the book that the lines of a case say, none of whose words is idle.
fn own_worded<F: Files>(
    alloc: Global,
    files: &mut F,
    case: Case<'_, '_>,
) -> Result<CaseSetup, OwnFault>
    ensures ok { F.is_printed files.old ≡ true → IfOk result (λ own.
        setup_worded (F.file files.old) case.entry.file.now (map (λ l. l.now) case.entry.lines.now) ≡ Some own) }
    ensures err { F.is_printed files.old ≡ true → IfErr result (RefusesSetup
        (setup_worded (F.file files.old) case.entry.file.now (map (λ l. l.now) case.entry.lines.now))) }
    ensures same_printed { F.is_printed files.new ≡ F.is_printed files.old }
    ensures same_files { F.file files.new ≡ F.file files.old }
{
    let mut words = Words::new(alloc);
    match add_first_words(&mut words) {
        Ok(()) => {}
        Err(_) => return Err(OwnFault::NoMemory),
    }
    match add_case_words(alloc, case.lines, &mut words) {
        Ok(()) => own_parsed(alloc, files, case, &words),
        Err(ShellFault::NoMemory) => Err(OwnFault::NoMemory),
        Err(ShellFault::Open) => Err(refused(alloc, case, "a quote is not closed")),
    }
}

/// The limits, the settings and the book that the lines of a case say.
///
/// # Errors
///
/// `Refused` where a word has no effect in a case, where the words are none of a command, or where its book is refused;
/// `NoMemory` may come before.
pub fn own_of<F: Files>(
    alloc: Global,
    files: &mut F,
    case: Case<'_, '_>,
) -> Result<CaseSetup, OwnFault>
    ensures ok { F.is_printed files.old ≡ true → IfOk result (λ own.
        setup_of (F.file files.old) case.entry.file.now (map (λ l. l.now) case.entry.lines.now) ≡ Some own) }
    ensures err { F.is_printed files.old ≡ true → IfErr result (RefusesSetup
        (setup_of (F.file files.old) case.entry.file.now (map (λ l. l.now) case.entry.lines.now))) }
    ensures same_printed { F.is_printed files.new ≡ F.is_printed files.old }
    ensures same_files { F.file files.new ≡ F.file files.old }
{
    match idle_place(alloc, case.lines) {
        Ok(None) => own_worded(alloc, files, case),
        Ok(Some(place)) => {
            let line = case.number.saturating_add(place);
            let why = "--in, --raw, --prompt and --quiet have no effect in a case";
            Err(refused_at(alloc, line, why))
        }
        Err(_) => Err(OwnFault::NoMemory),
    }
}
