//! The program: the results of the cases of files, and after them the rules that were broken. Definitions:
//! `specs/Program.antt`.

ghost use Rattle.std.specs.Prelude.{◌≡◌, ◌==◌, ◌<◌, List, ℕ, Some, IfOk, OnErr, OnOk, false, map, true};
ghost use Rattle.std.specs.Io.KnownBytes.{Appends};
ghost use Rattle.h2_cmd_check.specs.JUnit.{results_in};
ghost use Rattle.h2_cmd_batch.specs.CommandEnd.{Prints, PrintsSome};
ghost use Rattle.h2_cmd_batch.specs.Results.{ChangesAlone};
ghost use Rattle.h2_cmd_against.specs.Files.{trial_of};
ghost use Rattle.h2_cmd_against.specs.Program.{CutsSuites, GainsSuites, IsEnd, IsFiled, IsSuite, is_unwritten, status_of};
ghost use Rattle.h2_cmd_against.specs.Results.{is_passed};

use crate::cases::Bench;
use crate::files::judge_file;
use crate::results::SoFar;
use h2_cmd_args::command::Against;
use h2_cmd_batch::{BenchFault, print_fault, write_results};
use h2_cmd_book_file::Files;
use h2_cmd_check::{Suite, junit_text};
use h2_cmd_exchange::link::Link;
use h2_io::Output;
use std::alloc::{AllocError, Global};

/// Why results are not all written.
#[derive(Clone, Copy)]
pub enum Stop {
    /// Memory was refused.
    NoMemory,
    /// A write failed.
    NotWritten,
}

/// The results of the cases of a file.
fn suite_of<'n, F: Files, L: Link>(
    alloc: Global,
    bench: Bench<'_>,
    files: &mut F,
    link: &mut L,
    file: &'n str,
    so_far: &mut SoFar,
) -> Result<Suite<'n>, AllocError>
    ensures results { F.is_printed files.old ≡ true → IfOk result (λ suite.
        IsSuite (trial_of (F.file files.old) bench.entry) so_far.old (L.log link.old) file.now (results_in suite) so_far.new (L.log link.new)) }
    ensures same_printed { F.is_printed files.new ≡ F.is_printed files.old }
    ensures same_files { F.file files.new ≡ F.file files.old }
{
    let _text = so_far.take_text(alloc);
    judge_file(alloc, bench, files, link, file, so_far)?;
    let results = so_far.take_text(alloc);
    Ok(Suite { file, results })
}

/// Writes the results of the cases of a file.
fn print_file<'n, F: Files, L: Link, O: Output>(
    alloc: Global,
    bench: Bench<'_>,
    files: &mut F,
    link: &mut L,
    file: &'n str,
    so_far: &mut SoFar,
    output: &mut O,
) -> Result<Suite<'n>, Stop>
    requires writer { O.has_failed output.old ≡ false }
    ensures results { F.is_printed files.old ≡ true → IfOk result (λ suite.
        IsSuite (trial_of (F.file files.old) bench.entry) so_far.old (L.log link.old) file.now (results_in suite) so_far.new (L.log link.new)) }
    ensures written { IfOk result (λ suite. Appends (O.written output.old) (O.written output.new) suite.results.items) }
    ensures kept { O.has_failed output.new ≡ false → OnErr result (O.written output.new ≡ O.written output.old) }
    ensures flag { O.has_failed output.new ≡ is_unwritten result }
    ensures same_printed { F.is_printed files.new ≡ F.is_printed files.old }
    ensures same_files { F.file files.new ≡ F.file files.old }
{
    match suite_of(alloc, bench, files, link, file, so_far) {
        Ok(suite) => match output.write(suite.results.as_slice()) {
            Ok(()) => Ok(suite),
            Err(_) => Err(Stop::NotWritten),
        },
        Err(_) => Err(Stop::NoMemory),
    }
}

/// Writes the results of the cases of files, one after another.
///
/// `NoMemory` where memory is refused: those of some first files were written. `NotWritten` where a write failed.
pub fn print_files<'n, F: Files, L: Link, O: Output>(
    alloc: Global,
    bench: Bench<'_>,
    names: &[&'n str],
    files: &mut F,
    link: &mut L,
    so_far: &mut SoFar,
    output: &mut O,
) -> Result<Vec<Suite<'n>>, Stop>
    requires writer { O.has_failed output.old ≡ false }
    ensures results { F.is_printed files.old ≡ true → IfOk result (λ suites.
        GainsSuites false (trial_of (F.file files.old) bench.entry) so_far.old (L.log link.old)
        (map (λ n. n.now) names.now) (map results_in suites.items) so_far.new (L.log link.new) (O.written output.old) (O.written output.new)) }
    ensures cut { F.is_printed files.old ≡ true → O.has_failed output.new ≡ false
        → OnErr result (CutsSuites (trial_of (F.file files.old) bench.entry) so_far.old (L.log link.old)
        (map (λ n. n.now) names.now) (O.written output.old) (O.written output.new)) }
    ensures flag { O.has_failed output.new ≡ is_unwritten result }
    ensures same_printed { F.is_printed files.new ≡ F.is_printed files.old }
    ensures same_files { F.file files.new ≡ F.file files.old }
{
    let mut suites = Vec::new(alloc);
    for file in names {
        let suite = print_file(alloc, bench, files, link, file, so_far, output)?;
        match suites.push(suite) {
            Ok(()) => {}
            Err(_) => return Err(Stop::NoMemory),
        }
    }
    Ok(suites)
}

/// Writes results as JUnit XML to the file that a plan names, if it names one. Where it can't be written, `errors` gets a sentence.
fn write_junit<F: Files, E: Output>(
    alloc: Global,
    plan: &Against<'_>,
    suites: &[Suite<'_>],
    files: &mut F,
    errors: &mut E,
) -> Result<(), BenchFault>
    ensures filed { F.is_printed files.old ≡ true → OnOk result (IsFiled plan.now.junit.now (F.file files.old) (map results_in suites.now) (F.file files.new)) }
    ensures kept { OnErr result (F.file files.new ≡ F.file files.old) }
    ensures alone { F.is_printed files.old ≡ true → ChangesAlone plan.now.junit.now (F.file files.old) (F.file files.new) }
{
    if plan.junit.is_empty() {
        return Ok(());
    }
    match junit_text(alloc, suites) {
        Ok(text) => {
            let why = plan.book.why;
            write_results(alloc, plan.junit, text.as_slice(), why, files, errors)
        }
        Err(_) => Err(BenchFault::NoMemory),
    }
}

/// The status where nothing failed: 0 where no rule is broken and each case can be played.
fn status_of(so_far: &SoFar) -> u8
    ensures value { result ≡ status_of (is_passed so_far.now.counts) }
    ensures small { result < 3 }
{
    if so_far.counts.is_passed() { 0 } else { 1 }
}

/// Writes octets. Gives this status, or 3 where that failed.
fn print_octets<O: Output>(output: &mut O, octets: &[u8], status: u8) -> u8
    requires writer { O.has_failed output.old ≡ false }
    requires small { status < 3 }
    ensures printed { O.has_failed output.new ≡ false → (held : List ℕ) → O.written output.old ≡ Some held
        → Prints (record { text = octets.now; status = status }) held (O.written output.new) result }
    ensures flag { O.has_failed output.new ≡ (result == 3) }
{
    match output.write(octets) {
        Ok(()) => status,
        Err(_) => 3,
    }
}

/// Writes the lines after the results, and before them the results to the file that is to have them. Gives the status.
pub fn print_end<F: Files, O: Output, E: Output>(
    alloc: Global,
    plan: &Against<'_>,
    so_far: &SoFar,
    suites: &[Suite<'_>],
    files: &mut F,
    output: &mut O,
    errors: &mut E,
) -> u8
    requires writer { O.has_failed output.old ≡ false }
    ensures printed { F.is_printed files.old ≡ true → O.has_failed output.new ≡ false
        → PrintsSome (λ t. IsEnd plan.now.junit.now (F.file files.old) so_far.now (map results_in suites.now) (F.file files.new) t)
        (O.written output.old) (O.written output.new) result }
    ensures alone { F.is_printed files.old ≡ true → ChangesAlone plan.now.junit.now (F.file files.old) (F.file files.new) }
    ensures flag { O.has_failed output.new ≡ (result == 3) }
{
    let text = match so_far.end(alloc) {
        Ok(text) => text,
        Err(_) => return print_fault(output, BenchFault::NoMemory),
    };
    match write_junit(alloc, plan, suites, files, errors) {
        Ok(()) => print_octets(output, text.as_slice(), status_of(so_far)),
        Err(fault) => print_fault(output, fault),
    }
}
