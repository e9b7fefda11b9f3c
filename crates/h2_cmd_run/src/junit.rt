//! `check --junit FILE`: the results of cases, which FILE has as JUnit XML too. Definitions: `specs/JUnitProgram.antt`, over
//! `specs/JUnit.antt` of h2_cmd_check.

ghost use Rattle.std.specs.Prelude.{◌≡◌, ◌==◌, true, false, List, ℕ, Some, map, IfOk};
ghost use Rattle.h2_cmd_check.specs.JUnit.{results_in};
ghost use Rattle.h2_cmd_run.specs.CheckProgram.{AreReported, checked_after, common_of, not_checked, subjects_of};
ghost use Rattle.h2_cmd_run.specs.JUnitProgram.{AreSuites, IsJUnit, IsPrintedOr};
ghost use Rattle.h2_cmd_batch.specs.Results.{ChangesAlone};
ghost use Rattle.h2_cmd_batch.specs.CommandEnd.{Prints, PrintsSome};

use crate::check::{CaseTally, check_file, print_checked, write};
use h2_cmd_args::command::Check;
use h2_cmd_batch::{BenchFault, Common, PrintFault, print_fault, write_results};
use h2_cmd_book_file::Files;
use h2_cmd_check::{Suite, junit_text, tap_text};
use h2_io::{Gathered, Output};
use h2_request_book::book::Book;
use std::alloc::{AllocError, Global};

/// The results of the cases of a file.
fn suite_of<'n, F: Files>(
    alloc: Global,
    common: Common<'_>,
    files: &mut F,
    file: &'n str,
    tally: &mut CaseTally,
) -> Result<Suite<'n>, AllocError>
    ensures reports { F.is_printed files.old ≡ true → IfOk result (λ suite. (suite.file.now ≡ file.now)
        × AreReported false (F.file files.old) (common_of common.entry) tally.old (subjects_of (F.file files.old) file.now) suite.results.items tally.new) }
    ensures same_printed { F.is_printed files.new ≡ F.is_printed files.old }
    ensures same_files { F.file files.new ≡ F.file files.old }
{
    let mut results = Gathered::new(alloc);
    match check_file(alloc, common, files, file, tally, &mut results) {
        Ok(()) => Ok(Suite {
            file,
            results: results.octets,
        }),
        Err(_) => Err(AllocError),
    }
}

/// Those of the cases of files, in their order.
fn suites_of<'n, F: Files>(
    alloc: Global,
    common: Common<'_>,
    files: &mut F,
    names: &[&'n str],
    tally: &mut CaseTally,
) -> Result<Vec<Suite<'n>>, AllocError>
    ensures reports { F.is_printed files.old ≡ true → IfOk result (λ suites.
        AreSuites (F.file files.old) (common_of common.entry) tally.old (map (λ n. n.now) names.now) (map results_in suites.items) tally.new) }
    ensures same_printed { F.is_printed files.new ≡ F.is_printed files.old }
    ensures same_files { F.file files.new ≡ F.file files.old }
{
    let mut suites = Vec::new(alloc);
    for file in names {
        let suite = suite_of(alloc, common, files, file, tally)?;
        match suites.push(suite) {
            Ok(()) => {}
            Err(_) => return Err(AllocError),
        }
    }
    Ok(suites)
}

/// Writes results, and then what remains to say of them. Gives the status.
fn print_results<O: Output>(output: &mut O, text: &[u8], ended: Result<bool, PrintFault>) -> u8
    requires writer { O.has_failed output.old ≡ false }
    requires well { not_checked ended ≡ false }
    ensures printed { O.has_failed output.new ≡ false → (held : List ℕ) → O.written output.old ≡ Some held
        → Prints (checked_after text.now ended) held (O.written output.new) result }
    ensures flag { O.has_failed output.new ≡ (result == 3) }
    ensures name { O.name output.new ≡ O.name output.old }
{
    match write(output, text) {
        Ok(()) => print_checked(output, ended),
        Err(_) => 3,
    }
}

/// Writes the results of the files of cases as XML to the FILE of `--junit`, and then prints them as TAP. Returns the status.
fn print_suites<F: Files, O: Output, E: Output>(
    alloc: Global,
    plan: &Check<'_>,
    suites: &[Suite<'_>],
    tally: CaseTally,
    files: &mut F,
    output: &mut O,
    errors: &mut E,
) -> u8
    requires writer { O.has_failed output.old ≡ false }
    ensures printed { F.is_printed files.old ≡ true → O.has_failed output.new ≡ false
        → PrintsSome (λ p. IsPrintedOr (F.file files.old) plan.now.junit.now (map results_in suites.now) tally (F.file files.new) p)
        (O.written output.old) (O.written output.new) result }
    ensures alone { F.is_printed files.old ≡ true → ChangesAlone plan.now.junit.now (F.file files.old) (F.file files.new) }
    ensures flag { O.has_failed output.new ≡ (result == 3) }
    ensures name { O.name output.new ≡ O.name output.old }
    ensures quiet { plan.now.book.why ≡ false → errors.new ≡ errors.old }
    ensures errors { E.name errors.new ≡ E.name errors.old }
{
    let tap = match tap_text(alloc, suites, tally.count) {
        Ok(tap) => tap,
        Err(_) => return print_fault(output, BenchFault::NoMemory),
    };
    let xml = match junit_text(alloc, suites) {
        Ok(xml) => xml,
        Err(_) => return print_fault(output, BenchFault::NoMemory),
    };
    match write_results(
        alloc,
        plan.junit,
        xml.as_slice(),
        plan.book.why,
        files,
        errors,
    ) {
        Ok(()) => print_results(output, tap.as_slice(), Ok(tally.all_hold)),
        Err(fault) => print_results(output, tap.as_slice(), Err(PrintFault::Fault(fault))),
    }
}

/// Checks the cases of the files that a plan names, with this book for cases that have no words of their own: writes their
/// results as JUnit XML, and then prints them. Gives the status. Why the file was not written is written to `errors`.
pub(crate) fn check_junit<F: Files, O: Output, E: Output>(
    alloc: Global,
    plan: &Check<'_>,
    book: &Book<Global>,
    files: &mut F,
    output: &mut O,
    errors: &mut E,
) -> u8
    requires writer { O.has_failed output.old ≡ false }
    ensures printed { F.is_printed files.old ≡ true → O.has_failed output.new ≡ false
        → PrintsSome (λ p. IsJUnit (F.file files.old) (record { config = plan.now.config; book = book.now }) (map (λ n. n.now) plan.now.files.items) plan.now.junit.now (F.file files.new) p)
        (O.written output.old) (O.written output.new) result }
    ensures alone { F.is_printed files.old ≡ true → ChangesAlone plan.now.junit.now (F.file files.old) (F.file files.new) }
    ensures flag { O.has_failed output.new ≡ (result == 3) }
    ensures name { O.name output.new ≡ O.name output.old }
    ensures quiet { plan.now.book.why ≡ false → errors.new ≡ errors.old }
    ensures errors { E.name errors.new ≡ E.name errors.old }
{
    let config = plan.config;
    let common = Common { config, book };
    let mut tally = CaseTally::new();
    match suites_of(alloc, common, files, plan.files.as_slice(), &mut tally) {
        Ok(suites) => print_suites(alloc, plan, suites.as_slice(), tally, files, output, errors),
        Err(_) => print_fault(output, BenchFault::NoMemory),
    }
}
