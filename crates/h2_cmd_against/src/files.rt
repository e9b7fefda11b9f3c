//! The results of the cases of a file. Definitions: `specs/Files.antt`.

ghost use Rattle.std.specs.Prelude.{◌≡◌, ◌≤◌, Ok, OnOk, drop, false, length, map, take, true};
ghost use Rattle.std.specs.Str.{is_utf8};
ghost use Rattle.h2_cmd_cases.specs.Files.{cases_in};
ghost use Rattle.h2_cmd_against.specs.Files.{JudgesAll, RefusesFile, cases_if, cases_with, trial_of};

use crate::cases::{Bench, judge_case};
use crate::ends::{CaseEnd, Refusal};
use crate::results::SoFar;
use h2_cmd_batch::Case;
use h2_cmd_book_file::{Files, FilesFault};
use h2_cmd_cases::{case_length, lines_in, preamble_length};
use h2_cmd_check::Title;
use h2_cmd_exchange::link::Link;
use h2_io::MAX_INPUT;
use std::alloc::{AllocError, Global};
use std::str;

/// The lines from a place on.
fn lines_from<'c, 't>(lines: &'c [&'t [u8]], first: usize) -> &'c [&'t [u8]]
    requires { first ≤ length lines.now }
    ensures { result.now ≡ drop first lines.now }
{
    &lines[first..]
}

/// This many first lines.
fn first_lines<'c, 't>(lines: &'c [&'t [u8]], count: usize) -> &'c [&'t [u8]]
    requires { count ≤ length lines.now }
    ensures { result.now ≡ take count lines.now }
{
    &lines[..count]
}

/// Adds the results of the cases of a file's lines.
fn judge_lines<F: Files, L: Link>(
    alloc: Global,
    bench: Bench<'_>,
    files: &mut F,
    link: &mut L,
    file: &str,
    lines: &[&[u8]],
    so_far: &mut SoFar,
) -> Result<(), AllocError>
    ensures results { F.is_printed files.old ≡ true → OnOk result (JudgesAll (trial_of (F.file files.old) bench.entry) file.now
        (map (λ c. Ok c) (cases_in (map (λ l. l.now) lines.now))) so_far.old (L.log link.old) so_far.new (L.log link.new)) }
    ensures same_printed { F.is_printed files.new ≡ F.is_printed files.old }
    ensures same_files { F.file files.new ≡ F.file files.old }
{
    let mut first = preamble_length(lines);
    while first < lines.len() {
        let rest = lines_from(lines, first);
        let length = case_length(rest);
        let number = first + 1;
        let case = Case {
            file,
            lines: first_lines(rest, length),
            number,
        };
        judge_case(alloc, bench, files, link, case, so_far)?;
        first += length;
    }
    Ok(())
}

/// Adds the result of a file that has no cases, for this reason.
fn refuse_file(
    alloc: Global,
    file: &str,
    why: Refusal,
    so_far: &mut SoFar,
) -> Result<(), AllocError>
    ensures { OnOk result (RefusesFile why file.now so_far.old so_far.new) }
{
    let title = Title { file, title: None };
    so_far.add(alloc, title, &[], &CaseEnd::Refused(why))
}

/// Whether octets are UTF-8.
fn is_text(octets: &[u8]) -> bool
    ensures { result ≡ is_utf8 octets.now }
{
    match str::from_utf8(octets) {
        Ok(_) => true,
        Err(_) => false,
    }
}

/// Adds the results of the cases of a text.
fn judge_text<F: Files, L: Link>(
    alloc: Global,
    bench: Bench<'_>,
    files: &mut F,
    link: &mut L,
    file: &str,
    text: &[u8],
    so_far: &mut SoFar,
) -> Result<(), AllocError>
    ensures results { F.is_printed files.old ≡ true → OnOk result (JudgesAll (trial_of (F.file files.old) bench.entry) file.now
        (cases_if false (is_utf8 text.now) text.now) so_far.old (L.log link.old) so_far.new (L.log link.new)) }
    ensures same_printed { F.is_printed files.new ≡ F.is_printed files.old }
    ensures same_files { F.file files.new ≡ F.file files.old }
{
    if !is_text(text) {
        return refuse_file(alloc, file, Refusal::NoText, so_far);
    }
    let lines = lines_in(alloc, text)?;
    judge_lines(alloc, bench, files, link, file, lines.as_slice(), so_far)
}

/// Adds the results of the cases of a file.
///
/// `AllocError` where memory is refused.
pub fn judge_file<F: Files, L: Link>(
    alloc: Global,
    bench: Bench<'_>,
    files: &mut F,
    link: &mut L,
    file: &str,
    so_far: &mut SoFar,
) -> Result<(), AllocError>
    ensures results { F.is_printed files.old ≡ true → OnOk result (JudgesAll (trial_of (F.file files.old) bench.entry) file.now
        (cases_with (F.file files.old file.now)) so_far.old (L.log link.old) so_far.new (L.log link.new)) }
    ensures same_printed { F.is_printed files.new ≡ F.is_printed files.old }
    ensures same_files { F.file files.new ≡ F.file files.old }
{
    match files.read(alloc, file, MAX_INPUT) {
        Ok(text) => judge_text(alloc, bench, files, link, file, text.as_slice(), so_far),
        Err(FilesFault::NoMemory) => Err(AllocError),
        Err(FilesFault::Failed) => refuse_file(alloc, file, Refusal::Unread, so_far),
        Err(FilesFault::TooLong) => refuse_file(alloc, file, Refusal::TooLong, so_far),
    }
}
