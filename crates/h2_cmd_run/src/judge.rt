//! The verdict on a case of a file, as a value. Definitions: `specs/CheckProgram.antt`, over those of h2_cmd_check.

ghost use Rattle.std.specs.Prelude.{◌≡◌, true, map, IfOk};
ghost use Rattle.h2_cmd_check.specs.Cases.{Fails};
ghost use Rattle.h2_cmd_check.specs.Walks.{outcome_by};
ghost use Rattle.h2_cmd_batch.specs.CaseSetups.{setup_of};
ghost use Rattle.h2_cmd_run.specs.CheckProgram.{IsCaseOutcome, IsOutcomeOn, IsOutcomeWith, common_of};

use h2_cmd_batch::{Case, Common, OwnFault, own_of, words_line};
use h2_cmd_book_file::Files;
use h2_cmd_cases::have_words;
use h2_cmd_check::{CaseFault, CaseVerdict, Wrong, check_case};
use std::alloc::{AllocError, Global};

/// The verdict on a case that fails at a line, for a reason in words.
pub fn failed_at<'t>(
    alloc: Global,
    line: usize,
    wanted: &'static str,
    found: &str,
) -> Result<CaseVerdict<'t>, AllocError>
    ensures { IfOk result (λ verdict. outcome_by verdict ≡ Fails) }
{
    let mut wrongs = Vec::new(alloc);
    let found = String::from_str(alloc, found)?;
    wrongs.push(Wrong {
        line,
        wanted: wanted.as_bytes(),
        found,
        ended: None,
    })?;
    Ok(CaseVerdict::Fails(wrongs))
}

/// The verdict on a case whose words are refused.
fn refused<'t>(alloc: Global, line: usize, found: &str) -> Result<CaseVerdict<'t>, AllocError>
    ensures { IfOk result (λ verdict. outcome_by verdict ≡ Fails) }
{
    failed_at(alloc, line, "words of a command line", found)
}

/// The verdict on a case with this book, these limits and these settings.
fn judge_with<'t>(
    alloc: Global,
    common: Common<'_>,
    case: Case<'_, 't>,
) -> Result<CaseVerdict<'t>, AllocError>
    ensures { IfOk result (λ verdict. IsOutcomeWith common.entry.book.now common.entry.config (map (λ l. l.now) case.entry.lines.now) (outcome_by verdict)) }
{
    match check_case(alloc, common.book, common.config, case.lines, case.number) {
        Ok(verdict) => Ok(verdict),
        Err(CaseFault::BadConfig) => {
            let found = "a limit or a setting is out of range";
            refused(alloc, words_line(case), found)
        }
        Err(CaseFault::NoMemory) => Err(AllocError),
    }
}

/// The verdict on a case that has words of its own.
fn judge_worded<'t, F: Files>(
    alloc: Global,
    files: &mut F,
    case: Case<'_, 't>,
) -> Result<CaseVerdict<'t>, AllocError>
    ensures verdict { F.is_printed files.old ≡ true → IfOk result (λ verdict.
        IsOutcomeOn (setup_of (F.file files.old) case.entry.file.now (map (λ l. l.now) case.entry.lines.now)) (map (λ l. l.now) case.entry.lines.now) (outcome_by verdict)) }
    ensures same_printed { F.is_printed files.new ≡ F.is_printed files.old }
    ensures same_files { F.file files.new ≡ F.file files.old }
{
    match own_of(alloc, files, case) {
        Ok(own) => {
            let config = own.config;
            let common = Common {
                config,
                book: &own.book,
            };
            judge_with(alloc, common, case)
        }
        Err(OwnFault::NoMemory) => Err(AllocError),
        Err(OwnFault::Refused(words)) => refused(alloc, words.line, words.why.as_str()),
    }
}

/// The verdict on a case: with its own words where it has some, else with those of the command.
///
/// `AllocError` where memory is refused.
pub fn judge<'t, F: Files>(
    alloc: Global,
    common: Common<'_>,
    files: &mut F,
    case: Case<'_, 't>,
) -> Result<CaseVerdict<'t>, AllocError>
    ensures verdict { F.is_printed files.old ≡ true → IfOk result (λ verdict.
        IsCaseOutcome (F.file files.old) (common_of common.entry) case.entry.file.now (map (λ l. l.now) case.entry.lines.now) (outcome_by verdict)) }
    ensures same_printed { F.is_printed files.new ≡ F.is_printed files.old }
    ensures same_files { F.file files.new ≡ F.file files.old }
{
    if have_words(case.lines) {
        judge_worded(alloc, files, case)
    } else {
        judge_with(alloc, common, case)
    }
}
