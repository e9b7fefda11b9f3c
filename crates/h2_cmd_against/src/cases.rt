//! The result of a case of a file. Definitions: `specs/Files.antt`.

ghost use Rattle.std.specs.Prelude.{◌≡◌, [], OnOk, map, option_map, true};
ghost use Rattle.h2_cmd_cases.specs.Files.{title_in};
ghost use Rattle.h2_cmd_batch.specs.CaseSetups.{setup_of};
ghost use Rattle.h2_cmd_against.specs.Files.{JudgesCase, JudgesItems, JudgesOctets, JudgesSent, JudgesSetup, is_tag, is_tagged, text_of, trial_of};
ghost use Rattle.h2_cmd_against.specs.declared.ends.CaseEnd.TheVariants.{Refused};
ghost use Rattle.h2_cmd_against.specs.Results.{Adds};

use crate::aim::{Aim, aimed_octets};
use crate::ends::{CaseEnd, Refusal, end_with, skip_of};
use crate::results::SoFar;
use crate::server::Server;
use h2_cmd_batch::{Case, OwnFault, own_of};
use h2_cmd_book_file::Files;
use h2_cmd_cases::{have_words, title_of};
use h2_cmd_check::Title;
use h2_cmd_exchange::link::Link;
use h2_cmd_items::case::{CaseItems, case_items};
use h2_cmd_items::items::ItemsFault;
use h2_cmd_items::judging::limits_of;
use h2_cmd_items::sent::Sent;
use h2_request_book::book::Book;
use std::alloc::{AllocError, Global};

/// What cases are judged with.
#[derive(Clone, Copy)]
pub struct Bench<'b> {
    /// The book of cases that have no words of their own.
    pub book: &'b Book<Global>,
    pub server: &'b Server,
    /// Where requests go.
    pub aim: Aim<'b>,
    /// How many milliseconds without an octet end a wait of the first run.
    pub millis: u64,
}

/// Whether a line says that the RFC leaves a server more than this server does.
fn is_tag(line: &[u8]) -> bool
    ensures { result ≡ is_tag line.now }
{
    line.starts_with(b"; Own: ".as_slice())
}

/// Whether a line of a case does.
fn is_tagged(lines: &[&[u8]]) -> bool
    ensures { result ≡ is_tagged (map (λ l. l.now) lines.now) }
{
    lines.iter().any(|line| is_tag(line))
}

/// What a case is called.
fn title<'c, 't>(case: Case<'c, 't>) -> Title<'c>
where
    't: 'c,
    ensures file { result.file.now ≡ case.entry.file.now }
    ensures title { option_map (λ t. t.now) result.title ≡ title_in (map (λ l. l.now) case.entry.lines.now) }
{
    Title {
        file: case.file,
        title: title_of(case.lines),
    }
}

/// Adds the result of a case with these items, of which this came.
fn add(
    alloc: Global,
    case: Case<'_, '_>,
    sent: &[Sent],
    end: &CaseEnd,
    so_far: &mut SoFar,
) -> Result<(), AllocError>
    ensures { OnOk result (Adds case.entry.file.now (title_in (map (λ l. l.now) case.entry.lines.now)) sent.now end.now so_far.old so_far.new) }
{
    so_far.add(alloc, title(case), sent, end)
}

/// Adds the result of a case that can't be played, for this reason.
fn refuse(
    alloc: Global,
    case: Case<'_, '_>,
    why: Refusal,
    so_far: &mut SoFar,
) -> Result<(), AllocError>
    ensures { OnOk result (Adds case.entry.file.now (title_in (map (λ l. l.now) case.entry.lines.now)) [] (Refused why) so_far.old so_far.new) }
{
    add(alloc, case, &[], &CaseEnd::Refused(why), so_far)
}

/// Adds the result of a case with these items.
fn judge_items<L: Link>(
    alloc: Global,
    bench: Bench<'_>,
    link: &mut L,
    case: Case<'_, '_>,
    items: &CaseItems,
    so_far: &mut SoFar,
) -> Result<(), AllocError>
    ensures { OnOk result (JudgesItems bench.entry.server.now items.now (text_of case.entry) so_far.old (L.log link.old) so_far.new (L.log link.new)) }
{
    let end = end_with(alloc, bench.server, link, items, bench.millis)?;
    add(alloc, case, items.judged.as_slice(), &end, so_far)
}

/// Adds the result of a case with these octets.
fn judge_octets<L: Link>(
    alloc: Global,
    bench: Bench<'_>,
    link: &mut L,
    case: Case<'_, '_>,
    octets: Vec<u8>,
    so_far: &mut SoFar,
) -> Result<(), AllocError>
    ensures { OnOk result (JudgesOctets bench.entry.server.now bench.entry.book.now (text_of case.entry) octets.items
        so_far.old (L.log link.old) so_far.new (L.log link.new)) }
{
    let config = limits_of(bench.server.octets.as_slice());
    match case_items(alloc, bench.book, config, octets, is_tagged(case.lines)) {
        Ok(items) => judge_items(alloc, bench, link, case, &items, so_far),
        Err(ItemsFault::BadConfig) => refuse(alloc, case, Refusal::BadLimits, so_far),
        Err(ItemsFault::NoMemory) => Err(AllocError),
    }
}

/// Adds the result of a case with these octets that has words of its own.
fn judge_worded<F: Files, L: Link>(
    alloc: Global,
    bench: Bench<'_>,
    files: &mut F,
    link: &mut L,
    case: Case<'_, '_>,
    octets: Vec<u8>,
    so_far: &mut SoFar,
) -> Result<(), AllocError>
    ensures result { F.is_printed files.old ≡ true → OnOk result (JudgesSetup
        (setup_of (F.file files.old) case.entry.file.now (map (λ l. l.now) case.entry.lines.now))
        (trial_of (F.file files.old) bench.entry) (text_of case.entry) octets.items so_far.old (L.log link.old) so_far.new (L.log link.new)) }
    ensures same_printed { F.is_printed files.new ≡ F.is_printed files.old }
    ensures same_files { F.file files.new ≡ F.file files.old }
{
    match own_of(alloc, files, case) {
        Ok(own) => {
            let bench = Bench {
                book: &own.book,
                ..bench
            };
            judge_octets(alloc, bench, link, case, octets, so_far)
        }
        Err(OwnFault::NoMemory) => Err(AllocError),
        Err(OwnFault::Refused(words)) => refuse(alloc, case, Refusal::Words(words.why), so_far),
    }
}

/// Adds the result of a case with these octets, which is not passed over.
fn judge_sent<F: Files, L: Link>(
    alloc: Global,
    bench: Bench<'_>,
    files: &mut F,
    link: &mut L,
    case: Case<'_, '_>,
    octets: Vec<u8>,
    so_far: &mut SoFar,
) -> Result<(), AllocError>
    ensures result { F.is_printed files.old ≡ true → OnOk result (JudgesSent (trial_of (F.file files.old) bench.entry) (text_of case.entry) octets.items
        so_far.old (L.log link.old) so_far.new (L.log link.new)) }
    ensures same_printed { F.is_printed files.new ≡ F.is_printed files.old }
    ensures same_files { F.file files.new ≡ F.file files.old }
{
    if have_words(case.lines) {
        return judge_worded(alloc, bench, files, link, case, octets, so_far);
    }
    judge_octets(alloc, bench, link, case, octets, so_far)
}

/// Adds the result of a case.
///
/// `AllocError` where memory is refused.
pub fn judge_case<F: Files, L: Link>(
    alloc: Global,
    bench: Bench<'_>,
    files: &mut F,
    link: &mut L,
    case: Case<'_, '_>,
    so_far: &mut SoFar,
) -> Result<(), AllocError>
    ensures result { F.is_printed files.old ≡ true → OnOk result (JudgesCase (trial_of (F.file files.old) bench.entry) (text_of case.entry)
        so_far.old (L.log link.old) so_far.new (L.log link.new)) }
    ensures same_printed { F.is_printed files.new ≡ F.is_printed files.old }
    ensures same_files { F.file files.new ≡ F.file files.old }
{
    let octets = aimed_octets(alloc, bench.aim, case.lines)?;
    match skip_of(bench.server, octets.as_slice()) {
        Some(why) => add(alloc, case, &[], &CaseEnd::Skipped(why), so_far),
        None => judge_sent(alloc, bench, files, link, case, octets, so_far),
    }
}
