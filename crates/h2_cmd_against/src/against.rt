//! `check --against` and `check --judge`. Definitions: `specs/Program.antt`.

ghost use Rattle.std.specs.Prelude.{◌≡◌, ◌==◌, false, map, true};
ghost use Rattle.h2_cmd_batch.specs.CommandEnd.{PrintsSome};
ghost use Rattle.h2_cmd_batch.specs.Results.{ChangesAlone};
ghost use Rattle.h2_cmd_against.specs.Files.{trial_of};
ghost use Rattle.h2_cmd_against.specs.Program.{EndsAgainst, IsJudged, task_of};

use crate::aim::aim_for;
use crate::cases::Bench;
use crate::program::{Stop, print_end, print_files};
use crate::results::SoFar;
use crate::start::{case_names, server_for};
use h2_cmd_args::command::Against;
use h2_cmd_batch::{BenchFault, book_for_words, print_fault};
use h2_cmd_book_file::Files;
use h2_cmd_exchange::link::Link;
use h2_io::Output;
use std::alloc::Global;

/// Judges the server of which this is known by the cases of files, as a plan says. Gives the status.
fn judge_known<F: Files, L: Link, O: Output, E: Output>(
    alloc: Global,
    bench: Bench<'_>,
    names: &[&str],
    plan: &Against<'_>,
    link: &mut L,
    files: &mut F,
    output: &mut O,
    errors: &mut E,
) -> u8
    requires writer { O.has_failed output.old ≡ false }
    ensures printed { F.is_printed files.old ≡ true → O.has_failed output.new ≡ false
        → PrintsSome (λ t. IsJudged plan.now.junit.now (trial_of (F.file files.old) bench.entry) (map (λ n. n.now) names.now)
        (L.log link.old) (F.file files.new) (L.log link.new) t) (O.written output.old) (O.written output.new) result }
    ensures alone { F.is_printed files.old ≡ true → ChangesAlone plan.now.junit.now (F.file files.old) (F.file files.new) }
    ensures flag { O.has_failed output.new ≡ (result == 3) }
{
    match output.write(b"TAP version 13\n") {
        Ok(()) => {}
        Err(_) => return 3,
    }
    let mut so_far = SoFar::new(alloc);
    match print_files(alloc, bench, names, files, link, &mut so_far, output) {
        Ok(suites) => {
            let suites = suites.as_slice();
            print_end(alloc, plan, &so_far, suites, files, output, errors)
        }
        Err(Stop::NoMemory) => print_fault(output, BenchFault::NoMemory),
        Err(Stop::NotWritten) => 3,
    }
}

/// Says why no case was judged, where words tell more than the fault and `why` asks for them.
fn say_missing<E: Output>(fault: BenchFault, why: bool, errors: &mut E) {
    if !why {
        return;
    }
    let _ = match fault {
        BenchFault::Socket => {
            errors.write(b"nothing listens on this port of 127.0.0.1, or it speaks no HTTP/2.\n")
        }
        BenchFault::Read => errors.write(b"the recorded octets can't be read.\n"),
        _ => Ok(()),
    };
}

/// Judges a server by the cases of files, as a plan says, and prints the results as TAP. Gives the status: 0 where nothing is
/// broken, 1 where something is, where a case can't be played, and after a fault, 3 where the output failed. Sentences are
/// written to `errors`.
pub fn judge_server<F: Files, L: Link, O: Output, E: Output>(
    alloc: Global,
    plan: &Against<'_>,
    link: &mut L,
    files: &mut F,
    output: &mut O,
    errors: &mut E,
) -> u8
    requires writer { O.has_failed output.old ≡ false }
    ensures printed { F.is_printed files.old ≡ true → O.has_failed output.new ≡ false
        → EndsAgainst (task_of plan.now) (F.file files.old) (L.log link.old) (F.file files.new) (L.log link.new)
        (O.written output.old) (O.written output.new) result }
    ensures alone { F.is_printed files.old ≡ true → ChangesAlone plan.now.junit.now (F.file files.old) (F.file files.new) }
    ensures flag { O.has_failed output.new ≡ (result == 3) }
{
    let book = match book_for_words(alloc, &plan.book, files, errors) {
        Ok(book) => book,
        Err(fault) => return print_fault(output, fault),
    };
    let aim = aim_for(plan.path, plan.authority);
    match server_for(alloc, aim, plan.judge, plan.files.as_slice(), files, link) {
        Ok(server) => {
            let bench = Bench {
                book: &book,
                server: &server,
                aim,
                millis: u64::from(plan.wait),
            };
            let names = case_names(plan.judge, plan.files.as_slice());
            judge_known(alloc, bench, names, plan, link, files, output, errors)
        }
        Err(fault) => {
            say_missing(fault, plan.book.why, errors);
            print_fault(output, fault)
        }
    }
}
