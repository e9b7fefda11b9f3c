//! The run of a connection, place by place. Definitions: `specs/Web.antt`.

ghost use Rattle.std.specs.Prelude.{◌≡◌, ◌≤◌, ◌<◌, ◌^◌, ℕ, List, [], Some, false, length, take};
ghost use Rattle.h2_page.specs.Web.{Gives, RunsInto, RunText, ShowsRun, asked_for, config_of, ended_as, refused_answer, told};

use crate::answers::{RefusedLine, book_in};
use crate::arena::Arena;
use crate::fault::{CallEnd, WebFault};
use crate::memory::Free;
use crate::put::put_text;
use h2_cmd_play::{AnswerFault, PlacesFault, ShownPlaces, write_places};
use h2_conn::{Conn, ConnFault};
use h2_io::{Gathered, Output};
use h2_request_book::book::Book;
use h2_spec::connection::Config;
use std::alloc::Allocator;

/// What is asked for: the limits and settings of the server, and which places of the run are shown.
#[derive(Clone, Copy)]
pub struct Asked {
    pub config: Config,
    pub shown: ShownPlaces,
}

/// Why a run was not written.
#[derive(Clone, Copy)]
pub enum RunFault {
    /// A limit or a setting is outside its range.
    BadConfig,
    /// Memory was refused: the places of some first part of the run were written.
    NoMemory,
    /// A write failed.
    NotWritten,
}

/// How the texts of a run ended.
fn ended_as(ended: Result<(), PlacesFault>) -> Result<(), RunFault>
    ensures { result ≡ ended_as ended }
{
    match ended {
        Ok(()) => Ok(()),
        Err(PlacesFault::NoMemory) => Err(RunFault::NoMemory),
        Err(PlacesFault::NotWritten) => Err(RunFault::NotWritten),
    }
}

/// Writes the texts of a new connection's run over the octets that are shown.
fn write_run<A: Allocator + Copy, O: Output>(
    alloc: A,
    asked: Asked,
    book: &Book<A>,
    octets: &[u8],
    output: &mut O,
) -> Result<(), RunFault>
    requires few { length octets.now < 2 ^ 63 }
    requires writer { O.has_failed output.old ≡ false }
    ensures { (held : List ℕ) → O.written output.old ≡ Some held → RunsInto asked book.now octets.now held (O.written output.new) result }
{
    let mut sent = Vec::new(alloc);
    match Conn::new(book, asked.config, &mut sent) {
        Ok(mut conn) => ended_as(write_places(
            alloc,
            &mut conn,
            sent.as_slice(),
            octets,
            asked.shown,
            output,
        )),
        Err(ConnFault::BadConfig) => Err(RunFault::BadConfig),
        Err(_) => Err(RunFault::NoMemory),
    }
}

/// The texts of a run, as one text; none where memory was refused for it.
fn text_of_run<A: Allocator + Copy>(
    alloc: A,
    asked: Asked,
    book: &Book<A>,
    octets: &[u8],
) -> (Vec<u8, A>, Result<(), RunFault>)
    requires few { length octets.now < 2 ^ 63 }
    ensures { RunText asked book.now octets.now result.0.items result.1 }
{
    let mut gathered = Gathered::new(alloc);
    match write_run(alloc, asked, book, octets, &mut gathered) {
        Ok(()) => (gathered.octets, Ok(())),
        Err(RunFault::BadConfig) => (gathered.octets, Err(RunFault::BadConfig)),
        Err(RunFault::NoMemory) => (gathered.octets, Err(RunFault::NoMemory)),
        Err(RunFault::NotWritten) => (Vec::new(alloc), Err(RunFault::NoMemory)),
    }
}

/// How a run ended, as the page is reported.
pub(crate) fn told(ended: Result<(), RunFault>) -> Result<(), WebFault>
    ensures { result ≡ told ended }
{
    match ended {
        Ok(()) => Ok(()),
        Err(RunFault::BadConfig) => Err(WebFault::BadConfig),
        Err(RunFault::NoMemory) => Err(WebFault::NoMemory),
        Err(RunFault::NotWritten) => Err(WebFault::NoMemory),
    }
}

/// Why the answers have no book.
pub(crate) fn refused_answer(refused: RefusedLine) -> WebFault
    ensures { result ≡ refused_answer refused }
{
    let line = refused.line;
    match refused.fault {
        AnswerFault::NoMemory => WebFault::NoMemory,
        AnswerFault::BadAnswer => WebFault::BadAnswer(line, AnswerFault::BadAnswer),
        AnswerFault::BadEntry(fault) => WebFault::BadAnswer(line, AnswerFault::BadEntry(fault)),
    }
}

/// The texts of a run with the book of these answers.
fn run_with<A: Allocator + Copy>(
    alloc: A,
    asked: Asked,
    answers: &[u8],
    octets: &[u8],
) -> (Vec<u8, A>, Result<(), WebFault>)
    requires few { length octets.now < 2 ^ 63 }
    ensures { ShowsRun asked answers.now octets.now result.0.items result.1 }
{
    match book_in(alloc, answers) {
        Ok(book) => {
            let (text, ended) = text_of_run(alloc, asked, &book, octets);
            (text, told(ended))
        }
        Err(refused) => (Vec::new(alloc), Err(refused_answer(refused))),
    }
}

/// Puts the texts of a run where the page reads them.
fn show_run<A: Allocator + Copy>(
    alloc: A,
    asked: Asked,
    answers: &[u8],
    octets: &[u8],
    out: &mut [u8],
    end: &mut CallEnd,
) -> usize
    requires few { length octets.now < 2 ^ 63 }
    ensures within { result ≤ length out.new }
    ensures shown { Gives (ShowsRun asked answers.now octets.now) (take result out.new) end.new }
{
    let (text, ended) = run_with(alloc, asked, answers, octets);
    put_text(text.as_slice(), ended, out, end)
}

/// What is asked for with these numbers.
fn asked_for(config: Config, first: usize, last: usize) -> Asked
    ensures { result ≡ asked_for config first last }
{
    let last = Some(last);
    Asked {
        config,
        shown: ShownPlaces { first, last },
    }
}

/// The text of `play --each`: plays a new connection over the octets with the book of the answers, a line for each. The
/// front of `out` gains the texts of the places from FIRST to LAST, and the number of its octets is returned. `end`
/// says how it ended: with 1 the memory did not suffice, and the places of some first part of the run are shown; with 2
/// `out` has no space, with 16 a limit or a setting is out of range, with 12 to 15 or 26 a line of the answers is
/// refused, and nothing is shown.
///
/// All that it needs is taken from `memory`, which is not given back.
#[unsafe(no_mangle)]
pub extern "C" fn places(
    memory: Free,
    streams: u32,
    credit: u32,
    table: u32,
    window: u32,
    frame: u32,
    first: usize,
    last: usize,
    answers: &[u8],
    octets: &[u8],
    out: &mut [u8],
    end: &mut CallEnd,
) -> usize
    ensures within { result ≤ length out.new }
    ensures shown { Gives (ShowsRun (asked_for (config_of streams credit table window frame) first last) answers.now octets.now) (take result out.new) end.new }
{
    let config = Config {
        streams,
        credit,
        table,
        window,
        frame,
    };
    let asked = asked_for(config, first, last);
    let arena = Arena::new(memory);
    show_run(&arena, asked, answers, octets, out, end)
}
