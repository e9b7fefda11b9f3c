//! The run of a connection in words. Definitions: `specs/Words.antt`.

ghost use Rattle.std.specs.Prelude.{◌≡◌, ◌≤◌, ◌<◌, ◌^◌, ℕ, List, [], Some, false, length, take};
ghost use Rattle.h2_conn.specs.Connection.{going};
ghost use Rattle.h2_page.specs.Web.{Gives, config_of};
ghost use Rattle.h2_page.specs.Words.{ExplainedText, Explains, ExplainsFrom, ExplainsInto, explained_as, form_for};

use crate::answers::book_in;
use crate::arena::Arena;
use crate::fault::{CallEnd, WebFault};
use crate::memory::Free;
use crate::put::put_text;
use crate::run::{RunFault, refused_answer, told};
use h2_conn::{Conn, ConnFault};
use h2_explain::{ExplainFault, Form, Summary, explain};
use h2_io::{Gathered, Output};
use h2_request_book::book::Book;
use h2_spec::connection::Config;
use std::alloc::Allocator;

/// The form of `explain` without options, or with `--json`, `--full` and `--strict`.
fn form_for(json: bool) -> Form
    ensures { result ≡ form_for json }
{
    Form {
        json,
        color: false,
        strict: json,
        full: json,
        brief: false,
        errors: false,
        stream: None,
    }
}

/// How an explanation ended.
fn explained_as(ended: Result<Summary, ExplainFault>) -> Result<(), RunFault>
    ensures { result ≡ explained_as ended }
{
    match ended {
        Ok(_) => Ok(()),
        Err(ExplainFault::NoMemory) => Err(RunFault::NoMemory),
        Err(ExplainFault::NotWritten) => Err(RunFault::NotWritten),
    }
}

/// Writes the explanation of a connection over the octets.
fn write_words<A: Allocator + Copy, O: Output>(
    alloc: A,
    form: Form,
    conn: &mut Conn<'_, A>,
    octets: &[u8],
    output: &mut O,
) -> Result<(), RunFault>
    requires new { conn.old ≡ going conn.old.state [] }
    requires few { length octets.now < 2 ^ 63 }
    requires writer { O.has_failed output.old ≡ false }
    ensures { (held : List ℕ) → O.written output.old ≡ Some held → ExplainsFrom form conn.old.state octets.now held (O.written output.new) result }
{
    explained_as(explain(alloc, form, conn, octets, output))
}

/// Writes the explanation of a new connection over the octets.
fn write_explanation<A: Allocator + Copy, O: Output>(
    alloc: A,
    form: Form,
    config: Config,
    book: &Book<A>,
    octets: &[u8],
    output: &mut O,
) -> Result<(), RunFault>
    requires few { length octets.now < 2 ^ 63 }
    requires writer { O.has_failed output.old ≡ false }
    ensures { (held : List ℕ) → O.written output.old ≡ Some held → ExplainsInto form config book.now octets.now held (O.written output.new) result }
{
    let mut sent = Vec::new(alloc);
    match Conn::new(book, config, &mut sent) {
        Ok(mut conn) => write_words(alloc, form, &mut conn, octets, output),
        Err(ConnFault::BadConfig) => Err(RunFault::BadConfig),
        Err(_) => Err(RunFault::NoMemory),
    }
}

/// The explanation as a text; none where memory was refused.
fn text_of_explanation<A: Allocator + Copy>(
    alloc: A,
    form: Form,
    config: Config,
    book: &Book<A>,
    octets: &[u8],
) -> (Vec<u8, A>, Result<(), RunFault>)
    requires few { length octets.now < 2 ^ 63 }
    ensures { ExplainedText form config book.now octets.now result.0.items result.1 }
{
    let mut gathered = Gathered::new(alloc);
    match write_explanation(alloc, form, config, book, octets, &mut gathered) {
        Ok(()) => (gathered.octets, Ok(())),
        Err(fault) => (Vec::new(alloc), Err(fault)),
    }
}

/// The explanation of a run with the book of these answers.
fn explanation_with<A: Allocator + Copy>(
    alloc: A,
    form: Form,
    config: Config,
    answers: &[u8],
    octets: &[u8],
) -> (Vec<u8, A>, Result<(), WebFault>)
    requires few { length octets.now < 2 ^ 63 }
    ensures { Explains form config answers.now octets.now result.0.items result.1 }
{
    match book_in(alloc, answers) {
        Ok(book) => {
            let (text, ended) = text_of_explanation(alloc, form, config, &book, octets);
            (text, told(ended))
        }
        Err(refused) => (Vec::new(alloc), Err(refused_answer(refused))),
    }
}

/// Puts the explanation where the page reads it.
fn show_explanation<A: Allocator + Copy>(
    alloc: A,
    form: Form,
    config: Config,
    answers: &[u8],
    octets: &[u8],
    out: &mut [u8],
    end: &mut CallEnd,
) -> usize
    requires few { length octets.now < 2 ^ 63 }
    ensures within { result ≤ length out.new }
    ensures shown { Gives (Explains form config answers.now octets.now) (take result out.new) end.new }
{
    let (text, ended) = explanation_with(alloc, form, config, answers, octets);
    put_text(text.as_slice(), ended, out, end)
}

/// The text of `explain`, or with `json` that of `explain --json --full --strict`: explains a new connection over the octets
/// with the book of the answers, a line for each. The front of `out` gains the text, and the number of its octets is returned. `end` says how it ended: with 1 the memory
/// did not suffice, with 2 `out` has no space, with 16 a limit or a setting is out of range, with 12 to 15 or 26 a line
/// of the answers is refused; then nothing is put there.
///
/// All that it needs is taken from `memory`, which is not given back.
#[unsafe(no_mangle)]
pub extern "C" fn explanation(
    memory: Free,
    json: bool,
    streams: u32,
    credit: u32,
    table: u32,
    window: u32,
    frame: u32,
    answers: &[u8],
    octets: &[u8],
    out: &mut [u8],
    end: &mut CallEnd,
) -> usize
    ensures within { result ≤ length out.new }
    ensures shown { Gives (Explains (form_for json) (config_of streams credit table window frame) answers.now octets.now) (take result out.new) end.new }
{
    let config = Config {
        streams,
        credit,
        table,
        window,
        frame,
    };
    let arena = Arena::new(memory);
    show_explanation(&arena, form_for(json), config, answers, octets, out, end)
}
