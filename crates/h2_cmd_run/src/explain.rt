//! The program `explain`: a connection over the octets of a text, explained item by item. Definitions:
//! `specs/ExplainProgram.antt`.

ghost use Rattle.std.specs.Prelude.{◌≡◌, ◌==◌, [], ◌≤◌, ◌<◌, ◌^◌, ◌++◌, ◌⊎◌, ℕ, Bool, List, Some, Ok, true, false, length, option_map, is_some, IfErr, IfOk};
ghost use Rattle.std.specs.Vec.{vec_len};
ghost use Rattle.h2_spec.specs.Requests.Answer.{Entry};
ghost use Rattle.h2_conn.specs.Connection.{going};
ghost use Rattle.h2_spec.specs.State.{is_allowed, opening};
ghost use Rattle.h2_spec.specs.declared.connection.Config.{Config};
ghost use Rattle.h2_explain.specs.declared.run.Form.{Form as ExplainForm};
ghost use Rattle.h2_cmd_run.specs.ExplainProgram.{ReportsFile, ReportsFrom, ReportsRun, ReportsText, cut_off, end_of, explained_after, outcome_status};
ghost use Rattle.h2_cmd_batch.specs.Input.{most};
ghost use Rattle.h2_cmd_batch.specs.Printing.{Printed, failed_as};
ghost use Rattle.h2_cmd_batch.specs.CommandEnd.{KnowsFile};
ghost use Rattle.h2_cmd_batch.specs.declared.fault.BenchFault.TheVariants.{NoMemory};

use h2_cmd_args::command::Explain;
use h2_cmd_batch::{BenchFault, PrintFault, read_all, read_for};
use h2_cmd_book_file::{Files, FilesFault};
use h2_cmd_messages::{Reasons, say_too_long, say_unread};
use h2_conn::Conn;
use h2_explain::{ClientVerdict, ExplainFault, Form, explain};
use h2_io::{Input, MAX_INPUT, Output};
use h2_request_book::book::Book;
use h2_spec::connection::Config;
use std::alloc::Global;
use std::io::ErrorKind;

/// How an explanation ended that was written whole.
#[derive(Clone, Copy)]
pub struct ExplainOutcome {
    /// Whether a connection error ended the connection (RFC 9113, 5.4.1).
    pub ended: bool,
    /// Whether the status says what is said about the client.
    pub strict: bool,
    /// What is said about the client.
    pub verdict: ClientVerdict,
}

impl ExplainOutcome {
    /// The exit status: 4 where a connection error ended the connection, else 0; with `--strict` that of the verdict.
    pub fn status(self) -> u8
        ensures value { result ≡ outcome_status self }
        ensures other { (result == 3) ≡ false }
    {
        if self.strict {
            self.verdict.status(self.ended)
        } else if self.ended {
            4
        } else {
            0
        }
    }
}

/// The octets of a file, as `read_all` has those of an input; the reasons say why it was not read.
fn read_file<F: Files>(
    alloc: Global,
    files: &mut F,
    path: &str,
    reasons: &mut Reasons<'_>,
) -> Result<Vec<u8>, BenchFault>
    ensures ok { F.is_printed files.old ≡ true → IfOk result (λ text. (form : ExplainForm) → (raw : Bool) → (book : List Entry)
        → (config : Config) → (t : Printed)
        → ReportsText form raw book config text.items t → ReportsFile form raw book config (F.file files.old path.now) t) }
    ensures within { IfOk result (λ text. length text.items ≤ most) }
    ensures err { F.is_printed files.old ≡ true → IfErr result (λ fault. (fault ≡ NoMemory)
        ⊎ ((form : ExplainForm) → (raw : Bool) → (book : List Entry) → (config : Config)
        → ReportsFile form raw book config (F.file files.old path.now) (failed_as form.json fault))) }
    ensures same_files { F.file files.new ≡ F.file files.old }
{
    match files.read(alloc, path, MAX_INPUT) {
        Ok(octets) => Ok(octets),
        Err(FilesFault::NoMemory) => Err(BenchFault::NoMemory),
        Err(FilesFault::Failed) => {
            let kind = files.failure(path).unwrap_or(ErrorKind::Other);
            say_unread(reasons.source, kind, &mut reasons.out);
            Err(BenchFault::Read)
        }
        Err(FilesFault::TooLong) => {
            say_too_long(reasons.source, MAX_INPUT, &mut reasons.out);
            Err(BenchFault::Read)
        }
    }
}

/// The text that is explained: that of the file where the words name one, else that of the input.
///
/// `Read` where it can't be read, or has more than 16,777,216 octets; `NoMemory` may come before.
pub fn read_text<F: Files, I: Input>(
    alloc: Global,
    file: &str,
    files: &mut F,
    input: &mut I,
    reasons: &mut Reasons<'_>,
) -> Result<Vec<u8>, BenchFault>
    requires reader { I.has_failed input.old ≡ false }
    ensures ok { KnowsFile file.now (F.is_printed files.old) → IfOk result (λ text. (form : ExplainForm) → (raw : Bool)
        → (book : List Entry) → (config : Config) → (t : Printed)
        → ReportsText form raw book config text.items t
        → ReportsFrom form raw (F.file files.old) file.now (I.remaining input.old) (I.has_failed input.new) book config t) }
    ensures within { IfOk result (λ text. length text.items ≤ most) }
    ensures err { KnowsFile file.now (F.is_printed files.old) → IfErr result (λ fault. ((fault ≡ NoMemory) × (I.has_failed input.new ≡ false))
        ⊎ ((form : ExplainForm) → (raw : Bool) → (book : List Entry) → (config : Config)
        → ReportsFrom form raw (F.file files.old) file.now (I.remaining input.old) (I.has_failed input.new) book config (failed_as form.json fault))) }
    ensures input { I.name input.new ≡ I.name input.old }
    ensures same_files { F.file files.new ≡ F.file files.old }
{
    if file.is_empty() {
        read_all(alloc, input, reasons)
    } else {
        read_file(alloc, files, file, reasons)
    }
}

/// The end of an explanation that was cut short.
fn end_of(fault: ExplainFault) -> PrintFault
    ensures { result ≡ end_of fault }
{
    match fault {
        ExplainFault::NoMemory => PrintFault::Fault(BenchFault::NoMemory),
        ExplainFault::NotWritten => PrintFault::NotWritten,
    }
}

/// Explains a connection over octets; says how it ended.
fn explain_conn<O: Output>(
    alloc: Global,
    form: Form,
    conn: &mut Conn<'_, Global>,
    octets: &[u8],
    output: &mut O,
) -> Result<ExplainOutcome, PrintFault>
    requires new { conn.old ≡ going conn.old.state [] }
    requires few { length octets.now < 2 ^ 63 }
    requires writer { O.has_failed output.old ≡ false }
    ensures printed { O.has_failed output.new ≡ false → (held : List ℕ) → O.written output.old ≡ Some held
        → (text : List ℕ) × (O.written output.new ≡ Some (held ++ text))
        × ReportsRun form conn.old.state octets.now (explained_after form.json text result) }
    ensures flag { O.has_failed output.new ≡ cut_off result }
    ensures name { O.name output.new ≡ O.name output.old }
{
    match explain(alloc, form, conn, octets, output) {
        Ok(summary) => Ok(ExplainOutcome {
            ended: summary.ended.is_some(),
            strict: form.strict,
            verdict: summary.verdict,
        }),
        Err(fault) => Err(end_of(fault)),
    }
}

/// Explains a new connection over octets; says how it ended.
fn explain_octets<O: Output>(
    alloc: Global,
    form: Form,
    config: Config,
    book: &Book<Global>,
    octets: &[u8],
    output: &mut O,
) -> Result<ExplainOutcome, PrintFault>
    requires allowed { is_allowed config ≡ true }
    requires few { length octets.now < 2 ^ 63 }
    requires writer { O.has_failed output.old ≡ false }
    ensures printed { O.has_failed output.new ≡ false → (held : List ℕ) → O.written output.old ≡ Some held
        → (text : List ℕ) × (O.written output.new ≡ Some (held ++ text))
        × ReportsRun form (opening book.now config) octets.now (explained_after form.json text result) }
    ensures flag { O.has_failed output.new ≡ cut_off result }
    ensures name { O.name output.new ≡ O.name output.old }
{
    let mut opening = Vec::new(alloc);
    match Conn::new(book, config, &mut opening) {
        Ok(mut conn) => explain_conn(alloc, form, &mut conn, octets, output),
        Err(_) => Err(PrintFault::Fault(BenchFault::NoMemory)),
    }
}

/// Explains a new connection over the octets of a text, which has them as they are where it is raw; says how it ended.
///
/// `BadHex` where the text gives no octets, then `BadConfig` where a limit or a setting is out of range; nothing is
/// written then, and the reasons say which. `NoMemory` where memory is refused: some first items may have been explained. `NotWritten` where a
/// write failed.
pub fn explain_text<O: Output>(
    alloc: Global,
    form: Form,
    raw: bool,
    config: Config,
    book: &Book<Global>,
    text: Vec<u8>,
    output: &mut O,
    reasons: &mut Reasons<'_>,
) -> Result<ExplainOutcome, PrintFault>
    requires few { length text.items ≤ most }
    requires writer { O.has_failed output.old ≡ false }
    ensures printed { O.has_failed output.new ≡ false → (held : List ℕ) → O.written output.old ≡ Some held
        → (said : List ℕ) × (O.written output.new ≡ Some (held ++ said))
        × ReportsText form raw book.now config text.items (explained_after form.json said result) }
    ensures flag { O.has_failed output.new ≡ cut_off result }
    ensures name { O.name output.new ≡ O.name output.old }
{
    match read_for(alloc, config, raw, text, reasons) {
        Ok(octets) => explain_octets(alloc, form, config, book, octets.as_slice(), output),
        Err(fault) => Err(PrintFault::Fault(fault)),
    }
}
