//! The verdict on a case. Definitions: `specs/Cases.antt`.

ghost use Rattle.std.specs.Prelude.{◌≡◌, ◌⊎◌, [], map, string_bytes, IfOk, IfErr, OnOk, false, true};
ghost use Rattle.h2_conn.specs.Connection.{going};
ghost use Rattle.h2_spec.specs.State.{is_allowed};
ghost use Rattle.h2_cmd_check.specs.Cases.{IsOutcome, Start, all_hold, first_place, outcome, outcome_of};
ghost use Rattle.h2_cmd_cases.specs.Files.{expect_something};
ghost use Rattle.h2_cmd_cases.specs.Lines.{line_said};
ghost use Rattle.h2_cmd_check.specs.Walks.{outcome_by};
ghost use Rattle.h2_cmd_check.specs.declared.fault.CaseFault.TheVariants.{BadConfig, NoMemory};

use crate::command::Given;
use crate::fault::CaseFault;
use crate::texts::item_texts;
use crate::walk::{Walk, check_lines};
use h2_conn::{Conn, ConnFault};
use h2_request_book::book::Book;
use h2_spec::causes::Cause;
use h2_spec::connection::Config;
use std::alloc::Global;

/// A line that does not hold.
#[derive(Drop)]
pub struct Wrong<'t> {
    /// Its number in the file, from 1.
    pub line: usize,
    /// What it expects, as it is written.
    pub wanted: &'t [u8],
    /// What was found.
    pub found: String,
    /// Where it is the first line that does not hold after the end of the connection: the error that ended it.
    pub ended: Option<Cause>,
}

/// The verdict on a case.
#[derive(Drop)]
pub enum CaseVerdict<'t> {
    /// It expects nothing.
    Skipped,
    /// All of its lines hold.
    Holds,
    /// These don't.
    Fails(Vec<Wrong<'t>>),
}

/// The verdict on a case whose connection is new.
fn check_on<'t>(
    alloc: Global,
    conn: &mut Conn<'_, Global>,
    sent: Vec<u8>,
    given: &Given<'_, '_>,
    lines: &[&'t [u8]],
    number: usize,
) -> Result<CaseVerdict<'t>, CaseFault>
    requires ready { conn.old ≡ going conn.old.state [] }
    ensures verdict { let start : Start = record { state = conn.old.state; sent = sent.items; texts = map string_bytes given.now.texts.now; book = given.now.book.now; config = given.now.config } in
        IfOk result (λ verdict. outcome_by verdict
        ≡ outcome (all_hold start first_place (map line_said (map (λ l. l.now) lines.now))) (expect_something (map (λ l. l.now) lines.now))) }
    ensures fault { IfErr result (λ fault. fault ≡ NoMemory) }
{
    let mut walk = Walk::new(alloc, sent);
    match check_lines(alloc, conn, given, lines, number, &mut walk) {
        Ok(()) => Ok(walk.into_verdict(lines)),
        Err(_) => Err(CaseFault::NoMemory),
    }
}

/// The verdict on a case of whose items these are the texts.
fn check_with<'t>(
    alloc: Global,
    book: &Book<Global>,
    config: Config,
    texts: &[String],
    lines: &[&'t [u8]],
    number: usize,
) -> Result<CaseVerdict<'t>, CaseFault>
    ensures verdict { IfOk result (λ verdict. outcome_by verdict ≡ outcome_of book.now config (map string_bytes texts.now) (map (λ l. l.now) lines.now)) }
    ensures allowed { OnOk result (is_allowed config ≡ true) }
    ensures fault { IfErr result (λ fault. (fault ≡ NoMemory) ⊎ ((fault ≡ BadConfig) × (is_allowed config ≡ false))) }
{
    let given = Given {
        texts,
        book,
        config,
    };
    let mut sent = Vec::new(alloc);
    match Conn::new(book, config, &mut sent) {
        Ok(mut conn) => check_on(alloc, &mut conn, sent, &given, lines, number),
        Err(ConnFault::BadConfig) => Err(CaseFault::BadConfig),
        Err(_) => Err(CaseFault::NoMemory),
    }
}

/// The verdict on the lines of a case, with this book, these limits and these settings. The first line has this number
/// in its file.
///
/// # Errors
///
/// `BadConfig` where a limit or a setting is out of range; `NoMemory` where memory is refused.
pub fn check_case<'t>(
    alloc: Global,
    book: &Book<Global>,
    config: Config,
    lines: &[&'t [u8]],
    number: usize,
) -> Result<CaseVerdict<'t>, CaseFault>
    ensures verdict { IfOk result (λ verdict. IsOutcome book.now config (map (λ l. l.now) lines.now) (outcome_by verdict)) }
    ensures allowed { OnOk result (is_allowed config ≡ true) }
    ensures fault { IfErr result (λ fault. (fault ≡ NoMemory) ⊎ ((fault ≡ BadConfig) × (is_allowed config ≡ false))) }
{
    match item_texts(alloc, book, config, lines) {
        Ok(texts) => check_with(alloc, book, config, texts.as_slice(), lines, number),
        Err(fault) => Err(fault),
    }
}
