//! A connection over octets, explained item by item. The text of each item is written as it is made. Definitions:
//! `specs/Explains.antt`.

ghost use Rattle.std.specs.Prelude.{◌≡◌, ◌<◌, ◌^◌, [], false, length, is_err, IfOk, OnOk};
ghost use Rattle.h2_spec.specs.Trace.{trace};
ghost use Rattle.h2_conn.specs.Connection.{going};
ghost use Rattle.h2_explain.specs.Explaining.{IsNew};
ghost use Rattle.h2_explain.specs.Explains.{Gains, IsExplanation, IsSummary, not_written};

use crate::item_outbox::ItemOutbox;
use crate::recorder::NoRecord;
use crate::run_explainer::RunExplainer;
use crate::verdict::ClientVerdict;
use h2_conn::Conn;
use h2_io::Output;
use std::alloc::Allocator;

/// In which form items are explained.
#[derive(Clone, Copy)]
pub struct Form {
    /// As one JSON object a line.
    pub json: bool,
    /// As a text with colours.
    pub color: bool,
    /// Whether it ends with the errors by cause and the number of warnings.
    pub strict: bool,
    /// With long texts whole; else the first 100 octets of each are shown.
    pub full: bool,
    /// Without fields and what changed.
    pub brief: bool,
    /// Only items that are an error, are ignored or have a warning.
    pub errors: bool,
    /// Only items of this stream, if one is named; 0 for those of the connection.
    pub stream: Option<u32>,
}

/// Why not all items were explained.
#[derive(Clone, Copy)]
pub enum ExplainFault {
    /// Memory was refused.
    NoMemory,
    /// A write of the output failed.
    NotWritten,
}

/// The result of a connection that was explained.
#[derive(Clone, Copy)]
pub struct Summary {
    /// How many items it had.
    pub items: u64,
    /// The code of the connection error that ended it, if one did (RFC 9113, 5.4.1).
    pub ended: Option<u32>,
    /// What is said about the client.
    pub verdict: ClientVerdict,
}

/// Takes and explains each item of a connection over octets, and the octets after the last one, with an explanation that
/// is new.
fn explain_all<A: Allocator + Copy, O: Output>(
    alloc: A,
    explanation: &mut RunExplainer<A>,
    conn: &mut Conn<'_, A>,
    octets: &[u8],
    output: &mut O,
) -> Result<Summary, ExplainFault>
    requires fresh { IsNew explanation.old.form explanation.old }
    requires new { conn.old ≡ going conn.old.state [] }
    requires few { length octets.now < 2 ^ 63 }
    requires writer { O.has_failed output.old ≡ false }
    ensures summary { IfOk result (λ summary. IsSummary conn.old.state octets.now summary) }
    ensures run { OnOk result (conn.new ≡ going (trace conn.old.state octets.now).state []) }
    ensures gains { O.has_failed output.new ≡ false → Gains (IsExplanation explanation.old.form (is_err result) conn.old.state octets.now) (O.written output.old) (O.written output.new) }
    ensures flag { O.has_failed output.new ≡ not_written result }
    ensures name { O.name output.new ≡ O.name output.old }
{
    let mut sent = ItemOutbox::new(alloc);
    explanation.take_piece(alloc, conn, octets, false, &mut sent, output, &mut NoRecord)?;
    explanation.conclude(alloc, conn, output)
}

/// Takes and explains each item of a connection over octets, and the octets after the last one. The number of an item
/// counts from 1, its offset from 0.
///
/// # Errors
///
/// `NoMemory` where memory is refused, `NotWritten` where a write failed: some first items were explained.
pub fn explain<A: Allocator + Copy, O: Output>(
    alloc: A,
    form: Form,
    conn: &mut Conn<'_, A>,
    octets: &[u8],
    output: &mut O,
) -> Result<Summary, ExplainFault>
    requires new { conn.old ≡ going conn.old.state [] }
    requires few { length octets.now < 2 ^ 63 }
    requires writer { O.has_failed output.old ≡ false }
    ensures summary { IfOk result (λ summary. IsSummary conn.old.state octets.now summary) }
    ensures run { OnOk result (conn.new ≡ going (trace conn.old.state octets.now).state []) }
    ensures gains { O.has_failed output.new ≡ false → Gains (λ text. IsExplanation form (is_err result) conn.old.state octets.now text) (O.written output.old) (O.written output.new) }
    ensures flag { O.has_failed output.new ≡ not_written result }
    ensures name { O.name output.new ≡ O.name output.old }
{
    match RunExplainer::new(alloc, form) {
        Ok(mut explanation) => explain_all(alloc, &mut explanation, conn, octets, output),
        Err(_) => Err(ExplainFault::NoMemory),
    }
}
