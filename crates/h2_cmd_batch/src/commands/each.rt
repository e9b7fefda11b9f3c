//! A connection that is reported place by place: the start, and then each item. Definitions: `specs/Printed.antt`,
//! `specs/Each.antt`.

ghost use Rattle.std.specs.Prelude.{◌≡◌, ◌<◌, ◌^◌, [], false, length, IfErr, OnOk, is_err};
ghost use Rattle.std.specs.Io.KnownBytes.{Appends};
ghost use Rattle.h2_cmd_batch.specs.declared.commands.each.PrintFault.TheVariants.{NotWritten};
ghost use Rattle.std.specs.List.{concat};
ghost use Rattle.h2_spec.specs.Texts.View.{view};
ghost use Rattle.h2_conn.specs.Connection.{going};
ghost use Rattle.h2_cmd_batch.specs.Each.{WritesSome, not_written};
ghost use Rattle.h2_cmd_batch.specs.Printed.{OrCutShort, done, item_text, places_from};

use crate::fault::BenchFault;
use h2_cmd_play::ShownPlaces;
use h2_conn::Conn;
use h2_io::{Output, Text};
use std::alloc::Global;

/// Why what a command prints was not all written.
#[derive(Clone, Copy)]
pub enum PrintFault {
    /// A fault, whose line is still to be written.
    Fault(BenchFault),
    /// A write of the output failed.
    NotWritten,
}

/// Writes a text, or says that it was not written.
pub fn write_text<O: Output, T: Text>(output: &mut O, text: &T) -> Result<(), PrintFault>
    requires { O.has_failed output.old ≡ false }
    ensures octets { OnOk result (Appends (O.written output.old) (O.written output.new) (T.text text.now)) }
    ensures err { IfErr result (λ why. why ≡ NotWritten) }
    ensures flag { O.has_failed output.new ≡ is_err result }
    ensures name { O.name output.new ≡ O.name output.old }
{
    match text.write_to(output) {
        Ok(()) => Ok(()),
        Err(_) => Err(PrintFault::NotWritten),
    }
}

/// Writes the start of a connection, for which these octets were sent, and each of its items.
///
/// `Fault` where memory is refused: some first places were written. `NotWritten` where a write failed.
pub fn write_places<O: Output>(
    alloc: Global,
    conn: &mut Conn<'_, Global>,
    sent: &[u8],
    octets: &[u8],
    output: &mut O,
) -> Result<(), PrintFault>
    requires new { conn.old ≡ going conn.old.state [] }
    requires few { length octets.now < 2 ^ 63 }
    requires writer { O.has_failed output.old ≡ false }
    ensures printed { O.has_failed output.new ≡ false → let places = places_from (item_text 0 sent.now (view conn.old.state)) conn.old.state octets.now in
        WritesSome (OrCutShort places (done (concat places))) result (O.written output.old) (O.written output.new) }
    ensures flag { O.has_failed output.new ≡ not_written result }
    ensures name { O.name output.new ≡ O.name output.old }
{
    match h2_cmd_play::write_places(alloc, conn, sent, octets, ShownPlaces::all(), output) {
        Ok(()) => Ok(()),
        Err(h2_cmd_play::PlacesFault::NoMemory) => Err(PrintFault::Fault(BenchFault::NoMemory)),
        Err(h2_cmd_play::PlacesFault::NotWritten) => Err(PrintFault::NotWritten),
    }
}
