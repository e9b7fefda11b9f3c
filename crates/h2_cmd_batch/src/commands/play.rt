//! The program `play`: a connection over the octets of its input. Definitions: `specs/Printed.antt`.

ghost use Rattle.std.specs.Prelude.{◌≡◌, ◌⊎◌, ◌<◌, ◌^◌, [], Err, Some, true, false, length, is_err, is_some, IfErr, IfOk, OnOk};
ghost use Rattle.h2_spec.specs.Texts.View.{view};
ghost use Rattle.std.specs.Io.KnownBytes.{Appends};
ghost use Rattle.hex.specs.Hex.{encode_lower};
ghost use Rattle.h2_spec.specs.State.{is_allowed};
ghost use Rattle.h2_conn.specs.Runs.{Opens};
ghost use Rattle.h2_cmd_batch.specs.Each.{WritesSome, not_written};
ghost use Rattle.h2_cmd_batch.specs.Input.{octets_of};
ghost use Rattle.h2_cmd_batch.specs.declared.commands.each.PrintFault.TheVariants.{Fault};
ghost use Rattle.h2_cmd_batch.specs.Pieces.{piece_lengths};
ghost use Rattle.h2_cmd_batch.specs.Printed.{OrCutShort, done, places_play, places_played, sent_and_state, printed_play, printed_played};
ghost use Rattle.h2_cmd_batch.specs.declared.fault.BenchFault.TheVariants.{BadConfig, NoMemory};

use crate::commands::each::{PrintFault, write_places};
use crate::fault::BenchFault;
use crate::input::read_for;
use h2_cmd_args::command::Play;
use h2_cmd_messages::Reasons;
use h2_conn::play::open_and_feed;
use h2_conn::{Conn, ConnFault};
use h2_frame::{Outbox, Outgoing};
use h2_io::{DeviceFault, HexText, Output, Text};
use h2_request_book::book::Book;
use h2_spec::connection::Config;
use std::alloc::{AllocError, Global};

/// How long a piece is where the words don't say it: a connection holds a copy of a piece, so a whole input is fed
/// piece after piece.
const PIECE: usize = 65536;

/// The lengths of the pieces into which this many octets are cut: as many as there are whole ones of this length, or
/// of 65,536 octets where it is 0.
fn piece_lengths(alloc: Global, cut: u32, total: usize) -> Result<Vec<usize>, AllocError>
    ensures { IfOk result (λ lengths. lengths.items ≡ piece_lengths cut total) }
{
    let length = if cut == 0 { PIECE } else { cut as usize };
    vec![in alloc; length; total / length]
}

/// A new connection that the octets were fed to, in pieces of this length, and what was sent.
fn played<'b, S: Outgoing<'b, Global>>(
    alloc: Global,
    book: &'b Book<Global>,
    config: Config,
    cut: u32,
    octets: &[u8],
    sent: &mut S,
) -> Result<Conn<'b, Global>, BenchFault>
    ensures ok { IfOk result (λ conn. Opens book.now config octets.now (S.octets sent.old) conn (S.octets sent.new)) }
    ensures allowed { OnOk result (is_allowed config ≡ true) }
    ensures fault { IfErr result (λ fault. (fault ≡ NoMemory) ⊎ ((fault ≡ BadConfig) × (is_allowed config ≡ false))) }
{
    let lengths = piece_lengths(alloc, cut, octets.len())?;
    match open_and_feed(book, config, octets, lengths.as_slice(), sent) {
        Ok(conn) => Ok(conn),
        Err(ConnFault::BadConfig) => Err(BenchFault::BadConfig),
        Err(_) => Err(BenchFault::NoMemory),
    }
}

/// Writes octets that were sent in lower-case hex, and takes them out. Takes no memory.
///
/// `DeviceFault` where the output failed, and only then.
fn write_hex<O: Output>(sent: &mut Outbox<'_, Global>, output: &mut O) -> Result<(), DeviceFault>
    requires { O.has_failed output.old ≡ false }
    ensures octets { OnOk result (Appends (O.written output.old) (O.written output.new) (encode_lower sent.old)) }
    ensures flag { O.has_failed output.new ≡ is_err result }
    ensures name { O.name output.new ≡ O.name output.old }
{
    while !sent.is_empty() {
        let front = sent.front();
        let count = front.len();
        HexText(front).write_to(output)?;
        sent.remove_front(count);
    }
    Ok(())
}

/// Writes the line of the octets sent, which are taken out, and the text of the state. Takes no memory.
///
/// `DeviceFault` where the output failed, and only then.
#[tactic(auto, using(h2_io::proofs::Appending::both), unfolding(crate::specs::Printed::sent_and_state))]
fn write_sent_and_state<O: Output>(
    conn: &Conn<'_, Global>,
    sent: &mut Outbox<'_, Global>,
    output: &mut O,
) -> Result<(), DeviceFault>
    requires { O.has_failed output.old ≡ false }
    ensures octets { OnOk result (Appends (O.written output.old) (O.written output.new) (sent_and_state sent.old (view conn.now.state))) }
    ensures flag { O.has_failed output.new ≡ is_err result }
    ensures name { O.name output.new ≡ O.name output.old }
{
    output.write(b"sent ".as_slice())?;
    write_hex(sent, output)?;
    output.write(b"\n".as_slice())?;
    conn.write_to(output)
}

/// Writes what `play` prints of a connection to which the octets were fed: what was sent, and the state. Takes no
/// memory.
///
/// `NotWritten` where the output failed, and only then.
fn write_sent<O: Output>(
    conn: &Conn<'_, Global>,
    sent: &mut Outbox<'_, Global>,
    output: &mut O,
) -> Result<(), PrintFault>
    requires { O.has_failed output.old ≡ false }
    ensures printed { O.has_failed output.new ≡ false → WritesSome (λ t. t ≡ done (sent_and_state sent.old (view conn.now.state)))
        result (O.written output.old) (O.written output.new) }
    ensures flag { O.has_failed output.new ≡ not_written result }
    ensures name { O.name output.new ≡ O.name output.old }
{
    match write_sent_and_state(conn, sent, output) {
        Ok(()) => Ok(()),
        Err(_) => Err(PrintFault::NotWritten),
    }
}

/// Writes what `play` prints of octets as a whole. The bodies that are sent are not copied: they lie in the book until
/// they are written.
fn write_whole<O: Output>(
    alloc: Global,
    play: &Play<'_>,
    book: &Book<Global>,
    octets: &[u8],
    output: &mut O,
) -> Result<(), PrintFault>
    requires writer { O.has_failed output.old ≡ false }
    ensures printed { O.has_failed output.new ≡ false → WritesSome (OrCutShort (places_played false book.now play.now.config octets.now) (printed_played false book.now play.now.config octets.now))
        result (O.written output.old) (O.written output.new) }
    ensures flag { O.has_failed output.new ≡ not_written result }
    ensures name { O.name output.new ≡ O.name output.old }
{
    let mut sent = Outbox::new(alloc);
    match played(alloc, book, play.config, play.cut, octets, &mut sent) {
        Ok(conn) => write_sent(&conn, &mut sent, output),
        Err(fault) => Err(PrintFault::Fault(fault)),
    }
}

/// Writes what `play` prints of each place of the run of octets, for which items are taken one by one.
fn write_each<O: Output>(
    alloc: Global,
    play: &Play<'_>,
    book: &Book<Global>,
    octets: &[u8],
    output: &mut O,
) -> Result<(), PrintFault>
    requires few { length octets.now < 2 ^ 63 }
    requires writer { O.has_failed output.old ≡ false }
    ensures printed { O.has_failed output.new ≡ false → WritesSome (OrCutShort (places_played true book.now play.now.config octets.now) (printed_played true book.now play.now.config octets.now))
        result (O.written output.old) (O.written output.new) }
    ensures flag { O.has_failed output.new ≡ not_written result }
    ensures name { O.name output.new ≡ O.name output.old }
{
    let mut sent = Vec::new(alloc);
    match played(alloc, book, play.config, play.cut, &[], &mut sent) {
        Ok(mut conn) => write_places(alloc, &mut conn, sent.as_slice(), octets, output),
        Err(fault) => Err(PrintFault::Fault(fault)),
    }
}

/// Writes what `play` prints of octets: of each place of their run, or of the whole.
fn write_played<O: Output>(
    alloc: Global,
    play: &Play<'_>,
    book: &Book<Global>,
    octets: &[u8],
    output: &mut O,
) -> Result<(), PrintFault>
    requires few { length octets.now < 2 ^ 63 }
    requires writer { O.has_failed output.old ≡ false }
    ensures printed { O.has_failed output.new ≡ false → WritesSome (OrCutShort (places_played play.now.each book.now play.now.config octets.now) (printed_played play.now.each book.now play.now.config octets.now))
        result (O.written output.old) (O.written output.new) }
    ensures flag { O.has_failed output.new ≡ not_written result }
    ensures name { O.name output.new ≡ O.name output.old }
{
    if play.each {
        write_each(alloc, play, book, octets, output)
    } else {
        write_whole(alloc, play, book, octets, output)
    }
}

/// Writes what `play` prints of its input, however the octets are cut: the octets sent, and the state after all of
/// them; or the same of each place.
///
/// `BadHex` where the input gives no octets, then `BadConfig` where a limit or a setting is out of range; nothing is
/// written then, no memory is needed, and the reasons say which. `NoMemory` where memory is refused: nothing was written, or some first
/// places. `NotWritten` where a write failed.
pub fn write_play<O: Output>(
    alloc: Global,
    play: &Play<'_>,
    book: &Book<Global>,
    input: Vec<u8>,
    output: &mut O,
    reasons: &mut Reasons<'_>,
) -> Result<(), PrintFault>
    requires { O.has_failed output.old ≡ false }
    ensures printed { O.has_failed output.new ≡ false → let given = octets_of play.now.raw input.items in
        WritesSome (OrCutShort (places_play play.now.each book.now play.now.config given) (printed_play play.now.each book.now play.now.config given))
        result (O.written output.old) (O.written output.new) }
    ensures memory { result ≡ Err (Fault NoMemory) → (is_allowed play.now.config ≡ true) × (is_some (octets_of play.now.raw input.items) ≡ true) }
    ensures flag { O.has_failed output.new ≡ not_written result }
    ensures name { O.name output.new ≡ O.name output.old }
{
    match read_for(alloc, play.config, play.raw, input, reasons) {
        Ok(octets) => write_played(alloc, play, book, octets.as_slice(), output),
        Err(fault) => Err(PrintFault::Fault(fault)),
    }
}
