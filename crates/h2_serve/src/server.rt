//! The clients of a port, one after another. The program does not call `serve_on`, which is for users of the library.
//! Definitions: `specs/Lines.antt`, `specs/Ports.antt` and `specs/Serves.antt`.

ghost use Rattle.std.specs.Prelude.{◌≡◌, ◌⊎◌, ◌++◌, [], ◌∷◌, None, true, false, Ok, Err, IfErr, IfOk, OnOk, OnErr};
ghost use Rattle.h2_spec.specs.State.{is_allowed, opening};
ghost use Rattle.h2_spec.specs.Opening.{opening_octets};
ghost use Rattle.h2_conn.specs.Connection.{going};
ghost use Rattle.h2_serve.specs.Wires.{grown};
ghost use Rattle.h2_serve.specs.Ports.{HandlesSome, Listening, ListensSome, localhost, start_of};
ghost use Rattle.h2_serve.specs.Faults.{not_written};
ghost use Rattle.h2_serve.specs.Lines.{listening_line};
ghost use Rattle.h2_serve.specs.Serves.{AcceptsAs, Gains, Grew, ListensAs, ServesAs, opening_fault};

use crate::drive;
use crate::fault::ServeFault;
use crate::lines::{EndLine, ListeningLine};
use crate::port::{Listener, Port, TcpClients};
use h2_conn::{Conn, ConnFault};
use h2_frame::{Outbox, Outgoing};
use h2_io::{IntoWrite, Output, Text};
use h2_request_book::book::Book;
use h2_spec::connection::Config;
use std::alloc::Global;
use std::io::Write;
use std::net::TcpListener;

/// The most turns of one connection; each is one read of at most 131,072 octets.
pub(crate) const TURNS: u32 = 1_000_000;

/// Writes a line, and flushes the output so that its reader sees the line at once.
pub(crate) fn print<O: Output, T: Text>(output: &mut O, line: &T) -> Result<(), ServeFault>
    requires writer { O.has_failed output.old ≡ false }
    ensures ok { OnOk result (Gains (O.written output.old) (O.written output.new) (T.text line.now)) }
    ensures err { IfErr result (λ fault. fault ≡ ServeFault.Write) }
    ensures grew { not_written result ≡ false → Grew (O.written output.old) (O.written output.new) }
    ensures flag { O.has_failed output.new ≡ not_written result }
    ensures name { O.name output.new ≡ O.name output.old }
{
    match line.write_to(output) {
        Ok(()) => {}
        Err(_) => return Err(ServeFault::Write),
    }
    match output.flush() {
        Ok(()) => Ok(()),
        Err(_) => Err(ServeFault::Write),
    }
}

/// A new connection; its opening SETTINGS is appended to `out`.
pub(crate) fn open<'b, O: Outgoing<'b, Global>>(
    book: &'b Book<Global>,
    config: Config,
    out: &mut O,
) -> Result<Conn<'b, Global>, ServeFault>
    ensures ok { OnOk result (is_allowed config ≡ true) }
    ensures opened { IfOk result (λ conn. conn ≡ going (opening book.now config) []) }
    ensures sent { OnOk result (O.octets out.new ≡ O.octets out.old ++ opening_octets config) }
    ensures err { IfErr result (λ fault. fault ≡ opening_fault (is_allowed config)) }
{
    match Conn::new(book, config, out) {
        Ok(conn) => Ok(conn),
        Err(ConnFault::BadConfig) => Err(ServeFault::BadConfig),
        Err(_) => Err(ServeFault::NoMemory),
    }
}

/// Accepts a client, drives its connection to its end, closes its wire, and prints its line.
fn serve_next<L: Listener, O: Output>(
    alloc: Global,
    listener: &mut L,
    book: &Book<Global>,
    config: Config,
    number: u32,
    output: &mut O,
) -> Result<(), ServeFault>
    requires allowed { is_allowed config ≡ true }
    requires writer { O.has_failed output.old ≡ false }
    ensures lines { AcceptsAs (start_of book.now config) number (O.written output.old) (O.written output.new)
        (L.events listener.old) (L.events listener.new) result }
    ensures wires { HandlesSome (start_of book.now config) 1 (L.events listener.old) (L.events listener.new) }
    ensures flag { O.has_failed output.new ≡ not_written result }
    ensures name { O.name output.new ≡ O.name output.old }
{
    let mut wire = match listener.accept() {
        Ok(wire) => wire,
        Err(_) => return Err(ServeFault::Socket),
    };
    let mut out = Outbox::new(alloc);
    let mut conn = open(book, config, &mut out)?;
    let end = drive(&mut conn, &mut out, &mut wire, TURNS);
    listener.close(wire);
    print(output, &EndLine { number, end })
}

/// Serves `count` connections of a listener, one after another, and prints a line about how each of them ended:
///
/// - `connection K end input`: the client ended its side.
/// - `connection K end goaway CODE`: a connection error ended the connection (RFC 9113, 5.4.1).
/// - `connection K fault N`: the connection could not be driven to its end; N is the number of a `DriveFault`.
///
/// The last call of the output must not have failed. The first connection is 1. Each line is flushed. Whatever a client
/// does ends its own connection only. A client that sends nothing and stays connected blocks the next one: there is no
/// timeout.
///
/// # Errors
///
/// - `BadConfig` where a limit or a setting is out of range: nothing was accepted or printed, for count 0 too.
/// - `Socket` where a connection could not be accepted for another reason than that its client went away.
/// - `Write` where a line could not be written; some octets of it may have been.
/// - `NoMemory` where there is no memory for a new connection.
///
/// After `Socket` and `NoMemory` the lines of the connections before are printed.
pub fn serve_over<L: Listener, O: Output>(
    alloc: Global,
    listener: &mut L,
    book: &Book<Global>,
    config: Config,
    count: u32,
    output: &mut O,
) -> Result<(), ServeFault>
    requires writer { O.has_failed output.old ≡ false }
    ensures refused { is_allowed config ≡ false → result ≡ Err ServeFault.BadConfig }
    ensures allowed { result ≡ Err ServeFault.BadConfig → is_allowed config ≡ false }
    ensures lines { ServesAs (start_of book.now config) count (O.written output.old) (O.written output.new)
        (L.events listener.old) (L.events listener.new) result }
    ensures wires { HandlesSome (start_of book.now config) count (L.events listener.old) (L.events listener.new) }
    ensures flag { O.has_failed output.new ≡ not_written result }
    ensures name { O.name output.new ≡ O.name output.old }
{
    open(book, config, &mut Vec::new(alloc))?;
    for served in 0..count {
        serve_next(alloc, listener, book, config, served + 1, output)?;
    }
    Ok(())
}

/// Serves `count` connections of a TCP listener as `serve_over` does.
///
/// # Errors
///
/// Those of `serve_over`.
pub fn serve_on<W: Write>(
    alloc: Global,
    listener: &TcpListener,
    book: &Book<Global>,
    config: Config,
    count: u32,
    output: &mut W,
) -> Result<(), ServeFault>
    ensures refused { is_allowed config ≡ false → result ≡ Err ServeFault.BadConfig }
    ensures allowed { result ≡ Err ServeFault.BadConfig → is_allowed config ≡ false }
    ensures lines { ServesAs (start_of book.now config) count (W.contents output.old) (W.contents output.new) None None result }
{
    let mut into = IntoWrite::new(output);
    let mut clients = TcpClients::new(listener);
    let served = serve_over(alloc, &mut clients, book, config, count, &mut into);
    // The proof reads what the output holds from this use of the reference.
    let writer = into.into_inner();
    let _writer = &*writer;
    served
}

/// Listens on `port` of 127.0.0.1, and prints `listening PORT`.
///
/// `Socket` where the port cannot be listened on: nothing was printed. `Write` where the line could not be written.
pub(crate) fn listen<P: Port, O: Output>(
    net: &mut P,
    port: u16,
    output: &mut O,
) -> Result<(), ServeFault>
    requires writer { O.has_failed output.old ≡ false }
    ensures ok { OnOk result (Gains (O.written output.old) (O.written output.new) (listening_line port)) }
    ensures err { IfErr result (λ fault. (fault ≡ ServeFault.Write)
        ⊎ ((fault ≡ ServeFault.Socket) × (O.written output.new ≡ O.written output.old))) }
    ensures wires { OnOk result (P.Listener.events net.new ≡ grown (P.Listener.events net.old) (Listening localhost port ∷ [])) }
    ensures few { OnErr result ((P.Listener.events net.new ≡ P.Listener.events net.old)
        ⊎ (P.Listener.events net.new ≡ grown (P.Listener.events net.old) (Listening localhost port ∷ []))) }
    ensures flag { O.has_failed output.new ≡ not_written result }
    ensures grew { not_written result ≡ false → Grew (O.written output.old) (O.written output.new) }
    ensures name { O.name output.new ≡ O.name output.old }
{
    match net.listen([127, 0, 0, 1], port) {
        Ok(()) => print(output, &ListeningLine(port)),
        Err(_) => Err(ServeFault::Socket),
    }
}

/// Listens on `port` of 127.0.0.1, prints `listening PORT`, and serves `count` connections as `serve_over` does.
///
/// # Errors
///
/// `Socket` where the port cannot be listened on: nothing was printed. Then those of `serve_over`, after the line
/// `listening PORT`.
pub fn listen_and_serve<P: Port, O: Output>(
    alloc: Global,
    net: &mut P,
    book: &Book<Global>,
    config: Config,
    port: u16,
    count: u32,
    output: &mut O,
) -> Result<(), ServeFault>
    requires writer { O.has_failed output.old ≡ false }
    ensures lines { ListensAs (start_of book.now config) (is_allowed config) port count (O.written output.old) (O.written output.new)
        (P.Listener.events net.old) (P.Listener.events net.new) result }
    ensures wires { ListensSome (start_of book.now config) port count (P.Listener.events net.old) (P.Listener.events net.new) }
    ensures flag { O.has_failed output.new ≡ not_written result }
    ensures name { O.name output.new ≡ O.name output.old }
{
    listen(net, port, output)?;
    serve_over(alloc, net, book, config, count, output)
}
