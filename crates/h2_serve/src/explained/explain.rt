//! The clients of a port, one after another, whose connections are explained as their octets come.
//! Definitions: `specs/ExplainedConns.antt`, `specs/Ports.antt` and `specs/Shown.antt`.

ghost use Rattle.std.specs.Prelude.{◌≡◌, ◌⊎◌, ◌==◌, ℕ, List, [], ◌∷◌, false, true, IfErr, IfOk, OnErr, OnOk, Ok, Err, is_none};
ghost use Rattle.h2_conn.specs.Connection.{going};
ghost use Rattle.h2_serve.specs.Drives.{HasRead, is_out_of_memory};
ghost use Rattle.h2_serve.specs.Wires.{grown};
ghost use Rattle.h2_spec.specs.State.{is_allowed};
ghost use Rattle.h2_serve.specs.Faults.{faults_limits, is_of_printing, not_written};
ghost use Rattle.h2_serve.specs.Lines.{end_line, listening_line};
ghost use Rattle.h2_serve.specs.Ports.{HandlesSome, IsDriven, Listening, ListensSome, localhost, seen, start_of};
ghost use Rattle.h2_serve.specs.Serves.{Gains, Grew};
ghost use Rattle.h2_serve.specs.Shown.{GainsAllShown, GainsShown, GainsSomeShown, clients_status, no_clients, told_end, unwritten, with_client};
ghost use Rattle.h2_serve.specs.ExplainedConns.{Shows};

use crate::explained::explained_conn::{Conclusion, ExplainedConn};
use crate::explained::keeper::Keeper;
use crate::explained::numbered::{Printer, prefix_of};
use crate::fault::ServeFault;
use crate::lines::{EndLine, OpenLine};
use crate::port::{Listener, Port};
use crate::server::{TURNS, listen, open, print};
use crate::{DriveEnd, DriveFault, Wire, drive_with};
use h2_conn::Conn;
use h2_explain::{ClientVerdict, Form, ItemOutbox, RunExplainer, Summary};
use h2_io::Output;
use h2_request_book::book::Book;
use h2_spec::connection::Config;
use std::alloc::Global;

/// How a connection ended that was explained.
#[derive(Clone, Copy)]
pub struct ClientEnd {
    pub end: Result<DriveEnd, DriveFault>,
    /// What is known of it then; or why not all that was explained was printed.
    pub conclusion: Result<Conclusion, ServeFault>,
}

/// Drives a connection over a wire to its end, in at most `turns` turns, and prints what `explain` says of the octets
/// that are read, after each read, each line after the number of the connection. What is written to the wire is what
/// `drive` writes. The last call of the wire and that of the output must not have failed.
///
/// # Errors
///
/// `NoMemory` where memory is refused at the start: nothing was read, written or printed.
pub fn explain_over<'b, O: Output, K: Keeper, S: Wire>(
    alloc: Global,
    form: Form,
    conn: Conn<'b, Global>,
    number: u32,
    out: &mut ItemOutbox<'b, Global>,
    wire: &mut S,
    turns: u32,
    keeper: &mut K,
    output: &mut O,
) -> Result<ClientEnd, ServeFault>
    requires new { conn ≡ going conn.state [] }
    requires open { S.has_failed wire.old ≡ false }
    requires writer { O.has_failed output.old ≡ false }
    ensures drives { IfOk result (λ shown. IsDriven turns conn.entry.state out.old
        (seen (S.octets_read wire.old) (S.octets_written wire.old) (S.read_lengths wire.old) (S.has_failed wire.old)) out.new
        (seen (S.octets_read wire.new) (S.octets_written wire.new) (S.read_lengths wire.new) (S.has_failed wire.new)) shown.end) }
    ensures shows { IfOk result (λ shown. IfOk shown.conclusion (λ x.
        HasRead (Shows form number x conn.entry.state (O.written output.old) (O.written output.new))
        (S.octets_read wire.old) (S.octets_read wire.new))) }
    ensures lost { IfOk result (λ shown. IfOk shown.conclusion (λ x. is_none x.summary ≡ is_out_of_memory shown.end)) }
    ensures fault { IfOk result (λ shown. IfErr shown.conclusion (λ fault. is_of_printing fault ≡ true)) }
    ensures err { IfErr result (λ fault. fault ≡ ServeFault.NoMemory) }
    ensures unchanged { OnErr result ((wire.new ≡ wire.old) × (out.new ≡ out.old)) }
    ensures not_printed { OnErr result (O.written output.new ≡ O.written output.old) }
    ensures flag { O.has_failed output.new ≡ unwritten result }
    ensures grew { IfOk result (λ shown. not_written shown.conclusion ≡ false → Grew (O.written output.old) (O.written output.new)) }
{
    // A new connection has not failed; the proof reads here that it has no item.
    if conn.failed() {
        return Err(ServeFault::NoMemory);
    }
    let Ok(prefix) = prefix_of(alloc, form.json, number) else {
        return Err(ServeFault::NoMemory);
    };
    let Ok(explanation) = RunExplainer::new(alloc, form) else {
        return Err(ServeFault::NoMemory);
    };
    let printer = Printer::new(alloc, output, prefix, form.json);
    let mut watched = ExplainedConn {
        alloc,
        conn,
        explanation,
        printer,
        keeper,
        came: 0,
        failed: false,
    };
    let end = drive_with(&mut watched, out, wire, turns);
    let (conclusion, writer) = watched.finish();
    // The proof reads what the output holds from this use of the reference.
    let _writer = &*writer;
    Ok(ClientEnd { end, conclusion })
}

impl ClientEnd {
    /// Whether the output failed.
    fn is_unwritten(&self) -> bool
        ensures { result ≡ not_written self.now.conclusion }
    {
        match self.conclusion {
            Ok(_) => false,
            Err(fault) => fault.is_write(),
        }
    }
}

/// How the line says that a connection ended: out of memory where some of its explanation is missing.
fn told_end(shown: ClientEnd) -> Result<DriveEnd, DriveFault>
    ensures { IfOk shown.conclusion (λ x. result ≡ told_end x.is_cut shown.end) }
{
    match shown.conclusion {
        Ok(conclusion) => {
            if conclusion.is_cut {
                Err(DriveFault::NoMemory)
            } else {
                shown.end
            }
        }
        Err(_) => shown.end,
    }
}

/// Prints the line of how a connection ended that was explained, unless the output failed before.
fn print_end<O: Output>(
    number: u32,
    shown: ClientEnd,
    output: &mut O,
) -> Result<Conclusion, ServeFault>
    requires writer { O.has_failed output.old ≡ not_written shown.conclusion }
    ensures ok { IfOk result (λ x. Gains (O.written output.old) (O.written output.new) (end_line number (told_end x.is_cut shown.end))) }
    ensures conclusion { IfOk result (λ x. shown.conclusion ≡ Ok x) }
    ensures fault { IfErr shown.conclusion (λ fault. is_of_printing fault ≡ true) → IfErr result (λ fault. is_of_printing fault ≡ true) }
    ensures flag { O.has_failed output.new ≡ not_written result }
    ensures grew { not_written result ≡ false → (not_written shown.conclusion ≡ false) × Grew (O.written output.old) (O.written output.new) }
{
    if shown.is_unwritten() {
        return Err(ServeFault::Write);
    }
    let end = told_end(shown);
    print(output, &EndLine { number, end })?;
    shown.conclusion
}

/// Whether all that was sent for the last read was written.
fn is_written(end: Result<DriveEnd, DriveFault>) -> bool {
    !matches!(end, Err(DriveFault::NoMemory) | Err(DriveFault::Write))
}

/// Accepts a client, prints that its connection is open, drives it to its end, explains it, closes its wire, and prints
/// its line.
fn explain_next<L: Listener, O: Output, K: Keeper>(
    alloc: Global,
    listener: &mut L,
    book: &Book<Global>,
    config: Config,
    form: Form,
    number: u32,
    keeper: &mut K,
    output: &mut O,
) -> Result<Conclusion, ServeFault>
    requires writer { O.has_failed output.old ≡ false }
    ensures shown { IfOk result (λ x. GainsShown form (start_of book.now config) number x.summary
        (O.written output.old) (O.written output.new) (L.events listener.old) (L.events listener.new)) }
    ensures wires { HandlesSome (start_of book.now config) 1 (L.events listener.old) (L.events listener.new) }
    ensures fault { is_allowed config ≡ true → IfErr result (λ fault. faults_limits fault ≡ false) }
    ensures socket { IfErr result (λ fault. fault ≡ ServeFault.Socket → (O.written output.new ≡ O.written output.old)
        × (L.events listener.new ≡ L.events listener.old)) }
    ensures flag { O.has_failed output.new ≡ not_written result }
    ensures grew { not_written result ≡ false → Grew (O.written output.old) (O.written output.new) }
{
    let mut wire = match listener.accept() {
        Ok(wire) => wire,
        Err(_) => return Err(ServeFault::Socket),
    };
    print(output, &OpenLine(number))?;
    let mut out = ItemOutbox::new(alloc);
    let conn = open(book, config, &mut out)?;
    keeper.begin(number, out.since(0).unwrap_or_default());
    let shown = explain_over(
        alloc, form, conn, number, &mut out, &mut wire, TURNS, keeper, output,
    );
    match shown {
        Ok(shown) => {
            keeper.end(is_written(shown.end));
            listener.close(wire);
            print_end(number, shown, output)
        }
        Err(fault) => {
            keeper.end(false);
            Err(fault)
        }
    }
}

/// The verdict on the clients of some connections together.
#[derive(Clone, Copy)]
pub struct Clients {
    pub verdict: ClientVerdict,
    /// Whether a connection error ended one of the connections (RFC 9113, 5.4.1).
    pub ended: bool,
    /// Whether memory was refused while one of them was driven, so that nothing sums it up.
    pub lost: bool,
}

impl Clients {
    /// The verdict on no clients.
    pub fn none() -> Clients
        ensures { result ≡ no_clients }
    {
        Clients {
            verdict: ClientVerdict {
                broken: false,
                limited: false,
                unfinished: false,
            },
            ended: false,
            lost: false,
        }
    }

    /// With one client more; where nothing sums up its connection, the verdict on it is lost.
    pub fn with(self, summary: Option<Summary>) -> Clients
        ensures { result ≡ with_client self summary }
    {
        let Some(summary) = summary else {
            return Clients {
                verdict: self.verdict,
                ended: self.ended,
                lost: true,
            };
        };
        Clients {
            verdict: ClientVerdict {
                broken: self.verdict.broken || summary.verdict.broken,
                limited: self.verdict.limited || summary.verdict.limited,
                unfinished: self.verdict.unfinished || summary.verdict.unfinished,
            },
            ended: self.ended || summary.ended.is_some(),
            lost: self.lost,
        }
    }

    /// The exit status of `--strict`: 1 where the verdict on a client is lost, else that of the verdict on one client that
    /// did all this.
    pub fn status(self) -> u8
        ensures value { result ≡ clients_status self }
        ensures other { (result == 3) ≡ false }
    {
        if self.lost {
            1
        } else {
            self.verdict.status(self.ended)
        }
    }
}

/// Serves `count` connections of a listener, one after another, as `serve_on` does, and explains each of them: it prints
/// `connection K open` when one is accepted, then what `explain` says of it, after each read, each line after `K: `, or
/// in JSON with the member `connection`, and then its line of `serve_on`. Each is flushed.
///
/// # Errors
///
/// Those of `serve_on`; `Write` and `NoMemory` also where some of an explanation was not printed. After `Socket` fewer connections
/// are printed whole, and nothing else.
pub fn explain_on<L: Listener, O: Output, K: Keeper>(
    alloc: Global,
    listener: &mut L,
    book: &Book<Global>,
    config: Config,
    form: Form,
    count: u32,
    keeper: &mut K,
    output: &mut O,
) -> Result<Clients, ServeFault>
    requires writer { O.has_failed output.old ≡ false }
    ensures refused { is_allowed config ≡ false → result ≡ Err ServeFault.BadConfig }
    ensures allowed { IfErr result (λ fault. faults_limits fault ≡ true → (is_allowed config ≡ false)
        × (O.written output.new ≡ O.written output.old) × (L.events listener.new ≡ L.events listener.old)) }
    ensures shown { IfOk result (λ clients. GainsAllShown form (start_of book.now config) [] count clients
        (O.written output.old) (O.written output.new) (L.events listener.old) (L.events listener.new)) }
    ensures wires { HandlesSome (start_of book.now config) count (L.events listener.old) (L.events listener.new) }
    ensures socket { IfErr result (λ fault. fault ≡ ServeFault.Socket → GainsSomeShown form (start_of book.now config) [] count
        (O.written output.old) (O.written output.new) (L.events listener.old) (L.events listener.new)) }
    ensures flag { O.has_failed output.new ≡ not_written result }
    ensures grew { not_written result ≡ false → Grew (O.written output.old) (O.written output.new) }
{
    open(book, config, &mut Vec::new(alloc))?;
    let mut clients = Clients::none();
    for served in 0..count {
        let conclusion = explain_next(
            alloc,
            listener,
            book,
            config,
            form,
            served + 1,
            keeper,
            output,
        )?;
        clients = clients.with(conclusion.summary);
    }
    Ok(clients)
}

/// Listens on `port` of 127.0.0.1, prints `listening PORT`, and serves and explains `count` connections as `explain_on`
/// does.
///
/// # Errors
///
/// `Socket` where the port cannot be listened on: nothing was printed. Then those of `explain_on`, after the line
/// `listening PORT`.
pub fn listen_and_explain<P: Port, O: Output, K: Keeper>(
    alloc: Global,
    net: &mut P,
    book: &Book<Global>,
    config: Config,
    form: Form,
    port: u16,
    count: u32,
    keeper: &mut K,
    output: &mut O,
) -> Result<Clients, ServeFault>
    requires writer { O.has_failed output.old ≡ false }
    ensures shown { IfOk result (λ clients. (is_allowed config ≡ true)
        × GainsAllShown form (start_of book.now config) (listening_line port) count clients (O.written output.old) (O.written output.new)
        (grown (P.Listener.events net.old) (Listening localhost port ∷ [])) (P.Listener.events net.new)) }
    ensures wires { ListensSome (start_of book.now config) port count (P.Listener.events net.old) (P.Listener.events net.new) }
    ensures allowed { IfErr result (λ fault. faults_limits fault ≡ true → (is_allowed config ≡ false)
        × Gains (O.written output.old) (O.written output.new) (listening_line port)) }
    ensures socket { IfErr result (λ fault. fault ≡ ServeFault.Socket → (O.written output.new ≡ O.written output.old)
        ⊎ GainsSomeShown form (start_of book.now config) (listening_line port) count (O.written output.old) (O.written output.new)
        (grown (P.Listener.events net.old) (Listening localhost port ∷ [])) (P.Listener.events net.new)) }
    ensures flag { O.has_failed output.new ≡ not_written result }
    ensures grew { not_written result ≡ false → Grew (O.written output.old) (O.written output.new) }
{
    listen(net, port, output)?;
    explain_on(alloc, net, book, config, form, count, keeper, output)
}
