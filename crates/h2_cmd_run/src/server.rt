//! The program `serve`: connections of a port, one after another. Definitions: `specs/ProgramEnd.antt`, and `Serves` of
//! h2_serve.

ghost use Rattle.std.specs.Prelude.{◌≡◌, ◌==◌, ◌⊎◌, List, true, false, if◌then◌else◌, Ok, Err, IfErr, IfOk, IsOk, OnOk, OnErr};
ghost use Rattle.h2_cmd_args.specs.Plans.{book_asked};
ghost use Rattle.h2_cmd_batch.specs.Books.{book_said};
ghost use Rattle.h2_cmd_batch.specs.CommandEnd.{KnowsFile};
ghost use Rattle.h2_cmd_run.specs.ProgramEnd.{DrivesNoOther, EndsInFault, EndsShown, IsReported, IsServed};
ghost use Rattle.h2_cmd_batch.specs.Faults.{fault_line, fault_number};
ghost use Rattle.h2_serve.specs.Faults.{not_written};
ghost use Rattle.h2_serve.specs.Ports.{ListensSome, start_of};
ghost use Rattle.h2_serve.specs.Serves.{Gains};
ghost use Rattle.h2_spec.specs.Requests.Answer.{Entry};
ghost use Rattle.h2_cmd_run.specs.ExplainProgram.{form_of};
ghost use Rattle.h2_serve.specs.Shown.{clients_status};
ghost use Rattle.h2_cmd_args.specs.Plans.{report_asked};

use h2_cmd_args::command::{Serve, ServeReport};
use h2_cmd_batch::{BenchFault, advise, book_for_words};
use h2_cmd_book_file::Files;
use h2_explain::Form;
use h2_io::Output;
use h2_request_book::book::Book;
use h2_serve::{Clients, Keeper, Port, ServeFault, listen_and_explain, listen_and_serve};
use std::alloc::Global;

/// Writes the line of a fault, and gives status 1, or 3 where that failed.
fn refuse<O: Output>(output: &mut O, fault: BenchFault) -> u8
    requires writer { O.has_failed output.old ≡ false }
    ensures status { (result ≡ 1) ⊎ (result ≡ 3) }
    ensures line { result ≡ 1 → Gains (O.written output.old) (O.written output.new) (fault_line (fault_number fault)) }
    ensures flag { O.has_failed output.new ≡ (result == 3) }
{
    match output.write(fault.line().as_bytes()) {
        Ok(()) => 1,
        Err(_) => 3,
    }
}

/// The exit status of a server that ended so; the line of its fault is written, unless the output failed.
fn status_of<O: Output>(output: &mut O, ended: Result<(), ServeFault>) -> u8
    requires writer { O.has_failed output.old ≡ not_written ended }
    ensures ok { OnOk ended (O.written output.new ≡ O.written output.old) }
    ensures err { OnErr ended ((result ≡ 1) ⊎ (result ≡ 3)) }
    ensures line { result ≡ 1 → IsReported ended (O.written output.old) (O.written output.new) }
    ensures status { (result ≡ 0) ⊎ ((result ≡ 1) ⊎ (result ≡ 3)) }
    ensures flag { O.has_failed output.new ≡ (result == 3) }
{
    match ended {
        Ok(()) => 0,
        Err(ServeFault::NoMemory) => refuse(output, BenchFault::NoMemory),
        Err(ServeFault::BadConfig) => refuse(output, BenchFault::BadConfig),
        Err(ServeFault::Socket) => refuse(output, BenchFault::Socket),
        Err(ServeFault::Write) => 3,
    }
}

/// The form in which the words ask for an explanation.
pub fn form_of(watch: ServeReport<'_>) -> Form
    ensures { result ≡ form_of (report_asked watch.entry).view }
{
    Form {
        json: watch.json,
        color: watch.color,
        strict: watch.strict,
        full: watch.full,
        brief: watch.brief,
        errors: watch.errors,
        stream: watch.stream,
    }
}

/// The exit status of a server that explained and ended so; the line of its fault is written. With `--strict` it is that
/// of the verdict on the clients.
fn explained_status<O: Output>(
    output: &mut O,
    strict: bool,
    ended: Result<Clients, ServeFault>,
) -> u8
    requires writer { O.has_failed output.old ≡ not_written ended }
    ensures ok { IfOk ended (λ clients. (O.written output.new ≡ O.written output.old)
        × (result ≡ (if strict then clients_status clients else 0))) }
    ensures err { OnErr ended ((result ≡ 1) ⊎ (result ≡ 3)) }
    ensures line { IfErr ended (λ fault. result ≡ 1 → IsReported (Err fault) (O.written output.old) (O.written output.new)) }
    ensures flag { O.has_failed output.new ≡ (result == 3) }
{
    match ended {
        Ok(clients) => { if strict { clients.status() } else { 0 } }
        Err(fault) => status_of(output, Err(fault)),
    }
}

/// Serves and explains connections of a port.
fn explain<P: Port, O: Output, K: Keeper>(
    alloc: Global,
    net: &mut P,
    plan: &Serve<'_>,
    book: &Book<Global>,
    port: u16,
    keeper: &mut K,
    output: &mut O,
) -> u8
    requires writer { O.has_failed output.old ≡ false }
    ensures shown { EndsShown (λ entries. entries ≡ book.now) (form_of (report_asked plan.now.watch).view) plan.now.config port plan.now.count
        (O.written output.old) (O.written output.new) (P.Listener.events net.old) (P.Listener.events net.new) result }
    ensures wires { ListensSome (start_of book.now plan.now.config) port plan.now.count (P.Listener.events net.old) (P.Listener.events net.new) }
    ensures flag { O.has_failed output.new ≡ (result == 3) }
{
    let form = form_of(plan.watch);
    let ended = listen_and_explain(
        alloc,
        net,
        book,
        plan.config,
        form,
        port,
        plan.count,
        keeper,
        output,
    );
    explained_status(output, plan.watch.strict, ended)
}

/// Serves connections of a port, as the words asked, and gives the exit status. The book is made first, then the port is
/// listened on. Where the words ask for it, each connection is explained as its octets come, and kept by `keeper`.
///
/// 0: all connections were served. 1: a fault ended it, and its line was written; or, with `--strict`, memory was refused
/// for a connection, whose line says so. 3: the output failed, and only then. 4 to 7: with `--strict`, the verdict on the clients.
pub fn serve<P: Port, F: Files, K: Keeper, O: Output, E: Output>(
    alloc: Global,
    net: &mut P,
    plan: &Serve<'_>,
    files: &mut F,
    keeper: &mut K,
    output: &mut O,
    errors: &mut E,
) -> u8
    requires writer { O.has_failed output.old ≡ false }
    ensures served { plan.now.watch.explain ≡ false → result ≡ 0 → (entries : List Entry)
        × (KnowsFile plan.now.book.file.now (F.is_printed files.old) → book_said (F.file files.old) (book_asked plan.now.book) ≡ Ok entries)
        × IsServed entries plan.now.config plan.now.port plan.now.count (O.written output.old) (O.written output.new)
        (P.Listener.events net.old) (P.Listener.events net.new) }
    ensures shown { plan.now.watch.explain ≡ true → EndsShown
        (λ entries. KnowsFile plan.now.book.file.now (F.is_printed files.old) → book_said (F.file files.old) (book_asked plan.now.book) ≡ Ok entries)
        (form_of (report_asked plan.now.watch).view) plan.now.config plan.now.port plan.now.count
        (O.written output.old) (O.written output.new) (P.Listener.events net.old) (P.Listener.events net.new) result }
    ensures wires { DrivesNoOther
        (λ entries. KnowsFile plan.now.book.file.now (F.is_printed files.old) → book_said (F.file files.old) (book_asked plan.now.book) ≡ Ok entries)
        plan.now.config plan.now.port plan.now.count (P.Listener.events net.old) (P.Listener.events net.new) }
    ensures made { result ≡ 0 → KnowsFile plan.now.book.file.now (F.is_printed files.old)
        → IsOk (book_said (F.file files.old) (book_asked plan.now.book)) }
    ensures status { plan.now.watch.explain ≡ false → (result ≡ 0) ⊎ ((result ≡ 1) ⊎ (result ≡ 3)) }
    ensures refused { plan.now.watch.explain ≡ false → result ≡ 1
        → EndsInFault plan.now.port plan.now.count (O.written output.old) (O.written output.new) }
    ensures flag { O.has_failed output.new ≡ (result == 3) }
    ensures quiet { plan.now.book.why ≡ false → errors.new ≡ errors.old }
    ensures same_files { F.file files.new ≡ F.file files.old }
{
    let book = match book_for_words(alloc, &plan.book, files, errors) {
        Ok(book) => book,
        Err(fault) => return refuse(output, fault),
    };
    advise(alloc, plan.config, plan.book.why, errors);
    let Ok(port) = u16::try_from(plan.port) else {
        return refuse(output, BenchFault::Socket);
    };
    if plan.watch.explain {
        return explain(alloc, net, plan, &book, port, keeper, output);
    }
    let ended = listen_and_serve(alloc, net, &book, plan.config, port, plan.count, output);
    status_of(output, ended)
}
