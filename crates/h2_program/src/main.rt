//! The program: the commands, and the devices of the host that runs them.
#![tactic(auto)]

ghost use Rattle.std.specs.Prelude.{◌≡◌, false};

mod peer;

use crate::peer::TcpPeer;
use h2_cmd_against::against::judge_server;
use h2_cmd_args::command::{Against, Debug, Refusal, Serve};
use h2_cmd_book_file::Files;
use h2_cmd_inject::{ScriptKeeper, inject};
use h2_cmd_run::{Keeper, NoKeeper, Plan, TcpPort, carry_out, debug_over, form_of, serve};
use h2_host::{Commands, Ending, NamedFiles, Noted, ServerOutput, Stopwatch, run_program};
use h2_host_recording::{recordings_for, refuse_recording};
use h2_io::{Input, IntoWrite, Output};
use std::alloc::Global;
use std::io::Write;
use std::process::ExitCode;

/// What to do about clients that open more than one connection.
const POOLS: &str =
    "one connection is served after another: a further one hangs until the one before has ended; --streams 1000 here, in haproxy http-reuse always and nbthread 1, in Go StrictMaxConcurrentStreams keep a client to one.\n";

/// Serves, as the words ask for, and gives each connection to `keeper`.
fn serve_kept<'t, 'c, W: Write, K: Keeper>(
    rt: &HostRuntime,
    plan: &Serve<'_>,
    times: Option<&'t Stopwatch<'c, HostRuntime>>,
    keeper: &mut K,
    output: &mut W,
) -> Ending {
    let mut files = NamedFiles { rt };
    let mut stderr = rt.stderr();
    let mut errors = IntoWrite::new(&mut stderr);
    let mut noted = Noted::new(&mut errors);
    let mut looked = ServerOutput::new(rt.alloc(), output, rt.stderr(), !plan.book.why, times);
    let mut written = IntoWrite::new(&mut looked);
    let mut port = TcpPort::new(rt);
    let status = serve(
        rt.alloc(),
        &mut port,
        plan,
        &mut files,
        keeper,
        &mut written,
        &mut noted,
    );
    Ending {
        unbound: port.failure(),
        ..Ending::of(status, noted.is_written())
    }
}

/// Plays a dialogue, as the words ask for, and gives each connection to `keeper`.
fn inject_kept<W: Write, K: ScriptKeeper>(
    rt: &HostRuntime,
    plan: &Serve<'_>,
    keeper: &mut K,
    output: &mut W,
) -> Ending {
    let mut files = NamedFiles { rt };
    let mut stderr = rt.stderr();
    let mut errors = IntoWrite::new(&mut stderr);
    let mut noted = Noted::new(&mut errors);
    let mut written = IntoWrite::new(output);
    let mut guests = TcpPeer::new(rt, 0);
    let status = inject(
        rt.alloc(),
        plan,
        form_of(plan.watch),
        &mut guests,
        &mut files,
        keeper,
        &mut written,
        &mut noted,
    );
    let unbound = guests.failure();
    // `not ok` has the status of a fault, and needs no sentence.
    let is_said = noted.is_written() || (unbound.is_none() && plan.config.is_allowed());
    Ending {
        unbound,
        ..Ending::of(status, is_said)
    }
}

/// Plays a dialogue, as the words ask for.
fn inject_over<W: Write>(rt: &HostRuntime, plan: &Serve<'_>, output: &mut W) -> Ending {
    match recordings_for(rt, plan, None) {
        None => inject_kept(rt, plan, &mut NoKeeper, output),
        Some(Ok(mut records)) => inject_kept(rt, plan, &mut records, output),
        Some(Err(error)) => Ending::of(refuse_recording(rt, plan, &error, output), true),
    }
}

/// Serves, as the words ask for.
fn serve_over<'x, W: Write>(rt: &'x HostRuntime, plan: &'x Serve<'_>, output: &mut W) -> Ending {
    if !plan.watch.inject.is_empty() {
        return inject_over(rt, plan, output);
    }
    if plan.watch.explain && plan.book.why {
        let _ = rt.stderr().write_all(POOLS.as_bytes());
    }
    let stopwatch = Stopwatch::new(rt);
    let times = if plan.watch.times {
        Some(&stopwatch)
    } else {
        None
    };
    match recordings_for(rt, plan, times) {
        None => serve_kept(rt, plan, times, &mut NoKeeper, output),
        Some(Ok(mut records)) => serve_kept(rt, plan, times, &mut records, output),
        Some(Err(error)) => Ending::of(refuse_recording(rt, plan, &error, output), true),
    }
}

/// Judges a server, as the words ask for.
fn judge_over<W: Write>(rt: &HostRuntime, plan: &Against<'_>, output: &mut W) -> Ending {
    let mut files = NamedFiles { rt };
    let mut stderr = rt.stderr();
    let mut errors = IntoWrite::new(&mut stderr);
    let mut noted = Noted::new(&mut errors);
    let mut written = IntoWrite::new(output);
    let port = u16::try_from(plan.port).unwrap_or(0);
    let mut peer = TcpPeer::new(rt, port);
    let status = judge_server(
        rt.alloc(),
        plan,
        &mut peer,
        &mut files,
        &mut written,
        &mut noted,
    );
    Ending::of(status, noted.is_written())
}

/// The commands as h2_cmd_run has them.
#[derive(Clone, Copy)]
struct Program;

impl Commands for Program {
    fn carry_out<F: Files, I: Input, O: Output, E: Output>(
        &self,
        alloc: Global,
        asked: &Result<Plan<'_>, Refusal>,
        files: &mut F,
        input: &mut I,
        output: &mut O,
        errors: &mut E,
    ) -> u8 {
        carry_out(alloc, asked, files, input, output, errors)
    }

    fn debug_over<F: Files, I: Input, O: Output, E: Output>(
        &self,
        alloc: Global,
        debug: &Debug<'_>,
        raw: bool,
        text: Vec<u8>,
        files: &mut F,
        input: &mut I,
        output: &mut O,
        errors: &mut E,
    ) -> u8 {
        debug_over(alloc, debug, raw, text, files, input, output, errors)
    }

    fn serve<W: Write>(&self, rt: &HostRuntime, plan: &Serve<'_>, output: &mut W) -> Ending {
        serve_over(rt, plan, output)
    }

    fn against<W: Write>(&self, rt: &HostRuntime, plan: &Against<'_>, output: &mut W) -> Ending {
        judge_over(rt, plan, output)
    }
}

fn main(rt: HostRuntime) -> ExitCode {
    run_program(&rt, &Program)
}
