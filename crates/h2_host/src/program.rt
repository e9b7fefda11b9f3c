//! What the words of the command line ask for is done over the devices that they name, and what there is to say about a fault
//! is said.

use crate::case_input::{CaseInput, case_input, path_of};
use crate::commands::Commands;
use crate::devices::file_word::with_file;
use crate::devices::files::NamedFiles;
use crate::devices::input::{Given, Standard, input_of, is_session, refusal_for_devices};
use crate::ending::{Ending, end};
use crate::{SessionOutput, SessionState, WaitingOutput, version};
use h2_cmd_args::Words;
use h2_cmd_args::command::{Command, Devices, Plan, Refusal, parse_command};
use h2_io::{FromRead, Gathered, IntoWrite, Output};
use std::io;
use std::io::{BufWriter, ErrorKind, Write};
use std::process::ExitCode;

/// How many octets of output are gathered before they are written.
const GATHERED: usize = 32768;

/// The words of the command line, the program's name first.
fn words_of(rt: &HostRuntime) -> io::Result<Words> {
    let mut words = Words::new(rt.alloc());
    for word in std::env::args(rt)? {
        words.add(word.as_str())?;
    }
    Ok(words)
}

/// Says why nothing is done: memory was refused, or a word is not UTF-8.
fn refuse<W: Write>(output: &mut W, error: &io::Error) -> ExitCode {
    let (text, status) = match error.kind() {
        io::ErrorKind::InvalidData => ("error: a word of the command line is not UTF-8\n", 2),
        _ => ("fault 0\n", 1),
    };
    match output.write_all(text.as_bytes()) {
        Ok(()) => ExitCode::from(status),
        Err(_) => ExitCode::from(3),
    }
}

/// What words say of devices that are refused: whether they ask for quiet.
fn refused_devices(words: &Words) -> Devices<'static> {
    Devices {
        file: "",
        raw: false,
        quiet: words
            .as_slice()
            .iter()
            .any(|word| word.as_str() == "--quiet"),
        prompt: "",
    }
}

/// What the words ask for, and over which devices.
fn asked_of<'w>(rt: &HostRuntime, words: &'w Words) -> (Result<Plan<'w>, Refusal>, Devices<'w>) {
    match parse_command(rt.alloc(), words) {
        Ok(Command { plan, devices }) => (Ok(plan), devices),
        Err(refusal) => (Err(refusal), refused_devices(words)),
    }
}

/// Runs a session over an input: its output is looked at on the way.
fn run_session<C: Commands, O: Output, E: Output>(
    rt: &HostRuntime,
    commands: &C,
    asked: &Result<Plan<'_>, Refusal>,
    devices: Devices<'_>,
    given: &mut Given<'_, '_, C>,
    output: &mut O,
    errors: &mut E,
) -> u8 {
    let mut files = NamedFiles { rt };
    let has_dots = devices.prompt == "dot";
    let state = given.state;
    let line = given.first_command(devices);
    let text = given.taken.take_text();
    let mut input = FromRead::new(&mut given.taken);
    let mut watched = SessionOutput::new(
        rt.alloc(),
        output,
        rt.stderr(),
        devices.quiet,
        has_dots,
        state,
        line,
    );
    if let (Ok(Plan::Debug(debug)), Some(text)) = (asked, text) {
        return commands.debug_over(
            rt.alloc(),
            debug,
            devices.raw,
            text,
            &mut files,
            &mut input,
            &mut watched,
            errors,
        );
    }
    commands.carry_out(
        rt.alloc(),
        asked,
        &mut files,
        &mut input,
        &mut watched,
        errors,
    )
}

/// Does what the words ask for over an input.
fn carry_out_over<C: Commands, W: Write>(
    rt: &HostRuntime,
    commands: &C,
    asked: &Result<Plan<'_>, Refusal>,
    devices: Devices<'_>,
    given: &mut Given<'_, '_, C>,
    output: &mut W,
    reasons: &mut Gathered,
) -> u8 {
    let mut output = IntoWrite::new(output);
    if is_session(asked) {
        return run_session(rt, commands, asked, devices, given, &mut output, reasons);
    }
    let mut files = NamedFiles { rt };
    let mut input = FromRead::new(&mut given.taken);
    commands.carry_out(
        rt.alloc(),
        asked,
        &mut files,
        &mut input,
        &mut output,
        reasons,
    )
}

/// Writes why the words are refused, with status 2.
fn refuse_words<W: Write>(output: &mut W, text: &str) -> ExitCode {
    if output.write_all(text.as_bytes()).is_err() || output.flush().is_err() {
        return ExitCode::from(3);
    }
    ExitCode::from(2)
}

/// Does what the words ask for, and says what is to be said about a fault; `case` is the input where that is a case.
fn run_over<'w, C: Commands>(
    rt: &HostRuntime,
    commands: &C,
    words: &Words,
    asked: &mut Result<Plan<'w>, Refusal>,
    devices: Devices<'w>,
    case: Option<Result<Vec<u8>, ErrorKind>>,
    gathered: &mut BufWriter<Standard<'_>>,
) -> ExitCode {
    let state = SessionState::new();
    let mut given = input_of(rt, commands, asked, devices, case, &state);
    let mut reasons = Gathered::new(rt.alloc());
    let ended = match &*asked {
        Ok(Plan::Serve(plan)) => commands.serve(rt, plan, gathered),
        Ok(Plan::Against(plan)) => commands.against(rt, plan, gathered),
        asked => {
            let status = carry_out_over(
                rt,
                commands,
                asked,
                devices,
                &mut given,
                gathered,
                &mut reasons,
            );
            Ending::of(status, !reasons.octets.is_empty())
        }
    };
    let status = match gathered.flush() {
        Ok(()) => ended.status,
        Err(_) => 3,
    };
    let ending = Ending {
        status,
        unwritten: gathered.get_ref().failure(),
        ..ended
    };
    if !devices.quiet {
        end(rt, words, asked, &given, ending, reasons.octets.as_slice());
    }
    ExitCode::from(status)
}

/// What is printed where words of a case are refused: the file, and then what clap says.
fn refused_in(rt: &HostRuntime, path: &str, printed: &str) -> Refusal {
    match format!(in rt.alloc(); "{path}, words of its lines ;@\n{printed}") {
        Ok(text) => Refusal::Words(text),
        Err(_) => Refusal::NoMemory,
    }
}

/// Does what the words ask for over a case.
fn run_case<C: Commands>(
    rt: &HostRuntime,
    commands: &C,
    path: &str,
    case: CaseInput,
    gathered: &mut BufWriter<Standard<'_>>,
) -> ExitCode {
    let CaseInput {
        words,
        text,
        raw,
        refusal,
    } = case;
    if let Some(refusal) = refusal {
        return refuse_words(gathered, refusal.as_str());
    }
    let (asked, devices) = asked_of(rt, &words);
    let mut asked = match asked {
        Err(Refusal::Words(printed)) => Err(refused_in(rt, path, printed.as_str())),
        asked => asked,
    };
    let devices = Devices { raw, ..devices };
    run_over(
        rt,
        commands,
        &words,
        &mut asked,
        devices,
        Some(text),
        gathered,
    )
}

/// Does what the words ask for. The output is gathered into larger writes; where there is no memory for that, nothing
/// is done.
fn run_asked<'w, C: Commands>(
    rt: &HostRuntime,
    commands: &C,
    words: &'w Words,
    mut asked: Result<Plan<'w>, Refusal>,
    devices: Devices<'w>,
) -> ExitCode {
    if version::is_asked(words, &asked) {
        return version::print(rt);
    }
    let output = WaitingOutput::new(rt, rt.stdout());
    let mut gathered = match BufWriter::with_capacity(rt.alloc(), GATHERED, output) {
        Ok(gathered) => gathered,
        Err(error) => return refuse(&mut rt.stdout(), &error),
    };
    if let Some(text) = refusal_for_devices(&asked, devices) {
        return refuse_words(&mut gathered, text);
    }
    let path = path_of(&asked, devices);
    match case_input(rt, words, &mut asked, devices) {
        Some(case) => run_case(rt, commands, path, case, &mut gathered),
        None => run_over(
            rt,
            commands,
            words,
            &mut asked,
            devices,
            None,
            &mut gathered,
        ),
    }
}

/// Does what the words of the command line ask for. A FILE among them that is the input is the value of `--in`.
fn run_words<C: Commands>(rt: &HostRuntime, commands: &C) -> io::Result<ExitCode> {
    let mut words = words_of(rt)?;
    if let Some(named) = with_file(rt, &words)? {
        words = named;
    }
    let (asked, devices) = asked_of(rt, &words);
    Ok(run_asked(rt, commands, &words, asked, devices))
}

/// Does what the words of the command line ask for, by these commands.
pub fn run_program<C: Commands>(rt: &HostRuntime, commands: &C) -> ExitCode {
    match run_words(rt, commands) {
        Ok(status) => status,
        Err(error) => refuse(&mut rt.stdout(), &error),
    }
}
