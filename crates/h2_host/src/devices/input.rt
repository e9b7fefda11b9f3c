//! Which device is the input of a command: standard input, a file that the words name, or the lines of a console.

use crate::commands::Commands;
use crate::devices::files::{NamedFiles, STANDARD_INPUT};
use crate::prompt::session_explainer::SessionExplainer;
use crate::session_end::SessionEnd;
use crate::{
    Behind, Console, Front, Manner, SessionState, TakenInput, WaitingInput, WaitingOutput,
};
use h2_cmd_args::command::{Against, Batch, Check, Devices, Plan, Refusal, ServeReport};
use h2_cmd_book_file::{Files, FilesFault};
use h2_cmd_messages::{InputSource, TextBuilder, UNCLEAR, has_offsets, say_no_memory};
use h2_io::MAX_INPUT;
use h2_spec::connection::Config;
use std::alloc::AllocError;
use std::io::{ErrorKind, Stderr, Stdin, Stdout};

/// Standard output as the program writes to it.
pub type Standard<'r> = WaitingOutput<'r, HostRuntime, Stdout>;

/// Standard input as a command reads it.
type StandardInput<'r> = WaitingInput<'r, HostRuntime, Stdin>;

/// The input of a command.
pub type CommandInput<'r, 'c, C> = TakenInput<Lines<'r, 'c, C>>;

/// What is read of standard input.
type Lines<'r, 'c, C> = Behind<'c, StandardInput<'r>, Stdout, Stderr, SessionExplainer<'r, 'c, C>>;

/// The input of a command, and what is known of it.
#[derive(Drop)]
pub struct Given<'r, 'c, C> {
    /// The input itself.
    pub taken: CommandInput<'r, 'c, C>,
    /// What it is called where a sentence names it.
    pub source: InputSource<'c>,
    /// What is known of a session.
    pub state: &'c SessionState,
}

impl<C> Given<'_, '_, C> {
    /// The line of standard input that has a session's first command, from 1; `None` where a console answers lines too.
    pub fn first_command(&self, devices: Devices<'_>) -> Option<usize> {
        match self.source {
            _ if devices.prompt != "" => None,
            InputSource::Input => Some(2),
            InputSource::File(_) => Some(1),
        }
    }
}

impl<C: Commands> Given<'_, '_, C> {
    /// What could not be read, where that failed.
    pub fn failed_source(&self) -> InputSource<'_> {
        if self.taken.is_reader_failure() {
            InputSource::Input
        } else {
            self.source
        }
    }

    /// Says why a session with this status did not begin, or what is strange about its octets, where it has no file.
    pub fn say_session(&self, status: u8, config: Config, out: &mut TextBuilder) {
        let taken = &self.taken;
        match self.source {
            InputSource::File(_) => {}
            InputSource::Input if !taken.is_cut() => {
                let session = SessionEnd {
                    status,
                    config,
                    seen: taken.seen(),
                };
                session.say(out);
            }
            InputSource::Input if status == 1 => say_no_memory(out),
            InputSource::Input => {}
        }
    }
}

/// Whether a session is asked for.
pub fn is_session(asked: &Result<Plan<'_>, Refusal>) -> bool {
    match asked {
        Ok(Plan::Debug(_)) => true,
        _ => false,
    }
}

/// Why words of `check` are refused that don't go together, where they don't.
fn refusal_of_check(check: &Check<'_>) -> Option<&'static str> {
    if check.in_place && !check.bless {
        return Some("error: --in-place needs --bless\n");
    }
    if check.in_place && check.files.iter().any(|file| *file == STANDARD_INPUT) {
        return Some("error: --in-place needs files: standard input can't be written anew\n");
    }
    if check.bless && !check.in_place && check.files.len() > 1 {
        return Some(
            "error: --bless writes one file to standard output; --in-place writes each where it is\n",
        );
    }
    if check.junit != "" && check.bless {
        return Some("error: --bless has no results for --junit\n");
    }
    if check.junit != "" && check.files.iter().any(|file| *file == check.junit) {
        return Some("error: --junit FILE would replace a file of cases\n");
    }
    None
}

/// Whether a text can be in a string of a script as it is: printable ASCII without quotes and backslashes.
fn is_plain(text: &str) -> bool {
    text.as_bytes().iter().all(|octet| {
        (32..127).contains(octet) && *octet != b'"' && *octet != b'\'' && *octet != b'\\'
    })
}

/// Whether a text is a method, `=`, and a path.
fn is_aim(text: &str) -> bool {
    match text.split_once('=') {
        Some((method, path)) => {
            !method.is_empty() && is_plain(method) && path.starts_with("/") && is_plain(path)
        }
        None => false,
    }
}

/// Why the words of where requests go are refused, where they are.
fn refusal_of_aim(against: &Against<'_>) -> Option<&'static str> {
    if against.path != "" && !is_aim(against.path) {
        return Some(
            "error: invalid value for '--path <path>': METHOD=/PATH, without quotes and backslashes\n",
        );
    }
    if !is_plain(against.authority) {
        return Some(
            "error: invalid value for '--authority <authority>': ASCII without quotes and backslashes\n",
        );
    }
    None
}

/// Why the words of a server that is judged don't go together, where they don't.
fn refusal_of_against(against: &Against<'_>) -> Option<&'static str> {
    if against.judge && against.port != 0 {
        return Some("error: --judge takes recorded octets and --against a port: leave out one\n");
    }
    if against.judge && against.files.len() < 3 {
        return Some(
            "error: --judge needs three files or more: the client's octets, the server's, and cases\n",
        );
    }
    if !against.judge && against.port == 0 {
        return Some("error: invalid value for '--against <against>': a port, 1 to 65535\n");
    }
    if against.junit != "" && against.files.iter().any(|file| *file == against.junit) {
        return Some("error: --junit FILE would replace a file of cases\n");
    }
    refusal_of_aim(against)
}

/// Why words of `serve` are refused that don't go together, where they don't.
fn refusal_of_serve(watch: ServeReport<'_>) -> Option<&'static str> {
    if watch.inject != "" && watch.times {
        return Some(
            "error: --inject has no times for --times: a connection is shown once it has ended\n",
        );
    }
    if watch.dialogue == 0 {
        return Some("error: invalid value for '--dialogue <dialogue>': the first one is 1\n");
    }
    None
}

/// Why words that don't go together are refused, where they don't.
fn refusal_of(asked: &Result<Plan<'_>, Refusal>, devices: Devices<'_>) -> Option<&'static str> {
    if let Ok(Plan::Check(check)) = asked {
        return refusal_of_check(check);
    }
    if let Ok(Plan::Against(against)) = asked {
        return refusal_of_against(against);
    }
    if let Ok(Plan::Serve(serve)) = asked {
        return refusal_of_serve(serve.watch);
    }
    if let Ok(Plan::Explain(explain)) = asked
        && explain.file != ""
        && devices.file != ""
    {
        return Some("error: FILE and --in FILE are two inputs: leave out one\n");
    }
    if !is_session(asked) {
        return None;
    }
    if devices.prompt != "" && devices.prompt != "dot" && devices.prompt != "line" {
        return Some("error: invalid value for '--prompt <prompt>': dot or line\n");
    }
    if devices.raw && devices.file == "" {
        return Some(
            "error: --raw of debug needs --in FILE: the lines of standard input are its commands\n",
        );
    }
    None
}

/// The path of the book that a plan has; empty where it has none.
fn book_of<'p>(plan: &'p Plan<'_>) -> &'p str {
    match plan {
        Plan::Batch(Batch::Play(play)) => play.book.file,
        Plan::Debug(debug) => debug.book.file,
        Plan::Serve(serve) => serve.book.file,
        Plan::Explain(explain) => explain.book.file,
        Plan::Check(check) => check.book.file,
        Plan::Against(against) => against.book.file,
        Plan::Batch(_) => "",
    }
}

/// Whether a command reads standard input for something else than its book.
fn reads_input(plan: &Plan<'_>, devices: Devices<'_>) -> bool {
    match plan {
        Plan::Batch(_) => devices.file == "",
        Plan::Debug(_) => true,
        Plan::Serve(_) => false,
        Plan::Explain(explain) => explain.file == "" && devices.file == "",
        Plan::Check(check) => check.files.iter().any(|file| *file == STANDARD_INPUT),
        Plan::Against(against) => against.files.iter().any(|file| *file == STANDARD_INPUT),
    }
}

/// Why the words are refused where both the book and the input are standard input.
fn refusal_of_book(plan: &Plan<'_>, devices: Devices<'_>) -> Option<&'static str> {
    if book_of(plan) == STANDARD_INPUT && reads_input(plan, devices) {
        return Some(
            "error: --book - reads the book from standard input, which this command reads for something else: name a file\n",
        );
    }
    None
}

/// Why the words are refused for the devices that they name, where they are.
pub fn refusal_for_devices(
    asked: &Result<Plan<'_>, Refusal>,
    devices: Devices<'_>,
) -> Option<&'static str> {
    match asked {
        Ok(plan) => refusal_of_book(plan, devices).or(refusal_of(asked, devices)),
        Err(_) => None,
    }
}

/// The path of the file that is the input: that of `--in`; of `explain` also its FILE, where that is a case, whose octets are
/// then its input. Empty where standard input, or the command itself, has the input.
fn file_of<'w>(
    asked: &mut Result<Plan<'w>, Refusal>,
    devices: Devices<'w>,
    is_case: bool,
) -> &'w str {
    match asked {
        Ok(Plan::Explain(explain)) if is_case => {
            explain.raw = devices.raw;
            let file = explain.file;
            explain.file = "";
            if file == "" { devices.file } else { file }
        }
        _ => devices.file,
    }
}

/// Standard input.
fn standard<'r>(rt: &'r HostRuntime) -> StandardInput<'r> {
    WaitingInput::new(rt, rt.stdin())
}

/// What is read of standard input: its octets, or the lines of a console. Those of a session over a file are commands
/// alone; `octets` are then the file's.
fn behind<'r, 'c, C: Commands>(
    rt: &'r HostRuntime,
    devices: Devices<'_>,
    octets: Option<Vec<u8>>,
    explainer: SessionExplainer<'r, 'c, C>,
    state: &'c SessionState,
) -> Lines<'r, 'c, C> {
    if devices.prompt == "" {
        return Behind::Plain(standard(rt));
    }
    let manner = Manner {
        has_prompt: devices.prompt == "line",
        has_dots: devices.prompt == "dot",
        has_first: octets.is_none(),
        octets: octets.unwrap_or(Vec::new(rt.alloc())),
        explainer,
    };
    Behind::Console(Console::new(
        rt.alloc(),
        standard(rt),
        rt.stdout(),
        rt.stderr(),
        manner,
        state,
    ))
}

/// The octets of a file, at most that many as an input may have; `OutOfMemory` only where memory was refused.
pub fn read_file(rt: &HostRuntime, path: &str, most: usize) -> Result<Vec<u8>, ErrorKind> {
    let mut files = NamedFiles { rt };
    match files.read(rt.alloc(), path, most) {
        Ok(octets) => Ok(octets),
        Err(FilesFault::NoMemory) => Err(ErrorKind::OutOfMemory),
        Err(FilesFault::TooLong) => Err(ErrorKind::FileTooLarge),
        Err(FilesFault::Failed) => Err(files.failure(path).unwrap_or(ErrorKind::Other)),
    }
}

/// What `explain` or a session is given of a text. Hex with offsets is a dump whose octets are not clear, since a dump that
/// is read has none any more.
fn clear_text(rt: &HostRuntime, raw: bool, text: Vec<u8>) -> Result<Vec<u8>, AllocError> {
    if !raw && has_offsets(text.as_slice()) {
        UNCLEAR.to_vec(rt.alloc())
    } else {
        Ok(text)
    }
}

/// What a session is given of a file: its text; and that once more, where a person or a program may ask what it means.
fn session_front(
    rt: &HostRuntime,
    devices: Devices<'_>,
    text: Vec<u8>,
) -> Result<(Front, Vec<u8>), AllocError> {
    let text = clear_text(rt, devices.raw, text)?;
    let octets = if devices.prompt != "" {
        text.as_slice().to_vec(rt.alloc())?
    } else {
        Vec::new(rt.alloc())
    };
    let front = Front {
        reads_on: true,
        ..Front::of(text)
    };
    Ok((front, octets))
}

/// What a command is given of the text of a file.
fn front_over(
    rt: &HostRuntime,
    asked: &Result<Plan<'_>, Refusal>,
    devices: Devices<'_>,
    text: Vec<u8>,
) -> Result<(Front, Vec<u8>), AllocError> {
    let none = Vec::new(rt.alloc());
    match asked {
        Ok(Plan::Debug(_)) => session_front(rt, devices, text),
        Ok(Plan::Explain(_)) => Ok((Front::of(clear_text(rt, devices.raw, text)?), none)),
        _ => Ok((Front::of(text), none)),
    }
}

/// What a command is given of a file, and the file's text, for a session. The text of a case is that of its script.
fn front_of(
    rt: &HostRuntime,
    asked: &Result<Plan<'_>, Refusal>,
    devices: Devices<'_>,
    path: &str,
    case: Option<Result<Vec<u8>, ErrorKind>>,
) -> (Front, Vec<u8>) {
    let read = match case {
        Some(read) => read,
        None => read_file(rt, path, MAX_INPUT),
    };
    let text = match read {
        Ok(text) => text,
        Err(kind) => return (Front::unread(rt.alloc(), kind), Vec::new(rt.alloc())),
    };
    match front_over(rt, asked, devices, text) {
        Ok(front) => front,
        Err(_) => (
            Front::unread(rt.alloc(), ErrorKind::OutOfMemory),
            Vec::new(rt.alloc()),
        ),
    }
}

/// Refuses the words where memory for the input's file was refused.
fn refuse_for_memory(asked: &mut Result<Plan<'_>, Refusal>, failure: Option<ErrorKind>) {
    if failure == Some(ErrorKind::OutOfMemory) {
        *asked = Err(Refusal::NoMemory);
    }
}

/// The input of a command; `case` is the text of its file, where that is a case or can be read only once. Where memory for a
/// file is refused, the words are refused for that.
pub fn input_of<'r, 'c, 'w: 'c, C: Commands>(
    rt: &'r HostRuntime,
    commands: &'r C,
    asked: &mut Result<Plan<'w>, Refusal>,
    devices: Devices<'w>,
    case: Option<Result<Vec<u8>, ErrorKind>>,
    state: &'c SessionState,
) -> Given<'r, 'c, C> {
    let path = file_of(asked, devices, case.is_some());
    let explainer = SessionExplainer::new(rt, commands, asked, devices.raw);
    if path == "" && case.is_none() {
        let behind = behind(rt, devices, None, explainer, state);
        return Given {
            taken: TakenInput::new(Front::empty(rt.alloc(), is_session(asked)), behind),
            source: InputSource::Input,
            state,
        };
    }
    let (front, octets) = front_of(rt, asked, devices, path, case);
    refuse_for_memory(asked, front.failure);
    let behind = behind(rt, devices, Some(octets), explainer, state);
    let source = if path == "" || path == STANDARD_INPUT {
        InputSource::Input
    } else {
        InputSource::File(path)
    };
    Given {
        taken: TakenInput::new(front, behind),
        source,
        state,
    }
}
