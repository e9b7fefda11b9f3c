//! What the words of a command line ask for. A command of the crate `clap` defines which words are taken:
//! `specs/Grammar.antt`.

ghost use Rattle.std.specs.Prelude.{◌≡◌, ◌≤◌, length, IfOk, IfErr, IfSome, bytes_eq, Some, None, codes, map, option_map};
ghost use Rattle.clap.specs.Words.{found_of, kind_of, rows_of, subcommand_of, subcommand_rows_of};
ghost use Rattle.clap.specs.declared.error.ErrorKind.TheVariants.{OutOfMemory};
ghost use Rattle.h2_cmd_args.specs.Grammar.{against_asked, answers_among, asked_at, asked_by, asked_of, bench_app, book_at, check_asked, config_at, devices_at, devices_found, devices_of, file_among, files_among, is_against, is_answer, is_part_at, is_set, number_at, number_given, path_in, raw_at, report_at, text_at, texts_at, why_at};
ghost use Rattle.h2_cmd_args.specs.Plans.{book_asked, devices_asked, planned, report_asked, Refuses};

use crate::usages::bench_command;
use crate::words::Words;
use clap::ArgMatches;
use clap::error::ErrorKind;
use h2_spec::connection::Config;
use std::alloc::{AllocError, Global};

/// The book of answers that a command is given.
#[derive(Drop)]
pub struct BookWords<'a> {
    /// The path of the book's file; empty where there is none.
    pub file: &'a str,
    /// Whether the reason is written where an entry is refused: unless the words ask for quiet.
    pub why: bool,
    /// The words of further answers, which come after the entries of the file.
    pub answers: Vec<&'a str>,
}

/// How a connection is played.
#[derive(Drop)]
pub struct Play<'a> {
    /// The limits and the settings of the server.
    pub config: Config,
    /// How many octets a piece has, 0 to 65536; 0 for 65536.
    pub cut: u32,
    /// Whether the state is printed after each item.
    pub each: bool,
    /// Whether the input has the octets themselves, not their hex.
    pub raw: bool,
    /// The answers.
    pub book: BookWords<'a>,
    /// How sentences call the input: the path of its file; empty for standard input.
    pub input: &'a str,
}

/// What a command without a book says where it refuses something.
#[derive(Clone, Copy)]
pub struct InputWords<'a> {
    /// Whether the reason is written where the input is refused: unless the words ask for quiet.
    pub why: bool,
    /// How sentences call the input: the path of its file; empty for standard input.
    pub input: &'a str,
}

/// How a connection is debugged.
#[derive(Drop)]
pub struct Debug<'a> {
    /// The limits and the settings of the server.
    pub config: Config,
    /// The answers.
    pub book: BookWords<'a>,
    /// How sentences call the file of the octets: its path; empty for standard input.
    pub input: &'a str,
}

/// How a connection is explained.
#[derive(Drop)]
pub struct Explain<'a> {
    /// The limits and the settings of the server.
    pub config: Config,
    /// Whether it is explained as JSON, an object a line.
    pub json: bool,
    /// Whether a text has colours.
    pub color: bool,
    /// Whether the status and a last line say what the client broke.
    pub strict: bool,
    /// Whether long texts are written whole.
    pub full: bool,
    /// Whether fields, and what changed, are left out.
    pub brief: bool,
    /// Whether only items with an error, a reason to ignore them or a warning are shown.
    pub errors: bool,
    /// The stream whose items alone are shown, if one is named; 0 for those of the connection.
    pub stream: Option<u32>,
    /// Whether the octets are there as they are, not as their hex.
    pub raw: bool,
    /// The path of the file that has the octets; empty where standard input has them.
    pub file: &'a str,
    /// The answers.
    pub book: BookWords<'a>,
    /// How sentences call the input: the path of its file; empty for standard input.
    pub input: &'a str,
}

/// What is shown of connections that are served, and which dialogue the first one is given.
#[derive(Clone, Copy)]
pub struct ServeReport<'a> {
    /// Whether each item is explained as soon as it arrives; else the other members say nothing.
    pub explain: bool,
    /// Whether it is explained as JSON, an object a line.
    pub json: bool,
    /// Whether a text has colours.
    pub color: bool,
    /// Whether the status and a last line say what the clients broke.
    pub strict: bool,
    /// Whether long texts are written whole.
    pub full: bool,
    /// Whether fields, and what changed, are left out.
    pub brief: bool,
    /// Whether only items with an error, a reason to ignore them or a warning are shown.
    pub errors: bool,
    /// The stream whose items alone are shown, if one is named; 0 for those of the connection.
    pub stream: Option<u32>,
    /// Whether each line and each recorded item has its time.
    pub times: bool,
    /// The directory where each connection is recorded; empty where none is.
    pub record_to: &'a str,
    /// The file of the dialogue that the first connection is given; empty where it is given none.
    pub inject: &'a str,
    /// The number of that dialogue, from 1.
    pub dialogue: u32,
}

/// How connections are served.
#[derive(Drop)]
pub struct Serve<'a> {
    /// The limits and the settings of the server.
    pub config: Config,
    /// The port of 127.0.0.1, 1 to 65535.
    pub port: u32,
    /// How many connections are served.
    pub count: u32,
    /// What is shown and recorded of each connection.
    pub watch: ServeReport<'a>,
    /// The answers.
    pub book: BookWords<'a>,
}

/// How cases are checked.
#[derive(Drop)]
pub struct Check<'a> {
    /// The limits and the settings of cases that say none.
    pub config: Config,
    /// The book of these cases.
    pub book: BookWords<'a>,
    /// Whether the cases are written anew, with what is sent for them.
    pub bless: bool,
    /// Whether they are written into their files.
    pub in_place: bool,
    /// The path of the file that takes the results as JUnit XML; empty where none does.
    pub junit: &'a str,
    /// The paths of the files that have the cases.
    pub files: Vec<&'a str>,
}

/// How servers are judged by cases.
#[derive(Drop)]
pub struct Against<'a> {
    /// The limits and the settings of cases that say none.
    pub config: Config,
    /// The book of these cases.
    pub book: BookWords<'a>,
    /// The port of 127.0.0.1 that the server listens on, 0 to 65535; 0 where octets are judged that were recorded.
    pub port: u32,
    /// How many milliseconds without an octet end the wait for what a server does, 0 to 1000.
    pub wait: u32,
    /// The method of the requests that go to another path, `=`, and that path; empty where none does.
    pub path: &'a str,
    /// What requests have instead of `localhost`; empty where that stays.
    pub authority: &'a str,
    /// Whether octets are judged that were recorded: those of the first file and of the second.
    pub judge: bool,
    /// The path of the file that takes the results as JUnit XML; empty where none does.
    pub junit: &'a str,
    /// The paths of the files that have the cases.
    pub files: Vec<&'a str>,
}

/// What the words say of the devices that a command is given. The program that has the devices chooses them by this:
/// a command itself takes its input from where it is given.
#[derive(Clone, Copy)]
pub struct Devices<'a> {
    /// The path of the input's file; empty for standard input.
    pub file: &'a str,
    /// Whether the input has the octets themselves, not their hex.
    pub raw: bool,
    /// Whether faults are left without a sentence.
    pub quiet: bool,
    /// What shows that a session waits for a command; empty where nothing does.
    pub prompt: &'a str,
}

/// A command that reads its whole input before it answers.
#[derive(Drop)]
pub enum Batch<'a> {
    /// Plays a connection over the octets of the input.
    Play(Play<'a>),
    /// Writes the octets of the script that the input is, as hex.
    Asm(InputWords<'a>),
    /// Writes the script of the octets that the input has: as they are, or else as hex.
    Dis(bool, InputWords<'a>),
    /// Changes a dynamic table of this limit, 0 to 65536, by the lines of the input.
    Table(u32, InputWords<'a>),
}

/// What is to be done.
#[derive(Drop)]
pub enum Plan<'a> {
    Batch(Batch<'a>),
    /// Debugs a connection by the lines of the input.
    Debug(Debug<'a>),
    /// Serves connections of a port.
    Serve(Serve<'a>),
    /// Explains a connection over the octets of a file or of the input.
    Explain(Explain<'a>),
    /// Checks the cases of files.
    Check(Check<'a>),
    /// Judges a server by the cases of files.
    Against(Against<'a>),
}

/// A command of the command line.
#[derive(Drop)]
pub struct Command<'a> {
    /// What is to be done.
    pub plan: Plan<'a>,
    /// The devices that it is done over.
    pub devices: Devices<'a>,
}

/// Why words were refused.
#[derive(Drop)]
pub enum Refusal {
    /// The words are no command, or ask for help: the text to print for them.
    Words(String),
    /// Out of memory.
    NoMemory,
}

/// The number that an option or a positional was given, if it was.
fn number_given(matches: &ArgMatches<'_>, id: &str) -> Option<u32>
    ensures { result ≡ number_given id.now (rows_of (found_of matches.now)) }
{
    matches.get_one::<u32>(id)
}

/// The number that an option or a positional was given, or another.
fn number_at(matches: &ArgMatches<'_>, id: &str, default: u32) -> u32
    ensures { result ≡ number_at id.now default (rows_of (found_of matches.now)) }
{
    number_given(matches, id).unwrap_or(default)
}

/// Whether a flag was given.
fn is_set(matches: &ArgMatches<'_>, id: &str) -> bool
    ensures { result ≡ is_set id.now (rows_of (found_of matches.now)) }
{
    match matches.get_str(id) {
        Some(text) => text == "true",
        None => false,
    }
}

/// The text that an option was given; empty where it was not.
fn text_at<'a>(matches: &ArgMatches<'a>, id: &str) -> &'a str
    ensures { result.now ≡ text_at id.now (rows_of (found_of matches.now)) }
{
    match matches.get_str(id) {
        Some(text) => text,
        None => "",
    }
}

/// The values of a positional that takes any number of them.
fn texts_at<'a>(
    alloc: Global,
    matches: &ArgMatches<'a>,
    id: &str,
) -> Result<Vec<&'a str>, AllocError>
    ensures { IfOk result (λ texts. map (λ s. s.now) texts.items ≡ texts_at id.now (rows_of (found_of matches.now))) }
{
    match matches.get_raw(id) {
        Some(texts) => Vec::from_slice(alloc, texts),
        None => Ok(Vec::new(alloc)),
    }
}

/// The limits and the settings of a connection.
fn config_at(matches: &ArgMatches<'_>) -> Config
    ensures { result ≡ config_at (rows_of (found_of matches.now)) }
{
    Config {
        streams: number_at(matches, "streams", 100),
        credit: number_at(matches, "credit", 32768),
        table: number_at(matches, "table", 4096),
        window: number_at(matches, "window", 65535),
        frame: number_at(matches, "frame", 16384),
    }
}

/// The book that a command is given, with these answers.
fn book_with<'a>(matches: &ArgMatches<'a>, answers: Vec<&'a str>) -> BookWords<'a>
    ensures { book_asked result ≡ record (book_at (rows_of (found_of matches.now))) { answers = map (λ s. s.now) answers.entry.items } }
{
    BookWords {
        file: text_at(matches, "book"),
        why: !is_set(matches, "quiet"),
        answers,
    }
}

/// The book of answers that a command is given.
fn book_from<'a>(alloc: Global, matches: &ArgMatches<'a>) -> Result<BookWords<'a>, AllocError>
    ensures { IfOk result (λ book. book_asked book ≡ book_at (rows_of (found_of matches.now))) }
{
    let answers = texts_at(alloc, matches, "ANSWER")?;
    Ok(book_with(matches, answers))
}

/// Whether the input has the octets themselves, not their hex.
fn is_raw(matches: &ArgMatches<'_>) -> bool
    ensures { result ≡ raw_at (rows_of (found_of matches.now)) }
{
    is_set(matches, "raw")
}

/// The path of the file that is the input; empty for standard input.
fn input_in<'a>(matches: &ArgMatches<'a>) -> &'a str
    ensures { result.now ≡ path_in (text_at (codes "in") (rows_of (found_of matches.now))) }
{
    path_in(text_at(matches, "in"))
}

/// What a command without a book says where it refuses something.
fn input_words<'a>(matches: &ArgMatches<'a>) -> InputWords<'a>
    ensures { result.why ≡ why_at (rows_of (found_of matches.now)) }
{
    InputWords {
        why: !is_set(matches, "quiet"),
        input: input_in(matches),
    }
}

/// How a connection is to be played.
fn play_from<'a>(alloc: Global, matches: &ArgMatches<'a>) -> Result<Play<'a>, AllocError>
    ensures { IfOk result (λ play. Some (planned (Plan.Batch (Batch.Play play))) ≡ asked_by (codes "play") (rows_of
        (found_of matches.now))) }
{
    let book = book_from(alloc, matches)?;
    Ok(Play {
        config: config_at(matches),
        cut: number_at(matches, "cut", 0),
        each: is_set(matches, "each"),
        raw: is_raw(matches),
        book,
        input: input_in(matches),
    })
}

/// How a connection is to be debugged.
fn debug_from<'a>(alloc: Global, matches: &ArgMatches<'a>) -> Result<Debug<'a>, AllocError>
    ensures { IfOk result (λ debug. Some (planned (Plan.Debug debug)) ≡ asked_by (codes "debug") (rows_of
        (found_of matches.now))) }
{
    let book = book_from(alloc, matches)?;
    Ok(Debug {
        config: config_at(matches),
        book,
        input: input_in(matches),
    })
}

/// Whether some items, or less of each, are asked for.
fn is_part(matches: &ArgMatches<'_>) -> bool
    ensures { result ≡ is_part_at (rows_of (found_of matches.now)) }
{
    let stream = number_given(matches, "stream");
    is_set(matches, "brief") || (is_set(matches, "errors") || stream.is_some())
}

/// What is to be shown of connections that are served.
fn report_from<'a>(matches: &ArgMatches<'a>) -> ServeReport<'a>
    ensures { report_asked result ≡ report_at (rows_of (found_of matches.now)) }
{
    let json = is_set(matches, "json");
    let strict = is_set(matches, "strict");
    let full = is_set(matches, "full");
    let times = is_set(matches, "times");
    let record_to = text_at(matches, "record");
    let is_part = is_part(matches);
    ServeReport {
        explain: is_set(matches, "explain")
            || (is_part || (json || (strict || (times || 0 < record_to.len())))),
        json,
        color: is_set(matches, "color"),
        strict,
        full,
        brief: is_set(matches, "brief"),
        errors: is_set(matches, "errors"),
        stream: number_given(matches, "stream"),
        times,
        record_to,
        inject: text_at(matches, "inject"),
        dialogue: number_at(matches, "dialogue", 1),
    }
}

/// How connections are to be served.
fn serve_from<'a>(alloc: Global, matches: &ArgMatches<'a>) -> Result<Serve<'a>, AllocError>
    ensures { IfOk result (λ serve. Some (planned (Plan.Serve serve)) ≡ asked_by (codes "serve") (rows_of
        (found_of matches.now))) }
{
    let book = book_from(alloc, matches)?;
    Ok(Serve {
        config: config_at(matches),
        port: number_at(matches, "PORT", 0),
        count: number_at(matches, "COUNT", 0),
        watch: report_from(matches),
        book,
    })
}

/// Whether a word is an answer: it has a `|`.
fn is_answer(word: &str) -> bool
    ensures { result ≡ is_answer word.now }
{
    word.as_bytes().contains(&b'|')
}

/// The path that a word is; that of standard input, `-`, is empty.
fn path_in(word: &str) -> &str
    ensures { result.now ≡ path_in word.now }
{
    if is(word, "-") { "" } else { word }
}

/// The file among the words of `explain`: the first one, where it is no answer; else empty.
fn file_among<'a>(words: &[&'a str]) -> &'a str
    ensures { result.now ≡ file_among (map (λ s. s.now) words.now) }
{
    match words.split_first() {
        Some((first, _)) => { if is_answer(first) { "" } else { path_in(first) } }
        None => "",
    }
}

/// How many files there are among the words of `explain`, 0 or 1.
fn files_among(words: &[&str]) -> usize
    ensures value { result ≡ files_among (map (λ s. s.now) words.now) }
    ensures within { result ≤ length words.now }
{
    match words.split_first() {
        Some((first, _)) => { if is_answer(first) { 0 } else { 1 } }
        None => 0,
    }
}

/// The answers among the words of `explain`: all but the file.
fn answers_among<'w, 'a>(words: &'w [&'a str]) -> &'w [&'a str]
    ensures { map (λ s. s.now) result.now ≡ answers_among (map (λ s. s.now) words.now) }
{
    &words[files_among(words)..]
}

/// The path of the file that explain is given, as FILE or by `--in`; empty for standard input.
fn input_among<'a>(matches: &ArgMatches<'a>, words: &[&'a str]) -> &'a str {
    match file_among(words) {
        "" => input_in(matches),
        file => file,
    }
}

/// How a connection is to be explained.
fn explain_from<'a>(alloc: Global, matches: &ArgMatches<'a>) -> Result<Explain<'a>, AllocError>
    ensures { IfOk result (λ explain. Some (planned (Plan.Explain explain)) ≡ asked_by (codes "explain") (rows_of
        (found_of matches.now))) }
{
    let words = texts_at(alloc, matches, "ANSWER")?;
    let answers = Vec::from_slice(alloc, answers_among(words.as_slice()))?;
    Ok(Explain {
        config: config_at(matches),
        json: is_set(matches, "json"),
        color: is_set(matches, "color"),
        strict: is_set(matches, "strict"),
        full: is_set(matches, "full"),
        brief: is_set(matches, "brief"),
        errors: is_set(matches, "errors"),
        stream: number_given(matches, "stream"),
        raw: is_raw(matches),
        file: file_among(words.as_slice()),
        book: book_with(matches, answers),
        input: input_among(matches, words.as_slice()),
    })
}

/// How cases are to be checked.
fn check_from<'a>(alloc: Global, matches: &ArgMatches<'a>) -> Result<Check<'a>, AllocError>
    ensures { IfOk result (λ check. planned (Plan.Check check) ≡ check_asked (rows_of (found_of matches.now))) }
{
    let files = texts_at(alloc, matches, "FILE")?;
    let file = text_at(matches, "book");
    let answers = Vec::new(alloc);
    Ok(Check {
        config: config_at(matches),
        book: BookWords {
            file,
            why: !is_set(matches, "quiet"),
            answers,
        },
        bless: is_set(matches, "bless"),
        in_place: is_set(matches, "in-place"),
        junit: text_at(matches, "junit"),
        files,
    })
}

/// How a server is to be judged.
fn against_from<'a>(alloc: Global, matches: &ArgMatches<'a>) -> Result<Against<'a>, AllocError>
    ensures { IfOk result (λ against. planned (Plan.Against against) ≡ against_asked (rows_of (found_of matches.now))) }
{
    let files = texts_at(alloc, matches, "FILE")?;
    let file = text_at(matches, "book");
    let answers = Vec::new(alloc);
    Ok(Against {
        config: config_at(matches),
        book: BookWords {
            file,
            why: !is_set(matches, "quiet"),
            answers,
        },
        port: number_at(matches, "against", 0),
        wait: number_at(matches, "wait", 15),
        path: text_at(matches, "path"),
        authority: text_at(matches, "authority"),
        judge: is_set(matches, "judge"),
        junit: text_at(matches, "junit"),
        files,
    })
}

/// Whether a server is to be judged: over a connection, or by octets that were recorded.
fn is_against(matches: &ArgMatches<'_>) -> bool
    ensures { result ≡ is_against (rows_of (found_of matches.now)) }
{
    number_given(matches, "against").is_some() || is_set(matches, "judge")
}

/// What `check` is to do: a server is judged, or cases are checked.
fn cases_from<'a>(alloc: Global, matches: &ArgMatches<'a>) -> Result<Plan<'a>, AllocError>
    ensures { IfOk result (λ plan. Some (planned plan) ≡ asked_by (codes "check") (rows_of (found_of matches.now))) }
{
    if is_against(matches) {
        return Ok(Plan::Against(against_from(alloc, matches)?));
    }
    Ok(Plan::Check(check_from(alloc, matches)?))
}

/// Whether two names are the same.
fn is(name: &str, command: &str) -> bool
    ensures { result ≡ bytes_eq name.now command.now }
{
    name == command
}

/// What a command of this name is to do, by the words that clap found; `None` where there is no such command.
fn plan_from<'a>(
    alloc: Global,
    name: &str,
    matches: &ArgMatches<'a>,
) -> Result<Option<Plan<'a>>, AllocError>
    ensures { IfOk result (λ plan. option_map planned plan ≡ asked_by name.now (rows_of (found_of matches.now))) }
{
    if is(name, "play") {
        return Ok(Some(Plan::Batch(Batch::Play(play_from(alloc, matches)?))));
    }
    if is(name, "asm") {
        return Ok(Some(Plan::Batch(Batch::Asm(input_words(matches)))));
    }
    if is(name, "dis") {
        let words = input_words(matches);
        return Ok(Some(Plan::Batch(Batch::Dis(is_raw(matches), words))));
    }
    if is(name, "table") {
        let limit = number_at(matches, "LIMIT", 0);
        return Ok(Some(Plan::Batch(Batch::Table(limit, input_words(matches)))));
    }
    if is(name, "debug") {
        return Ok(Some(Plan::Debug(debug_from(alloc, matches)?)));
    }
    if is(name, "serve") {
        return Ok(Some(Plan::Serve(serve_from(alloc, matches)?)));
    }
    if is(name, "explain") {
        return Ok(Some(Plan::Explain(explain_from(alloc, matches)?)));
    }
    if is(name, "check") {
        return Ok(Some(cases_from(alloc, matches)?));
    }
    Ok(None)
}

/// What clap says of words that it refuses; `NoMemory` where that is its reason.
fn printed_of(alloc: Global, error: &clap::Error) -> Refusal
    ensures { kind_of error.now ≡ OutOfMemory → result ≡ Refusal.NoMemory }
{
    if error.kind() == ErrorKind::OutOfMemory {
        return Refusal::NoMemory;
    }
    match format!(in alloc; "{error}") {
        Ok(text) => Refusal::Words(text),
        Err(_) => Refusal::NoMemory,
    }
}

/// What clap finds in the words, where it takes them.
fn matches_of<'a>(alloc: Global, words: &'a Words) -> Result<ArgMatches<'a>, Refusal>
    ensures ok { IfOk result (λ matches. asked_of words.entry.now ≡ asked_at (subcommand_rows_of matches)) }
    ensures rows { IfOk result (λ matches. subcommand_rows_of matches ≡ subcommand_of bench_app words.entry.now) }
    ensures refused { IfErr result (Refuses (asked_of words.entry.now)) }
{
    let Ok(command) = bench_command(alloc) else {
        return Err(Refusal::NoMemory);
    };
    match command.try_get_matches_from(words.as_slice()) {
        Ok(matches) => Ok(matches),
        Err(error) => Err(printed_of(alloc, &error)),
    }
}

/// The command of the words in which clap finds this. They are refused where there is no command, and where memory is.
fn command_in<'a>(alloc: Global, matches: &ArgMatches<'a>) -> Result<Command<'a>, Refusal>
    ensures plan { IfOk result (λ command. asked_at (subcommand_rows_of matches.now) ≡ Some (planned command.plan)) }
    ensures devices { IfOk result (λ command. devices_found (subcommand_rows_of matches.now) ≡ Some (devices_asked command.devices)) }
    ensures refused { IfErr result (Refuses (asked_at (subcommand_rows_of matches.now))) }
{
    let Some((name, inner)) = matches.subcommand() else {
        return Err(Refusal::Words(String::new(alloc)));
    };
    match plan_from(alloc, name, inner) {
        Ok(Some(plan)) => Ok(Command {
            plan,
            devices: devices_in(inner),
        }),
        Ok(None) => Err(Refusal::Words(String::new(alloc))),
        Err(_) => Err(Refusal::NoMemory),
    }
}

/// What the words of a command say of devices.
fn devices_in<'a>(matches: &ArgMatches<'a>) -> Devices<'a>
    ensures { devices_asked result ≡ devices_at (rows_of (found_of matches.now)) }
{
    Devices {
        file: input_in(matches),
        raw: is_raw(matches),
        quiet: is_set(matches, "quiet"),
        prompt: text_at(matches, "prompt"),
    }
}

/// What the words ask for, and over which devices. They are refused where they are no command, or ask for help, and where
/// memory is.
pub fn parse_command<'a>(alloc: Global, words: &'a Words) -> Result<Command<'a>, Refusal>
    ensures plan { IfOk result (λ command. asked_of words.entry.now ≡ Some (planned command.plan)) }
    ensures devices { IfOk result (λ command. devices_of words.entry.now ≡ Some (devices_asked command.devices)) }
    ensures refused { IfErr result (Refuses (asked_of words.entry.now)) }
{
    let matches = matches_of(alloc, words)?;
    command_in(alloc, &matches)
}

/// What the words ask for, apart from devices. They are refused as `parse_command` refuses them.
pub fn parse<'a>(alloc: Global, words: &'a Words) -> Result<Plan<'a>, Refusal>
    ensures ok { IfOk result (λ plan. asked_of words.entry.now ≡ Some (planned plan)) }
    ensures refused { IfErr result (Refuses (asked_of words.entry.now)) }
{
    let Command { plan, .. } = parse_command(alloc, words)?;
    Ok(plan)
}
