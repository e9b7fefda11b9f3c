//! `serve --inject`: a dialogue is read, a port is listened on, and clients are served, the first one with the script.

ghost use Rattle.std.specs.Prelude.{◌≡◌, ◌==◌, ◌-◌, ◌++◌, [], IfOk, None, OnErr, Some, drop, false, slice_get, take};
ghost use Rattle.h2_conn.specs.Connection.{going};
ghost use Rattle.h2_spec.specs.State.{opening};
ghost use Rattle.h2_cmd_inject.specs.Founds.{AreSeen, IsSeen, book_with, config_with, found_status};
ghost use Rattle.h2_cmd_inject.specs.Results.{cause_by};
ghost use Rattle.h2_cmd_inject.specs.Stops.{is_unwritten, is_written};
ghost use Rattle.h2_cmd_inject.specs.declared.serving.Stop.TheVariants.{NoMemory};

use crate::file::{Dialogue, FileRefusal, dialogues_of};
use crate::keeper::ScriptKeeper;
use crate::view::view_of;
use crate::words::{Ending, PATIENCE, has_broken, result_text};
use h2_cmd_args::command::{Serve, ServeReport};
use h2_cmd_batch::{
    BenchFault, Case, CaseSetup, Common, OwnFault, book_for_words, own_of, print_fault,
};
use h2_cmd_book_file::{Files, FilesFault};
use h2_cmd_cases::{have_words, lines_in, title_of};
use h2_cmd_check::Title;
use h2_cmd_dialogue::cause::last_cause;
use h2_cmd_dialogue::findings::Ended;
use h2_cmd_dialogue::play::{Course, End};
use h2_cmd_dialogue::step::Step;
use h2_cmd_exchange::link::Link;
use h2_conn::{Conn, ConnFault};
use h2_explain::{Form, Summary};
use h2_io::{MAX_INPUT, Output};
use h2_serve::Clients;
use h2_spec::causes::Cause;
use std::alloc::{AllocError, Global};
use std::str;

/// What listens on a port of 127.0.0.1; then `connect` waits for the next client.
pub trait Guests: Link {
    /// Listens on a port. Says whether it could.
    fn listen(&mut self, port: u16) -> bool
        ensures { Self.Link.log self.new ≡ Self.Link.log self.old };
}

/// Why nothing is served, or no more.
#[derive(Drop)]
enum Stop {
    NoMemory,
    /// This is written to standard error, and the status is 2.
    Sentence(String),
    Fault(BenchFault),
    /// The output failed.
    NotWritten,
}

impl From<AllocError> for Stop {
    ghost from_gives = { λ _ stop. stop ≡ NoMemory };

    fn from(_error: AllocError) -> Stop {
        Stop::NoMemory
    }
}

/// What a dialogue is played with.
#[derive(Clone, Copy)]
struct Play<'p, 't> {
    /// In which form connections are shown, if they are.
    form: Option<Form>,
    file: &'p str,
    number: u64,
    lines: &'p [&'t [u8]],
    dialogue: &'p Dialogue,
}

/// A sentence about a file.
fn about(alloc: Global, file: &str, why: &str) -> Stop
    ensures { is_written result ≡ false }
{
    match format!(in alloc; "{file}: {why}\n") {
        Ok(text) => Stop::Sentence(text),
        Err(_) => Stop::NoMemory,
    }
}

/// A sentence about a line of a file.
fn about_line(alloc: Global, file: &str, line: usize, why: &str) -> Stop
    ensures { is_written result ≡ false }
{
    match format!(in alloc; "{file}:{line}: {why}\n") {
        Ok(text) => Stop::Sentence(text),
        Err(_) => Stop::NoMemory,
    }
}

/// Why a file is refused.
fn refusal(alloc: Global, file: &str, refusal: FileRefusal) -> Stop
    ensures { is_written result ≡ false }
{
    match refusal {
        FileRefusal::NoMemory => Stop::NoMemory,
        FileRefusal::Line(line, why) => about_line(alloc, file, line, why.sentence()),
    }
}

/// The text of a file of dialogues.
fn read<F: Files>(alloc: Global, file: &str, files: &mut F) -> Result<Vec<u8>, Stop>
    ensures { is_unwritten result ≡ false }
{
    let text = match files.read(alloc, file, MAX_INPUT) {
        Ok(text) => text,
        Err(FilesFault::NoMemory) => return Err(Stop::NoMemory),
        Err(FilesFault::Failed) => return Err(about(alloc, file, "the file can't be read")),
        Err(FilesFault::TooLong) => {
            return Err(about(alloc, file, "the file has more than 16777216 octets"));
        }
    };
    match str::from_utf8(text.as_slice()) {
        Ok(_) => Ok(text),
        Err(_) => Err(about(alloc, file, "the file is not UTF-8")),
    }
}

/// The lines from a place on; none where there are fewer.
fn lines_from<'c, 't>(lines: &'c [&'t [u8]], first: usize) -> &'c [&'t [u8]]
    ensures { result.now ≡ drop first lines.now }
{
    if lines.len() < first {
        return &[];
    }
    &lines[first..]
}

/// The lines of a dialogue.
fn lines_of<'p, 't>(play: Play<'p, 't>) -> &'p [&'t [u8]]
    ensures { result.now ≡ take play.entry.dialogue.now.count (drop play.entry.dialogue.now.first play.entry.lines.now) }
{
    let dialogue = play.dialogue;
    let rest = lines_from(play.lines, dialogue.first);
    if rest.len() <= dialogue.count {
        return rest;
    }
    &rest[..dialogue.count]
}

/// The limits, the settings and the book that a dialogue says, if it says some.
fn own<F: Files>(
    alloc: Global,
    play: Play<'_, '_>,
    files: &mut F,
) -> Result<Option<CaseSetup>, Stop>
    ensures { is_unwritten result ≡ false }
{
    let lines = lines_of(play);
    if !have_words(lines) {
        return Ok(None);
    }
    let dialogue = play.dialogue;
    let case = Case {
        file: play.file,
        lines,
        number: dialogue.first.saturating_add(1),
    };
    match own_of(alloc, files, case) {
        Ok(own) => Ok(Some(own)),
        Err(OwnFault::NoMemory) => Err(Stop::NoMemory),
        Err(OwnFault::Refused(words)) => {
            Err(about_line(alloc, play.file, words.line, words.why.as_str()))
        }
    }
}

/// Writes, and flushes the output so that its reader sees it at once.
fn print<O: Output>(output: &mut O, text: &[u8]) -> Result<(), Stop>
    requires writer { O.has_failed output.old ≡ false }
    ensures flag { O.has_failed output.new ≡ is_unwritten result }
{
    match output.write(text) {
        Ok(()) => {}
        Err(_) => return Err(Stop::NotWritten),
    }
    match output.flush() {
        Ok(()) => Ok(()),
        Err(_) => Err(Stop::NotWritten),
    }
}

/// A new connection.
fn open<'b>(alloc: Global, common: Common<'b>) -> Result<Conn<'b, Global>, Stop>
    ensures new { IfOk result (λ conn. conn ≡ going (opening common.entry.book.now common.entry.config) []) }
    ensures flag { is_unwritten result ≡ false }
{
    match Conn::new(common.book, common.config, &mut Vec::new(alloc)) {
        Ok(conn) => Ok(conn),
        Err(ConnFault::BadConfig) => Err(Stop::Fault(BenchFault::BadConfig)),
        Err(_) => Err(Stop::NoMemory),
    }
}

/// Plays the connection of a client. Gives what is known of it, and how it ended.
fn play_one<'b, L: Link>(
    alloc: Global,
    common: Common<'b>,
    steps: &[Step],
    link: &mut L,
) -> Result<(Course<'b>, End), Stop>
    ensures { is_unwritten result ≡ false }
{
    let mut opening = Vec::new(alloc);
    let conn = match Conn::new(common.book, common.config, &mut opening) {
        Ok(conn) => conn,
        Err(ConnFault::BadConfig) => return Err(Stop::Fault(BenchFault::BadConfig)),
        Err(_) => return Err(Stop::NoMemory),
    };
    let mut course = Course::begin(alloc, conn, steps, opening.as_slice())?;
    let end = course.play(alloc, steps, link, u64::from(PATIENCE).saturating_mul(1000))?;
    Ok((course, end))
}

/// The cause of the server's error, where that ended a connection.
fn cause_if(
    alloc: Global,
    common: Common<'_>,
    end: End,
    course: &Course<'_>,
) -> Result<Option<Cause>, AllocError>
    ensures { IfOk result (λ cause. cause ≡ cause_by end (opening common.entry.book.now common.entry.config) course.now.octets) }
{
    match end {
        End::ByServer(_) => last_cause(alloc, common.book, common.config, course.octets()),
        End::Closed | End::Silent | End::NoFrames | End::TooMuch | End::Late => Ok(None),
    }
}

/// Prints what is shown of a connection in a form, the one with this number. Gives what sums it up.
fn show<K: ScriptKeeper, O: Output>(
    alloc: Global,
    conn: Conn<'_, Global>,
    form: Form,
    steps: &[Step],
    number: u32,
    course: &Course<'_>,
    keeper: &mut K,
    output: &mut O,
) -> Result<Summary, Stop>
    requires new { conn ≡ going conn.state [] }
    requires writer { O.has_failed output.old ≡ false }
    ensures summary { IfOk result (λ summary. IsSeen form steps.now number conn.entry.state (course.now.octets ++ course.now.inbox) summary) }
    ensures flag { O.has_failed output.new ≡ is_unwritten result }
{
    let mut octets = Vec::from_slice(alloc, course.octets())?;
    octets.extend_from_slice(course.rest())?;
    let octets = octets.as_slice();
    let (text, summary) = view_of(alloc, form, conn, steps, number, octets, keeper)?;
    print(output, text.as_slice())?;
    Ok(summary)
}

/// Shows the connection with this number, where that is asked for. Gives the verdict on its client and those before it.
fn show_if<K: ScriptKeeper, O: Output>(
    alloc: Global,
    common: Common<'_>,
    form: Option<Form>,
    steps: &[Step],
    clients: Clients,
    number: u32,
    course: &Course<'_>,
    keeper: &mut K,
    output: &mut O,
) -> Result<Clients, Stop>
    requires writer { O.has_failed output.old ≡ false }
    ensures clients { IfOk result (AreSeen form steps.now number (opening common.entry.book.now common.entry.config)
        (course.now.octets ++ course.now.inbox) clients) }
    ensures flag { O.has_failed output.new ≡ is_unwritten result }
{
    let Some(form) = form else {
        return Ok(clients);
    };
    let conn = open(alloc, common)?;
    let summary = show(alloc, conn, form, steps, number, course, keeper, output)?;
    Ok(clients.with(Some(summary)))
}

/// What was found of the clients.
#[derive(Clone, Copy)]
struct Found {
    /// Whether something is broken of the dialogue.
    is_broken: bool,
    /// The verdict on them, where connections are shown.
    clients: Clients,
}

/// Prints the result of a dialogue that was played. Says whether something is broken.
fn print_result<O: Output>(
    alloc: Global,
    common: Common<'_>,
    play: Play<'_, '_>,
    course: &Course<'_>,
    end: End,
    output: &mut O,
) -> Result<bool, Stop>
    requires writer { O.has_failed output.old ≡ false }
    ensures flag { O.has_failed output.new ≡ is_unwritten result }
{
    let dialogue = play.dialogue;
    let ended = Ended { course, end };
    let findings = ended.findings(alloc, dialogue.steps.as_slice())?;
    let title = Title {
        file: play.file,
        title: title_of(lines_of(play)),
    };
    let ending = Ending {
        end,
        cause: cause_if(alloc, common, end, course)?,
        rest: course.rest(),
    };
    let text = result_text(
        alloc,
        play.number,
        title,
        play.lines,
        dialogue.first,
        findings.as_slice(),
        ending,
    )?;
    print(output, text.as_slice())?;
    Ok(has_broken(findings.as_slice()))
}

/// Plays a dialogue to the first client, and prints its result.
fn play_first<L: Link, K: ScriptKeeper, O: Output>(
    alloc: Global,
    common: Common<'_>,
    play: Play<'_, '_>,
    link: &mut L,
    keeper: &mut K,
    output: &mut O,
) -> Result<Found, Stop>
    requires writer { O.has_failed output.old ≡ false }
    ensures flag { O.has_failed output.new ≡ is_unwritten result }
{
    let dialogue = play.dialogue;
    let (form, steps) = (play.form, dialogue.steps.as_slice());
    let (course, end) = play_one(alloc, common, steps, link)?;
    let (none, course) = (Clients::none(), &course);
    let clients = show_if(alloc, common, form, steps, none, 1, course, keeper, output)?;
    let is_broken = print_result(alloc, common, play, course, end, output)?;
    Ok(Found { is_broken, clients })
}

/// Waits for the next client.
fn accept<L: Link>(link: &mut L) -> Result<(), Stop>
    ensures { is_unwritten result ≡ false }
{
    if link.connect() {
        Ok(())
    } else {
        Err(Stop::Fault(BenchFault::Socket))
    }
}

/// Serves a later client, the one with this number, by the server alone. Gives the verdict on it and those before it.
fn play_later<L: Link, K: ScriptKeeper, O: Output>(
    alloc: Global,
    common: Common<'_>,
    form: Option<Form>,
    clients: Clients,
    number: u32,
    link: &mut L,
    keeper: &mut K,
    output: &mut O,
) -> Result<Clients, Stop>
    requires writer { O.has_failed output.old ≡ false }
    ensures flag { O.has_failed output.new ≡ is_unwritten result }
{
    accept(link)?;
    let (course, _end) = play_one(alloc, common, &[], link)?;
    let course = &course;
    show_if(
        alloc,
        common,
        form,
        &[],
        clients,
        number,
        course,
        keeper,
        output,
    )
}

/// Serves this many clients: the first one has the script, later ones the server alone.
fn serve_all<L: Link, K: ScriptKeeper, O: Output>(
    alloc: Global,
    common: Common<'_>,
    play: Play<'_, '_>,
    count: u32,
    link: &mut L,
    keeper: &mut K,
    output: &mut O,
) -> Result<Found, Stop>
    requires writer { O.has_failed output.old ≡ false }
    ensures flag { O.has_failed output.new ≡ is_unwritten result }
{
    if count == 0 {
        let clients = Clients::none();
        return Ok(Found {
            is_broken: false,
            clients,
        });
    }
    accept(link)?;
    let found = play_first(alloc, common, play, link, keeper, output)?;
    let mut clients = found.clients;
    for later in 1..count {
        let number = later.saturating_add(1);
        clients = play_later(
            alloc, common, play.form, clients, number, link, keeper, output,
        )?;
    }
    Ok(Found {
        is_broken: found.is_broken,
        clients,
    })
}

/// Listens on a port, prints that, and serves.
fn listen_and_serve<G: Guests, K: ScriptKeeper, O: Output>(
    alloc: Global,
    common: Common<'_>,
    play: Play<'_, '_>,
    plan: &Serve<'_>,
    guests: &mut G,
    keeper: &mut K,
    output: &mut O,
) -> Result<Found, Stop>
    requires writer { O.has_failed output.old ≡ false }
    ensures flag { O.has_failed output.new ≡ is_unwritten result }
{
    let _conn = open(alloc, common)?;
    let Ok(port) = u16::try_from(plan.port) else {
        return Err(Stop::Fault(BenchFault::Socket));
    };
    if !guests.listen(port) {
        return Err(Stop::Fault(BenchFault::Socket));
    }
    let line = format!(in alloc; "listening {port}\n")?;
    print(output, line.as_bytes())?;
    serve_all(alloc, common, play, plan.count, guests, keeper, output)
}

/// The dialogues of a file with these lines.
fn dialogues_in(alloc: Global, file: &str, lines: &[&[u8]]) -> Result<Vec<Dialogue>, Stop>
    ensures { is_unwritten result ≡ false }
{
    match dialogues_of(alloc, lines) {
        Ok(dialogues) => Ok(dialogues),
        Err(fault) => Err(refusal(alloc, file, fault)),
    }
}

/// The dialogue that a plan names, of those of its file.
fn dialogue_of<'p>(
    alloc: Global,
    watch: ServeReport<'_>,
    dialogues: &'p [Dialogue],
) -> Result<&'p Dialogue, Stop>
    ensures ok { IfOk result (λ dialogue. slice_get dialogues.now (watch.entry.dialogue - 1) ≡ Some dialogue.now) }
    ensures err { OnErr result (slice_get dialogues.now (watch.entry.dialogue - 1) ≡ None) }
    ensures flag { is_unwritten result ≡ false }
{
    match dialogues.get((watch.dialogue as usize).saturating_sub(1)) {
        Some(dialogue) => Ok(dialogue),
        None => Err(about(alloc, watch.inject, "it has fewer dialogues")),
    }
}

/// Refuses the first dialogue whose words are refused.
fn check_words<'p, F: Files>(
    alloc: Global,
    watch: ServeReport<'p>,
    lines: &'p [&[u8]],
    dialogues: &'p [Dialogue],
    files: &mut F,
) -> Result<(), Stop>
    ensures { is_unwritten result ≡ false }
{
    for dialogue in dialogues {
        let play = Play {
            form: None,
            file: watch.inject,
            number: 0,
            lines,
            dialogue,
        };
        let _own = own(alloc, play, files)?;
    }
    Ok(())
}

/// What clients are served with: what a dialogue says, if it says something, and this book where it says no answers. Tells
/// `keeper` so.
fn common_of<'c, K: ScriptKeeper>(
    play: Play<'_, '_>,
    common: Common<'c>,
    own: &'c Option<CaseSetup>,
    keeper: &mut K,
) -> Common<'c>
    ensures config { result.config ≡ config_with common.entry.config own.now }
    ensures book { result.book.now ≡ book_with common.entry.book.now own.now }
{
    let Some(own) = own else {
        return common;
    };
    let have_answers = own.book.len() > 0;
    keeper.keep_words(play.file, lines_of(play), have_answers);
    Common {
        config: own.config,
        book: if have_answers { &own.book } else { common.book },
    }
}

/// Serves, as a plan says, and shows connections in a form, if one is given.
fn run<F: Files, G: Guests, K: ScriptKeeper, O: Output, E: Output>(
    alloc: Global,
    plan: &Serve<'_>,
    form: Option<Form>,
    guests: &mut G,
    files: &mut F,
    keeper: &mut K,
    output: &mut O,
    errors: &mut E,
) -> Result<Found, Stop>
    requires writer { O.has_failed output.old ≡ false }
    ensures flag { O.has_failed output.new ≡ is_unwritten result }
{
    let text = read(alloc, plan.watch.inject, files)?;
    let lines = lines_in(alloc, text.as_slice())?;
    let lines = lines.as_slice();
    let dialogues = dialogues_in(alloc, plan.watch.inject, lines)?;
    check_words(alloc, plan.watch, lines, dialogues.as_slice(), files)?;
    let play = Play {
        form,
        file: plan.watch.inject,
        number: u64::from(plan.watch.dialogue),
        lines,
        dialogue: dialogue_of(alloc, plan.watch, dialogues.as_slice())?,
    };
    let own = own(alloc, play, files)?;
    let book = match book_for_words(alloc, &plan.book, files, errors) {
        Ok(book) => book,
        Err(fault) => return Err(Stop::Fault(fault)),
    };
    let common = Common {
        config: plan.config,
        book: &book,
    };
    let common = common_of(play, common, &own, keeper);
    listen_and_serve(alloc, common, play, plan, guests, keeper, output)
}

/// The status of what was found: 1 where something is broken of the dialogue, else, with `--strict`, that of the verdict on the
/// clients.
fn status_of(strict: bool, found: Found) -> u8
    ensures value { result ≡ found_status strict found }
    ensures other { (result == 3) ≡ false }
{
    if found.is_broken {
        1
    } else if strict {
        found.clients.status()
    } else {
        0
    }
}

/// Serves clients of a port, as a plan says that names a file of dialogues: the first client has the script of one of them, and
/// its result is printed; later ones get the server alone. Where the plan asks for it, each connection is shown in this form once it
/// has ended, and `keeper` keeps it. Gives the status: 1 where something is broken, and after a fault; else, with `--strict`, that of
/// the verdict on the clients, 0, or 4 to 7; else 0. 2 where the file is refused and a sentence is written to `errors`, 3 where the
/// output failed.
pub fn inject<F: Files, G: Guests, K: ScriptKeeper, O: Output, E: Output>(
    alloc: Global,
    plan: &Serve<'_>,
    form: Form,
    guests: &mut G,
    files: &mut F,
    keeper: &mut K,
    output: &mut O,
    errors: &mut E,
) -> u8
    requires writer { O.has_failed output.old ≡ false }
    ensures flag { O.has_failed output.new ≡ (result == 3) }
{
    let shown = if plan.watch.explain { Some(form) } else { None };
    match run(alloc, plan, shown, guests, files, keeper, output, errors) {
        Ok(found) => status_of(form.strict, found),
        Err(Stop::NoMemory) => print_fault(output, BenchFault::NoMemory),
        Err(Stop::Fault(fault)) => print_fault(output, fault),
        Err(Stop::NotWritten) => 3,
        Err(Stop::Sentence(text)) => {
            let _ = errors.write(text.as_bytes());
            2
        }
    }
}
