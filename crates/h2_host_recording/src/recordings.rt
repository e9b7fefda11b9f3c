//! The records of connections that are served, as files of a directory: `connection-N.hex`, the octets of the client as
//! hex, a line for each read; and `connection-N.h2`, a case for `check`, with the words of the connection, each item as a
//! line of a script, and what was sent for it.

use h2_cmd_args::Words;
use h2_cmd_args::command::{BookWords, Serve};
use h2_cmd_cases::{add_case_words, push_told};
use h2_cmd_inject::ScriptKeeper;
use h2_cmd_messages::{InputSource, Say, TextBuilder, say_unrecorded};
use h2_explain::{Explained, Recorder};
use h2_host::Stopwatch;
use h2_script::disassemble;
use h2_serve::Keeper;
use h2_spec::connection::Config;
use std::alloc::AllocError;
use std::fs::{File, OpenOptions};
use std::io::{ErrorKind, Write};
use std::os::unix::fs::OpenOptionsExt;
use std::path::Path;
use std::rt::Files;
use std::{env, io};

/// The most numbers that are tried for the files of one connection.
const TRIES: u32 = 1_000_000;

/// Appends a word as a shell reads it, in quotes.
fn add_quoted(word: &str, out: &mut String) -> Result<(), AllocError> {
    out.push_str("'")?;
    for (place, part) in word.split('\'').enumerate() {
        if place > 0 {
            out.push_str("'\\''")?;
        }
        out.push_str(part)?;
    }
    out.push_str("'")
}

/// How many names two absolute paths begin with that are the same.
fn shared_names(one: &str, other: &str) -> usize {
    let mut others = other.split('/');
    let mut shared = 0usize;
    for name in one.split('/') {
        if others.next() != Some(name) {
            return shared;
        }
        shared = shared.saturating_add(1);
    }
    shared
}

/// Appends, for each name of an absolute path but the first few, that name, or `..` where only the way up is asked for,
/// with a slash.
fn add_names(path: &str, first: usize, is_up: bool, out: &mut String) -> Result<(), AllocError> {
    for name in path.split('/').skip(first) {
        out.push_str(if is_up { ".." } else { name })?;
        out.push_str("/")?;
    }
    Ok(())
}

/// Appends the way from a directory to the current one, with a slash at its end; nothing where it is the current one.
fn add_way(rt: &HostRuntime, directory: &str, out: &mut String) -> io::Result<()> {
    let (here, there) = (
        env::current_dir(rt)?,
        rt.canonicalize(rt.alloc(), directory)?,
    );
    let (Some(here), Some(there)) = (here.to_str(), there.to_str()) else {
        return Err(io::Error::from(ErrorKind::InvalidFilename));
    };
    let shared = shared_names(there, here);
    add_names(there, shared, true, out)?;
    add_names(here, shared, false, out)?;
    Ok(())
}

/// Appends the path of a file as a case in this directory names it: a relative path starts from there. A path with a line
/// feed is in no line, and is refused.
fn add_path(rt: &HostRuntime, directory: &str, path: &str, out: &mut String) -> io::Result<()> {
    let mut whole = String::new(rt.alloc());
    if !path.starts_with('/') {
        add_way(rt, directory, &mut whole)?;
    }
    whole.push_str(path.strip_prefix("./").unwrap_or(path))?;
    if whole.contains('\n') {
        return Err(io::Error::from(ErrorKind::InvalidFilename));
    }
    add_quoted(whole.as_str(), out)?;
    Ok(())
}

/// The lines with the book of the words.
fn book_lines(rt: &HostRuntime, directory: &str, book: &BookWords<'_>) -> io::Result<String> {
    let mut lines = String::new(rt.alloc());
    let out = &mut lines;
    if book.file == "-" {
        out.push_str("; its book came from standard input\n")?;
    } else if !book.file.is_empty() {
        out.push_str(";@ --book ")?;
        add_path(rt, directory, book.file, out)?;
        out.push_str("\n")?;
    }
    for answer in book.answers.iter() {
        // One with a line feed answers nothing: no method and no path of a request has one.
        if !answer.contains('\n') {
            out.push_str(";@ ")?;
            add_quoted(answer, out)?;
            out.push_str("\n")?;
        }
    }
    Ok(lines)
}

/// The lines with the limits and the settings that the words give, and these lines of the book.
fn words_of(rt: &HostRuntime, config: Config, book: &str) -> io::Result<String> {
    let (streams, credit) = (config.streams, config.credit);
    let (table, window, frame) = (config.table, config.window, config.frame);
    Ok(format!(in rt.alloc();
        ";@ --streams {streams} --credit {credit} --table {table} --window {window} --frame {frame}\n{book}"
    )?)
}

/// Appends the path of a book that a file names beside it, as a case in this directory names it.
fn add_path_beside(
    rt: &HostRuntime,
    directory: &str,
    file: &str,
    book: &str,
    out: &mut String,
) -> io::Result<()> {
    let beside = Path::new(file).parent().unwrap_or(Path::new(""));
    let path = beside.join(rt.alloc(), book)?;
    out.push_str(" --book ")?;
    add_path(rt, directory, path.as_str(), out)
}

/// The line with the words of lines of this file, those of the book only where they are asked for.
fn dialogue_words(
    rt: &HostRuntime,
    directory: &str,
    file: &str,
    lines: &[&[u8]],
    has_book: bool,
) -> io::Result<String> {
    let mut words = Words::new(rt.alloc());
    if add_case_words(rt.alloc(), lines, &mut words).is_err() {
        return Err(io::Error::from(ErrorKind::OutOfMemory));
    }
    let mut out = String::from_str(rt.alloc(), ";@")?;
    let mut is_path = false;
    for word in words.as_slice() {
        let word = word.as_str();
        let book = if is_path {
            Some(word)
        } else {
            word.strip_prefix("--book=")
        };
        is_path = !is_path && word == "--book";
        match book {
            Some(book) if has_book => add_path_beside(rt, directory, file, book, &mut out)?,
            Some(_) => {}
            None if is_path => {}
            None => {
                out.push_str(" ")?;
                add_quoted(word, &mut out)?;
            }
        }
    }
    out.push_str("\n")?;
    Ok(out)
}

// Written line by line without a buffer, and cut to whole lines where a write fails, so that a record can
// always be read.
/// A file to which whole lines are written.
#[derive(Drop)]
struct LineFile {
    file: File,
    length: u64,
    /// Its path, and whether lines could not be written to it.
    path: String,
    is_cut: bool,
}

impl LineFile {
    /// A file that was not there before, which its owner alone can read.
    fn create(rt: &HostRuntime, path: &str) -> io::Result<LineFile> {
        let mut options = OpenOptions::new();
        options.append(true).create_new(true).mode(0o600);
        Ok(LineFile {
            file: options.open(rt, path)?,
            length: 0,
            path: String::from_str(rt.alloc(), path)?,
            is_cut: false,
        })
    }

    /// Writes lines. Where that fails, the file ends with the lines before, if it can be cut.
    fn add(&mut self, lines: &[u8]) -> io::Result<()> {
        match self.file.write_all(lines) {
            Ok(()) => {
                self.length = self.length.saturating_add(lines.len() as u64);
                Ok(())
            }
            Err(error) => {
                let _ = self.file.set_len(self.length);
                self.is_cut = true;
                Err(error)
            }
        }
    }

    /// Drops the lines after the first few octets.
    fn cut(&mut self, length: u64) -> io::Result<()> {
        self.file.set_len(length)?;
        self.length = length;
        Ok(())
    }
}

/// The two files of a connection.
#[derive(Drop)]
struct Record {
    hex: LineFile,
    case: LineFile,
    /// The octets that were in no item when the last read began, and those of the read.
    read: Vec<u8>,
    /// How many of them are in an item.
    taken: usize,
    /// How long the case was then; at first, without what is sent before anything is read.
    case_before: u64,
}

impl Record {
    /// The two files with this path, where neither is there.
    fn create(rt: &HostRuntime, path: &str) -> io::Result<Record> {
        let hex = format!(in rt.alloc(); "{path}.hex")?;
        let case = format!(in rt.alloc(); "{path}.h2")?;
        if rt.metadata(case.as_str()).is_ok() {
            return Err(io::Error::from(ErrorKind::AlreadyExists));
        }
        Ok(Record {
            hex: LineFile::create(rt, hex.as_str())?,
            case: LineFile::create(rt, case.as_str())?,
            read: Vec::new(rt.alloc()),
            taken: 0,
            case_before: 0,
        })
    }

    /// Writes the octets of a read.
    fn add_read(&mut self, rt: &HostRuntime, octets: &[u8]) -> io::Result<()> {
        let mut line = hex::encode(rt.alloc(), octets)?;
        line.push_str("\n")?;
        self.hex.add(line.as_str().as_bytes())?;
        let left = self.read.len().saturating_sub(self.taken);
        self.read.rotate_left(self.taken.min(self.read.len()));
        self.read.truncate(left);
        self.read.extend_from_slice(octets)?;
        self.taken = 0;
        self.case_before = self.case.length;
        Ok(())
    }

    /// Writes an item, its time, if it has one, and what was sent for it.
    fn add_item(
        &mut self,
        rt: &HostRuntime,
        millis: Option<u64>,
        octets: &[u8],
        sent: &[u8],
    ) -> io::Result<()> {
        let mut lines = Vec::new(rt.alloc());
        if let Some(millis) = millis {
            let time = format!(in rt.alloc(); "; {millis} ms\n")?;
            lines.extend_from_slice(time.as_str().as_bytes())?;
        }
        let item = disassemble(rt.alloc(), octets)?;
        lines.extend_from_slice(item.as_str().as_bytes())?;
        push_told(rt.alloc(), sent, &mut lines)?;
        self.case.add(lines.as_slice())?;
        self.taken = self.taken.saturating_add(octets.len());
        Ok(())
    }

    /// Writes frames as comments, after this word.
    fn add_comments(&mut self, rt: &HostRuntime, word: &str, octets: &[u8]) -> io::Result<()> {
        let mut told = Vec::new(rt.alloc());
        push_told(rt.alloc(), octets, &mut told)?;
        let mut lines = Vec::new(rt.alloc());
        for line in told.split(|octet| *octet == b'\n') {
            if let Some(frame) = line.strip_prefix(b";<".as_slice()) {
                lines.extend_from_slice(b"; ".as_slice())?;
                lines.extend_from_slice(word.as_bytes())?;
                lines.extend_from_slice(frame)?;
                lines.extend_from_slice(b"\n".as_slice())?;
            }
        }
        self.case.add(lines.as_slice())
    }

    /// Drops what was sent for the last read, since not all of it was written, and the items of that read.
    fn drop_items(&mut self) -> io::Result<()> {
        self.taken = 0;
        self.case.cut(self.case_before)?;
        self.case.add(b"; not all that was sent here was written\n")
    }

    /// Writes the octets that are in no item.
    fn add_rest(&mut self, rt: &HostRuntime) -> io::Result<()> {
        let Some(rest) = self.read.get(self.taken..) else {
            return Ok(());
        };
        if rest.is_empty() {
            return Ok(());
        }
        let lines = disassemble(rt.alloc(), rest)?;
        self.case.add(lines.as_str().as_bytes())
    }

    /// Writes the end of the connection.
    fn end(&mut self, rt: &HostRuntime, is_written: bool) -> io::Result<()> {
        if !is_written {
            self.drop_items()?;
        }
        self.add_rest(rt)
    }
}

/// What records the connections of a server. A record that can't be written further ends with a line on standard error;
/// the connection goes on.
#[derive(Drop)]
pub struct Recordings<'r, 't, 'c> {
    runtime: &'r HostRuntime,
    directory: &'r str,
    /// Whether nothing is said.
    is_quiet: bool,
    /// What each item gets its time from, if it gets one.
    times: Option<&'t Stopwatch<'c, HostRuntime>>,
    /// The lines `;@` of each case; none where they can't be written.
    words: Option<String>,
    /// Those of them with the book of the command line.
    book: String,
    /// The number that the next files have, if they are new.
    next: u32,
    record: Option<Record>,
}

/// Says something of a file or a directory on standard error.
fn say_of(rt: &HostRuntime, path: &str, text: &str) {
    let mut out = TextBuilder::new(rt.alloc());
    InputSource::File(path).say(&mut out);
    text.say(&mut out);
    if let Ok(text) = out.finish() {
        let _ = rt.stderr().write_all(text.as_bytes());
    }
}

impl<'r, 't, 'c> Recordings<'r, 't, 'c> {
    /// What records into the directory of the words; fails where that can't be written to.
    pub fn new(
        rt: &'r HostRuntime,
        plan: &'r Serve<'_>,
        times: Option<&'t Stopwatch<'c, HostRuntime>>,
    ) -> io::Result<Recordings<'r, 't, 'c>> {
        let directory = plan.watch.record_to;
        let probe = format!(in rt.alloc(); "{directory}/.h2_bench")?;
        LineFile::create(rt, probe.as_str())?;
        rt.remove_file(probe.as_str())?;
        let book = book_lines(rt, directory, &plan.book)?;
        Ok(Recordings {
            runtime: rt,
            directory,
            is_quiet: !plan.book.why,
            times,
            words: Some(words_of(rt, plan.config, book.as_str())?),
            book,
            next: 1,
            record: None,
        })
    }

    /// New files for a connection, the first that are not there yet.
    fn create(&mut self) -> io::Result<Record> {
        let directory = self.directory;
        for _ in 0..TRIES {
            let next = self.next;
            self.next = next.saturating_add(1);
            let path = format!(in self.runtime.alloc(); "{directory}/connection-{next}")?;
            match Record::create(self.runtime, path.as_str()) {
                Err(error) if error.kind() == ErrorKind::AlreadyExists => {}
                other => return other,
            }
        }
        Err(io::Error::from(ErrorKind::AlreadyExists))
    }

    /// The record of a connection, with its title, its words and what is sent first.
    fn open(&mut self, number: u32, opening: &[u8]) -> io::Result<Record> {
        let rt = self.runtime;
        if self.words.is_none() {
            return Err(io::Error::from(ErrorKind::InvalidFilename));
        }
        let mut record = self.create()?;
        let title = format!(in rt.alloc(); ";# connection {number}\n")?;
        let mut lines = title.as_str().as_bytes().to_vec(rt.alloc())?;
        if let Some(words) = &self.words {
            lines.extend_from_slice(words.as_str().as_bytes())?;
        }
        record.case_before = lines.len() as u64;
        push_told(rt.alloc(), opening, &mut lines)?;
        record.case.add(lines.as_slice())?;
        Ok(record)
    }

    /// The lines `;@` of each case, with the words of these lines of a file of dialogues.
    fn words_with(&self, file: &str, lines: &[&[u8]], have_answers: bool) -> io::Result<String> {
        let (rt, directory) = (self.runtime, self.directory);
        let mut words = dialogue_words(rt, directory, file, lines, have_answers)?;
        if !have_answers {
            words.push_str(self.book.as_str())?;
        }
        Ok(words)
    }

    /// Writes frames of the last item as comments, after this word.
    fn keep_comments(&mut self, word: &str, octets: &[u8]) {
        let rt = self.runtime;
        if let Some(record) = &mut self.record {
            let written = record.add_comments(rt, word, octets);
            self.check(written);
        }
    }

    /// Ends the record where it could not be written, and says which file, and why.
    fn check(&mut self, written: io::Result<()>) {
        let Err(error) = written else {
            return;
        };
        let ended = self.record.take();
        if self.is_quiet {
            return;
        }
        let path = match &ended {
            Some(record) if record.hex.is_cut => record.hex.path.as_str(),
            Some(record) => record.case.path.as_str(),
            None => self.directory,
        };
        let mut out = TextBuilder::new(self.runtime.alloc());
        say_unrecorded(path, error.kind(), &mut out);
        if let Ok(text) = out.finish() {
            let _ = self.runtime.stderr().write_all(text.as_bytes());
        }
    }
}

impl Recorder for Recordings<'_, '_, '_> {
    fn record(&mut self, item: &Explained<'_>) {
        let rt = self.runtime;
        let millis = match self.times {
            Some(times) => times.millis(),
            None => None,
        };
        if let Some(record) = &mut self.record {
            let written = record.add_item(rt, millis, item.octets, item.sent);
            self.check(written);
        }
    }
}

impl Keeper for Recordings<'_, '_, '_> {
    fn begin(&mut self, number: u32, opening: &[u8]) {
        match self.open(number, opening) {
            Ok(record) => self.record = Some(record),
            Err(error) => self.check(Err(error)),
        }
    }

    fn keep_read(&mut self, octets: &[u8]) {
        let rt = self.runtime;
        if let Some(record) = &mut self.record {
            let written = record.add_read(rt, octets);
            self.check(written);
        }
    }

    fn end(&mut self, is_written: bool) {
        let rt = self.runtime;
        if let Some(record) = &mut self.record {
            let written = record.end(rt, is_written);
            self.check(written);
        }
        self.record = None;
    }
}

impl ScriptKeeper for Recordings<'_, '_, '_> {
    fn keep_words(&mut self, file: &str, lines: &[&[u8]], have_answers: bool) {
        self.words = self.words_with(file, lines, have_answers).ok();
    }

    fn keep_withheld(&mut self, octets: &[u8]) {
        self.keep_comments("withheld", octets);
    }

    fn keep_script(&mut self, octets: &[u8]) {
        self.keep_comments("script", octets);
    }
}

/// What records the connections, where the words ask for that; fails where the directory can't be written to.
pub fn recordings_for<'r, 't, 'c>(
    rt: &'r HostRuntime,
    plan: &'r Serve<'_>,
    times: Option<&'t Stopwatch<'c, HostRuntime>>,
) -> Option<io::Result<Recordings<'r, 't, 'c>>> {
    if plan.watch.record_to.is_empty() {
        return None;
    }
    Some(Recordings::new(rt, plan, times))
}

/// Says why connections can't be recorded; gives the status.
pub fn refuse_recording<W: Write>(
    rt: &HostRuntime,
    plan: &Serve<'_>,
    error: &io::Error,
    output: &mut W,
) -> u8 {
    let text = match error.kind() {
        io::ErrorKind::NotFound => ": there is no such directory; nothing is served.\n",
        io::ErrorKind::NotADirectory => ": it is no directory; nothing is served.\n",
        io::ErrorKind::AlreadyExists => ": its file .h2_bench is in the way; nothing is served.\n",
        io::ErrorKind::InvalidFilename =>
            ": no case can name the book's file; nothing is served.\n",
        _ => ": it can't be written to; nothing is served.\n",
    };
    if plan.book.why {
        say_of(rt, plan.watch.record_to, text);
    }
    match output.write_all(b"fault 22\n") {
        Ok(()) => 1,
        Err(_) => 3,
    }
}
