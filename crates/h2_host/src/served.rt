//! The output of a server, which is looked at on its way: a line `connection K fault N` is followed by a sentence on
//! standard error, and each line of a connection may get its time.

ghost use Rattle.std.specs.Prelude.{◌≤◌, length};

use crate::devices::stopwatch::Stopwatch;
use crate::items::number_in;
use h2_io::{IntoWrite, Number, Text, texts};
use h2_spec::octets::first_octets;
use memchr::memchr;
use std::alloc::Global;
use std::io;
use std::io::Write;
use std::time::Clock;

/// How many octets of a line are looked at: more than the line of a fault has.
const LOOKED_AT: usize = 48;

/// What the number of a connection's fault says.
fn reason(number: usize) -> Option<&'static str> {
    match number {
        0 => Some("out of memory for what the client sent"),
        22 => Some("a read failed; mostly the client has reset the connection"),
        23 => Some("a write failed; the client left before it had read its answers"),
        24 => Some("1,000,000 reads, the most of one connection; a new connection goes on"),
        _ => None,
    }
}

/// The octets of a text up to its first line feed, and that.
fn first_line(text: &[u8]) -> &[u8]
    ensures within { length result.now ≤ length text.now }
{
    match memchr(b'\n', text) {
        Some(end) => match text.get(..end.saturating_add(1)) {
            Some(line) => line,
            None => text,
        },
        None => text,
    }
}

/// The output of a server.
#[derive(Drop)]
pub struct ServerOutput<'w, 't, 'c, W, E, C> {
    output: &'w mut W,
    errors: E,
    alloc: Global,
    /// Whether nothing is said.
    is_quiet: bool,
    /// What each line of a connection gets its time from, if it gets one.
    times: Option<&'t Stopwatch<'c, C>>,
    /// Whether a connection is open.
    is_open: bool,
    seen: Seen,
}

/// What was seen of the line that is written.
#[derive(Drop)]
struct Seen {
    alloc: Global,
    /// Whether a line begins.
    is_fresh: bool,
    /// The first octets of the line.
    line: Vec<u8>,
    /// What is said once the line is flushed.
    sentence: String,
}

/// The sentence about a line, where it is that of a connection's fault.
fn sentence_of(alloc: Global, line: &[u8]) -> Option<String> {
    let rest = line.strip_prefix(b"connection ".as_slice())?;
    let blank = rest.iter().position(|octet| *octet == b' ')?;
    let fault = rest.get(blank..)?.strip_prefix(b" fault ".as_slice())?;
    let reason = reason(number_in(fault))?;
    let connection = number_in(rest);
    format!(in alloc; "connection {connection}: {reason}.\n").ok()
}

impl Seen {
    /// The line that was seen has ended.
    fn end(&mut self) {
        if let Some(sentence) = sentence_of(self.alloc, self.line.as_slice()) {
            self.sentence = sentence;
        }
        self.line.clear();
    }

    /// Looks at the next octets of a line, whose line feed is at its end, or at lines about items, of which nothing is said.
    fn look(&mut self, octets: &[u8]) {
        let space = LOOKED_AT.saturating_sub(self.line.len());
        // Without memory for them nothing is said.
        let _ = self.line.extend_from_slice(first_octets(octets, space));
        self.is_fresh = octets.ends_with(b"\n".as_slice());
        if self.is_fresh {
            self.end();
        }
    }
}

/// Writes the time of a line that begins; in JSON it is the first member. Takes no memory.
fn write_millis<W: Write>(output: &mut W, millis: u64, is_json: bool) -> io::Result<()> {
    let (before, after) = if is_json {
        ("{\"time\":", ",")
    } else {
        ("+", " ")
    };
    match texts!(before, Number(millis), after).write_to(&mut IntoWrite::new(output)) {
        Ok(()) => Ok(()),
        Err(_) => Err(io::Error::from(io::ErrorKind::Other)),
    }
}

impl<'w, 't, 'c, W: Write, E: Write, C: Clock> ServerOutput<'w, 't, 'c, W, E, C> {
    /// This output; sentences are written to `errors`, unless it is quiet.
    pub fn new(
        alloc: Global,
        output: &'w mut W,
        errors: E,
        is_quiet: bool,
        times: Option<&'t Stopwatch<'c, C>>,
    ) -> ServerOutput<'w, 't, 'c, W, E, C> {
        ServerOutput {
            output,
            errors,
            alloc,
            is_quiet,
            times,
            is_open: false,
            seen: Seen {
                alloc,
                is_fresh: true,
                line: Vec::new(alloc),
                sentence: String::new(alloc),
            },
        }
    }

    /// Starts the time where the first line of a connection begins. Its first and its last line begin with a `c`, and no
    /// other line does.
    fn note_connection(&mut self, line: &[u8]) {
        if line.first().copied() != Some(b'c') {
            return;
        }
        if !self.is_open
            && let Some(times) = self.times
        {
            times.start();
        }
        self.is_open = !self.is_open;
    }

    /// The octets that are written at once: a line, where it may be a connection's first or last one, or gets its time;
    /// else all.
    fn looked_at<'l>(&self, octets: &'l [u8]) -> &'l [u8]
        ensures within { length result.now ≤ length octets.now }
    {
        let begins_other = self.seen.is_fresh && octets.first().copied() != Some(b'c');
        if begins_other && self.times.is_none() {
            octets
        } else {
            first_line(octets)
        }
    }

    /// Writes the time of a line that begins; in JSON it is the first member. Gives what is still to be written of it.
    fn write_time<'l>(&mut self, line: &'l [u8]) -> io::Result<&'l [u8]> {
        self.note_connection(line);
        let Some(times) = self.times else {
            return Ok(line);
        };
        let Some(millis) = times.millis() else {
            return Ok(line);
        };
        let rest = line.strip_prefix(b"{".as_slice());
        write_millis(self.output, millis, rest.is_some())?;
        Ok(rest.unwrap_or(line))
    }
}

impl<W: Write, E: Write, C: Clock> Write for ServerOutput<'_, '_, '_, W, E, C> {
    fn write(&mut self, octets: &[u8]) -> io::Result<usize> {
        if octets.is_empty() {
            return Ok(0);
        }
        let line = self.looked_at(octets);
        let rest = if self.seen.is_fresh {
            self.write_time(line)?
        } else {
            line
        };
        self.output.write_all(rest)?;
        self.seen.look(line);
        Ok(line.len())
    }

    fn flush(&mut self) -> io::Result<()> {
        self.output.flush()?;
        if !self.is_quiet {
            let _ = self.errors.write_all(self.seen.sentence.as_bytes());
        }
        self.seen.sentence.clear();
        Ok(())
    }
}
