//! Runs of the program over readers and writers that fail or take one octet at a time. The words are after ` : `; the
//! input is the text, or the first piece in hex where there is none. The numbers of a line are how many octets a read
//! gives and a write takes at most, and how many octets the writer takes in all. Runs over memory, where nothing can
//! fail but an allocation: `commands`.

use crate::commands;
use crate::line::Call;
use crate::trials::Reply;
use h2_cmd_run::{Words, run};
use std::alloc::{AllocError, Global};
use std::io::{ErrorKind, Read, Write};
use std::{io, str};

/// A reader that gives at most that many octets at each call. The call with the number in `calls` fails, counted from
/// 1.
#[derive(Drop)]
struct Reader<'t> {
    octets: &'t [u8],
    size: usize,
    calls: u64,
    failed: bool,
}

impl Read for Reader<'_> {
    fn read(&mut self, buffer: &mut [u8]) -> io::Result<usize> {
        if self.calls == 1 {
            self.failed = true;
            return Err(io::Error::from(ErrorKind::Interrupted));
        }
        self.calls = self.calls.saturating_sub(1);
        let count = self.size.min(buffer.len()).min(self.octets.len());
        let (taken, left) = self.octets.split_at(count);
        buffer[..count].copy_from_slice(taken);
        self.octets = left;
        Ok(count)
    }
}

/// A writer that takes at most that many octets at each call, and `limit` in all; each further call fails.
#[derive(Drop)]
struct Writer {
    taken: Vec<u8>,
    size: usize,
    limit: usize,
}

impl Write for Writer {
    fn write(&mut self, text: &[u8]) -> io::Result<usize> {
        let count = text.len().min(self.size).min(self.limit);
        if count == 0 && !text.is_empty() {
            return Err(io::Error::from(ErrorKind::BrokenPipe));
        }
        if self.taken.extend_from_slice(&text[..count]).is_err() {
            return Err(io::Error::from(ErrorKind::OutOfMemory));
        }
        self.limit -= count;
        Ok(count)
    }

    fn flush(&mut self) -> io::Result<()> {
        Ok(())
    }
}

/// The words of a program, its name first.
pub fn words_of(alloc: Global, call: &Call<'_>) -> Result<Words, AllocError> {
    let mut words = Words::new(alloc);
    add_words(&mut words, call.words())?;
    Ok(words)
}

/// Adds the name of the program, and the words of a text, which blanks part.
fn add_words(words: &mut Words, text: &str) -> Result<(), AllocError> {
    words.add("h2_bench")?;
    for word in text.split_ascii_whitespace() {
        words.add(word)?;
    }
    Ok(())
}

/// The input of a program.
pub fn input_of(alloc: Global, call: &Call<'_>) -> Result<Vec<u8>, AllocError> {
    if call.text().is_empty() {
        let digits = hex::encode(alloc, call.piece(0))?;
        return Vec::from_slice(alloc, digits.as_bytes());
    }
    Vec::from_slice(alloc, call.text())
}

// This has no clause, so that no proof above it carries what a run prints.
/// The exit status of a run over these devices.
fn status_of(alloc: Global, words: &Words, reader: &mut Reader<'_>, writer: &mut Writer) -> u8 {
    run(alloc, words, reader, writer)
}

/// How a run ends, and what it printed.
#[derive(Drop)]
struct Outcome {
    status: u8,
    printed: Vec<u8>,
    /// Whether a read failed.
    failed: bool,
}

/// How the devices of a run fail: the most octets of a read and of a write, the read that fails, counted from 1, and how
/// many octets the writer takes in all.
#[derive(Clone, Copy)]
struct Limits {
    size: usize,
    read: u64,
    written: usize,
}

/// A run over this input, with devices of these limits.
fn over_input(alloc: Global, words: &Words, input: &[u8], limits: Limits) -> Outcome {
    let mut reader = Reader {
        octets: input,
        size: limits.size,
        calls: limits.read,
        failed: false,
    };
    let mut writer = Writer {
        taken: Vec::new(alloc),
        size: limits.size,
        limit: limits.written,
    };
    let status = status_of(alloc, words, &mut reader, &mut writer);
    Outcome {
        status,
        printed: writer.taken,
        failed: reader.failed,
    }
}

/// A run with these words over the input of the line.
fn over_words(
    alloc: Global,
    call: &Call<'_>,
    words: &Words,
    limits: Limits,
) -> Result<Outcome, AllocError> {
    let input = input_of(alloc, call)?;
    Ok(over_input(alloc, words, input.as_slice(), limits))
}

/// A run of the program over devices that fail so.
fn ran(alloc: Global, call: &Call<'_>, limits: Limits) -> Result<Outcome, AllocError> {
    let words = words_of(alloc, call)?;
    over_words(alloc, call, &words, limits)
}

/// Devices that do not fail.
const WHOLE: Limits = Limits {
    size: usize::MAX,
    read: 0,
    written: usize::MAX,
};

/// Devices of that many octets at a time that do not fail.
fn in_pieces(size: usize) -> Limits {
    Limits { size, ..WHOLE }
}

/// A run whose read in this turn fails.
fn over_reads(alloc: Global, call: &Call<'_>, turn: u64) -> Result<Reply, AllocError> {
    let limits = in_pieces(call.size(0));
    let found = ran(
        alloc,
        call,
        Limits {
            read: turn,
            ..limits
        },
    )?;
    let printed = str::from_utf8(found.printed.as_slice()).unwrap_or("no text");
    Ok(Reply {
        text: format!(in alloc; "status {}, printed {printed:?}", found.status)?,
        failed: found.failed,
    })
}

/// How many octets the writer takes: those before the one in this turn, or the number of the line.
fn limit_of(call: &Call<'_>, turn: u64) -> usize {
    match usize::try_from(turn) {
        Ok(0) | Err(_) => call.size(1),
        Ok(turn) => turn.saturating_sub(1),
    }
}

/// What the writer took, compared with what one that takes all takes.
fn write_text(
    alloc: Global,
    found: &Outcome,
    whole: &[u8],
    limit: usize,
) -> Result<Reply, AllocError> {
    let printed = found.printed.as_slice();
    let is_as_much = printed.len() == limit.min(whole.len());
    let text = format!(in alloc;
        "status {}, as much as the writer takes {is_as_much}, a beginning of the whole {}",
        found.status,
        whole.starts_with(printed)
    )?;
    Ok(Reply {
        text,
        failed: limit < whole.len(),
    })
}

/// A run whose writer takes some octets, compared with one whose writer takes all.
fn over_writes(alloc: Global, call: &Call<'_>, turn: u64) -> Result<Reply, AllocError> {
    let written = limit_of(call, turn);
    let whole = ran(alloc, call, WHOLE)?;
    let limits = in_pieces(call.size(0));
    let found = ran(alloc, call, Limits { written, ..limits })?;
    write_text(alloc, &found, whole.printed.as_slice(), written)
}

/// A run in pieces, compared with one that reads and writes all at once.
fn over_pieces(alloc: Global, call: &Call<'_>) -> Result<Reply, AllocError> {
    let whole = ran(alloc, call, WHOLE)?;
    let found = ran(alloc, call, in_pieces(call.size(0)))?;
    pieces_text(alloc, &found, &whole)
}

/// Whether a run over small reads and writes prints what one over whole ones does.
fn pieces_text(alloc: Global, found: &Outcome, whole: &Outcome) -> Result<Reply, AllocError> {
    let is_same = found.status == whole.status
        && found.printed.as_slice() == whole.printed.as_slice();
    let text = format!(in alloc;
        "status {}, prints something {}, as in one piece {is_same}",
        found.status,
        !whole.printed.is_empty()
    )?;
    Ok(Reply {
        text,
        failed: false,
    })
}

/// Runs the program of a line. `verb` says what fails: a read or a write, that of number `turn`, from 1; at 0 none does.
/// Or it asks for small pieces, or for a run over memory.
pub fn tried(alloc: Global, verb: &str, call: &Call<'_>, turn: u64) -> Result<Reply, AllocError> {
    match verb {
        "read" => over_reads(alloc, call, turn),
        "write" => over_writes(alloc, call, turn),
        "pieces" => over_pieces(alloc, call),
        "memory" => commands::ran(alloc, call),
        _ => Err(AllocError),
    }
}
