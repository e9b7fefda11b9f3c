//! A person, or a program, at a session: lines are read one at a time, each is given to the session as the command that
//! it means, and what is no command of the session is answered here. It uses `commands` and `items`, and an
//! `OctetsExplainer`, which the program gives.

ghost use Rattle.std.specs.Prelude.{◌≤◌, length, IfOk};

use crate::SessionState;
use crate::devices::copied::copy_from;
use crate::items::{AROUND, error_after, put_item, put_items};
use crate::prompt::prompt_commands::{HELP, Meaning, meaning_of};
use arrayvec::ArrayVec;
use h2_io::{IntoWrite, Number, Text, texts};
use h2_spec::octets::octets_up_to;
use itoa::Buffer;
use std::alloc::{AllocError, Global};
use std::io;
use std::io::{ErrorKind, Read, Write};

/// The longest line that is held; a longer one is no command of a person.
const LONGEST: usize = 4096;

/// A line, without its line feed.
type Line = ArrayVec<u8, LONGEST>;

/// A command as it is given to the session.
type Command = ArrayVec<u8, 4112>;

/// What was read and is in no line yet.
#[derive(Drop)]
struct Held {
    octets: Line,
    /// Those before this place are in a line already.
    start: usize,
}

impl Held {
    /// The octets that are in no line yet.
    fn rest(&self) -> &[u8] {
        match self.octets.as_slice().get(self.start..) {
            Some(rest) => rest,
            None => &[],
        }
    }

    /// Takes a line of this length to `line`, and passes over its line feed.
    fn take_line(&mut self, length: usize, line: &mut Line) {
        for octet in self.rest().iter().take(length) {
            let _ = line.try_push(*octet);
        }
        self.start = self.start.saturating_add(length).saturating_add(1);
    }

    /// Takes all octets to `line`; says whether there were any.
    fn take_all(&mut self, line: &mut Line) -> bool {
        put_all(self.rest(), line);
        self.octets.clear();
        self.start = 0;
        !line.is_empty()
    }

    /// Moves the octets to the front; says how many more there is space for.
    fn make_room(&mut self) -> usize
        ensures { result ≤ LONGEST }
    {
        let mut left = Line::new();
        put_all(self.rest(), &mut left);
        self.octets = left;
        self.start = 0;
        LONGEST.saturating_sub(self.octets.len())
    }
}

/// What explains octets, once a session is asked for it.
pub trait OctetsExplainer {
    /// What `explain` prints of the octets of a text.
    fn explain(&self, alloc: Global, text: &[u8]) -> Result<Vec<u8>, AllocError>;
}

/// Lines for a session.
#[derive(Drop)]
pub struct Console<'c, R, O, E, X> {
    reader: R,
    output: O,
    errors: E,
    alloc: Global,
    /// Whether a prompt is written before a line is read.
    has_prompt: bool,
    has_dots: bool,
    /// Whether the next line is the octets, which are given as they are.
    is_first: bool,
    /// The text of the octets: that of a file, or the first line.
    octets: Vec<u8>,
    /// Whether memory for them was refused.
    is_cut: bool,
    explainer: X,
    /// What `explain` prints of the octets, once that was asked for.
    explained: Option<Vec<u8>>,
    state: &'c SessionState,
    /// The position whose item was shown last.
    shown: usize,
    /// The breakpoints, as the lines that set them.
    breaks: Vec<u8>,
    /// Whether memory for one of them was refused.
    lacks_breaks: bool,
    held: Held,
    /// The command that is given, with its line feed, and how much of it was.
    command: Command,
    given: usize,
    /// Whether the rest of its line is given as it comes, since it is longer than those that are held.
    passes: bool,
}

/// How a console is set up.
#[derive(Drop)]
pub struct Manner<X> {
    /// Whether a prompt is written before each command.
    pub has_prompt: bool,
    /// Whether the prompt is also written while a command is not complete.
    pub has_dots: bool,
    /// Whether the first line has the octets; else they are those of a file.
    pub has_first: bool,
    /// The text of the file's octets.
    pub octets: Vec<u8>,
    pub explainer: X,
}

impl<'c, R: Read, O: Write, E: Write, X: OctetsExplainer> Console<'c, R, O, E, X> {
    /// Lines of a reader; what is answered here is written to `output`, prompts to `errors`.
    pub fn new(
        alloc: Global,
        reader: R,
        output: O,
        errors: E,
        manner: Manner<X>,
        state: &'c SessionState,
    ) -> Console<'c, R, O, E, X> {
        Console {
            reader,
            output,
            errors,
            alloc,
            has_prompt: manner.has_prompt,
            has_dots: manner.has_dots,
            is_first: manner.has_first,
            octets: manner.octets,
            is_cut: false,
            explainer: manner.explainer,
            explained: None,
            state,
            shown: 0,
            breaks: Vec::new(alloc),
            lacks_breaks: false,
            held: Held {
                octets: ArrayVec::new(),
                start: 0,
            },
            command: ArrayVec::new(),
            given: 0,
            passes: false,
        }
    }

    /// Writes the prompt, with the position.
    fn prompt(&mut self) -> io::Result<()> {
        if !self.has_prompt {
            return Ok(());
        }
        if self.is_first {
            return self.errors.write_all(b"octets in hex> ".as_slice());
        }
        self.show_item()?;
        let position = Number(self.state.position.get() as u64);
        match texts!(position, "> ").write_to(&mut IntoWrite::new(&mut self.errors)) {
            Ok(()) => Ok(()),
            Err(_) => Err(io::Error::from(ErrorKind::Other)),
        }
    }

    /// Writes the first line of the item of a new position, and what error it is.
    fn show_item(&mut self) -> io::Result<()> {
        let position = self.state.position.get();
        if position == self.shown {
            return Ok(());
        }
        self.shown = position;
        let mut answer = Vec::new(self.alloc);
        let put = match self.explanation() {
            Ok(text) => put_items(text, position, 0, &mut answer),
            Err(refused) => Err(refused),
        };
        self.write_answer(put, answer.as_slice())
    }

    /// What `explain` prints of the octets, which is worked out once, where it is asked for. `AllocError` where memory is
    /// refused, or was for the octets.
    fn explanation(&mut self) -> Result<&[u8], AllocError> {
        if self.is_cut {
            return Err(AllocError);
        }
        if self.explained.is_none() {
            let text = self.explainer.explain(self.alloc, self.octets.as_slice())?;
            self.explained = Some(text);
        }
        match &self.explained {
            Some(text) => Ok(text.as_slice()),
            None => Ok(&[]),
        }
    }

    /// Writes an answer, or `fault 0` where memory for it was refused.
    fn write_answer(&mut self, put: Result<(), AllocError>, answer: &[u8]) -> io::Result<()> {
        let text = match put {
            Ok(()) => answer,
            Err(_) if self.has_dots => b"fault 0\n.\n".as_slice(),
            Err(_) => b"fault 0\n".as_slice(),
        };
        self.output.write_all(text)?;
        self.output.flush()
    }

    /// Puts the answer to a line last that is no command of the session. `AllocError` where memory is refused.
    fn put_answer(&mut self, meaning: Meaning<'_>, answer: &mut Vec<u8>) -> Result<(), AllocError> {
        let position = self.state.position.get();
        match meaning {
            Meaning::Explain => put_item(self.explanation()?, position, answer)?,
            Meaning::List => put_items(self.explanation()?, position, AROUND, answer)?,
            Meaning::Breaks if self.lacks_breaks => return Err(AllocError),
            Meaning::Breaks if self.breaks.is_empty() => {
                answer.extend_from_slice(b"no breakpoint\n".as_slice())?;
            }
            Meaning::Breaks => answer.extend_from_slice(self.breaks.as_slice())?,
            Meaning::BreakError => answer.extend_from_slice(b"no error follows\n".as_slice())?,
            _ => answer.extend_from_slice(HELP.as_bytes())?,
        }
        if self.has_dots {
            answer.extend_from_slice(b".\n".as_slice())?;
        }
        Ok(())
    }

    /// Answers a line that is no command of the session.
    fn answer(&mut self, meaning: Meaning<'_>) -> io::Result<()> {
        let mut answer = Vec::new(self.alloc);
        let put = self.put_answer(meaning, &mut answer);
        self.write_answer(put, answer.as_slice())
    }

    /// What a line means at this position: a breakpoint at the next error is one at its position.
    fn meaning<'l>(&mut self, line: &'l [u8]) -> Result<Meaning<'l>, AllocError> {
        let meaning = meaning_of(line);
        let Meaning::BreakError = meaning else {
            return Ok(meaning);
        };
        let position = self.state.position.get();
        match error_after(self.explanation()?, position) {
            Some(item) => Ok(Meaning::Typed(b"break at ", item)),
            None => Ok(meaning),
        }
    }

    /// Takes a line; says whether there is a command to give, and whether the session goes on.
    fn take_line(&mut self, line: &[u8]) -> io::Result<Next> {
        let meaning = match self.meaning(line) {
            Ok(meaning) => meaning,
            Err(refused) => {
                self.write_answer(Err(refused), &[])?;
                return Ok(Next::Line);
            }
        };
        let (front, number) = match meaning {
            Meaning::Command(command) => (command, None),
            Meaning::Typed(front, number) => (front, Some(number)),
            Meaning::Table => {
                self.state.has_table.set(true);
                (b"show".as_slice(), None)
            }
            Meaning::Again if self.command.is_empty() => (line, None),
            Meaning::Again => {
                self.given = 0;
                return Ok(Next::Command);
            }
            Meaning::Quit => return Ok(Next::End),
            other => {
                self.answer(other)?;
                return Ok(Next::Line);
            }
        };
        self.given = 0;
        write_command(front, number, &mut self.command)?;
        Ok(Next::Command)
    }

    /// Notes the breakpoint that the last command has set, or that it has removed all.
    fn note_breaks(&mut self) {
        let command = self.command.as_slice();
        if self.state.is_refused.get() {
            return;
        }
        if command == b"clear\n".as_slice() {
            self.breaks.clear();
            self.lacks_breaks = false;
        } else if command.starts_with(b"break ".as_slice()) {
            self.lacks_breaks = self.breaks.extend_from_slice(command).is_err()
                || self.lacks_breaks;
        }
    }

    /// Reads a line and takes it; says what follows.
    fn read_and_take(&mut self) -> io::Result<Next> {
        self.prompt()?;
        let mut line = Line::new();
        match read_line(&mut self.reader, &mut self.held, &mut line)? {
            LineRead::Whole => self.take_line(line.as_slice()),
            LineRead::Long => {
                self.command.clear();
                put(line.as_slice(), &mut self.command)?;
                self.given = 0;
                self.passes = true;
                Ok(Next::Command)
            }
            LineRead::None => Ok(Next::End),
        }
    }

    /// Reads lines until one is a command of the session; says whether there is one.
    fn next_command(&mut self) -> io::Result<bool> {
        self.note_breaks();
        for _ in 0..u64::MAX {
            match self.read_and_take()? {
                Next::Command => return Ok(true),
                Next::End => return Ok(false),
                Next::Line => {}
            }
        }
        Ok(false)
    }

    /// Gives as much of the command as there is space for.
    fn give(&mut self, buffer: &mut [u8]) -> usize
        ensures { result ≤ length buffer.new }
    {
        let count = copy_from(self.command.as_slice(), self.given, buffer);
        self.given = self.given.saturating_add(count);
        count
    }

    /// Gives the octets of a line as they come; says how many, and holds those after it.
    fn pass_on(&mut self, buffer: &mut [u8]) -> io::Result<usize>
        ensures { IfOk result (λ count. count ≤ length buffer.new) }
    {
        let most = buffer.len().min(LONGEST);
        let count = self.reader.read(&mut buffer[..most])?;
        let taken = line_length(&buffer[..count]);
        put_all(&buffer[taken..count], &mut self.held.octets);
        Ok(taken)
    }

    /// Gives the octets that the first line has, as they come.
    fn give_first(&mut self, buffer: &mut [u8]) -> io::Result<usize>
        ensures { IfOk result (λ count. count ≤ length buffer.new) }
    {
        let taken = self.pass_on(buffer)?;
        let given = octets_up_to(buffer, taken);
        self.is_first = given.last().copied() != Some(b'\n');
        self.is_cut = self.is_cut || self.octets.extend_from_slice(given).is_err();
        Ok(taken)
    }

    /// Gives the rest of a long line, as it comes. It is not given once more.
    fn give_rest(&mut self, buffer: &mut [u8]) -> io::Result<usize>
        ensures { IfOk result (λ count. count ≤ length buffer.new) }
    {
        self.command.clear();
        self.given = 0;
        let taken = self.pass_on(buffer)?;
        self.passes = octets_up_to(buffer, taken).last().copied() != Some(b'\n');
        Ok(taken)
    }
}

/// What was read of a line.
#[derive(Clone, Copy)]
enum LineRead {
    /// All of it.
    Whole,
    /// The front of a line that is longer than those that are held.
    Long,
    /// Nothing: the input has ended.
    None,
}

/// Appends as many octets as there is space for.
fn put_all(octets: &[u8], line: &mut Line) {
    for octet in octets {
        let _ = line.try_push(*octet);
    }
}

/// Reads a line, without its line feed, to `line`, which is empty.
fn read_line<R: Read>(reader: &mut R, held: &mut Held, line: &mut Line) -> io::Result<LineRead> {
    let mut buffer = [0; LONGEST];
    for _ in 0..u64::MAX {
        if let Some(length) = end_of_line(held.rest()) {
            held.take_line(length, line);
            return Ok(LineRead::Whole);
        }
        let room = held.make_room();
        if room == 0 {
            held.take_all(line);
            return Ok(LineRead::Long);
        }
        let count = reader.read(&mut buffer[..room])?;
        if count == 0 {
            return Ok(if held.take_all(line) {
                LineRead::Whole
            } else {
                LineRead::None
            });
        }
        put_all(&buffer[..count], &mut held.octets);
    }
    Ok(LineRead::None)
}

/// Appends octets to a command, which has space for them.
fn put(octets: &[u8], command: &mut Command) -> io::Result<()> {
    match command.try_extend_from_slice(octets) {
        Ok(()) => Ok(()),
        Err(_) => Err(io::Error::from(ErrorKind::Other)),
    }
}

/// Writes a command as it is given to the session: its front, a number, if it has one, and a line feed.
fn write_command(front: &[u8], number: Option<usize>, command: &mut Command) -> io::Result<()> {
    command.clear();
    put(front, command)?;
    if let Some(number) = number {
        let mut digits = Buffer::new();
        put(digits.format(number).as_bytes(), command)?;
    }
    put(b"\n".as_slice(), command)
}

/// The place of the first line feed.
fn end_of_line(octets: &[u8]) -> Option<usize> {
    octets.iter().position(|octet| *octet == b'\n')
}

/// How many octets a text has up to its first line feed, and with it; all where there is none.
fn line_length(octets: &[u8]) -> usize
    ensures { result ≤ length octets.now }
{
    match end_of_line(octets) {
        Some(end) => end.saturating_add(1).min(octets.len()),
        None => octets.len(),
    }
}

/// What follows a line.
#[derive(Clone, Copy)]
enum Next {
    Command,
    Line,
    End,
}

impl<R: Read, O: Write, E: Write, X: OctetsExplainer> Read for Console<'_, R, O, E, X> {
    fn read(&mut self, buffer: &mut [u8]) -> io::Result<usize> {
        if self.is_first {
            self.prompt()?;
            return self.give_first(buffer);
        }
        if self.given < self.command.len() {
            return Ok(self.give(buffer));
        }
        if self.passes {
            return self.give_rest(buffer);
        }
        if !self.next_command()? {
            return Ok(0);
        }
        Ok(self.give(buffer))
    }
}

/// What a command reads of standard input: its octets, or the lines of a console.
#[derive(Drop)]
pub enum Behind<'c, R, O, E, X> {
    Plain(R),
    Console(Console<'c, R, O, E, X>),
}

impl<R: Read, O: Write, E: Write, X: OctetsExplainer> Read for Behind<'_, R, O, E, X> {
    fn read(&mut self, buffer: &mut [u8]) -> io::Result<usize> {
        match self {
            Behind::Plain(reader) => reader.read(buffer),
            Behind::Console(console) => console.read(buffer),
        }
    }
}
