//! Why a book's file is refused. The sentence that says so is made by `sentence`. Definition: specs/Faults.antt.

ghost use Rattle.std.specs.Prelude.{◌≡◌};
ghost use Rattle.h2_cmd_book_file.specs.Faults.{cause_number};
ghost use Rattle.h2_cmd_book_file.specs.AnswerTable.{key_name};
ghost use Rattle.h2_cmd_book_file.specs.declared.fault.BookRefusal.TheVariants.{NoMemory};

use crate::sentence::{Where, sentence_of};
use h2_request_book::fault::EntryFault;
use std::alloc::{AllocError, Global};
use std::io::ErrorKind;
use std::marker::Model;
use std::{error, fmt};
use toml::de;

/// The keys that a book's file may have.
#[derive(Clone, Copy)]
pub enum Key {
    Answer,
    Method,
    Path,
    Status,
    Headers,
    Body,
    BodyHex,
    BodyFile,
    BodyFill,
    Early,
}

impl Key {
    /// The key, as a file writes it.
    pub fn name(self) -> &'static str
        ensures { result.now ≡ key_name self }
    {
        match self {
            Key::Answer => "answer",
            Key::Method => "method",
            Key::Path => "path",
            Key::Status => "status",
            Key::Headers => "headers",
            Key::Body => "body",
            Key::BodyHex => "body-hex",
            Key::BodyFile => "body-file",
            Key::BodyFill => "body-fill",
            Key::Early => "early",
        }
    }

    /// What the value of the key has to be.
    pub(crate) fn wanted(self) -> &'static str {
        match self {
            Key::Answer => "an array of tables, written as [[answer]]",
            Key::Method | Key::Path | Key::Body | Key::BodyFile => "a string",
            Key::Status => "an integer",
            Key::Headers => "an array of [name, value], both strings",
            Key::BodyHex => "a string of pairs of hex digits",
            Key::BodyFill => {
                "[count, text], a count that is not negative and a text that is not empty"
            }
            Key::Early => "true or false",
        }
    }
}

/// Why a book's file is refused.
#[derive(Drop)]
pub enum BookRefusal {
    /// Memory was refused.
    NoMemory,
    /// The book can't be read, for this reason where the device knows one; or is too long.
    Unread(Option<ErrorKind>),
    /// The book is not UTF-8.
    NoText,
    /// The book is not TOML.
    NoToml(de::Error),
    /// A key of the whole document other than `answer`.
    UnknownTop(Option<String>),
    /// An answer that is no table.
    NoTable,
    /// A key that no answer has.
    UnknownKey(Option<String>),
    /// A key that each answer has is missing.
    Missing(Key),
    /// The value of a key is not what it has to be.
    Malformed(Key),
    /// There are two bodies or more.
    ManyBodies,
    /// The file of a body can't be read, for this reason where the device knows one.
    FileUnread(Option<ErrorKind>),
    /// The file of a body is too long.
    FileTooLong,
    /// A repeated text is too long for a body.
    FillTooLong,
    /// The book refuses the entry.
    BadEntry(EntryFault),
}

impl BookRefusal {
    /// The number of the fault.
    pub fn number(&self) -> u8
        ensures { result ≡ cause_number self.now }
    {
        match self {
            BookRefusal::NoMemory => 0,
            BookRefusal::Unread(_) | BookRefusal::FileUnread(_) => 22,
            BookRefusal::FileTooLong | BookRefusal::FillTooLong => 15,
            BookRefusal::BadEntry(fault) => fault.number(),
            BookRefusal::NoText
            | BookRefusal::NoToml(_)
            | BookRefusal::UnknownTop(_)
            | BookRefusal::NoTable
            | BookRefusal::UnknownKey(_)
            | BookRefusal::Missing(_)
            | BookRefusal::Malformed(_)
            | BookRefusal::ManyBodies => 26,
        }
    }
}

impl From<AllocError> for BookRefusal {
    ghost from_gives = { λ _ cause. cause ≡ NoMemory };

    fn from(_refused: AllocError) -> BookRefusal {
        BookRefusal::NoMemory
    }
}

/// A copy of a key for the sentence; `None` where memory is refused.
pub fn copy_of_key(alloc: Global, key: &str) -> Option<String> {
    String::from_str(alloc, key).ok()
}

/// Why a book's file is refused. Its `Display` is one sentence with the file, the line, the answer, the key and what
/// is wrong.
#[derive(Drop)]
pub struct BookFileFault {
    /// The sentence; none where memory for it was refused.
    sentence: Option<String>,
    cause: BookRefusal,
}

impl Model for BookFileFault {
    ghost use Rattle.std.specs.Prelude.{ℕ};
    ghost use Rattle.h2_cmd_book_file.specs.Faults as spec;

    ghost Value = { ℕ };

    ghost view = { λ f. spec.cause_number f.cause };
}

impl BookFileFault {
    /// A fault of a book.
    pub(crate) fn new(alloc: Global, place: Where<'_>, cause: BookRefusal) -> BookFileFault
        ensures { result ≡ cause_number cause }
    {
        BookFileFault {
            sentence: sentence_of(alloc, place, &cause).ok(),
            cause,
        }
    }

    /// A fault of the whole file.
    pub fn of_file(alloc: Global, path: &str, cause: BookRefusal) -> BookFileFault
        ensures { result ≡ cause_number cause }
    {
        BookFileFault::new(alloc, Where::of_file(path), cause)
    }

    /// Why the book is refused.
    pub fn cause(&self) -> &BookRefusal
        ensures { cause_number result.now ≡ self.now }
    {
        &self.cause
    }

    /// The number of the fault, one numbering over all crates: 0, 12 to 15, 22 or 26.
    pub fn number(&self) -> u8
        ensures { result ≡ self.now }
    {
        self.cause.number()
    }
}

impl fmt::Display for BookFileFault {
    fn fmt<W: fmt::Write>(&self, f: &mut fmt::Formatter<W>) -> fmt::Result {
        match &self.sentence {
            Some(sentence) => f.write_str(sentence.as_str()),
            None => f.write_str("the book is refused, and there is no memory to say why."),
        }
    }
}

/// The sentence.
impl fmt::Debug for BookFileFault {
    fn fmt<W: fmt::Write>(&self, f: &mut fmt::Formatter<W>) -> fmt::Result {
        fmt::Display::fmt(self, f)
    }
}

impl error::Error for BookFileFault {}
