//! The book of answers that a command is given: the entries of its file, and after them those of its words.
//! Definitions: `specs/Books.antt`.

ghost use Rattle.std.specs.Prelude.{◌≡◌, ◌⊎◌, ◌<◌, [], Ok, Err, false, map, IfOk, IfErr, OnOk};
ghost use Rattle.h2_cmd_args.specs.Plans.{book_asked};
ghost use Rattle.h2_cmd_play.specs.Books.{book_of, with_answer};
ghost use Rattle.h2_cmd_batch.specs.Books.{book_filed, book_said};
ghost use Rattle.h2_cmd_batch.specs.CommandEnd.{KnowsFile};
ghost use Rattle.h2_cmd_batch.specs.Faults.{fault_number};
ghost use Rattle.h2_cmd_batch.specs.declared.fault.BenchFault.TheVariants.{NoMemory};

use crate::answer::told;
use crate::fault::BenchFault;
use h2_cmd_args::command::BookWords;
use h2_cmd_book_file::{BookFileFault, BookRefusal, Files, add_book};
use h2_cmd_messages::{TextBuilder, say_answer, say_no_answer, say_no_memory};
use h2_cmd_play::add_answer;
use h2_io::Output;
use h2_request_book::book::Book;
use h2_request_book::fault::EntryFault;
use std::alloc::{AllocError, Global};

/// Puts the entry that a word says last in the book.
fn add_word(alloc: Global, book: &mut Book<Global>, word: &str) -> Result<(), BenchFault>
    ensures ok { OnOk result (with_answer book.old word.now ≡ Ok book.new) }
    ensures err { IfErr result (λ fault. (fault ≡ NoMemory)
        ⊎ (with_answer book.old word.now ≡ Err (fault_number fault))) }
{
    match add_answer(alloc, book, word.as_bytes()) {
        Ok(()) => Ok(()),
        Err(fault) => Err(told(fault)),
    }
}

/// Why the file of a book was refused, as a fault of this crate.
fn file_refused(fault: &BookFileFault) -> BenchFault
    ensures { fault_number result ≡ fault.now }
{
    match fault.cause() {
        BookRefusal::NoMemory => BenchFault::NoMemory,
        BookRefusal::Unread(_) | BookRefusal::FileUnread(_) => BenchFault::Read,
        BookRefusal::FileTooLong | BookRefusal::FillTooLong => BenchFault::BadEntry(
            EntryFault::TooLong,
        ),
        BookRefusal::BadEntry(fault) => BenchFault::BadEntry(*fault),
        BookRefusal::NoText
        | BookRefusal::NoToml(_)
        | BookRefusal::UnknownTop(_)
        | BookRefusal::NoTable
        | BookRefusal::UnknownKey(_)
        | BookRefusal::Missing(_)
        | BookRefusal::Malformed(_)
        | BookRefusal::ManyBodies => BenchFault::BadAnswer,
    }
}

/// An answer that was refused: which of the words it is, from 1, and why.
#[derive(Clone, Copy)]
struct Refused {
    place: usize,
    fault: BenchFault,
}

/// Puts the answers that these words say last in the book, from the left.
///
/// The first word that is refused decides: `BadAnswer` where it says no answer, else what the book refuses it for;
/// `NoMemory` may come before.
#[tactic(auto, unfolding(h2_cmd_play::specs::Books::book_of))]
fn add_answers(alloc: Global, book: &mut Book<Global>, words: &[&str]) -> Result<(), Refused>
    ensures ok { OnOk result (book_of book.old (map (λ s. s.now) words.now) ≡ Ok book.new) }
    ensures err { IfErr result (λ r. (r.fault ≡ NoMemory)
        ⊎ (book_of book.old (map (λ s. s.now) words.now) ≡ Err (fault_number r.fault))) }
{
    for (before, word) in words.iter().enumerate() {
        if let Err(fault) = add_word(alloc, book, word) {
            let place = before + 1;
            return Err(Refused { place, fault });
        }
    }
    Ok(())
}

/// Puts the entries of a file last in the book; an empty path is no file.
fn add_file<F: Files>(
    alloc: Global,
    files: &mut F,
    path: &str,
    book: &mut Book<Global>,
) -> Result<(), BookFileFault>
    requires { book.old ≡ [] }
    ensures ok { KnowsFile path.now (F.is_printed files.old)
        → OnOk result (book_filed (F.file files.old) path.now ≡ Ok book.new) }
    ensures err { KnowsFile path.now (F.is_printed files.old) → IfErr result (λ fault. 0 < fault
        → book_filed (F.file files.old) path.now ≡ Err fault) }
    ensures same_printed { F.is_printed files.new ≡ F.is_printed files.old }
    ensures same_files { F.file files.new ≡ F.file files.old }
{
    if path.is_empty() {
        return Ok(());
    }
    add_book(alloc, files, path, book)
}

/// Writes a text where it is there, not empty and asked for. What can't be written is left out.
pub fn write_reason<E: Output>(errors: &mut E, why: bool, text: Result<String, AllocError>)
    ensures quiet { why ≡ false → errors.new ≡ errors.old }
    ensures name { E.name errors.new ≡ E.name errors.old }
{
    if why
        && let Ok(text) = text
        && !text.is_empty()
    {
        let _ = errors.write(text.as_bytes());
    }
}

/// Why a file was refused, as a sentence on its own line.
fn file_sentence(alloc: Global, fault: &BookFileFault) -> Result<String, AllocError> {
    format!(in alloc; "{fault}\n")
}

/// The word of an answer, from 1.
fn word_at<'w>(words: &[&'w str], place: usize) -> &'w str {
    match words.get(place.saturating_sub(1)) {
        Some(word) => word,
        None => "",
    }
}

/// Why an answer was refused, as a sentence on its own line.
fn answer_sentence(alloc: Global, refused: Refused, words: &[&str]) -> Result<String, AllocError> {
    let mut out = TextBuilder::new(alloc);
    let word = word_at(words, refused.place);
    match refused.fault {
        BenchFault::BadEntry(fault) => say_answer(refused.place, word, fault, &mut out),
        BenchFault::NoMemory => say_no_memory(&mut out),
        _ => say_no_answer(refused.place, word, &mut out),
    }
    out.finish()
}

/// The book with the entries of the file that the words name, and after them the answers that they say.
///
/// Where an entry is refused and the words ask for the reason, a sentence is written to `errors`; otherwise nothing is.
///
/// # Errors
///
/// The file is read first, then the answers from the left, and the first that is refused decides. `Read` where a file
/// can't be read, `BadAnswer` where the file is no book or a word says no answer, else what the book refuses an entry
/// for; `NoMemory` may come before.
pub fn book_for_words<F: Files, E: Output>(
    alloc: Global,
    words: &BookWords<'_>,
    files: &mut F,
    errors: &mut E,
) -> Result<Book<Global>, BenchFault>
    ensures ok { KnowsFile words.now.file.now (F.is_printed files.old)
        → IfOk result (λ book. book_said (F.file files.old) (book_asked words.now) ≡ Ok book) }
    ensures err { KnowsFile words.now.file.now (F.is_printed files.old)
        → IfErr result (λ fault. (fault ≡ NoMemory)
        ⊎ (book_said (F.file files.old) (book_asked words.now) ≡ Err (fault_number fault))) }
    ensures calm { OnOk result (errors.new ≡ errors.old) }
    ensures quiet { words.now.why ≡ false → errors.new ≡ errors.old }
    ensures name { E.name errors.new ≡ E.name errors.old }
    ensures same_printed { F.is_printed files.new ≡ F.is_printed files.old }
    ensures same_files { F.file files.new ≡ F.file files.old }
{
    let mut book = Book::new(alloc);
    if let Err(fault) = add_file(alloc, files, words.file, &mut book) {
        write_reason(errors, words.why, file_sentence(alloc, &fault));
        return Err(file_refused(&fault));
    }
    match add_answers(alloc, &mut book, words.answers.as_slice()) {
        Ok(()) => Ok(book),
        Err(refused) => {
            let said = words.answers.as_slice();
            write_reason(errors, words.why, answer_sentence(alloc, refused, said));
            Err(refused.fault)
        }
    }
}
