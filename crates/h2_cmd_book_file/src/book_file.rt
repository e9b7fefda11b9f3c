//! A book of answers in a TOML file: each `[[answer]]` is an entry, in the order of the file. Definitions:
//! specs/Entries.antt.

ghost use Rattle.std.specs.Prelude.{◌≡◌, ◌≤◌, ◌<◌, ◌++◌, ◌∷◌, [], ℕ, List, Ok, Err};
ghost use Rattle.std.specs.Prelude.{true, Some, None, IfOk, IfErr, OnOk, OnErr, option_map, not, string_bytes};
ghost use Rattle.std.specs.BTreeMap.{keys};
ghost use Rattle.std.specs.List.{list_any};
ghost use Rattle.toml.specs.Parse.{parse_document};
ghost use Rattle.toml.specs.View.{view, items_view, table_view};
ghost use Rattle.h2_spec.specs.Requests.Answer.{Entry as AnEntry};
ghost use Rattle.h2_cmd_book_file.specs.Values.{data_at};
ghost use Rattle.h2_cmd_book_file.specs.Entries as spec;
ghost use Rattle.h2_cmd_book_file.specs.Faults.{cause_number};

use crate::answer::entry_in;
use crate::fault::{BookFileFault, BookRefusal, Key, copy_of_key};
use crate::files::{Files, FilesFault};
use crate::line::line_at;
use crate::sentence::Where;
use crate::table::value_at;
use h2_io::MAX_INPUT;
use h2_request_book::book::Book;
use h2_request_book::fault::BookFault;
use std::alloc::Global;
use toml::{Table, Value};

/// Puts the entries of the file at `path` after those of the book, in the order of the file.
///
/// # Errors
///
/// The first answer that is refused decides; the book stays as it was. The fault's number is 22 where the file can't
/// be read or has more than 16,777,216 octets, 26 where it is not UTF-8, not TOML or not of this form, 22 and 15 for
/// a body as `specs/Contents.antt` has it, 12 to 15 where the book refuses the entry, and 0 where memory is refused.
pub fn add_book<F: Files>(
    alloc: Global,
    files: &mut F,
    path: &str,
    book: &mut Book<Global>,
) -> Result<(), BookFileFault>
    ensures added { OnOk result (F.is_printed files.old ≡ true →
        spec.book_of_file (F.file files.old) path.now book.old ≡ Ok book.new) }
    ensures appended { OnOk result (F.is_printed files.old ≡ true →
        spec.Appended (F.file files.old) path.now book.old book.new) }
    ensures refused { IfErr result (λ fault.
        F.is_printed files.old ≡ true → 0 < fault → spec.book_of_file (F.file files.old) path.now book.old ≡ Err fault) }
    ensures kept { OnErr result (book.new ≡ book.old) }
    ensures same_printed { F.is_printed files.new ≡ F.is_printed files.old }
    ensures same_files { F.file files.new ≡ F.file files.old }
{
    let octets = match files.read(alloc, path, MAX_INPUT) {
        Ok(octets) => octets,
        Err(FilesFault::NoMemory) => return Err(BookFileFault::of_file(
            alloc,
            path,
            BookRefusal::NoMemory,
        )),
        Err(_) => {
            let why = files.failure(path);
            return Err(BookFileFault::of_file(alloc, path, BookRefusal::Unread(why)));
        }
    };
    let Ok(text) = std::str::from_utf8(octets.as_slice()) else {
        return Err(BookFileFault::of_file(alloc, path, BookRefusal::NoText));
    };
    add_text(alloc, files, path, text, book)
}

/// Puts the entries of the text of a book's file after those of the book.
fn add_text<F: Files>(
    alloc: Global,
    files: &mut F,
    path: &str,
    text: &str,
    book: &mut Book<Global>,
) -> Result<(), BookFileFault>
    ensures added { OnOk result (F.is_printed files.old ≡ true →
        spec.book_of_document (F.file files.old) path.now book.old (parse_document text.now) ≡ Ok book.new) }
    ensures refused { IfErr result (λ fault.
        F.is_printed files.old ≡ true → 0 < fault →
        spec.book_of_document (F.file files.old) path.now book.old (parse_document text.now) ≡ Err fault) }
    ensures kept { OnErr result (book.new ≡ book.old) }
    ensures same_printed { F.is_printed files.new ≡ F.is_printed files.old }
    ensures same_files { F.file files.new ≡ F.file files.old }
{
    let table = match toml::table_from_str(alloc, text) {
        Ok(table) => table,
        Err(error) if error.is_memory() => {
            return Err(BookFileFault::of_file(alloc, path, BookRefusal::NoMemory));
        }
        Err(error) => {
            let place = Where::of_line(path, text, line_of_error(text, &error));
            return Err(BookFileFault::new(alloc, place, BookRefusal::NoToml(error)));
        }
    };
    let answers = match answers_in(alloc, &table) {
        Ok(answers) => answers,
        Err(cause) => {
            let place = Where::of_line(path, text, 0);
            return Err(BookFileFault::new(alloc, place, cause));
        }
    };
    let before = book.len();
    match add_answers(alloc, files, path, answers, book) {
        Ok(()) => Ok(()),
        Err((answer, cause)) => {
            book.truncate(before);
            let place = Where::of_answer(path, text, answer, answers);
            Err(BookFileFault::new(alloc, place, cause))
        }
    }
}

/// The line of a syntax error.
fn line_of_error(text: &str, error: &toml::de::Error) -> usize {
    match error.span() {
        Some(span) => line_at(text.as_bytes(), span.start),
        None => 0,
    }
}

/// The answers of a document.
fn answers_in(alloc: Global, table: &Table) -> Result<&[Value], BookRefusal>
    ensures said { IfOk result (λ answers. spec.answers_of (table_view table.now) ≡ Some (items_view answers.now)) }
    ensures refused { IfErr result (λ cause.
        (cause_number cause ≡ 26) × (spec.answers_of (table_view table.now) ≡ None)) }
{
    if has_unknown_key(table) {
        return Err(BookRefusal::UnknownTop(unknown_key(alloc, table)));
    }
    array_in(value_at(table, "answer"))
}

/// The items of the value of `answer`; without it there are none.
fn array_in(value: Option<&Value>) -> Result<&[Value], BookRefusal>
    ensures said { IfOk result (λ answers. spec.array_said (data_at value.entry) ≡ Some (items_view answers.now)) }
    ensures refused { IfErr result (λ cause.
        (cause_number cause ≡ 26) × (spec.array_said (data_at value.entry) ≡ None)) }
{
    let Some(value) = value else {
        return Ok(&[]);
    };
    match value.as_array() {
        Some(answers) => Ok(answers.as_slice()),
        None => Err(BookRefusal::Malformed(Key::Answer)),
    }
}

/// Whether the document has a key other than `answer`.
fn has_unknown_key(table: &Table) -> bool
    ensures { result ≡ list_any (λ k. not (spec.is_key_of_document (string_bytes k))) (keys table.now) }
{
    table.keys().any(|key| key.as_str() != "answer")
}

/// The first such key, for a sentence; `None` where memory is refused.
fn unknown_key(alloc: Global, table: &Table) -> Option<String> {
    for key in table.keys() {
        if key.as_str() != "answer" {
            return copy_of_key(alloc, key.as_str());
        }
    }
    None
}

/// Puts the entries of answers after those of the book; says at which answer, counted from 1, one was refused.
fn add_answers<F: Files>(
    alloc: Global,
    files: &mut F,
    path: &str,
    answers: &[Value],
    book: &mut Book<Global>,
) -> Result<(), (usize, BookRefusal)>
    ensures added { OnOk result (F.is_printed files.old ≡ true →
        spec.book_with (F.file files.old) path.now book.old (items_view answers.now) ≡ Ok book.new) }
    ensures refused { IfErr result (λ r.
        F.is_printed files.old ≡ true → 0 < cause_number r.1 →
        spec.book_with (F.file files.old) path.now book.old (items_view answers.now) ≡ Err (cause_number r.1)) }
    ensures grown { (entries : List AnEntry) × (book.new ≡ book.old ++ entries) }
    ensures same_printed { F.is_printed files.new ≡ F.is_printed files.old }
    ensures same_files { F.file files.new ≡ F.file files.old }
{
    for (place, answer) in answers.iter().enumerate() {
        if let Err(cause) = add_answer(alloc, files, path, answer, book) {
            return Err((place + 1, cause));
        }
    }
    Ok(())
}

/// Puts the entry of an answer after those of the book.
fn add_answer<F: Files>(
    alloc: Global,
    files: &mut F,
    path: &str,
    answer: &Value,
    book: &mut Book<Global>,
) -> Result<(), BookRefusal>
    ensures added { F.is_printed files.old ≡ true →
        spec.Agrees (λ _. book.new) result
        (spec.with_entry book.old (spec.entry_of (F.file files.old) path.now (view answer.now))) }
    ensures grown { OnOk result ((entry : AnEntry) × (book.new ≡ book.old ++ entry ∷ [])) }
    ensures kept { OnErr result (book.new ≡ book.old) }
    ensures same_printed { F.is_printed files.new ≡ F.is_printed files.old }
    ensures same_files { F.file files.new ≡ F.file files.old }
{
    let entry = entry_in(alloc, files, path, answer)?;
    match book.add(entry) {
        Ok(()) => Ok(()),
        Err(BookFault::NoMemory) => Err(BookRefusal::NoMemory),
        Err(BookFault::BadEntry(fault)) => Err(BookRefusal::BadEntry(fault)),
    }
}
