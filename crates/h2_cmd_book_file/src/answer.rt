//! One answer of a book's file: what its table says, and the entry that it makes. Definitions: specs/AnswerTable.antt and, for
//! the entry, specs/Entries.antt.

ghost use Rattle.std.specs.Prelude.{◌≡◌, ◌<◌, bytes_eq, true, None, Some, codes, option_map};
ghost use Rattle.std.specs.Prelude.{option_and_then, IfOk, IfErr, IsTrue, is_some, not, string_bytes};
ghost use Rattle.std.specs.BTreeMap.{keys};
ghost use Rattle.std.specs.List.{list_any};
ghost use Rattle.toml.specs.Data.{as_str, as_table};
ghost use Rattle.toml.specs.View.{view, table_view, items_view};
ghost use Rattle.h2_cmd_book_file.specs.Values.{data_at};
ghost use Rattle.h2_cmd_book_file.specs.Contents.{contents_seen};
ghost use Rattle.h2_cmd_book_file.specs.Entries.{Agrees, entry_of, entry_said};
ghost use Rattle.h2_cmd_book_file.specs.Faults.{cause_number};
ghost use Rattle.h2_cmd_book_file.specs.AnswerTable as spec;

use crate::body::{Contents, contents_in, copy_of, read_contents};
use crate::fault::{BookRefusal, Key, copy_of_key};
use crate::files::Files;
use crate::header::{headers_in, read_headers};
use crate::table::value_at;
use h2_request_book::book::Entry;
use h2_request_book::entry_fields::EntryFields;
use std::alloc::Global;
use toml::{Table, Value};

/// What an answer says, lent by the document.
#[derive(Clone, Copy)]
pub struct AnswerTable<'v> {
    method: &'v str,
    path: &'v str,
    status: u16,
    headers: &'v [Value],
    body: Contents<'v>,
    early: bool,
}

/// The entry that a value of the array `answer` says; a body's file is looked for from the directory of the book at
/// `path`.
///
/// # Errors
///
/// 26: the value is no table, has an unknown key, lacks a key or has a value of another form; found before memory is
/// taken. 22: the body's file can't be read. 15: it, or a repeated text, is above 1,048,576 octets. 0: out of memory.
pub fn entry_in<F: Files>(
    alloc: Global,
    files: &mut F,
    path: &str,
    value: &Value,
) -> Result<Entry<Global>, BookRefusal>
    ensures printed { F.is_printed files.old ≡ true →
        Agrees (λ e. e) result (entry_of (F.file files.old) path.now (view value.now)) }
    ensures same_printed { F.is_printed files.new ≡ F.is_printed files.old }
    ensures same_files { F.file files.new ≡ F.file files.old }
{
    let Some(table) = value.as_table() else {
        return Err(BookRefusal::NoTable);
    };
    let said = said_in(alloc, table)?;
    entry_from(alloc, files, path, said)
}

/// The entry of what an answer says.
fn entry_from<F: Files>(
    alloc: Global,
    files: &mut F,
    path: &str,
    said: AnswerTable<'_>,
) -> Result<Entry<Global>, BookRefusal>
    requires headers { IsTrue (is_some (spec.headers_in (items_view said.headers.now))) }
    requires body { IsTrue (is_some (contents_seen said.body)) }
    ensures printed { F.is_printed files.old ≡ true →
        Agrees (λ e. e) result (entry_said (F.file files.old) path.now (spec.seen said.entry)) }
    ensures same_printed { F.is_printed files.new ≡ F.is_printed files.old }
    ensures same_files { F.file files.new ≡ F.file files.old }
{
    let body = read_contents(alloc, files, path, said.body)?;
    let Ok(method) = copy_of(alloc, said.method) else {
        return Err(BookRefusal::NoMemory);
    };
    let Ok(path) = copy_of(alloc, said.path) else {
        return Err(BookRefusal::NoMemory);
    };
    let Ok(fields) = read_headers(alloc, said.headers) else {
        return Err(BookRefusal::NoMemory);
    };
    Ok(Entry {
        method,
        path,
        status: said.status,
        fields: EntryFields::new(fields),
        body,
        early: said.early,
    })
}

/// What the table of an answer says. Memory is taken only to copy an unknown key for the fault's sentence.
///
/// # Errors
///
/// 26: an unknown key, a key that lacks, or a value of another form than its key asks for.
fn said_in(alloc: Global, table: &Table) -> Result<AnswerTable<'_>, BookRefusal>
    ensures said { IfOk result (λ s. spec.said_of (table_view table.now) ≡ spec.seen s) }
    ensures headers { IfOk result (λ s. IsTrue (is_some (spec.headers_in (items_view s.headers.now)))) }
    ensures body { IfOk result (λ s. IsTrue (is_some (contents_seen s.body))) }
    ensures refused { IfErr result (λ cause.
        (cause_number cause ≡ 26) × (spec.said_of (table_view table.now) ≡ None)) }
{
    if has_unknown_key(table) {
        return Err(BookRefusal::UnknownKey(unknown_key(alloc, table)));
    }
    let method = text_in(value_at(table, "method"), Key::Method)?;
    let path = text_in(value_at(table, "path"), Key::Path)?;
    let status = status_in(value_at(table, "status"))?;
    let Some(headers) = headers_in(value_at(table, "headers")) else {
        return Err(BookRefusal::Malformed(Key::Headers));
    };
    let body = contents_in(table)?;
    let early = early_in(value_at(table, "early"))?;
    Ok(AnswerTable {
        method,
        path,
        status,
        headers,
        body,
        early,
    })
}

/// Whether the table has a key that no answer has.
fn has_unknown_key(table: &Table) -> bool
    ensures { result ≡ list_any (λ k. not (spec.is_key_of_answer (string_bytes k))) (keys table.now) }
{
    table.keys().any(|key| !is_key_of_answer(key.as_str()))
}

/// The first such key, for a sentence; `None` where memory is refused.
fn unknown_key(alloc: Global, table: &Table) -> Option<String> {
    for key in table.keys() {
        if !is_key_of_answer(key.as_str()) {
            return copy_of_key(alloc, key.as_str());
        }
    }
    None
}

/// Whether a key is this one.
fn is(key: &str, name: &str) -> bool
    ensures { result ≡ bytes_eq key.now name.now }
{
    key == name
}

/// Whether an answer may have this key.
fn is_key_of_answer(key: &str) -> bool
    ensures { result ≡ spec.is_key_of_answer key.now }
{
    is(key, "method")
        || is(key, "path")
        || is(key, "status")
        || is(key, "headers")
        || is(key, "body")
        || is(key, "body-hex")
        || is(key, "body-file")
        || is(key, "body-fill")
        || is(key, "early")
}

/// Whether the answer is early; without the key it is not.
fn early_in(value: Option<&Value>) -> Result<bool, BookRefusal>
    ensures said { IfOk result (λ early. spec.early_said (data_at value.entry) ≡ Some early) }
    ensures refused { IfErr result (λ cause.
        (cause_number cause ≡ 26) × (spec.early_said (data_at value.entry) ≡ None)) }
{
    let Some(value) = value else {
        return Ok(false);
    };
    match value.as_bool() {
        Some(early) => Ok(early),
        None => Err(BookRefusal::Malformed(Key::Early)),
    }
}

/// The string of a key that has to be there.
fn text_in(value: Option<&Value>, key: Key) -> Result<&str, BookRefusal>
    ensures said { IfOk result (λ text. option_and_then as_str (data_at value.entry) ≡ Some text.now) }
    ensures refused { IfErr result (λ cause.
        (cause_number cause ≡ 26) × (option_and_then as_str (data_at value.entry) ≡ None)) }
{
    let Some(value) = value else {
        return Err(BookRefusal::Missing(key));
    };
    match value.as_str() {
        Some(text) => Ok(text),
        None => Err(BookRefusal::Malformed(key)),
    }
}

/// The status, which has to be there; 0 for an integer that no status is.
fn status_in(value: Option<&Value>) -> Result<u16, BookRefusal>
    ensures said { IfOk result (λ status. option_and_then spec.status_said (data_at value.entry) ≡ Some status) }
    ensures refused { IfErr result (λ cause.
        (cause_number cause ≡ 26) × (option_and_then spec.status_said (data_at value.entry) ≡ None)) }
{
    let Some(value) = value else {
        return Err(BookRefusal::Missing(Key::Status));
    };
    match value.as_integer() {
        Some(status) => Ok(status_number(status)),
        None => Err(BookRefusal::Malformed(Key::Status)),
    }
}

/// The integer, or 0 where it is below 0 or above 65,535, which no book takes as a status.
fn status_number(status: i64) -> u16
    ensures { result ≡ spec.status_number status }
{
    if 0 <= status && status <= 65535 {
        status as u16
    } else {
        0
    }
}
