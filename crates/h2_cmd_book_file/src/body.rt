//! The body of an answer: `body`, `body-hex`, `body-file` or `body-fill`, and its octets. Definitions:
//! specs/Contents.antt.

ghost use Rattle.std.specs.Prelude.{◌≡◌, ◌+◌, ◌<◌, ◌==◌, ◌&&◌, true, option_map, option_and_then, IfOk};
ghost use Rattle.std.specs.Prelude.{IfErr, IfNone, IfSome, IsTrue, is_some, length, unwrap_or, None, Some, []};
ghost use Rattle.std.specs.Option.{option_copied};
ghost use Rattle.std.specs.Path.{path_bytes, path_parent};
ghost use Rattle.toml.specs.Data.{as_str, as_array, as_integer};
ghost use Rattle.toml.specs.View.{view, items_view, table_view};
ghost use Rattle.h2_spec.specs.Requests.AnswerWords.{body_of as octets_in_hex};
ghost use Rattle.h2_cmd_book_file.specs.Values.{data_at};
ghost use Rattle.h2_cmd_book_file.specs.Contents as spec;
ghost use Rattle.h2_cmd_book_file.specs.Entries.{Agrees};
ghost use Rattle.h2_cmd_book_file.specs.Faults.{cause_number};

use crate::fault::{BookRefusal, Key};
use crate::files::{Files, FilesFault};
use crate::table::value_at;
use h2_hpack_instruction::octets::Octets;
use h2_io::{is_hex, octets_of};
use h2_request_book::book::MAX_BODY;
use std::alloc::{AllocError, Global};
use std::path::Path;
use toml::{Table, Value};

/// What a body is said to be, lent by the document.
#[derive(Clone, Copy)]
pub enum Contents<'v> {
    /// The octets of this text.
    Text(&'v str),
    /// The octets that these hex digits write, in pairs.
    Hex(&'v str),
    /// The octets of the file at this path, from the book's directory.
    File(&'v str),
    /// That many octets, the text over and over again.
    Fill(usize, &'v str),
}

/// The body of an answer; without any of its keys it is empty.
///
/// # Errors
///
/// Fault 26: there are two bodies, or the one there is has another form than its key asks for.
pub fn contents_in(table: &Table) -> Result<Contents<'_>, BookRefusal>
    ensures said { IfOk result (λ c. spec.contents_of (table_view table.now) ≡ spec.contents_seen c) }
    ensures whole { IfOk result (λ c. IsTrue (is_some (spec.contents_seen c))) }
    ensures refused { IfErr result (λ cause.
        (cause_number cause ≡ 26) × (spec.contents_of (table_view table.now) ≡ None)) }
{
    contents_of_values(
        value_at(table, "body"),
        value_at(table, "body-hex"),
        value_at(table, "body-file"),
        value_at(table, "body-fill"),
    )
}

/// The body that the values of the four keys say.
fn contents_of_values<'v>(
    text: Option<&'v Value>,
    hex: Option<&'v Value>,
    file: Option<&'v Value>,
    fill: Option<&'v Value>,
) -> Result<Contents<'v>, BookRefusal>
    ensures said { IfOk result (λ c.
        spec.contents_of_values (data_at text.entry) (data_at hex.entry) (data_at file.entry) (data_at fill.entry)
        ≡ spec.contents_seen c) }
    ensures whole { IfOk result (λ c. IsTrue (is_some (spec.contents_seen c))) }
    ensures refused { IfErr result (λ cause.
        (cause_number cause ≡ 26)
        × (spec.contents_of_values (data_at text.entry) (data_at hex.entry) (data_at file.entry) (data_at fill.entry) ≡ None)) }
{
    if count_of(text) + count_of(hex) + count_of(file) + count_of(fill) > 1 {
        return Err(BookRefusal::ManyBodies);
    }
    first_said(text, hex, file, fill)
}

/// The body that the first value says.
fn first_said<'v>(
    text: Option<&'v Value>,
    hex: Option<&'v Value>,
    file: Option<&'v Value>,
    fill: Option<&'v Value>,
) -> Result<Contents<'v>, BookRefusal>
    ensures said { IfOk result (λ c.
        spec.first_said (data_at text.entry) (data_at hex.entry) (data_at file.entry) (data_at fill.entry)
        ≡ spec.contents_seen c) }
    ensures whole { IfOk result (λ c. IsTrue (is_some (spec.contents_seen c))) }
    ensures refused { IfErr result (λ cause.
        (cause_number cause ≡ 26)
        × (spec.first_said (data_at text.entry) (data_at hex.entry) (data_at file.entry) (data_at fill.entry) ≡ None)) }
{
    match (text, hex, file, fill) {
        (Some(text), _, _, _) => formed(text_said(text), Key::Body),
        (None, Some(hex), _, _) => formed(hex_said(hex), Key::BodyHex),
        (None, None, Some(file), _) => formed(file_said(file), Key::BodyFile),
        (None, None, None, Some(fill)) => formed(fill_said(fill), Key::BodyFill),
        (None, None, None, None) => Ok(Contents::Text("")),
    }
}

/// What the value of a key says, or that the key's value is malformed.
fn formed(said: Option<Contents<'_>>, key: Key) -> Result<Contents<'_>, BookRefusal>
    ensures ok { IfOk result (λ c. said.entry ≡ Some c) }
    ensures err { IfErr result (λ cause. (cause_number cause ≡ 26) × (said.entry ≡ None)) }
{
    match said {
        Some(contents) => Ok(contents),
        None => Err(BookRefusal::Malformed(key)),
    }
}

/// 1 where there is a value, else 0.
fn count_of(value: Option<&Value>) -> u8
    ensures { result ≡ spec.count_of (data_at value.entry) }
{
    match value {
        Some(_) => 1,
        None => 0,
    }
}

/// A text as a body.
fn text_said(value: &Value) -> Option<Contents<'_>>
    ensures said { option_and_then spec.contents_seen result ≡ spec.text_said (view value.now) }
    ensures whole { IfSome result (λ c. IsTrue (is_some (spec.contents_seen c))) }
{
    match value.as_str() {
        Some(text) => Some(Contents::Text(text)),
        None => None,
    }
}

/// Pairs of hex digits as a body.
fn hex_said(value: &Value) -> Option<Contents<'_>>
    ensures said { option_and_then spec.contents_seen result ≡ spec.hex_said (view value.now) }
    ensures whole { IfSome result (λ c. IsTrue (is_some (spec.contents_seen c))) }
{
    match value.as_str() {
        Some(digits) if is_hex(digits.as_bytes()) => Some(Contents::Hex(digits)),
        _ => None,
    }
}

/// A path as a body.
fn file_said(value: &Value) -> Option<Contents<'_>>
    ensures said { option_and_then spec.contents_seen result ≡ spec.file_said (view value.now) }
    ensures whole { IfSome result (λ c. IsTrue (is_some (spec.contents_seen c))) }
{
    match value.as_str() {
        Some(path) => Some(Contents::File(path)),
        None => None,
    }
}

/// A count and a text as a body.
fn fill_said(value: &Value) -> Option<Contents<'_>>
    ensures said { option_and_then spec.contents_seen result ≡ spec.fill_said (view value.now) }
    ensures whole { IfSome result (λ c. IsTrue (is_some (spec.contents_seen c))) }
{
    match value.as_array() {
        Some(pair) => fill_pair(pair.as_slice()),
        None => None,
    }
}

/// A count that is not negative, and a text that is not empty.
fn fill_pair(pair: &[Value]) -> Option<Contents<'_>>
    ensures said { option_and_then spec.contents_seen result ≡ spec.fill_pair (items_view pair.now) }
    ensures whole { IfSome result (λ c. IsTrue (is_some (spec.contents_seen c))) }
{
    match pair {
        [] | [_] => None,
        [count, text] => repeat_said(count.as_integer(), text.as_str()),
        [_, _, _, ..] => None,
    }
}

/// The contents that `body-fill` gives: a count that is not negative, and a text that is not empty.
fn repeat_said(count: Option<i64>, text: Option<&str>) -> Option<Contents<'_>>
    ensures said { option_and_then spec.contents_seen result ≡ spec.repeat_said count (option_copied text.entry) }
    ensures whole { IfSome result (λ c. IsTrue (is_some (spec.contents_seen c))) }
{
    match (count, text) {
        (Some(count), Some(text)) if count >= 0 && !text.is_empty() => {
            Some(Contents::Fill(count as usize, text))
        }
        _ => None,
    }
}

/// The octets of a body; a file is looked for from the directory of the book at `path`.
///
/// # Errors
///
/// 22: the file can't be read. 15: the file has more than 1,048,576 octets, or the count is above that; no memory is
/// taken for them. 0: out of memory.
pub fn read_contents<F: Files>(
    alloc: Global,
    files: &mut F,
    path: &str,
    contents: Contents<'_>,
) -> Result<Octets<Global>, BookRefusal>
    requires { IsTrue (is_some (spec.contents_seen contents)) }
    ensures printed { F.is_printed files.old ≡ true →
        Agrees (λ o. o) result (spec.octets_said (F.file files.old) path.now (spec.contents_seen contents.entry)) }
    ensures same_printed { F.is_printed files.new ≡ F.is_printed files.old }
    ensures same_files { F.file files.new ≡ F.file files.old }
{
    match contents {
        Contents::Text(text) => match copy_of(alloc, text) {
            Ok(octets) => Ok(octets),
            Err(_) => Err(BookRefusal::NoMemory),
        },
        Contents::Hex(digits) => match read_hex(alloc, digits.as_bytes()) {
            Ok(octets) => Ok(Octets::new(octets)),
            Err(_) => Err(BookRefusal::NoMemory),
        },
        Contents::File(name) => read_file(alloc, files, path, name),
        Contents::Fill(count, text) => fill(alloc, count, text.as_bytes()),
    }
}

/// The octets of a text.
pub fn copy_of(alloc: Global, text: &str) -> Result<Octets<Global>, AllocError>
    ensures { IfOk result (λ octets. octets ≡ text.now) }
{
    Ok(Octets::new(text.as_bytes().to_vec(alloc)?))
}

/// The octets that pairs of hex digits write.
fn read_hex(alloc: Global, digits: &[u8]) -> Result<Vec<u8>, AllocError>
    requires { IsTrue (is_some (octets_in_hex digits.now)) }
    ensures { IfOk result (λ octets. octets_in_hex digits.now ≡ Some octets.items) }
{
    match octets_of(alloc, digits)? {
        Some(octets) => Ok(octets),
        None => unreachable!(),
    }
}

/// The octets of a body's file.
fn read_file<F: Files>(
    alloc: Global,
    files: &mut F,
    path: &str,
    name: &str,
) -> Result<Octets<Global>, BookRefusal>
    ensures printed { F.is_printed files.old ≡ true →
        Agrees (λ o. o) result (spec.octets_of_file (F.file files.old (spec.beside path.now name.now))) }
    ensures same_printed { F.is_printed files.new ≡ F.is_printed files.old }
    ensures same_files { F.file files.new ≡ F.file files.old }
{
    let Ok(place) = directory_of(path).join(alloc, name) else {
        return Err(BookRefusal::NoMemory);
    };
    match files.read(alloc, place.as_str(), MAX_BODY) {
        Ok(octets) => Ok(Octets::new(octets)),
        Err(FilesFault::Failed) => Err(BookRefusal::FileUnread(files.failure(place.as_str()))),
        Err(FilesFault::TooLong) => Err(BookRefusal::FileTooLong),
        Err(FilesFault::NoMemory) => Err(BookRefusal::NoMemory),
    }
}

/// The directory that a book's path names; empty where it names none.
fn directory_of(path: &str) -> Path<'_>
    ensures { path_bytes result ≡ unwrap_or (path_parent path.now) [] }
{
    match Path::new(path).parent() {
        Some(directory) => directory,
        None => Path::new(""),
    }
}

/// That many octets of a text, over and over again.
///
/// # Errors
///
/// 15: the count is above 1,048,576; no memory is taken. 0: out of memory.
fn fill(alloc: Global, count: usize, text: &[u8]) -> Result<Octets<Global>, BookRefusal>
    requires { 0 < length text.now }
    ensures { Agrees (λ o. o) result (spec.octets_of_fill count text.now) }
{
    if count > MAX_BODY {
        return Err(BookRefusal::FillTooLong);
    }
    match repeat(alloc, count, text) {
        Ok(octets) => Ok(Octets::new(octets)),
        Err(_) => Err(BookRefusal::NoMemory),
    }
}

/// That many octets of a text, which is repeated.
fn repeat(alloc: Global, count: usize, text: &[u8]) -> Result<Vec<u8>, AllocError>
    requires { 0 < length text.now }
    ensures { IfOk result (λ octets. octets.items ≡ spec.filled count text.now) }
{
    let Ok(mut octets) = Vec::with_capacity(alloc, count) else {
        return Err(AllocError);
    };
    for place in 0..count {
        let Ok(()) = octets.push(text[place % text.len()]) else {
            return Err(AllocError);
        };
    }
    Ok(octets)
}
