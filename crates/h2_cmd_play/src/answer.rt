//! The words of an answer: METHOD|PATH|STATUS|BODYHEX, any number of parts |NAME=VALUE, and at most one |early.
//! Definitions: `h2_spec/specs/Requests/AnswerWords.antt` (`entry_of`), and `specs/AnswerParts.antt`.

ghost use Rattle.std.specs.Prelude.{◌≡◌, ◌<◌, ◌≤◌, ◌∷◌, [], Some, None, length, is_some, option_map, IfOk, IfErr, IfNone, IfSome, IsTrue};
ghost use Rattle.h2_spec.specs.Requests.AnswerWords as words;
ghost use Rattle.h2_spec.specs.Hpack.Field.{field};
ghost use Rattle.h2_cmd_play.specs.AnswerParts.{entry_from, entry_in, parts_behind, refusal_of};

use crate::cut::{place_of, text_before, text_from};
use crate::fault::AnswerFault;
use h2_hpack_instruction::field::Field;
use h2_hpack_instruction::octets::Octets;
use h2_io::{is_hex, octets_of};
use h2_request_book::book::Entry;
use h2_request_book::entry_fields::EntryFields;
use std::alloc::{AllocError, Allocator};

/// The first four parts of an answer's words, and the further ones, each after its bar.
#[derive(Clone, Copy)]
struct Parts<'a> {
    method: &'a [u8],
    path: &'a [u8],
    status: &'a [u8],
    body: &'a [u8],
    further: &'a [u8],
}

/// The entry of the book that the words say: METHOD|PATH|STATUS|BODYHEX|NAME=VALUE|..
///
/// METHOD and PATH are any octets but a bar, STATUS three decimal digits, BODYHEX pairs of hex digits in either case
/// or nothing. Each further part is a field, cut at its first `=`, or the word `early`, at most once and in any place,
/// which makes the answer early. Whether a book takes the entry is reported by `Book::add` alone.
///
/// # Errors
///
/// `BadAnswer` where the words say no entry, which is found before memory is needed; `NoMemory` where they say one
/// and memory is refused.
pub fn parse_answer<A: Allocator + Copy>(alloc: A, text: &[u8]) -> Result<Entry<A>, AnswerFault>
    ensures said { IfOk result (λ entry. words.entry_of text.now ≡ Some entry) }
    ensures refused { IfErr result (λ fault. fault ≡ refusal_of (words.entry_of text.now)) }
{
    match parts_in(text) {
        Some(parts) => entry_of(alloc, parts),
        None => Err(AnswerFault::BadAnswer),
    }
}

/// The entry of these parts; `BadAnswer` where they are not what they have to be, which is found before memory is
/// needed.
fn entry_of<A: Allocator + Copy>(alloc: A, parts: Parts<'_>) -> Result<Entry<A>, AnswerFault>
    ensures said { IfOk result (λ entry. entry_in parts.entry ≡ Some entry) }
    ensures refused { IfErr result (λ fault. fault ≡ refusal_of (entry_in parts.entry)) }
{
    let Some(status) = status_in(parts.status) else {
        return Err(AnswerFault::BadAnswer);
    };
    let Some(early) = early_in(parts.further) else {
        return Err(AnswerFault::BadAnswer);
    };
    if !is_hex(parts.body) || !are_fields(parts.further) {
        return Err(AnswerFault::BadAnswer);
    }
    Ok(entry_from(alloc, parts, status, early)?)
}

/// The entry of these parts with this status, early or not.
fn entry_from<A: Allocator + Copy>(
    alloc: A,
    parts: Parts<'_>,
    status: u16,
    early: bool,
) -> Result<Entry<A>, AllocError>
    requires body { IsTrue (is_some (words.body_of parts.body.now)) }
    requires fields { IsTrue (is_some (words.fields_of (parts_behind parts.further.now))) }
    ensures { IfOk result (λ entry. entry_from (Some status) (Some early) parts.entry ≡ Some entry) }
{
    Ok(Entry {
        method: Octets::new(parts.method.to_vec(alloc)?),
        path: Octets::new(parts.path.to_vec(alloc)?),
        status,
        fields: EntryFields::new(read_fields(alloc, parts.further)?),
        body: read_body(alloc, parts.body)?,
        early,
    })
}

/// The parts of a text; `None` where it has less than four.
fn parts_in(text: &[u8]) -> Option<Parts<'_>>
    ensures four { IfSome result (λ p. words.parts_of text.now ≡ p.method.now ∷ p.path.now ∷ p.status.now ∷ p.body.now ∷ parts_behind p.further.now) }
    ensures fewer { IfNone result (words.entry_of_parts (words.parts_of text.now) ≡ None) }
{
    let (method, rest) = cut(text);
    let (path, rest) = next_part(rest)?;
    let (status, rest) = next_part(rest)?;
    let (body, further) = next_part(rest)?;
    Some(Parts {
        method,
        path,
        status,
        body,
        further,
    })
}

/// The first part of a text, and the others, each after its bar.
fn cut(text: &[u8]) -> (&[u8], &[u8])
    ensures parts { words.parts_of text.now ≡ result.0.now ∷ parts_behind result.1.now }
    ensures within { length result.1.now ≤ length text.now }
{
    match place_of(text, b'|') {
        Some(end) => (text_before(text, end), text_from(text, end)),
        None => (text, text_from(text, text.len())),
    }
}

/// The part after the first bar, and those after it; `None` where there is none.
fn next_part(parts: &[u8]) -> Option<(&[u8], &[u8])>
    ensures some { IfSome result (λ p. parts_behind parts.now ≡ p.0.now ∷ parts_behind p.1.now) }
    ensures none { IfNone result (parts_behind parts.now ≡ []) }
    ensures fewer { IfSome result (λ p. length p.1.now < length parts.now) }
{
    match parts {
        [] => None,
        [_, text @ ..] => Some(cut(text)),
    }
}

/// STATUS: the number of three decimal digits.
fn status_in(digits: &[u8]) -> Option<u16>
    ensures { result ≡ words.status_of digits.now }
{
    match digits {
        [hundreds, tens, ones]
            if hundreds.is_ascii_digit() && tens.is_ascii_digit() && ones.is_ascii_digit() => {
            let value = |digit: &u8| u16::from(*digit - b'0');
            Some(100 * value(hundreds) + 10 * value(tens) + value(ones))
        }
        _ => None,
    }
}

/// BODYHEX: the octets that pairs of hex digits write.
fn read_body<A: Allocator>(alloc: A, digits: &[u8]) -> Result<Octets<A>, AllocError>
    requires { IsTrue (is_some (words.body_of digits.now)) }
    ensures { IfOk result (λ octets. words.body_of digits.now ≡ Some octets) }
{
    match octets_of(alloc, digits)? {
        Some(octets) => Ok(Octets::new(octets)),
        None => unreachable!(),
    }
}

/// Whether each of these parts is NAME=VALUE or the word of an early answer.
fn are_fields(parts: &[u8]) -> bool
    ensures { result ≡ is_some (words.fields_of (parts_behind parts.now)) }
{
    let mut rest = parts;
    while let Some((part, more)) = next_part(rest) {
        if !is_early_word(part) && field_in(part).is_none() {
            return false;
        }
        rest = more;
    }
    true
}

/// The fields that these parts say. The word of an early answer is none, since it has no `=`.
fn read_fields<A: Allocator + Copy>(alloc: A, parts: &[u8]) -> Result<Vec<Field<A>, A>, AllocError>
    requires { IsTrue (is_some (words.fields_of (parts_behind parts.now))) }
    ensures { IfOk result (λ fields. words.fields_of (parts_behind parts.now) ≡ Some fields.items) }
{
    let mut fields = Vec::new(alloc);
    let mut rest = parts;
    while let Some((part, more)) = next_part(rest) {
        if let Some((name, value)) = field_in(part) {
            fields.push(field_from(alloc, name, value)?)?;
        }
        rest = more;
    }
    Ok(fields)
}

/// Whether the answer of these further parts is early; `None` where two or more of them are the word.
fn early_in(parts: &[u8]) -> Option<bool>
    ensures { result ≡ words.early_of (words.early_words (parts_behind parts.now)) }
{
    let count = early_words(parts);
    if count > 1 { None } else { Some(count == 1) }
}

/// How many of these parts are the word of an early answer.
fn early_words(parts: &[u8]) -> usize
    ensures { result ≡ words.early_words (parts_behind parts.now) }
{
    let mut count = 0;
    let mut rest = parts;
    while let Some((part, more)) = next_part(rest) {
        if is_early_word(part) {
            count += 1;
        }
        rest = more;
    }
    count
}

/// Whether a part is the word of an early answer.
fn is_early_word(part: &[u8]) -> bool
    ensures { result ≡ words.is_early_word part.now }
{
    part == b"early".as_slice()
}

/// The field of this name and this value.
fn field_from<A: Allocator + Copy>(
    alloc: A,
    name: &[u8],
    value: &[u8],
) -> Result<Field<A>, AllocError>
    ensures { IfOk result (λ f. f ≡ field name.now value.now) }
{
    Ok(Field::new(name.to_vec(alloc)?, value.to_vec(alloc)?))
}

/// NAME=VALUE: what precedes the first `=`, and what follows it.
fn field_in(part: &[u8]) -> Option<(&[u8], &[u8])>
    ensures { option_map (λ p. field p.0.now p.1.now) result ≡ words.field_of part.now }
{
    let at = place_of(part, b'=')?;
    Some((text_before(part, at), text_from(part, at + 1)))
}
