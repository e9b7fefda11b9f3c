//! The fields of an answer: `headers`. Definitions: specs/AnswerTable.antt.

ghost use Rattle.std.specs.Prelude.{◌≡◌, None, Some, option_map, IfOk, IfSome, IsTrue, is_some};
ghost use Rattle.std.specs.Option.{option_copied, option_and_then};
ghost use Rattle.toml.specs.View.{view, items_view};
ghost use Rattle.h2_spec.specs.Hpack.Field.{field};
ghost use Rattle.h2_cmd_book_file.specs.Values.{data_at};
ghost use Rattle.h2_cmd_book_file.specs.AnswerTable as spec;

use h2_hpack_instruction::field::Field;
use std::alloc::{AllocError, Global};
use toml::Value;

/// The pairs of a value of `headers`, each of them a name and a value; without the key there are none. `None` where
/// it says something else.
pub fn headers_in(headers: Option<&Value>) -> Option<&[Value]>
    ensures said { option_and_then (λ pairs. spec.headers_in (items_view pairs.now)) result
        ≡ spec.headers_said (data_at headers.entry) }
    ensures whole { IfSome result (λ pairs. IsTrue (is_some (spec.headers_in (items_view pairs.now)))) }
{
    match headers {
        None => Some(&[]),
        Some(value) => pairs_in(value),
    }
}

/// The pairs of an array of pairs.
fn pairs_in(value: &Value) -> Option<&[Value]>
    ensures said { option_and_then (λ pairs. spec.headers_in (items_view pairs.now)) result
        ≡ spec.headers_said (Some (view value.now)) }
    ensures whole { IfSome result (λ pairs. IsTrue (is_some (spec.headers_in (items_view pairs.now)))) }
{
    let pairs = value.as_array()?.as_slice();
    if are_headers(pairs) {
        Some(pairs)
    } else {
        None
    }
}

/// Whether each value is a name and a value.
fn are_headers(pairs: &[Value]) -> bool
    ensures { result ≡ is_some (spec.headers_in (items_view pairs.now)) }
{
    for pair in pairs {
        if header_in(pair).is_none() {
            return false;
        }
    }
    true
}

/// The fields that pairs say.
pub fn read_headers(alloc: Global, pairs: &[Value]) -> Result<Vec<Field<Global>>, AllocError>
    requires { IsTrue (is_some (spec.headers_in (items_view pairs.now))) }
    ensures { IfOk result (λ fields. spec.headers_in (items_view pairs.now) ≡ Some fields.items) }
{
    let mut fields = Vec::new(alloc);
    for pair in pairs {
        if let Some((name, value)) = header_in(pair) {
            fields.push(field_from(alloc, name, value)?)?;
        }
    }
    Ok(fields)
}

/// The field of a name and a value.
fn field_from(alloc: Global, name: &str, value: &str) -> Result<Field<Global>, AllocError>
    ensures { IfOk result (λ f. f ≡ field name.now value.now) }
{
    let name = name.as_bytes().to_vec(alloc)?;
    let value = value.as_bytes().to_vec(alloc)?;
    Ok(Field::new(name, value))
}

/// A name and a value, from an array of two strings.
pub(crate) fn header_in(pair: &Value) -> Option<(&str, &str)>
    ensures { option_map (λ p. field p.0.now p.1.now) result ≡ spec.header_said (view pair.now) }
{
    match pair.as_array() {
        Some(pair) => header_pair(pair.as_slice()),
        None => None,
    }
}

/// The name and the value of a header, where it has exactly two values and both are texts.
fn header_pair(pair: &[Value]) -> Option<(&str, &str)>
    ensures { option_map (λ p. field p.0.now p.1.now) result ≡ spec.header_pair (items_view pair.now) }
{
    match pair {
        [] | [_] => None,
        [name, value] => both(name.as_str(), value.as_str()),
        [_, _, _, ..] => None,
    }
}

/// Two texts, where both are there.
fn both<'v>(name: Option<&'v str>, value: Option<&'v str>) -> Option<(&'v str, &'v str)>
    ensures { option_map (λ p. field p.0.now p.1.now) result
        ≡ spec.field_with (option_copied name.entry) (option_copied value.entry) }
{
    match (name, value) {
        (Some(name), Some(value)) => Some((name, value)),
        _ => None,
    }
}
