//! Requests as they go out: those with a method to another path, and with another authority. Definitions: `specs/Aims.antt`.

ghost use Rattle.std.specs.Prelude.{◌≡◌, ◌==◌, ◌++◌, ◌∷◌, [], IfOk, OnOk, map, option_map, false, position};
ghost use Rattle.std.specs.List.{list_any, slice_split};
ghost use Rattle.std.specs.Str.{bytes_eq};
ghost use Rattle.h2_spec.specs.Texts.Script.{cut_at};
ghost use Rattle.h2_cmd_check.specs.ItemTexts.{octets_of_lines};
ghost use Rattle.h2_cmd_against.specs.Aims.{aim_said, aimed_block, aimed_by, aimed_line, aimed_octets, aimed_part, aimed_parts, authority_front, is_moved, is_open, literal_method, method_in, path_front, with_value, without_path};

use h2_cmd_check::octets_of_lines as octets_in;
use std::alloc::{AllocError, Global};

/// Where requests go; an empty text leaves it to the case.
#[derive(Clone, Copy)]
pub struct Aim<'a> {
    /// Requests with this method go to `path`.
    pub method: &'a [u8],
    pub path: &'a [u8],
    /// What requests have where a case has `localhost`.
    pub authority: &'a [u8],
}

/// Where an octet first is.
fn place_of(text: &[u8], octet: u8) -> Option<usize>
    ensures { result ≡ position (λ b. b == octet) text.now }
{
    text.iter().position(|b| *b == octet)
}

/// What precedes an octet's first place, and what follows it.
fn cut(text: &[u8], octet: u8) -> Option<(&[u8], &[u8])>
    ensures { option_map (λ p. (p.0.now, p.1.now)) result ≡ cut_at octet text.now }
{
    match place_of(text, octet) {
        Some(at) => Some((&text[..at], &text[at + 1..])),
        None => None,
    }
}

/// What the words `METHOD=PATH` and `AUTHORITY` say; either may be empty.
pub fn aim_for<'a>(path: &'a str, authority: &'a str) -> Aim<'a>
    ensures { aimed_by result ≡ aim_said path.now authority.now }
{
    let authority = authority.as_bytes();
    match cut(path.as_bytes(), b'=') {
        Some((method, path)) => Aim {
            method,
            path,
            authority,
        },
        None => Aim {
            method: b"",
            path: b"",
            authority,
        },
    }
}

/// What follows the letter of a literal with this name, up to its last quote.
fn literal_method(part: &[u8]) -> Option<&[u8]>
    ensures { option_map (λ m. m.now) result ≡ literal_method part.now }
{
    match part.split_first() {
        Some((_, rest)) => match rest.strip_prefix(b"2=\"".as_slice()) {
            Some(text) => text.strip_suffix(b"\"".as_slice()),
            None => None,
        },
        None => None,
    }
}

/// The method that an instruction says; empty where it says none.
fn method_in(part: &[u8]) -> &[u8]
    ensures { result.now ≡ method_in part.now }
{
    if part == b"i2".as_slice() {
        return b"GET";
    }
    if part == b"i3".as_slice() {
        return b"POST";
    }
    match literal_method(part) {
        Some(method) => method,
        None => b"",
    }
}

/// What is before the value of a path that begins with a slash.
fn path_front(part: &[u8]) -> Option<&'static [u8]>
    ensures { option_map (λ f. f.now) result ≡ path_front part.now }
{
    if part == b"i4".as_slice() {
        return Some(b"n4");
    }
    if part == b"i5".as_slice() {
        return Some(b"n4");
    }
    if part.starts_with(b"n4=\"/".as_slice()) {
        return Some(b"n4");
    }
    if part.starts_with(b"a4=\"/".as_slice()) {
        return Some(b"a4");
    }
    if part.starts_with(b"v4=\"/".as_slice()) {
        return Some(b"v4");
    }
    None
}

/// What is before a value `localhost`.
fn authority_front(part: &[u8]) -> Option<&[u8]>
    ensures { option_map (λ f. f.now) result ≡ authority_front part.now }
{
    part.strip_suffix(b"=\"localhost\"".as_slice())
}

/// Appends an instruction with this front and this value.
fn put_value(front: &[u8], value: &[u8], out: &mut Vec<u8>) -> Result<(), AllocError>
    ensures { OnOk result (out.new.items ≡ out.old.items ++ with_value front.now value.now) }
{
    out.extend_from_slice(front)?;
    out.extend_from_slice(b"=\"")?;
    out.extend_from_slice(value)?;
    out.extend_from_slice(b"\"")
}

/// Appends an instruction whose request has the path of the case.
fn put_unmoved(aim: Aim<'_>, part: &[u8], out: &mut Vec<u8>) -> Result<(), AllocError>
    ensures { OnOk result (out.new.items ≡ out.old.items ++ without_path (aimed_by aim.entry) part.now) }
{
    if aim.authority.is_empty() {
        return out.extend_from_slice(part);
    }
    match authority_front(part) {
        Some(front) => put_value(front, aim.authority, out),
        None => out.extend_from_slice(part),
    }
}

/// Appends an instruction as it goes out; `is_moved`: the path of its request changes.
fn put_part(aim: Aim<'_>, is_moved: bool, part: &[u8], out: &mut Vec<u8>) -> Result<(), AllocError>
    ensures { OnOk result (out.new.items ≡ out.old.items ++ aimed_part (aimed_by aim.entry) is_moved part.now) }
{
    if !is_moved {
        return put_unmoved(aim, part, out);
    }
    match path_front(part) {
        Some(front) => put_value(front, aim.path, out),
        None => put_unmoved(aim, part, out),
    }
}

/// Whether a string is open after a text, before which none was.
fn is_open(text: &[u8]) -> bool
    ensures { result ≡ is_open false text.now }
{
    let mut inside = false;
    for octet in text {
        if *octet == b'"' || *octet == b'\'' {
            inside = !inside;
        }
    }
    inside
}

/// Whether one of these instructions is cut inside a string.
fn are_open(parts: &[&[u8]]) -> bool
    ensures { result ≡ list_any (λ p. is_open false p) (map (λ p. p.now) parts.now) }
{
    parts.iter().any(|part| is_open(part))
}

/// Whether one of these instructions says a method.
fn say_method(parts: &[&[u8]], method: &[u8]) -> bool
    ensures { result ≡ list_any (λ p. bytes_eq (method_in p) method.now) (map (λ p. p.now) parts.now) }
{
    parts.iter().any(|part| method_in(part) == method)
}

/// Whether the request of these instructions goes to another path.
fn is_moved(aim: Aim<'_>, parts: &[&[u8]]) -> bool
    ensures { result ≡ is_moved (aimed_by aim.entry) (map (λ p. p.now) parts.now) }
{
    !aim.path.is_empty() && say_method(parts, aim.method)
}

/// Appends instructions as they go out, with an `h` before them and commas between.
fn put_parts(
    aim: Aim<'_>,
    is_moved: bool,
    parts: &[&[u8]],
    out: &mut Vec<u8>,
) -> Result<(), AllocError>
    ensures { OnOk result (out.new.items ≡ out.old.items ++ aimed_parts (aimed_by aim.entry) is_moved 104 (map (λ p. p.now) parts.now)) }
{
    let mut lead = b'h';
    for part in parts {
        match out.push(lead) {
            Ok(()) => {}
            Err(_) => return Err(AllocError),
        }
        put_part(aim, is_moved, part, out)?;
        lead = b',';
    }
    Ok(())
}

/// The instructions of a text.
fn parts_in(alloc: Global, text: &[u8]) -> Result<Vec<&[u8]>, AllocError>
    ensures { IfOk result (λ parts. map (λ p. p.now) parts.items ≡ slice_split (λ b. b == 44) text.now) }
{
    text.split(|octet| *octet == b',').collect(alloc)
}

/// A line of which the instructions are these, as it goes out.
fn block_line(
    alloc: Global,
    aim: Aim<'_>,
    line: &[u8],
    front: &[u8],
    parts: &[&[u8]],
) -> Result<Vec<u8>, AllocError>
    ensures { IfOk result (λ out. out.items ≡ aimed_block (aimed_by aim.entry) line.now front.now (map (λ p. p.now) parts.now)) }
{
    if are_open(parts) {
        return Vec::from_slice(alloc, line);
    }
    let mut out = Vec::from_slice(alloc, front)?;
    put_parts(aim, is_moved(aim, parts), parts, &mut out)?;
    Ok(out)
}

/// The octets of a line as it goes out.
fn line_octets(alloc: Global, aim: Aim<'_>, line: &[u8]) -> Result<Vec<u8>, AllocError>
    ensures { IfOk result (λ octets. octets.items ≡ octets_of_lines (aimed_line (aimed_by aim.entry) line.now ∷ [])) }
{
    match cut(line, b'h') {
        Some((front, rest)) => {
            let parts = parts_in(alloc, rest)?;
            let line = block_line(alloc, aim, line, front, parts.as_slice())?;
            octets_in(alloc, &[line.as_slice()])
        }
        None => octets_in(alloc, &[line]),
    }
}

/// The octets of lines, of which each goes out by itself.
fn lines_octets(alloc: Global, aim: Aim<'_>, lines: &[&[u8]]) -> Result<Vec<u8>, AllocError>
    ensures { IfOk result (λ octets. octets.items ≡ octets_of_lines (map (aimed_line (aimed_by aim.entry)) (map (λ l. l.now) lines.now))) }
{
    let mut octets = Vec::new(alloc);
    for line in lines {
        let more = line_octets(alloc, aim, line)?;
        octets.extend_from_slice(more.as_slice())?;
    }
    Ok(octets)
}

/// The octets of the lines of a case as they go out.
///
/// `AllocError` where memory is refused.
pub fn aimed_octets(alloc: Global, aim: Aim<'_>, lines: &[&[u8]]) -> Result<Vec<u8>, AllocError>
    ensures { IfOk result (λ octets. octets.items ≡ aimed_octets (aimed_by aim.entry) (map (λ l. l.now) lines.now)) }
{
    if aim.path.is_empty() && aim.authority.is_empty() {
        return octets_in(alloc, lines);
    }
    lines_octets(alloc, aim, lines)
}
