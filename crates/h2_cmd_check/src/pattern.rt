//! Lines of a text that are expected, and how a line differs from what was expected. Definitions: `specs/Texts.antt`.

ghost use Rattle.std.specs.Prelude.{◌≡◌, ◌<◌, ◌≤◌, length};
ghost use Rattle.h2_cmd_check.specs.Texts.{explains, fits, has_indented, has_line, shows, without_indent};

use std::cmp::min;

/// Whether a line is the one that is expected, or begins as it does where that ends in `...`. An empty one is not.
fn fits(expected: &[u8], line: &[u8]) -> bool
    ensures { result ≡ fits expected.now line.now }
{
    if line.is_empty() {
        return false;
    }
    match expected.strip_suffix(b"...".as_slice()) {
        Some(front) => line.starts_with(front),
        None => line == expected,
    }
}

/// Whether a text has the line that is expected.
fn has_line(text: &[u8], expected: &[u8]) -> bool
    ensures { result ≡ has_line text.now expected.now }
{
    text.split(|octet| *octet == b'\n')
        .any(|line| fits(expected, line))
}

/// Whether a text has the line that is expected, or has not the line after `! `.
pub(crate) fn shows(text: &[u8], expected: &[u8]) -> bool
    ensures { result ≡ shows text.now expected.now }
{
    match expected.strip_prefix(b"! ".as_slice()) {
        Some(line) => !line.is_empty() && !has_line(text, line),
        None => has_line(text, expected),
    }
}

/// A line of `explain` without its indent.
fn without_indent(line: &[u8]) -> &[u8]
    ensures { result.now ≡ without_indent line.now }
{
    match line.strip_prefix(b"        ".as_slice()) {
        Some(rest) => rest,
        None => line,
    }
}

/// Whether a text of `explain` has the line that is expected, apart from its indent.
fn has_indented(text: &[u8], expected: &[u8]) -> bool
    ensures { result ≡ has_indented text.now expected.now }
{
    text.split(|octet| *octet == b'\n')
        .any(|line| fits(expected, without_indent(line)))
}

/// Whether a text of `explain` has the line that is expected, or has not the line after `! `.
pub(crate) fn explains(text: &[u8], expected: &[u8]) -> bool
    ensures { result ≡ explains text.now expected.now }
{
    match expected.strip_prefix(b"! ".as_slice()) {
        Some(line) => !line.is_empty() && !has_indented(text, line),
        None => has_indented(text, expected),
    }
}

/// How many first octets two texts share.
pub(crate) fn shared(one: &[u8], other: &[u8]) -> usize {
    let most = min(one.len(), other.len());
    for place in 0..most {
        if one[place] != other[place] {
            return place;
        }
    }
    most
}

/// The line of a text, without an indent of `explain`, that agrees with the one that is expected for longest, the first of
/// these; empty where none agrees in its first octet.
pub(crate) fn closest<'t>(text: &'t [u8], expected: &[u8]) -> &'t [u8] {
    let mut best: &'t [u8] = &[];
    let mut most = 0;
    for indented in text.split(|octet| *octet == b'\n') {
        let line = without_indent(indented);
        let agreed = shared(line, expected);
        if agreed > most {
            most = agreed;
            best = line;
        }
    }
    best
}
