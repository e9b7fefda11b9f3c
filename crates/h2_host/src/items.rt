//! The items of an explanation, as lines of its text: `#N @OCTET ..` and the lines below it.

use std::alloc::AllocError;

/// The number that digits spell; what follows them is passed over.
pub(crate) fn number_in(digits: &[u8]) -> usize {
    let mut number = 0usize;
    for digit in digits {
        if !digit.is_ascii_digit() {
            return number;
        }
        number = number
            .saturating_mul(10)
            .saturating_add(usize::from(digit.saturating_sub(b'0')));
    }
    number
}

/// Which item a line begins, if it begins one.
fn item_of(line: &[u8]) -> Option<usize> {
    match line.strip_prefix(b"#".as_slice()) {
        Some(rest) => Some(number_in(rest)),
        None => None,
    }
}

/// Puts a line last, after `front`.
fn put_line(front: &[u8], line: &[u8], out: &mut Vec<u8>) -> Result<(), AllocError> {
    out.extend_from_slice(front)?;
    out.extend_from_slice(line)?;
    out.extend_from_slice(b"\n".as_slice())
}

/// Puts the lines of an item last. `AllocError` where memory is refused.
pub(crate) fn put_item(text: &[u8], item: usize, out: &mut Vec<u8>) -> Result<(), AllocError> {
    let mut is_here = false;
    let mut is_found = false;
    for line in text.split(|octet| *octet == b'\n') {
        match item_of(line) {
            Some(number) => is_here = number == item,
            None => is_here = is_here && line.first().copied() == Some(b' '),
        }
        if is_here {
            is_found = true;
            put_line(b"".as_slice(), line, out)?;
        }
    }
    if is_found {
        return Ok(());
    }
    out.extend_from_slice(b"nothing to say of this item\n".as_slice())
}

/// How many items are listed before a position and after it.
pub(crate) const AROUND: usize = 3;

/// Whether a line of an item says that it was an error.
fn is_error(line: &[u8]) -> bool {
    match line.strip_prefix(b"        ".as_slice()) {
        Some(text) => {
            text.starts_with(b"connection error ".as_slice())
                || text.starts_with(b"stream error ".as_slice())
        }
        None => false,
    }
}

/// The first item after a position that is an error.
pub(crate) fn error_after(text: &[u8], position: usize) -> Option<usize> {
    let mut item = 0usize;
    for line in text.split(|octet| *octet == b'\n') {
        item = item_of(line).unwrap_or(item);
        if item > position && is_error(line) {
            return Some(item);
        }
    }
    None
}

/// Puts the first lines of the items around a position last, at most `around` from it, and what errors they are; `>` is in
/// front of its own. `AllocError` where memory is refused.
pub(crate) fn put_items(
    text: &[u8],
    position: usize,
    around: usize,
    out: &mut Vec<u8>,
) -> Result<(), AllocError> {
    let mut is_near = false;
    for line in text.split(|octet| *octet == b'\n') {
        let begun = item_of(line);
        if let Some(item) = begun {
            is_near = item.abs_diff(position) <= around;
        }
        let front = if begun == Some(position) {
            b"> ".as_slice()
        } else {
            b"  ".as_slice()
        };
        if is_near && (begun.is_some() || is_error(line)) {
            put_line(front, line, out)?;
        }
    }
    Ok(())
}
