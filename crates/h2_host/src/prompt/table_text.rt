//! The header table as text, of what `show` prints of a state.

use h2_cmd_messages::{Cut, Say, TextBuilder};
use h2_io::octets_of;
use std::alloc::{AllocError, Global};

/// The octets that hex digits write; none where they are no hex.
fn octets(alloc: Global, digits: &[u8]) -> Result<Vec<u8>, AllocError> {
    Ok(octets_of(alloc, digits)?.unwrap_or(Vec::new(alloc)))
}

/// Puts an entry last: its index, its name and its value.
fn put_entry(alloc: Global, entry: &[u8], out: &mut TextBuilder) -> Result<(), AllocError> {
    let mut words = entry.split(|octet| *octet == b' ');
    let (Some(index), Some(name), Some(value)) = (words.next(), words.next(), words.next()) else {
        return Ok(());
    };
    Cut(index).say(out);
    " ".say(out);
    Cut(octets(alloc, name)?.as_slice()).say(out);
    ": \"".say(out);
    Cut(octets(alloc, value)?.as_slice()).say(out);
    "\"\n".say(out);
    Ok(())
}

/// Puts the numbers of the table last: its entries, its size and its maximum.
fn put_numbers(numbers: &[u8], out: &mut TextBuilder) {
    let mut words = numbers.split(|octet| *octet == b' ');
    let (Some(count), Some(size), Some(max)) = (words.next(), words.next(), words.next()) else {
        return;
    };
    "entries ".say(out);
    Cut(count).say(out);
    ", octets ".say(out);
    Cut(size).say(out);
    " of ".say(out);
    Cut(max).say(out);
    "\n".say(out);
}

/// The header table in what `show` prints, as text. `AllocError` where memory is refused.
pub(crate) fn table_text(alloc: Global, shown: &[u8]) -> Result<String, AllocError> {
    let mut out = TextBuilder::new(alloc);
    for line in shown.split(|octet| *octet == b'\n') {
        if let Some(numbers) = line.strip_prefix(b"table ".as_slice()) {
            put_numbers(numbers, &mut out);
        } else if let Some(entry) = line.strip_prefix(b"entry ".as_slice()) {
            put_entry(alloc, entry, &mut out)?;
        }
    }
    out.finish()
}
