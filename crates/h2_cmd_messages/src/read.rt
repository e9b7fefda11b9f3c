//! Why an input or a file was not read.

use crate::place::{InputSource, place_at};
use h2_io::say::{Say, TextBuilder};
use h2_io::say_all;
use std::io::ErrorKind;

/// Why the system refused to read a file, and what to do.
pub fn file_reason(kind: ErrorKind) -> &'static str {
    match kind {
        ErrorKind::NotFound => "there is no such file",
        ErrorKind::PermissionDenied => "it may not be read: permission denied",
        ErrorKind::IsADirectory => "it is a directory; a file is needed",
        ErrorKind::NotADirectory => "a part of the path is no directory",
        ErrorKind::FilesystemLoop => "the path has too many symbolic links",
        ErrorKind::InvalidFilename | ErrorKind::InvalidInput => "no file has such a name",
        ErrorKind::WouldBlock => "it is non-blocking, and nothing was there to read",
        ErrorKind::Interrupted => "the read was interrupted by a signal",
        ErrorKind::OutOfMemory => "the system is out of memory",
        ErrorKind::FileTooLarge => "it is too long: at most 16777216 octets are read",
        _ => "the system failed to read it",
    }
}

/// Says why an input was not read.
pub fn say_unread(source: InputSource<'_>, kind: ErrorKind, out: &mut TextBuilder) {
    say_all!(out; source, ": ", file_reason(kind), ".\n");
}

/// Says that an input is too long: it has more octets than this.
pub fn say_too_long(source: InputSource<'_>, most: usize, out: &mut TextBuilder) {
    say_all!(out; source, ": it has more than ", most, " octets, the most that is read.\n");
}

/// Says where a text is not UTF-8.
pub fn say_no_text(source: InputSource<'_>, text: &[u8], out: &mut TextBuilder) {
    let at = match std::str::from_utf8(text) {
        Ok(_) => 0,
        Err(error) => error.valid_up_to(),
    };
    say_all!(out; source, ", ", place_at(text, at), ": a script is UTF-8, and this octet is not.\n");
}
