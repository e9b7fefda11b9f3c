//! What the system or the memory refused: an output, a port, memory.

use crate::place::InputSource;
use h2_io::say::{Say, TextBuilder};
use h2_io::say_all;
use std::io::ErrorKind;

/// Why an output or a file could not be written, in words.
fn reason(kind: ErrorKind) -> &'static str {
    match kind {
        ErrorKind::BrokenPipe => "its reader has left",
        ErrorKind::StorageFull => "no space is left on the device",
        ErrorKind::QuotaExceeded => "the quota is used up",
        ErrorKind::FileTooLarge => "the file would be larger than is allowed",
        ErrorKind::PermissionDenied => "permission denied",
        ErrorKind::WouldBlock => "it is non-blocking, and its reader is too slow",
        ErrorKind::NotFound => "there is no such directory",
        ErrorKind::OutOfMemory => "out of memory",
        ErrorKind::InvalidInput | ErrorKind::Uncategorized =>
            "it is closed, or not open for writing",
        _ => "the system failed to write it",
    }
}

/// Says why the output was not written whole.
pub fn say_unwritten(kind: ErrorKind, out: &mut TextBuilder) {
    say_all!(out; "standard output: ", reason(kind), "; the output is not whole.\n");
}

/// Says why a file of a connection's record was not written further.
pub fn say_unrecorded(path: &str, kind: ErrorKind, out: &mut TextBuilder) {
    say_all!(out; InputSource::File(path), ": ", reason(kind), "; the record of this connection ends here, and the connection goes on.\n");
}

/// Says that memory was refused.
pub fn say_no_memory(out: &mut TextBuilder) {
    say_all!(out; "out of memory: give the program more, or a shorter input.\n");
}

/// Says why a port can't be listened on; without a reason, that a connection of it could not be accepted.
pub fn say_port(port: u32, kind: Option<ErrorKind>, out: &mut TextBuilder) {
    let reason = match kind {
        Some(ErrorKind::AddrInUse) =>
            "is in use: end the program that listens there, or take another port",
        Some(ErrorKind::PermissionDenied) =>
            "may not be listened on: permission denied; take one above 1023",
        Some(_) => "can't be listened on",
        None => "was listened on, and a connection could not be accepted",
    };
    say_all!(out; "port ", port, " of 127.0.0.1 ", reason, ".\n");
}
