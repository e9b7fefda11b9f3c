//! The system's files, of which contracts know nothing.

ghost use Rattle.std.specs.Prelude.{◌≡◌, ◌<◌, ◌≤◌, IfErr, IfOk, IfSome, None, OnOk, false, length, vec_len};
ghost use Rattle.std.specs.Io.KnownBytes.{IsAtEnd};
ghost use Rattle.h2_cmd_book_file.specs.declared.files.FilesFault.TheVariants.{TooLong};

use crate::files::{Files, FilesFault};
use std::alloc::Global;
use std::fs::{OpenFile, OpenOptions, Permissions};
use std::io::{ErrorKind, Read, Write};
use std::os::unix::fs::OpenOptionsExt;
use std::{fs, io, rt};

/// The system's files, through the runtime that a program is given.
#[derive_where(Clone, Copy)]
pub struct StdFiles<'r, R> {
    pub runtime: &'r R,
}

impl<R: rt::Files> Files for StdFiles<'_, R> {
    ghost is_printed = { λ _. false };

    ghost file = { λ _ _. None };

    fn read(&mut self, alloc: Global, path: &str, most: usize) -> Result<Vec<u8>, FilesFault> {
        match fs::open(self.runtime, path) {
            Ok(mut file) => read_whole(alloc, &mut file, most),
            Err(_) => Err(FilesFault::Failed),
        }
    }

    /// The octets are written to a new file beside it, which then takes its place, so that the old file is there until the
    /// new one is whole. A link is followed, and the permissions stay.
    fn replace(&mut self, alloc: Global, path: &str, octets: &[u8]) -> Result<(), FilesFault> {
        match replace_file(self.runtime, alloc, path, octets) {
            Ok(()) => Ok(()),
            Err(error) => Err(fault_of(error.kind())),
        }
    }

    /// A directory can be opened, and is no file all the same.
    fn failure(&self, path: &str) -> Option<ErrorKind> {
        match self.runtime.metadata(path) {
            Ok(about) if about.is_dir() => Some(ErrorKind::IsADirectory),
            Ok(about) if about.is_file() => match fs::open(self.runtime, path) {
                Ok(_) => None,
                Err(error) => Some(error.kind()),
            },
            Ok(_) => None,
            Err(error) => Some(error.kind()),
        }
    }
}

/// A fault of the system, as this crate names it.
fn fault_of(kind: ErrorKind) -> FilesFault {
    if kind == ErrorKind::OutOfMemory {
        FilesFault::NoMemory
    } else {
        FilesFault::Failed
    }
}

/// A new file at a path where there is none, which its owner alone may read and write.
fn new_file<R: rt::Files>(runtime: &R, path: &str) -> io::Result<R::File> {
    let mut how = OpenOptions::new();
    how.write(true).create_new(true).mode(0o600);
    how.open(runtime, path)
}

/// Writes all octets to a file, and to the disk, and then moves it from its path to another.
fn write_and_move<R: rt::Files>(
    runtime: &R,
    file: &mut R::File,
    octets: &[u8],
    permissions: Permissions,
    from: &str,
    to: &str,
) -> io::Result<()> {
    file.write_all(octets)?;
    file.set_permissions(permissions)?;
    file.sync_all()?;
    runtime.rename(from, to)
}

/// Replaces a file by a new one of these octets; where that fails, the new one is removed.
fn put_new<R: rt::Files>(
    runtime: &R,
    path: &str,
    beside: &str,
    octets: &[u8],
    permissions: Permissions,
) -> io::Result<()> {
    let mut file = new_file(runtime, beside)?;
    let written = write_and_move(runtime, &mut file, octets, permissions, beside, path);
    if written.is_err() {
        let _ = runtime.remove_file(beside);
    }
    written
}

/// Replaces a file by one of these octets.
fn replace_file<R: rt::Files>(
    runtime: &R,
    alloc: Global,
    path: &str,
    octets: &[u8],
) -> io::Result<()> {
    let path = runtime.canonicalize(alloc, path)?;
    let permissions = runtime.metadata(path.as_str())?.permissions();
    let beside = format!(in alloc; "{}.blessed", path.as_str())?;
    put_new(runtime, path.as_str(), beside.as_str(), octets, permissions)
}

/// All that a reader has left, at most `most` octets.
///
/// # Errors
///
/// `Failed`: a read failed. `TooLong`: the reader has more than `most` octets. `NoMemory`: memory was refused; the reader may have
/// more than `most` octets then too.
pub fn read_whole<R: Read>(alloc: Global, input: &mut R, most: usize) -> Result<Vec<u8>, FilesFault>
    ensures whole { IfOk result (λ octets. IfSome (R.remaining input.old) (λ known. octets.items ≡ known)) }
    ensures end { OnOk result (IsAtEnd (R.remaining input.new)) }
    ensures within { IfOk result (λ octets. vec_len octets ≤ most) }
    ensures long { IfErr result (λ fault. fault ≡ TooLong → IfSome (R.remaining input.old) (λ known. most < length known)) }
{
    let mut octets = Vec::new(alloc);
    let mut buffer = [0; 16384];
    loop {
        let Ok(count) = input.read(&mut buffer) else {
            return Err(FilesFault::Failed);
        };
        if count == 0 {
            return Ok(octets);
        }
        if count > most - octets.len() {
            return Err(FilesFault::TooLong);
        }
        let Ok(()) = octets.extend_from_slice(&buffer[..count]) else {
            return Err(FilesFault::NoMemory);
        };
    }
}
