//! The files that words name: `-` is standard input, each other path a file of the system.

ghost use Rattle.std.specs.Prelude.{◌≤◌, IfOk, None, false, vec_len};

use crate::WaitingInput;
use h2_cmd_book_file::{Files, FilesFault, StdFiles, read_whole};
use std::alloc::Global;
use std::fs::{Files as _, OpenOptions};
use std::io::ErrorKind;

/// The path of standard input.
pub const STANDARD_INPUT: &str = "-";

/// Makes an empty file where there is none.
fn make_file(rt: &HostRuntime, path: &str) -> Result<(), FilesFault> {
    let mut how = OpenOptions::new();
    how.write(true).create_new(true);
    match how.open(rt, path) {
        Ok(_) => Ok(()),
        Err(_) => Err(FilesFault::Failed),
    }
}

/// Writes octets to a new file; where that fails, there is none.
fn write_new(rt: &HostRuntime, alloc: Global, path: &str, octets: &[u8]) -> Result<(), FilesFault> {
    make_file(rt, path)?;
    let mut files = StdFiles { runtime: rt };
    let written = files.replace(alloc, path, octets);
    if written.is_err() {
        let _ = rt.remove_file(path);
    }
    written
}

/// The files that words name.
#[derive(Clone, Copy)]
pub struct NamedFiles<'r> {
    pub rt: &'r HostRuntime,
}

impl Files for NamedFiles<'_> {
    ghost is_printed = { λ _. false };

    ghost file = { λ _ _. None };

    fn read(&mut self, alloc: Global, path: &str, most: usize) -> Result<Vec<u8>, FilesFault> {
        if path == STANDARD_INPUT {
            let mut input = WaitingInput::new(self.rt, self.rt.stdin());
            return read_whole(alloc, &mut input, most);
        }
        let mut files = StdFiles { runtime: self.rt };
        files.read(alloc, path, most)
    }

    /// Standard input is not written, nor what is no plain file. Where there is no file, a new one is made.
    fn replace(&mut self, alloc: Global, path: &str, octets: &[u8]) -> Result<(), FilesFault> {
        if path == STANDARD_INPUT {
            return Err(FilesFault::Failed);
        }
        match self.rt.metadata(path) {
            Ok(about) if about.is_file() => {
                let mut files = StdFiles { runtime: self.rt };
                files.replace(alloc, path, octets)
            }
            Ok(_) => Err(FilesFault::Failed),
            Err(_) => write_new(self.rt, alloc, path, octets),
        }
    }

    fn failure(&self, path: &str) -> Option<ErrorKind> {
        if path == STANDARD_INPUT {
            return None;
        }
        let files = StdFiles { runtime: self.rt };
        files.failure(path)
    }
}
