//! Files that a program reads and writes whole. What a read reports, and what a write leaves: specs/Files.antt.

ghost use Rattle.std.specs.Prelude.{◌≡◌, ◌≤◌, ℕ, List, Option, Bool, IfOk, OnErr, OnOk, true, vec_len};
ghost use Rattle.h2_cmd_book_file.specs.Files.{Reads, Replaces};

use std::alloc::Global;
use std::io::ErrorKind;

/// Why a file was not read.
#[derive(Clone, Copy)]
pub enum FilesFault {
    /// There is no file at the path, it may not be read, or a read of it failed.
    Failed,
    /// The file has more octets than were asked for at most.
    TooLong,
    /// Memory was refused.
    NoMemory,
}

/// Files that a program reads and writes whole. A contract sees what is at each path, where the device reports it: the octets of
/// the file, or nothing where there is no file that can be read. No read changes that, and a
/// write only what is at its path.
pub trait Files {
    ghost is_printed: { Self → Bool };

    ghost file: { Self → List ℕ → Option (List ℕ) };

    /// The octets of the file at a path, at most `most` of them.
    ///
    /// # Errors
    ///
    /// `Failed`: there is no file that can be read. `TooLong`: it has more than `most` octets; no more than `most`
    /// and one read's buffer are held for that. `NoMemory`: memory was refused.
    fn read(&mut self, alloc: Global, path: &str, most: usize) -> Result<Vec<u8>, FilesFault>
        ensures octets { is_printed self.old ≡ true → Reads most (file self.old path.now) result }
        ensures within { IfOk result (λ octets. vec_len octets ≤ most) }
        ensures same_printed { is_printed self.new ≡ is_printed self.old }
        ensures same_files { file self.new ≡ file self.old };

    /// Writes octets instead of those of the file at a path: all of them, or none.
    ///
    /// # Errors
    ///
    /// `Failed`: the file can't be written, or files of this kind can't be; `NoMemory`: memory was refused. The file is as
    /// it was then.
    fn replace(&mut self, alloc: Global, path: &str, octets: &[u8]) -> Result<(), FilesFault>
        ensures written { OnOk result (is_printed self.old ≡ true → Replaces (file self.old) path.now octets.now (file self.new)) }
        ensures kept { OnErr result (file self.new ≡ file self.old) }
        ensures same_printed { is_printed self.new ≡ is_printed self.old };

    /// Why the file at a path was not read, where the device knows it.
    fn failure(&self, _path: &str) -> Option<ErrorKind> {
        None
    }
}
