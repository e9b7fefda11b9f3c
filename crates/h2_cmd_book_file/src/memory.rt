//! Files in memory, for tests: a list of paths and octets. Definition: `file_in` of specs/Files.antt.

ghost use Rattle.std.specs.Prelude.{◌≡◌, option_map, true};
ghost use Rattle.h2_cmd_book_file.specs.Files.{file_in};

use crate::files::{Files, FilesFault};
use std::alloc::Global;

/// Files in memory: each a path and its octets. Where two have one path, the first is the file there.
#[derive(Clone, Copy)]
pub struct FilesInMemory<'f> {
    /// The path and the octets of each file.
    pub files: &'f [(&'f str, &'f [u8])],
}

impl<'f> FilesInMemory<'f> {
    /// The octets of the first file with this path.
    fn find(&self, path: &str) -> Option<&'f [u8]>
        ensures { option_map (λ octets. octets.now) result ≡ file_in self.now.files.now path.now }
    {
        for file in self.files {
            let (name, octets) = *file;
            if name == path {
                return Some(octets);
            }
        }
        None
    }
}

impl Files for FilesInMemory<'_> {
    ghost is_printed = { λ _. true };

    ghost file = { λ d. file_in d.files.now };

    fn read(&mut self, alloc: Global, path: &str, most: usize) -> Result<Vec<u8>, FilesFault> {
        let Some(octets) = self.find(path) else {
            return Err(FilesFault::Failed);
        };
        if octets.len() > most {
            return Err(FilesFault::TooLong);
        }
        match octets.to_vec(alloc) {
            Ok(copy) => Ok(copy),
            Err(_) => Err(FilesFault::NoMemory),
        }
    }

    /// They are lent, and so they are not written.
    fn replace(&mut self, _alloc: Global, _path: &str, _octets: &[u8]) -> Result<(), FilesFault> {
        Err(FilesFault::Failed)
    }
}
