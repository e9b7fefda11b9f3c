//! Books of answers in TOML files. The definitions are in specs/: `AnswerTable` (one answer), `Contents` (its body), `Entries`
//! (the whole file), `Files` (what a read reports), `Faults` (numbers).
#![tactic(auto)]

mod answer;
mod body;
mod book_file;
mod fault;
mod files;
mod header;
mod line;
mod memory;
mod sentence;
mod standard;
mod table;

pub use book_file::add_book;
pub use fault::{BookFileFault, BookRefusal, Key};
pub use files::{Files, FilesFault};
pub use memory::FilesInMemory;
pub use standard::{StdFiles, read_whole};
