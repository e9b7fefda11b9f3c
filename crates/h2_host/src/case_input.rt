//! A case as the input of `explain` and `debug --in FILE`: the words of its lines `;@` come after those of the command,
//! and the octets of its script are the input. Those of a dump with offsets are the input too.

use crate::devices::files::STANDARD_INPUT;
use crate::devices::input::read_file;
use crate::dump_input::hex_of_dump;
use h2_cmd_args::Words;
use h2_cmd_args::command::{Devices, Plan, Refusal};
use h2_cmd_cases::{ShellFault, add_case_words, idle_place};
use h2_cmd_messages::has_offsets;
use h2_io::MAX_INPUT;
use h2_script::{ScriptFault, assemble};
use std::alloc::{AllocError, Global};
use std::fs::Files;
use std::io::{ErrorKind, Write};
use std::path::{Path, PathBuf};
use std::str;

/// What a case gives a command, or a dump, or what can be read only once.
#[derive(Drop)]
pub struct CaseInput {
    /// The words of the command, and after them those of the case.
    pub words: Words,
    /// The octets of its script; of a dump, as hex; of what is neither what it had, or why it can't be read.
    pub text: Result<Vec<u8>, ErrorKind>,
    /// Whether these are the octets themselves.
    pub raw: bool,
    /// Why it is refused, if it is.
    pub refusal: Option<String>,
}

/// The path of a file whose octets a command reads, and that may be a case, standard input for `explain` without one; empty where
/// there is none.
pub(crate) fn path_of<'w>(asked: &Result<Plan<'w>, Refusal>, devices: Devices<'w>) -> &'w str {
    match asked {
        _ if devices.raw => "",
        Ok(Plan::Explain(explain)) if explain.file != "" => explain.file,
        Ok(Plan::Explain(_)) if devices.file == "" => STANDARD_INPUT,
        Ok(Plan::Explain(_)) => devices.file,
        Ok(Plan::Debug(_)) => devices.file,
        _ => "",
    }
}

/// The path of a book that a case names, which starts from the directory of the case.
fn book_place(alloc: Global, case: &str, book: &str) -> Result<PathBuf, AllocError> {
    match Path::new(case).parent() {
        Some(directory) => directory.join(alloc, book),
        None => Path::new("").join(alloc, book),
    }
}

/// Appends the words of a case to those of a command.
fn add_all(
    alloc: Global,
    case: &str,
    case_words: &Words,
    words: &mut Words,
) -> Result<(), AllocError> {
    let mut names_book = false;
    for word in case_words.as_slice() {
        if names_book {
            words.add(book_place(alloc, case, word)?.as_str())?;
        } else if let Some(book) = word.strip_prefix("--book=") {
            words.add("--book")?;
            words.add(book_place(alloc, case, book)?.as_str())?;
        } else {
            words.add(word)?;
        }
        names_book = !names_book && word.as_str() == "--book";
    }
    Ok(())
}

/// The words of a command, and after them those of a case; `None` where a quote in the case is not closed.
fn words_with(
    alloc: Global,
    words: &Words,
    path: &str,
    lines: &[&[u8]],
) -> Result<Option<Words>, AllocError> {
    let mut case_words = Words::new(alloc);
    match add_case_words(alloc, lines, &mut case_words) {
        Ok(()) => {}
        Err(ShellFault::NoMemory) => return Err(AllocError),
        Err(ShellFault::Open) => return Ok(None),
    }
    let mut all = copy_of(alloc, words)?;
    add_all(alloc, path, &case_words, &mut all)?;
    Ok(Some(all))
}

/// A copy of words.
fn copy_of(alloc: Global, words: &Words) -> Result<Words, AllocError> {
    let mut copy = Words::new(alloc);
    for word in words.as_slice() {
        copy.add(word)?;
    }
    Ok(copy)
}

/// Whether a text is one case. Hex does not begin with a comment.
fn is_case(text: &str) -> bool {
    text.starts_with(';') && text.lines().filter(|line| line.starts_with(";# ")).count() < 2
}

/// Why a case is refused that has a word without effect, if it has one.
fn refusal_of_idle(
    alloc: Global,
    path: &str,
    lines: &[&[u8]],
) -> Result<Option<String>, AllocError> {
    let Some(before) = idle_place(alloc, lines)? else {
        return Ok(None);
    };
    let line = before.saturating_add(1);
    let text = format!(in alloc;
        "error: {path}, line {line}: --in, --raw, --prompt and --quiet have no effect in a case\n"
    )?;
    Ok(Some(text))
}

/// What these octets of a file give a command, where they are a case that can be read.
fn case_in(
    rt: &HostRuntime,
    words: &Words,
    path: &str,
    octets: &[u8],
) -> Result<Option<CaseInput>, AllocError> {
    let Ok(text) = str::from_utf8(octets) else {
        return Ok(None);
    };
    if !is_case(text) {
        return Ok(None);
    }
    let script = match assemble(rt.alloc(), text) {
        Ok(script) => script,
        Err(ScriptFault::NoMemory) => return Err(AllocError),
        Err(_) => return Ok(None),
    };
    let alloc = rt.alloc();
    let mut all = Vec::new(alloc);
    for line in text.split('\n') {
        all.push(line.as_bytes())?;
    }
    let lines = all.as_slice();
    let (words, refusal) = match words_with(alloc, words, path, lines)? {
        Some(words) => (words, refusal_of_idle(alloc, path, lines)?),
        None => (
            copy_of(alloc, words)?,
            Some(format!(in alloc; "error: {path}: a quote in its lines ;@ is not closed\n")?),
        ),
    };
    Ok(Some(CaseInput {
        words,
        text: Ok(script),
        raw: true,
        refusal,
    }))
}

/// Whether a file can be read twice: a pipe can't be.
fn is_lasting(rt: &HostRuntime, path: &str) -> bool {
    match rt.metadata(path) {
        Ok(about) => about.is_file(),
        Err(_) => false,
    }
}

/// The sentence about a dump whose octets were read.
const READ_AS_DUMP: &str =
    "a dump with offsets: its octets were read, without the offsets and the text beside them.\n";

/// The octets of a file that is a dump, as hex, and says so.
fn dump_in(rt: &HostRuntime, octets: &[u8], is_quiet: bool) -> Result<Option<Vec<u8>>, AllocError> {
    let Ok(text) = str::from_utf8(octets) else {
        return Ok(None);
    };
    let hex = hex_of_dump(rt.alloc(), text)?;
    if hex.is_some() && !is_quiet {
        let _ = rt.stderr().write_all(READ_AS_DUMP.as_bytes());
    }
    Ok(hex)
}

/// What a text gives a command that is no case.
fn no_case(
    rt: &HostRuntime,
    words: &Words,
    text: Result<Vec<u8>, ErrorKind>,
) -> Result<Option<CaseInput>, AllocError> {
    Ok(Some(CaseInput {
        words: copy_of(rt.alloc(), words)?,
        text,
        raw: false,
        refusal: None,
    }))
}

/// What a file gives a command, where it is a case that can be read, or a dump; and of a pipe or standard input what it had,
/// since that can't be read again.
fn case_at(
    rt: &HostRuntime,
    words: &Words,
    path: &str,
    is_quiet: bool,
) -> Result<Option<CaseInput>, AllocError> {
    let octets = match read_file(rt, path, MAX_INPUT) {
        Ok(octets) => octets,
        Err(ErrorKind::OutOfMemory) => return Err(AllocError),
        Err(ErrorKind::FileTooLarge) => return no_case(rt, words, Err(ErrorKind::FileTooLarge)),
        Err(_) => return Ok(None),
    };
    let case = case_in(rt, words, path, octets.as_slice())?;
    if case.is_some() {
        return Ok(case);
    }
    let text = match dump_in(rt, octets.as_slice(), is_quiet)? {
        Some(hex) => hex,
        None if !has_offsets(octets.as_slice()) && is_lasting(rt, path) => return Ok(None),
        None => octets,
    };
    no_case(rt, words, Ok(text))
}

/// What a case gives a command, where its file is one, or a dump. Where memory for that is refused, the words are refused for
/// it.
pub fn case_input<'w>(
    rt: &HostRuntime,
    words: &Words,
    asked: &mut Result<Plan<'w>, Refusal>,
    devices: Devices<'w>,
) -> Option<CaseInput> {
    let path = path_of(asked, devices);
    if path.is_empty() {
        return None;
    }
    match case_at(rt, words, path, devices.quiet) {
        Ok(case) => case,
        Err(_) => {
            *asked = Err(Refusal::NoMemory);
            None
        }
    }
}
