//! Commands over memory: words, a file and an input, and all that is printed for them. The words are after ` : `. Where
//! a line has a word `file=NAME`, the text is what that file holds, and the input is the first piece in hex; elsewhere
//! the input is that of `programs`.

use crate::line::Call;
use crate::programs::{input_of, words_of};
use crate::trials::Reply;
use h2_cmd_run::{Ran, Words, run_in_memory};
use std::alloc::{AllocError, Global};
use std::str;

/// The name of the file that a line has.
fn file_name<'l>(call: &Call<'l>) -> Option<&'l str> {
    for ask in call.asks() {
        if let Some(name) = (*ask).strip_prefix("file=") {
            return Some(name);
        }
    }
    None
}

// This has no clause, so that no proof above it carries what a command prints.
/// What a command prints over these files and this input.
fn printed_by(
    alloc: Global,
    words: &Words,
    files: &[(&str, &[u8])],
    input: &[u8],
) -> Result<Ran, AllocError> {
    run_in_memory(alloc, words, files, input)
}

/// A command without files; its input is the one that the line gives.
fn without_files(alloc: Global, call: &Call<'_>, words: &Words) -> Result<Ran, AllocError> {
    let input = input_of(alloc, call)?;
    printed_by(alloc, words, &[], input.as_slice())
}

/// A command with one file, the text of the line; its input is the first piece, in hex.
fn with_file(alloc: Global, call: &Call<'_>, words: &Words, name: &str) -> Result<Ran, AllocError> {
    let input = hex::encode(alloc, call.piece(0))?;
    printed_by(alloc, words, &[(name, call.text())], input.as_bytes())
}

/// A command with the file that its words name, if they name one.
fn over_words(alloc: Global, call: &Call<'_>, words: &Words) -> Result<Ran, AllocError> {
    match file_name(call) {
        None => without_files(alloc, call, words),
        Some(name) => with_file(alloc, call, words, name),
    }
}

/// The status, what was printed and the reason, in a line.
fn text_of(alloc: Global, ran: &Ran) -> Result<String, AllocError> {
    let printed = str::from_utf8(ran.output.as_slice()).unwrap_or("no text");
    let reason = str::from_utf8(ran.reason.as_slice()).unwrap_or("no text");
    format!(in alloc;
        "status {}, printed {printed:?}, reason {reason:?}",
        ran.status
    )
}

/// What a command prints, whole, and its status.
pub fn ran(alloc: Global, call: &Call<'_>) -> Result<Reply, AllocError> {
    let words = words_of(alloc, call)?;
    let ran = over_words(alloc, call, &words)?;
    Ok(Reply {
        text: text_of(alloc, &ran)?,
        failed: false,
    })
}
