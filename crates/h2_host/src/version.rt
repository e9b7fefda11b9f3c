//! What `--version` prints.

use h2_cmd_args::Words;
use h2_cmd_args::command::{Plan, Refusal};
use std::io::Write;
use std::process::ExitCode;

/// The version of the project, as CHANGELOG.md has it, and the line of the kit that README.md names.
const VERSION: &str = "h2_bench 0.10.0\nrattle-kit-13f logic dac8208d650f15bf\n";

/// Whether words that clap refuses ask for the version, wherever that is: it does not know the word.
pub fn is_asked(words: &Words, asked: &Result<Plan<'_>, Refusal>) -> bool {
    let mut texts = words.as_slice().iter();
    asked.is_err() && texts.any(|word| matches!(word.as_str(), "--version" | "-V"))
}

/// Prints the version.
pub fn print(rt: &HostRuntime) -> ExitCode {
    match rt.stdout().write_all(VERSION.as_bytes()) {
        Ok(()) => ExitCode::from(0),
        Err(_) => ExitCode::from(3),
    }
}
