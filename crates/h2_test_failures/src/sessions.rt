//! Sessions of `debug` over devices that fail. The number of a line is how many octets a read gives at most; its text
//! is the input.

ghost use Rattle.std.specs.Prelude.{◌≡◌, false};

use crate::devices::{Limited, Pieces};
use crate::line::Call;
use crate::trials::Reply;
use h2_debug::debug_session;
use h2_request_book::book::Book;
use h2_spec::connection::Config;
use std::alloc::{AllocError, Global};
use std::cell::Cell;
use std::str;

/// Runs the session of a line. `verb` says what fails: a read, or a call of the output. It is that of number `turn`, from
/// 1; at 0 none fails.
pub fn tried(alloc: Global, verb: &str, call: &Call<'_>, turn: u64) -> Result<Reply, AllocError> {
    match verb {
        "read" => over(alloc, call, turn, 0),
        "write" => over(alloc, call, 0, turn),
        _ => Err(AllocError),
    }
}

// This has no clause but what it needs, so that no proof above it carries the session.
/// The exit status of a session over these devices.
fn status_of(alloc: Global, input: &mut Pieces<'_>, output: &mut Limited<'_>) -> u8
    requires input { input.old.failed ≡ false }
    requires output { output.old.failed ≡ false }
{
    let book = Book::new(alloc);
    debug_session(alloc, &book, Config::new(100, 32768), input, output)
}

/// A session whose read or call of the output with this number fails; 0 where none fails.
fn over(alloc: Global, call: &Call<'_>, reads: u64, calls: u64) -> Result<Reply, AllocError> {
    let held_back = Cell::new(false);
    let mut input = Pieces {
        octets: call.text(),
        size: call.size(0),
        reads,
        held_back: &held_back,
        failed: false,
    };
    let mut output = Limited::new(alloc, calls, &held_back);
    let status = status_of(alloc, &mut input, &mut output);
    let printed = str::from_utf8(output.octets.as_slice()).unwrap_or("no text");
    Ok(Reply {
        text: format!(in alloc; "status {status}, printed {printed:?}")?,
        failed: input.failed || output.failed,
    })
}
