//! What does the commands. The program gives h2_cmd_run; nothing here knows what a command prints.

ghost use Rattle.std.specs.Prelude.{◌≡◌, false};

use crate::ending::Ending;
use h2_cmd_args::command::{Against, Debug, Plan, Refusal, Serve};
use h2_cmd_book_file::Files;
use h2_io::{Input, Output};
use std::alloc::Global;
use std::io::Write;

/// What does the commands that words ask for.
pub trait Commands {
    /// Does what was asked for over an input, unless that is to serve, and gives the exit status. Why an entry of the book
    /// is refused is written to `errors`, and nothing else.
    fn carry_out<F: Files, I: Input, O: Output, E: Output>(
        &self,
        alloc: Global,
        asked: &Result<Plan<'_>, Refusal>,
        files: &mut F,
        input: &mut I,
        output: &mut O,
        errors: &mut E,
    ) -> u8
        requires reader { I.has_failed input.old ≡ false }
        requires writer { O.has_failed output.old ≡ false };

    /// Does what `carry_out` does of a session, over the octets of a text, which has them as they are where it is raw, else
    /// as hex: all lines of the input are commands. Why it has none is written to `errors`, and what is strange about them.
    fn debug_over<F: Files, I: Input, O: Output, E: Output>(
        &self,
        alloc: Global,
        debug: &Debug<'_>,
        raw: bool,
        text: Vec<u8>,
        files: &mut F,
        input: &mut I,
        output: &mut O,
        errors: &mut E,
    ) -> u8
        requires reader { I.has_failed input.old ≡ false }
        requires writer { O.has_failed output.old ≡ false };

    /// Serves, as the words ask for.
    fn serve<W: Write>(&self, rt: &HostRuntime, plan: &Serve<'_>, output: &mut W) -> Ending;

    /// Judges a server, as the words ask for.
    fn against<W: Write>(&self, rt: &HostRuntime, plan: &Against<'_>, output: &mut W) -> Ending;
}
