//! The command `explain`, from what the words ask for to its output and the exit status. Definitions:
//! `specs/ExplainProgram.antt`.

ghost use Rattle.std.specs.Prelude.{◌≡◌, ◌==◌, ◌≤◌, length, ◌++◌, List, ℕ, Some, false};
ghost use Rattle.h2_cmd_args.specs.Plans.{book_asked, form_asked};
ghost use Rattle.h2_cmd_batch.specs.CommandEnd.{KnowsFile, Prints, PrintsSome};
ghost use Rattle.h2_cmd_batch.specs.Input.{most};
ghost use Rattle.h2_cmd_run.specs.ExplainProgram.{EndsExplain, IsReported, ReportsText, cut_off, explained_after, form_of};

use crate::explain::{ExplainOutcome, explain_text, read_text};
use h2_cmd_args::command::Explain;
use h2_cmd_batch::{
    PrintFault, advise, book_for_words, print_fault_as, say_end, say_memory, write_reason,
};
use h2_cmd_book_file::Files;
use h2_cmd_messages::Reasons;
use h2_explain::Form;
use h2_io::{Input, Output};
use h2_request_book::book::Book;
use std::alloc::Global;

/// Writes what remains to say of an explanation: the fault that ended it. Gives the status: that of how the explanation
/// ended, 1 after a fault, 3 where the output failed.
fn print_explained<O: Output>(
    output: &mut O,
    json: bool,
    ended: Result<ExplainOutcome, PrintFault>,
) -> u8
    requires { O.has_failed output.old ≡ cut_off ended }
    ensures printed { O.has_failed output.new ≡ false → (held text : List ℕ) → O.written output.old ≡ Some (held ++ text)
        → Prints (explained_after json text ended) held (O.written output.new) result }
    ensures kept { O.has_failed output.new ≡ false → O.has_failed output.old ≡ false }
    ensures flag { O.has_failed output.new ≡ (result == 3) }
    ensures name { O.name output.new ≡ O.name output.old }
{
    match ended {
        Ok(outcome) => outcome.status(),
        Err(end) => match end {
            PrintFault::Fault(fault) => print_fault_as(output, json, fault),
            PrintFault::NotWritten => 3,
        },
    }
}

/// Explains a connection over a whole text, and gives the status.
fn print_text<O: Output>(
    alloc: Global,
    plan: &Explain<'_>,
    book: &Book<Global>,
    text: Vec<u8>,
    output: &mut O,
    reasons: &mut Reasons<'_>,
) -> u8
    requires few { length text.items ≤ most }
    requires writer { O.has_failed output.old ≡ false }
    ensures printed { O.has_failed output.new ≡ false
        → PrintsSome (λ t. ReportsText (form_of (form_asked plan.now)) plan.now.raw book.now plan.now.config text.items t)
        (O.written output.old) (O.written output.new) result }
    ensures flag { O.has_failed output.new ≡ (result == 3) }
    ensures name { O.name output.new ≡ O.name output.old }
{
    let form = Form {
        json: plan.json,
        color: plan.color,
        strict: plan.strict,
        full: plan.full,
        brief: plan.brief,
        errors: plan.errors,
        stream: plan.stream,
    };
    let ended = explain_text(
        alloc,
        form,
        plan.raw,
        plan.config,
        book,
        text,
        output,
        reasons,
    );
    say_end(&ended, reasons);
    print_explained(output, plan.json, ended)
}

/// Reads the text of an explanation, and explains it with its book.
fn explain_read<F: Files, I: Input, O: Output>(
    alloc: Global,
    plan: &Explain<'_>,
    book: &Book<Global>,
    files: &mut F,
    input: &mut I,
    output: &mut O,
    reasons: &mut Reasons<'_>,
) -> u8
    requires reader { I.has_failed input.old ≡ false }
    requires writer { O.has_failed output.old ≡ false }
    ensures printed { KnowsFile plan.now.file.now (F.is_printed files.old) → O.has_failed output.new ≡ false
        → PrintsSome (IsReported (form_of (form_asked plan.now)) plan.now.raw (F.file files.old) plan.now.config plan.now.file.now book.now
        (I.remaining input.old) (I.has_failed input.new))
        (O.written output.old) (O.written output.new) result }
    ensures flag { O.has_failed output.new ≡ (result == 3) }
    ensures input { I.name input.new ≡ I.name input.old }
    ensures name { O.name output.new ≡ O.name output.old }
    ensures same_files { F.file files.new ≡ F.file files.old }
{
    match read_text(alloc, plan.file, files, input, reasons) {
        Ok(text) => print_text(alloc, plan, book, text, output, reasons),
        Err(fault) => {
            say_memory(fault, reasons);
            print_fault_as(output, plan.json, fault)
        }
    }
}

/// Makes the book of an explanation, reads its text, and explains it. Why something of that is refused is written to `errors`,
/// and what is strange about the text, where the words do not ask for quiet; but not why a read of the input failed.
pub fn explain_plan<F: Files, I: Input, O: Output, E: Output>(
    alloc: Global,
    plan: &Explain<'_>,
    files: &mut F,
    input: &mut I,
    output: &mut O,
    errors: &mut E,
) -> u8
    requires reader { I.has_failed input.old ≡ false }
    requires writer { O.has_failed output.old ≡ false }
    ensures printed { KnowsFile plan.now.book.file.now (F.is_printed files.old) → KnowsFile plan.now.file.now (F.is_printed files.old)
        → O.has_failed output.new ≡ false
        → EndsExplain (form_of (form_asked plan.now)) plan.now.raw (F.file files.old) plan.now.config plan.now.file.now (book_asked plan.now.book)
        (I.remaining input.old) (I.has_failed input.new) (O.written output.old) (O.written output.new) result }
    ensures flag { O.has_failed output.new ≡ (result == 3) }
    ensures input { I.name input.new ≡ I.name input.old }
    ensures name { O.name output.new ≡ O.name output.old }
    ensures quiet { plan.now.book.why ≡ false → errors.new ≡ errors.old }
    ensures errors { E.name errors.new ≡ E.name errors.old }
    ensures same_files { F.file files.new ≡ F.file files.old }
{
    let book = match book_for_words(alloc, &plan.book, files, errors) {
        Ok(book) => book,
        Err(fault) => return print_fault_as(output, plan.json, fault),
    };
    advise(alloc, plan.config, plan.book.why, errors);
    let mut reasons = Reasons::new(alloc, plan.input);
    let status = explain_read(alloc, plan, &book, files, input, output, &mut reasons);
    write_reason(errors, plan.book.why, reasons.out.finish());
    status
}
