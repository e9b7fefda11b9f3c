//! A connection that stays between calls, from the words of a command line. Definitions: `specs/Kept.antt`.

ghost use Rattle.std.specs.Prelude.{◌≡◌, ◌⊎◌, Ok, Err, true, IfOk, IfErr};
ghost use Rattle.h2_cmd_args.specs.Grammar.{asked_of, explain};
ghost use Rattle.h2_cmd_args.specs.Plans.{book_asked, form_asked};
ghost use Rattle.h2_cmd_batch.specs.Books.{book_said};
ghost use Rattle.h2_cmd_run.specs.ExplainProgram.{form_of};
ghost use Rattle.h2_spec.specs.Requests.Answer.{Entry};
ghost use Rattle.h2_spec.specs.State.{is_allowed};
ghost use Rattle.h2_embed.specs.Embed.{IsRefusedFor, one_file, words_said};
ghost use Rattle.h2_embed.specs.Kept.{IsReady, IsUnopened, IsUnopenedBy, OpensBy, OpensNone, OpensSaid, OpensWith};
ghost use Rattle.h2_embed.specs.declared.fault.RunFault.TheVariants.{NoConnection, NoMemory};

use crate::fault::RunFault;
use crate::kept::KeptConnection;
use crate::words::{WordsFault, words_in};
use h2_cmd_args::Words;
use h2_cmd_args::command::{BookWords, Explain, Plan, Refusal, parse};
use h2_cmd_batch::book_for_words;
use h2_cmd_book_file::FilesInMemory;
use h2_explain::Form;
use h2_io::Gathered;
use h2_request_book::book::Book;
use h2_spec::connection::Config;
use std::alloc::Global;
use std::str;

/// The form that the words ask for.
fn form_of(plan: &Explain<'_>) -> Form
    ensures { result ≡ form_of (form_asked plan.now) }
{
    Form {
        json: plan.json,
        color: plan.color,
        strict: plan.strict,
        full: plan.full,
        brief: plan.brief,
        errors: plan.errors,
        stream: plan.stream,
    }
}

/// The book of the words; `NoConnection` where it is refused.
fn book_of_words(
    alloc: Global,
    words: &BookWords<'_>,
    name: &str,
    file: &[u8],
) -> Result<Book<Global>, RunFault>
    ensures ok { IfOk result (λ book. book_said (one_file name.now file.now) (book_asked words.now) ≡ Ok book) }
    ensures err { IfErr result (λ fault. (fault ≡ NoMemory)
        ⊎ ((fault ≡ NoConnection) × OpensNone true (book_said (one_file name.now file.now) (book_asked words.now)))) }
{
    let mut files = FilesInMemory {
        files: &[(name, file)],
    };
    let mut nowhere = Gathered::new(alloc);
    match book_for_words(alloc, words, &mut files, &mut nowhere) {
        Ok(book) => Ok(book),
        Err(fault) => {
            if fault.number() == 0 {
                Err(RunFault::NoMemory)
            } else {
                Err(RunFault::NoConnection)
            }
        }
    }
}

/// A connection with this book; `NoMemory` where memory is refused.
fn open_with(
    alloc: Global,
    book: Book<Global>,
    config: Config,
    form: Form,
) -> Result<Box<KeptConnection>, RunFault>
    requires allowed { is_allowed config ≡ true }
    ensures ok { IfOk result (λ kept. IsReady kept.value × OpensWith form config (Ok book) kept.value) }
    ensures err { IfErr result (λ fault. fault ≡ NoMemory) }
{
    let Ok(kept) = KeptConnection::new(alloc, book, config, form) else {
        return Err(RunFault::NoMemory);
    };
    match Box::new(alloc, kept) {
        Ok(kept) => Ok(kept),
        Err(_) => Err(RunFault::NoMemory),
    }
}

/// A connection as `explain` has it; `NoConnection` where a limit or a setting is outside its range, or the book is refused.
fn open_plan(
    alloc: Global,
    plan: &Explain<'_>,
    name: &str,
    file: &[u8],
) -> Result<Box<KeptConnection>, RunFault>
    ensures ok { IfOk result (λ kept. IsReady kept.value
        × OpensWith (form_of (form_asked plan.now)) plan.now.config (book_said (one_file name.now file.now) (book_asked plan.now.book)) kept.value) }
    ensures err { IfErr result (λ fault. (fault ≡ NoMemory) ⊎ ((fault ≡ NoConnection)
        × OpensNone (is_allowed plan.now.config) (book_said (one_file name.now file.now) (book_asked plan.now.book)))) }
{
    if !plan.config.is_allowed() {
        return Err(RunFault::NoConnection);
    }
    let book = book_of_words(alloc, &plan.book, name, file)?;
    open_with(alloc, book, plan.config, form_of(plan))
}

/// A connection by the words of `explain`; `NoConnection` where these are others.
fn open_words(
    alloc: Global,
    words: &Words,
    name: &str,
    file: &[u8],
) -> Result<Box<KeptConnection>, RunFault>
    ensures ok { IfOk result (λ kept. IsReady kept.value × OpensBy (asked_of words.now) (one_file name.now file.now) kept.value) }
    ensures err { IfErr result (IsUnopenedBy (asked_of words.now) (one_file name.now file.now)) }
{
    match parse(alloc, words) {
        Ok(Plan::Explain(plan)) => open_plan(alloc, &plan, name, file),
        Ok(Plan::Batch(_)) => Err(RunFault::NoConnection),
        Ok(Plan::Debug(_)) => Err(RunFault::NoConnection),
        Ok(Plan::Serve(_)) => Err(RunFault::NoConnection),
        Ok(Plan::Check(_)) => Err(RunFault::NoConnection),
        Ok(Plan::Against(_)) => Err(RunFault::NoConnection),
        Err(Refusal::Words(_)) => Err(RunFault::NoConnection),
        Err(Refusal::NoMemory) => Err(RunFault::NoMemory),
    }
}

/// A connection by the words that a text says.
pub(crate) fn open_lines(
    alloc: Global,
    lines: &[u8],
    name: &[u8],
    file: &[u8],
) -> Result<Box<KeptConnection>, RunFault>
    ensures ok { IfOk result (λ kept. IsReady kept.value × OpensSaid (words_said lines.now) (one_file name.now file.now) kept.value) }
    ensures err { IfErr result (IsUnopened lines.now name.now file.now) }
{
    let Ok(path) = str::from_utf8(name) else {
        return Err(RunFault::NoText);
    };
    match words_in(alloc, lines) {
        Ok(words) => open_words(alloc, &words, path, file),
        Err(WordsFault::NoMemory) => Err(RunFault::NoMemory),
        Err(WordsFault::NoText) => Err(RunFault::NoText),
    }
}
