//! The book of a page: a line for each answer. Definitions: `specs/Web.antt`.

ghost use Rattle.std.specs.Prelude.{◌≡◌, ◌⊎◌, [], Ok, Err, map, IfOk, IfErr, OnOk};
ghost use Rattle.h2_cmd_play.specs.Books.{book_of};
ghost use Rattle.h2_cmd_play.specs.Faults.{fault_number};
ghost use Rattle.h2_cmd_play.specs.declared.fault.AnswerFault.TheVariants.{NoMemory};
ghost use Rattle.h2_spec.specs.Texts.Script.{lines_of};
ghost use Rattle.h2_page.specs.Web.{answers_said};

use h2_cmd_play::{AnswerFault, add_answer};
use h2_request_book::book::Book;
use std::alloc::{AllocError, Allocator};

/// A line that was refused, from 1, and why.
#[derive(Clone, Copy)]
pub(crate) struct RefusedLine {
    pub line: usize,
    pub fault: AnswerFault,
}

/// The lines of a text, between its line feeds.
fn lines_in<A: Allocator>(alloc: A, text: &[u8]) -> Result<Vec<&[u8], A>, AllocError>
    ensures { IfOk result (λ lines. map (λ l. l.now) lines.items ≡ lines_of text.now) }
{
    text.split(|octet| *octet == b'\n').collect(alloc)
}

/// The lines that say answers: none in a text that is empty.
fn answers_in<A: Allocator>(alloc: A, text: &[u8]) -> Result<Vec<&[u8], A>, AllocError>
    ensures { IfOk result (λ lines. map (λ l. l.now) lines.items ≡ answers_said text.now) }
{
    if text.is_empty() {
        return Ok(Vec::new(alloc));
    }
    lines_in(alloc, text)
}

/// Puts the answers that these lines say last in the book, from the first on; the first that is refused decides.
#[tactic(auto, unfolding(h2_cmd_play::specs::Books::book_of))]
fn add_lines<A: Allocator + Copy>(
    alloc: A,
    book: &mut Book<A>,
    lines: &[&[u8]],
) -> Result<(), RefusedLine>
    ensures ok { OnOk result (book_of book.old (map (λ l. l.now) lines.now) ≡ Ok book.new) }
    ensures err { IfErr result (λ r. (r.fault ≡ NoMemory)
        ⊎ (book_of book.old (map (λ l. l.now) lines.now) ≡ Err (fault_number r.fault))) }
{
    for (before, word) in lines.iter().enumerate() {
        if let Err(fault) = add_answer(alloc, book, word) {
            let line = before + 1;
            return Err(RefusedLine { line, fault });
        }
    }
    Ok(())
}

/// The book of the answers that a text says, a line for each.
pub(crate) fn book_in<A: Allocator + Copy>(alloc: A, text: &[u8]) -> Result<Book<A>, RefusedLine>
    ensures ok { IfOk result (λ book. book_of [] (answers_said text.now) ≡ Ok book) }
    ensures err { IfErr result (λ r. (r.fault ≡ NoMemory)
        ⊎ (book_of [] (answers_said text.now) ≡ Err (fault_number r.fault))) }
{
    let mut book = Book::new(alloc);
    let Ok(lines) = answers_in(alloc, text) else {
        let fault = AnswerFault::NoMemory;
        return Err(RefusedLine { line: 0, fault });
    };
    add_lines(alloc, &mut book, lines.as_slice())?;
    Ok(book)
}
