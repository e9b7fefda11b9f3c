//! A book of answers that words say. Definitions: `specs/Books.antt`.

ghost use Rattle.std.specs.Prelude.{◌≡◌, ◌⊎◌, Ok, Err, IfErr, OnOk};
ghost use Rattle.h2_request_book.specs.Fault as book;
ghost use Rattle.h2_request_book.specs.declared.fault.BookFault.TheVariants as books;
ghost use Rattle.h2_cmd_play.specs.Books.{with_answer};
ghost use Rattle.h2_cmd_play.specs.Faults.{fault_number};
ghost use Rattle.h2_cmd_play.specs.declared.fault.AnswerFault.TheVariants.{NoMemory};

use crate::answer::parse_answer;
use crate::fault::AnswerFault;
use h2_request_book::book::Book;
use h2_request_book::fault::BookFault;
use std::alloc::Allocator;

/// What a book refused, as a fault of this crate.
fn refused_by(fault: BookFault) -> AnswerFault
    ensures number { fault_number result ≡ book.fault_number fault }
    ensures memory { fault ≡ books.NoMemory → result ≡ NoMemory }
{
    match fault {
        BookFault::NoMemory => AnswerFault::NoMemory,
        BookFault::BadEntry(fault) => AnswerFault::BadEntry(fault),
    }
}

/// Puts the entry that a word says last in the book.
///
/// # Errors
///
/// `BadAnswer` where the word says no answer, `BadEntry` where the book refuses it; `NoMemory` may come instead.
#[tactic(auto, unfolding(crate::specs::Books::with_answer))]
pub fn add_answer<A: Allocator + Copy>(
    alloc: A,
    book: &mut Book<A>,
    word: &[u8],
) -> Result<(), AnswerFault>
    ensures ok { OnOk result (with_answer book.old word.now ≡ Ok book.new) }
    ensures err { IfErr result (λ fault. (fault ≡ NoMemory)
        ⊎ (with_answer book.old word.now ≡ Err (fault_number fault))) }
{
    let entry = parse_answer(alloc, word)?;
    match book.add(entry) {
        Ok(()) => Ok(()),
        Err(fault) => Err(refused_by(fault)),
    }
}
