//! The answers of the command line, with the faults of its commands. Definitions: `h2_spec/specs/Requests/AnswerWords.antt`
//! (`entry_of`), and `specs/Answers.antt`.

ghost use Rattle.std.specs.Prelude.{◌≡◌, Some, IfOk, IfErr};
ghost use Rattle.h2_spec.specs.Requests.AnswerWords as words;
ghost use Rattle.h2_cmd_batch.specs.Answers.{fault_told, refusal_of};

use crate::fault::BenchFault;
use h2_cmd_play::AnswerFault;
use h2_request_book::book::Entry;
use std::alloc::Global;

/// Why words are refused, as a fault of this crate.
pub(crate) fn told(fault: AnswerFault) -> BenchFault
    ensures { result ≡ fault_told fault }
{
    match fault {
        AnswerFault::NoMemory => BenchFault::NoMemory,
        AnswerFault::BadAnswer => BenchFault::BadAnswer,
        AnswerFault::BadEntry(fault) => BenchFault::BadEntry(fault),
    }
}

/// The entry of the book that the words say: METHOD|PATH|STATUS|BODYHEX|NAME=VALUE|..
///
/// METHOD and PATH are any octets but a bar, STATUS three decimal digits, BODYHEX pairs of hex digits in either case
/// or nothing. Each further part is a field, cut at its first `=`, or the word `early`, at most once and in any place,
/// which makes the answer early. Whether a book takes the entry is reported by `Book::add` alone.
///
/// # Errors
///
/// `BadAnswer` where the words say no entry, which is found before memory is needed; `NoMemory` where they say one
/// and memory is refused.
pub fn parse_answer(alloc: Global, text: &str) -> Result<Entry<Global>, BenchFault>
    ensures said { IfOk result (λ entry. words.entry_of text.now ≡ Some entry) }
    ensures refused { IfErr result (λ fault. fault ≡ refusal_of (words.entry_of text.now)) }
{
    match h2_cmd_play::parse_answer(alloc, text.as_bytes()) {
        Ok(entry) => Ok(entry),
        Err(fault) => Err(told(fault)),
    }
}
