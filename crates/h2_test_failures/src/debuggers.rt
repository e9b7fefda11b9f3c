//! Debuggers whose load and moves have an allocation refused.

use crate::ask::asked as asked_of;
use crate::conns::{book_of, place_of};
use crate::heap::Heap;
use crate::line::Call;
use crate::refusing::Refusing;
use crate::trials::Reply;
use h2_debug::{DebugFault, Debugger};
use h2_request_book::book::Book;
use h2_spec::connection::Config;
use std::alloc::{AllocError, Global};

/// What a session leaves.
#[derive(Drop)]
struct Session {
    /// What was answered to each question, or to the one whose memory was refused.
    text: String,
    position: usize,
    /// What is shown there.
    place: String,
    /// Whether an allocation was refused.
    failed: bool,
}

/// What is shown at a position: the octets sent, and the state.
fn shown(alloc: Global, debugger: &Debugger<'_, &Heap>) -> Result<String, AllocError> {
    place_of(alloc, debugger.conn(), debugger.sent())
}

/// A position, what is shown there, and how many items were run again.
fn seen(alloc: Global, debugger: &Debugger<'_, &Heap>) -> Result<String, AllocError> {
    let shown = shown(alloc, debugger)?;
    format!(in alloc; "{} {} {shown}", debugger.pos(), debugger.replayed())
}

/// Asks once more where memory was refused, and says whether the refusal changed anything.
fn asked_again<'h>(
    alloc: Global,
    heap: &'h Heap,
    debugger: &mut Debugger<'_, &'h Heap>,
    word: &str,
    before: &str,
) -> Result<String, AllocError> {
    heap.refuse(0);
    let same = seen(alloc, debugger)?.as_str() == before;
    let again = asked_of(debugger, word);
    format!(in alloc;
        ", unchanged {same}, then {again:?} {}",
        debugger.replayed()
    )
}

/// Asks, with the answer as text; whether memory was refused.
fn one<'h>(
    alloc: Global,
    heap: &'h Heap,
    debugger: &mut Debugger<'_, &'h Heap>,
    word: &str,
    session: &mut Session,
) -> Result<(), AllocError> {
    let before = seen(alloc, debugger)?;
    let answer = asked_of(debugger, word);
    if !heap.has_refused() {
        return write!(session.text, "{word} {answer:?} {}; ", debugger.replayed());
    }
    session.failed = true;
    session.text.clear();
    let again = asked_again(alloc, heap, debugger, word, before.as_str())?;
    write!(session.text, "{word} {answer:?}{again}; ")
}

/// Asks one thing after another, up to the one whose memory is refused.
fn follow<'h>(
    alloc: Global,
    heap: &'h Heap,
    debugger: &mut Debugger<'_, &'h Heap>,
    asks: &[&str],
    session: &mut Session,
) -> Result<(), AllocError> {
    for word in asks {
        one(alloc, heap, debugger, *word, session)?;
        if session.failed {
            break;
        }
    }
    session.position = debugger.pos();
    session.place.push_str(shown(alloc, debugger)?.as_str())
}

/// What a debugger answers to these commands, one after another.
fn followed<'h>(
    alloc: Global,
    heap: &'h Heap,
    debugger: &mut Debugger<'_, &'h Heap>,
    asks: &[&str],
) -> Result<Session, DebugFault> {
    let mut session = Session {
        text: String::new(alloc),
        position: 0,
        place: String::new(alloc),
        failed: false,
    };
    follow(alloc, heap, debugger, asks, &mut session)?;
    Ok(session)
}

/// A session over octets, with an allocation refused from the load on.
fn over_book<'h>(
    alloc: Global,
    heap: &'h Heap,
    book: &Book<&'h Heap>,
    octets: Vec<u8, &'h Heap>,
    asks: &[&str],
    turn: u64,
) -> Result<Session, DebugFault> {
    heap.refuse(turn);
    let mut debugger = Debugger::load(book, Config::new(100, 32768), octets)?;
    followed(alloc, heap, &mut debugger, asks)
}

/// A session over octets that a heap holds, which refuses the allocation of this number.
fn held_session(
    alloc: Global,
    heap: &Heap,
    octets: &[u8],
    asks: &[&str],
    turn: u64,
) -> Result<Session, DebugFault> {
    let book = book_of(heap, 2)?;
    let octets = Vec::from_slice(heap, octets)?;
    over_book(alloc, heap, &book, octets, asks, turn)
}

/// What a new debugger shows at a position.
fn new_place(alloc: Global, octets: &[u8], position: usize) -> Result<String, DebugFault> {
    let heap = Refusing::new(alloc, 0);
    let word = format!(in alloc; "go={position}")?;
    let session = held_session(alloc, &heap, octets, &[word.as_str()], 0)?;
    Ok(session.place)
}

/// Whether a session ends with what a new debugger shows there.
fn is_as_new(alloc: Global, octets: &[u8], session: &Session) -> bool {
    match new_place(alloc, octets, session.position) {
        Ok(place) => place.as_str() == session.place.as_str(),
        Err(_) => false,
    }
}

/// Asks a debugger over the first piece all questions, with an allocation refused from its load on.
pub fn asked(alloc: Global, call: &Call<'_>, turn: u64) -> Result<Reply, AllocError> {
    let heap = Refusing::new(alloc, 0);
    match held_session(alloc, &heap, call.piece(0), call.asks(), turn) {
        Ok(session) => Ok(Reply {
            text: format!(in alloc;
                "{}as a new one shows {}",
                session.text,
                is_as_new(alloc, call.piece(0), &session)
            )?,
            failed: session.failed,
        }),
        Err(fault) => Ok(Reply {
            text: format!(in alloc; "load {fault:?}")?,
            failed: heap.has_refused(),
        }),
    }
}
