//! Connections that are opened with an allocation refused. The numbers of a line are the most streams, the size of the
//! header table, and which answers the book has.

use crate::conns::{book_of, config_of, opened as opened_conn, place_of};
use crate::heap::Heap;
use crate::line::Call;
use crate::refusing::Refusing;
use crate::shown::Hex;
use crate::trials::Reply;
use h2_conn::ConnFault;
use h2_conn::play::open_and_feed;
use h2_request_book::book::Book;
use std::alloc::{AllocError, Global};

/// Why a connection can't be opened; none where it can.
fn opening_fault<'h>(
    book: &Book<&'h Heap>,
    call: &Call<'_>,
    out: &mut Vec<u8, &'h Heap>,
) -> Option<ConnFault> {
    opened_conn(book, config_of(call), out).err()
}

/// Opens a connection that writes its SETTINGS after the octet 01, in memory that refuses the allocation of number
/// `turn`. Where that was refused, opens it once more, with memory. Says the fault and the octets written, of both.
fn opened_twice<'h>(
    alloc: Global,
    heap: &'h Heap,
    book: &Book<&'h Heap>,
    call: &Call<'_>,
    turn: u64,
) -> Result<Reply, AllocError> {
    let mut out = Vec::from_slice(heap, b"\x01")?;
    heap.refuse(turn);
    let first = opening_fault(book, call, &mut out);
    let failed = heap.has_refused();
    let mut text = format!(in alloc; "{first:?} {}", Hex(out.as_slice()))?;
    if failed {
        let second = opening_fault(book, call, &mut out);
        write!(text, ", then {second:?} {}", Hex(out.as_slice()))?;
    }
    Ok(Reply { text, failed })
}

/// Opens a connection in memory that refuses the allocation of number `turn`, from 1; at 0 it refuses none.
pub fn opened(alloc: Global, call: &Call<'_>, turn: u64) -> Result<Reply, AllocError> {
    let heap = Refusing::new(alloc, 0);
    let book = Book::new(&heap);
    opened_twice(alloc, &heap, &book, call, turn)
}

/// What a program prints of a connection that was opened and fed: what was sent, and its state.
fn played_text<'h>(
    alloc: Global,
    book: &Book<&'h Heap>,
    call: &Call<'_>,
    out: &mut Vec<u8, &'h Heap>,
) -> Result<String, AllocError> {
    match open_and_feed(book, config_of(call), call.piece(0), &[], out) {
        Ok(conn) => place_of(alloc, &conn, out.as_slice()),
        Err(fault) => format!(in alloc; "{fault:?}, {} octets sent", out.len()),
    }
}

/// What a program prints of such a connection with an allocation refused.
fn played_over<'h>(
    alloc: Global,
    heap: &'h Heap,
    book: &Book<&'h Heap>,
    call: &Call<'_>,
    turn: u64,
) -> Result<Reply, AllocError> {
    let mut out = Vec::new(heap);
    heap.refuse(turn);
    let text = played_text(alloc, book, call, &mut out)?;
    Ok(Reply {
        text,
        failed: heap.has_refused(),
    })
}

/// Opens a connection and feeds it the first piece, with an allocation refused.
pub fn played(alloc: Global, call: &Call<'_>, turn: u64) -> Result<Reply, AllocError> {
    let heap = Refusing::new(alloc, 0);
    let book = book_of(&heap, call.number(2))?;
    played_over(alloc, &heap, &book, call, turn)
}
