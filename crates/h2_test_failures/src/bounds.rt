//! Bounds of memory: a connection and a splitter of frames in a heap that is no larger than they need.

use crate::conns::{book_of, config_of, opened, taken};
use crate::line::Call;
use crate::trials::Reply;
use h2_conn::Conn;
use h2_frame::{Item, Outbox, Outgoing, Splitter};
use h2_request_book::book::Book;
use linked_list_allocator::LocalHeap;
use std::alloc::{AllocError, Allocator, Global};

/// Whether a connection takes octets in pieces of 8,000 with the memory that is left, and goes on.
fn takes_all<'b, A: Allocator + Copy, O: Outgoing<'b, A>>(
    conn: &mut Conn<'b, A>,
    octets: &[u8],
    out: &mut O,
) -> bool {
    for piece in octets.chunks(8_000) {
        if taken(conn, piece, out).is_err() {
            return false;
        }
    }
    conn.ended().is_none()
}

/// Whether a connection takes octets with no more memory than the heap's, and goes on.
fn fits_in(heap: &LocalHeap, call: &Call<'_>) -> bool {
    let book = Book::new(heap);
    let mut out = Vec::new(heap);
    match opened(&book, config_of(call), &mut out) {
        Ok(mut conn) => takes_all(&mut conn, call.piece(0), &mut out),
        Err(_) => false,
    }
}

/// Whether a connection takes octets with that much memory; the third number of the line.
pub fn fits(alloc: Global, call: &Call<'_>) -> Result<Reply, AllocError> {
    let heap = LocalHeap::new(alloc, call.size(2))?;
    Ok(Reply {
        text: format!(in alloc; "{}", fits_in(&heap, call))?,
        failed: false,
    })
}

/// Whether a connection takes octets with this book and no more memory than the heap still has, and goes on.
fn takes_with<'b, A: Allocator + Copy, O: Outgoing<'b, A>>(
    book: &'b Book<A>,
    call: &Call<'_>,
    out: &mut O,
) -> bool {
    match opened(book, config_of(call), out) {
        Ok(mut conn) => takes_all(&mut conn, call.piece(0), out),
        Err(_) => false,
    }
}

/// As `fits_in` with the largest book of trials, where what is sent is kept by reference, or where it is copied.
fn sends_in(heap: &LocalHeap, call: &Call<'_>, copies: bool) -> bool {
    let Ok(book) = book_of(heap, 3) else {
        return false;
    };
    if copies {
        takes_with(&book, call, &mut Vec::new(heap))
    } else {
        takes_with(&book, call, &mut Outbox::new(heap))
    }
}

/// Whether a connection takes octets with that much memory, the third number of the line, where bodies are lent by the
/// book, and where they are copied.
pub fn lends(alloc: Global, call: &Call<'_>) -> Result<Reply, AllocError> {
    let heap = LocalHeap::new(alloc, call.size(2))?;
    let lent = sends_in(&heap, call, false);
    let other = LocalHeap::new(alloc, call.size(2))?;
    let copied = sends_in(&other, call, true);
    Ok(Reply {
        text: format!(in alloc; "lent {lent}, copied {copied}")?,
        failed: false,
    })
}

// These have no clause, so that no proof above them carries what a splitter holds.

/// Whether a splitter takes these octets: it may lack memory for them.
fn push(splitter: &mut Splitter<&LocalHeap>, octets: &[u8]) -> bool {
    splitter.push(octets).is_ok()
}

/// The next item, frames of at most 16,384 octets.
fn next<'s>(splitter: &'s mut Splitter<&LocalHeap>) -> Option<Item<'s>> {
    splitter.next(16_384)
}

/// Whether octets are taken, with one item in them.
fn takes(splitter: &mut Splitter<&LocalHeap>, octets: &[u8]) -> bool {
    push(splitter, octets) && next(splitter).is_some()
}

/// Whether a splitter takes the first piece, and then that many times the second.
fn takes_items(splitter: &mut Splitter<&LocalHeap>, call: &Call<'_>) -> bool {
    let mut takes_all = takes(splitter, call.piece(0));
    for _ in 0..call.number(1) {
        takes_all = takes_all && takes(splitter, call.piece(1));
    }
    takes_all
}

/// A splitter that has that many octets of memory and no more takes the first piece, and then that many times the
/// second, with an item in each.
pub fn room(alloc: Global, call: &Call<'_>) -> Result<Reply, AllocError> {
    let heap = LocalHeap::new(alloc, call.size(0))?;
    let mut splitter = Splitter::new(&heap);
    let takes_all = takes_items(&mut splitter, call);
    Ok(Reply {
        text: format!(in alloc; "all taken {takes_all}")?,
        failed: false,
    })
}
