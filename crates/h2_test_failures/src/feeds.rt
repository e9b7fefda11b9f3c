//! Connections that are fed and copied with an allocation refused.
//! The numbers of a line are the most streams, the size of the header table, and which answers the book has; its
//! pieces are the items of a run.

use crate::conns::{book_of, config_of, opened, place_of, taken};
use crate::drives::{self, Failing};
use crate::heap::Heap;
use crate::line::Call;
use crate::refusing::Refusing;
use crate::shown::HexOrNone;
use crate::trials::Reply;
use h2_conn::{Conn, ConnFault};
use h2_request_book::book::Book;
use std::alloc::{AllocError, Global};

/// What is done with a new connection.
#[derive(Clone, Copy)]
pub enum Way {
    /// Feeds it all pieces in one.
    Feed,
    /// Feeds it each piece, and shows what is sent for it.
    Items,
    /// Feeds it that many first pieces with nothing refused.
    Place(usize),
    /// Copies it inside the last item.
    Copy,
    /// Drives it over a wire.
    Drive(Failing),
}

/// What a trial of a connection leaves.
#[derive(Drop)]
pub struct Left {
    pub text: String,
    /// What was sent, and the state.
    pub place: String,
    /// Whether the failure that was asked for came.
    pub failed: bool,
}

/// Whether a connection is at a place.
fn is_at(
    alloc: Global,
    conn: &Conn<'_, &Heap>,
    sent: &[u8],
    place: &str,
) -> Result<bool, AllocError> {
    let found = place_of(alloc, conn, sent)?;
    Ok(found.as_str() == place)
}

/// A PING.
const PING: &[u8] = b"\x00\x00\x08\x06\x00\x00\x00\x00\x00debugger";

/// What a feed was refused with, what a PING after it is answered, and whether that changes nothing.
fn later<'h>(
    alloc: Global,
    conn: &mut Conn<'_, &'h Heap>,
    out: &mut Vec<u8, &'h Heap>,
    fault: ConnFault,
    place: &str,
) -> Result<String, AllocError> {
    let failed = conn.failed();
    let later = taken(conn, PING, out);
    let same = is_at(alloc, conn, out.as_slice(), place)?;
    format!(in alloc; "{fault:?}, failed {failed}; a PING then {later:?}, unchanged {same}")
}

/// What a feed returned.
fn feed_text<'h>(
    alloc: Global,
    conn: &mut Conn<'_, &'h Heap>,
    out: &mut Vec<u8, &'h Heap>,
    answer: Result<usize, ConnFault>,
    place: &str,
) -> Result<String, AllocError> {
    match answer {
        Ok(count) => format!(in alloc; "{count} items"),
        Err(fault) => later(alloc, conn, out, fault, place),
    }
}

/// Feeds all octets at once, where the allocation of number `turn` is refused, from 1; at 0 none is.
fn feed<'h>(
    alloc: Global,
    heap: &'h Heap,
    conn: &mut Conn<'_, &'h Heap>,
    out: &mut Vec<u8, &'h Heap>,
    octets: &[u8],
    turn: u64,
) -> Result<Left, AllocError> {
    heap.refuse(turn);
    let answer = taken(conn, octets, out);
    let failed = heap.has_refused();
    let place = place_of(alloc, conn, out.as_slice())?;
    let text = feed_text(alloc, conn, out, answer, place.as_str())?;
    Ok(Left {
        text,
        place,
        failed,
    })
}

/// Feeds octets with nothing refused.
fn feed_first<'h>(
    alloc: Global,
    conn: &mut Conn<'_, &'h Heap>,
    out: &mut Vec<u8, &'h Heap>,
    octets: &[u8],
) -> Result<Left, AllocError> {
    let _count = taken(conn, octets, out);
    let place = place_of(alloc, conn, out.as_slice())?;
    Ok(Left {
        text: String::new(alloc),
        place,
        failed: false,
    })
}

/// What is sent for each piece: `-` where it is nothing.
fn add_sent<'h>(
    conn: &mut Conn<'_, &'h Heap>,
    out: &mut Vec<u8, &'h Heap>,
    call: &Call<'_>,
    text: &mut String,
) -> Result<(), AllocError> {
    for piece in call.pieces() {
        write!(*text, "{} ", HexOrNone(out.as_slice()))?;
        out.clear();
        let _count = taken(conn, piece.as_slice(), out);
    }
    write!(*text, "{}", HexOrNone(out.as_slice()))
}

/// Feeds the pieces of the line, and lists what is sent for each.
fn feed_each<'h>(
    alloc: Global,
    conn: &mut Conn<'_, &'h Heap>,
    out: &mut Vec<u8, &'h Heap>,
    call: &Call<'_>,
) -> Result<Left, AllocError> {
    let mut text = String::new(alloc);
    add_sent(conn, out, call, &mut text)?;
    Ok(Left {
        text,
        place: String::new(alloc),
        failed: false,
    })
}

/// The place of a copy after the rest of a run, none where the copy was refused; and whether it was.
#[derive(Drop)]
struct Copied {
    place: String,
    failed: bool,
}

/// Feeds a copy the rest of a run, with nothing refused any more.
fn end_copy<'h>(
    alloc: Global,
    heap: &'h Heap,
    conn: &mut Conn<'_, &'h Heap>,
    sent: &[u8],
    rest: &[u8],
) -> Result<Copied, AllocError> {
    let failed = heap.has_refused();
    heap.refuse(0);
    let mut out = Vec::from_slice(heap, sent)?;
    let _count = taken(conn, rest, &mut out);
    let place = place_of(alloc, conn, out.as_slice())?;
    Ok(Copied { place, failed })
}

/// Copies a connection with an allocation refused, and feeds the copy the rest of a run.
fn copy_ended<'h>(
    alloc: Global,
    heap: &'h Heap,
    conn: &Conn<'_, &'h Heap>,
    sent: &[u8],
    rest: &[u8],
) -> Result<Copied, AllocError> {
    match conn.try_clone() {
        Ok(mut copy) => end_copy(alloc, heap, &mut copy, sent, rest),
        Err(AllocError) => Ok(Copied {
            place: String::new(alloc),
            failed: heap.has_refused(),
        }),
    }
}

/// How the end of a copy and that of the connection compare.
fn compared(copied: &Copied, place: &str) -> &'static str {
    if copied.place.is_empty() {
        "none"
    } else if copied.place.as_str() == place {
        "ends alike"
    } else {
        "ends otherwise"
    }
}

/// Feeds the rest of a run to the connection that was copied.
fn end_both<'h>(
    alloc: Global,
    conn: &mut Conn<'_, &'h Heap>,
    out: &mut Vec<u8, &'h Heap>,
    rest: &[u8],
    copied: &Copied,
    before: &str,
) -> Result<Left, AllocError> {
    let same = is_at(alloc, conn, out.as_slice(), before)?;
    let answer = taken(conn, rest, out);
    let place = place_of(alloc, conn, out.as_slice())?;
    let text = format!(in alloc;
        "copy {}; unchanged {same}, {answer:?}",
        compared(copied, place.as_str())
    )?;
    Ok(Left {
        text,
        place,
        failed: copied.failed,
    })
}

/// Copies a connection five octets before the end of a run, and feeds both the rest.
fn copy<'h>(
    alloc: Global,
    heap: &'h Heap,
    conn: &mut Conn<'_, &'h Heap>,
    out: &mut Vec<u8, &'h Heap>,
    octets: &[u8],
    turn: u64,
) -> Result<Left, AllocError> {
    let (first, rest) = octets.split_at(octets.len().saturating_sub(5));
    let _count = taken(conn, first, out);
    let before = place_of(alloc, conn, out.as_slice())?;
    heap.refuse(turn);
    let copied = copy_ended(alloc, heap, conn, out.as_slice(), rest)?;
    end_both(alloc, conn, out, rest, &copied, before.as_str())
}

/// What a new connection does with these octets, in the way that is asked for.
fn gone<'h>(
    alloc: Global,
    heap: &'h Heap,
    conn: &mut Conn<'_, &'h Heap>,
    out: &mut Vec<u8, &'h Heap>,
    call: &Call<'_>,
    (octets, way, turn): (&[u8], Way, u64),
) -> Result<Left, AllocError> {
    match way {
        Way::Feed => feed(alloc, heap, conn, out, octets, turn),
        Way::Items => feed_each(alloc, conn, out, call),
        Way::Place(_) => feed_first(alloc, conn, out, octets),
        Way::Copy => copy(alloc, heap, conn, out, octets, turn),
        Way::Drive(failing) => drives::driven(alloc, heap, conn, out, call, (failing, turn)),
    }
}

/// Opens a connection over this book, and does what is asked for.
fn over_book<'h>(
    alloc: Global,
    heap: &'h Heap,
    book: &Book<&'h Heap>,
    call: &Call<'_>,
    way: (&[u8], Way, u64),
) -> Result<Left, AllocError> {
    let mut out = Vec::new(heap);
    match opened(book, config_of(call), &mut out) {
        Ok(mut conn) => gone(alloc, heap, &mut conn, &mut out, call, way),
        Err(_) => Err(AllocError),
    }
}

/// Makes the book of the line, over memory that is not refused yet, and goes on as `over_book`.
fn over_octets(alloc: Global, call: &Call<'_>, way: (&[u8], Way, u64)) -> Result<Left, AllocError> {
    let heap = Refusing::new(alloc, 0);
    let book = book_of(&heap, call.number(2))?;
    over_book(alloc, &heap, &book, call, way)
}

/// All pieces one after another, or that many first ones.
fn joined(alloc: Global, call: &Call<'_>, count: usize) -> Result<Vec<u8>, AllocError> {
    let mut octets = Vec::new(alloc);
    for piece in call.pieces().iter().take(count) {
        octets.extend_from_slice(piece.as_slice())?;
    }
    Ok(octets)
}

/// The rest of a new connection where this is done with it.
pub fn left_by(alloc: Global, call: &Call<'_>, way: Way, turn: u64) -> Result<Left, AllocError> {
    let count = match way {
        Way::Place(count) => count,
        _ => usize::MAX,
    };
    let octets = joined(alloc, call, count)?;
    over_octets(alloc, call, (octets.as_slice(), way, turn))
}

/// Whether a place is that after that many first items.
fn is_after(alloc: Global, call: &Call<'_>, place: &str, count: usize) -> Result<bool, AllocError> {
    let left = left_by(alloc, call, Way::Place(count), 0)?;
    Ok(left.place.as_str() == place)
}

/// After how many items of a run there is this place.
fn items_before(alloc: Global, call: &Call<'_>, place: &str) -> Result<Option<usize>, AllocError> {
    for count in 0..=call.pieces().len() {
        if is_after(alloc, call, place, count)? {
            return Ok(Some(count));
        }
    }
    Ok(None)
}

/// What was answered, and where in the run that leaves the connection.
fn with_place(
    alloc: Global,
    text: &str,
    items: Option<usize>,
    all: usize,
) -> Result<String, AllocError> {
    match items {
        Some(count) => format!(in alloc; "{text}; as after {count} of {all}"),
        None => format!(in alloc; "{text}; as after none of them"),
    }
}

/// The answer of a trial with the place that it leaves.
fn placed(alloc: Global, call: &Call<'_>, way: Way, turn: u64) -> Result<Reply, AllocError> {
    let left = left_by(alloc, call, way, turn)?;
    let items = items_before(alloc, call, left.place.as_str())?;
    let text = with_place(alloc, left.text.as_str(), items, call.pieces().len())?;
    Ok(Reply {
        text,
        failed: left.failed,
    })
}

/// A connection that is fed all pieces, where the allocation of number `turn` is refused, from 1; at 0 none is.
pub fn fed(alloc: Global, call: &Call<'_>, turn: u64) -> Result<Reply, AllocError> {
    placed(alloc, call, Way::Feed, turn)
}

/// A copy of a connection, fed all pieces, where the allocation of number `turn` is refused, from 1; at 0 none is.
pub fn copied_and_fed(alloc: Global, call: &Call<'_>, turn: u64) -> Result<Reply, AllocError> {
    placed(alloc, call, Way::Copy, turn)
}

/// What a connection sends for each piece.
pub fn sent(alloc: Global, call: &Call<'_>) -> Result<Reply, AllocError> {
    let left = left_by(alloc, call, Way::Items, 0)?;
    Ok(Reply {
        text: left.text,
        failed: false,
    })
}
