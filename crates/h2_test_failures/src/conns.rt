//! Connections of trials: their books, and single calls.

use crate::line::Call;
use crate::shown::Hex;
use h2_conn::{Conn, ConnFault};
use h2_frame::Outgoing;
use h2_hpack_instruction::octets::Octets;
use h2_io::string_of;
use h2_request_book::book::{Book, Entry};
use h2_request_book::entry_fields::EntryFields;
use h2_request_book::fault::BookFault;
use h2_spec::connection::Config;
use std::alloc::{AllocError, Allocator, Global};

/// The limits of a call: at most that many streams are open, and the header table has at most that many octets.
pub fn config_of(call: &Call<'_>) -> Config {
    Config {
        table: call.short(1),
        ..Config::new(call.short(0), 32768)
    }
}

/// Octets of these.
fn octets_of<A: Allocator + Copy>(alloc: A, text: &[u8]) -> Result<Octets<A>, AllocError> {
    Ok(Octets::new(Vec::from_slice(alloc, text)?))
}

/// The answer 200 with this body to `GET` of this path.
fn entry_of<A: Allocator + Copy>(
    alloc: A,
    path: &[u8],
    body: Octets<A>,
    early: bool,
) -> Result<Entry<A>, AllocError> {
    let method = octets_of(alloc, b"GET")?;
    let path = octets_of(alloc, path)?;
    Ok(Entry {
        method,
        path,
        status: 200,
        fields: EntryFields::new(Vec::new(alloc)),
        body,
        early,
    })
}

/// Adds this body as the answer to `GET` of this path.
fn add<A: Allocator + Copy>(
    alloc: A,
    book: &mut Book<A>,
    path: &[u8],
    body: &[u8],
    early: bool,
) -> Result<(), BookFault> {
    book.add(entry_of(alloc, path, octets_of(alloc, body)?, early)?)
}

/// Adds 60,000 octets as the answer to `GET /`.
fn add_long<A: Allocator + Copy>(alloc: A, book: &mut Book<A>) -> Result<(), BookFault> {
    let body = Octets::new(b"x".repeat(alloc, 60_000)?);
    book.add(entry_of(alloc, b"/", body, false)?)
}

/// Adds the answers of a trial: none at 0; at 1 `hi` to `GET /`; at 2 300 octets to `GET /`, and early `hi` to `GET /early`;
/// at 3 60,000 octets to `GET /`.
fn add_answers<A: Allocator + Copy>(
    alloc: A,
    book: &mut Book<A>,
    which: u64,
) -> Result<(), BookFault> {
    match which {
        0 => Ok(()),
        1 => add(alloc, book, b"/", b"hi", false),
        2 => {
            add(alloc, book, b"/", &[b'x'; 300], false)?;
            add(alloc, book, b"/early", b"hi", true)
        }
        _ => add_long(alloc, book),
    }
}

/// A book with the answers of a trial.
pub fn book_of<A: Allocator + Copy>(alloc: A, which: u64) -> Result<Book<A>, AllocError> {
    let mut book = Book::new(alloc);
    match add_answers(alloc, &mut book, which) {
        Ok(()) => Ok(book),
        Err(_) => Err(AllocError),
    }
}

// These have no clause, so that no proof above them carries the state of each call.

/// A new connection.
pub fn opened<'b, A: Allocator + Copy, O: Outgoing<'b, A>>(
    book: &'b Book<A>,
    config: Config,
    out: &mut O,
) -> Result<Conn<'b, A>, ConnFault> {
    Conn::new(book, config, out)
}

/// Feeds octets: the number of items in them.
pub fn taken<'b, A: Allocator + Copy, O: Outgoing<'b, A>>(
    conn: &mut Conn<'b, A>,
    octets: &[u8],
    out: &mut O,
) -> Result<usize, ConnFault> {
    conn.feed(octets, out)
}

/// What was sent, in hex, and the text of the state.
pub fn place_of<A: Allocator>(
    alloc: Global,
    conn: &Conn<'_, A>,
    sent: &[u8],
) -> Result<String, AllocError> {
    let state = string_of(alloc, conn)?;
    format!(in alloc; "{} {state}", Hex(sent))
}
