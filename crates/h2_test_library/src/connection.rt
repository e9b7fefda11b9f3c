//! A connection: octets in, octets out (RFC 9113, 3.4, 6.5, 6.7 and 8.1).

use crate::same::same;
use h2_conn::play::play;
use h2_conn::{Conn, ConnFault};
use h2_request_book::book::Book;
use h2_spec::connection::{Config, Phase};
use std::alloc::{AllocError, Global};
use std::test::Fail;

// These have no clause, so that the proof of a test does not carry the state of each call.

fn no_answers(alloc: Global) -> Book<Global> {
    Book::new(alloc)
}

/// A connection with the usual limits; its SETTINGS are appended to `sent`.
fn opened<'b>(book: &'b Book<Global>, sent: &mut Vec<u8>) -> Result<Conn<'b, Global>, ConnFault> {
    Conn::new(book, Config::new(100, 32_768), sent)
}

fn taken(
    conn: &mut Conn<'_, Global>,
    piece: &[u8],
    sent: &mut Vec<u8>,
) -> Result<usize, ConnFault> {
    conn.feed(piece, sent)
}

/// The client's preface, SETTINGS and a PING, and a GET of / on stream 1.
static PIECES: [&[u8]; 3] = [
    b"PRI * HTTP/2.0\r\n\r\nSM\r\n\r\n",
    b"\x00\x00\x00\x04\x00\x00\x00\x00\x00\x00\x00\x08\x06\x00\x00\x00\x00\x00debugger",
    b"\x00\x00\x03\x01\x05\x00\x00\x00\x01\x82\x86\x84",
];

/// The server's SETTINGS: at most 100 streams, and lists of at most 65,536 octets.
const SETTINGS: &[u8] =
    b"\x00\x00\x0c\x04\x00\x00\x00\x00\x00\x00\x03\x00\x00\x00\x64\x00\x06\x00\x01\x00\x00";

/// The acknowledgements of SETTINGS and of the PING, and HEADERS with the status 404.
const ANSWERS: &[u8] =
    b"\x00\x00\x00\x04\x01\x00\x00\x00\x00\x00\x00\x08\x06\x01\x00\x00\x00\x00debugger\x00\x00\x01\x01\x05\x00\x00\x00\x01\x8d";

/// The number of items in each piece, and whether the connection has ended or failed.
fn fed(conn: &mut Conn<'_, Global>, sent: &mut Vec<u8>) -> Result<([usize; 3], bool), ConnFault> {
    let [preface, settings, request] = PIECES;
    let items = [
        taken(conn, preface, sent)?,
        taken(conn, settings, sent)?,
        taken(conn, request, sent)?,
    ];
    Ok((items, conn.ended().is_some() || conn.failed()))
}

/// The number of items in each piece for a new connection, and whether it has ended or failed.
fn fed_anew(alloc: Global, sent: &mut Vec<u8>) -> Result<([usize; 3], bool), ConnFault> {
    let book = no_answers(alloc);
    let mut conn = opened(&book, sent)?;
    fed(&mut conn, sent)
}

fn all_sent(alloc: Global) -> Result<Vec<u8>, AllocError> {
    let mut sent = Vec::from_slice(alloc, SETTINGS)?;
    sent.extend_from_slice(ANSWERS)?;
    Ok(sent)
}

#[test]
fn a_connection_takes_octets_and_answers(rt: HostRuntime) -> Result<(), Fail> {
    let mut sent = Vec::new(rt.alloc());
    let items = fed_anew(rt.alloc(), &mut sent).ok();
    let wanted = all_sent(rt.alloc())?;
    let found = (items, sent.as_slice());
    same(
        &rt,
        &found,
        &(Some(([1, 2, 1], false)), wanted.as_slice()),
        &"a GET of /",
    );
    Ok(())
}

/// Whether a run over all pieces goes on, and its last stream.
fn played(alloc: Global, sent: &mut Vec<u8>) -> Result<(bool, u32), Fail> {
    let book = no_answers(alloc);
    let octets = PIECES.concat(alloc)?;
    let view = play(
        &book,
        Config::new(100, 32_768),
        octets.as_slice(),
        &[1, 24, 100],
        sent,
    )?;
    Ok((matches!(view.phase, Phase::Running), view.last))
}

#[test]
fn a_run_is_played(rt: HostRuntime) -> Result<(), Fail> {
    let mut sent = Vec::new(rt.alloc());
    let found = played(rt.alloc(), &mut sent)?;
    let wanted = all_sent(rt.alloc())?;
    let found = (found, sent.as_slice());
    same(&rt, &found, &((true, 1), wanted.as_slice()), &"a GET of /");
    Ok(())
}

/// Whether a connection awaits the preface, and the text of its state.
fn state(alloc: Global, conn: &Conn<'_, Global>) -> Result<(bool, String), AllocError> {
    let view = conn.state(alloc)?;
    Ok((matches!(view.phase, Phase::Preface), conn.show(alloc)?))
}

/// Whether a new connection awaits the preface, and the text of its state.
fn new_state(alloc: Global, sent: &mut Vec<u8>) -> Result<(bool, String), Fail> {
    let book = no_answers(alloc);
    let conn = opened(&book, sent)?;
    Ok(state(alloc, &conn)?)
}

/// The state of a new connection, as `show` writes it.
const NEW_STATE: &str = "phase preface last 0\n\
    window recv 65535 owed 0 send 65535\n\
    peer table 4096 push 1 streams - window 65535 frame 16384 list - signal 0\n\
    acked 0 goaway -\n\
    own table 4096 window 65535 frame 16384 due 0\n\
    block -\n\
    table 0 0 4096\n";

#[test]
fn the_state_is_shown(rt: HostRuntime) -> Result<(), Fail> {
    let (is_new, text) = new_state(rt.alloc(), &mut Vec::new(rt.alloc()))?;
    let found = (is_new, text.as_str());
    same(&rt, &found, &(true, NEW_STATE), &"a new connection");
    Ok(())
}
