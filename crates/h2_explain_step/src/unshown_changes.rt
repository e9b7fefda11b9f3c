//! What an item changes on streams beside what `changes` lists: the numbers that a stream begins with, the windows of
//! other streams that settings move, bodies that are sent to their end, and the open field block. With these every
//! state can be made again from the changes alone. No definition speaks of it; what is noted: `specs/Account.antt`.

ghost use Rattle.std.specs.Prelude.{◌≡◌, false, OnOk};
ghost use Rattle.h2_explain_step.specs.Account.{KeepsBlocks, moves_windows};

use h2_conn::Conn;
use h2_explain_item::change::changes::UnshownChange;
use h2_explain_item::change::count::Count;
use h2_explain_item::item::Explained;
use h2_explain_item::notes::Notes;
use h2_explain_words::sent::next_frame;
use h2_spec::connection::BlockView;
use h2_spec::streams::{Numbers, Stream, is_live};
use std::alloc::{AllocError, Allocator};
use std::collections::BTreeMap;

/// The streams that are live, by their identifiers.
pub(crate) type Live<A> = BTreeMap<u32, (), A>;

/// The streams of the frames that were sent for an item, but for the one that the item is on, which is looked at anyway.
pub(crate) fn sent_streams<A: Allocator + Copy>(
    alloc: A,
    item: &Explained<'_>,
) -> Result<Live<A>, AllocError> {
    let mut streams = BTreeMap::new(alloc);
    let own = item.after.stream.id;
    let mut rest = item.sent;
    for _frame in 0..item.sent.len() {
        let Some((frame, after)) = next_frame(rest) else {
            return Ok(streams);
        };
        rest = after;
        if frame.head.stream != 0 && frame.head.stream != own {
            streams.insert(frame.head.stream, ())?;
        }
    }
    Ok(streams)
}

/// Whether an item moves the windows of all streams: an initial window of one side is another after it (RFC 9113, 6.9.2).
fn moves_windows(item: &Explained<'_>) -> bool
    ensures { result ≡ moves_windows item.now }
{
    let (before, after) = (&item.before.counts, &item.after.counts);
    before.peer.window != after.peer.window || before.own.window != after.own.window
}

/// Appends the row of a window, where it is another than before.
fn put_window<A: Allocator>(
    stream: u32,
    count: Count,
    before: i64,
    after: i64,
    out: &mut Vec<UnshownChange, A>,
) -> Result<(), AllocError> {
    if before != after {
        out.push(UnshownChange::Number(stream, count, before, after))?;
    }
    Ok(())
}

/// Appends the windows of a stream that are other than before.
fn put_windows<A: Allocator>(
    stream: u32,
    before: &Numbers,
    after: &Numbers,
    out: &mut Vec<UnshownChange, A>,
) -> Result<(), AllocError> {
    let (recv, send) = (
        i64::from(before.recv.value()),
        i64::from(before.send.value()),
    );
    put_window(
        stream,
        Count::ReceiveWindow,
        recv,
        i64::from(after.recv.value()),
        out,
    )?;
    put_window(
        stream,
        Count::SendWindow,
        send,
        i64::from(after.send.value()),
        out,
    )
}

/// Appends what a stream begins with, and its send window, where the answer has taken of it already; `initial` is the
/// client's initial window.
fn put_opened<A: Allocator>(
    stream: &Stream,
    initial: u32,
    out: &mut Vec<UnshownChange, A>,
) -> Result<(), AllocError> {
    let numbers = &stream.numbers;
    let (recv, send) = (
        i64::from(numbers.recv.value()),
        i64::from(numbers.send.value()),
    );
    let first = i64::from(initial);
    out.push(UnshownChange::Opened(stream.id, recv, first, numbers.declared))?;
    put_window(stream.id, Count::SendWindow, first, send, out)
}

/// Appends that the body of a stream is sent to its end, where it is.
fn put_body_sent<A: Allocator>(
    before: &Stream,
    after: &Stream,
    out: &mut Vec<UnshownChange, A>,
) -> Result<(), AllocError> {
    if before.numbers.body_remaining.is_some() && after.numbers.body_remaining.is_none() {
        out.push(UnshownChange::BodySent(after.id))?;
    }
    Ok(())
}

/// Appends what `changes` does not list of a stream on which an item is, or a frame was sent.
fn put_listed<A: Allocator>(
    before: &Stream,
    after: &Stream,
    initial: u32,
    out: &mut Vec<UnshownChange, A>,
) -> Result<(), AllocError> {
    match (is_live(before.kind), is_live(after.kind)) {
        (false, true) => put_opened(after, initial, out),
        (true, true) => put_body_sent(before, after, out),
        (_, false) => Ok(()),
    }
}

/// Appends the windows of a live stream that settings moved, unless `changes` lists them.
fn put_other<A: Allocator + Copy>(
    conn: &Conn<'_, A>,
    notes: &Notes<A>,
    sent: &Live<A>,
    stream: u32,
    out: &mut Vec<UnshownChange, A>,
) -> Result<(), AllocError> {
    if sent.contains_key(&stream) {
        return Ok(());
    }
    match notes.of(stream) {
        Some(note) => put_windows(
            stream,
            &note.seen.numbers,
            &conn.stream(stream).numbers,
            out,
        ),
        None => Ok(()),
    }
}

/// Appends the windows of all live streams that settings moved, unless `changes` lists them.
#[inline(never)]
fn put_others<A: Allocator + Copy>(
    conn: &Conn<'_, A>,
    notes: &Notes<A>,
    live: &Live<A>,
    sent: &Live<A>,
    out: &mut Vec<UnshownChange, A>,
) -> Result<(), AllocError> {
    for stream in live.keys() {
        put_other(conn, notes, sent, *stream, out)?;
    }
    Ok(())
}

/// Appends what `changes` does not list of the streams that frames were sent on.
#[inline(never)]
fn put_sent<A: Allocator + Copy>(
    conn: &Conn<'_, A>,
    item: &Explained<'_>,
    notes: &Notes<A>,
    sent: &Live<A>,
    out: &mut Vec<UnshownChange, A>,
) -> Result<(), AllocError> {
    let initial = item.after.counts.peer.window;
    for stream in sent.keys() {
        if *stream != item.after.stream.id {
            if let Some(note) = notes.of(*stream) {
                put_listed(&note.seen, &conn.stream(*stream), initial, out)?;
            }
        }
    }
    Ok(())
}

/// The octets of the open block and the size of its list so far, none without one.
fn extent_of(block: Option<BlockView>) -> Option<(u32, u64)> {
    match block {
        Some(block) => Some((block.octets, block.list_size)),
        None => None,
    }
}

/// Appends how far the open block has got, or that it is not open any more: only a frame of the block changes it.
#[inline(always)]
fn put_block<A: Allocator>(
    item: &Explained<'_>,
    out: &mut Vec<UnshownChange, A>,
) -> Result<(), AllocError> {
    if extent_of(item.before.block) == extent_of(item.after.block) {
        return Ok(());
    }
    if let Some(block) = item.after.block {
        out.push(UnshownChange::Block(block))?;
    } else if let Some(block) = item.before.block {
        out.push(UnshownChange::BlockEnds(block.stream))?;
    }
    Ok(())
}

/// Lists what an item changes on streams beside what `changes` lists; `notes` are those before the item, `live` has the
/// streams that were live then, and `sent` the other streams that frames were sent on.
#[inline(always)]
pub(crate) fn put_moved<A: Allocator + Copy>(
    conn: &Conn<'_, A>,
    item: &Explained<'_>,
    notes: &Notes<A>,
    live: &Live<A>,
    sent: &Live<A>,
    list: &mut Vec<UnshownChange, A>,
) -> Result<(), AllocError> {
    list.clear();
    if item.after.stream.id != 0 {
        let initial = item.after.counts.peer.window;
        put_listed(&item.before.stream, &item.after.stream, initial, list)?;
    }
    if !sent.is_empty() {
        put_sent(conn, item, notes, sent, list)?;
    }
    if moves_windows(item) {
        put_others(conn, notes, live, sent, list)?;
    }
    put_block(item, list)
}

/// Notes the streams that settings have moved as they are now.
#[inline(never)]
fn note_live<A: Allocator + Copy>(
    conn: &Conn<'_, A>,
    number: u64,
    notes: &mut Notes<A>,
    live: &Live<A>,
) -> Result<(), AllocError>
    ensures { OnOk result (KeepsBlocks notes.old notes.new) }
{
    for stream in live.keys() {
        let now = conn.stream(*stream);
        notes.see(number, number, now)?;
    }
    Ok(())
}

/// Keeps a stream among the live ones where it is live, and else not.
fn keep_live<A: Allocator + Copy>(stream: &Stream, live: &mut Live<A>) -> Result<(), AllocError> {
    if is_live(stream.kind) {
        live.insert(stream.id, ())?;
    } else {
        live.remove(&stream.id);
    }
    Ok(())
}

/// Keeps the streams that frames were sent on among the live ones where they are live, and else not.
#[inline(never)]
fn keep_sent<A: Allocator + Copy>(
    conn: &Conn<'_, A>,
    live: &mut Live<A>,
    sent: &Live<A>,
) -> Result<(), AllocError> {
    for stream in sent.keys() {
        keep_live(&conn.stream(*stream), live)?;
    }
    Ok(())
}

/// Notes what an item has moved, and which streams are live after it; `sent` has the other streams that frames were sent
/// on.
#[inline(always)]
pub(crate) fn note_moved<A: Allocator + Copy>(
    conn: &Conn<'_, A>,
    item: &Explained<'_>,
    notes: &mut Notes<A>,
    live: &mut Live<A>,
    sent: &Live<A>,
) -> Result<(), AllocError>
    ensures blocks { OnOk result (KeepsBlocks notes.old notes.new) }
    ensures still { moves_windows item.now ≡ false → notes.new ≡ notes.old }
{
    if moves_windows(item) {
        note_live(conn, item.number, notes, live)?;
    }
    if item.after.stream.id != 0 {
        keep_live(&item.after.stream, live)?;
    }
    if !sent.is_empty() {
        keep_sent(conn, live, sent)?;
    }
    Ok(())
}
