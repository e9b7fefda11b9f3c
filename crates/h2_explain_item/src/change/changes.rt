//! What an item changes of the state of a connection. Definitions: `specs/Changes.antt`.

ghost use Rattle.std.specs.Prelude.{◌≡◌, ◌==◌, ◌++◌, ◌↔◌, [], false, nat_eq, pos, IsTrue, OnOk};
ghost use Rattle.std.specs.Option.{option_eq, option_map};
ghost use Rattle.std.specs.List.{filter};
ghost use Rattle.h2_explain_item.specs.Changes.{are_same_numbers, are_same_windows, client_table, code_of, connection_changes, counts_table, header_table, is_other, is_same_kind, is_same_pick, is_same_stream, last_of, listed, listed_flag, listed_if_any, numbers_table, own_table, state_row, stops, stream_changes, stream_table};

use crate::change::count::Count;
use crate::item::Moment;
use h2_spec::connection::{BlockView, ConnectionState};
use h2_spec::flow::{Credit, LocalSettings, Settings, Window};
use h2_spec::streams::{Numbers, Pick, Stream, StreamState, is_live};
use std::alloc::{AllocError, Allocator};

/// A value before an item and after it.
#[derive(Clone, Copy)]
pub enum ShownChange {
    /// A number of the connection, which is stream 0, or of a stream; -1 represents one that is absent.
    Number(u32, Count, i64, i64),
    /// The state of a stream (RFC 9113, 5.1).
    State(u32, StreamState, StreamState),
    /// Whether the client has acknowledged the server's settings (RFC 9113, 6.5.3).
    Acknowledged(bool, bool),
    /// The body of the answer on a stream is not sent to its end: the octets of it that remain, the send window of the
    /// stream, and that of the connection (RFC 9113, 6.9).
    Stops(u32, u64, i64, i64),
}

/// A change of a stream that is in no `ShownChange`. With both, every state can be made again from the changes alone.
#[derive(Clone, Copy)]
pub enum UnshownChange {
    /// A stream opens: its identifier, its receive window and its send window, and its content-length, if it has one (RFC
    /// 9113, 5.1, 6.9.2 and 8.1.1).
    Opened(u32, i64, i64, Option<u64>),
    /// A number of a stream, before and after.
    Number(u32, Count, i64, i64),
    /// The body of the answer on a stream is sent to its end, and the stream is still live.
    BodySent(u32),
    /// A field block is open after the item (RFC 9113, 4.3).
    Block(BlockView),
    /// The block of a stream is not open any more.
    BlockEnds(u32),
}

/// The list of changes.
pub type Changes<A> = Vec<ShownChange, A>;

/// Whether two states of a stream are the same.
fn is_same_kind(before: StreamState, after: StreamState) -> bool
    ensures value { result ≡ is_same_kind before after }
    ensures same { IsTrue result ↔ (before ≡ after) }
{
    before == after
}

/// Whether two numbers that may be absent are the same.
fn is_same_if_any(before: Option<u64>, after: Option<u64>) -> bool
    ensures value { result ≡ option_eq nat_eq before after }
    ensures same { IsTrue result ↔ (before ≡ after) }
{
    before == after
}

/// Whether the windows and the unreturned octets of a stream are the same.
fn are_same_windows(before: &Numbers, after: &Numbers) -> bool
    ensures value { result ≡ are_same_windows before.now after.now }
    ensures same { IsTrue result ↔ ((before.now.recv ≡ after.now.recv) × (before.now.owed ≡ after.now.owed) × (before.now.send ≡ after.now.send)) }
{
    before.recv.value() == after.recv.value()
        && before.owed.owed() == after.owed.owed()
        && before.send.value() == after.send.value()
}

/// Whether the counts of a stream are the same.
fn are_same_numbers(before: &Numbers, after: &Numbers) -> bool
    ensures value { result ≡ are_same_numbers before.now after.now }
    ensures same { IsTrue result ↔ (before.now ≡ after.now) }
{
    are_same_windows(before, after)
        && before.content_received == after.content_received
        && is_same_if_any(before.declared, after.declared)
        && is_same_if_any(before.body_remaining, after.body_remaining)
}

/// Whether two answers are the same.
fn is_same_pick(before: Pick, after: Pick) -> bool
    ensures value { result ≡ is_same_pick before after }
    ensures same { IsTrue result ↔ (before ≡ after) }
{
    before == after
}

/// Whether two records of a stream are the same.
pub fn is_same_stream(before: &Stream, after: &Stream) -> bool
    ensures value { result ≡ is_same_stream before.now after.now }
    ensures same { IsTrue result ↔ (before.now ≡ after.now) }
{
    before.id == after.id
        && is_same_kind(before.kind, after.kind)
        && are_same_numbers(&before.numbers, &after.numbers)
        && is_same_pick(before.pick, after.pick)
}

impl ShownChange {
    /// Whether the value after is other than the value before; where a body stops is always worth a line.
    fn is_other(&self) -> bool
        ensures { result ≡ is_other self.now }
    {
        match *self {
            ShownChange::Number(_, _, before, after) => before != after,
            ShownChange::State(_, before, after) => !is_same_kind(before, after),
            ShownChange::Acknowledged(before, after) => before != after,
            ShownChange::Stops(_, _, _, _) => true,
        }
    }
}

/// A number as it is listed: at most 2^63 - 1, which is also listed for all above it.
fn listed(value: u64) -> i64
    ensures { result ≡ listed value }
{
    if value > 9_223_372_036_854_775_807 {
        return 9_223_372_036_854_775_807;
    }
    value as i64
}

/// A number that may be absent: -1 where it is.
fn listed_if_any(value: Option<u32>) -> i64
    ensures { result ≡ listed_if_any value }
{
    match value {
        Some(value) => i64::from(value),
        None => -1,
    }
}

/// A flag as a number, 0 or 1.
fn listed_flag(flag: bool) -> i64
    ensures { result ≡ listed_flag flag }
{
    if flag { 1 } else { 0 }
}

/// The row of a number of the connection.
fn row(what: Count, before: u32, after: u32) -> ShownChange
    ensures { result ≡ ShownChange.Number 0 what (pos before) (pos after) }
{
    ShownChange::Number(0, what, i64::from(before), i64::from(after))
}

/// The row of a number of the connection that may be absent.
fn row_if_any(what: Count, before: Option<u32>, after: Option<u32>) -> ShownChange
    ensures { result ≡ ShownChange.Number 0 what (listed_if_any before) (listed_if_any after) }
{
    ShownChange::Number(0, what, listed_if_any(before), listed_if_any(after))
}

/// The row of a number of the header table.
fn row_of_table(what: Count, before: usize, after: usize) -> ShownChange
    ensures { result ≡ ShownChange.Number 0 what (listed before) (listed after) }
{
    ShownChange::Number(0, what, listed(before as u64), listed(after as u64))
}

/// The row of a window of a stream, or of the connection, which is stream 0.
fn row_of_window(stream: u32, what: Count, before: Window, after: Window) -> ShownChange
    ensures { result ≡ ShownChange.Number stream what before after }
{
    ShownChange::Number(
        stream,
        what,
        i64::from(before.value()),
        i64::from(after.value()),
    )
}

/// The row of the unreturned octets of a stream, or of the connection, which is stream 0.
fn row_of_credit(stream: u32, before: Credit, after: Credit) -> ShownChange
    ensures { result ≡ ShownChange.Number stream Count.UnreturnedOctets (pos before) (pos after) }
{
    ShownChange::Number(
        stream,
        Count::UnreturnedOctets,
        i64::from(before.owed()),
        i64::from(after.owed()),
    )
}

/// The last stream of a GOAWAY, if one has arrived (RFC 9113, 6.8).
fn last_of(goaway: Option<(u32, u32)>) -> Option<u32>
    ensures { result ≡ option_map last_of goaway }
{
    match goaway {
        Some((last, _)) => Some(last),
        None => None,
    }
}

/// The error code of a GOAWAY, if one has arrived (RFC 9113, 6.8).
fn code_of(goaway: Option<(u32, u32)>) -> Option<u32>
    ensures { result ≡ option_map code_of goaway }
{
    match goaway {
        Some((_, code)) => Some(code),
        None => None,
    }
}

/// Whether two of the client's GOAWAY frames are the same, none if none has arrived (RFC 9113, 6.8).
fn is_same_goaway(before: Option<(u32, u32)>, after: Option<(u32, u32)>) -> bool
    ensures { IsTrue result → (before ≡ after) }
{
    match (before, after) {
        (None, None) => true,
        (Some((last, code)), Some((last_after, code_after))) => {
            last == last_after && code == code_after
        }
        (None, Some(_)) | (Some(_), None) => false,
    }
}

/// Whether the client's settings are the same (RFC 9113, 6.5.2).
fn are_same_settings(before: &Settings, after: &Settings) -> bool
    ensures { IsTrue result → (before.now ≡ after.now) }
{
    before.header_table == after.header_table
        && before.push == after.push
        && before.streams == after.streams
        && before.window == after.window
        && before.frame == after.frame
        && before.list == after.list
        && before.size_update_pending == after.size_update_pending
}

/// Whether the server's settings that are in force are the same (RFC 9113, 6.5.3).
fn are_same_own(before: &LocalSettings, after: &LocalSettings) -> bool
    ensures { IsTrue result → (before.now ≡ after.now) }
{
    before.table == after.table && before.window == after.window && before.frame == after.frame
}

/// Whether the counts of a connection are the same, but for its phase.
fn are_same_counts(before: &ConnectionState, after: &ConnectionState) -> bool
    ensures { IsTrue result → (record before.now { phase = after.now.phase } ≡ after.now) }
{
    before.recv.value() == after.recv.value()
        && before.send.value() == after.send.value()
        && before.owed.owed() == after.owed.owed()
        && before.last == after.last
        && before.acked == after.acked
        && is_same_goaway(before.goaway, after.goaway)
        && are_same_settings(&before.peer, &after.peer)
        && are_same_own(&before.own, &after.own)
}

/// Whether the entries of a header table, their size and its maximum are the same (RFC 7541, 4).
fn is_same_table(before: &Moment, after: &Moment) -> bool
    ensures { IsTrue result → (before.now.entries ≡ after.now.entries) × (before.now.table_size ≡ after.now.table_size) × (before.now.table_max ≡ after.now.table_max) }
{
    before.entries == after.entries
        && before.table_size == after.table_size
        && before.table_max == after.table_max
}

/// Whether all that is listed of a connection is the same: its counts and its header table.
fn is_same_connection(before: &Moment, after: &Moment) -> bool
    ensures { IsTrue result → (connection_changes before.now after.now ≡ []) }
{
    is_same_table(before, after) && are_same_counts(&before.counts, &after.counts)
}

/// The windows of the connection, its last stream, and the client's latest GOAWAY.
fn counts_table(before: &ConnectionState, after: &ConnectionState) -> [ShownChange; 6]
    ensures { result ≡ counts_table before.now after.now }
{
    let (last, code) = (last_of(before.goaway), code_of(before.goaway));
    [
        row_of_window(0, Count::ReceiveWindow, before.recv, after.recv),
        row_of_credit(0, before.owed, after.owed),
        row_of_window(0, Count::SendWindow, before.send, after.send),
        row(Count::LastStream, before.last, after.last),
        row_if_any(Count::GoawayLastStream, last, last_of(after.goaway)),
        row_if_any(Count::GoawayCode, code, code_of(after.goaway)),
    ]
}

/// The client's settings (RFC 9113, 6.5.2).
fn client_table(before: &Settings, after: &Settings) -> [ShownChange; 7]
    ensures { result ≡ client_table before.now after.now }
{
    let pending = ShownChange::Number(
        0,
        Count::SizeUpdatePending,
        listed_flag(before.size_update_pending),
        listed_flag(after.size_update_pending),
    );
    [
        row(
            Count::ClientHeaderTableSize,
            before.header_table,
            after.header_table,
        ),
        row(Count::ClientEnablePush, before.push, after.push),
        row_if_any(
            Count::ClientMaxConcurrentStreams,
            before.streams,
            after.streams,
        ),
        row(Count::ClientInitialWindowSize, before.window, after.window),
        row(Count::ClientMaxFrameSize, before.frame, after.frame),
        row_if_any(Count::ClientMaxHeaderListSize, before.list, after.list),
        pending,
    ]
}

/// The server's settings that are in force, and whether they were acknowledged (RFC 9113, 6.5.3).
fn own_table(before: &ConnectionState, after: &ConnectionState) -> [ShownChange; 4]
    ensures { result ≡ own_table before.now after.now }
{
    [
        ShownChange::Acknowledged(before.acked, after.acked),
        row(Count::OwnHeaderTableSize, before.own.table, after.own.table),
        row(
            Count::OwnInitialWindowSize,
            before.own.window,
            after.own.window,
        ),
        row(Count::OwnMaxFrameSize, before.own.frame, after.own.frame),
    ]
}

/// The header table (RFC 7541, 2.3.2 and 4).
fn header_table(before: &Moment, after: &Moment) -> [ShownChange; 3]
    ensures { result ≡ header_table before.now after.now }
{
    [
        row_of_table(Count::TableEntries, before.entries, after.entries),
        row_of_table(Count::TableOctets, before.table_size, after.table_size),
        row(Count::TableMaximum, before.table_max, after.table_max),
    ]
}

/// Appends the rows of a table whose value after is other than the value before.
///
/// `AllocError` where the list could not grow; then it has some first rows of them more.
fn put_changed<A: Allocator>(table: &[ShownChange], out: &mut Changes<A>) -> Result<(), AllocError>
    ensures { OnOk result (out.new.items ≡ out.old.items ++ filter is_other table.now) }
{
    for change in table {
        if change.is_other() {
            out.push(*change)?;
        }
    }
    Ok(())
}

/// Appends the rows of all tables of a connection whose value after is other than the value before.
///
/// `AllocError` where the list could not grow; then it has some first rows of them more.
#[inline(never)]
fn put_connection<A: Allocator>(
    before: &Moment,
    after: &Moment,
    out: &mut Changes<A>,
) -> Result<(), AllocError>
    ensures { OnOk result (out.new.items ≡ out.old.items ++ connection_changes before.now after.now) }
{
    let (old, new) = (&before.counts, &after.counts);
    put_changed(&counts_table(old, new), out)?;
    put_changed(&client_table(&old.peer, &new.peer), out)?;
    put_changed(&own_table(old, new), out)?;
    put_changed(&header_table(before, after), out)?;
    Ok(())
}

/// Appends what is other than before on the connection: its windows, its last stream, the client's GOAWAY and settings,
/// the server's settings, and the header table, in this order (RFC 9113, 5.2, 6.5 and 6.8).
///
/// `AllocError` where the list could not grow; then it has some first changes more.
#[inline(always)]
pub fn connection_changes<A: Allocator>(
    before: &Moment,
    after: &Moment,
    out: &mut Changes<A>,
) -> Result<(), AllocError>
    ensures { OnOk result (out.new.items ≡ out.old.items ++ connection_changes before.now after.now) }
{
    if is_same_connection(before, after) {
        return Ok(());
    }
    put_connection(before, after, out)
}

/// The state of a stream.
fn state_row(before: &Stream, after: &Stream) -> [ShownChange; 1]
    ensures { result ≡ state_row before.now after.now }
{
    [ShownChange::State(after.id, before.kind, after.kind)]
}

/// The counts of a live stream.
fn numbers_table(id: u32, before: &Numbers, after: &Numbers) -> [ShownChange; 4]
    ensures { result ≡ numbers_table id before.now after.now }
{
    let (received, now) = (before.content_received, after.content_received);
    [
        row_of_window(id, Count::ReceiveWindow, before.recv, after.recv),
        row_of_credit(id, before.owed, after.owed),
        row_of_window(id, Count::SendWindow, before.send, after.send),
        ShownChange::Number(id, Count::ContentReceived, listed(received), listed(now)),
    ]
}

/// Appends where the answer on a stream stops, if the stream is live and its body is not sent to its end. `connection`
/// is the send window of the connection.
///
/// `AllocError` where the list could not grow; then it is as before.
fn put_stop<A: Allocator>(
    stream: &Stream,
    connection: Window,
    out: &mut Changes<A>,
) -> Result<(), AllocError>
    ensures { OnOk result (out.new.items ≡ out.old.items ++ stops stream.now connection) }
{
    if !is_live(stream.kind) {
        return Ok(());
    }
    if let Some(remaining) = stream.numbers.body_remaining {
        let own = i64::from(stream.numbers.send.value());
        let connection = i64::from(connection.value());
        out.push(ShownChange::Stops(stream.id, remaining, own, connection))?;
    }
    Ok(())
}

/// Appends the state and the counts of a stream that are other than before.
///
/// `AllocError` where the list could not grow; then it has some first changes more.
fn put_stream<A: Allocator>(
    before: &Stream,
    after: &Stream,
    out: &mut Changes<A>,
) -> Result<(), AllocError>
    ensures { OnOk result (out.new.items ≡ out.old.items ++ filter is_other (stream_table before.now after.now)) }
{
    put_changed(&state_row(before, after), out)?;
    if is_live(before.kind) && is_live(after.kind) {
        put_changed(
            &numbers_table(after.id, &before.numbers, &after.numbers),
            out,
        )?;
    }
    Ok(())
}

/// Appends what is other than before on a stream that is not stream 0, and where its answer stops.
///
/// `AllocError` where the list could not grow; then it has some first changes more.
#[inline(never)]
fn put_stream_changes<A: Allocator>(
    before: &Stream,
    after: &Stream,
    connection: Window,
    out: &mut Changes<A>,
) -> Result<(), AllocError>
    requires stream { (after.now.id == 0) ≡ false }
    ensures { OnOk result (out.new.items ≡ out.old.items ++ stream_changes before.now after.now connection) }
{
    if is_same_stream(before, after) {
        return Ok(());
    }
    put_stream(before, after, out)?;
    put_stop(after, connection, out)
}

/// Appends what is other than before on a stream, and where its answer stops: nothing where the stream is as before, or
/// is stream 0. `connection` is the send window of the connection, in octets (RFC 9113, 5.1 and 6.9).
///
/// `AllocError` where the list could not grow; then it has some first changes more.
#[inline(always)]
pub fn stream_changes<A: Allocator>(
    before: &Stream,
    after: &Stream,
    connection: Window,
    out: &mut Changes<A>,
) -> Result<(), AllocError>
    ensures { OnOk result (out.new.items ≡ out.old.items ++ stream_changes before.now after.now connection) }
{
    if after.id == 0 {
        return Ok(());
    }
    put_stream_changes(before, after, connection, out)
}
