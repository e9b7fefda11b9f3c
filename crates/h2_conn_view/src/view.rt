//! What is shown of a connection's state. The program does not make a `View`, which is for users of the library: it
//! writes the text of what is lent (`Shown`, in `show`). Definition: h2_spec's `specs/Texts/View.antt`.

ghost use Rattle.std.specs.Prelude.{◌≡◌, ◌<◌, ◌^◌, IfOk, length, map, nat_lt, option_map, slice_get};
ghost use Rattle.h2_spec.specs.Hpack.Field.{field};
ghost use Rattle.h2_hpack_list.specs.Lent.{lent_field};
ghost use Rattle.h2_spec.specs.Texts.View.{shown_stream};

use crate::lists::{Entries, StreamViews};
use h2_hpack_instruction::field::Field;
use h2_spec::connection::{BlockView, ConnectionState, Phase};
use h2_spec::flow::{Credit, LocalSettings, Settings, Window};
use h2_spec::streams::{Stream, StreamView};
use h2_streams::Streams;
use h2_table::DynTable;
use std::alloc::{AllocError, Allocator};
use std::marker::Model;

/// What is shown of a connection's state.
#[derive(Drop)]
pub struct View<A: Allocator> {
    /// How far the connection has got (RFC 9113, 3.4 and 5.4.1).
    pub phase: Phase,
    /// The highest client stream whose request block has ended, 0 at first.
    pub last: u32,
    /// The receive window of the connection (RFC 9113, 6.9).
    pub recv: Window,
    /// Octets received that the server has not yet given back by WINDOW_UPDATE.
    pub owed: Credit,
    /// The send window of the connection (RFC 9113, 6.9).
    pub send: Window,
    /// The peer's settings.
    pub peer: Settings,
    /// Whether the peer has acknowledged the server's settings.
    pub acked: bool,
    /// The server's settings that are in force (RFC 9113, 6.5.3).
    pub own: LocalSettings,
    /// Whether the next field block has to begin with a size update (RFC 7541, 4.2).
    pub due: bool,
    /// The last stream and the code of the latest GOAWAY received.
    pub goaway: Option<(u32, u32)>,
    /// The open field block.
    pub block: Option<BlockView>,
    /// The dynamic table, the newest entry first (RFC 7541, 2.3.2).
    pub table: Entries<A>,
    /// What the entries count (RFC 7541, 4.1).
    pub table_size: usize,
    /// The table's maximum (RFC 7541, 4.2).
    pub table_max: u32,
    /// The streams in the order of their opening.
    pub streams: StreamViews<A>,
}

impl<A: Allocator> Model for View<A> {
    ghost use Rattle.h2_spec.specs.Texts.View as spec;

    ghost Value = { spec.View };

    ghost view = { λ v. record {
      phase = v.phase;
      last = v.last;
      recv = v.recv;
      owed = v.owed;
      send = v.send;
      peer = v.peer;
      acked = v.acked;
      own = v.own;
      due = v.due;
      goaway = v.goaway;
      block = v.block;
      table = v.table;
      table_size = v.table_size;
      table_max = v.table_max;
      streams = v.streams;
    } };
}

/// The field of this name and this value, in memory of its own.
fn field_of<A: Allocator + Copy>(
    alloc: A,
    name: &[u8],
    value: &[u8],
) -> Result<Field<A>, AllocError>
    ensures { IfOk result (λ copy. copy ≡ field name.now value.now) }
{
    let name = Vec::from_slice(alloc, name)?;
    let value = Vec::from_slice(alloc, value)?;
    Ok(Field::new(name, value))
}

/// How many entries there are: each counts 32 octets or more, and all together at most the maximum.
pub(crate) fn count_of<A: Allocator>(table: &DynTable<A>) -> usize
    ensures count { result ≡ length table.now.table.entries }
    ensures few { result < 2 ^ 32 }
{
    let _size = table.size();
    let _max = table.max();
    table.len()
}

/// The name and the value of the entry at a place, 0 for the newest.
pub(crate) fn entry_at<A: Allocator>(table: &DynTable<A>, place: usize) -> Option<(&[u8], &[u8])>
    requires few { place < 2 ^ 63 }
    ensures { option_map lent_field result ≡ slice_get table.now.table.entries place }
{
    table.get(place + 1)
}

/// The entries of a header table, the newest first.
fn entries_of<A: Allocator + Copy>(
    alloc: A,
    table: &DynTable<A>,
) -> Result<Vec<Field<A>, A>, AllocError>
    ensures { IfOk result (λ fields. fields.items ≡ table.now.table.entries) }
{
    let mut fields = Vec::new(alloc);
    while let Some((name, value)) = entry_at(table, fields.len()) {
        fields.push(field_of(alloc, name, value)?)?;
    }
    Ok(fields)
}

/// What is shown of a stream.
pub(crate) fn shown_stream(stream: &Stream) -> StreamView
    ensures { result ≡ shown_stream stream.now }
{
    StreamView {
        id: stream.id,
        kind: stream.kind,
        numbers: stream.numbers,
    }
}

/// What is shown of the streams, in the order of their opening.
fn streams_of<A: Allocator + Copy>(
    alloc: A,
    streams: &Streams<A>,
) -> Result<Vec<StreamView, A>, AllocError>
    ensures { IfOk result (λ views. views.items ≡ map shown_stream streams.now.streams) }
{
    let mut views = Vec::new(alloc);
    while let Some(stream) = streams.at(views.len()) {
        views.push(shown_stream(&stream))?;
    }
    Ok(views)
}

/// Whether the next field block has to begin with a size update: the limit that is in force is below the table's
/// maximum (RFC 7541, 4.2).
pub(crate) fn is_due<A: Allocator>(core: &ConnectionState, table: &DynTable<A>) -> bool
    ensures { result ≡ nat_lt core.now.own.table table.now.table.max }
{
    core.own.table < table.max()
}

/// What is shown of a connection's state, lent from it: the parts that a view is made of.
#[derive(Drop)]
pub struct Shown<'s, A: Allocator> {
    /// The counts of the connection.
    pub core: ConnectionState,
    /// The open field block.
    pub block: Option<BlockView>,
    /// The dynamic table of the client's field blocks.
    pub table: &'s DynTable<A>,
    /// The records of all streams that were opened.
    pub streams: &'s Streams<A>,
}

impl<'s, A: Allocator> Model for Shown<'s, A> {
    ghost use Rattle.h2_spec.specs.Texts.View.{View, view_of};

    ghost Value = { View };

    ghost view = { λ s. view_of s.core s.block s.table.now.table s.streams.now.streams };
}

impl<A: Allocator + Copy> Shown<'_, A> {
    /// The view, with the fields and the streams in memory of its own.
    ///
    /// `AllocError` where memory for the entries of the header table and for the streams is refused.
    pub fn view(&self, alloc: A) -> Result<View<A>, AllocError>
        ensures { IfOk result (λ view. view ≡ self.now) }
    {
        let table = entries_of(alloc, self.table)?;
        let streams = streams_of(alloc, self.streams)?;
        Ok(self.view_with(table, streams))
    }

    /// The view that has these fields and these streams, which are copies of what it lends.
    fn view_with(&self, table: Vec<Field<A>, A>, streams: Vec<StreamView, A>) -> View<A>
        requires table { table.items ≡ self.now.table }
        requires streams { streams.items ≡ self.now.streams }
        ensures { result ≡ self.now }
    {
        View {
            phase: self.core.phase,
            last: self.core.last,
            recv: self.core.recv,
            owed: self.core.owed,
            send: self.core.send,
            peer: self.core.peer,
            acked: self.core.acked,
            own: self.core.own,
            due: is_due(&self.core, self.table),
            goaway: self.core.goaway,
            block: self.block,
            table: Entries::new(table),
            table_size: self.table.size(),
            table_max: self.table.max(),
            streams: StreamViews::new(streams),
        }
    }
}
