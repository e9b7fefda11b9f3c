//! The text of what is shown of a state, as values that write themselves: no memory is taken for it. Definition:
//! h2_spec's `specs/Texts/Show.antt`.

ghost use Rattle.std.specs.Prelude.{◌≡◌, ◌+◌, ◌<◌, ◌^◌, map};
ghost use Rattle.h2_spec.specs.Texts.Show.{entry_lines, show, stream_lines};
ghost use Rattle.h2_spec.specs.Texts.View.{shown_stream};

use crate::lines::{
    AckedLine, BlockLine, EntryLine, OwnLine, PeerLine, PhaseLine, StreamLine, TableLine,
    WindowLine,
};
use crate::view::{Shown, count_of, entry_at, is_due, shown_stream};
use h2_io::{DeviceFault, Output, Text, texts};
use h2_streams::Streams;
use h2_table::DynTable;
use std::alloc::Allocator;

/// The entries of a dynamic table, a line each, the newest first (RFC 7541, 2.3.3).
#[derive(Drop)]
pub struct EntriesText<'t, A: Allocator>(pub &'t DynTable<A>);

impl<A: Allocator> Text for EntriesText<'_, A> {
    ghost text = { λ x. entry_lines 62 x.0.now.table.entries };

    fn write_to<O: Output>(&self, output: &mut O) -> Result<(), DeviceFault> {
        // The places stay below this number, which is small.
        let _count = count_of(self.0);
        let mut place = 0usize;
        while let Some((name, value)) = entry_at(self.0, place) {
            let index = index_of(place);
            EntryLine { index, name, value }.write_to(output)?;
            place += 1;
        }
        Ok(())
    }
}

/// The index in both tables of the entry at a place of the dynamic table: 62 is the newest (RFC 7541, 2.3.3).
fn index_of(place: usize) -> usize
    requires { place < 2 ^ 63 }
    ensures { result ≡ 62 + place }
{
    62 + place
}

/// The streams that have records, a line each, in the order of their opening.
#[derive(Drop)]
struct StreamsText<'s, A: Allocator>(&'s Streams<A>);

impl<A: Allocator> Text for StreamsText<'_, A> {
    ghost text = { λ x. stream_lines (map shown_stream x.0.now.streams) };

    fn write_to<O: Output>(&self, output: &mut O) -> Result<(), DeviceFault> {
        // Identifiers rise up to this one, so the places stay below it.
        let _last = self.0.last();
        let mut place = 0usize;
        while let Some(stream) = self.0.at(place) {
            StreamLine(shown_stream(&stream)).write_to(output)?;
            place += 1;
        }
        Ok(())
    }
}

/// Line by line.
impl<A: Allocator> Text for Shown<'_, A> {
    ghost text = { λ x. show x };

    fn write_to<O: Output>(&self, output: &mut O) -> Result<(), DeviceFault> {
        let core = &self.core;
        let phase = PhaseLine(core);
        let window = WindowLine(core);
        let peer = PeerLine(&core.peer);
        let acked = AckedLine(core);
        let own = OwnLine {
            own: core.own,
            due: is_due(core, self.table),
        };
        let block = BlockLine(self.block);
        let table = TableLine {
            count: self.table.len(),
            size: self.table.size(),
            max: self.table.max(),
        };
        let entries = EntriesText(self.table);
        let streams = StreamsText(self.streams);
        texts!(
            phase, window, peer, acked, own, block, table, entries, streams
        )
        .write_to(output)
    }
}
