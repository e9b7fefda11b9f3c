//! What can be asked of a connection without a copy of all that is shown of it. Definitions: h2_spec's
//! `specs/State.antt` and `specs/Texts/View.antt`.

ghost use Rattle.std.specs.Prelude.{◌≡◌, length};
ghost use Rattle.h2_spec.specs.Hpack.DynamicTable.{total_size};
ghost use Rattle.h2_spec.specs.Stream.{next_waiting, stream_at};
ghost use Rattle.h2_spec.specs.Texts.View.{shown_block};

use crate::conn::Conn;
use crate::view::shown_block;
use h2_spec::connection::{BlockView, Config, ConnectionState};
use h2_spec::streams::Stream;
use std::alloc::Allocator;

impl<'b, A: Allocator + Copy> Conn<'b, A> {
    /// The limits and the settings that the server was given.
    pub fn config(&self) -> Config
        ensures { result ≡ self.now.state.config }
    {
        self.inside().config
    }

    /// What the connection counts and knows, besides its streams, table and open block.
    pub fn counts(&self) -> ConnectionState
        ensures { result ≡ self.now.state.core }
    {
        self.inside().core
    }

    /// What is shown of the open field block, if one is open.
    pub fn open_block(&self) -> Option<BlockView>
        ensures { result ≡ shown_block self.now.state.block }
    {
        shown_block(&self.inside().block)
    }

    /// A stream's record, or what represents it where it has none.
    pub fn stream(&self, id: u32) -> Stream
        ensures { result ≡ stream_at self.now.state.core.last self.now.state.streams id }
    {
        self.inside().stream_at(id)
    }

    /// The first stream that has octets of its answer to send, if there is one: it waits for a window of the client's (RFC
    /// 9113, 6.9).
    pub fn first_waiting(&self) -> Option<u32>
        ensures { result ≡ next_waiting 0 self.now.state.streams }
    {
        self.inside().streams.next_waiting(0)
    }

    /// How many entries the header table has.
    pub fn table_entries(&self) -> usize
        ensures { result ≡ length self.now.state.table.entries }
    {
        self.inside().table.len()
    }

    /// What the entries of the header table count together, in octets (RFC 7541, 4.1).
    pub fn table_size(&self) -> usize
        ensures { result ≡ total_size self.now.state.table.entries }
    {
        self.inside().table.size()
    }

    /// The most that the entries of the header table may count together, in octets (RFC 7541, 4.2).
    pub fn table_max(&self) -> u32
        ensures { result ≡ self.now.state.table.max }
    {
        self.inside().table.max()
    }
}
