//! A connection between two items without the book that it borrows, so that its owner can keep both and move them.
//! Definitions: `specs/Parts.antt`.

ghost use Rattle.std.specs.Prelude.{◌≡◌, []};
ghost use Rattle.h2_conn.specs.Connection.{going};
ghost use Rattle.h2_conn.specs.Parts.{AreOfBook, parts_of, state_of};

use crate::conn::Conn;
use crate::field_block::open_block::OpenBlock;
use crate::state::State;
use h2_request_book::book::Book;
use h2_spec::connection::{Config, ConnectionState};
use h2_streams::Streams;
use h2_table::DynTable;
use std::alloc::Allocator;
use std::marker::Model;

/// All of a connection between two items but the book that it borrows: its limits, its counts, its open block, its header
/// table and the records of its streams.
pub struct ConnParts<A: Allocator> {
    pub(crate) config: Config,
    pub(crate) core: ConnectionState,
    pub(crate) block: Option<OpenBlock<A>>,
    pub(crate) table: DynTable<A>,
    pub(crate) streams: Streams<A>,
}

impl<A: Allocator> Model for ConnParts<A> {
    ghost use Rattle.std.specs.Prelude.{◌≡◌};
    ghost use Rattle.h2_spec.specs.State.{configured};
    ghost use Rattle.h2_conn.specs.Blocks.{IsOpenFor};
    ghost use Rattle.h2_conn.specs.Parts.{PartsView};
    ghost use Rattle.h2_conn_rules.specs.Sound.{AreInRange, IsSoundConnectionState};

    ghost Value = { PartsView };

    ghost view = { λ p. record { config = p.config; core = p.core; block = p.block; table = p.table.table; streams = p.streams.streams } };

    ghost invariant = { λ p. IsSoundConnectionState p.core × (p.streams.last ≡ p.core.last) × (p.table.limit ≡ p.core.own.table)
        × IsOpenFor p.streams p.block × AreInRange (configured p.config) };
}

/// By hand, as that of `Conn`.
impl<A: Allocator> Drop for ConnParts<A> {
    fn drop(self) {
        let Self {
            config: _,
            core: _,
            block: _,
            table: _,
            streams: _,
        } = self;
    }
}

impl<A: Allocator> ConnParts<A> {
    /// The state that has these parts and this book.
    fn into_state<'b>(self, book: &'b Book<A>) -> State<'b, A>
        requires { AreOfBook book.now self }
        ensures { result ≡ state_of book.now self }
    {
        let Self {
            config,
            core,
            block,
            table,
            streams,
        } = self;
        State {
            book,
            config,
            core,
            block,
            table,
            streams,
        }
    }
}

impl<A: Allocator + Copy> ConnParts<A> {
    /// The connection that has these parts and this book, which is the one that it had, or an equal one. No octets wait.
    /// Takes no memory.
    pub fn into_conn<'b>(self, alloc: A, book: &'b Book<A>) -> Conn<'b, A>
        requires { AreOfBook book.now self }
        ensures { result ≡ going (state_of book.now self) [] }
    {
        Conn::at_rest(self.into_state(book), alloc)
    }
}
