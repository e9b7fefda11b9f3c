//! The state of a connection: all that an item can change (RFC 9113, 5, 6.5 and 6.9). Definition: h2_spec's
//! `specs/State.antt`.

ghost use Rattle.std.specs.Prelude.{◌≡◌, true, IfOk, IsTrue};
ghost use Rattle.h2_conn.specs.Checkpoint.{IsConsistent};
ghost use Rattle.h2_conn.specs.Parts.{AreOfBook, parts_of};
ghost use Rattle.h2_conn.specs.Records.{records};
ghost use Rattle.h2_conn_rules.specs.Sound.{AreInRange, HasBody, IsSoundState, IsSoundStream, in_force};
ghost use Rattle.h2_spec.specs.State.{configured, opening, opening_core};
ghost use Rattle.h2_spec.specs.Stream.{is_live, kind_of, stream_at};

use crate::field_block::open_block::{OpenBlock, copy_of};
use crate::parts::ConnParts;
use h2_request_book::book::Book;
use h2_spec::connection::{Config, ConnectionState, Phase};
use h2_spec::flow::{Credit, LocalSettings, Settings, Window};
use h2_spec::streams::Stream;
use h2_streams::Streams;
use h2_table::DynTable;
use std::alloc::{AllocError, Allocator};
use std::marker::Model;

/// All that an item can change, and the book and the limits that it is changed by.
pub struct State<'b, A: Allocator> {
    /// The answers.
    pub book: &'b Book<A>,
    /// The limits and the settings that the server was given.
    pub config: Config,
    /// The counts of the connection: its phase, windows and settings.
    pub core: ConnectionState,
    /// The open field block, if one is open (RFC 9113, 4.3).
    pub block: Option<OpenBlock<A>>,
    /// The dynamic table of the client's field blocks (RFC 7541, 2.3.2).
    pub table: DynTable<A>,
    /// The records of all streams that were opened (RFC 9113, 5.1).
    pub streams: Streams<A>,
}

impl<'b, A: Allocator> Model for State<'b, A> {
    ghost use Rattle.std.specs.Prelude.{◌≡◌};
    ghost use Rattle.h2_spec.specs.State as state;
    ghost use Rattle.h2_spec.specs.State.{configured};
    ghost use Rattle.h2_conn.specs.Blocks.{IsOpenFor};
    ghost use Rattle.h2_conn_rules.specs.Sound.{AreInRange, IsSoundState};

    ghost Value = { state.State };

    ghost view = { λ s. record { book = s.book.now; config = s.config; core = s.core; block = s.block; table = s.table.table; streams = s.streams.streams } };

    ghost invariant = { λ s. IsSoundState s.book.now s.core s.streams × (s.table.limit ≡ s.core.own.table)
        × IsOpenFor s.streams s.block × AreInRange (configured s.config) };
}

/// By hand, as that of `Conn`.
impl<'b, A: Allocator> Drop for State<'b, A> {
    fn drop(self) {
        let Self {
            book: _,
            config: _,
            core: _,
            block: _,
            table: _,
            streams: _,
        } = self;
    }
}

/// The counts and settings before anything came.
fn opening_core() -> ConnectionState
    ensures { result ≡ opening_core }
{
    ConnectionState {
        phase: Phase::Preface,
        last: 0,
        recv: Window::start(65535),
        owed: Credit::none(),
        send: Window::start(65535),
        peer: Settings::initial(),
        own: LocalSettings::initial(),
        acked: false,
        goaway: None,
    }
}

impl<'b, A: Allocator + Copy> State<'b, A> {
    /// The state before anything came, with this book and these limits.
    ///
    /// `AllocError` where memory for the header table is refused.
    pub fn new(book: &'b Book<A>, config: Config, alloc: A) -> Result<Self, AllocError>
        requires { AreInRange (configured config) }
        ensures { IfOk result (λ state. state ≡ opening book.now config) }
    {
        let table = DynTable::new(alloc, 4096)?;
        Ok(State {
            book,
            config,
            core: opening_core(),
            block: None,
            table,
            streams: Streams::new(alloc),
        })
    }

    /// A copy of the state, in memory of its own; the book is lent to both.
    ///
    /// `AllocError` where the memory was refused; `self` is as it was.
    pub fn try_clone(&self) -> Result<Self, AllocError>
        ensures { IfOk result (λ copy. copy ≡ self.now) }
    {
        let streams = self.streams.try_clone()?;
        let table = self.table.try_clone()?;
        let block = copy_of(&self.block)?;
        Ok(State {
            book: self.book,
            config: self.config,
            core: self.core,
            block,
            table,
            streams,
        })
    }
}

impl<'b, A: Allocator + Copy> State<'b, A> {
    /// The counts.
    pub fn core(&self) -> ConnectionState
        ensures counts { result ≡ self.now.core }
        ensures sound { IsSoundState self.now.book result (records self.now) }
    {
        self.core
    }

    /// Looks a live stream's record up, so that what comes next finds it at once. Where it returns `true` the stream is live.
    #[inline(always)]
    pub fn look_up(&mut self, id: u32) -> bool
        ensures same { self.new ≡ self.old }
        ensures live { IsTrue result → is_live (kind_of self.old.core.last self.old.streams id) ≡ true }
    {
        self.streams.look_up(id)
    }

    /// A stream's record, or what represents it where it has none.
    #[inline(always)]
    pub fn stream_at(&self, id: u32) -> Stream
        ensures value { result ≡ stream_at self.now.core.last self.now.streams id }
        ensures id { result.id ≡ id }
        ensures found { result ≡ stream_at self.now.core.last self.now.streams result.id }
        ensures sound { IsSoundStream (in_force self.now.core) result }
        ensures waits { HasBody self.now.book result }
    {
        self.streams.stream_at(id)
    }
}

impl<'b, A: Allocator> State<'b, A> {
    /// The state without its book.
    pub(crate) fn into_parts(self) -> ConnParts<A>
        ensures parts { result ≡ parts_of self.entry }
        ensures book { AreOfBook self.entry.book result }
    {
        let Self {
            book: _,
            config,
            core,
            block,
            table,
            streams,
        } = self;
        ConnParts {
            config,
            core,
            block,
            table,
            streams,
        }
    }

    /// For the prover alone, as each `let _` of these crates: what is true of the state of every connection.
    pub fn consistent(&self)
        ensures { IsConsistent self.now }
    {
        let _rising = self.streams.last();
    }
}
