//! Checkpoints of a connection: what is kept of it where records of streams are only appended, and few of them change. A
//! connection is made again from its checkpoint and the records of the same connection later on. Definitions:
//! `specs/Checkpoint.antt`, over `specs/Follows.antt`.

ghost use Rattle.std.specs.Prelude.{◌≡◌, ℕ, [], IfOk};
ghost use Rattle.h2_spec.specs.State as states;
ghost use Rattle.h2_streams.specs.Rebuilt.{is_this};
ghost use Rattle.h2_conn.specs.Connection.{going};
ghost use Rattle.h2_conn.specs.Checkpoint.{IsConsistent, Precedes, checkpoint_of};
ghost use Rattle.h2_conn.specs.Follows.{Follows, is_reset_by};

use crate::conn::Conn;
use crate::field_block::kept_block::{KeptBlock, keep_open, restore_open};
use crate::field_block::open_block::OpenBlock;
use crate::state::State;
use h2_request_book::book::Book;
use h2_spec::connection::{Config, ConnectionState, Purpose};
use h2_streams::KeptStreams;
use h2_table::KeptTable;
use std::alloc::{AllocError, Allocator};
use std::marker::Model;

/// A checkpoint of a connection: its counts, its open block, its header table, how many records of streams it has, and those
/// of them that can still change. These records, entries of the table, the first fields of a long block and the octets of a long
/// string are shared with other checkpoints.
pub struct Checkpoint<'b, A: Allocator> {
    book: &'b Book<A>,
    config: Config,
    core: ConnectionState,
    block: Option<KeptBlock<A>>,
    table: KeptTable<A>,
    count: usize,
    changing: KeptStreams<A>,
}

impl<'b, A: Allocator> Model for Checkpoint<'b, A> {
    ghost use Rattle.std.specs.Prelude.{◌≡◌};
    ghost use Rattle.h2_spec.specs.State.{configured};
    ghost use Rattle.h2_conn_rules.specs.Sound.{AreInRange};
    ghost use Rattle.h2_conn.specs.Checkpoint.{CheckpointView};

    ghost Value = { CheckpointView };

    ghost view = { λ m. record {
      book = m.book.now;
      config = m.config;
      core = m.core;
      block = m.block;
      table = m.table.table;
      count = m.count;
      changing = m.changing;
    } };

    ghost invariant = { λ m. (m.table.limit ≡ m.core.own.table) × AreInRange (configured m.config) };
}

/// By hand, as that of `Conn`.
impl<'b, A: Allocator> Drop for Checkpoint<'b, A> {
    fn drop(self) {
        let Self {
            book: _,
            config: _,
            core: _,
            block: _,
            table: _,
            count: _,
            changing: _,
        } = self;
    }
}

/// The stream that the end of the open block resets, if it resets one.
fn reset_by<A: Allocator>(block: &Option<OpenBlock<A>>) -> Option<u32>
    ensures { (id : ℕ) → is_this result id ≡ is_reset_by id block.now }
{
    let Some(block) = block else {
        return None;
    };
    match block.purpose() {
        Some(Purpose::Closed) => Some(block.stream()),
        Some(Purpose::Request | Purpose::Trailers | Purpose::TableOnly) | None => None,
    }
}

/// The header table of a checkpoint, if there is a checkpoint.
fn table_of<'m, A: Allocator>(
    checkpoint: Option<&'m Checkpoint<'_, A>>,
) -> Option<&'m KeptTable<A>> {
    match checkpoint {
        Some(checkpoint) => Some(&checkpoint.table),
        None => None,
    }
}

/// The open block of a checkpoint, if there is a checkpoint and it has one.
fn block_of<'m, A: Allocator>(
    checkpoint: Option<&'m Checkpoint<'_, A>>,
) -> Option<&'m KeptBlock<A>> {
    match checkpoint {
        Some(checkpoint) => checkpoint.block.as_ref(),
        None => None,
    }
}

/// The records of streams in a checkpoint, if there is a checkpoint.
fn changing_of<'m, A: Allocator>(
    checkpoint: Option<&'m Checkpoint<'_, A>>,
) -> Option<&'m KeptStreams<A>> {
    match checkpoint {
        Some(checkpoint) => Some(&checkpoint.changing),
        None => None,
    }
}

impl<'b, A: Allocator + Copy> State<'b, A> {
    /// A checkpoint of the state, which shares with an earlier one what both have; `AllocError` where memory for it is refused.
    fn checkpoint(
        &self,
        earlier: Option<&Checkpoint<'b, A>>,
    ) -> Result<Checkpoint<'b, A>, AllocError>
        ensures { IfOk result (λ checkpoint. checkpoint ≡ checkpoint_of self.now) }
    {
        let reset = reset_by(&self.block);
        let block = keep_open(&self.block, block_of(earlier))?;
        let table = self.table.keep(table_of(earlier))?;
        let changing = self.streams.keep(reset, changing_of(earlier))?;
        Ok(Checkpoint {
            book: self.book,
            config: self.config,
            core: self.core,
            block,
            table,
            count: self.streams.count(),
            changing,
        })
    }
}

impl<'b, A: Allocator + Copy> Checkpoint<'b, A> {
    /// The state that the checkpoint was taken of, made again from the records of a later one, which is as it was.
    pub(crate) fn state_by(&self, later: &mut State<'b, A>) -> Result<State<'b, A>, AllocError>
        requires { Precedes self.now later.old }
        ensures restored { IfOk result (λ state. (s : states.State) → self.now ≡ checkpoint_of s → Follows s later.old → state ≡ s) }
        ensures same { later.new ≡ later.old }
    {
        later.consistent();
        let changing = self.changing.list()?;
        let table = self.table.restore()?;
        let block = restore_open(&self.block)?;
        let streams = later.streams.rebuilt(self.count, self.core.last, changing)?;
        Ok(State {
            book: self.book,
            config: self.config,
            core: self.core,
            block,
            table,
            streams,
        })
    }

    /// The connection that the checkpoint was taken of, made again from the same connection later on. Both share the records that
    /// cannot change any more; no item is taken.
    ///
    /// `AllocError` where memory for the connection is refused. The later connection is as it was.
    pub fn restore(&self, later: &mut Conn<'b, A>) -> Result<Conn<'b, A>, AllocError>
        requires { Precedes self.now later.old.state }
        ensures restored { IfOk result (λ conn. (s : states.State) → self.now ≡ checkpoint_of s → Follows s later.old.state → conn ≡ going s []) }
        ensures same { later.new ≡ later.old }
    {
        let state = later.state_at(self)?;
        Ok(Conn::at_rest(state, *self.changing.allocator()))
    }
}

impl<'b, A: Allocator + Copy> Conn<'b, A> {
    /// A checkpoint of the connection, from which it can be made again later on. What it has in common with an earlier checkpoint of
    /// the same connection is in memory once.
    ///
    /// `AllocError` where memory for it is refused.
    pub fn checkpoint(
        &self,
        earlier: Option<&Checkpoint<'b, A>>,
    ) -> Result<Checkpoint<'b, A>, AllocError>
        ensures taken { IfOk result (λ checkpoint. checkpoint ≡ checkpoint_of self.now.state) }
        ensures consistent { IsConsistent self.now.state }
    {
        let state = self.inside();
        state.consistent();
        state.checkpoint(earlier)
    }
}
