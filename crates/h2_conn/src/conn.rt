//! A connection over octets: items off their front, each all or nothing (RFC 9113, 3.4). Definitions: h2_spec's
//! `specs/Trace.antt`; `specs/Connection.antt` for what a connection represents, `specs/Runs.antt` for what feeding it
//! results in.

ghost use Rattle.std.specs.Prelude.{◌≡◌, ◌++◌, ◌∷◌, ◌<◌, ◌^◌, [], true, false, IfOk, IfErr, IsOk, OnOk, OnErr, Some, option_map};
ghost use Rattle.std.specs.String.{string_bytes};
ghost use Rattle.h2_spec.specs.Causes.Errors.{code_number};
ghost use Rattle.h2_spec.specs.Frames.Frame.{NoItem};
ghost use Rattle.h2_spec.specs.Opening.{opening_octets};
ghost use Rattle.h2_spec.specs.Texts.Show.{show};
ghost use Rattle.h2_spec.specs.State as states;
ghost use Rattle.h2_spec.specs.State.{ended_code, opening};
ghost use Rattle.h2_spec.specs.Texts.View.{view};
ghost use Rattle.h2_conn.specs.Connection.{going, halted, is_ended};
ghost use Rattle.h2_spec.specs.State.{is_allowed};
ghost use Rattle.h2_conn.specs.declared.fault.ConnFault.TheVariants.{Failed, NoMemory};
ghost use Rattle.h2_conn.specs.Faults.{refusal_after, refusal_for};
ghost use Rattle.h2_conn.specs.First.{TakesIfAny};
ghost use Rattle.h2_conn.specs.Checkpoint.{Precedes, checkpoint_of};
ghost use Rattle.h2_conn.specs.Follows.{Follows};
ghost use Rattle.h2_conn.specs.Parts.{AreOfBook, parts_of};
ghost use Rattle.h2_conn.specs.Reports.{reported, used_by};
ghost use Rattle.h2_conn.specs.Runs.{Feeds, FeedsOne, Halts};
ghost use Rattle.h2_conn.specs.Shown.{Shows, fields_at_hand, next_fields};
ghost use Rattle.h2_spec.specs.Trace.{next_item};

use crate::checkpoint::Checkpoint;
use crate::fault::ConnFault;
use crate::feed::feeding::{take_one, take_piece};
use crate::feed::first::empty_splitter;
use crate::feed::one::One;
use crate::field_block::open_block::fields_at_hand;
use crate::field_block::scratch::Scratch;
use crate::parts::ConnParts;
use crate::report::{TakenItem, report_first_in_order};
use crate::state::State;
use crate::view::View;
use h2_conn_send::write_opening;
use h2_fields::collected::Collected;
use h2_frame::{Outgoing, Splitter};
use h2_io::{DeviceFault, Output, Text, string_of};
use h2_request_book::book::Book;
use h2_spec::connection::{Config, Phase};
use std::alloc::{AllocError, Allocator};
use std::marker::Model;

/// Whether a connection error has ended the connection (RFC 9113, 5.4.1).
pub fn is_ended(phase: Phase) -> bool
    ensures { result ≡ is_ended phase }
{
    matches!(phase, Phase::Ended(_))
}

impl<'b, A: Allocator> State<'b, A> {
    pub(crate) fn phase(&self) -> Phase
        ensures { result ≡ self.now.core.phase }
    {
        self.core.phase
    }

    /// The longest payload of a frame that is taken (RFC 9113, 4.2).
    pub(crate) fn limit(&self) -> u32
        ensures value { result ≡ self.now.core.own.frame }
        ensures few { result < 2 ^ 24 }
    {
        self.core.own.frame
    }
}

/// Memory was refused: from now on nothing is taken.
fn refused(failed: &mut bool) -> ConnFault
    ensures failed { failed.new ≡ true }
    ensures fault { result ≡ NoMemory }
{
    *failed = true;
    ConnFault::NoMemory
}

/// The server's end of one connection.
///
/// A contract sees its state, the octets that wait for more, and whether memory was refused. No octets wait after the
/// end.
pub struct Conn<'b, A: Allocator> {
    splitter: Splitter<A>,
    state: State<'b, A>,
    /// Memory for fragments of field blocks.
    scratch: Scratch<A>,
    failed: bool,
}

impl<'b, A: Allocator> Model for Conn<'b, A> {
    ghost use Rattle.h2_conn.specs.Connection.{Connection, connection, IsAtRest};

    ghost Value = { Connection };

    ghost view = { λ c. connection c.failed c.state c.splitter.octets };

    ghost invariant = { λ c. IsAtRest c.failed c.state c.splitter };
}

/// By hand, so that a function that drops a connection makes one call, where a derived `Drop` would drop each part
/// there.
impl<'b, A: Allocator> Drop for Conn<'b, A> {
    fn drop(self) {
        let Self {
            splitter: _,
            state: _,
            scratch: _,
            failed: _,
        } = self;
    }
}

impl<'b, A: Allocator + Copy> Conn<'b, A> {
    /// A connection of which nothing has arrived, with a book of answers and these limits. The opening SETTINGS is
    /// appended to `out`.
    ///
    /// # Errors
    ///
    /// `BadConfig` where a limit or a setting is outside its range (`Config::is_allowed`); then `NoMemory`. Both leave
    /// `out` as it was.
    pub fn new<O: Outgoing<'b, A>>(
        book: &'b Book<A>,
        config: Config,
        out: &mut O,
    ) -> Result<Self, ConnFault>
        ensures opened { IfOk result (λ conn. conn ≡ going (opening book.now config) []) }
        ensures sent { OnOk result (O.octets out.new ≡ O.octets out.old ++ opening_octets config) }
        ensures allowed { OnOk result (is_allowed config ≡ true) }
        ensures fault { IfErr result (λ fault. fault ≡ refusal_for (is_allowed config)) }
        ensures unchanged { OnErr result (O.octets out.new ≡ O.octets out.old) }
    {
        if !config.is_allowed() {
            return Err(ConnFault::BadConfig);
        }
        let alloc = *out.memory();
        let state = State::new(book, config, alloc)?;
        write_opening(config, out)?;
        Ok(Conn {
            splitter: Splitter::new(alloc),
            state,
            scratch: Scratch::new(alloc),
            failed: false,
        })
    }

    /// Takes all items that there are with these octets after those that wait, and says how many. What is sent for them
    /// is appended to `out`. After the end of the connection all octets are dropped.
    ///
    /// # Errors
    ///
    /// `Failed` where an earlier call was refused memory; nothing changes. `NoMemory` where memory is refused: the
    /// items before it are taken whole,
    /// `out` has gained what is sent for them and no more, and from then on the answer is `Failed`.
    pub fn feed<O: Outgoing<'b, A>>(
        &mut self,
        piece: &[u8],
        out: &mut O,
    ) -> Result<usize, ConnFault>
        ensures ok { IfOk result (Feeds self.old piece.now (O.octets out.old) self.new (O.octets out.new)) }
        ensures fault { IfErr result (λ fault. fault ≡ refusal_after self.old.failed) }
        ensures failed { self.old.failed ≡ true → (result ≡ Err Failed) × (self.new ≡ self.old) × (O.octets out.new ≡ O.octets out.old) }
        ensures no_memory { OnErr result (self.old.failed ≡ false → Halts self.old piece.now (O.octets out.old) self.new (O.octets out.new)) }
        ensures over { self.old.failed ≡ false → is_ended self.old.state.core.phase ≡ true → IsOk result }
    {
        if self.failed {
            return Err(ConnFault::Failed);
        }
        match take_piece(
            &mut self.splitter,
            &mut self.state,
            &mut self.scratch,
            piece,
            out,
        ) {
            Ok(count) => Ok(count),
            Err(_) => Err(refused(&mut self.failed)),
        }
    }

    /// Takes the next item with these octets after those that wait, if there is one, and none of the octets after it.
    /// What is sent for it is appended to `out`. After the end of the connection all octets are dropped.
    ///
    /// # Errors
    ///
    /// `Failed` where an earlier call was refused memory; nothing changes. `NoMemory` where memory is refused: the item
    /// is not taken, nothing is sent, and from then on the answer is `Failed`.
    pub fn feed_one<O: Outgoing<'b, A>>(
        &mut self,
        piece: &[u8],
        out: &mut O,
    ) -> Result<One, ConnFault>
        ensures ok { IfOk result (FeedsOne self.old piece.now (O.octets out.old) self.new (O.octets out.new)) }
        ensures fault { IfErr result (λ fault. fault ≡ refusal_after self.old.failed) }
        ensures failed { self.old.failed ≡ true → (result ≡ Err Failed) × (self.new ≡ self.old) × (O.octets out.new ≡ O.octets out.old) }
        ensures no_memory { OnErr result (self.old.failed ≡ false → (self.new ≡ halted self.old.state) × (O.octets out.new ≡ O.octets out.old)) }
        ensures over { self.old.failed ≡ false → is_ended self.old.state.core.phase ≡ true → IsOk result }
    {
        if self.failed {
            return Err(ConnFault::Failed);
        }
        match take_one(
            &mut self.splitter,
            &mut self.state,
            &mut self.scratch,
            piece,
            out,
        ) {
            Ok(one) => Ok(one),
            Err(_) => Err(refused(&mut self.failed)),
        }
    }

    /// Takes the item that these octets begin with, if there is a whole one, and reports what it is, the cause of the
    /// error that it results in, or why it is ignored; none after the end of the connection. No octet is held. What is
    /// sent for it is appended to `out`. The fields that it shows of its block are then what `fields` lends, with this
    /// memory, which is the caller's.
    ///
    /// # Errors
    ///
    /// `AllocError` where memory is refused: nothing of the item is done, and the same item can be taken again.
    pub fn take_and_lend<O: Outgoing<'b, A>>(
        &mut self,
        octets: &[u8],
        memory: &mut Scratch<A>,
        out: &mut O,
    ) -> Result<Option<TakenItem>, AllocError>
        requires ready { self.old ≡ going self.old.state [] }
        ensures ok { IfOk result (λ taken. TakesIfAny self.old.state octets.now (O.octets out.old) self.new.state (O.octets out.new) (used_by taken)) }
        ensures report { IfOk result (λ taken. taken ≡ reported self.old.state (next_item self.old.state octets.now)) }
        ensures fields { OnOk result (Shows (next_fields self.old.state (next_item self.old.state octets.now))
            (fields_at_hand self.new.state.block memory.new.decoding.fields)) }
        ensures ready { self.new ≡ going self.new.state [] }
        ensures follows { OnOk result (Follows self.old.state self.new.state) }
        ensures unchanged { OnErr result ((self.new ≡ self.old) × (O.octets out.new ≡ O.octets out.old)) }
    {
        report_first_in_order(&mut self.splitter, &mut self.state, memory, octets, out)
    }

    /// The fields that the item shows of its block which was taken last, with this memory; what no item shows means
    /// nothing.
    pub fn fields<'f>(&'f self, memory: &'f Scratch<A>) -> &'f Collected<A>
        ensures { result.now.fields ≡ fields_at_hand self.now.state.block memory.now.decoding.fields }
    {
        fields_at_hand(&self.state.block, &memory.decoding)
    }

    /// A copy of the connection, in memory of its own; the book is lent to both, and where one was refused memory, the
    /// copy was too.
    ///
    /// `AllocError` where the memory was refused; `self` is as it was.
    pub fn try_clone(&self) -> Result<Self, AllocError>
        ensures same { IfOk result (λ copy. copy ≡ self.now) }
    {
        let splitter = self.splitter.try_clone()?;
        let state = self.state.try_clone()?;
        Ok(Conn {
            splitter,
            state,
            scratch: Scratch::new(self.scratch.decoding.collected.allocator()),
            failed: self.failed,
        })
    }

    /// The connection in this state, without octets that wait for more. Takes no memory.
    pub(crate) fn at_rest(state: State<'b, A>, alloc: A) -> Self
        ensures { result ≡ going state.entry [] }
    {
        let splitter = empty_splitter(state.phase(), alloc);
        Conn {
            splitter,
            state,
            scratch: Scratch::new(alloc),
            failed: false,
        }
    }

    /// The state that an earlier checkpoint was taken of, made again; the connection is as it was.
    ///
    /// `AllocError` where memory for the state is refused.
    pub(crate) fn state_at(
        &mut self,
        checkpoint: &Checkpoint<'b, A>,
    ) -> Result<State<'b, A>, AllocError>
        requires { Precedes checkpoint.now self.old.state }
        ensures restored { IfOk result (λ state. (s : states.State) → checkpoint.now ≡ checkpoint_of s → Follows s self.old.state → state ≡ s) }
        ensures same { self.new ≡ self.old }
    {
        checkpoint.state_by(&mut self.state)
    }

    /// What is shown of the state; after it ran out of memory that of the items before it.
    ///
    /// `AllocError` where memory for the view is refused.
    pub fn state(&self, alloc: A) -> Result<View<A>, AllocError>
        ensures { IfOk result (λ shown. shown ≡ view self.now.state) }
    {
        self.state.shown().view(alloc)
    }

    /// The text of what is shown of the state, line by line.
    ///
    /// `AllocError` where memory for the text is refused.
    pub fn show(&self, alloc: A) -> Result<String<A>, AllocError>
        ensures { IfOk result (λ text. string_bytes text ≡ show (view self.now.state)) }
    {
        string_of(alloc, self)
    }
}

/// The text of what is shown of the state, line by line. It takes no memory.
impl<'b, A: Allocator> Text for Conn<'b, A> {
    ghost text = { λ c. show (view c.state) };

    fn write_to<O: Output>(&self, output: &mut O) -> Result<(), DeviceFault> {
        self.state.shown().write_to(output)
    }
}

impl<'b, A: Allocator> Conn<'b, A> {
    /// The code of the connection error that ended the connection, if one did (RFC 9113, 5.4.1). Takes no memory.
    pub fn ended(&self) -> Option<u32>
        ensures { result ≡ option_map code_number (ended_code self.now.state.core.phase) }
    {
        match self.state.phase() {
            Phase::Ended(code) => Some(code.number()),
            Phase::Preface | Phase::Settings | Phase::Running => None,
        }
    }

    /// The connection without its book, where no octets wait: `ConnParts::into_conn` makes it again with the same book. Takes
    /// no memory.
    pub fn into_parts(self) -> ConnParts<A>
        requires ready { self ≡ going self.state [] }
        ensures parts { result ≡ parts_of self.entry.state }
        ensures book { AreOfBook self.entry.state.book result }
    {
        let Self {
            splitter: _,
            state,
            scratch: _,
            failed: _,
        } = self;
        state.into_parts()
    }

    /// Its state.
    pub(crate) fn inside(&self) -> &State<'b, A>
        ensures { result.now ≡ self.now.state }
    {
        &self.state
    }

    /// Whether a call was refused memory. Where none was, all items were taken: the octets that wait begin with none,
    /// and after the end of the connection no octets wait. Takes no memory.
    pub fn failed(&self) -> bool
        ensures value { result ≡ self.now.failed }
        ensures no_item { result ≡ false → next_item self.now.state self.now.rest ≡ NoItem }
        ensures over { is_ended self.now.state.core.phase ≡ true → self.now.rest ≡ [] }
    {
        self.failed
    }
}
