//! A change is made: its frames are sent, and the counts get their values; where memory is refused, nothing is done
//! (RFC 9113, 5.4). Definitions: h2_spec's `specs/Change.antt`, `specs/SendPending.antt`.

ghost use Rattle.std.specs.Prelude.{◌≡◌, ◌≤◌, pos, ◌-ℤ◌};
ghost use Rattle.h2_spec.specs.Change as changes;
ghost use Rattle.h2_spec.specs.Requests.Headers.{Breaks, Makes, makes};
ghost use Rattle.h2_spec.specs.Window.{sendable};
ghost use Rattle.h2_spec.specs.declared.connection.Phase.TheVariants as phase;
ghost use Rattle.h2_conn.specs.Blocks.{IsOpenFor, IsStopped};
ghost use Rattle.h2_conn.specs.Counts.{IsCounted, LeavesCounts, with_counts};
ghost use Rattle.h2_spec.specs.Does.{Settles};
ghost use Rattle.h2_conn.specs.Records.{records};
ghost use Rattle.h2_conn_rules.specs.Sound.{IsSound, IsSoundChange, in_force, updated_records};

use crate::field_block::open_block::OpenBlock;
use crate::state::State;
use h2_conn_rules::change::verdict_of;
use h2_conn_send::{send_and_update, with_sent, without, write_goaway};
use h2_frame::Outgoing;
use h2_spec::causes::Cause;
use h2_spec::connection::{ConnectionState, Phase};
use h2_spec::errors::ErrorCode;
use h2_spec::reactions::{Change, Reaction, Verdict};
use std::alloc::{AllocError, Allocator};

/// The counts that most items leave as they are become other ones, with octets taken from the send window.
#[inline(always)]
fn set_counts(core: &mut ConnectionState, after: &ConnectionState, count: u64)
    requires within { count ≤ sendable after.now.send }
    requires same { after.now ≡ with_counts core.old after.now }
    ensures { core.new ≡ record after.now { send = after.now.send -ℤ pos count } }
{
    core.last = after.last;
    core.recv = after.recv;
    core.owed = after.owed;
    core.send = without(after.send, count);
    core.peer.size_update_pending = after.peer.size_update_pending;
}

/// Ends the decoding of the block that is open.
fn stop<A: Allocator + Copy>(block: &mut Option<OpenBlock<A>>)
    ensures { block.new ≡ changes.only_shown block.old }
{
    match block {
        None => {}
        Some(block) => block.stop(),
    }
}

/// The counts after a connection error: the phase alone is another (RFC 9113, 5.4.1).
fn ended_by(code: ErrorCode, core: ConnectionState) -> ConnectionState
    ensures { result ≡ record core { phase = phase.Ended code } }
{
    ConnectionState {
        phase: Phase::Ended(code),
        ..core
    }
}

impl<'b, A: Allocator + Copy> State<'b, A> {
    /// Makes a change, and sends its frames and then the pending output; or does nothing. Answers how its item is judged.
    #[inline(always)]
    pub fn apply_change<O: Outgoing<'b, A>>(
        &mut self,
        change: &Change,
        out: &mut O,
    ) -> Result<Verdict, AllocError>
        requires kept { IsOpenFor (updated_records change.now.record_update (records self.old)) self.old.block }
        requires sound { IsSoundChange self.old.book (records self.old) (in_force self.old.core) change.now }
        ensures { Settles self.old (O.octets out.old) (Makes self.old change.now) result self.new (O.octets out.new) }
    {
        let count = send_and_update(self.book, &mut self.streams, change, out)?;
        self.core = with_sent(change.core, count);
        Ok(verdict_of(change))
    }
}

impl<'b, A: Allocator + Copy> State<'b, A> {
    // Writes the counts only, for rules that leave phase and settings: some 300 instructions less than moving
    // a whole change.
    /// Makes a change that leaves the phase and the settings as they are, and sends its frames and then the pending
    /// output; or does nothing. The counts change in place. Answers how its item is judged.
    #[inline(always)]
    pub fn apply_in_place<O: Outgoing<'b, A>>(
        &mut self,
        change: &Change,
        out: &mut O,
    ) -> Result<Verdict, AllocError>
        requires kept { IsOpenFor (updated_records change.now.record_update (records self.old)) self.old.block }
        requires sound { IsSoundChange self.old.book (records self.old) (in_force self.old.core) change.now }
        requires same { change.now.core ≡ with_counts self.old.core change.now.core }
        ensures { Settles self.old (O.octets out.old) (Makes self.old change.now) result self.new (O.octets out.new) }
    {
        let count = send_and_update(self.book, &mut self.streams, change, out)?;
        set_counts(&mut self.core, &change.core, count);
        Ok(verdict_of(change))
    }
}

impl<'b, A: Allocator + Copy> State<'b, A> {
    // Writes the send window only, for rules that leave all counts, as PING and RST_STREAM do.
    /// Makes a change that leaves the counts as they are, and sends its frames and then the pending output, which the send
    /// window pays for; or does nothing. Answers how its item is judged.
    #[inline(always)]
    pub fn apply_leaving_counts<O: Outgoing<'b, A>>(
        &mut self,
        change: &Change,
        out: &mut O,
    ) -> Result<Verdict, AllocError>
        requires kept { IsOpenFor (updated_records change.now.record_update (records self.old)) self.old.block }
        requires sound { IsSoundChange self.old.book (records self.old) (in_force self.old.core) change.now }
        requires same { change.now.core ≡ self.old.core }
        ensures { Settles self.old (O.octets out.old) (Makes self.old change.now) result self.new (O.octets out.new) }
    {
        let count = send_and_update(self.book, &mut self.streams, change, out)?;
        self.core.send = without(self.core.send, count);
        Ok(verdict_of(change))
    }
}

impl<'b, A: Allocator + Copy> State<'b, A> {
    /// Ends the connection with a GOAWAY, or does nothing; an open block is decoded no more. Answers that the item is an
    /// error for this cause.
    pub fn fail<O: Outgoing<'b, A>>(
        &mut self,
        cause: Cause,
        out: &mut O,
    ) -> Result<Verdict, AllocError>
        ensures { Settles self.old (O.octets out.old) (Breaks cause) result self.new (O.octets out.new) }
    {
        let code = cause.code();
        write_goaway(self.core.last, code, out)?;
        self.core = ended_by(code, self.core);
        stop(&mut self.block);
        Ok(Verdict {
            cause: Some(cause),
            ignored: None,
        })
    }
}

impl<'b, A: Allocator + Copy> State<'b, A> {
    /// A connection error or a change, or nothing; no block is open that is still decoded.
    #[inline(always)]
    pub fn conclude<O: Outgoing<'b, A>>(
        &mut self,
        reaction: Reaction,
        out: &mut O,
    ) -> Result<Verdict, AllocError>
        requires stopped { IsStopped self.old.block }
        requires sound { IsSound self.old.book (records self.old) (in_force self.old.core) reaction }
        ensures { Settles self.old (O.octets out.old) (makes self.old reaction) result self.new (O.octets out.new) }
    {
        match &reaction {
            Reaction::ConnectionError(cause) => self.fail(*cause, out),
            Reaction::Continues(change) => self.apply_change(change, out),
        }
    }

    /// A connection error, or a change that leaves most counts as they are, or nothing; no block is open that is still decoded.
    #[inline(always)]
    pub fn conclude_in_place<O: Outgoing<'b, A>>(
        &mut self,
        reaction: Reaction,
        out: &mut O,
    ) -> Result<Verdict, AllocError>
        requires stopped { IsStopped self.old.block }
        requires sound { IsSound self.old.book (records self.old) (in_force self.old.core) reaction }
        requires counts { IsCounted self.old.core reaction }
        ensures { Settles self.old (O.octets out.old) (makes self.old reaction) result self.new (O.octets out.new) }
    {
        match &reaction {
            Reaction::ConnectionError(cause) => self.fail(*cause, out),
            Reaction::Continues(change) => self.apply_in_place(change, out),
        }
    }

    /// A connection error, or a change that leaves the counts as they are, or nothing; no block is open that is still decoded.
    #[inline(always)]
    pub fn conclude_leaving_counts<O: Outgoing<'b, A>>(
        &mut self,
        reaction: Reaction,
        out: &mut O,
    ) -> Result<Verdict, AllocError>
        requires stopped { IsStopped self.old.block }
        requires sound { IsSound self.old.book (records self.old) (in_force self.old.core) reaction }
        requires counts { LeavesCounts self.old.core reaction }
        ensures { Settles self.old (O.octets out.old) (makes self.old reaction) result self.new (O.octets out.new) }
    {
        match &reaction {
            Reaction::ConnectionError(cause) => self.fail(*cause, out),
            Reaction::Continues(change) => self.apply_leaving_counts(change, out),
        }
    }
}
