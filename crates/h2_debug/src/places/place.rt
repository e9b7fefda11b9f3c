//! A place in a run: a connection, how many items came before it, how many octets it was fed, why the last item was an
//! error or was ignored, what was sent for it, and how many items the connection took itself. Definitions:
//! `specs/Places.antt`.

ghost use Rattle.std.specs.Prelude.{◌≡◌, ◌+◌, ◌-◌, ◌≤◌, [], true, IfErr, IfOk, OnErr, OnOk, nat_lt};
ghost use Rattle.h2_spec.specs.Texts.Show.{show};
ghost use Rattle.h2_spec.specs.Texts.View.{view};
ghost use Rattle.h2_spec.specs.State.{State, is_allowed};
ghost use Rattle.h2_spec.specs.Trace.{next_in};
ghost use Rattle.h2_conn.specs.Checkpoint.{Precedes, checkpoint_of};
ghost use Rattle.h2_conn.specs.Connection.{going};
ghost use Rattle.h2_conn.specs.Faults.{refusal_for};
ghost use Rattle.h2_conn.specs.Follows.{Follows};
ghost use Rattle.h2_debug.specs.Items.{is_item};
ghost use Rattle.h2_debug.specs.Places.{Advances, IsAt, end};

use crate::places::source::Source;
use crate::reasons::Reasons;
use h2_conn::view::View;
use h2_conn::{Checkpoint, Conn, ConnFault, Scratch};
use h2_frame::first_item;
use h2_spec::connection::Phase;
use std::alloc::{AllocError, Allocator};
use std::marker::Model;
use std::mem::swap;

/// Whether octets begin with an item of a connection in this phase, which takes frames up to this length; none after the
/// end of the connection.
fn begins_item(phase: Phase, limit: u32, octets: &[u8]) -> bool
    ensures { result ≡ is_item (next_in phase limit octets.now) }
{
    match phase {
        Phase::Ended(_) => false,
        Phase::Preface => first_item(octets, true, limit).is_some(),
        Phase::Settings | Phase::Running => first_item(octets, false, limit).is_some(),
    }
}

/// A place in a run.
pub struct Place<'b, A: Allocator> {
    conn: Conn<'b, A>,
    position: usize,
    used: usize,
    ran: usize,
    reasons: Reasons,
    sent: Vec<u8, A>,
    /// Memory for what the next item sends.
    spare: Vec<u8, A>,
    /// Memory of items.
    memory: Scratch<A>,
}

impl<'b, A: Allocator> Model for Place<'b, A> {
    ghost use Rattle.h2_debug.specs.Places.{Placed};

    ghost Value = { Placed };

    ghost view = { λ p. record { connection = p.conn; position = p.position; used = p.used; ran = p.ran; reasons = p.reasons; sent = p.sent.items } };
}

/// By hand, so that a function that drops a place makes one call, where a derived `Drop` would drop each part there.
impl<'b, A: Allocator> Drop for Place<'b, A> {
    fn drop(self) {
        let Self {
            conn: _,
            position: _,
            used: _,
            ran: _,
            reasons: _,
            sent: _,
            spare: _,
            memory: _,
        } = self;
    }
}

impl<'b, A: Allocator + Copy> Place<'b, A> {
    /// The start of a run.
    pub fn start(source: &Source<'_, 'b, A>, alloc: A) -> Result<Self, ConnFault>
        ensures place { IfOk result (λ p. IsAt source.now p × (p.position ≡ 0) × (p.ran ≡ 0)) }
        ensures allowed { OnOk result (is_allowed source.now.config ≡ true) }
        ensures fault { IfErr result (λ fault. fault ≡ refusal_for (is_allowed source.now.config)) }
    {
        let mut sent = Vec::new(alloc);
        let conn = Conn::new(source.book, source.config, &mut sent)?;
        Ok(Place {
            conn,
            position: 0,
            used: 0,
            ran: 0,
            reasons: Reasons::none(),
            sent,
            spare: Vec::new(alloc),
            memory: Scratch::new(alloc),
        })
    }

    /// The place of a connection at a position, which was fed that many octets and took no item itself; with the
    /// reasons of its last item, and what was sent for it.
    pub fn of(
        conn: Conn<'b, A>,
        position: usize,
        used: usize,
        reasons: Reasons,
        sent: Vec<u8, A>,
    ) -> Self
        ensures { result ≡ record { connection = conn.entry; position = position; used = used; ran = 0; reasons = reasons; sent = sent.items } }
    {
        let spare = Vec::new(*sent.allocator());
        let memory = Scratch::new(*sent.allocator());
        Place {
            conn,
            position,
            used,
            ran: 0,
            reasons,
            sent,
            spare,
            memory,
        }
    }

    /// A copy of the place, in memory of its own.
    pub fn try_clone(&self) -> Result<Self, AllocError>
        ensures same { IfOk result (λ copy. copy ≡ self.now) }
    {
        let sent = copy_of(&self.sent)?;
        let conn = self.conn.try_clone()?;
        Ok(Place {
            conn,
            position: self.position,
            used: self.used,
            ran: self.ran,
            reasons: self.reasons,
            sent,
            spare: Vec::new(*self.sent.allocator()),
            memory: Scratch::new(*self.sent.allocator()),
        })
    }

    /// What the item at this position sent, in memory of its own.
    pub fn copy_sent(&self) -> Result<Vec<u8, A>, AllocError>
        ensures { IfOk result (λ copy. copy.items ≡ self.now.sent) }
    {
        copy_of(&self.sent)
    }

    /// Takes the next item, if there is one, counts it, and says whether. An `AllocError` leaves the place as it was.
    pub fn advance(&mut self, source: &Source<'_, 'b, A>) -> Result<bool, AllocError>
        requires { IsAt source.now self.old }
        ensures advances { IfOk result (λ more. Advances source.now self.old self.new more) }
        ensures unchanged { OnErr result (self.new ≡ self.old) }
    {
        let octets = source.octets_from(self.used);
        self.spare.clear();
        let Some(taken) = self
            .conn
            .take_and_lend(octets, &mut self.memory, &mut self.spare)?
        else {
            return Ok(false);
        };
        swap(&mut self.sent, &mut self.spare);
        self.used += taken.used;
        self.position += 1;
        self.ran += 1;
        self.reasons = Reasons::of(taken);
        Ok(true)
    }
}

impl<'b, A: Allocator + Copy> Place<'b, A> {
    /// How many items came before it.
    pub fn position(&self) -> usize
        ensures { result ≡ self.now.position }
    {
        self.position
    }

    /// How many items it took since it was made, or since they were last counted anew.
    pub fn ran(&self) -> usize
        ensures { result ≡ self.now.ran }
    {
        self.ran
    }

    /// Counts the items that it takes anew.
    pub fn count_anew(&mut self)
        ensures { self.new ≡ record self.old { ran = 0 } }
    {
        self.ran = 0;
    }

    /// Counts the items from an earlier place up to this one as if they were taken after those that the earlier one took.
    pub fn count_from(&mut self, earlier: &Place<'b, A>)
        requires behind { earlier.now.position ≤ self.old.position }
        requires few { earlier.now.ran ≤ earlier.now.position }
        ensures { self.new ≡ record self.old { ran = earlier.now.ran + (self.old.position - earlier.now.position) } }
    {
        self.ran = earlier.ran + (self.position - earlier.position);
    }

    /// Whether an item follows. It takes no memory.
    pub fn has_next(&self, source: &Source<'_, 'b, A>) -> bool
        requires { IsAt source.now self.now }
        ensures { result ≡ nat_lt self.now.position (end source.now) }
    {
        let core = self.conn.counts();
        begins_item(core.phase, core.own.frame, source.octets_from(self.used))
    }

    /// How many octets the connection was fed.
    pub fn used(&self) -> usize
        ensures { result ≡ self.now.used }
    {
        self.used
    }

    /// What the item at this position sent.
    pub fn sent(&self) -> &[u8]
        ensures { result.now ≡ self.now.sent }
    {
        self.sent.as_slice()
    }

    /// Why the item at this position was an error, or was ignored.
    pub fn reasons(&self) -> Reasons
        ensures { result ≡ self.now.reasons }
    {
        self.reasons
    }

    /// What is shown of the state.
    pub fn view(&self, alloc: A) -> Result<View<A>, AllocError>
        ensures { IfOk result (λ shown. shown ≡ view self.now.connection.state) }
    {
        self.conn.state(alloc)
    }

    /// The connection that an earlier checkpoint was taken of, made again; the place is as it was. `AllocError` if it is out
    /// of memory.
    pub fn conn_at(&mut self, checkpoint: &Checkpoint<'b, A>) -> Result<Conn<'b, A>, AllocError>
        requires { Precedes checkpoint.now self.old.connection.state }
        ensures restored { IfOk result (λ conn. (s : State) → checkpoint.now ≡ checkpoint_of s → Follows s self.old.connection.state → conn ≡ going s []) }
        ensures same { self.new ≡ self.old }
    {
        checkpoint.restore(&mut self.conn)
    }

    /// The connection.
    pub fn conn(&self) -> &Conn<'b, A>
        ensures { result.now ≡ self.now.connection }
    {
        &self.conn
    }
}

/// A copy of the octets.
pub(crate) fn copy_of<A: Allocator + Copy>(octets: &Vec<u8, A>) -> Result<Vec<u8, A>, AllocError>
    ensures { IfOk result (λ copy. copy.items ≡ octets.now.items) }
{
    octets.clone()
}
