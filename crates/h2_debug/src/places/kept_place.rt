//! What a debugger keeps of places, so that later moves can start from them: a checkpoint of the connection, which is made
//! again from the records of the farthest place. Definitions: `specs/Places.antt`.

ghost use Rattle.std.specs.Prelude.{◌≡◌, [], IfOk};
ghost use Rattle.h2_conn.specs.Connection.{going};
ghost use Rattle.h2_conn.specs.Checkpoint.{IsConsistent, Precedes};
ghost use Rattle.h2_conn.specs.Follows.{Follows};
ghost use Rattle.h2_debug.specs.Places.{Placed, kept_of};

use crate::places::place::{Place, copy_of};
use crate::reasons::Reasons;
use h2_conn::Checkpoint;
use std::alloc::{AllocError, Allocator};
use std::marker::Model;

/// What is kept of a place.
pub struct KeptPlace<'b, A: Allocator> {
    checkpoint: Checkpoint<'b, A>,
    position: usize,
    used: usize,
    reasons: Reasons,
    sent: Vec<u8, A>,
}

impl<'b, A: Allocator> Model for KeptPlace<'b, A> {
    ghost use Rattle.h2_debug.specs.Places as places;

    ghost Value = { places.KeptPlace };

    ghost view = { λ k. record { checkpoint = k.checkpoint; position = k.position; used = k.used; reasons = k.reasons; sent = k.sent.items } };
}

/// By hand, as that of `Place`.
impl<'b, A: Allocator> Drop for KeptPlace<'b, A> {
    fn drop(self) {
        let Self {
            checkpoint: _,
            position: _,
            used: _,
            reasons: _,
            sent: _,
        } = self;
    }
}

/// The checkpoint in what was kept of a place, if something was.
fn checkpoint_in<'m, 'b, A: Allocator>(
    kept: Option<&'m KeptPlace<'b, A>>,
) -> Option<&'m Checkpoint<'b, A>> {
    match kept {
        Some(kept) => Some(&kept.checkpoint),
        None => None,
    }
}

impl<'b, A: Allocator + Copy> KeptPlace<'b, A> {
    /// What is kept of a place, which shares what it can with what was kept of an earlier one; `AllocError` if it is out
    /// of memory.
    pub fn of(place: &Place<'b, A>, earlier: Option<&KeptPlace<'b, A>>) -> Result<Self, AllocError>
        ensures same { IfOk result (λ kept. kept ≡ kept_of place.now) }
        ensures consistent { IsConsistent place.now.connection.state }
    {
        let checkpoint = place.conn().checkpoint(checkpoint_in(earlier))?;
        let sent = place.copy_sent()?;
        Ok(KeptPlace {
            checkpoint,
            position: place.position(),
            used: place.used(),
            reasons: place.reasons(),
            sent,
        })
    }

    /// The place of which this was kept, made again from a later one, which is as it was; `AllocError` if it is out of
    /// memory.
    pub fn restore(&self, later: &mut Place<'b, A>) -> Result<Place<'b, A>, AllocError>
        requires { Precedes self.now.checkpoint later.old.connection.state }
        ensures restored { IfOk result (λ place. (p : Placed) → self.now ≡ kept_of p → p.connection ≡ going p.connection.state [] → Follows p.connection.state later.old.connection.state → place ≡ record p { ran = 0 }) }
        ensures same { later.new ≡ later.old }
    {
        let sent = copy_of(&self.sent)?;
        let conn = later.conn_at(&self.checkpoint)?;
        Ok(Place::of(conn, self.position, self.used, self.reasons, sent))
    }
}
