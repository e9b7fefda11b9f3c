//! The slot in which C keeps a connection between calls. Definitions: `specs/Kept.antt`.

ghost use Rattle.std.specs.Prelude.{◌≡◌, Some, None, true, is_some, option_map, IfSome};
ghost use Rattle.h2_embed.specs.Kept.{IsReady};
ghost use Rattle.std.proofs.Props.{props};

use crate::hold::Hold;
use crate::kept::KeptConnection;
use crate::parts::Parts;
use std::alloc::Global;
use std::mem;

/// A connection that stays between calls, or none. All octets 0 are a slot with none.
#[repr(C)]
pub struct Slot {
    /// Whether there is a connection.
    is_open: bool,
    hold: Hold,
    pub ghost agrees: { is_open ≡ is_some hold.kept },
    pub ghost ready: { IfSome hold.kept (λ kept. IsReady kept) } by { Prim.hlevel props },
}

/// What is held.
fn release(hold: Hold) -> Box<KeptConnection>
    requires held { is_some hold.kept ≡ true }
    requires ready { IfSome hold.kept (λ kept. IsReady kept) }
    ensures value { Some result.value ≡ hold.kept }
    ensures ready { IsReady result.value }
{
    hold.into_parts().into_box()
}

/// Holds a connection.
fn keep(kept: Box<KeptConnection>) -> Hold
    requires ready { IsReady kept.value }
    ensures value { result.kept ≡ Some kept.value }
    ensures ready { IfSome result.kept (λ kept. IsReady kept) }
{
    Hold::of_parts(Parts::of(kept))
}

/// Takes the connection out of a slot, which has none then.
pub(crate) fn take(alloc: Global, slot: &mut Slot) -> Option<Box<KeptConnection>>
    ensures kept { option_map (λ b. b.value) result ≡ slot.old.hold.kept }
    ensures ready { IfSome result (λ b. IsReady b.value) }
    ensures none { slot.new.hold.kept ≡ None }
{
    let empty = Slot {
        is_open: false,
        hold: Hold::none(alloc),
    };
    let Slot { is_open, hold } = mem::replace(slot, empty);
    if is_open {
        return Some(release(hold));
    }
    hold.end();
    None
}

/// Gives the connection of a slot back, if it has one.
pub(crate) fn close(alloc: Global, slot: &mut Slot)
    ensures { slot.new.hold.kept ≡ None }
{
    drop(take(alloc, slot));
}

/// Puts a connection into a slot, from which the one before was taken.
pub(crate) fn put(slot: &mut Slot, kept: Box<KeptConnection>)
    requires none { slot.old.hold.kept ≡ None }
    requires ready { IsReady kept.value }
    ensures { slot.new.hold.kept ≡ Some kept.value }
{
    let full = Slot {
        is_open: true,
        hold: keep(kept),
    };
    let Slot { is_open: _, hold } = mem::replace(slot, full);
    hold.end();
}
