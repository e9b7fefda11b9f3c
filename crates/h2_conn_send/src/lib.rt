//! Sending: the frames of a change, the opening SETTINGS, and the pending bodies of answers as DATA, as far as the
//! windows go (RFC 9113, 5.2 and 6.9). A call writes after what is in `out`; it is whole, or says what it leaves. The
//! definitions are in `h2_spec`, `specs/SendPending.antt` and `specs/Change.antt`; what has to hold of the records is in
//! specs/Sending.antt here.
#![tactic(auto)]

mod opening;
mod pieces;
mod send_change;
mod send_pending;
mod send_update;
mod write;

pub use opening::write_opening;
pub use pieces::octets_at;
pub use send_change::{send_and_update, with_sent};
pub use send_pending::without;
pub use write::write_goaway;
