//! One connection: what each item changes, and what is sent for it (RFC 9113, 3.4 to 6). The types of its configuration
//! and of its view are offered here too.
#![tactic(auto)]

mod checkpoint;
mod conn;
mod effect;
mod fault;
mod feed;
mod field_block;
mod look;
mod parts;
pub mod play;
pub mod report;
mod state;
pub mod view;

pub use checkpoint::Checkpoint;
pub use conn::{Conn, is_ended};
pub use fault::ConnFault;
pub use feed::one::One;
pub use field_block::scratch::Scratch;
pub use h2_conn_send::write_opening;
pub use h2_spec::connection::{BlockView, Config, Phase};
pub use h2_spec::flow::Settings;
pub use h2_spec::streams::{Numbers, StreamView};
pub use parts::ConnParts;
pub use report::TakenItem;
pub use view::View;
