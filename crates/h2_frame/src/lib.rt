//! Frames of HTTP/2: their heads, the items that octets are split into, and what payloads hold (RFC 9113, 3.4, 4 and
//! 6). Definitions: `h2_spec/specs/Frames/Frame.antt`, `h2_spec/specs/Frames/Payload.antt`, and `specs/` here for what a splitter
//! holds.
#![tactic(auto)]

mod cuts;
pub mod fault;
pub mod head;
mod lending;
mod outbox;
mod outgoing;
pub mod payload;
pub mod splitter;

pub use fault::PayloadFault;
pub use h2_spec::frames::{FrameType, Head};
pub use head::{FrameRef, append_frame, lend_frame, read_head, write_frame};
pub use outbox::Outbox;
pub use outgoing::Outgoing;
pub use payload::{
    DataPart, HeadersPart, Part, SettingsPart, data_of, goaway_of, headers_of, part_of, reset_of,
    settings_of, window_of,
};
pub use splitter::{Item, Splitter, first_item};
