//! Sentences that say why words, a file or an input were refused: what is wrong, where, and what to do.
//! They are put where something is refused, into the `Reasons` of the command. Each is a line; what a file or a word has in
//! it is cut and escaped as in `explain`. Texts have no definition: transcripts compare them.
#![tactic(auto)]

mod answer;
mod dump;
mod entry;
mod hex;
mod limits;
mod place;
mod read;
mod script;
mod session;
mod table;
mod written;

pub use answer::{say_answer, say_no_answer};
pub use dump::{has_offsets, is_capture, type_number};
pub use entry::{field_reason, say_entry};
pub use h2_io::say::{Cut, Say, TextBuilder};
pub use hex::{UNCLEAR, has_digits, say_capture, say_no_hex, say_octets, say_warnings};
pub use limits::{Range, range_of, say_limits, say_no_file, say_range};
pub use place::{InputSource, Quoted, Reasons, TextPlace, place_at};
pub use read::{file_reason, say_no_text, say_too_long, say_unread};
pub use script::say_bad_line;
pub use session::{say_more_octets, say_session_fault};
pub use table::TableReasons;
pub use written::{say_no_memory, say_port, say_unrecorded, say_unwritten};
