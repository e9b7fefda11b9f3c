//! Devices: what a program reads from and writes to, each with a flag that says whether its last call failed; and
//! texts, which are written to an output and fail only where it does; and texts in memory, put together part by part
//! (`say`), which `json_text` escapes for JSON. Hex text is written by `HexText`, and read here
//! too, by the crate `hex`: pairs of digits alone (`octets_of`), and text with white space anywhere between its digits
//! (`read_hex`). Every hex text that the program reads is read here. Definitions: `body_of` of h2_spec's
//! `specs/Requests/AnswerWords.antt` for digits alone, `specs/HexText.antt` for text.
#![tactic(auto)]

mod gathered;
mod hex_block;
mod hex_digits;
mod hex_input;
mod hex_spaced;
mod hex_text;
mod input;
pub mod json_text;
mod octets;
mod output;
mod plain;
pub mod say;
mod text;
mod wrapped;

pub use gathered::{Gathered, octets_with, string_of};
pub use hex_digits::{is_hex, octet_of, octets_of};
pub use hex_input::{is_hex_text, read_hex};
pub use hex_text::HexText;
pub use input::{Input, MAX_INPUT};
pub use output::{DeviceFault, Output};
pub use text::{Number, SignedNumber, Text};
pub use wrapped::{FromRead, IntoWrite};
