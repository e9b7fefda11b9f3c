//! Flow control for users of the library: the peer's settings, windows, credit, the server's own settings in force, and
//! what they refuse (RFC 9113, 5.2, 6.5.2 and 6.9).
//! For users of the library; the program does not call `take` of `Window`: its rules ask `is_below` first.
//! The types are declared in `h2_spec` (flow, errors), since definitions use the same ones; here they have the names
//! that a program imports.
//! Definitions: `h2_spec/specs/Settings.antt`, `h2_spec/specs/Window.antt`, `h2_spec/specs/Causes/Errors.antt`.
#![tactic(auto)]

mod refused;

pub use h2_spec::errors::{ErrorCode, FlowFault};
pub use h2_spec::flow::{Credit, LocalSettings, MAX_WINDOW, Settings, Window};
pub use refused::setting_code;

/// The server's own settings that are in force (RFC 9113, 6.5.3).
pub type Own = LocalSettings;
