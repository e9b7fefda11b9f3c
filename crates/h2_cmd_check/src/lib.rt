//! Cases: scripts of a client with what is expected of the server written into their comments.
//! The verdict on a case is a value, and the text of the Test Anything Protocol is a view of it.
//! Definitions: `specs/Cases.antt` (when the lines of a case hold), over those of h2_cmd_cases (what a line says).
#![tactic(auto)]

mod bless;
mod case_debugger;
mod command;
mod fault;
mod growing;
mod junit;
mod pattern;
mod run;
mod tap;
mod texts;
mod verdict;
mod walk;

pub use bless::{add_lines, bless_case};
pub use fault::CaseFault;
pub use junit::{Suite, junit_text, tap_text};
pub use tap::{Title, plan_line, result_front, verdict_text};
pub use texts::octets_of_lines;
pub use verdict::{CaseVerdict, Wrong, check_case};
