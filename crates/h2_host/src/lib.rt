//! What the program has of its host: its words, its files, standard input, output and error. Which device is the input of
//! a command is decided here, by `input`; what is said about a fault, by `ending`. What a command does is given to it
//! (`Commands`), so that nothing here waits for the proofs of the commands. The devices are here too: standard input and
//! output that wait, a file as the input, a person at a terminal.
#![tactic(auto)]

mod case_input;
mod commands;
mod devices;
mod dump_input;
mod ending;
mod items;
mod program;
mod prompt;
mod refused_words;
mod served;
mod session_end;
mod version;

pub use commands::Commands;
pub use devices::files::NamedFiles;
pub use devices::stopwatch::Stopwatch;
pub use devices::taken::{Front, TakenInput};
pub use devices::waiting::{WaitingInput, WaitingOutput};
pub use ending::Ending;
pub use program::run_program;
pub use prompt::console::{Behind, Console, Manner, OctetsExplainer};
pub use prompt::session_output::{Noted, SessionOutput};
pub use prompt::session_state::SessionState;
pub use refused_words::say_refused_words;
pub use served::ServerOutput;
pub use session_end::SessionEnd;
