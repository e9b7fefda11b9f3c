//! What users of the library call by the name of the program: its commands (`h2_cmd_run`), what drives a connection over a wire
//! (`h2_serve`), and what serves a listener's connections (`h2_serve`).
#![tactic(auto)]

pub use h2_cmd_batch::{BenchFault, parse_answer};
pub use h2_cmd_run::{
    Keeper, NoKeeper, Plan, Ran, Words, carry_out, parse, run, run_in_memory, run_on, serve,
};
pub use h2_serve::{DriveEnd, DriveFault, ServeFault, Socket, Wire, WireFault, drive, serve_on};
