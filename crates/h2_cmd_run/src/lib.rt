//! The program: what the words ask for, from the octets of an input to those of an output. The commands `explain`, `check`,
//! `debug` and `serve` are here; those that need neither the debugger nor what explains items are h2_cmd_batch.
#![tactic(auto)]

mod bless;
mod check;
mod execute;
mod explain;
mod judge;
mod junit;
mod memory;
mod print;
mod server;

pub use execute::{carry_out, debug_over, run, run_on};
pub use h2_cmd_args::Words;
pub use h2_cmd_args::command::{Plan, parse};
pub use h2_serve::{Keeper, NoKeeper, Port, TcpPort};
pub use memory::{Ran, run_in_memory};
pub use server::{form_of, serve};
