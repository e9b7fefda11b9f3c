//! h2_bench for programs in other languages, as functions of C: a command over words, a file and an input that the caller
//! has in memory; and a connection that stays between calls. share/h2_bench.h declares them, docs/EMBED.md says how they
//! are called. It is a static library for this machine, and takes memory from `malloc`. Definitions: `specs/Embed.antt`,
//! `specs/Kept.antt`.
#![tactic(auto)]

mod connection;
mod fault;
mod hold;
mod kept;
mod open;
mod owned;
mod parts;
mod put;
mod run;
mod sentence;
mod slot;
mod words;

pub use connection::{
    h2_bench_kept_close, h2_bench_kept_end, h2_bench_kept_feed, h2_bench_kept_open,
    h2_bench_kept_state,
};
pub use run::h2_bench_run;
