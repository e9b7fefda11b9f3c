//! Worked examples, computed from the definitions: Appendix C of RFC 7541, single rules, frames, whole runs, early
//! answers, own settings, grants (`proofs/..Rows.antt`, `proofs/Runs.antt`, `proofs/LongBodies.antt`). They have no code,
//! and no other crate needs them, so the proof of the program does not wait for them.
#![tactic(auto)]
