//! Frames, settings, error codes and fields in words.
//! `frame_words` has a frame in words, `spelled` how the fields of field blocks are spelled (the law of
//! that is in `laws`).
#![tactic(auto)]

pub mod frame_words;
pub mod laws;
pub mod names;
pub mod sent;
pub mod spelled;
