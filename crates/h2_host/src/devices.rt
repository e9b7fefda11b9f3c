//! Inputs, outputs, files and times, as the commands get them.

pub(crate) mod copied;
pub(crate) mod file_word;
pub(crate) mod files;
pub(crate) mod input;
pub(crate) mod stopwatch;
pub(crate) mod taken;
pub(crate) mod waiting;
