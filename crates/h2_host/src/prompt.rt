//! A session with a person or a program at a prompt.

pub(crate) mod console;
pub(crate) mod prompt_commands;
pub(crate) mod session_explainer;
pub(crate) mod session_output;
pub(crate) mod session_state;
pub(crate) mod table_text;
