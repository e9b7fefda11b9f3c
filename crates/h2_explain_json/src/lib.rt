//! An account of an item as a line of JSON (`json`), put together member by member (`json_words`); so are its warnings
//! (`warnings`), and what is after the last item (`end`). The values are those of h2_explain_text.
#![tactic(auto)]

mod allowed;
pub mod end;
pub mod json;
pub mod json_words;
pub mod warnings;
