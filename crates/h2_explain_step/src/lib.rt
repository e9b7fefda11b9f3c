//! An item of a connection explained: it is taken with what was before it and what is after it, and what it is, what it
//! changed and which rule it breaks are found. Explanations of whole inputs are h2_explain.
//! The values are those of h2_explain_item; h2_explain_text shows them as text.
#![tactic(auto)]

pub mod explainer;
pub mod taking;
mod unshown_changes;
