//! An item of a connection as values: what it is, and what was before it and what is after it (`item`); what was noted
//! of streams and of field blocks before it (`notes`); the client's header table, entry by entry (`header_table`).
//! What it changes, count by count (`changes`, `count`), and the laws that nothing is left out (`change_laws`). What is
//! found out about it beside its cause: the special case of its rule (`special`), the facts that decide that and the
//! other faults of its block (`facts`, `fields`), what the client may not do and this server lets pass (`warning`; by the
//! fields, the frame and the run: `request_facts`, `frame_facts`, `run_facts`), what the client was granted before a read
//! (`granted`), and the values that a sentence about an error needs (`error_context`). Nothing here takes an item: that is
//! h2_explain_step's.
#![tactic(auto)]

pub mod answer_fields;
pub mod change;
pub mod diagnosis;
pub mod item;
pub mod notes;
pub mod shown_block;
pub mod shown_laws;
