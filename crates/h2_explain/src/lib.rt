//! What a connection does with the octets of a client, item by item: what each is, what was sent for it, what it
//! changed, and why it is an error or is ignored.
//! The values are those of h2_explain_item; h2_explain_text shows them as text, h2_explain_json as JSON.
#![tactic(auto)]

mod end;
mod item_outbox;
mod portion;
mod recorder;
mod run;
mod run_explainer;
mod shown;
mod verdict;
mod verdict_words;

pub use end::{End, rest_of};
pub use h2_explain_item::change::changes::{ShownChange, UnshownChange};
pub use h2_explain_item::change::count::Count;
pub use h2_explain_item::change::header_table::{EntryChange, Followed, ShownEntry};
pub use h2_explain_item::diagnosis::request_facts::RequestFacts;
pub use h2_explain_item::diagnosis::special::CaseFacts;
pub use h2_explain_item::diagnosis::warning::{Warning, Warnings};
pub use h2_explain_item::item::{Explained, Moment};
pub use h2_explain_item::notes::{Notes, StreamNote};
pub use h2_explain_step::explainer::ItemExplainer;
pub use h2_explain_step::taking::{Observed, take_item};
pub use h2_explain_text::account::Account;
pub use h2_explain_text::waits::{AnswerWait, RequestWait, Wait};
pub use item_outbox::ItemOutbox;
pub use recorder::{NoRecord, Recorder};
pub use run::{ExplainFault, Form, Summary, explain};
pub use run_explainer::{RunExplainer, put_text};
pub use shown::{shows_item, shows_opening};
pub use verdict::{ClientVerdict, Tally, summary_since};
