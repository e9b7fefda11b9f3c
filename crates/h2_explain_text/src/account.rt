//! What there is to show of an item: values of which the text and the JSON are views.

use h2_explain_item::change::changes::{Changes, UnshownChange};
use h2_explain_item::change::header_table::EntryChange;
use h2_explain_item::diagnosis::special::CaseFacts;
use h2_explain_item::diagnosis::warning::Warnings;
use h2_spec::causes::Cause;
use std::alloc::{Allocator, Global};

/// What there is to say of an item, beside the item itself.
pub struct Account<A: Allocator = Global> {
    /// The sentence of its cause, empty where it is no error.
    pub sentence: String<A>,
    /// The other causes that hold of its block, where it is malformed (RFC 9113, 8.1.1).
    pub also: Vec<Cause, A>,
    /// What decides whether its rule is a special case.
    pub facts: CaseFacts,
    /// What the client may not do and the server let pass.
    pub warnings: Warnings,
    /// Whether the fields of its block are shown with it: the block ends here, or is refused here.
    pub shows_fields: bool,
    /// What it changed on the connection and on its stream.
    pub changes: Changes<A>,
    /// What it changed on streams besides.
    pub unshown: Vec<UnshownChange, A>,
    /// The entries of the client's header table that it entered or evicted.
    pub entries: Vec<EntryChange<A>, A>,
    /// The frames that the server sent before the first item; none for the others (RFC 9113, 3.4).
    pub opening: Vec<u8, A>,
    /// Whether long texts are shown whole; else the first 100 octets of each.
    pub is_full: bool,
    /// Whether fields, and what changed, are left out.
    pub is_brief: bool,
}

/// By hand, so that a function that drops an account makes one call, where a derived `Drop` would drop each list there.
impl<A: Allocator> Drop for Account<A> {
    fn drop(self) {
        let Self {
            sentence: _,
            also: _,
            facts: _,
            warnings: _,
            shows_fields: _,
            changes: _,
            unshown: _,
            entries: _,
            opening: _,
            is_full: _,
            is_brief: _,
        } = self;
    }
}

impl<A: Allocator + Copy> Account<A> {
    /// Nothing is said yet. Takes no memory.
    pub fn new(alloc: A) -> Account<A> {
        Account {
            sentence: String::new(alloc),
            also: Vec::new(alloc),
            facts: CaseFacts::none(),
            warnings: Warnings::none(),
            shows_fields: false,
            changes: Vec::new(alloc),
            unshown: Vec::new(alloc),
            entries: Vec::new(alloc),
            opening: Vec::new(alloc),
            is_full: false,
            is_brief: false,
        }
    }
}
