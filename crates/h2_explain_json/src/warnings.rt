//! Warnings as JSON. The form: docs/EXPLAIN.md.

use crate::json_words::JsonWords;
use crate::member;
use h2_explain_item::diagnosis::warning::{Warning, Warnings, all_warnings};
use std::alloc::Allocator;

/// Puts a warning, as an element.
fn put_warning<A: Allocator>(warning: Warning, out: &mut JsonWords<A>) {
    out.open_element();
    out.plain(member!("name"), warning.name());
    out.plain(member!("section"), warning.section());
    out.plain(member!("sentence"), warning.sentence());
    out.close();
}

/// Puts the warnings of an item, if there are any.
pub fn put_warnings<A: Allocator>(warnings: Warnings, out: &mut JsonWords<A>) {
    if warnings.count() == 0 {
        return;
    }
    out.open_list(member!("warnings"));
    for warning in all_warnings() {
        if warnings.has(*warning) {
            put_warning(*warning, out);
        }
    }
    out.close_list();
}
