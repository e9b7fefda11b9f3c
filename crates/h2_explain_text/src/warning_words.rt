//! Warnings as lines of text. The form: docs/EXPLAIN.md.

use crate::paint::{Paint, Role};
use h2_explain_item::diagnosis::warning::{Warning, Warnings, all_warnings};
use h2_io::say::TextBuilder;
use h2_io::say_all;
use std::alloc::Allocator;

/// Puts the two lines of a warning last.
fn say_warning<A: Allocator>(warning: Warning, paint: Paint, out: &mut TextBuilder<A>) {
    paint.begin(Role::Ignored, out);
    say_all!(out; "warning: ", warning.name(), ", ", warning.section());
    paint.end(out);
    paint.begin(Role::Ignored, out);
    say_all!(out; warning.sentence());
    paint.end(out);
}

/// Puts the lines of the warnings of an item last.
pub(crate) fn say_warnings<A: Allocator>(
    warnings: Warnings,
    paint: Paint,
    out: &mut TextBuilder<A>,
) {
    if warnings.count() == 0 {
        return;
    }
    for warning in all_warnings() {
        if warnings.has(*warning) {
            say_warning(*warning, paint, out);
        }
    }
}
