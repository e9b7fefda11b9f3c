//! Which items of a run are shown: all, those of a stream, or those that something is wrong with. Definitions:
//! `specs/Explains.antt`.

ghost use Rattle.std.specs.Prelude.{◌≡◌};
ghost use Rattle.h2_explain_item.specs.Item.{head_in};
ghost use Rattle.h2_explain_step.specs.Explained.{stream_in};
ghost use Rattle.h2_explain.specs.Explains.{is_notable, shows_item, shows_opening, shows_stream};

use crate::run::Form;
use h2_explain_item::diagnosis::warning::Warnings;
use h2_explain_item::item::Explained;

/// Whether a stream is shown: each, unless one is named.
pub(crate) fn shows_stream(only: Option<u32>, stream: u32) -> bool
    ensures { result ≡ shows_stream only stream }
{
    match only {
        None => true,
        Some(only) => only == stream,
    }
}

/// The stream of an item, 0 where it is no frame.
fn stream_of(item: &Explained<'_>) -> u32
    ensures { result ≡ stream_in (head_in item.now.what) }
{
    match item.head() {
        Some(head) => head.stream,
        None => 0,
    }
}

/// Whether the server's opening is shown: it belongs to the connection, and is no error.
pub fn shows_opening(form: Form) -> bool
    ensures { result ≡ shows_opening form }
{
    !form.errors && shows_stream(form.stream, 0)
}

/// Whether an item is an error, is ignored, or has a warning.
fn is_notable(item: &Explained<'_>, warnings: Warnings) -> bool
    ensures { result ≡ is_notable item.now warnings }
{
    item.cause.is_some() || (item.ignored.is_some() || 0 < warnings.count())
}

/// Whether an item with these warnings is shown.
pub fn shows_item(form: Form, item: &Explained<'_>, warnings: Warnings) -> bool
    ensures { result ≡ shows_item form item.now warnings }
{
    shows_stream(form.stream, stream_of(item)) && (!form.errors || is_notable(item, warnings))
}
