//! Laws of the list of changes: nothing is left out, and nothing is listed that did not change.
//! Each law is the contract of a function with an empty body; definitions: `specs/Changes.antt`.

ghost use Rattle.std.specs.Prelude.{◌≡◌, ◌<◌, [], ℤ};
ghost use Rattle.std.specs.List.{All};
ghost use Rattle.h2_spec.specs.declared.streams.Stream.{Stream};
ghost use Rattle.h2_explain_item.specs.declared.item.Moment.{Moment};
ghost use Rattle.h2_explain_item.specs.Changes.{Differs, IsAsBefore, connection_changes, listed, stream_changes};

/// Each change that is listed has a value after it that is other than the value before it, except the line that says
/// where a body stops.
pub fn what_is_listed_differs()
    ensures connection { (before after : Moment) → All Differs (connection_changes before after) }
    ensures stream { (before after : Stream) (send : ℤ) → All Differs (stream_changes before after send) }
{}

/// Where nothing is listed of a connection, all of its counts are as before, except its phase: the preface, the first
/// SETTINGS and an error are lines of their own. The header table is too: its entries and its size, up to 2^63 - 1, and
/// its maximum.
pub fn no_count_is_left_out()
    ensures counts { (before after : Moment) → connection_changes before after ≡ [] → record after.counts { phase = before.counts.phase } ≡ before.counts }
    ensures table { (before after : Moment) → connection_changes before after ≡ [] → (listed before.entries ≡ listed after.entries) × (listed before.table_size ≡ listed after.table_size) × (before.table_max ≡ after.table_max) }
{}

/// Where nothing is listed of a stream, its state is as before, and the counts of one that was live and is: its windows,
/// its unreturned octets, and the octets of content received, up to 2^63 - 1. The content-length and the answer of a
/// request are not listed: they do not change while a stream is live. Of the rest of a body there is a line of its own.
pub fn no_count_of_a_stream_is_left_out()
    ensures { (before after : Stream) (send : ℤ) → 0 < after.id → stream_changes before after send ≡ [] → IsAsBefore before after }
{}
