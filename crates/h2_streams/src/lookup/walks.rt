//! What is looked for among the live streams, one after another. Definitions: `specs/Kept.antt`.

ghost use Rattle.std.specs.Prelude.{◌≡◌, ◌+◌, ◌<◌, ◌≤◌, ◌++◌, length, slice_get};
ghost use Rattle.std.specs.Option.{option_copied};
ghost use Rattle.std.specs.Vec.{vec_capacity, vec_len};
ghost use Rattle.indexmap.specs.IndexMap.{values};
ghost use Rattle.h2_spec.specs.Stream as spec;
ghost use Rattle.h2_streams.specs.Kept as kept;

use crate::kinds::{is_ready, octets_waiting};
use crate::lookup::hash::IdHash;
use crate::lookup::ids::append;
use crate::lookup::places::record_at;
use h2_spec::streams::Stream;
use indexmap::IndexMap;
use std::alloc::Allocator;

/// Puts the stream after the others, if there is one and it can send. There is space for it.
fn append_ready<A: Allocator>(ready: &mut Vec<u32, A>, stream: Option<&Stream>)
    requires { vec_len ready.old < vec_capacity ready.old }
    ensures items { ready.new.items ≡ ready.old.items ++ kept.id_if kept.is_ready (option_copied stream.entry) }
    ensures len { vec_len ready.new ≤ vec_len ready.old + 1 }
    ensures capacity { vec_capacity ready.old ≤ vec_capacity ready.new }
{
    if let Some(stream) = stream {
        append(ready, stream.id, is_ready(stream));
    }
}

/// Lists those of the streams in the map that can send, in the place of what was listed. There is space for all of them.
pub(crate) fn list_ready<A: Allocator>(
    records: &[Stream],
    live: &IndexMap<u32, usize, IdHash, A>,
    ready: &mut Vec<u32, A>,
)
    requires { length live.now.entries ≤ vec_capacity ready.old }
    ensures items { ready.new.items ≡ kept.ids_at kept.is_ready records.now (values live.now) }
    ensures capacity { vec_capacity ready.old ≤ vec_capacity ready.new }
{
    ready.clear();
    for place in live.values() {
        append_ready(ready, record_at(records, *place));
    }
}

/// The identifier of the stream, if there is one, it is above this one and has octets to send.
fn waiting_id(stream: Option<&Stream>, after: u32) -> Option<u32>
    ensures { result ≡ slice_get (kept.id_if (spec.waits_above after) (option_copied stream.entry)) 0 }
{
    let stream = stream?;
    if after < stream.id && octets_waiting(stream) > 0 {
        Some(stream.id)
    } else {
        None
    }
}

/// The first of the streams in the map that is above this one and has octets to send.
pub(crate) fn first_waiting<A: Allocator>(
    records: &[Stream],
    live: &IndexMap<u32, usize, IdHash, A>,
    after: u32,
) -> Option<u32>
    ensures { result ≡ slice_get (kept.ids_at (spec.waits_above after) records.now (values live.now)) 0 }
{
    for place in live.values() {
        let id = waiting_id(record_at(records, *place), after);
        if id.is_some() {
            return id;
        }
    }
    None
}
