//! Lists of the few records that can change, from which records at an earlier time are made again. Definitions:
//! `specs/Rebuilt.antt`.

ghost use Rattle.std.specs.Prelude.{◌≡◌, ◌+◌, ◌≤◌, ◌++◌, IfOk, OnOk, length, if◌then◌else◌};
ghost use Rattle.std.specs.List.{insert};
ghost use Rattle.std.specs.Option.{option_copied};
ghost use Rattle.std.specs.Vec.{vec_capacity};
ghost use Rattle.indexmap.specs.IndexMap.{values};
ghost use Rattle.h2_spec.specs.Stream.{is_live};
ghost use Rattle.h2_streams.specs.Kept as kept;
ghost use Rattle.h2_streams.specs.Rebuilt as spec;

use crate::lookup::hash::IdHash;
use crate::lookup::places::{place_of, record_at};
use h2_spec::streams::{Stream, is_live};
use indexmap::IndexMap;
use std::alloc::{AllocError, Allocator};

/// Puts the record after the others, if there is one and it is live. There is space for it.
fn append_live<A: Allocator>(list: &mut Vec<Stream, A>, stream: Option<&Stream>)
    requires { length list.old.items + 1 ≤ vec_capacity list.old }
    ensures items { list.new.items ≡ list.old.items ++ spec.if_live (option_copied stream.entry) }
    ensures len { length list.new.items ≤ length list.old.items + 1 }
    ensures capacity { vec_capacity list.old ≤ vec_capacity list.new }
{
    match stream {
        Some(stream) if is_live(stream.kind) => list.push_reserved(*stream),
        _ => {}
    }
}

/// The live records of the streams in the map, once more.
pub(crate) fn live_records<A: Allocator>(
    records: &[Stream],
    live: &IndexMap<u32, usize, IdHash, A>,
    alloc: A,
) -> Result<Vec<Stream, A>, AllocError>
    ensures { IfOk result (λ list. list.items ≡ spec.live_at records.now (values live.now)) }
{
    let mut list = Vec::with_capacity(alloc, live.len())?;
    for place in live.values() {
        append_live(&mut list, record_at(records, *place));
    }
    Ok(list)
}

/// Puts a record into a list in the order of identifiers, unless it is live: then it is there.
pub(crate) fn insert_closed<A: Allocator>(
    list: &mut Vec<Stream, A>,
    stream: &Stream,
) -> Result<(), AllocError>
    requires { kept.Rise 0 list.old.items }
    ensures { OnOk result (list.new.items ≡ (if is_live stream.now.kind then list.old.items else insert list.old.items (kept.place_of stream.now.id list.old.items) stream.now)) }
{
    if is_live(stream.kind) {
        return Ok(());
    }
    let place = place_of(list.as_slice(), stream.id);
    list.insert(place, *stream)?;
    Ok(())
}
