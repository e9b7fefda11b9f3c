//! Records that lists share by counted pointers, without their send windows (RFC 9113, 5.1). Definitions:
//! `specs/Sends.antt`.

ghost use Rattle.std.specs.Prelude.{◌≡◌, ◌↔◌, IfOk, length, map, true};
ghost use Rattle.h2_spec.specs.Change.{with_send};
ghost use Rattle.h2_streams.specs.Sends as spec;

use crate::windows::sends::Record;
use h2_spec::flow::Window;
use h2_spec::streams::Stream;
use std::alloc::{AllocError, Allocator};
use std::marker::Model;
use std::rc::Rc;

/// A record that lists share; contracts see the record.
#[derive(Drop)]
pub(crate) struct SharedStream<A: Allocator> {
    record: Rc<Record, A>,
}

impl<A: Allocator> Model for SharedStream<A> {
    ghost use Rattle.h2_spec.specs.declared.streams.Stream as spec;

    ghost Value = { spec.Stream };

    ghost view = { λ s. s.record.value };
}

impl<A: Allocator + Copy> SharedStream<A> {
    /// The record without its send window, which can be shared.
    pub(crate) fn of(stream: &Stream, alloc: A) -> Result<Self, AllocError>
        ensures { IfOk result (λ shared. shared ≡ spec.without_send stream.now) }
    {
        match Rc::new(alloc, Record::of(stream)) {
            Ok(record) => Ok(SharedStream { record }),
            Err(_) => Err(AllocError),
        }
    }

    /// A copy of the record, shared.
    pub(crate) fn share(&self) -> Result<Self, AllocError>
        ensures { IfOk result (λ shared. shared ≡ self.now) }
    {
        Ok(SharedStream {
            record: self.record.clone()?,
        })
    }

    /// The stream's identifier.
    pub(crate) fn id(&self) -> u32
        ensures { result ≡ self.now.id }
    {
        self.record.as_ref().id()
    }

    /// The record with this send window.
    pub(crate) fn with_send(&self, send: Window) -> Stream
        ensures { result ≡ with_send self.now send }
    {
        self.record.as_ref().with_send(send)
    }

    /// Whether it is this record without its send window.
    pub(crate) fn is(&self, stream: &Stream) -> bool
        ensures { (result ≡ true) ↔ (self.now ≡ spec.without_send stream.now) }
    {
        self.record.as_ref().is(stream)
    }
}

/// Whether shared records are these without their send windows.
pub(crate) fn are_these<A: Allocator + Copy>(shared: &[SharedStream<A>], streams: &[Stream]) -> bool
    ensures { (result ≡ true) ↔ (shared.now ≡ map spec.without_send streams.now) }
{
    if shared.len() != streams.len() {
        return false;
    }
    for i in 0..streams.len() {
        if !shared[i].is(&streams[i]) {
            return false;
        }
    }
    true
}

/// The first place from this one on whose record's identifier is not below this one.
pub(crate) fn place_from<A: Allocator + Copy>(
    shared: &[SharedStream<A>],
    from: usize,
    id: u32,
) -> usize {
    for place in from..shared.len() {
        if shared[place].id() >= id {
            return place;
        }
    }
    shared.len()
}

/// A record without its send window, shared with an earlier one where that is the same.
pub(crate) fn share_or_copy<A: Allocator + Copy>(
    stream: &Stream,
    earlier: Option<&SharedStream<A>>,
    alloc: A,
) -> Result<SharedStream<A>, AllocError>
    ensures { IfOk result (λ shared. shared ≡ spec.without_send stream.now) }
{
    if let Some(shared) = earlier {
        if shared.is(stream) {
            return shared.share();
        }
    }
    SharedStream::of(stream, alloc)
}

/// Records without their send windows, shared with earlier ones where those are the same. Both are in the order of
/// opening.
pub(crate) fn shared_streams<A: Allocator + Copy>(
    streams: &[Stream],
    earlier: &[SharedStream<A>],
    alloc: A,
) -> Result<Vec<SharedStream<A>, A>, AllocError>
    ensures { IfOk result (λ list. list.items ≡ map spec.without_send streams.now) }
{
    let mut list = Vec::with_capacity(alloc, streams.len())?;
    let mut place = 0;
    for stream in streams {
        place = place_from(earlier, place, stream.id);
        let shared = share_or_copy(stream, earlier.get(place), alloc)?;
        list.push(shared)?;
    }
    Ok(list)
}

/// Records with their send windows.
pub(crate) fn joined<A: Allocator + Copy>(
    records: &[SharedStream<A>],
    sends: &[Window],
    alloc: A,
) -> Result<Vec<Stream, A>, AllocError>
    requires { length sends.now ≡ length records.now }
    ensures { IfOk result (λ list. list.items ≡ spec.with_sends records.now sends.now) }
{
    let mut list = Vec::with_capacity(alloc, records.len())?;
    for i in 0..records.len() {
        list.push(records[i].with_send(sends[i]))?;
    }
    Ok(list)
}
