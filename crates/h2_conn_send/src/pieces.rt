//! A share of an answer's body, as DATA (RFC 9113, 6.1). Definition: h2_spec's `specs/SendPending.antt`, `data_frames`.

ghost use Rattle.std.specs.Prelude.{◌≡◌, ◌+◌, ◌-◌, ◌<◌, ◌≤◌, ◌++◌, ◌==◌, length, IfOk, OnOk, take, drop, ◌^◌};
ghost use Rattle.h2_spec.specs.Change as changes;
ghost use Rattle.h2_spec.specs.Frames.Frame.{frames_octets};
ghost use Rattle.h2_spec.specs.SendPending as rule;
ghost use Rattle.h2_spec.specs.Stream.{octets_waiting};
ghost use Rattle.h2_conn_send.specs.Prepared.{content, IsData};
ghost use Rattle.h2_conn_send.specs.Writes.{WritesInPart};

use crate::write::write_prepared;
use h2_frame::{Outgoing, lend_frame};
use h2_spec::frames::{DATA, END_STREAM};
use h2_spec::octets::octets_from;
use h2_spec::streams::Stream;
use h2_streams::octets_waiting;
use std::alloc::{AllocError, Allocator};

/// Writes the frames of a stream's share of its answer's body, whole or in part. The body is given as one DATA that was
/// made for stream 0 and ends it; where the share is all of it, and a frame may be that long, that DATA is sent.
#[inline(always)]
pub fn write_allowance<'b, A: Allocator, O: Outgoing<'b, A>>(
    size: usize,
    allowance: u64,
    stream: &Stream,
    prepared: &'b [u8],
    out: &mut O,
) -> Result<(), AllocError>
    requires size { (0 < size) × (size < 2 ^ 24) }
    requires some { 0 < allowance }
    requires waits { allowance ≤ octets_waiting stream.now }
    requires made { IsData prepared.now }
    requires left { octets_waiting stream.now ≤ length (content prepared.now) }
    ensures { WritesInPart (frames_octets (rule.data_frames stream.now.id (octets_waiting stream.now == allowance) size
        (take allowance (drop (length (content prepared.now) - octets_waiting stream.now) (content prepared.now)))))
        (O.octets out.old) result (O.octets out.new) }
{
    let body = octets_from(prepared, 9);
    if allowance as usize == body.len() && body.len() <= size {
        return write_prepared(prepared, stream.id, out);
    }
    let left = octets_waiting(stream);
    let octets = allowance_octets(body, left, allowance);
    write_pieces(stream.id, left == allowance, size, octets, out)
}

/// The octets of a body that are sent, where this many are left of it.
fn allowance_octets(body: &[u8], left: u64, allowance: u64) -> &[u8]
    requires waits { allowance ≤ left }
    requires left { left ≤ length body.now }
    ensures { result.now ≡ take allowance (drop (length body.now - left) body.now) }
{
    octets_at(body, body.len() - left as usize, allowance as usize)
}

/// Writes octets as DATA of this size and a shorter or equal last one, whole or in part.
fn write_pieces<'b, A: Allocator, O: Outgoing<'b, A>>(
    id: u32,
    ends: bool,
    size: usize,
    octets: &'b [u8],
    out: &mut O,
) -> Result<(), AllocError>
    requires size { (0 < size) × (size < 2 ^ 24) }
    requires some { 0 < length octets.now }
    ensures { WritesInPart (frames_octets (rule.data_frames id ends size octets.now)) (O.octets out.old) result (O.octets out.new) }
{
    let mut at = 0;
    while octets.len() - at > size {
        at = write_piece(id, ends, size, octets, at, out)?;
    }
    lend_frame(DATA, end_flag(ends), id, octets_from(octets, at), out)
}

/// Writes one DATA that is not the last of them, or nothing; returns where the next begins.
fn write_piece<'b, A: Allocator, O: Outgoing<'b, A>>(
    id: u32,
    ends: bool,
    size: usize,
    octets: &'b [u8],
    at: usize,
    out: &mut O,
) -> Result<usize, AllocError>
    requires size { (0 < size) × (size < 2 ^ 24) }
    requires more { size < length octets.now - at }
    ensures at { IfOk result (λ next. (at < next) × (next < length octets.now)) }
    ensures ok { IfOk result (λ next. O.octets out.new ++ frames_octets (rule.data_frames id ends size (drop next octets.now))
        ≡ O.octets out.old ++ frames_octets (rule.data_frames id ends size (drop at octets.now))) }
    ensures kept { take (length (O.octets out.old)) (O.octets out.new) ≡ O.octets out.old }
{
    lend_frame(DATA, 0, id, octets_at(octets, at, size), out)?;
    Ok(at + size)
}

/// END_STREAM, on the frame that ends a body.
fn end_flag(ends: bool) -> u8
    ensures { result ≡ changes.flag_if ends 1 }
{
    if ends { END_STREAM } else { 0 }
}

/// The octets from a place on, this many. The place is counted from 0, and that many have to be there.
pub fn octets_at(octets: &[u8], start: usize, count: usize) -> &[u8]
    requires { start + count ≤ length octets.now }
    ensures { result.now ≡ take count (drop start octets.now) }
{
    &octets[start..start + count]
}
