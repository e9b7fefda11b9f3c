//! Sending pending output, as far as the windows go (RFC 9113, 5.2 and 6.9). Only streams that can send are looked at.
//! First the frames are written, and then the shares are taken, which takes no memory. Definition: h2_spec's
//! `specs/SendPending.antt`.

ghost use Rattle.std.specs.Prelude.{◌≡◌, ◌<◌, ◌≤◌, ◌++◌, find, length, IfOk, IfSome, IsTrue, ◌^◌, pos, ◌-ℤ◌, ◌≤ℤ◌};
ghost use Rattle.std.specs.List.{AllByRecursion};
ghost use Rattle.h2_spec.specs.Frames.Frame.{frames_octets};
ghost use Rattle.h2_spec.specs.SendPending as rule;
ghost use Rattle.h2_spec.specs.Stream.{octets_waiting, put, AreRising};
ghost use Rattle.h2_conn_send.specs.Above.{IsWaiting};
ghost use Rattle.h2_conn_send.specs.Sending.{NoneSends, Sends};
ghost use Rattle.h2_conn_send.specs.Writes.{WritesInPart};
ghost use Rattle.h2_conn_rules.specs.Sound.{HasBody};
ghost use Rattle.h2_spec.specs.Window.{sendable};
ghost use Rattle.h2_streams.specs.Kept.{ready_above};

use crate::pieces::write_allowance;
use h2_conn_rules::ends::{server_ended, with_body_remaining};
use h2_frame::Outgoing;
use h2_request_book::book::Book;
use h2_spec::flow::Window;
use h2_spec::streams::{Numbers, Stream};
use h2_streams::{Streams, octets_waiting};
use std::alloc::{AllocError, Allocator};

/// Whether no stream can send with this much of the connection's window.
#[inline(always)]
pub fn none_sends<A: Allocator>(streams: &Streams<A>, window: u64) -> bool
    ensures { IsTrue result → NoneSends window streams.now.streams }
{
    window == 0 || streams.none_ready()
}

/// Each stream that can send sends its share of this much of the connection's window: the frames are written whole, or
/// in part and then the records stay. Answers how many octets are sent.
#[inline(always)]
pub fn send_ready<'b, A: Allocator, O: Outgoing<'b, A>>(
    book: &'b Book<A>,
    streams: &mut Streams<A>,
    size: usize,
    window: u64,
    out: &mut O,
) -> Result<u64, AllocError>
    requires size { (0 < size) × (size < 2 ^ 24) }
    requires bodies { AllByRecursion (HasBody book.now) streams.old.streams }
    ensures { Sends book.now size window streams.old streams.old (O.octets out.old) result streams.new (O.octets out.new) }
{
    if none_sends(streams, window) {
        return Ok(0);
    }
    write_ready(book, streams, size, window, out)?;
    Ok(window - take_allowances(window, streams))
}

/// Writes the frames of each stream's share, whole or in part.
#[inline(never)]
fn write_ready<'b, A: Allocator, O: Outgoing<'b, A>>(
    book: &'b Book<A>,
    streams: &Streams<A>,
    size: usize,
    window: u64,
    out: &mut O,
) -> Result<(), AllocError>
    requires size { (0 < size) × (size < 2 ^ 24) }
    requires bodies { AllByRecursion (HasBody book.now) streams.now.streams }
    ensures { WritesInPart (frames_octets (rule.sent_frames book.now size window streams.now.streams)) (O.octets out.old) result (O.octets out.new) }
{
    let _last = streams.last();
    let mut after = 0;
    let mut left = window;
    while let Some(stream) = next_stream(streams, after) {
        if left == 0 {
            return Ok(());
        }
        after = stream.id;
        left -= write_next(book, &stream, size, left, out)?;
    }
    Ok(())
}

/// The first stream above this one that can send.
fn next_stream<A: Allocator>(streams: &Streams<A>, after: u32) -> Option<Stream>
    ensures first { result ≡ find (ready_above after) streams.now.streams }
    ensures above { IfSome result (λ stream. after < stream.id) }
    ensures known { IfSome result (λ stream. IsWaiting streams.now.last streams.now.streams stream) }
    ensures rising { AreRising 0 streams.now.last streams.now.streams }
{
    let _last = streams.last();
    let id = streams.next_ready(after)?;
    Some(streams.stream_at(id))
}

/// Writes the frames of one stream's share of the rest of the connection's window, whole or in part; returns the share.
#[inline(always)]
pub fn write_next<'b, A: Allocator, O: Outgoing<'b, A>>(
    book: &'b Book<A>,
    stream: &Stream,
    size: usize,
    window: u64,
    out: &mut O,
) -> Result<u64, AllocError>
    requires size { (0 < size) × (size < 2 ^ 24) }
    requires body { HasBody book.now stream.now }
    ensures allowance { IfOk result (λ allowance. (allowance ≡ rule.allowance window stream.now) × (allowance ≤ window)) }
    ensures written { WritesInPart (frames_octets (rule.allowance_frames book.now size (rule.allowance window stream.now) stream.now))
        (O.octets out.old) result (O.octets out.new) }
{
    let allowance = allowance(window, stream);
    if allowance > 0 {
        write_allowance(size, allowance, stream, book.body_frame(stream.pick), out)?;
    }
    Ok(allowance)
}

/// A send window without octets that it let pass.
pub fn without(window: Window, count: u64) -> Window
    requires { count ≤ sendable window }
    ensures { result ≡ window -ℤ pos count }
{
    if count == 0 {
        return window;
    }
    window.minus(count as u32)
}

/// Each stream's share is taken from it, in the order of the identifiers; returns the rest of the window.
fn take_allowances<A: Allocator>(window: u64, streams: &mut Streams<A>) -> u64
    ensures left { (result ≡ rule.window_left window streams.old.streams) × (result ≤ window) }
    ensures sent { streams.new ≡ record streams.old { streams = rule.all_after_sending window streams.old.streams } }
{
    let _last = streams.last();
    let mut after = 0;
    let mut left = window;
    while let Some(stream) = next_stream(streams, after) {
        if left == 0 {
            return 0;
        }
        after = stream.id;
        left -= take_allowance(left, &stream, streams);
    }
    left
}

/// One stream's share is taken from it.
fn take_allowance<A: Allocator>(window: u64, stream: &Stream, streams: &mut Streams<A>) -> u64
    requires { IsWaiting streams.old.last streams.old.streams stream.now }
    ensures allowance { (result ≡ rule.allowance window stream.now) × (result ≤ window) }
    ensures sent { streams.new ≡ record streams.old { streams = put (rule.after_sending (rule.allowance window stream.now) stream.now) streams.old.streams } }
{
    let allowance = allowance(window, stream);
    streams.replace(after_sending(allowance, stream));
    allowance
}

/// The stream after it sent its share.
#[tactic(auto, unfolding(h2_spec::specs::SendPending::after_sending))]
#[inline(always)]
pub fn after_sending(allowance: u64, stream: &Stream) -> Stream
    requires waits { allowance ≤ octets_waiting stream.now }
    requires within { (allowance ≤ sendable stream.now.numbers.send) × (allowance ≤ 2147483647) }
    ensures { result ≡ rule.after_sending allowance stream.now }
{
    if allowance == 0 {
        return *stream;
    }
    let left = octets_waiting(stream);
    let paid = with_paid(*stream, allowance as u32);
    if left == allowance {
        server_ended(paid)
    } else {
        with_body_remaining(paid, left - allowance)
    }
}

/// The record with octets taken from its send window.
fn with_paid(stream: Stream, count: u32) -> Stream
    requires { pos count ≤ℤ stream.numbers.send }
    ensures { result ≡ rule.with_paid stream count }
{
    let numbers = stream.numbers;
    let numbers = Numbers {
        send: numbers.send.minus(count),
        ..numbers
    };
    Stream { numbers, ..stream }
}

/// What a stream sends, where this much of the connection's window is left by those before it.
#[tactic(auto, unfolding(h2_spec::specs::SendPending::allowance))]
fn allowance(window: u64, stream: &Stream) -> u64
    ensures allowance { result ≡ rule.allowance window stream.now }
    ensures within { (result ≤ window) × (result ≤ octets_waiting stream.now) × (result ≤ sendable stream.now.numbers.send) × (result ≤ 2147483647) }
{
    let waiting = octets_waiting(stream);
    let most = sendable(stream.numbers.send);
    waiting.min(most).min(window)
}

/// The octets that a window lets pass.
pub fn sendable(window: Window) -> u64
    ensures sendable { result ≡ sendable window }
    ensures few { result ≤ 2147483647 }
{
    let value = window.value();
    if value < 0 { 0 } else { value as u64 }
}
