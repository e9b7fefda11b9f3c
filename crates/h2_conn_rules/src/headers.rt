//! Field blocks: HEADERS and CONTINUATION, and the end of a block (RFC 9113, 4.3, 6.2, 6.10 and 8.1). Definition:
//! h2_spec's `specs/Requests/Headers.antt`.

ghost use Rattle.std.specs.Prelude.{◌≡◌, ℕ, ◌≤◌, true, ◌&&◌, ◌||◌, List, length, nat_le, nat_lt};
ghost use Rattle.h2_spec.specs.Requests.Headers as rule;
ghost use Rattle.h2_spec.specs.Requests.Answer.{Entry, picked};
ghost use Rattle.h2_spec.specs.Causes.Cause.{first_of};
ghost use Rattle.h2_spec.specs.Data.{length_broken};
ghost use Rattle.h2_request_book.specs.Lent.{IsPickOf};
ghost use Rattle.h2_conn_rules.specs.Plain.{opened};
ghost use Rattle.h2_conn_rules.specs.Sound.{HasBody, InForce, IsSoundConnectionState, IsSoundStream, in_force, is_recorded};

use crate::change::{outcome_without_frame, stream_error};
use crate::checks::first_of;
use crate::ends::{answered, length_broken, peer_ended};
use h2_spec::causes::Cause;
use h2_spec::connection::{Config, ConnectionState};
use h2_spec::flow::{Credit, Window};
use h2_spec::reactions::{BlockSummary, StreamOutcome};
use h2_spec::streams::{Numbers, Stream, StreamState};

/// The largest list of fields, in octets (RFC 9113, 10.5.1).
pub const MAX_LIST: u32 = 65_536;

/// A stream that a request opens.
#[tactic(auto, unfolding(h2_spec::specs::Stream::octets_waiting))]
fn new_stream(core: ConnectionState, id: u32, summary: BlockSummary) -> Stream
    requires core { IsSoundConnectionState core }
    ensures rule { result ≡ rule.new_stream core id summary }
    ensures id { result.id ≡ id }
    ensures sound { IsSoundStream (in_force core) result }
    ensures waits { (book : List Entry) → IsPickOf book summary.pick → HasBody book result }
    ensures recorded { is_recorded result.kind ≡ true }
{
    let numbers = Numbers {
        recv: Window::start(core.own.window),
        owed: Credit::none(),
        send: Window::start(core.peer.window),
        content_received: 0,
        declared: summary.declared,
        body_remaining: None,
    };
    Stream {
        id,
        kind: StreamState::BothOpen,
        numbers,
        pick: summary.pick,
    }
}

/// Whether as many streams are live as may be (RFC 9113, 5.1.2).
pub fn is_full(config: Config, live: usize) -> bool
    ensures { result ≡ nat_le config.streams live }
{
    config.streams as usize <= live
}

/// Whether a list of fields of this size, in octets, is too large (RFC 9113, 10.5.1).
pub fn is_too_large(size: u64) -> bool
    ensures { result ≡ nat_lt rule.max_list size }
{
    u64::from(MAX_LIST) < size
}

/// Whether a content-length other than 0 is declared.
fn declares_content(declared: Option<u64>) -> bool
    ensures { result ≡ rule.declares_content declared }
{
    match declared {
        None => false,
        Some(count) => count != 0,
    }
}

/// Why a request that ends is malformed: it lacks the content that it declares.
fn missing(ends: bool, declared: Option<u64>) -> Option<Cause>
    ensures { result ≡ rule.missing ends declared }
{
    if ends && declares_content(declared) {
        Some(Cause::ContentMissing)
    } else {
        None
    }
}

/// Why a request is malformed: by its fields, or since it ends without the content that it declares.
fn request_broken(ends: bool, summary: BlockSummary) -> Option<Cause>
    ensures { result ≡ first_of summary.malformed (rule.missing ends summary.declared) }
{
    first_of(summary.malformed, missing(ends, summary.declared))
}

/// Why trailers are malformed that do not end the stream.
fn unended(ends: bool) -> Option<Cause>
    ensures { result ≡ rule.unended ends }
{
    if ends {
        None
    } else {
        Some(Cause::TrailersWithoutEndStream)
    }
}

/// Why trailers are refused: by their fields, or since they do not end the stream, or by the content before them.
fn trailers_broken(malformed: Option<Cause>, ends: bool, numbers: Numbers) -> Option<Cause>
    ensures { result ≡ first_of malformed (first_of (rule.unended ends) (length_broken numbers.declared numbers.content_received true)) }
{
    let length = length_broken(numbers.declared, numbers.content_received, true);
    first_of(malformed, first_of(unended(ends), length))
}

/// What becomes of the stream that a well-formed request opens: it is answered where the request has ended or its answer
/// is `early`, and otherwise waits for content and trailers (RFC 9113, 8.1).
#[inline(always)]
pub fn opened(
    body: u64,
    early: bool,
    core: ConnectionState,
    id: u32,
    ends: bool,
    summary: BlockSummary,
) -> StreamOutcome
    requires core { IsSoundConnectionState core }
    ensures rule { result ≡ opened body early core id ends summary }
    ensures id { result.stream.id ≡ id }
    ensures sound { IsSoundStream (in_force core) result.stream }
    ensures waits { (book : List Entry) → body ≡ length (picked book summary.pick).body → IsPickOf book summary.pick → HasBody book result.stream }
    ensures recorded { is_recorded result.stream.kind ≡ true }
{
    let stream = new_stream(core, id, summary);
    if ends {
        peer_ended(body, stream)
    } else if early {
        answered(body, stream)
    } else {
        outcome_without_frame(stream)
    }
}

/// What becomes of the stream that a request opens, as `opened` where it is no error (RFC 9113, 8.1). `live` is the
/// number of live streams, `body` the length of the answer's body in octets.
///
/// # Errors
///
/// The first that applies, each a stream error:
///
/// - As many live streams as `config` allows: REFUSED_STREAM (5.1.2).
/// - A list of fields above 65536 octets (6.5.2): ENHANCE_YOUR_CALM.
/// - A malformed request (8.1.1), or one that ends although it declares content: PROTOCOL_ERROR.
#[tactic(auto, unfolding(h2_spec::specs::Requests::Headers::request_outcome, h2_spec::specs::Stream::octets_waiting))]
pub fn request_outcome(
    config: Config,
    live: usize,
    body: u64,
    early: bool,
    core: ConnectionState,
    id: u32,
    ends: bool,
    summary: BlockSummary,
) -> StreamOutcome
    requires core { IsSoundConnectionState core }
    ensures rule { result ≡ rule.request_outcome config live body early core id ends summary }
    ensures id { result.stream.id ≡ id }
    ensures sound { IsSoundStream (in_force core) result.stream }
    ensures waits { (book : List Entry) → body ≡ length (picked book summary.pick).body → IsPickOf book summary.pick → HasBody book result.stream }
    ensures recorded { is_recorded result.stream.kind ≡ true }
{
    if is_full(config, live) {
        return stream_error(id, Cause::TooManyStreams);
    }
    if is_too_large(summary.size) {
        return stream_error(id, Cause::ListTooLarge);
    }
    if let Some(cause) = request_broken(ends, summary) {
        return stream_error(id, cause);
    }
    opened(body, early, core, id, ends, summary)
}

/// What trailers do to their stream (RFC 9113, 8.1): they end the peer's side, and the request is answered. `size` is
/// the size of their list in octets, `malformed` why their fields are malformed, if they are, `body` the length of the
/// answer's body.
///
/// # Errors
///
/// The first that applies, each a stream error:
///
/// - A list of fields above 65536 octets (6.5.2): ENHANCE_YOUR_CALM.
/// - Malformed trailers, trailers without END_STREAM, or content other than declared (8.1.1): PROTOCOL_ERROR.
#[tactic(auto, unfolding(h2_spec::specs::Requests::Headers::trailers_outcome, h2_spec::specs::Stream::octets_waiting))]
pub fn trailers_outcome(
    size: u64,
    malformed: Option<Cause>,
    body: u64,
    ends: bool,
    stream: Stream,
) -> StreamOutcome
    ensures rule { result ≡ rule.trailers_outcome size malformed body ends stream }
    ensures id { result.stream.id ≡ stream.id }
    ensures sound { (f : InForce) → f.window ≤ 2147483647 → IsSoundStream f stream → IsSoundStream f result.stream }
    ensures waits { (book : List Entry) → body ≡ length (picked book stream.pick).body → HasBody book stream → HasBody book result.stream }
    ensures recorded { is_recorded stream.kind ≡ true → is_recorded result.stream.kind ≡ true }
{
    if is_too_large(size) {
        return stream_error(stream.id, Cause::ListTooLarge);
    }
    if let Some(cause) = trailers_broken(malformed, ends, stream.numbers) {
        return stream_error(stream.id, cause);
    }
    peer_ended(body, stream)
}
