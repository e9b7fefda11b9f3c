//! Which special case an error or an ignored frame is, and its rule. Definitions: `specs/Special.antt`.

ghost use Rattle.std.specs.Prelude.{◌≡◌, Bool, false, None};
ghost use Rattle.h2_spec.specs.declared.causes.Cause.TheVariants.{IntegerTooLong};
ghost use Rattle.h2_explain_item.specs.CaseFacts.{is_beyond_tables};
ghost use Rattle.h2_explain_item.specs.Special.{case_if, case_of_cause, case_of_error, case_of_reason, has_cases, has_reason_cases, interrupted_case, is_allowed_on_idle, is_closed_to_client, is_half_local, is_idle, is_unknown, is_unknown_frame, lacking_case, may_be_on_idle, length_case, rule_of_cause, rule_of_reason, seen_by, seen_of, special_reason};
ghost use Rattle.h2_spec.specs.Causes.Rules.{row_shown};

use crate::diagnosis::field_facts::FieldFacts;
use crate::diagnosis::integer::is_beyond_tables;
use crate::item::Explained;
use h2_spec::causes::Cause;
use h2_spec::frames::{FrameType, Head};
use h2_spec::ignored::Ignored;
use h2_spec::rules::Row;
use h2_spec::special_cases::SpecialCase;
use h2_spec::streams::{Stream, StreamState};

/// What an item and the connection before it show of whether its rule is a special case.
#[derive(Clone, Copy)]
pub struct Seen {
    /// Whether it is a frame of a type that is not known.
    pub unknown_type: bool,
    /// Whether it is on an even stream.
    pub even_stream: bool,
    /// Whether its stream is half-closed (local).
    pub half_local: bool,
    /// Whether it is PRIORITY, or of a type that is not known, on an idle stream.
    pub on_idle: bool,
    /// Whether the client can send nothing on its stream: it is half-closed (remote) or closed.
    pub closed_to_client: bool,
    /// Whether the client has acknowledged the server's SETTINGS.
    pub acked: bool,
}

/// What decides, beside what is seen of the item, whether its rule is a special case.
#[derive(Clone, Copy)]
pub struct CaseFacts {
    /// Whether a CONTINUATION has arrived in the open field block.
    pub continued: bool,
    /// What the fields of its block are.
    pub fields: FieldFacts,
    /// Whether the last SETTINGS_INITIAL_WINDOW_SIZE of the frame is lawful.
    pub lawful_window: bool,
    /// Whether the integer that is too long is 2^32 or more.
    pub beyond_tables: bool,
    /// Whether the client had ended its side of the stream before it was reset.
    pub after_end: bool,
}

impl CaseFacts {
    /// Nothing of it is so.
    pub fn none() -> CaseFacts {
        CaseFacts {
            continued: false,
            fields: FieldFacts::none(),
            lawful_window: false,
            beyond_tables: false,
            after_end: false,
        }
    }
}

/// This case, where it is so.
fn case_if(holds: bool, case: SpecialCase) -> Option<SpecialCase>
    ensures { result ≡ case_if holds case }
{
    if holds { Some(case) } else { None }
}

/// Whether a stream is half-closed (local) (RFC 9113, 5.1).
fn is_half_local(kind: StreamState) -> bool
    ensures { result ≡ is_half_local kind }
{
    match kind {
        StreamState::HalfLocal => true,
        _ => false,
    }
}

/// Whether a stream is idle (RFC 9113, 5.1).
fn is_idle(kind: StreamState) -> bool
    ensures { result ≡ is_idle kind }
{
    match kind {
        StreamState::Idle => true,
        _ => false,
    }
}

/// Whether a stream is half-closed (remote) or closed (RFC 9113, 5.1).
fn is_closed_to_client(kind: StreamState) -> bool
    ensures { result ≡ is_closed_to_client kind }
{
    match kind {
        StreamState::Idle | StreamState::BothOpen | StreamState::HalfLocal => false,
        _ => true,
    }
}

/// Whether a type is not known (RFC 9113, 4.1).
fn is_unknown(kind: FrameType) -> bool
    ensures { result ≡ is_unknown kind }
{
    match kind {
        FrameType::Unknown(_) => true,
        _ => false,
    }
}

/// Whether an item is a frame of a type that is not known.
fn is_unknown_frame(head: Option<Head>) -> bool
    ensures { result ≡ is_unknown_frame head }
{
    match head {
        Some(head) => is_unknown(head.frame_type()),
        None => false,
    }
}

/// Whether frames of a type may be on an idle stream, and open none: PRIORITY, and types that are not known (RFC 9113, 5.5
/// and 6.3).
fn is_allowed_on_idle(kind: FrameType) -> bool
    ensures { result ≡ is_allowed_on_idle kind }
{
    match kind {
        FrameType::Priority | FrameType::Unknown(_) => true,
        _ => false,
    }
}

/// Whether an item is a frame of such a type.
fn may_be_on_idle(head: Option<Head>) -> bool
    ensures { result ≡ may_be_on_idle head }
{
    match head {
        Some(head) => is_allowed_on_idle(head.frame_type()),
        None => false,
    }
}

/// An interrupted field block (RFC 9113, 5.5, 6.2 and 6.10).
fn interrupted_case(unknown: bool, continued: bool) -> Option<SpecialCase>
    ensures { result ≡ interrupted_case unknown continued }
{
    if unknown {
        Some(SpecialCase::UnknownTypeInBlock)
    } else {
        case_if(continued, SpecialCase::BehindContinuation)
    }
}

/// Pseudo-fields that lack (RFC 9113, 8.3.1 and 8.5).
fn lacking_case(fields: FieldFacts) -> Option<SpecialCase>
    ensures { result ≡ lacking_case fields }
{
    let empty_path = fields.method && fields.scheme && fields.empty_path;
    if fields.connect {
        Some(SpecialCase::ConnectPseudoFields)
    } else if fields.other_scheme {
        case_if(empty_path, SpecialCase::EmptyPathOfOtherScheme)
    } else {
        case_if(empty_path, SpecialCase::EmptyPath)
    }
}

/// A content-length that is not taken (RFC 9113, 8.1.1): where all are short numbers, two differ.
fn length_case(fields: FieldFacts) -> Option<SpecialCase>
    ensures { result ≡ length_case fields }
{
    if fields.short_lengths {
        Some(SpecialCase::ContentLengthsDiffer)
    } else {
        case_if(fields.numeric_lengths, SpecialCase::ContentLengthTooLong)
    }
}

/// What an item shows of whether its rule is a special case: the head of its frame, if it is one, its stream before it, and
/// whether the client had acknowledged the server's SETTINGS.
pub fn seen_by(head: Option<Head>, stream: &Stream, acked: bool) -> Seen
    ensures { result ≡ seen_by head stream.now acked }
{
    Seen {
        unknown_type: is_unknown_frame(head),
        even_stream: stream.id % 2 == 0,
        half_local: is_half_local(stream.kind),
        on_idle: may_be_on_idle(head) && is_idle(stream.kind),
        closed_to_client: is_closed_to_client(stream.kind),
        acked,
    }
}

/// The same of an item that was taken.
fn seen_of(item: &Explained<'_>) -> Seen
    ensures { result ≡ seen_of item.now }
{
    seen_by(item.head(), &item.before.stream, item.before.counts.acked)
}

/// The special case of an integer that is too long, by the octets of its block from an instruction on.
pub fn case_of_integer(octets: &[u8]) -> Option<SpecialCase>
    ensures { (s : Seen) (f : CaseFacts) → f.beyond_tables ≡ is_beyond_tables octets.now → result ≡ case_of_cause IntegerTooLong s f }
{
    case_if(
        is_beyond_tables(octets),
        SpecialCase::IntegerBeyondAllTables,
    )
}

/// The special case of a cause, if it is one.
pub fn case_of_cause(cause: Cause, seen: Seen, facts: CaseFacts) -> Option<SpecialCase>
    ensures { result ≡ case_of_cause cause seen facts }
{
    match cause {
        Cause::BlockInterrupted => interrupted_case(seen.unknown_type, facts.continued),
        Cause::DataOnIdle | Cause::RstStreamOnIdle | Cause::WindowUpdateOnIdle => {
            case_if(seen.even_stream, SpecialCase::EvenStream)
        }
        Cause::StreamWindowOverflow => case_if(seen.half_local, SpecialCase::UnfollowedWindow),
        Cause::TooManyStreams => case_if(!seen.acked, SpecialCase::LimitNotAcknowledged),
        Cause::BadName | Cause::TrailersBadName => {
            case_if(facts.fields.empty_names, SpecialCase::EmptyName)
        }
        Cause::LackingPseudoField => lacking_case(facts.fields),
        Cause::BadTe | Cause::TrailersBadTe => {
            case_if(facts.fields.trailers_alone, SpecialCase::TeOfTrailersAlone)
        }
        Cause::BadContentLength => length_case(facts.fields),
        Cause::FirstNotSettings => case_if(seen.unknown_type, SpecialCase::FirstUnknownType),
        Cause::PriorityLength => case_if(seen.on_idle, SpecialCase::PriorityLengthOnIdle),
        Cause::StreamFrameTooLarge => case_if(seen.on_idle, SpecialCase::FrameTooLargeOnIdle),
        Cause::InitialWindowSizeValue => {
            case_if(facts.lawful_window, SpecialCase::WindowValueThenLawful)
        }
        Cause::ContinuationOutsideBlock => {
            case_if(
                seen.closed_to_client,
                SpecialCase::ContinuationOnEndedStream,
            )
        }
        Cause::IntegerTooLong => case_if(facts.beyond_tables, SpecialCase::IntegerBeyondAllTables),
        _ => None,
    }
}

/// The special case of a reason to ignore a frame, if it is one: where the client had ended its side of the stream before it
/// was reset.
pub fn special_reason(reason: Ignored, after_end: bool) -> Option<SpecialCase>
    ensures { result ≡ special_reason reason after_end }
{
    match reason {
        Ignored::DataOnReset => case_if(after_end, SpecialCase::DataAfterEnd),
        Ignored::TableOnlyBlock => case_if(after_end, SpecialCase::BlockAfterEnd),
        Ignored::WindowUpdateOnPeerReset => case_if(after_end, SpecialCase::WindowUpdateAfterEnd),
        _ => None,
    }
}

/// Whether an error with this cause can be a special case.
pub fn has_cases(cause: Cause) -> bool
    ensures is { result ≡ has_cases cause }
    ensures none { result ≡ false → (s : Seen) (f : CaseFacts) → case_of_cause cause s f ≡ None }
{
    match cause {
        Cause::BlockInterrupted
        | Cause::DataOnIdle
        | Cause::RstStreamOnIdle
        | Cause::WindowUpdateOnIdle
        | Cause::StreamWindowOverflow
        | Cause::TooManyStreams
        | Cause::BadName
        | Cause::TrailersBadName
        | Cause::LackingPseudoField
        | Cause::BadTe
        | Cause::TrailersBadTe
        | Cause::BadContentLength
        | Cause::FirstNotSettings
        | Cause::PriorityLength
        | Cause::StreamFrameTooLarge
        | Cause::InitialWindowSizeValue
        | Cause::ContinuationOutsideBlock
        | Cause::IntegerTooLong => true,
        _ => false,
    }
}

/// Whether a frame that is ignored for this reason can be a special case.
pub fn has_reason_cases(reason: Ignored) -> bool
    ensures is { result ≡ has_reason_cases reason }
    ensures none { result ≡ false → (after_end : Bool) → special_reason reason after_end ≡ None }
{
    match reason {
        Ignored::DataOnReset | Ignored::TableOnlyBlock | Ignored::WindowUpdateOnPeerReset => true,
        _ => false,
    }
}

/// The special case of an item's error, if it has one.
pub fn case_of_error(item: &Explained<'_>, facts: CaseFacts) -> Option<SpecialCase>
    ensures { result ≡ case_of_error item.now facts }
{
    match item.cause {
        Some(cause) => case_of_cause(cause, seen_of(item), facts),
        None => None,
    }
}

/// The special case of why an item is ignored, if it has one.
pub fn case_of_reason(item: &Explained<'_>, facts: CaseFacts) -> Option<SpecialCase>
    ensures { result ≡ case_of_reason item.now facts }
{
    match item.ignored {
        Some(reason) => special_reason(reason, facts.after_end),
        None => None,
    }
}

/// The rule of a cause, or that of its special case.
pub fn rule_of_cause(cause: Cause, case: Option<SpecialCase>) -> Row
    ensures { row_shown result ≡ rule_of_cause cause case }
{
    match case {
        Some(case) => case.row(),
        None => cause.row(),
    }
}

/// The rule of a reason to ignore a frame, or that of its special case.
pub fn rule_of_reason(reason: Ignored, case: Option<SpecialCase>) -> Row
    ensures { row_shown result ≡ rule_of_reason reason case }
{
    match case {
        Some(case) => case.row(),
        None => reason.row(),
    }
}
