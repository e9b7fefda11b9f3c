//! Why this server answers with a connection error or a stream error (RFC 9113, 5.4): a cause for each place of the
//! written table where one arises. Definitions: `specs/Causes/Cause.antt`, `specs/Causes/CauseWords.antt`.

ghost use Rattle.std.specs.Prelude.{◌≡◌, map, slice_get, Some};
ghost use Rattle.std.specs.List.{list_any};
ghost use Rattle.std.specs.Str.{bytes_eq};
ghost use Rattle.h2_spec.specs.Causes.Cause.{code_of};
ghost use Rattle.h2_spec.specs.Causes.CauseWords.{all_causes, cause_name, row_of};
ghost use Rattle.h2_spec.specs.Causes.Rules.{duties_of, row_shown, text_of};

use crate::errors::ErrorCode;
use crate::rules::{Duties, Row, column, duties_at, is_one_of, text_at};
use std::fmt;

/// The rule that an item breaks.
#[derive(Clone, Copy)]
pub enum Cause {
    /// An octet is not that of the connection preface.
    BadPreface,
    /// The first frame after the preface is no SETTINGS.
    FirstNotSettings,
    /// The first frame after the preface is a SETTINGS with ACK.
    FirstIsSettingsAck,
    /// HEADERS, PUSH_PROMISE, CONTINUATION, SETTINGS, PING or GOAWAY, or a frame on stream 0, is longer than frames may
    /// be.
    FrameTooLarge,
    /// Another frame on a stream is longer than frames may be.
    StreamFrameTooLarge,
    /// Inside a field block comes something else than CONTINUATION on its stream.
    BlockInterrupted,
    /// DATA on stream 0.
    DataOnStreamZero,
    /// HEADERS on stream 0.
    HeadersOnStreamZero,
    /// PRIORITY on stream 0.
    PriorityOnStreamZero,
    /// RST_STREAM on stream 0.
    RstStreamOnStreamZero,
    /// CONTINUATION on stream 0.
    ContinuationOnStreamZero,
    /// SETTINGS on a stream.
    SettingsOnStream,
    /// PING on a stream.
    PingOnStream,
    /// GOAWAY on a stream.
    GoawayOnStream,
    /// DATA with PADDED and without the octet of the Pad Length.
    DataLength,
    /// HEADERS too short for the Pad Length and the priority that its flags name.
    HeadersLength,
    /// PRIORITY of another length than 5.
    PriorityLength,
    /// RST_STREAM of another length than 4.
    RstStreamLength,
    /// SETTINGS of a length that 6 does not divide.
    SettingsLength,
    /// SETTINGS with ACK that is not empty.
    SettingsAckLength,
    /// PING of another length than 8.
    PingLength,
    /// GOAWAY of less than 8 octets.
    GoawayLength,
    /// WINDOW_UPDATE of another length than 4.
    WindowUpdateLength,
    /// The Pad Length of DATA is above the octets after it.
    DataPadding,
    /// The Pad Length of HEADERS is above the octets that remain for the fragment.
    HeadersPadding,
    /// PUSH_PROMISE from a client.
    PushPromiseFromClient,
    /// CONTINUATION where no field block is open.
    ContinuationOutsideBlock,
    /// DATA on an idle stream.
    DataOnIdle,
    /// DATA on a stream that a request on a higher one has closed.
    DataOnSkipped,
    /// DATA on a half-closed (remote) stream.
    DataAfterEndStream,
    /// DATA on a stream closed by END_STREAM, or reset by the peer.
    DataOnClosed,
    /// HEADERS on an even stream.
    HeadersOnEven,
    /// HEADERS on a new stream below one that was opened.
    HeadersOnSkipped,
    /// HEADERS on a half-closed (remote) stream, found at the end of its block.
    HeadersAfterEndStream,
    /// HEADERS on a stream closed by END_STREAM, or reset by the peer.
    HeadersOnClosed,
    /// RST_STREAM on an idle stream.
    RstStreamOnIdle,
    /// WINDOW_UPDATE on an idle stream.
    WindowUpdateOnIdle,
    /// DATA above the receive window of the connection.
    ConnectionWindowExceeded,
    /// DATA above the receive window of the stream.
    StreamWindowExceeded,
    /// WINDOW_UPDATE by 0 on the connection.
    ConnectionIncrementZero,
    /// WINDOW_UPDATE by 0 on a stream.
    StreamIncrementZero,
    /// WINDOW_UPDATE takes the send window of the connection above 2^31-1.
    ConnectionWindowOverflow,
    /// WINDOW_UPDATE takes the send window of a stream above 2^31-1.
    StreamWindowOverflow,
    /// SETTINGS_ENABLE_PUSH other than 0 and 1.
    EnablePushValue,
    /// SETTINGS_INITIAL_WINDOW_SIZE above 2^31-1.
    InitialWindowSizeValue,
    /// SETTINGS_MAX_FRAME_SIZE outside 2^14 to 2^24-1.
    MaxFrameSizeValue,
    /// SETTINGS_INITIAL_WINDOW_SIZE takes the send window of a stream above 2^31-1.
    InitialWindowSizeOverflow,
    /// The fragments of a block are above 65,536 octets.
    BlockTooLarge,
    /// The block ends inside an instruction.
    BlockTruncated,
    /// An integer goes on after its fifth continuation octet.
    IntegerTooLong,
    /// An indexed field of index 0.
    IndexZero,
    /// An index beyond both tables.
    IndexOutOfTables,
    /// A Huffman string with the whole code of EOS in it, with more than 7 bits of padding, or with a 0 in its padding.
    HuffmanString,
    /// A table size update after a field of its block.
    SizeUpdateLate,
    /// A table size update above the limit.
    SizeUpdateTooLarge,
    /// A block that does not begin with a table size update where one is due.
    SizeUpdateMissing,
    /// As many streams are live as may be.
    TooManyStreams,
    /// The list of fields is above 65,536 octets.
    ListTooLarge,
    /// A name of a request is empty, has an octet that no name has, or a colon that is not its first octet.
    BadName,
    /// A value of a request has an octet that no value has, or a blank at an end.
    BadValue,
    /// A pseudo-field after a regular field.
    LatePseudoField,
    /// A pseudo-field that requests do not have.
    UnknownPseudoField,
    /// A pseudo-field twice.
    DoublePseudoField,
    /// A pseudo-field that has to be there is not, or one is there that may not be.
    LackingPseudoField,
    /// A field of an HTTP/1.1 connection.
    ConnectionField,
    /// A te field other than trailers.
    BadTe,
    /// A content-length that is no number of 1 to 18 digits, or two that differ.
    BadContentLength,
    /// A request with END_STREAM declares content.
    ContentMissing,
    /// More content than was declared.
    ContentTooLong,
    /// The content ends before what was declared.
    ContentTooShort,
    /// Trailers without END_STREAM.
    TrailersWithoutEndStream,
    /// A name of trailers is empty, has an octet that no name has, or a colon that is not its first octet.
    TrailersBadName,
    /// A value of trailers has an octet that no value has, or a blank at an end.
    TrailersBadValue,
    /// A pseudo-field in trailers.
    TrailersPseudoField,
    /// A field of an HTTP/1.1 connection in trailers.
    TrailersConnectionField,
    /// A te field other than trailers, in trailers.
    TrailersBadTe,
}

/// The rows in their order, and a column of them: what has to be read column by column, since a table of many texts
/// takes long to prove.
macro_rules! causes {
    ($column:ident) => { column! { $column
        "bad-preface", Must "RFC 9113 3.4", Breach "RFC 9113 3.4", Connection [1] [] [wait http1],
            "the octets are not the connection preface";
        "first-not-settings", Must "RFC 9113 3.4", Must "RFC 9113 3.4", Connection [1] [] [],
            "the first frame after the preface has to be SETTINGS";
        "first-is-settings-ack", Own "RFC 9113 3.4", Must "RFC 9113 3.4", None [1] [] [accept],
            "the first SETTINGS is the client's own and has no ACK";
        "frame-too-large", Must "RFC 9113 4.2", MustNot "RFC 9113 4.1", Connection [6] [] [wait],
            "the frame is longer than this server takes";
        "stream-frame-too-large", Must "RFC 9113 4.2", MustNot "RFC 9113 4.1", Stream [] [6] [wait],
            "the frame is longer than this server takes";
        "block-interrupted", Must "RFC 9113 6.2", Must "RFC 9113 6.2", Connection [1] [] [] open [9] [] [],
            "while a field block is open, only CONTINUATION on its stream may follow";
        "data-on-stream-zero", Must "RFC 9113 6.1", Must "RFC 9113 6.1", Connection [1] [] [],
            "DATA has to be on a stream, not on 0";
        "headers-on-stream-zero", Must "RFC 9113 6.2", Must "RFC 9113 6.2", Connection [1] [] [],
            "HEADERS has to be on a stream, not on 0";
        "priority-on-stream-zero", Must "RFC 9113 6.3", Breach "RFC 9113 6.3", Connection [1] [] [],
            "PRIORITY has to be on a stream, not on 0";
        "rst-stream-on-stream-zero", Must "RFC 9113 6.4", Must "RFC 9113 6.4", Connection [1] [] [],
            "RST_STREAM has to be on a stream, not on 0";
        "continuation-on-stream-zero", Must "RFC 9113 6.10", Must "RFC 9113 6.10", Connection [1] [] [],
            "CONTINUATION has to be on a stream, not on 0";
        "settings-on-stream", Must "RFC 9113 6.5", Must "RFC 9113 6.5", Connection [1] [] [],
            "SETTINGS has to be on stream 0";
        "ping-on-stream", Must "RFC 9113 6.7", Breach "RFC 9113 6.7", Connection [1] [] [],
            "PING has to be on stream 0";
        "goaway-on-stream", Must "RFC 9113 6.8", Breach "RFC 9113 6.8", Connection [1] [] [],
            "GOAWAY has to be on stream 0";
        "data-length", Must "RFC 9113 4.2", Breach "RFC 9113 6.1", Stream [] [6] [],
            "DATA with PADDED has no octet for the Pad Length";
        "headers-length", Must "RFC 9113 4.2", Breach "RFC 9113 6.2", Connection [6] [] [],
            "HEADERS is too short for what its flags announce";
        "priority-length", Must "RFC 9113 6.3", Breach "RFC 9113 6.3", Stream [] [6] [],
            "PRIORITY has to have 5 octets";
        "rst-stream-length", Must "RFC 9113 6.4", Breach "RFC 9113 6.4", Connection [6] [] [],
            "RST_STREAM has to have 4 octets";
        "settings-length", Must "RFC 9113 6.5", Breach "RFC 9113 6.5", Connection [6] [] [],
            "the length of SETTINGS has to be a multiple of 6";
        "settings-ack-length", Must "RFC 9113 6.5", Must "RFC 9113 6.5", Connection [6] [] [],
            "SETTINGS with ACK has to be empty";
        "ping-length", Must "RFC 9113 6.7", Must "RFC 9113 6.7", Connection [6] [] [],
            "PING has to have 8 octets";
        "goaway-length", Must "RFC 9113 4.2", Breach "RFC 9113 6.8", Connection [6] [] [],
            "GOAWAY has to have 8 octets or more";
        "window-update-length", Must "RFC 9113 6.9", Breach "RFC 9113 6.9", Connection [6] [] [],
            "WINDOW_UPDATE has to have 4 octets";
        "data-padding", Must "RFC 9113 6.1", Breach "RFC 9113 6.1", Connection [1] [] [],
            "the padding of DATA is longer than the rest of its payload";
        "headers-padding", Must "RFC 9113 6.2", Breach "RFC 9113 6.2", Connection [1] [] [] open [6] [] [],
            "the padding of HEADERS is longer than the rest of its payload";
        "push-promise-from-client", Must "RFC 9113 8.4", Breach "RFC 9113 8.4", Connection [1] [] [] open [6] [] [],
            "a client can't push: PUSH_PROMISE may not be sent to a server";
        "continuation-outside-block", Must "RFC 9113 6.10", Must "RFC 9113 6.10", Connection [1] [] [],
            "no field block is open that CONTINUATION could continue";
        "data-on-idle", Must "RFC 9113 5.1", Breach "RFC 9113 6.1", Connection [1 5] [] [] open [] [5] [],
            "the stream is idle: only HEADERS opens it";
        "data-on-skipped", May "RFC 9113 5.1", MustNot "RFC 9113 5.1", None [5] [5] [ignore],
            "the stream was closed, unused, when a higher one was opened";
        "data-after-end-stream", Must "RFC 9113 5.1", Breach "RFC 9113 5.1", Stream [] [5] [],
            "the client has already ended this stream by END_STREAM";
        "data-on-closed", May "RFC 9113 5.1", MustNot "RFC 9113 5.1", None [5] [5] [ignore],
            "the stream is closed";
        "headers-on-even", Must "RFC 9113 5.1.1", Must "RFC 9113 5.1.1", Connection [1] [] [],
            "a client opens streams with odd identifiers";
        "headers-on-skipped", Must "RFC 9113 5.1.1", Must "RFC 9113 5.1.1", Connection [1 5] [] [],
            "a new stream has to have a higher identifier than all streams before";
        "headers-after-end-stream", Must "RFC 9113 5.1", Breach "RFC 9113 5.1", Stream [] [5] [],
            "the client has already ended this stream by END_STREAM";
        "headers-on-closed", May "RFC 9113 5.1", MustNot "RFC 9113 5.1", None [5] [5] [ignore],
            "the stream is closed";
        "rst-stream-on-idle", Must "RFC 9113 6.4", MustNot "RFC 9113 6.4", Connection [1] [] [],
            "an idle stream can't be reset";
        "window-update-on-idle", Must "RFC 9113 5.1", Breach "RFC 9113 5.1", Connection [1] [] [],
            "the stream is idle: it has no window yet";
        "connection-window-exceeded", May "RFC 9113 6.9", MustNot "RFC 9113 6.9.1", None [3] [] [accept] open [] [3] [],
            "DATA is longer than the connection's receive window";
        "stream-window-exceeded", May "RFC 9113 6.9", MustNot "RFC 9113 6.9.1", None [3] [3] [accept],
            "DATA is longer than the stream's receive window";
        "connection-increment-zero", Must "RFC 9113 6.9", Breach "RFC 9113 6.9", Connection [1] [] [],
            "the increment of WINDOW_UPDATE has to be 1 or more";
        "stream-increment-zero", Must "RFC 9113 6.9", Breach "RFC 9113 6.9", Stream [] [1] [],
            "the increment of WINDOW_UPDATE has to be 1 or more";
        "connection-window-overflow", Must "RFC 9113 6.9.1", Breach "RFC 9113 6.9.1", Connection [3] [] [],
            "the connection's send window would be above 2147483647";
        "stream-window-overflow", Must "RFC 9113 6.9.1", Breach "RFC 9113 6.9.1", Stream [] [3] [],
            "the stream's send window would be above 2147483647";
        "enable-push-value", Must "RFC 9113 6.5.2", Breach "RFC 9113 6.5.2", Connection [1] [] [],
            "SETTINGS_ENABLE_PUSH has to be 0 or 1";
        "initial-window-size-value", Must "RFC 9113 6.5.2", Breach "RFC 9113 6.5.2", Connection [3] [] [],
            "SETTINGS_INITIAL_WINDOW_SIZE has to be 2147483647 or less";
        "max-frame-size-value", Must "RFC 9113 6.5.2", Must "RFC 9113 6.5.2", Connection [1] [] [],
            "SETTINGS_MAX_FRAME_SIZE has to be 16384 to 16777215";
        "initial-window-size-overflow", Must "RFC 9113 6.9.2", Breach "RFC 9113 6.9.2", Connection [3] [] [],
            "SETTINGS_INITIAL_WINDOW_SIZE takes a stream's send window above 2147483647";
        "block-too-large", Own "RFC 9113 10.5.1", Limit "RFC 9113 10.5.1", None [9] [11] [accept answer],
            "the fragments of the field block have more than 65536 octets";
        "block-truncated", Must "RFC 9113 4.3", Breach "RFC 9113 4.3", Connection [9] [] [],
            "the field block ends inside an instruction";
        "integer-too-long", Own "RFC 7541 5.1", Limit "RFC 7541 5.1", None [9] [] [accept],
            "an integer has more than five continuation octets";
        "index-zero", Must "RFC 7541 6.1", Breach "RFC 7541 6.1", Connection [9] [] [],
            "an indexed field has the index 0";
        "index-out-of-tables", Must "RFC 7541 2.3.3", Breach "RFC 7541 2.3.3", Connection [9] [] [],
            "an index is beyond the end of both tables";
        "huffman-string", Must "RFC 7541 5.2", Breach "RFC 7541 5.2", Connection [9] [] [],
            "a Huffman string contains EOS, or its padding is longer than 7 bits or has a 0 in it";
        "size-update-late", Own "RFC 7541 4.2", Must "RFC 7541 4.2", None [9] [] [accept],
            "a table size update may only be at the beginning of a field block";
        "size-update-too-large", Must "RFC 7541 6.3", Must "RFC 7541 6.3", Connection [9] [] [],
            "a table size update is above the limit of the table";
        "size-update-missing", Must "RFC 9113 4.3.1", Must "RFC 9113 4.3.1", Connection [9] [] [] open [] [] [accept],
            "the limit of the table is lower now: the field block has to begin with a table size update";
        "too-many-streams", Must "RFC 9113 5.1.2", MustNot "RFC 9113 5.1.2", Stream [] [7] [],
            "as many streams are open as this server allows";
        "list-too-large", Own "RFC 9113 10.5.1", Limit "RFC 9113 10.5.1", None [9] [11 1] [accept answer],
            "the list of fields has more than 65536 octets";
        "bad-name", Must "RFC 9113 8.2.1", MustNot "RFC 9113 8.2.1", Malformed [] [1] [answer],
            "the name of a field is empty or has an octet that names may not have";
        "bad-value", Must "RFC 9113 8.2.1", MustNot "RFC 9113 8.2.1", Malformed [] [1] [answer],
            "the value of a field has an octet that values may not have, or a blank at an end";
        "late-pseudo-field", Must "RFC 9113 8.3", Must "RFC 9113 8.3", Malformed [] [1] [answer],
            "a pseudo-field is after a regular field";
        "unknown-pseudo-field", Must "RFC 9113 8.3", MustNot "RFC 9113 8.3", Malformed [] [1] [answer],
            "a pseudo-field is not one of a request";
        "double-pseudo-field", Must "RFC 9113 8.3", MustNot "RFC 9113 8.3", Malformed [] [1] [answer],
            "a pseudo-field is there twice";
        "lacking-pseudo-field", Must "RFC 9113 8.3.1", Must "RFC 9113 8.3.1", Malformed [] [1] [answer],
            "a pseudo-field is missing or empty, or CONNECT has one that it may not have";
        "connection-field", Must "RFC 9113 8.2.2", MustNot "RFC 9113 8.2.2", Malformed [] [1] [answer],
            "a field belongs to HTTP/1.1 connections";
        "bad-te", Must "RFC 9113 8.2.2", MustNot "RFC 9113 8.2.2", Malformed [] [1] [answer],
            "te has another value than trailers";
        "bad-content-length", Must "RFC 9113 8.1.1", MustNot "RFC 9110 8.6", Malformed [] [1] [answer wait] open [] [] [accept],
            "content-length is not 1 to 18 digits, or is there twice with different numbers";
        "content-missing", Must "RFC 9113 8.1.1", Breach "RFC 9113 8.1.1", Malformed [] [1] [answer],
            "the request ends with its fields and declares content";
        "content-too-long", Must "RFC 9113 8.1.1", Breach "RFC 9113 8.1.1", Malformed [] [1] [answer wait],
            "the content is longer than content-length declares";
        "content-too-short", Must "RFC 9113 8.1.1", Breach "RFC 9113 8.1.1", Malformed [] [1] [answer],
            "the content is shorter than content-length declares";
        "trailers-without-end-stream", Must "RFC 9113 8.1", Breach "RFC 9113 8.1", Malformed [] [1] [answer],
            "trailers have to end the stream by END_STREAM";
        "trailers-bad-name", Must "RFC 9113 8.2.1", MustNot "RFC 9113 8.2.1", Malformed [] [1] [answer],
            "the name of a trailer is empty or has an octet that names may not have";
        "trailers-bad-value", Must "RFC 9113 8.2.1", MustNot "RFC 9113 8.2.1", Malformed [] [1] [answer],
            "the value of a trailer has an octet that values may not have, or a blank at an end";
        "trailers-pseudo-field", Must "RFC 9113 8.1", MustNot "RFC 9113 8.1", Malformed [] [1] [answer],
            "trailers may not have a pseudo-field";
        "trailers-connection-field", Must "RFC 9113 8.2.2", MustNot "RFC 9113 8.2.2", Malformed [] [1] [answer],
            "a trailer belongs to HTTP/1.1 connections";
        "trailers-bad-te", Must "RFC 9113 8.2.2", MustNot "RFC 9113 8.2.2", Malformed [] [1] [answer],
            "te, in the trailers, has another value than trailers";
    } };
}

static NAMES: [&str; 76] = causes!(name);

static SECTIONS: [&str; 76] = causes!(section);

static CLIENT_SECTIONS: [&str; 76] = causes!(client_section);

static SENTENCES: [&str; 76] = causes!(sentence);

static DUTIES: [Duties; 76] = causes!(duties);

/// The names as a slice; read here alone, so that no other proof goes through them.
fn names() -> &'static [&'static str]
    ensures { map text_of result.now ≡ map (λ it. (row_of it).name) all_causes }
{
    &NAMES
}

/// The sections as a slice; read here alone, as `names` is.
fn sections() -> &'static [&'static str]
    ensures { map text_of result.now ≡ map (λ it. (row_of it).section) all_causes }
{
    &SECTIONS
}

/// The sections of the client's duties as a slice; read here alone, as `names` is.
fn client_sections() -> &'static [&'static str]
    ensures { map text_of result.now ≡ map (λ it. (row_of it).client_section) all_causes }
{
    &CLIENT_SECTIONS
}

/// The sentences as a slice; read here alone, as `names` is.
fn sentences() -> &'static [&'static str]
    ensures { map text_of result.now ≡ map (λ it. (row_of it).sentence) all_causes }
{
    &SENTENCES
}

/// The duties as a slice; read here alone, as `names` is.
fn duties() -> &'static [Duties]
    ensures { result.now ≡ map (λ it. duties_of (row_of it)) all_causes }
{
    &DUTIES
}

/// The place of a cause in their order.
fn place_of(cause: Cause) -> usize
    ensures { slice_get all_causes result ≡ Some cause }
{
    cause as usize
}

impl Cause {
    /// The error code that is sent (RFC 9113, 7).
    pub fn code(self) -> ErrorCode
        ensures { result ≡ code_of self }
    {
        match self {
            Cause::BadPreface
            | Cause::FirstNotSettings
            | Cause::FirstIsSettingsAck
            | Cause::BlockInterrupted
            | Cause::DataOnStreamZero
            | Cause::HeadersOnStreamZero
            | Cause::PriorityOnStreamZero
            | Cause::RstStreamOnStreamZero
            | Cause::ContinuationOnStreamZero
            | Cause::SettingsOnStream
            | Cause::PingOnStream
            | Cause::GoawayOnStream
            | Cause::DataPadding
            | Cause::HeadersPadding
            | Cause::PushPromiseFromClient
            | Cause::ContinuationOutsideBlock
            | Cause::DataOnIdle
            | Cause::HeadersOnEven
            | Cause::HeadersOnSkipped
            | Cause::RstStreamOnIdle
            | Cause::WindowUpdateOnIdle
            | Cause::ConnectionIncrementZero
            | Cause::StreamIncrementZero
            | Cause::EnablePushValue
            | Cause::MaxFrameSizeValue
            | Cause::BadName
            | Cause::BadValue
            | Cause::LatePseudoField
            | Cause::UnknownPseudoField
            | Cause::DoublePseudoField
            | Cause::LackingPseudoField
            | Cause::ConnectionField
            | Cause::BadTe
            | Cause::BadContentLength
            | Cause::ContentMissing
            | Cause::ContentTooLong
            | Cause::ContentTooShort
            | Cause::TrailersWithoutEndStream
            | Cause::TrailersBadName
            | Cause::TrailersBadValue
            | Cause::TrailersPseudoField
            | Cause::TrailersConnectionField
            | Cause::TrailersBadTe => { ErrorCode::ProtocolError }
            Cause::FrameTooLarge
            | Cause::StreamFrameTooLarge
            | Cause::DataLength
            | Cause::HeadersLength
            | Cause::PriorityLength
            | Cause::RstStreamLength
            | Cause::SettingsLength
            | Cause::SettingsAckLength
            | Cause::PingLength
            | Cause::GoawayLength
            | Cause::WindowUpdateLength => { ErrorCode::FrameSizeError }
            Cause::DataOnSkipped
            | Cause::DataAfterEndStream
            | Cause::DataOnClosed
            | Cause::HeadersAfterEndStream
            | Cause::HeadersOnClosed => { ErrorCode::StreamClosed }
            Cause::ConnectionWindowExceeded
            | Cause::StreamWindowExceeded
            | Cause::ConnectionWindowOverflow
            | Cause::StreamWindowOverflow
            | Cause::InitialWindowSizeValue
            | Cause::InitialWindowSizeOverflow => { ErrorCode::FlowControlError }
            Cause::BlockTooLarge | Cause::ListTooLarge => { ErrorCode::EnhanceYourCalm }
            Cause::BlockTruncated
            | Cause::IntegerTooLong
            | Cause::IndexZero
            | Cause::IndexOutOfTables
            | Cause::HuffmanString
            | Cause::SizeUpdateLate
            | Cause::SizeUpdateTooLarge
            | Cause::SizeUpdateMissing => { ErrorCode::CompressionError }
            Cause::TooManyStreams => ErrorCode::RefusedStream,
        }
    }
    /// The name, by which documents, examples and outputs call it.
    pub fn name(self) -> &'static str
        ensures { result.now ≡ (row_of self).name }
    {
        text_at(names(), place_of(self))
    }

    /// Whether a word is the name of a cause.
    pub fn is_name(word: &[u8]) -> bool
        ensures { result ≡ list_any (λ cause. bytes_eq word.now (cause_name cause)) all_causes }
    {
        is_one_of(word, names())
    }

    /// Its row of the table of rules.
    pub fn row(self) -> Row
        ensures { row_shown result ≡ row_of self }
    {
        let place = place_of(self);
        Row {
            name: text_at(names(), place),
            section: text_at(sections(), place),
            client_section: text_at(client_sections(), place),
            sentence: text_at(sentences(), place),
            duties: duties_at(duties(), place),
        }
    }
}

/// The name.
impl fmt::Debug for Cause {
    fn fmt<W: fmt::Write>(&self, f: &mut fmt::Formatter<W>) -> fmt::Result {
        f.write_str(self.name())
    }
}
