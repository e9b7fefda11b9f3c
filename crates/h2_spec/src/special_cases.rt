//! Cases of a cause, or of a reason to ignore a frame, for which the RFC says something else than for its other cases.
//! Which case an item is depends on its values and on what came before; `explain` has them. Definitions:
//! `specs/Causes/SpecialCases.antt`.

ghost use Rattle.std.specs.Prelude.{◌≡◌, map, slice_get, Some};
ghost use Rattle.h2_spec.specs.Causes.SpecialCases.{all_special_cases, special_row};
ghost use Rattle.h2_spec.specs.Causes.Rules.{duties_of, row_shown, text_of};

use crate::rules::{Duties, Row, column, duties_at, text_at};

/// A case of a cause or of a reason, with a rule of its own.
#[derive(Clone, Copy)]
pub enum SpecialCase {
    /// `too-many-streams` before the peer has acknowledged the server's SETTINGS.
    LimitNotAcknowledged,
    /// `block-interrupted` where a CONTINUATION has arrived in the block.
    BehindContinuation,
    /// `block-interrupted` by a frame of a type that is not known.
    UnknownTypeInBlock,
    /// `bad-name` and `trailers-bad-name` where the name has no octet.
    EmptyName,
    /// `lacking-pseudo-field` of CONNECT.
    ConnectPseudoFields,
    /// `lacking-pseudo-field` for an empty :path, with another scheme than http and https.
    EmptyPathOfOtherScheme,
    /// `bad-content-length` for two different numbers.
    ContentLengthsDiffer,
    /// `bad-content-length` for a number of more than 18 digits.
    ContentLengthTooLong,
    /// `stream-window-overflow` on a half-closed (local) stream.
    UnfollowedWindow,
    /// `data-on-idle`, `rst-stream-on-idle` and `window-update-on-idle` on an even stream.
    EvenStream,
    /// `data-on-reset` on a stream that the peer had ended before the server reset it.
    DataAfterEnd,
    /// `table-only-block` on a stream that the peer had ended before the server reset it.
    BlockAfterEnd,
    /// `first-not-settings` where the frame is of a type that is not known.
    FirstUnknownType,
    /// `priority-length` on an idle stream.
    PriorityLengthOnIdle,
    /// `stream-frame-too-large` by PRIORITY, or by a frame of a type that is not known, on an idle stream.
    FrameTooLargeOnIdle,
    /// `lacking-pseudo-field` for an empty :path, with the scheme http or https.
    EmptyPath,
    /// `bad-te` and `trailers-bad-te` where te has no member but trailers.
    TeOfTrailersAlone,
    /// `initial-window-size-value` where the last SETTINGS_INITIAL_WINDOW_SIZE of the frame is lawful.
    WindowValueThenLawful,
    /// `continuation-outside-block` on a half-closed (remote) or closed stream.
    ContinuationOnEndedStream,
    /// `integer-too-long` where the integer is 2^32 or more.
    IntegerBeyondAllTables,
    /// `window-update-on-peer-reset` on a stream that the client had ended before it reset it.
    WindowUpdateAfterEnd,
}

/// The rows in their order, and a column of them: what has to be read column by column, since a table of many texts
/// takes long to prove.
macro_rules! special_cases {
    ($column:ident) => { column! { $column
        "limit-not-acknowledged", Own "RFC 9113 5.1.2", Limit "RFC 9113 6.5.3", None [] [7] [accept],
            "as many streams are open as this server allows; the client has not acknowledged that limit yet";
        "behind-continuation", Must "RFC 9113 6.10", Must "RFC 9113 6.10", Connection [1] [] [] open [9] [] [],
            "after a CONTINUATION without END_HEADERS only CONTINUATION on its stream may follow";
        "unknown-type-in-block", Must "RFC 9113 5.5", Breach "RFC 9113 5.5", Connection [1] [] [],
            "while a field block is open, frames of unknown types may not come either";
        "empty-name", Should "RFC 9113 8.2.1", Breach "RFC 9110 5.1", None [] [1] [answer accept],
            "the name of a field is empty";
        "connect-pseudo-fields", Must "RFC 9113 8.5", Must "RFC 9113 8.5", Malformed [] [1] [answer],
            "CONNECT has to have :method and :authority, and neither :scheme nor :path";
        "empty-path-of-other-scheme", Own "RFC 9113 8.3.1", Nothing "RFC 9113 8.3.1", None [] [1] [answer accept],
            ":path is empty, which is forbidden for http and https alone";
        "content-lengths-differ", Must "RFC 9113 8.1.1", MustNot "RFC 9110 5.3", Malformed [] [1] [answer wait] open [] [] [accept],
            "content-length is there twice with different numbers";
        "content-length-too-long", Own "RFC 9110 8.6", Limit "RFC 9110 8.6", None [] [1] [answer accept wait],
            "content-length has more than 18 digits";
        "unfollowed-window", Must "RFC 9113 6.9.2", Nothing "RFC 9113 6.9.2", Accept [] [] [accept],
            "on a half-closed (local) stream this server's send window does not follow SETTINGS_INITIAL_WINDOW_SIZE: the client's own count may allow the increment";
        "even-stream", Must "RFC 9113 5.1", Must "RFC 9113 5.1.1", Connection [1] [] [] open [5] [5] [],
            "the streams of a client have odd identifiers: an even one is always idle";
        "data-after-end", Own "RFC 9113 5.1", Breach "RFC 9113 5.1", None [5] [5] [ignore],
            "the client had ended the stream before the server reset it: DATA counts for the connection's window and no more";
        "block-after-end", Own "RFC 9113 5.1", Breach "RFC 9113 5.1", None [5] [5] [ignore],
            "the client had ended the stream before the server reset it: the block changes the header table and no more";
        "first-unknown-type", Own "RFC 9113 3.4", Must "RFC 9113 3.4", None [1] [] [ignore],
            "the first frame after the preface has to be SETTINGS, but a frame of an unknown type has to be ignored";
        "priority-length-on-idle", Own "RFC 9113 6.3", Breach "RFC 9113 6.3", None [6] [] [ignore] open [] [6] [],
            "PRIORITY has to have 5 octets; on an idle stream RST_STREAM may not be sent for it";
        "frame-too-large-on-idle", Own "RFC 9113 4.2", MustNot "RFC 9113 4.1", None [6] [] [ignore wait] open [] [6] [],
            "the frame is longer than this server takes; on an idle stream RST_STREAM may not be sent for it";
        "empty-path", Must "RFC 9113 8.3.1", MustNot "RFC 9113 8.3.1", Malformed [] [1] [answer] open [] [] [accept],
            ":path is empty, which is forbidden for http and https";
        "te-of-trailers-alone", Own "RFC 9113 8.2.2", Nothing "RFC 9113 8.2.2", None [] [1] [answer accept],
            "te has no member but trailers: it is empty, or has it more than once";
        "window-value-then-lawful", Must "RFC 9113 6.5.3", Breach "RFC 9113 6.5.2", Connection [3] [] [] open [] [] [accept],
            "SETTINGS_INITIAL_WINDOW_SIZE has to be 2147483647 or less; the last one of the frame is";
        "continuation-on-ended-stream", Must "RFC 9113 6.10", Must "RFC 9113 6.10", Connection [1 5] [] [],
            "no field block is open that CONTINUATION could continue, and the client can send no field block on the stream any more";
        "integer-beyond-all-tables", Must "RFC 7541 2.3.3", Breach "RFC 7541 2.3.3", Connection [9] [] [],
            "an integer is above each index, length and size that a server can take";
        "window-update-after-end", Must "RFC 9113 6.9", MustNot "RFC 9113 5.1", Ignore [] [] [ignore] open [5] [5] [],
            "the client has reset the stream, but had ended it before: WINDOW_UPDATE may follow END_STREAM";
    } };
}

static NAMES: [&str; 21] = special_cases!(name);

static SECTIONS: [&str; 21] = special_cases!(section);

static CLIENT_SECTIONS: [&str; 21] = special_cases!(client_section);

static SENTENCES: [&str; 21] = special_cases!(sentence);

static DUTIES: [Duties; 21] = special_cases!(duties);

/// The names as a slice; read here alone, so that no other proof goes through them.
fn names() -> &'static [&'static str]
    ensures { map text_of result.now ≡ map (λ it. (special_row it).name) all_special_cases }
{
    &NAMES
}

/// The sections as a slice; read here alone, as `names` is.
fn sections() -> &'static [&'static str]
    ensures { map text_of result.now ≡ map (λ it. (special_row it).section) all_special_cases }
{
    &SECTIONS
}

/// The sections of the client's duties as a slice; read here alone, as `names` is.
fn client_sections() -> &'static [&'static str]
    ensures { map text_of result.now ≡ map (λ it. (special_row it).client_section) all_special_cases }
{
    &CLIENT_SECTIONS
}

/// The sentences as a slice; read here alone, as `names` is.
fn sentences() -> &'static [&'static str]
    ensures { map text_of result.now ≡ map (λ it. (special_row it).sentence) all_special_cases }
{
    &SENTENCES
}

/// The duties as a slice; read here alone, as `names` is.
fn duties() -> &'static [Duties]
    ensures { result.now ≡ map (λ it. duties_of (special_row it)) all_special_cases }
{
    &DUTIES
}

/// The place of a case in their order.
fn place_of(case: SpecialCase) -> usize
    ensures { slice_get all_special_cases result ≡ Some case }
{
    case as usize
}

impl SpecialCase {
    /// The name, by which documents, examples and outputs call it.
    pub fn name(self) -> &'static str
        ensures { result.now ≡ (special_row self).name }
    {
        text_at(names(), place_of(self))
    }

    /// Its row of the table of rules.
    pub fn row(self) -> Row
        ensures { row_shown result ≡ special_row self }
    {
        let place = place_of(self);
        Row {
            name: text_at(names(), place),
            section: text_at(sections(), place),
            client_section: text_at(client_sections(), place),
            sentence: text_at(sentences(), place),
            duties: duties_at(duties(), place),
        }
    }
}
