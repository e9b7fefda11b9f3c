//! Why a frame is ignored, where it is no error (RFC 9113, 4.1, 5.1 and 6). Definitions: `specs/Causes/Ignored.antt`,
//! `specs/Causes/IgnoredWords.antt`.

ghost use Rattle.std.specs.Prelude.{◌≡◌, map, slice_get, Some};
ghost use Rattle.std.specs.List.{list_any};
ghost use Rattle.std.specs.Str.{bytes_eq};
ghost use Rattle.h2_spec.specs.Causes.IgnoredWords.{all_reasons, ignored_name, reason_row};
ghost use Rattle.h2_spec.specs.Causes.Rules.{duties_of, row_shown, text_of};

use crate::rules::{Duties, Row, column, duties_at, is_one_of, text_at};
use std::fmt;

/// Why a frame is ignored.
#[derive(Clone, Copy)]
pub enum Ignored {
    /// PRIORITY, in every state.
    Priority,
    /// A frame of a type that is not known.
    UnknownType,
    /// SETTINGS with ACK after the first.
    SecondAcknowledgement,
    /// PING with ACK.
    PingAcknowledgement,
    /// RST_STREAM on a stream that a request on a higher one has closed.
    RstStreamOnSkipped,
    /// RST_STREAM on a stream that both sides have ended.
    RstStreamOnClosed,
    /// RST_STREAM on a stream that the peer has reset.
    RstStreamOnPeerReset,
    /// RST_STREAM on a stream that the server has reset.
    RstStreamOnReset,
    /// WINDOW_UPDATE on a stream that a request on a higher one has closed.
    WindowUpdateOnSkipped,
    /// WINDOW_UPDATE on a stream that both sides have ended.
    WindowUpdateOnClosed,
    /// WINDOW_UPDATE on a stream that the peer has reset.
    WindowUpdateOnPeerReset,
    /// WINDOW_UPDATE on a stream that the server has reset.
    WindowUpdateOnReset,
    /// WINDOW_UPDATE by 0 on a stream that is closed in one of these ways.
    WindowUpdateByZero,
    /// DATA on a stream that the server has reset: it is counted on the connection.
    DataOnReset,
    /// HEADERS or CONTINUATION on a stream that the server has reset: the header table follows it.
    TableOnlyBlock,
}

/// The rows in their order, and a column of them: what has to be read column by column, since a table of many texts
/// takes long to prove.
macro_rules! reasons {
    ($column:ident) => { column! { $column
        "priority", Must "RFC 9113 6.3", Nothing "RFC 9113 6.3", Ignore [] [] [ignore] open [1] [1] [],
            "this server does not use priorities";
        "unknown-type", Must "RFC 9113 5.5", Nothing "RFC 9113 5.5", Ignore [] [] [ignore],
            "the type of the frame is unknown";
        "second-acknowledgement", Own "RFC 9113 6.5.3", Nothing "RFC 9113 6.5.3", None [1] [] [ignore],
            "the server's SETTINGS were acknowledged before";
        "ping-acknowledgement", Own "RFC 9113 6.7", Nothing "RFC 9113 6.7", None [1] [] [ignore],
            "this server sends no PING that could be acknowledged";
        "rst-stream-on-skipped", May "RFC 9113 5.1", MustNot "RFC 9113 5.1", None [5] [] [ignore],
            "the stream was closed, unused, when a higher one was opened";
        "rst-stream-on-closed", Must "RFC 9113 5.1", Nothing "RFC 9113 5.1", Ignore [] [] [ignore] open [5 1] [] [],
            "the stream is closed";
        "rst-stream-on-peer-reset", May "RFC 9113 5.1", MustNot "RFC 9113 5.1", None [5] [] [ignore],
            "the client has already reset the stream";
        "rst-stream-on-reset", Must "RFC 9113 5.1", Nothing "RFC 9113 5.1", Ignore [] [] [ignore] open [5 1] [] [],
            "the server has reset the stream";
        "window-update-on-skipped", May "RFC 9113 5.1", MustNot "RFC 9113 5.1", None [5] [5] [ignore],
            "the stream was closed, unused, when a higher one was opened";
        "window-update-on-closed", Must "RFC 9113 6.9", Nothing "RFC 9113 6.9", Ignore [] [] [ignore] open [1] [] [],
            "the stream is closed";
        "window-update-on-peer-reset", May "RFC 9113 5.1", MustNot "RFC 9113 5.1", None [5] [5] [ignore],
            "the client has reset the stream";
        "window-update-on-reset", Must "RFC 9113 5.1", Nothing "RFC 9113 5.1", Ignore [] [] [ignore] open [5 1] [] [],
            "the server has reset the stream";
        "window-update-by-zero", Own "RFC 9113 6.9", Breach "RFC 9113 6.9", None [5] [1] [ignore],
            "the increment of WINDOW_UPDATE has to be 1 or more, but the stream is closed";
        "data-on-reset", Must "RFC 9113 5.1", Nothing "RFC 9113 5.1", Ignore [] [] [ignore] open [5 1] [5] [],
            "the server has reset the stream: DATA counts for the connection's window and no more";
        "table-only-block", Must "RFC 9113 5.1", Nothing "RFC 9113 5.1", Ignore [] [] [ignore] open [5 1] [5] [],
            "the server has reset the stream: the block changes the header table and no more";
    } };
}

static NAMES: [&str; 15] = reasons!(name);

static SECTIONS: [&str; 15] = reasons!(section);

static CLIENT_SECTIONS: [&str; 15] = reasons!(client_section);

static SENTENCES: [&str; 15] = reasons!(sentence);

static DUTIES: [Duties; 15] = reasons!(duties);

/// The names as a slice; read here alone, so that no other proof goes through them.
fn names() -> &'static [&'static str]
    ensures { map text_of result.now ≡ map (λ it. (reason_row it).name) all_reasons }
{
    &NAMES
}

/// The sections as a slice; read here alone, as `names` is.
fn sections() -> &'static [&'static str]
    ensures { map text_of result.now ≡ map (λ it. (reason_row it).section) all_reasons }
{
    &SECTIONS
}

/// The sections of the client's duties as a slice; read here alone, as `names` is.
fn client_sections() -> &'static [&'static str]
    ensures { map text_of result.now ≡ map (λ it. (reason_row it).client_section) all_reasons }
{
    &CLIENT_SECTIONS
}

/// The sentences as a slice; read here alone, as `names` is.
fn sentences() -> &'static [&'static str]
    ensures { map text_of result.now ≡ map (λ it. (reason_row it).sentence) all_reasons }
{
    &SENTENCES
}

/// The duties as a slice; read here alone, as `names` is.
fn duties() -> &'static [Duties]
    ensures { result.now ≡ map (λ it. duties_of (reason_row it)) all_reasons }
{
    &DUTIES
}

/// The place of a reason in their order.
fn place_of(reason: Ignored) -> usize
    ensures { slice_get all_reasons result ≡ Some reason }
{
    reason as usize
}

impl Ignored {
    /// The name, by which documents, examples and outputs call it.
    pub fn name(self) -> &'static str
        ensures { result.now ≡ (reason_row self).name }
    {
        text_at(names(), place_of(self))
    }

    /// Whether a word is the name of a reason.
    pub fn is_name(word: &[u8]) -> bool
        ensures { result ≡ list_any (λ reason. bytes_eq word.now (ignored_name reason)) all_reasons }
    {
        is_one_of(word, names())
    }

    /// Its row of the table of rules.
    pub fn row(self) -> Row
        ensures { row_shown result ≡ reason_row self }
    {
        let place = place_of(self);
        Row {
            name: text_at(names(), place),
            section: text_at(sections(), place),
            client_section: text_at(client_sections(), place),
            sentence: text_at(sentences(), place),
            duties: duties_at(duties(), place),
        }
    }
}

/// The name.
impl fmt::Debug for Ignored {
    fn fmt<W: fmt::Write>(&self, f: &mut fmt::Formatter<W>) -> fmt::Result {
        f.write_str(self.name())
    }
}
