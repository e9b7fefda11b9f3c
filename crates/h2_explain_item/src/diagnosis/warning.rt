//! Warnings: what a client may not do and this server lets pass, and which of them an item gets. They change no frame
//! and no state. Definitions: `specs/Warnings.antt`.

ghost use Rattle.std.specs.Prelude.{◌≡◌, ◌≤◌, map, slice_get, Some};
ghost use Rattle.h2_spec.specs.Causes.Rules.{text_of};
ghost use Rattle.h2_explain_item.specs.Special.{rule_of_cause, rule_of_reason};
ghost use Rattle.h2_explain_item.specs.Warnings.{all_warnings, block_count, broken_count, duty_of_error, duty_of_reason, frame_count, has_warning, is_after_error, is_below_zero, is_breach, is_empty_data, is_goaway, is_no_error, is_odd, is_on_negative, is_opening, is_raised, is_running, is_unacknowledged, is_zero_increment, no_request_facts, note_count, one_if, opens_stream, request_count, warning_count, warning_name, warning_section, warning_sentence, warnings_of};

use crate::diagnosis::frame_facts::{FrameFacts, frame_facts};
use crate::diagnosis::request_facts::{BlockFacts, RequestFacts};
use crate::diagnosis::run_facts::RunFacts;
use crate::diagnosis::special::{CaseFacts, case_of_error, case_of_reason};
use crate::item::Explained;
use crate::notes::is_opened;
use h2_spec::causes::Cause;
use h2_spec::connection::{ConnectionState, Phase};
use h2_spec::flow::Window;
use h2_spec::frames::{DATA, END_STREAM, GOAWAY, Head};
use h2_spec::ignored::Ignored;
use h2_spec::rules::{ClientDuty, text_at};
use h2_spec::special_cases::SpecialCase;
use h2_spec::streams::StreamState;

/// What a client may not do and this server lets pass.
#[derive(Clone, Copy)]
pub enum Warning {
    /// `:method` is no token (RFC 9110, 9.1).
    BadMethod,
    /// `:scheme` is no scheme (RFC 3986, 3.1).
    BadScheme,
    /// `:path` of http and https does not begin with a slash, and is not `*` with OPTIONS (RFC 9113, 8.3.1).
    BadPath,
    /// `:authority` of http and https has userinfo (RFC 9113, 8.3.1).
    Userinfo,
    /// `:authority` is empty (RFC 9113, 8.3.1).
    EmptyAuthority,
    /// A request of http or https has neither `:authority` nor the field `host` (RFC 9113, 8.3.1).
    NoAuthority,
    /// The field `host` is there twice (RFC 9110, 5.3).
    HostTwice,
    /// The field `host` is other than `:authority` (RFC 9113, 8.3.1).
    HostDiffers,
    /// The field `content-length` is there twice, with the same number (RFC 9110, 5.3).
    LengthTwice,
    /// A field name has an octet that no token has (RFC 9110, 5.1).
    NameNoToken,
    /// A field block has more than two table size updates (RFC 7541, 4.2).
    ManySizeUpdates,
    /// Padding of DATA or HEADERS has an octet other than 0 (RFC 9113, 6.1 and 6.2).
    PaddingNotZero,
    /// The reserved bit of a frame's head is set (RFC 9113, 4.1).
    ReservedBit,
    /// A flag is set that the frame's type does not define (RFC 9113, 4.1).
    UndefinedFlags,
    /// ENABLE_CONNECT_PROTOCOL is above 1 (RFC 8441, 3).
    ConnectProtocolValue,
    /// A stream opens after the client's GOAWAY (RFC 9113, 6.8).
    StreamAfterGoaway,
    /// A frame comes after a GOAWAY of the client's with an error code (RFC 9113, 5.4.1).
    AfterErrorGoaway,
    /// A GOAWAY names a higher last stream than the one before (RFC 9113, 6.8).
    GoawayRaised,
    /// A GOAWAY names an odd stream, which the client itself opens (RFC 9113, 6.8).
    GoawayOddStream,
    /// A frame on a stream that the client itself closed, or whose side it ended, is ignored (RFC 9113, 5.1).
    OnClosedStream,
    /// WINDOW_UPDATE by 0 is ignored (RFC 9113, 6.9).
    IncrementOfZero,
    /// DATA goes beyond what was granted before the read that it came in (RFC 9113, 6.9).
    SentBeforeGranted,
    /// DATA uses a WINDOW_UPDATE that came after SETTINGS which the client has not acknowledged (RFC 9113, 6.5.3).
    SentBeforeAcknowledged,
    /// Empty DATA without END_STREAM comes while the stream's window is negative (RFC 9113, 6.9.2).
    DataOnNegativeWindow,
    /// More than 100 CONTINUATION frames of a field block are empty (RFC 9113, 10.5.1).
    ManyEmptyContinuations,
    /// The client has not acknowledged the server's SETTINGS by the end of the input (RFC 9113, 6.5.3).
    SettingsNotAcknowledged,
    /// The input ends while an answer waits for a window of the client's (RFC 9113, 6.9).
    AnswerUnfinished,
}

/// The name of each warning, in their order.
static NAMES: [&str; 27] = [
    "bad-method",
    "bad-scheme",
    "bad-path",
    "userinfo",
    "empty-authority",
    "no-authority",
    "host-twice",
    "host-differs",
    "content-length-twice",
    "name-no-token",
    "many-size-updates",
    "padding-not-zero",
    "reserved-bit",
    "undefined-flags",
    "connect-protocol-value",
    "stream-after-goaway",
    "after-error-goaway",
    "goaway-raised",
    "goaway-odd-stream",
    "on-closed-stream",
    "increment-of-zero",
    "sent-before-granted",
    "sent-before-acknowledged",
    "data-on-negative-window",
    "many-empty-continuations",
    "settings-not-acknowledged",
    "answer-unfinished",
];

/// The section that has the rule of each warning, in their order.
static SECTIONS: [&str; 27] = [
    "RFC 9110 9.1",
    "RFC 3986 3.1",
    "RFC 9113 8.3.1",
    "RFC 9113 8.3.1",
    "RFC 9113 8.3.1",
    "RFC 9113 8.3.1",
    "RFC 9110 5.3",
    "RFC 9113 8.3.1",
    "RFC 9110 5.3",
    "RFC 9110 5.1",
    "RFC 7541 4.2",
    "RFC 9113 6.1",
    "RFC 9113 4.1",
    "RFC 9113 4.1",
    "RFC 8441 3",
    "RFC 9113 6.8",
    "RFC 9113 5.4.1",
    "RFC 9113 6.8",
    "RFC 9113 6.8",
    "RFC 9113 5.1",
    "RFC 9113 6.9",
    "RFC 9113 6.9",
    "RFC 9113 6.5.3",
    "RFC 9113 6.9.2",
    "RFC 9113 10.5.1",
    "RFC 9113 6.5.3",
    "RFC 9113 6.9",
];

/// The sentence of each warning, in their order.
static SENTENCES: [&str; 27] = [
    ":method has to be a token: it is empty, or has an octet that no token has",
    ":scheme has to be a letter, and then letters, digits, +, - and .",
    ":path of http and https has to begin with /, or to be * with OPTIONS",
    ":authority of http and https must not have userinfo, which an @ ends",
    ":authority is empty; without an authority it has to be left out",
    "a request of http or https has to have :authority or the field host",
    "the field host is there more than once",
    "the field host is other than :authority",
    "the field content-length is there more than once, with the same number",
    "a field name has to be a token, and one of this block has an octet that no token has",
    "a field block has at most two table size updates: the smallest, and then the last",
    "the octets of padding have to be 0",
    "the reserved bit of a frame, the one before the stream, has to be 0",
    "flags that the type of the frame does not define have to be 0",
    "ENABLE_CONNECT_PROTOCOL has to be 0 or 1",
    "the client opens a stream after its own GOAWAY, which shuts the connection down",
    "the client's own GOAWAY had an error code: after it the client has to close the connection, and sends nothing",
    "the last stream of this GOAWAY is above that of the client's GOAWAY before",
    "GOAWAY of a client names a stream that the server opened, which is even, or 0",
    "the client itself had closed the stream, or its side of it, before it sent this frame",
    "the increment of WINDOW_UPDATE has to be 1 or more",
    "this DATA was sent before the WINDOW_UPDATE that it needs: one read had more of it than was granted before that read",
    "this DATA needs a WINDOW_UPDATE that came after the server's SETTINGS, and the client has not acknowledged these",
    "the window of the stream is negative: until it is positive, DATA may only end the stream, with no octets",
    "more than 100 CONTINUATION frames of this block are empty",
    "the input ends, and the client has not acknowledged the server's SETTINGS",
    "the input ends while an answer waits for WINDOW_UPDATE",
];

/// All warnings, in their order.
static ALL: [Warning; 27] = [
    Warning::BadMethod,
    Warning::BadScheme,
    Warning::BadPath,
    Warning::Userinfo,
    Warning::EmptyAuthority,
    Warning::NoAuthority,
    Warning::HostTwice,
    Warning::HostDiffers,
    Warning::LengthTwice,
    Warning::NameNoToken,
    Warning::ManySizeUpdates,
    Warning::PaddingNotZero,
    Warning::ReservedBit,
    Warning::UndefinedFlags,
    Warning::ConnectProtocolValue,
    Warning::StreamAfterGoaway,
    Warning::AfterErrorGoaway,
    Warning::GoawayRaised,
    Warning::GoawayOddStream,
    Warning::OnClosedStream,
    Warning::IncrementOfZero,
    Warning::SentBeforeGranted,
    Warning::SentBeforeAcknowledged,
    Warning::DataOnNegativeWindow,
    Warning::ManyEmptyContinuations,
    Warning::SettingsNotAcknowledged,
    Warning::AnswerUnfinished,
];

/// The names as a slice; read here alone, so that no other proof goes through them.
fn names() -> &'static [&'static str]
    ensures { map text_of result.now ≡ map warning_name all_warnings }
{
    &NAMES
}

/// The sections as a slice; read here alone, as `names` is.
fn sections() -> &'static [&'static str]
    ensures { map text_of result.now ≡ map warning_section all_warnings }
{
    &SECTIONS
}

/// The sentences as a slice; read here alone, as `names` is.
fn sentences() -> &'static [&'static str]
    ensures { map text_of result.now ≡ map warning_sentence all_warnings }
{
    &SENTENCES
}

/// All warnings, in their order.
pub fn all_warnings() -> &'static [Warning]
    ensures { result.now ≡ all_warnings }
{
    &ALL
}

/// The place of a warning in their order.
fn place_of(warning: Warning) -> usize
    ensures { slice_get all_warnings result ≡ Some warning }
{
    warning as usize
}

impl Warning {
    /// The name, by which documents and outputs call the warning.
    pub fn name(self) -> &'static str
        ensures { result.now ≡ warning_name self }
    {
        text_at(names(), place_of(self))
    }

    /// The section that has the rule, as `RFC 9113 8.3.1`.
    pub fn section(self) -> &'static str
        ensures { result.now ≡ warning_section self }
    {
        text_at(sections(), place_of(self))
    }

    /// The rule, in a sentence.
    pub fn sentence(self) -> &'static str
        ensures { result.now ≡ warning_sentence self }
    {
        text_at(sentences(), place_of(self))
    }
}

/// The warnings of an item, or of the end of the input.
#[derive(Clone, Copy)]
pub struct Warnings {
    /// Those about the request that the item opens a stream with.
    pub request: RequestFacts,
    /// Those about the field block that ends with the item.
    pub block: BlockFacts,
    /// Those about the frame by itself.
    pub frame: FrameFacts,
    /// Those by what came before.
    pub run: RunFacts,
    /// Whether the item opens a stream after the client's own GOAWAY.
    pub after_goaway: bool,
    /// Whether the item is a frame after a GOAWAY of the client's with an error code.
    pub after_error: bool,
    /// Whether it is a GOAWAY whose last stream is above that of the client's GOAWAY before.
    pub goaway_raised: bool,
    /// Whether it is a GOAWAY that names an odd stream.
    pub goaway_odd: bool,
    /// Whether the frame is ignored, and the client itself closed the stream, or its side of it.
    pub on_closed: bool,
    /// Whether the frame is a WINDOW_UPDATE by 0 that is ignored.
    pub zero_increment: bool,
    /// Whether the frame is empty DATA without END_STREAM while the window of its stream is negative.
    pub on_negative: bool,
    /// Whether the input ends, and the client has not acknowledged the server's SETTINGS.
    pub unacknowledged: bool,
    /// Whether the input ends while an answer waits for a window of the client's.
    pub answer_unfinished: bool,
}

/// 1 where it is so, else 0.
fn one_if(holds: bool) -> u64
    ensures value { result ≡ one_if holds }
    ensures small { result ≤ 1 }
{
    if holds { 1 } else { 0 }
}

/// How many warnings there are about a request, at most 9.
fn request_count(request: RequestFacts) -> u64
    ensures value { result ≡ request_count request }
    ensures small { result ≤ 9 }
{
    one_if(request.bad_method)
        + one_if(request.bad_scheme)
        + one_if(request.bad_path)
        + one_if(request.userinfo)
        + one_if(request.empty_authority)
        + one_if(request.no_authority)
        + one_if(request.host_twice)
        + one_if(request.host_differs)
        + one_if(request.length_twice)
}

/// How many there are about a field block, at most 2.
fn block_count(block: BlockFacts) -> u64
    ensures value { result ≡ block_count block }
    ensures small { result ≤ 2 }
{
    one_if(block.name_no_token) + one_if(block.many_updates)
}

/// How many there are about a frame, at most 4.
fn frame_count(frame: FrameFacts) -> u64
    ensures value { result ≡ frame_count frame }
    ensures small { result ≤ 4 }
{
    one_if(frame.padding)
        + one_if(frame.reserved_bit)
        + one_if(frame.flags)
        + one_if(frame.connect_protocol)
}

impl Warnings {
    /// None.
    pub fn none() -> Warnings {
        Warnings {
            request: RequestFacts::none(),
            block: BlockFacts::none(),
            frame: FrameFacts::none(),
            run: RunFacts::none(),
            after_goaway: false,
            after_error: false,
            goaway_raised: false,
            goaway_odd: false,
            on_closed: false,
            zero_increment: false,
            on_negative: false,
            unacknowledged: false,
            answer_unfinished: false,
        }
    }

    /// Whether this is one of them.
    pub fn has(self, warning: Warning) -> bool
        ensures { result ≡ has_warning self warning }
    {
        match warning {
            Warning::BadMethod => self.request.bad_method,
            Warning::BadScheme => self.request.bad_scheme,
            Warning::BadPath => self.request.bad_path,
            Warning::Userinfo => self.request.userinfo,
            Warning::EmptyAuthority => self.request.empty_authority,
            Warning::NoAuthority => self.request.no_authority,
            Warning::HostTwice => self.request.host_twice,
            Warning::HostDiffers => self.request.host_differs,
            Warning::LengthTwice => self.request.length_twice,
            Warning::NameNoToken => self.block.name_no_token,
            Warning::ManySizeUpdates => self.block.many_updates,
            Warning::PaddingNotZero => self.frame.padding,
            Warning::ReservedBit => self.frame.reserved_bit,
            Warning::UndefinedFlags => self.frame.flags,
            Warning::ConnectProtocolValue => self.frame.connect_protocol,
            Warning::StreamAfterGoaway => self.after_goaway,
            Warning::AfterErrorGoaway => self.after_error,
            Warning::GoawayRaised => self.goaway_raised,
            Warning::GoawayOddStream => self.goaway_odd,
            Warning::OnClosedStream => self.on_closed,
            Warning::IncrementOfZero => self.zero_increment,
            Warning::SentBeforeGranted => self.run.sent_early,
            Warning::SentBeforeAcknowledged => self.run.sent_unacknowledged,
            Warning::DataOnNegativeWindow => self.on_negative,
            Warning::ManyEmptyContinuations => self.run.many_empty,
            Warning::SettingsNotAcknowledged => self.unacknowledged,
            Warning::AnswerUnfinished => self.answer_unfinished,
        }
    }

    /// How many are rules that the client broke, at most 23.
    pub fn broken_count(self) -> u64
        ensures value { result ≡ broken_count self }
        ensures small { result ≤ 23 }
    {
        request_count(self.request)
            + block_count(self.block)
            + frame_count(self.frame)
            + one_if(self.run.sent_early)
            + one_if(self.run.sent_unacknowledged)
            + one_if(self.after_error)
            + one_if(self.goaway_raised)
            + one_if(self.goaway_odd)
            + one_if(self.on_closed)
            + one_if(self.zero_increment)
            + one_if(self.on_negative)
    }

    /// How many are notes: no rule forbids the client what they say. At most 4.
    fn note_count(self) -> u64
        ensures value { result ≡ note_count self }
        ensures small { result ≤ 4 }
    {
        one_if(self.after_goaway)
            + one_if(self.run.many_empty)
            + one_if(self.unacknowledged)
            + one_if(self.answer_unfinished)
    }

    /// How many there are, at most 27.
    pub fn count(self) -> u64
        ensures value { result ≡ warning_count self }
        ensures small { result ≤ 27 }
    {
        self.broken_count() + self.note_count()
    }
}

/// Whether a stream opens (RFC 9113, 5.1).
fn is_opening(before: StreamState, after: StreamState) -> bool
    ensures { result ≡ is_opening before after }
{
    match before {
        StreamState::Idle => is_opened(after),
        _ => false,
    }
}

/// Whether an item opens a stream, and is no error.
pub fn opens_stream(item: &Explained<'_>) -> bool
    ensures { result ≡ opens_stream item.now }
{
    item.cause.is_none() && is_opening(item.before.stream.kind, item.after.stream.kind)
}

/// Whether the client broke a rule.
pub fn is_breach(duty: ClientDuty) -> bool
    ensures { result ≡ is_breach duty }
{
    match duty {
        ClientDuty::MustNot | ClientDuty::Must | ClientDuty::Breach => true,
        ClientDuty::Limit | ClientDuty::Nothing => false,
    }
}

/// What the client did, by the rule of a cause or of its special case.
fn duty_of_cause(cause: Cause, case: Option<SpecialCase>) -> ClientDuty
    ensures { result ≡ (rule_of_cause cause case).client }
{
    match case {
        Some(case) => case.row().duties.client,
        None => cause.row().duties.client,
    }
}

/// What the client did, by the rule of an item's error; nothing where it is none.
pub fn duty_of_error(item: &Explained<'_>, facts: CaseFacts) -> ClientDuty
    ensures { result ≡ duty_of_error item.now.cause item.now facts }
{
    match item.cause {
        Some(cause) => duty_of_cause(cause, case_of_error(item, facts)),
        None => ClientDuty::Nothing,
    }
}

/// What the client did, by the rule of a reason or of its special case.
fn duty_of_ignored(reason: Ignored, case: Option<SpecialCase>) -> ClientDuty
    ensures { result ≡ (rule_of_reason reason case).client }
{
    match case {
        Some(case) => case.row().duties.client,
        None => reason.row().duties.client,
    }
}

/// What the client did, by the rule of why an item is ignored; nothing where it is not.
pub fn duty_of_reason(item: &Explained<'_>, facts: CaseFacts) -> ClientDuty
    ensures { result ≡ duty_of_reason item.now.ignored facts }
{
    match item.ignored {
        Some(reason) => duty_of_ignored(reason, case_of_reason(item, facts)),
        None => ClientDuty::Nothing,
    }
}

/// Whether a frame is ignored whose increment is 0 (RFC 9113, 6.9).
fn is_zero_increment(ignored: Option<Ignored>) -> bool
    ensures { result ≡ is_zero_increment ignored }
{
    matches!(ignored, Some(Ignored::WindowUpdateByZero))
}

/// Whether a frame comes after a GOAWAY with an error code (RFC 9113, 5.4.1); `goaway` is the last GOAWAY before it.
fn is_after_error(head: Option<Head>, goaway: Option<(u32, u32)>) -> bool
    ensures { result ≡ is_after_error head goaway }
{
    match goaway {
        Some((_, code)) => head.is_some() && code != 0,
        None => false,
    }
}

/// Whether the last stream of a GOAWAY is above that of the one before (RFC 9113, 6.8).
fn is_raised(before: Option<(u32, u32)>, after: Option<(u32, u32)>) -> bool
    ensures { result ≡ is_raised before after }
{
    match (before, after) {
        (Some((before, _)), Some((after, _))) => before < after,
        _ => false,
    }
}

/// Whether a frame is GOAWAY (RFC 9113, 6.8).
fn is_goaway(head: Option<Head>) -> bool
    ensures { result ≡ is_goaway head }
{
    match head {
        Some(head) => head.kind == GOAWAY,
        None => false,
    }
}

/// Whether the last stream of a GOAWAY is odd (RFC 9113, 5.1.1).
fn is_odd(goaway: Option<(u32, u32)>) -> bool
    ensures { result ≡ is_odd goaway }
{
    match goaway {
        Some((last, _)) => last % 2 == 1,
        None => false,
    }
}

/// Whether a frame is DATA without octets and without END_STREAM (RFC 9113, 6.1).
fn is_empty_data(head: Option<Head>) -> bool
    ensures { result ≡ is_empty_data head }
{
    match head {
        Some(head) => head.kind == DATA && head.length == 0 && !head.has(END_STREAM),
        None => false,
    }
}

/// Whether a window is negative (RFC 9113, 6.9.2).
fn is_below_zero(window: Window) -> bool
    ensures { result ≡ is_below_zero window }
{
    window.value() < 0
}

/// Whether an item is empty DATA without END_STREAM while the window of its stream is negative, and no error (RFC 9113,
/// 6.9.1 and 6.9.2).
fn is_on_negative(item: &Explained<'_>) -> bool
    ensures { result ≡ is_on_negative item.now }
{
    item.cause.is_none()
        && is_empty_data(item.head())
        && is_below_zero(item.before.stream.numbers.recv)
}

/// The warnings of an item; `facts` decide the special case of its rule, `request` is what is wrong with the request of
/// its block, `block` what is wrong with the block, `run` what is wrong by what came before.
pub fn warnings_of(
    item: &Explained<'_>,
    facts: CaseFacts,
    request: RequestFacts,
    block: BlockFacts,
    run: RunFacts,
) -> Warnings
    ensures { result ≡ warnings_of item.now facts request block run }
{
    let opens = opens_stream(item);
    let zero_increment = is_zero_increment(item.ignored);
    let (head, goaway) = (item.head(), item.before.counts.goaway);
    let last = item.after.counts.goaway;
    Warnings {
        request: if opens { request } else { RequestFacts::none() },
        block: if item.cause.is_none() {
            block
        } else {
            BlockFacts::none()
        },
        frame: frame_facts(item),
        run,
        after_goaway: opens && goaway.is_some(),
        after_error: is_after_error(head, goaway),
        goaway_raised: is_raised(goaway, last),
        goaway_odd: item.cause.is_none() && is_goaway(head) && is_odd(last),
        on_closed: is_breach(duty_of_reason(item, facts)) && !zero_increment,
        zero_increment,
        on_negative: is_on_negative(item),
        unacknowledged: false,
        answer_unfinished: false,
    }
}

/// Whether a connection has taken the client's first SETTINGS, and goes on.
fn is_running(phase: Phase) -> bool
    ensures { result ≡ is_running phase }
{
    match phase {
        Phase::Running => true,
        Phase::Preface | Phase::Settings | Phase::Ended(_) => false,
    }
}

/// Whether the client has not acknowledged the server's SETTINGS (RFC 9113, 6.5.3).
pub fn is_unacknowledged(counts: &ConnectionState) -> bool
    ensures { result ≡ is_unacknowledged counts.now }
{
    is_running(counts.phase) && !counts.acked
}
