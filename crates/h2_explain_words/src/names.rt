//! Frame types, flags, settings, error codes and states of streams by name (RFC 9113, 5.1, 6 and 7). The names are
//! defined in specs/Names.antt.

ghost use Rattle.std.specs.Prelude.{◌≡◌, ℕ, List, map, option_map};
ghost use Rattle.std.specs.Borrow.{Bor};
ghost use Rattle.h2_explain_words.specs.Names as spec;

use h2_io::say::{HexOctet, Say, TextBuilder};
use h2_io::say_all;
use h2_spec::errors::ErrorCode;
use h2_spec::frames::{
    ACK, END_HEADERS, END_STREAM, FrameType, Head, PADDED, WITH_PRIORITY, type_name,
};
use h2_spec::streams::StreamState;
use std::alloc::Allocator;

/// The name of a type that other documents than RFC 9113 register with IANA, and that this server does not use.
pub fn registered_type(kind: u8) -> Option<&'static str> {
    match kind {
        0x0a => Some("ALTSVC"),
        0x0c => Some("ORIGIN"),
        0x10 => Some("PRIORITY_UPDATE"),
        _ => None,
    }
}

/// The name of a setting that other documents than RFC 9113 register with IANA, and that this server does not use.
pub fn registered_setting(id: u16) -> Option<&'static str> {
    match id {
        0x08 => Some("ENABLE_CONNECT_PROTOCOL"),
        0x09 => Some("NO_RFC7540_PRIORITIES"),
        0x10 => Some("TLS_RENEG_PERMITTED"),
        _ => None,
    }
}

/// Puts a name last that is registered and not used here, if there is one.
pub(crate) fn say_registered<A: Allocator>(name: Option<&'static str>, out: &mut TextBuilder<A>) {
    if let Some(name) = name {
        say_all!(out; " (", name, ", not used here)");
    }
}

/// A frame's type in words: its name, or its number where the RFC has no name for it.
#[derive(Clone, Copy)]
pub struct TypeWords(pub FrameType);

impl Say for TypeWords {
    fn say<A: Allocator>(self, out: &mut TextBuilder<A>) {
        let kind = self.0.number();
        match type_name(kind) {
            Some(name) => say_all!(out; name),
            None => {
                say_all!(out; "type ", HexOctet(kind));
                say_registered(registered_type(kind), out);
            }
        }
    }
}

/// A flag: the value of its bit, and its name with a blank before it.
type Flag = (u8, &'static str);

/// The flags of a frame's type, in the order in which they are written (RFC 9113, 6).
fn flags_of(kind: FrameType) -> &'static [Flag]
    ensures { map spec.flag_seen result.now ≡ spec.flags_of kind }
{
    match kind {
        FrameType::Data => &[(END_STREAM, " END_STREAM"), (PADDED, " PADDED")],
        FrameType::Headers => &[
            (END_STREAM, " END_STREAM"),
            (END_HEADERS, " END_HEADERS"),
            (PADDED, " PADDED"),
            (WITH_PRIORITY, " PRIORITY"),
        ],
        FrameType::Settings | FrameType::Ping => &[(ACK, " ACK")],
        FrameType::Continuation => &[(END_HEADERS, " END_HEADERS")],
        FrameType::PushPromise => &[(END_HEADERS, " END_HEADERS"), (PADDED, " PADDED")],
        FrameType::Priority
        | FrameType::RstStream
        | FrameType::Goaway
        | FrameType::WindowUpdate
        | FrameType::Unknown(_) => &[],
    }
}

/// Puts the flags of a frame last, each after a blank: those of its type by name, the others as a number.
pub fn say_flags<A: Allocator>(head: &Head, out: &mut TextBuilder<A>) {
    let mut rest = head.flags;
    for (bit, name) in flags_of(head.frame_type()) {
        if *bit > 0 && head.has(*bit) {
            say_all!(out; *name);
            rest = rest.saturating_sub(*bit);
        }
    }
    if rest > 0 {
        say_all!(out; " flags ", HexOctet(rest));
    }
}

/// An error code (RFC 9113, 7).
#[derive(Clone, Copy)]
pub struct Code(pub u32);

/// The name of an error code; none above 13 (RFC 9113, 7).
pub fn code_name(code: u32) -> Option<&'static str>
    ensures { option_map (λ (name : Bor (List ℕ)). name.now) result ≡ spec.code_name code }
{
    Some(match code {
        0 => "NO_ERROR",
        1 => "PROTOCOL_ERROR",
        2 => "INTERNAL_ERROR",
        3 => "FLOW_CONTROL_ERROR",
        4 => "SETTINGS_TIMEOUT",
        5 => "STREAM_CLOSED",
        6 => "FRAME_SIZE_ERROR",
        7 => "REFUSED_STREAM",
        8 => "CANCEL",
        9 => "COMPRESSION_ERROR",
        10 => "CONNECT_ERROR",
        11 => "ENHANCE_YOUR_CALM",
        12 => "INADEQUATE_SECURITY",
        13 => "HTTP_1_1_REQUIRED",
        _ => return None,
    })
}

impl Say for Code {
    fn say<A: Allocator>(self, out: &mut TextBuilder<A>) {
        match code_name(self.0) {
            Some(name) => say_all!(out; name),
            None => say_all!(out; "code ", self.0),
        }
    }
}

/// The name of an error code that the server sends (RFC 9113, 7).
pub fn error_name(code: ErrorCode) -> &'static str
    ensures { result.now ≡ spec.error_name code }
{
    match code_name(code.number()) {
        Some(name) => name,
        None => "",
    }
}

/// An error of the connection, which has ended, or of a stream, with a blank after it (RFC 9113, 5.4).
pub fn scope_word(has_ended: bool) -> &'static str
    ensures { result.now ≡ spec.scope_word has_ended }
{
    if has_ended {
        "connection error "
    } else {
        "stream error "
    }
}

/// The name of a setting without `SETTINGS_`; none but for 1 to 6 (RFC 9113, 6.5.2).
pub fn setting_name(id: u16) -> Option<&'static str>
    ensures { option_map (λ (name : Bor (List ℕ)). name.now) result ≡ spec.setting_name id }
{
    Some(match id {
        1 => "HEADER_TABLE_SIZE",
        2 => "ENABLE_PUSH",
        3 => "MAX_CONCURRENT_STREAMS",
        4 => "INITIAL_WINDOW_SIZE",
        5 => "MAX_FRAME_SIZE",
        6 => "MAX_HEADER_LIST_SIZE",
        _ => return None,
    })
}

/// The state of a stream in words (RFC 9113, 5.1).
pub fn kind_name(kind: StreamState) -> &'static str
    ensures { result.now ≡ spec.kind_name kind }
{
    match kind {
        StreamState::Idle => "idle",
        StreamState::Skipped => "closed, unused",
        StreamState::BothOpen => "open",
        StreamState::HalfRemote => "half-closed (remote)",
        StreamState::HalfLocal => "half-closed (local)",
        StreamState::Ended => "closed, ended",
        StreamState::PeerReset => "closed, reset by the client",
        StreamState::WeReset => "closed, reset by the server",
    }
}
