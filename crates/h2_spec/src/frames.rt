//! Heads of frames, frame types and flags (RFC 9113, 4.1 and 6). Definitions: `specs/Frames/FrameType.antt`,
//! `specs/Frames/Frame.antt`.

ghost use Rattle.std.specs.Prelude.{◌≡◌, ◌<◌, option_map, slice_get};
ghost use Rattle.h2_spec.specs.Frames.FrameType.{frame_type, type_names, type_number, has};
ghost use Rattle.h2_spec.specs.Frames.FrameType as spec;
ghost use Rattle.std.specs.Str.{bytes_eq};

/// What a client sends first (RFC 9113, 3.4).
pub static PREFACE: [u8; 24] = *b"PRI * HTTP/2.0\r\n\r\nSM\r\n\r\n";

/// The number of the type DATA (RFC 9113, 6.1).
pub const DATA: u8 = 0x0;
/// The number of the type HEADERS (RFC 9113, 6.2).
pub const HEADERS: u8 = 0x1;
/// The number of the type PRIORITY (RFC 9113, 6.3).
pub const PRIORITY: u8 = 0x2;
/// The number of the type RST_STREAM (RFC 9113, 6.4).
pub const RST_STREAM: u8 = 0x3;
/// The number of the type SETTINGS (RFC 9113, 6.5).
pub const SETTINGS: u8 = 0x4;
/// The number of the type PUSH_PROMISE (RFC 9113, 6.6).
pub const PUSH_PROMISE: u8 = 0x5;
/// The number of the type PING (RFC 9113, 6.7).
pub const PING: u8 = 0x6;
/// The number of the type GOAWAY (RFC 9113, 6.8).
pub const GOAWAY: u8 = 0x7;
/// The number of the type WINDOW_UPDATE (RFC 9113, 6.9).
pub const WINDOW_UPDATE: u8 = 0x8;
/// The number of the type CONTINUATION (RFC 9113, 6.10).
pub const CONTINUATION: u8 = 0x9;

/// The stream has ended on the sender's side: DATA, HEADERS (RFC 9113, 6.1 and 6.2).
pub const END_STREAM: u8 = 0x1;
/// An acknowledgement: SETTINGS, PING (RFC 9113, 6.5 and 6.7).
pub const ACK: u8 = 0x1;
/// The field block ends here: HEADERS, CONTINUATION (RFC 9113, 6.2 and 6.10).
pub const END_HEADERS: u8 = 0x4;
/// The payload begins with the length of its padding: DATA, HEADERS (RFC 9113, 6.1 and 6.2).
pub const PADDED: u8 = 0x8;
/// The payload has a dependency and a weight: HEADERS (RFC 9113, 6.2).
pub const WITH_PRIORITY: u8 = 0x20;

/// The types of frames (RFC 9113, 6).
#[derive(Clone, Copy)]
pub enum FrameType {
    Data,
    Headers,
    Priority,
    RstStream,
    Settings,
    PushPromise,
    Ping,
    Goaway,
    WindowUpdate,
    Continuation,
    /// Any other, which is ignored (RFC 9113, 4.1).
    Unknown(u8),
}

impl FrameType {
    /// The type of a frame whose head has this number, 0 to 255.
    pub fn of(kind: u8) -> FrameType
        ensures { result ≡ frame_type kind }
    {
        match kind {
            DATA => FrameType::Data,
            HEADERS => FrameType::Headers,
            PRIORITY => FrameType::Priority,
            RST_STREAM => FrameType::RstStream,
            SETTINGS => FrameType::Settings,
            PUSH_PROMISE => FrameType::PushPromise,
            PING => FrameType::Ping,
            GOAWAY => FrameType::Goaway,
            WINDOW_UPDATE => FrameType::WindowUpdate,
            CONTINUATION => FrameType::Continuation,
            _ => FrameType::Unknown(kind),
        }
    }

    /// The number of the type in a frame's head.
    pub fn number(self) -> u8
        ensures { result ≡ type_number self }
    {
        match self {
            FrameType::Data => DATA,
            FrameType::Headers => HEADERS,
            FrameType::Priority => PRIORITY,
            FrameType::RstStream => RST_STREAM,
            FrameType::Settings => SETTINGS,
            FrameType::PushPromise => PUSH_PROMISE,
            FrameType::Ping => PING,
            FrameType::Goaway => GOAWAY,
            FrameType::WindowUpdate => WINDOW_UPDATE,
            FrameType::Continuation => CONTINUATION,
            FrameType::Unknown(kind) => kind,
        }
    }
}

/// The name of the frame type with this number, as a script writes it: none above 9 (RFC 9113, 6).
pub fn type_name(kind: u8) -> Option<&'static str>
    ensures { option_map (λ t. t.now) result ≡ slice_get type_names kind }
{
    match kind {
        DATA => Some("DATA"),
        HEADERS => Some("HEADERS"),
        PRIORITY => Some("PRIORITY"),
        RST_STREAM => Some("RST_STREAM"),
        SETTINGS => Some("SETTINGS"),
        PUSH_PROMISE => Some("PUSH_PROMISE"),
        PING => Some("PING"),
        GOAWAY => Some("GOAWAY"),
        WINDOW_UPDATE => Some("WINDOW_UPDATE"),
        CONTINUATION => Some("CONTINUATION"),
        _ => None,
    }
}

/// Whether a text is this word.
fn is_word(text: &[u8], word: &[u8]) -> bool
    ensures { result ≡ bytes_eq text.now word.now }
{
    text == word
}

/// The number of the frame type that a text names, 0 to 9, and `other` where it names none (RFC 9113, 6).
pub fn type_named(text: &[u8], other: Option<u8>) -> Option<u8>
    ensures { result ≡ spec.type_named text.now other }
{
    if is_word(text, b"DATA") {
        Some(DATA)
    } else if is_word(text, b"HEADERS") {
        Some(HEADERS)
    } else if is_word(text, b"PRIORITY") {
        Some(PRIORITY)
    } else if is_word(text, b"RST_STREAM") {
        Some(RST_STREAM)
    } else if is_word(text, b"SETTINGS") {
        Some(SETTINGS)
    } else if is_word(text, b"PUSH_PROMISE") {
        Some(PUSH_PROMISE)
    } else if is_word(text, b"PING") {
        Some(PING)
    } else if is_word(text, b"GOAWAY") {
        Some(GOAWAY)
    } else if is_word(text, b"WINDOW_UPDATE") {
        Some(WINDOW_UPDATE)
    } else if is_word(text, b"CONTINUATION") {
        Some(CONTINUATION)
    } else {
        other
    }
}

/// The head of a frame (RFC 9113, 4.1).
#[derive(Clone, Copy)]
pub struct Head {
    /// The octets of the payload, below 2^24.
    pub length: u32,
    /// The number of the frame's type.
    pub kind: u8,
    /// The flags, one a bit; those that are undefined for the type are ignored (RFC 9113, 4.1).
    pub flags: u8,
    /// The reserved bit, which is ignored on receipt.
    pub reserved: bool,
    /// The stream's identifier, below 2^31; 0 is the connection.
    pub stream: u32,
}

impl Head {
    /// The type of the frame.
    pub fn frame_type(self) -> FrameType
        ensures { result ≡ frame_type self.kind }
    {
        FrameType::of(self.kind)
    }

    /// Whether a flag is set, given as the value of its bit.
    pub fn has(self, flag: u8) -> bool
        requires { 0 < flag }
        ensures { result ≡ has self.flags flag }
    {
        self.flags / flag % 2 == 1
    }
}

/// What an item of a connection is, without its payload (RFC 9113, 3.4 and 4.1).
#[derive(Clone, Copy)]
pub enum ItemHead {
    /// The client's connection preface.
    Preface,
    /// Octets that are not the connection preface.
    BadPreface,
    /// A frame that is longer than frames may be; only its head has arrived.
    Oversize(Head),
    /// A whole frame.
    Frame(Head),
}
