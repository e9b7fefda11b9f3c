//! What a server may do where a rule applies, and whether what a peer sees it do is allowed (RFC 9113, 5.4 and 8.1.1).
//! Definitions: `specs/Causes/Conforming.antt`.

ghost use Rattle.std.specs.Prelude.{◌≡◌};
ghost use Rattle.h2_spec.specs.Causes.Conforming.{allows, conforms, has_code, is_named, is_open, is_other_code, least_words, names_code, takes_code};

/// The least that a server has to do.
#[derive(Clone, Copy)]
pub enum Least {
    /// A connection error.
    Connection,
    /// A stream error; a connection error is a choice (RFC 9113, 5.4.1).
    Stream,
    /// The request is malformed: a stream error, or an answer that says so (RFC 9113, 8.1.1).
    Malformed,
    /// Nothing: an error is a choice.
    None,
    /// The item is ignored: it has to be no error.
    Ignore,
    /// The item takes effect: it has to be no error.
    Accept,
}

impl Least {
    /// The word for it.
    pub fn words(self) -> &'static str
        ensures { result.now ≡ least_words self }
    {
        match self {
            Least::Connection => "connection error",
            Least::Stream => "stream error",
            Least::Malformed => "malformed",
            Least::None => "none",
            Least::Ignore => "ignored",
            Least::Accept => "accepted",
        }
    }
}

/// The codes that an error may have by name (RFC 9113, 7), the one that the RFC names first.
#[derive(Clone, Copy)]
pub enum Codes {
    /// There is no error.
    None,
    One(u32),
    Two(u32, u32),
    /// The RFC names no code: any code.
    Any,
}

impl Codes {
    /// Whether there may be an error.
    pub fn is_some(self) -> bool
        ensures { result ≡ names_code self }
    {
        match self {
            Codes::None => false,
            Codes::One(_) | Codes::Two(_, _) | Codes::Any => true,
        }
    }

    /// Whether a code is one of these.
    pub fn has(self, code: u32) -> bool
        ensures { result ≡ has_code self code }
    {
        match self {
            Codes::None => false,
            Codes::One(only) => code == only,
            Codes::Two(first, second) => code == first || code == second,
            Codes::Any => true,
        }
    }

    /// Whether an error may have a code: one of these, or a generic one, which can be used for each error (RFC 9113, 5.4).
    pub fn takes(self, code: u32) -> bool
        ensures { result ≡ takes_code self code }
    {
        self.has(code) || self.is_some() && (code == 1 || code == 2)
    }
}

/// What a peer sees a server do for an item.
#[derive(Clone, Copy)]
pub enum Observed {
    /// GOAWAY with this code.
    ConnectionError(u32),
    /// RST_STREAM with this code, on the item's stream.
    StreamError(u32),
    /// The connection ends without GOAWAY, or with NO_ERROR.
    Close,
    /// The request is answered with a status of 400 or more.
    Answer,
    /// Nothing, and the item has no effect.
    Ignore,
    /// The item takes effect.
    Accept,
    /// Nothing, until more octets come.
    Wait,
    /// An answer in HTTP/1.1.
    Http1,
}

/// Reactions to an item.
#[derive(Clone, Copy)]
pub struct Reactions {
    /// A connection error with one of these codes.
    pub connection: Codes,
    /// A stream error with one of these codes. It can be a connection error too (RFC 9113, 5.4.1).
    pub stream: Codes,
    /// The connection ends without an error.
    pub close: bool,
    /// An answer with a status of 400 or more.
    pub answer: bool,
    /// The item is ignored.
    pub ignore: bool,
    /// The item takes effect.
    pub accept: bool,
    /// The server waits for more octets.
    pub wait: bool,
    /// The server speaks HTTP/1.1 too, and answers in it.
    pub http1: bool,
}

impl Reactions {
    /// Whether a reaction conforms where these do: with the generic codes beside any other (RFC 9113, 5.4), the end of
    /// the connection without GOAWAY where there may be an error, and a connection error for each stream error (5.4.1).
    pub fn conforms(self, seen: Observed) -> bool
        ensures { result ≡ conforms self seen }
    {
        match seen {
            Observed::ConnectionError(code) => self.connection.takes(code)
                || self.stream.takes(code),
            Observed::StreamError(code) => self.stream.takes(code),
            Observed::Close => self.close || self.connection.is_some() || self.stream.is_some(),
            Observed::Answer => self.answer,
            Observed::Ignore => self.ignore,
            Observed::Accept => self.accept,
            Observed::Wait => self.wait,
            Observed::Http1 => self.http1,
        }
    }

    /// Whether a reaction is one of these, by its name.
    pub fn is_named(self, seen: Observed) -> bool
        ensures { result ≡ is_named self seen }
    {
        match seen {
            Observed::ConnectionError(code) => self.connection.has(code),
            Observed::StreamError(code) => self.stream.has(code),
            Observed::Close => self.close,
            Observed::Answer => self.answer,
            Observed::Ignore => self.ignore,
            Observed::Accept => self.accept,
            Observed::Wait => self.wait,
            Observed::Http1 => self.http1,
        }
    }

    /// Whether a reaction is an error of the connection or of the stream where there may be one.
    fn is_other_code(self, seen: Observed) -> bool
        ensures { result ≡ is_other_code self seen }
    {
        match seen {
            Observed::ConnectionError(_) => self.connection.is_some() || self.stream.is_some(),
            Observed::StreamError(_) => self.stream.is_some(),
            Observed::Close
            | Observed::Answer
            | Observed::Ignore
            | Observed::Accept
            | Observed::Wait
            | Observed::Http1 => { false }
        }
    }
}

/// Whether a reaction is allowed.
#[derive(Clone, Copy)]
pub enum Permission {
    Allowed,
    /// One sentence of the RFC speaks for it, another against it.
    Open,
    NotAllowed,
}

/// What a server may do where a rule applies.
#[derive(Clone, Copy)]
pub struct Conforming {
    /// The least that it has to do.
    pub least: Least,
    /// What it may do.
    pub allowed: Reactions,
    /// What one sentence of the RFC allows and another does not.
    pub open: Reactions,
}

impl Conforming {
    /// Whether a reaction is allowed.
    pub fn allows(self, seen: Observed) -> Permission
        ensures { result ≡ allows self seen }
    {
        if self.allowed.conforms(seen) {
            Permission::Allowed
        } else if self.is_open(seen) {
            Permission::Open
        } else {
            Permission::NotAllowed
        }
    }

    /// Whether a reaction is open: by its name; ENHANCE_YOUR_CALM, for what looks suspicious (RFC 9113, 10.5); or with
    /// another code than those that are named, where there may be an error (5.4).
    fn is_open(self, seen: Observed) -> bool
        ensures { result ≡ is_open self seen }
    {
        if self.open.is_named(seen) || matches!(seen, Observed::ConnectionError(11)) {
            return true;
        }
        match self.least {
            Least::Ignore | Least::Accept => false,
            Least::Connection | Least::Stream | Least::Malformed | Least::None => {
                self.allowed.is_other_code(seen)
            }
        }
    }
}

/// No reaction.
pub(crate) const NO_REACTION: Reactions = Reactions {
    connection: Codes::None,
    stream: Codes::None,
    close: false,
    answer: false,
    ignore: false,
    accept: false,
    wait: false,
    http1: false,
};
