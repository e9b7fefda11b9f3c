//! What a connection counts and knows, besides its streams and its header table (RFC 9113, 3.4 and 5.4). Definitions:
//! `specs/State.antt`.

ghost use Rattle.std.specs.Prelude.{◌≡◌};
ghost use Rattle.h2_spec.specs.State.{configured, is_allowed, limits};

use crate::errors::ErrorCode;
use crate::flow::{Credit, LocalSettings, Settings, Window};

/// How far a connection has got (RFC 9113, 3.4 and 5.4.1).
#[derive(Clone, Copy)]
pub enum Phase {
    /// The client's preface is awaited.
    Preface,
    /// The first SETTINGS is awaited.
    Settings,
    Running,
    /// A connection error with this code ended it.
    Ended(ErrorCode),
}

/// The limits and the settings that the server was given.
#[derive(Clone, Copy)]
pub struct Config {
    /// The most live streams at a time, 1 to 1000.
    pub streams: u32,
    /// How many octets are owed before they are given back by WINDOW_UPDATE, 1 to 65535.
    pub credit: u32,
    /// SETTINGS_HEADER_TABLE_SIZE: the limit of the dynamic table in octets, 0 to 65536 (RFC 9113, 6.5.2).
    pub table: u32,
    /// SETTINGS_INITIAL_WINDOW_SIZE: the receive window of a new stream in octets, 0 to 2147483647 (6.9.2).
    pub window: u32,
    /// SETTINGS_MAX_FRAME_SIZE: the longest payload of a frame in octets, 16384 to 65536 (4.2).
    pub frame: u32,
}

impl Config {
    /// These limits of streams and of credit, with the settings that every connection begins with: a table of 4096
    /// octets, windows of 65535 and frames of 16384 (RFC 9113, 6.5.2).
    pub fn new(streams: u32, credit: u32) -> Self
        ensures { result ≡ limits streams credit }
    {
        let first = LocalSettings::initial();
        Config {
            streams,
            credit,
            table: first.table,
            window: first.window,
            frame: first.frame,
        }
    }

    /// Whether each limit and each setting is within its range.
    pub fn is_allowed(self) -> bool
        ensures { result ≡ is_allowed self }
    {
        let streams = 1 <= self.streams && self.streams <= 1000;
        let credit = 1 <= self.credit && self.credit <= 65535;
        let table = self.table <= 65536;
        let window = self.window <= 2147483647;
        let frame = 16384 <= self.frame && self.frame <= 65536;
        streams && credit && table && window && frame
    }

    /// The server's settings that come into force once the peer has acknowledged them (RFC 9113, 6.5.3).
    pub fn configured(self) -> LocalSettings
        ensures { result ≡ configured self }
    {
        LocalSettings {
            table: self.table,
            window: self.window,
            frame: self.frame,
        }
    }
}

/// What a connection counts and knows, besides its streams, table and open block.
#[derive(Clone, Copy)]
pub struct ConnectionState {
    /// How far the connection has got.
    pub phase: Phase,
    /// The highest client stream whose request block has ended, 0 at first.
    pub last: u32,
    /// The receive window of the connection (RFC 9113, 6.9).
    pub recv: Window,
    /// Octets received that the server has not yet given back by WINDOW_UPDATE.
    pub owed: Credit,
    /// The send window of the connection (RFC 9113, 6.9).
    pub send: Window,
    /// The peer's settings.
    pub peer: Settings,
    /// The server's settings that are in force.
    pub own: LocalSettings,
    /// Whether the peer has acknowledged the server's settings.
    pub acked: bool,
    /// The last stream and the code of the latest GOAWAY received.
    pub goaway: Option<(u32, u32)>,
}

/// What the fields of an open block are for.
#[derive(Clone, Copy)]
pub enum Purpose {
    /// They open a stream.
    Request,
    /// They end the peer's side of one.
    Trailers,
    /// The peer has ended the stream: a stream error at the block's end.
    Closed,
    /// The server has reset the stream: only the header table follows them.
    TableOnly,
}

/// A field block that is open, as it is shown (RFC 9113, 4.3).
#[derive(Clone, Copy)]
pub struct BlockView {
    /// The identifier of its stream.
    pub stream: u32,
    /// The octets of its fragments so far.
    pub octets: u32,
    /// The size of its list of fields so far (RFC 9113, 6.5.2); stays at 2^64 - 1 once there.
    pub list_size: u64,
    /// Whether its HEADERS had END_STREAM.
    pub ends: bool,
}
