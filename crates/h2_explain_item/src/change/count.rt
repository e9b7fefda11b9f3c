//! The numbers of a connection and of its streams that an item can change, by name. Definition: `specs/Counts.antt`,
//! the names are in docs/EXPLAIN.md.

ghost use Rattle.std.specs.Prelude.{◌≡◌, map, slice_get, Some};
ghost use Rattle.h2_spec.specs.Causes.Rules.{text_of};
ghost use Rattle.h2_explain_item.specs.Counts.{all_counts, count_name, may_be_absent};

use h2_spec::rules::text_at;

/// A number of a connection or of a stream that an item can change.
#[derive(Clone, Copy)]
pub enum Count {
    /// The octets that the client may still send (RFC 9113, 6.9).
    ReceiveWindow,
    /// The octets received that the server has not yet given back by WINDOW_UPDATE (RFC 9113, 6.9).
    UnreturnedOctets,
    /// The octets that the server may still send (RFC 9113, 6.9).
    SendWindow,
    /// The highest stream that a request opened (RFC 9113, 5.1.1).
    LastStream,
    /// The last stream of the client's latest GOAWAY, -1 before the first (RFC 9113, 6.8).
    GoawayLastStream,
    /// The error code of the client's latest GOAWAY, -1 before the first (RFC 9113, 6.8).
    GoawayCode,
    /// The client's SETTINGS_HEADER_TABLE_SIZE, in octets (RFC 9113, 6.5.2).
    ClientHeaderTableSize,
    /// The client's SETTINGS_ENABLE_PUSH, 0 or 1.
    ClientEnablePush,
    /// The client's SETTINGS_MAX_CONCURRENT_STREAMS, -1 where it gave none.
    ClientMaxConcurrentStreams,
    /// The client's SETTINGS_INITIAL_WINDOW_SIZE, in octets.
    ClientInitialWindowSize,
    /// The client's SETTINGS_MAX_FRAME_SIZE, in octets.
    ClientMaxFrameSize,
    /// The client's SETTINGS_MAX_HEADER_LIST_SIZE, in octets, -1 where it gave none.
    ClientMaxHeaderListSize,
    /// Whether the next answer has to begin with a table size update, 0 or 1 (RFC 7541, 4.2).
    SizeUpdatePending,
    /// The server's SETTINGS_HEADER_TABLE_SIZE that is in force, in octets (RFC 9113, 6.5.3).
    OwnHeaderTableSize,
    /// The server's SETTINGS_INITIAL_WINDOW_SIZE that is in force, in octets.
    OwnInitialWindowSize,
    /// The server's SETTINGS_MAX_FRAME_SIZE that is in force, in octets.
    OwnMaxFrameSize,
    /// The entries of the header table (RFC 7541, 2.3.2).
    TableEntries,
    /// The size of the header table, in octets (RFC 7541, 4.1).
    TableOctets,
    /// The maximum of the header table, in octets (RFC 7541, 4.2).
    TableMaximum,
    /// The octets of content that a request has so far (RFC 9113, 8.1).
    ContentReceived,
}

/// The name of each count, in their order.
static NAMES: [&str; 20] = [
    "receive window",
    "unreturned octets",
    "send window",
    "last stream",
    "last stream of client's GOAWAY",
    "code of client's GOAWAY",
    "client's HEADER_TABLE_SIZE",
    "client's ENABLE_PUSH",
    "client's MAX_CONCURRENT_STREAMS",
    "client's INITIAL_WINDOW_SIZE",
    "client's MAX_FRAME_SIZE",
    "client's MAX_HEADER_LIST_SIZE",
    "size update pending",
    "own HEADER_TABLE_SIZE in force",
    "own INITIAL_WINDOW_SIZE in force",
    "own MAX_FRAME_SIZE in force",
    "header table entries",
    "header table octets",
    "header table maximum",
    "content received",
];

/// The names as a slice; read here alone, so that no other proof goes through them.
fn names() -> &'static [&'static str]
    ensures { map text_of result.now ≡ map count_name all_counts }
{
    &NAMES
}

/// The place of a count in their order.
fn place_of(count: Count) -> usize
    ensures { slice_get all_counts result ≡ Some count }
{
    count as usize
}

impl Count {
    /// Whether the number may be absent: then -1 represents one that is.
    pub fn may_be_absent(self) -> bool
        ensures { result ≡ may_be_absent self }
    {
        match self {
            Count::GoawayLastStream
            | Count::GoawayCode
            | Count::ClientMaxConcurrentStreams
            | Count::ClientMaxHeaderListSize => true,
            _ => false,
        }
    }

    /// The name in the text and in JSON.
    pub fn name(self) -> &'static str
        ensures { result.now ≡ count_name self }
    {
        text_at(names(), place_of(self))
    }
}
