//! Flow control as the peer sees it, over whole runs: what is sent keeps to what was granted, and is held back no
//! further (RFC 9113, 5.2, 6.9 and 8.1). Each function's contract is a law of them, and its body is empty. Definitions:
//! `specs/Grants.antt`, `specs/Order.antt`, `specs/Allowances.antt`, `specs/Cutting.antt`.

ghost use Rattle.std.specs.Prelude.{◌≡◌, ◌≤◌, ℕ, List, [], length};
ghost use Rattle.h2_spec.specs.declared.connection.Config.{Config};
ghost use Rattle.h2_spec.specs.declared.streams.Stream.{Stream};
ghost use Rattle.h2_spec.specs.Requests.Answer.{Entry, picked};
ghost use Rattle.h2_spec.specs.SendPending.{allowance_frames};
ghost use Rattle.h2_spec.specs.Stream.{octets_waiting};
ghost use Rattle.h2_spec_laws.specs.Cutting.{CutsAllowance};
ghost use Rattle.h2_spec_laws.specs.Grants.{KeepsGrants};
ghost use Rattle.h2_spec_laws.specs.Order.{KeepsOrder};
ghost use Rattle.h2_spec_laws.specs.Allowances.{AllowanceIsLeast, SendsAllowances};

/// Whatever octets a peer sends, after each of their items, on each stream: DATA is within what the peer has granted on
/// the connection and on the stream, and within its frame size; at most one response is sent, with a prefix of its
/// body, and the whole where END_STREAM is sent; nothing follows the end; and nothing that may be sent is held back.
pub fn grants_are_kept()
    ensures { (book : List Entry) (config : Config) (octets : List ℕ) → KeepsGrants book config octets }
{}

/// After each item the records of the streams are in the order of rising identifiers, up to the last stream that was
/// opened; so pending output is sent in that order.
pub fn records_are_in_order()
    ensures { (book : List Entry) (config : Config) (octets : List ℕ) → KeepsOrder book config octets }
{}

/// Each stream sends the least of three: its pending output, its own window, and the connection's window less what the
/// streams before it send.
pub fn allowances_are_least()
    ensures { (window : ℕ) (before : List Stream) (stream : Stream) (behind : List Stream) → AllowanceIsLeast window before stream behind }
{}

/// What is sent are those shares, in the order of the streams, and the connection's window falls by their sum.
pub fn allowances_are_sent()
    ensures { (book : List Entry) (size window : ℕ) (streams : List Stream) → SendsAllowances book size window streams }
{}

/// A stream's share is the next octets of its answer's body. It is cut into DATA of the peer's frame size and a last
/// one, which has an octet or more and at most that size, and END_STREAM exactly where nothing of the body waits after
/// it; there is one way to do so. A share of 0 is no frame (RFC 9113, 4.2, 6.1 and 6.9).
pub fn allowances_are_cut_into_data()
    ensures cut { (book : List Entry) (size n : ℕ) (stream : Stream) → 1 ≤ size → n ≤ octets_waiting stream → octets_waiting stream ≤ length (picked book stream.pick).body → CutsAllowance book size n stream }
    ensures none { (book : List Entry) (size : ℕ) (stream : Stream) → allowance_frames book size 0 stream ≡ [] }
{}
