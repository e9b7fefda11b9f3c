//! Laws of items and of whole runs: octets may come in any pieces.
//! Each law is the contract of a function with an empty body; definitions: `h2_spec/specs/Frames/Frame.antt`,
//! `h2_spec/specs/Trace.antt`, `specs/LocalSettings.antt`.

ghost use Rattle.std.specs.Prelude.{◌≡◌, ℕ, Bool, List, ◌++◌};
ghost use Rattle.h2_spec.specs.declared.connection.Config.{Config};
ghost use Rattle.h2_spec.specs.Requests.Answer.{Entry};
ghost use Rattle.h2_spec.specs.Frames.Frame.{next};
ghost use Rattle.h2_spec.specs.State.{State};
ghost use Rattle.h2_spec.specs.Trace.{trace, carried_on, IsKept, IsWithin};
ghost use Rattle.h2_spec_laws.specs.LocalSettings.{KeepsLocalSettings};

/// An item takes at least one octet and no more than there are, and more octets after it leave it as it is (RFC 9113,
/// 3.4 and 4.1).
pub fn items_are_cut_anywhere()
    ensures within { (preface : Bool) (limit : ℕ) (b : List ℕ) → IsWithin b (next preface limit b) }
    ensures kept { (preface : Bool) (limit : ℕ) (b c : List ℕ) → IsKept (next preface limit b) (next preface limit (b ++ c)) }
{}

/// The run of a connection over octets in two pieces is the run over their sum.
pub fn runs_are_cut_anywhere()
    ensures { (s : State) (b c : List ℕ) → trace s (b ++ c) ≡ carried_on (trace s b) c }
{}

/// Whatever octets a peer sends, after each of their items the server's own settings are the initial ones where the
/// peer has not acknowledged the server's SETTINGS, and the configured ones where it has; the header table is no larger
/// than one of their limits; and before the acknowledgement no block has to begin with a size update (RFC 9113, 6.5.3;
/// RFC 7541, 4.2).
pub fn own_settings_wait_for_their_acknowledgement()
    ensures { (book : List Entry) (config : Config) (octets : List ℕ) → KeepsLocalSettings book config octets }
{}
