//! Laws of where a run stops and of how many items a move runs again, each on a function with an empty body: its
//! contract is the law.
//! Definitions: `specs/Stops.antt` and `specs/Debugging.antt`, and `stop` of h2_spec's `specs/Texts/Debug.antt`.

ghost use Rattle.std.specs.Prelude.{◌≡◌, ℕ, ◌-◌, ◌<◌, ◌≤◌, List, length};
ghost use Rattle.h2_spec.specs.Texts.Debug.{Break, stop};
ghost use Rattle.h2_spec.specs.Trace.{Event};
ghost use Rattle.h2_debug.specs.Debugging.{Debugging, reached_among, replay_count, replay_start};
ghost use Rattle.h2_debug.specs.Stops.{IsStop};

/// A run from a position before the end stops at the first later position that a breakpoint matches, or at the end:
/// there, and nowhere else.
pub fn runs_stop_at_the_first_match()
    ensures is { (breaks : List Break) (events : List Event) (p : ℕ) → p < length events → IsStop breaks events p (stop breaks events p) }
    ensures only { (breaks : List Break) (events : List Event) (p q : ℕ) → p < length events → IsStop breaks events p q → q ≡ stop breaks events p }
{}

/// How many items a move runs again: of the positions after its start, up to the one that it leads to, as many as had
/// been reached before; they are at most 63.
pub fn few_items_are_run_again()
    ensures is { (p : ℕ) (d : Debugging) → replay_count p d ≡ reached_among d.reached (replay_start p d) (p - replay_start p d) }
    ensures few { (p : ℕ) (d : Debugging) → replay_count p d ≤ 63 }
{}
