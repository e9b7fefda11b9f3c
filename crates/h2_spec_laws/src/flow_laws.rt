//! Laws of credit and of settings.
//! Each law is the contract of a function with an empty body; definitions: `h2_spec/specs/Window.antt`,
//! `h2_spec/specs/Settings.antt`.

ghost use Rattle.std.specs.Prelude.{◌≡◌, ◌+◌, ◌<◌, ℕ, unwrap_or, IfOk};
ghost use Rattle.h2_spec.specs.declared.flow.Settings.{Settings};
ghost use Rattle.h2_spec.specs.Settings.{IsAllowed, initial, with_setting};
ghost use Rattle.h2_spec.specs.Window.{given_back, still_owed};

/// What is given back and what is still owed are together all that was owed, and less than the threshold is still owed.
pub fn credit_is_not_lost()
    ensures sum { (threshold owed : ℕ) → unwrap_or (given_back threshold owed) 0 + still_owed threshold owed ≡ owed }
    ensures below { (threshold owed : ℕ) → 0 < threshold → still_owed threshold owed < threshold }
{}

/// Settings begin with values that are allowed, and no setting that is applied takes them out of their range
/// (RFC 9113, 6.5.2).
pub fn settings_stay_allowed()
    ensures first { IsAllowed initial }
    ensures then { (s : Settings) (id value : ℕ) → IsAllowed s → IfOk (with_setting s id value) IsAllowed }
{}
