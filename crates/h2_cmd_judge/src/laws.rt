//! Laws of the verdict: nothing that a rule allows is called broken, nothing that it does not allow passes, and this server is
//! the same as itself. Each is the contract of a function with an empty body; definitions: `specs/Judges.antt`.

ghost use Rattle.std.specs.Prelude.{◌≡◌, ℕ, Some, false, true};
ghost use Rattle.h2_spec.specs.declared.conforming.Conforming.{Conforming};
ghost use Rattle.h2_spec.specs.declared.conforming.Observed.{Observed};
ghost use Rattle.h2_spec.specs.declared.conforming.Observed.TheVariants.{ConnectionError, StreamError};
ghost use Rattle.h2_spec.specs.declared.conforming.Permission.TheVariants as permitted;
ghost use Rattle.h2_spec.specs.Causes.Conforming.{allows};
ghost use Rattle.h2_cmd_judge.specs.Judges.{error_verdict, is_allowed_or_same, is_same_error, lawful_verdict, permission};
ghost use Rattle.h2_cmd_judge.specs.declared.judge.Reaction.{Reaction};
ghost use Rattle.h2_cmd_judge.specs.declared.judge.Reaction.TheVariants.{One};
ghost use Rattle.h2_cmd_judge.specs.declared.judge.Verdict.TheVariants.{Allowed, Broken, Same};

/// What the rule of an item allows passes, where an error is due and where none is.
pub fn what_is_allowed_passes()
    ensures error { (rule : Conforming) (own : Observed) (seen : Reaction) → permission rule seen ≡ permitted.Allowed → is_allowed_or_same (error_verdict rule own seen) ≡ true }
    ensures lawful { (rule : Conforming) (seen : Reaction) → permission rule seen ≡ permitted.Allowed → lawful_verdict rule (Some seen) ≡ Allowed }
{}

/// What it does not allow is broken, unless it is this server's own error.
pub fn what_is_not_allowed_is_broken()
    ensures error { (rule : Conforming) (own seen : Observed) → allows rule seen ≡ permitted.NotAllowed → is_same_error own seen ≡ false → error_verdict rule own (One seen) ≡ Broken }
    ensures lawful { (rule : Conforming) (seen : Observed) → allows rule seen ≡ permitted.NotAllowed → lawful_verdict rule (Some (One seen)) ≡ Broken }
{}

/// This server's own error is the same, with its code and its scope.
pub fn the_own_error_is_the_same()
    ensures connection { (rule : Conforming) (code : ℕ) → error_verdict rule (ConnectionError code) (One (ConnectionError code)) ≡ Same }
    ensures stream { (rule : Conforming) (code : ℕ) → error_verdict rule (StreamError code) (One (StreamError code)) ≡ Same }
{}
