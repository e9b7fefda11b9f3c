//! Laws of what a server may do where a rule applies: that this server keeps to it, and that the computation is what the
//! RFC says (RFC 9113, 5.4). Each law is the contract of a function with an empty body; definitions:
//! `h2_spec/specs/Causes/Conforming.antt`, `specs/Conformance.antt`.

ghost use Rattle.std.specs.Prelude.{◌≡◌, ℕ, true};
ghost use Rattle.h2_spec.specs.declared.accepted.Accepted.{Accepted};
ghost use Rattle.h2_spec.specs.declared.causes.Cause.{Cause};
ghost use Rattle.h2_spec.specs.declared.conforming.Conforming.{Conforming};
ghost use Rattle.h2_spec.specs.declared.conforming.Observed.TheVariants.{Accept, ConnectionError, Ignore, StreamError};
ghost use Rattle.h2_spec.specs.declared.conforming.Permission.TheVariants.{Allowed};
ghost use Rattle.h2_spec.specs.declared.ignored.Ignored.{Ignored};
ghost use Rattle.h2_spec.specs.declared.special_cases.SpecialCase.{SpecialCase};
ghost use Rattle.h2_spec.specs.Causes.AcceptedWords.{accepted_row};
ghost use Rattle.h2_spec.specs.Causes.CauseWords.{row_of};
ghost use Rattle.h2_spec.specs.Causes.Conforming.{allows};
ghost use Rattle.h2_spec.specs.Causes.IgnoredWords.{reason_row};
ghost use Rattle.h2_spec.specs.Causes.SpecialCases.{special_row};
ghost use Rattle.h2_spec_laws.specs.Conformance.{has_its_least, permission_of_case, permission_to_accept, seen_of, seen_of_case};

/// The error of this server is one that the RFC lets a server send for its cause (RFC 9113, 5.4).
pub fn each_error_conforms()
    ensures { (cause : Cause) → allows (row_of cause).conforming (seen_of cause) ≡ Allowed }
{}

/// What this server ignores, the RFC lets a server ignore.
pub fn what_is_ignored_conforms()
    ensures { (reason : Ignored) → allows (reason_row reason).conforming Ignore ≡ Allowed }
{}

/// What this server does in a special case conforms, but for the known deviation.
pub fn each_special_case_conforms()
    ensures { (case : SpecialCase) → allows (special_row case).conforming (seen_of_case case) ≡ permission_of_case case }
{}

/// What this server accepts, the RFC lets a server accept; where its sentences disagree, it is open.
pub fn what_is_accepted_conforms()
    ensures { (it : Accepted) → allows (accepted_row it).conforming Accept ≡ permission_to_accept it }
{}

/// Each row allows no less than the least that a server has to do.
pub fn each_row_has_its_least()
    ensures cause { (cause : Cause) → has_its_least (row_of cause).conforming ≡ true }
    ensures reason { (reason : Ignored) → has_its_least (reason_row reason).conforming ≡ true }
    ensures special { (case : SpecialCase) → has_its_least (special_row case).conforming ≡ true }
    ensures accepted { (it : Accepted) → has_its_least (accepted_row it).conforming ≡ true }
{}

/// A stream error that is allowed is allowed as a connection error (RFC 9113, 5.4.1).
pub fn a_stream_error_can_end_the_connection()
    ensures { (row : Conforming) (code : ℕ) → allows row (StreamError code) ≡ Allowed → allows row (ConnectionError code) ≡ Allowed }
{}

/// Where an error is allowed with some code, it is allowed with PROTOCOL_ERROR and INTERNAL_ERROR (RFC 9113, 5.4).
pub fn generic_codes_fit_each_error()
    ensures stream { (row : Conforming) (code : ℕ) → allows row (StreamError code) ≡ Allowed → (allows row (StreamError 1) ≡ Allowed) × (allows row (StreamError 2) ≡ Allowed) }
    ensures connection { (row : Conforming) (code : ℕ) → allows row (ConnectionError code) ≡ Allowed → (allows row (ConnectionError 1) ≡ Allowed) × (allows row (ConnectionError 2) ≡ Allowed) }
{}
