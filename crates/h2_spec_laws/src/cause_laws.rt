//! Laws of causes, and of what is ignored.
//! Each law is the contract of a function with an empty body; definitions: `h2_spec/specs/Causes/Cause.antt`,
//! `h2_spec/specs/Effect.antt`, `h2_spec/specs/Causes/Ignored.antt`, `specs/ErrorCodes.antt`, `specs/IgnoredList.antt`,
//! `specs/Ignoring.antt`.

ghost use Rattle.std.specs.Prelude.{◌≡◌, Some, None, [], true};
ghost use Rattle.h2_spec.specs.declared.ignored.Ignored.{Ignored};
ghost use Rattle.h2_spec.specs.declared.ignored.Ignored.TheVariants.{DataOnReset, TableOnlyBlock};
ghost use Rattle.h2_spec.specs.Frames.Frame.{Item};
ghost use Rattle.h2_spec.specs.State.{State};
ghost use Rattle.h2_spec.specs.Effect.{cause_of, effect};
ghost use Rattle.h2_spec.specs.Causes.Ignored.{ignored_of, changes_nothing};
ghost use Rattle.h2_spec.specs.Trace.{step};
ghost use Rattle.h2_spec_laws.specs.ErrorCodes.{error_codes_in, error_codes_of};
ghost use Rattle.h2_spec_laws.specs.IgnoredList.{ignored_as_listed};
ghost use Rattle.h2_spec_laws.specs.Ignoring.{OnlyReceiveWindowChanges, OnlyHeaderTableChanges};

/// The frames that are sent for an item have one error code where the item has a cause, which is the code of that
/// cause, and none where it has no cause (RFC 9113, 5.4).
pub fn each_error_has_its_cause()
    ensures { (s : State) (item : Item) → error_codes_in (step s item).sent ≡ error_codes_of (cause_of s item) }
{}

/// A frame that is ignored for a reason for which nothing changes leaves the connection as it is, and nothing is sent
/// for it (RFC 9113, 5.1 and 5.5).
pub fn what_is_ignored_changes_nothing()
    ensures { (s : State) (item : Item) (reason : Ignored) → ignored_of s item ≡ Some reason → changes_nothing reason ≡ true → effect s item ≡ record { state = s; sent = [] } }
{}

/// DATA that is ignored changes at most the connection's receive window, and a field block that is ignored at most the
/// open block and the header table: no stream, no send window and no setting changes (RFC 9113, 4.3 and 5.1).
pub fn what_is_ignored_changes_no_stream()
    ensures data { (s : State) (item : Item) → ignored_of s item ≡ Some DataOnReset → OnlyReceiveWindowChanges s (effect s item) }
    ensures block { (s : State) (item : Item) → ignored_of s item ≡ Some TableOnlyBlock → OnlyHeaderTableChanges s (effect s item) }
{}

/// What is ignored, and why, is what is listed by the type of a frame and the state of its stream, unless the frame
/// results in an error (RFC 9113, 4.1, 5.1 and 6).
pub fn what_is_ignored_is_listed()
    ensures { (s : State) (item : Item) → ignored_of s item ≡ ignored_as_listed s item }
{}

/// What is ignored is no error.
pub fn what_is_ignored_is_no_error()
    ensures { (s : State) (item : Item) (reason : Ignored) → ignored_of s item ≡ Some reason → cause_of s item ≡ None }
{}
