//! What other servers may do where this one did something, as far as a reader does not know it from that. Definitions:
//! `specs/Others.antt`.

ghost use Rattle.std.specs.Prelude.{◌≡◌};
ghost use Rattle.h2_explain_item.specs.Others.{error_of, is_error_beside, is_generic, is_implied, is_known, is_listed};

use h2_spec::conforming::{Observed, Reactions};

/// Whether a code can be used for each error (RFC 9113, 5.4).
fn is_generic(code: u32) -> bool
    ensures { result ≡ is_generic code }
{
    code == 1 || code == 2
}

/// Whether an error with another code is known from an error with this one.
fn is_error_beside(code: u32, other: u32) -> bool
    ensures { result ≡ is_error_beside code other }
{
    other == code || is_generic(other)
}

/// Whether another reaction is known from this server's own: it is the same, a generic code in the place of another (RFC
/// 9113, 5.4), or a connection error in the place of a stream error (5.4.1).
fn is_known(ours: Observed, other: Observed) -> bool
    ensures { result ≡ is_known ours other }
{
    match (ours, other) {
        (Observed::ConnectionError(code), Observed::ConnectionError(other)) => {
            is_error_beside(code, other)
        }
        (Observed::StreamError(code), Observed::ConnectionError(other)) => {
            is_error_beside(code, other)
        }
        (Observed::StreamError(code), Observed::StreamError(other)) => is_error_beside(code, other),
        (Observed::Ignore, Observed::Ignore) => true,
        (Observed::Accept, Observed::Accept) => true,
        _ => false,
    }
}

/// Whether a reaction is a connection error with a code that a stream error may have (RFC 9113, 5.4.1).
fn is_implied(these: Reactions, other: Observed) -> bool
    ensures { result ≡ is_implied these other }
{
    match other {
        Observed::ConnectionError(code) => these.stream.has(code),
        _ => false,
    }
}

/// Whether a reaction is named among these, and is known neither from the others nor from this server's own.
pub fn is_listed(ours: Observed, these: Reactions, other: Observed) -> bool
    ensures { result ≡ is_listed ours these other }
{
    these.is_named(other) && !is_implied(these, other) && !is_known(ours, other)
}

/// The error of an item: of the connection, which has ended, or of a stream.
pub fn error_of(has_ended: bool, code: u32) -> Observed
    ensures { result ≡ error_of has_ended code }
{
    if has_ended {
        Observed::ConnectionError(code)
    } else {
        Observed::StreamError(code)
    }
}
