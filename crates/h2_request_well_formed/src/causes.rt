//! The causes of malformed requests and trailers, by what their fields were refused for (RFC 9113, 8.1.1). Definition:
//! h2_spec's `specs/Requests/Request.antt`.

ghost use Rattle.std.specs.Prelude.{◌≡◌};
ghost use Rattle.h2_spec.specs.Requests.Request.{request_cause, trailers_cause};
ghost use Rattle.h2_request_well_formed.specs.ReasonNumber.{reason_number};

use crate::reason::Reason;
use h2_spec::causes::Cause;

/// The cause by a reason against a request.
pub fn request_cause(reason: Reason) -> Cause
    ensures { result ≡ request_cause (reason_number reason) }
{
    match reason {
        Reason::BadName => Cause::BadName,
        Reason::BadValue => Cause::BadValue,
        Reason::LatePseudoField => Cause::LatePseudoField,
        Reason::UnknownPseudoField => Cause::UnknownPseudoField,
        Reason::DoublePseudoField => Cause::DoublePseudoField,
        Reason::LackingPseudoField => Cause::LackingPseudoField,
        Reason::ConnectionField => Cause::ConnectionField,
        Reason::BadTe => Cause::BadTe,
        Reason::BadContentLength => Cause::BadContentLength,
    }
}

/// The cause by a reason against trailers.
pub fn trailers_cause(reason: Reason) -> Cause
    ensures { result ≡ trailers_cause (reason_number reason) }
{
    match reason {
        Reason::BadName => Cause::TrailersBadName,
        Reason::BadValue => Cause::TrailersBadValue,
        Reason::UnknownPseudoField => Cause::TrailersPseudoField,
        Reason::ConnectionField => Cause::TrailersConnectionField,
        Reason::LatePseudoField
        | Reason::DoublePseudoField
        | Reason::LackingPseudoField
        | Reason::BadTe
        | Reason::BadContentLength => Cause::TrailersBadTe,
    }
}
