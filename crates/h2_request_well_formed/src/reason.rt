//! Why fields make no request or no trailers (RFC 9113, 8.1.1, 8.2, 8.3 and 8.5). The reasons and their numbers are in
//! `h2_spec`, specs/Requests/Request.antt and specs/Requests/Reasons.antt.

ghost use Rattle.std.specs.Prelude.{◌≡◌};
ghost use Rattle.h2_request_well_formed.specs.ReasonNumber.{reason_number};

use thiserror::Error;

/// A reason against fields, in the order of their numbers: of several that hold the least is answered.
#[derive(Clone, Copy, Debug)]
pub enum Reason {
    /// 1: a name is empty, has an octet 00-20, 41-5a or 7f-ff, or a colon that is not its first octet (RFC 9113,
    /// 8.2.1).
    BadName,
    /// 2: a value has an octet 00, 0a or 0d, or begins or ends with a space or a tab (RFC 9113, 8.2.1).
    BadValue,
    /// 3: a pseudo-field is after a regular field (RFC 9113, 8.3).
    LatePseudoField,
    /// 4: a pseudo-field is none of a request's; in trailers, there is one at all (RFC 9113, 8.1 and 8.3).
    UnknownPseudoField,
    /// 5: a pseudo-field occurs twice (RFC 9113, 8.3).
    DoublePseudoField,
    /// 6: a pseudo-field that has to be there is not, or one is there that may not be (RFC 9113, 8.3.1 and 8.5).
    LackingPseudoField,
    /// 7: a field is one of an HTTP/1.1 connection (RFC 9113, 8.2.2).
    ConnectionField,
    /// 8: a `te` field is not `trailers` (RFC 9113, 8.2.2).
    BadTe,
    /// 9: a `content-length` is not 1 to 18 digits, or two of them are different numbers (RFC 9113, 8.1.1).
    BadContentLength,
}

impl Reason {
    /// The number of the reason, 1 to 9.
    pub fn number(self) -> u8
        ensures { result ≡ reason_number self }
    {
        match self {
            Reason::BadName => 1,
            Reason::BadValue => 2,
            Reason::LatePseudoField => 3,
            Reason::UnknownPseudoField => 4,
            Reason::DoublePseudoField => 5,
            Reason::LackingPseudoField => 6,
            Reason::ConnectionField => 7,
            Reason::BadTe => 8,
            Reason::BadContentLength => 9,
        }
    }
}

/// The fields make no request, or no trailers, for this reason: the least that holds.
#[derive(Clone, Copy, Debug, Error)]
#[error("malformed fields: {0:?}")]
pub struct Malformed(pub Reason);
