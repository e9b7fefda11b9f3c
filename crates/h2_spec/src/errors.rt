//! Error codes, and what the small types of this crate refuse (RFC 9113, 7). Definitions: `specs/Causes/Errors.antt`.

ghost use Rattle.std.specs.Prelude.{◌≡◌};
ghost use Rattle.h2_spec.specs.Causes.Errors.{code_number, fault_number};

use crate::causes::Cause;
use thiserror::Error;

/// The error codes that this server sends (RFC 9113, 7).
#[derive(Clone, Copy)]
pub enum ErrorCode {
    ProtocolError,
    FlowControlError,
    StreamClosed,
    FrameSizeError,
    RefusedStream,
    CompressionError,
    EnhanceYourCalm,
}

impl ErrorCode {
    /// The number that represents the code in RST_STREAM and GOAWAY.
    pub fn number(self) -> u32
        ensures { result ≡ code_number self }
    {
        match self {
            ErrorCode::ProtocolError => 1,
            ErrorCode::FlowControlError => 3,
            ErrorCode::StreamClosed => 5,
            ErrorCode::FrameSizeError => 6,
            ErrorCode::RefusedStream => 7,
            ErrorCode::CompressionError => 9,
            ErrorCode::EnhanceYourCalm => 11,
        }
    }
}

/// What windows and settings refuse.
#[derive(Clone, Copy, Debug, Error)]
pub enum FlowFault {
    /// A setting has a value that is not allowed; the cause of the connection error that follows (RFC 9113, 6.5.2).
    #[error("a setting has a value that is not allowed: error code {}", .0.code().number())]
    BadSetting(Cause),
    /// A window would pass 2147483647 (RFC 9113, 6.9.1).
    #[error("a flow-control window would pass its largest value")]
    Overflow,
    /// A window holds fewer octets than are taken (RFC 9113, 6.9.1).
    #[error("more octets than the flow-control window holds")]
    Exceeded,
}

impl FlowFault {
    /// The number of the fault, as the program prints it.
    pub fn number(self) -> u32
        ensures { result ≡ fault_number self }
    {
        match self {
            FlowFault::BadSetting(_) => 9,
            FlowFault::Overflow => 10,
            FlowFault::Exceeded => 11,
        }
    }
}
