//! For users of the library; the program does not call it: readers of payloads answer a `Cause`, which says more. Why a
//! payload is refused, by what is wrong with it: its length, or its padding (RFC 9113, 4.2, 6.1 and 6.2). Definition:
//! `specs/PayloadFaults.antt`.

ghost use Rattle.std.specs.Prelude.{◌≡◌};
ghost use Rattle.h2_spec.specs.Causes.Cause.{code_of};
ghost use Rattle.h2_frame.specs.PayloadFaults.{fault_of_code};

use h2_spec::causes::Cause;
use h2_spec::errors::ErrorCode;
use thiserror::Error;

/// What is wrong with a payload.
#[derive(Clone, Copy, Debug, Error)]
pub enum PayloadFault {
    /// A length that the frame's type or its flags do not allow: FRAME_SIZE_ERROR (RFC 9113, 4.2).
    #[error("the frame has a length that its type or its flags do not allow")]
    SizeFault,
    /// Padding that is longer than what the Pad Length leaves: PROTOCOL_ERROR (RFC 9113, 6.1 and 6.2).
    #[error("the padding of the frame is longer than its payload")]
    PadFault,
}

/// The fault of a cause that a reader of payloads returns, so that `?` makes it. A cause with another origin is sorted
/// by its error code too, and means nothing here.
impl From<Cause> for PayloadFault {
    ghost from_gives = { λ cause fault. fault ≡ fault_of_code (code_of cause) };

    fn from(cause: Cause) -> PayloadFault {
        match cause.code() {
            ErrorCode::FrameSizeError => PayloadFault::SizeFault,
            ErrorCode::ProtocolError
            | ErrorCode::FlowControlError
            | ErrorCode::StreamClosed
            | ErrorCode::RefusedStream
            | ErrorCode::CompressionError
            | ErrorCode::EnhanceYourCalm => PayloadFault::PadFault,
        }
    }
}
