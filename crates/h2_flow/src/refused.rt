//! For users of the library; the program does not call it: a rule returns the cause, whose code is sent. The error code
//! of a setting that is refused (RFC 9113, 6.5.2). Definitions: `specs/SettingCode.antt`.

ghost use Rattle.std.specs.Prelude.{◌≡◌};
ghost use Rattle.h2_flow.specs.SettingCode.{setting_code};

use h2_spec::errors::{ErrorCode, FlowFault};

/// The error code of the connection error that follows a setting with a value that is not allowed: FLOW_CONTROL_ERROR
/// for SETTINGS_INITIAL_WINDOW_SIZE, else PROTOCOL_ERROR (RFC 9113, 6.5.2). `None` for a fault of a window.
pub fn setting_code(fault: FlowFault) -> Option<ErrorCode>
    ensures { result ≡ setting_code fault }
{
    match fault {
        FlowFault::BadSetting(cause) => Some(cause.code()),
        FlowFault::Overflow | FlowFault::Exceeded => None,
    }
}
