//! Which refusal an error of a PAC or of a frame is.

ghost use Rattle.std.specs.Prelude.{◌≡◌};
ghost use Rattle.krb_c_calls.specs.FrameStatuses.{frame_refusal, pac_refusal};

use crate::CallError;
use krb_messages::kpasswd::ReadFrameError;
use krb_pac::PacError;

/// Of a PAC.
pub(crate) fn pac_refusal(error: &PacError) -> CallError
    ensures { result ≡ pac_refusal error.now }
{
    match error {
        PacError::OutOfMemory => CallError::Memory,
        PacError::IoError(_) => CallError::Truncated,
        PacError::Version(_) => CallError::OtherVersion,
        PacError::InvalidVersion(_) => CallError::OtherVersion,
        PacError::PacBufferType(_) => CallError::PacType,
        PacError::InvalidRange => CallError::PacRange,
    }
}

/// Of a frame that changes a password.
pub(crate) fn frame_refusal(error: ReadFrameError) -> CallError
    ensures { result ≡ frame_refusal error }
{
    match error {
        ReadFrameError::OutOfMemory => CallError::Memory,
        ReadFrameError::Cut => CallError::Truncated,
        ReadFrameError::Version => CallError::OtherVersion,
        ReadFrameError::ApMessage(error) => CallError::from(error),
        ReadFrameError::KrbPriv(error) => CallError::from(error),
    }
}
