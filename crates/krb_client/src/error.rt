//! Why an exchange has no ticket.

ghost use Rattle.std.specs.Prelude.{◌≡◌};
ghost use Rattle.krb_client.specs.declared.error.ClientError.TheVariants as errors;

use crate::keys::HintError;
use crate::replies::ReplyError;
use crate::requests::RequestError;
use thiserror::Error;

/// Why a step of an exchange ends with no ticket and no request. The exchange is then as it was. An
/// allocation failure is `OutOfMemory` of the part that met it.
#[derive(Debug, Drop, Error)]
pub enum ClientError {
    /// The octets are no reply to the request: by the first of them, which is the tag, neither the
    /// reply that is waited for nor a KRB-ERROR (RFC 4120, 5.10).
    #[error("the octets are neither the reply that is waited for nor a KRB-ERROR")]
    OtherMessage,
    /// The reply, or the KRB-ERROR, breaks a rule.
    #[error("the reply: {0}")]
    Reply(ReplyError),
    /// There is no key of the client's for what the KDC tells (RFC 4120, 5.2.7.5).
    #[error("the client's key: {0}")]
    Key(HintError),
    /// No request can be made.
    #[error("the request: {0}")]
    Request(RequestError),
    /// The KDC reports an error that calls for no other request, by its code (RFC 4120, 7.5.9): 6
    /// that the client is unknown, 24 that its key is not the KDC's, 37 that the clocks differ
    /// though the KDC's time was taken.
    #[error("error {0} of the KDC")]
    Kdc(u32),
}

impl From<ReplyError> for ClientError {
    ghost from_gives = { λ x e. e ≡ errors.Reply x };

    fn from(error: ReplyError) -> ClientError {
        ClientError::Reply(error)
    }
}

impl From<RequestError> for ClientError {
    ghost from_gives = { λ x e. e ≡ errors.Request x };

    fn from(error: RequestError) -> ClientError {
        ClientError::Request(error)
    }
}
