//! Why a message does not go through.

ghost use Rattle.std.specs.Prelude.{◌≡◌};
ghost use Rattle.krb_kdc_proxy.specs.Messages.{error_of};
ghost use Rattle.krb_kdc_proxy.specs.Refusals.{http_status};
ghost use Rattle.krb_kdc_proxy.specs.declared.error.ProxyError.TheVariants as errors;
ghost use Rattle.krb_der.specs.Whole.{NoDevice};

use crate::kind::MessageKind;
use krb_der::Asn1DerError;
use krb_messages::kpasswd::MessageError;
use std::alloc::{AllocError, AllocFailed};
use thiserror::Error;

/// Why a message does not go through: the first rule that it breaks, in the order of the variants; of a frame, those of its first message before those
/// of its second.
#[derive(Debug, Clone, Copy, PartialEq, Eq, Error)]
pub enum ProxyError {
    /// It has more octets than a proxy takes: a request more than 131072, a reply 2147483648 or more.
    #[error("the message is too large")]
    TooLarge,
    /// It is not the encoding of a KDC-PROXY-MESSAGE (MS-KKDCP, 2.2.2).
    #[error("the KDC-PROXY-MESSAGE: {0}")]
    ProxyMessage(MessageError),
    /// kerb-message, or what a KDC sent over a stream, has fewer than the four octets of its length (RFC 4120, 7.2.2).
    #[error("the message has no length in front of it")]
    NoLength,
    /// Its length is not the number of the octets behind it, or is 2147483648 or more.
    #[error("the length in front of the message is not that of the message")]
    OtherLength,
    /// There is no target-domain (MS-KKDCP, 3.2.5.1).
    #[error("target-domain is absent")]
    NoTargetDomain,
    /// It begins as no message that goes this way.
    #[error("the message is of no kind that goes this way")]
    OtherKind,
    /// It begins as a frame in which a password is changed (RFC 3244, 2), and its first message does not end within it.
    #[error("the frame is shorter than the message in it")]
    FrameLength,
    /// It is not the encoding of a message of this kind.
    #[error("the {0}: {1}")]
    Message(MessageKind, MessageError),
    /// pvno is not 5.
    #[error("the {0}: pvno is not 5")]
    Pvno(MessageKind),
    /// msg-type is not the number that the tag has.
    #[error("the {0}: msg-type is that of another message")]
    MsgType(MessageKind),
    /// An allocation failed.
    #[error("out of memory")]
    OutOfMemory,
}

impl ProxyError {
    /// The status of HTTP that a server answers for a request (RFC 9110, 15.5 and 15.6): 413 where it is too large, 503 where an allocation failed, and
    /// 400 else.
    pub fn status(&self) -> u16
        ensures { result ≡ http_status self.now }
    {
        match self {
            ProxyError::TooLarge => 413,
            ProxyError::OutOfMemory => 503,
            ProxyError::ProxyMessage(_)
            | ProxyError::NoLength
            | ProxyError::OtherLength
            | ProxyError::NoTargetDomain
            | ProxyError::OtherKind
            | ProxyError::FrameLength
            | ProxyError::Message(_, _)
            | ProxyError::Pvno(_)
            | ProxyError::MsgType(_) => 400,
        }
    }
}

impl From<AllocError> for ProxyError {
    ghost from_gives = { λ _ e. e ≡ errors.OutOfMemory };

    fn from(_error: AllocError) -> ProxyError {
        ProxyError::OutOfMemory
    }
}

impl<T: Drop> From<AllocFailed<T>> for ProxyError {
    ghost from_gives = { λ _ e. e ≡ errors.OutOfMemory };

    fn from(_error: AllocFailed<T>) -> ProxyError {
        ProxyError::OutOfMemory
    }
}

/// The error of a message, for an error of reading a slice.
pub(crate) fn message_error(kind: MessageKind, error: Asn1DerError) -> ProxyError
    requires { NoDevice error }
    ensures { result ≡ error_of (ProxyError.Message kind) error }
{
    match error {
        Asn1DerError::InvalidData => ProxyError::Message(kind, MessageError::InvalidData),
        Asn1DerError::TruncatedData => ProxyError::Message(kind, MessageError::TruncatedData),
        Asn1DerError::UnsupportedValue => ProxyError::Message(kind, MessageError::UnsupportedValue),
        Asn1DerError::OutOfMemory => ProxyError::OutOfMemory,
        Asn1DerError::Io(_) => unreachable!(),
    }
}

/// The error of a KDC-PROXY-MESSAGE, for an error of reading a slice.
pub(crate) fn proxy_message_error(error: Asn1DerError) -> ProxyError
    requires { NoDevice error }
    ensures { result ≡ error_of ProxyError.ProxyMessage error }
{
    match error {
        Asn1DerError::InvalidData => ProxyError::ProxyMessage(MessageError::InvalidData),
        Asn1DerError::TruncatedData => ProxyError::ProxyMessage(MessageError::TruncatedData),
        Asn1DerError::UnsupportedValue => ProxyError::ProxyMessage(MessageError::UnsupportedValue),
        Asn1DerError::OutOfMemory => ProxyError::OutOfMemory,
        Asn1DerError::Io(_) => unreachable!(),
    }
}
