//! Why octets begin with no frame, and why a frame is not written.

ghost use Rattle.std.specs.Prelude.{◌≡◌};
ghost use Rattle.std.specs.IoError.{error_kind};
ghost use Rattle.krb_messages.specs.Rejected.{frame_kind, reported_in, unwritten_kind};
ghost use Rattle.krb_messages.specs.declared.kpasswd.error.WriteFrameError.TheVariants as unwritten;
ghost use Rattle.krb_der.specs.Whole.{NoDevice};

use krb_der::Asn1DerError;
use std::alloc::{AllocError, AllocFailed};
use std::io;
use std::io::ErrorKind;
use thiserror::Error;

/// Why octets are no encoding of a message: the first error, from the left, as `Asn1DerError` reports it.
#[derive(Debug, Clone, Copy, PartialEq, Eq, Error)]
pub enum MessageError {
    /// A wrong tag, a needless length or integer octet, a malformed primitive type, or octets left over.
    #[error("the octets are no encoding of the message")]
    InvalidData,
    /// Tag, length or content octets are missing, or a mandatory field is.
    #[error("the octets end too early")]
    TruncatedData,
    /// An indefinite length, or one of more than eight octets.
    #[error("the encoding is of a form that is not supported")]
    UnsupportedValue,
}

/// Why octets begin with no frame (RFC 3244, 2): the first error, from the left, or an allocation failure. It is never an I/O error.
#[derive(Debug, Clone, Copy, PartialEq, Eq, Error)]
pub enum ReadFrameError {
    /// The octets end in the six before the messages, and hold no other version.
    #[error("the frame ends in front of its messages")]
    Cut,
    /// The version is another than 1.
    #[error("the version of the frame is another")]
    Version,
    /// What follows the six octets is no AP message.
    #[error("the AP message: {0}")]
    ApMessage(MessageError),
    /// What follows the AP message is no KRB-PRIV.
    #[error("the KRB-PRIV: {0}")]
    KrbPriv(MessageError),
    /// An allocation failed.
    #[error("out of memory")]
    OutOfMemory,
}

/// Why a frame was not written. It is never an I/O error.
#[derive(Debug, Clone, Copy, PartialEq, Eq, Error)]
pub enum WriteFrameError {
    /// The frame has more than 65535 octets.
    #[error("the frame is too long")]
    TooLong,
    /// An allocation failed.
    #[error("out of memory")]
    OutOfMemory,
}

impl From<AllocError> for WriteFrameError {
    ghost from_gives = { λ _ e. e ≡ unwritten.OutOfMemory };

    fn from(_error: AllocError) -> WriteFrameError {
        WriteFrameError::OutOfMemory
    }
}

impl<T: Drop> From<AllocFailed<T>> for WriteFrameError {
    ghost from_gives = { λ _ e. e ≡ unwritten.OutOfMemory };

    fn from(_error: AllocFailed<T>) -> WriteFrameError {
        WriteFrameError::OutOfMemory
    }
}

/// `UnexpectedEof` where the first six octets are cut short, `OutOfMemory` where an allocation failed, and else `InvalidData`.
impl From<ReadFrameError> for io::Error {
    ghost from_gives = { λ why e. error_kind e ≡ frame_kind why };

    fn from(why: ReadFrameError) -> io::Error {
        match why {
            ReadFrameError::Cut => io::Error::from(ErrorKind::UnexpectedEof),
            ReadFrameError::OutOfMemory => io::Error::from(ErrorKind::OutOfMemory),
            ReadFrameError::Version | ReadFrameError::ApMessage(_) | ReadFrameError::KrbPriv(_) =>
                io::Error::from(ErrorKind::InvalidData),
        }
    }
}

/// `InvalidInput` for a frame that is too long, and `OutOfMemory` where an allocation failed.
impl From<WriteFrameError> for io::Error {
    ghost from_gives = { λ why e. error_kind e ≡ unwritten_kind why };

    fn from(why: WriteFrameError) -> io::Error {
        match why {
            WriteFrameError::TooLong => io::Error::from(ErrorKind::InvalidInput),
            WriteFrameError::OutOfMemory => io::Error::from(ErrorKind::OutOfMemory),
        }
    }
}

/// The error of an AP message, for an error of reading a slice.
pub(crate) fn ap_message_error(error: Asn1DerError) -> ReadFrameError
    requires { NoDevice error }
    ensures { result ≡ reported_in ReadFrameError.ApMessage error }
{
    match error {
        Asn1DerError::InvalidData => ReadFrameError::ApMessage(MessageError::InvalidData),
        Asn1DerError::TruncatedData => ReadFrameError::ApMessage(MessageError::TruncatedData),
        Asn1DerError::UnsupportedValue => ReadFrameError::ApMessage(MessageError::UnsupportedValue),
        Asn1DerError::OutOfMemory => ReadFrameError::OutOfMemory,
        Asn1DerError::Io(_) => unreachable!(),
    }
}

/// The error of a KRB-PRIV, for an error of reading a slice.
pub(crate) fn krb_priv_error(error: Asn1DerError) -> ReadFrameError
    requires { NoDevice error }
    ensures { result ≡ reported_in ReadFrameError.KrbPriv error }
{
    match error {
        Asn1DerError::InvalidData => ReadFrameError::KrbPriv(MessageError::InvalidData),
        Asn1DerError::TruncatedData => ReadFrameError::KrbPriv(MessageError::TruncatedData),
        Asn1DerError::UnsupportedValue => ReadFrameError::KrbPriv(MessageError::UnsupportedValue),
        Asn1DerError::OutOfMemory => ReadFrameError::OutOfMemory,
        Asn1DerError::Io(_) => unreachable!(),
    }
}
