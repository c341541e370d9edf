//! Why no frame was read from a reader.

ghost use Rattle.std.specs.Prelude.{◌≡◌};
ghost use Rattle.krb_messages.specs.Rejected.{IsAnswered, reader_reported_in};

use crate::kpasswd::error::{ReadFrameError, ap_message_error, krb_priv_error};
use krb_der::Asn1DerError;
use std::io;

/// Why no frame was read from a reader.
#[derive(Drop)]
pub(crate) enum Rejection {
    /// The octets that the reader has left begin with no frame, or an allocation failed.
    Frame(ReadFrameError),
    /// The reader failed.
    Device(io::Error),
}

/// The reader's own error where it failed, and else that of the frame.
impl From<Rejection> for io::Error {
    ghost from_gives = { IsAnswered };

    fn from(rejection: Rejection) -> io::Error {
        match rejection {
            Rejection::Device(error) => error,
            Rejection::Frame(why) => io::Error::from(why),
        }
    }
}

/// The error of an AP message, for an error of reading from a reader.
pub(crate) fn ap_message_rejection(error: Asn1DerError) -> Rejection
    ensures { result ≡ reader_reported_in ReadFrameError.ApMessage error }
{
    match error {
        Asn1DerError::Io(error) => Rejection::Device(error),
        other => Rejection::Frame(ap_message_error(other)),
    }
}

/// The error of a KRB-PRIV, for an error of reading from a reader.
pub(crate) fn krb_priv_rejection(error: Asn1DerError) -> Rejection
    ensures { result ≡ reader_reported_in ReadFrameError.KrbPriv error }
{
    match error {
        Asn1DerError::Io(error) => Rejection::Device(error),
        other => Rejection::Frame(krb_priv_error(other)),
    }
}
