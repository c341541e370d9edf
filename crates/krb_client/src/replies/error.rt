//! Why a reply is refused.

use krb_client_rules::Mismatch;
use krb_crypto::seal::PartError;
use krb_der::Asn1DerError;
use thiserror::Error;

/// Why a reply is refused: the first rule that it breaks. It is read, then compared in the clear,
/// then opened, then compared. An allocation failure is `OutOfMemory` of the half that met it.
#[derive(Debug, Drop, Error)]
pub enum ReplyError {
    /// It is not the one encoding of the message.
    #[error("the message: {0}")]
    Message(Asn1DerError),
    /// pvno is not 5.
    #[error("pvno is not 5")]
    Pvno,
    /// msg-type is not the number of the message.
    #[error("msg-type is that of another message")]
    MsgType,
    /// The key does not open the part, or what it opens is not the encoding of a part.
    #[error("the part: {0}")]
    Opening(PartError),
    /// It does not answer what was asked.
    #[error("{0}")]
    Mismatch(Mismatch),
}
