//! Why octets are not converted.

ghost use Rattle.std.specs.Prelude.{◌≡◌};
ghost use Rattle.krb_file_tools.specs.declared.convert.error.ConvertError.TheVariants.{OutOfMemory};

use krb_der::Asn1DerError;
use krb_files::ccache::CcacheError;
use std::alloc::{AllocError, AllocFailed};
use thiserror::Error;

/// Why a KRB-CRED or a credential cache is not converted: the first rule that it breaks.
#[derive(Debug, Drop, Error)]
pub enum ConvertError {
    /// The octets are no KRB-CRED (RFC 4120, 5.8.1): their first error of DER, from the left.
    #[error("no KRB-CRED: {0}")]
    Kirbi(Asn1DerError),
    /// The protocol's version is not 5 (RFC 4120, 5.8.1).
    #[error("pvno is not 5")]
    Pvno,
    /// The type of the message is not 22 (RFC 4120, 5.8.1).
    #[error("msg-type is not 22")]
    MsgType,
    /// The encryption type of the part is not 0: it is not in the clear (RFC 4120, 5.8.1).
    #[error("enc-part is sealed: its etype is not 0")]
    Sealed,
    /// The octets in the clear are no EncKrbCredPart (RFC 4120, 5.8.1): their first error of DER, from the left.
    #[error("enc-part is no EncKrbCredPart: {0}")]
    Part(Asn1DerError),
    /// There are not as many elements of ticket-info as tickets (RFC 4120, 5.8.1).
    #[error("there are not as many elements of ticket-info as tickets")]
    TicketInfo,
    /// There is no ticket, and so no default principal.
    #[error("there is no ticket")]
    NoTicket,
    /// An element of ticket-info has no prealm, and a cache needs the client.
    #[error("prealm is absent, and a cache needs it")]
    NoPrealm,
    /// An element of ticket-info has no pname, and a cache needs the client.
    #[error("pname is absent, and a cache needs it")]
    NoPname,
    /// The type of a name is no number of 32 bits, as an Int32 is.
    #[error("a name-type does not fit 32 bits")]
    NameType,
    /// The encryption type of a key is no number of 16 bits.
    #[error("a keytype does not fit 16 bits")]
    KeyType,
    /// A time is before 1970, or past the last second of 32 bits.
    #[error("a time is not of 1970 to 2106")]
    Time,
    /// The type of an address is no number of 16 bits.
    #[error("an addr-type does not fit 16 bits")]
    AddressType,
    /// A length or a count does not fit the 32 bits of its field.
    #[error("a length or a count does not fit 32 bits")]
    TooLong,
    /// The octets are no credential cache: their first error, from the left.
    #[error("no credential cache: {0}")]
    Ccache(CcacheError),
    /// A cache has no credential but configuration entries and removed ones.
    #[error("there is no credential")]
    NoCredential,
    /// An octet of a realm or of a name's component is past 127, and a KerberosString has none (RFC 4120, 5.2.1).
    #[error("an octet of a name is past 127")]
    Name,
    /// The octets of a credential's ticket are no Ticket (RFC 4120, 5.3): their first error of DER, from the left.
    #[error("no Ticket: {0}")]
    Ticket(Asn1DerError),
    /// An allocation failed.
    #[error("out of memory")]
    OutOfMemory,
}

impl From<AllocError> for ConvertError {
    ghost from_gives = { λ _ e. e ≡ OutOfMemory };

    fn from(_error: AllocError) -> ConvertError {
        ConvertError::OutOfMemory
    }
}

impl<T: Drop> From<AllocFailed<T>> for ConvertError {
    ghost from_gives = { λ _ e. e ≡ OutOfMemory };

    fn from(_error: AllocFailed<T>) -> ConvertError {
        ConvertError::OutOfMemory
    }
}
