//! Why a token is refused.

ghost use Rattle.std.specs.Prelude.{◌≡◌};
ghost use Rattle.krb_gss_per_message.specs.Errors.{of_crypto, of_token};
ghost use Rattle.krb_gss_per_message.specs.declared.error.ProtectionError.TheVariants as errors;

use krb_crypto::KerberosCryptoError;
use krb_gss_tokens::GssApiMessageError;
use std::alloc::AllocError;
use thiserror::Error;

/// Why a token was not made, or does not hold.
#[derive(Debug, Drop, Error)]
pub enum ProtectionError {
    /// The octets begin with no header of such a token (RFC 4121, 4.2.6). It is never `GssApiMessageError::OutOfMemory`.
    #[error("{0}")]
    Token(GssApiMessageError),
    /// The flag SentByAcceptor says that the other side sent the token (RFC 4121, 4.2.2): it was reflected.
    #[error("the token was sent by the other side")]
    Direction,
    /// The flag AcceptorSubkey says that the token is under another key (RFC 4121, 4.2.2).
    #[error("the token is under another key")]
    Subkey,
    /// The flag Sealed is set in a MIC token (RFC 4121, 4.2.2).
    #[error("the MIC token is marked as sealed")]
    Sealed,
    /// The checksum of a MIC token, or of a Wrap token that is not sealed, is another, or has not as many octets as EC says.
    #[error("the checksum is another")]
    Checksum,
    /// Nothing is sealed to the data of a Wrap token. It is never `KerberosCryptoError::OutOfMemory`.
    #[error("{0}")]
    Opening(KerberosCryptoError),
    /// The opened data of a Wrap token does not end in as many octets of filler as EC says and the token's header, with RRC 0 (RFC 4121, 4.2.4).
    #[error("the sealed header is another")]
    SealedHeader,
    /// An allocation failed.
    #[error("out of memory")]
    OutOfMemory,
}

/// An error of a token's octets is kept as it is, but an allocation failure is `OutOfMemory` of this type.
impl From<GssApiMessageError> for ProtectionError {
    ghost from_gives = { λ rejection e. e ≡ of_token rejection };

    fn from(rejection: GssApiMessageError) -> ProtectionError {
        match rejection {
            GssApiMessageError::OutOfMemory => ProtectionError::OutOfMemory,
            other => ProtectionError::Token(other),
        }
    }
}

/// An error of the opening of a token is kept as it is, but an allocation failure is `OutOfMemory` of this type.
impl From<KerberosCryptoError> for ProtectionError {
    ghost from_gives = { λ why e. e ≡ of_crypto why };

    fn from(why: KerberosCryptoError) -> ProtectionError {
        match why {
            KerberosCryptoError::OutOfMemory => ProtectionError::OutOfMemory,
            other => ProtectionError::Opening(other),
        }
    }
}

impl From<AllocError> for ProtectionError {
    ghost from_gives = { λ _ e. e ≡ errors.OutOfMemory };

    fn from(_error: AllocError) -> ProtectionError {
        ProtectionError::OutOfMemory
    }
}
