//! Which refusal an error of the library is.

ghost use Rattle.std.specs.Prelude.{◌≡◌};
ghost use Rattle.krb_c_calls.specs.declared.call_error.CallError.TheVariants as refusals;
ghost use Rattle.krb_c_calls.specs.ProxyStatuses.{carried_refusal, proxy_refusal};
ghost use Rattle.krb_c_calls.specs.Statuses.{crypto_refusal, der_refusal, message_refusal};
ghost use Rattle.krb_c_calls.specs.TokenStatuses.{protection_refusal};

use crate::call_error::CallError;
use krb_crypto::KerberosCryptoError;
use krb_der_core::Asn1DerError;
use krb_gss_per_message::ProtectionError;
use krb_kdc_proxy::{MessageError, ProxyError};
use std::alloc::AllocError;

impl From<AllocError> for CallError {
    ghost from_gives = { λ _ refusal. refusal ≡ refusals.Memory };

    fn from(_error: AllocError) -> CallError {
        CallError::Memory
    }
}

/// An error of the cryptography.
impl From<KerberosCryptoError> for CallError {
    ghost from_gives = { λ error refusal. refusal ≡ crypto_refusal error };

    fn from(error: KerberosCryptoError) -> CallError {
        match error {
            KerberosCryptoError::OutOfMemory => CallError::Memory,
            KerberosCryptoError::AlgorithmIdentifier(_) => CallError::Number,
            KerberosCryptoError::AlgorithmIdentifierData(_) => CallError::Number,
            KerberosCryptoError::KeyLength(_, _) => CallError::KeySize,
            KerberosCryptoError::CipherLength(_, _) => CallError::SealedSize,
            KerberosCryptoError::IntegrityCheck => CallError::Integrity,
            KerberosCryptoError::CipherUnpad => CallError::Padding,
            KerberosCryptoError::CipherPad => CallError::Padding,
            KerberosCryptoError::CipherError(_) => CallError::Never,
            KerberosCryptoError::SeedBitLen(_) => CallError::Never,
        }
    }
}

/// An error of octets that are to be DER.
impl From<Asn1DerError> for CallError {
    ghost from_gives = { λ error refusal. refusal ≡ der_refusal error };

    fn from(error: Asn1DerError) -> CallError {
        match error {
            Asn1DerError::OutOfMemory => CallError::Memory,
            Asn1DerError::InvalidData => CallError::Invalid,
            Asn1DerError::TruncatedData => CallError::Truncated,
            Asn1DerError::UnsupportedValue => CallError::Unsupported,
            Asn1DerError::Io(_) => CallError::Never,
        }
    }
}

/// An error of a message's octets.
impl From<MessageError> for CallError {
    ghost from_gives = { λ error refusal. refusal ≡ message_refusal error };

    fn from(error: MessageError) -> CallError {
        match error {
            MessageError::InvalidData => CallError::Invalid,
            MessageError::TruncatedData => CallError::Truncated,
            MessageError::UnsupportedValue => CallError::Unsupported,
        }
    }
}

/// An error of a per-message token.
impl From<ProtectionError> for CallError {
    ghost from_gives = { λ error refusal. refusal ≡ protection_refusal error };

    fn from(error: ProtectionError) -> CallError {
        match error {
            ProtectionError::OutOfMemory => CallError::Memory,
            ProtectionError::Checksum => CallError::Integrity,
            ProtectionError::Direction => CallError::Direction,
            ProtectionError::Token(_) => CallError::Token,
            ProtectionError::Subkey => CallError::Subkey,
            ProtectionError::Sealed => CallError::SealedMic,
            ProtectionError::SealedHeader => CallError::SealedHeader,
            ProtectionError::Opening(error) => CallError::from(error),
        }
    }
}

/// The first rule of a proxy that a message breaks.
impl From<ProxyError> for CallError {
    ghost from_gives = { λ error refusal. refusal ≡ proxy_refusal error };

    fn from(error: ProxyError) -> CallError {
        match error {
            ProxyError::OutOfMemory => CallError::Memory,
            ProxyError::ProxyMessage(error) => CallError::from(error),
            ProxyError::TooLarge => CallError::ProxyTooLarge,
            ProxyError::NoLength => CallError::ProxyNoLength,
            ProxyError::OtherLength => CallError::ProxyOtherLength,
            ProxyError::NoTargetDomain => CallError::ProxyNoDomain,
            ProxyError::OtherKind => CallError::ProxyOtherKind,
            ProxyError::FrameLength => CallError::ProxyFrameLength,
            ProxyError::Message(_, error) => carried(error),
            ProxyError::Pvno(_) => CallError::ProxyPvno,
            ProxyError::MsgType(_) => CallError::ProxyMsgType,
        }
    }
}

/// An error of the message that a KDC-PROXY-MESSAGE carries.
fn carried(error: MessageError) -> CallError
    ensures { result ≡ carried_refusal error }
{
    match error {
        MessageError::InvalidData => CallError::ProxyInvalid,
        MessageError::TruncatedData => CallError::ProxyTruncated,
        MessageError::UnsupportedValue => CallError::ProxyUnsupported,
    }
}
