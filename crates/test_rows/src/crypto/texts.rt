//! The texts of the errors.

use krb_crypto::KerberosCryptoError;
use krb_crypto::diffie_hellman::DiffieHellmanError;
use krb_crypto::seal::PartError;
use krb_der::Asn1DerError;
use krb_gss_tokens::GssApiMessageError;
use krb_pac::PacError;
use std::alloc::{AllocError, Global};
use std::fmt::Display;
use std::io;
use std::io::ErrorKind;

/// The texts of errors, with ` | ` between.
fn joined<E: Display + Drop, const COUNT: usize>(
    alloc: Global,
    errors: [E; COUNT],
) -> Result<String, AllocError> {
    let mut texts = String::new(alloc);
    for error in &errors {
        if !texts.is_empty() {
            texts.push_str(" | ")?;
        }
        let text = error.to_string(alloc)?;
        texts.push_str(text.as_str())?;
    }
    Ok(texts)
}

/// Each error of the cryptography.
fn crypto_errors(alloc: Global) -> Result<[KerberosCryptoError; 10], AllocError> {
    Ok([
        KerberosCryptoError::KeyLength(15, 16),
        KerberosCryptoError::CipherLength(27, 28),
        KerberosCryptoError::AlgorithmIdentifier(19),
        KerberosCryptoError::AlgorithmIdentifierData(Vec::from_slice(alloc, &[0, 17])?),
        KerberosCryptoError::IntegrityCheck,
        KerberosCryptoError::CipherError(String::from_str(alloc, "no such mode")?),
        KerberosCryptoError::CipherUnpad,
        KerberosCryptoError::CipherPad,
        KerberosCryptoError::SeedBitLen(String::from_str(alloc, "13")?),
        KerberosCryptoError::OutOfMemory,
    ])
}

/// Each error of a token.
fn token_errors(alloc: Global) -> Result<[GssApiMessageError; 7], AllocError> {
    Ok([
        GssApiMessageError::InvalidId([4, 4], [5, 4]),
        GssApiMessageError::InvalidMechanismOid(
            String::from_str(alloc, "1.3.6.1.5.2.5")?,
            String::from_str(alloc, "1.2")?,
        ),
        GssApiMessageError::IoError(io::Error::from(ErrorKind::UnexpectedEof)),
        GssApiMessageError::InvalidMicFiller([255, 255, 0, 255, 255]),
        GssApiMessageError::InvalidWrapFiller(254),
        GssApiMessageError::Asn1Error(Asn1DerError::TruncatedData),
        GssApiMessageError::OutOfMemory,
    ])
}

/// The texts of each error of this family. A part's has the text of the half that returned it.
pub fn texts_of(alloc: Global, family: &str) -> Result<String, AllocError> {
    match family {
        "crypto" => joined(alloc, crypto_errors(alloc)?),
        "part" => joined(
            alloc,
            [
                PartError::from(KerberosCryptoError::KeyLength(15, 16)),
                PartError::from(KerberosCryptoError::IntegrityCheck),
                PartError::from(KerberosCryptoError::OutOfMemory),
                PartError::from(Asn1DerError::InvalidData),
                PartError::from(Asn1DerError::TruncatedData),
                PartError::from(Asn1DerError::UnsupportedValue),
            ],
        ),
        "agreement" => joined(
            alloc,
            [
                DiffieHellmanError::BitLen(String::from_str(alloc, "13")?),
                DiffieHellmanError::DataLen(5121, 5120),
                DiffieHellmanError::OutOfMemory,
            ],
        ),
        "pac" => joined(
            alloc,
            [
                PacError::Version(3),
                PacError::PacBufferType(20),
                PacError::IoError(io::Error::from(ErrorKind::UnexpectedEof)),
                PacError::InvalidVersion(1),
                PacError::InvalidRange,
                PacError::OutOfMemory,
            ],
        ),
        "token" => joined(alloc, token_errors(alloc)?),
        _ => Ok(String::new(alloc)),
    }
}
