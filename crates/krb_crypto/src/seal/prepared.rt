//! Sealing and opening the encoding of a value, under a key that was prepared once for a usage.

ghost use Rattle.std.specs.Prelude.{◌≡◌, ℕ, ℤ, List, ◌++◌, length, IfOk, IfErr, MatchResult, IsErrAnd};
ghost use Rattle.krb_crypto_hash.specs.CryptoError.{IsMemoryOr};
ghost use Rattle.krb_der.specs.Reading.{Encodings};
ghost use Rattle.krb_crypto_message.specs.Sealing.{HasNoPayload, IsGiven, IsTheOne};
ghost use Rattle.krb_crypto.specs.BySuite.{padding_octets_of, confounder_octets_of, error_of};
ghost use Rattle.krb_crypto.specs.PreparedKeys.{IsPreparedFor};
ghost use Rattle.krb_crypto.specs.Padded.{HasFirstError, IsFewZeros, RejectsOpened};
ghost use Rattle.krb_crypto.specs.PartError.{IsMemory, IsPartMemoryOr, IfCrypto, IfDer};
ghost use Rattle.krb_crypto.specs.Prepared.{IsSealedFor, IsGivenFor};

use crate::Cipher;
use crate::prepared::{OpeningKey, SealingKey};
use crate::seal::error::PartError;
use crate::seal::part::read_padded;
use krb_der::{Asn1DerError, Der, to_vec};
use std::alloc::Global;

/// The encoding of a value, sealed under a prepared key and this confounder, as `seal_part` of the key's suite returns it.
///
/// The confounder has the suite's `confounder_size` octets. An allocation failure, of either half, is the only error.
pub fn seal_part<T: Der>(
    alloc: Global,
    key: &SealingKey,
    confounder: &[u8],
    value: &T,
) -> Result<Vec<u8>, PartError>
    requires { length confounder.now ≡ confounder_octets_of key.now.suite }
    ensures sealed { (base : List ℕ) (usage : ℤ) → IsPreparedFor base usage key.now
        → IfOk result (λ octets. IsTheOne (IsSealedFor base usage key.now confounder.now (T.enc value.now)) octets.items) }
    ensures memory { IfErr result IsMemory }
{
    let payload = to_vec(alloc, value)?;
    Ok(key.encrypt(alloc, &payload, confounder)?)
}

/// The value whose encoding was sealed to these octets under some confounder, by a key prepared for the same key and usage, as
/// `open_part` of the key's suite returns it.
///
/// `Crypto` of the suite's error for octets that it seals nothing to. Where the decrypted octets do not begin with an encoding, `Der` of
/// their first error; where they do and the trailing octets are not fewer than the suite's `fill_size` zeros, `Der(InvalidData)`.
pub fn open_part<T: Der + Drop>(
    alloc: Global,
    key: &OpeningKey,
    bytes: &[u8],
) -> Result<T, PartError>
    ensures valid { IfOk result T.is_value }
    ensures opened { (base : List ℕ) (usage : ℤ) → IsPreparedFor base usage key.now → IfOk result (λ v. IsGivenFor base usage key.now bytes.now (T.enc v)) }
    ensures only { (base : List ℕ) (usage : ℤ) → IsPreparedFor base usage key.now → (v : T) → T.is_value v
        → IsGivenFor base usage key.now bytes.now (T.enc v) → MatchResult result (λ w. w ≡ v) IsMemory }
    ensures trailing { (base : List ℕ) (usage : ℤ) → IsPreparedFor base usage key.now → (v : T) (rest : List ℕ) → T.is_value v
        → IsGivenFor base usage key.now bytes.now (T.enc v ++ rest) → ¬ IsFewZeros (padding_octets_of key.now.suite) rest
        → IsErrAnd result (λ e. IsPartMemoryOr e (e ≡ PartError.Der Asn1DerError.InvalidData)) }
    ensures crypto { (base : List ℕ) (usage : ℤ) → IsPreparedFor base usage key.now → IfErr result (λ e. IfCrypto e
        (λ why. IsMemoryOr why (HasNoPayload (IsSealedFor base usage key.now) (confounder_octets_of key.now.suite) bytes.now))) }
    ensures exact { (base : List ℕ) (usage : ℤ) → IsPreparedFor base usage key.now
        → IfErr result (λ e. IfCrypto e (λ why. IsMemoryOr why (why ≡ error_of key.now.suite base bytes.now))) }
    ensures der { (base : List ℕ) (usage : ℤ) → IsPreparedFor base usage key.now → IfErr result (λ e. IfDer e
        (RejectsOpened (Encodings T.is_value T.enc) (padding_octets_of key.now.suite) (IsGivenFor base usage key.now bytes.now))) }
    ensures first_error { (base : List ℕ) (usage : ℤ) → IsPreparedFor base usage key.now → IfErr result (λ e. IfDer e
        (HasFirstError (Encodings T.is_value T.enc) T.first T.error (padding_octets_of key.now.suite) (IsGivenFor base usage key.now bytes.now))) }
{
    let padded = key.decrypt(alloc, bytes)?;
    Ok(read_padded(alloc, &padded, key.suite().fill_size())?)
}
