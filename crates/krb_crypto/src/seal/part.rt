//! Sealing and opening the encoding of a value, under the caller's cipher.

ghost use Rattle.std.specs.Prelude.{◌≡◌, ◌≢◌, ℕ, ◌↔◌, List, ◌++◌, length, IsTrue, IfOk, IfErr, MatchResult, IsErrAnd};
ghost use Rattle.krb_crypto_hash.specs.CryptoError.{IsMemoryOr};
ghost use Rattle.krb_der.specs.Reading.{Encodings};
ghost use Rattle.krb_der.specs.Whole.{Answers, FailsWith};
ghost use Rattle.krb_crypto_message.specs.Sealing.{HasNoPayload, IsGiven, IsTheOne};
ghost use Rattle.krb_der_core.specs.Errors.{OrMemory};
ghost use Rattle.krb_crypto.specs.Padded.{PaddedError, HasFirstError, IsFewZeros, RejectsPadded, RejectsOpened};
ghost use Rattle.krb_crypto.specs.PartError.{IsMemory, IsPartMemoryOr, IsPartKeyLengthError, IsCrypto, IfCrypto, IfDer};

use crate::seal::error::PartError;
use crate::{Cipher, KerberosCryptoError};
use krb_der::{Asn1DerError, Der, to_vec};
use std::alloc::Global;

/// The encoding of a value, sealed by the caller's cipher under this key, key usage and confounder.
///
/// The confounder has the cipher's `confounder_size` octets. A key that has not `key_size` octets is
/// `Crypto(KeyLength)`; an allocation failure, of either half, is the only other error.
pub fn seal_part<T: Der>(
    alloc: Global,
    cipher: &dyn Cipher,
    key: &[u8],
    key_usage: i32,
    confounder: &[u8],
    value: &T,
) -> Result<Vec<u8>, PartError>
    requires { length confounder.now ≡ confounder_octets cipher.now }
    ensures key { IfOk result (λ _. length key.now ≡ key_octets cipher.now) }
    ensures sealed { IfOk result (λ octets. IsTheOne (meaning cipher.now key.now key_usage confounder.now (T.enc value.now)) octets.items) }
    ensures rejected { IfErr result (λ e. IsPartMemoryOr e (IsPartKeyLengthError (key_octets cipher.now) key.now e)) }
{
    let payload = to_vec(alloc, value)?;
    Ok(cipher.encrypt(alloc, key, key_usage, &payload, confounder)?)
}

/// The value whose encoding the cipher sealed to these octets, under this key and key usage and some confounder.
///
/// `Crypto` of the cipher's error for a key that has not `key_size` octets and for octets that it seals nothing to. Where the
/// decrypted octets do not begin with an encoding, `Der` of their first error; where they do and the trailing octets are not
/// fewer than `fill_size` zeros, `Der(InvalidData)`.
pub fn open_part<T: Der + Drop>(
    alloc: Global,
    cipher: &dyn Cipher,
    key: &[u8],
    key_usage: i32,
    bytes: &[u8],
) -> Result<T, PartError>
    ensures key { IfOk result (λ _. length key.now ≡ key_octets cipher.now) }
    ensures valid { IfOk result T.is_value }
    ensures opened { IfOk result (λ v. IsGiven (meaning cipher.now key.now key_usage) (confounder_octets cipher.now) bytes.now (T.enc v)) }
    ensures only { length key.now ≡ key_octets cipher.now → (v : T) → T.is_value v
        → IsGiven (meaning cipher.now key.now key_usage) (confounder_octets cipher.now) bytes.now (T.enc v)
        → MatchResult result (λ w. w ≡ v) IsMemory }
    ensures trailing { length key.now ≡ key_octets cipher.now → (v : T) (rest : List ℕ) → T.is_value v
        → IsGiven (meaning cipher.now key.now key_usage) (confounder_octets cipher.now) bytes.now (T.enc v ++ rest)
        → ¬ IsFewZeros (padding_octets cipher.now) rest
        → IsErrAnd result (λ e. IsPartMemoryOr e (e ≡ PartError.Der Asn1DerError.InvalidData)) }
    ensures other_key { length key.now ≢ key_octets cipher.now → IsErrAnd result IsCrypto }
    ensures crypto { length key.now ≡ key_octets cipher.now → IfErr result (λ e. IfCrypto e
        (λ why. IsMemoryOr why (HasNoPayload (meaning cipher.now key.now key_usage) (confounder_octets cipher.now) bytes.now))) }
    ensures exact { IfErr result (λ e. IfCrypto e (λ why. IsMemoryOr why (unopened cipher.now key.now key_usage bytes.now why))) }
    ensures der { IfErr result (λ e. IfDer e (RejectsOpened (Encodings T.is_value T.enc) (padding_octets cipher.now)
        (IsGiven (meaning cipher.now key.now key_usage) (confounder_octets cipher.now) bytes.now))) }
    ensures first_error { IfErr result (λ e. IfDer e (HasFirstError (Encodings T.is_value T.enc) T.first T.error (padding_octets cipher.now)
        (IsGiven (meaning cipher.now key.now key_usage) (confounder_octets cipher.now) bytes.now))) }
{
    let padded = cipher.decrypt(alloc, key, key_usage, bytes)?;
    Ok(read_padded(alloc, &padded, cipher.fill_size())?)
}

/// The value whose encoding the octets begin with, with fewer than `size` zeros after it.
pub(crate) fn read_padded<T: Der + Drop>(
    alloc: Global,
    padded: &[u8],
    size: usize,
) -> Result<T, Asn1DerError>
    ensures valid { IfOk result T.is_value }
    ensures found { IfOk result (λ v. (rest : List ℕ) × (padded.now ≡ T.enc v ++ rest) × IsFewZeros size rest) }
    ensures only { (v : T) (rest : List ℕ) → T.is_value v → padded.now ≡ T.enc v ++ rest → IsFewZeros size rest → Answers result v }
    ensures trailing { (v : T) (rest : List ℕ) → T.is_value v → padded.now ≡ T.enc v ++ rest → ¬ IsFewZeros size rest
        → FailsWith result Asn1DerError.InvalidData }
    ensures rejected { IfErr result (RejectsPadded (Encodings T.is_value T.enc) size padded.now) }
    ensures first_error { IfErr result (OrMemory (PaddedError (Encodings T.is_value T.enc) T.first T.error size padded.now)) }
{
    let (value, taken) = T::read(alloc, padded)?;
    if is_few_zeros(&padded[taken..], size) {
        Ok(value)
    } else {
        Err(Asn1DerError::InvalidData)
    }
}

/// Whether the octets are fewer than `size`, and all zero.
fn is_few_zeros(octets: &[u8], size: usize) -> bool
    ensures { IsTrue result ↔ IsFewZeros size octets.now }
{
    octets.len() < size && octets.iter().all(|octet| *octet == 0)
}
