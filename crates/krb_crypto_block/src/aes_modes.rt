//! Cipher block chaining and ciphertext stealing under AES (RFC 3962, 5). Each call tests the key, then the length.

ghost use Rattle.std.specs.Prelude.{◌≡◌, ◌≢◌, ◌<◌, ◌%◌, ℕ, List, length, IfOk, IfErr};
ghost use Rattle.krb_crypto_block.specs.Aes.{aes_block};
ghost use Rattle.krb_crypto_hash.specs.CryptoError.{RejectsKeyOr, IsKeyOrCipherLengthError};
ghost use Rattle.krb_crypto_block.specs.Modes.{Cts, IsCbc, IsOctets, with_last_two_swapped};
ghost use Rattle.krb_crypto_block.specs.Size.{key_octets};

use crate::aes::{AES_BLOCK_SIZE, AesDecryptionKey, AesEncryptionKey, AesSize};
use crate::cbc::{decrypt_cbc, encrypt_cbc};
use crate::in_place;
use krb_crypto_hash::{KerberosCryptoError, KerberosCryptoResult};
use std::alloc::Global;

/// The octets, in CBC from a zero block on. `KeyLength` where the key has not the size's length, then `CipherPad` where
/// the octets are not whole blocks of 16.
pub fn encrypt_aes_cbc(
    alloc: Global,
    key: &[u8],
    plaintext: &[u8],
    size: &AesSize,
) -> KerberosCryptoResult<Vec<u8>>
    ensures key { IfOk result (λ _. length key.now ≡ key_octets size.now) }
    ensures chained { IfOk result (λ c. IsCbc 16 (aes_block key.now) plaintext.now c.items) }
    ensures rejected { IfErr result (RejectsKeyOr (key_octets size.now) key.now (length plaintext.now % 16 ≢ 0) KerberosCryptoError.CipherPad) }
{
    let cipher = AesEncryptionKey::new(key, size)?;
    if plaintext.len() % AES_BLOCK_SIZE != 0 {
        return Err(KerberosCryptoError::CipherPad);
    }
    let mut octets = Vec::from_slice(alloc, plaintext)?;
    encrypt_cbc(&cipher, &mut octets);
    Ok(octets)
}

/// The one list of octets that `encrypt_aes_cbc` makes these of. `KeyLength` where the key has not the size's length,
/// then `CipherUnpad` where the octets are not whole blocks of 16.
pub fn decrypt_aes_cbc(
    alloc: Global,
    key: &[u8],
    cipher_text: &[u8],
    size: &AesSize,
) -> KerberosCryptoResult<Vec<u8>>
    ensures key { IfOk result (λ _. length key.now ≡ key_octets size.now) }
    ensures plain { IfOk result (λ p. IsCbc 16 (aes_block key.now) p.items cipher_text.now) }
    ensures only { IfOk result (λ p. (q : List ℕ) → IsOctets q → IsCbc 16 (aes_block key.now) q cipher_text.now → q ≡ p.items) }
    ensures rejected { IfErr result (RejectsKeyOr (key_octets size.now) key.now (length cipher_text.now % 16 ≢ 0) KerberosCryptoError.CipherUnpad) }
{
    let cipher = AesDecryptionKey::new(key, size)?;
    if cipher_text.len() % AES_BLOCK_SIZE != 0 {
        return Err(KerberosCryptoError::CipherUnpad);
    }
    let mut octets = Vec::from_slice(alloc, cipher_text)?;
    cipher.undoes();
    decrypt_cbc(&cipher, &mut octets);
    Ok(octets)
}

/// The octets, in CBC with ciphertext stealing, as many as they were (RFC 3962, 5). `KeyLength` where the key has not the
/// size's length, then `CipherLength` of their number and 16 where they are fewer than a block.
pub fn encrypt_aes_cts(
    alloc: Global,
    key: &[u8],
    payload: &[u8],
    size: &AesSize,
) -> KerberosCryptoResult<Vec<u8>>
    ensures key { IfOk result (λ _. length key.now ≡ key_octets size.now) }
    ensures encrypted_octets { IfOk result (λ c. Cts (aes_block key.now) payload.now c.items) }
    ensures rejected { IfErr result (IsKeyOrCipherLengthError (key_octets size.now) key.now 16 payload.now) }
{
    let cipher = AesEncryptionKey::new(key, size)?;
    if payload.len() < AES_BLOCK_SIZE {
        return Err(KerberosCryptoError::CipherLength(payload.len(), AES_BLOCK_SIZE));
    }
    let mut octets = Vec::from_slice(alloc, payload)?;
    in_place::encrypt_aes_cts(&cipher, &mut octets);
    Ok(octets)
}

/// The one list of octets that `encrypt_aes_cts` makes these of. `KeyLength` where the key has not the size's length,
/// then `CipherLength` of their number and 16 where they are fewer than a block.
pub fn decrypt_aes_cts(
    alloc: Global,
    key: &[u8],
    cipher_text: &[u8],
    size: &AesSize,
) -> KerberosCryptoResult<Vec<u8>>
    ensures key { IfOk result (λ _. length key.now ≡ key_octets size.now) }
    ensures plain { IfOk result (λ p. Cts (aes_block key.now) p.items cipher_text.now) }
    ensures only { IfOk result (λ p. (q : List ℕ) → IsOctets q → Cts (aes_block key.now) q cipher_text.now → q ≡ p.items) }
    ensures rejected { IfErr result (IsKeyOrCipherLengthError (key_octets size.now) key.now 16 cipher_text.now) }
{
    let cipher = AesDecryptionKey::new(key, size)?;
    if cipher_text.len() < AES_BLOCK_SIZE {
        return Err(KerberosCryptoError::CipherLength(cipher_text.len(), AES_BLOCK_SIZE));
    }
    let mut octets = Vec::from_slice(alloc, cipher_text)?;
    in_place::decrypt_aes_cts(&cipher, &mut octets);
    Ok(octets)
}

/// Exchanges the last two runs of 16 octets, in place. `CipherLength` of their number and 32 where the octets are fewer,
/// which then stay as they are. It allocates nothing.
pub fn swap_two_last_blocks(octets: &mut [u8]) -> KerberosCryptoResult<()>
    ensures swapped { IfOk result (λ _. octets.new ≡ with_last_two_swapped octets.old) }
    ensures rejected { IfErr result (λ e. (length octets.old < 32) × (e ≡ KerberosCryptoError.CipherLength (length octets.old) 32)
        × (octets.new ≡ octets.old)) }
{
    const TWO_BLOCKS: usize = 2 * AES_BLOCK_SIZE;
    if octets.len() < TWO_BLOCKS {
        return Err(KerberosCryptoError::CipherLength(octets.len(), TWO_BLOCKS));
    }
    let start = octets.len() - TWO_BLOCKS;
    octets[start..].rotate_left(AES_BLOCK_SIZE);
    Ok(())
}
