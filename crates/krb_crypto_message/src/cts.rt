//! What messages under AES have alike, whatever their checksum is of: confounder and payload, encrypted by CBC with
//! ciphertext stealing, and what octets decrypt to (RFC 3962, 5 and 6; RFC 8009, 5).

ghost use Rattle.std.specs.Prelude.{◌≡◌, ℕ, List, ◌+◌, ◌≤◌, ◌++◌, length, IfOk, IfErr};
ghost use Rattle.krb_crypto_block.specs.Aes.{aes_block};
ghost use Rattle.krb_crypto_block.specs.Modes.{Cts, IsOctets};
ghost use Rattle.krb_crypto_message.specs.MessageSteps.{IsDecrypted};

use crate::checksum::concatenated;
use krb_crypto_block::in_place::{decrypt_aes_cts, encrypt_aes_cts};
use krb_crypto_block::octets::are_octets;
use krb_crypto_block::{
    AES_BLOCK_SIZE, AesDecryptionKey, AesEncryptionKey, KerberosCryptoError, KerberosCryptoResult,
};
use std::alloc::Global;

/// Confounder and payload, encrypted under Ke, with room for `spare` octets after them.
pub(crate) fn encrypted_octets(
    alloc: Global,
    ke: &AesEncryptionKey,
    confounder: &[u8; AES_BLOCK_SIZE],
    payload: &[u8],
    spare: usize,
) -> KerberosCryptoResult<Vec<u8>>
    requires few { spare ≤ 32 }
    ensures encrypted_octets { IfOk result (λ octets. Cts (aes_block ke.now) (confounder.now ++ payload.now) octets.items) }
    ensures octets { IfOk result (λ _. IsOctets (confounder.now ++ payload.now)) }
    ensures memory { IfErr result (λ e. e ≡ KerberosCryptoError.OutOfMemory) }
{
    let mut octets = concatenated(alloc, confounder, payload, spare)?;
    encrypt_aes_cts(ke, &mut octets);
    Ok(octets)
}

/// What the octets without their last `mac_size` decrypt to under Ke, whatever Ki is.
pub(crate) fn decrypted(
    alloc: Global,
    ke: &AesDecryptionKey,
    cipher_data: &[u8],
    mac_size: usize,
) -> KerberosCryptoResult<Vec<u8>>
    requires { 16 + mac_size ≤ length cipher_data.now }
    ensures decrypted { IfOk result (λ padded. (ki : List ℕ) → IsDecrypted 1 16 mac_size (Cts (aes_block ke.now)) ki cipher_data.now padded.items ki) }
    ensures memory { IfErr result (λ e. e ≡ KerberosCryptoError.OutOfMemory) }
{
    let encrypted = &cipher_data[..cipher_data.len() - mac_size];
    let mut padded = Vec::from_slice(alloc, encrypted)?;
    decrypt_aes_cts(ke, &mut padded);
    are_octets(&padded);
    Ok(padded)
}
