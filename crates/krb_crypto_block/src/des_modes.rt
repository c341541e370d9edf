//! Cipher block chaining under triple DES (RFC 3961, 6.3). Each call tests the key, then the length.

ghost use Rattle.std.specs.Prelude.{◌≡◌, ◌≢◌, ◌%◌, ℕ, List, length, IfOk, IfErr};
ghost use Rattle.krb_crypto_hash.specs.CryptoError.{RejectsKey, RejectsKeyOr};
ghost use Rattle.krb_crypto_hash.specs.declared.error.KerberosCryptoError.TheVariants.{OutOfMemory};
ghost use Rattle.krb_crypto_block.specs.Des.{ede3};
ghost use Rattle.krb_crypto_block.specs.Modes.{IsCbc, IsPadding, IsOctets};

use crate::des::{DES3_BLOCK_SIZE, DesKey};
use crate::in_place;
use krb_crypto_hash::{KerberosCryptoError, KerberosCryptoResult};
use std::alloc::Global;

/// The octets, with the fewest zeros to whole blocks of 8 after them, in CBC from a zero block on. `KeyLength` where the
/// key has not 24 octets; an allocation failure is the only other error.
pub fn encrypt_des(alloc: Global, key: &[u8], payload: &[u8]) -> KerberosCryptoResult<Vec<u8>>
    ensures key { IfOk result (λ _. length key.now ≡ 24) }
    ensures chained { IfOk result (λ c. (padded : List ℕ) × IsPadding 8 payload.now padded × IsCbc 8 (ede3 key.now) padded c.items) }
    ensures rejected { IfErr result (RejectsKey 24 key.now) }
{
    let cipher = DesKey::new(key)?;
    let whole = payload.len().next_multiple_of(DES3_BLOCK_SIZE);
    let mut octets = Vec::with_capacity(alloc, whole)?;
    octets.extend_from_slice(payload)?;
    pad_blocks(&mut octets)?;
    in_place::encrypt_des(&cipher, &mut octets);
    Ok(octets)
}

/// The one list of octets that is chained to these, with whatever padding it has. `KeyLength` where the key has not 24
/// octets, then `CipherUnpad` where the octets are not whole blocks of 8.
pub fn decrypt_des(alloc: Global, key: &[u8], cipher_text: &[u8]) -> KerberosCryptoResult<Vec<u8>>
    ensures key { IfOk result (λ _. length key.now ≡ 24) }
    ensures plain { IfOk result (λ p. IsCbc 8 (ede3 key.now) p.items cipher_text.now) }
    ensures only { IfOk result (λ p. (q : List ℕ) → IsOctets q → IsCbc 8 (ede3 key.now) q cipher_text.now → q ≡ p.items) }
    ensures rejected { IfErr result (RejectsKeyOr 24 key.now (length cipher_text.now % 8 ≢ 0) KerberosCryptoError.CipherUnpad) }
{
    let cipher = DesKey::new(key)?;
    if cipher_text.len() % DES3_BLOCK_SIZE != 0 {
        return Err(KerberosCryptoError::CipherUnpad);
    }
    let mut octets = Vec::from_slice(alloc, cipher_text)?;
    in_place::decrypt_des(&cipher, &mut octets);
    Ok(octets)
}

/// Puts the fewest zeros to whole blocks of 8 after the octets, which are as before where an allocation fails.
pub fn pad_blocks(octets: &mut Vec<u8>) -> KerberosCryptoResult<()>
    ensures padded { IfOk result (λ _. IsPadding 8 octets.old.items octets.new.items) }
    ensures rejected { IfErr result (λ e. (e ≡ OutOfMemory) × (octets.new.items ≡ octets.old.items)) }
{
    let length = octets.len().next_multiple_of(DES3_BLOCK_SIZE);
    Ok(octets.resize(length, 0)?)
}
