//! Keys of AES from keys, from passwords and from random octets (RFC 3961, 5.1; RFC 3962, 4).

ghost use Rattle.std.specs.Prelude.{◌≡◌, ◌<◌, length, IfOk, IfErr};
ghost use Rattle.krb_crypto_block.specs.Size.{key_octets};
ghost use Rattle.krb_crypto_hash.specs.declared.error.KerberosCryptoError.TheVariants.{OutOfMemory};
ghost use Rattle.krb_crypto_message.specs.Derive.{aes_dk, IsAesPasswordKey};
ghost use Rattle.krb_crypto_message.specs.Sealing.{IsTheOne};
ghost use Rattle.krb_crypto_hash.specs.CryptoError.{RejectsKey};

use crate::short_octets::ShortOctets;
use crate::well_known::KERBEROS;
use krb_crypto_block::in_place::n_fold_into;
use krb_crypto_block::{
    AES_BLOCK_SIZE, AesEncryptionKey, AesSize, KerberosCryptoResult, pbkdf2_hmac_sha1,
};
use std::alloc::Global;

/// The rounds of PBKDF2 by default (RFC 3962, 4).
const PBKDF2_ROUNDS: u32 = 4096;

/// The key that a key and a well-known constant give (DK of RFC 3961, 5.1): the n-folded constant is encrypted again and
/// again, and the blocks, concatenated, are the key, whose length in octets is the old one's.
///
/// The constant is not empty. `KeyLength` where the key has not the size's length.
pub fn derive_key(
    alloc: Global,
    key: &[u8],
    well_known: &[u8],
    size: &AesSize,
) -> KerberosCryptoResult<Vec<u8>>
    requires { 0 < length well_known.now }
    ensures key { IfOk result (λ _. length key.now ≡ key_octets size.now) }
    ensures size { IfOk result (λ derived. length derived.items ≡ key_octets size.now) }
    ensures derived { IfOk result (λ derived. derived.items ≡ aes_dk key.now well_known.now) }
    ensures rejected { IfErr result (RejectsKey (key_octets size.now) key.now) }
{
    let cipher = AesEncryptionKey::new(key, size)?;
    let derived = derived_key(&cipher, well_known, size);
    Ok(Vec::from_slice(alloc, derived.as_slice())?)
}

/// The key that `derive_key` gives, from a key that is ready for use. It allocates nothing.
pub(crate) fn derived_key(
    cipher: &AesEncryptionKey,
    well_known: &[u8],
    size: &AesSize,
) -> ShortOctets
    requires some { 0 < length well_known.now }
    requires size { length cipher.now ≡ key_octets size.now }
    ensures derived { result ≡ aes_dk cipher.now well_known.now }
    ensures size { length result ≡ key_octets size.now }
{
    let mut block = [0; AES_BLOCK_SIZE];
    n_fold_into(well_known, &mut block);
    let mut derived = ShortOctets::empty();
    for i in 0..size.key_length() / AES_BLOCK_SIZE {
        let next = cipher.encrypt_block(block);
        block = next;
        derived.push(&block);
    }
    derived
}

/// The key that a password and a salt give (string-to-key of RFC 3962, 4): PBKDF2 with HMAC-SHA1 and 4096 rounds, and
/// the key that is derived from it with the constant "kerberos". `OutOfMemory` is the only error.
pub fn derive_key_from_password(
    alloc: Global,
    password: &[u8],
    salt: &[u8],
    size: &AesSize,
) -> KerberosCryptoResult<Vec<u8>>
    ensures size { IfOk result (λ key. length key.items ≡ key_octets size.now) }
    ensures made { IfOk result (λ key. IsTheOne (IsAesPasswordKey (key_octets size.now) password.now salt.now) key.items) }
    ensures rejected { IfErr result (λ e. e ≡ OutOfMemory) }
{
    let mut seed = vec![in alloc; 0u8; size.key_length()]?;
    pbkdf2_hmac_sha1(password, salt, PBKDF2_ROUNDS, &mut seed);
    derive_key(alloc, &seed, KERBEROS, size)
}

/// The key that random octets give (random-to-key of RFC 3962, 6): these octets.
pub fn random_to_key(seed: Vec<u8>) -> Vec<u8>
    ensures { result ≡ seed }
{
    seed
}
