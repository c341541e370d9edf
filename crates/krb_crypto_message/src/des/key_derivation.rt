//! Keys of triple DES from keys, from passwords and from random octets (RFC 3961, 5.1 and 6.3.1).

ghost use Rattle.std.specs.Prelude.{◌≡◌, ◌<◌, ◌≤◌, ◌++◌, length, IfOk, IfErr};
ghost use Rattle.krb_crypto_hash.specs.CryptoError.{IsMemoryOr, RejectsKey};
ghost use Rattle.krb_crypto_hash.specs.declared.error.KerberosCryptoError.TheVariants.{OutOfMemory};
ghost use Rattle.krb_crypto_message.specs.Derive.{des3_dk, IsDes3PasswordKey};
ghost use Rattle.krb_crypto_message.specs.RandomToKey.{random_to_key};
ghost use Rattle.krb_crypto_message.specs.Sealed.{IsNoDes3Password};
ghost use Rattle.krb_crypto_message.specs.Sealing.{IsTheOne};

use super::key_of_seed::key_of_seed;
use super::parts::concatenated;
use crate::well_known::KERBEROS;
use krb_crypto_block::in_place::n_fold_into;
use krb_crypto_block::{
    DES3_BLOCK_SIZE, DES3_KEY_SIZE, DES3_SEED_LEN, DesKey, KerberosCryptoError,
    KerberosCryptoResult, n_fold,
};
use std::alloc::Global;

/// The key that a key and a well-known constant give (DK of RFC 3961, 5.1): the n-folded constant is encrypted three
/// times in a row, the first 21 octets of the three blocks are the seed, and the key is that of the seed.
///
/// The constant is not empty. `KeyLength` where the key has not 24 octets.
pub fn derive_key(alloc: Global, key: &[u8], well_known: &[u8]) -> KerberosCryptoResult<Vec<u8>>
    requires { 0 < length well_known.now }
    ensures key { IfOk result (λ _. length key.now ≡ 24) }
    ensures size { IfOk result (λ derived. length derived.items ≡ 24) }
    ensures derived { IfOk result (λ derived. derived.items ≡ des3_dk key.now well_known.now) }
    ensures rejected { IfErr result (RejectsKey 24 key.now) }
{
    let cipher = DesKey::new(key)?;
    let derived = derived_key(&cipher, well_known);
    Ok(Vec::from_slice(alloc, &derived)?)
}

/// The key that `derive_key` gives, from a key that is ready for use. It allocates nothing.
pub(crate) fn derived_key(cipher: &DesKey, well_known: &[u8]) -> [u8; DES3_KEY_SIZE]
    requires { 0 < length well_known.now }
    ensures { result ≡ des3_dk cipher.now well_known.now }
{
    let mut block = [0; DES3_BLOCK_SIZE];
    n_fold_into(well_known, &mut block);
    let first = cipher.encrypt_block(block);
    let second = cipher.encrypt_block(first);
    let third = cipher.encrypt_block(second);
    let blocks = concatenated(&first, &second, &third);
    key_of_seed(&blocks[..DES3_SEED_LEN])
}

/// The key that a password and a salt give (string-to-key of RFC 3961, 6.3.1): both, concatenated, n-folded to a seed, and the
/// key that is derived from the seed's key with the constant "kerberos".
///
/// `KeyLength` of 0 and 1 where both are empty; an allocation failure is the only other error.
pub fn derive_key_from_password(
    alloc: Global,
    password: &[u8],
    salt: &[u8],
) -> KerberosCryptoResult<Vec<u8>>
    ensures size { IfOk result (λ key. length key.items ≡ 24) }
    ensures made { IfOk result (λ key. IsTheOne (IsDes3PasswordKey password.now salt.now) key.items) }
    ensures rejected { IfErr result (λ e. IsMemoryOr e (IsNoDes3Password password.now salt.now e)) }
{
    if password.is_empty() && salt.is_empty() {
        return Err(KerberosCryptoError::KeyLength(0, 1));
    }
    let mut secret = Vec::with_capacity(alloc, password.len() + salt.len())?;
    secret.extend_from_slice(password)?;
    secret.extend_from_slice(salt)?;
    let seed = n_fold(alloc, &secret, 8 * DES3_SEED_LEN)?;
    let key = key_of_seed(&seed);
    Ok(derive_key(alloc, &key, KERBEROS)?)
}

/// The key of 24 octets that a seed gives (random-to-key of RFC 3961, 6.3.1). The seed has at least 21 octets, of which
/// the first 21 are taken. `OutOfMemory` is the only error.
pub fn random_to_key(alloc: Global, seed: &[u8]) -> KerberosCryptoResult<Vec<u8>>
    requires { 21 ≤ length seed.now }
    ensures made { IfOk result (λ key. key.items ≡ random_to_key seed.now) }
    ensures size { IfOk result (λ key. length key.items ≡ 24) }
    ensures rejected { IfErr result (λ e. e ≡ OutOfMemory) }
{
    let key = key_of_seed(seed);
    Ok(Vec::from_slice(alloc, &key)?)
}
