//! The key of a Diffie-Hellman secret (RFC 4556, 3.2.3.1).

ghost use Rattle.std.specs.Prelude.{◌≡◌, ◌⊎◌, ◌<◌, ◌≤◌, ◌/◌, ◌++◌, ◌∷◌, length, take, IfOk, IfErr, Err};
ghost use Rattle.sha1.specs.Sha1.{sha1};
ghost use Rattle.krb_crypto.specs.Agreement.{digests, nonces, octets_to_key};
ghost use Rattle.krb_crypto.specs.declared.diffie_hellman.DiffieHellmanError.TheVariants.{DataLen, OutOfMemory};

use crate::{Cipher, KerberosCryptoError};
use sha1::Sha1;
use std::alloc::{AllocError, AllocFailed, Global};
use thiserror::Error;

/// The octets of a digest of SHA-1.
const DIGEST_SIZE: usize = 20;

/// The most octets that a seed may have: those of the digests of 256 messages, since the number before each is one octet.
const LONGEST_SEED: usize = 5120;

/// Why no key is made of a shared secret.
#[derive(Debug, Drop, Error)]
pub enum DiffieHellmanError {
    /// Not returned by any call.
    #[error("Invalid bit len: {0}")]
    BitLen(String),
    /// The octets that the cipher's seed has, and the most that the digests give, which is 5120.
    #[error("Invalid data len: expected at least {0} but got {1}.")]
    DataLen(usize, usize),
    /// An allocation failed.
    #[error("out of memory")]
    OutOfMemory,
}

/// The result of a call over a shared secret.
pub type DiffieHellmanResult<T> = Result<T, DiffieHellmanError>;

impl From<AllocError> for DiffieHellmanError {
    ghost from_gives = { λ _ e. e ≡ OutOfMemory };

    fn from(_error: AllocError) -> DiffieHellmanError {
        DiffieHellmanError::OutOfMemory
    }
}

impl<T: Drop> From<AllocFailed<T>> for DiffieHellmanError {
    ghost from_gives = { λ _ e. e ≡ OutOfMemory };

    fn from(_error: AllocFailed<T>) -> DiffieHellmanError {
        DiffieHellmanError::OutOfMemory
    }
}

/// The nonces of both sides, where a Diffie-Hellman key of a KDC is used again (RFC 4556, 3.2.3.1).
#[derive(Drop)]
pub struct DhNonce<'a> {
    /// `clientDHNonce`, n_c.
    pub client_nonce: &'a [u8],
    /// `serverDHNonce`, n_k.
    pub server_nonce: &'a [u8],
}

/// The key that the cipher makes of a shared secret: octetstring2key(DHSharedSecret | n_c | n_k) of RFC 4556, 3.2.3.1. Without
/// nonces both are empty.
///
/// `DataLen` of the seed's octets and 5120 where the cipher's seed has more than 5120; `OutOfMemory` is the only other error.
pub fn generate_key_from_shared_secret(
    alloc: Global,
    dh_shared_secret: Vec<u8>,
    nonce: Option<DhNonce>,
    cipher: &dyn Cipher,
) -> DiffieHellmanResult<Vec<u8>>
    ensures key { IfOk result (λ key. key.items ≡
        octets_to_key (key_of_seed cipher.now) (seed_bits cipher.now / 8) (dh_shared_secret.items ++ nonces nonce.entry)) }
    ensures size { IfOk result (λ key. length key.items ≡ key_octets cipher.now) }
    ensures long { 5120 < seed_bits cipher.now / 8 → result ≡ Err (DataLen (seed_bits cipher.now / 8) 5120) }
    ensures rejected { seed_bits cipher.now / 8 ≤ 5120 → IfErr result (λ e. e ≡ OutOfMemory) }
{
    let seed_len = cipher.seed_bit_len() / 8;
    if seed_len > LONGEST_SEED {
        return Err(DiffieHellmanError::DataLen(seed_len, LONGEST_SEED));
    }
    let seed = match nonce {
        None => seed_of(alloc, &dh_shared_secret, &[], &[], seed_len)?,
        Some(nonce) => {
            seed_of(
                alloc,
                &dh_shared_secret,
                nonce.client_nonce,
                nonce.server_nonce,
                seed_len,
            )?
        }
    };
    match cipher.random_to_key(alloc, seed) {
        Ok(key) => Ok(key),
        Err(_) => Err(DiffieHellmanError::OutOfMemory),
    }
}

/// The first `size` octets of the digests of these three parts, concatenated.
fn seed_of(
    alloc: Global,
    secret: &[u8],
    client_nonce: &[u8],
    server_nonce: &[u8],
    size: usize,
) -> DiffieHellmanResult<Vec<u8>>
    requires { size ≤ 5120 }
    ensures seed { IfOk result (λ seed. seed.items ≡ take size (digests (secret.now ++ client_nonce.now ++ server_nonce.now) 256)) }
    ensures sized { IfOk result (λ seed. length seed.items ≡ size) }
    ensures rejected { IfErr result (λ e. e ≡ OutOfMemory) }
{
    let mut seed = Vec::with_capacity(alloc, size)?;
    for i in 0..size.div_ceil(DIGEST_SIZE) {
        let digest = digest_of(i as u8, secret, client_nonce, server_nonce);
        let kept = DIGEST_SIZE.min(size - seed.len());
        seed.extend_from_slice(&digest[..kept])?;
    }
    Ok(seed)
}

/// The SHA-1 digest of a number in one octet and of these three parts, concatenated.
fn digest_of(number: u8, secret: &[u8], client_nonce: &[u8], server_nonce: &[u8]) -> [u8; 20]
    ensures { result ≡ sha1 (number ∷ (secret.now ++ client_nonce.now ++ server_nonce.now)) }
{
    let mut hasher = Sha1::new();
    hasher.update(&[number]);
    hasher.update(secret);
    hasher.update(client_nonce);
    hasher.update(server_nonce);
    hasher.finalize()
}
