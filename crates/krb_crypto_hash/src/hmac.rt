//! HMAC (RFC 2104) over any hash function, and over SHA-1, SHA-256 and SHA-384 (FIPS 180-4).

ghost use Rattle.std.specs.Prelude.{◌≡◌, ℕ, List, ◌++◌, length, IfOk, MatchResult};
ghost use Rattle.krb_crypto_hash.specs.Hmac.{AreSizes, block_key, hmac_over, hmac, hmac_256, hmac_384, resized, IsReady};
ghost use Rattle.krb_crypto_hash.specs.declared.error.KerberosCryptoError.TheVariants.{OutOfMemory};

use crate::error::KerberosCryptoResult;
use crate::hash::HashFunction;
use crate::xor::xored_with;
use sha1::Sha1;
use sha2::{Sha256, Sha384};
use std::alloc::Global;

/// ipad, the octet that each of the key's block is combined with before the inner hash (RFC 2104, 2).
const INNER_PAD: u8 = 0x36;

/// opad, the one before the outer hash.
const OUTER_PAD: u8 = 0x5c;

/// The inner and the outer hash, which have absorbed K XOR ipad and K XOR opad (RFC 2104, 2). The octets of a key are hashed
/// once, however many messages follow.
pub(crate) fn keyed<const BLOCK: usize, const SIZE: usize, H: HashFunction<BLOCK, SIZE>>(
    key: &[u8],
) -> (H, H)
    requires { AreSizes BLOCK SIZE }
    ensures { IsReady (H.holds result.0) (H.holds result.1) H.hash BLOCK key.now }
{
    let block = block_of::<BLOCK, SIZE, H>(key);
    let mut inner = H::begin();
    inner.absorb(&xored_with(&block, &[INNER_PAD; BLOCK]));
    let mut outer = H::begin();
    outer.absorb(&xored_with(&block, &[OUTER_PAD; BLOCK]));
    (inner, outer)
}

/// The HMAC (RFC 2104, 2) of two parts, concatenated, under the key that the hashes have absorbed.
pub(crate) fn mac<const BLOCK: usize, const SIZE: usize, H: HashFunction<BLOCK, SIZE>>(
    inner: &H,
    outer: &H,
    first: &[u8],
    second: &[u8],
) -> [u8; SIZE]
    requires { AreSizes BLOCK SIZE }
    ensures { (key : List ℕ) → IsReady (H.holds inner.now) (H.holds outer.now) H.hash BLOCK key
        → result ≡ hmac_over H.hash BLOCK key (first.now ++ second.now) }
{
    let mut inner = inner.copy();
    inner.absorb(first);
    inner.absorb(second);
    let mut outer = outer.copy();
    outer.absorb(&inner.finish());
    outer.finish()
}

/// The key, padded with zeros to a block; one that is longer than a block is hashed first (RFC 2104, 2).
fn block_of<const BLOCK: usize, const SIZE: usize, H: HashFunction<BLOCK, SIZE>>(
    key: &[u8],
) -> [u8; BLOCK]
    requires { AreSizes BLOCK SIZE }
    ensures { result ≡ block_key H.hash BLOCK key.now }
{
    let mut block = [0; BLOCK];
    if key.len() > BLOCK {
        let mut hasher = H::begin();
        hasher.absorb(key);
        block[..SIZE].copy_from_slice(&hasher.finish());
    } else {
        block[..key.len()].copy_from_slice(key);
    }
    block
}

/// The HMAC of the payload under the key (RFC 2104, 2).
fn digest_of<const BLOCK: usize, const SIZE: usize, H: HashFunction<BLOCK, SIZE>>(
    key: &[u8],
    payload: &[u8],
) -> [u8; SIZE]
    requires { AreSizes BLOCK SIZE }
    ensures { result ≡ hmac_over H.hash BLOCK key.now payload.now }
{
    let (inner, outer) = keyed::<BLOCK, SIZE, H>(key);
    mac(&inner, &outer, payload, &[])
}

/// The first `mac_size` octets of the HMAC; past these they are zeros.
fn mac_of<const BLOCK: usize, const SIZE: usize, H: HashFunction<BLOCK, SIZE>>(
    alloc: Global,
    key: &[u8],
    payload: &[u8],
    mac_size: usize,
) -> KerberosCryptoResult<Vec<u8>>
    requires { AreSizes BLOCK SIZE }
    ensures mac { MatchResult result (λ mac. mac.items ≡ resized SIZE mac_size (hmac_over H.hash BLOCK key.now payload.now)) (λ e. e ≡ OutOfMemory) }
    ensures size { IfOk result (λ mac. length mac.items ≡ mac_size) }
{
    let digest = digest_of::<BLOCK, SIZE, H>(key, payload);
    let kept = mac_size.min(SIZE);
    let mut mac = Vec::with_capacity(alloc, mac_size)?;
    mac.extend_from_slice(&digest[..kept])?;
    mac.resize(mac_size, 0)?;
    Ok(mac)
}

/// The first `mac_size` octets of the HMAC-SHA1 of the payload (RFC 2104; in Kerberos RFC 3961, 5.3), of which there
/// are 20; past these they are zeros.
///
/// A key of more than 64 octets is hashed first, as RFC 2104 says. `OutOfMemory` is the only error.
pub fn hmac_sha1(
    alloc: Global,
    key: &[u8],
    payload: &[u8],
    mac_size: usize,
) -> KerberosCryptoResult<Vec<u8>>
    ensures mac { MatchResult result (λ mac. mac.items ≡ resized 20 mac_size (hmac key.now payload.now)) (λ e. e ≡ OutOfMemory) }
    ensures size { IfOk result (λ mac. length mac.items ≡ mac_size) }
{
    mac_of::<64, 20, Sha1>(alloc, key, payload, mac_size)
}

/// The first `mac_size` octets of the HMAC-SHA256 of the payload (RFC 2104; in Kerberos RFC 8009, 5), of which there
/// are 32; past these they are zeros.
///
/// A key of more than 64 octets is hashed first, as RFC 2104 says. `OutOfMemory` is the only error.
pub fn hmac_sha256(
    alloc: Global,
    key: &[u8],
    payload: &[u8],
    mac_size: usize,
) -> KerberosCryptoResult<Vec<u8>>
    ensures mac { MatchResult result (λ mac. mac.items ≡ resized 32 mac_size (hmac_256 key.now payload.now)) (λ e. e ≡ OutOfMemory) }
    ensures size { IfOk result (λ mac. length mac.items ≡ mac_size) }
{
    mac_of::<64, 32, Sha256>(alloc, key, payload, mac_size)
}

/// The first `mac_size` octets of the HMAC-SHA384 of the payload (RFC 2104; in Kerberos RFC 8009, 5), of which there
/// are 48; past these they are zeros.
///
/// A key of more than 128 octets is hashed first, as RFC 2104 says. `OutOfMemory` is the only error.
pub fn hmac_sha384(
    alloc: Global,
    key: &[u8],
    payload: &[u8],
    mac_size: usize,
) -> KerberosCryptoResult<Vec<u8>>
    ensures mac { MatchResult result (λ mac. mac.items ≡ resized 48 mac_size (hmac_384 key.now payload.now)) (λ e. e ≡ OutOfMemory) }
    ensures size { IfOk result (λ mac. length mac.items ≡ mac_size) }
{
    mac_of::<128, 48, Sha384>(alloc, key, payload, mac_size)
}
