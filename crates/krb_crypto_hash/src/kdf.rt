//! Keys from keys by HMAC with SHA-2 (RFC 8009, 3).

ghost use Rattle.std.specs.Prelude.{◌≡◌, ℕ, List, ◌*◌, ◌/◌, ◌%◌, ◌≤◌, length, IfOk, MatchResult};
ghost use Rattle.krb_crypto_hash.specs.Hmac.{AreSizes, hmac_over, IsReady};
ghost use Rattle.krb_crypto_hash.specs.Kdf.{kdf_message, kdf_256, kdf_384};
ghost use Rattle.krb_crypto_hash.specs.declared.error.KerberosCryptoError.TheVariants.{OutOfMemory};

use crate::error::KerberosCryptoResult;
use crate::hash::HashFunction;
use crate::hmac::keyed;
use sha2::{Sha256, Sha384};
use std::alloc::Global;

/// The number of the one block that is made (RFC 8009, 3).
const COUNTER: u32 = 1;

/// The octet between the label and the number of bits (RFC 8009, 3).
const LABEL_END: u8 = 0;

/// The key of `bits` bits that KDF-HMAC-SHA2 (RFC 8009, 3) with SHA-256 derives from a key for a label.
///
/// The bits are whole octets, from 8 to 256 of them. `OutOfMemory` is the only error.
pub fn kdf_hmac_sha256(
    alloc: Global,
    key: &[u8],
    label: &[u8],
    bits: u32,
) -> KerberosCryptoResult<Vec<u8>>
    requires some { 8 ≤ bits }
    requires most { bits ≤ 256 }
    requires octets { bits % 8 ≡ 0 }
    ensures derived { MatchResult result (λ derived. derived.items ≡ kdf_256 key.now label.now bits) (λ e. e ≡ OutOfMemory) }
    ensures size { IfOk result (λ derived. 8 * length derived.items ≡ bits) }
{
    let block = block_for::<64, 32, Sha256>(key, label, bits);
    Ok(Vec::from_slice(alloc, &block[..bits as usize / 8])?)
}

/// The key of `bits` bits that KDF-HMAC-SHA2 (RFC 8009, 3) with SHA-384 derives from a key for a label.
///
/// The bits are whole octets, from 8 to 384 of them. `OutOfMemory` is the only error.
pub fn kdf_hmac_sha384(
    alloc: Global,
    key: &[u8],
    label: &[u8],
    bits: u32,
) -> KerberosCryptoResult<Vec<u8>>
    requires some { 8 ≤ bits }
    requires most { bits ≤ 384 }
    requires octets { bits % 8 ≡ 0 }
    ensures derived { MatchResult result (λ derived. derived.items ≡ kdf_384 key.now label.now bits) (λ e. e ≡ OutOfMemory) }
    ensures size { IfOk result (λ derived. 8 * length derived.items ≡ bits) }
{
    let block = block_for::<128, 48, Sha384>(key, label, bits);
    Ok(Vec::from_slice(alloc, &block[..bits as usize / 8])?)
}

/// The HMAC under the key whose first octets are the key for this label (RFC 8009, 3). It allocates nothing.
fn block_for<const BLOCK: usize, const SIZE: usize, H: HashFunction<BLOCK, SIZE>>(
    key: &[u8],
    label: &[u8],
    bits: u32,
) -> [u8; SIZE]
    requires { AreSizes BLOCK SIZE }
    ensures { result ≡ hmac_over H.hash BLOCK key.now (kdf_message label.now bits) }
{
    let (inner, outer) = keyed::<BLOCK, SIZE, H>(key);
    block_under(&inner, &outer, label, bits)
}

/// The same, under the key that the hashes have absorbed.
pub(crate) fn block_under<const BLOCK: usize, const SIZE: usize, H: HashFunction<BLOCK, SIZE>>(
    inner: &H,
    outer: &H,
    label: &[u8],
    bits: u32,
) -> [u8; SIZE]
    requires { AreSizes BLOCK SIZE }
    ensures { (key : List ℕ) → IsReady (H.holds inner.now) (H.holds outer.now) H.hash BLOCK key
        → result ≡ hmac_over H.hash BLOCK key (kdf_message label.now bits) }
{
    let mut inner = inner.copy();
    inner.absorb(&COUNTER.to_be_bytes());
    inner.absorb(label);
    inner.absorb(&[LABEL_END]);
    inner.absorb(&bits.to_be_bytes());
    let mut outer = outer.copy();
    outer.absorb(&inner.finish());
    outer.finish()
}
