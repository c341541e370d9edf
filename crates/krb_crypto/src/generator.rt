//! Encryption under a confounder that a generator gives.

ghost use Rattle.std.specs.Prelude.{◌≡◌, ◌⊎◌, length, IfOk, IfErr, IsErrAnd};
ghost use Rattle.krb_crypto_hash.specs.CryptoError.{RejectsKey};
ghost use Rattle.krb_crypto_hash.specs.declared.error.KerberosCryptoError.TheVariants.{OutOfMemory};
ghost use Rattle.krb_crypto_message.specs.Sealing.{IsTheOne};
ghost use Rattle.rand_core.specs.Stream.{fill_bytes};

use crate::Cipher;
use krb_crypto_block::KerberosCryptoResult;
use rand_core::Rng;
use std::alloc::Global;

/// The payload, encrypted by the cipher under a confounder of `confounder_size` octets, which the generator gives at one
/// call, and the integrity checksum after it.
///
/// A key of another length than `key_size` octets is `KeyLength`; `OutOfMemory` is the only other error. The generator has given
/// the confounder then too. Only where the result is `OutOfMemory` it may be as before.
pub fn encrypt_with_rng<R: Rng>(
    alloc: Global,
    cipher: &dyn Cipher,
    key: &[u8],
    key_usage: i32,
    payload: &[u8],
    rng: &mut R,
) -> KerberosCryptoResult<Vec<u8>>
    ensures key { IfOk result (λ _. length key.now ≡ key_octets cipher.now) }
    ensures sealed { IfOk result (λ octets. IsTheOne
        (meaning cipher.now key.now key_usage (fill_bytes (confounder_octets cipher.now) (R.stream rng.old)).0 payload.now) octets.items) }
    ensures rejected { IfErr result (RejectsKey (key_octets cipher.now) key.now) }
    ensures stream { (R.stream rng.new ≡ (fill_bytes (confounder_octets cipher.now) (R.stream rng.old)).1)
        ⊎ (IsErrAnd result (λ e. e ≡ OutOfMemory) × (rng.new ≡ rng.old)) }
{
    let mut confounder = vec![in alloc; 0; cipher.confounder_size()]?;
    rng.fill_bytes(&mut confounder);
    cipher.encrypt(alloc, key, key_usage, payload, &confounder)
}
