//! What messages under AES and under triple DES have alike: the octets that are encrypted, and the checksum after them
//! (RFC 3961, 5.3).

ghost use Rattle.std.specs.Prelude.{◌≡◌, ◌≢◌, ◌+◌, ◌≤◌, length, take, drop, ◌++◌, IfOk, IfErr};
ghost use Rattle.krb_crypto_block.specs.Modes.{IsOctets};
ghost use Rattle.krb_crypto_message.specs.MessageSteps.{end_of, EndsInMac};

use crate::without_checksum::{DecryptWithoutChecksum, EncryptWithoutChecksum};
use krb_crypto_block::octets::are_octets;
use krb_crypto_block::{KerberosCryptoError, KerberosCryptoResult};
use krb_crypto_hash::comparison::are_equal;
use krb_crypto_hash::keyed::HmacSha1Key;
use std::alloc::Global;

/// Confounder and payload, concatenated, with room for `spare` octets after them.
pub(crate) fn concatenated(
    alloc: Global,
    confounder: &[u8],
    payload: &[u8],
    spare: usize,
) -> KerberosCryptoResult<Vec<u8>>
    requires few { length confounder.now + spare ≤ 64 }
    ensures concatenated { IfOk result (λ octets. octets.items ≡ confounder.now ++ payload.now) }
    ensures octets { IfOk result (λ octets. IsOctets octets.items) }
    ensures memory { IfErr result (λ e. e ≡ KerberosCryptoError.OutOfMemory) }
{
    let mut octets = Vec::with_capacity(alloc, confounder.len() + payload.len() + spare)?;
    octets.extend_from_slice(confounder)?;
    octets.extend_from_slice(payload)?;
    are_octets(&octets);
    Ok(octets)
}

/// The encrypted octets, the confounder and Ki.
pub(crate) fn without_checksum(
    alloc: Global,
    encrypted: Vec<u8>,
    confounder: &[u8],
    ki: &[u8],
) -> KerberosCryptoResult<EncryptWithoutChecksum>
    ensures encrypted { IfOk result (λ made. made.encrypted.items ≡ encrypted.items) }
    ensures confounder { IfOk result (λ made. made.confounder.items ≡ confounder.now) }
    ensures ki { IfOk result (λ made. made.ki.items ≡ ki.now) }
    ensures memory { IfErr result (λ e. e ≡ KerberosCryptoError.OutOfMemory) }
{
    let confounder = Vec::from_slice(alloc, confounder)?;
    let ki = Vec::from_slice(alloc, ki)?;
    Ok(EncryptWithoutChecksum {
        encrypted,
        confounder,
        ki,
    })
}

/// What is after the confounder, of `prefix` octets, where the last `mac_size` octets of the message are the checksum of all that was
/// decrypted. Else `IntegrityCheck`; nothing is returned before it is compared.
pub(crate) fn checked(
    padded: Vec<u8>,
    ki: &HmacSha1Key,
    cipher_data: &[u8],
    prefix: usize,
    mac_size: usize,
) -> KerberosCryptoResult<Vec<u8>>
    requires cut { mac_size ≤ 20 }
    requires long { mac_size ≤ length cipher_data.now }
    requires prefix { prefix ≤ length padded.items }
    ensures payload { IfOk result (λ payload. EndsInMac mac_size ki.now padded.items cipher_data.now
        × (payload.items ≡ drop prefix padded.items)) }
    ensures rejected { IfErr result (λ e. (¬ EndsInMac mac_size ki.now padded.items cipher_data.now) × (e ≡ KerberosCryptoError.IntegrityCheck)) }
{
    let mac = ki.mac(&padded);
    compared(
        &cipher_data[cipher_data.len() - mac_size..],
        &mac[..mac_size],
    )?;
    Ok(trailing(padded, prefix))
}

/// Whether the two checksums are equal. Else `IntegrityCheck`. All octets are compared, wherever they differ.
pub(crate) fn compared(first: &[u8], second: &[u8]) -> KerberosCryptoResult<()>
    ensures equal { IfOk result (λ _. first.now ≡ second.now) }
    ensures rejected { IfErr result (λ e. (first.now ≢ second.now) × (e ≡ KerberosCryptoError.IntegrityCheck)) }
{
    if are_equal(first, second) {
        Ok(())
    } else {
        Err(KerberosCryptoError::IntegrityCheck)
    }
}

/// The confounder, of `prefix` octets; what is after it; the last `mac_size` octets of the message; and Ki.
pub(crate) fn unchecked(
    alloc: Global,
    padded: Vec<u8>,
    ki: &[u8],
    cipher_data: &[u8],
    prefix: usize,
    mac_size: usize,
) -> KerberosCryptoResult<DecryptWithoutChecksum>
    requires long { mac_size ≤ length cipher_data.now }
    requires prefix { prefix ≤ length padded.items }
    ensures parts { IfOk result (λ made. (made.confounder.items ≡ take prefix padded.items)
        × (made.plaintext.items ≡ drop prefix padded.items)
        × (made.checksum.items ≡ end_of mac_size cipher_data.now)) }
    ensures ki { IfOk result (λ made. made.ki.items ≡ ki.now) }
    ensures memory { IfErr result (λ e. e ≡ KerberosCryptoError.OutOfMemory) }
{
    let before = &padded[..prefix];
    let confounder = Vec::from_slice(alloc, before)?;
    let end = &cipher_data[cipher_data.len() - mac_size..];
    let checksum = Vec::from_slice(alloc, end)?;
    let ki = Vec::from_slice(alloc, ki)?;
    Ok(DecryptWithoutChecksum {
        plaintext: trailing(padded, prefix),
        confounder,
        checksum,
        ki,
    })
}

/// The octets after the first `prefix`, moved to the beginning. It allocates nothing.
pub(crate) fn trailing(octets: Vec<u8>, prefix: usize) -> Vec<u8>
    requires { prefix ≤ length octets.items }
    ensures { result.items ≡ drop prefix octets.items }
{
    let mut octets = octets;
    let count = octets.len() - prefix;
    octets.copy_within(prefix.., 0);
    octets.truncate(count);
    octets
}
