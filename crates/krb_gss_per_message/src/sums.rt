//! Checksums of a message and then a token's header (RFC 4121, 4.2.4).

ghost use Rattle.std.specs.Prelude.{◌≡◌, ◌++◌, ℕ, ℤ, List, IsTrue, ◌↔◌, IfOk, IfErr};
ghost use Rattle.krb_crypto.specs.BySuite.{sum_of};
ghost use Rattle.krb_crypto.specs.PreparedKeys.{IsChecksumPreparedFor};

use crate::error::ProtectionError;
use crate::octets::joined;
use krb_crypto::prepared::ChecksumKey;
use std::alloc::Global;

/// The checksum of a message and then a header. `OutOfMemory` is the only error.
pub(crate) fn checksum_of(
    alloc: Global,
    key: &ChecksumKey,
    message: &[u8],
    header: &[u8; 16],
) -> Result<Vec<u8>, ProtectionError>
    ensures checksum { (base : List ℕ) (usage : ℤ) → IsChecksumPreparedFor base usage key.now
        → IfOk result (λ checksum. checksum.items ≡ sum_of key.now.suite base usage (message.now ++ header.now)) }
    ensures memory { IfErr result (λ e. e ≡ ProtectionError.OutOfMemory) }
{
    let signed = joined(alloc, message, header)?;
    match key.checksum(alloc, &signed) {
        Ok(checksum) => Ok(checksum),
        Err(_) => Err(ProtectionError::OutOfMemory),
    }
}

/// Whether these octets are the checksum of a message and then a header. `OutOfMemory` is the only error.
pub(crate) fn is_checksum_of(
    alloc: Global,
    key: &ChecksumKey,
    message: &[u8],
    header: &[u8; 16],
    checksum: &[u8],
) -> Result<bool, ProtectionError>
    ensures equal { (base : List ℕ) (usage : ℤ) → IsChecksumPreparedFor base usage key.now
        → IfOk result (λ holds. IsTrue holds ↔ checksum.now ≡ sum_of key.now.suite base usage (message.now ++ header.now)) }
    ensures memory { IfErr result (λ e. e ≡ ProtectionError.OutOfMemory) }
{
    let signed = joined(alloc, message, header)?;
    Ok(key.verify(&signed, checksum).is_ok())
}
