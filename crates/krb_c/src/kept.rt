//! Kept keys.

ghost use Rattle.std.specs.Prelude.{◌≡◌, ℕ, ℤ, List};
ghost use Rattle.krb_crypto.specs.Suites.{NoSuite};
ghost use Rattle.krb_c_calls.specs.Calls.{IsEncryption, RefusesEncryption, IsDecryption, RefusesDecryption};
ghost use Rattle.krb_c_calls.specs.Checksums.{IsVerification};
ghost use Rattle.krb_c_calls.specs.Handing.{IsAnswered, IsHandedOut, IsKept};
ghost use Rattle.krb_c_calls.specs.Kept.{IsKeeping, IsKeptKey};
ghost use Rattle.krb_c_calls.specs.KeptChecksums.{IsChecksumKeeping, IsKeptChecksumKey};
ghost use Rattle.krb_c_calls.specs.KeptChecksums.{IsChecksumPut, IsSumOfKept, IsVerificationOfKept, RefusesKept};
ghost use Rattle.krb_c_calls.specs.Numbers.{etype_number};

use krb_c_calls::{KeptChecksumKey, KeptKey};
use std::alloc::Global;

/// `krb_keep_key` of `krb.h`.
#[unsafe(no_mangle)]
pub extern "C" fn krb_keep_key(etype: i32, key: &[u8], usage: i32, kept: &mut KeptKey) -> u32
    ensures { IsKeeping etype key.now usage kept.old kept.new result }
{
    krb_c_calls::keep_key(etype, key, usage, kept)
}

/// `krb_encrypt_kept` of `krb.h`.
#[unsafe(no_mangle)]
pub extern "C" fn krb_encrypt_kept(
    alloc: Global,
    kept: &KeptKey,
    confounder: &[u8],
    payload: &[u8],
    out: &mut [u8],
    size: &mut usize,
) -> u32
    ensures kept { (key : List ℕ) (usage : ℤ) → IsKeptKey key usage kept.now
        → IsAnswered (IsEncryption kept.now.etype key usage confounder.now payload.now)
        (RefusesEncryption kept.now.etype key confounder.now) out.old out.new size.new result }
    ensures number { NoSuite etype_number kept.now.etype → (result ≡ 3) × IsKept out.old out.new size.new }
    ensures handed { IsHandedOut out.old out.new size.new result }
{
    krb_c_calls::encrypt_kept(alloc, kept, confounder, payload, out, size)
}

/// `krb_decrypt_kept` of `krb.h`.
#[unsafe(no_mangle)]
pub extern "C" fn krb_decrypt_kept(
    alloc: Global,
    kept: &KeptKey,
    sealed: &[u8],
    out: &mut [u8],
    size: &mut usize,
) -> u32
    ensures kept { (key : List ℕ) (usage : ℤ) → IsKeptKey key usage kept.now
        → IsAnswered (IsDecryption kept.now.etype key usage sealed.now)
        (RefusesDecryption kept.now.etype key usage sealed.now) out.old out.new size.new result }
    ensures number { NoSuite etype_number kept.now.etype → (result ≡ 3) × IsKept out.old out.new size.new }
    ensures handed { IsHandedOut out.old out.new size.new result }
{
    krb_c_calls::decrypt_kept(alloc, kept, sealed, out, size)
}

/// `krb_keep_checksum_key` of `krb.h`.
#[unsafe(no_mangle)]
pub extern "C" fn krb_keep_checksum_key(
    alloc: Global,
    cksumtype: i32,
    key: &[u8],
    usage: i32,
    kept: &mut KeptChecksumKey,
) -> u32
    ensures { IsChecksumKeeping cksumtype key.now usage kept.old kept.new result }
{
    krb_c_calls::keep_checksum_key(alloc, cksumtype, key, usage, kept)
}

/// `krb_checksum_kept` of `krb.h`.
#[unsafe(no_mangle)]
pub extern "C" fn krb_checksum_kept(
    kept: &KeptChecksumKey,
    message: &[u8],
    out: &mut [u8],
    size: &mut usize,
) -> u32
    ensures kept { (key : List ℕ) (usage : ℤ) → IsKeptChecksumKey key usage kept.now
        → IsChecksumPut kept.now.cksumtype key usage message.now out.old out.new size.new result }
    ensures answered { IsAnswered (IsSumOfKept kept.now message.now) (RefusesKept kept.now)
        out.old out.new size.new result }
{
    krb_c_calls::checksum_kept(kept, message, out, size)
}

/// `krb_verify_checksum_kept` of `krb.h`.
#[unsafe(no_mangle)]
pub extern "C" fn krb_verify_checksum_kept(
    kept: &KeptChecksumKey,
    message: &[u8],
    checksum: &[u8],
) -> u32
    ensures kept { (key : List ℕ) (usage : ℤ) → IsKeptChecksumKey key usage kept.now
        → IsVerification kept.now.cksumtype key usage message.now checksum.now result }
    ensures answered { IsVerificationOfKept kept.now message.now checksum.now result }
{
    krb_c_calls::verify_checksum_kept(kept, message, checksum)
}
