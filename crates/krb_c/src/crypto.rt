//! Cryptography.

ghost use Rattle.krb_c_calls.specs.Handing.{IsAnswered};
ghost use Rattle.krb_c_calls.specs.Calls.{IsEncryption, RefusesEncryption, IsDecryption, RefusesDecryption};
ghost use Rattle.krb_c_calls.specs.Checksums.{IsChecksum, RefusesChecksum, IsVerification};
ghost use Rattle.krb_c_calls.specs.Keys.{IsKeyOfPassword, RefusesPassword, IsKeyOfSeed, RefusesSeed, IsFolding};

use std::alloc::Global;

/// `krb_encrypt` of `krb.h`.
#[unsafe(no_mangle)]
pub extern "C" fn krb_encrypt(
    alloc: Global,
    etype: i32,
    key: &[u8],
    usage: i32,
    confounder: &[u8],
    payload: &[u8],
    out: &mut [u8],
    size: &mut usize,
) -> u32
    ensures { IsAnswered (IsEncryption etype key.now usage confounder.now payload.now)
        (RefusesEncryption etype key.now confounder.now) out.old out.new size.new result }
{
    krb_c_calls::encrypt(alloc, etype, key, usage, confounder, payload, out, size)
}

/// `krb_decrypt` of `krb.h`.
#[unsafe(no_mangle)]
pub extern "C" fn krb_decrypt(
    alloc: Global,
    etype: i32,
    key: &[u8],
    usage: i32,
    sealed: &[u8],
    out: &mut [u8],
    size: &mut usize,
) -> u32
    ensures { IsAnswered (IsDecryption etype key.now usage sealed.now)
        (RefusesDecryption etype key.now usage sealed.now) out.old out.new size.new result }
{
    krb_c_calls::decrypt(alloc, etype, key, usage, sealed, out, size)
}

/// `krb_string_to_key` of `krb.h`.
#[unsafe(no_mangle)]
pub extern "C" fn krb_string_to_key(
    alloc: Global,
    etype: i32,
    password: &[u8],
    salt: &[u8],
    out: &mut [u8],
    size: &mut usize,
) -> u32
    ensures { IsAnswered (IsKeyOfPassword etype password.now salt.now)
        (RefusesPassword etype password.now salt.now) out.old out.new size.new result }
{
    krb_c_calls::string_to_key(alloc, etype, password, salt, out, size)
}

/// `krb_random_to_key` of `krb.h`.
#[unsafe(no_mangle)]
pub extern "C" fn krb_random_to_key(
    alloc: Global,
    etype: i32,
    seed: &[u8],
    out: &mut [u8],
    size: &mut usize,
) -> u32
    ensures { IsAnswered (IsKeyOfSeed etype seed.now) (RefusesSeed etype seed.now) out.old out.new size.new result }
{
    krb_c_calls::random_to_key(alloc, etype, seed, out, size)
}

/// `krb_checksum` of `krb.h`.
#[unsafe(no_mangle)]
pub extern "C" fn krb_checksum(
    alloc: Global,
    cksumtype: i32,
    key: &[u8],
    usage: i32,
    message: &[u8],
    out: &mut [u8],
    size: &mut usize,
) -> u32
    ensures { IsAnswered (IsChecksum cksumtype key.now usage message.now)
        (RefusesChecksum cksumtype key.now) out.old out.new size.new result }
{
    krb_c_calls::checksum(alloc, cksumtype, key, usage, message, out, size)
}

/// `krb_verify_checksum` of `krb.h`.
#[unsafe(no_mangle)]
pub extern "C" fn krb_verify_checksum(
    cksumtype: i32,
    key: &[u8],
    usage: i32,
    message: &[u8],
    checksum: &[u8],
) -> u32
    ensures { IsVerification cksumtype key.now usage message.now checksum.now result }
{
    krb_c_calls::verify_checksum(cksumtype, key, usage, message, checksum)
}

/// `krb_n_fold` of `krb.h`.
#[unsafe(no_mangle)]
pub extern "C" fn krb_n_fold(input: &[u8], out: &mut [u8]) -> u32
    ensures { IsFolding input.now out.old out.new result }
{
    krb_c_calls::n_fold(input, out)
}
