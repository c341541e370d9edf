//! Sizes, in octets.

ghost use Rattle.krb_crypto.specs.BySuite.{key_octets_of, confounder_octets_of, checksum_key_octets_of};
ghost use Rattle.krb_c_calls.specs.Numbers.{etype_number, checksum_number};
ghost use Rattle.krb_c_calls.specs.Keys.{seed_octets_of};
ghost use Rattle.krb_c_calls.specs.Sizes.{IsSizeOf, IsEncryptedSize, sum_octets_of};

/// `krb_key_size` of `krb.h`.
#[unsafe(no_mangle)]
pub extern "C" fn krb_key_size(etype: i32) -> usize
    ensures { IsSizeOf etype_number key_octets_of etype result }
{
    krb_c_calls::key_size(etype)
}

/// `krb_seed_size` of `krb.h`.
#[unsafe(no_mangle)]
pub extern "C" fn krb_seed_size(etype: i32) -> usize
    ensures { IsSizeOf etype_number seed_octets_of etype result }
{
    krb_c_calls::seed_size(etype)
}

/// `krb_confounder_size` of `krb.h`.
#[unsafe(no_mangle)]
pub extern "C" fn krb_confounder_size(etype: i32) -> usize
    ensures { IsSizeOf etype_number confounder_octets_of etype result }
{
    krb_c_calls::confounder_size(etype)
}

/// `krb_encrypted_size` of `krb.h`.
#[unsafe(no_mangle)]
pub extern "C" fn krb_encrypted_size(etype: i32, payload_size: usize) -> usize
    ensures { IsEncryptedSize etype payload_size result }
{
    krb_c_calls::encrypted_size(etype, payload_size)
}

/// `krb_checksum_size` of `krb.h`.
#[unsafe(no_mangle)]
pub extern "C" fn krb_checksum_size(cksumtype: i32) -> usize
    ensures { IsSizeOf checksum_number sum_octets_of cksumtype result }
{
    krb_c_calls::checksum_size(cksumtype)
}

/// `krb_checksum_key_size` of `krb.h`.
#[unsafe(no_mangle)]
pub extern "C" fn krb_checksum_key_size(cksumtype: i32) -> usize
    ensures { IsSizeOf checksum_number checksum_key_octets_of cksumtype result }
{
    krb_c_calls::checksum_key_size(cksumtype)
}
