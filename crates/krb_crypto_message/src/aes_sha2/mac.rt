//! The length of the checksums of the suites of RFC 8009.

ghost use Rattle.std.specs.Prelude.{◌≡◌};
ghost use Rattle.krb_crypto_message.specs.AesSha2.{sha2_checksum_octets};

use krb_crypto_block::AesSize;

/// The octets of a checksum under keys of 16 octets (RFC 8009, 5): 128 bits.
const SHA256_MAC_SIZE: usize = 16;

/// The octets of a checksum under keys of 32 octets: 192 bits.
const SHA384_MAC_SIZE: usize = 24;

/// The octets of a checksum, and of the keys Ki and Kc (RFC 8009, 5): 16 under keys of 16 octets, 24 under keys of 32.
pub fn checksum_size(size: &AesSize) -> usize
    ensures { result ≡ sha2_checksum_octets size.now }
{
    match size {
        AesSize::Aes128 => SHA256_MAC_SIZE,
        AesSize::Aes256 => SHA384_MAC_SIZE,
    }
}
