//! The AES block cipher (FIPS 197), for keys of 16 and of 32 octets, by vector permutes: no memory is read at an address that depends
//! on a key or on a block.

ghost use Rattle.std.specs.Prelude.{◌≡◌, ◌*◌};
ghost use Rattle.krb_crypto_block.specs.Size.{key_octets};

mod inverse_rounds;
mod keys;
mod nibbles;
mod round_keys;
mod rounds;
mod tables;

pub use keys::{AesDecryptionKey, AesEncryptionKey, AesKey};

/// The octets of a block (FIPS 197, 3.1).
pub const AES_BLOCK_SIZE: usize = 16;

/// The octets of an integrity checksum (RFC 3962, 6): 96 bits.
pub const AES_MAC_SIZE: usize = 12;

/// The octets of a key of AES128.
pub const AES128_KEY_SIZE: usize = 16;

/// The octets of a key of AES256.
pub const AES256_KEY_SIZE: usize = 32;

/// The two sizes of a key that Kerberos uses (RFC 3962, 6).
#[derive(Debug, Drop, Clone, PartialEq, Eq)]
pub enum AesSize {
    /// Keys of 32 octets.
    Aes256,
    /// Keys of 16 octets.
    Aes128,
}

impl AesSize {
    /// The octets of a key.
    pub fn key_length(&self) -> usize
        ensures { result ≡ key_octets self.now }
    {
        match self {
            AesSize::Aes256 => AES256_KEY_SIZE,
            AesSize::Aes128 => AES128_KEY_SIZE,
        }
    }

    /// The bits of a block.
    pub fn block_bit_len(&self) -> usize
        ensures { result ≡ 128 }
    {
        8 * AES_BLOCK_SIZE
    }

    /// The bits of a seed, which are those of a key (RFC 3962, 6).
    pub fn seed_bit_len(&self) -> usize
        ensures { result ≡ 8 * key_octets self.now }
    {
        8 * self.key_length()
    }
}
