//! The suites as ciphers: each is the cipher that its number names.

ghost use Rattle.std.specs.Prelude.{◌≡◌};

use crate::checksum_suite::ChecksumSuite;
use crate::cipher::Cipher;
use crate::cipher_suite::CipherSuite;
use crate::confounder::confounder_of;
use krb_crypto_block::{
    AES_BLOCK_SIZE, AES128_KEY_SIZE, AES256_KEY_SIZE, AesSize, DES3_BLOCK_SIZE, DES3_KEY_SIZE,
    DES3_SEED_LEN, KerberosCryptoResult,
};
use krb_crypto_message::{DecryptWithoutChecksum, EncryptWithoutChecksum, aes, aes_sha2, des};
use std::alloc::Global;

/// The octets to a multiple of which a payload is padded under AES: ciphertext stealing pads none.
const AES_FILL_SIZE: usize = 1;

impl Cipher for CipherSuite {
    ghost use Rattle.krb_crypto.specs.BySuite.{IsSealed, key_octets_of, confounder_octets_of, padding_octets_of, checksum_octets_of};
    ghost use Rattle.krb_crypto.specs.BySuite.{integrity_key_of, integrity_checksum_of, seed_bits_of, key_of_seed_of};
    ghost use Rattle.krb_crypto.specs.BySuite.{IsPasswordKey, error_of, IsNoPassword, checksum_suite_of};

    ghost meaning = { IsSealed };

    ghost key_octets = { key_octets_of };

    ghost confounder_octets = { confounder_octets_of };

    ghost padding_octets = { padding_octets_of };

    ghost checksum_octets = { checksum_octets_of };

    ghost integrity_key = { integrity_key_of };

    ghost integrity_checksum = { integrity_checksum_of };

    ghost seed_bits = { seed_bits_of };

    ghost key_of_seed = { key_of_seed_of };

    ghost password_key = { IsPasswordKey };

    ghost unopened = { λ suite key _ octets e. e ≡ error_of suite key octets };

    ghost no_password_key = { IsNoPassword };

    ghost encryption_type = { λ suite. suite };

    ghost keyed_checksum_type = { checksum_suite_of };

    fn key_size(&self) -> usize {
        match self {
            CipherSuite::Aes128CtsHmacSha196 => AES128_KEY_SIZE,
            CipherSuite::Aes256CtsHmacSha196 => AES256_KEY_SIZE,
            CipherSuite::Des3CbcSha1Kd => DES3_KEY_SIZE,
            CipherSuite::Aes128CtsHmacSha256128 => AES128_KEY_SIZE,
            CipherSuite::Aes256CtsHmacSha384192 => AES256_KEY_SIZE,
        }
    }

    fn seed_bit_len(&self) -> usize {
        match self {
            CipherSuite::Aes128CtsHmacSha196 => 8 * AES128_KEY_SIZE,
            CipherSuite::Aes256CtsHmacSha196 => 8 * AES256_KEY_SIZE,
            CipherSuite::Des3CbcSha1Kd => 8 * DES3_SEED_LEN,
            CipherSuite::Aes128CtsHmacSha256128 => 8 * AES128_KEY_SIZE,
            CipherSuite::Aes256CtsHmacSha384192 => 8 * AES256_KEY_SIZE,
        }
    }

    fn confounder_size(&self) -> usize {
        match self {
            CipherSuite::Aes128CtsHmacSha196 => AES_BLOCK_SIZE,
            CipherSuite::Aes256CtsHmacSha196 => AES_BLOCK_SIZE,
            CipherSuite::Des3CbcSha1Kd => DES3_BLOCK_SIZE,
            CipherSuite::Aes128CtsHmacSha256128 => AES_BLOCK_SIZE,
            CipherSuite::Aes256CtsHmacSha384192 => AES_BLOCK_SIZE,
        }
    }

    fn fill_size(&self) -> usize {
        match self {
            CipherSuite::Aes128CtsHmacSha196 => AES_FILL_SIZE,
            CipherSuite::Aes256CtsHmacSha196 => AES_FILL_SIZE,
            CipherSuite::Des3CbcSha1Kd => DES3_BLOCK_SIZE,
            CipherSuite::Aes128CtsHmacSha256128 => AES_FILL_SIZE,
            CipherSuite::Aes256CtsHmacSha384192 => AES_FILL_SIZE,
        }
    }

    fn cipher_type(&self) -> CipherSuite {
        match self {
            CipherSuite::Aes128CtsHmacSha196 => CipherSuite::Aes128CtsHmacSha196,
            CipherSuite::Aes256CtsHmacSha196 => CipherSuite::Aes256CtsHmacSha196,
            CipherSuite::Des3CbcSha1Kd => CipherSuite::Des3CbcSha1Kd,
            CipherSuite::Aes128CtsHmacSha256128 => CipherSuite::Aes128CtsHmacSha256128,
            CipherSuite::Aes256CtsHmacSha384192 => CipherSuite::Aes256CtsHmacSha384192,
        }
    }

    fn checksum_type(&self) -> ChecksumSuite {
        match self {
            CipherSuite::Aes128CtsHmacSha196 => ChecksumSuite::HmacSha196Aes128,
            CipherSuite::Aes256CtsHmacSha196 => ChecksumSuite::HmacSha196Aes256,
            CipherSuite::Des3CbcSha1Kd => ChecksumSuite::HmacSha1Des3Kd,
            CipherSuite::Aes128CtsHmacSha256128 => ChecksumSuite::HmacSha256128Aes128,
            CipherSuite::Aes256CtsHmacSha384192 => ChecksumSuite::HmacSha384192Aes256,
        }
    }

    fn encrypt(
        &self,
        alloc: Global,
        key: &[u8],
        key_usage: i32,
        payload: &[u8],
        confounder: &[u8],
    ) -> KerberosCryptoResult<Vec<u8>> {
        match self {
            CipherSuite::Aes128CtsHmacSha196 => {
                let block = confounder_of(confounder);
                aes::encrypt_message(alloc, key, key_usage, payload, &AesSize::Aes128, block)
            }
            CipherSuite::Aes256CtsHmacSha196 => {
                let block = confounder_of(confounder);
                aes::encrypt_message(alloc, key, key_usage, payload, &AesSize::Aes256, block)
            }
            CipherSuite::Des3CbcSha1Kd => {
                let block = confounder_of(confounder);
                des::encrypt_message(alloc, key, key_usage, payload, block)
            }
            CipherSuite::Aes128CtsHmacSha256128 => {
                let block = confounder_of(confounder);
                aes_sha2::encrypt_message(alloc, key, key_usage, payload, &AesSize::Aes128, block)
            }
            CipherSuite::Aes256CtsHmacSha384192 => {
                let block = confounder_of(confounder);
                aes_sha2::encrypt_message(alloc, key, key_usage, payload, &AesSize::Aes256, block)
            }
        }
    }

    fn decrypt(
        &self,
        alloc: Global,
        key: &[u8],
        key_usage: i32,
        cipher_data: &[u8],
    ) -> KerberosCryptoResult<Vec<u8>> {
        match self {
            CipherSuite::Aes128CtsHmacSha196 => {
                aes::decrypt_message(alloc, key, key_usage, cipher_data, &AesSize::Aes128)
            }
            CipherSuite::Aes256CtsHmacSha196 => {
                aes::decrypt_message(alloc, key, key_usage, cipher_data, &AesSize::Aes256)
            }
            CipherSuite::Des3CbcSha1Kd => des::decrypt_message(alloc, key, key_usage, cipher_data),
            CipherSuite::Aes128CtsHmacSha256128 => {
                aes_sha2::decrypt_message(alloc, key, key_usage, cipher_data, &AesSize::Aes128)
            }
            CipherSuite::Aes256CtsHmacSha384192 => {
                aes_sha2::decrypt_message(alloc, key, key_usage, cipher_data, &AesSize::Aes256)
            }
        }
    }

    fn encrypt_no_checksum(
        &self,
        alloc: Global,
        key: &[u8],
        key_usage: i32,
        payload: &[u8],
        confounder: &[u8],
    ) -> KerberosCryptoResult<EncryptWithoutChecksum> {
        match self {
            CipherSuite::Aes128CtsHmacSha196 => {
                let block = confounder_of(confounder);
                let size = &AesSize::Aes128;
                aes::encrypt_message_no_checksum(alloc, key, key_usage, payload, size, block)
            }
            CipherSuite::Aes256CtsHmacSha196 => {
                let block = confounder_of(confounder);
                let size = &AesSize::Aes256;
                aes::encrypt_message_no_checksum(alloc, key, key_usage, payload, size, block)
            }
            CipherSuite::Des3CbcSha1Kd => {
                let block = confounder_of(confounder);
                des::encrypt_message_no_checksum(alloc, key, key_usage, payload, block)
            }
            CipherSuite::Aes128CtsHmacSha256128 => {
                let block = confounder_of(confounder);
                let size = &AesSize::Aes128;
                aes_sha2::encrypt_message_no_checksum(alloc, key, key_usage, payload, size, block)
            }
            CipherSuite::Aes256CtsHmacSha384192 => {
                let block = confounder_of(confounder);
                let size = &AesSize::Aes256;
                aes_sha2::encrypt_message_no_checksum(alloc, key, key_usage, payload, size, block)
            }
        }
    }

    fn decrypt_no_checksum(
        &self,
        alloc: Global,
        key: &[u8],
        key_usage: i32,
        cipher_data: &[u8],
    ) -> KerberosCryptoResult<DecryptWithoutChecksum> {
        match self {
            CipherSuite::Aes128CtsHmacSha196 => {
                let size = &AesSize::Aes128;
                aes::decrypt_message_no_checksum(alloc, key, key_usage, cipher_data, size)
            }
            CipherSuite::Aes256CtsHmacSha196 => {
                let size = &AesSize::Aes256;
                aes::decrypt_message_no_checksum(alloc, key, key_usage, cipher_data, size)
            }
            CipherSuite::Des3CbcSha1Kd => {
                des::decrypt_message_no_checksum(alloc, key, key_usage, cipher_data)
            }
            CipherSuite::Aes128CtsHmacSha256128 => {
                let size = &AesSize::Aes128;
                aes_sha2::decrypt_message_no_checksum(alloc, key, key_usage, cipher_data, size)
            }
            CipherSuite::Aes256CtsHmacSha384192 => {
                let size = &AesSize::Aes256;
                aes_sha2::decrypt_message_no_checksum(alloc, key, key_usage, cipher_data, size)
            }
        }
    }

    fn encryption_checksum(
        &self,
        alloc: Global,
        key: &[u8],
        key_usage: i32,
        payload: &[u8],
    ) -> KerberosCryptoResult<Vec<u8>> {
        match self {
            CipherSuite::Aes128CtsHmacSha196 => {
                aes::integrity_checksum(alloc, key, key_usage, payload, &AesSize::Aes128)
            }
            CipherSuite::Aes256CtsHmacSha196 => {
                aes::integrity_checksum(alloc, key, key_usage, payload, &AesSize::Aes256)
            }
            CipherSuite::Des3CbcSha1Kd => des::integrity_checksum(alloc, key, key_usage, payload),
            CipherSuite::Aes128CtsHmacSha256128 => {
                aes_sha2::integrity_checksum(alloc, key, key_usage, payload, &AesSize::Aes128)
            }
            CipherSuite::Aes256CtsHmacSha384192 => {
                aes_sha2::integrity_checksum(alloc, key, key_usage, payload, &AesSize::Aes256)
            }
        }
    }

    fn generate_key_from_password(
        &self,
        alloc: Global,
        password: &[u8],
        salt: &[u8],
    ) -> KerberosCryptoResult<Vec<u8>> {
        match self {
            CipherSuite::Aes128CtsHmacSha196 => {
                aes::derive_key_from_password(alloc, password, salt, &AesSize::Aes128)
            }
            CipherSuite::Aes256CtsHmacSha196 => {
                aes::derive_key_from_password(alloc, password, salt, &AesSize::Aes256)
            }
            CipherSuite::Des3CbcSha1Kd => des::derive_key_from_password(alloc, password, salt),
            CipherSuite::Aes128CtsHmacSha256128 => {
                aes_sha2::derive_key_from_password(alloc, password, salt, &AesSize::Aes128)
            }
            CipherSuite::Aes256CtsHmacSha384192 => {
                aes_sha2::derive_key_from_password(alloc, password, salt, &AesSize::Aes256)
            }
        }
    }

    fn random_to_key(&self, alloc: Global, key: Vec<u8>) -> KerberosCryptoResult<Vec<u8>> {
        match self {
            CipherSuite::Aes128CtsHmacSha196 => Ok(aes::random_to_key(key)),
            CipherSuite::Aes256CtsHmacSha196 => Ok(aes::random_to_key(key)),
            CipherSuite::Des3CbcSha1Kd => des::random_to_key(alloc, &key),
            CipherSuite::Aes128CtsHmacSha256128 => Ok(aes_sha2::random_to_key(key)),
            CipherSuite::Aes256CtsHmacSha384192 => Ok(aes_sha2::random_to_key(key)),
        }
    }
}
