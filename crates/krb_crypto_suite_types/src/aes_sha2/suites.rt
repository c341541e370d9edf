//! The suites of RFC 8009: each type is the cipher of its number.

ghost use Rattle.std.specs.Prelude.{◌≡◌};

use krb_crypto::{
    ChecksumSuite, Cipher, CipherSuite, DecryptWithoutChecksum, EncryptWithoutChecksum,
    KerberosCryptoResult,
};
use std::alloc::Global;

/// aes128-cts-hmac-sha256-128, encryption type 19 (RFC 8009): keys and seeds of 16 octets, confounders of 16, checksums of 16.
#[derive(Debug, Drop, Clone, PartialEq, Eq, Default)]
pub struct Aes128CtsHmacSha256128;

impl Aes128CtsHmacSha256128 {
    /// The suite.
    pub fn new() -> Aes128CtsHmacSha256128 {
        Aes128CtsHmacSha256128
    }
}

impl Cipher for Aes128CtsHmacSha256128 {
    ghost use Rattle.krb_crypto_block.specs.declared.aes.AesSize.TheVariants as size;
    ghost use Rattle.krb_crypto_message.specs.AesSha2.{IsSealedSha2, IsSha2PasswordKey, sha2_ki, sha2_mac, sha2_error};
    ghost use Rattle.krb_crypto.specs.declared.cipher_suite.CipherSuite.TheVariants as cipher;
    ghost use Rattle.krb_crypto.specs.declared.checksum_suite.ChecksumSuite.TheVariants as checksum;

    ghost meaning = { λ _ key usage confounder payload octets. IsSealedSha2 size.Aes128 key usage confounder payload octets };

    ghost key_octets = { λ _. 16 };

    ghost confounder_octets = { λ _. 16 };

    ghost padding_octets = { λ _. 1 };

    ghost checksum_octets = { λ _. 16 };

    ghost integrity_key = { λ _ key usage. sha2_ki size.Aes128 key usage };

    ghost integrity_checksum = { λ _ key usage message. sha2_mac size.Aes128 (sha2_ki size.Aes128 key usage) message };

    ghost seed_bits = { λ _. 128 };

    ghost key_of_seed = { λ _ seed. seed };

    ghost password_key = { λ _ password salt key. IsSha2PasswordKey size.Aes128 password salt key };

    ghost unopened = { λ _ key _ octets e. e ≡ sha2_error size.Aes128 key octets };

    ghost no_password_key = { λ _ _ _ _. ⊥ };

    ghost encryption_type = { λ _. cipher.Aes128CtsHmacSha256128 };

    ghost keyed_checksum_type = { λ _. checksum.HmacSha256128Aes128 };

    fn key_size(&self) -> usize {
        CipherSuite::Aes128CtsHmacSha256128.key_size()
    }

    fn seed_bit_len(&self) -> usize {
        CipherSuite::Aes128CtsHmacSha256128.seed_bit_len()
    }

    fn confounder_size(&self) -> usize {
        CipherSuite::Aes128CtsHmacSha256128.confounder_size()
    }

    fn fill_size(&self) -> usize {
        CipherSuite::Aes128CtsHmacSha256128.fill_size()
    }

    fn cipher_type(&self) -> CipherSuite {
        CipherSuite::Aes128CtsHmacSha256128.cipher_type()
    }

    fn checksum_type(&self) -> ChecksumSuite {
        CipherSuite::Aes128CtsHmacSha256128.checksum_type()
    }

    fn encrypt(
        &self,
        alloc: Global,
        key: &[u8],
        key_usage: i32,
        payload: &[u8],
        confounder: &[u8],
    ) -> KerberosCryptoResult<Vec<u8>> {
        CipherSuite::Aes128CtsHmacSha256128.encrypt(alloc, key, key_usage, payload, confounder)
    }

    fn decrypt(
        &self,
        alloc: Global,
        key: &[u8],
        key_usage: i32,
        cipher_data: &[u8],
    ) -> KerberosCryptoResult<Vec<u8>> {
        CipherSuite::Aes128CtsHmacSha256128.decrypt(alloc, key, key_usage, cipher_data)
    }

    fn encrypt_no_checksum(
        &self,
        alloc: Global,
        key: &[u8],
        key_usage: i32,
        payload: &[u8],
        confounder: &[u8],
    ) -> KerberosCryptoResult<EncryptWithoutChecksum> {
        CipherSuite::Aes128CtsHmacSha256128.encrypt_no_checksum(
            alloc, key, key_usage, payload, confounder,
        )
    }

    fn decrypt_no_checksum(
        &self,
        alloc: Global,
        key: &[u8],
        key_usage: i32,
        cipher_data: &[u8],
    ) -> KerberosCryptoResult<DecryptWithoutChecksum> {
        CipherSuite::Aes128CtsHmacSha256128.decrypt_no_checksum(alloc, key, key_usage, cipher_data)
    }

    fn encryption_checksum(
        &self,
        alloc: Global,
        key: &[u8],
        key_usage: i32,
        payload: &[u8],
    ) -> KerberosCryptoResult<Vec<u8>> {
        CipherSuite::Aes128CtsHmacSha256128.encryption_checksum(alloc, key, key_usage, payload)
    }

    fn generate_key_from_password(
        &self,
        alloc: Global,
        password: &[u8],
        salt: &[u8],
    ) -> KerberosCryptoResult<Vec<u8>> {
        CipherSuite::Aes128CtsHmacSha256128.generate_key_from_password(alloc, password, salt)
    }

    fn random_to_key(&self, alloc: Global, key: Vec<u8>) -> KerberosCryptoResult<Vec<u8>> {
        CipherSuite::Aes128CtsHmacSha256128.random_to_key(alloc, key)
    }
}

/// aes256-cts-hmac-sha384-192, encryption type 20 (RFC 8009): keys and seeds of 32 octets, confounders of 16, checksums of 24.
#[derive(Debug, Drop, Clone, PartialEq, Eq, Default)]
pub struct Aes256CtsHmacSha384192;

impl Aes256CtsHmacSha384192 {
    /// The suite.
    pub fn new() -> Aes256CtsHmacSha384192 {
        Aes256CtsHmacSha384192
    }
}

impl Cipher for Aes256CtsHmacSha384192 {
    ghost use Rattle.krb_crypto_block.specs.declared.aes.AesSize.TheVariants as size;
    ghost use Rattle.krb_crypto_message.specs.AesSha2.{IsSealedSha2, IsSha2PasswordKey, sha2_ki, sha2_mac, sha2_error};
    ghost use Rattle.krb_crypto.specs.declared.cipher_suite.CipherSuite.TheVariants as cipher;
    ghost use Rattle.krb_crypto.specs.declared.checksum_suite.ChecksumSuite.TheVariants as checksum;

    ghost meaning = { λ _ key usage confounder payload octets. IsSealedSha2 size.Aes256 key usage confounder payload octets };

    ghost key_octets = { λ _. 32 };

    ghost confounder_octets = { λ _. 16 };

    ghost padding_octets = { λ _. 1 };

    ghost checksum_octets = { λ _. 24 };

    ghost integrity_key = { λ _ key usage. sha2_ki size.Aes256 key usage };

    ghost integrity_checksum = { λ _ key usage message. sha2_mac size.Aes256 (sha2_ki size.Aes256 key usage) message };

    ghost seed_bits = { λ _. 256 };

    ghost key_of_seed = { λ _ seed. seed };

    ghost password_key = { λ _ password salt key. IsSha2PasswordKey size.Aes256 password salt key };

    ghost unopened = { λ _ key _ octets e. e ≡ sha2_error size.Aes256 key octets };

    ghost no_password_key = { λ _ _ _ _. ⊥ };

    ghost encryption_type = { λ _. cipher.Aes256CtsHmacSha384192 };

    ghost keyed_checksum_type = { λ _. checksum.HmacSha384192Aes256 };

    fn key_size(&self) -> usize {
        CipherSuite::Aes256CtsHmacSha384192.key_size()
    }

    fn seed_bit_len(&self) -> usize {
        CipherSuite::Aes256CtsHmacSha384192.seed_bit_len()
    }

    fn confounder_size(&self) -> usize {
        CipherSuite::Aes256CtsHmacSha384192.confounder_size()
    }

    fn fill_size(&self) -> usize {
        CipherSuite::Aes256CtsHmacSha384192.fill_size()
    }

    fn cipher_type(&self) -> CipherSuite {
        CipherSuite::Aes256CtsHmacSha384192.cipher_type()
    }

    fn checksum_type(&self) -> ChecksumSuite {
        CipherSuite::Aes256CtsHmacSha384192.checksum_type()
    }

    fn encrypt(
        &self,
        alloc: Global,
        key: &[u8],
        key_usage: i32,
        payload: &[u8],
        confounder: &[u8],
    ) -> KerberosCryptoResult<Vec<u8>> {
        CipherSuite::Aes256CtsHmacSha384192.encrypt(alloc, key, key_usage, payload, confounder)
    }

    fn decrypt(
        &self,
        alloc: Global,
        key: &[u8],
        key_usage: i32,
        cipher_data: &[u8],
    ) -> KerberosCryptoResult<Vec<u8>> {
        CipherSuite::Aes256CtsHmacSha384192.decrypt(alloc, key, key_usage, cipher_data)
    }

    fn encrypt_no_checksum(
        &self,
        alloc: Global,
        key: &[u8],
        key_usage: i32,
        payload: &[u8],
        confounder: &[u8],
    ) -> KerberosCryptoResult<EncryptWithoutChecksum> {
        CipherSuite::Aes256CtsHmacSha384192.encrypt_no_checksum(
            alloc, key, key_usage, payload, confounder,
        )
    }

    fn decrypt_no_checksum(
        &self,
        alloc: Global,
        key: &[u8],
        key_usage: i32,
        cipher_data: &[u8],
    ) -> KerberosCryptoResult<DecryptWithoutChecksum> {
        CipherSuite::Aes256CtsHmacSha384192.decrypt_no_checksum(alloc, key, key_usage, cipher_data)
    }

    fn encryption_checksum(
        &self,
        alloc: Global,
        key: &[u8],
        key_usage: i32,
        payload: &[u8],
    ) -> KerberosCryptoResult<Vec<u8>> {
        CipherSuite::Aes256CtsHmacSha384192.encryption_checksum(alloc, key, key_usage, payload)
    }

    fn generate_key_from_password(
        &self,
        alloc: Global,
        password: &[u8],
        salt: &[u8],
    ) -> KerberosCryptoResult<Vec<u8>> {
        CipherSuite::Aes256CtsHmacSha384192.generate_key_from_password(alloc, password, salt)
    }

    fn random_to_key(&self, alloc: Global, key: Vec<u8>) -> KerberosCryptoResult<Vec<u8>> {
        CipherSuite::Aes256CtsHmacSha384192.random_to_key(alloc, key)
    }
}
