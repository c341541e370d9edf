//! The AES suites of RFC 3962: each type is the cipher of its number.

ghost use Rattle.std.specs.Prelude.{◌≡◌};

use krb_crypto::{
    ChecksumSuite, Cipher, CipherSuite, DecryptWithoutChecksum, EncryptWithoutChecksum,
    KerberosCryptoResult,
};
use std::alloc::Global;

/// aes128-cts-hmac-sha1-96, encryption type 17 (RFC 3962): keys and seeds of 16 octets, confounders of 16, checksums of 12.
#[derive(Debug, Drop, Clone, PartialEq, Eq, Default)]
pub struct Aes128CtsHmacSha196;

impl Aes128CtsHmacSha196 {
    /// The suite.
    pub fn new() -> Aes128CtsHmacSha196 {
        Aes128CtsHmacSha196
    }
}

impl Cipher for Aes128CtsHmacSha196 {
    ghost use Rattle.krb_crypto_message.specs.Derive.{IsAesPasswordKey};
    ghost use Rattle.krb_crypto_message.specs.Sealed.{IsSealedAes, aes_ki, mac_96, aes_error};
    ghost use Rattle.krb_crypto.specs.declared.cipher_suite.CipherSuite.TheVariants as cipher;
    ghost use Rattle.krb_crypto.specs.declared.checksum_suite.ChecksumSuite.TheVariants as checksum;

    ghost meaning = { λ _ key usage confounder payload octets. IsSealedAes key usage confounder payload octets };

    ghost key_octets = { λ _. 16 };

    ghost confounder_octets = { λ _. 16 };

    ghost padding_octets = { λ _. 1 };

    ghost checksum_octets = { λ _. 12 };

    ghost integrity_key = { λ _ key usage. aes_ki key usage };

    ghost integrity_checksum = { λ _ key usage message. mac_96 (aes_ki key usage) message };

    ghost seed_bits = { λ _. 128 };

    ghost key_of_seed = { λ _ seed. seed };

    ghost password_key = { λ _ password salt key. IsAesPasswordKey 16 password salt key };

    ghost unopened = { λ _ key _ octets e. e ≡ aes_error 16 key octets };

    ghost no_password_key = { λ _ _ _ _. ⊥ };

    ghost encryption_type = { λ _. cipher.Aes128CtsHmacSha196 };

    ghost keyed_checksum_type = { λ _. checksum.HmacSha196Aes128 };

    fn key_size(&self) -> usize {
        CipherSuite::Aes128CtsHmacSha196.key_size()
    }

    fn seed_bit_len(&self) -> usize {
        CipherSuite::Aes128CtsHmacSha196.seed_bit_len()
    }

    fn confounder_size(&self) -> usize {
        CipherSuite::Aes128CtsHmacSha196.confounder_size()
    }

    fn fill_size(&self) -> usize {
        CipherSuite::Aes128CtsHmacSha196.fill_size()
    }

    fn cipher_type(&self) -> CipherSuite {
        CipherSuite::Aes128CtsHmacSha196.cipher_type()
    }

    fn checksum_type(&self) -> ChecksumSuite {
        CipherSuite::Aes128CtsHmacSha196.checksum_type()
    }

    fn encrypt(
        &self,
        alloc: Global,
        key: &[u8],
        key_usage: i32,
        payload: &[u8],
        confounder: &[u8],
    ) -> KerberosCryptoResult<Vec<u8>> {
        CipherSuite::Aes128CtsHmacSha196.encrypt(alloc, key, key_usage, payload, confounder)
    }

    fn decrypt(
        &self,
        alloc: Global,
        key: &[u8],
        key_usage: i32,
        cipher_data: &[u8],
    ) -> KerberosCryptoResult<Vec<u8>> {
        CipherSuite::Aes128CtsHmacSha196.decrypt(alloc, key, key_usage, cipher_data)
    }

    fn encrypt_no_checksum(
        &self,
        alloc: Global,
        key: &[u8],
        key_usage: i32,
        payload: &[u8],
        confounder: &[u8],
    ) -> KerberosCryptoResult<EncryptWithoutChecksum> {
        CipherSuite::Aes128CtsHmacSha196.encrypt_no_checksum(
            alloc, key, key_usage, payload, confounder,
        )
    }

    fn decrypt_no_checksum(
        &self,
        alloc: Global,
        key: &[u8],
        key_usage: i32,
        cipher_data: &[u8],
    ) -> KerberosCryptoResult<DecryptWithoutChecksum> {
        CipherSuite::Aes128CtsHmacSha196.decrypt_no_checksum(alloc, key, key_usage, cipher_data)
    }

    fn encryption_checksum(
        &self,
        alloc: Global,
        key: &[u8],
        key_usage: i32,
        payload: &[u8],
    ) -> KerberosCryptoResult<Vec<u8>> {
        CipherSuite::Aes128CtsHmacSha196.encryption_checksum(alloc, key, key_usage, payload)
    }

    fn generate_key_from_password(
        &self,
        alloc: Global,
        password: &[u8],
        salt: &[u8],
    ) -> KerberosCryptoResult<Vec<u8>> {
        CipherSuite::Aes128CtsHmacSha196.generate_key_from_password(alloc, password, salt)
    }

    fn random_to_key(&self, alloc: Global, key: Vec<u8>) -> KerberosCryptoResult<Vec<u8>> {
        CipherSuite::Aes128CtsHmacSha196.random_to_key(alloc, key)
    }
}

/// aes256-cts-hmac-sha1-96, encryption type 18 (RFC 3962): keys and seeds of 32 octets, confounders of 16, checksums of 12.
#[derive(Debug, Drop, Clone, PartialEq, Eq, Default)]
pub struct Aes256CtsHmacSha196;

impl Aes256CtsHmacSha196 {
    /// The suite.
    pub fn new() -> Aes256CtsHmacSha196 {
        Aes256CtsHmacSha196
    }
}

impl Cipher for Aes256CtsHmacSha196 {
    ghost use Rattle.krb_crypto_message.specs.Derive.{IsAesPasswordKey};
    ghost use Rattle.krb_crypto_message.specs.Sealed.{IsSealedAes, aes_ki, mac_96, aes_error};
    ghost use Rattle.krb_crypto.specs.declared.cipher_suite.CipherSuite.TheVariants as cipher;
    ghost use Rattle.krb_crypto.specs.declared.checksum_suite.ChecksumSuite.TheVariants as checksum;

    ghost meaning = { λ _ key usage confounder payload octets. IsSealedAes key usage confounder payload octets };

    ghost key_octets = { λ _. 32 };

    ghost confounder_octets = { λ _. 16 };

    ghost padding_octets = { λ _. 1 };

    ghost checksum_octets = { λ _. 12 };

    ghost integrity_key = { λ _ key usage. aes_ki key usage };

    ghost integrity_checksum = { λ _ key usage message. mac_96 (aes_ki key usage) message };

    ghost seed_bits = { λ _. 256 };

    ghost key_of_seed = { λ _ seed. seed };

    ghost password_key = { λ _ password salt key. IsAesPasswordKey 32 password salt key };

    ghost unopened = { λ _ key _ octets e. e ≡ aes_error 32 key octets };

    ghost no_password_key = { λ _ _ _ _. ⊥ };

    ghost encryption_type = { λ _. cipher.Aes256CtsHmacSha196 };

    ghost keyed_checksum_type = { λ _. checksum.HmacSha196Aes256 };

    fn key_size(&self) -> usize {
        CipherSuite::Aes256CtsHmacSha196.key_size()
    }

    fn seed_bit_len(&self) -> usize {
        CipherSuite::Aes256CtsHmacSha196.seed_bit_len()
    }

    fn confounder_size(&self) -> usize {
        CipherSuite::Aes256CtsHmacSha196.confounder_size()
    }

    fn fill_size(&self) -> usize {
        CipherSuite::Aes256CtsHmacSha196.fill_size()
    }

    fn cipher_type(&self) -> CipherSuite {
        CipherSuite::Aes256CtsHmacSha196.cipher_type()
    }

    fn checksum_type(&self) -> ChecksumSuite {
        CipherSuite::Aes256CtsHmacSha196.checksum_type()
    }

    fn encrypt(
        &self,
        alloc: Global,
        key: &[u8],
        key_usage: i32,
        payload: &[u8],
        confounder: &[u8],
    ) -> KerberosCryptoResult<Vec<u8>> {
        CipherSuite::Aes256CtsHmacSha196.encrypt(alloc, key, key_usage, payload, confounder)
    }

    fn decrypt(
        &self,
        alloc: Global,
        key: &[u8],
        key_usage: i32,
        cipher_data: &[u8],
    ) -> KerberosCryptoResult<Vec<u8>> {
        CipherSuite::Aes256CtsHmacSha196.decrypt(alloc, key, key_usage, cipher_data)
    }

    fn encrypt_no_checksum(
        &self,
        alloc: Global,
        key: &[u8],
        key_usage: i32,
        payload: &[u8],
        confounder: &[u8],
    ) -> KerberosCryptoResult<EncryptWithoutChecksum> {
        CipherSuite::Aes256CtsHmacSha196.encrypt_no_checksum(
            alloc, key, key_usage, payload, confounder,
        )
    }

    fn decrypt_no_checksum(
        &self,
        alloc: Global,
        key: &[u8],
        key_usage: i32,
        cipher_data: &[u8],
    ) -> KerberosCryptoResult<DecryptWithoutChecksum> {
        CipherSuite::Aes256CtsHmacSha196.decrypt_no_checksum(alloc, key, key_usage, cipher_data)
    }

    fn encryption_checksum(
        &self,
        alloc: Global,
        key: &[u8],
        key_usage: i32,
        payload: &[u8],
    ) -> KerberosCryptoResult<Vec<u8>> {
        CipherSuite::Aes256CtsHmacSha196.encryption_checksum(alloc, key, key_usage, payload)
    }

    fn generate_key_from_password(
        &self,
        alloc: Global,
        password: &[u8],
        salt: &[u8],
    ) -> KerberosCryptoResult<Vec<u8>> {
        CipherSuite::Aes256CtsHmacSha196.generate_key_from_password(alloc, password, salt)
    }

    fn random_to_key(&self, alloc: Global, key: Vec<u8>) -> KerberosCryptoResult<Vec<u8>> {
        CipherSuite::Aes256CtsHmacSha196.random_to_key(alloc, key)
    }
}
