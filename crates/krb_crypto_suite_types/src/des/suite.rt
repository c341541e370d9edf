//! The suite of triple DES (RFC 3961, 6.3): the cipher of its number.

ghost use Rattle.std.specs.Prelude.{◌≡◌};

use krb_crypto::{
    ChecksumSuite, Cipher, CipherSuite, DecryptWithoutChecksum, EncryptWithoutChecksum,
    KerberosCryptoResult,
};
use std::alloc::Global;

/// des3-cbc-hmac-sha1-kd, encryption type 16 (RFC 3961, 6.3): keys of 24 octets, seeds of 21, confounders of 8, checksums of
/// 20. A payload is padded with zeros to a multiple of 8 octets, and decrypted with them.
#[derive(Debug, Drop, Clone, PartialEq, Eq, Default)]
pub struct Des3CbcSha1Kd;

impl Des3CbcSha1Kd {
    /// The suite.
    pub fn new() -> Des3CbcSha1Kd {
        Des3CbcSha1Kd
    }
}

impl Cipher for Des3CbcSha1Kd {
    ghost use Rattle.krb_crypto_hash.specs.Hmac.{hmac};
    ghost use Rattle.krb_crypto_message.specs.Derive.{IsDes3PasswordKey};
    ghost use Rattle.krb_crypto_message.specs.RandomToKey.{random_to_key};
    ghost use Rattle.krb_crypto_message.specs.Sealed.{IsSealedDes3, des3_ki, des3_error, IsNoDes3Password};
    ghost use Rattle.krb_crypto.specs.declared.cipher_suite.CipherSuite.TheVariants as cipher;
    ghost use Rattle.krb_crypto.specs.declared.checksum_suite.ChecksumSuite.TheVariants as checksum;

    ghost meaning = { λ _ key usage confounder payload octets. IsSealedDes3 key usage confounder payload octets };

    ghost key_octets = { λ _. 24 };

    ghost confounder_octets = { λ _. 8 };

    ghost padding_octets = { λ _. 8 };

    ghost checksum_octets = { λ _. 20 };

    ghost integrity_key = { λ _ key usage. des3_ki key usage };

    ghost integrity_checksum = { λ _ key usage message. hmac (des3_ki key usage) message };

    ghost seed_bits = { λ _. 168 };

    ghost key_of_seed = { λ _ seed. random_to_key seed };

    ghost password_key = { λ _ password salt key. IsDes3PasswordKey password salt key };

    ghost unopened = { λ _ key _ octets e. e ≡ des3_error key octets };

    ghost no_password_key = { λ _ password salt e. IsNoDes3Password password salt e };

    ghost encryption_type = { λ _. cipher.Des3CbcSha1Kd };

    ghost keyed_checksum_type = { λ _. checksum.HmacSha1Des3Kd };

    fn key_size(&self) -> usize {
        CipherSuite::Des3CbcSha1Kd.key_size()
    }

    fn seed_bit_len(&self) -> usize {
        CipherSuite::Des3CbcSha1Kd.seed_bit_len()
    }

    fn confounder_size(&self) -> usize {
        CipherSuite::Des3CbcSha1Kd.confounder_size()
    }

    fn fill_size(&self) -> usize {
        CipherSuite::Des3CbcSha1Kd.fill_size()
    }

    fn cipher_type(&self) -> CipherSuite {
        CipherSuite::Des3CbcSha1Kd.cipher_type()
    }

    fn checksum_type(&self) -> ChecksumSuite {
        CipherSuite::Des3CbcSha1Kd.checksum_type()
    }

    fn encrypt(
        &self,
        alloc: Global,
        key: &[u8],
        key_usage: i32,
        payload: &[u8],
        confounder: &[u8],
    ) -> KerberosCryptoResult<Vec<u8>> {
        CipherSuite::Des3CbcSha1Kd.encrypt(alloc, key, key_usage, payload, confounder)
    }

    fn decrypt(
        &self,
        alloc: Global,
        key: &[u8],
        key_usage: i32,
        cipher_data: &[u8],
    ) -> KerberosCryptoResult<Vec<u8>> {
        CipherSuite::Des3CbcSha1Kd.decrypt(alloc, key, key_usage, cipher_data)
    }

    fn encrypt_no_checksum(
        &self,
        alloc: Global,
        key: &[u8],
        key_usage: i32,
        payload: &[u8],
        confounder: &[u8],
    ) -> KerberosCryptoResult<EncryptWithoutChecksum> {
        CipherSuite::Des3CbcSha1Kd.encrypt_no_checksum(alloc, key, key_usage, payload, confounder)
    }

    fn decrypt_no_checksum(
        &self,
        alloc: Global,
        key: &[u8],
        key_usage: i32,
        cipher_data: &[u8],
    ) -> KerberosCryptoResult<DecryptWithoutChecksum> {
        CipherSuite::Des3CbcSha1Kd.decrypt_no_checksum(alloc, key, key_usage, cipher_data)
    }

    fn encryption_checksum(
        &self,
        alloc: Global,
        key: &[u8],
        key_usage: i32,
        payload: &[u8],
    ) -> KerberosCryptoResult<Vec<u8>> {
        CipherSuite::Des3CbcSha1Kd.encryption_checksum(alloc, key, key_usage, payload)
    }

    fn generate_key_from_password(
        &self,
        alloc: Global,
        password: &[u8],
        salt: &[u8],
    ) -> KerberosCryptoResult<Vec<u8>> {
        CipherSuite::Des3CbcSha1Kd.generate_key_from_password(alloc, password, salt)
    }

    fn random_to_key(&self, alloc: Global, key: Vec<u8>) -> KerberosCryptoResult<Vec<u8>> {
        CipherSuite::Des3CbcSha1Kd.random_to_key(alloc, key)
    }
}
