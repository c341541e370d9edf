//! Keys that are derived once from a key for a usage (RFC 3961, 5.3 and 5.4), for callers that use one key often: a call over them derives
//! nothing and expands no key. They hold no memory of their own, and allocate nothing but what a call returns.

ghost use Rattle.std.specs.Prelude.{◌≡◌, ◌≢◌, ◌≤◌, ℕ, ℤ, List, length, IfOk, IfErr};
ghost use Rattle.krb_crypto_hash.specs.CryptoError.{IsMemoryOr, IsKeyLengthError};
ghost use Rattle.krb_crypto_message.specs.Sealing.{IsTheOne, IsGiven, Opens, HasNoPayload};
ghost use Rattle.krb_crypto.specs.BySuite.{IsSealed, key_octets_of, confounder_octets_of, padding_octets_of, error_of, checksum_key_octets_of, sum_of};
ghost use Rattle.krb_crypto.specs.PreparedKeys.{PreparedKeys, PreparedChecksum, IsPreparedFor, IsChecksumPreparedFor, RejectsMessageKeys, integrity_key_octets_of};

use crate::checksum_suite::ChecksumSuite;
use crate::cipher_suite::CipherSuite;
use crate::confounder::confounder_of;
use crate::message_keys::{check_message_keys, derive_message_keys};
use krb_crypto_block::{AesSize, KerberosCryptoError, KerberosCryptoResult};
use krb_crypto_message::aes::{AesChecksumKey, AesOpeningKey, AesSealingKey};
use krb_crypto_message::aes_sha2::{Sha2ChecksumKey, Sha2OpeningKey, Sha2SealingKey};
use krb_crypto_message::des::{Des3ChecksumKey, Des3MessageKey};
use std::alloc::Global;
use std::marker::Model;

/// The sealing keys of a suite.
#[derive(Drop)]
enum SealingKeys {
    Aes128CtsHmacSha196(AesSealingKey),
    Aes256CtsHmacSha196(AesSealingKey),
    Des3CbcSha1Kd(Des3MessageKey),
    Aes128CtsHmacSha256128(Sha2SealingKey),
    Aes256CtsHmacSha384192(Sha2SealingKey),
}

/// A key of a suite, prepared to encrypt for one usage: the round keys of Ke, and the two hashes that have absorbed Ki's pads. As a value
/// it is the suite, Ke and Ki.
#[derive(Drop)]
pub struct SealingKey {
    keys: SealingKeys,
}

impl Model for SealingKey {
    ghost use Rattle.krb_crypto.specs.PreparedKeys.{PreparedKeys};

    ghost Value = { PreparedKeys };

    ghost use Rattle.krb_crypto.specs.PreparedCases.{sealing_keys, AreSealingKeys};

    ghost view = { λ k. sealing_keys k.keys };

    ghost invariant = { λ k. AreSealingKeys k.keys };
}

impl SealingKey {
    /// The key of these octets for this usage. `KeyLength` where they are not as many as the suite's keys have; it allocates nothing.
    #[tactic(auto, using(crate::proofs::MessageKeys::are_taken))]
    pub fn new(suite: &CipherSuite, key: &[u8], key_usage: i32) -> KerberosCryptoResult<SealingKey>
        ensures suite { IfOk result (λ k. k.suite ≡ suite.now) }
        ensures prepared { IfOk result (IsPreparedFor key.now key_usage) }
        ensures rejected { IfErr result (IsKeyLengthError (key_octets_of suite.now) key.now) }
    {
        let keys = derive_message_keys(suite, key, key_usage)?;
        SealingKey::from_message_keys(suite, keys.ke(), keys.ki())
    }

    /// The key of these Ke and Ki. `KeyLength` if Ke has not as many octets as the suite's keys have
    /// (`Cipher::key_size`); else, if Ki has not as many as its integrity keys (`integrity_key_size`).
    /// It allocates nothing.
    pub fn from_message_keys(
        suite: &CipherSuite,
        ke: &[u8],
        ki: &[u8],
    ) -> KerberosCryptoResult<SealingKey>
        ensures size { IfOk result (λ _. length ke.now ≡ key_octets_of suite.now) }
        ensures integrity_size { IfOk result (λ _. length ki.now ≡ integrity_key_octets_of suite.now) }
        ensures made { IfOk result (λ k. k ≡ record { suite = suite.now; keys = record { ke = ke.now; ki = ki.now } }) }
        ensures rejected { IfErr result (RejectsMessageKeys suite.now ke.now ki.now) }
    {
        check_message_keys(suite, ke, ki)?;
        let keys = match suite {
            CipherSuite::Aes128CtsHmacSha196 => SealingKeys::Aes128CtsHmacSha196(
                AesSealingKey::from_message_keys(ke, ki, &AesSize::Aes128)?,
            ),
            CipherSuite::Aes256CtsHmacSha196 => SealingKeys::Aes256CtsHmacSha196(
                AesSealingKey::from_message_keys(ke, ki, &AesSize::Aes256)?,
            ),
            CipherSuite::Des3CbcSha1Kd => {
                SealingKeys::Des3CbcSha1Kd(Des3MessageKey::from_message_keys(ke, ki)?)
            }
            CipherSuite::Aes128CtsHmacSha256128 => SealingKeys::Aes128CtsHmacSha256128(
                Sha2SealingKey::from_message_keys(ke, ki, &AesSize::Aes128)?,
            ),
            CipherSuite::Aes256CtsHmacSha384192 => SealingKeys::Aes256CtsHmacSha384192(
                Sha2SealingKey::from_message_keys(ke, ki, &AesSize::Aes256)?,
            ),
        };
        Ok(SealingKey { keys })
    }

    /// The suite.
    pub fn suite(&self) -> CipherSuite
        ensures { result ≡ self.now.suite }
    {
        match &self.keys {
            SealingKeys::Aes128CtsHmacSha196(_) => CipherSuite::Aes128CtsHmacSha196,
            SealingKeys::Aes256CtsHmacSha196(_) => CipherSuite::Aes256CtsHmacSha196,
            SealingKeys::Des3CbcSha1Kd(_) => CipherSuite::Des3CbcSha1Kd,
            SealingKeys::Aes128CtsHmacSha256128(_) => CipherSuite::Aes128CtsHmacSha256128,
            SealingKeys::Aes256CtsHmacSha384192(_) => CipherSuite::Aes256CtsHmacSha384192,
        }
    }

    /// The payload, encrypted under the confounder, and the integrity checksum after it, as `Cipher::encrypt` returns it. The confounder
    /// has the suite's `confounder_size` octets. `OutOfMemory` is the only error.
    pub fn encrypt(
        &self,
        alloc: Global,
        payload: &[u8],
        confounder: &[u8],
    ) -> KerberosCryptoResult<Vec<u8>>
        requires { length confounder.now ≡ confounder_octets_of self.now.suite }
        ensures sealed { (key : List ℕ) (usage : ℤ) → IsPreparedFor key usage self.now
            → IfOk result (λ octets. IsTheOne (IsSealed self.now.suite key usage confounder.now payload.now) octets.items) }
        ensures memory { IfErr result (λ e. e ≡ KerberosCryptoError.OutOfMemory) }
    {
        match &self.keys {
            SealingKeys::Aes128CtsHmacSha196(keys) => {
                keys.encrypt(alloc, payload, confounder_of(confounder))
            }
            SealingKeys::Aes256CtsHmacSha196(keys) => {
                keys.encrypt(alloc, payload, confounder_of(confounder))
            }
            SealingKeys::Des3CbcSha1Kd(keys) => {
                keys.encrypt(alloc, payload, confounder_of(confounder))
            }
            SealingKeys::Aes128CtsHmacSha256128(keys) => {
                keys.encrypt(alloc, payload, confounder_of(confounder))
            }
            SealingKeys::Aes256CtsHmacSha384192(keys) => {
                keys.encrypt(alloc, payload, confounder_of(confounder))
            }
        }
    }
}

/// The opening keys of a suite.
#[derive(Drop)]
enum OpeningKeys {
    Aes128CtsHmacSha196(AesOpeningKey),
    Aes256CtsHmacSha196(AesOpeningKey),
    Des3CbcSha1Kd(Des3MessageKey),
    Aes128CtsHmacSha256128(Sha2OpeningKey),
    Aes256CtsHmacSha384192(Sha2OpeningKey),
}

/// A key of a suite, prepared to decrypt for one usage: the inverse round keys of Ke, and the two hashes that have absorbed Ki's pads. As
/// a value it is the suite, Ke and Ki.
#[derive(Drop)]
pub struct OpeningKey {
    keys: OpeningKeys,
}

impl Model for OpeningKey {
    ghost use Rattle.krb_crypto.specs.PreparedKeys.{PreparedKeys};

    ghost Value = { PreparedKeys };

    ghost use Rattle.krb_crypto.specs.PreparedCases.{opening_keys, AreOpeningKeys};

    ghost view = { λ k. opening_keys k.keys };

    ghost invariant = { λ k. AreOpeningKeys k.keys };
}

impl OpeningKey {
    /// The key of these octets for this usage. `KeyLength` where they are not as many as the suite's keys have; it allocates nothing.
    #[tactic(auto, using(crate::proofs::MessageKeys::are_taken))]
    pub fn new(suite: &CipherSuite, key: &[u8], key_usage: i32) -> KerberosCryptoResult<OpeningKey>
        ensures suite { IfOk result (λ k. k.suite ≡ suite.now) }
        ensures prepared { IfOk result (IsPreparedFor key.now key_usage) }
        ensures rejected { IfErr result (IsKeyLengthError (key_octets_of suite.now) key.now) }
    {
        let keys = derive_message_keys(suite, key, key_usage)?;
        OpeningKey::from_message_keys(suite, keys.ke(), keys.ki())
    }

    /// The key of these Ke and Ki. `KeyLength` if Ke has not as many octets as the suite's keys have
    /// (`Cipher::key_size`); else, if Ki has not as many as its integrity keys (`integrity_key_size`).
    /// It allocates nothing.
    pub fn from_message_keys(
        suite: &CipherSuite,
        ke: &[u8],
        ki: &[u8],
    ) -> KerberosCryptoResult<OpeningKey>
        ensures size { IfOk result (λ _. length ke.now ≡ key_octets_of suite.now) }
        ensures integrity_size { IfOk result (λ _. length ki.now ≡ integrity_key_octets_of suite.now) }
        ensures made { IfOk result (λ k. k ≡ record { suite = suite.now; keys = record { ke = ke.now; ki = ki.now } }) }
        ensures rejected { IfErr result (RejectsMessageKeys suite.now ke.now ki.now) }
    {
        check_message_keys(suite, ke, ki)?;
        let keys = match suite {
            CipherSuite::Aes128CtsHmacSha196 => OpeningKeys::Aes128CtsHmacSha196(
                AesOpeningKey::from_message_keys(ke, ki, &AesSize::Aes128)?,
            ),
            CipherSuite::Aes256CtsHmacSha196 => OpeningKeys::Aes256CtsHmacSha196(
                AesOpeningKey::from_message_keys(ke, ki, &AesSize::Aes256)?,
            ),
            CipherSuite::Des3CbcSha1Kd => {
                OpeningKeys::Des3CbcSha1Kd(Des3MessageKey::from_message_keys(ke, ki)?)
            }
            CipherSuite::Aes128CtsHmacSha256128 => OpeningKeys::Aes128CtsHmacSha256128(
                Sha2OpeningKey::from_message_keys(ke, ki, &AesSize::Aes128)?,
            ),
            CipherSuite::Aes256CtsHmacSha384192 => OpeningKeys::Aes256CtsHmacSha384192(
                Sha2OpeningKey::from_message_keys(ke, ki, &AesSize::Aes256)?,
            ),
        };
        Ok(OpeningKey { keys })
    }

    /// The suite.
    pub fn suite(&self) -> CipherSuite
        ensures { result ≡ self.now.suite }
    {
        match &self.keys {
            OpeningKeys::Aes128CtsHmacSha196(_) => CipherSuite::Aes128CtsHmacSha196,
            OpeningKeys::Aes256CtsHmacSha196(_) => CipherSuite::Aes256CtsHmacSha196,
            OpeningKeys::Des3CbcSha1Kd(_) => CipherSuite::Des3CbcSha1Kd,
            OpeningKeys::Aes128CtsHmacSha256128(_) => CipherSuite::Aes128CtsHmacSha256128,
            OpeningKeys::Aes256CtsHmacSha384192(_) => CipherSuite::Aes256CtsHmacSha384192,
        }
    }

    /// The payload that was encrypted to these octets, with the fewest zeros to a multiple of the suite's `fill_size` after it, as
    /// `Cipher::decrypt` returns it. Octets that no payload is encrypted to under any confounder are rejected, with the error that
    /// `Cipher::decrypt` returns under a key of the right length.
    pub fn decrypt(&self, alloc: Global, cipher_data: &[u8]) -> KerberosCryptoResult<Vec<u8>>
        ensures opened { (key : List ℕ) (usage : ℤ) → IsPreparedFor key usage self.now
            → IfOk result (λ payload. Opens (padding_octets_of self.now.suite)
            (IsGiven (IsSealed self.now.suite key usage) (confounder_octets_of self.now.suite) cipher_data.now) payload.items) }
        ensures rejected { (key : List ℕ) (usage : ℤ) → IsPreparedFor key usage self.now
            → IfErr result (λ e. IsMemoryOr e (HasNoPayload (IsSealed self.now.suite key usage) (confounder_octets_of self.now.suite) cipher_data.now)) }
        ensures exact { (key : List ℕ) (usage : ℤ) → IsPreparedFor key usage self.now
            → IfErr result (λ e. IsMemoryOr e (e ≡ error_of self.now.suite key cipher_data.now)) }
    {
        match &self.keys {
            OpeningKeys::Aes128CtsHmacSha196(keys) => keys.decrypt(alloc, cipher_data),
            OpeningKeys::Aes256CtsHmacSha196(keys) => keys.decrypt(alloc, cipher_data),
            OpeningKeys::Des3CbcSha1Kd(keys) => keys.decrypt(alloc, cipher_data),
            OpeningKeys::Aes128CtsHmacSha256128(keys) => keys.decrypt(alloc, cipher_data),
            OpeningKeys::Aes256CtsHmacSha384192(keys) => keys.decrypt(alloc, cipher_data),
        }
    }
}

/// The checksum keys of a suite.
#[derive(Drop)]
enum ChecksumKeys {
    HmacSha196Aes256(AesChecksumKey),
    HmacSha196Aes128(AesChecksumKey),
    HmacSha1Des3Kd(Des3ChecksumKey),
    HmacSha256128Aes128(Sha2ChecksumKey),
    HmacSha384192Aes256(Sha2ChecksumKey),
}

/// A key of a checksum suite, prepared for one usage: the two hashes that have absorbed Kc's pads. As a value it is the suite and Kc.
#[derive(Drop)]
pub struct ChecksumKey {
    keys: ChecksumKeys,
}

impl Model for ChecksumKey {
    ghost use Rattle.krb_crypto.specs.PreparedKeys.{PreparedChecksum};

    ghost Value = { PreparedChecksum };

    ghost use Rattle.krb_crypto.specs.PreparedCases.{checksum_keys, AreChecksumKeys};

    ghost view = { λ k. checksum_keys k.keys };

    ghost invariant = { λ k. AreChecksumKeys k.keys };
}

impl ChecksumKey {
    /// The key of these octets for this usage. `KeyLength` where they are not as many as the suite's keys have; it allocates nothing.
    pub fn new(
        suite: &ChecksumSuite,
        key: &[u8],
        key_usage: i32,
    ) -> KerberosCryptoResult<ChecksumKey>
        ensures suite { IfOk result (λ k. k.suite ≡ suite.now) }
        ensures prepared { IfOk result (IsChecksumPreparedFor key.now key_usage) }
        ensures rejected { IfErr result (IsKeyLengthError (checksum_key_octets_of suite.now) key.now) }
    {
        let keys = match suite {
            ChecksumSuite::HmacSha196Aes256 => ChecksumKeys::HmacSha196Aes256(AesChecksumKey::new(
                key,
                key_usage,
                &AesSize::Aes256,
            )?),
            ChecksumSuite::HmacSha196Aes128 => ChecksumKeys::HmacSha196Aes128(AesChecksumKey::new(
                key,
                key_usage,
                &AesSize::Aes128,
            )?),
            ChecksumSuite::HmacSha1Des3Kd => {
                ChecksumKeys::HmacSha1Des3Kd(Des3ChecksumKey::new(key, key_usage)?)
            }
            ChecksumSuite::HmacSha256128Aes128 => ChecksumKeys::HmacSha256128Aes128(
                Sha2ChecksumKey::new(key, key_usage, &AesSize::Aes128)?,
            ),
            ChecksumSuite::HmacSha384192Aes256 => ChecksumKeys::HmacSha384192Aes256(
                Sha2ChecksumKey::new(key, key_usage, &AesSize::Aes256)?,
            ),
        };
        Ok(ChecksumKey { keys })
    }

    /// The checksum of a payload that stands alone in a message, as `Checksum::checksum` returns it. `OutOfMemory` is the only error.
    pub fn checksum(&self, alloc: Global, payload: &[u8]) -> KerberosCryptoResult<Vec<u8>>
        ensures checksum { (key : List ℕ) (usage : ℤ) → IsChecksumPreparedFor key usage self.now
            → IfOk result (λ checksum. checksum.items ≡ sum_of self.now.suite key usage payload.now) }
        ensures memory { IfErr result (λ e. e ≡ KerberosCryptoError.OutOfMemory) }
    {
        match &self.keys {
            ChecksumKeys::HmacSha196Aes256(keys) => keys.checksum(alloc, payload),
            ChecksumKeys::HmacSha196Aes128(keys) => keys.checksum(alloc, payload),
            ChecksumKeys::HmacSha1Des3Kd(keys) => keys.checksum(alloc, payload),
            ChecksumKeys::HmacSha256128Aes128(keys) => keys.checksum(alloc, payload),
            ChecksumKeys::HmacSha384192Aes256(keys) => keys.checksum(alloc, payload),
        }
    }

    /// Whether these octets are the payload's checksum. Else `IntegrityCheck`. All octets are compared, wherever they differ; it
    /// allocates nothing.
    pub fn verify(&self, payload: &[u8], checksum: &[u8]) -> KerberosCryptoResult<()>
        ensures equal { (key : List ℕ) (usage : ℤ) → IsChecksumPreparedFor key usage self.now
            → IfOk result (λ _. checksum.now ≡ sum_of self.now.suite key usage payload.now) }
        ensures rejected { (key : List ℕ) (usage : ℤ) → IsChecksumPreparedFor key usage self.now
            → IfErr result (λ e. (checksum.now ≢ sum_of self.now.suite key usage payload.now) × (e ≡ KerberosCryptoError.IntegrityCheck)) }
    {
        match &self.keys {
            ChecksumKeys::HmacSha196Aes256(keys) => keys.verify(payload, checksum),
            ChecksumKeys::HmacSha196Aes128(keys) => keys.verify(payload, checksum),
            ChecksumKeys::HmacSha1Des3Kd(keys) => keys.verify(payload, checksum),
            ChecksumKeys::HmacSha256128Aes128(keys) => keys.verify(payload, checksum),
            ChecksumKeys::HmacSha384192Aes256(keys) => keys.verify(payload, checksum),
        }
    }
}
