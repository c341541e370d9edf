//! Keys of messages under the suites of RFC 8009 that are derived once for a usage. They hold no memory of their own.

ghost use Rattle.std.specs.Prelude.{◌≡◌, ◌≢◌, ◌+◌, ◌≤◌, ℕ, List, length, IfOk, IfErr};
ghost use Rattle.krb_crypto_hash.specs.CryptoError.{IsMemoryOr, IsKeyLengthError};
ghost use Rattle.krb_crypto_block.specs.Size.{key_octets};
ghost use Rattle.krb_crypto_message.specs.AesSha2.{EndsInSealMac, sha2_ke, sha2_ki, sha2_kc, sha2_mac, sha2_checksum_octets};
ghost use Rattle.krb_crypto_message.specs.DerivedKeys.{IsSealedUnderSha2, unopened_error};
ghost use Rattle.krb_crypto_message.specs.KeyedHash.{size_of, key_of};
ghost use Rattle.krb_crypto_message.specs.Sealing.{IsTheOne, IsGiven, Opens, HasNoPayload, Encrypts, OpensUnchecked, HasNoPayloadUnchecked};
ghost use Rattle.krb_crypto_message.specs.SizedKeys.{SizedKeys, SizedKey};

use super::key_derivation::test_key;
use super::keyed_hash::KeyedHash;
use super::mac::checksum_size;
use super::message_keys::derive_message_keys;
use crate::checksum::{compared, trailing, unchecked, without_checksum};
use crate::cts::{decrypted, encrypted_octets};
use crate::well_known::usage_kc;
use crate::without_checksum::{DecryptWithoutChecksum, EncryptWithoutChecksum};
use krb_crypto_block::{
    AES_BLOCK_SIZE, AesDecryptionKey, AesEncryptionKey, AesSize, KerberosCryptoError,
    KerberosCryptoResult,
};
use std::alloc::Global;
use std::marker::Model;

/// The cipher state that stands before the encrypted octets in the HMAC, and is the initial vector (RFC 8009, 5).
const CIPHER_STATE: [u8; AES_BLOCK_SIZE] = [0; AES_BLOCK_SIZE];

/// Ke, ready to encrypt, and Ki of a key and a usage. As a value it is the size of the key and these two.
#[derive(Drop)]
pub struct Sha2SealingKey {
    ke: AesEncryptionKey,
    ki: KeyedHash,
}

impl Model for Sha2SealingKey {
    ghost use Rattle.krb_crypto_message.specs.KeyedHash.{size_of, key_of};
    ghost use Rattle.krb_crypto_message.specs.SizedKeys.{SizedKeys};

    ghost Value = { SizedKeys };

    ghost view = { λ k. record { size = size_of k.ki; keys = record { ke = k.ke; ki = key_of k.ki } } };
}

impl Sha2SealingKey {
    /// Those of this key and usage. `KeyLength` where the key has not the size's length; it allocates nothing.
    pub fn new(key: &[u8], key_usage: i32, size: &AesSize) -> KerberosCryptoResult<Sha2SealingKey>
        ensures made { IfOk result (λ k. (length key.now ≡ key_octets size.now) × (k.size ≡ size.now)
            × (k.keys.ke ≡ sha2_ke size.now key.now key_usage) × (k.keys.ki ≡ sha2_ki size.now key.now key_usage)) }
        ensures rejected { IfErr result (IsKeyLengthError (key_octets size.now) key.now) }
    {
        let keys = derive_message_keys(key, key_usage, size)?;
        Sha2SealingKey::from_message_keys(keys.ke(), keys.ki(), size)
    }

    /// The keys of these octets. `KeyLength` where Ke has not the size's length; it allocates nothing.
    pub fn from_message_keys(
        ke: &[u8],
        ki: &[u8],
        size: &AesSize,
    ) -> KerberosCryptoResult<Sha2SealingKey>
        requires { length ki.now ≤ 32 }
        ensures made { IfOk result (λ k. (length ke.now ≡ key_octets size.now) × (k.size ≡ size.now) × (k.keys ≡ record { ke = ke.now; ki = ki.now })) }
        ensures rejected { IfErr result (IsKeyLengthError (key_octets size.now) ke.now) }
    {
        Ok(Sha2SealingKey {
            ke: AesEncryptionKey::new(ke, size)?,
            ki: KeyedHash::new(ki, size),
        })
    }

    /// The payload, encrypted with the confounder before it under Ke, and the HMAC of 16 zero octets and the encrypted octets under Ki,
    /// cut to 16 or 24 octets. `OutOfMemory` is the only error.
    pub fn encrypt(
        &self,
        alloc: Global,
        payload: &[u8],
        confounder: [u8; AES_BLOCK_SIZE],
    ) -> KerberosCryptoResult<Vec<u8>>
        ensures sealed { IfOk result (λ octets. IsTheOne (IsSealedUnderSha2 self.now.size self.now.keys confounder payload.now) octets.items) }
        ensures memory { IfErr result (λ e. e ≡ KerberosCryptoError.OutOfMemory) }
    {
        let spare = checksum_size(&self.ki.size());
        let mut octets = encrypted_octets(alloc, &self.ke, &confounder, payload, spare)?;
        let mac = self.ki.mac(&CIPHER_STATE, &octets);
        octets.extend_from_slice(mac.as_slice())?;
        Ok(octets)
    }

    /// What `encrypt` makes, without the checksum; with it the confounder and Ki.
    pub fn encrypt_no_checksum(
        &self,
        alloc: Global,
        payload: &[u8],
        confounder: [u8; AES_BLOCK_SIZE],
    ) -> KerberosCryptoResult<EncryptWithoutChecksum>
        ensures encrypted { IfOk result (λ made. IsTheOne
            (Encrypts (IsSealedUnderSha2 self.now.size self.now.keys) (sha2_checksum_octets self.now.size) confounder payload.now) made.encrypted.items) }
        ensures confounder { IfOk result (λ made. made.confounder.items ≡ confounder) }
        ensures ki { IfOk result (λ made. made.ki.items ≡ self.now.keys.ki) }
        ensures memory { IfErr result (λ e. e ≡ KerberosCryptoError.OutOfMemory) }
    {
        let octets = encrypted_octets(alloc, &self.ke, &confounder, payload, 0)?;
        without_checksum(alloc, octets, &confounder, self.ki.as_slice())
    }
}

/// Ke, ready to decrypt, and Ki of a key and a usage. As a value it is the size of the key and these two.
#[derive(Drop)]
pub struct Sha2OpeningKey {
    ke: AesDecryptionKey,
    ki: KeyedHash,
}

impl Model for Sha2OpeningKey {
    ghost use Rattle.krb_crypto_message.specs.KeyedHash.{size_of, key_of};
    ghost use Rattle.krb_crypto_message.specs.SizedKeys.{SizedKeys};

    ghost Value = { SizedKeys };

    ghost view = { λ k. record { size = size_of k.ki; keys = record { ke = k.ke; ki = key_of k.ki } } };
}

impl Sha2OpeningKey {
    /// Those of this key and usage. `KeyLength` where the key has not the size's length; it allocates nothing.
    pub fn new(key: &[u8], key_usage: i32, size: &AesSize) -> KerberosCryptoResult<Sha2OpeningKey>
        ensures made { IfOk result (λ k. (length key.now ≡ key_octets size.now) × (k.size ≡ size.now)
            × (k.keys.ke ≡ sha2_ke size.now key.now key_usage) × (k.keys.ki ≡ sha2_ki size.now key.now key_usage)) }
        ensures rejected { IfErr result (IsKeyLengthError (key_octets size.now) key.now) }
    {
        let keys = derive_message_keys(key, key_usage, size)?;
        Sha2OpeningKey::from_message_keys(keys.ke(), keys.ki(), size)
    }

    /// The keys of these octets. `KeyLength` where Ke has not the size's length; it allocates nothing.
    pub fn from_message_keys(
        ke: &[u8],
        ki: &[u8],
        size: &AesSize,
    ) -> KerberosCryptoResult<Sha2OpeningKey>
        requires { length ki.now ≤ 32 }
        ensures made { IfOk result (λ k. (length ke.now ≡ key_octets size.now) × (k.size ≡ size.now) × (k.keys ≡ record { ke = ke.now; ki = ki.now })) }
        ensures rejected { IfErr result (IsKeyLengthError (key_octets size.now) ke.now) }
    {
        Ok(Sha2OpeningKey {
            ke: AesDecryptionKey::new(ke, size)?,
            ki: KeyedHash::new(ki, size),
        })
    }

    /// The payload that was encrypted to these octets. `CipherLength` of their number and 32 or 40 where they are fewer, then
    /// `IntegrityCheck` where the checksum is another; nothing is decrypted before it is compared.
    pub fn decrypt(&self, alloc: Global, cipher_data: &[u8]) -> KerberosCryptoResult<Vec<u8>>
        ensures opened { IfOk result (λ payload. Opens 1 (IsGiven (IsSealedUnderSha2 self.now.size self.now.keys) 16 cipher_data.now) payload.items) }
        ensures rejected { IfErr result (λ e. IsMemoryOr e (HasNoPayload (IsSealedUnderSha2 self.now.size self.now.keys) 16 cipher_data.now)) }
        ensures exact { IfErr result (λ e. IsMemoryOr e (e ≡ unopened_error (16 + sha2_checksum_octets self.now.size) cipher_data.now)) }
    {
        let mac_size = checksum_size(&self.ki.size());
        if cipher_data.len() < AES_BLOCK_SIZE + mac_size {
            return Err(KerberosCryptoError::CipherLength(
                cipher_data.len(),
                AES_BLOCK_SIZE + mac_size,
            ));
        }
        compare(&self.ki, cipher_data)?;
        let padded = decrypted(alloc, &self.ke, cipher_data, mac_size)?;
        Ok(trailing(padded, AES_BLOCK_SIZE))
    }

    /// What the octets without their last 16 or 24 decrypt to, these last octets, which are not compared, and Ki. `CipherLength` of
    /// their number and 32 or 40 where they are fewer.
    pub fn decrypt_no_checksum(
        &self,
        alloc: Global,
        cipher_data: &[u8],
    ) -> KerberosCryptoResult<DecryptWithoutChecksum>
        ensures opened { IfOk result (λ made. OpensUnchecked 1 16 (sha2_checksum_octets self.now.size) (IsSealedUnderSha2 self.now.size self.now.keys)
            cipher_data.now made.confounder.items made.plaintext.items made.checksum.items) }
        ensures ki { IfOk result (λ made. made.ki.items ≡ self.now.keys.ki) }
        ensures rejected { IfErr result (λ e. IsMemoryOr e
            (HasNoPayloadUnchecked 16 (sha2_checksum_octets self.now.size) (IsSealedUnderSha2 self.now.size self.now.keys) cipher_data.now)) }
        ensures exact { IfErr result (λ e. IsMemoryOr e ((e ≡ unopened_error (16 + sha2_checksum_octets self.now.size) cipher_data.now)
            × (e ≢ KerberosCryptoError.IntegrityCheck))) }
    {
        let mac_size = checksum_size(&self.ki.size());
        if cipher_data.len() < AES_BLOCK_SIZE + mac_size {
            return Err(KerberosCryptoError::CipherLength(
                cipher_data.len(),
                AES_BLOCK_SIZE + mac_size,
            ));
        }
        let padded = decrypted(alloc, &self.ke, cipher_data, mac_size)?;
        unchecked(
            alloc,
            padded,
            self.ki.as_slice(),
            cipher_data,
            AES_BLOCK_SIZE,
            mac_size,
        )
    }
}

/// Whether the octets end in the checksum of those before it. Else `IntegrityCheck`.
fn compare(ki: &KeyedHash, cipher_data: &[u8]) -> KerberosCryptoResult<()>
    requires long { sha2_checksum_octets (size_of ki.now) ≤ length cipher_data.now }
    ensures alike { IfOk result (λ _. EndsInSealMac (size_of ki.now) (key_of ki.now) cipher_data.now) }
    ensures rejected { IfErr result (λ e. (¬ EndsInSealMac (size_of ki.now) (key_of ki.now) cipher_data.now) × (e ≡ KerberosCryptoError.IntegrityCheck)) }
{
    let (encrypted, checksum) = cipher_data.split_at(cipher_data.len() - checksum_size(&ki.size()));
    compared(checksum, ki.mac(&CIPHER_STATE, encrypted).as_slice())
}

/// Kc of a key and a usage (RFC 8009, 6). As a value it is the size of the key and its octets.
#[derive(Drop)]
pub struct Sha2ChecksumKey {
    kc: KeyedHash,
}

impl Model for Sha2ChecksumKey {
    ghost use Rattle.krb_crypto_message.specs.KeyedHash.{size_of, key_of};
    ghost use Rattle.krb_crypto_message.specs.SizedKeys.{SizedKey};

    ghost Value = { SizedKey };

    ghost view = { λ k. record { size = size_of k.kc; octets = key_of k.kc } };
}

impl Sha2ChecksumKey {
    /// Kc of this key and usage. `KeyLength` where the key has not the size's length; it allocates nothing.
    pub fn new(key: &[u8], key_usage: i32, size: &AesSize) -> KerberosCryptoResult<Sha2ChecksumKey>
        ensures made { IfOk result (λ k. (length key.now ≡ key_octets size.now) × (k.size ≡ size.now) × (k.octets ≡ sha2_kc size.now key.now key_usage)) }
        ensures rejected { IfErr result (IsKeyLengthError (key_octets size.now) key.now) }
    {
        test_key(key, size)?;
        let kc = KeyedHash::new(key, size).derived(&usage_kc(key_usage), checksum_size(size));
        Ok(Sha2ChecksumKey {
            kc: KeyedHash::new(kc.as_slice(), size),
        })
    }

    /// The checksum of a message that stands alone: its HMAC under Kc, cut to 16 or 24 octets. `OutOfMemory` is the only error.
    pub fn checksum(&self, alloc: Global, payload: &[u8]) -> KerberosCryptoResult<Vec<u8>>
        ensures checksum { IfOk result (λ checksum. checksum.items ≡ sha2_mac self.now.size self.now.octets payload.now) }
        ensures memory { IfErr result (λ e. e ≡ KerberosCryptoError.OutOfMemory) }
    {
        Ok(Vec::from_slice(alloc, self.kc.mac(&[], payload).as_slice())?)
    }

    /// Whether these octets are the payload's checksum. Else `IntegrityCheck`; it allocates nothing.
    pub fn verify(&self, payload: &[u8], checksum: &[u8]) -> KerberosCryptoResult<()>
        ensures equal { IfOk result (λ _. checksum.now ≡ sha2_mac self.now.size self.now.octets payload.now) }
        ensures rejected { IfErr result (λ e. (checksum.now ≢ sha2_mac self.now.size self.now.octets payload.now) × (e ≡ KerberosCryptoError.IntegrityCheck)) }
    {
        compared(checksum, self.kc.mac(&[], payload).as_slice())
    }
}
