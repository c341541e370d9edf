//! Keys of messages under AES that are derived once for a usage (RFC 3961, 5.3; RFC 3962, 6). They hold no memory of their own.

ghost use Rattle.std.specs.Prelude.{◌≡◌, ◌≢◌, ◌≤◌, ℕ, List, length, IfOk, IfErr};
ghost use Rattle.krb_crypto_hash.specs.CryptoError.{IsMemoryOr, IsKeyLengthError};
ghost use Rattle.krb_crypto_block.specs.Size.{key_octets};
ghost use Rattle.krb_crypto_message.specs.DerivedKeys.{DerivedKeys, IsSealedUnderAes, unopened_error};
ghost use Rattle.krb_crypto_message.specs.Sealed.{aes_ke, aes_ki, aes_kc, mac_96};
ghost use Rattle.krb_crypto_message.specs.Sealing.{IsTheOne, IsGiven, Opens, HasNoPayload, Encrypts, OpensUnchecked, HasNoPayloadUnchecked};

use super::key_derivation::derived_key;
use super::message_keys::derive_message_keys;
use crate::checksum::{checked, compared, concatenated, unchecked, without_checksum};
use crate::cts::{decrypted, encrypted_octets};
use crate::well_known::usage_kc;
use crate::without_checksum::{DecryptWithoutChecksum, EncryptWithoutChecksum};
use krb_crypto_block::in_place::encrypt_aes_cts;
use krb_crypto_block::{
    AES_BLOCK_SIZE, AES_MAC_SIZE, AesDecryptionKey, AesEncryptionKey, AesSize, KerberosCryptoError,
    KerberosCryptoResult,
};
use krb_crypto_hash::keyed::HmacSha1Key;
use std::alloc::Global;
use std::marker::Model;

/// The octets of a message with an empty payload: the confounder and the checksum.
pub(super) const SHORTEST: usize = AES_BLOCK_SIZE + AES_MAC_SIZE;

/// Ke, ready to encrypt, and Ki of a key and a usage. As a value it is these two.
#[derive(Drop)]
pub struct AesSealingKey {
    ke: AesEncryptionKey,
    ki: HmacSha1Key,
}

impl Model for AesSealingKey {
    ghost use Rattle.krb_crypto_message.specs.DerivedKeys.{DerivedKeys};

    ghost Value = { DerivedKeys };

    ghost view = { λ k. record { ke = k.ke; ki = k.ki } };
}

impl AesSealingKey {
    /// Those of this key and usage. `KeyLength` where the key has not the size's length; it allocates nothing.
    pub fn new(key: &[u8], key_usage: i32, size: &AesSize) -> KerberosCryptoResult<AesSealingKey>
        ensures made { IfOk result (λ k. (length key.now ≡ key_octets size.now) × (k.ke ≡ aes_ke key.now key_usage) × (k.ki ≡ aes_ki key.now key_usage)) }
        ensures rejected { IfErr result (IsKeyLengthError (key_octets size.now) key.now) }
    {
        let keys = derive_message_keys(key, key_usage, size)?;
        AesSealingKey::from_message_keys(keys.ke(), keys.ki(), size)
    }

    /// The keys of these octets. `KeyLength` where Ke has not the size's length; it allocates nothing.
    pub fn from_message_keys(
        ke: &[u8],
        ki: &[u8],
        size: &AesSize,
    ) -> KerberosCryptoResult<AesSealingKey>
        requires { length ki.now ≤ 32 }
        ensures made { IfOk result (λ k. (length ke.now ≡ key_octets size.now) × (k ≡ record { ke = ke.now; ki = ki.now })) }
        ensures rejected { IfErr result (IsKeyLengthError (key_octets size.now) ke.now) }
    {
        Ok(AesSealingKey {
            ke: AesEncryptionKey::new(ke, size)?,
            ki: HmacSha1Key::new(ki),
        })
    }

    /// The payload, encrypted with the confounder before it under Ke, and the HMAC of both under Ki, cut to 12 octets.
    /// `OutOfMemory` is the only error.
    pub fn encrypt(
        &self,
        alloc: Global,
        payload: &[u8],
        confounder: [u8; AES_BLOCK_SIZE],
    ) -> KerberosCryptoResult<Vec<u8>>
        ensures sealed { IfOk result (λ octets. IsTheOne (IsSealedUnderAes self.now confounder payload.now) octets.items) }
        ensures memory { IfErr result (λ e. e ≡ KerberosCryptoError.OutOfMemory) }
    {
        let mut octets = concatenated(alloc, &confounder, payload, AES_MAC_SIZE)?;
        let mac = self.ki.mac(&octets);
        encrypt_aes_cts(&self.ke, &mut octets);
        octets.extend_from_slice(&mac[..AES_MAC_SIZE])?;
        Ok(octets)
    }

    /// What `encrypt` makes, without the checksum; with it the confounder and Ki.
    pub fn encrypt_no_checksum(
        &self,
        alloc: Global,
        payload: &[u8],
        confounder: [u8; AES_BLOCK_SIZE],
    ) -> KerberosCryptoResult<EncryptWithoutChecksum>
        ensures encrypted { IfOk result (λ made. IsTheOne (Encrypts (IsSealedUnderAes self.now) 12 confounder payload.now) made.encrypted.items) }
        ensures confounder { IfOk result (λ made. made.confounder.items ≡ confounder) }
        ensures ki { IfOk result (λ made. made.ki.items ≡ self.now.ki) }
        ensures memory { IfErr result (λ e. e ≡ KerberosCryptoError.OutOfMemory) }
    {
        let octets = encrypted_octets(alloc, &self.ke, &confounder, payload, 0)?;
        without_checksum(alloc, octets, &confounder, self.ki.as_slice())
    }
}

/// Ke, ready to decrypt, and Ki of a key and a usage. As a value it is these two.
#[derive(Drop)]
pub struct AesOpeningKey {
    ke: AesDecryptionKey,
    ki: HmacSha1Key,
}

impl Model for AesOpeningKey {
    ghost use Rattle.krb_crypto_message.specs.DerivedKeys.{DerivedKeys};

    ghost Value = { DerivedKeys };

    ghost view = { λ k. record { ke = k.ke; ki = k.ki } };
}

impl AesOpeningKey {
    /// Those of this key and usage. `KeyLength` where the key has not the size's length; it allocates nothing.
    pub fn new(key: &[u8], key_usage: i32, size: &AesSize) -> KerberosCryptoResult<AesOpeningKey>
        ensures made { IfOk result (λ k. (length key.now ≡ key_octets size.now) × (k.ke ≡ aes_ke key.now key_usage) × (k.ki ≡ aes_ki key.now key_usage)) }
        ensures rejected { IfErr result (IsKeyLengthError (key_octets size.now) key.now) }
    {
        let keys = derive_message_keys(key, key_usage, size)?;
        AesOpeningKey::from_message_keys(keys.ke(), keys.ki(), size)
    }

    /// The keys of these octets. `KeyLength` where Ke has not the size's length; it allocates nothing.
    pub fn from_message_keys(
        ke: &[u8],
        ki: &[u8],
        size: &AesSize,
    ) -> KerberosCryptoResult<AesOpeningKey>
        requires { length ki.now ≤ 32 }
        ensures made { IfOk result (λ k. (length ke.now ≡ key_octets size.now) × (k ≡ record { ke = ke.now; ki = ki.now })) }
        ensures rejected { IfErr result (IsKeyLengthError (key_octets size.now) ke.now) }
    {
        Ok(AesOpeningKey {
            ke: AesDecryptionKey::new(ke, size)?,
            ki: HmacSha1Key::new(ki),
        })
    }

    /// The payload that was encrypted to these octets. `CipherLength` of their number and 28 where they are fewer, then
    /// `IntegrityCheck` where the checksum is another; nothing is returned before it is compared.
    pub fn decrypt(&self, alloc: Global, cipher_data: &[u8]) -> KerberosCryptoResult<Vec<u8>>
        ensures opened { IfOk result (λ payload. Opens 1 (IsGiven (IsSealedUnderAes self.now) 16 cipher_data.now) payload.items) }
        ensures rejected { IfErr result (λ e. IsMemoryOr e (HasNoPayload (IsSealedUnderAes self.now) 16 cipher_data.now)) }
        ensures exact { IfErr result (λ e. IsMemoryOr e (e ≡ unopened_error 28 cipher_data.now)) }
    {
        if cipher_data.len() < SHORTEST {
            return Err(KerberosCryptoError::CipherLength(cipher_data.len(), SHORTEST));
        }
        let padded = decrypted(alloc, &self.ke, cipher_data, AES_MAC_SIZE)?;
        checked(padded, &self.ki, cipher_data, AES_BLOCK_SIZE, AES_MAC_SIZE)
    }

    /// What the octets without their last 12 decrypt to, these 12 octets, which are not compared, and Ki. `CipherLength` of their
    /// number and 28 where they are fewer.
    pub fn decrypt_no_checksum(
        &self,
        alloc: Global,
        cipher_data: &[u8],
    ) -> KerberosCryptoResult<DecryptWithoutChecksum>
        ensures opened { IfOk result (λ made. OpensUnchecked 1 16 12 (IsSealedUnderAes self.now) cipher_data.now
            made.confounder.items made.plaintext.items made.checksum.items) }
        ensures ki { IfOk result (λ made. made.ki.items ≡ self.now.ki) }
        ensures rejected { IfErr result (λ e. IsMemoryOr e (HasNoPayloadUnchecked 16 12 (IsSealedUnderAes self.now) cipher_data.now)) }
        ensures exact { IfErr result (λ e. IsMemoryOr e ((e ≡ unopened_error 28 cipher_data.now) × (e ≢ KerberosCryptoError.IntegrityCheck))) }
    {
        if cipher_data.len() < SHORTEST {
            return Err(KerberosCryptoError::CipherLength(cipher_data.len(), SHORTEST));
        }
        let padded = decrypted(alloc, &self.ke, cipher_data, AES_MAC_SIZE)?;
        unchecked(
            alloc,
            padded,
            self.ki.as_slice(),
            cipher_data,
            AES_BLOCK_SIZE,
            AES_MAC_SIZE,
        )
    }
}

/// Kc of a key and a usage (RFC 3961, 5.4). As a value it is its octets.
#[derive(Drop)]
pub struct AesChecksumKey {
    kc: HmacSha1Key,
}

impl Model for AesChecksumKey {
    ghost Value = { List ℕ };

    ghost view = { λ k. k.kc };
}

impl AesChecksumKey {
    /// Kc of this key and usage. `KeyLength` where the key has not the size's length; it allocates nothing.
    pub fn new(key: &[u8], key_usage: i32, size: &AesSize) -> KerberosCryptoResult<AesChecksumKey>
        ensures made { IfOk result (λ k. (length key.now ≡ key_octets size.now) × (k ≡ aes_kc key.now key_usage)) }
        ensures rejected { IfErr result (IsKeyLengthError (key_octets size.now) key.now) }
    {
        let base = AesEncryptionKey::new(key, size)?;
        let kc = derived_key(&base, &usage_kc(key_usage), size);
        Ok(AesChecksumKey {
            kc: HmacSha1Key::new(kc.as_slice()),
        })
    }

    /// The checksum of a message that stands alone: its HMAC under Kc, cut to 12 octets. `OutOfMemory` is the only error.
    pub fn checksum(&self, alloc: Global, payload: &[u8]) -> KerberosCryptoResult<Vec<u8>>
        ensures checksum { IfOk result (λ checksum. checksum.items ≡ mac_96 self.now payload.now) }
        ensures memory { IfErr result (λ e. e ≡ KerberosCryptoError.OutOfMemory) }
    {
        Ok(Vec::from_slice(alloc, &self.kc.mac(payload)[..AES_MAC_SIZE])?)
    }

    /// Whether these octets are the payload's checksum. Else `IntegrityCheck`; it allocates nothing.
    pub fn verify(&self, payload: &[u8], checksum: &[u8]) -> KerberosCryptoResult<()>
        ensures equal { IfOk result (λ _. checksum.now ≡ mac_96 self.now payload.now) }
        ensures rejected { IfErr result (λ e. (checksum.now ≢ mac_96 self.now payload.now) × (e ≡ KerberosCryptoError.IntegrityCheck)) }
    {
        compared(checksum, &self.kc.mac(payload)[..AES_MAC_SIZE])
    }
}
