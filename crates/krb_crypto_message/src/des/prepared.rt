//! Keys of messages under triple DES that are derived once for a usage (RFC 3961, 5.3 and 6.3). They hold no memory of their own.

ghost use Rattle.std.specs.Prelude.{◌≡◌, ◌≢◌, ◌≤◌, ◌++◌, ℕ, List, length, IfOk, IfErr};
ghost use Rattle.krb_crypto_block.specs.Modes.{IsCbc, IsPadding, IsOctets};
ghost use Rattle.krb_crypto_block.specs.Des.{ede3};
ghost use Rattle.krb_crypto_hash.specs.CryptoError.{IsMemoryOr, IsKeyLengthError};
ghost use Rattle.krb_crypto_hash.specs.Hmac.{hmac};
ghost use Rattle.krb_crypto_message.specs.DerivedKeys.{DerivedKeys, IsSealedUnderDes3, unopened_des3_error};
ghost use Rattle.krb_crypto_message.specs.MessageSteps.{IsDecrypted};
ghost use Rattle.krb_crypto_message.specs.Sealed.{des3_ke, des3_ki, des3_kc};
ghost use Rattle.krb_crypto_message.specs.Sealing.{IsTheOne, IsGiven, Opens, HasNoPayload, Encrypts, OpensUnchecked, HasNoPayloadUnchecked};

use super::key_derivation::derived_key;
use super::message_keys::derive_message_keys;
use crate::checksum::{checked, compared, concatenated, unchecked, without_checksum};
use crate::well_known::usage_kc;
use crate::without_checksum::{DecryptWithoutChecksum, EncryptWithoutChecksum};
use krb_crypto_block::in_place::{decrypt_des, encrypt_des};
use krb_crypto_block::octets::are_octets;
use krb_crypto_block::{
    DES3_BLOCK_SIZE, DES3_MAC_SIZE, DesKey, KerberosCryptoError, KerberosCryptoResult, pad_blocks,
};
use krb_crypto_hash::keyed::HmacSha1Key;
use std::alloc::Global;
use std::marker::Model;

/// The octets of a message with an empty payload: the confounder and the checksum.
const SHORTEST: usize = DES3_BLOCK_SIZE + DES3_MAC_SIZE;

/// Ke, ready for use, and Ki of a key and a usage. As a value it is these two.
#[derive(Drop)]
pub struct Des3MessageKey {
    ke: DesKey,
    ki: HmacSha1Key,
}

impl Model for Des3MessageKey {
    ghost use Rattle.krb_crypto_message.specs.DerivedKeys.{DerivedKeys};

    ghost Value = { DerivedKeys };

    ghost view = { λ k. record { ke = k.ke; ki = k.ki } };
}

impl Des3MessageKey {
    /// Those of this key and usage. `KeyLength` where the key has not 24 octets; it allocates nothing.
    pub fn new(key: &[u8], key_usage: i32) -> KerberosCryptoResult<Des3MessageKey>
        ensures made { IfOk result (λ k. (length key.now ≡ 24) × (k.ke ≡ des3_ke key.now key_usage) × (k.ki ≡ des3_ki key.now key_usage)) }
        ensures rejected { IfErr result (IsKeyLengthError 24 key.now) }
    {
        let keys = derive_message_keys(key, key_usage)?;
        Des3MessageKey::from_message_keys(keys.ke(), keys.ki())
    }

    /// The keys of these octets. `KeyLength` where Ke has not 24 octets; it allocates nothing.
    pub fn from_message_keys(ke: &[u8], ki: &[u8]) -> KerberosCryptoResult<Des3MessageKey>
        requires { length ki.now ≤ 32 }
        ensures made { IfOk result (λ k. (length ke.now ≡ 24) × (k ≡ record { ke = ke.now; ki = ki.now })) }
        ensures rejected { IfErr result (IsKeyLengthError 24 ke.now) }
    {
        Ok(Des3MessageKey {
            ke: DesKey::new(ke)?,
            ki: HmacSha1Key::new(ki),
        })
    }

    /// The payload, encrypted with the confounder before it and zeros to whole blocks after it under Ke, and the HMAC of all this under
    /// Ki, of 20 octets. `OutOfMemory` is the only error.
    pub fn encrypt(
        &self,
        alloc: Global,
        payload: &[u8],
        confounder: [u8; DES3_BLOCK_SIZE],
    ) -> KerberosCryptoResult<Vec<u8>>
        ensures sealed { IfOk result (λ octets. IsTheOne (IsSealedUnderDes3 self.now confounder payload.now) octets.items) }
        ensures memory { IfErr result (λ e. e ≡ KerberosCryptoError.OutOfMemory) }
    {
        let mut octets = padded(alloc, &confounder, payload, DES3_MAC_SIZE)?;
        let mac = self.ki.mac(&octets);
        encrypt_des(&self.ke, &mut octets);
        octets.extend_from_slice(&mac)?;
        Ok(octets)
    }

    /// What `encrypt` makes, without the checksum; with it the confounder and Ki.
    pub fn encrypt_no_checksum(
        &self,
        alloc: Global,
        payload: &[u8],
        confounder: [u8; DES3_BLOCK_SIZE],
    ) -> KerberosCryptoResult<EncryptWithoutChecksum>
        ensures encrypted { IfOk result (λ made. IsTheOne (Encrypts (IsSealedUnderDes3 self.now) 20 confounder payload.now) made.encrypted.items) }
        ensures confounder { IfOk result (λ made. made.confounder.items ≡ confounder) }
        ensures ki { IfOk result (λ made. made.ki.items ≡ self.now.ki) }
        ensures memory { IfErr result (λ e. e ≡ KerberosCryptoError.OutOfMemory) }
    {
        let mut octets = padded(alloc, &confounder, payload, 0)?;
        encrypt_des(&self.ke, &mut octets);
        without_checksum(alloc, octets, &confounder, self.ki.as_slice())
    }

    /// The payload that was encrypted to these octets, with its padding, whatever that is. `CipherLength` of their number and 28 where
    /// they are fewer, then `CipherUnpad` where those before the last 20 are not whole blocks of 8, then `IntegrityCheck` where the
    /// checksum is another; nothing is returned before it is compared.
    pub fn decrypt(&self, alloc: Global, cipher_data: &[u8]) -> KerberosCryptoResult<Vec<u8>>
        ensures opened { IfOk result (λ payload. Opens 8 (IsGiven (IsSealedUnderDes3 self.now) 8 cipher_data.now) payload.items) }
        ensures rejected { IfErr result (λ e. IsMemoryOr e (HasNoPayload (IsSealedUnderDes3 self.now) 8 cipher_data.now)) }
        ensures exact { IfErr result (λ e. IsMemoryOr e (e ≡ unopened_des3_error cipher_data.now)) }
    {
        let padded = self.decrypted(alloc, cipher_data)?;
        checked(
            padded,
            &self.ki,
            cipher_data,
            DES3_BLOCK_SIZE,
            DES3_MAC_SIZE,
        )
    }

    /// What the octets without their last 20 decrypt to, with the padding, whatever that is, these 20 octets, which are not compared,
    /// and Ki. `CipherLength` and `CipherUnpad` as in `decrypt`.
    pub fn decrypt_no_checksum(
        &self,
        alloc: Global,
        cipher_data: &[u8],
    ) -> KerberosCryptoResult<DecryptWithoutChecksum>
        ensures opened { IfOk result (λ made. OpensUnchecked 8 8 20 (IsSealedUnderDes3 self.now) cipher_data.now
            made.confounder.items made.plaintext.items made.checksum.items) }
        ensures ki { IfOk result (λ made. made.ki.items ≡ self.now.ki) }
        ensures rejected { IfErr result (λ e. IsMemoryOr e (HasNoPayloadUnchecked 8 20 (IsSealedUnderDes3 self.now) cipher_data.now)) }
        ensures exact { IfErr result (λ e. IsMemoryOr e ((e ≡ unopened_des3_error cipher_data.now) × (e ≢ KerberosCryptoError.IntegrityCheck))) }
    {
        let padded = self.decrypted(alloc, cipher_data)?;
        unchecked(
            alloc,
            padded,
            self.ki.as_slice(),
            cipher_data,
            DES3_BLOCK_SIZE,
            DES3_MAC_SIZE,
        )
    }

    /// What the octets without their last 20 decrypt to under Ke, whatever Ki is.
    fn decrypted(&self, alloc: Global, cipher_data: &[u8]) -> KerberosCryptoResult<Vec<u8>>
        ensures decrypted { IfOk result (λ padded. IsDecrypted 8 8 20 (IsCbc 8 (ede3 self.now.ke)) self.now.ki cipher_data.now padded.items self.now.ki) }
        ensures exact { IfErr result (λ e. IsMemoryOr e ((e ≡ unopened_des3_error cipher_data.now) × (e ≢ KerberosCryptoError.IntegrityCheck))) }
    {
        if cipher_data.len() < SHORTEST {
            return Err(KerberosCryptoError::CipherLength(cipher_data.len(), SHORTEST));
        }
        let encrypted = &cipher_data[..cipher_data.len() - DES3_MAC_SIZE];
        if encrypted.len() % DES3_BLOCK_SIZE != 0 {
            return Err(KerberosCryptoError::CipherUnpad);
        }
        let mut padded = Vec::from_slice(alloc, encrypted)?;
        decrypt_des(&self.ke, &mut padded);
        are_octets(&padded);
        Ok(padded)
    }
}

/// Confounder and payload, padded to whole blocks, with room for `spare` octets after them.
fn padded(
    alloc: Global,
    confounder: &[u8; DES3_BLOCK_SIZE],
    payload: &[u8],
    spare: usize,
) -> KerberosCryptoResult<Vec<u8>>
    requires { spare ≤ 20 }
    ensures padded { IfOk result (λ octets. IsPadding 8 (confounder.now ++ payload.now) octets.items) }
    ensures octets { IfOk result (λ octets. IsOctets octets.items) }
    ensures memory { IfErr result (λ e. e ≡ KerberosCryptoError.OutOfMemory) }
{
    let mut octets = concatenated(alloc, confounder, payload, DES3_BLOCK_SIZE + spare)?;
    pad_blocks(&mut octets)?;
    are_octets(&octets);
    Ok(octets)
}

/// Kc of a key and a usage (RFC 3961, 5.4). As a value it is its octets.
#[derive(Drop)]
pub struct Des3ChecksumKey {
    kc: HmacSha1Key,
}

impl Model for Des3ChecksumKey {
    ghost Value = { List ℕ };

    ghost view = { λ k. k.kc };
}

impl Des3ChecksumKey {
    /// Kc of this key and usage. `KeyLength` where the key has not 24 octets; it allocates nothing.
    pub fn new(key: &[u8], key_usage: i32) -> KerberosCryptoResult<Des3ChecksumKey>
        ensures made { IfOk result (λ k. (length key.now ≡ 24) × (k ≡ des3_kc key.now key_usage)) }
        ensures rejected { IfErr result (IsKeyLengthError 24 key.now) }
    {
        let base = DesKey::new(key)?;
        Ok(Des3ChecksumKey {
            kc: HmacSha1Key::new(&derived_key(&base, &usage_kc(key_usage))),
        })
    }

    /// The checksum of a message that stands alone: its HMAC under Kc, of 20 octets. `OutOfMemory` is the only error.
    pub fn checksum(&self, alloc: Global, payload: &[u8]) -> KerberosCryptoResult<Vec<u8>>
        ensures checksum { IfOk result (λ checksum. checksum.items ≡ hmac self.now payload.now) }
        ensures memory { IfErr result (λ e. e ≡ KerberosCryptoError.OutOfMemory) }
    {
        Ok(Vec::from_slice(alloc, &self.kc.mac(payload))?)
    }

    /// Whether these octets are the payload's checksum. Else `IntegrityCheck`; it allocates nothing.
    pub fn verify(&self, payload: &[u8], checksum: &[u8]) -> KerberosCryptoResult<()>
        ensures equal { IfOk result (λ _. checksum.now ≡ hmac self.now payload.now) }
        ensures rejected { IfErr result (λ e. (checksum.now ≢ hmac self.now payload.now) × (e ≡ KerberosCryptoError.IntegrityCheck)) }
    {
        compared(checksum, &self.kc.mac(payload))
    }
}
