//! The cipher, and what it has to keep.

ghost use Rattle.std.specs.Prelude.{◌≡◌, ◌≢◌, ◌<◌, ◌≤◌, ◌+◌, ◌*◌, ◌%◌, ℕ, List, [], ◌∷◌, ◌++◌, length, take, map, bit_xor, replicate, IfOk, MatchResult};
ghost use Rattle.krb_der.specs.Encoding.{IsOctets};
ghost use Rattle.krb_crypto_block.specs.Modes.{IsPadding};
ghost use Rattle.test_rows.specs.Toy.{IsToy, IsToyRejection, IsToyUnopened};

use krb_crypto::{
    ChecksumSuite, Cipher, CipherSuite, DecryptWithoutChecksum, EncryptWithoutChecksum,
    KerberosCryptoError, KerberosCryptoResult,
};
use std::alloc::{AllocError, Global};

const KEY_SIZE: usize = 1;

const CONFOUNDER_SIZE: usize = 4;

const FILL_SIZE: usize = 4;

/// The confounder and the payload, padded with zeros to a multiple of four octets, each combined with the key's one
/// octet by exclusive or. There is no checksum.
#[derive(Debug, Drop)]
pub struct Toy {
    /// The octets of a seed that no key is made of: those after its first.
    pub spare_seed: u16,
}

/// The key's one octet.
fn key_octet(key: &[u8]) -> KerberosCryptoResult<u8>
    ensures { MatchResult result (λ octet. key.now ≡ octet ∷ []) (λ e. (length key.now ≢ 1) × (e ≡ KerberosCryptoError.KeyLength (length key.now) 1)) }
{
    if key.len() == KEY_SIZE {
        Ok(key[0])
    } else {
        Err(KerberosCryptoError::KeyLength(key.len(), KEY_SIZE))
    }
}

/// The octets, each combined with this one by exclusive or.
fn xored(alloc: Global, octet: u8, octets: &[u8]) -> Result<Vec<u8>, AllocError>
    ensures { IfOk result (λ v. v.items ≡ map (λ x. bit_xor x octet) octets.now) }
{
    octets.iter().map(|x| *x ^ octet).collect(alloc)
}

/// The confounder and the payload, with the fewest zeros to a multiple of four octets.
fn padded(alloc: Global, confounder: &[u8], payload: &[u8]) -> Result<Vec<u8>, AllocError>
    ensures fill { IfOk result (λ v. IsPadding 4 (confounder.now ++ payload.now) v.items) }
    ensures octets { IfOk result (λ v. IsOctets v.items) }
{
    let mut all = Vec::from_slice(alloc, confounder)?;
    all.extend_from_slice(payload)?;
    let zeros = (FILL_SIZE - all.len() % FILL_SIZE) % FILL_SIZE;
    all.resize(all.len() + zeros, 0)?;
    Ok(all)
}

/// Whether these are a confounder and whole blocks: `CipherLength` or `CipherUnpad` where they are not.
fn check_blocks(octets: &[u8]) -> KerberosCryptoResult<()>
    ensures { MatchResult result (λ _. (4 ≤ length octets.now) × (length octets.now % 4 ≡ 0)) (λ e. IsToyRejection (length octets.now) e) }
{
    if octets.len() < CONFOUNDER_SIZE {
        return Err(KerberosCryptoError::CipherLength(octets.len(), CONFOUNDER_SIZE));
    }
    if octets.len() % FILL_SIZE != 0 {
        return Err(KerberosCryptoError::CipherUnpad);
    }
    Ok(())
}

impl Cipher for Toy {
    ghost use Rattle.krb_crypto.specs.declared.cipher_suite.CipherSuite.TheVariants.{Aes128CtsHmacSha196};
    ghost use Rattle.krb_crypto.specs.declared.checksum_suite.ChecksumSuite.TheVariants.{HmacSha196Aes128};

    ghost meaning = { λ _ key _ confounder payload octets. IsToy key confounder payload octets };

    ghost key_octets = { λ _. 1 };

    ghost confounder_octets = { λ _. 4 };

    ghost padding_octets = { λ _. 4 };

    ghost checksum_octets = { λ _. 0 };

    ghost integrity_key = { λ _ _ _. [] };

    ghost integrity_checksum = { λ _ _ _ _. [] };

    ghost seed_bits = { λ toy. 8 * (1 + toy.spare_seed) };

    ghost key_of_seed = { λ _ seed. take 1 seed };

    ghost password_key = { λ _ _ _ key. key ≡ 0 ∷ [] };

    ghost unopened = { λ _ key _ octets e. IsToyUnopened key octets e };

    ghost no_password_key = { λ _ _ _ _. ⊥ };

    ghost encryption_type = { λ _. Aes128CtsHmacSha196 };

    ghost keyed_checksum_type = { λ _. HmacSha196Aes128 };

    fn key_size(&self) -> usize {
        KEY_SIZE
    }

    fn seed_bit_len(&self) -> usize {
        8 * (KEY_SIZE + self.spare_seed as usize)
    }

    fn confounder_size(&self) -> usize {
        CONFOUNDER_SIZE
    }

    fn fill_size(&self) -> usize {
        FILL_SIZE
    }

    fn cipher_type(&self) -> CipherSuite {
        CipherSuite::Aes128CtsHmacSha196
    }

    fn checksum_type(&self) -> ChecksumSuite {
        ChecksumSuite::HmacSha196Aes128
    }

    fn encrypt(
        &self,
        alloc: Global,
        key: &[u8],
        _key_usage: i32,
        payload: &[u8],
        confounder: &[u8],
    ) -> KerberosCryptoResult<Vec<u8>> {
        let octet = key_octet(key)?;
        let all = padded(alloc, confounder, payload)?;
        Ok(xored(alloc, octet, &all)?)
    }

    fn decrypt(
        &self,
        alloc: Global,
        key: &[u8],
        key_usage: i32,
        cipher_data: &[u8],
    ) -> KerberosCryptoResult<Vec<u8>> {
        Ok(
            self.decrypt_no_checksum(alloc, key, key_usage, cipher_data)?
                .plaintext,
        )
    }

    fn encrypt_no_checksum(
        &self,
        alloc: Global,
        key: &[u8],
        key_usage: i32,
        payload: &[u8],
        confounder: &[u8],
    ) -> KerberosCryptoResult<EncryptWithoutChecksum> {
        Ok(EncryptWithoutChecksum {
            encrypted: self.encrypt(alloc, key, key_usage, payload, confounder)?,
            confounder: Vec::from_slice(alloc, confounder)?,
            ki: Vec::new(alloc),
        })
    }

    fn decrypt_no_checksum(
        &self,
        alloc: Global,
        key: &[u8],
        _key_usage: i32,
        cipher_data: &[u8],
    ) -> KerberosCryptoResult<DecryptWithoutChecksum> {
        let octet = key_octet(key)?;
        check_blocks(cipher_data)?;
        let (confounder, payload) = cipher_data.split_at(CONFOUNDER_SIZE);
        Ok(DecryptWithoutChecksum {
            plaintext: xored(alloc, octet, payload)?,
            confounder: xored(alloc, octet, confounder)?,
            checksum: Vec::new(alloc),
            ki: Vec::new(alloc),
        })
    }

    fn encryption_checksum(
        &self,
        alloc: Global,
        key: &[u8],
        _key_usage: i32,
        _payload: &[u8],
    ) -> KerberosCryptoResult<Vec<u8>> {
        key_octet(key)?;
        Ok(Vec::new(alloc))
    }

    fn generate_key_from_password(
        &self,
        alloc: Global,
        _password: &[u8],
        _salt: &[u8],
    ) -> KerberosCryptoResult<Vec<u8>> {
        Ok(vec![in alloc; 0; KEY_SIZE]?)
    }

    fn random_to_key(&self, _alloc: Global, mut key: Vec<u8>) -> KerberosCryptoResult<Vec<u8>> {
        key.truncate(KEY_SIZE);
        Ok(key)
    }
}
