//! Calls of a suite, by its name or its number.

use crate::crypto::parts::{agreed, generated, try_part};
use crate::crypto::row::{Answer, Row, answer_of, text_of};
use crate::crypto::toy::Toy;
use krb_crypto::{
    Checksum, ChecksumSuite, Cipher, CipherSuite, DecryptWithoutChecksum, EncryptWithoutChecksum,
    KerberosCryptoError, KerberosCryptoResult,
};
use krb_crypto_suite_types::aes::{
    Aes128CtsHmacSha196, Aes256CtsHmacSha196, HmacSha196Aes128, HmacSha196Aes256,
};
use krb_crypto_suite_types::aes_sha2::{
    Aes128CtsHmacSha256128, Aes256CtsHmacSha384192, HmacSha256128Aes128, HmacSha384192Aes256,
};
use krb_crypto_suite_types::des::{Des3CbcSha1Kd, HmacSha1Des3Kd};
use std::alloc::{AllocError, Global};

/// The sizes of a cipher, the number of its type and that of its checksum's.
fn sizes_of(alloc: Global, cipher: &dyn Cipher) -> Result<String, AllocError> {
    let (key, seed) = (cipher.key_size(), cipher.seed_bit_len());
    let (confounder, fill) = (cipher.confounder_size(), cipher.fill_size());
    let number = u8::from(cipher.cipher_type());
    let sum = u8::from(cipher.checksum_type());
    format!(in alloc;
        "key {key} seed {seed} confounder {confounder} fill {fill} cipher {number} checksum {sum}"
    )
}

/// What was encrypted, its confounder and the key of its checksum.
fn shut(
    alloc: Global,
    made: KerberosCryptoResult<EncryptWithoutChecksum>,
) -> KerberosCryptoResult<String> {
    let made = made?;
    let encrypted = hex::encode(alloc, made.encrypted.as_slice())?;
    let confounder = hex::encode(alloc, made.confounder.as_slice())?;
    let ki = hex::encode(alloc, made.ki.as_slice())?;
    Ok(format!(in alloc; "{encrypted} confounder {confounder} ki {ki}")?)
}

/// What was decrypted, its confounder, its checksum and the key of that.
fn split(
    alloc: Global,
    read: KerberosCryptoResult<DecryptWithoutChecksum>,
) -> KerberosCryptoResult<String> {
    let read = read?;
    let plaintext = hex::encode(alloc, read.plaintext.as_slice())?;
    let confounder = hex::encode(alloc, read.confounder.as_slice())?;
    let checksum = hex::encode(alloc, read.checksum.as_slice())?;
    let ki = hex::encode(alloc, read.ki.as_slice())?;
    Ok(format!(in alloc; "{plaintext} confounder {confounder} checksum {checksum} ki {ki}")?)
}

/// The key that a seed makes. `None` where the seed is too short.
fn seeded(
    alloc: Global,
    cipher: &dyn Cipher,
    seed: &[u8],
) -> Option<KerberosCryptoResult<Vec<u8>>> {
    if seed.len() < cipher.seed_bit_len() / 8 {
        return None;
    }
    Some(match Vec::from_slice(alloc, seed) {
        Ok(seed) => cipher.random_to_key(alloc, seed),
        Err(_) => Err(KerberosCryptoError::OutOfMemory),
    })
}

/// Calls of a cipher under a confounder, which stands beside the input.
fn try_sealing(alloc: Global, cipher: &dyn Cipher, row: &Row) -> Answer {
    let (key, usage, confounder, input) = (&row.key, row.number, &row.beside, &row.input);
    if confounder.len() != cipher.confounder_size() {
        return None;
    }
    if row.call == "encrypt" {
        return answer_of(alloc, cipher.encrypt(alloc, key, usage, input, confounder));
    }
    Some(shut(
        alloc,
        cipher.encrypt_no_checksum(alloc, key, usage, input, confounder),
    ))
}

/// Calls of a cipher (RFC 3961, 3).
fn try_cipher(alloc: Global, cipher: &dyn Cipher, row: &Row) -> Answer {
    let (key, usage, input) = (&row.key, row.number, &row.input);
    let octets = match row.call {
        "encrypt" | "encrypt_no_checksum" => return try_sealing(alloc, cipher, row),
        "decrypt" => cipher.decrypt(alloc, key, usage, input),
        "decrypt_no_checksum" => {
            return Some(split(alloc, cipher.decrypt_no_checksum(alloc, key, usage, input)));
        }
        "encryption_checksum" => cipher.encryption_checksum(alloc, key, usage, input),
        "generate_key_from_password" => {
            cipher.generate_key_from_password(alloc, key, &row.beside)
        }
        "seed_to_key" => seeded(alloc, cipher, input)?,
        "sizes" => return text_of(sizes_of(alloc, cipher)),
        "agree" => return Some(agreed(alloc, cipher, row)),
        "encrypt_with_rng" => return Some(generated(alloc, cipher, row)),
        _ => return try_part(alloc, cipher, row),
    };
    answer_of(alloc, octets)
}

/// Calls of the cipher of this name or number, or of one of the caller's own, whose seeds have one
/// octet, 5,120 or one more.
pub fn try_suite(alloc: Global, row: &Row) -> Answer {
    match row.suite {
        "aes128" => try_cipher(alloc, &Aes128CtsHmacSha196::new(), row),
        "aes256" => try_cipher(alloc, &Aes256CtsHmacSha196::default(), row),
        "des3" => try_cipher(alloc, &Des3CbcSha1Kd::new(), row),
        "des3 by default" => try_cipher(alloc, &Des3CbcSha1Kd::default(), row),
        "aes128-sha2" => try_cipher(alloc, &Aes128CtsHmacSha256128::new(), row),
        "aes256-sha2" => try_cipher(alloc, &Aes256CtsHmacSha384192::default(), row),
        "toy" => try_cipher(alloc, &Toy { spare_seed: 0 }, row),
        "toy of the longest seed" => try_cipher(alloc, &Toy { spare_seed: 5119 }, row),
        "toy of a longer seed" => try_cipher(alloc, &Toy { spare_seed: 5120 }, row),
        number => {
            let suite = CipherSuite::try_from(number.parse::<usize>().ok()?).ok()?;
            try_cipher(alloc, &suite, row)
        }
    }
}

/// Calls of a checksum (RFC 3961, 4): its type, or the checksum.
fn sum_of(alloc: Global, checksum: &dyn Checksum, row: &Row) -> Answer {
    if row.call == "checksum_type" {
        let number = u8::from(checksum.checksum_type());
        return text_of(format!(in alloc; "{number}"));
    }
    let sum = checksum.checksum(alloc, &row.key, row.number, &row.input);
    answer_of(alloc, sum)
}

/// Calls of the checksum of this name or number.
pub fn try_checksum(alloc: Global, row: &Row) -> Answer {
    if row.call != "checksum" && row.call != "checksum_type" {
        return None;
    }
    match row.suite {
        "aes128" => sum_of(alloc, &HmacSha196Aes128, row),
        "aes256" => sum_of(alloc, &HmacSha196Aes256, row),
        "des3" => sum_of(alloc, &HmacSha1Des3Kd, row),
        "aes128-sha2" => sum_of(alloc, &HmacSha256128Aes128, row),
        "aes256-sha2" => sum_of(alloc, &HmacSha384192Aes256, row),
        number => {
            let suite = ChecksumSuite::try_from(number.parse::<usize>().ok()?).ok()?;
            sum_of(alloc, &suite, row)
        }
    }
}
