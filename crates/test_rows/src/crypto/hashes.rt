//! HMAC, n-fold, PBKDF2, the KDF of RFC 8009, and DK of RFC 3961.

use crate::crypto::row::{Answer, Row, answer_of, copied, size_of};
use krb_crypto::{usage_kc, usage_ke, usage_ki};
use krb_crypto_block::{KerberosCryptoResult, n_fold};
use krb_crypto_hash::{
    hmac_sha1, hmac_sha256, hmac_sha384, kdf_hmac_sha256, kdf_hmac_sha384, pbkdf2_hmac_sha1,
    pbkdf2_hmac_sha256, pbkdf2_hmac_sha384,
};
use krb_crypto_suite_types::{aes, des};
use std::alloc::Global;

/// The octets that PBKDF2 of this name fills (RFC 8018, 5.2), `size` of them.
fn stretched(alloc: Global, row: &Row, rounds: u32, size: u8) -> KerberosCryptoResult<Vec<u8>> {
    let mut out = vec![in alloc; 0u8; size as usize]?;
    if rounds > 0 {
        match row.call {
            "pbkdf2_hmac_sha256" => pbkdf2_hmac_sha256(&row.key, &row.beside, rounds, &mut out),
            "pbkdf2_hmac_sha384" => pbkdf2_hmac_sha384(&row.key, &row.beside, rounds, &mut out),
            _ => pbkdf2_hmac_sha1(&row.key, &row.beside, rounds, &mut out),
        }
    }
    Ok(out)
}

/// Calls of HMAC (RFC 2104), PBKDF2 (RFC 8018, 5.2), the KDF (RFC 8009, 3), whose label stands
/// beside the input, n-fold (RFC 3961, 5.1), DK (5.1), whose constant stands there, and the
/// constants of derived keys (5.3).
pub fn try_hash(alloc: Global, row: &Row) -> Answer {
    let number = u16::try_from(row.number).unwrap_or(0);
    let (key, label, input) = (&row.key, &row.beside, &row.input);
    let is_whole = number > 0 && number % 8 == 0;
    let octets = match row.call {
        "usage_ke" => copied(alloc, &usage_ke(row.number)),
        "usage_ki" => copied(alloc, &usage_ki(row.number)),
        "usage_kc" => copied(alloc, &usage_kc(row.number)),
        "hmac_sha1" => hmac_sha1(alloc, key, input, number as usize),
        "hmac_sha256" => hmac_sha256(alloc, key, input, number as usize),
        "hmac_sha384" => hmac_sha384(alloc, key, input, number as usize),
        "kdf_hmac_sha256" if is_whole && number <= 256 => {
            kdf_hmac_sha256(alloc, key, label, number as u32)
        }
        "kdf_hmac_sha384" if is_whole && number <= 384 => {
            kdf_hmac_sha384(alloc, key, label, number as u32)
        }
        "derive_key" if label.is_empty() => return None,
        "derive_key" => match size_of(row.suite) {
            Some(size) => aes::derive_key(alloc, key, label, &size),
            None => des::derive_key(alloc, key, label),
        },
        "n_fold" if is_whole && !input.is_empty() => n_fold(alloc, input, number as usize),
        "pbkdf2_hmac_sha1" | "pbkdf2_hmac_sha256" | "pbkdf2_hmac_sha384" => {
            stretched(alloc, row, number as u32, row.suite.parse::<u8>().ok()?)
        }
        _ => return None,
    };
    answer_of(alloc, octets)
}
