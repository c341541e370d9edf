//! Sealed parts, and keys of shared secrets, under the caller's cipher; and messages under the words of the caller's generator.

use crate::crypto::listed_words::ListedWords;
use crate::crypto::row::{Answer, Row, answer_of, copied};
use krb_crypto::diffie_hellman::{DhNonce, DiffieHellmanError, generate_key_from_shared_secret};
use krb_crypto::seal::{PartError, open_part, seal_part};
use krb_crypto::{Cipher, KerberosCryptoError, KerberosCryptoResult, encrypt_with_rng};
use krb_der::{Asn1DerError, from_bytes};
use krb_der_x509::Asn1RawDer;
use rand_core::Rng;
use std::alloc::Global;

/// What is told of a part that is rejected.
fn rejected(alloc: Global, rejection: PartError) -> KerberosCryptoResult<String> {
    match rejection {
        PartError::Crypto(rejection) => Err(rejection),
        PartError::Der(Asn1DerError::OutOfMemory) => Err(KerberosCryptoError::OutOfMemory),
        rejection => Ok(format!(in alloc; "refused, {rejection:?}")?),
    }
}

/// What the value of the input, of any type, is sealed to; or the value that the input is opened to.
pub fn try_part(alloc: Global, cipher: &dyn Cipher, row: &Row) -> Answer {
    let (key, usage, input) = (&row.key, row.number, &row.input);
    let octets = match row.call {
        "seal_part" if row.beside.len() == cipher.confounder_size() => {
            let part = match from_bytes::<Asn1RawDer>(alloc, input) {
                Ok(part) => part,
                Err(rejection) => return Some(rejected(alloc, PartError::Der(rejection))),
            };
            seal_part(alloc, cipher, key, usage, &row.beside, &part)
        }
        "open_part" => match open_part::<Asn1RawDer>(alloc, cipher, key, usage, input) {
            Ok(part) => return answer_of(alloc, copied(alloc, part.as_bytes())),
            Err(rejection) => Err(rejection),
        },
        _ => return None,
    };
    match octets {
        Ok(octets) => answer_of(alloc, Ok(octets)),
        Err(rejection) => Some(rejected(alloc, rejection)),
    }
}

/// The key of a shared secret: RFC 4556, 3.2.3.1. A row of the number 1 has the client's nonce
/// beside the input, which is the server's.
pub fn agreed(alloc: Global, cipher: &dyn Cipher, row: &Row) -> KerberosCryptoResult<String> {
    let secret = copied(alloc, &row.key)?;
    let nonce = if row.number == 1 {
        Some(DhNonce {
            client_nonce: &row.beside,
            server_nonce: &row.input,
        })
    } else {
        None
    };
    match generate_key_from_shared_secret(alloc, secret, nonce, cipher) {
        Ok(key) => Ok(hex::encode(alloc, key.as_slice())?),
        Err(DiffieHellmanError::OutOfMemory) => Err(KerberosCryptoError::OutOfMemory),
        Err(rejection) => Ok(format!(in alloc; "refused, {rejection:?}")?),
    }
}

/// What the input is encrypted to under a confounder of the caller's generator, and the word that the generator gives after it.
pub fn generated(alloc: Global, cipher: &dyn Cipher, row: &Row) -> KerberosCryptoResult<String> {
    let mut words = ListedWords(0);
    let made = encrypt_with_rng(alloc, cipher, &row.key, row.number, &row.input, &mut words);
    let next = words.next_u32();
    match made {
        Ok(octets) => {
            let digits = hex::encode(alloc, octets.as_slice())?;
            Ok(format!(in alloc; "{digits} next {next}")?)
        }
        Err(KerberosCryptoError::OutOfMemory) => Err(KerberosCryptoError::OutOfMemory),
        Err(rejection) => Ok(format!(in alloc; "refused, {rejection:?} next {next}")?),
    }
}
