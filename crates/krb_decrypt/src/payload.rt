//! What is encrypted under a key (RFC 3961, 5.3).

ghost use Rattle.std.specs.Prelude.{◌≡◌, ◌≢◌, ⊤, IfOk, MatchOption, length};
ghost use Rattle.krb_crypto.specs.BySuite.{key_octets_of};
ghost use Rattle.krb_crypto.specs.PreparedKeys.{IsPreparedFor};
ghost use Rattle.krb_decrypt.specs.Keys.{Decrypts, SealsNone};
ghost use Rattle.krb_decrypt.specs.Usages.{integer_of};

use crate::key::Key;
use crate::usage::Usage;
use krb_crypto::KerberosCryptoError;
use krb_crypto::prepared::OpeningKey;
use std::alloc::{AllocError, Global};

/// The key, prepared for a usage, if it has as many octets as the suite's keys.
fn prepared_for(key: &Key, usage: Usage) -> Option<OpeningKey>
    ensures none { MatchOption result (length key.now.octets ≢ key_octets_of key.now.suite) (λ k. k.suite ≡ key.now.suite) }
    ensures some { MatchOption result ⊤ (IsPreparedFor key.now.octets (integer_of usage)) }
{
    match OpeningKey::new(&key.suite, &key.octets, i32::from(usage.number())) {
        Ok(prepared) => Some(prepared),
        Err(_error) => None,
    }
}

/// What the octets decrypt to under the key for this usage: the payload that is encrypted to them, with the zeros that fill it up to whole blocks; `None` if
/// there is none, as for a key that has not as many octets as its suite's keys.
pub(crate) fn decrypted_under(
    alloc: Global,
    key: &Key,
    usage: Usage,
    cipher: &[u8],
) -> Result<Option<Vec<u8>>, AllocError>
    ensures { IfOk result (λ found. MatchOption found (SealsNone key.now (integer_of usage) cipher.now)
        (λ decrypted. Decrypts key.now (integer_of usage) cipher.now decrypted.items)) }
{
    let Some(prepared) = prepared_for(key, usage) else {
        return Ok(None);
    };
    match prepared.decrypt(alloc, cipher) {
        Ok(decrypted) => Ok(Some(decrypted)),
        Err(error) => {
            if error.is_out_of_memory() {
                return Err(AllocError);
            }
            Ok(None)
        }
    }
}
