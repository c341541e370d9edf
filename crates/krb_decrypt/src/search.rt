//! The first key and key usage under which octets are encrypted.

ghost use Rattle.std.specs.Prelude.{IfOk, MatchBool, MatchOption};
ghost use Rattle.krb_decrypt.specs.Search.{IsFirstKey, IsFirstUsage, NoneIsOf, NoneOpens, OneIsOf, OpensNone};

use crate::key::Key;
use crate::payload::decrypted_under;
use crate::usage::Usage;
use krb_crypto::CipherSuite;
use std::alloc::{AllocError, Global};

/// A usage, and what octets decrypt to.
#[derive(Drop)]
struct Opened {
    usage: Usage,
    decrypted: Vec<u8>,
}

/// The first of these usages for which the octets are encrypted under the key.
fn first_usage(
    alloc: Global,
    key: &Key,
    usages: &[Usage],
    cipher: &[u8],
) -> Result<Option<Opened>, AllocError>
    ensures { IfOk result (λ found. MatchOption found (OpensNone key.now cipher.now usages.now)
        (λ o. IsFirstUsage key.now cipher.now usages.now o.usage o.decrypted.items)) }
{
    for usage in usages {
        if let Some(decrypted) = decrypted_under(alloc, key, *usage, cipher)? {
            return Ok(Some(Opened {
                usage: *usage,
                decrypted,
            }));
        }
    }
    Ok(None)
}

/// The place of a key among keys, a usage, and what octets decrypt to.
#[derive(Drop)]
pub(crate) struct Found {
    pub(crate) index: usize,
    pub(crate) usage: Usage,
    pub(crate) decrypted: Vec<u8>,
}

/// The first key of the suite under which the octets are encrypted for one of these usages, and the first of these.
pub(crate) fn first_key(
    alloc: Global,
    keys: &[Key],
    suite: &CipherSuite,
    usages: &[Usage],
    cipher: &[u8],
) -> Result<Option<Found>, AllocError>
    ensures { IfOk result (λ found. MatchOption found (NoneOpens suite.now cipher.now usages.now keys.now)
        (λ f. IsFirstKey suite.now cipher.now usages.now keys.now f.index f.usage f.decrypted.items)) }
{
    for (index, key) in keys.iter().enumerate() {
        if key.suite == *suite {
            if let Some(opened) = first_usage(alloc, key, usages, cipher)? {
                return Ok(Some(Found {
                    index,
                    usage: opened.usage,
                    decrypted: opened.decrypted,
                }));
            }
        }
    }
    Ok(None)
}

/// Whether one of the keys is of the suite.
pub(crate) fn is_of_one(keys: &[Key], suite: &CipherSuite) -> bool
    ensures { MatchBool result (OneIsOf suite.now keys.now) (NoneIsOf suite.now keys.now) }
{
    for key in keys {
        if key.suite == *suite {
            return true;
        }
    }
    false
}
