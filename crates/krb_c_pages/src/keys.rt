//! The keys of a keytab.

ghost use Rattle.std.specs.Prelude.{MatchResult};
ghost use Rattle.krb_c_pages.specs.Pages.{AreKeysOf, HasNoKeys};

use krb_c_calls::CallError;
use krb_decrypt::{Key, KeytabKeysError, keys_of_keytab};
use std::alloc::Global;

/// The keys of the keytab that the octets are; none of no octets.
pub(crate) fn keys_of(alloc: Global, keytab: &[u8]) -> Result<Vec<Key>, CallError>
    ensures { MatchResult result (λ keys. AreKeysOf keytab.now keys.items) (HasNoKeys keytab.now) }
{
    if keytab.is_empty() {
        return Ok(Vec::new(alloc));
    }
    match keys_of_keytab(alloc, keytab) {
        Ok(keys) => Ok(keys),
        Err(KeytabKeysError::OutOfMemory) => Err(CallError::Memory),
        Err(KeytabKeysError::Keytab(_)) => Err(CallError::Keytab),
    }
}
