//! Parts of messages that are encrypted under a key of the context.

ghost use Rattle.std.specs.Prelude.{◌≡◌, pos, IfOk, MatchBool, MatchOption};
ghost use Rattle.krb_accept.specs.WithKey.{IsSealedWith};
ghost use Rattle.krb_accept_rules.specs.Values.{HasNone, IsTheValue};

use crate::opening::{octets_of, value_under};
use krb_crypto::CipherSuite;
use krb_der::{Der, DerEncode, IntegerAsn1};
use krb_types::data_types::{EncryptedData, EncryptionKey};
use std::alloc::{AllocError, Global};

/// Whether two integers are equal.
pub(crate) fn is_same_integer(first: &IntegerAsn1, second: &IntegerAsn1) -> bool
    ensures { MatchBool result (first.now ≡ second.now) (first.now ≡ second.now → ⊥) }
{
    *first == *second
}

/// The one value whose encoding is encrypted in the part under this key for this usage, where there is one.
pub(crate) fn value_with<T: Der + Drop>(
    alloc: Global,
    key: &EncryptionKey,
    usage: i32,
    sealed: &EncryptedData,
) -> Result<Option<T>, AllocError>
    ensures { IfOk result
        (λ found. MatchOption found (HasNone (IsSealedWith ⟦<T as DerEncode>⟧ key.now usage sealed.now))
        (IsTheValue (IsSealedWith ⟦<T as DerEncode>⟧ key.now usage sealed.now))) }
{
    if !is_same_integer(&sealed.etype.0, &key.key_type.0) {
        return Ok(None);
    }
    let Some(suite) = CipherSuite::of_number(&key.key_type.0) else {
        return Ok(None);
    };
    let octets = octets_of(&key.key_value.0);
    let cipher = octets_of(&sealed.cipher.0);
    value_under(alloc, &suite, octets, usage, cipher)
}
