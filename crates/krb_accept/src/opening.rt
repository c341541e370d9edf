//! What octets encode, and what is encrypted to octets.

ghost use Rattle.std.specs.Prelude.{◌≡◌, ◌≢◌, ⊤, pos, length, IfOk, MatchOption};
ghost use Rattle.krb_accept.specs.Opening.{Encodes, SealsValue};
ghost use Rattle.krb_accept_rules.specs.Values.{HasNone, IsTheValue};
ghost use Rattle.krb_crypto.specs.BySuite.{key_octets_of};
ghost use Rattle.krb_crypto.specs.PreparedKeys.{IsPreparedFor};
ghost use Rattle.krb_crypto.specs.Suites.{etype};
ghost use Rattle.krb_crypto.specs.declared.cipher_suite.CipherSuite.{CipherSuite};

use krb_crypto::CipherSuite;
use krb_crypto::prepared::OpeningKey;
use krb_crypto::seal::prepared::open_part;
use krb_der::{Der, DerEncode, IntegerAsn1, OctetStringAsn1, from_bytes};
use std::alloc::{AllocError, Global};

/// The suite of an encryption type, as of `CipherSuite::of_number`.
pub fn suite_of(number: &IntegerAsn1) -> Option<CipherSuite>
    ensures { MatchOption result ((suite : CipherSuite) → number.now ≡ pos (etype suite) → ⊥) (λ suite. number.now ≡ pos (etype suite)) }
{
    CipherSuite::of_number(number)
}

/// The one value whose encoding the octets are, where they are one.
pub fn value_of<T: Der + Drop>(alloc: Global, octets: &[u8]) -> Result<Option<T>, AllocError>
    ensures { IfOk result (λ found. MatchOption found (HasNone (Encodes ⟦<T as DerEncode>⟧ octets.now)) (IsTheValue (Encodes ⟦<T as DerEncode>⟧ octets.now))) }
{
    match from_bytes::<T>(alloc, octets) {
        Ok(value) => Ok(Some(value)),
        Err(error) => {
            if error.is_out_of_memory() {
                return Err(AllocError);
            }
            Ok(None)
        }
    }
}

/// The key, prepared for a usage, where its length is the suite's.
fn prepared_for(suite: &CipherSuite, key: &[u8], usage: i32) -> Option<OpeningKey>
    ensures none { MatchOption result (length key.now ≢ key_octets_of suite.now) (λ k. k.suite ≡ suite.now) }
    ensures some { MatchOption result ⊤ (IsPreparedFor key.now usage) }
{
    match OpeningKey::new(suite, key, usage) {
        Ok(prepared) => Some(prepared),
        Err(_error) => None,
    }
}

/// The octets of an OCTET STRING.
pub(crate) fn octets_of(string: &OctetStringAsn1) -> &[u8]
    ensures { result.now ≡ string.now }
{
    &string.0
}

/// The one value whose encoding is encrypted to the octets under this key for this usage, where there is one.
pub(crate) fn value_under<T: Der + Drop>(
    alloc: Global,
    suite: &CipherSuite,
    key: &[u8],
    usage: i32,
    octets: &[u8],
) -> Result<Option<T>, AllocError>
    ensures { IfOk result
        (λ found. MatchOption found (HasNone (SealsValue ⟦<T as DerEncode>⟧ suite.now key.now usage octets.now))
        (IsTheValue (SealsValue ⟦<T as DerEncode>⟧ suite.now key.now usage octets.now))) }
{
    let Some(prepared) = prepared_for(suite, key, usage) else {
        return Ok(None);
    };
    match open_part::<T>(alloc, &prepared, octets) {
        Ok(value) => Ok(Some(value)),
        Err(error) => {
            if error.is_out_of_memory() {
                return Err(AllocError);
            }
            Ok(None)
        }
    }
}
