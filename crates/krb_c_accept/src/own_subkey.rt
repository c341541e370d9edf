//! The service's subkey.

ghost use Rattle.std.specs.Prelude.{◌≡◌, length, pos, IfErr, IfOk};
ghost use Rattle.krb_c_accept.specs.Replies.{IsOwnSubkey, IsSubkeyOf, confounder_in, seed_in};
ghost use Rattle.krb_c_calls.specs.declared.call_error.CallError.TheVariants as refusals;

use krb_c_calls::CallError;
use krb_crypto::{Cipher, CipherSuite};
use krb_der::{IntegerAsn1, OctetStringAsn1};
use krb_types::data_types::EncryptionKey;
use std::alloc::Global;

/// The confounder among the random octets: the first 8 for triple DES, else the first 16.
pub(crate) fn confounder_in<'a>(suite: &CipherSuite, random: &'a [u8]) -> &'a [u8]
    requires { length random.now ≡ 48 }
    ensures { result.now ≡ confounder_in suite.now random.now }
{
    match suite {
        CipherSuite::Des3CbcSha1Kd => &random[..8],
        _ => &random[..16],
    }
}

/// The seed among the random octets, behind the first 16: 21 octets for triple DES, else as many as a key has.
fn seed_in<'a>(suite: &CipherSuite, random: &'a [u8]) -> &'a [u8]
    requires { length random.now ≡ 48 }
    ensures { result.now ≡ seed_in suite.now random.now }
{
    match suite {
        CipherSuite::Des3CbcSha1Kd => &random[16..37],
        CipherSuite::Aes128CtsHmacSha196 | CipherSuite::Aes128CtsHmacSha256128 => &random[16..32],
        CipherSuite::Aes256CtsHmacSha196 | CipherSuite::Aes256CtsHmacSha384192 => &random[16..],
    }
}

/// The key of a suite that random octets give (RFC 3961, 3: random-to-key).
fn subkey_of(alloc: Global, suite: &CipherSuite, random: &[u8]) -> Result<EncryptionKey, CallError>
    requires { length random.now ≡ 48 }
    ensures made { IfOk result (IsSubkeyOf suite.now random.now) }
    ensures refused { IfErr result (λ e. e ≡ refusals.Memory) }
{
    let seed = Vec::from_slice(alloc, seed_in(suite, random))?;
    match suite.random_to_key(alloc, seed) {
        Ok(octets) => Ok(EncryptionKey {
            key_type: IntegerAsn1::from_u32(alloc, u32::from(suite)).into(),
            key_value: OctetStringAsn1(octets).into(),
        }),
        Err(_) => Err(CallError::Memory),
    }
}

/// The service's subkey, where one is asked for.
pub(crate) fn own_subkey(
    alloc: Global,
    is_asked: bool,
    suite: &CipherSuite,
    random: &[u8],
) -> Result<Option<EncryptionKey>, CallError>
    requires { length random.now ≡ 48 }
    ensures made { IfOk result (IsOwnSubkey is_asked suite.now random.now) }
    ensures refused { IfErr result (λ e. e ≡ refusals.Memory) }
{
    if is_asked {
        Ok(Some(subkey_of(alloc, suite, random)?))
    } else {
        Ok(None)
    }
}
