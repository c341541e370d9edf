//! A key as text.

ghost use Rattle.std.specs.Prelude.{◌≡◌, None, Some, IfOk, MatchOption};
ghost use Rattle.krb_decrypt.specs.KeytabKeys.{key_of_suite, key_in};

use crate::key::Key;
use crate::suites::{digits_of, suite_of_text};
use krb_crypto::{Cipher, CipherSuite};
use krb_input::hexadecimal_of;
use std::alloc::{AllocError, Global};

/// The octets of the key of this suite in a text that begins with the suite.
fn octets_of_suite(
    alloc: Global,
    suite: &CipherSuite,
    text: &[u8],
) -> Result<Option<Vec<u8>>, AllocError>
    ensures { IfOk result (λ found. MatchOption found (key_of_suite suite.now text.now ≡ None) (λ octets. key_of_suite suite.now text.now ≡ Some octets.items)) }
{
    let Some(digits) = digits_of(suite, text) else {
        return Ok(None);
    };
    let Some(octets) = hexadecimal_of(alloc, digits)? else {
        return Ok(None);
    };
    if octets.len() == suite.key_size() {
        Ok(Some(octets))
    } else {
        Ok(None)
    }
}

/// The key that a text is, under a name: `ETYPE:HEX`, where ETYPE is 16 to 20 or the name of such an encryption type (RFC 3961, 8; RFC 3962, 7;
/// RFC 8009, 7) and HEX the octets of a key of its length, two digits each. `None` for any other text. The only error is an allocation failure.
pub fn key_of_text(alloc: Global, text: &[u8], name: Vec<u8>) -> Result<Option<Key>, AllocError>
    ensures { IfOk result (λ found. found ≡ key_in text.now name.items) }
{
    let Some(suite) = suite_of_text(text) else {
        return Ok(None);
    };
    match octets_of_suite(alloc, &suite, text)? {
        Some(octets) => Ok(Some(Key {
            suite,
            octets,
            name,
        })),
        None => Ok(None),
    }
}
