//! Encryption types that were asked for (RFC 4120, 5.4.1).

ghost use Rattle.std.specs.Prelude.{MatchBool};
ghost use Rattle.krb_client_rules.specs.Etypes.{IsAskedFor};

use krb_crypto::CipherSuite;
use krb_der::IntegerAsn1;

/// Whether the number is the encryption type of one of these suites (RFC 3961, 8).
pub fn is_asked_for(suites: &[CipherSuite], number: &IntegerAsn1) -> bool
    ensures { MatchBool result (IsAskedFor suites.now number.now) (IsAskedFor suites.now number.now → ⊥) }
{
    for suite in suites {
        if number.is_number(u32::from(suite)) {
            return true;
        }
    }
    false
}
