//! Suites, by the numbers of their encryption types.

ghost use Rattle.std.specs.Prelude.{◌≡◌, ◌++◌, ◌∷◌, [], map, IfErr, IfOk, MatchResult, OnOk};
ghost use Rattle.krb_crypto.specs.Suites.{NoSuite};
ghost use Rattle.krb_c_calls.specs.Numbers.{etype_number};
ghost use Rattle.krb_c_calls.specs.declared.call_error.CallError.TheVariants as refusals;
ghost use Rattle.krb_c_client.specs.Suites.{AreNoSuites};

use krb_c_calls::CallError;
use krb_c_calls::suites::cipher_suite_of;
use krb_crypto::CipherSuite;
use std::alloc::{AllocError, Global};

/// Appends a suite.
fn push(suites: &mut Vec<CipherSuite>, suite: CipherSuite) -> Result<(), AllocError>
    ensures { OnOk result (suites.new.items ≡ suites.old.items ++ suite ∷ []) }
{
    suites.push(suite)?;
    Ok(())
}

/// The suite of this encryption type. `Number` where it has none.
pub(crate) fn suite_of(etype: &i32) -> Result<CipherSuite, CallError>
    ensures { MatchResult result (λ suite. etype_number suite ≡ etype.now) (λ e. (e ≡ refusals.Number) × NoSuite etype_number etype.now) }
{
    cipher_suite_of(*etype)
}

/// The suites of these encryption types, in their order. `Number` where one of them has none.
pub(crate) fn suites_of(alloc: Global, etypes: &[i32]) -> Result<Vec<CipherSuite>, CallError>
    ensures made { IfOk result (λ suites. map etype_number suites.items ≡ etypes.now) }
    ensures refused { IfErr result (AreNoSuites etypes.now) }
{
    let mut suites = Vec::new(alloc);
    for etype in etypes {
        let suite = suite_of(etype)?;
        push(&mut suites, suite)?;
    }
    Ok(suites)
}
