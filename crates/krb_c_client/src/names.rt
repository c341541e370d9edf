//! Names of principals, by their texts.

ghost use Rattle.std.specs.Prelude.{◌≡◌, ◌⊎◌, pos, IfErr, IfOk, MatchOption, Some, None};
ghost use Rattle.krb_types.specs.Principals.{IsTextOf};
ghost use Rattle.krb_c_calls.specs.declared.call_error.CallError.TheVariants as refusals;
ghost use Rattle.krb_c_client.specs.Names.{IsNamed, IsNoName, IsNameless};

use krb_c_calls::CallError;
use krb_der::{Asn1SequenceOf, GeneralStringAsn1, IntegerAsn1};
use krb_types::data_types::{PrincipalName, Realm};
use krb_types::view::{PrincipalError, TextPrincipal, principal_of_text};
use std::alloc::Global;
use std::str;

/// A principal of a realm.
#[derive(Drop)]
pub(crate) struct Named {
    /// The realm.
    pub realm: Realm,
    /// The name within it.
    pub name: PrincipalName,
}

/// The name of this type and these components.
fn name_of(alloc: Global, name_type: u32, components: Vec<GeneralStringAsn1>) -> PrincipalName
    ensures { (result.name_type ≡ pos name_type) × (result.name_string ≡ components.items) }
{
    PrincipalName {
        name_type: IntegerAsn1::from_u32(alloc, name_type).into(),
        name_string: Asn1SequenceOf(components).into(),
    }
}

/// The principal, if its text has a realm.
fn with_realm(found: TextPrincipal) -> Option<(GeneralStringAsn1, Vec<GeneralStringAsn1>)>
    ensures { MatchOption result (found.realm ≡ None)
        (λ r. (found.realm ≡ Some r.0) × (found.components.items ≡ r.1.items)) }
{
    let TextPrincipal { components, realm } = found;
    match realm {
        Some(realm) => Some((realm, components)),
        None => None,
    }
}

/// The realm and the components that a text is of. `Invalid` where it is of none.
fn parts_of(
    alloc: Global,
    text: &str,
) -> Result<(GeneralStringAsn1, Vec<GeneralStringAsn1>), CallError>
    ensures found { IfOk result (λ r. IsTextOf r.1.items (Some r.0) text.now) }
    ensures refused { IfErr result (IsNoName text.now) }
{
    match principal_of_text(alloc, text) {
        Ok(found) => match with_realm(found) {
            Some(parts) => Ok(parts),
            None => Err(CallError::Invalid),
        },
        Err(PrincipalError::OutOfMemory) => Err(CallError::Memory),
        Err(PrincipalError::InvalidText) => Err(CallError::Invalid),
    }
}

/// The principal of this type that octets are the text of (RFC 1964, 2.1.1). `Invalid` where they
/// are of none, or of one without a realm.
pub(crate) fn principal_of(alloc: Global, octets: &[u8], name_type: u32) -> Result<Named, CallError>
    ensures found { IfOk result (λ n. IsNamed octets.now name_type n.realm n.name) }
    ensures refused { IfErr result (IsNoName octets.now) }
{
    let Ok(text) = str::from_utf8(octets) else {
        return Err(CallError::Invalid);
    };
    let (realm, components) = parts_of(alloc, text)?;
    let name = name_of(alloc, name_type, components);
    Ok(Named { realm, name })
}
