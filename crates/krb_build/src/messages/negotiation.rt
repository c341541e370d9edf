//! NegTokenInit.

ghost use Rattle.std.specs.Prelude.{◌≡◌, None, map, IfOk};
ghost use Rattle.krb_build.specs.Mechanisms.{arcs};
ghost use Rattle.krb_build.specs.declared.mechanisms.Mechanism.TheVariants.{Spnego};

use super::field;
use super::known::known_octet_string;
use crate::mechanisms::{Mechanism, known_identifiers};
use krb_der::{Asn1SequenceOf, DerEncode, ExplicitContextTag0, OctetStringAsn1, Optional};
use krb_gss_tokens::gss_api::{GssApiNegInit, MechType, NegTokenInit};
use std::alloc::{AllocError, Global};

/// The object identifiers of mechanisms, in order.
fn mech_types(alloc: Global, mechanisms: &[Mechanism]) -> Result<Vec<MechType>, AllocError>
    ensures { IfOk result (λ types. types.items ≡ map arcs mechanisms.now) }
{
    let mut types = Vec::new(alloc);
    for mechanism in mechanisms {
        types.push(mechanism.identifier(alloc)?)?;
    }
    Ok(types)
}

/// The NegTokenInit that offers these mechanisms, the preferred first, with the first token of the preferred one (RFC 4178, 4.2.1). The only
/// error is an allocation failure.
pub fn neg_token_init(
    alloc: Global,
    mechanisms: &[Mechanism],
    token: Option<OctetStringAsn1>,
) -> Result<NegTokenInit, AllocError>
    ensures mechanisms { IfOk result (λ m. m.mech_types.0 ≡ Some (map arcs mechanisms.now)) }
    ensures token { IfOk result (λ m. m.mech_token.0 ≡ token) }
    ensures value { IfOk result ⟦<NegTokenInit as DerEncode>⟧.is_value }
    ensures no_other { IfOk result (λ m. (m.req_flags.0 ≡ None) × (m.mech_list_mic.0 ≡ None)) }
{
    known_identifiers();
    known_octet_string(&token);
    let types = mech_types(alloc, mechanisms)?;
    Ok(NegTokenInit {
        mech_types: field(Some(Asn1SequenceOf(types))),
        req_flags: Optional(None),
        mech_token: field(token),
        mech_list_mic: Optional(None),
    })
}

/// The message as it begins a negotiation, with the object identifier of SPNEGO (RFC 4178, 4.2; RFC 2743, 3.1): as
/// `ApplicationTag0<GssApiNegInit>` it is the whole token. The only error is an allocation failure.
pub fn gss_api_neg_init(
    alloc: Global,
    neg_token_init: NegTokenInit,
) -> Result<GssApiNegInit, AllocError>
    ensures mechanism { IfOk result (λ m. m.oid ≡ arcs Spnego) }
    ensures message { IfOk result (λ m. m.neg_token_init ≡ neg_token_init) }
{
    match Mechanism::Spnego.identifier(alloc) {
        Ok(oid) => Ok(GssApiNegInit {
            oid,
            neg_token_init: ExplicitContextTag0::from(neg_token_init),
        }),
        Err(error) => {
            drop(neg_token_init);
            Err(error)
        }
    }
}
