//! The token in the first message of SPNEGO (RFC 4178, 4.2.1).

ghost use Rattle.std.specs.Prelude.{◌≡◌, List, ℕ, IfOk, MatchBool, MatchOption, Some, None, option_map};
ghost use Rattle.krb_accept.specs.Opening.{Encodes};
ghost use Rattle.krb_accept_report.specs.Negotiation.{BeginsWithKerberos, IsKerberos, IsMechToken, OffersKerberos};

use krb_accept::value_of;
use krb_der::{DerEncode, ExplicitContextTag0, OctetStringAsn1, Optional};
use krb_gss_tokens::gss_api::{
    ApplicationTag0, GssApiNegInit, MechType, MechTypeList, NegTokenInit,
};
use krb_types::view::items;
use std::alloc::{AllocError, Global};

/// The first message of a negotiation, as it is sent.
type FirstMessage = ApplicationTag0<GssApiNegInit>;

/// The mechanisms that it offers.
type MechTypes = Optional<Option<ExplicitContextTag0<MechTypeList>>>;

/// The arcs of SPNEGO (RFC 4178, 3.1).
const SPNEGO: [u64; 7] = [1, 3, 6, 1, 5, 5, 2];

/// The arcs of Kerberos (RFC 4121, 4.1).
const KERBEROS: [u64; 7] = [1, 2, 840, 113554, 1, 2, 2];

/// The arcs that Windows has for it beside (MS-SPNG, 1.9).
const KERBEROS_OF_WINDOWS: [u64; 7] = [1, 2, 840, 48018, 1, 2, 2];

/// Whether an object identifier has these arcs.
fn has_arcs(identifier: &MechType, arcs: &[u64]) -> bool
    ensures { MatchBool result (identifier.now ≡ arcs.now) (identifier.now ≡ arcs.now → ⊥) }
{
    identifier.arcs() == arcs
}

/// Whether an object identifier is that of Kerberos.
fn is_kerberos(identifier: &MechType) -> bool
    ensures { MatchBool result (IsKerberos identifier.now) (IsKerberos identifier.now → ⊥) }
{
    has_arcs(identifier, &KERBEROS) || has_arcs(identifier, &KERBEROS_OF_WINDOWS)
}

/// Whether the first of these mechanisms is Kerberos.
fn begins_with_kerberos(list: &MechTypes) -> bool
    ensures { MatchBool result (BeginsWithKerberos list.now.0) (BeginsWithKerberos list.now.0 → ⊥) }
{
    match &list.0 {
        Some(types) => match items(&types.0) {
            [first, ..] => is_kerberos(first),
            [] => false,
        },
        None => false,
    }
}

/// Whether a first message is in the frame of SPNEGO, and offers Kerberos first.
fn offers_kerberos(message: &FirstMessage) -> bool
    ensures { MatchBool result (OffersKerberos message.now) (OffersKerberos message.now → ⊥) }
{
    has_arcs(&message.0.oid, &SPNEGO)
        && begins_with_kerberos(&message.0.neg_token_init.0.mech_types)
}

/// The token in a first message.
fn token_of(message: FirstMessage) -> Option<OctetStringAsn1>
    ensures { result ≡ message.neg_token_init.mech_token.0 }
{
    let ApplicationTag0(first) = message;
    let GssApiNegInit {
        oid: _,
        neg_token_init,
    } = first;
    let init = neg_token_init.0;
    let NegTokenInit {
        mech_types: _,
        req_flags: _,
        mech_token,
        mech_list_mic: _,
    } = init;
    match mech_token.0 {
        Some(token) => Some(token.0),
        None => None,
    }
}

/// The mechToken of the first message of SPNEGO that the octets are, if they are one that offers Kerberos first and has one.
pub(crate) fn mech_token(
    alloc: Global,
    octets: &[u8],
) -> Result<Option<OctetStringAsn1>, AllocError>
    ensures { IfOk result (λ found. MatchOption found ((token : List ℕ) → IsMechToken (Encodes ⟦<FirstMessage as DerEncode>⟧ octets.now) token → ⊥)
        (λ token. IsMechToken (Encodes ⟦<FirstMessage as DerEncode>⟧ octets.now) token)) }
{
    match value_of::<FirstMessage>(alloc, octets)? {
        Some(message) => {
            if offers_kerberos(&message) {
                Ok(token_of(message))
            } else {
                drop(message);
                Ok(None)
            }
        }
        None => Ok(None),
    }
}
