//! Messages to octets.

ghost use Rattle.std.specs.Prelude.{◌≡◌, ◌⊎◌, ◌∷◌, [], Some, None, IfErr, IfOk, MatchResult};
ghost use Rattle.krb_der_x509.specs.ObjectIdentifier.{IsArcs};
ghost use Rattle.krb_spnego.specs.Messages.{IsMessage, IsOffer, spnego_arcs};
ghost use Rattle.krb_spnego.specs.Offering.{LacksIdentifier, identifiers};
ghost use Rattle.krb_spnego.specs.Reading.{Encodes, IsOffered, IsWritten};
ghost use Rattle.krb_spnego.specs.States.{Tells, state_number, state_octets};
ghost use Rattle.krb_spnego.specs.declared.error.BeginError.TheVariants as beginnings;
ghost use Rattle.krb_spnego_rules.specs.Fields.{items_in};

use crate::error::BeginError;
use crate::reading::SPNEGO;
use krb_der::{
    Asn1DerError, Asn1SequenceOf, DerEncode, ExplicitContextTag0, ExplicitContextTag1,
    ExplicitContextTag2, ExplicitContextTag3, OctetStringAsn1, Optional, to_vec,
};
use krb_der_x509::{Asn1RawDer, ObjectIdentifierAsn1};
use krb_gss_tokens::gss_api::{
    ApplicationTag0, GssApiNegInit, MechType, MechTypeList, NegTokenInit, NegTokenTarg,
    NegTokenTarg1,
};
use krb_spnego_rules::{Mechanism, Message, NegState};
use std::alloc::{AllocError, Global};

/// The NegTokenResp that rejects, and says nothing else: what an acceptor may send where it refuses
/// (RFC 4178, 4.2.2).
pub const REJECT: [u8; 9] = [0xa1, 0x07, 0x30, 0x05, 0xa0, 0x03, 0x0a, 0x01, 0x02];

/// The encoding of a value.
pub(crate) fn octets_of<T: DerEncode>(alloc: Global, value: &T) -> Result<Vec<u8>, AllocError>
    ensures { IfOk result (λ v. Encodes ⟦<T as DerEncode>⟧ value.now v.items) }
{
    match to_vec(alloc, value) {
        Ok(octets) => Ok(octets),
        Err(_) => Err(AllocError),
    }
}

fn number_of(state: NegState) -> u8
    ensures { result ≡ state_number state }
{
    match state {
        NegState::AcceptCompleted => 0,
        NegState::AcceptIncomplete => 1,
        NegState::Reject => 2,
        NegState::RequestMic => 3,
    }
}

/// The element of negState.
fn element_of(alloc: Global, state: NegState) -> Result<Asn1RawDer, AllocError>
    ensures { IfOk result (λ element. element ≡ state_octets state) }
{
    let Ok(octets) = Vec::from_slice(alloc, &[0x0a, 1, number_of(state)]) else {
        return Err(AllocError);
    };
    match Asn1RawDer::new(octets) {
        Ok(element) => Ok(element),
        Err(_) => Err(AllocError),
    }
}

fn octet_string(octets: Option<Vec<u8>>) -> Option<OctetStringAsn1>
    ensures { result ≡ items_in octets }
{
    match octets {
        Some(octets) => Some(OctetStringAsn1(octets)),
        None => None,
    }
}

fn field_2(octets: Option<Vec<u8>>) -> Optional<Option<ExplicitContextTag2<OctetStringAsn1>>>
    ensures { result.0 ≡ items_in octets }
{
    match octet_string(octets) {
        Some(value) => Optional(Some(ExplicitContextTag2::from(value))),
        None => Optional(None),
    }
}

fn field_3(octets: Option<Vec<u8>>) -> Optional<Option<ExplicitContextTag3<OctetStringAsn1>>>
    ensures { result.0 ≡ items_in octets }
{
    match octet_string(octets) {
        Some(value) => Optional(Some(ExplicitContextTag3::from(value))),
        None => Optional(None),
    }
}

/// The element of negState, if it is told.
fn state_field(
    alloc: Global,
    state: Option<NegState>,
) -> Result<Optional<Option<ExplicitContextTag0<Asn1RawDer>>>, AllocError>
    ensures { IfOk result (λ field. Tells field.0 state) }
{
    match state {
        Some(state) => Ok(Optional(Some(ExplicitContextTag0::from(element_of(alloc, state)?)))),
        None => Ok(Optional(None)),
    }
}

/// The mechanism that an answer names: the arcs are those of an identifier that was read.
fn name_field(
    alloc: Global,
    name: &Option<Vec<u64>>,
) -> Result<Optional<Option<ExplicitContextTag1<MechType>>>, AllocError>
    ensures { IfOk result (λ field. field.0 ≡ items_in name.now) }
{
    match name {
        Some(arcs) => match ObjectIdentifierAsn1::from_arcs(alloc, arcs.as_slice()) {
            Ok(identifier) => Ok(Optional(Some(ExplicitContextTag1::from(identifier)))),
            Err(_) => Err(AllocError),
        },
        None => Ok(Optional(None)),
    }
}

/// The NegTokenResp that says this.
fn reply_of(alloc: Global, message: Message) -> Result<NegTokenTarg, AllocError>
    ensures { IfOk result (λ value. IsMessage value message) }
{
    let neg_result = state_field(alloc, message.state)?;
    let supported_mech = name_field(alloc, &message.mechanism)?;
    Ok(NegTokenTarg {
        neg_result,
        supported_mech,
        response_token: field_2(message.token),
        mech_list_mic: field_3(message.mic),
    })
}

/// The octets of an answer: negTokenResp [1] (RFC 4178, 4.2.2).
pub(crate) fn write_reply(alloc: Global, message: Message) -> Result<Vec<u8>, AllocError>
    ensures { IfOk result (λ v. IsWritten ⟦<NegTokenTarg1 as DerEncode>⟧ message v.items) }
{
    let value = reply_of(alloc, message)?;
    octets_of(alloc, &NegTokenTarg1::from(value))
}

/// The identifier of these arcs.
fn identifier_of(alloc: Global, arcs: &[u64]) -> Result<MechType, BeginError>
    ensures { MatchResult result (λ v. v ≡ arcs.now) (λ e. (e ≡ beginnings.OutOfMemory) ⊎ ((IsArcs arcs.now → ⊥) × (e ≡ beginnings.NoIdentifier))) }
{
    match ObjectIdentifierAsn1::from_arcs(alloc, arcs) {
        Ok(identifier) => Ok(identifier),
        Err(Asn1DerError::InvalidData) => Err(BeginError::NoIdentifier),
        Err(_) => Err(BeginError::OutOfMemory),
    }
}

/// The identifiers of mechanisms, the preferred one first.
pub(crate) fn list_of<M: Mechanism>(
    alloc: Global,
    first: &M,
    others: &[M],
) -> Result<MechTypeList, BeginError>
    ensures listed { IfOk result (λ list. list ≡ identifiers M.meaning first.now others.now) }
    ensures refused { IfErr result (λ e. (e ≡ beginnings.OutOfMemory)
        ⊎ (LacksIdentifier M.meaning first.now others.now × (e ≡ beginnings.NoIdentifier))) }
{
    let mut types = Vec::new(alloc);
    types.push(identifier_of(alloc, first.arcs())?)?;
    'mechanisms: for mechanism in others {
        match identifier_of(alloc, mechanism.arcs()) {
            Ok(identifier) => types.push(identifier)?,
            Err(error) => return Err(error),
        }
    }
    Ok(Asn1SequenceOf(types))
}

/// The offer of these mechanisms in its token.
fn offer_of(oid: ObjectIdentifierAsn1, types: MechTypeList, token: Option<Vec<u8>>) -> GssApiNegInit
    ensures { (oid ≡ spnego_arcs) → IsOffer types (items_in token) result }
{
    GssApiNegInit {
        oid,
        neg_token_init: ExplicitContextTag0::from(NegTokenInit {
            mech_types: Optional(Some(ExplicitContextTag0::from(types))),
            req_flags: Optional(None),
            mech_token: field_2(token),
            mech_list_mic: Optional(None),
        }),
    }
}

/// The octets of an offer of these mechanisms, with the first token of the first one: negTokenInit
/// [0] (RFC 4178, 4.2.1) in the frame of SPNEGO (RFC 2743, 3.1).
pub(crate) fn write_offer(
    alloc: Global,
    types: MechTypeList,
    token: Option<Vec<u8>>,
) -> Result<Vec<u8>, AllocError>
    ensures { IfOk result (λ v. IsOffered ⟦<ApplicationTag0<GssApiNegInit> as DerEncode>⟧ types (items_in token) v.items) }
{
    let Ok(oid) = ObjectIdentifierAsn1::from_arcs(alloc, SPNEGO.as_slice()) else {
        return Err(AllocError);
    };
    octets_of(alloc, &ApplicationTag0(offer_of(oid, types, token)))
}
