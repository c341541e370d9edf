//! Messages from octets.

ghost use Rattle.std.specs.Prelude.{◌≡◌, ◌⊎◌, ◌∷◌, [], Some, None, Vec, map, IfErr, IfOk, MatchBool, MatchResult};
ghost use Rattle.krb_spnego.specs.Messages.{IsMessage, IsProposal, Lists, spnego_arcs};
ghost use Rattle.krb_spnego.specs.Reading.{Encodes, IsMalformed, error_of, ReadsOffer, ReadsReply, RejectsOffer, RejectsReply};
ghost use Rattle.krb_spnego.specs.States.{Tells, TellsNone, state_octets};
ghost use Rattle.krb_spnego.specs.declared.error.ReadError.TheVariants as errors;
ghost use Rattle.krb_spnego_rules.specs.Fields.{items_in};

use crate::error::ReadError;
use krb_der::{
    Asn1DerError, Der, DerEncode, ExplicitContextTag2, ExplicitContextTag3, OctetStringAsn1,
    Optional, from_bytes, to_vec,
};
use krb_gss_tokens::gss_api::{
    ApplicationTag0, GssApiNegInit, MechType, MechTypeList, NegTokenInit, NegTokenTarg,
    NegTokenTarg1,
};
use krb_spnego_rules::{Message, NegState, Proposal};
use std::alloc::{AllocError, Global};

/// The arcs of SPNEGO (RFC 4178, 3.1).
pub(crate) const SPNEGO: [u64; 7] = [1, 3, 6, 1, 5, 5, 2];

/// An error of DER as one of reading.
fn malformed(error: Asn1DerError) -> ReadError
    ensures { result ≡ error_of error }
{
    match error {
        Asn1DerError::OutOfMemory => ReadError::OutOfMemory,
        other => ReadError::Malformed(other),
    }
}

/// The value whose one encoding the octets are.
fn value_of<T: Der + Drop>(alloc: Global, octets: &[u8]) -> Result<T, ReadError>
    ensures found { IfOk result (λ v. Encodes ⟦<T as DerEncode>⟧ v octets.now) }
    ensures refused { IfErr result (IsMalformed ⟦<T as DerEncode>⟧ octets.now) }
{
    match from_bytes(alloc, octets) {
        Ok(value) => Ok(value),
        Err(error) => Err(malformed(error)),
    }
}

/// The arcs of an object identifier.
fn arcs_of(alloc: Global, identifier: &MechType) -> Result<Vec<u64>, AllocError>
    ensures { IfOk result (λ v. v.items ≡ identifier.now) }
{
    match Vec::from_slice(alloc, identifier.arcs()) {
        Ok(arcs) => Ok(arcs),
        Err(_error) => Err(AllocError),
    }
}

/// Whether an element is negState of this number.
fn is_state(element: &[u8], number: u8) -> bool
    ensures { MatchBool result (element.now ≡ 10 ∷ 1 ∷ number ∷ []) (element.now ≡ 10 ∷ 1 ∷ number ∷ [] → ⊥) }
{
    element == [0x0a, 1, number].as_slice()
}

/// negState of its element.
fn state_of(element: &[u8]) -> Result<NegState, ReadError>
    ensures { MatchResult result (λ state. element.now ≡ state_octets state) (λ e. (e ≡ errors.UnknownState) × TellsNone (Some element.now)) }
{
    if is_state(element, 0) {
        return Ok(NegState::AcceptCompleted);
    }
    if is_state(element, 1) {
        return Ok(NegState::AcceptIncomplete);
    }
    if is_state(element, 2) {
        return Ok(NegState::Reject);
    }
    if is_state(element, 3) {
        return Ok(NegState::RequestMic);
    }
    Err(ReadError::UnknownState)
}

/// negState of a reply.
fn told(message: &NegTokenTarg) -> Result<Option<NegState>, ReadError>
    ensures { MatchResult result (Tells message.now.neg_result.0) (λ e. (e ≡ errors.UnknownState) × TellsNone message.now.neg_result.0) }
{
    match &message.neg_result.0 {
        Some(element) => Ok(Some(state_of(element.0.as_bytes())?)),
        None => Ok(None),
    }
}

/// The arcs of supportedMech.
fn named(alloc: Global, message: &NegTokenTarg) -> Result<Option<Vec<u64>>, AllocError>
    ensures { IfOk result (λ name. items_in name ≡ message.now.supported_mech.0) }
{
    match &message.supported_mech.0 {
        Some(identifier) => Ok(Some(arcs_of(alloc, &identifier.0)?)),
        None => Ok(None),
    }
}

/// The octets of a field [2].
fn octets_2(field: Optional<Option<ExplicitContextTag2<OctetStringAsn1>>>) -> Option<Vec<u8>>
    ensures { items_in result ≡ field.0 }
{
    match field.0 {
        Some(octets) => Some(octets.0.0),
        None => None,
    }
}

/// The octets of a field [3].
fn octets_3(field: Optional<Option<ExplicitContextTag3<OctetStringAsn1>>>) -> Option<Vec<u8>>
    ensures { items_in result ≡ field.0 }
{
    match field.0 {
        Some(octets) => Some(octets.0.0),
        None => None,
    }
}

/// What a NegTokenResp says.
fn message_of(alloc: Global, value: NegTokenTarg) -> Result<Message, ReadError>
    ensures told { IfOk result (IsMessage value) }
    ensures refused { IfErr result (λ e. (e ≡ errors.OutOfMemory) ⊎ (TellsNone value.neg_result.0 × (e ≡ errors.UnknownState))) }
{
    let state = told(&value)?;
    let mechanism = named(alloc, &value)?;
    let NegTokenTarg {
        response_token,
        mech_list_mic,
        ..
    } = value;
    Ok(Message {
        state,
        mechanism,
        token: octets_2(response_token),
        mic: octets_3(mech_list_mic),
    })
}

/// The reply that the octets are: negTokenResp [1] (RFC 4178, 4.2.2).
///
/// `Malformed` with the first error of DER, then `UnknownState`; `OutOfMemory`.
pub fn read_reply(alloc: Global, octets: &[u8]) -> Result<Message, ReadError>
    ensures read { IfOk result (ReadsReply ⟦<NegTokenTarg1 as DerEncode>⟧ octets.now) }
    ensures refused { IfErr result (RejectsReply ⟦<NegTokenTarg1 as DerEncode>⟧ octets.now) }
{
    let outer: NegTokenTarg1 = value_of(alloc, octets)?;
    message_of(alloc, outer.0)
}

/// The arcs of each identifier.
fn all_arcs(alloc: Global, list: &[MechType]) -> Result<Vec<Vec<u64>>, AllocError>
    ensures { IfOk result (λ all. map (λ m. m.items) all.items ≡ list.now) }
{
    let mut all = Vec::new(alloc);
    'identifiers: for identifier in list {
        all.push(arcs_of(alloc, identifier)?)?;
    }
    Ok(all)
}

/// The encoding of a list.
fn encoded(alloc: Global, list: &MechTypeList) -> Result<Vec<u8>, AllocError>
    ensures { IfOk result (λ v. v.items ≡ ⟦<MechTypeList as DerEncode>⟧.enc list.now) }
{
    match to_vec(alloc, list) {
        Ok(octets) => Ok(octets),
        Err(_) => Err(AllocError),
    }
}

/// The mechanisms that are offered, and the encoding of their list.
fn listed(alloc: Global, message: &NegTokenInit) -> Result<(Vec<Vec<u64>>, Vec<u8>), AllocError>
    ensures { IfOk result (λ p. Lists ⟦<MechTypeList as DerEncode>⟧.enc message.now.mech_types.0 p.0.items p.1.items) }
{
    match &message.mech_types.0 {
        Some(types) => {
            let mechanisms = all_arcs(alloc, types.0.0.as_slice())?;
            let list = encoded(alloc, &types.0)?;
            Ok((mechanisms, list))
        }
        None => Ok((Vec::new(alloc), Vec::new(alloc))),
    }
}

/// What a NegTokenInit says.
fn proposal_of(alloc: Global, value: NegTokenInit) -> Result<Proposal, AllocError>
    ensures { IfOk result (IsProposal ⟦<MechTypeList as DerEncode>⟧.enc value) }
{
    let (mechanisms, list) = listed(alloc, &value)?;
    let NegTokenInit {
        mech_token,
        mech_list_mic,
        ..
    } = value;
    Ok(Proposal {
        mechanisms,
        list,
        token: octets_2(mech_token),
        mic: octets_3(mech_list_mic),
    })
}

/// Whether a token is one of SPNEGO.
fn is_spnego(token: &GssApiNegInit) -> bool
    ensures { MatchBool result (token.now.oid ≡ spnego_arcs) (token.now.oid ≡ spnego_arcs → ⊥) }
{
    token.oid.arcs() == SPNEGO.as_slice()
}

/// The offer that the octets are: negTokenInit [0] (RFC 4178, 4.2.1) in the frame of SPNEGO (RFC
/// 2743, 3.1). A list that is absent is as one that is empty; reqFlags are not looked at.
///
/// `Malformed` with the first error of DER, then `NotSpnego`; `OutOfMemory`.
pub fn read_offer(alloc: Global, octets: &[u8]) -> Result<Proposal, ReadError>
    ensures read { IfOk result (ReadsOffer ⟦<ApplicationTag0<GssApiNegInit> as DerEncode>⟧ ⟦<MechTypeList as DerEncode>⟧ octets.now) }
    ensures refused { IfErr result (RejectsOffer ⟦<ApplicationTag0<GssApiNegInit> as DerEncode>⟧ octets.now) }
{
    let token: ApplicationTag0<GssApiNegInit> = value_of(alloc, octets)?;
    let content = token.0;
    if !is_spnego(&content) {
        return Err(ReadError::NotSpnego);
    }
    let GssApiNegInit { neg_token_init, .. } = content;
    Ok(proposal_of(alloc, neg_token_init.0)?)
}
