//! An initiator makes its offer.

ghost use Rattle.std.specs.Prelude.{◌≡◌, IfOk, MatchResult};
ghost use Rattle.krb_c_calls.specs.Handing.{IsPut};
ghost use Rattle.krb_c_negotiation.specs.Beginning.{Begins, IsBegun, IsBegunAs, IsBegunOf, IsBegunWith, IsHandedOver, IsHindered, IsOffer, RefusesBeginning, RefusesBegun, RefusesBegunAs, RefusesFirst, list_in};
ghost use Rattle.krb_c_negotiation.specs.Mechanisms.{words};

use crate::mechanisms::{Tale, mechanisms_of};
use crate::numbers::{Stage, role_of, stage_of};
use crate::records::NegotiationRecord;
use crate::sides::{failed_after, initiator_after, split};
use krb_c_calls::handing::put;
use krb_c_calls::{CallError, DONE};
use krb_der::{Asn1SequenceOf, DerEncode};
use krb_gss_tokens::gss_api::{ApplicationTag0, GssApiNegInit, MechTypeList};
use krb_spnego::{BeginError, Told};
use krb_spnego_rules::{Initiator, Refusal, Role, Rule};
use std::alloc::{AllocError, Global};

/// An initiator after its beginning.
#[derive(Drop)]
pub(crate) struct Begun {
    /// The side.
    pub side: NegotiationRecord,
    /// How many octets the offer has.
    pub offer_size: usize,
    /// The offer, and the encoding of the list in it.
    pub octets: Vec<u8>,
}

/// The encoding of the list that an initiator keeps.
fn list_of(side: &Initiator<Told>) -> &[u8]
    ensures { result.now ≡ list_in side.now }
{
    match side {
        Initiator::Offered(offered) => offered.list.as_slice(),
        Initiator::Running(running) => running.list.as_slice(),
        Initiator::Complete(complete) => complete.list.as_slice(),
        Initiator::Failed(_) => &[],
    }
}

/// An initiator that has made its offer.
fn offered(
    side: &NegotiationRecord,
    initiator: &Initiator<Told>,
    offer: Vec<u8>,
) -> Result<Begun, AllocError>
    ensures { IfOk result (IsOffer side.now initiator.now offer.items) }
{
    let mut octets = offer;
    let offer_size = octets.len();
    octets.extend_from_slice(list_of(initiator))?;
    Ok(Begun {
        side: initiator_after(side, initiator),
        offer_size,
        octets,
    })
}

/// An initiator whose preferred mechanism does not begin.
fn hindered(alloc: Global, side: &NegotiationRecord) -> Begun
    ensures { IsHindered side.now result }
{
    Begun {
        side: failed_after(side, Refusal::Broken(Rule::MechanismFailed)),
        offer_size: 0,
        octets: Vec::new(alloc),
    }
}

/// An initiator of these mechanisms begins, the preferred one first.
fn begun_of(
    alloc: Global,
    side: &NegotiationRecord,
    first: Told,
    others: Vec<Told>,
) -> Result<Begun, CallError>
    ensures { MatchResult result
        (IsBegunOf ⟦<ApplicationTag0<GssApiNegInit> as DerEncode>⟧ ⟦<MechTypeList as DerEncode>⟧ side.now first others)
        (RefusesFirst first others.items) }
{
    match krb_spnego::begin(alloc, first, others) {
        Ok((initiator, offer)) => match offered(side, &initiator, offer) {
            Ok(begun) => Ok(begun),
            Err(_) => Err(CallError::Memory),
        },
        Err(BeginError::OutOfMemory) => Err(CallError::Memory),
        Err(BeginError::NoIdentifier) => Err(CallError::Invalid),
        Err(BeginError::MechanismFailed) => Ok(hindered(alloc, side)),
    }
}

/// An initiator of these mechanisms begins.
fn begun_with(
    alloc: Global,
    side: &NegotiationRecord,
    mechanisms: Vec<Told>,
) -> Result<Begun, CallError>
    ensures { MatchResult result
        (IsBegunWith ⟦<ApplicationTag0<GssApiNegInit> as DerEncode>⟧ ⟦<MechTypeList as DerEncode>⟧ side.now mechanisms.items)
        (RefusesBeginning mechanisms.items) }
{
    match split(mechanisms) {
        None => Err(CallError::Number),
        Some((first, others)) => begun_of(alloc, side, first, others),
    }
}

/// An initiator begins.
fn begun_as(alloc: Global, side: &NegotiationRecord, tale: &Tale) -> Result<Begun, CallError>
    ensures { MatchResult result
        (IsBegunAs ⟦<ApplicationTag0<GssApiNegInit> as DerEncode>⟧ ⟦<MechTypeList as DerEncode>⟧ ⟦<Asn1SequenceOf<MechTypeList> as DerEncode>⟧
        side.now (words tale.now))
        (RefusesBegunAs ⟦<Asn1SequenceOf<MechTypeList> as DerEncode>⟧ side.now (words tale.now)) }
{
    match mechanisms_of(alloc, side, tale) {
        Ok(mechanisms) => begun_with(alloc, side, mechanisms),
        Err(refusal) => Err(refusal),
    }
}

/// A side begins: an initiator that has not begun.
fn side_begun(alloc: Global, side: &NegotiationRecord, tale: &Tale) -> Result<Begun, CallError>
    ensures { MatchResult result
        (IsBegun ⟦<ApplicationTag0<GssApiNegInit> as DerEncode>⟧ ⟦<MechTypeList as DerEncode>⟧ ⟦<Asn1SequenceOf<MechTypeList> as DerEncode>⟧
        side.now (words tale.now))
        (RefusesBegun ⟦<Asn1SequenceOf<MechTypeList> as DerEncode>⟧ side.now (words tale.now)) }
{
    match role_of(side.role)? {
        Role::Acceptor => Err(CallError::Number),
        Role::Initiator => match stage_of(side.stage)? {
            Stage::Begins => begun_as(alloc, side, tale),
            Stage::Waits => Err(CallError::Number),
            Stage::Offered => Err(CallError::Number),
            Stage::Complete => Err(CallError::Number),
            Stage::Failed => Err(CallError::Number),
            Stage::Bare => Err(CallError::Number),
        },
    }
}

/// An offer is handed over: its octets, and where all of them fit the side and their number.
fn hand_over(
    begun: Begun,
    side: &mut NegotiationRecord,
    offer_size: &mut usize,
    out: &mut [u8],
    size: &mut usize,
) -> u32
    ensures put { IsPut begun.octets.items out.old out.new size.new result }
    ensures handed { IsHandedOver begun (record { side = side.old; offer_size = offer_size.old; out = out.old })
        (record { side = side.new; offer_size = offer_size.new; out = out.new }) result }
{
    let status = put(&begun.octets, out, size);
    if status != DONE {
        return status;
    }
    *side = begun.side;
    *offer_size = begun.offer_size;
    status
}

/// An initiator makes its offer (RFC 4178, 4.2.1), of its mechanisms, the preferred one first,
/// which told what it made of no token. The offer is put into `out`, and behind it the encoding of
/// the list, which MICs are over; `offer_size` tells how many octets the offer has.
///
/// 0: the side is the one behind its offer; or, where the mechanism refused, it has failed, and
/// nothing is put. Or 1, where `out` has too little room; 3 where a number means nothing, there is
/// no mechanism, or the side has begun; 9, 10 or 11 where the names of the mechanisms are no
/// encoding, or of more or fewer of them, 9 where a mechanism has none; 2 where memory was wanting:
/// then the side and `offer_size` are as they were.
pub fn begin(
    alloc: Global,
    side: &mut NegotiationRecord,
    tale: &Tale,
    offer_size: &mut usize,
    out: &mut [u8],
    size: &mut usize,
) -> u32
    ensures { Begins ⟦<ApplicationTag0<GssApiNegInit> as DerEncode>⟧ ⟦<MechTypeList as DerEncode>⟧ ⟦<Asn1SequenceOf<MechTypeList> as DerEncode>⟧
        (words tale.now) (record { side = side.old; offer_size = offer_size.old; out = out.old })
        (record { side = side.new; offer_size = offer_size.new; out = out.new }) size.new result }
{
    match side_begun(alloc, side, tale) {
        Ok(begun) => hand_over(begun, side, offer_size, out, size),
        Err(refusal) => {
            *size = 0;
            refusal.status()
        }
    }
}
