//! The mechanisms of a side, as the caller tells of them.

ghost use Rattle.std.specs.Prelude.{◌≡◌, ◌⊎◌, ◌<◌, length, map, None, IfErr, IfOk, MatchResult};
ghost use Rattle.krb_c_calls.specs.MessageRules.{RefusesReading};
ghost use Rattle.krb_c_calls.specs.Statuses.{refusal_status};
ghost use Rattle.krb_c_calls.specs.declared.call_error.CallError.TheVariants as calls;
ghost use Rattle.krb_c_negotiation.specs.Mechanisms.{AreMechanisms, RefusesMechanisms, content_in, content_of, contents, first_name, other_names, spoken_in, told_content, told_mic, told_turn, told_verified, turn_content, verified_content, words};
ghost use Rattle.krb_der.specs.Whole.{Encodes};
ghost use Rattle.krb_spnego_rules.specs.Fields.{items_in};

use crate::numbers::is_set;
use crate::records::{MechanismRecord, NegotiationRecord};
use krb_c_calls::CallError;
use krb_der::{Asn1SequenceOf, Der, DerEncode, from_bytes};
use krb_gss_tokens::gss_api::{MechType, MechTypeList};
use krb_spnego::{Told, Verified};
use krb_spnego_rules::{Progress, Turn};
use std::alloc::{AllocError, Global};

/// What a caller tells of its mechanisms.
#[derive(Clone, Copy)]
pub struct Tale<'a> {
    /// The names of each mechanism, its own first: the encoding of a SEQUENCE OF SEQUENCE OF OBJECT
    /// IDENTIFIER.
    pub names: &'a [u8],
    /// Each mechanism.
    pub mechanisms: &'a [MechanismRecord],
    /// The encoding of the initiator's list of mechanisms, as it was sent.
    pub list: &'a [u8],
    /// The number of the mechanism that took a step.
    pub mechanism: u32,
    /// What it made of the token: 0 to 4, in the order of `Spoken`.
    pub progress: u32,
    /// Its own token, or the one that says why it refuses.
    pub token: &'a [u8],
    /// The MIC of the peer's that it verified over the list; no octets where there is none.
    pub verified: &'a [u8],
    /// Its own MIC over the list; no octets where it is not told.
    pub mic: &'a [u8],
}

/// What a mechanism made of a token, as a caller says it.
#[derive(Clone, Copy)]
pub(crate) enum Spoken {
    /// It takes the token, and its context stands so.
    Takes(Progress),
    /// It refuses the token.
    Refuses,
    /// It took no step.
    Rests,
}

/// What a mechanism made of a token, by its number.
pub(crate) fn spoken_of(number: u32) -> Result<Spoken, CallError>
    ensures { result ≡ spoken_in number }
{
    match number {
        0 => Ok(Spoken::Takes(Progress::Continues)),
        1 => Ok(Spoken::Takes(Progress::EndsWithToken)),
        2 => Ok(Spoken::Takes(Progress::Ends)),
        3 => Ok(Spoken::Refuses),
        4 => Ok(Spoken::Rests),
        _ => Err(CallError::Number),
    }
}

/// Octets, once more.
pub(crate) fn copied(alloc: Global, octets: &[u8]) -> Result<Vec<u8>, AllocError>
    ensures { IfOk result (λ copy. copy.items ≡ octets.now) }
{
    match Vec::from_slice(alloc, octets) {
        Ok(copy) => Ok(copy),
        Err(_error) => Err(AllocError),
    }
}

/// A mechanism's turn.
fn turn_of(alloc: Global, spoken: Spoken, token: &[u8]) -> Result<Option<Turn>, AllocError>
    ensures { IfOk result (λ turn. turn_content turn ≡ told_turn spoken token.now) }
{
    match spoken {
        Spoken::Takes(Progress::Continues) => Ok(Some(Turn::Continues(copied(alloc, token)?))),
        Spoken::Takes(Progress::EndsWithToken) => {
            Ok(Some(Turn::EndsWithToken(copied(alloc, token)?)))
        }
        Spoken::Takes(Progress::Ends) => Ok(Some(Turn::Ends)),
        Spoken::Refuses => Ok(None),
        Spoken::Rests => Ok(None),
    }
}

/// The MIC that was verified.
fn verified_of(alloc: Global, text: &[u8], mic: &[u8]) -> Result<Option<Verified>, AllocError>
    ensures { IfOk result (λ verified. verified_content verified ≡ told_verified text.now mic.now) }
{
    match mic {
        [] => Ok(None),
        [_, ..] => Ok(Some(Verified {
            text: copied(alloc, text)?,
            mic: copied(alloc, mic)?,
        })),
    }
}

/// The mechanism's own MIC.
fn mic_of(alloc: Global, mic: &[u8]) -> Result<Option<Vec<u8>>, AllocError>
    ensures { IfOk result (λ own. items_in own ≡ told_mic mic.now) }
{
    match mic {
        [] => Ok(None),
        [_, ..] => Ok(Some(copied(alloc, mic)?)),
    }
}

/// The arcs of an object identifier.
fn arcs_of(alloc: Global, identifier: &MechType) -> Result<Vec<u64>, AllocError>
    ensures { IfOk result (λ v. v.items ≡ identifier.now) }
{
    match Vec::from_slice(alloc, identifier.arcs()) {
        Ok(arcs) => Ok(arcs),
        Err(_error) => Err(AllocError),
    }
}

/// The arcs of each identifier.
fn all_arcs(alloc: Global, list: &[MechType]) -> Result<Vec<Vec<u64>>, AllocError>
    ensures { IfOk result (λ all. map (λ m. m.items) all.items ≡ list.now) }
{
    let mut all = Vec::new(alloc);
    'identifiers: for identifier in list {
        all.push(arcs_of(alloc, identifier)?)?;
    }
    Ok(all)
}

/// The arcs of a mechanism's own name.
fn first_name(alloc: Global, list: &[MechType]) -> Result<Vec<u64>, AllocError>
    ensures { IfOk result (λ v. v.items ≡ first_name list.now) }
{
    match list {
        [] => Ok(Vec::new(alloc)),
        [first, ..] => arcs_of(alloc, first),
    }
}

/// The arcs of its other names.
fn other_names(alloc: Global, list: &[MechType]) -> Result<Vec<Vec<u64>>, AllocError>
    ensures { IfOk result (λ all. map (λ m. m.items) all.items ≡ other_names list.now) }
{
    match list {
        [] => Ok(Vec::new(alloc)),
        [_, others @ ..] => all_arcs(alloc, others),
    }
}

/// A mechanism of which nothing is told but its names.
fn named(
    alloc: Global,
    list: &[MechType],
    record: &MechanismRecord,
    established: bool,
) -> Result<Told, AllocError>
    ensures { IfOk result (λ told. told_content told ≡ content_of list.now record.now established None None None) }
{
    Ok(Told {
        place: record.number,
        oid: first_name(alloc, list)?,
        others: other_names(alloc, list)?,
        integrity: is_set(record.integrity),
        bare: is_set(record.is_bare),
        established,
        turn: None,
        verified: None,
        mic: None,
        lacks_mic: false,
    })
}

/// A mechanism of which the caller tells.
fn spoken_for(
    alloc: Global,
    list: &[MechType],
    record: &MechanismRecord,
    established: bool,
    spoken: Spoken,
    tale: &Tale,
) -> Result<Told, AllocError>
    ensures { IfOk result (λ told. told_content told ≡ content_of list.now record.now established
        (told_turn spoken (words tale.now).token) (told_verified (words tale.now).list (words tale.now).verified) (told_mic (words tale.now).mic)) }
{
    let turn = turn_of(alloc, spoken, tale.token)?;
    let verified = verified_of(alloc, tale.list, tale.verified)?;
    let mic = mic_of(alloc, tale.mic)?;
    Ok(Told {
        place: record.number,
        oid: first_name(alloc, list)?,
        others: other_names(alloc, list)?,
        integrity: is_set(record.integrity),
        bare: is_set(record.is_bare),
        established,
        turn,
        verified,
        mic,
        lacks_mic: false,
    })
}

/// A mechanism, with what the caller tells of it.
fn mechanism_of(
    alloc: Global,
    list: &[MechType],
    record: &MechanismRecord,
    side: &NegotiationRecord,
    spoken: Spoken,
    tale: &Tale,
) -> Result<Told, AllocError>
    ensures { IfOk result (λ told. told_content told ≡ content_in side.now spoken (words tale.now) list.now record.now) }
{
    let established = record.number == side.mechanism && is_set(side.established);
    if record.number == tale.mechanism {
        spoken_for(alloc, list, record, established, spoken, tale)
    } else {
        named(alloc, list, record, established)
    }
}

/// All of them, each with its names.
fn all_of(
    alloc: Global,
    lists: &[MechTypeList],
    side: &NegotiationRecord,
    spoken: Spoken,
    tale: &Tale,
) -> Result<Vec<Told>, CallError>
    ensures all { IfOk result (λ all. map told_content all.items
        ≡ contents side.now spoken (words tale.now) lists.now (words tale.now).mechanisms) }
    ensures refused { IfErr result (λ e. (e ≡ calls.Memory)
        ⊎ ((e ≡ calls.Invalid) × (length lists.now < length (words tale.now).mechanisms))) }
{
    let mut all = Vec::new(alloc);
    'records: for record in tale.mechanisms {
        let Some(list) = lists.get(all.len()) else {
            return Err(CallError::Invalid);
        };
        let told = mechanism_of(alloc, &list.0, record, side, spoken, tale)?;
        let Ok(()) = all.push(told) else {
            return Err(CallError::Memory);
        };
    }
    Ok(all)
}

/// The value whose one encoding the octets are; else why they are none.
fn value_of<T: Der + Drop>(alloc: Global, octets: &[u8]) -> Result<T, CallError>
    ensures { MatchResult result (Encodes ⟦<T as DerEncode>⟧ octets.now)
        (λ e. RefusesReading ⟦<T as DerEncode>⟧ octets.now (refusal_status e)) }
{
    let value: T = from_bytes(alloc, octets)?;
    Ok(value)
}

/// The mechanisms of a side.
///
/// `Number` where what was made of the token is none; `Invalid`, `Truncated` or `Unsupported` where
/// the names are no encoding, by their first error, `Invalid` where they are of more or of fewer
/// mechanisms; `Memory`.
pub(crate) fn mechanisms_of(
    alloc: Global,
    side: &NegotiationRecord,
    tale: &Tale,
) -> Result<Vec<Told>, CallError>
    ensures { MatchResult result (AreMechanisms ⟦<Asn1SequenceOf<MechTypeList> as DerEncode>⟧ side.now (words tale.now))
        (RefusesMechanisms ⟦<Asn1SequenceOf<MechTypeList> as DerEncode>⟧ (words tale.now)) }
{
    let spoken = spoken_of(tale.progress)?;
    let lists: Asn1SequenceOf<MechTypeList> = value_of(alloc, tale.names)?;
    if lists.0.len() != tale.mechanisms.len() {
        return Err(CallError::Invalid);
    }
    all_of(alloc, &lists.0, side, spoken, tale)
}
