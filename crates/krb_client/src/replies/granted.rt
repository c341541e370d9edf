//! Replies of a KDC that grant a ticket.

ghost use Rattle.std.specs.Prelude.{◌≡◌, ◌≢◌, IfErr, IfOk, MatchBool};
ghost use Rattle.krb_client.specs.Granted.{IsFirstGranted, IsFirstRefused, IsGranted, IsNotGranted, IsNotOfTag, form, tgs_form, tgs_usage};
ghost use Rattle.krb_der_core.specs.declared.error.Asn1DerError.{Asn1DerError};

use crate::replies::error::ReplyError;
use crate::replies::message::message_of;
use crate::replies::numbered::Numbered;
use crate::replies::opened::part_under;
use krb_client_rules::{Asked, Clock, KdcReply, Key, ReplyPart, answers, is_expected};
use krb_crypto::seal::PartError;
use krb_der::{Asn1DerError, Der, DerEncode};
use krb_messages::messages::{AsRep, EncAsRepPart, EncKdcRepPart, EncTgsRepPart, TgsRep};
use krb_registry::key_usages::{AS_REP_ENC, TGS_REP_ENC_SESSION_KEY, TGS_REP_ENC_SUB_KEY};
use krb_registry::types::{AS_REP_MSG_TYPE, TGS_REP_MSG_TYPE};
use krb_types::data_types::Ticket;
use std::alloc::Global;

/// What a KDC granted.
#[derive(Drop)]
pub struct Granted {
    /// The ticket.
    pub ticket: Ticket,
    /// Its session key, times and flags.
    pub part: EncKdcRepPart,
}

/// What these octets grant to who asked, as a message of this msg-type with a part of this key
/// usage; `initial` says that it is an AS-REP.
fn checked<M: Der + Numbered + KdcReply + Drop, P: Der + ReplyPart + Drop>(
    alloc: Global,
    number: u8,
    usage: i32,
    initial: bool,
    asked: &Asked,
    clock: &Clock,
    key: &Key,
    octets: &[u8],
) -> Result<Granted, ReplyError>
    ensures found { IfOk result (IsGranted (form ⟦<M as DerEncode>⟧ M.numbers M.content ⟦<P as DerEncode>⟧ P.content
        number usage initial) asked.now clock.now key.now octets.now) }
    ensures rejected { IfErr result
        (IsNotGranted (form ⟦<M as DerEncode>⟧ M.numbers M.content ⟦<P as DerEncode>⟧ P.content
        number usage initial) asked.now clock.now key.now octets.now) }
{
    let message: M = message_of(alloc, number, octets)?;
    if let Err(rule) = is_expected(&message, asked, initial, u32::from(&key.suite)) {
        return Err(ReplyError::Mismatch(rule));
    }
    let part: P = part_under(alloc, key, usage, message.cipher())?;
    if let Err(rule) = answers(&part, asked, clock) {
        return Err(ReplyError::Mismatch(rule));
    }
    Ok(Granted {
        ticket: message.into_ticket(),
        part: part.into_content(),
    })
}

/// Whether what was opened is no part of this tag: an allocation failure does not tell.
fn is_no_part(error: &ReplyError) -> bool
    ensures { MatchBool result
        ((why : Asn1DerError) × (error.now ≡ ReplyError.Opening (PartError.Der why)) × (why ≢ Asn1DerError.OutOfMemory))
        (IsNotOfTag error.now) }
{
    match error {
        ReplyError::Opening(PartError::Der(Asn1DerError::OutOfMemory)) => false,
        ReplyError::Opening(PartError::Der(_)) => true,
        _ => false,
    }
}

/// What an AS-REP grants (RFC 4120, 3.1.5): its part is under the client's key, key usage 3. The
/// part has the tag 25 (EncASRepPart) or 26 (EncTGSRepPart), as KDCs send it (RFC 4120, 5.4.2, the
/// note on EncASRepPart).
///
/// Else the error is that of the first rule that the octets break, in the order of `ReplyError`
/// and, within it, of `Mismatch`.
pub fn check_as_rep(
    alloc: Global,
    asked: &Asked,
    clock: &Clock,
    key: &Key,
    octets: &[u8],
) -> Result<Granted, ReplyError>
    ensures found { IfOk result
        (IsFirstGranted ⟦<AsRep as DerEncode>⟧ ⟦<EncAsRepPart as DerEncode>⟧ ⟦<EncTgsRepPart as DerEncode>⟧
        asked.now clock.now key.now octets.now) }
    ensures rejected { IfErr result
        (IsFirstRefused ⟦<AsRep as DerEncode>⟧ ⟦<EncAsRepPart as DerEncode>⟧ ⟦<EncTgsRepPart as DerEncode>⟧
        asked.now clock.now key.now octets.now) }
{
    let number = AS_REP_MSG_TYPE;
    match checked::<AsRep, EncAsRepPart>(
        alloc, number, AS_REP_ENC, true, asked, clock, key, octets,
    ) {
        Ok(granted) => Ok(granted),
        Err(error) => {
            if is_no_part(&error) {
                checked::<AsRep, EncTgsRepPart>(
                    alloc, number, AS_REP_ENC, true, asked, clock, key, octets,
                )
            } else {
                Err(error)
            }
        }
    }
}

/// What a TGS-REP grants (RFC 4120, 3.3.4): its part is under the session key of the
/// ticket-granting ticket, key usage 8, or, where the request had a subkey, under that, key usage
/// 9.
///
/// Else the error is that of the first rule that the octets break, in the order of `ReplyError`
/// and, within it, of `Mismatch`.
pub fn check_tgs_rep(
    alloc: Global,
    asked: &Asked,
    clock: &Clock,
    key: &Key,
    is_subkey: bool,
    octets: &[u8],
) -> Result<Granted, ReplyError>
    ensures found { IfOk result
        (IsGranted (tgs_form ⟦<TgsRep as DerEncode>⟧ ⟦<EncTgsRepPart as DerEncode>⟧ (tgs_usage is_subkey))
        asked.now clock.now key.now octets.now) }
    ensures rejected { IfErr result
        (IsNotGranted (tgs_form ⟦<TgsRep as DerEncode>⟧ ⟦<EncTgsRepPart as DerEncode>⟧ (tgs_usage is_subkey))
        asked.now clock.now key.now octets.now) }
{
    let number = TGS_REP_MSG_TYPE;
    if is_subkey {
        let usage = TGS_REP_ENC_SUB_KEY;
        checked::<TgsRep, EncTgsRepPart>(alloc, number, usage, false, asked, clock, key, octets)
    } else {
        let usage = TGS_REP_ENC_SESSION_KEY;
        checked::<TgsRep, EncTgsRepPart>(alloc, number, usage, false, asked, clock, key, octets)
    }
}
