//! Delegated credentials (RFC 4121, 4.1.1; RFC 4120, 5.8; RFC 6448).

ghost use Rattle.std.specs.Prelude.{◌≡◌, ◌≢◌, ◌%◌, IfErr, IfOk, MatchBool, MatchOption};
ghost use Rattle.krb_accept.specs.Delegation.{HasCredentials, HasNoCredentials, HasNumbers, IsDelegated, IsNoPart, IsNotDelegated, IsPaired, IsPart, IsUnderSubkey, MatchDelegated, RefusesDelegated};
ghost use Rattle.krb_accept.specs.Opening.{Encodes};
ghost use Rattle.krb_accept.specs.WithKey.{IsSealedWith};
ghost use Rattle.krb_accept_rules.specs.Values.{HasNone, IsTheValue};

use crate::opening::{octets_of, value_of};
use crate::said::Said;
use crate::token_refusal::TokenRefusal;
use crate::with_key::value_with;
use krb_accept_rules::Accepted;
use krb_der::DerEncode;
use krb_enc_parts::data_types::EncKrbCredPart;
use krb_messages::messages::KrbCred;
use krb_registry::key_usages::KRB_CRED_ENC_PART;
use krb_registry::types::KRB_CRED_MSG_TYPE;
use krb_types::data_types::{EncryptedData, EncryptionKey};
use krb_types::view::items;
use std::alloc::{AllocError, Global};

/// The encryption type of a part that is not encrypted (RFC 6448).
const NULL: u32 = 0;

/// The protocol version (RFC 4120, 5.8.1).
const VERSION: u32 = 5;

/// Credentials that the client delegated.
#[derive(Drop)]
pub struct Delegated {
    /// The octets of the KRB-CRED.
    pub octets: Vec<u8>,
    /// The KRB-CRED: the tickets.
    pub message: KrbCred,
    /// Its part, decrypted: the session key and the fields of each ticket.
    pub part: EncKrbCredPart,
}

/// The part under the subkey, where there is one and it opens it.
fn under_subkey(
    alloc: Global,
    subkey: &Option<EncryptionKey>,
    sealed: &EncryptedData,
) -> Result<Option<EncKrbCredPart>, AllocError>
    ensures { IfOk result
        (λ found. MatchOption found (HasNone (IsUnderSubkey ⟦<EncKrbCredPart as DerEncode>⟧ subkey.now sealed.now))
        (IsTheValue (IsUnderSubkey ⟦<EncKrbCredPart as DerEncode>⟧ subkey.now sealed.now))) }
{
    match subkey {
        Some(key) => value_with(alloc, key, KRB_CRED_ENC_PART, sealed),
        None => Ok(None),
    }
}

/// The part of a KRB-CRED: in the clear, or under the subkey, or else under the session key.
fn part_of(
    alloc: Global,
    accepted: &Accepted,
    sealed: &EncryptedData,
) -> Result<Option<EncKrbCredPart>, AllocError>
    ensures { IfOk result
        (λ found. MatchOption found (IsNoPart ⟦<EncKrbCredPart as DerEncode>⟧ accepted.now sealed.now)
        (IsPart ⟦<EncKrbCredPart as DerEncode>⟧ accepted.now sealed.now)) }
{
    if sealed.etype.0.is_number(NULL) {
        return value_of(alloc, octets_of(&sealed.cipher.0));
    }
    let found = under_subkey(alloc, &accepted.subkey, sealed)?;
    if let Some(part) = found {
        return Ok(Some(part));
    }
    value_with(alloc, &accepted.ticket.key, KRB_CRED_ENC_PART, sealed)
}

/// Whether pvno and msg-type are those of a KRB-CRED.
fn has_numbers(message: &KrbCred) -> bool
    ensures { MatchBool result (HasNumbers message.now) (HasNumbers message.now → ⊥) }
{
    message.0.pvno.0.is_number(VERSION)
        && message.0.msg_type.0.is_number(u32::from(KRB_CRED_MSG_TYPE))
}

/// The encrypted part of a KRB-CRED.
fn part_in(message: &KrbCred) -> &EncryptedData
    ensures { result.now ≡ message.now.enc_part }
{
    &message.0.enc_part.0
}

/// Whether a message has as many tickets as its part tells of.
fn is_paired(message: &KrbCred, part: &EncKrbCredPart) -> bool
    ensures { MatchBool result (IsPaired message.now part.now) (IsPaired message.now part.now → ⊥) }
{
    items(&message.0.tickets.0).len() == items(&part.0.ticket_info.0).len()
}

/// The credentials of a message; `None` where it is no KRB-CRED, or no key of the context decrypts its part.
fn credentials_in(
    alloc: Global,
    accepted: &Accepted,
    octets: &[u8],
    message: KrbCred,
) -> Result<Option<Delegated>, AllocError>
    ensures { IfOk result
        (λ found. MatchOption found (HasNoCredentials ⟦<EncKrbCredPart as DerEncode>⟧ accepted.now message)
        (HasCredentials ⟦<EncKrbCredPart as DerEncode>⟧ accepted.now octets.now message)) }
{
    if !has_numbers(&message) {
        drop(message);
        return Ok(None);
    }
    let opened = match part_of(alloc, accepted, part_in(&message)) {
        Ok(opened) => opened,
        Err(error) => {
            drop(message);
            return Err(error);
        }
    };
    let Some(part) = opened else {
        drop(message);
        return Ok(None);
    };
    if !is_paired(&message, &part) {
        drop(message);
        drop(part);
        return Ok(None);
    }
    match Vec::from_slice(alloc, octets) {
        Ok(octets) => Ok(Some(Delegated {
            octets,
            message,
            part,
        })),
        Err(error) => {
            drop(message);
            drop(part);
            Err(error)
        }
    }
}

/// The credentials that these octets delegate; `None` where they delegate none.
fn credentials_of(
    alloc: Global,
    accepted: &Accepted,
    octets: &[u8],
) -> Result<Option<Delegated>, AllocError>
    ensures { IfOk result
        (λ found. MatchOption found (IsNotDelegated ⟦<KrbCred as DerEncode>⟧ ⟦<EncKrbCredPart as DerEncode>⟧ accepted.now octets.now)
        (IsDelegated ⟦<KrbCred as DerEncode>⟧ ⟦<EncKrbCredPart as DerEncode>⟧ accepted.now octets.now)) }
{
    match value_of::<KrbCred>(alloc, octets)? {
        Some(message) => credentials_in(alloc, accepted, octets, message),
        None => Ok(None),
    }
}

/// The credentials that the client delegated, where the flag of delegation is set.
pub(crate) fn delegated_of(
    alloc: Global,
    accepted: &Accepted,
    said: &Said,
) -> Result<Option<Delegated>, TokenRefusal>
    ensures told { IfOk result
        (MatchDelegated ⟦<KrbCred as DerEncode>⟧ ⟦<EncKrbCredPart as DerEncode>⟧ accepted.now said.now.flags said.now.delegated.now) }
    ensures refused { IfErr result
        (RefusesDelegated ⟦<KrbCred as DerEncode>⟧ ⟦<EncKrbCredPart as DerEncode>⟧ accepted.now said.now.flags said.now.delegated.now) }
{
    if said.flags % 2 == 0 {
        return Ok(None);
    }
    match credentials_of(alloc, accepted, said.delegated)? {
        Some(delegated) => Ok(Some(delegated)),
        None => Err(TokenRefusal::Delegation),
    }
}
