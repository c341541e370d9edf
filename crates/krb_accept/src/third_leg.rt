//! The third leg of DCE style: the client's AP-REP (MS-KILE, 3.4.5.1).

ghost use Rattle.std.specs.Prelude.{◌≡◌, Some, IfErr, IfOk, MatchBool, OnOk};
ghost use Rattle.krb_accept.specs.ThirdLeg.{HasNumbers, HasTime, IsClientReply, IsConfirmed, IsFromClient, IsNoClientReply, IsNoThirdLeg, IsNotAgreed, IsNotConfirmed, IsNotFromClient, IsReflected, IsThirdLeg, third_leg_error_code};
ghost use Rattle.krb_accept.specs.declared.third_leg.ThirdLegError.TheVariants.{OutOfMemory, SequenceNumber};

use crate::opening::{octets_of, value_of};
use crate::with_key::{is_same_integer, value_with};
use krb_accept_rules::Accepted;
use krb_der::{DerEncode, GeneralizedTimeAsn1, IntegerAsn1};
use krb_enc_parts::data_types::EncApRepPart;
use krb_messages::messages::ApRep;
use krb_registry::key_usages::AP_REP_ENC;
use krb_registry::types::AP_REP_MSG_TYPE;
use krb_types::data_types::{EncryptedData, EncryptionKey};
use krb_types::view::Present;
use std::alloc::{AllocError, Global};
use std::fmt;

/// The protocol version (RFC 4120, 5.5.2).
const VERSION: u32 = 5;

/// Why the third leg is refused: the first rule that it breaks, in the order of the variants.
#[derive(Debug, Clone, Copy, PartialEq, Eq)]
pub enum ThirdLegError {
    /// The octets are not the one encoding of an AP-REP with pvno 5 and msg-type 15.
    NotReply,
    /// It is the service's own AP-REP, sent back to it (`confirm_third_leg` alone).
    Reflected,
    /// The session key does not decrypt its part, key usage 12.
    Part,
    /// Its time is not that of the client's authenticator (`check_third_leg` alone).
    Time,
    /// Its sequence number is not the service's.
    SequenceNumber,
    /// An allocation failed.
    OutOfMemory,
}

impl ThirdLegError {
    /// The number of the error in a KRB-ERROR (RFC 4120, 7.5.9).
    pub fn code(&self) -> u32
        ensures { result ≡ third_leg_error_code self.now }
    {
        match self {
            ThirdLegError::NotReply => 40,
            ThirdLegError::Reflected => 47,
            ThirdLegError::Part => 31,
            ThirdLegError::Time | ThirdLegError::SequenceNumber => 46,
            ThirdLegError::OutOfMemory => 60,
        }
    }
}

impl fmt::Display for ThirdLegError {
    fn fmt<W: fmt::Write>(&self, f: &mut fmt::Formatter<W>) -> fmt::Result {
        f.write_str(match self {
            ThirdLegError::NotReply => "the message is not an AP-REP",
            ThirdLegError::Reflected => "the AP-REP is the service's own",
            ThirdLegError::Part => "the session key does not decrypt the AP-REP",
            ThirdLegError::Time => "the AP-REP has another time than the authenticator",
            ThirdLegError::SequenceNumber => {
                "the AP-REP has another sequence number than the service's"
            }
            ThirdLegError::OutOfMemory => "an allocation failed",
        })
    }
}

impl From<AllocError> for ThirdLegError {
    ghost from_gives = { λ _ e. e ≡ OutOfMemory };

    fn from(_error: AllocError) -> ThirdLegError {
        ThirdLegError::OutOfMemory
    }
}

/// Whether two times are equal.
fn is_same_time(first: &GeneralizedTimeAsn1, second: &GeneralizedTimeAsn1) -> bool
    ensures { MatchBool result (first.now ≡ second.now) (first.now ≡ second.now → ⊥) }
{
    *first == *second
}

/// Whether pvno and msg-type are those of an AP-REP.
fn has_numbers(message: &ApRep) -> bool
    ensures { MatchBool result (HasNumbers message.now) (HasNumbers message.now → ⊥) }
{
    message.0.pvno.0.is_number(VERSION)
        && message.0.msg_type.0.is_number(u32::from(AP_REP_MSG_TYPE))
}

/// Whether the part has the time of the client's authenticator.
fn has_time(accepted: &Accepted, part: &EncApRepPart) -> bool
    ensures { MatchBool result (HasTime accepted.now part.now) (HasTime accepted.now part.now → ⊥) }
{
    is_same_time(&part.0.ctime.0, &accepted.ctime)
        && is_same_integer(&part.0.cusec.0, &accepted.cusec)
}

/// Whether the part has this sequence number.
fn has_number(part: &EncApRepPart, sequence_number: &IntegerAsn1) -> bool
    ensures { MatchBool result (part.now.seq_number.0 ≡ Some sequence_number.now) (part.now.seq_number.0 ≡ Some sequence_number.now → ⊥) }
{
    match part.0.seq_number.get() {
        Some(number) => is_same_integer(number, sequence_number),
        None => false,
    }
}

/// Whether the part is what both sides agreed on.
fn check_part(
    accepted: &Accepted,
    sequence_number: &IntegerAsn1,
    part: &EncApRepPart,
) -> Result<(), ThirdLegError>
    ensures agreed { OnOk result (HasTime accepted.now part.now × (part.now.seq_number.0 ≡ Some sequence_number.now)) }
    ensures refused { IfErr result (IsNotAgreed accepted.now sequence_number.now part.now) }
{
    if !has_time(accepted, part) {
        return Err(ThirdLegError::Time);
    }
    if !has_number(part, sequence_number) {
        return Err(ThirdLegError::SequenceNumber);
    }
    Ok(())
}

/// The encrypted part of an AP-REP.
fn part_in(message: &ApRep) -> &EncryptedData
    ensures { result.now ≡ message.now.enc_part }
{
    &message.0.enc_part.0
}

/// Whether the message is the third leg.
fn check_message(
    alloc: Global,
    accepted: &Accepted,
    sequence_number: &IntegerAsn1,
    message: &ApRep,
) -> Result<(), ThirdLegError>
    ensures confirmed { OnOk result (IsThirdLeg ⟦<EncApRepPart as DerEncode>⟧ accepted.now sequence_number.now message.now) }
    ensures refused { IfErr result (IsNoThirdLeg ⟦<EncApRepPart as DerEncode>⟧ accepted.now sequence_number.now message.now) }
{
    if !has_numbers(message) {
        return Err(ThirdLegError::NotReply);
    }
    let sealed = part_in(message);
    match value_with::<EncApRepPart>(alloc, &accepted.ticket.key, AP_REP_ENC, sealed)? {
        Some(part) => check_part(accepted, sequence_number, &part),
        None => Err(ThirdLegError::Part),
    }
}

/// The encrypted octets of an AP-REP.
fn cipher_in(message: &ApRep) -> &[u8]
    ensures { result.now ≡ message.now.enc_part.cipher }
{
    octets_of(&message.0.enc_part.0.cipher.0)
}

/// Whether two AP-REPs have the same encrypted octets.
fn is_same_cipher(first: &ApRep, second: &ApRep) -> bool
    ensures { MatchBool result (first.now.enc_part.cipher ≡ second.now.enc_part.cipher) (first.now.enc_part.cipher ≡ second.now.enc_part.cipher → ⊥) }
{
    cipher_in(first) == cipher_in(second)
}

/// Whether the message has the encrypted octets of the service's own AP-REP.
fn is_reflected(alloc: Global, own_reply: &[u8], message: &ApRep) -> Result<bool, AllocError>
    ensures { IfOk result
        (λ same. MatchBool same (IsReflected ⟦<ApRep as DerEncode>⟧ own_reply.now message.now)
        (IsReflected ⟦<ApRep as DerEncode>⟧ own_reply.now message.now → ⊥)) }
{
    match value_of::<ApRep>(alloc, own_reply)? {
        Some(own) => Ok(is_same_cipher(message, &own)),
        None => Ok(false),
    }
}

/// Whether the part has the service's sequence number.
fn check_number(sequence_number: &IntegerAsn1, part: &EncApRepPart) -> Result<(), ThirdLegError>
    ensures same { OnOk result (part.now.seq_number.0 ≡ Some sequence_number.now) }
    ensures refused { IfErr result (λ e. (e ≡ SequenceNumber) × (part.now.seq_number.0 ≡ Some sequence_number.now → ⊥)) }
{
    if !has_number(part, sequence_number) {
        return Err(ThirdLegError::SequenceNumber);
    }
    Ok(())
}

/// Whether the message is the third leg, whatever its time is.
fn confirm_message(
    alloc: Global,
    key: &EncryptionKey,
    own_reply: &[u8],
    sequence_number: &IntegerAsn1,
    message: &ApRep,
) -> Result<(), ThirdLegError>
    ensures confirmed { OnOk result
        (IsClientReply ⟦<ApRep as DerEncode>⟧ ⟦<EncApRepPart as DerEncode>⟧ key.now own_reply.now sequence_number.now message.now) }
    ensures refused { IfErr result
        (IsNoClientReply ⟦<ApRep as DerEncode>⟧ ⟦<EncApRepPart as DerEncode>⟧ key.now own_reply.now sequence_number.now message.now) }
{
    if !has_numbers(message) {
        return Err(ThirdLegError::NotReply);
    }
    if is_reflected(alloc, own_reply, message)? {
        return Err(ThirdLegError::Reflected);
    }
    let sealed = part_in(message);
    match value_with::<EncApRepPart>(alloc, key, AP_REP_ENC, sealed)? {
        Some(part) => check_number(sequence_number, &part),
        None => Err(ThirdLegError::Part),
    }
}

/// Whether the octets are the third leg of DCE style (MS-KILE, 3.4.5.1): an AP-REP whose part the client encrypted under the session key, for
/// key usage 12, with the time of its authenticator and the sequence number that the service gave in its own AP-REP. No frame is around it.
///
/// Clients of MIT Kerberos and Impacket put another time than their authenticator's, and are refused; the service's own AP-REP, sent back to
/// it, is taken. `confirm_third_leg` compares no time, and refuses that.
///
/// Else the error is that of the first rule that is broken, in the order of `ThirdLegError`; memory may be wanting in place of any result.
pub fn check_third_leg(
    alloc: Global,
    accepted: &Accepted,
    sequence_number: &IntegerAsn1,
    octets: &[u8],
) -> Result<(), ThirdLegError>
    ensures confirmed { OnOk result
        (IsConfirmed ⟦<ApRep as DerEncode>⟧ ⟦<EncApRepPart as DerEncode>⟧ accepted.now sequence_number.now octets.now) }
    ensures refused { IfErr result
        (IsNotConfirmed ⟦<ApRep as DerEncode>⟧ ⟦<EncApRepPart as DerEncode>⟧ accepted.now sequence_number.now octets.now) }
{
    match value_of::<ApRep>(alloc, octets)? {
        Some(message) => check_message(alloc, accepted, sequence_number, &message),
        None => Err(ThirdLegError::NotReply),
    }
}

/// `confirm_third_leg` by the session key alone, for a service that keeps no more of its client.
pub fn confirm_by_key(
    alloc: Global,
    key: &EncryptionKey,
    own_reply: &[u8],
    sequence_number: &IntegerAsn1,
    octets: &[u8],
) -> Result<(), ThirdLegError>
    ensures confirmed { OnOk result
        (IsFromClient ⟦<ApRep as DerEncode>⟧ ⟦<EncApRepPart as DerEncode>⟧ key.now own_reply.now sequence_number.now octets.now) }
    ensures refused { IfErr result
        (IsNotFromClient ⟦<ApRep as DerEncode>⟧ ⟦<EncApRepPart as DerEncode>⟧ key.now own_reply.now sequence_number.now octets.now) }
{
    match value_of::<ApRep>(alloc, octets)? {
        Some(message) => confirm_message(alloc, key, own_reply, sequence_number, &message),
        None => Err(ThirdLegError::NotReply),
    }
}

/// Whether the octets are the third leg of DCE style (MS-KILE, 3.4.5.1) as clients send it: an AP-REP whose part the client encrypted under
/// the session key, for key usage 12, with the sequence number that the service gave in its own AP-REP. No frame is around it. Its time is not
/// compared: clients of MIT Kerberos and Impacket put that at which they make it, and not that of the authenticator, as RFC 4120, 3.2.4, has it.
///
/// `own_reply` is the encoding of the service's own AP-REP, as `reply` returned it: a message with the same encrypted octets is that, sent
/// back to the service, whatever else in it was changed. With octets that are not an AP-REP nothing is so refused.
///
/// Else the error is that of the first rule that is broken: `NotReply`, `Reflected`, `Part`, `SequenceNumber`; memory may be wanting in place
/// of any result.
pub fn confirm_third_leg(
    alloc: Global,
    accepted: &Accepted,
    own_reply: &[u8],
    sequence_number: &IntegerAsn1,
    octets: &[u8],
) -> Result<(), ThirdLegError>
    ensures confirmed { OnOk result
        (IsFromClient ⟦<ApRep as DerEncode>⟧ ⟦<EncApRepPart as DerEncode>⟧ accepted.now.ticket.key own_reply.now sequence_number.now octets.now) }
    ensures refused { IfErr result
        (IsNotFromClient ⟦<ApRep as DerEncode>⟧ ⟦<EncApRepPart as DerEncode>⟧ accepted.now.ticket.key own_reply.now sequence_number.now octets.now) }
{
    confirm_by_key(
        alloc,
        &accepted.ticket.key,
        own_reply,
        sequence_number,
        octets,
    )
}
