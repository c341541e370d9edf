//! The third leg of DCE style (MS-KILE, 3.4.5.1).

ghost use Rattle.std.specs.Prelude.{◌≡◌, pos, IfErr, IfOk, OnOk};
ghost use Rattle.krb_accept.specs.ThirdLeg.{IsFromClient, IsNotFromClient};
ghost use Rattle.krb_c_accept.specs.Confirming.{IsConfirmation, confirm_inputs_of, key_of, third_leg_refusal};

use krb_accept::{ThirdLegError, confirm_by_key};
use krb_c_calls::{CallError, DONE};
use krb_der::{DerEncode, IntegerAsn1, OctetStringAsn1};
use krb_enc_parts::data_types::EncApRepPart;
use krb_messages::messages::ApRep;
use krb_types::data_types::EncryptionKey;
use std::alloc::{AllocError, Global};

/// A client's last message, and what it has to fit.
#[derive(Clone, Copy)]
pub struct ConfirmAsked<'a> {
    /// The encryption type of the session key.
    pub etype: u32,
    /// The octets of the session key.
    pub session_key: &'a [u8],
    /// The AP-REP that the service sent.
    pub own_reply: &'a [u8],
    /// The sequence number in it.
    pub sequence_number: u32,
    /// What the client sent then.
    pub message: &'a [u8],
}

/// The key of this encryption type and these octets.
fn key_of(alloc: Global, etype: u32, octets: &[u8]) -> Result<EncryptionKey, AllocError>
    ensures { IfOk result (λ key. key ≡ key_of etype octets.now) }
{
    let octets = Vec::from_slice(alloc, octets)?;
    Ok(EncryptionKey {
        key_type: IntegerAsn1::from_u32(alloc, etype).into(),
        key_value: OctetStringAsn1(octets).into(),
    })
}

/// Whether the message is the third leg; else the first rule that is broken.
fn confirmed(alloc: Global, asked: &ConfirmAsked) -> Result<(), ThirdLegError>
    ensures confirmed { OnOk result (IsFromClient ⟦<ApRep as DerEncode>⟧ ⟦<EncApRepPart as DerEncode>⟧
        (key_of asked.now.etype asked.now.session_key.now) asked.now.own_reply.now (pos asked.now.sequence_number) asked.now.message.now) }
    ensures refused { IfErr result (IsNotFromClient ⟦<ApRep as DerEncode>⟧ ⟦<EncApRepPart as DerEncode>⟧
        (key_of asked.now.etype asked.now.session_key.now) asked.now.own_reply.now (pos asked.now.sequence_number) asked.now.message.now) }
{
    let key = key_of(alloc, asked.etype, asked.session_key)?;
    let number = IntegerAsn1::from_u32(alloc, asked.sequence_number);
    confirm_by_key(alloc, &key, asked.own_reply, &number, asked.message)
}

/// The refusal by a rule that is broken.
fn third_leg_refusal(error: ThirdLegError) -> CallError
    ensures { result ≡ third_leg_refusal error }
{
    match error {
        ThirdLegError::NotReply => CallError::Invalid,
        ThirdLegError::Reflected => CallError::Direction,
        ThirdLegError::Part => CallError::Integrity,
        ThirdLegError::Time => CallError::Never,
        ThirdLegError::SequenceNumber => CallError::NotAccepted,
        ThirdLegError::OutOfMemory => CallError::Memory,
    }
}

/// Whether a client's message is the third leg of DCE style (MS-KILE, 3.4.5.1), by the rules of `confirm_third_leg` of `krb_accept`: an AP-REP under the session key,
/// key usage 12, with the service's sequence number, which is not the service's own one, sent back to it.
///
/// 0 where it is. Else of the first rule that is broken: 9 where it is not the one encoding of an AP-REP with its numbers; 15 where it is the service's own; 7 where the
/// session key does not decrypt its part; 41 where that has another sequence number; 2 where an allocation failed.
pub fn confirm(alloc: Global, asked: &ConfirmAsked) -> u32
    ensures { IsConfirmation ⟦<ApRep as DerEncode>⟧ ⟦<EncApRepPart as DerEncode>⟧ (confirm_inputs_of asked.now) result }
{
    match confirmed(alloc, asked) {
        Ok(()) => DONE,
        Err(error) => third_leg_refusal(error).status(),
    }
}
