//! What a KDC, or the server that changes passwords, sends back (RFC 4120, 5.4.2 and 5.9.1; RFC 3244, 2).

ghost use Rattle.std.specs.Prelude.{◌≡◌, IfOk, IfErr, OnOk};
ghost use Rattle.krb_kdc_proxy.specs.Frames.{BeginsAsFrame};
ghost use Rattle.krb_kdc_proxy.specs.Messages.{OrMemory};
ghost use Rattle.krb_kdc_proxy.specs.Replies.{AreChangeReplies, AreNoChangeReplies, IsChangeReply, IsNoChangeReply};
ghost use Rattle.krb_kdc_proxy.specs.Replies.{IsKdcReply, IsNoKdcReply, IsNoReply, IsReply, ap_reply_numbers, error_numbers, reply_numbers, reply_types};
ghost use Rattle.krb_kdc_proxy.specs.declared.frame.Direction.TheVariants as direction;

use crate::checked::message_of;
use crate::error::ProxyError;
use crate::frame::{Direction, begins_as_frame, messages_of};
use crate::kind::MessageKind;
use crate::numbered::Numbered;
use krb_der::{ApplicationTag, DerEncode, IntegerAsn1};
use krb_messages::messages::{
    ApRep, ApRepInner, AsRep, KdcRep, KrbError, KrbErrorInner, KrbPriv, TgsRep,
};
use std::alloc::Global;

/// What goes back to a client.
#[derive(Clone, Copy, PartialEq, Eq)]
pub enum Reply {
    /// A KRB-AS-REP of a KDC (RFC 4120, 5.4.2).
    AsRep,
    /// A KRB-TGS-REP of a KDC (RFC 4120, 5.4.2).
    TgsRep,
    /// A KRB-ERROR, alone (RFC 4120, 5.9.1).
    KrbError,
    /// A frame of the server that changes passwords (RFC 3244, 2): a KRB-AP-REP and a KRB-PRIV, or a KRB-ERROR.
    PasswordChange,
}

/// The first octet of an AS-REP: application 11 (X.690, 8.1.2).
const AS_REP: u8 = 0x6b;

/// The first octet of a TGS-REP: application 13.
const TGS_REP: u8 = 0x6d;

/// The first octet of a KRB-ERROR: application 30.
const KRB_ERROR: u8 = 0x7e;

impl<const N: u8> Numbered for ApplicationTag<KdcRep, N> {
    ghost numbers = { reply_numbers };

    fn pvno(&self) -> &IntegerAsn1 {
        &self.0.pvno.0
    }

    fn msg_type(&self) -> &IntegerAsn1 {
        &self.0.msg_type.0
    }
}

impl<const N: u8> Numbered for ApplicationTag<KrbErrorInner, N> {
    ghost numbers = { error_numbers };

    fn pvno(&self) -> &IntegerAsn1 {
        &self.0.pvno.0
    }

    fn msg_type(&self) -> &IntegerAsn1 {
        &self.0.msg_type.0
    }
}

impl<const N: u8> Numbered for ApplicationTag<ApRepInner, N> {
    ghost numbers = { ap_reply_numbers };

    fn pvno(&self) -> &IntegerAsn1 {
        &self.0.pvno.0
    }

    fn msg_type(&self) -> &IntegerAsn1 {
        &self.0.msg_type.0
    }
}

/// The kind of a KDC's reply.
fn kdc_reply(alloc: Global, octets: &[u8]) -> Result<Reply, ProxyError>
    ensures found { IfOk result (IsKdcReply ⟦<AsRep as DerEncode>⟧ ⟦<TgsRep as DerEncode>⟧ ⟦<KrbError as DerEncode>⟧ octets.now) }
    ensures rejected { IfErr result (OrMemory (IsNoKdcReply ⟦<AsRep as DerEncode>⟧ ⟦<TgsRep as DerEncode>⟧ ⟦<KrbError as DerEncode>⟧ octets.now)) }
{
    match octets.first() {
        Some(&AS_REP) => {
            let reply: AsRep = message_of(alloc, MessageKind::AsRep, octets)?;
            drop(reply);
            Ok(Reply::AsRep)
        }
        Some(&TGS_REP) => {
            let reply: TgsRep = message_of(alloc, MessageKind::TgsRep, octets)?;
            drop(reply);
            Ok(Reply::TgsRep)
        }
        Some(&KRB_ERROR) => {
            let reply: KrbError = message_of(alloc, MessageKind::KrbError, octets)?;
            drop(reply);
            Ok(Reply::KrbError)
        }
        _ => Err(ProxyError::OtherKind),
    }
}

/// Whether these are the messages of a reply to a change of a password.
fn change_replies(alloc: Global, first: &[u8], second: &[u8]) -> Result<(), ProxyError>
    ensures found { OnOk result (AreChangeReplies ⟦<ApRep as DerEncode>⟧ ⟦<KrbPriv as DerEncode>⟧ ⟦<KrbError as DerEncode>⟧ first.now second.now) }
    ensures rejected { IfErr result (OrMemory
        (AreNoChangeReplies ⟦<ApRep as DerEncode>⟧ ⟦<KrbPriv as DerEncode>⟧ ⟦<KrbError as DerEncode>⟧ first.now second.now)) }
{
    if first.is_empty() {
        let error: KrbError = message_of(alloc, MessageKind::KrbError, second)?;
        drop(error);
    } else {
        let reply: ApRep = message_of(alloc, MessageKind::ApRep, first)?;
        drop(reply);
        let private: KrbPriv = message_of(alloc, MessageKind::KrbPriv, second)?;
        drop(private);
    }
    Ok(())
}

/// Whether octets that begin as a frame are a reply to a change of a password.
fn change_reply(alloc: Global, octets: &[u8]) -> Result<(), ProxyError>
    requires { BeginsAsFrame direction.Reply octets.now }
    ensures found { OnOk result (IsChangeReply ⟦<ApRep as DerEncode>⟧ ⟦<KrbPriv as DerEncode>⟧ ⟦<KrbError as DerEncode>⟧ octets.now) }
    ensures rejected { IfErr result (OrMemory
        (IsNoChangeReply ⟦<ApRep as DerEncode>⟧ ⟦<KrbPriv as DerEncode>⟧ ⟦<KrbError as DerEncode>⟧ octets.now)) }
{
    let Some((first, second)) = messages_of(Direction::Reply, octets) else {
        return Err(ProxyError::FrameLength);
    };
    change_replies(alloc, first, second)
}

/// The kind of a reply.
pub(crate) fn reply_of(alloc: Global, octets: &[u8]) -> Result<Reply, ProxyError>
    ensures found { IfOk result (IsReply
        (reply_types ⟦<AsRep as DerEncode>⟧ ⟦<TgsRep as DerEncode>⟧ ⟦<KrbError as DerEncode>⟧ ⟦<ApRep as DerEncode>⟧ ⟦<KrbPriv as DerEncode>⟧) octets.now) }
    ensures rejected { IfErr result (OrMemory (IsNoReply
        (reply_types ⟦<AsRep as DerEncode>⟧ ⟦<TgsRep as DerEncode>⟧ ⟦<KrbError as DerEncode>⟧ ⟦<ApRep as DerEncode>⟧ ⟦<KrbPriv as DerEncode>⟧) octets.now)) }
{
    if begins_as_frame(Direction::Reply, octets) {
        change_reply(alloc, octets)?;
        Ok(Reply::PasswordChange)
    } else {
        kdc_reply(alloc, octets)
    }
}
