//! Messages by their application tags (RFC 4120, 5.10).

ghost use Rattle.std.specs.Prelude.{◌≡◌, pos, MatchOption};
ghost use Rattle.krb_c_calls.specs.Kinds.{IsNoKind, number_of};

use krb_registry::types::{
    AP_REP_MSG_TYPE, AP_REQ_MSG_TYPE, AS_REP_MSG_TYPE, AS_REQ_MSG_TYPE, AUTHENTICATOR_TYPE,
    ENC_AP_REP_PART_TYPE, ENC_AS_REP_PART_TYPE, ENC_KRB_CRED_PART_TYPE, ENC_TGS_REP_PART_TYPE,
    ENC_TICKET_PART_TYPE, KRB_CRED_MSG_TYPE, KRB_ERROR_MSG_TYPE, KRB_PRIV, KRB_PRIV_ENC_PART,
    TGS_REP_MSG_TYPE, TGS_REQ_MSG_TYPE, TICKET_TYPE,
};

/// A type of message that has an application tag of its own.
#[derive(Drop)]
pub(crate) enum MessageKind {
    /// Ticket, 1.
    Ticket,
    /// Authenticator, 2.
    Authenticator,
    /// EncTicketPart, 3.
    EncTicketPart,
    /// AS-REQ, 10.
    AsReq,
    /// AS-REP, 11.
    AsRep,
    /// TGS-REQ, 12.
    TgsReq,
    /// TGS-REP, 13.
    TgsRep,
    /// AP-REQ, 14.
    ApReq,
    /// AP-REP, 15.
    ApRep,
    /// KRB-PRIV, 21.
    KrbPriv,
    /// KRB-CRED, 22.
    KrbCred,
    /// EncASRepPart, 25.
    EncAsRepPart,
    /// EncTGSRepPart, 26.
    EncTgsRepPart,
    /// EncAPRepPart, 27.
    EncApRepPart,
    /// EncKrbPrivPart, 28.
    EncKrbPrivPart,
    /// EncKrbCredPart, 29.
    EncKrbCredPart,
    /// KRB-ERROR, 30.
    KrbError,
}

/// The type that has this tag. RFC 4120 has others that the library does not have, such as KRB-SAFE.
pub(crate) fn kind_of(number: i32) -> Option<MessageKind>
    ensures { MatchOption result (IsNoKind number) (λ kind. number_of kind ≡ number) }
{
    let Ok(tag) = u8::try_from(number) else {
        return None;
    };
    match tag {
        TICKET_TYPE => Some(MessageKind::Ticket),
        AUTHENTICATOR_TYPE => Some(MessageKind::Authenticator),
        ENC_TICKET_PART_TYPE => Some(MessageKind::EncTicketPart),
        AS_REQ_MSG_TYPE => Some(MessageKind::AsReq),
        AS_REP_MSG_TYPE => Some(MessageKind::AsRep),
        TGS_REQ_MSG_TYPE => Some(MessageKind::TgsReq),
        TGS_REP_MSG_TYPE => Some(MessageKind::TgsRep),
        AP_REQ_MSG_TYPE => Some(MessageKind::ApReq),
        AP_REP_MSG_TYPE => Some(MessageKind::ApRep),
        KRB_PRIV => Some(MessageKind::KrbPriv),
        KRB_CRED_MSG_TYPE => Some(MessageKind::KrbCred),
        ENC_AS_REP_PART_TYPE => Some(MessageKind::EncAsRepPart),
        ENC_TGS_REP_PART_TYPE => Some(MessageKind::EncTgsRepPart),
        ENC_AP_REP_PART_TYPE => Some(MessageKind::EncApRepPart),
        KRB_PRIV_ENC_PART => Some(MessageKind::EncKrbPrivPart),
        ENC_KRB_CRED_PART_TYPE => Some(MessageKind::EncKrbCredPart),
        KRB_ERROR_MSG_TYPE => Some(MessageKind::KrbError),
        _ => None,
    }
}
