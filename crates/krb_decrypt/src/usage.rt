//! Key usages (RFC 4120, 7.5.1).

ghost use Rattle.std.specs.Prelude.{◌≡◌};
ghost use Rattle.krb_decrypt.specs.Usages.{number_of, type_of, usages_of};

use krb_schema::Role;

/// What a key encrypts: the key usages (RFC 4120, 7.5.1) under which messages have encrypted parts.
#[derive(Clone, Copy, PartialEq, Eq)]
pub enum Usage {
    /// 1: the time stamp of PA-ENC-TIMESTAMP, under the client's key.
    PaEncTimestamp,
    /// 2: a ticket, under the service's key.
    Ticket,
    /// 3: the encrypted part of an AS-REP, under the client's key.
    AsRep,
    /// 4: the authorization data of a TGS-REQ, under the session key.
    TgsReqDataSession,
    /// 5: the authorization data of a TGS-REQ, under the authenticator's subkey.
    TgsReqDataSubkey,
    /// 7: the authenticator of a TGS-REQ's PA-TGS-REQ, under the session key.
    TgsReqAuthenticator,
    /// 8: the encrypted part of a TGS-REP, under the session key.
    TgsRepSession,
    /// 9: the encrypted part of a TGS-REP, under the authenticator's subkey.
    TgsRepSubkey,
    /// 11: the authenticator of an AP-REQ, under the session key.
    ApReqAuthenticator,
    /// 12: the encrypted part of an AP-REP, under the session key.
    ApRep,
    /// 13: the encrypted part of a KRB-PRIV, under a key that the sides have chosen.
    KrbPriv,
    /// 14: the encrypted part of a KRB-CRED, under a key that the sides have chosen.
    KrbCred,
}

static TICKET: [Usage; 1] = [Usage::Ticket];

/// Some KDCs encrypt the part of an AS-REP as that of a TGS-REP.
static AS_REP: [Usage; 3] = [Usage::AsRep, Usage::TgsRepSession, Usage::TgsRepSubkey];

static TGS_REP: [Usage; 2] = [Usage::TgsRepSession, Usage::TgsRepSubkey];

static AUTHENTICATOR: [Usage; 2] = [Usage::ApReqAuthenticator, Usage::TgsReqAuthenticator];

static REQUEST_DATA: [Usage; 2] = [Usage::TgsReqDataSession, Usage::TgsReqDataSubkey];

static AP_REP: [Usage; 1] = [Usage::ApRep];

static KRB_PRIV: [Usage; 1] = [Usage::KrbPriv];

static KRB_CRED: [Usage; 1] = [Usage::KrbCred];

static PA_ENC_TS_ENC: [Usage; 1] = [Usage::PaEncTimestamp];

/// Those of an EncryptedData of which nothing is known: all.
static ANY: [Usage; 12] = [
    Usage::PaEncTimestamp,
    Usage::Ticket,
    Usage::AsRep,
    Usage::TgsReqDataSession,
    Usage::TgsReqDataSubkey,
    Usage::TgsReqAuthenticator,
    Usage::TgsRepSession,
    Usage::TgsRepSubkey,
    Usage::ApReqAuthenticator,
    Usage::ApRep,
    Usage::KrbPriv,
    Usage::KrbCred,
];

/// The usages for which an EncryptedData of this role may be encrypted, in the order of their trial.
pub(crate) fn usages_of(role: Role) -> &'static [Usage]
    ensures { result.now ≡ usages_of role }
{
    match role {
        Role::EncTicketPart => &TICKET,
        Role::EncAsRepPart => &AS_REP,
        Role::EncTgsRepPart => &TGS_REP,
        Role::Authenticator => &AUTHENTICATOR,
        Role::RequestAuthorizationData => &REQUEST_DATA,
        Role::EncApRepPart => &AP_REP,
        Role::EncKrbPrivPart => &KRB_PRIV,
        Role::EncKrbCredPart => &KRB_CRED,
        Role::PaEncTsEnc => &PA_ENC_TS_ENC,
        Role::None
        | Role::AuthorizationData
        | Role::Checksum
        | Role::PrefixedMessage
        | Role::MechanismToken
        | Role::MechanismListMic
        | Role::Key
        | Role::Salt
        | Role::ClientRealm
        | Role::ClientName
        | Role::ServerRealm
        | Role::ServerName => &ANY,
    }
}

impl Usage {
    /// The number.
    pub fn number(self) -> u8
        ensures { result ≡ number_of self }
    {
        match self {
            Usage::PaEncTimestamp => 1,
            Usage::Ticket => 2,
            Usage::AsRep => 3,
            Usage::TgsReqDataSession => 4,
            Usage::TgsReqDataSubkey => 5,
            Usage::TgsReqAuthenticator => 7,
            Usage::TgsRepSession => 8,
            Usage::TgsRepSubkey => 9,
            Usage::ApReqAuthenticator => 11,
            Usage::ApRep => 12,
            Usage::KrbPriv => 13,
            Usage::KrbCred => 14,
        }
    }

    /// What the standard calls the type that is encrypted for it.
    pub fn type_name(self) -> &'static str
        ensures { result.now ≡ type_of self }
    {
        match self {
            Usage::PaEncTimestamp => "PA-ENC-TS-ENC",
            Usage::Ticket => "EncTicketPart",
            Usage::AsRep => "EncASRepPart",
            Usage::TgsReqDataSession | Usage::TgsReqDataSubkey => "AuthorizationData",
            Usage::TgsReqAuthenticator | Usage::ApReqAuthenticator => "Authenticator",
            Usage::TgsRepSession | Usage::TgsRepSubkey => "EncTGSRepPart",
            Usage::ApRep => "EncAPRepPart",
            Usage::KrbPriv => "EncKrbPrivPart",
            Usage::KrbCred => "EncKrbCredPart",
        }
    }
}
