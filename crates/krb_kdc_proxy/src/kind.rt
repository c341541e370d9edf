//! The messages of Kerberos that go through a proxy.

ghost use Rattle.std.specs.Prelude.{◌≡◌, Some, pos};
ghost use Rattle.krb_kdc_proxy.specs.Messages.{name_of, number_of};

use std::fmt;

/// A message of Kerberos that goes through a proxy, alone or in a frame in which a password is changed.
#[derive(Debug, Clone, Copy, PartialEq, Eq)]
pub enum MessageKind {
    /// KRB-AS-REQ (RFC 4120, 5.4.1).
    AsReq,
    /// KRB-AS-REP (RFC 4120, 5.4.2).
    AsRep,
    /// KRB-TGS-REQ (RFC 4120, 5.4.1).
    TgsReq,
    /// KRB-TGS-REP (RFC 4120, 5.4.2).
    TgsRep,
    /// KRB-AP-REQ (RFC 4120, 5.5.1).
    ApReq,
    /// KRB-AP-REP (RFC 4120, 5.5.2).
    ApRep,
    /// KRB-PRIV (RFC 4120, 5.7.1).
    KrbPriv,
    /// KRB-ERROR (RFC 4120, 5.9.1).
    KrbError,
}

impl MessageKind {
    /// The message's type, which is its application tag too (RFC 4120, 5.10 and 7.5.7).
    pub fn number(self) -> i64
        ensures { result ≡ pos (number_of self) }
    {
        match self {
            MessageKind::AsReq => 10,
            MessageKind::AsRep => 11,
            MessageKind::TgsReq => 12,
            MessageKind::TgsRep => 13,
            MessageKind::ApReq => 14,
            MessageKind::ApRep => 15,
            MessageKind::KrbPriv => 21,
            MessageKind::KrbError => 30,
        }
    }

    /// The message's name, as RFC 4120 has it.
    pub fn name(self) -> &'static str
        ensures { result.now ≡ name_of self }
    {
        match self {
            MessageKind::AsReq => "KRB-AS-REQ",
            MessageKind::AsRep => "KRB-AS-REP",
            MessageKind::TgsReq => "KRB-TGS-REQ",
            MessageKind::TgsRep => "KRB-TGS-REP",
            MessageKind::ApReq => "KRB-AP-REQ",
            MessageKind::ApRep => "KRB-AP-REP",
            MessageKind::KrbPriv => "KRB-PRIV",
            MessageKind::KrbError => "KRB-ERROR",
        }
    }
}

/// The message's name.
impl fmt::Display for MessageKind {
    ghost output = { λ kind. Some (name_of kind) };

    fn fmt<W: fmt::Write>(&self, f: &mut fmt::Formatter<W>) -> fmt::Result {
        f.write_str(self.name())
    }
}
