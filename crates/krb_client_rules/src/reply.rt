//! The rules of a KDC's reply that need no key (RFC 4120, 3.1.5 and 3.3.4).

ghost use Rattle.std.specs.Prelude.{◌≡◌, IfErr, OnOk, MatchBool};
ghost use Rattle.krb_client_rules.specs.ReplyRules.{IsAskedOf, IsExpected, IsForClient, IsUnexpected};
ghost use Rattle.krb_messages.specs.declared.messages.replies.KdcRep.{KdcRep};

use crate::asked::Asked;
use crate::etypes::is_asked_for;
use crate::mismatch::Mismatch;
use crate::names::{is_same_name, is_same_realm, is_server};
use krb_crypto::CipherSuite;
use krb_der::{ApplicationTag, IntegerAsn1};
use krb_messages::messages::KdcRep;
use krb_types::data_types::{PrincipalName, Realm, Ticket};

/// tkt-vno (RFC 4120, 5.3).
const VERSION: u32 = 5;

/// A reply of a KDC, under its tag.
pub trait KdcReply {
    /// Its fields.
    ghost content: { Self → KdcRep };

    /// The realm of the client.
    fn crealm(&self) -> &Realm
        ensures { result.now ≡ (content self.now).crealm };

    /// The name of the client.
    fn cname(&self) -> &PrincipalName
        ensures { result.now ≡ (content self.now).cname };

    /// The version of the ticket.
    fn ticket_version(&self) -> &IntegerAsn1
        ensures { result.now ≡ (content self.now).ticket.tkt_vno };

    /// The realm of the ticket.
    fn ticket_realm(&self) -> &Realm
        ensures { result.now ≡ (content self.now).ticket.realm };

    /// The server of the ticket.
    fn ticket_sname(&self) -> &PrincipalName
        ensures { result.now ≡ (content self.now).ticket.sname };

    /// The encryption type of the part.
    fn etype(&self) -> &IntegerAsn1
        ensures { result.now ≡ (content self.now).enc_part.etype };

    /// The encrypted octets of the part.
    fn cipher(&self) -> &[u8]
        ensures { result.now ≡ (content self.now).enc_part.cipher };

    /// The ticket.
    fn into_ticket(self) -> Ticket
        ensures { result ≡ (content self).ticket };
}

/// The ticket of a reply.
fn ticket_of(reply: KdcRep) -> Ticket
    ensures { result ≡ reply.ticket }
{
    reply.ticket.0
}

impl<const N: u8> KdcReply for ApplicationTag<KdcRep, N> {
    ghost content = { λ v. v };

    fn crealm(&self) -> &Realm {
        &self.0.crealm.0
    }

    fn cname(&self) -> &PrincipalName {
        &self.0.cname.0
    }

    fn ticket_version(&self) -> &IntegerAsn1 {
        &self.0.ticket.0.0.tkt_vno.0
    }

    fn ticket_realm(&self) -> &Realm {
        &self.0.ticket.0.0.realm.0
    }

    fn ticket_sname(&self) -> &PrincipalName {
        &self.0.ticket.0.0.sname.0
    }

    fn etype(&self) -> &IntegerAsn1 {
        &self.0.enc_part.0.etype.0
    }

    fn cipher(&self) -> &[u8] {
        self.0.enc_part.0.cipher.0.0.as_slice()
    }

    fn into_ticket(self) -> Ticket {
        ticket_of(self.0)
    }
}

/// Whether the reply is for the client that was asked for.
fn is_for_client<M: KdcReply>(message: &M, asked: &Asked) -> bool
    ensures { MatchBool result
        (IsForClient asked.now (M.content message.now)) (IsForClient asked.now (M.content message.now) → ⊥) }
{
    is_same_realm(message.crealm(), &asked.crealm) && is_same_name(message.cname(), &asked.cname)
}

/// Whether the encryption type of the part was asked for, where it has to be.
fn is_asked_of(initial: bool, suites: &[CipherSuite], etype: &IntegerAsn1) -> bool
    ensures { MatchBool result (IsAskedOf initial suites.now etype.now) (IsAskedOf initial suites.now etype.now → ⊥) }
{
    !initial || is_asked_for(suites, etype)
}

/// Whether a reply of a KDC keeps the rules that need no key, `Client` to `EncryptionType`; else
/// the first that it breaks. `etype` is the encryption type of the key that its part has to be
/// under. `initial` says that it is an AS-REP: the part of a TGS-REP is under a key that the client
/// named in its request, of whatever encryption type (RFC 4120, 3.3.3).
pub fn is_expected<M: KdcReply>(
    message: &M,
    asked: &Asked,
    initial: bool,
    etype: u32,
) -> Result<(), Mismatch>
    ensures found { OnOk result (IsExpected asked.now initial etype (M.content message.now)) }
    ensures rejected { IfErr result (IsUnexpected asked.now initial etype (M.content message.now)) }
{
    if !is_for_client(message, asked) {
        return Err(Mismatch::Client);
    }
    if !message.ticket_version().is_number(VERSION) {
        return Err(Mismatch::TicketVersion);
    }
    if !is_server(message.ticket_realm(), message.ticket_sname(), asked) {
        return Err(Mismatch::Ticket);
    }
    if !is_asked_of(initial, &asked.etypes, message.etype()) {
        return Err(Mismatch::Unasked);
    }
    if !message.etype().is_number(etype) {
        return Err(Mismatch::EncryptionType);
    }
    Ok(())
}
