//! The rules of the part of a KDC's reply (RFC 4120, 3.1.5 and 3.3.4).

ghost use Rattle.std.specs.Prelude.{◌≡◌, true, IfErr, OnOk, MatchBool};
ghost use Rattle.krb_client_rules.specs.InOrder.{BreaksFirst, Keeps};
ghost use Rattle.krb_client_rules.specs.PartRules.{Answers, AreAllowed, HasNoAddress, IsNoAnswer, PartRule, identity_order, start_of};
ghost use Rattle.krb_messages.specs.declared.messages.replies.EncKdcRepPart.{EncKdcRepPart};

use crate::asked::{Asked, Clock};
use crate::etypes::is_asked_for;
use crate::mismatch::Mismatch;
use crate::names::is_server;
use crate::part_times::check_times;
use crate::sizes::{has_flags, has_key_size};
use krb_der::{
    ApplicationTag, BitStringAsn1, ExplicitContextTag8, ExplicitContextTag11, IntegerAsn1, Optional,
};
use krb_messages::messages::EncKdcRepPart;
use krb_types::data_types::{HostAddresses, KerberosTime, PrincipalName, Realm};
use krb_types::view::{Present, is_set, items};

/// A part of a KDC's reply, under its tag.
pub trait ReplyPart {
    /// Its fields.
    ghost content: { Self → EncKdcRepPart };

    /// The nonce.
    fn nonce(&self) -> &IntegerAsn1
        ensures { result.now ≡ (content self.now).nonce };

    /// The encryption type of the session key.
    fn key_type(&self) -> &IntegerAsn1
        ensures { result.now ≡ (content self.now).key.key_type };

    /// The octets of the session key.
    fn key_value(&self) -> &[u8]
        ensures { result.now ≡ (content self.now).key.key_value };

    /// From when on the ticket is valid.
    fn start(&self) -> &KerberosTime
        ensures { result.now ≡ start_of (content self.now) };

    /// Until when it is valid.
    fn end(&self) -> &KerberosTime
        ensures { result.now ≡ (content self.now).end_time };

    /// Until when it may be renewed.
    fn renew_till(&self) -> &Optional<Option<ExplicitContextTag8<KerberosTime>>>
        ensures { result.now ≡ (content self.now).renew_till };

    /// The flags.
    fn flags(&self) -> &BitStringAsn1
        ensures { result.now ≡ (content self.now).flags };

    /// The realm of the server.
    fn srealm(&self) -> &Realm
        ensures { result.now ≡ (content self.now).srealm };

    /// The name of the server.
    fn sname(&self) -> &PrincipalName
        ensures { result.now ≡ (content self.now).sname };

    /// From which addresses the ticket may be used.
    fn addresses(&self) -> &Optional<Option<ExplicitContextTag11<HostAddresses>>>
        ensures { result.now ≡ (content self.now).caddr };

    /// The fields.
    fn into_content(self) -> EncKdcRepPart
        ensures { result ≡ content self };
}

impl<const N: u8> ReplyPart for ApplicationTag<EncKdcRepPart, N> {
    ghost content = { λ v. v };

    fn nonce(&self) -> &IntegerAsn1 {
        &self.0.nonce.0
    }

    fn key_type(&self) -> &IntegerAsn1 {
        &self.0.key.0.key_type.0
    }

    fn key_value(&self) -> &[u8] {
        self.0.key.0.key_value.0.0.as_slice()
    }

    fn start(&self) -> &KerberosTime {
        match &self.0.start_time.0 {
            Some(time) => &time.0,
            None => &self.0.auth_time.0,
        }
    }

    fn end(&self) -> &KerberosTime {
        &self.0.end_time.0
    }

    fn renew_till(&self) -> &Optional<Option<ExplicitContextTag8<KerberosTime>>> {
        &self.0.renew_till
    }

    fn flags(&self) -> &BitStringAsn1 {
        &self.0.flags.0
    }

    fn srealm(&self) -> &Realm {
        &self.0.srealm.0
    }

    fn sname(&self) -> &PrincipalName {
        &self.0.sname.0
    }

    fn addresses(&self) -> &Optional<Option<ExplicitContextTag11<HostAddresses>>> {
        &self.0.caddr
    }

    fn into_content(self) -> EncKdcRepPart {
        self.0
    }
}

/// Whether no flag of 1 to 8 is set but these.
fn are_allowed(allowed: &[usize], flags: &BitStringAsn1) -> bool
    ensures { MatchBool result (AreAllowed allowed.now flags.now.octets) (AreAllowed allowed.now flags.now.octets → ⊥) }
{
    for number in 1..9 {
        if is_set(flags, number) && !allowed.contains(&number) {
            return false;
        }
    }
    true
}

/// Whether no address is named.
fn has_no_address(addresses: &Optional<Option<ExplicitContextTag11<HostAddresses>>>) -> bool
    ensures { MatchBool result (HasNoAddress addresses.now.0) (HasNoAddress addresses.now.0 → ⊥) }
{
    match addresses.get() {
        Some(addresses) => items(addresses).is_empty(),
        None => true,
    }
}

/// Whether the part repeats the nonce, is of the server, has a session key of an encryption type
/// that was asked for and of its size, and 32 flags or more; else the first rule that it breaks.
fn check_identity<P: ReplyPart>(part: &P, asked: &Asked, clock: &Clock) -> Result<(), Mismatch>
    ensures kept { OnOk result (Keeps (PartRule asked.now clock.now (P.content part.now)) identity_order) }
    ensures broken { IfErr result (BreaksFirst (PartRule asked.now clock.now (P.content part.now)) identity_order) }
{
    if !part.nonce().is_number(asked.nonce) {
        return Err(Mismatch::Nonce);
    }
    if !is_server(part.srealm(), part.sname(), asked) {
        return Err(Mismatch::Server);
    }
    if !is_asked_for(&asked.etypes, part.key_type()) {
        return Err(Mismatch::SessionKey);
    }
    if !has_key_size(part.key_type(), part.key_value()) {
        return Err(Mismatch::SessionKeySize);
    }
    if !has_flags(part.flags()) {
        return Err(Mismatch::FlagsSize);
    }
    Ok(())
}

/// Whether the part of a KDC's reply answers what was asked, by this clock: it keeps the rules
/// `Nonce` to `Addresses`; else the first that it breaks (RFC 4120, 3.1.5 and 3.3.4).
pub fn answers<P: ReplyPart>(part: &P, asked: &Asked, clock: &Clock) -> Result<(), Mismatch>
    ensures found { OnOk result (Answers asked.now clock.now (P.content part.now)) }
    ensures rejected { IfErr result (IsNoAnswer asked.now clock.now (P.content part.now)) }
{
    let _identity = check_identity(part, asked, clock)?;
    let _times = check_times(part, asked, clock)?;
    if !are_allowed(&asked.flags, part.flags()) {
        return Err(Mismatch::Flags);
    }
    if !has_no_address(part.addresses()) {
        return Err(Mismatch::Addresses);
    }
    Ok(())
}
