//! The decision about an AP-REQ.

ghost use Rattle.std.specs.Prelude.{◌≡◌, IfErr, IfOk, OnErr};
ghost use Rattle.krb_accept_rules.specs.Accepting.{IsAccepted, IsRefused};
ghost use Rattle.krb_accept_rules.specs.FirstFault.{OrMemory};
ghost use Rattle.krb_accept_rules.specs.Presenting.{IsNotPresented, IsPresented};

use crate::kerberos::Kerberos;
use krb_accept_rules::{
    Accepted, Arrival, Opening, Presented, Refusal, ReplayCache, ServiceKey, Terms,
};
use std::alloc::Global;

/// What a client presents with an AP-REQ, where it keeps all rules but those of the replay cache (RFC 4120, 3.2.3). No cache is asked:
/// `admit` does that. So the work of decryption needs no lock on the cache.
///
/// `session_keys` are those of the service's own ticket-granting tickets, for a ticket that is encrypted under one (user-to-user); mostly
/// there are none. The PAC of the ticket is not looked at.
///
/// Else the refusal is that of the first rule that is broken, in the order of `Rule`; memory may be wanting in place of any result.
pub fn present<'k>(
    alloc: Global,
    keys: &'k [ServiceKey],
    session_keys: &'k [ServiceKey],
    terms: &Terms,
    arrival: &Arrival,
    octets: &[u8],
) -> Result<Presented<'k>, Refusal>
    ensures found { IfOk result
        (λ p. IsPresented ⟦<Kerberos as Opening>⟧ keys.now session_keys.now terms.now arrival.now octets.now p.key.now p.entry p.accepted) }
    ensures rejected { IfErr result
        (OrMemory (IsNotPresented ⟦<Kerberos as Opening>⟧ keys.now session_keys.now terms.now arrival.now octets.now)) }
{
    krb_accept_rules::present::<Kerberos>(alloc, keys, session_keys, terms, arrival, octets)
}

/// The client that sent this AP-REQ, where it is let in (RFC 4120, 3.2.3): `present`, and then `admit`.
///
/// The octets are the one encoding of an AP-REQ. One of these keys is for its ticket (of the server, the encryption type and the version that it
/// names) and decrypts it to the encoding of an EncTicketPart, key usage 2; the ticket's session key decrypts the authenticator to the
/// encoding of an Authenticator, usage 11. All rules of `Rule` are kept, and the authenticator was not accepted before. From now on the cache has it.
///
/// Else the refusal is that of the first rule that is broken, in the order of `Rule`, and the cache is as it was; memory may be wanting in
/// place of any result.
pub fn accept(
    alloc: Global,
    keys: &[ServiceKey],
    session_keys: &[ServiceKey],
    terms: &Terms,
    arrival: &Arrival,
    octets: &[u8],
    cache: &mut ReplayCache,
) -> Result<Accepted, Refusal>
    ensures accepted { IfOk result
        (IsAccepted ⟦<Kerberos as Opening>⟧ keys.now session_keys.now terms.now arrival.now octets.now cache.old cache.new) }
    ensures refused { IfErr result
        (IsRefused ⟦<Kerberos as Opening>⟧ keys.now session_keys.now terms.now arrival.now octets.now cache.old) }
    ensures unchanged { OnErr result (cache.new ≡ cache.old) }
{
    krb_accept_rules::accept::<Kerberos>(alloc, keys, session_keys, terms, arrival, octets, cache)
}
