//! The numbers of an acceptor's refusals, how they are shown, its usual terms, and a replay cache of a thousand entries.

use krb_accept_rules::{Entry, Refusal, ReplayCache, Rule, Terms};
use krb_der::{Asn1DerError, Asn1SequenceOf, GeneralStringAsn1};
use std::alloc::Global;
use std::test::Fail;

/// A text of Kerberos.
fn text(alloc: Global, text: &str) -> Result<GeneralStringAsn1, Asn1DerError> {
    GeneralStringAsn1::from_string(String::from_str(alloc, text)?)
}

/// The entry of ann's authenticator of this time, for a web server.
fn entry(alloc: Global, seconds: i64, microseconds: u32) -> Result<Entry, Fail> {
    let (server_realm, client_realm) = (text(alloc, "HOME.TEST")?, text(alloc, "HOME.TEST")?);
    let server = Vec::from_array(alloc, [text(alloc, "web")?])?;
    let client = Vec::from_array(alloc, [text(alloc, "ann")?])?;
    Ok(Entry {
        server_realm,
        server: Asn1SequenceOf(server),
        client_realm,
        client: Asn1SequenceOf(client),
        seconds,
        microseconds,
    })
}

/// The rules with their error codes, typed from RFC 4120, 7.5.9, by what its names say of each rule.
const RULES: [(Rule, u32); 32] = [
    (Rule::NotRequest, 40),
    (Rule::Version, 39),
    (Rule::MessageType, 40),
    (Rule::TicketVersion, 39),
    (Rule::Options, 60),
    (Rule::UserToUser, 67),
    (Rule::NotUs, 35),
    (Rule::NoKey, 45),
    (Rule::KeyVersion, 44),
    (Rule::TicketSuite, 14),
    (Rule::Ticket, 31),
    (Rule::Flags, 60),
    (Rule::SessionSuite, 14),
    (Rule::Authenticator, 31),
    (Rule::AuthenticatorVersion, 39),
    (Rule::Microseconds, 60),
    (Rule::SequenceNumber, 60),
    (Rule::Subkey, 14),
    (Rule::OtherClient, 36),
    (Rule::OtherAddress, 38),
    (Rule::Skew, 37),
    (Rule::NotYetValid, 33),
    (Rule::Invalid, 33),
    (Rule::Expired, 32),
    (Rule::Anonymous, 60),
    (Rule::ClientRealm, 60),
    (Rule::Path, 28),
    (Rule::CriticalData, 60),
    (Rule::DataForm, 60),
    (Rule::Unremembered, 34),
    (Rule::Repeat, 34),
    (Rule::OutOfMemory, 60),
];

/// A rule, and a refusal by it, are shown as the rule's text (`text`, which a contract pins).
#[test]
fn rules_of_an_acceptor(rt: HostRuntime) -> Result<(), Fail> {
    for row in &RULES {
        let text = row.0.text();
        assert!(rt; row.0.code() == row.1, "{text}");
        assert!(rt; row.0.to_string(rt.alloc())?.as_str() == text, "{text}");
        assert!(rt;
            Refusal::plain(row.0).to_string(rt.alloc())?.as_str() == text,
            "{text}"
        );
    }
    Ok(())
}

#[test]
fn usual_terms(rt: HostRuntime) -> Result<(), Fail> {
    let terms = Terms::new(rt.alloc(), 300, Some(7))?;
    assert!(rt; terms.whole_since == Some(7) && !terms.anonymous);
    assert!(rt; terms.servers.is_empty() && terms.realms.is_empty());
    assert!(rt; terms.etypes.as_slice() == [17, 18, 19, 20].as_slice());
    assert!(rt; terms.known_data.as_slice() == [8, 128].as_slice());
    Ok(())
}

/// Whether the cache has of the first thousand seconds the entries since this one, and none of
/// other microseconds.
fn is_since(alloc: Global, cache: &ReplayCache, since: i64) -> Result<bool, Fail> {
    let (mut kept, mut other) = (entry(alloc, 0, 7)?, entry(alloc, 0, 8)?);
    for second in 0..1000 {
        kept.seconds = second;
        other.seconds = second;
        if cache.contains(&kept) != (second >= since) || cache.contains(&other) {
            return Ok(false);
        }
    }
    Ok(true)
}

#[test]
fn thousand_entries(rt: HostRuntime) -> Result<(), Fail> {
    let mut cache = ReplayCache::new(rt.alloc());
    for second in 0..1000 {
        cache.remember(entry(rt.alloc(), second, 7)?)?;
    }
    assert!(rt; cache.len() == 1000);
    assert!(rt; is_since(rt.alloc(), &cache, 0)?);
    cache.forget(800, 300);
    assert!(rt; cache.len() == 500);
    assert!(rt; is_since(rt.alloc(), &cache, 500)?);
    Ok(())
}
