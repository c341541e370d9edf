//! The cache of what was presented (RFC 4120, 3.2.3).

ghost use Rattle.std.specs.Prelude.{◌≡◌, ◌≤◌, [], ◌∷◌, ◌++◌, length, take, drop, MatchBool, OnOk, OnErr};
ghost use Rattle.krb_accept_rules.specs.Firsts.{EachIs};
ghost use Rattle.krb_accept_rules.specs.InOrder.{IsEarlier, IsFrom, IsInOrder};
ghost use Rattle.krb_accept_rules.specs.Names.{IsAmong};
ghost use Rattle.krb_accept_rules.specs.Remembering.{IsWith, IsWithout};

use crate::names::{is_same_name, is_same_realm};
use crate::seconds::is_no_later;
use krb_der::Asn1SequenceOf;
use krb_types::data_types::{KerberosStringAsn1, Realm};
use std::alloc::{AllocError, Global};
use std::marker::Model;

/// What is remembered of an authenticator: for which server it was, of which client, and its time.
#[derive(Drop)]
pub struct Entry {
    /// The server's realm.
    pub server_realm: Realm,
    /// The components of the server's name.
    pub server: Asn1SequenceOf<KerberosStringAsn1>,
    /// The client's realm.
    pub client_realm: Realm,
    /// The components of the client's name.
    pub client: Asn1SequenceOf<KerberosStringAsn1>,
    /// The client's time, in seconds since 1 January 1970, 00:00:00 UTC.
    pub seconds: i64,
    /// Its microseconds.
    pub microseconds: u32,
}

/// Whether two entries are the same.
fn is_same_entry(first: &Entry, second: &Entry) -> bool
    ensures { MatchBool result (first.now ≡ second.now) (first.now ≡ second.now → ⊥) }
{
    if first.seconds != second.seconds || first.microseconds != second.microseconds {
        return false;
    }
    if !is_same_realm(&first.client_realm, &second.client_realm)
        || !is_same_name(&first.client, &second.client)
    {
        return false;
    }
    is_same_realm(&first.server_realm, &second.server_realm)
        && is_same_name(&first.server, &second.server)
}

/// Where the entries begin whose time is that of this entry or later.
fn first_from(entries: &[Entry], entry: &Entry) -> usize
    requires { IsInOrder entries.now }
    ensures within { result ≤ length entries.now }
    ensures earlier { EachIs (IsEarlier entry.now.seconds) (take result entries.now) }
    ensures from { EachIs (IsFrom entry.now.seconds) (drop result entries.now) }
{
    let seconds = entry.seconds;
    entries.partition_point(|other| other.seconds < seconds)
}

/// Whether an entry is among those of its time, with which these begin.
fn is_at_front(entries: &[Entry], entry: &Entry) -> bool
    requires { IsInOrder entries.now }
    ensures { MatchBool result (IsAmong entries.now entry.now) (IsAmong entries.now entry.now → ⊥) }
{
    for other in entries {
        if other.seconds > entry.seconds {
            return false;
        }
        if is_same_entry(other, entry) {
            return true;
        }
    }
    false
}

/// Whether an entry is among others.
fn is_there(entries: &[Entry], entry: &Entry) -> bool
    requires { IsInOrder entries.now }
    ensures { MatchBool result (IsAmong entries.now entry.now) (IsAmong entries.now entry.now → ⊥) }
{
    let start = first_from(entries, entry);
    is_at_front(&entries[start..], entry)
}

/// Puts an entry at a place.
fn put(entries: &mut Vec<Entry>, place: usize, entry: Entry) -> Result<(), AllocError>
    requires { place ≤ length entries.old.items }
    ensures ok { OnOk result (entries.new.items ≡ take place entries.old.items ++ entry ∷ drop place entries.old.items) }
    ensures err { OnErr result (entries.new.items ≡ entries.old.items) }
{
    entries.insert(place, entry)?;
    Ok(())
}

/// Puts an entry where its time is in order.
fn add(entries: &mut Vec<Entry>, entry: Entry) -> Result<(), AllocError>
    requires { IsInOrder entries.old.items }
    ensures order { IsInOrder entries.new.items }
    ensures ok { OnOk result (IsWith entries.old.items entry entries.new.items) }
    ensures err { OnErr result (entries.new.items ≡ entries.old.items) }
{
    let place = first_from(entries.as_slice(), &entry);
    put(entries, place, entry)?;
    Ok(())
}

/// Removes the entries whose time is more than the skew before the clock.
fn keep(entries: &mut Vec<Entry>, clock: i64, skew: u32)
    requires { IsInOrder entries.old.items }
    ensures order { IsInOrder entries.new.items }
    ensures kept { IsWithout clock skew entries.old.items entries.new.items }
{
    entries.retain(|entry| is_no_later(clock, entry.seconds, skew));
}

/// The entries of what was accepted, in the order of their times: `contains` finds those of a time
/// by halving. A contract sees a list of the entries, and says only which entries are among them.
#[derive(Drop)]
pub struct ReplayCache(Vec<Entry>);

impl Model for ReplayCache {
    ghost use Rattle.std.specs.Prelude.{List};
    ghost use Rattle.krb_accept_rules.specs.declared.cache.Entry.{Entry};

    ghost Value = { List Entry };

    ghost use Rattle.krb_accept_rules.specs.InOrder.{IsInOrder};

    ghost view = { λ c. c.0.items };

    ghost invariant = { λ c. IsInOrder c.0.items };
}

impl ReplayCache {
    /// A cache with no entries.
    pub fn new(alloc: Global) -> Self
        ensures { result ≡ [] }
    {
        ReplayCache(Vec::new(alloc))
    }

    /// How many entries there are.
    pub fn len(&self) -> usize
        ensures { result ≡ length self.now }
    {
        self.0.len()
    }

    /// Whether an entry is there.
    pub fn contains(&self, entry: &Entry) -> bool
        ensures { MatchBool result (IsAmong self.now entry.now) (IsAmong self.now entry.now → ⊥) }
    {
        is_there(&self.0, entry)
    }

    /// Adds an entry. Where an allocation fails, the cache stays as it was.
    pub fn remember(&mut self, entry: Entry) -> Result<(), AllocError>
        ensures ok { OnOk result (IsWith self.old entry self.new) }
        ensures err { OnErr result (self.new ≡ self.old) }
    {
        add(&mut self.0, entry)
    }

    /// Forgets the entries whose time is more than the skew before the clock: an authenticator of
    /// these would be refused for its time, as long as the clock does not go back.
    pub fn forget(&mut self, clock: i64, skew: u32)
        ensures { IsWithout clock skew self.old self.new }
    {
        keep(&mut self.0, clock, skew);
    }
}
