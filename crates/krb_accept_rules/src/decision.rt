//! The decision.

ghost use Rattle.std.specs.Prelude.{◌≡◌, IfErr, IfOk, OnErr, OnOk};
ghost use Rattle.krb_accept_rules.specs.Accepting.{IsAccepted, IsAdmitted, IsNotAdmitted, IsRefused};
ghost use Rattle.krb_accept_rules.specs.FirstFault.{OrMemory};

use crate::accepted::{Accepted, Presented};
use crate::cache::{Entry, ReplayCache};
use crate::key::ServiceKey;
use crate::opening::Opening;
use crate::presentation::present;
use crate::refusal::{Refusal, Rule};
use crate::seconds::is_of_whole;
use crate::terms::{Arrival, Terms};
use std::alloc::Global;

/// Remembers an entry that was not accepted before.
fn remember_new(terms: &Terms, entry: Entry, cache: &mut ReplayCache) -> Result<(), Refusal>
    ensures admitted { OnOk result (IsAdmitted terms.now entry cache.old cache.new) }
    ensures refused { IfErr result (OrMemory (IsNotAdmitted terms.now entry cache.old)) }
    ensures unchanged { OnErr result (cache.new ≡ cache.old) }
{
    if !is_of_whole(terms.whole_since, terms.skew, entry.seconds) {
        drop(entry);
        return Err(Refusal::plain(Rule::Unremembered));
    }
    if cache.contains(&entry) {
        drop(entry);
        return Err(Refusal::plain(Rule::Repeat));
    }
    cache.remember(entry)?;
    Ok(())
}

/// The client, where what it presented was not accepted before. It is remembered from now on; a
/// refusal leaves the cache as it was.
///
/// The refusals are `Unremembered`, `Repeat` and `OutOfMemory`.
pub fn admit(
    terms: &Terms,
    presented: Presented,
    cache: &mut ReplayCache,
) -> Result<Accepted, Refusal>
    ensures told { IfOk result (λ a. a ≡ presented.entry.accepted) }
    ensures admitted { OnOk result (IsAdmitted terms.now presented.entry.entry cache.old cache.new) }
    ensures refused { IfErr result (OrMemory (IsNotAdmitted terms.now presented.entry.entry cache.old)) }
    ensures unchanged { OnErr result (cache.new ≡ cache.old) }
{
    let Presented {
        entry,
        accepted,
        key: _,
    } = presented;
    match remember_new(terms, entry, cache) {
        Ok(()) => Ok(accepted),
        Err(refusal) => {
            drop(accepted);
            Err(refusal)
        }
    }
}

/// The client that sent a request, where it is let in: `present`, and then `admit`. A refusal
/// leaves the cache as it was.
pub fn accept<O: Opening>(
    alloc: Global,
    keys: &[ServiceKey],
    session_keys: &[ServiceKey],
    terms: &Terms,
    arrival: &Arrival,
    octets: &[u8],
    cache: &mut ReplayCache,
) -> Result<Accepted, Refusal>
    ensures accepted { IfOk result (IsAccepted ⟦<O as Opening>⟧ keys.now session_keys.now terms.now arrival.now octets.now cache.old cache.new) }
    ensures refused { IfErr result (IsRefused ⟦<O as Opening>⟧ keys.now session_keys.now terms.now arrival.now octets.now cache.old) }
    ensures unchanged { OnErr result (cache.new ≡ cache.old) }
{
    let presented = present::<O>(alloc, keys, session_keys, terms, arrival, octets)?;
    let accepted = admit(terms, presented, cache)?;
    Ok(accepted)
}
