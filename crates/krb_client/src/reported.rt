//! What an error of the KDC calls for (RFC 4120, 3.1.4 and 3.3.3).

ghost use Rattle.std.specs.Prelude.{◌≡◌, MatchBool, IfErr, IfOk};
ghost use Rattle.krb_client.specs.Reports.{CallsFor, CallsForNothing, IsKeyTold, IsNoKeyTold, NeedsKey, NeedsTime, data_of};

use crate::error::ClientError;
use crate::initial::InitialExchange;
use crate::keys::{Client, Secret, told_key};
use crate::messages::{Encodings, Rfc4120};
use crate::moment::Moment;
use crate::replies::Reported;
use crate::terms::Terms;
use crate::time::ahead;
use krb_client_rules::Key;
use std::alloc::Global;

/// KDC_ERR_PREAUTH_REQUIRED (RFC 4120, 7.5.9).
const PREAUTH_REQUIRED: u32 = 25;

/// KRB_AP_ERR_SKEW (RFC 4120, 7.5.9).
const SKEW: u32 = 37;

/// What an exchange for a first ticket takes from an error of the KDC.
#[derive(Drop)]
pub(crate) enum Change {
    /// The client's key, as the KDC tells of it.
    Key(Key),
    /// What the KDC's time is ahead of the client's, in seconds.
    Offset(i64),
}

/// The data of the error; none are no octets.
fn data_of(reported: &Reported) -> &[u8]
    ensures { result.now ≡ data_of reported.now.e_data }
{
    match &reported.e_data {
        Some(octets) => octets.0.as_slice(),
        None => &[],
    }
}

/// Whether pre-authentication is required, and there was none.
fn needs_key(reported: &Reported, key: &Option<Key>) -> bool
    ensures { MatchBool result (NeedsKey reported.now key.now) (NeedsKey reported.now key.now → ⊥) }
{
    reported.code == PREAUTH_REQUIRED && key.is_none()
}

/// Whether the clocks differ, and the KDC's time was not taken.
pub(crate) fn needs_time(reported: &Reported, offset: &Option<i64>) -> bool
    ensures { MatchBool result (NeedsTime reported.now offset.now) (NeedsTime reported.now offset.now → ⊥) }
{
    reported.code == SKEW && offset.is_none()
}

/// The client's key, as the data of the error tell of it.
fn key_for(
    alloc: Global,
    terms: &Terms,
    exchange: &InitialExchange,
    secret: &Secret,
    reported: &Reported,
) -> Result<Key, ClientError>
    ensures made { IfOk result
        (IsKeyTold ⟦<Rfc4120 as Encodings>⟧.initial terms.now exchange.now secret.now reported.now) }
    ensures rejected { IfErr result
        (IsNoKeyTold ⟦<Rfc4120 as Encodings>⟧.initial terms.now exchange.now secret.now reported.now) }
{
    let client = Client {
        realm: &exchange.asked.crealm,
        name: &exchange.asked.cname,
    };
    let suites = exchange.asked.etypes.as_slice();
    match told_key(
        alloc,
        &client,
        secret,
        &terms.limits,
        suites,
        data_of(reported),
    ) {
        Ok(key) => Ok(key),
        Err(error) => Err(ClientError::Key(error)),
    }
}

/// What an error calls for: KDC_ERR_PREAUTH_REQUIRED for the client's key, where the time was not
/// sent under it; KRB_AP_ERR_SKEW for the KDC's time, where it was not taken. Of another error, the
/// code.
pub(crate) fn change_for(
    alloc: Global,
    terms: &Terms,
    exchange: &InitialExchange,
    secret: &Secret,
    moment: &Moment,
    reported: &Reported,
) -> Result<Change, ClientError>
    ensures calls { IfOk result
        (CallsFor ⟦<Rfc4120 as Encodings>⟧.initial terms.now exchange.now secret.now moment.now reported.now) }
    ensures rejected { IfErr result
        (CallsForNothing ⟦<Rfc4120 as Encodings>⟧.initial terms.now exchange.now secret.now reported.now) }
{
    if needs_key(reported, &exchange.key) {
        return Ok(Change::Key(key_for(alloc, terms, exchange, secret, reported)?));
    }
    if needs_time(reported, &exchange.offset) {
        return Ok(Change::Offset(ahead(reported, moment)));
    }
    Err(ClientError::Kdc(reported.code))
}
