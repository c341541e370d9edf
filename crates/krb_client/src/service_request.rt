//! The requests of an exchange for a further ticket (RFC 4120, 3.3.1).

ghost use Rattle.std.specs.Prelude.{◌≡◌, IfErr, IfOk};
ghost use Rattle.krb_client.specs.Errors.{IsMemoryOr};
ghost use Rattle.krb_client.specs.Requests.{IsNoServiceRequest, IsSenderOf, IsServiceRequest};

use crate::initial_request::want_of;
use crate::messages::{Encodings, Rfc4120};
use crate::moment::Moment;
use crate::requests::{LentKey, RequestError, Sender, tgs_request};
use crate::terms::{ByTicket, Terms};
use crate::time::{confounder_of, kdc_time};
use krb_client_rules::{Asked, Key};
use std::alloc::Global;

/// The client that was asked for, at the KDC's time, with this subkey.
fn sender_of<'a>(
    asked: &'a Asked,
    subkey: &'a Key,
    offset: &Option<i64>,
    moment: &Moment,
) -> Sender<'a>
    ensures { IsSenderOf asked.now subkey.now offset.now moment.now result }
{
    Sender {
        crealm: &asked.crealm,
        cname: &asked.cname,
        seconds: kdc_time(offset, moment),
        microseconds: moment.microseconds,
        subkey: Some(LentKey {
            suite: &subkey.suite,
            octets: subkey.octets.as_slice(),
        }),
        seq_number: None,
    }
}

/// The TGS-REQ for what is asked, with the nonce of the moment.
pub(crate) fn service_request(
    alloc: Global,
    terms: &Terms,
    by: &ByTicket,
    asked: &Asked,
    subkey: &Key,
    offset: &Option<i64>,
    moment: &Moment,
) -> Result<Vec<u8>, RequestError>
    ensures made { IfOk result (λ octets. IsServiceRequest ⟦<Rfc4120 as Encodings>⟧.service terms.now by.now asked.now
        subkey.now offset.now moment.now octets.items) }
    ensures rejected { IfErr result (λ e. IsMemoryOr e (IsNoServiceRequest terms.now by.now asked.now
        subkey.now offset.now moment.now e)) }
{
    let want = want_of(terms, asked, moment);
    let sender = sender_of(asked, subkey, offset, moment);
    let confounder = confounder_of(moment, by.session.suite);
    let octets = tgs_request(alloc, &want, by.ticket, &by.session, &sender, confounder)?;
    Ok(octets)
}
