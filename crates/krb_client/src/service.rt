//! An exchange for a further ticket, by a ticket for the KDC (RFC 4120, 3.3).

ghost use Rattle.std.specs.Prelude.{◌≡◌, IfErr, IfOk, OnErr, MatchOption};
ghost use Rattle.krb_client.specs.Errors.{IsMemoryOr};
ghost use Rattle.krb_client.specs.Service.{AsksByTicket, IsServiceAnswer, IsServiceBegun, IsServiceStep, IsTicketChecked, IsTicketNotChecked, IsNoServiceAnswer, RefusesServiceError, retimed};
ghost use Rattle.krb_client.specs.Requests.{IsNoServiceRequest};

use crate::error::ClientError;
use crate::initial_reply::is_passed_over;
use crate::kind::{Kind, kind_of};
use crate::messages::{Encodings, Rfc4120};
use crate::moment::Moment;
use crate::replies::{Granted, check_tgs_rep, read_error};
use crate::reported::needs_time;
use crate::requests::RequestError;
use crate::service_request::service_request;
use crate::terms::{ByTicket, Terms};
use crate::time::{clock_of, offset_of};
use krb_client_rules::{Asked, Key};
use std::alloc::Global;

/// The tag of a TGS-REP: application 13, constructed (RFC 4120, 5.4.2; X.690, 8.1.2).
const TGS_REP: u8 = 0x6d;

/// An exchange for a further ticket, between two messages. Each of its fields is plain: a caller
/// may keep them as it likes, and make the exchange of them again.
#[derive(Drop)]
pub struct ServiceExchange {
    /// What is asked for; its nonce is that of the last request.
    pub asked: Asked,
    /// What the KDC's time is ahead of the client's, in seconds, where it was taken from an error
    /// of the KDC, in this exchange or in one before it.
    pub offset: Option<i64>,
    /// The key that the client chose for the reply: the subkey of the authenticator of each request
    /// (RFC 4120, 3.3.1).
    pub subkey: Key,
}

/// What follows on octets of the KDC.
#[derive(Drop)]
pub enum ServiceStep {
    /// These octets go to the KDC: a TGS-REQ.
    Send(Vec<u8>),
    /// The KDC granted a ticket. The exchange is over.
    Granted(Granted),
    /// The reply is of another request. The exchange waits for the next one.
    Wait,
}

/// What follows, before the exchange changes.
#[derive(Drop)]
enum ServiceAnswer {
    /// These octets go to the KDC, whose time is so much ahead.
    Send(Option<i64>, Vec<u8>),
    /// The KDC granted a ticket.
    Granted(Granted),
    /// The reply is of another request.
    Wait,
}

/// What a TGS-REP grants, under the subkey; `None` where it is passed over.
fn ticket_checked(
    alloc: Global,
    terms: &Terms,
    exchange: &ServiceExchange,
    moment: &Moment,
    octets: &[u8],
) -> Result<Option<Granted>, ClientError>
    ensures checked { IfOk result
        (IsTicketChecked ⟦<Rfc4120 as Encodings>⟧.service terms.now exchange.now moment.now octets.now) }
    ensures rejected { IfErr result
        (IsTicketNotChecked ⟦<Rfc4120 as Encodings>⟧.service terms.now exchange.now moment.now octets.now) }
{
    let clock = clock_of(terms, &exchange.offset, moment);
    match check_tgs_rep(
        alloc,
        &exchange.asked,
        &clock,
        &exchange.subkey,
        true,
        octets,
    ) {
        Ok(granted) => Ok(Some(granted)),
        Err(error) => {
            if is_passed_over(terms, &error) {
                Ok(None)
            } else {
                Err(ClientError::Reply(error))
            }
        }
    }
}

/// What follows on a KRB-ERROR.
fn answer_to_error(
    alloc: Global,
    terms: &Terms,
    by: &ByTicket,
    exchange: &ServiceExchange,
    moment: &Moment,
    octets: &[u8],
) -> Result<(Option<i64>, Vec<u8>), ClientError>
    ensures asks { IfOk result (λ r. AsksByTicket ⟦<Rfc4120 as Encodings>⟧.service terms.now by.now exchange.now
        moment.now octets.now r.0 r.1.items) }
    ensures rejected { IfErr result (RefusesServiceError ⟦<Rfc4120 as Encodings>⟧.service terms.now by.now exchange.now
        moment.now octets.now) }
{
    let reported = read_error(alloc, octets)?;
    if !needs_time(&reported, &exchange.offset) {
        let code = reported.code;
        drop(reported);
        return Err(ClientError::Kdc(code));
    }
    let offset = offset_of(&reported, moment);
    drop(reported);
    let (asked, subkey) = (&exchange.asked, &exchange.subkey);
    let request = service_request(alloc, terms, by, asked, subkey, &offset, moment)?;
    Ok((offset, request))
}

/// What follows on octets of the KDC.
fn answer_of(
    alloc: Global,
    terms: &Terms,
    by: &ByTicket,
    exchange: &ServiceExchange,
    moment: &Moment,
    octets: &[u8],
) -> Result<ServiceAnswer, ClientError>
    ensures answer { IfOk result
        (IsServiceAnswer ⟦<Rfc4120 as Encodings>⟧.service terms.now by.now exchange.now moment.now octets.now) }
    ensures rejected { IfErr result
        (IsNoServiceAnswer ⟦<Rfc4120 as Encodings>⟧.service terms.now by.now exchange.now moment.now octets.now) }
{
    match kind_of(octets, TGS_REP) {
        Kind::Reply => match ticket_checked(alloc, terms, exchange, moment, octets)? {
            Some(granted) => Ok(ServiceAnswer::Granted(granted)),
            None => Ok(ServiceAnswer::Wait),
        },
        Kind::Error => {
            let (offset, request) = answer_to_error(alloc, terms, by, exchange, moment, octets)?;
            Ok(ServiceAnswer::Send(offset, request))
        }
        Kind::Other => Err(ClientError::OtherMessage),
    }
}

impl ServiceExchange {
    /// An exchange for what is asked, and its first request: a TGS-REQ by a ticket for the KDC,
    /// under the nonce of the moment, with this subkey, which is fresh and random (RFC 4120,
    /// 3.3.1). `offset` is what the KDC's time is ahead of the client's, in seconds, where an
    /// exchange before this one took it.
    ///
    /// Else the error of `tgs_request`.
    pub fn begin(
        alloc: Global,
        terms: &Terms,
        by: &ByTicket,
        asked: Asked,
        subkey: Key,
        offset: Option<i64>,
        moment: &Moment,
    ) -> Result<(ServiceExchange, Vec<u8>), RequestError>
        ensures begun { IfOk result (λ r. IsServiceBegun ⟦<Rfc4120 as Encodings>⟧.service terms.now by.now asked subkey
            offset moment.now r.0 r.1.items) }
        ensures rejected { IfErr result (λ e. IsMemoryOr e (IsNoServiceRequest terms.now by.now asked subkey
            offset moment.now e)) }
    {
        match service_request(alloc, terms, by, &asked, &subkey, &offset, moment) {
            Ok(request) => {
                let mut asked = asked;
                asked.nonce = moment.nonce;
                let exchange = ServiceExchange {
                    asked,
                    offset,
                    subkey,
                };
                Ok((exchange, request))
            }
            Err(error) => {
                drop(asked);
                drop(subkey);
                Err(error)
            }
        }
    }

    /// The exchange by the KDC's time, after a request of this nonce.
    fn take(&mut self, offset: Option<i64>, nonce: u32)
        ensures { self.new ≡ retimed self.old offset nonce }
    {
        self.asked.nonce = nonce;
        self.offset = offset;
    }

    /// What follows on octets of the KDC (RFC 4120, 3.3.4).
    ///
    /// A TGS-REP is checked by `check_tgs_rep` under the subkey. A KRB-ERROR is no proof of
    /// anything: KRB_AP_ERR_SKEW is followed by a request by the KDC's time, where it was not taken
    /// before; all other errors are told. Each request has the nonce of the moment that is passed
    /// in, and is the last one that a reply can answer. After an error the exchange is as it was.
    ///
    /// The error is the first of: `OtherMessage`; of a TGS-REP, `Reply`; of a KRB-ERROR, `Reply`,
    /// else `Kdc`, else `Request`.
    pub fn step(
        &mut self,
        alloc: Global,
        terms: &Terms,
        by: &ByTicket,
        moment: &Moment,
        octets: &[u8],
    ) -> Result<ServiceStep, ClientError>
        ensures step { IfOk result (λ s. IsServiceStep ⟦<Rfc4120 as Encodings>⟧.service terms.now by.now self.old
            moment.now octets.now s self.new) }
        ensures rejected { IfErr result (IsNoServiceAnswer ⟦<Rfc4120 as Encodings>⟧.service terms.now by.now self.old
            moment.now octets.now) }
        ensures kept { OnErr result (self.new ≡ self.old) }
    {
        match answer_of(alloc, terms, by, self, moment, octets)? {
            ServiceAnswer::Send(offset, request) => {
                self.take(offset, moment.nonce);
                Ok(ServiceStep::Send(request))
            }
            ServiceAnswer::Granted(granted) => Ok(ServiceStep::Granted(granted)),
            ServiceAnswer::Wait => Ok(ServiceStep::Wait),
        }
    }
}
