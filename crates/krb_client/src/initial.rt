//! An exchange for a first ticket (RFC 4120, 3.1).

ghost use Rattle.std.specs.Prelude.{◌≡◌, IfErr, IfOk, OnErr, Some};
ghost use Rattle.std.specs.Option.{option_copied};
ghost use Rattle.krb_client.specs.Errors.{IsMemoryOr};
ghost use Rattle.krb_client.specs.Initial.{Asks, IsAnswer, IsBegun, IsNoAnswer, IsNotBegun, IsStep, RefusesError, key_after, offset_after, taken};
ghost use Rattle.krb_client.specs.Renamed.{IsNotRenamed, IsRenamed};
ghost use Rattle.krb_client.specs.Requests.{IsInitialRequest, IsNoInitialRequest};

use crate::error::ClientError;
use crate::initial_reply::granted;
use crate::initial_request::initial_request;
use crate::keys::Secret;
use crate::kind::{Kind, kind_of};
use crate::messages::{Encodings, Rfc4120};
use crate::moment::Moment;
use crate::renamed::{RenameError, check_request};
use crate::replies::{Granted, check_as_rep, read_error};
use crate::reported::{Change, change_for};
use crate::requests::RequestError;
use crate::terms::Terms;
use crate::time::clock_of;
use krb_client_rules::{Asked, Key};
use krb_der::DerEncode;
use krb_types::data_types::Checksum;
use std::alloc::Global;

/// The tag of an AS-REP: application 11, constructed (RFC 4120, 5.4.2; X.690, 8.1.2).
const AS_REP: u8 = 0x6b;

/// An exchange for a first ticket, between two messages. Each of its fields is plain: a caller may
/// keep them as it likes, and make the exchange of them again.
#[derive(Drop)]
pub struct InitialExchange {
    /// What is asked for; its nonce is that of the last request.
    pub asked: Asked,
    /// What the KDC's time is ahead of the client's, in seconds, where it was taken from an error
    /// of the KDC.
    pub offset: Option<i64>,
    /// The key under which the last request has the time; `None` where it has none.
    pub key: Option<Key>,
}

/// What follows on octets of the KDC.
#[derive(Drop)]
pub enum InitialStep {
    /// These octets go to the KDC: an AS-REQ.
    Send(Vec<u8>),
    /// The KDC granted a ticket. The exchange is over.
    Granted(Granted),
    /// The reply is of another request. The exchange waits for the next one.
    Wait,
}

/// What follows, before the exchange changes.
#[derive(Drop)]
enum Answer {
    /// These octets go to the KDC, and this changes.
    Send(Change, Vec<u8>),
    /// The KDC granted a ticket.
    Granted(Granted),
    /// The reply is of another request.
    Wait,
}

/// The request that follows on a change.
fn next_request(
    alloc: Global,
    terms: &Terms,
    exchange: &InitialExchange,
    change: &Change,
    moment: &Moment,
) -> Result<Vec<u8>, RequestError>
    ensures made { IfOk result (λ octets. IsInitialRequest ⟦<Rfc4120 as Encodings>⟧.initial terms.now exchange.now.asked
        (key_after exchange.now.key change.now) (offset_after exchange.now.offset change.now) moment.now octets.items) }
    ensures rejected { IfErr result (λ e. IsMemoryOr e (IsNoInitialRequest ⟦<Rfc4120 as Encodings>⟧.initial
        terms.now exchange.now.asked (key_after exchange.now.key change.now)
        (offset_after exchange.now.offset change.now) moment.now e)) }
{
    let asked = &exchange.asked;
    match change {
        Change::Key(key) => {
            initial_request(alloc, terms, asked, Some(key), &exchange.offset, moment)
        }
        Change::Offset(offset) => {
            let offset = Some(*offset);
            initial_request(alloc, terms, asked, exchange.key.as_ref(), &offset, moment)
        }
    }
}

/// What follows on a KRB-ERROR.
fn answer_to_error(
    alloc: Global,
    terms: &Terms,
    exchange: &InitialExchange,
    secret: &Secret,
    moment: &Moment,
    octets: &[u8],
) -> Result<(Change, Vec<u8>), ClientError>
    ensures asks { IfOk result (λ r. Asks ⟦<Rfc4120 as Encodings>⟧.initial terms.now exchange.now secret.now moment.now
        octets.now r.0 r.1.items) }
    ensures rejected { IfErr result (RefusesError ⟦<Rfc4120 as Encodings>⟧.initial terms.now exchange.now secret.now
        moment.now octets.now) }
{
    let reported = read_error(alloc, octets)?;
    let change = change_for(alloc, terms, exchange, secret, moment, &reported)?;
    drop(reported);
    let request = next_request(alloc, terms, exchange, &change, moment)?;
    Ok((change, request))
}

/// What follows on octets of the KDC.
fn answer_of(
    alloc: Global,
    terms: &Terms,
    exchange: &InitialExchange,
    secret: &Secret,
    moment: &Moment,
    octets: &[u8],
) -> Result<Answer, ClientError>
    ensures answer { IfOk result
        (IsAnswer ⟦<Rfc4120 as Encodings>⟧.initial terms.now exchange.now secret.now moment.now octets.now) }
    ensures rejected { IfErr result
        (IsNoAnswer ⟦<Rfc4120 as Encodings>⟧.initial terms.now exchange.now secret.now moment.now octets.now) }
{
    match kind_of(octets, AS_REP) {
        Kind::Reply => match granted(alloc, terms, exchange, secret, moment, octets)? {
            Some(granted) => Ok(Answer::Granted(granted)),
            None => Ok(Answer::Wait),
        },
        Kind::Error => {
            let (change, request) = answer_to_error(
                alloc, terms, exchange, secret, moment, octets,
            )?;
            Ok(Answer::Send(change, request))
        }
        Kind::Other => Err(ClientError::OtherMessage),
    }
}

impl InitialExchange {
    /// An exchange for what is asked, and its first request: an AS-REQ without pre-authentication,
    /// under the nonce of the moment (RFC 4120, 3.1.1).
    ///
    /// `Nonce`, `OptionNumber` or `Time` where there is no such request, as of `as_request`.
    pub fn begin(
        alloc: Global,
        terms: &Terms,
        asked: Asked,
        moment: &Moment,
    ) -> Result<(InitialExchange, Vec<u8>), RequestError>
        ensures begun { IfOk result
            (λ r. IsBegun ⟦<Rfc4120 as Encodings>⟧.initial terms.now asked moment.now r.0 r.1.items) }
        ensures rejected { IfErr result (IsNotBegun terms.now asked moment.now) }
    {
        match initial_request(alloc, terms, &asked, None, &None, moment) {
            Ok(request) => {
                let mut asked = asked;
                asked.nonce = moment.nonce;
                let exchange = InitialExchange {
                    asked,
                    offset: None,
                    key: None,
                };
                Ok((exchange, request))
            }
            Err(error) => {
                drop(asked);
                Err(error)
            }
        }
    }

    /// The exchange after a change and a request of this nonce.
    fn take(&mut self, change: Change, nonce: u32)
        ensures { self.new ≡ taken self.old change nonce }
    {
        self.asked.nonce = nonce;
        match change {
            Change::Key(key) => {
                self.key = Some(key);
            }
            Change::Offset(offset) => {
                self.offset = Some(offset);
            }
        }
    }

    /// What follows on octets of the KDC (RFC 4120, 3.1.4 and 3.1.5).
    ///
    /// An AS-REP is checked by `check_as_rep` under the key under which the time was sent; where
    /// none was, under the client's key as the reply's own ETYPE-INFO2 tells of it, or the default
    /// one. A KRB-ERROR is no proof of anything: KDC_ERR_PREAUTH_REQUIRED is followed by a request
    /// with the time under the client's key, where the time was not sent before, and
    /// KRB_AP_ERR_SKEW by one by the KDC's time, where it was not taken before; all other errors
    /// are told. Each request has the nonce of the moment that is passed in, and is the last one
    /// that a reply can answer. After an error the exchange is as it was.
    ///
    /// The error is the first of: `OtherMessage`; of an AS-REP, `Reply` with `Message` or `Key`,
    /// where a key is still to be found, and `Reply`; of a KRB-ERROR, `Reply`, else `Key` or `Kdc`,
    /// else `Request`.
    pub fn step(
        &mut self,
        alloc: Global,
        terms: &Terms,
        secret: &Secret,
        moment: &Moment,
        octets: &[u8],
    ) -> Result<InitialStep, ClientError>
        ensures step { IfOk result (λ s. IsStep ⟦<Rfc4120 as Encodings>⟧.initial terms.now self.old secret.now
            moment.now octets.now s self.new) }
        ensures rejected { IfErr result (IsNoAnswer ⟦<Rfc4120 as Encodings>⟧.initial terms.now self.old secret.now
            moment.now octets.now) }
        ensures kept { OnErr result (self.new ≡ self.old) }
    {
        match answer_of(alloc, terms, self, secret, moment, octets)? {
            Answer::Send(change, request) => {
                self.take(change, moment.nonce);
                Ok(InitialStep::Send(request))
            }
            Answer::Granted(granted) => Ok(InitialStep::Granted(granted)),
            Answer::Wait => Ok(InitialStep::Wait),
        }
    }

    /// What an AS-REP grants that renames the client or the server (RFC 6806, 6 and 8): the names
    /// of `asked` are those of the reply, put there by a caller that allows it. All rules hold as
    /// in `step`, under the key under which the time was sent, and besides the part has the
    /// checksum of the last request, whose octets are `request`, in its PA-REQ-ENC-PA-REP (RFC
    /// 6806, 11): so the KDC replied to this very request, with this option and this name.
    ///
    /// Else the error is the first of `RenameError`.
    pub fn renamed(
        &self,
        alloc: Global,
        terms: &Terms,
        moment: &Moment,
        request: &[u8],
        octets: &[u8],
    ) -> Result<Granted, RenameError>
        ensures granted { IfOk result (IsRenamed ⟦<Rfc4120 as Encodings>⟧.initial ⟦<Checksum as DerEncode>⟧
            terms.now self.now moment.now request.now octets.now) }
        ensures rejected { IfErr result (IsNotRenamed ⟦<Rfc4120 as Encodings>⟧.initial ⟦<Checksum as DerEncode>⟧
            terms.now self.now moment.now request.now octets.now) }
    {
        let Some(key) = &self.key else {
            return Err(RenameError::NoKey);
        };
        let clock = clock_of(terms, &self.offset, moment);
        match check_as_rep(alloc, &self.asked, &clock, key, octets) {
            Ok(granted) => match check_request(alloc, key, request, &granted.part) {
                Ok(()) => Ok(granted),
                Err(error) => {
                    drop(granted);
                    Err(error)
                }
            },
            Err(error) => Err(RenameError::Reply(error)),
        }
    }
}
