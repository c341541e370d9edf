//! The requests of an exchange for a first ticket (RFC 4120, 3.1.1).

ghost use Rattle.std.specs.Prelude.{◌≡◌, MatchOption, MatchResult, IfErr, IfOk};
ghost use Rattle.std.specs.Option.{option_copied};
ghost use Rattle.krb_client.specs.Bodies.{wanted};
ghost use Rattle.krb_client.specs.Errors.{IsMemoryOr};
ghost use Rattle.krb_client.specs.declared.requests.error.RequestError.TheVariants as errors;
ghost use Rattle.krb_client.specs.Requests.{IsAuthenticated, IsInitialRequest, IsNoInitialRequest, IsNoStamp, IsStamp, IsUnauthenticated, marked_if, wanted_of};

use crate::messages::{Encodings, Rfc4120};
use crate::moment::Moment;
use crate::requests::{LentKey, RequestError, Want, as_request, marked, pa_enc_timestamp};
use crate::terms::Terms;
use crate::time::{confounder_of, kdc_time};
use krb_client_rules::{Asked, Key};
use krb_der::{Asn1SequenceOf, DerEncode};
use krb_types::data_types::PaData;
use std::alloc::Global;

/// What is wanted of the KDC: what is asked, under the nonce of the moment (RFC 4120, 5.4.1).
pub(crate) fn want_of<'a>(terms: &'a Terms, asked: &'a Asked, moment: &Moment) -> Want<'a>
    ensures { wanted result ≡ wanted_of terms.now asked.now moment.now.nonce }
{
    Want {
        realm: &asked.realm,
        sname: &asked.sname,
        options: terms.options,
        from: asked.from,
        till: asked.till,
        rtime: asked.rtime,
        nonce: moment.nonce,
        etypes: asked.etypes.as_slice(),
    }
}

/// The KDC's time under the client's key (RFC 4120, 5.2.7.2).
fn stamp(
    alloc: Global,
    key: &Key,
    offset: &Option<i64>,
    moment: &Moment,
) -> Result<Asn1SequenceOf<PaData>, RequestError>
    ensures made { IfOk result (IsStamp ⟦<Rfc4120 as Encodings>⟧.initial key.now offset.now moment.now) }
    ensures rejected { IfErr result (λ e. IsMemoryOr e (IsNoStamp key.now offset.now moment.now e)) }
{
    let lent = LentKey {
        suite: &key.suite,
        octets: key.octets.as_slice(),
    };
    let seconds = kdc_time(offset, moment);
    let confounder = confounder_of(moment, &key.suite);
    pa_enc_timestamp(alloc, &lent, seconds, moment.microseconds, confounder)
}

/// The data of pre-authentication: the time under the client's key, where it is known.
fn padata_of(
    alloc: Global,
    key: Option<&Key>,
    offset: &Option<i64>,
    moment: &Moment,
) -> Result<Option<Asn1SequenceOf<PaData>>, RequestError>
    ensures made { IfOk result (IsAuthenticated ⟦<Rfc4120 as Encodings>⟧.initial
        (option_copied key.entry) offset.now moment.now) }
    ensures rejected { IfErr result (λ e. IsMemoryOr e (IsUnauthenticated
        (option_copied key.entry) offset.now moment.now e)) }
{
    match key {
        Some(key) => Ok(Some(stamp(alloc, key, offset, moment)?)),
        None => Ok(None),
    }
}

/// The data of pre-authentication, with PA-REQ-ENC-PA-REP where it is asked for.
fn marked_of(
    alloc: Global,
    terms: &Terms,
    padata: Option<Asn1SequenceOf<PaData>>,
) -> Result<Option<Asn1SequenceOf<PaData>>, RequestError>
    ensures { MatchResult result (λ p. p ≡ marked_if terms.now.canonicalize padata) (λ e. e ≡ errors.OutOfMemory) }
{
    if terms.canonicalize {
        Ok(Some(marked(alloc, padata)?))
    } else {
        Ok(padata)
    }
}

/// The AS-REQ for what is asked, with the nonce of the moment.
pub(crate) fn initial_request(
    alloc: Global,
    terms: &Terms,
    asked: &Asked,
    key: Option<&Key>,
    offset: &Option<i64>,
    moment: &Moment,
) -> Result<Vec<u8>, RequestError>
    ensures made { IfOk result (λ octets. IsInitialRequest ⟦<Rfc4120 as Encodings>⟧.initial terms.now asked.now
        (option_copied key.entry) offset.now moment.now octets.items) }
    ensures rejected { IfErr result (λ e. IsMemoryOr e (IsNoInitialRequest ⟦<Rfc4120 as Encodings>⟧.initial
        terms.now asked.now (option_copied key.entry) offset.now moment.now e)) }
{
    let padata = padata_of(alloc, key, offset, moment)?;
    let all = marked_of(alloc, terms, padata)?;
    let want = want_of(terms, asked, moment);
    let octets = as_request(alloc, &want, &asked.cname, all)?;
    Ok(octets)
}
