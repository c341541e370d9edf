//! What is asked of a KDC: KDC-REQ-BODY (RFC 4120, 5.4.1).

ghost use Rattle.std.specs.Prelude.{◌≡◌, IfErr, IfOk, MatchResult, map, pos};
ghost use Rattle.krb_client.specs.Bodies.{AreCopies, AreFields, AreTimes, HasNoTime, IsBody, IsNoBody, body_of, number_of, request_of, wanted};
ghost use Rattle.krb_client.specs.Errors.{IsMemoryOr};
ghost use Rattle.krb_client.specs.declared.requests.error.RequestError.TheVariants as errors;

use crate::requests::error::RequestError;
use crate::requests::fields::{copies_of, encoded, field, flags_of, time_of, time_option_of};
use krb_crypto::CipherSuite;
use krb_der::{
    ApplicationTag, Asn1SequenceOf, DerEncode, ExplicitContextTag0, ExplicitContextTag1,
    ExplicitContextTag2, ExplicitContextTag4, ExplicitContextTag5, ExplicitContextTag7,
    ExplicitContextTag8, IntegerAsn1, Optional,
};
use krb_messages::messages::{AsReq, KdcReq, KdcReqBody, TgsReq};
use krb_types::data_types::{KerberosFlags, KerberosTime, PaData, PrincipalName, Realm};
use std::alloc::Global;

/// The most that a nonce is.
const MOST_NONCE: u32 = (1 << 31) - 1;

/// What a client wants of a KDC (RFC 4120, 5.4.1). It asks for no addresses, and gives no
/// authorization data and no further tickets.
#[derive(Drop, Clone, Copy)]
pub struct Want<'a> {
    /// The realm of the server, and in an AS-REQ of the client.
    pub realm: &'a Realm,
    /// The name of the server.
    pub sname: &'a PrincipalName,
    /// The options, by their numbers (RFC 4120, 5.4.1: KDCOptions), 0 to 31.
    pub options: &'a [usize],
    /// From when on the ticket is to be valid, in seconds since 1 January 1970; `None` where from
    /// now on.
    pub from: Option<i64>,
    /// Until when the ticket is to be valid, in seconds since 1 January 1970; 0 for as long as the
    /// KDC allows.
    pub till: i64,
    /// Until when the ticket is to be renewable, in seconds since 1 January 1970.
    pub rtime: Option<i64>,
    /// The number that the reply repeats, below 2^31.
    pub nonce: u32,
    /// The suites of the encryption types that the client accepts, the preferred first.
    pub etypes: &'a [CipherSuite],
}

/// The numbers of the encryption types of suites, in order (RFC 3961, 8).
fn numbers_of(alloc: Global, suites: &[CipherSuite]) -> Result<Vec<IntegerAsn1>, RequestError>
    ensures { MatchResult result (λ numbers. numbers.items ≡ map number_of suites.now) (λ e. e ≡ errors.OutOfMemory) }
{
    let mut numbers = Vec::new(alloc);
    for suite in suites {
        numbers.push(IntegerAsn1::from_u32(alloc, u32::from(suite)))?;
    }
    Ok(numbers)
}

/// When a ticket is wanted.
#[derive(Drop)]
struct Times {
    from: Option<KerberosTime>,
    till: KerberosTime,
    rtime: Option<KerberosTime>,
}

/// The times that are wanted. `Time` where one of them is of no year of 0 to 9999.
fn times_of(want: &Want) -> Result<Times, RequestError>
    ensures { MatchResult result (AreTimes (wanted want.now)) (λ e. (e ≡ errors.Time) × HasNoTime (wanted want.now)) }
{
    let from = time_option_of(want.from)?;
    let till = time_of(want.till)?;
    let rtime = time_option_of(want.rtime)?;
    Ok(Times { from, till, rtime })
}

/// Copies of what a body has of what is wanted.
#[derive(Drop)]
struct Copies {
    realm: Realm,
    sname: PrincipalName,
    etypes: Vec<IntegerAsn1>,
}

/// Copies of the realm, the server's name and the encryption types that are wanted. The only error is `OutOfMemory`.
fn copied(alloc: Global, want: &Want) -> Result<Copies, RequestError>
    ensures { MatchResult result (AreCopies (wanted want.now)) (λ e. e ≡ errors.OutOfMemory) }
{
    let etypes = numbers_of(alloc, want.etypes)?;
    match copies_of(alloc, want.realm, want.sname) {
        Ok((realm, sname)) => Ok(Copies {
            realm,
            sname,
            etypes,
        }),
        Err(error) => {
            drop(etypes);
            Err(error)
        }
    }
}

/// What of a body takes memory or may be refused.
#[derive(Drop)]
struct Fields {
    options: KerberosFlags,
    times: Times,
    copies: Copies,
}

/// These fields of the body of what is wanted. They are refused where the body is.
fn fields_of(alloc: Global, want: &Want) -> Result<Fields, RequestError>
    ensures fields { IfOk result (AreFields (wanted want.now)) }
    ensures rejected { IfErr result (λ e. IsMemoryOr e (IsNoBody (wanted want.now) e)) }
{
    if want.nonce > MOST_NONCE {
        return Err(RequestError::Nonce);
    }
    let options = flags_of(alloc, want.options)?;
    let times = match times_of(want) {
        Ok(times) => times,
        Err(error) => {
            drop(options);
            return Err(error);
        }
    };
    match copied(alloc, want) {
        Ok(copies) => Ok(Fields {
            options,
            times,
            copies,
        }),
        Err(error) => {
            drop(options);
            drop(times);
            Err(error)
        }
    }
}

/// The body of these fields: no addresses, no data, no further tickets.
fn body_of(alloc: Global, fields: Fields, cname: Option<PrincipalName>, nonce: u32) -> KdcReqBody
    ensures { result ≡ body_of fields.options cname fields.copies.realm fields.copies.sname fields.times.from
        fields.times.till fields.times.rtime (pos nonce) fields.copies.etypes.items }
{
    let (times, copies) = (fields.times, fields.copies);
    KdcReqBody {
        kdc_options: ExplicitContextTag0::from(fields.options),
        cname: field(cname),
        realm: ExplicitContextTag2::from(copies.realm),
        sname: field(Some(copies.sname)),
        from: field(times.from),
        till: ExplicitContextTag5::from(times.till),
        rtime: field(times.rtime),
        nonce: ExplicitContextTag7::from(IntegerAsn1::from_u32(alloc, nonce)),
        etype: ExplicitContextTag8::from(Asn1SequenceOf(copies.etypes)),
        addresses: Optional(None),
        enc_authorization_data: Optional(None),
        additional_tickets: Optional(None),
    }
}

/// The body of what is wanted, for a client of this name; a TGS-REQ has none (RFC 4120, 5.4.1).
///
/// `Nonce` where the nonce is 2^31 or more; else `OptionNumber` where the number of an option is
/// past 31; else `Time` where `from`, `till` or `rtime` is of no year of 0 to 9999.
pub(crate) fn body(
    alloc: Global,
    want: &Want,
    cname: Option<PrincipalName>,
) -> Result<KdcReqBody, RequestError>
    ensures body { IfOk result (IsBody (wanted want.now) cname) }
    ensures rejected { IfErr result (λ e. IsMemoryOr e (IsNoBody (wanted want.now) e)) }
{
    match fields_of(alloc, want) {
        Ok(fields) => Ok(body_of(alloc, fields, cname, want.nonce)),
        Err(error) => {
            drop(cname);
            Err(error)
        }
    }
}

/// The request of this type with this body (RFC 4120, 5.4.1): version 5.
fn request_of(
    alloc: Global,
    msg_type: u32,
    padata: Option<Asn1SequenceOf<PaData>>,
    body: KdcReqBody,
) -> KdcReq
    ensures { result ≡ request_of (pos 5) (pos msg_type) padata body }
{
    KdcReq {
        pvno: ExplicitContextTag1::from(IntegerAsn1::from_u32(alloc, 5)),
        msg_type: ExplicitContextTag2::from(IntegerAsn1::from_u32(alloc, msg_type)),
        padata: field(padata),
        req_body: ExplicitContextTag4::from(body),
    }
}

/// The octets of an AS-REQ (RFC 4120, 5.4.1).
pub(crate) fn as_req_octets(
    alloc: Global,
    padata: Option<Asn1SequenceOf<PaData>>,
    body: KdcReqBody,
) -> Result<Vec<u8>, RequestError>
    ensures valid { IfOk result (λ _. ⟦<AsReq as DerEncode>⟧.is_value (request_of (pos 5) (pos 10) padata body)) }
    ensures octets { MatchResult result
        (λ octets. octets.items ≡ ⟦<AsReq as DerEncode>⟧.enc (request_of (pos 5) (pos 10) padata body))
        (λ e. e ≡ errors.OutOfMemory) }
{
    let message: AsReq = ApplicationTag(request_of(alloc, 10, padata, body));
    encoded(alloc, message)
}

/// The octets of a TGS-REQ (RFC 4120, 5.4.1).
pub(crate) fn tgs_req_octets(
    alloc: Global,
    padata: Option<Asn1SequenceOf<PaData>>,
    body: KdcReqBody,
) -> Result<Vec<u8>, RequestError>
    ensures valid { IfOk result (λ _. ⟦<TgsReq as DerEncode>⟧.is_value (request_of (pos 5) (pos 12) padata body)) }
    ensures octets { MatchResult result
        (λ octets. octets.items ≡ ⟦<TgsReq as DerEncode>⟧.enc (request_of (pos 5) (pos 12) padata body))
        (λ e. e ≡ errors.OutOfMemory) }
{
    let message: TgsReq = ApplicationTag(request_of(alloc, 12, padata, body));
    encoded(alloc, message)
}
