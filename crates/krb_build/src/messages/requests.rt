//! AS-REQ.

ghost use Rattle.std.specs.Prelude.{◌≡◌, pos, None, IfOk, IfErr};
ghost use Rattle.krb_der_core.specs.BitString.{IsBits};
ghost use Rattle.krb_der_core.specs.GeneralizedTime.{IsRealTime};
ghost use Rattle.krb_build.specs.Errors.{IsMemoryOr, IsRequestError};
ghost use Rattle.krb_build.specs.Flags.{AreFlags};
ghost use Rattle.krb_build.specs.Times.{IsTime};

use super::field;
use super::known::{known_integers, known_name, known_padata};
use crate::error::BuildError;
use crate::flags::bits_of;
use crate::integers::integer_of;
use crate::times::time_of_seconds;
use krb_der::{
    ApplicationTag, Asn1SequenceOf, DerEncode, ExplicitContextTag0, ExplicitContextTag1,
    ExplicitContextTag2, ExplicitContextTag4, ExplicitContextTag5, ExplicitContextTag7,
    ExplicitContextTag8, IntegerAsn1, Optional,
};
use krb_messages::messages::{AsReq, KdcReq, KdcReqBody};
use krb_registry::types::AS_REQ_MSG_TYPE;
use krb_types::data_types::{KerberosFlags, KerberosTime, PaData, PrincipalName, Realm};
use std::alloc::{AllocError, Global};

/// What a client asks a KDC for, to get its first ticket (RFC 4120, 5.4.1).
#[derive(Drop)]
pub struct AsReqParts {
    /// The name of the client.
    pub cname: PrincipalName,
    /// The realm of the client and of the server.
    pub realm: Realm,
    /// The name of the server.
    pub sname: PrincipalName,
    /// Until when the ticket is to be valid, in seconds since 1 January 1970.
    pub till: i64,
    /// A number that the reply is to repeat.
    pub nonce: u32,
    /// The data of pre-authentication.
    pub padata: Option<Asn1SequenceOf<PaData>>,
}

/// INTEGERs of these numbers, in order.
fn integers_of(alloc: Global, numbers: &[i32]) -> Result<Vec<IntegerAsn1>, AllocError>
    ensures { IfOk result (λ integers. integers.items ≡ numbers.now) }
{
    let mut integers = Vec::new(alloc);
    for number in numbers {
        integers.push(integer_of(alloc, i64::from(*number))?)?;
    }
    Ok(integers)
}

/// What of a request takes memory or may be refused.
#[derive(Drop)]
struct Asked {
    options: KerberosFlags,
    till: KerberosTime,
    etypes: Asn1SequenceOf<IntegerAsn1>,
}

/// The options of these numbers, the time of these seconds and the encryption types. `FlagNumber` where the number of an option is past
/// 31; else `Time` where the year is not of 0 to 9999.
fn asked_of(
    alloc: Global,
    options: &[usize],
    till: i64,
    etypes: &[i32],
) -> Result<Asked, BuildError>
    ensures options { IfOk result (λ it. AreFlags options.now it.options × IsBits it.options) }
    ensures till { IfOk result (λ it. IsTime till it.till) }
    ensures etypes { IfOk result (λ it. it.etypes ≡ etypes.now) }
    ensures rejected { IfErr result (λ e. IsMemoryOr e (IsRequestError options.now till e)) }
{
    let options = bits_of(alloc, options)?;
    let till = time_of_seconds(till)?;
    Ok(Asked {
        options,
        till,
        etypes: Asn1SequenceOf(integers_of(alloc, etypes)?),
    })
}

/// The body of the request of these parts (RFC 4120, 5.4.1).
fn body(
    alloc: Global,
    cname: PrincipalName,
    realm: Realm,
    sname: PrincipalName,
    nonce: u32,
    asked: Asked,
) -> KdcReqBody
    ensures options { result.kdc_options ≡ asked.options }
    ensures client { result.cname.0 ≡ Some cname }
    ensures server { (result.realm ≡ realm) × (result.sname.0 ≡ Some sname) }
    ensures till { result.till ≡ asked.till }
    ensures numbers { (result.nonce ≡ pos nonce) × (result.etype ≡ asked.etypes) }
    ensures no_other_time { (result.from.0 ≡ None) × (result.rtime.0 ≡ None) }
    ensures no_addresses { result.addresses.0 ≡ None }
    ensures no_data { result.enc_authorization_data.0 ≡ None }
    ensures no_tickets { result.additional_tickets.0 ≡ None }
    ensures value { IsBits asked.options → IsRealTime asked.till → ⟦<KdcReqBody as DerEncode>⟧.is_value result }
{
    known_name(&cname);
    realm.is_ascii();
    known_name(&sname);
    known_integers(&asked.etypes);
    KdcReqBody {
        kdc_options: ExplicitContextTag0::from(asked.options),
        cname: field(Some(cname)),
        realm: ExplicitContextTag2::from(realm),
        sname: field(Some(sname)),
        from: Optional(None),
        till: ExplicitContextTag5::from(asked.till),
        rtime: Optional(None),
        nonce: ExplicitContextTag7::from(IntegerAsn1::from_u32(alloc, nonce)),
        etype: ExplicitContextTag8::from(asked.etypes),
        addresses: Optional(None),
        enc_authorization_data: Optional(None),
        additional_tickets: Optional(None),
    }
}

/// The AS-REQ of these parts (RFC 4120, 5.4.1): with the options of these numbers and no others (RFC 4120, 5.4.1: KDCOptions), and with the
/// encryption types that the client accepts, the preferred first (RFC 3961, 8). `FlagNumber` where the number of an option is past 31; else
/// `Time` where the year of `till` is not of 0 to 9999.
pub fn as_req(
    alloc: Global,
    parts: AsReqParts,
    options: &[usize],
    etypes: &[i32],
) -> Result<AsReq, BuildError>
    ensures protocol { IfOk result (λ m. (m.pvno ≡ pos 5) × (m.msg_type ≡ pos 10)) }
    ensures padata { IfOk result (λ m. m.padata.0 ≡ parts.padata) }
    ensures options { IfOk result (λ m. AreFlags options.now m.req_body.kdc_options) }
    ensures client { IfOk result (λ m. m.req_body.cname.0 ≡ Some parts.cname) }
    ensures server { IfOk result (λ m. (m.req_body.realm ≡ parts.realm) × (m.req_body.sname.0 ≡ Some parts.sname)) }
    ensures till { IfOk result (λ m. IsTime parts.till m.req_body.till) }
    ensures nonce { IfOk result (λ m. m.req_body.nonce ≡ pos parts.nonce) }
    ensures etypes { IfOk result (λ m. m.req_body.etype ≡ etypes.now) }
    ensures no_other_time { IfOk result (λ m. (m.req_body.from.0 ≡ None) × (m.req_body.rtime.0 ≡ None)) }
    ensures no_addresses { IfOk result (λ m. m.req_body.addresses.0 ≡ None) }
    ensures no_data { IfOk result (λ m. m.req_body.enc_authorization_data.0 ≡ None) }
    ensures no_tickets { IfOk result (λ m. m.req_body.additional_tickets.0 ≡ None) }
    ensures value { IfOk result ⟦<AsReq as DerEncode>⟧.is_value }
    ensures rejected { IfErr result (λ e. IsMemoryOr e (IsRequestError options.now parts.till e)) }
{
    known_padata(&parts.padata);
    match asked_of(alloc, options, parts.till, etypes) {
        Ok(asked) => {
            let pvno = IntegerAsn1::from_u32(alloc, 5);
            let msg_type = IntegerAsn1::from_u32(alloc, u32::from(AS_REQ_MSG_TYPE));
            let req_body = body(
                alloc,
                parts.cname,
                parts.realm,
                parts.sname,
                parts.nonce,
                asked,
            );
            Ok(ApplicationTag(KdcReq {
                pvno: ExplicitContextTag1::from(pvno),
                msg_type: ExplicitContextTag2::from(msg_type),
                padata: field(parts.padata),
                req_body: ExplicitContextTag4::from(req_body),
            }))
        }
        Err(error) => {
            drop(parts);
            Err(error)
        }
    }
}
