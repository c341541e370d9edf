//! AP-REQ (RFC 4120, 3.2.2 and 5.5.1).

ghost use Rattle.std.specs.Prelude.{◌≡◌, IfErr, IfOk, MatchResult, MatchBool, pos};
ghost use Rattle.krb_build.specs.Flags.{AreFlags};
ghost use Rattle.krb_client.specs.Applications.{Delegates, DelegatesNot, IsApMessage, IsApRequest, IsNoApRequest, ap_req_of, gss_checksum, optional_gss, options_of};
ghost use Rattle.krb_client.specs.Errors.{IsMemoryOr};
ghost use Rattle.krb_client.specs.Sealed.{IsNotSealed, key_of};
ghost use Rattle.krb_client.specs.declared.requests.error.RequestError.TheVariants as errors;

use crate::requests::authenticator::{Sender, authenticator};
use crate::requests::checksum::checksum_value;
use crate::requests::error::RequestError;
use crate::requests::fields::{copy_of, encoded, flags_of};
use crate::requests::key::LentKey;
use crate::requests::sealing::sealed_value;
use krb_der::{
    ApplicationTag, DerEncode, ExplicitContextTag0, ExplicitContextTag1, ExplicitContextTag2,
    ExplicitContextTag3, ExplicitContextTag4, IntegerAsn1,
};
use krb_enc_parts::data_types::Authenticator;
use krb_messages::messages::{ApReq, ApReqInner};
use krb_types::data_types::{ApOptions, Checksum, EncryptedData, Ticket};
use std::alloc::Global;

/// What the checksum 0x8003 of the GSS-API says (RFC 4121, 4.1.1).
#[derive(Drop, Clone, Copy)]
pub struct GssChecksum {
    /// The MD5 of the channel bindings; zeros, where there are none.
    pub bindings: [u8; 16],
    /// The flags of the context: 2 for mutual authentication, 4 for replay, 8 for sequence, 16 for
    /// confidentiality, 32 for integrity. The flag of delegation, 1, is not set.
    pub flags: u32,
}

/// What an AP-REQ is made of, beside the time.
#[derive(Drop, Clone, Copy)]
pub struct ApRequest<'a> {
    /// The ticket for the service.
    pub ticket: &'a Ticket,
    /// Its session key.
    pub session: LentKey<'a>,
    /// The checksum of the GSS-API; `None` for none.
    pub gss: Option<GssChecksum>,
    /// Whether the service is to answer by an AP-REP: mutual-required (RFC 4120, 5.5.1).
    pub mutual_required: bool,
}

/// The options of an AP-REQ.
fn options_of(alloc: Global, mutual_required: bool) -> Result<ApOptions, RequestError>
    ensures { MatchResult result (AreFlags (options_of mutual_required)) (λ e. e ≡ errors.OutOfMemory) }
{
    let options: &[usize] = if mutual_required { &[2] } else { &[] };
    match flags_of(alloc, options) {
        Ok(flags) => Ok(flags),
        Err(_error) => Err(RequestError::OutOfMemory),
    }
}

/// The AP-REQ of these fields.
fn ap_req_of(alloc: Global, options: ApOptions, ticket: Ticket, part: EncryptedData) -> ApReq
    ensures { result ≡ ap_req_of options ticket part }
{
    ApplicationTag(ApReqInner {
        pvno: ExplicitContextTag0::from(IntegerAsn1::from_u32(alloc, 5)),
        msg_type: ExplicitContextTag1::from(IntegerAsn1::from_u32(alloc, 14)),
        ap_options: ExplicitContextTag2::from(options),
        ticket: ExplicitContextTag3::from(ticket),
        authenticator: ExplicitContextTag4::from(part),
    })
}

/// The AP-REQ of a ticket, with this encrypted part.
fn message(
    alloc: Global,
    ticket: &Ticket,
    mutual_required: bool,
    part: EncryptedData,
) -> Result<ApReq, RequestError>
    ensures { MatchResult result (λ m. AreFlags (options_of mutual_required) m.ap_options ×
        (m ≡ ap_req_of m.ap_options ticket.now part)) (λ e. e ≡ errors.OutOfMemory) }
{
    let options = match options_of(alloc, mutual_required) {
        Ok(options) => options,
        Err(error) => {
            drop(part);
            return Err(error);
        }
    };
    match copy_of(alloc, ticket) {
        Ok(ticket) => Ok(ap_req_of(alloc, options, ticket, part)),
        Err(error) => {
            drop(options);
            drop(part);
            Err(error)
        }
    }
}

/// The octets of the AP-REQ of a ticket, in which this authenticator is sealed under the key for
/// this usage (11, or 7 within a TGS-REQ).
pub(crate) fn ap_message(
    alloc: Global,
    ticket: &Ticket,
    key: &LentKey,
    usage: u8,
    mutual_required: bool,
    value: Authenticator,
    confounder: &[u8],
) -> Result<Vec<u8>, RequestError>
    ensures made { IfOk result (λ octets. IsApMessage ⟦<ApReq as DerEncode>⟧ ⟦<Authenticator as DerEncode>⟧ ticket.now
        (key_of key.now) (pos usage) mutual_required
        value confounder.now octets.items) }
    ensures rejected { IfErr result (λ e. IsMemoryOr e (IsNotSealed (key_of key.now) confounder.now e)) }
{
    let part = sealed_value(alloc, key, usage, confounder, value)?;
    let message = message(alloc, ticket, mutual_required, part)?;
    let octets = encoded(alloc, message)?;
    Ok(octets)
}

/// Whether the flag of delegation is set.
fn delegates(gss: &Option<GssChecksum>) -> bool
    ensures { MatchBool result (Delegates gss.now) (DelegatesNot gss.now) }
{
    match gss {
        Some(gss) => gss.flags % 2 != 0,
        None => false,
    }
}

/// The checksum 0x8003.
fn gss_checksum(alloc: Global, gss: &GssChecksum) -> Result<Checksum, RequestError>
    ensures { MatchResult result (λ c. c ≡ gss_checksum gss.now) (λ e. e ≡ errors.OutOfMemory) }
{
    let mut octets = Vec::from_slice(alloc, &16u32.to_le_bytes())?;
    octets.extend_from_slice(&gss.bindings)?;
    octets.extend_from_slice(&gss.flags.to_le_bytes())?;
    let number = IntegerAsn1::from_u32(alloc, 0x8003);
    Ok(checksum_value(number, octets))
}

/// The checksum, where there is one.
fn checksum_of(alloc: Global, gss: &Option<GssChecksum>) -> Result<Option<Checksum>, RequestError>
    ensures { MatchResult result (λ c. c ≡ optional_gss gss.now) (λ e. e ≡ errors.OutOfMemory) }
{
    match gss {
        Some(gss) => Ok(Some(gss_checksum(alloc, gss)?)),
        None => Ok(None),
    }
}

/// The AP-REQ by which this client authenticates to a service (RFC 4120, 3.2.2), its authenticator
/// sealed under the session key, for key usage 11 and this confounder, which has the suite's length
/// and is random.
///
/// `Delegation` where the flag of delegation is set; else `Microseconds` where there are more than
/// 999999; else `Time` where the year is not of 0 to 9999; else `Subkey` where the subkey has not
/// its suite's length; else `Confounder`, else `Key`, where the confounder or the session key has
/// not.
pub fn ap_request(
    alloc: Global,
    request: &ApRequest,
    sender: &Sender,
    confounder: &[u8],
) -> Result<Vec<u8>, RequestError>
    ensures made { IfOk result (λ octets. IsApRequest ⟦<ApReq as DerEncode>⟧ ⟦<Authenticator as DerEncode>⟧
        request.now.ticket.now
        (key_of request.now.session) request.now.gss request.now.mutual_required sender.now confounder.now
        octets.items) }
    ensures rejected { IfErr result (λ e. IsMemoryOr e (IsNoApRequest
        (key_of request.now.session) request.now.gss sender.now confounder.now e)) }
{
    if delegates(&request.gss) {
        return Err(RequestError::Delegation);
    }
    let cksum = checksum_of(alloc, &request.gss)?;
    let value = authenticator(alloc, sender, cksum)?;
    let octets = ap_message(
        alloc,
        request.ticket,
        &request.session,
        11,
        request.mutual_required,
        value,
        confounder,
    )?;
    Ok(octets)
}
