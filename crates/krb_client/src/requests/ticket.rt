//! TGS-REQ (RFC 4120, 3.3.1).

ghost use Rattle.std.specs.Prelude.{◌≡◌, IfErr, IfOk};
ghost use Rattle.krb_client.specs.Bodies.{wanted};
ghost use Rattle.krb_client.specs.Errors.{IsMemoryOr};
ghost use Rattle.krb_client.specs.KdcRequests.{IsNoPaTgsReq, IsNoTgsRequest, IsPaTgsReq, IsTgsRequest};
ghost use Rattle.krb_client.specs.Sealed.{key_of};

use crate::requests::application::ap_message;
use crate::requests::authenticator::{Sender, authenticator};
use crate::requests::body::{Want, body, tgs_req_octets};
use crate::requests::checksum::checksum;
use crate::requests::error::RequestError;
use crate::requests::fields::encoding;
use crate::requests::key::LentKey;
use crate::requests::timestamp::only;
use krb_der::{Asn1SequenceOf, DerEncode};
use krb_enc_parts::data_types::Authenticator;
use krb_messages::messages::{ApReq, KdcReqBody, TgsReq};
use krb_types::data_types::{PaData, Ticket};
use std::alloc::Global;

/// PA-TGS-REQ (RFC 4120, 5.2.7.1) for a body of this encoding: the AP-REQ with its checksum.
fn pa_tgs_req(
    alloc: Global,
    ticket: &Ticket,
    session: &LentKey,
    sender: &Sender,
    confounder: &[u8],
    body: &[u8],
) -> Result<Asn1SequenceOf<PaData>, RequestError>
    ensures made { IfOk result (IsPaTgsReq ⟦<ApReq as DerEncode>⟧ ⟦<Authenticator as DerEncode>⟧ ticket.now
        (key_of session.now) sender.now
        confounder.now body.now) }
    ensures rejected { IfErr result (λ e. IsMemoryOr e (IsNoPaTgsReq
        (key_of session.now) sender.now confounder.now e)) }
{
    let cksum = checksum(alloc, session, 6, body)?;
    let value = authenticator(alloc, sender, Some(cksum))?;
    let application = ap_message(alloc, ticket, session, 7, false, value, confounder)?;
    let list = only(alloc, 1, application)?;
    Ok(list)
}

/// The TGS-REQ for what is wanted, by a ticket for the KDC and its session key (RFC 4120, 3.3.1).
/// The authenticator has the checksum of the encoding of the body (key usage 6), and is sealed for
/// key usage 7 and this confounder, which has the length of the session key's suite and is random.
///
/// `Nonce`, `OptionNumber` and `Time` as in `as_request`; else `Key` where the session key has not
/// its suite's length; else `Microseconds` where the sender's are more than 999999; else `Time`
/// where the year of its time is not of 0 to 9999; else `Subkey` where the subkey has not its
/// suite's length; else `Confounder` where the confounder has not the suite's.
pub fn tgs_request(
    alloc: Global,
    want: &Want,
    ticket: &Ticket,
    session: &LentKey,
    sender: &Sender,
    confounder: &[u8],
) -> Result<Vec<u8>, RequestError>
    ensures made { IfOk result (λ octets. IsTgsRequest ⟦<TgsReq as DerEncode>⟧ ⟦<KdcReqBody as DerEncode>⟧
        ⟦<ApReq as DerEncode>⟧ ⟦<Authenticator as DerEncode>⟧
        (wanted want.now) ticket.now (key_of session.now) sender.now confounder.now octets.items) }
    ensures rejected { IfErr result (λ e. IsMemoryOr e (IsNoTgsRequest (wanted want.now)
        (key_of session.now) sender.now confounder.now e)) }
{
    let body = body(alloc, want, None)?;
    let encoded = match encoding(alloc, &body) {
        Ok(encoded) => encoded,
        Err(error) => {
            drop(body);
            return Err(error);
        }
    };
    match pa_tgs_req(
        alloc,
        ticket,
        session,
        sender,
        confounder,
        encoded.as_slice(),
    ) {
        Ok(padata) => {
            let octets = tgs_req_octets(alloc, Some(padata), body)?;
            Ok(octets)
        }
        Err(error) => {
            drop(body);
            Err(error)
        }
    }
}
