//! AP-REQ.

ghost use Rattle.std.specs.Prelude.{◌≡◌, pos, IfOk, IfErr};
ghost use Rattle.krb_build.specs.Errors.{IsMemoryOr, IsFlagError};
ghost use Rattle.krb_build.specs.Flags.{AreFlags};

use super::known::{known_ciphertext, known_ticket};
use crate::error::BuildError;
use crate::flags::bits_of;
use krb_der::{
    ApplicationTag, DerEncode, ExplicitContextTag0, ExplicitContextTag1, ExplicitContextTag2,
    ExplicitContextTag3, ExplicitContextTag4, IntegerAsn1,
};
use krb_messages::messages::{ApReq, ApReqInner};
use krb_registry::types::AP_REQ_MSG_TYPE;
use krb_types::data_types::{EncryptedData, Ticket};
use std::alloc::Global;

/// The AP-REQ of a ticket and an encrypted Authenticator (RFC 4120, 5.5.1), with the options of these numbers and no others (RFC 4120,
/// 5.5.1: APOptions, 1 for a session key and 2 for mutual authentication). `FlagNumber` where the number of an option is past 31.
pub fn ap_req(
    alloc: Global,
    ticket: Ticket,
    authenticator: EncryptedData,
    options: &[usize],
) -> Result<ApReq, BuildError>
    ensures protocol { IfOk result (λ m. (m.pvno ≡ pos 5) × (m.msg_type ≡ pos 14)) }
    ensures options { IfOk result (λ m. AreFlags options.now m.ap_options) }
    ensures ticket { IfOk result (λ m. m.ticket ≡ ticket) }
    ensures authenticator { IfOk result (λ m. m.authenticator ≡ authenticator) }
    ensures value { IfOk result ⟦<ApReq as DerEncode>⟧.is_value }
    ensures rejected { IfErr result (λ e. IsMemoryOr e (IsFlagError options.now e)) }
{
    known_ticket(&ticket);
    known_ciphertext(&authenticator);
    match bits_of(alloc, options) {
        Ok(options) => Ok(ApplicationTag(ApReqInner {
            pvno: ExplicitContextTag0::from(IntegerAsn1::from_u32(alloc, 5)),
            msg_type: ExplicitContextTag1::from(IntegerAsn1::from_u32(
                alloc,
                u32::from(AP_REQ_MSG_TYPE),
            )),
            ap_options: ExplicitContextTag2::from(options),
            ticket: ExplicitContextTag3::from(ticket),
            authenticator: ExplicitContextTag4::from(authenticator),
        })),
        Err(error) => {
            drop(ticket);
            drop(authenticator);
            Err(error)
        }
    }
}
