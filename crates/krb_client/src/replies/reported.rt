//! Errors that a KDC reports.

ghost use Rattle.std.specs.Prelude.{◌≡◌, IfErr, IfOk};
ghost use Rattle.krb_client.specs.Messages.{IsNoMessage, error_numbers};
ghost use Rattle.krb_client.specs.Reported.{IsReported, report_of};

use crate::replies::error::ReplyError;
use crate::replies::message::message_of;
use krb_der::{DerEncode, OctetStringAsn1};
use krb_messages::messages::{KrbError, KrbErrorInner};
use krb_registry::types::KRB_ERROR_MSG_TYPE;
use krb_types::view::unix_seconds;
use std::alloc::Global;

/// What a KRB-ERROR reports. It is not authenticated: anyone may have sent it (RFC 4120, 3.1.4).
#[derive(Drop)]
pub struct Reported {
    /// The error code (RFC 4120, 7.5.9).
    pub code: u32,
    /// The time of the KDC, in seconds since 1 January 1970, 00:00:00 UTC.
    pub seconds: i64,
    /// Data about the error: of KDC_ERR_PREAUTH_REQUIRED, a METHOD-DATA (RFC 4120, 5.9.1).
    pub e_data: Option<OctetStringAsn1>,
}

/// What a KRB-ERROR reports.
fn report_of(message: KrbErrorInner) -> Reported
    ensures { result ≡ report_of message }
{
    let mut message = message;
    let e_data = message.e_data.0.take();
    let reported = Reported {
        code: message.error_code.0,
        seconds: unix_seconds(&message.stime.0),
        e_data: match e_data {
            Some(tagged) => Some(tagged.0),
            None => None,
        },
    };
    drop(message);
    reported
}

/// The error that these octets report, where they are the one encoding of a KRB-ERROR (RFC 4120,
/// 5.9.1).
///
/// Else the error is that of the first rule that the octets break, in the order of `ReplyError`.
pub fn read_error(alloc: Global, octets: &[u8]) -> Result<Reported, ReplyError>
    ensures found { IfOk result (IsReported ⟦<KrbError as DerEncode>⟧ octets.now) }
    ensures rejected { IfErr result (IsNoMessage ⟦<KrbError as DerEncode>⟧ error_numbers 30 octets.now) }
{
    let message: KrbError = message_of(alloc, KRB_ERROR_MSG_TYPE, octets)?;
    Ok(report_of(message.0))
}
