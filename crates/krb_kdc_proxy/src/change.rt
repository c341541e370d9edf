//! Requests to change a password (RFC 3244, 2).

ghost use Rattle.std.specs.Prelude.{IfOk, IfErr};
ghost use Rattle.krb_kdc_proxy.specs.Frames.{BeginsAsFrame};
ghost use Rattle.krb_kdc_proxy.specs.Messages.{OrMemory};
ghost use Rattle.krb_kdc_proxy.specs.Requests.{IsChange, IsNoChange};
ghost use Rattle.krb_kdc_proxy.specs.declared.frame.Direction.TheVariants as direction;

use crate::asked::{Asked, change_asked};
use crate::checked::message_of;
use crate::error::ProxyError;
use crate::frame::{Direction, messages_of};
use crate::kind::MessageKind;
use krb_der::DerEncode;
use krb_messages::messages::{ApReq, KrbPriv};
use std::alloc::Global;

/// What the frame in which a password is changed asks for.
pub(crate) fn change(alloc: Global, octets: &[u8]) -> Result<Asked, ProxyError>
    requires { BeginsAsFrame direction.Request octets.now }
    ensures found { IfOk result (IsChange ⟦<ApReq as DerEncode>⟧ ⟦<KrbPriv as DerEncode>⟧ octets.now) }
    ensures rejected { IfErr result (OrMemory (IsNoChange ⟦<ApReq as DerEncode>⟧ ⟦<KrbPriv as DerEncode>⟧ octets.now)) }
{
    let Some((first, second)) = messages_of(Direction::Request, octets) else {
        return Err(ProxyError::FrameLength);
    };
    let request: ApReq = message_of(alloc, MessageKind::ApReq, first)?;
    match message_of::<KrbPriv>(alloc, MessageKind::KrbPriv, second) {
        Ok(private) => {
            drop(private);
            Ok(change_asked(request.0))
        }
        Err(error) => {
            drop(request);
            Err(error)
        }
    }
}
