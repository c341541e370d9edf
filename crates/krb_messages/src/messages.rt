//! The messages between clients, servers, KDCs and proxies (RFC 4120, 5.4 to 5.9).

mod ap_message;
mod application;
mod credentials;
mod error_text;
mod errors;
mod private;
mod proxy;
mod replies;
mod requests;
mod user_to_user;

pub use ap_message::ApMessage;
pub use application::{ApRep, ApRepInner, ApReq, ApReqInner};
pub use credentials::{KrbCred, KrbCredInner};
pub use errors::{KrbError, KrbErrorInner};
pub use private::{KrbPriv, KrbPrivInner};
pub use proxy::KdcProxyMessage;
pub use replies::{AsRep, EncAsRepPart, EncKdcRepPart, EncTgsRepPart, KdcRep, TgsRep};
pub use requests::{AsReq, KdcReq, KdcReqBody, TgsReq};
pub use user_to_user::{TgtRep, TgtReq};
