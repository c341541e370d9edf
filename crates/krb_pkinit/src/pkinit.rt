//! Pre-authentication with certificates (PKINIT, RFC 4556), Diffie-Hellman keys (RFC 3279, 2.3.3), and PKU2U.

mod answers;
mod groups;
mod nonces;
mod pku2u;
mod replies;
mod requests;
mod validation;

pub use answers::PaPkAsRep;
pub use groups::{DhDomainParameters, DhReqInfo, DhReqKeyInfo};
pub use nonces::DhNonce;
pub use pku2u::{KrbFinished, Pku2uNegoBody, Pku2uNegoRep, Pku2uNegoReq, Pku2uNegoReqMetadata};
pub use replies::{DhRepInfo, KdcDhKeyInfo};
pub use requests::{
    AuthPack, DhAuthPack, EcAuthPack, ExternalPrincipalIdentifier, PaPkAsReq, PkAuthenticator,
};
pub use validation::ValidationParams;
