//! Delegated credentials (MS-CSSP, 2.2.1.2).

mod credentials;
mod remote_guard;
mod smart_cards;

pub use credentials::{TsCredentials, TsPasswordCreds};
pub use remote_guard::{TsRemoteGuardCreds, TsRemoteGuardPackageCred};
pub use smart_cards::{TsCspDataDetail, TsSmartCardCreds};
