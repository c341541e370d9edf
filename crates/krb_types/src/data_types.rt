//! Data types that messages and their parts share (RFC 4120, 5.2 and 5.3), and those of pre-authentication (5.2.7).

mod addresses;
mod authorization_data;
mod checksums;
mod encryption;
mod error_data;
mod etype_info;
mod flags;
mod last_requests;
mod names;
mod passwords;
mod pre_authentication;
mod restrictions;
mod tickets;
mod times;

pub use addresses::{HostAddress, HostAddresses};
pub use authorization_data::{AuthorizationData, AuthorizationDataInner};
pub use checksums::Checksum;
pub use encryption::{EncryptedData, EncryptionKey};
pub use error_data::KerbErrorData;
pub use etype_info::{EtypeInfo2, EtypeInfo2Entry};
pub use flags::{ApOptions, KerberosFlags};
pub use last_requests::{LastReq, LastReqInner};
pub use names::{KerberosStringAsn1, PrincipalName, Realm};
pub use passwords::ChangePasswdData;
pub use pre_authentication::{KerbPaPacRequest, PaData, PaEncTimestamp, PaEncTsEnc, PaPacOptions};
pub use restrictions::KerbAdRestrictionEntry;
pub use tickets::{Ticket, TicketInner, TransitedEncoding};
pub use times::{KerberosTime, Microseconds};
