//! What a Kerberos restriction entry says of the token and the machine of a caller (MS-KILE, 2.2.5 and 2.2.6).

pub mod laws;
mod token;

pub use token::{LsapTokenInfoIntegrity, MACHINE_ID_LENGTH, RECORD_LENGTH, octets_of, record_of};
