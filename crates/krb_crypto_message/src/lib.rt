//! Encryption schemes of Kerberos (RFC 3961), call by call: how keys are derived, and what a message is.
#![tactic(auto)]

pub mod aes;
pub mod aes_sha2;
mod checksum;
mod cts;
pub mod des;
pub mod laws;
mod message_keys;
mod short_octets;
mod well_known;
mod without_checksum;

pub use message_keys::MessageKeys;
pub use well_known::{KERBEROS, usage_kc, usage_ke, usage_ki};
pub use without_checksum::{DecryptWithoutChecksum, EncryptWithoutChecksum};
