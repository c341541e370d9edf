//! Keys that are derived once from a key for a usage, for callers that use one key often, and the calls over them. The original has none.

pub use krb_crypto::message_keys::derive_message_keys;
pub use krb_crypto::prepared::{ChecksumKey, OpeningKey, SealingKey};
pub use krb_crypto::seal::prepared::{open_part, seal_part};
pub use krb_crypto_message::MessageKeys;
