//! Keys.

use krb_crypto::CipherSuite;

/// A key and its suite.
#[derive(Drop)]
pub struct Key {
    /// The suite.
    pub suite: CipherSuite,
    /// The octets of the key.
    pub octets: Vec<u8>,
}
