//! Keys that a caller lends.

use krb_crypto::CipherSuite;

/// A key and its suite, as a caller lends them.
#[derive(Drop, Clone, Copy)]
pub struct LentKey<'a> {
    /// The suite.
    pub suite: &'a CipherSuite,
    /// The octets of the key.
    pub octets: &'a [u8],
}
