//! What keys make of an encrypted part.

use crate::usage::Usage;
use krb_schema::Item;

/// A decrypted part.
#[derive(Drop)]
pub struct Part {
    /// What the standard calls its type, as `EncTicketPart`.
    pub type_name: &'static str,
    /// Its octets.
    pub octets: Vec<u8>,
    /// The items of its octets, by the row of the type.
    pub items: Vec<Item>,
}

/// Why a part is not decrypted.
#[derive(Clone, Copy, PartialEq, Eq)]
pub enum Reason {
    /// Its encryption type is that of no suite.
    TypeNotSupported,
    /// No key is of its encryption type.
    NoKeyOfType,
    /// There are keys of its encryption type, and under none of them it is encrypted for a usage that its place allows.
    NoKeyFits,
}

/// What keys make of an encrypted part.
#[derive(Drop)]
pub enum Outcome {
    /// There is no key.
    NotTried,
    /// It is in the clear, which a KRB-CRED under encryption type 0 is (RFC 4120, 5.8.1).
    InClear(Part),
    /// It is not decrypted.
    NotDecrypted(Reason),
    /// The key at this place among the keys is the first that decrypts it, for this usage. There is no part if what it decrypts to is no encoding of what is
    /// encrypted for the usage.
    Decrypted {
        /// The place of the key.
        key: usize,
        /// The usage.
        usage: Usage,
        /// What is encrypted.
        part: Option<Part>,
    },
}
