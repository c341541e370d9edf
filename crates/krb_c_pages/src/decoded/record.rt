//! What C is told of encrypted parts.

/// There is no key.
pub const NOT_TRIED: u32 = 0;
/// A part in the clear, which a KRB-CRED under encryption type 0 has (RFC 4120, 5.8.1).
pub const IN_CLEAR: u32 = 1;
/// Its encryption type is that of no suite.
pub const TYPE_NOT_SUPPORTED: u32 = 2;
/// No key is of its encryption type.
pub const NO_KEY_OF_TYPE: u32 = 3;
/// No key of its encryption type decrypts it.
pub const NO_KEY_FITS: u32 = 4;
/// A key decrypts it.
pub const DECRYPTED: u32 = 5;
/// A key decrypts it, and the octets are no encoding of what is encrypted for the usage.
pub const NO_ENCODING: u32 = 6;

/// `krb_part` of `krb.h`: what keys make of a ciphertext. It has no pointer in it.
#[repr(C)]
#[derive(Clone, Copy)]
pub struct PartRecord {
    /// The place of the ciphertext among the items.
    pub item: usize,
    /// How many items stand before those of the part.
    pub first: usize,
    /// How many these are.
    pub count: usize,
    /// How many of the octets that are handed out stand before those of the part.
    pub offset: usize,
    /// How many these are.
    pub size: usize,
    /// How many stand before the name of the key that decrypts it.
    pub opener_offset: usize,
    /// How many octets the name has.
    pub opener_size: usize,
    /// How many keys of the part are not tried.
    pub keys_left_out: usize,
    /// Which outcome: one of the numbers above.
    pub outcome: u32,
    /// The key usage; 0 if no key decrypts it.
    pub usage: u32,
}

/// `krb_decoded` of `krb.h`: how much is handed out, or where the first error is.
#[repr(C)]
#[derive(Clone, Copy)]
pub struct DecodedCounts {
    /// How many items.
    pub items: usize,
    /// How many parts.
    pub parts: usize,
    /// How many octets.
    pub octets: usize,
    /// How many octets stand before the first error of octets that are refused.
    pub offset: usize,
}
