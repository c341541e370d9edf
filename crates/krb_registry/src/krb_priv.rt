//! Octets of the change-password protocol (RFC 3244).

/// The protocol version of a change-password frame (RFC 3244, 2).
pub const KRB_PRIV_VERSION: [u8; 2] = [0x00, 0x01];
