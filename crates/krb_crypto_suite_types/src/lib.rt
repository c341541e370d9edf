//! Each suite and each checksum as a type of its own: AES and triple DES with HMAC-SHA1 (RFC 3961, RFC 3962), and AES with
//! HMAC-SHA256 and HMAC-SHA384 (RFC 8009).
#![tactic(auto)]

pub mod aes;
pub mod aes_sha2;
pub mod des;
pub mod laws;
