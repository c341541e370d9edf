//! Numbers of encryption types (RFC 3961, 8; RFC 3962, 7; RFC 8009, 7).

/// Triple DES in CBC mode with MD5 (RFC 3961, 8).
pub const DES3_CBC_MD5: usize = 5;

/// Triple DES in CBC mode with SHA-1 (RFC 3961, 8).
pub const DES3_CBC_SHA1: usize = 7;

/// Triple DES in CBC mode with HMAC-SHA1 and derived keys (RFC 3961, 6.3).
pub const DES3_CBC_SHA1_KD: usize = 16;

/// AES of 128-bit keys with ciphertext stealing and HMAC-SHA1 cut to 96 bits (RFC 3962).
pub const AES128_CTS_HMAC_SHA1_96: usize = 17;

/// AES of 256-bit keys with ciphertext stealing and HMAC-SHA1 cut to 96 bits (RFC 3962).
pub const AES256_CTS_HMAC_SHA1_96: usize = 18;

/// AES of 128-bit keys with ciphertext stealing and HMAC-SHA256 cut to 128 bits (RFC 8009).
pub const AES128_CTS_HMAC_SHA256_128: usize = 19;

/// AES of 256-bit keys with ciphertext stealing and HMAC-SHA384 cut to 192 bits (RFC 8009).
pub const AES256_CTS_HMAC_SHA384_192: usize = 20;

/// RC4 with HMAC-MD5 (RFC 4757). The name is spelled as in the original.
pub const RC4_HMA: usize = 23;
