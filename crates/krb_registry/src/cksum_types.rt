//! Numbers of checksum types (RFC 3961, 8; RFC 3962, 7; RFC 8009, 7).

/// CRC-32 (RFC 3961, 6.1.3).
pub const CRC32: usize = 1;

/// MD4 (RFC 3961, 6.1.2).
pub const RSA_MD4: usize = 2;

/// MD4 under DES with a confounder (RFC 3961, 6.2.5).
pub const RSA_MD4_DES: usize = 3;

/// DES in CBC mode with a confounder (RFC 3961, 6.2.7).
pub const DES_MAC: usize = 4;

/// DES in CBC mode under the key itself (RFC 3961, 6.2.8).
pub const DES_MAC_K: usize = 5;

/// MD4 under DES with the key itself (RFC 3961, 6.2.6).
pub const RSA_MD4_DES_K: usize = 6;

/// MD5 (RFC 3961, 6.1.1).
pub const RSA_MD5: usize = 7;

/// MD5 under DES with a confounder (RFC 3961, 6.2.4).
pub const RSA_MD5_DES: usize = 8;

/// MD5 under triple DES (RFC 3961, 8).
pub const RSA_MD5_DES3: usize = 9;

/// HMAC-SHA1 under a key derived for triple DES (RFC 3961, 6.3).
pub const HMAC_SHA1_DES3_KD: usize = 12;

/// HMAC-SHA1 under a key of triple DES (RFC 3961, 8).
pub const HMAC_SHA1_DES3: usize = 13;

/// HMAC-SHA1 cut to 96 bits, under a key derived for AES of 128-bit keys (RFC 3962).
pub const HMAC_SHA1_96_AES128: usize = 15;

/// HMAC-SHA1 cut to 96 bits, under a key derived for AES of 256-bit keys (RFC 3962).
pub const HMAC_SHA1_96_AES256: usize = 16;

/// HMAC-SHA256 cut to 128 bits, under a key derived for AES of 128-bit keys (RFC 8009).
pub const HMAC_SHA256_128_AES128: usize = 19;

/// HMAC-SHA384 cut to 192 bits, under a key derived for AES of 256-bit keys (RFC 8009).
pub const HMAC_SHA384_192_AES256: usize = 20;
