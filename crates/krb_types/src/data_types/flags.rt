//! Flags.

use krb_der::BitStringAsn1;

/// Flags, of which the first bit is number 0 (RFC 4120, 5.2.8).
///
/// ```text
/// KerberosFlags ::= BIT STRING (SIZE (32..MAX))
/// ```
///
/// Fewer than 32 bits are read too.
pub type KerberosFlags = BitStringAsn1;

/// The options of an AP-REQ (RFC 4120, 5.5.1).
///
/// ```text
/// APOptions ::= KerberosFlags
///     -- reserved(0), use-session-key(1), mutual-required(2)
/// ```
pub type ApOptions = KerberosFlags;
