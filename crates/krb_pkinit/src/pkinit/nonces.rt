//! Nonces of a Diffie-Hellman exchange.

use krb_der::OctetStringAsn1;

/// The nonce of one side, where keys are used again (RFC 4556, 3.2.1).
///
/// ```text
/// DHNonce ::= OCTET STRING
/// ```
pub type DhNonce = OctetStringAsn1;
