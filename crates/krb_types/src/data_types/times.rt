//! Times.

use krb_der::{GeneralizedTimeAsn1, IntegerAsn1};

/// A time in UTC, to the second (RFC 4120, 5.2.3).
///
/// ```text
/// KerberosTime ::= GeneralizedTime -- with no fractional seconds
/// ```
pub type KerberosTime = GeneralizedTimeAsn1;

/// The microseconds of a time (RFC 4120, 5.2.4).
///
/// ```text
/// Microseconds ::= INTEGER (0..999999)
/// ```
///
/// Other numbers are read too.
pub type Microseconds = IntegerAsn1;
