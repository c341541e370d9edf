//! The tag of a GSS token, in place of a SEQUENCE's.

ghost use Rattle.std.specs.Prelude.{◌≡◌, ◌==◌};
ghost use Rattle.krb_der.specs.Encoding.{IsSequence};
ghost use Rattle.krb_der.specs.Errors.{TaggedError};
ghost use Rattle.krb_gss_tokens.specs.Token.{in_token};
ghost use Rattle.krb_gss_tokens.specs.TokenLaws.{token_element, token_error_laws, token_one_value};

use krb_der::composite::SEQUENCE;
use krb_der::{Asn1DerError, Der, DerEncode, DerSequence};
use std::alloc::{AllocError, Global};
use std::marker::Model;

/// The tag of a GSS token: application 0, constructed (RFC 2743, 3.1).
pub(crate) const TOKEN: u8 = 0x60;

/// A GSS token (RFC 2743, 3.1): a SEQUENCE whose first octet is `60` in place of `30`.
///
/// ```text
/// InitialContextToken ::= [APPLICATION 0] IMPLICIT SEQUENCE {
///     thisMech          MechType,
///     innerContextToken ANY DEFINED BY thisMech
/// }
/// ```
///
/// It is not `ApplicationTag<T, 0>`, which wraps a SEQUENCE. Another first octet is `InvalidData`; the other errors are those
/// of the SEQUENCE. A contract sees the SEQUENCE's value.
#[derive(Debug, Drop, PartialEq, Eq)]
pub struct ApplicationTag0<T>(pub T);

impl<T> Model for ApplicationTag0<T> {
    ghost Value = { T };

    ghost view = { λ a. a.0 };

    ghost inverse = { λ v. record { 0 = v } };
}

impl<T: DerSequence> DerEncode for ApplicationTag0<T> {
    ghost enc = { λ v. in_token (T.enc v) };

    ghost is_value = { λ v. T.is_value v × IsSequence (T.enc v) };

    ghost first = { λ t. t == 96 };

    ghost is_element = { λ v h. token_element (T.enc v) h.1 };

    ghost one_value = { token_one_value T.is_value T.enc T.one_value };

    ghost error = { TaggedError 96 (T.error 48) };

    ghost error_laws = { token_error_laws T.is_value T.enc T.error T.error_laws };

    fn starts(octet: u8) -> bool {
        octet == TOKEN
    }

    fn write(&self, alloc: Global, out: &mut Vec<u8>) -> Result<(), AllocError> {
        let start = out.len();
        self.0.write(alloc, out)?;
        out[start] = TOKEN;
        Ok(())
    }
}

impl<T: DerSequence + Der + Drop> Der for ApplicationTag0<T> {
    fn read_element(alloc: Global, tag: u8, content: &[u8]) -> Result<Self, Asn1DerError> {
        if tag != TOKEN {
            return Err(Asn1DerError::InvalidData);
        }
        let sequence = T::read_element(alloc, SEQUENCE, content)?;
        Ok(ApplicationTag0(sequence))
    }
}
