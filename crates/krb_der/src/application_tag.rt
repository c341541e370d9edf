//! Application tags.

ghost use Rattle.std.specs.Prelude.{◌≡◌, ◌==◌, ◌+◌, ◌≤◌, ◌&&◌, nat_le};
ghost use Rattle.krb_der_core.specs.Tlv.{tlv};
ghost use Rattle.krb_der_core.specs.TlvLaws.{tagged_one_value};
ghost use Rattle.krb_der_core.specs.Errors.{TaggedError, ValueError};
ghost use Rattle.krb_der.specs.FieldErrors.{NumberError};
ghost use Rattle.krb_der.specs.ApplicationLaws.{application_element};
ghost use Rattle.krb_der_core.specs.ErrorLaws.{tagged_laws, value_laws};
ghost use Rattle.krb_der.specs.FieldErrorLaws.{number_laws};

use crate::whole::{read_around, write_around};
use krb_der_core::{Asn1DerError, Der, DerEncode, DerSequence};
use std::alloc::{AllocError, Global};
use std::marker::Model;

/// A sequence under an application tag (X.690, 8.14): the tag `60` + N around the sequence.
///
/// N is at most 30, so that the tag is one octet: a larger N has no values, and reading it returns `InvalidData`. A contract
/// sees the sequence.
#[derive(Debug, Clone, Drop, PartialEq, Eq)]
pub struct ApplicationTag<T, const N: u8>(pub T);

impl<T, const N: u8> Model for ApplicationTag<T, N> {
    ghost Value = { T };

    ghost view = { λ a. a.0 };

    ghost invariant = { λ a. N ≤ 30 };

    ghost inverse = { λ v. record { 0 = v } };
}

impl<T: DerSequence, const N: u8> DerEncode for ApplicationTag<T, N> {
    ghost enc = { λ v. tlv (96 + N) (T.enc v) };

    ghost is_value = { λ v. T.is_value v × (N ≤ 30) };

    ghost first = { λ t. nat_le N 30 && t == 96 + N };

    ghost is_element = { λ v h. application_element N (T.enc v) h.1 };

    ghost one_value = { λ v w hv hw e. tagged_one_value (96 + N) T.is_value T.enc T.one_value v w hv.0 hw.0 e };

    ghost error = { NumberError N (TaggedError (96 + N) (ValueError T.is_value T.enc T.first T.error)) };

    ghost error_laws = { number_laws N T.is_value (λ v. tlv (96 + N) (T.enc v))
        (TaggedError (96 + N) (ValueError T.is_value T.enc T.first T.error))
        (tagged_laws (96 + N) T.is_value T.enc (ValueError T.is_value T.enc T.first T.error)
        (value_laws T.is_value T.enc T.first T.is_element T.error T.error_laws T.one_value)) };

    fn starts(octet: u8) -> bool {
        N <= 30 && octet == 0x60 + N
    }

    fn write(&self, alloc: Global, out: &mut Vec<u8>) -> Result<(), AllocError> {
        let sequence = &self.0;
        write_around(alloc, 0x60 + N, sequence, out)
    }
}

impl<T: DerSequence + Der + Drop, const N: u8> Der for ApplicationTag<T, N> {
    fn read_element(alloc: Global, tag: u8, content: &[u8]) -> Result<Self, Asn1DerError> {
        if N > 30 {
            return Err(Asn1DerError::InvalidData);
        }
        let sequence = read_around::<T>(alloc, 0x60 + N, tag, content)?;
        Ok(ApplicationTag(sequence))
    }
}
