//! INTEGERs of 32 bits.

ghost use Rattle.std.specs.Prelude.{◌≡◌, ◌==◌, ◌^◌, ◌<◌, ◌++◌, length, take, get_or, pos, OnOk, OnErr};
ghost use Rattle.std.specs.Int.Digits.{digits_of};
ghost use Rattle.krb_der_core.specs.Tlv.{tlv};
ghost use Rattle.krb_der_core.specs.TlvLaws.{tagged_element};
ghost use Rattle.krb_der_core.specs.Integer.{unsigned, shortest};
ghost use Rattle.krb_der_core.specs.UnsignedLaws.{unsigned_one_value};
ghost use Rattle.krb_der_core.specs.Errors.{PrimitiveError};
ghost use Rattle.krb_der_core.specs.ErrorLaws.{primitive_error_laws};

use crate::der::{Der, DerEncode};
use crate::error::Asn1DerError;
use crate::integer::{INTEGER, IntegerAsn1};
use crate::tlv::{begin_tlv, end_tlv, push_digits};
use std::alloc::{AllocError, Global};

/// The first digit of the number in base 256, and 0 of 0.
fn first_digit(n: usize) -> usize
    ensures { result ≡ get_or (digits_of 256 n) 0 0 }
{
    if n < 256 {
        return n;
    }
    first_digit(n / 256)
}

/// Appends the shortest two's complement of the number. Where an allocation fails, some of it may have been appended.
fn push_unsigned(n: usize, out: &mut Vec<u8>) -> Result<(), AllocError>
    ensures ok { OnOk result (out.new.items ≡ out.old.items ++ unsigned n) }
    ensures err { OnErr result (take (length out.old.items) out.new.items ≡ out.old.items) }
{
    if n == 0 {
        out.push(0)?;
        return Ok(());
    }
    if first_digit(n) < 128 {
        return push_digits(n, out);
    }
    out.push(0)?;
    push_digits(n, out)
}

/// INTEGER (X.690, 8.3) of a number that is not negative and fits 32 bits; any other is `InvalidData`.
impl DerEncode for u32 {
    ghost enc = { λ v. tlv 2 (shortest (pos v)) };

    ghost is_value = { λ v. v < 2 ^ 32 };

    ghost first = { λ t. t == 2 };

    ghost is_element = { λ v h. tagged_element 2 (shortest (pos v)) };

    ghost one_value = { unsigned_one_value (λ v. v < 2 ^ 32) };

    ghost error = { PrimitiveError 2 (λ v. v < 2 ^ 32) (λ v. shortest (pos v)) };

    ghost error_laws = { primitive_error_laws 2 (λ v. v < 2 ^ 32) (λ v. shortest (pos v)) };

    fn starts(octet: u8) -> bool {
        octet == INTEGER
    }

    fn write(&self, _alloc: Global, out: &mut Vec<u8>) -> Result<(), AllocError> {
        let start = begin_tlv(out)?;
        if let Err(error) = push_unsigned(*self as usize, out) {
            out.truncate(start);
            return Err(error);
        }
        end_tlv(INTEGER, start, out)
    }
}

impl Der for u32 {
    fn read_element(alloc: Global, tag: u8, content: &[u8]) -> Result<Self, Asn1DerError> {
        let number = IntegerAsn1::read_element(alloc, tag, content)?;
        match number.to_u32() {
            Some(number) => Ok(number),
            None => Err(Asn1DerError::InvalidData),
        }
    }
}
