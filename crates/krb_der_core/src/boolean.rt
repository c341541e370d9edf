//! BOOLEAN.

ghost use Rattle.std.specs.Prelude.{◌==◌};
ghost use Rattle.krb_der_core.specs.Tlv.{tlv};
ghost use Rattle.krb_der_core.specs.TlvLaws.{tagged_element, tagged_one_value};
ghost use Rattle.krb_der_core.specs.Primitive.{bool_content};
ghost use Rattle.krb_der_core.specs.PrimitiveLaws.{bool_one_content};
ghost use Rattle.krb_der_core.specs.Errors.{PrimitiveError};
ghost use Rattle.krb_der_core.specs.ErrorLaws.{primitive_error_laws};

use crate::content::{Content, read_tagged};
use crate::der::{Der, DerEncode};
use crate::error::Asn1DerError;
use crate::tlv::write_tlv;
use std::alloc::{AllocError, Global};

/// The tag of a BOOLEAN: universal 1 (X.690, 8.2).
const BOOLEAN: u8 = 0x01;

impl Content for bool {
    ghost octets = { bool_content };

    ghost has_content = { λ v. Unit {0} };

    ghost one_content = { bool_one_content };

    fn read_content(_alloc: Global, content: &[u8]) -> Result<Self, Asn1DerError> {
        match content {
            [0xff] => Ok(true),
            [0x00] => Ok(false),
            _ => Err(Asn1DerError::InvalidData),
        }
    }
}

/// BOOLEAN (X.690, 8.2 and 11.1): the content is `ff` for true and `00` for false; any other is `InvalidData`.
impl DerEncode for bool {
    ghost enc = { λ v. tlv 1 (bool_content v) };

    ghost is_value = { λ v. Unit {0} };

    ghost first = { λ t. t == 1 };

    ghost is_element = { λ v h. tagged_element 1 (bool_content v) };

    ghost one_value = { tagged_one_value 1 (λ v. Unit {0}) bool_content bool_one_content };

    ghost error = { PrimitiveError 1 (λ v. Unit {0}) bool_content };

    ghost error_laws = { primitive_error_laws 1 (λ v. Unit {0}) bool_content };

    fn starts(octet: u8) -> bool {
        octet == BOOLEAN
    }

    fn write(&self, _alloc: Global, out: &mut Vec<u8>) -> Result<(), AllocError> {
        let content = [if *self { 0xff } else { 0x00 }];
        write_tlv(BOOLEAN, &content, out)
    }
}

impl Der for bool {
    fn read_element(alloc: Global, tag: u8, content: &[u8]) -> Result<Self, Asn1DerError> {
        read_tagged(alloc, BOOLEAN, tag, content)
    }
}
