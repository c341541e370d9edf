//! Fields of a sequence that have no tag of their own, for structs that are SEQUENCEs.
//!
//! Such a field has its own type in the struct, `Field<T>`, whose value is at `.0`, in the tuple of fields, and
//! `FieldRef(&self.name)` for writing. An optional one is `Optional<Option<T>>`, as under a tag: its first octet
//! distinguishes it from what follows.

ghost use Rattle.krb_der_core.specs.Errors.{PrefixError};
ghost use Rattle.krb_der_core.specs.ErrorLaws.{prefix_laws};
ghost use Rattle.krb_der.specs.FieldLaws.{field_begins, field_one_reading};

use krb_der::composite::{FieldRefs, Fields};
use krb_der::{Asn1DerError, Der, DerEncode};
use std::alloc::{AllocError, Global};
use std::marker::Model;

/// A mandatory field with no tag of its own. A contract sees the value.
#[derive(Debug, Drop)]
pub struct Field<T>(pub T);

impl<T> Model for Field<T> {
    ghost Value = { T };

    ghost view = { λ a. a.0 };

    ghost inverse = { λ v. record { 0 = v } };
}

impl<T: Der + Drop> Fields for Field<T> {
    ghost octets = { T.enc };

    ghost are_values = { T.is_value };

    ghost begins = { λ follow. T.first };

    ghost distinguished = { λ follow. Unit {0} };

    ghost begin_so = { field_begins T.enc T.is_value T.first T.is_element };

    ghost one_reading = { field_one_reading T.enc T.is_value T.first T.is_element T.one_value };

    ghost ends = { λ v rest. Unit {0} };

    ghost error = { PrefixError T.first T.error };

    ghost error_laws = { prefix_laws T.is_value T.enc T.first T.is_element T.error T.error_laws T.one_value };

    ghost distinguished_ends = { λ follow reported v x h hx. tt };

    fn read_fields(alloc: Global, input: &[u8]) -> Result<(Self, usize), Asn1DerError> {
        let (value, taken) = T::read(alloc, input)?;
        Ok((Field(value), taken))
    }
}

/// A reference to a mandatory field with no tag of its own, for writing.
#[derive(Drop)]
pub struct FieldRef<'a, T>(pub &'a T);

impl<'a, T: DerEncode> FieldRefs for FieldRef<'a, T> {
    ghost octets = { λ v. T.enc v.0.now };

    ghost are_values = { λ v. T.is_value v.0.now };

    fn write_refs(&self, alloc: Global, out: &mut Vec<u8>) -> Result<(), AllocError> {
        self.0.write(alloc, out)
    }
}
