//! Implicit context tags.

ghost use Rattle.std.specs.Prelude.{◌≡◌, ◌==◌, ◌+◌};
ghost use Rattle.krb_der_core.specs.Tlv.{tlv};
ghost use Rattle.krb_der_core.specs.TlvLaws.{tagged_element};
ghost use Rattle.krb_der_core.specs.Errors.{PrefixError, TaggedError};
ghost use Rattle.krb_der_core.specs.ErrorLaws.{prefix_laws};
ghost use Rattle.krb_der.specs.FieldLaws.{field_begins, field_one_reading};
ghost use Rattle.krb_der_x509.specs.ImplicitLaws.{retagged_error_laws, retagged_one_value};

use crate::primitive::DerPrimitive;
use krb_der::composite::{FieldRefs, Fields, Number, TagNumber};
use krb_der::{Asn1DerError, Der, DerEncode};
use std::alloc::{AllocError, Global};
use std::marker::{Model, PhantomData};

/// A primitive type under an implicit context tag (X.690, 8.14): the tag `80` + N in place of the primitive type's own.
///
/// `ImplicitContextTag0::from(value)` makes it, and `.0` is the value. The numbers 0 to 2 have such a name; number 3 is
/// `ImplicitContextTag<T, Number<3>>`. A contract sees the value.
#[derive(Drop)]
#[derive_where(Debug, Clone, PartialEq, Eq; T)]
pub struct ImplicitContextTag<T, N>(pub T, PhantomData<N>);

impl<T, N> Model for ImplicitContextTag<T, N> {
    ghost Value = { T };

    ghost view = { λ a. a.0 };

    ghost inverse = { λ v. record { 0 = v; 1 = record {} } };
}

impl<T, N> From<T> for ImplicitContextTag<T, N> {
    ghost from_gives = { λ x y. y ≡ x };

    fn from(value: T) -> Self {
        ImplicitContextTag(value, PhantomData)
    }
}

/// A primitive type under the implicit context tag 0: `80`.
pub type ImplicitContextTag0<T> = ImplicitContextTag<T, Number<0>>;

/// A primitive type under the implicit context tag 1: `81`.
pub type ImplicitContextTag1<T> = ImplicitContextTag<T, Number<1>>;

/// A primitive type under the implicit context tag 2: `82`.
pub type ImplicitContextTag2<T> = ImplicitContextTag<T, Number<2>>;

impl<T: DerPrimitive, N: TagNumber> DerEncode for ImplicitContextTag<T, N> {
    ghost enc = { λ v. tlv (128 + N.number) (T.inner v) };

    ghost is_value = { λ v. T.is_value v × (T.enc v ≡ tlv T.tag (T.inner v)) };

    ghost first = { λ t. t == 128 + N.number };

    ghost is_element = { λ v h. tagged_element (128 + N.number) (T.inner v) };

    ghost one_value = { retagged_one_value (128 + N.number) T.tag T.is_value T.enc T.inner T.one_value };

    ghost error = { TaggedError (128 + N.number) (T.error T.tag) };

    ghost error_laws = { retagged_error_laws (128 + N.number) T.tag T.is_value T.enc T.inner T.error T.error_laws };

    fn starts(octet: u8) -> bool {
        octet == 0x80 + N::get()
    }

    fn write(&self, alloc: Global, out: &mut Vec<u8>) -> Result<(), AllocError> {
        let start = out.len();
        self.0.write(alloc, out)?;
        out[start] = 0x80 + N::get();
        Ok(())
    }
}

impl<T: DerPrimitive + Drop, N: TagNumber> Der for ImplicitContextTag<T, N> {
    fn read_element(alloc: Global, tag: u8, content: &[u8]) -> Result<Self, Asn1DerError> {
        if tag != 0x80 + N::get() {
            return Err(Asn1DerError::InvalidData);
        }
        let value = T::read_element(alloc, T::tag(), content)?;
        Ok(ImplicitContextTag(value, PhantomData))
    }
}

/// A mandatory field of a sequence.
impl<T: DerPrimitive + Drop, N: TagNumber> Fields for ImplicitContextTag<T, N> {
    ghost octets = { λ v. tlv (128 + N.number) (T.inner v) };

    ghost are_values = { λ v. T.is_value v × (T.enc v ≡ tlv T.tag (T.inner v)) };

    ghost begins = { λ follow t. t == 128 + N.number };

    ghost distinguished = { λ follow. Unit {0} };

    ghost begin_so = { field_begins (λ v. tlv (128 + N.number) (T.inner v)) (λ v. T.is_value v × (T.enc v ≡ tlv T.tag (T.inner v)))
        (λ t. t == 128 + N.number) (λ v h. tagged_element (128 + N.number) (T.inner v)) };

    ghost one_reading = { field_one_reading (λ v. tlv (128 + N.number) (T.inner v)) (λ v. T.is_value v × (T.enc v ≡ tlv T.tag (T.inner v)))
        (λ t. t == 128 + N.number) (λ v h. tagged_element (128 + N.number) (T.inner v))
        (retagged_one_value (128 + N.number) T.tag T.is_value T.enc T.inner T.one_value) };

    ghost ends = { λ v rest. Unit {0} };

    ghost error = { PrefixError (λ t. t == 128 + N.number) ⟦<Self as DerEncode>⟧.error };

    ghost error_laws = { prefix_laws _ _ _ ⟦<Self as DerEncode>⟧.is_element _ ⟦<Self as DerEncode>⟧.error_laws ⟦<Self as DerEncode>⟧.one_value };

    ghost distinguished_ends = { λ follow reported v x h hx. tt };

    fn read_fields(alloc: Global, input: &[u8]) -> Result<(Self, usize), Asn1DerError> {
        let (value, taken) = Self::read(alloc, input)?;
        Ok((value, taken))
    }
}

/// A reference to a mandatory field of a sequence, for writing.
impl<'a, T: DerPrimitive, N: TagNumber> FieldRefs for &'a ImplicitContextTag<T, N> {
    ghost octets = { λ v. tlv (128 + N.number) (T.inner v.now) };

    ghost are_values = { λ v. T.is_value v.now × (T.enc v.now ≡ tlv T.tag (T.inner v.now)) };

    fn write_refs(&self, alloc: Global, out: &mut Vec<u8>) -> Result<(), AllocError> {
        self.write(alloc, out)
    }
}
