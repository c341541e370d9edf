//! Explicit context tags.

ghost use Rattle.std.specs.Prelude.{◌≡◌, ◌==◌, ◌+◌, ◌≤◌, ℕ, min};
ghost use Rattle.krb_der_core.specs.Tlv.{tlv};
ghost use Rattle.krb_der_core.specs.TlvLaws.{tagged_element, tagged_one_value};
ghost use Rattle.krb_der_core.specs.Errors.{TaggedError, ValueError};
ghost use Rattle.krb_der_core.specs.ErrorLaws.{tagged_laws, value_laws};

use crate::whole::{read_around, write_around};
use krb_der_core::{Asn1DerError, Der, DerEncode};
use std::alloc::{AllocError, Global};
use std::marker::{Model, PhantomData};

/// The number of a context tag, as a type: `Number<0>`.
pub trait TagNumber {
    /// The number, at most 30.
    ghost number: { ℕ };

    /// The number, at most 30: a larger one needs more than one octet (X.690, 8.1.2.4).
    fn get() -> u8
        ensures value { result ≡ number }
        ensures small { result ≤ 30 };
}

/// A value under an explicit context tag (X.690, 8.14): the tag `a0` + N around the value's encoding.
///
/// `ExplicitContextTag0::from(value)` makes it, and `.0` is the value. The numbers 0 to 12 have such a name; number 13 is
/// `ExplicitContextTag<T, Number<13>>`. A contract sees the value.
#[derive(Drop)]
#[derive_where(Debug, Clone, PartialEq, Eq; T)]
pub struct ExplicitContextTag<T, N>(pub T, PhantomData<N>);

impl<T, N> Model for ExplicitContextTag<T, N> {
    ghost Value = { T };

    ghost view = { λ a. a.0 };

    ghost inverse = { λ v. record { 0 = v; 1 = record {} } };
}

impl<T, N> From<T> for ExplicitContextTag<T, N> {
    ghost from_gives = { λ x y. y ≡ x };

    fn from(value: T) -> Self {
        ExplicitContextTag(value, PhantomData)
    }
}

impl<T: DerEncode, N: TagNumber> DerEncode for ExplicitContextTag<T, N> {
    ghost enc = { λ v. tlv (160 + N.number) (T.enc v) };

    ghost is_value = { T.is_value };

    ghost first = { λ t. t == 160 + N.number };

    ghost is_element = { λ v h. tagged_element (160 + N.number) (T.enc v) };

    ghost one_value = { tagged_one_value (160 + N.number) T.is_value T.enc T.one_value };

    ghost error = { TaggedError (160 + N.number) (ValueError T.is_value T.enc T.first T.error) };

    ghost error_laws = { tagged_laws (160 + N.number) T.is_value T.enc (ValueError T.is_value T.enc T.first T.error)
        (value_laws T.is_value T.enc T.first T.is_element T.error T.error_laws T.one_value) };

    fn starts(octet: u8) -> bool {
        octet == 0xa0 + N::get()
    }

    fn write(&self, alloc: Global, out: &mut Vec<u8>) -> Result<(), AllocError> {
        write_around(alloc, 0xa0 + N::get(), &self.0, out)
    }
}

impl<T: Der + Drop, N: TagNumber> Der for ExplicitContextTag<T, N> {
    fn read_element(alloc: Global, tag: u8, content: &[u8]) -> Result<Self, Asn1DerError> {
        let value = read_around::<T>(alloc, 0xa0 + N::get(), tag, content)?;
        Ok(ExplicitContextTag(value, PhantomData))
    }
}

/// The number N of a context tag, at most 30, since the tag is one octet: a larger N counts as 30.
pub struct Number<const N: u8>;

impl<const N: u8> TagNumber for Number<N> {
    ghost number = { min N 30 };

    fn get() -> u8 {
        N.min(30)
    }
}

/// A value under the explicit context tag 0: `a0`.
pub type ExplicitContextTag0<T> = ExplicitContextTag<T, Number<0>>;

/// A value under the explicit context tag 1: `a1`.
pub type ExplicitContextTag1<T> = ExplicitContextTag<T, Number<1>>;

/// A value under the explicit context tag 2: `a2`.
pub type ExplicitContextTag2<T> = ExplicitContextTag<T, Number<2>>;

/// A value under the explicit context tag 3: `a3`.
pub type ExplicitContextTag3<T> = ExplicitContextTag<T, Number<3>>;

/// A value under the explicit context tag 4: `a4`.
pub type ExplicitContextTag4<T> = ExplicitContextTag<T, Number<4>>;

/// A value under the explicit context tag 5: `a5`.
pub type ExplicitContextTag5<T> = ExplicitContextTag<T, Number<5>>;

/// A value under the explicit context tag 6: `a6`.
pub type ExplicitContextTag6<T> = ExplicitContextTag<T, Number<6>>;

/// A value under the explicit context tag 7: `a7`.
pub type ExplicitContextTag7<T> = ExplicitContextTag<T, Number<7>>;

/// A value under the explicit context tag 8: `a8`.
pub type ExplicitContextTag8<T> = ExplicitContextTag<T, Number<8>>;

/// A value under the explicit context tag 9: `a9`.
pub type ExplicitContextTag9<T> = ExplicitContextTag<T, Number<9>>;

/// A value under the explicit context tag 10: `aa`.
pub type ExplicitContextTag10<T> = ExplicitContextTag<T, Number<10>>;

/// A value under the explicit context tag 11: `ab`.
pub type ExplicitContextTag11<T> = ExplicitContextTag<T, Number<11>>;

/// A value under the explicit context tag 12: `ac`.
pub type ExplicitContextTag12<T> = ExplicitContextTag<T, Number<12>>;
