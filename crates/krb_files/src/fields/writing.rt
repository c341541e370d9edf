//! Writing of fields at the end of a vector.

ghost use Rattle.std.specs.Prelude.{◌≡◌, ◌++◌, ◌<◌, ◌^◌, ◌↔◌, IsTrue, length, OnOk, IfErr};
ghost use Rattle.std.specs.List.{flat_map, AllByRecursion};
ghost use Rattle.byteorder.specs.Endian.{big_bytes};
ghost use Rattle.krb_files.specs.Principals.{principal_of};
ghost use Rattle.krb_files.specs.FieldReading.{size_of};
ghost use Rattle.krb_files.specs.FieldWritten.{counted_octets, principal_octets, twice_octets, typed_octets, typed_list_octets};
ghost use Rattle.krb_files.specs.FieldWritten.{Begins, FitsPrincipal, FitsTyped, FitsTypedList};

use crate::fields::number::LengthSize;
use crate::fields::typed::TypedOctets;
use std::alloc::AllocError;

/// A realm and the components of a principal, each as octets.
#[derive(Clone, Copy)]
pub struct PrincipalParts<'a> {
    /// The realm's octets.
    pub realm: &'a [u8],
    /// The components of the principal, in their order.
    pub components: &'a [&'a [u8]],
}

/// Whether a length or a count has a place in a field of this size.
pub fn fits(size: LengthSize, len: usize) -> bool
    ensures { IsTrue result ↔ (len < 256 ^ size_of size) }
{
    match size {
        LengthSize::Two => len < 0x1_0000,
        LengthSize::Four => len < 0x1_0000_0000,
    }
}

/// Appends a number of two or four octets.
pub fn push_number(out: &mut Vec<u8>, size: LengthSize, number: u32) -> Result<(), AllocError>
    requires { number < 256 ^ size_of size }
    ensures ok { OnOk result (out.new.items ≡ out.old.items ++ big_bytes (size_of size) number) }
    ensures kept { IfErr result (λ _. Begins out.old.items out.new.items) }
{
    match size {
        LengthSize::Two => out.extend_from_slice(&(number as u16).to_be_bytes())?,
        LengthSize::Four => out.extend_from_slice(&number.to_be_bytes())?,
    }
    Ok(())
}

/// Appends a number of one octet.
pub fn push_octet(out: &mut Vec<u8>, number: u8) -> Result<(), AllocError>
    ensures ok { OnOk result (out.new.items ≡ out.old.items ++ big_bytes 1 number) }
    ensures kept { IfErr result (λ _. Begins out.old.items out.new.items) }
{
    out.extend_from_slice(&[number])?;
    Ok(())
}

/// Appends octets behind their length.
pub fn push_counted(out: &mut Vec<u8>, size: LengthSize, octets: &[u8]) -> Result<(), AllocError>
    requires { length octets.now < 256 ^ size_of size }
    ensures ok { OnOk result (out.new.items ≡ out.old.items ++ counted_octets (size_of size) octets.now) }
    ensures kept { IfErr result (λ _. Begins out.old.items out.new.items) }
{
    push_number(out, size, octets.len() as u32)?;
    out.extend_from_slice(octets)?;
    Ok(())
}

/// Whether the count of the components and each length of a principal has a place in a field of this size.
pub fn fits_principal(size: LengthSize, principal: &PrincipalParts) -> bool
    ensures { IsTrue result ↔ FitsPrincipal (size_of size) (principal_of principal.now) }
{
    if !fits(size, principal.components.len()) || !fits(size, principal.realm.len()) {
        return false;
    }
    'components: for component in principal.components {
        if !fits(size, component.len()) {
            return false;
        }
    }
    true
}

/// Appends a principal: how many components it has, the realm, and the components, each of these octets behind their length.
pub fn push_principal(
    out: &mut Vec<u8>,
    size: LengthSize,
    principal: &PrincipalParts,
) -> Result<(), AllocError>
    requires { FitsPrincipal (size_of size) (principal_of principal.now) }
    ensures ok { OnOk result (out.new.items ≡ out.old.items ++ principal_octets (size_of size) (principal_of principal.now)) }
    ensures kept { IfErr result (λ _. Begins out.old.items out.new.items) }
{
    push_number(out, size, principal.components.len() as u32)?;
    push_counted(out, size, principal.realm)?;
    'components: for component in principal.components {
        push_counted(out, size, component)?;
    }
    Ok(())
}

/// Appends octets behind their type of 16 bits and their length.
pub fn push_typed(
    out: &mut Vec<u8>,
    size: LengthSize,
    typed: &TypedOctets,
) -> Result<(), AllocError>
    requires { FitsTyped (size_of size) typed.now }
    ensures ok { OnOk result (out.new.items ≡ out.old.items ++ typed_octets (size_of size) typed.now) }
    ensures kept { IfErr result (λ _. Begins out.old.items out.new.items) }
{
    push_number(out, LengthSize::Two, u32::from(typed.kind()))?;
    push_counted(out, size, typed.octets())
}

/// Appends a number of 16 bits twice.
pub fn push_twice(out: &mut Vec<u8>, number: u16) -> Result<(), AllocError>
    ensures ok { OnOk result (out.new.items ≡ out.old.items ++ twice_octets number) }
    ensures kept { IfErr result (λ _. Begins out.old.items out.new.items) }
{
    push_number(out, LengthSize::Two, u32::from(number))?;
    push_number(out, LengthSize::Two, u32::from(number))
}

/// Whether the length of each of these octets has a place in a field of this size.
pub fn fits_each_typed(size: LengthSize, list: &[TypedOctets]) -> bool
    ensures { IsTrue result ↔ AllByRecursion (FitsTyped (size_of size)) list.now }
{
    'typed: for typed in list {
        if !typed.fits(size) {
            return false;
        }
    }
    true
}

/// Appends octets one after the other, each behind their type of 16 bits and their length.
pub fn push_each_typed(
    out: &mut Vec<u8>,
    size: LengthSize,
    list: &[TypedOctets],
) -> Result<(), AllocError>
    requires { AllByRecursion (FitsTyped (size_of size)) list.now }
    ensures ok { OnOk result (out.new.items ≡ out.old.items ++ flat_map (typed_octets (size_of size)) list.now) }
    ensures kept { IfErr result (λ _. Begins out.old.items out.new.items) }
{
    'typed: for typed in list {
        push_typed(out, size, typed)?;
    }
    Ok(())
}

/// Whether the count of a list and the length of each of its octets has a place in a field of 32 bits.
pub fn fits_typed_list(list: &[TypedOctets]) -> bool
    ensures { IsTrue result ↔ FitsTypedList list.now }
{
    fits(LengthSize::Four, list.len()) && fits_each_typed(LengthSize::Four, list)
}

/// Appends a list: its count of 32 bits, and its octets, each behind their type of 16 bits and their length of 32 bits.
pub fn push_typed_list(out: &mut Vec<u8>, list: &[TypedOctets]) -> Result<(), AllocError>
    requires { FitsTypedList list.now }
    ensures ok { OnOk result (out.new.items ≡ out.old.items ++ typed_list_octets list.now) }
    ensures kept { IfErr result (λ _. Begins out.old.items out.new.items) }
{
    push_number(out, LengthSize::Four, list.len() as u32)?;
    push_each_typed(out, LengthSize::Four, list)
}
