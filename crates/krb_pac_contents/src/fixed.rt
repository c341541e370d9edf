//! The pointers of the fixed part, looked at in the order of its octets.
//!
//! They are unique pointers (C706, 14.3.11.2): a referent id is looked at for 0 alone, which is null.
//! Ids may be in any order, and two may be the same, as readers of Windows and Samba have it.

ghost use Rattle.std.specs.Prelude.{◌≡◌, ◌+◌, ◌≤◌, length};
ghost use Rattle.krb_pac_contents.specs.Fixed.{needed_pointer_of, string_pointer_of, array_pointer_of, name_pointers_of, domain_pointers_of, extra_pointers_of, pointers_of};

use crate::error::LogonError;
use crate::numbers::{u16_at, u32_at};

/// The pointer at a place, which may not be null.
#[tactic(auto, unfolding(crate::specs::Fixed::needed_pointer_of))]
pub(crate) fn needed_pointer(octets: &[u8], at: usize) -> Result<(), LogonError>
    requires { at + 4 ≤ length octets.now }
    ensures { result ≡ needed_pointer_of octets.now at }
{
    if u32_at(octets, at) == 0 {
        return Err(LogonError::NullPointer);
    }
    Ok(())
}

/// The string at a place of the fixed part.
#[tactic(auto, unfolding(crate::specs::Fixed::string_pointer_of))]
fn string_pointer(fixed: &[u8], at: usize) -> Result<(), LogonError>
    requires { at + 8 ≤ length fixed.now }
    ensures { result ≡ string_pointer_of fixed.now at }
{
    let length = u16_at(fixed, at);
    let maximum = u16_at(fixed, at + 2);
    let id = u32_at(fixed, at + 4);
    if length % 2 != 0 || maximum % 2 != 0 {
        return Err(LogonError::StringLength);
    }
    if maximum < length {
        return Err(LogonError::StringMaximum);
    }
    if id == 0 && maximum != 0 {
        return Err(LogonError::NullPointer);
    }
    Ok(())
}

/// The array at a place of the fixed part.
#[tactic(auto, unfolding(crate::specs::Fixed::array_pointer_of))]
fn array_pointer(fixed: &[u8], at: usize) -> Result<(), LogonError>
    requires { at + 8 ≤ length fixed.now }
    ensures { result ≡ array_pointer_of fixed.now at }
{
    let count = u32_at(fixed, at);
    let id = u32_at(fixed, at + 4);
    if id == 0 && count != 0 {
        return Err(LogonError::NullPointer);
    }
    if id != 0 && count == 0 {
        return Err(LogonError::EmptyArray);
    }
    Ok(())
}

#[tactic(auto, unfolding(crate::specs::Fixed::name_pointers_of))]
fn name_pointers(fixed: &[u8]) -> Result<(), LogonError>
    requires { 216 ≤ length fixed.now }
    ensures { result ≡ name_pointers_of fixed.now }
{
    string_pointer(fixed, 48)?;
    string_pointer(fixed, 56)?;
    string_pointer(fixed, 64)?;
    string_pointer(fixed, 72)?;
    string_pointer(fixed, 80)?;
    string_pointer(fixed, 88)
}

#[tactic(auto, unfolding(crate::specs::Fixed::domain_pointers_of))]
fn domain_pointers(fixed: &[u8]) -> Result<(), LogonError>
    requires { 216 ≤ length fixed.now }
    ensures { result ≡ domain_pointers_of fixed.now }
{
    array_pointer(fixed, 108)?;
    string_pointer(fixed, 136)?;
    string_pointer(fixed, 144)?;
    needed_pointer(fixed, 152)
}

#[tactic(auto, unfolding(crate::specs::Fixed::extra_pointers_of))]
fn extra_pointers(fixed: &[u8]) -> Result<(), LogonError>
    requires { 216 ≤ length fixed.now }
    ensures { result ≡ extra_pointers_of fixed.now }
{
    array_pointer(fixed, 196)?;
    array_pointer(fixed, 208)
}

/// All pointers of the fixed part.
#[tactic(auto, unfolding(crate::specs::Fixed::pointers_of))]
pub(crate) fn pointers(fixed: &[u8]) -> Result<(), LogonError>
    requires { 216 ≤ length fixed.now }
    ensures { result ≡ pointers_of fixed.now }
{
    name_pointers(fixed)?;
    domain_pointers(fixed)?;
    extra_pointers(fixed)
}
