//! Names, UTF-16 in little-endian order.

ghost use Rattle.std.specs.Prelude.{◌≡◌, ◌+◌, ◌*◌, List, ℕ, IfOk, IfSome, slice_index, length, ◌≤◌};
ghost use Rattle.std.specs.Option.{option_map};
ghost use Rattle.std.specs.String.{string_bytes, IsUtf16Of};
ghost use Rattle.krb_pac_contents.specs.Names.{name_of, units_of};

use std::alloc::{AllocError, Global};

/// The units of two octets each, the lower one first. An octet that is left over at the end is in none.
#[tactic(auto, using(crate::proofs::Units::units_step, crate::proofs::Units::units_end))]
fn units(alloc: Global, octets: &[u8]) -> Result<Vec<u16>, AllocError>
    ensures { IfOk result (λ v. v.items ≡ units_of octets.now) }
{
    let mut units = Vec::new(alloc);
    let mut rest = octets;
    while rest.len() >= 2 {
        units.push(u16::from(rest[0]) + 256 * u16::from(rest[1]))?;
        let (_, next) = rest.split_at(2);
        rest = next;
    }
    Ok(units)
}

/// A name as text: the characters that the octets spell in UTF-16, the lower octet of each unit first (MS-DTYP 2.3.10; RFC 2781, 2.2), in
/// UTF-8 (RFC 3629, 3).
///
/// `None` where the number of octets is odd, or where a surrogate is not in a pair of a high and a low one. The only error is an allocation
/// failure.
pub fn name_text(alloc: Global, octets: &[u8]) -> Result<Option<String>, AllocError>
    ensures text { IfOk result (λ r. option_map string_bytes r ≡ name_of octets.now) }
    ensures units { IfOk result (λ r. IfSome r (λ s. IsUtf16Of (units_of octets.now) (string_bytes s))) }
{
    if octets.len() % 2 != 0 {
        return Ok(None);
    }
    let units = units(alloc, octets)?;
    match String::from_utf16(alloc, &units)? {
        Ok(text) => Ok(Some(text)),
        Err(_) => Ok(None),
    }
}
