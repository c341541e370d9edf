//! A vector as data.

ghost use Rattle.std.specs.Prelude.{◌≡◌, ℕ, ◌+◌, ◌*◌, ◌<◌, ◌≤◌, [], ◌∷◌, ◌++◌, length, refl, if◌then◌else◌, nat_eq, IfOk, IfErr, OnOk, OnErr};
ghost use Rattle.krb_negoex.specs.Parts.{VectorPart, SameAll, AllOf, AllLaid, fixeds, total, vector_fixed, vector_payload, VectorLaid};
ghost use Rattle.krb_negoex.specs.Rejected.{VectorRejected, LayRejected};
ghost use Rattle.krb_negoex.specs.Layouts.{seen, vector};

use crate::extension::Extension;
use crate::numbers::{invalid_data, invalid_input, out_of_memory, put_u32_pair, u32_prefix};
use crate::parts::{Lay, Part, Placed};
use crate::traits::NegoexDataType;
use std::alloc::Global;
use std::io;
use uuid::Uuid;

/// Octets (MS-NEGOEX 2.2.5.2.3). As every vector: an offset and a count of four octets each, and the elements' fixed parts at
/// the offset, with their payloads after them; an empty one has the offset 0. Where the standard has a count of two octets and
/// two of padding, the padding is read as the count's upper half.
pub type ByteVector = Vec<u8>;

/// GUIDs of security mechanisms, of 16 octets each (MS-NEGOEX 2.2.5.2.2).
pub type AuthSchemeVector = Vec<Uuid>;

/// Extensions, of 12 octets each before their payloads (MS-NEGOEX 2.2.5.2.4).
pub type ExtensionVector = Vec<Extension>;

impl<T: NegoexDataType + Drop> Lay for Vec<T> {
    ghost layout = { seen (λ v. v.items) (vector T.layout) };

    fn lay(
        &self,
        alloc: Global,
        offset: usize,
        fixed_part: &mut Vec<u8>,
        payload_part: &mut Vec<u8>,
    ) -> io::Result<usize> {
        if self.is_empty() {
            fixed_part.extend_from_slice(&[0; 8])?;
            return Ok(offset);
        }
        if offset > 0xffff_ffff || self.len() > 0xffff_ffff {
            return Err(invalid_input());
        }
        let Some(fixed_parts) = self.len().checked_mul(T::fixed_len()) else {
            return Err(out_of_memory());
        };
        let Some(first) = offset.checked_add(fixed_parts) else {
            return Err(out_of_memory());
        };
        let payload_octets = payload_part.len();
        let end = lay_elements(alloc, self, first, payload_part)?;
        let pair = put_u32_pair(fixed_part, offset as u32, self.len() as u32);
        if pair.is_err() {
            payload_part.truncate(payload_octets);
            return Err(out_of_memory());
        }
        Ok(end)
    }
}

/// Appends the elements' fixed parts and then their payloads, of which the first is at that octet of the message; returns
/// where the last one ends.
fn lay_elements<T: NegoexDataType>(
    alloc: Global,
    elements: &[T],
    first: usize,
    out: &mut Vec<u8>,
) -> io::Result<usize>
    ensures laid { OnOk result (AllLaid T.layout.laid T.layout.payload_size first elements.now) }
    ensures end { IfOk result (λ n. n ≡ first + total T.layout.payload_size elements.now) }
    ensures appended { OnOk result (out.new.items ≡ out.old.items ++ (fixeds T.layout.fixed T.layout.payload_size first elements.now
        ++ fixeds T.layout.payload T.layout.payload_size first elements.now)) }
    ensures rejected { IfErr result (LayRejected (AllLaid T.layout.laid T.layout.payload_size first elements.now)) }
    ensures kept { OnErr result (out.new.items ≡ out.old.items) }
{
    let octets = out.len();
    let mut payloads = Vec::new(alloc);
    let mut end = first;
    'elements: for element in elements {
        match element.lay(alloc, end, out, &mut payloads) {
            Ok(next) => end = next,
            Err(error) => {
                out.truncate(octets);
                return Err(error);
            }
        }
    }
    if out.extend_from_slice(&payloads).is_err() {
        out.truncate(octets);
        return Err(out_of_memory());
    }
    Ok(end)
}

impl<T: NegoexDataType + Drop> Part for Vec<T> {
    fn read_part<'a>(
        alloc: Global,
        octets: &'a [u8],
        message: &[u8],
    ) -> io::Result<(Vec<T>, &'a [u8])> {
        let (offset, trailing) = u32_prefix(octets)?;
        let (count, trailing) = u32_prefix(trailing)?;
        let offset = offset as usize;
        if offset > message.len() {
            return Err(invalid_data());
        }
        let mut elements = Vec::new(alloc);
        let (_, mut rest) = message.split_at(offset);
        'elements: for _ in 0..count {
            let (element, next) = T::read_part(alloc, rest, message)?;
            elements.push(element)?;
            rest = next;
        }
        Ok((elements, trailing))
    }
}

impl<T: NegoexDataType + Drop> Placed for Vec<T> {
    ghost start = { λ v. 8 };

    fn payload_start(&self) -> usize {
        8
    }
}

impl<T: NegoexDataType + Drop> NegoexDataType for Vec<T> {
    type Error = io::Error;

    ghost known = { λ v. AllOf T.known v.items };

    fn fixed_len() -> usize {
        8
    }

    fn size(&self) -> usize {
        let mut size = 8usize;
        'sizes: for element in self {
            size = size.saturating_add(element.size());
        }
        size
    }
}
