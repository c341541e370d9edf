//! A GUID as data.

ghost use Rattle.std.specs.Prelude.{◌≡◌, ◌<◌, ◌≤◌, [], length, refl};
ghost use Rattle.uuid.specs.Parts.{swap_fields};
ghost use Rattle.krb_negoex.specs.Rejected.{IsCut};
ghost use Rattle.krb_negoex.specs.GuidLayout.{guid};

use crate::fixed::Fixed;
use crate::numbers::cut_short;
use crate::parts::{Lay, Part, Placed};
use crate::traits::NegoexDataType;
use std::alloc::Global;
use std::io;
use uuid::Uuid;

/// A GUID (MS-NEGOEX 2.2.2; MS-DTYP 2.3.4): 16 octets, of which the first four, the next two and the two after them are numbers
/// that are written little-endian. Fewer octets are `UnexpectedEof`.
pub type Guid = Uuid;

/// The GUID of a conversation, which its messages share (MS-NEGOEX 2.2.2).
pub type ConversationId = Uuid;

/// The GUID of a security mechanism (MS-NEGOEX 2.2.2).
pub type AuthScheme = Uuid;

impl Lay for Uuid {
    ghost layout = { guid };

    fn lay(
        &self,
        _alloc: Global,
        offset: usize,
        fixed_part: &mut Vec<u8>,
        _payload_part: &mut Vec<u8>,
    ) -> io::Result<usize> {
        let id = self.to_bytes_le();
        fixed_part.extend_from_slice(&id)?;
        Ok(offset)
    }
}

impl Part for Uuid {
    fn read_part<'a>(
        _alloc: Global,
        octets: &'a [u8],
        message: &[u8],
    ) -> io::Result<(Uuid, &'a [u8])> {
        Uuid::fixed_prefix(octets, message)
    }
}

impl Fixed for Uuid {
    fn fixed_prefix<'a>(octets: &'a [u8], _message: &[u8]) -> io::Result<(Uuid, &'a [u8])> {
        if octets.len() < 16 {
            return Err(cut_short());
        }
        let mut id = [0u8; 16];
        let (prefix, trailing) = octets.split_at(16);
        id.copy_from_slice(prefix);
        Ok((Uuid::from_bytes_le(id), trailing))
    }
}

impl Placed for Uuid {
    ghost start = { λ v. 0 };

    fn payload_start(&self) -> usize {
        0
    }
}

impl NegoexDataType for Uuid {
    type Error = io::Error;

    ghost known = { guid.readable };

    fn fixed_len() -> usize {
        16
    }

    fn size(&self) -> usize {
        count_of(self.as_bytes())
    }
}

/// How many octets a GUID has.
fn count_of(octets: &[u8; 16]) -> usize
    ensures count { result ≡ 16 }
    ensures known { length octets.now ≡ 16 }
{
    octets.len()
}
