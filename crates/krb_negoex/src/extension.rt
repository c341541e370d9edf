//! An extension of a `Nego` message.

ghost use Rattle.std.specs.Prelude.{◌≡◌, ◌+◌, ◌≤◌, ◌<◌, length, map, IfOk, IfErr};
ghost use Rattle.krb_negoex.specs.Copies.{extension_parts};
ghost use Rattle.krb_negoex.specs.Rejected.{IsMemory};
ghost use Rattle.krb_negoex.specs.Wire.{extension_layout};

use crate::parts::{Both, Lay, Part, Placed};
use crate::traits::NegoexDataType;
use std::alloc::Global;
use std::io;

/// An extension (MS-NEGOEX 2.2.5.1.4).
///
/// Layout, in octets: type 4, the value's vector 8; then the value. On reading a value past the message is `InvalidData`, and one
/// that the message's end cuts short `UnexpectedEof`.
#[derive(Debug, PartialEq, Eq, Drop)]
pub struct Extension {
    /// The type; where it is negative as a signed number, who does not know the extension has to reject it.
    pub extension_type: u32,
    /// The octets of the extension.
    pub extension_value: Vec<u8>,
}

impl Lay for Extension {
    ghost layout = { extension_layout };

    fn lay(
        &self,
        alloc: Global,
        offset: usize,
        fixed_part: &mut Vec<u8>,
        payload_part: &mut Vec<u8>,
    ) -> io::Result<usize> {
        Both(self.extension_type, &self.extension_value).lay(
            alloc,
            offset,
            fixed_part,
            payload_part,
        )
    }
}

impl Part for Extension {
    fn read_part<'a>(
        alloc: Global,
        octets: &'a [u8],
        message: &[u8],
    ) -> io::Result<(Extension, &'a [u8])> {
        let (Both(extension_type, extension_value), trailing) = Both::<u32, Vec<u8>>::read_part(
            alloc, octets, message,
        )?;
        let extension = Extension {
            extension_type,
            extension_value,
        };
        Ok((extension, trailing))
    }
}

impl Placed for Extension {
    ghost start = { λ v. 12 };

    fn payload_start(&self) -> usize {
        12
    }
}

impl NegoexDataType for Extension {
    type Error = io::Error;

    ghost known = { extension_layout.readable };

    fn fixed_len() -> usize {
        12
    }

    fn size(&self) -> usize {
        let _type = self.extension_type;
        self.extension_value.size().saturating_add(4)
    }
}

impl Extension {
    /// An equal extension. The only error is `OutOfMemory`.
    pub fn clone(&self, alloc: Global) -> io::Result<Extension>
        ensures ok { IfOk result (λ v. extension_parts v ≡ extension_parts self.now) }
        ensures err { IfErr result IsMemory }
    {
        Ok(Extension {
            extension_type: self.extension_type,
            extension_value: Vec::from_slice(alloc, &self.extension_value)?,
        })
    }
}

/// Equal extensions. The only error is `OutOfMemory`.
pub(crate) fn clone_all(alloc: Global, extensions: &[Extension]) -> io::Result<Vec<Extension>>
    ensures ok { IfOk result (λ v. map extension_parts v.items ≡ map extension_parts extensions.now) }
    ensures err { IfErr result IsMemory }
{
    let mut copies = Vec::new(alloc);
    'extensions: for extension in extensions {
        copies.push(extension.clone(alloc)?)?;
    }
    Ok(copies)
}
