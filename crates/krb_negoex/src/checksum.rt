//! The checksum of a `Verify` message.

ghost use Rattle.std.specs.Prelude.{◌≡◌, ◌+◌, ◌≤◌, ◌<◌, length, IfOk, IfErr};
ghost use Rattle.krb_negoex.specs.Copies.{checksum_parts};
ghost use Rattle.krb_negoex.specs.Rejected.{IsMemory};
ghost use Rattle.std.specs.declared.io.ErrorKind.TheVariants.{InvalidInput};
ghost use Rattle.krb_negoex.specs.Layouts.{seen};
ghost use Rattle.krb_negoex.specs.Wire.{scheme_layout, checksum_layout};

use crate::fixed::Fixed;
use crate::numbers::{invalid_input, put_u32, u32_prefix};
use crate::parts::{Both, Lay, Part, Placed};
use crate::traits::NegoexDataType;
use std::alloc::Global;
use std::io;

/// The scheme of checksums that RFC 3961 defines (MS-NEGOEX 2.2.3): the one that is read.
pub const CHECKSUM_SCHEME_RFC3961: u32 = 1;

/// The number of a scheme of checksums, of which one is read.
#[derive(Clone, Copy)]
pub(crate) struct Scheme(pub(crate) u32);

impl Lay for Scheme {
    ghost layout = { seen (λ v. v.0) scheme_layout };

    fn lay(
        &self,
        _alloc: Global,
        offset: usize,
        fixed_part: &mut Vec<u8>,
        _payload_part: &mut Vec<u8>,
    ) -> io::Result<usize> {
        put_u32(fixed_part, self.0)?;
        Ok(offset)
    }
}

impl Part for Scheme {
    fn read_part<'a>(
        _alloc: Global,
        octets: &'a [u8],
        message: &[u8],
    ) -> io::Result<(Scheme, &'a [u8])> {
        Scheme::fixed_prefix(octets, message)
    }
}

impl Fixed for Scheme {
    fn fixed_prefix<'a>(octets: &'a [u8], _message: &[u8]) -> io::Result<(Scheme, &'a [u8])> {
        let (scheme, trailing) = u32_prefix(octets)?;
        if scheme != CHECKSUM_SCHEME_RFC3961 {
            return Err(invalid_input());
        }
        Ok((Scheme(scheme), trailing))
    }
}

/// A checksum (MS-NEGOEX 2.2.5.1.3).
///
/// Layout, in octets: header length 4, scheme 4, type 4, the value's vector 8; then the value. On reading another scheme than
/// `CHECKSUM_SCHEME_RFC3961` is `InvalidInput`, a value past the message `InvalidData`, and one that the message's end cuts short
/// `UnexpectedEof`. The header length is not compared.
#[derive(Debug, PartialEq, Eq, Drop)]
pub struct Checksum {
    /// How many octets are before the value; 20 in what `Verify::new` makes. `encode` lays the value there.
    pub header_len: u32,
    /// The scheme of checksums.
    pub checksum_scheme: u32,
    /// RFC 3961's number of a type of checksum.
    pub checksum_type: u32,
    /// The octets of the checksum.
    pub checksum_value: Vec<u8>,
}

/// The fields of a checksum, in the order of the octets.
type ChecksumFields = Both<u32, Both<Scheme, Both<u32, Vec<u8>>>>;

impl Lay for Checksum {
    ghost layout = { checksum_layout };

    fn lay(
        &self,
        alloc: Global,
        offset: usize,
        fixed_part: &mut Vec<u8>,
        payload_part: &mut Vec<u8>,
    ) -> io::Result<usize> {
        let value = Both(self.checksum_type, &self.checksum_value);
        let fields = Both(self.header_len, Both(Scheme(self.checksum_scheme), value));
        fields.lay(alloc, offset, fixed_part, payload_part)
    }
}

impl Part for Checksum {
    fn read_part<'a>(
        alloc: Global,
        octets: &'a [u8],
        message: &[u8],
    ) -> io::Result<(Checksum, &'a [u8])> {
        let (fields, trailing) = ChecksumFields::read_part(alloc, octets, message)?;
        let Both(header_len, Both(Scheme(checksum_scheme), value)) = fields;
        let Both(checksum_type, checksum_value) = value;
        let checksum = Checksum {
            header_len,
            checksum_scheme,
            checksum_type,
            checksum_value,
        };
        Ok((checksum, trailing))
    }
}

impl Placed for Checksum {
    ghost start = { λ v. v.header_len };

    fn payload_start(&self) -> usize {
        self.header_len as usize
    }
}

impl NegoexDataType for Checksum {
    type Error = io::Error;

    ghost known = { λ v. Unit {0} };

    fn fixed_len() -> usize {
        20
    }

    fn size(&self) -> usize {
        self.checksum_value.size().saturating_add(12)
    }
}

impl Checksum {
    /// An equal checksum. The only error is `OutOfMemory`.
    pub fn clone(&self, alloc: Global) -> io::Result<Checksum>
        ensures ok { IfOk result (λ v. checksum_parts v ≡ checksum_parts self.now) }
        ensures err { IfErr result IsMemory }
    {
        Ok(Checksum {
            header_len: self.header_len,
            checksum_scheme: self.checksum_scheme,
            checksum_type: self.checksum_type,
            checksum_value: Vec::from_slice(alloc, &self.checksum_value)?,
        })
    }
}
