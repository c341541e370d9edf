//! The message that carries a checksum of the conversation.

ghost use Rattle.std.specs.Prelude.{◌≡◌, ◌+◌, ◌≤◌, ◌<◌, ◌^◌, [], ◌∷◌, length, IfOk, IfErr};
ghost use Rattle.std.specs.IoError.{error_kind};
ghost use Rattle.krb_negoex.specs.Copies.{verify_parts};
ghost use Rattle.krb_io.specs.Transfer.{IsNotInterrupted};
ghost use Rattle.krb_negoex.specs.Rejected.{IsMemory, IsUnfit};
ghost use Rattle.krb_negoex.specs.Wire.{verify_layout};
ghost use Rattle.krb_negoex.specs.Whole.{new_header, four_zeros, written, HasOneReading};

use crate::checksum::{CHECKSUM_SCHEME_RFC3961, Checksum};
use crate::header::{MessageHeader, MessageType};
use crate::message::{NegoexMessage, decode_whole, encode_whole, header_of};
use crate::parts::{Both, Lay, Part};
use crate::traits::NegoexDataType;
use std::alloc::Global;
use std::io;
use std::io::{ErrorKind, Write};
use uuid::Uuid;

/// The octets of a `Verify` before its payload, the four zeros among them.
const VERIFY_HEADER_LEN: u32 = 80;

/// The octets of a checksum before its value.
const CHECKSUM_HEADER_LEN: u32 = 20;

/// A message that carries a checksum of the conversation (MS-NEGOEX 2.2.6.5).
///
/// Layout, in octets: header 40, scheme 16, checksum 20, and 4 of padding: 80 in all; then the checksum's value. The padding is
/// written as zeros and not looked at on reading.
#[derive(Debug, PartialEq, Eq, Drop)]
pub struct Verify {
    /// What the message begins with.
    pub header: MessageHeader,
    /// The scheme whose key the checksum is made with.
    pub auth_scheme: Uuid,
    /// The checksum.
    pub checksum: Checksum,
}

impl Lay for Verify {
    ghost layout = { verify_layout };

    fn lay(
        &self,
        alloc: Global,
        offset: usize,
        fixed_part: &mut Vec<u8>,
        payload_part: &mut Vec<u8>,
    ) -> io::Result<usize> {
        let fields = Both(self.header, Both(self.auth_scheme, &self.checksum));
        fields.lay(alloc, offset, fixed_part, payload_part)
    }
}

impl Part for Verify {
    fn read_part<'a>(
        alloc: Global,
        octets: &'a [u8],
        message: &[u8],
    ) -> io::Result<(Verify, &'a [u8])> {
        let (Both(header, Both(auth_scheme, checksum)), trailing) = Both::<
            MessageHeader,
            Both<Uuid, Checksum>,
        >::read_part(alloc, octets, message)?;
        let verify = Verify {
            header,
            auth_scheme,
            checksum,
        };
        Ok((verify, trailing))
    }
}

impl NegoexMessage for Verify {
    type Error = io::Error;

    ghost between = { four_zeros };

    ghost start = { λ n. n.header.header_len };

    ghost rejected = { λ m e. verify_layout.rejects m m e };

    ghost is_memory = { IsMemory };

    ghost is_unfit = { IsUnfit };

    ghost is_error = { IsNotInterrupted };

    fn decode(alloc: Global, message: &[u8]) -> io::Result<Verify> {
        decode_whole(alloc, message)
    }

    fn encode<W: Write>(&self, alloc: Global, to: &mut W) -> io::Result<()> {
        encode_whole(self, alloc, self.header.header_len as usize, &[0; 4], to)
    }
}

impl Verify {
    /// A message of these parts. The header length is 80, the checksum's 20 and its scheme RFC 3961's, and the message's length that
    /// of its octets; `InvalidInput` where that does not fit 32 bits. What is made has one reading, itself, once it is encoded.
    pub fn new(
        message_type: MessageType,
        conversation_id: Uuid,
        sequence_num: u32,
        auth_scheme: Uuid,
        checksum_type: u32,
        checksum_value: Vec<u8>,
    ) -> io::Result<Self>
        ensures ok { IfOk result (λ n. n ≡ record {
          header = new_header message_type conversation_id sequence_num 80 (80 + length checksum_value.items);
          auth_scheme = auth_scheme;
          checksum = record { header_len = 20; checksum_scheme = 1; checksum_type = checksum_type; checksum_value = checksum_value };
        }) }
        ensures one { IfOk result (λ n. HasOneReading verify_layout 80 four_zeros n) }
        ensures length { IfOk result (λ n. length (written verify_layout 80 four_zeros n) ≡ n.header.message_len) }
        ensures err { IfErr result (λ e. (error_kind e ≡ ErrorKind.InvalidInput) × (2 ^ 32 ≤ 80 + length checksum_value.items)) }
    {
        let _known = auth_scheme.size();
        let size = checksum_value.size().saturating_add(72);
        let header = header_of(
            message_type,
            conversation_id,
            sequence_num,
            VERIFY_HEADER_LEN,
            size,
        )?;
        let checksum = Checksum {
            header_len: CHECKSUM_HEADER_LEN,
            checksum_scheme: CHECKSUM_SCHEME_RFC3961,
            checksum_type,
            checksum_value,
        };
        Ok(Verify {
            header,
            auth_scheme,
            checksum,
        })
    }

    /// An equal message. The only error is `OutOfMemory`.
    pub fn clone(&self, alloc: Global) -> io::Result<Verify>
        ensures ok { IfOk result (λ v. verify_parts v ≡ verify_parts self.now) }
        ensures err { IfErr result IsMemory }
    {
        Ok(Verify {
            header: self.header,
            auth_scheme: self.auth_scheme,
            checksum: self.checksum.clone(alloc)?,
        })
    }
}
