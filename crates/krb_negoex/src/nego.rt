//! The message that names the schemes of a party.

ghost use Rattle.std.specs.Prelude.{◌≡◌, ◌+◌, ◌≤◌, ◌<◌, ◌^◌, [], length, IfOk, IfErr};
ghost use Rattle.std.specs.IoError.{error_kind};
ghost use Rattle.krb_negoex.specs.Copies.{nego_parts};
ghost use Rattle.krb_io.specs.Transfer.{IsNotInterrupted};
ghost use Rattle.krb_negoex.specs.Rejected.{IsMemory, IsUnfit};
ghost use Rattle.krb_negoex.specs.Wire.{nego_layout, schemes_layout, extensions_layout};
ghost use Rattle.krb_negoex.specs.Whole.{new_header, written, HasOneReading};

use crate::extension::{Extension, clone_all};
use crate::header::{MessageHeader, MessageType};
use crate::message::{NegoexMessage, decode_whole, encode_whole, header_of};
use crate::parts::{Both, Lay, Part};
use crate::traits::NegoexDataType;
use std::alloc::Global;
use std::io;
use std::io::{ErrorKind, Write};
use uuid::Uuid;

/// How many random octets a `Nego` has (MS-NEGOEX 2.2.4).
pub const RANDOM_ARRAY_SIZE: usize = 32;

/// The version of the protocol (MS-NEGOEX 2.2.6.3); a message of another version is read.
pub const PROTOCOL_VERSION: u64 = 0;

/// The octets of a `Nego` before its payload.
const NEGO_HEADER_LEN: u32 = 96;

/// A message that names the schemes of a party (MS-NEGOEX 2.2.6.3).
///
/// Layout, in octets: header 40, random octets 32, version 8, the schemes' vector 8, the extensions' vector 8: 96 in all; then the
/// schemes, and the extensions after them.
#[derive(Debug, PartialEq, Eq, Drop)]
pub struct Nego {
    /// What the message begins with.
    pub header: MessageHeader,
    /// Random octets of the party.
    pub random: [u8; RANDOM_ARRAY_SIZE],
    /// `PROTOCOL_VERSION`.
    pub protocol_version: u64,
    /// The schemes, the best liked first.
    pub auth_schemes: Vec<Uuid>,
    /// The extensions.
    pub extensions: Vec<Extension>,
}

/// The fields of a `Nego`, in the order of the octets.
type NegoFields = Both<MessageHeader, Both<[u8; 32], Both<u64, Both<Vec<Uuid>, Vec<Extension>>>>>;

impl Lay for Nego {
    ghost layout = { nego_layout };

    fn lay(
        &self,
        alloc: Global,
        offset: usize,
        fixed_part: &mut Vec<u8>,
        payload_part: &mut Vec<u8>,
    ) -> io::Result<usize> {
        let vectors = Both(&self.auth_schemes, &self.extensions);
        let fields = Both(
            self.header,
            Both(self.random, Both(self.protocol_version, vectors)),
        );
        fields.lay(alloc, offset, fixed_part, payload_part)
    }
}

impl Part for Nego {
    fn read_part<'a>(
        alloc: Global,
        octets: &'a [u8],
        message: &[u8],
    ) -> io::Result<(Nego, &'a [u8])> {
        let (fields, trailing) = match NegoFields::read_part(alloc, octets, message) {
            Ok(read) => read,
            Err(error) => return Err(error),
        };
        let Both(header, Both(random, Both(protocol_version, vectors))) = fields;
        let Both(auth_schemes, extensions) = vectors;
        let nego = Nego {
            header,
            random,
            protocol_version,
            auth_schemes,
            extensions,
        };
        Ok((nego, trailing))
    }
}

impl NegoexMessage for Nego {
    type Error = io::Error;

    ghost between = { [] };

    ghost start = { λ n. n.header.header_len };

    ghost rejected = { λ m e. nego_layout.rejects m m e };

    ghost is_memory = { IsMemory };

    ghost is_unfit = { IsUnfit };

    ghost is_error = { IsNotInterrupted };

    fn decode(alloc: Global, message: &[u8]) -> io::Result<Nego> {
        decode_whole(alloc, message)
    }

    fn encode<W: Write>(&self, alloc: Global, to: &mut W) -> io::Result<()> {
        encode_whole(self, alloc, self.header.header_len as usize, &[], to)
    }
}

impl Nego {
    /// A message of these parts. The header length is 96, the version 0, and the message's length that of its octets;
    /// `InvalidInput` where that does not fit 32 bits. What is made has one reading, itself, once it is encoded.
    pub fn new(
        message_type: MessageType,
        conversation_id: Uuid,
        sequence_num: u32,
        random: [u8; RANDOM_ARRAY_SIZE],
        auth_schemes: Vec<Uuid>,
        extensions: Vec<Extension>,
    ) -> io::Result<Self>
        ensures ok { let size = 96 + (schemes_layout.payload_size auth_schemes + extensions_layout.payload_size extensions) in
            IfOk result (λ n. n ≡ record {
              header = new_header message_type conversation_id sequence_num 96 size;
              random = random;
              protocol_version = 0;
              auth_schemes = auth_schemes;
              extensions = extensions;
            }) }
        ensures one { IfOk result (λ n. HasOneReading nego_layout 96 [] n) }
        ensures length { IfOk result (λ n. length (written nego_layout 96 [] n) ≡ n.header.message_len) }
        ensures err { IfErr result (λ e. (error_kind e ≡ ErrorKind.InvalidInput)
            × (2 ^ 32 ≤ 96 + (schemes_layout.payload_size auth_schemes + extensions_layout.payload_size extensions))) }
    {
        let vectors = auth_schemes.size().saturating_add(extensions.size());
        let size = vectors.saturating_add(80);
        let header = header_of(
            message_type,
            conversation_id,
            sequence_num,
            NEGO_HEADER_LEN,
            size,
        )?;
        Ok(Nego {
            header,
            random,
            protocol_version: PROTOCOL_VERSION,
            auth_schemes,
            extensions,
        })
    }

    /// An equal message. The only error is `OutOfMemory`.
    pub fn clone(&self, alloc: Global) -> io::Result<Nego>
        ensures ok { IfOk result (λ v. nego_parts v ≡ nego_parts self.now) }
        ensures err { IfErr result IsMemory }
    {
        Ok(Nego {
            header: self.header,
            random: self.random,
            protocol_version: self.protocol_version,
            auth_schemes: Vec::from_slice(alloc, &self.auth_schemes)?,
            extensions: clone_all(alloc, &self.extensions)?,
        })
    }
}
