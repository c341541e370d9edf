//! The header of a message.

ghost use Rattle.std.specs.Prelude.{◌≡◌, ◌+◌, ◌≤◌, ◌<◌, length, IfOk, IfErr};
ghost use Rattle.std.specs.IoError.{error_kind};
ghost use Rattle.std.specs.declared.io.ErrorKind.TheVariants.{InvalidData};
ghost use Rattle.krb_negoex.specs.Layouts.{seen};
ghost use Rattle.krb_negoex.specs.Kinds.{IsCode};
ghost use Rattle.krb_negoex.specs.Types.{type_code};
ghost use Rattle.krb_negoex.specs.Wire.{type_layout, signature_layout, header_layout};

use crate::fixed::Fixed;
use crate::numbers::{invalid_data, put_u32, put_u64, u32_prefix, u64_prefix};
use crate::parts::{Both, Lay, Part, Placed};
use crate::traits::NegoexDataType;
use std::alloc::Global;
use std::io;
use uuid::Uuid;

/// "NEGOEXTS", which every message begins with, as a little-endian number of 8 octets (MS-NEGOEX 2.2.3).
pub const NEGOEXTS_MESSAGE_SIGNATURE: u64 = 0x535458454f47454e;

/// What a message is for (MS-NEGOEX 2.2.6.1): a number of 4 octets. A number past 7 is `InvalidData`, also in `try_from`.
#[derive(Debug, Clone, Copy, PartialEq, Eq)]
pub enum MessageType {
    /// 0: the initiator's schemes.
    InitiatorNego,
    /// 1: the acceptor's schemes.
    AcceptorNego,
    /// 2: the initiator's data of a scheme.
    InitiatorMetaData,
    /// 3: the acceptor's data of a scheme.
    AcceptorMetaData,
    /// 4: a scheme's token to the initiator.
    Challenge,
    /// 5: a scheme's token to the acceptor.
    ApRequest,
    /// 6: a checksum of the conversation.
    Verify,
    /// 7: a party gives up a scheme.
    Alert,
}

impl TryFrom<u32> for MessageType {
    type Error = io::Error;

    ghost try_from_gives = { λ n r. IfOk r (λ k. type_code k ≡ n) × IfErr r (λ e. (error_kind e ≡ InvalidData) × (IsCode type_code n → ⊥)) };

    fn try_from(number: u32) -> io::Result<Self> {
        match number {
            0 => Ok(MessageType::InitiatorNego),
            1 => Ok(MessageType::AcceptorNego),
            2 => Ok(MessageType::InitiatorMetaData),
            3 => Ok(MessageType::AcceptorMetaData),
            4 => Ok(MessageType::Challenge),
            5 => Ok(MessageType::ApRequest),
            6 => Ok(MessageType::Verify),
            7 => Ok(MessageType::Alert),
            _ => Err(invalid_data()),
        }
    }
}

impl From<&MessageType> for u32 {
    ghost from_gives = { λ k n. n ≡ type_code k.now };

    fn from(message_type: &MessageType) -> u32 {
        match message_type {
            MessageType::InitiatorNego => 0,
            MessageType::AcceptorNego => 1,
            MessageType::InitiatorMetaData => 2,
            MessageType::AcceptorMetaData => 3,
            MessageType::Challenge => 4,
            MessageType::ApRequest => 5,
            MessageType::Verify => 6,
            MessageType::Alert => 7,
        }
    }
}

impl Lay for MessageType {
    ghost layout = { type_layout };

    fn lay(
        &self,
        _alloc: Global,
        offset: usize,
        fixed_part: &mut Vec<u8>,
        _payload_part: &mut Vec<u8>,
    ) -> io::Result<usize> {
        put_u32(fixed_part, u32::from(self))?;
        Ok(offset)
    }
}

impl Part for MessageType {
    fn read_part<'a>(
        _alloc: Global,
        octets: &'a [u8],
        message: &[u8],
    ) -> io::Result<(MessageType, &'a [u8])> {
        MessageType::fixed_prefix(octets, message)
    }
}

impl Fixed for MessageType {
    fn fixed_prefix<'a>(octets: &'a [u8], _message: &[u8]) -> io::Result<(MessageType, &'a [u8])> {
        let (number, trailing) = u32_prefix(octets)?;
        Ok((MessageType::try_from(number)?, trailing))
    }
}

impl Placed for MessageType {
    ghost start = { λ v. 0 };

    fn payload_start(&self) -> usize {
        0
    }
}

impl NegoexDataType for MessageType {
    type Error = io::Error;

    ghost known = { type_layout.readable };

    fn fixed_len() -> usize {
        4
    }

    fn size(&self) -> usize {
        let _number = u32::from(self);
        4
    }
}

/// The eight octets that every message begins with.
#[derive(Clone, Copy)]
struct Signature(u64);

impl Lay for Signature {
    ghost layout = { seen (λ v. v.0) signature_layout };

    fn lay(
        &self,
        _alloc: Global,
        offset: usize,
        fixed_part: &mut Vec<u8>,
        _payload_part: &mut Vec<u8>,
    ) -> io::Result<usize> {
        put_u64(fixed_part, self.0)?;
        Ok(offset)
    }
}

impl Fixed for Signature {
    fn fixed_prefix<'a>(octets: &'a [u8], _message: &[u8]) -> io::Result<(Signature, &'a [u8])> {
        let (signature, trailing) = u64_prefix(octets)?;
        if signature != NEGOEXTS_MESSAGE_SIGNATURE {
            return Err(invalid_data());
        }
        Ok((Signature(signature), trailing))
    }
}

/// What a message begins with (MS-NEGOEX 2.2.6.2).
///
/// Layout, in octets: signature 8, type 4, sequence number 4, header length 4, message length 4, conversation 16: 40 in all. On
/// reading another signature or type is `InvalidData`, and fewer octets are `UnexpectedEof`. The lengths are not compared.
#[derive(Debug, Clone, Copy, PartialEq, Eq)]
pub struct MessageHeader {
    /// `NEGOEXTS_MESSAGE_SIGNATURE`.
    pub signature: u64,
    /// What the message is for.
    pub message_type: MessageType,
    /// The number of the message in its conversation, from 0 on.
    pub sequence_num: u32,
    /// How many octets are before the payload, where `encode` lays it.
    pub header_len: u32,
    /// How many octets the message has.
    pub message_len: u32,
    /// The conversation that the message is of.
    pub conversation_id: Uuid,
}

/// The fields of a header, in the order of the octets.
type HeaderFields = Both<Signature, Both<MessageType, Both<u32, Both<u32, Both<u32, Uuid>>>>>;

impl Lay for MessageHeader {
    ghost layout = { header_layout };

    fn lay(
        &self,
        alloc: Global,
        offset: usize,
        fixed_part: &mut Vec<u8>,
        payload_part: &mut Vec<u8>,
    ) -> io::Result<usize> {
        let lengths = Both(
            self.header_len,
            Both(self.message_len, self.conversation_id),
        );
        let fields = Both(
            Signature(self.signature),
            Both(self.message_type, Both(self.sequence_num, lengths)),
        );
        fields.lay(alloc, offset, fixed_part, payload_part)
    }
}

impl Part for MessageHeader {
    fn read_part<'a>(
        _alloc: Global,
        octets: &'a [u8],
        message: &[u8],
    ) -> io::Result<(MessageHeader, &'a [u8])> {
        MessageHeader::fixed_prefix(octets, message)
    }
}

impl Fixed for MessageHeader {
    fn fixed_prefix<'a>(octets: &'a [u8], message: &[u8]) -> io::Result<(MessageHeader, &'a [u8])> {
        let (fields, trailing) = match HeaderFields::fixed_prefix(octets, message) {
            Ok(read) => read,
            Err(error) => return Err(error),
        };
        let Both(signature, Both(message_type, Both(sequence_num, lengths))) = fields;
        let Both(header_len, Both(message_len, conversation_id)) = lengths;
        let header = MessageHeader {
            signature: signature.0,
            message_type,
            sequence_num,
            header_len,
            message_len,
            conversation_id,
        };
        Ok((header, trailing))
    }
}

impl Placed for MessageHeader {
    ghost start = { λ v. 0 };

    fn payload_start(&self) -> usize {
        0
    }
}

impl NegoexDataType for MessageHeader {
    type Error = io::Error;

    ghost known = { λ v. Unit {0} };

    fn fixed_len() -> usize {
        40
    }

    fn size(&self) -> usize {
        40
    }
}
