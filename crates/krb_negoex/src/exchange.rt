//! The message that carries a scheme's token.

ghost use Rattle.std.specs.Prelude.{◌≡◌, ◌+◌, ◌≤◌, ◌<◌, ◌^◌, [], length, IfOk, IfErr};
ghost use Rattle.std.specs.IoError.{error_kind};
ghost use Rattle.krb_negoex.specs.Copies.{exchange_parts};
ghost use Rattle.krb_io.specs.Transfer.{IsNotInterrupted};
ghost use Rattle.krb_negoex.specs.Rejected.{IsMemory, IsUnfit};
ghost use Rattle.krb_negoex.specs.Wire.{exchange_layout};
ghost use Rattle.krb_negoex.specs.Whole.{new_header, written, HasOneReading};

use crate::header::{MessageHeader, MessageType};
use crate::message::{NegoexMessage, decode_whole, encode_whole, header_of};
use crate::parts::{Both, Lay, Part};
use crate::traits::NegoexDataType;
use std::alloc::Global;
use std::io;
use std::io::{ErrorKind, Write};
use uuid::Uuid;

/// The octets of an `Exchange` before its payload.
const EXCHANGE_HEADER_LEN: u32 = 64;

/// A message that carries a scheme's token (MS-NEGOEX 2.2.6.4).
///
/// Layout, in octets: header 40, scheme 16, the token's vector 8: 64 in all; then the token.
#[derive(Debug, PartialEq, Eq, Drop)]
pub struct Exchange {
    /// What the message begins with.
    pub header: MessageHeader,
    /// The scheme that the token is of.
    pub auth_scheme: Uuid,
    /// The token.
    pub exchange: Vec<u8>,
}

impl Lay for Exchange {
    ghost layout = { exchange_layout };

    fn lay(
        &self,
        alloc: Global,
        offset: usize,
        fixed_part: &mut Vec<u8>,
        payload_part: &mut Vec<u8>,
    ) -> io::Result<usize> {
        let fields = Both(self.header, Both(self.auth_scheme, &self.exchange));
        fields.lay(alloc, offset, fixed_part, payload_part)
    }
}

impl Part for Exchange {
    fn read_part<'a>(
        alloc: Global,
        octets: &'a [u8],
        message: &[u8],
    ) -> io::Result<(Exchange, &'a [u8])> {
        let (Both(header, Both(auth_scheme, exchange)), trailing) = Both::<
            MessageHeader,
            Both<Uuid, Vec<u8>>,
        >::read_part(alloc, octets, message)?;
        let read = Exchange {
            header,
            auth_scheme,
            exchange,
        };
        Ok((read, trailing))
    }
}

impl NegoexMessage for Exchange {
    type Error = io::Error;

    ghost between = { [] };

    ghost start = { λ n. n.header.header_len };

    ghost rejected = { λ m e. exchange_layout.rejects m m e };

    ghost is_memory = { IsMemory };

    ghost is_unfit = { IsUnfit };

    ghost is_error = { IsNotInterrupted };

    fn decode(alloc: Global, message: &[u8]) -> io::Result<Exchange> {
        decode_whole(alloc, message)
    }

    fn encode<W: Write>(&self, alloc: Global, to: &mut W) -> io::Result<()> {
        encode_whole(self, alloc, self.header.header_len as usize, &[], to)
    }
}

impl Exchange {
    /// A message of these parts. The header length is 64, and the message's length that of its octets; `InvalidInput` where that
    /// does not fit 32 bits. What is made has one reading, itself, once it is encoded.
    pub fn new(
        message_type: MessageType,
        conversation_id: Uuid,
        sequence_num: u32,
        auth_scheme: Uuid,
        exchange: Vec<u8>,
    ) -> io::Result<Self>
        ensures ok { IfOk result (λ n. n ≡ record {
          header = new_header message_type conversation_id sequence_num 64 (64 + length exchange.items);
          auth_scheme = auth_scheme;
          exchange = exchange;
        }) }
        ensures one { IfOk result (λ n. HasOneReading exchange_layout 64 [] n) }
        ensures length { IfOk result (λ n. length (written exchange_layout 64 [] n) ≡ n.header.message_len) }
        ensures err { IfErr result (λ e. (error_kind e ≡ ErrorKind.InvalidInput) × (2 ^ 32 ≤ 64 + length exchange.items)) }
    {
        let _known = auth_scheme.size();
        let size = exchange.size().saturating_add(56);
        let header = header_of(
            message_type,
            conversation_id,
            sequence_num,
            EXCHANGE_HEADER_LEN,
            size,
        )?;
        Ok(Exchange {
            header,
            auth_scheme,
            exchange,
        })
    }

    /// An equal message. The only error is `OutOfMemory`.
    pub fn clone(&self, alloc: Global) -> io::Result<Exchange>
        ensures ok { IfOk result (λ v. exchange_parts v ≡ exchange_parts self.now) }
        ensures err { IfErr result IsMemory }
    {
        Ok(Exchange {
            header: self.header,
            auth_scheme: self.auth_scheme,
            exchange: Vec::from_slice(alloc, &self.exchange)?,
        })
    }
}
