//! The MIC token.

ghost use Rattle.std.specs.Prelude.{◌≡◌, ◌<◌, ◌≤◌, ◌^◌, ◌++◌, [], drop, length, IfErr, IfOk, IfSome, None, OnOk, Some};
ghost use Rattle.std.specs.Io.KnownBytes.{Appends};
ghost use Rattle.krb_gss_tokens.specs.Comparing.{same_mic_equiv, same_mic_per};
ghost use Rattle.krb_gss_tokens.specs.Layout.{mic_header};
ghost use Rattle.krb_gss_tokens.specs.Mic.{Mic, MicIs, mic, same_mic};
ghost use Rattle.krb_gss_tokens.specs.Octets.{octets_of};
ghost use Rattle.krb_gss_tokens.specs.PerMessageRejected.{Answers, AnswersUnlessError, IsIo, IsUnwritten, MicFirstError, MicIsCut, MicRejected};
ghost use Rattle.krb_gss_tokens.specs.PerMessageRejected.{RejectsAsEof, RejectsAsIo};

use crate::error::GssApiMessageError;
use crate::octets::{
    big_u64, copy_payload, cut_short, joined, read_rest, read_u64, same_payload, write_joined,
};
use krb_registry::gss_api::{MIC_FILLER, MIC_TOKEN_ID};
use std::alloc::Global;
use std::io::{Read, Write};
use std::marker::Model;

/// The flags of an initiator's token: the key is a subkey that the acceptor asserted (RFC 4121, 4.2.2).
const MIC_TOKEN_INITIATOR_DEFAULT_FLAGS: u8 = 4;

/// The flags of an acceptor's token: sent by the acceptor, under a subkey that it asserted (RFC 4121, 4.2.2).
const MIC_TOKEN_ACCEPTOR_DEFAULT_FLAGS: u8 = 5;

/// The number of octets before the checksum (RFC 4121, 4.2.6.1).
const MIC_HEADER_LEN: usize = 16;

/// A MIC token: the checksum of a message that goes another way (RFC 4121, 4.2.6.1).
///
/// | Octets | Field | |
/// |---|---|---|
/// | 0 to 1 | TOK_ID | `04 04` |
/// | 2 | Flags | |
/// | 3 to 7 | Filler | five octets `ff` |
/// | 8 to 15 | SND_SEQ | the sequence number, big-endian |
/// | 16 to the last | SGN_CKSUM | the checksum of the message and then octets 0 to 15 |
///
/// A contract sees a vector as the list of its octets.
#[derive(Debug, Drop)]
pub struct MicToken {
    /// Who sent the token, and under which key (RFC 4121, 4.2.2).
    pub flags: u8,
    /// The sequence number.
    pub seq_num: u64,
    /// The message that the checksum is over, where it is known. It is no part of the token's octets.
    pub payload: Option<Vec<u8>>,
    /// The checksum.
    pub checksum: Vec<u8>,
}

impl Model for MicToken {
    ghost Value = { Mic };

    ghost view = { λ t. record { flags = t.flags; seq_num = t.seq_num; payload = octets_of t.payload; checksum = t.checksum.items } };
}

impl MicToken {
    /// An initiator's token with sequence number 0, no payload and an empty checksum. It takes no memory.
    pub fn with_initiator_flags(alloc: Global) -> MicToken
        ensures { result ≡ record { flags = 4; seq_num = 0; payload = None; checksum = [] } }
    {
        MicToken {
            flags: MIC_TOKEN_INITIATOR_DEFAULT_FLAGS,
            seq_num: 0,
            payload: None,
            checksum: Vec::new(alloc),
        }
    }

    /// An acceptor's token with sequence number 0, no payload and an empty checksum. It takes no memory.
    pub fn with_acceptor_flags(alloc: Global) -> MicToken
        ensures { result ≡ record { flags = 5; seq_num = 0; payload = None; checksum = [] } }
    {
        MicToken {
            flags: MIC_TOKEN_ACCEPTOR_DEFAULT_FLAGS,
            seq_num: 0,
            payload: None,
            checksum: Vec::new(alloc),
        }
    }

    /// The token with this sequence number, and else as it was.
    pub fn with_seq_number(self, seq_num: u64) -> MicToken
        ensures { result ≡ record self { seq_num = seq_num } }
    {
        let mut token = self;
        token.seq_num = seq_num;
        token
    }

    /// The first 16 octets of the token: all but the checksum.
    pub fn header(&self) -> [u8; 16]
        ensures { result ≡ mic_header self.now.flags self.now.seq_num }
    {
        let mut header = [0; 16];
        header[..2].copy_from_slice(&MIC_TOKEN_ID);
        header[2] = self.flags;
        header[3..8].copy_from_slice(&MIC_FILLER);
        header[8..].copy_from_slice(&self.seq_num.to_be_bytes());
        header
    }

    /// Puts another checksum into the token.
    pub fn set_checksum(&mut self, checksum: Vec<u8>)
        ensures { self.new ≡ record self.old { checksum = checksum.items } }
    {
        self.checksum = checksum;
    }

    /// Puts a payload into the token.
    pub fn set_payload(&mut self, payload: Vec<u8>)
        ensures { self.new ≡ record self.old { payload = Some payload.items } }
    {
        self.payload = Some(payload);
    }

    /// The octets of the token: the header and the checksum. The payload is no part of them.
    ///
    /// The only error is `OutOfMemory`.
    pub fn to_vec(&self, alloc: Global) -> Result<Vec<u8>, GssApiMessageError>
        ensures ok { IfOk result (λ octets. octets.items ≡ mic self.now) }
        ensures err { IfErr result (λ e. e ≡ GssApiMessageError.OutOfMemory) }
    {
        joined(alloc, &self.header(), &self.checksum)
    }

    /// Writes the header and the checksum in one piece. The payload is not written.
    ///
    /// The octets of the token are made first, in memory of the checksum's allocator. Every error is an `IoError`: of the kind
    /// `OutOfMemory` where that memory could not be had, and then nothing was written; or that of the writer, which has then taken a
    /// prefix of these octets, and not all of them. So a vector that cannot grow is as before. A write that a signal interrupts is
    /// tried again.
    pub fn encode<W: Write>(&self, to: &mut W) -> Result<(), GssApiMessageError>
        ensures ok { OnOk result (Appends (W.contents to.old) (W.contents to.new) (mic self.now)) }
        ensures err { IfErr result IsIo }
        ensures unwritten { IfErr result (IsUnwritten W.contents to.old to.new (mic self.now)) }
    {
        write_joined(&self.header(), &self.checksum, to)
    }

    /// The token that the octets are. All octets after the first 16 are the checksum; there is no payload.
    ///
    /// The fields are looked at in their order: another id is `InvalidId`, another filler `InvalidMicFiller`, and each is returned
    /// before a later field is looked at. A field that the octets' end cuts short is an `IoError` of kind `UnexpectedEof`, and there is
    /// no other. `OutOfMemory` comes only where the checksum is copied.
    pub fn from_slice(alloc: Global, octets: &[u8]) -> Result<MicToken, GssApiMessageError>
        ensures found { IfOk result (MicIs octets.now) }
        ensures fits { IfOk result (λ t. t.seq_num < 2 ^ 64) }
        ensures first_error { IfErr result (MicFirstError octets.now) }
        ensures only { (t : Mic) → t.seq_num < 2 ^ 64 → MicIs octets.now t → Answers result t }
        ensures cut { MicIsCut octets.now → RejectsAsEof result }
    {
        token_of(alloc, octets)
    }

    /// The token that the octets are, up to the reader's end. All octets after the first 16 are the checksum; there is no payload.
    ///
    /// The fields are read and checked in their order: another id is `InvalidId`, another filler `InvalidMicFiller`, and each is
    /// returned before a later field is read. A field that the reader's end cuts short is an `IoError` of kind `UnexpectedEof`, and an
    /// I/O error of the reader is `IoError` of it. `OutOfMemory` comes only while the checksum is read.
    pub fn decode<R: Read + Drop>(alloc: Global, reader: R) -> Result<MicToken, GssApiMessageError>
        ensures found { IfOk result (λ t. IfSome (R.remaining reader) (λ octets. MicIs octets t)) }
        ensures no_payload { IfOk result (λ t. t.payload ≡ None) }
        ensures fits { IfOk result (λ t. t.seq_num < 2 ^ 64) }
        ensures rejected { IfErr result (MicRejected (R.remaining reader)) }
        ensures only { IfSome (R.remaining reader) (λ octets. (t : Mic) → t.seq_num < 2 ^ 64 → MicIs octets t → AnswersUnlessError result t) }
        ensures cut { IfSome (R.remaining reader) (λ octets. MicIsCut octets → RejectsAsIo result) }
    {
        let mut reader = reader;
        read_fields(alloc, &mut reader)
    }

    /// An equal token, or `OutOfMemory`.
    pub fn clone(&self, alloc: Global) -> Result<MicToken, GssApiMessageError>
        ensures { Answers result self.now }
    {
        Ok(MicToken {
            flags: self.flags,
            seq_num: self.seq_num,
            payload: copy_payload(alloc, &self.payload)?,
            checksum: Vec::from_slice(alloc, &self.checksum)?,
        })
    }
}

impl PartialEq for MicToken {
    ghost eq = { same_mic };

    ghost laws = { same_mic_per };

    fn eq(&self, other: &Self) -> bool {
        self.flags == other.flags
            && self.seq_num == other.seq_num
            && same_payload(&self.payload, &other.payload)
            && self.checksum.as_slice() == other.checksum.as_slice()
    }
}

impl Eq for MicToken {
    ghost laws = { same_mic_equiv };
}

/// The token that the octets are, up to the reader's end: its fields are read and checked in their order.
fn read_fields<R: Read>(alloc: Global, reader: &mut R) -> Result<MicToken, GssApiMessageError>
    ensures found { IfOk result (λ t. IfSome (R.remaining reader.old) (λ octets. MicIs octets t)) }
    ensures no_payload { IfOk result (λ t. t.payload ≡ None) }
    ensures fits { IfOk result (λ t. t.seq_num < 2 ^ 64) }
    ensures rejected { IfErr result (MicRejected (R.remaining reader.old)) }
{
    let mut id = [0; 2];
    reader.read_exact(&mut id)?;
    if id != MIC_TOKEN_ID {
        return Err(GssApiMessageError::InvalidId(MIC_TOKEN_ID, id));
    }
    let mut flags = [0; 1];
    reader.read_exact(&mut flags)?;
    let mut filler = [0; 5];
    reader.read_exact(&mut filler)?;
    if filler != MIC_FILLER {
        return Err(GssApiMessageError::InvalidMicFiller(filler));
    }
    let seq_num = read_u64(reader)?;
    let checksum = read_rest(alloc, reader)?;
    Ok(MicToken {
        flags: flags[0],
        seq_num,
        payload: None,
        checksum,
    })
}

/// The flags and the sequence number of the header that the octets begin with: its fields are looked at in their order.
fn header_of(octets: &[u8]) -> Result<(u8, u64), GssApiMessageError>
    ensures ok { IfOk result (λ h. octets.now ≡ mic_header h.0 h.1 ++ drop 16 octets.now) }
    ensures whole { OnOk result (16 ≤ length octets.now) }
    ensures fits { IfOk result (λ h. h.1 < 2 ^ 64) }
    ensures err { IfErr result (MicFirstError octets.now) }
{
    if octets.len() < 2 {
        return Err(cut_short());
    }
    let id = [octets[0], octets[1]];
    if id != MIC_TOKEN_ID {
        return Err(GssApiMessageError::InvalidId(MIC_TOKEN_ID, id));
    }
    if octets.len() < 8 {
        return Err(cut_short());
    }
    let filler = [octets[3], octets[4], octets[5], octets[6], octets[7]];
    if filler != MIC_FILLER {
        return Err(GssApiMessageError::InvalidMicFiller(filler));
    }
    if octets.len() < 16 {
        return Err(cut_short());
    }
    let mut number = [0; 8];
    number.copy_from_slice(&octets[8..16]);
    Ok((octets[2], big_u64(number)))
}

/// The token that the octets are: its fields are looked at in their order.
fn token_of(alloc: Global, octets: &[u8]) -> Result<MicToken, GssApiMessageError>
    ensures found { IfOk result (MicIs octets.now) }
    ensures fits { IfOk result (λ t. t.seq_num < 2 ^ 64) }
    ensures first_error { IfErr result (MicFirstError octets.now) }
{
    let (flags, seq_num) = header_of(octets)?;
    let checksum = Vec::from_slice(alloc, &octets[MIC_HEADER_LEN..])?;
    Ok(MicToken {
        flags,
        seq_num,
        payload: None,
        checksum,
    })
}
