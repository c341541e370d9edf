//! The Wrap token.

ghost use Rattle.std.specs.Prelude.{◌≡◌, ◌<◌, ◌≤◌, ◌^◌, ◌∷◌, ◌++◌, [], drop, length, IfErr, IfOk, IfSome, None, OnOk};
ghost use Rattle.std.specs.Io.KnownBytes.{Appends};
ghost use Rattle.krb_gss_tokens.specs.Comparing.{same_wrap_equiv, same_wrap_per};
ghost use Rattle.krb_gss_tokens.specs.Layout.{wrap_header, wrap_id};
ghost use Rattle.krb_gss_tokens.specs.Octets.{octets_of};
ghost use Rattle.krb_gss_tokens.specs.PerMessageRejected.{Answers, AnswersUnlessError, IsIo, IsUnwritten, RejectsAsEof, RejectsAsIo};
ghost use Rattle.krb_gss_tokens.specs.PerMessageRejected.{WrapFirstError, WrapIsCut, WrapRejected};
ghost use Rattle.krb_gss_tokens.specs.Wrap.{FitsWrap, Wrap, WrapIs, same_wrap, wrap};

use crate::error::GssApiMessageError;
use crate::octets::{
    big_u16, big_u64, copy_payload, cut_short, joined, read_rest, read_u16, read_u64, same_payload,
    write_joined,
};
use krb_registry::gss_api::{WRAP_FILLER, WRAP_TOKEN_ID};
use std::alloc::Global;
use std::io::{Read, Write};
use std::marker::Model;

/// The flags of a new token: the data is sealed, under a subkey that the acceptor asserted (RFC 4121, 4.2.2).
const WRAP_TOKEN_DEFAULT_FLAGS: u8 = 6;

/// The number of octets before the data (RFC 4121, 4.2.6.2).
const WRAP_HEADER_LEN: usize = 16;

/// A Wrap token: a message, sealed or followed by its checksum (RFC 4121, 4.2.6.2).
///
/// | Octets | Field | |
/// |---|---|---|
/// | 0 to 1 | TOK_ID | `05 04` |
/// | 2 | Flags | |
/// | 3 | Filler | `ff` |
/// | 4 to 5 | EC | the extra count, big-endian |
/// | 6 to 7 | RRC | the right rotation count, big-endian |
/// | 8 to 15 | SND_SEQ | the sequence number, big-endian |
/// | 16 to the last | Data | the message as it is sent |
///
/// A contract sees a vector as the list of its octets.
#[derive(Debug, Drop)]
pub struct WrapToken {
    /// Who sent the token, whether its data is sealed, and under which key (RFC 4121, 4.2.2).
    pub flags: u8,
    /// The extra count: the octets of the checksum of data that is not sealed, and of the padding of data that is (RFC 4121, 4.2.3).
    pub ec: u16,
    /// By how many octets the data is rotated to the right (RFC 4121, 4.2.5).
    pub rrc: u16,
    /// The sequence number.
    pub seq_num: u64,
    /// The message in plain, where it is known. It is no part of the token's octets.
    pub payload: Option<Vec<u8>>,
    /// The data after the header.
    pub checksum: Vec<u8>,
}

impl Model for WrapToken {
    ghost Value = { Wrap };

    ghost view = { λ t. record { flags = t.flags; ec = t.ec; rrc = t.rrc; seq_num = t.seq_num; payload = octets_of t.payload; checksum = t.checksum.items } };
}

impl WrapToken {
    /// A token with this sequence number and flags 6. Both counts are 0, there is no payload, and the data is empty. It takes no
    /// memory.
    pub fn with_seq_number(alloc: Global, seq_num: u64) -> WrapToken
        ensures { result ≡ record { flags = 6; ec = 0; rrc = 0; seq_num = seq_num; payload = None; checksum = [] } }
    {
        WrapToken {
            flags: WRAP_TOKEN_DEFAULT_FLAGS,
            ec: 0,
            rrc: 0,
            seq_num,
            payload: None,
            checksum: Vec::new(alloc),
        }
    }

    /// The number of octets of a header, 16.
    pub fn header_len() -> usize
        ensures { result ≡ 16 }
    {
        WRAP_HEADER_LEN
    }

    /// The first 16 octets of the token: all but the data.
    pub fn header(&self) -> [u8; 16]
        ensures { result ≡ wrap_header self.now.flags self.now.ec self.now.rrc self.now.seq_num }
    {
        let mut header = [0; 16];
        header[..2].copy_from_slice(&WRAP_TOKEN_ID);
        header[2] = self.flags;
        header[3] = WRAP_FILLER;
        header[4..6].copy_from_slice(&self.ec.to_be_bytes());
        header[6..8].copy_from_slice(&self.rrc.to_be_bytes());
        header[8..].copy_from_slice(&self.seq_num.to_be_bytes());
        header
    }

    /// Puts another right rotation count into the token.
    pub fn set_rrc(&mut self, rrc: u16)
        ensures { self.new ≡ record self.old { rrc = rrc } }
    {
        self.rrc = rrc;
    }

    /// Puts other data into the token.
    pub fn set_checksum(&mut self, checksum: Vec<u8>)
        ensures { self.new ≡ record self.old { checksum = checksum.items } }
    {
        self.checksum = checksum;
    }

    /// The octets of the token: the header and the data. The payload is no part of them.
    ///
    /// The only error is `OutOfMemory`.
    pub fn to_vec(&self, alloc: Global) -> Result<Vec<u8>, GssApiMessageError>
        ensures ok { IfOk result (λ octets. octets.items ≡ wrap self.now) }
        ensures err { IfErr result (λ e. e ≡ GssApiMessageError.OutOfMemory) }
    {
        joined(alloc, &self.header(), &self.checksum)
    }

    /// Writes the header and the data in one piece. The payload is not written.
    ///
    /// The octets of the token are made first, in memory of the data's allocator. Every error is an `IoError`: of the kind
    /// `OutOfMemory` where that memory could not be had, and then nothing was written; or that of the writer, which has then taken a
    /// prefix of these octets, and not all of them. So a vector that cannot grow is as before. A write that a signal interrupts is
    /// tried again.
    pub fn encode<W: Write>(&self, to: &mut W) -> Result<(), GssApiMessageError>
        ensures ok { OnOk result (Appends (W.contents to.old) (W.contents to.new) (wrap self.now)) }
        ensures err { IfErr result IsIo }
        ensures unwritten { IfErr result (IsUnwritten W.contents to.old to.new (wrap self.now)) }
    {
        write_joined(&self.header(), &self.checksum, to)
    }

    /// The token that the octets are. All octets after the first 16 are the data; there is no payload.
    ///
    /// The fields are looked at in their order: another id is `InvalidId`, another filler `InvalidWrapFiller`, and each is returned
    /// before a later field is looked at. A field that the octets' end cuts short is an `IoError` of kind `UnexpectedEof`, and there is
    /// no other. `OutOfMemory` comes only where the data is copied.
    pub fn from_slice(alloc: Global, octets: &[u8]) -> Result<WrapToken, GssApiMessageError>
        ensures found { IfOk result (WrapIs octets.now) }
        ensures fits { IfOk result FitsWrap }
        ensures first_error { IfErr result (WrapFirstError octets.now) }
        ensures only { (t : Wrap) → FitsWrap t → WrapIs octets.now t → Answers result t }
        ensures cut { WrapIsCut octets.now → RejectsAsEof result }
    {
        token_of(alloc, octets)
    }

    /// The token that the octets are, up to the reader's end. All octets after the first 16 are the data; there is no payload.
    ///
    /// The fields are read and checked in their order: another id is `InvalidId`, another filler `InvalidWrapFiller`, and each is
    /// returned before a later field is read. A field that the reader's end cuts short is an `IoError` of kind `UnexpectedEof`, and an
    /// I/O error of the reader is `IoError` of it. `OutOfMemory` comes only while the data is read.
    pub fn decode<R: Read + Drop>(alloc: Global, reader: R) -> Result<WrapToken, GssApiMessageError>
        ensures found { IfOk result (λ t. IfSome (R.remaining reader) (λ octets. WrapIs octets t)) }
        ensures no_payload { IfOk result (λ t. t.payload ≡ None) }
        ensures fits { IfOk result FitsWrap }
        ensures rejected { IfErr result (WrapRejected (R.remaining reader)) }
        ensures only { IfSome (R.remaining reader) (λ octets. (t : Wrap) → FitsWrap t → WrapIs octets t → AnswersUnlessError result t) }
        ensures cut { IfSome (R.remaining reader) (λ octets. WrapIsCut octets → RejectsAsIo result) }
    {
        let mut reader = reader;
        read_fields(alloc, &mut reader)
    }

    /// An equal token, or `OutOfMemory`.
    pub fn clone(&self, alloc: Global) -> Result<WrapToken, GssApiMessageError>
        ensures { Answers result self.now }
    {
        Ok(WrapToken {
            flags: self.flags,
            ec: self.ec,
            rrc: self.rrc,
            seq_num: self.seq_num,
            payload: copy_payload(alloc, &self.payload)?,
            checksum: Vec::from_slice(alloc, &self.checksum)?,
        })
    }
}

impl PartialEq for WrapToken {
    ghost eq = { same_wrap };

    ghost laws = { same_wrap_per };

    fn eq(&self, other: &Self) -> bool {
        self.flags == other.flags
            && self.ec == other.ec
            && self.rrc == other.rrc
            && self.seq_num == other.seq_num
            && same_payload(&self.payload, &other.payload)
            && self.checksum.as_slice() == other.checksum.as_slice()
    }
}

impl Eq for WrapToken {
    ghost laws = { same_wrap_equiv };
}

/// The token that the octets are, up to the reader's end: its fields are read and checked in their order.
fn read_fields<R: Read>(alloc: Global, reader: &mut R) -> Result<WrapToken, GssApiMessageError>
    ensures found { IfOk result (λ t. IfSome (R.remaining reader.old) (λ octets. WrapIs octets t)) }
    ensures no_payload { IfOk result (λ t. t.payload ≡ None) }
    ensures fits { IfOk result FitsWrap }
    ensures rejected { IfErr result (WrapRejected (R.remaining reader.old)) }
{
    let mut id = [0; 2];
    reader.read_exact(&mut id)?;
    if id != WRAP_TOKEN_ID {
        return Err(GssApiMessageError::InvalidId(WRAP_TOKEN_ID, id));
    }
    let mut marks = [0; 2];
    reader.read_exact(&mut marks)?;
    let [flags, filler] = marks;
    if filler != WRAP_FILLER {
        return Err(GssApiMessageError::InvalidWrapFiller(filler));
    }
    let ec = read_u16(reader)?;
    let rrc = read_u16(reader)?;
    let seq_num = read_u64(reader)?;
    let checksum = read_rest(alloc, reader)?;
    Ok(WrapToken {
        flags,
        ec,
        rrc,
        seq_num,
        payload: None,
        checksum,
    })
}

/// The flags that the octets begin with, after the id and before the filler.
fn flags_of(octets: &[u8]) -> Result<u8, GssApiMessageError>
    ensures ok { IfOk result (λ flags. octets.now ≡ wrap_id ++ (flags ∷ 255 ∷ []) ++ drop 4 octets.now) }
    ensures whole { OnOk result (4 ≤ length octets.now) }
    ensures err { IfErr result (WrapFirstError octets.now) }
{
    if octets.len() < 2 {
        return Err(cut_short());
    }
    let id = [octets[0], octets[1]];
    if id != WRAP_TOKEN_ID {
        return Err(GssApiMessageError::InvalidId(WRAP_TOKEN_ID, id));
    }
    if octets.len() < 4 {
        return Err(cut_short());
    }
    if octets[3] != WRAP_FILLER {
        return Err(GssApiMessageError::InvalidWrapFiller(octets[3]));
    }
    Ok(octets[2])
}

/// The flags, the two counts and the sequence number of the header that the octets begin with.
fn header_of(octets: &[u8]) -> Result<(u8, u16, u16, u64), GssApiMessageError>
    ensures ok { IfOk result (λ h. octets.now ≡ wrap_header h.0 h.1 h.2 h.3 ++ drop 16 octets.now) }
    ensures whole { OnOk result (16 ≤ length octets.now) }
    ensures fits { IfOk result (λ h. (h.1 < 2 ^ 16) × (h.2 < 2 ^ 16) × (h.3 < 2 ^ 64)) }
    ensures err { IfErr result (WrapFirstError octets.now) }
{
    let flags = flags_of(octets)?;
    if octets.len() < WRAP_HEADER_LEN {
        return Err(cut_short());
    }
    let ec = big_u16([octets[4], octets[5]]);
    let rrc = big_u16([octets[6], octets[7]]);
    let mut number = [0; 8];
    number.copy_from_slice(&octets[8..WRAP_HEADER_LEN]);
    Ok((flags, ec, rrc, big_u64(number)))
}

/// The token that the octets are: its fields are looked at in their order.
fn token_of(alloc: Global, octets: &[u8]) -> Result<WrapToken, GssApiMessageError>
    ensures found { IfOk result (WrapIs octets.now) }
    ensures fits { IfOk result FitsWrap }
    ensures first_error { IfErr result (WrapFirstError octets.now) }
{
    let (flags, ec, rrc, seq_num) = header_of(octets)?;
    let checksum = Vec::from_slice(alloc, &octets[WRAP_HEADER_LEN..])?;
    Ok(WrapToken {
        flags,
        ec,
        rrc,
        seq_num,
        payload: None,
        checksum,
    })
}
