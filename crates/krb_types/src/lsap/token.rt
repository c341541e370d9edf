//! The integrity level and the machine of a caller.

ghost use Rattle.std.specs.Prelude.{◌≡◌, ◌++◌, List, ℕ, Some, IfOk, IfErr, OnOk, OnErr};
ghost use Rattle.std.specs.Io.KnownBytes.{Appends, Consumes};
ghost use Rattle.std.specs.Int.{to_le_bytes, w32};
ghost use Rattle.krb_io.specs.Transfer.{IsNotInterrupted, IsPrefixWritten, IsShortRead};
ghost use Rattle.krb_types.specs.TokenInfo.{IsTokenInfo, lsap_token_info};

use krb_io::{read_exact, write_all};
use std::io;
use std::io::{Read, Write};

/// How many octets the identifier of a machine has (MS-KILE, 2.2.5).
pub const MACHINE_ID_LENGTH: usize = 32;

/// How many octets a record has (MS-KILE, 2.2.5).
pub const RECORD_LENGTH: usize = 40;

/// An LSAP_TOKEN_INFO_INTEGRITY (MS-KILE, 2.2.5): 40 octets, of which the numbers have their lowest octet first.
///
/// ```text
/// flags:      4 octets
/// token_il:   4 octets
/// machine_id: 32 octets
/// ```
#[derive(Debug, Clone, PartialEq, Eq, Drop)]
pub struct LsapTokenInfoIntegrity {
    /// 1 where the token is one of a user account that is restricted, else 0.
    pub flags: u32,
    /// The integrity level of the process that asks.
    pub token_il: u32,
    /// The identifier of the machine, which it draws at each start.
    pub machine_id: [u8; MACHINE_ID_LENGTH],
}

impl LsapTokenInfoIntegrity {
    /// Writes the 40 octets of the record.
    ///
    /// Every error is an I/O error of the writer, or `WriteZero` where it takes no octets. It has then taken a prefix of these
    /// octets, and not all of them. A write that a signal interrupts is tried again.
    pub fn encode<W: Write>(&self, to: &mut W) -> io::Result<()>
        ensures octets { OnOk result (Appends (W.contents to.old) (W.contents to.new) (lsap_token_info self.now)) }
        ensures prefix { OnErr result (IsPrefixWritten (lsap_token_info self.now) (W.contents to.old) (W.contents to.new)) }
        ensures retried { IfErr result IsNotInterrupted }
    {
        write_all(to, &octets_of(self))
    }

    /// The record that the reader's next 40 octets are. Exactly these are read.
    ///
    /// Where fewer are left, the error is of the kind `UnexpectedEof`. Every other error is an I/O error of the reader; a read that a
    /// signal interrupts is tried again. After an error fewer than 40 octets have been read, and the reader is of no further use.
    pub fn decode<R: Read>(from: &mut R) -> io::Result<Self>
        ensures valid { IfOk result IsTokenInfo }
        ensures found { IfOk result (λ r. Consumes (R.remaining from.old) (R.remaining from.new) (lsap_token_info r)) }
        ensures reads { (r : LsapTokenInfoIntegrity) (rest : List ℕ) → IsTokenInfo r → R.remaining from.old ≡ Some (lsap_token_info r ++ rest)
            → IfOk result (λ w. (w ≡ r) × (R.remaining from.new ≡ Some rest)) }
        ensures fewer { OnErr result (IsShortRead 40 (R.remaining from.old) (R.remaining from.new)) }
        ensures retried { IfErr result IsNotInterrupted }
    {
        let mut octets = [0; RECORD_LENGTH];
        read_exact(from, &mut octets)?;
        Ok(record_of(&octets))
    }
}

/// The 40 octets of a record. There is no error.
pub fn octets_of(info: &LsapTokenInfoIntegrity) -> [u8; RECORD_LENGTH]
    ensures { result ≡ lsap_token_info info.now }
{
    let mut octets = [0; RECORD_LENGTH];
    octets[..4].copy_from_slice(&info.flags.to_le_bytes());
    octets[4..8].copy_from_slice(&info.token_il.to_le_bytes());
    octets[8..].copy_from_slice(&info.machine_id);
    octets
}

/// The record that 40 octets are. Each 40 octets are one: there is no error.
pub fn record_of(octets: &[u8; RECORD_LENGTH]) -> LsapTokenInfoIntegrity
    ensures valid { IsTokenInfo result }
    ensures octets { lsap_token_info result ≡ octets.now }
{
    let mut machine_id = [0; MACHINE_ID_LENGTH];
    machine_id.copy_from_slice(&octets[8..]);
    LsapTokenInfoIntegrity {
        flags: number_of([octets[0], octets[1], octets[2], octets[3]]),
        token_il: number_of([octets[4], octets[5], octets[6], octets[7]]),
        machine_id,
    }
}

/// The number that four octets are, the lowest first.
fn number_of(octets: [u8; 4]) -> u32
    ensures { to_le_bytes w32 result ≡ octets }
{
    u32::from_le_bytes(octets)
}
