//! One signature.

ghost use Rattle.std.specs.Prelude.{◌≡◌, ◌+◌, ◌<◌, ◌≤◌, ℕ, List, Option, IfOk, IfErr, IsTrue, true, false, length, drop, unwrap_or};
ghost use Rattle.krb_pac_signatures.specs.Signature.{signature_size, signature_type, signature_length, signature, rodc_identifier, is_signature};
ghost use Rattle.krb_pac_signatures.specs.declared.error.PacSignatureError.TheVariants as errors;

use crate::error::PacSignatureError;
use byteorder::{ByteOrder, LittleEndian};
use std::marker::Model;

/// A signature of a PAC (MS-PAC 2.8, PAC_SIGNATURE_DATA) over the octets that the caller holds. It takes no memory.
///
/// A contract sees its octets.
#[derive(Drop)]
pub struct SignatureView<'a> {
    octets: &'a [u8],
}

impl<'a> Model for SignatureView<'a> {
    ghost Value = { List ℕ };

    ghost view = { λ s. s.octets.now };

    ghost invariant = { λ s. is_signature s.octets.now ≡ true };
}

impl<'a> SignatureView<'a> {
    /// The signature that the octets are: a type, the signature of the type's length, and perhaps more.
    ///
    /// `Truncated` where there are fewer; the only error. A signature of a type that is not known is all the octets after the type.
    pub fn new(octets: &'a [u8]) -> Result<Self, PacSignatureError>
        ensures ok { IfOk result (λ s. (s ≡ octets.now) × (is_signature octets.now ≡ true)) }
        ensures err { IfErr result (λ e. (e ≡ errors.Truncated) × (is_signature octets.now ≡ false)) }
    {
        if octets.len() < 4 {
            return Err(PacSignatureError::Truncated);
        }
        let (_, rest) = octets.split_at(4);
        if rest.len() < length_of(octets) {
            return Err(PacSignatureError::Truncated);
        }
        Ok(SignatureView { octets })
    }

    /// SignatureType: the number of the checksum's type, -138 (0xFFFFFF76) for HMAC-MD5.
    pub fn signature_type(&self) -> u32
        ensures { result ≡ signature_type self.now }
    {
        LittleEndian::read_u32(self.octets)
    }

    /// Signature: the octets of the checksum.
    pub fn signature(&self) -> &'a [u8]
        ensures octets { result.now ≡ signature self.now }
        ensures len { length result.now ≡ signature_length self.now }
        ensures within { 4 + length result.now ≤ length self.now }
    {
        let (_, rest) = self.octets.split_at(4);
        let (signature, _) = rest.split_at(length_of(self.octets));
        signature
    }

    /// RODCIdentifier: the two octets after the signature, where they are there; the first octets of the key version number of a
    /// read-only domain controller.
    pub fn rodc_identifier(&self) -> Option<u16>
        ensures { result ≡ rodc_identifier self.now }
    {
        let (_, rest) = self.octets.split_at(4);
        let (_, rest) = rest.split_at(length_of(self.octets));
        if rest.len() < 2 {
            return None;
        }
        Some(LittleEndian::read_u16(rest))
    }

    /// The same signature.
    pub(crate) fn again(&self) -> SignatureView<'a>
        ensures { result ≡ self.now }
    {
        SignatureView {
            octets: self.octets,
        }
    }

    /// The octets of the whole buffer.
    pub fn octets(&self) -> &'a [u8]
        ensures { result.now ≡ self.now }
    {
        self.octets
    }
}

/// How many octets a signature of a type has, where the type is known.
fn size_of_type(number: u32) -> Option<usize>
    ensures { result ≡ signature_size number }
{
    match number {
        0xffff_ff76 | 19 => Some(16),
        15 | 16 => Some(12),
        12 => Some(20),
        20 => Some(24),
        _ => None,
    }
}

/// How many octets the signature has that these are, where they are one.
fn length_of(octets: &[u8]) -> usize
    requires { 4 ≤ length octets.now }
    ensures { result ≡ signature_length octets.now }
{
    let (_, rest) = octets.split_at(4);
    size_of_type(LittleEndian::read_u32(octets)).unwrap_or(rest.len())
}
